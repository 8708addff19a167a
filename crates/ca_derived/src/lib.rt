//! Derived forms: `alt!`, `alt!!`, `reduce`, `into`, `split` and `take`, rewritten into forms that the checker knows.
//!
//! The one model: a script is expanded form by form, a list's shape being judged as it is written, then its parts
//! expanded from left to right, and these put into the row of its word (`specs/Expand.antt`). The rows are in
//! `specs/Rows.antt` and `specs/Choice.antt`, the shapes in `specs/Shapes.antt`. Names that a row needs are hidden: they
//! hold the byte `#`, which no script can write. Nested rows have the same ones, which is right: a row puts each
//! expanded part in as a whole, in one place, and each hidden name that a part uses is bound within it.
//!
//! `expand` walks, `shape` judges, `rows` and `choice` build the rows, from tables that `template` reads. Stands on
//! `ca_reader`. Start with `expand`.
#![tactic(auto)]

mod choice;
mod copy;
pub mod error;
pub mod expand;
pub mod laws;
mod name;
mod rows;
mod shape;
mod template;
mod word;
