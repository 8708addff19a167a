//! Clojure values as the profile has them.
//!
//! The one model: a value is a tree of plain data, `Tree` of `specs/Tree.antt`, reached by `view`. All
//! contracts speak of trees; addresses and spare capacity are no part of one. Lists are `Seq`, seen as
//! a list and, beside it, the number of items that fit with no growth.
//!
//! Stands on std and `itoa` alone. Start with `seq`, then `value`, then a call of your choice: `copy`,
//! `equal`, `same` (the same tree), `measure` (weight and depth), `print` (the plain and the readable
//! text). `builtin` has the builtins; their table, a row for each, is the definition `answer` of
//! `specs/Builtins.antt`.
#![tactic(auto)]

pub mod builtin;
pub mod copy;
pub mod equal;
pub mod fault;
pub mod map;
pub mod measure;
pub mod memory;
pub mod print;
pub mod same;
pub mod seq;
pub mod value;
pub mod vector;
