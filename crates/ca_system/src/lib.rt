//! The tables of the system's tasks, whatever the kind: rows of states become a body of the meaning.
//!
//! The one model: a kind of task says what each of its states asks for and what follows on an answer, and a running task
//! of the kind is a body of its table in the meaning (`running`). Where it applies a plain function, it tells which one,
//! and takes what that comes to from whoever can apply it: compiled code, or the text itself (`application`, `returned`).
//! So no table knows of code. The words that rows are written with stand in `asks` and `operand`.
//!
//! Stands on `ca_meaning`, and on `ca_asking` for an alts and for operands by their place. Start with
//! `specs/Applications.antt`, then `stand` and `running`.
#![tactic(auto)]

pub mod application;
pub mod asks;
pub mod operand;
pub mod returned;
pub mod running;
pub mod stand;
