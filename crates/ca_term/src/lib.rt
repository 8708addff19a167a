//! Kernel terms and programs, what a task asks for, and the events of a run.
//!
//! The one model: each type has a pure twin in `specs/`, reached by a view. A term is a `Kernel`, an
//! operation an `OpView`, a seed a `SeedView`, an event an `EventView`. Contracts speak of the twins;
//! addresses and spare capacity are no part of them.
//!
//! Names are numbers: a binder carries the number of the name that it binds, and the numbers on one
//! path through a term differ. So a closed value is put in for a name by a plain recursion.
//!
//! Stands on `ca_value`. Start with `head` and `term`, then `operation` and `event`.
#![tactic(auto)]

pub mod copy;
mod cost;
pub mod event;
pub mod fault;
pub mod head;
pub mod operation;
pub mod place;
pub mod program;
pub mod put;
pub mod term;
