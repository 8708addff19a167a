//! From programs to code that stands for them.
//!
//! The one model: a runner goes as the body of its text does, after any answers (`specs/Lowered.antt`).
//! `specs/Implements.antt` says which code implements a term, by recursion on the term, and
//! `specs/Emit.antt` how a program's code is laid out. `laws` has the theorems: code that implements a
//! program's texts stands for it, and the code that is laid out does, and is valid. `code` makes that code, and `lower` is the call.
//!
//! Stands on `ca_states` and `ca_meaning`. Start with `specs/Lowered.antt`, `specs/Emit.antt` and `laws`, then
//! `lower`.
#![tactic(auto)]

mod builder;
pub mod code;
mod emit;
pub mod laws;
pub mod lower;
mod sizes;
mod text;
mod width;
