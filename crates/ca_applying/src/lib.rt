//! Plain functions, applied by the tasks of the library.
//!
//! The one model: a plain function of a value comes to a value, or to a fault at a place, as the meaning says (`Applied`).
//! It is a function of the program, which is called by itself in its compiled code, or a builtin, or a keyword.
//!
//! Stands on `ca_states` and `ca_lower`, and on `ca_system` for what is applied and what it comes to. Start with `call`
//! and `apply`.
#![tactic(auto)]

pub mod apply;
pub mod call;
