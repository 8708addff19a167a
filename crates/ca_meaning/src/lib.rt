//! The direct meaning of programs, and what their runs are.
//!
//! The one model: a task's body is a term that is rewritten whole. Its redex is the leftmost innermost
//! place that isn't a value; a local step puts what the redex contracts to in its place, and an answer
//! takes the place of an operation. A run is a list of events that lead from the opening state to a state,
//! one by one. Nothing here is ever cut into pieces: all compiled code is measured against this crate.
//!
//! Stands on `ca_value`, `ca_term` and, for what an operation asks for, `ca_asking`. Start with `specs/Redex.antt`, `specs/Body.antt` and
//! `specs/Steps.antt`, then `body`.
#![tactic(auto)]

pub mod beginning;
pub mod body;
mod contract;
pub mod laws;
pub mod redex;
pub mod replace;
pub mod rest;
pub mod row;
mod standing;
pub mod started;
pub mod text;
mod want;
