//! Compiled bodies as agents.
//!
//! The one model: a machine is a runner over its code, and where it is paused. It stands for a script's text as
//! `specs/Machines.antt` says: over lowered code it meets the operations of its body, with the same values, ends or
//! faults alike and with as many turns, after any answers.
//!
//! Stands on `ca_agent` and `ca_lower`. Start with `specs/Machines.antt`, then `machine`, `start`, `starting` and `agent`.
#![tactic(auto)]

mod agent;
pub mod machine;
pub mod stage;
mod start;
mod starting;
