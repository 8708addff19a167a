//! Tasks as operations and answers.
//!
//! The one model: an agent stands for a task's body. It goes on to the body's next operation, end or fault, tells
//! where it is paused there, and takes the operation's answer. `specs/Agents.antt` says what an agent owes; the parts
//! of a run speak of nothing else of it, so compiled text, the tables of the system's tasks and the plain body are
//! exchanged for one another freely.
//!
//! Stands on `ca_lower`, for the code of a program. Start with `specs/Agents.antt`, then `agent`, and
//! `starting` for the agents of new tasks.
#![tactic(auto)]

pub mod agent;
pub mod starting;
