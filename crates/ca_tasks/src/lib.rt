//! The tasks of a run: compiled text, and the system's tables.
//!
//! The one model: a task is a machine or a system task of one of the ten kinds, and stands for what that stands for. So
//! the parts of a run, which know nothing but agents, run whatever a script starts.
//!
//! A system task is a table with where it is, and a lawful agent whatever its table (`system`): it follows the answer, and
//! applies the functions that its table asks for in compiled code.
//!
//! Stands on `ca_machine`, on `ca_system_tasks` for the tables and on `ca_applying` for their functions. Start with `task`,
//! then `system`, and `starting` for the task of a seed.
#![tactic(auto)]

mod agent;
mod starting;
pub mod system;
pub mod task;
