//! A run along a given journal: the compiled tasks of a script make the events that the journal tells of.
//!
//! The one model: a `Follower` is a run on one thread that holds all parts, with all its tasks in one table. For each event of
//! the journal it makes its own: the task goes on to its next pause and its operation is planned over the parts, with the
//! journal's new numbers, its branch to begin with and its moment. An event that the meaning allows is the very one that is
//! made; so where they differ, the journal is no run.
//!
//! Stands on `ca_commit`, which plans and makes events, and on `ca_tasks`. Start with `specs/Follows.antt` and `laws`, then
//! `following`, `follower`, `stepping` and `operating`.
#![tactic(auto)]

mod ending;
mod follower;
pub mod following;
pub mod laws;
mod operating;
mod reading;
mod settling;
mod stepping;
mod tasks;
