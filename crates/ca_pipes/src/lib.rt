//! The tasks behind `pipe`, `merge`, `onto-chan!` and `to-chan!`, and the two ends of a pipeline.
//!
//! The one model: each kind is its table in the meaning. A task has its ports and values, which never change, its place
//! and the state that it is in; `specs` says which body of the meaning that is, state by state. It tells the operation
//! of its state, and goes on as the row of its state says. Nothing is copied but what an operation asked for holds: a
//! vector that is put item by item is walked in place.
//!
//! Stands on `ca_system`. Start with `pipe` and `specs/PipeViews.antt`.
#![tactic(auto)]

pub mod collect;
pub mod feed;
pub mod merge;
pub mod onto;
pub mod pipe;
mod walk;
