//! The clock, and the open timeouts.
//!
//! The one model: timers are the list of the open deadlines, in the order in which their channels close
//! (by moment, then by port), with the last moment that was reached and a number of deadlines for which
//! there is room with no growth. The order and what is due are the definitions of `ca_value`'s
//! `specs/Deadlines.antt`. A clock answers moments that never fall, and counts its faults.
//!
//! A deadline behind which none stands joins a row, so that opening those that come in order, and popping them, takes
//! one step. Another one goes into a balanced tree in front of the row, after those of the row that stand before it;
//! each deadline moves into the tree once at most. Its sides know how many they have, so that opening one there, popping
//! the first and seeing one by its place take as many steps as the tree has levels. The first of all is kept beside them.
//! Only `reserve` takes memory: a place in the row, a node for when the deadline goes into the tree, and a place for that
//! node when it is popped.
//!
//! Stands on `ca_value`. Start with `timers`, then `queue` and `tree`, then `clock`.
#![tactic(auto)]

pub mod clock;
mod deadline;
pub mod law;
mod queue;
pub mod timers;
mod tree;
