//! One operation becomes one event over the parts that a worker holds.
//!
//! What the parts of a run have in them, which of them an event touches and how it moves them, and when they stand for
//! a state of the meaning: these are definitions, with their laws in `laws`. `planning::plan` decides what an operation
//! becomes. It looks at nothing but held parts: the channels and registries of the held banks, and what the held shards
//! tell of a wait. Its answer is one function of these (`planned`), branch by branch and row by row. What the event of
//! the plan needs is made by `applying::reserve`; then `applying::apply` is the event, and takes no memory. What it does
//! to the held parts is one function of the plan, and `decisions` tells that this is how the event moves them.
//!
//! The common events need no plan: `sight` tells what is seen of a branch in its channel alone, and the calls of `in_place`
//! and `settle_in_place` make the event where the parts lie. Both ways are made of the same functions over one bank or
//! shard, and `decisions` tells that such a call is the plan of its operation, applied.
//!
//! The one model: contents of parts by their numbers. What an event touches is gathered into maps that have these parts
//! alone, so nothing that it says can hang on another part.
//!
//! Stands on `ca_value`, `ca_term`, `ca_meaning`, `ca_agent`, `ca_timers` and `ca_bank`. Start with
//! `specs/Contents.antt`, `specs/Touched.antt` and `specs/Moving.antt`, then `laws`; for decision with
//! `specs/Finding.antt` and `specs/Planning.antt`, then `finding` and `planning`; for what an event does with
//! `specs/Applying.antt`, then `applying`; for the calls in place with `specs/InPlace.antt`, then `sight` and `in_place`.
#![tactic(auto)]

pub mod applying;
mod branching;
mod changing;
pub mod choosing;
pub mod clock;
mod counting;
pub mod decisions;
pub mod doing;
pub mod entering;
pub mod finding;
mod fit;
pub mod going;
pub mod held;
pub mod in_place;
pub mod laws;
pub mod listing;
pub mod making;
pub mod meeting;
pub mod new_port;
pub mod parking;
pub mod planned;
pub mod planning;
pub mod pruning;
mod registering;
mod replying;
mod reserving;
pub mod serving;
pub mod settle_in_place;
pub mod settling;
pub mod sight;
pub mod standing;
pub mod task;
mod waiting;
