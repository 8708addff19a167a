//! The table of a run: its parts, how it is opened, what a worker holds and draws, and what was drawn once it closes.
//!
//! The one model: the parts of a run are those of `ca_commit`'s definitions, in a table of `ca_turns`, and what is drawn
//! on it is one of `ca_commit`'s events, with `ca_commit`'s moves as the table's condition. So whatever any number of
//! workers draw is one history, and each such history is a run of the script's text.
//!
//! Stands on `ca_commit`, for what a part has and what an event does to it, on `ca_turns`, for the table, and on
//! `ca_journal`, for what was noted. All agents of a run are over one code, which each part and each drawn event carries
//! for the proofs. Start with `part`, what a worker holds, then `drawn`, what it draws, then `pool`, which ties both to the
//! definitions; then `opening` and `gathering`. What a worker does between these two: `seating`, it takes its lane and
//! gives it back; `handling` and `lifting`, it holds other parts, draws an event with them and gives them back; `silent`,
//! the events that no journal shows; `laws`, what it may draw.
#![tactic(auto)]

pub mod answer;
pub mod drawn;
pub mod gathering;
pub mod handling;
mod holding;
pub mod homes;
pub mod in_hand;
pub mod laws;
pub mod lifting;
mod moving;
pub mod noting;
pub mod opening;
pub mod part;
pub mod pool;
pub mod seating;
pub mod silent;
pub mod waiting;
pub mod worker;
