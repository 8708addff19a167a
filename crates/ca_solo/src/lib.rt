//! The schedule of one worker, as positions and moves.
//!
//! The one model: a position (`specs/Positions.antt`) is the state that the worker's parts stand for, what they
//! hold, and what the worker knows of the channels that may settle. Its moves (`specs/Moves.antt`) are those of the
//! worker's code, silent ones among them, while the stated schedule (`Solo` of `ca_meaning`) tells of events alone.
//! `Alone` says that the events so far are those of one worker who stands at a position.
//!
//! The laws are contracts of functions that do nothing. Stands on `ca_meaning`. Start with `specs/Stirs.antt`, then
//! `specs/Positions.antt`, `specs/Moves.antt`, `specs/Alone.antt` and `schedule`.
#![tactic(auto)]

pub mod rounds;
pub mod schedule;
pub mod seats;
pub mod stillness;
pub mod stirring;
