//! The laws of every legal journal, of whatever program. Each is the contract of a function that does
//! nothing: what it says is in `specs/`, and the proof is of the definitions that all code is measured
//! against.

pub mod bodies;
pub mod channels;
pub mod ends;
pub mod solo;
pub mod states;
pub mod systems;
pub mod texts;
pub mod values;
pub mod waits;
pub mod worked;
