//! The tasks of a mult: the one that takes from its source, and the delivery of a value to a tap.
//!
//! The one model: each is a body of its table in the meaning, reached by a view of `specs/`. A mult asks its registry
//! for the taps once a value, starts a delivery to each and waits for all their answers (`mult`, over `taps`); a
//! delivery puts the value, and takes the tap off where that is closed (`deliver`).
//!
//! Stands on `ca_system`. Start with `specs/Mults.antt`, then `mult`.
#![tactic(auto)]

pub mod deliver;
pub mod mult;
mod taps;
