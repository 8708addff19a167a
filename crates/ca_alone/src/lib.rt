//! What the turns of a lone worker say: the desk of the schedule, read off the contents of the parts, and each turn as
//! a move of the schedule.
//!
//! The one model: the contents of the parts of a run with one worker stand for a position of the schedule of `ca_solo`
//! (`IsPosition` of `specs/Standing.antt`). To the only hand of a table its own turns are the history, so that what lies
//! in all parts is what these left, and `StandsAlone` of `specs/Lone.antt` says of them that they are the schedule's so
//! far, and where the worker stands. Nothing runs: the laws are contracts of functions that do nothing.
//!
//! Stands on `ca_table` and `ca_solo`. Start with `specs/Reading.antt`, `specs/Standing.antt`, `lane_events` and
//! `turning`; then `specs/Lone.antt` and `lone_hands`; then `specs/Schedule.antt`, where a worker's functions have come
//! to in the schedule.
#![tactic(auto)]

pub mod clocks;
pub mod cutting;
pub mod deciding;
pub mod holding;
pub mod lane_events;
pub mod lone_hands;
pub mod turning;
