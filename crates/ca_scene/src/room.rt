//! A channel, with a queue of waiting branches for each side.
use ca_meaning::row::Policy;
use ca_value::value::Value;
use std::collections::VecDeque;

/// A waiting branch: its wait, its number there, and the value that it brings, nil of a take.
#[derive(Drop)]
pub struct Handler {
    pub wait: u64,
    pub branch: u64,
    pub value: Value,
}

/// A channel. `capacity` is in values; `held` has the oldest first. Of each wait its first branch on a side stands in the
/// queue of that side, since no other one is ever served; so the front is found at once, and a queue is as long as there
/// are waits.
#[derive(Drop)]
pub struct Room {
    pub policy: Policy,
    pub capacity: u64,
    pub held: VecDeque<Value>,
    pub closed: bool,
    pub takes: VecDeque<Handler>,
    pub puts: VecDeque<Handler>,
}
