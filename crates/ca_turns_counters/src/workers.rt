use crate::counters::Counters;
use ca_turns::Hand;

/// A hand with the numbers of the events that it drew, and maybe a hand that it takes in on the way.
#[derive(Drop)]
pub struct Worker {
    pub hand: Hand<Counters>,
    pub numbers: Vec<u64>,
    pub spare: Option<Hand<Counters>>,
}
