use crate::answer::{PoolStop, WorkEnd};
use crate::pool::Pool;
use ca_agent::agent::Agent;
use ca_journal::entries::Entries;
use ca_states::valid_code::ValidCode;
use ca_term::program::Program;
use ca_timers::clock::Clock;
use ca_turns::Hand;
use std::snapshot::Snapshot;

/// One of a pool's workers: its number from 0 on, of how many, its hand of the table, the events of the journal
/// that it drew, with their numbers, and how its last call ended. The program and its code are there for the proofs, with no bytes.
#[derive(Drop)]
pub struct Worker<A: Agent, C: Clock + Drop> {
    pub number: u64,
    pub workers: u64,
    pub program: Snapshot<Program>,
    pub code: Snapshot<ValidCode>,
    pub hand: Hand<Pool<A, C>>,
    pub entries: Entries,
    pub answer: Result<WorkEnd, PoolStop>,
}
