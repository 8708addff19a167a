use ca_commit::held::{HeldBank, HeldShard};
use ca_commit::task::{Ready, Task};
use ca_states::valid_code::ValidCode;
use ca_term::program::Program;
use ca_timers::timers::Timers;
use std::snapshot::Snapshot;

/// Why the workers stop before all is done. It is set once.
#[derive(Clone, Copy)]
pub enum Mark {
    Unmarked,
    /// The main text has ended or faulted.
    MainOver,
    ClockFailed,
    /// A worker wanted memory that there wasn't.
    Stopped,
}

/// How many numbers a worker gave to tasks, ports and waits.
#[derive(Clone, Copy)]
pub struct Counts {
    pub tasks: u64,
    pub ports: u64,
    pub waits: u64,
}

/// A worker's own: the task that it runs, how many events it made since it was picked, and the numbers that the worker
/// gave. The program is there for the proofs, with no bytes.
#[derive(Drop)]
pub struct Lane<A> {
    pub program: Snapshot<Program>,
    pub task: Option<Task<A>>,
    pub since: u64,
    pub counts: Counts,
}

/// The open deadlines and the moment of the run, the clock, and the mark.
#[derive(Drop)]
pub struct Clockwork<C> {
    pub timers: Timers,
    pub clock: C,
    pub mark: Mark,
}

/// What a part is.
#[derive(Drop)]
pub enum Contents<A, C> {
    Lane(Box<Lane<A>>),
    Bank(HeldBank),
    Shard(HeldShard<A>),
    Timers(Box<Clockwork<C>>),
    Ready(Ready<A>),
    /// It was moved out of the hand that holds it.
    Away,
}

/// A part of a run of so many workers. They are numbered in this order: a lane for each worker, 16 banks, 16 shards,
/// the timers, and a ready part for each worker. Port or wait n is in bank or shard n modulo 16. The code, which is that
/// of the run, is there for the proofs, with no bytes.
#[derive(Drop)]
pub struct Part<A, C> {
    pub workers: u64,
    pub code: Snapshot<ValidCode>,
    pub contents: Contents<A, C>,
}
