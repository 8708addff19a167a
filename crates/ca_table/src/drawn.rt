use crate::homes::Homes;
use ca_states::valid_code::ValidCode;
use ca_term::event::{Event, Side, WaitId};
use ca_value::value::PortId;
use std::snapshot::Snapshot;

/// What a worker draws: an event of the journal, or one that the journal doesn't show.
#[derive(Drop)]
pub enum Turned {
    Shown(Event),
    /// The first task of this ready part comes into the worker's lane.
    Pick(u64),
    /// The lane's task goes last into the worker's own ready part.
    Yield,
    /// The stale handler of that wait leaves the queue of this side of the channel.
    Prune(Side, PortId, WaitId),
    /// The clock was asked, and nothing was due.
    Read,
    /// The clock failed.
    Fail,
    /// There wasn't the memory that a worker wanted.
    Stop,
    /// The worker leaves a run whose mark is set.
    Halt,
    /// The worker leaves a run in which nothing can go on.
    Stall,
}

/// A drawn event: which worker of how many draws it. The banks of the ports that its operation names beside those of
/// the event, the shards of the waits that were looked at, and the code of the run are there for the proofs, with no bytes.
#[derive(Drop)]
pub struct Drawn {
    pub worker: u64,
    pub workers: u64,
    pub what: Turned,
    pub ports: Snapshot<Homes>,
    pub looked: Snapshot<Homes>,
    pub code: Snapshot<ValidCode>,
}
