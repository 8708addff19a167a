use ca_term::event::{Branch, Side, TaskKind, WaitId};
use ca_term::fault::Fault;
use ca_term::head::RegisterName;
use ca_term::operation::What;
use ca_value::seq::{Seq, Text};
use ca_value::value::{Items, PortId, Value};

/// A branch that is ready: its number, the branch for the event, the value that a put brings once more (nil for a
/// take), and whether it is one of an alts, whose task gets the port too.
#[derive(Drop)]
pub struct Chosen {
    pub branch: u64,
    pub operation: Branch,
    pub value: Value,
    pub of_alts: bool,
}

/// What a new wait brings to its queues: one branch, which takes no list, or more.
#[derive(Drop)]
pub enum Handlers {
    One(Branch),
    Many(Seq<Branch>),
}

/// The branches of a new wait, for the event and once more for the queues.
#[derive(Drop)]
pub struct Joining {
    pub branches: Seq<Branch>,
    pub handlers: Handlers,
}

/// What an operation becomes, with copies of its values.
#[derive(Drop)]
pub enum Plan {
    Done(Chosen),
    /// The wait that it meets, and the number of that wait's branch.
    Meet(Chosen, WaitId, u64),
    Park(Joining),
    Post(Joining),
    Default(Value),
    Make(What),
    /// The kind of the new task, and its result port.
    Spawn(TaskKind, Option<PortId>),
    Close(PortId),
    /// The arguments, for the event and once more for the registry.
    Register(RegisterName, Items, Items),
    Print(Text),
    /// The decision hangs on this wait, whose shard isn't held.
    Look(WaitId),
    /// It hangs on the stale handler at that place of the queue.
    Prune(PortId, Side, u64),
    /// The task faults: one of the faults that are judged at the event.
    Refused(Fault),
}
