use crate::fault::Fault;
use crate::head::RegisterName;
use crate::operation::What;
use crate::place::Place;
use ca_value::seq::{Seq, Text};
use ca_value::value::{Items, PortId, Value};

/// The side of a channel that an operation stands on.
#[derive(Clone, Copy)]
pub enum Side {
    Take,
    Put,
}

/// The kind of a new task, as a journal tells it. Which body it runs, or which function it applies, its seed tells.
#[derive(Clone, Copy)]
pub enum TaskKind {
    Go,
    Mult,
    Deliver,
    Mix,
    Pub,
    Pipe,
    Merge,
    Onto,
    Feed,
    Job,
    Collect,
}

/// The number of a wait.
#[derive(Clone, Copy)]
pub struct WaitId {
    pub n: u64,
}

/// One operation of a wait.
#[derive(Drop)]
pub enum Branch {
    Take(PortId),
    Put(PortId, Value),
}

/// One event of a run. Tasks are numbered; the main text is task 0.
#[derive(Drop)]
pub enum Event {
    /// A task makes a port. A timeout has the moment of its making, in milliseconds.
    Make {
        task: u64,
        port: PortId,
        what: What,
        moment: Option<u64>,
    },
    /// A task makes a task, which has a result port or none.
    Spawn {
        task: u64,
        spawned: u64,
        kind: TaskKind,
        result: Option<PortId>,
    },
    /// A branch of a task's operation is done at once. At a take the answer is the value taken; at a
    /// put it is the boolean.
    Done {
        task: u64,
        branch: u64,
        operation: Branch,
        answer: Value,
    },
    /// A task's branch meets a branch of a wait, and the value passes from the put to the take.
    Meet {
        task: u64,
        branch: u64,
        side: Side,
        port: PortId,
        value: Value,
        wait: WaitId,
        other: u64,
    },
    /// A task waits on a new wait.
    Park {
        task: u64,
        wait: WaitId,
        branches: Seq<Branch>,
    },
    /// A put waits on a new wait, without its task.
    Post {
        task: u64,
        wait: WaitId,
        port: PortId,
        value: Value,
    },
    /// A branch of a wait is done by its channel.
    Settle {
        wait: WaitId,
        branch: u64,
        side: Side,
        port: PortId,
        value: Value,
    },
    /// An alts takes its default.
    Default {
        task: u64,
        value: Value,
    },
    Close {
        task: u64,
        port: PortId,
    },
    Register {
        task: u64,
        name: RegisterName,
        arguments: Items,
        answer: Value,
    },
    /// A whole line, its line feed with it.
    Print {
        task: u64,
        line: Text,
    },
    /// The clock reaches a moment, and the channels of the due timeouts close.
    Tick {
        moment: u64,
        ports: Seq<PortId>,
    },
    End {
        task: u64,
        ending: Ending,
    },
}

/// How a task is over.
#[derive(Clone, Copy)]
pub enum Ending {
    /// Its body has a value.
    Ended,
    /// It faulted at that place; its result port, where it has one, is closed.
    Faulted {
        fault: Fault,
        place: Place,
        result: Option<PortId>,
    },
}
