use crate::head::{RegisterName, SystemTask};
use crate::place::Place;
use ca_value::seq::Text;
use ca_value::value::{Items, PortId, Value, Vector};

/// What a task wants: an operation with its values, and the place of the form that asks for it. In a
/// system task that is the place of the form that made the task.
#[derive(Drop)]
pub struct Want {
    pub op: Op,
    pub place: Place,
}

/// An operation with its values.
#[derive(Drop)]
pub enum Op {
    Take(Value),
    /// A channel, and the value to put.
    Put(Value, Value),
    /// Channels, and pairs of a channel and the value to put. They are shared, so it costs nothing to ask for them again.
    Alts {
        ports: Vector,
        priority: bool,
        default: Option<Value>,
    },
    Make(What),
    Spawn(Seed),
    Close(Value),
    Register(RegisterName, Items),
    /// A whole line, its line feed with it.
    Print(Text),
    /// A channel, and the value to put.
    Post(Value, Value),
}

/// What is made at a new port.
#[derive(Drop)]
pub enum What {
    Unbuffered,
    /// A buffer of that many values, 1 to 4,096.
    Fixed(u64),
    Dropping(u64),
    Sliding(u64),
    Promise,
    /// Milliseconds, 0 to 86,400,000.
    Timeout(u64),
    /// The source.
    Mult(Value),
    /// The output, then the change channel.
    Mix(Value, Value),
    /// The source.
    Pub(Value),
}

/// What a new task is made from.
#[derive(Drop)]
pub enum Seed {
    Go(GoSeed),
    System(SystemSeed),
}

/// A go block: the number of its body, the values that the body uses from outside, the port of its
/// result and the place of its form.
#[derive(Drop)]
pub struct GoSeed {
    pub body: u64,
    pub values: Items,
    pub result: PortId,
    pub place: Place,
}

/// A system task: its kind, its values in the order of its table, and the place of its form.
#[derive(Drop)]
pub struct SystemSeed {
    pub kind: SystemTask,
    pub values: Items,
    pub place: Place,
}
