use ca_value::builtin::Builtin;

/// What an `Apply` term does once its operands are values: the static part of an operation, a call, a
/// builtin or a `recur`.
#[derive(Clone, Copy)]
pub enum Head {
    /// Goes back to the loop that stands around it, with new values.
    Recur,
    Builtin(Builtin),
    /// A call of the function of that number.
    Call(u64),
    Take,
    Put,
    Alts(AltsOptions),
    Make(MakeKind),
    Spawn(SeedKind),
    Close,
    Register(RegisterName),
    Print,
    /// A put that waits without its task.
    Post,
}

/// Which options an alts has, in the order in which they are evaluated after its vector of ports.
#[derive(Clone, Copy)]
pub enum AltsOptions {
    None,
    Priority,
    Default,
    PriorityThenDefault,
    DefaultThenPriority,
}

/// What a Make makes of its operands.
#[derive(Clone, Copy)]
pub enum MakeKind {
    /// `(chan)`.
    Unbuffered,
    /// `(chan n)`: nil and 0 make an unbuffered channel.
    Sized,
    /// `(chan (buffer n))`.
    Fixed,
    Dropping,
    Sliding,
    Promise,
    Timeout,
    Mult,
    Mix,
    Pub,
}

/// The kind of a new task: a go block, with the number of its body, or one of the system's tasks.
#[derive(Clone, Copy)]
pub enum SeedKind {
    Go(u64),
    System(SystemTask),
}

/// The kind of a system task. `Pub` and `Job` apply a plain function; where it is a keyword, that
/// keyword is the last of the task's values.
#[derive(Clone, Copy, PartialEq, Eq)]
pub enum SystemTask {
    Mult,
    Deliver,
    Mix,
    Pub(PlainFunction),
    Pipe,
    Merge,
    Onto,
    Feed,
    Job(Transform, PlainFunction),
    Collect,
}

/// A function without operations, of one argument.
#[derive(Clone, Copy, PartialEq, Eq)]
pub enum PlainFunction {
    /// The program's function of that number.
    Defined(u64),
    Builtin(Builtin),
    /// A keyword, looked up in its argument.
    Keyword,
}

/// How a pipeline makes outputs of one input.
#[derive(Clone, Copy, PartialEq, Eq)]
pub enum Transform {
    Map,
    Filter,
    Mapcat,
}

/// An operation on a mult, a mix or a publication.
#[derive(Clone, Copy, PartialEq, Eq)]
pub enum RegisterName {
    Tap,
    Untap,
    UntapAll,
    Taps,
    Admix,
    Unmix,
    UnmixAll,
    Toggle,
    SoloMode,
    Modes,
    Find,
    Place,
    Drop,
    Clear,
    Topics,
}
