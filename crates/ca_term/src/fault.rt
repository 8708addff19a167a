/// What a script can do wrong while it runs.
#[derive(Clone, Copy, PartialEq, Eq)]
pub enum Fault {
    /// A sum, difference, product, quotient or negation outside 64 bits.
    Overflow,
    /// `quot`, `rem` or `mod` by 0.
    ZeroDivisor,
    /// An argument of another kind than the one that is asked for.
    WrongKind,
    /// An index or a number outside its range.
    OutOfRange,
    /// A weight over 65,536.
    TooHeavy,
    /// A depth over 64.
    TooNested,
    /// The 1,000,000th call or `recur` of a task since its last event.
    Spun,
    /// A call inside 256 calls.
    TooDeep,
    /// One more wait to take from a channel where 1,024 have a take.
    TooManyTakes,
    /// One more wait to put into a channel where 1,024 have a put.
    TooManyPuts,
    /// A put of nil.
    NilPut,
    /// An alts without a port.
    NoPorts,
    /// An operand that isn't a port of the kind needed.
    NotAPort,
    /// An alts with more than 256 ports.
    TooManyPorts,
    /// A registry at its limit.
    TooManyMembers,
}
