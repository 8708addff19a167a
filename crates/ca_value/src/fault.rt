/// The faults that a builtin can have.
#[derive(Clone, Copy)]
pub enum ValueFault {
    /// A sum, a difference, a product, a negation or a quotient outside 64 bits.
    Overflow,
    /// A division by zero.
    ZeroDivisor,
    /// An argument of another kind than the builtin takes.
    WrongKind,
    /// An index or a number outside its range.
    OutOfRange,
    /// A result that weighs more than 65,536.
    TooHeavy,
    /// A result that is deeper than 64.
    TooNested,
}

/// Why a builtin gives no value.
#[derive(Clone, Copy)]
pub enum ApplyError {
    /// The arguments are at fault.
    Fault(ValueFault),
    /// Memory that the result needs was refused.
    OutOfMemory,
}
