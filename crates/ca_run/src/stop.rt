/// Why a call of the program has no answer, and its clock.
#[derive(Drop)]
pub enum Stop<C> {
    /// The source failed.
    SourceFailed(C),
    /// There is not the memory. A run that wanted it has given up the clock, too.
    OutOfMemory(Option<C>),
    /// The clock failed.
    ClockFailed(C),
}
