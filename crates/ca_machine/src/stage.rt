/// Where a machine stands.
#[derive(Clone, Copy)]
pub enum Stage {
    /// It is new, or was answered: its runner goes on.
    Going,
    /// Its runner halted.
    Halted,
    /// It was refused memory, and is only dropped.
    Spent,
}
