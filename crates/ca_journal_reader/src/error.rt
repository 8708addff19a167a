//! Why bytes are no journal, as a caller is told.
use ca_value::memory::OutOfMemory as NoMemory;

/// Why bytes are read as no journal.
#[derive(Clone, Copy, Debug)]
pub enum JournalError {
    /// The first line, counted from 0, that isn't one of a journal with this number.
    BadLine(u64),
    OutOfMemory,
}

impl From<NoMemory> for JournalError {
    ghost use Rattle.std.specs.Prelude.{◌≡◌};
    ghost use Rattle.ca_journal_reader.specs.declared.error.JournalError.TheVariants.{OutOfMemory};

    ghost from_gives = { λ _ e. e ≡ OutOfMemory };

    fn from(_: NoMemory) -> JournalError {
        JournalError::OutOfMemory
    }
}
