//! Why something isn't read, within a line: who reads the line adds its number.
use ca_value::memory::OutOfMemory as NoMemory;

/// Why nothing is read.
#[derive(Clone, Copy, Debug)]
pub enum Refused {
    /// What stands there isn't what is read.
    Bad,
    OutOfMemory,
}

impl From<NoMemory> for Refused {
    ghost use Rattle.std.specs.Prelude.{◌≡◌};
    ghost use Rattle.ca_journal_reader.specs.declared.refused.Refused.TheVariants.{OutOfMemory};

    ghost from_gives = { λ _ e. e ≡ OutOfMemory };

    fn from(_: NoMemory) -> Refused {
        Refused::OutOfMemory
    }
}
