/// What a command line asks for.
#[derive(Clone, Copy, PartialEq, Eq)]
pub enum Command {
    /// To run the script.
    Run {
        /// The number of workers, 1 to 16.
        workers: u64,
        /// The cost at which the run ends, 1 to 4,000,000.
        budget: u64,
        /// Whether the journal follows the output.
        journal: bool,
    },
    /// To read and check the script alone.
    Check,
    /// To run the generator's script for a number.
    Load {
        /// The number, 1 to 20,000.
        n: u64,
        /// The number of workers, 1 to 16.
        workers: u64,
    },
    /// To say whether a journal is a legal run of a script.
    Replay,
    /// To run a script along a journal.
    Follow,
    /// To say what each channel did in a journal, and who still waits.
    Report,
}

/// Why words are no command.
#[derive(Clone, Copy, PartialEq, Eq)]
pub enum WordsError {
    /// The words are not admitted.
    Usage,
    /// Memory ran out.
    OutOfMemory,
}
