// How a worker's calls end.
ghost use Rattle.std.specs.Prelude.{◌≡◌};

use ca_value::memory::OutOfMemory as NoMemory;

/// How a call of a worker ended.
#[derive(Clone, Copy)]
pub enum WorkEnd {
    /// Its events cost the allowance.
    Spent,
    /// It found the run's end.
    Over,
}

/// Why a call of a worker, or a run, was given up.
#[derive(Clone, Copy)]
pub enum PoolStop {
    /// The clock failed.
    ClockFailed,
    /// A worker wanted memory that there wasn't.
    OutOfMemory,
}

impl From<NoMemory> for PoolStop {
    ghost use Rattle.ca_table.specs.declared.answer.PoolStop.TheVariants.{OutOfMemory};

    ghost from_gives = { λ _ e. e ≡ OutOfMemory };

    fn from(_refused: NoMemory) -> PoolStop {
        PoolStop::OutOfMemory
    }
}
