ghost use Rattle.std.specs.Prelude.{◌<◌, ◌^◌, None};

use ca_timers::clock::{Clock, Failed};
use ca_value::memory::OutOfMemory;
use std::hint;

// The last moment that a clock may show.
const LAST_MOMENT: u64 = 4_611_686_018_427_387_903;

// How long a slow clock takes to tell the moment, in looks of one who spins: some milliseconds.
const SLOW_LOOKS: u64 = 100_000;

/// The clock of a row: it stands at 0 first, rises by so many milliseconds at each look, and goes at once to a moment for
/// which it is to wait. A slow one takes so long to tell the moment that another worker sleeps until the timers are free.
#[derive(Drop)]
pub struct RowClock {
    moment: u64,
    rise: u64,
    is_slow: bool,
    askings: u64,
    ghost bound: { moment < 2 ^ 62 },
}

impl RowClock {
    /// A clock that was never asked.
    pub fn new(rise: u64, is_slow: bool) -> RowClock {
        RowClock {
            moment: 0,
            rise,
            is_slow,
            askings: 0,
        }
    }

    /// How often it was asked.
    pub fn askings(&self) -> u64 {
        self.askings
    }
}

impl Clock for RowClock {
    ghost least = { λ c. c.moment };

    ghost spare = { λ _. 1 };

    ghost faults = { λ _. 0 };

    ghost readings = { λ _. None };

    fn reserve(&mut self) -> Result<(), OutOfMemory> {
        Ok(())
    }

    fn now(&mut self) -> u64 {
        if self.is_slow {
            for _look in 0..SLOW_LOOKS {
                hint::spin_loop();
            }
        }
        self.askings = self.askings.saturating_add(1);
        self.moment = self.moment.saturating_add(self.rise).min(LAST_MOMENT);
        self.moment
    }

    fn wait_until(&mut self, ask: u64) -> Result<u64, Failed> {
        self.askings = self.askings.saturating_add(1);
        self.moment = self.moment.max(ask);
        Ok(self.moment)
    }
}
