ghost use Rattle.std.specs.Prelude.{◌≡◌, ◌+◌, ◌<◌, ◌≤◌, ◌^◌, ℕ, List, Option, OnOk, OnErr, IfOk};
ghost use Rattle.ca_timers.specs.Causes.{HasCause};
ghost use Rattle.ca_timers.specs.Readings.{Tells, StaysTold};

use ca_value::memory::OutOfMemory;

/// A device did not do what it was asked for.
#[derive(Clone, Copy, PartialEq, Eq, Debug)]
pub struct Failed;

/// Where moments come from: milliseconds below 2^62 that never fall.
pub trait Clock {
    /// A moment that no later answer is below; it never falls.
    ghost least: { Self → ℕ };

    /// How many more askings there is room for.
    ghost spare: { Self → ℕ };

    /// How often it has failed; it never falls.
    ghost faults: { Self → ℕ };

    /// All answers so far, where the clock tells them.
    ghost readings: { Self → Option (List ℕ) };

    /// Makes room for an asking, asks nothing and changes nothing else.
    fn reserve(&mut self) -> Result<(), OutOfMemory>
        ensures spare { OnOk result (0 < spare self.new) }
        ensures least { least self.new ≡ least self.old }
        ensures faults { faults self.new ≡ faults self.old }
        ensures readings { readings self.new ≡ readings self.old };

    /// The moment.
    fn now(&mut self) -> u64
        requires { 0 < spare self.old }
        ensures bound { result < 2 ^ 62 }
        ensures later { least self.old ≤ result }
        ensures least { least self.new ≡ result }
        ensures spare { spare self.old ≤ spare self.new + 1 }
        ensures faults { faults self.new ≡ faults self.old }
        ensures readings { Tells (readings self.old) (readings self.new) result };

    /// Waits until a moment that is no less than the asked one, and answers it.
    fn wait_until(&mut self, ask: u64) -> Result<u64, Failed>
        requires room { 0 < spare self.old }
        requires bound { ask < 2 ^ 62 }
        ensures bound { IfOk result (λ m. m < 2 ^ 62) }
        ensures reached { IfOk result (λ m. ask ≤ m) }
        ensures later { IfOk result (λ m. least self.old ≤ m) }
        ensures least { IfOk result (λ m. least self.new ≡ m) }
        ensures never_falls { least self.old ≤ least self.new }
        ensures spare { spare self.old ≤ spare self.new + 1 }
        ensures steady { OnOk result (faults self.new ≡ faults self.old) }
        ensures cause { HasCause (faults self.old) (faults self.new) result }
        ensures readings { IfOk result (λ m. Tells (readings self.old) (readings self.new) m) }
        ensures silent { OnErr result (StaysTold (readings self.old) (readings self.new)) };
}

/// A clock that is lent is a clock.
impl<C: Clock> Clock for &mut C {
    ghost least = { λ c. C.least c.now };

    ghost spare = { λ c. C.spare c.now };

    ghost faults = { λ c. C.faults c.now };

    ghost readings = { λ c. C.readings c.now };

    fn reserve(&mut self) -> Result<(), OutOfMemory> {
        (**self).reserve()
    }

    fn now(&mut self) -> u64 {
        (**self).now()
    }

    fn wait_until(&mut self, ask: u64) -> Result<u64, Failed> {
        (**self).wait_until(ask)
    }
}
