ghost use Rattle.std.specs.Prelude.{◌≡◌, ◌+◌, ◌<◌, ◌≤◌, ◌↔◌, ◌^◌, IsTrue, OnOk, OnErr, IfOk, MatchResult, length, true, false};
ghost use Rattle.std.specs.Io.{ReadsAtMost};
ghost use Rattle.std.specs.Io.KnownBytes.{ReadConsumes, WriteAppends};
ghost use Rattle.ca_timers.specs.Causes.{HasCause, one_more};
ghost use Rattle.ca_timers.specs.Readings.{Tells, StaysTold};
ghost use Rattle.ca_run.specs.Failing.{device_of, listed_calls, calls_made, calls_failed, IsListedCall, CountsCall, CountsNothing, FailsAside};

use crate::device::{Failed, Sink, Source};
use ca_timers::clock::Clock;
use ca_value::memory::OutOfMemory;

/// A device whose listed calls fail. Calls count from 0: of a source its reads, of a sink its writes, of
/// a clock its waits.
#[derive(Drop)]
pub struct Failing<'a, D> {
    device: D,
    numbers: &'a [u64],
    calls: u64,
    faults: u64,
}

impl<'a, D> Failing<'a, D> {
    /// The device with these numbers as the list, in any order; no call is made yet.
    pub fn new(device: D, numbers: &'a [u64]) -> Failing<'a, D>
        ensures device { device_of result ≡ device }
        ensures numbers { listed_calls result ≡ numbers.now }
        ensures calls { calls_made result ≡ 0 }
        ensures none { calls_failed result ≡ 0 }
    {
        Failing {
            device,
            numbers,
            calls: 0,
            faults: 0,
        }
    }

    /// The device itself.
    pub fn device(&self) -> &D
        ensures { result.now ≡ device_of self.now }
    {
        &self.device
    }

    // Counts the call, and says whether it fails; a fault is counted too.
    fn fails(&mut self) -> bool
        ensures listed { IsTrue result ↔ IsListedCall self.old }
        ensures device { device_of self.new ≡ device_of self.old }
        ensures counted { CountsCall self.old self.new }
        ensures later { calls_failed self.old ≤ calls_failed self.new }
        ensures fault { result ≡ true → calls_failed self.new ≡ one_more (calls_failed self.old) }
        ensures steady { result ≡ false → calls_failed self.new ≡ calls_failed self.old }
    {
        let call = self.calls;
        self.calls = call.saturating_add(1);
        let listed = self.numbers.contains(&call);
        if listed {
            self.faults = self.faults.saturating_add(1);
        }
        listed
    }
}

impl<'a, S: Source> Source for Failing<'a, S> {
    ghost left = { λ s. S.left (device_of s) };

    ghost faults = { λ s. S.faults (device_of s) + calls_failed s };

    fn read(&mut self, into: &mut [u8]) -> Result<usize, Failed>
        ensures bound { ReadsAtMost result into.new }
        ensures bytes { ReadConsumes (S.left (device_of self.old)) (S.left (device_of self.new)) result into.new }
        ensures cause { HasCause (S.faults (device_of self.old) + calls_failed self.old) (S.faults (device_of self.new) + calls_failed self.new) result }
        ensures counted { CountsCall self.old self.new }
        ensures listed { IsListedCall self.old → FailsAside self.old self.new result }
        ensures unlisted { (IsListedCall self.old → ⊥) → (calls_failed self.new ≡ calls_failed self.old) × HasCause (S.faults (device_of self.old)) (S.faults (device_of self.new)) result }
    {
        if self.fails() {
            return Err(Failed);
        }
        self.device.read(into)
    }
}

impl<'a, K: Sink> Sink for Failing<'a, K> {
    ghost held = { λ s. K.held (device_of s) };

    ghost spare = { λ s. K.spare (device_of s) };

    ghost faults = { λ s. K.faults (device_of s) + calls_failed s };

    fn reserve(&mut self, n: u64) -> Result<(), OutOfMemory>
        ensures spare { OnOk result (n ≤ K.spare (device_of self.new)) }
        ensures held { K.held (device_of self.new) ≡ K.held (device_of self.old) }
        ensures faults { K.faults (device_of self.new) + calls_failed self.new ≡ K.faults (device_of self.old) + calls_failed self.old }
        ensures uncounted { CountsNothing self.old self.new }
    {
        self.device.reserve(n)
    }

    fn write(&mut self, piece: &[u8]) -> Result<usize, Failed>
        requires { length piece.now ≤ K.spare (device_of self.old) }
        ensures bound { IfOk result (λ n. n ≤ length piece.now) }
        ensures takes { IfOk result (λ n. 0 < length piece.now → 0 < n) }
        ensures spare { MatchResult result (λ n. K.spare (device_of self.old) ≤ K.spare (device_of self.new) + n) (λ _. K.spare (device_of self.old) ≤ K.spare (device_of self.new)) }
        ensures bytes { WriteAppends (K.held (device_of self.old)) (K.held (device_of self.new)) result piece.now }
        ensures cause { HasCause (K.faults (device_of self.old) + calls_failed self.old) (K.faults (device_of self.new) + calls_failed self.new) result }
        ensures counted { CountsCall self.old self.new }
        ensures listed { IsListedCall self.old → FailsAside self.old self.new result }
        ensures unlisted { (IsListedCall self.old → ⊥) → (calls_failed self.new ≡ calls_failed self.old) × HasCause (K.faults (device_of self.old)) (K.faults (device_of self.new)) result }
    {
        if self.fails() {
            return Err(Failed);
        }
        self.device.write(piece)
    }
}

impl<'a, C: Clock> Clock for Failing<'a, C> {
    ghost least = { λ c. C.least (device_of c) };

    ghost spare = { λ c. C.spare (device_of c) };

    ghost faults = { λ c. C.faults (device_of c) + calls_failed c };

    ghost readings = { λ c. C.readings (device_of c) };

    fn reserve(&mut self) -> Result<(), OutOfMemory>
        ensures spare { OnOk result (0 < C.spare (device_of self.new)) }
        ensures least { C.least (device_of self.new) ≡ C.least (device_of self.old) }
        ensures faults { C.faults (device_of self.new) + calls_failed self.new ≡ C.faults (device_of self.old) + calls_failed self.old }
        ensures readings { C.readings (device_of self.new) ≡ C.readings (device_of self.old) }
        ensures uncounted { CountsNothing self.old self.new }
    {
        self.device.reserve()
    }

    fn now(&mut self) -> u64
        requires { 0 < C.spare (device_of self.old) }
        ensures bound { result < 2 ^ 62 }
        ensures later { C.least (device_of self.old) ≤ result }
        ensures least { C.least (device_of self.new) ≡ result }
        ensures spare { C.spare (device_of self.old) ≤ C.spare (device_of self.new) + 1 }
        ensures faults { C.faults (device_of self.new) + calls_failed self.new ≡ C.faults (device_of self.old) + calls_failed self.old }
        ensures readings { Tells (C.readings (device_of self.old)) (C.readings (device_of self.new)) result }
        ensures uncounted { CountsNothing self.old self.new }
    {
        self.device.now()
    }

    fn wait_until(&mut self, ask: u64) -> Result<u64, Failed>
        requires room { 0 < C.spare (device_of self.old) }
        requires bound { ask < 2 ^ 62 }
        ensures bound { IfOk result (λ m. m < 2 ^ 62) }
        ensures reached { IfOk result (λ m. ask ≤ m) }
        ensures later { IfOk result (λ m. C.least (device_of self.old) ≤ m) }
        ensures least { IfOk result (λ m. C.least (device_of self.new) ≡ m) }
        ensures never_falls { C.least (device_of self.old) ≤ C.least (device_of self.new) }
        ensures spare { C.spare (device_of self.old) ≤ C.spare (device_of self.new) + 1 }
        ensures steady { OnOk result (C.faults (device_of self.new) + calls_failed self.new ≡ C.faults (device_of self.old) + calls_failed self.old) }
        ensures cause { HasCause (C.faults (device_of self.old) + calls_failed self.old) (C.faults (device_of self.new) + calls_failed self.new) result }
        ensures readings { IfOk result (λ m. Tells (C.readings (device_of self.old)) (C.readings (device_of self.new)) m) }
        ensures silent { OnErr result (StaysTold (C.readings (device_of self.old)) (C.readings (device_of self.new))) }
        ensures counted { CountsCall self.old self.new }
        ensures listed { IsListedCall self.old → FailsAside self.old self.new result }
        ensures unlisted { (IsListedCall self.old → ⊥) → (calls_failed self.new ≡ calls_failed self.old) × HasCause (C.faults (device_of self.old)) (C.faults (device_of self.new)) result }
    {
        if self.fails() {
            return Err(Failed);
        }
        self.device.wait_until(ask)
    }
}
