ghost use Rattle.std.specs.Prelude.{◌≡◌, ◌+◌, ◌<◌, ◌≤◌, ℕ, List, true, length, not, slice_get, option_map, OnOk};
ghost use Rattle.ca_value.specs.Tree.{Tree};
ghost use Rattle.ca_value.specs.View.{view};
ghost use Rattle.ca_value.specs.Buffer.{Policy, is_promise, is_full, room_by, keep, value_dropped, give_first, value_given};

use ca_value::memory::OutOfMemory;
use ca_value::value::Value;

/// What a channel keeps its values in. (core.async API reference: `buffer`, `dropping-buffer`,
/// `sliding-buffer`, `promise-chan`.)
pub trait Buffer: Drop {
    /// How it treats a value for which it has no place.
    ghost policy: { Self → Policy };

    /// How many values it holds at most.
    ghost capacity: { Self → ℕ };

    /// The values that it holds, the oldest first.
    ghost held: { Self → List Tree };

    /// How many more values there is room for with no growth.
    ghost spare: { Self → ℕ };

    /// Whether it takes no further value; a buffer that drops values or keeps its first always takes one.
    fn is_full(&self) -> bool
        ensures full { result ≡ not (room_by (policy self.now) (is_full (capacity self.now) (held self.now))) }
        ensures within { length (held self.now) ≤ capacity self.now };

    /// The oldest value, or None where there is none.
    fn first(&self) -> Option<&Value>
        ensures { option_map (λ v. view v.now) result ≡ slice_get (held self.now) 0 };

    /// Whether its value stays when it is given: true for a promise alone.
    fn keeps(&self) -> bool
        ensures { result ≡ is_promise (policy self.now) };

    /// Adds the value last, by the policy, and gives the value that is dropped, if any.
    fn add(&mut self, value: Value) -> Option<Value>
        requires room { room_by (policy self.old) (is_full (capacity self.old) (held self.old)) ≡ true }
        requires spare { 0 < spare self.old }
        ensures held { held self.new ≡ keep (policy self.old) (capacity self.old) (held self.old) (view value) }
        ensures dropped { option_map view result ≡ value_dropped (policy self.old) (capacity self.old) (held self.old) (view value) }
        ensures policy { policy self.new ≡ policy self.old }
        ensures capacity { capacity self.new ≡ capacity self.old }
        ensures spare { spare self.old ≤ spare self.new + 1 };

    /// Takes the oldest value out, or None where there is none. Nothing leaves a promise.
    fn remove(&mut self) -> Option<Value>
        ensures held { held self.new ≡ give_first (policy self.old) (held self.old) }
        ensures given { option_map view result ≡ value_given (policy self.old) (held self.old) }
        ensures policy { policy self.new ≡ policy self.old }
        ensures capacity { capacity self.new ≡ capacity self.old }
        ensures spare { spare self.old ≤ spare self.new };

    /// Makes room for one more value, and changes nothing else.
    fn reserve(&mut self) -> Result<(), OutOfMemory>
        ensures spare { OnOk result (0 < spare self.new) }
        ensures kept { spare self.old ≤ spare self.new }
        ensures held { held self.new ≡ held self.old }
        ensures policy { policy self.new ≡ policy self.old }
        ensures capacity { capacity self.new ≡ capacity self.old };
}
