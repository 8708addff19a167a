ghost use Rattle.std.specs.Prelude.{◌≡◌, ◌+◌, ◌<◌, ◌≤◌, [], ◌∷◌, ◌++◌, length, drop, slice_get, option_map, OnOk};
ghost use Rattle.std.specs.VecDeque.{deque_len};
ghost use Rattle.ca_value.specs.View.{view};
ghost use Rattle.ca_value.specs.Buffer.{is_full};

use ca_value::memory::OutOfMemory;
use ca_value::value::Value;
use std::alloc::Global;
use std::collections::VecDeque;

// At most so many values, the oldest first. Both ends are at hand at the same cost.
#[derive(Drop)]
pub(crate) struct Ring {
    values: VecDeque<Value>,
    capacity: u64,
    ghost positive: { 0 < capacity },
    ghost within: { deque_len values ≤ capacity },
}

impl Ring {
    ghost use Rattle.ca_buffers.specs.Ring.{ring_values, ring_capacity, ring_spare};

    // No value yet, and no memory.
    pub(crate) fn new(alloc: Global, capacity: u64) -> Ring
        requires { 0 < capacity }
        ensures values { ring_values result ≡ [] }
        ensures capacity { ring_capacity result ≡ capacity }
    {
        Ring {
            values: VecDeque::new(alloc),
            capacity,
        }
    }

    pub(crate) fn is_full(&self) -> bool
        ensures full { result ≡ is_full (ring_capacity self.now) (ring_values self.now) }
        ensures within { length (ring_values self.now) ≤ ring_capacity self.now }
        ensures positive { 0 < ring_capacity self.now }
    {
        self.capacity <= self.values.len() as u64
    }

    pub(crate) fn first(&self) -> Option<&Value>
        ensures { option_map (λ v. view v.now) result ≡ slice_get (ring_values self.now) 0 }
    {
        self.values.front()
    }

    pub(crate) fn push(&mut self, value: Value)
        requires room { length (ring_values self.old) < ring_capacity self.old }
        requires spare { 0 < ring_spare self.old }
        ensures values { ring_values self.new ≡ ring_values self.old ++ view value ∷ [] }
        ensures capacity { ring_capacity self.new ≡ ring_capacity self.old }
        ensures spare { ring_spare self.old ≤ ring_spare self.new + 1 }
    {
        self.values.push_back_reserved(value);
    }

    pub(crate) fn pop(&mut self) -> Option<Value>
        ensures value { option_map view result ≡ slice_get (ring_values self.old) 0 }
        ensures values { ring_values self.new ≡ drop 1 (ring_values self.old) }
        ensures capacity { ring_capacity self.new ≡ ring_capacity self.old }
        ensures spare { ring_spare self.old ≤ ring_spare self.new }
    {
        self.values.pop_front()
    }

    pub(crate) fn reserve(&mut self) -> Result<(), OutOfMemory>
        ensures spare { OnOk result (0 < ring_spare self.new) }
        ensures kept { ring_spare self.old ≤ ring_spare self.new }
        ensures values { ring_values self.new ≡ ring_values self.old }
        ensures capacity { ring_capacity self.new ≡ ring_capacity self.old }
    {
        self.values.reserve(1)?;
        Ok(())
    }
}
