ghost use Rattle.std.specs.Prelude.{◌≡◌, ◌<◌, []};
ghost use Rattle.ca_value.specs.Buffer.{fixed_buffer};

use crate::buffer::Buffer;
use crate::ring::Ring;
use ca_value::memory::OutOfMemory;
use ca_value::value::Value;
use std::alloc::Global;

/// Holds up to its capacity, and takes no value when it is full.
#[derive(Drop)]
pub struct Fixed {
    ring: Ring,
}

impl Fixed {
    ghost use Rattle.ca_buffers.specs.Buffers.{fixed_held, fixed_capacity};

    /// An empty buffer of that many values, which takes no memory.
    pub fn new(alloc: Global, capacity: u64) -> Fixed
        requires { 0 < capacity }
        ensures held { fixed_held result ≡ [] }
        ensures capacity { fixed_capacity result ≡ capacity }
    {
        Fixed {
            ring: Ring::new(alloc, capacity),
        }
    }
}

impl Buffer for Fixed {
    ghost use Rattle.ca_buffers.specs.Buffers.{fixed_held, fixed_capacity, fixed_spare};

    ghost policy = { λ _. fixed_buffer };

    ghost capacity = { fixed_capacity };

    ghost held = { fixed_held };

    ghost spare = { fixed_spare };

    fn is_full(&self) -> bool {
        self.ring.is_full()
    }

    fn first(&self) -> Option<&Value> {
        self.ring.first()
    }

    fn keeps(&self) -> bool {
        false
    }

    fn add(&mut self, value: Value) -> Option<Value> {
        self.ring.push(value);
        None
    }

    fn remove(&mut self) -> Option<Value> {
        self.ring.pop()
    }

    fn reserve(&mut self) -> Result<(), OutOfMemory> {
        self.ring.reserve()
    }
}
