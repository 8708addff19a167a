ghost use Rattle.std.specs.Prelude.{◌≡◌, ◌<◌, []};
ghost use Rattle.ca_value.specs.Buffer.{sliding_buffer};

use crate::buffer::Buffer;
use crate::ring::Ring;
use ca_value::memory::OutOfMemory;
use ca_value::value::Value;
use std::alloc::Global;

/// Holds up to its capacity, and drops its oldest value when it is full.
#[derive(Drop)]
pub struct Sliding {
    ring: Ring,
}

impl Sliding {
    ghost use Rattle.ca_buffers.specs.Buffers.{sliding_held, sliding_capacity};

    /// An empty buffer of that many values, which takes no memory.
    pub fn new(alloc: Global, capacity: u64) -> Sliding
        requires { 0 < capacity }
        ensures held { sliding_held result ≡ [] }
        ensures capacity { sliding_capacity result ≡ capacity }
    {
        Sliding {
            ring: Ring::new(alloc, capacity),
        }
    }
}

impl Buffer for Sliding {
    ghost use Rattle.ca_buffers.specs.Buffers.{sliding_held, sliding_capacity, sliding_spare};

    ghost policy = { λ _. sliding_buffer };

    ghost capacity = { sliding_capacity };

    ghost held = { sliding_held };

    ghost spare = { sliding_spare };

    fn is_full(&self) -> bool {
        false
    }

    fn first(&self) -> Option<&Value> {
        self.ring.first()
    }

    fn keeps(&self) -> bool {
        false
    }

    fn add(&mut self, value: Value) -> Option<Value> {
        let oldest = if self.ring.is_full() {
            self.ring.pop()
        } else {
            None
        };
        self.ring.push(value);
        oldest
    }

    fn remove(&mut self) -> Option<Value> {
        self.ring.pop()
    }

    fn reserve(&mut self) -> Result<(), OutOfMemory> {
        self.ring.reserve()
    }
}
