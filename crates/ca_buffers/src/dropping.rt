ghost use Rattle.std.specs.Prelude.{◌≡◌, ◌<◌, []};
ghost use Rattle.ca_value.specs.Buffer.{dropping_buffer};

use crate::buffer::Buffer;
use crate::ring::Ring;
use ca_value::memory::OutOfMemory;
use ca_value::value::Value;
use std::alloc::Global;

/// Holds up to its capacity, and drops the new value when it is full.
#[derive(Drop)]
pub struct Dropping {
    ring: Ring,
}

impl Dropping {
    ghost use Rattle.ca_buffers.specs.Buffers.{dropping_held, dropping_capacity};

    /// An empty buffer of that many values, which takes no memory.
    pub fn new(alloc: Global, capacity: u64) -> Dropping
        requires { 0 < capacity }
        ensures held { dropping_held result ≡ [] }
        ensures capacity { dropping_capacity result ≡ capacity }
    {
        Dropping {
            ring: Ring::new(alloc, capacity),
        }
    }
}

impl Buffer for Dropping {
    ghost use Rattle.ca_buffers.specs.Buffers.{dropping_held, dropping_capacity, dropping_spare};

    ghost policy = { λ _. dropping_buffer };

    ghost capacity = { dropping_capacity };

    ghost held = { dropping_held };

    ghost spare = { dropping_spare };

    fn is_full(&self) -> bool {
        false
    }

    fn first(&self) -> Option<&Value> {
        self.ring.first()
    }

    fn keeps(&self) -> bool {
        false
    }

    fn add(&mut self, value: Value) -> Option<Value> {
        if self.ring.is_full() {
            return Some(value);
        }
        self.ring.push(value);
        None
    }

    fn remove(&mut self) -> Option<Value> {
        self.ring.pop()
    }

    fn reserve(&mut self) -> Result<(), OutOfMemory> {
        self.ring.reserve()
    }
}
