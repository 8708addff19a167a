ghost use Rattle.std.specs.Prelude.{◌≡◌, []};
ghost use Rattle.ca_value.specs.Buffer.{promise_buffer};

use crate::buffer::Buffer;
use ca_value::memory::OutOfMemory;
use ca_value::value::Value;

/// Keeps its first value for good, and drops later ones. It needs no memory.
#[derive(Drop)]
pub struct Promise {
    value: Option<Value>,
}

impl Promise {
    ghost use Rattle.ca_buffers.specs.Buffers.{promise_held};

    /// A promise without a value yet.
    pub fn new() -> Promise
        ensures { promise_held result ≡ [] }
    {
        Promise { value: None }
    }
}

impl Buffer for Promise {
    ghost use Rattle.ca_buffers.specs.Buffers.{promise_held};

    ghost policy = { λ _. promise_buffer };

    ghost capacity = { λ _. 1 };

    ghost held = { promise_held };

    ghost spare = { λ _. 1 };

    fn is_full(&self) -> bool {
        false
    }

    fn first(&self) -> Option<&Value> {
        self.value.as_ref()
    }

    fn keeps(&self) -> bool {
        true
    }

    fn add(&mut self, value: Value) -> Option<Value> {
        if self.value.is_some() {
            return Some(value);
        }
        self.value = Some(value);
        None
    }

    fn remove(&mut self) -> Option<Value> {
        None
    }

    fn reserve(&mut self) -> Result<(), OutOfMemory> {
        Ok(())
    }
}
