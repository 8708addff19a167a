use crate::buffer::Buffer;
use crate::dropping::Dropping;
use crate::fixed::Fixed;
use crate::promise::Promise;
use crate::sliding::Sliding;
use ca_value::memory::OutOfMemory;
use ca_value::value::Value;

/// One of the four buffers.
#[derive(Drop)]
pub enum AnyBuffer {
    Fixed(Fixed),
    Dropping(Dropping),
    Sliding(Sliding),
    Promise(Promise),
}

impl Buffer for AnyBuffer {
    ghost use Rattle.ca_buffers.specs.AnyBuffer.{any_policy, any_capacity, any_held, any_spare};

    ghost policy = { any_policy };

    ghost capacity = { any_capacity };

    ghost held = { any_held };

    ghost spare = { any_spare };

    fn is_full(&self) -> bool {
        match self {
            AnyBuffer::Fixed(buffer) => buffer.is_full(),
            AnyBuffer::Dropping(buffer) => buffer.is_full(),
            AnyBuffer::Sliding(buffer) => buffer.is_full(),
            AnyBuffer::Promise(buffer) => buffer.is_full(),
        }
    }

    fn first(&self) -> Option<&Value> {
        match self {
            AnyBuffer::Fixed(buffer) => buffer.first(),
            AnyBuffer::Dropping(buffer) => buffer.first(),
            AnyBuffer::Sliding(buffer) => buffer.first(),
            AnyBuffer::Promise(buffer) => buffer.first(),
        }
    }

    fn keeps(&self) -> bool {
        match self {
            AnyBuffer::Promise(_) => true,
            _ => false,
        }
    }

    fn add(&mut self, value: Value) -> Option<Value> {
        match self {
            AnyBuffer::Fixed(buffer) => buffer.add(value),
            AnyBuffer::Dropping(buffer) => buffer.add(value),
            AnyBuffer::Sliding(buffer) => buffer.add(value),
            AnyBuffer::Promise(buffer) => buffer.add(value),
        }
    }

    fn remove(&mut self) -> Option<Value> {
        match self {
            AnyBuffer::Fixed(buffer) => buffer.remove(),
            AnyBuffer::Dropping(buffer) => buffer.remove(),
            AnyBuffer::Sliding(buffer) => buffer.remove(),
            AnyBuffer::Promise(buffer) => buffer.remove(),
        }
    }

    fn reserve(&mut self) -> Result<(), OutOfMemory> {
        match self {
            AnyBuffer::Fixed(buffer) => buffer.reserve(),
            AnyBuffer::Dropping(buffer) => buffer.reserve(),
            AnyBuffer::Sliding(buffer) => buffer.reserve(),
            AnyBuffer::Promise(buffer) => buffer.reserve(),
        }
    }
}
