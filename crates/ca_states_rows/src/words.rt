use ca_value::builtin::Builtin;
use ca_value::memory::OutOfMemory;
use ca_value::seq::Text;
use ca_value::value::{PortId, Value};
use std::alloc::{AllocError, Global};
use std::str::Split;

/// Why a row has no answer.
#[derive(Clone, Copy)]
pub enum RowError {
    Unreadable,
    OutOfMemory,
}

impl From<OutOfMemory> for RowError {
    fn from(_: OutOfMemory) -> RowError {
        RowError::OutOfMemory
    }
}

impl From<AllocError> for RowError {
    fn from(_: AllocError) -> RowError {
        RowError::OutOfMemory
    }
}

/// The number that a word is.
pub fn number_of(word: &str) -> Result<u64, RowError> {
    word.parse().ok().ok_or(RowError::Unreadable)
}

/// The value that a word is: nil, true, false, an integer, `[]`, `{}`, a port as `port3`, else a text.
pub fn value_of(alloc: Global, word: &str) -> Result<Value, RowError> {
    match word.as_bytes() {
        b"nil" => return Ok(Value::Nil),
        b"true" => return Ok(Value::Bool(true)),
        b"false" => return Ok(Value::Bool(false)),
        b"[]" => return Ok(Value::vector(alloc, ca_value::seq::Seq::new(alloc))?),
        b"{}" => return Ok(Value::map(alloc, ca_value::value::Pairs::new(alloc))?),
        _ => {}
    }
    if let Some(port) = word.strip_prefix("port") {
        return Ok(Value::Port(PortId {
            n: number_of(port)?,
        }));
    }
    match word.parse::<i64>() {
        Ok(number) => Ok(Value::Int(number)),
        Err(_) => Ok(Value::text(alloc, Text::from_bytes(alloc, word.as_bytes())?)?),
    }
}

/// The parts of a word between its colons, one after the other.
#[derive(Drop)]
pub struct Parts<'a> {
    parts: Split<'a, char>,
}

impl<'a> Parts<'a> {
    pub fn new(word: &'a str) -> Parts<'a> {
        Parts {
            parts: word.split(':'),
        }
    }

    /// The next part.
    pub fn part(&mut self) -> Result<&'a str, RowError> {
        self.parts.next().ok_or(RowError::Unreadable)
    }

    pub fn number(&mut self) -> Result<u64, RowError> {
        number_of(self.part()?)
    }

    pub fn integer(&mut self) -> Result<i64, RowError> {
        self.part()?.parse().ok().ok_or(RowError::Unreadable)
    }

    pub fn builtin(&mut self) -> Result<Builtin, RowError> {
        Builtin::named(self.part()?.as_bytes()).ok_or(RowError::Unreadable)
    }
}
