ghost use Rattle.std.specs.Prelude.{◌≡◌, IfOk};
ghost use Rattle.ca_value.specs.Seq.{list};
ghost use Rattle.ca_value.specs.Pairs.{pairs_list};
ghost use Rattle.ca_value.specs.View.{view, views, pair_view, pair_views};

use crate::memory::OutOfMemory;
use crate::seq::{Seq, Text};
use crate::value::{Items, Pair, Pairs, Value};
use std::alloc::Global;
use std::sync::Arc;

impl Value {
    /// An equal value, which shares its parts.
    pub fn copy(&self, _alloc: Global) -> Result<Value, OutOfMemory>
        ensures { IfOk result (λ v. view v ≡ view self.now) }
    {
        match self {
            Value::Nil => Ok(Value::Nil),
            Value::Bool(b) => Ok(Value::Bool(*b)),
            Value::Int(n) => Ok(Value::Int(*n)),
            Value::Text(text) => Ok(Value::Text(Arc::try_clone(text)?)),
            Value::Key(text) => Ok(Value::Key(Arc::try_clone(text)?)),
            Value::Vector(items) => Ok(Value::Vector(items.copy()?)),
            Value::Map(pairs) => Ok(Value::Map(pairs.copy()?)),
            Value::Port(port) => Ok(Value::Port(*port)),
        }
    }
}

impl Seq<u8> {
    /// The same bytes, in memory of their own.
    pub fn copy(&self, alloc: Global) -> Result<Text, OutOfMemory>
        ensures { IfOk result (λ t. list t ≡ list self.now) }
    {
        Seq::from_bytes(alloc, self.as_slice())
    }
}

impl Pair {
    /// An equal pair, which shares its parts.
    pub fn copy(&self, alloc: Global) -> Result<Pair, OutOfMemory>
        ensures { IfOk result (λ p. pair_view p ≡ pair_view self.now) }
    {
        Ok(Pair {
            key: self.key.copy(alloc)?,
            value: self.value.copy(alloc)?,
        })
    }
}

/// Copies of the values.
pub(crate) fn copies(alloc: Global, values: &[Value]) -> Result<Items, OutOfMemory>
    ensures { IfOk result (λ s. views (list s) ≡ views values.now) }
{
    let mut copies = Seq::new(alloc);
    copies.reserve(values.len() as u64)?;
    for value in values {
        copies.push(value.copy(alloc)?);
    }
    Ok(copies)
}

/// Copies of the pairs.
pub(crate) fn pair_copies(alloc: Global, pairs: &[Pair]) -> Result<Pairs, OutOfMemory>
    ensures { IfOk result (λ s. pair_views (pairs_list s) ≡ pair_views pairs.now) }
{
    let mut copies = Seq::new(alloc);
    copies.reserve(pairs.len() as u64)?;
    for pair in pairs {
        copies.push(pair.copy(alloc)?);
    }
    Ok(Pairs::of(copies))
}
