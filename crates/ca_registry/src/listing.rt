ghost use Rattle.std.specs.Prelude.{◌≡◌, [], ◌∷◌, IfOk};
ghost use Rattle.ca_value.specs.Seq.{list};
ghost use Rattle.ca_value.specs.Tree.{vector, port, item, none, trees_of};
ghost use Rattle.ca_value.specs.View.{view, views};

use ca_value::memory::OutOfMemory;
use ca_value::seq::Seq;
use ca_value::value::{PortId, Value};
use std::alloc::Global;

// A vector of two values.
pub(crate) fn pair(alloc: Global, first: Value, second: Value) -> Result<Value, OutOfMemory>
    ensures { IfOk result (λ v. view v ≡ vector (item (view first) (item (view second) none))) }
{
    let mut items = Seq::new(alloc);
    items.reserve(2)?;
    items.push(first);
    items.push(second);
    Value::vector(alloc, items)
}

// A vector of four values.
pub(crate) fn four(
    alloc: Global,
    first: Value,
    second: Value,
    third: Value,
    fourth: Value,
) -> Result<Value, OutOfMemory>
    ensures { IfOk result (λ v. view v ≡ vector (item (view first) (item (view second) (item (view third) (item (view fourth) none))))) }
{
    let mut items = Seq::new(alloc);
    items.reserve(4)?;
    items.push(first);
    items.push(second);
    items.push(third);
    items.push(fourth);
    Value::vector(alloc, items)
}

// A channel as a value.
pub(crate) fn channel(number: u64) -> Value
    ensures { view result ≡ port number }
{
    Value::Port(PortId { n: number })
}
