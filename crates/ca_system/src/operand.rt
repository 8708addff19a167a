//! Values by their form: those that a task begins with, and answers.
ghost use Rattle.std.specs.Prelude.{◌≡◌, ℕ, IfOk, option_map};
ghost use Rattle.ca_value.specs.Tree.{Tree, vector};
ghost use Rattle.ca_value.specs.View.{view, trees};
ghost use Rattle.ca_meaning.specs.Asks.{port_in, trees_in, value_and_port};
ghost use Rattle.ca_meaning.specs.Operands.{operand_at, is_nil};

use ca_asking::operands::operand;
use ca_value::memory::OutOfMemory;
use ca_value::value::{PortId, Value};
use std::alloc::Global;

/// A copy of the value at the place, from 0, or nil.
pub fn copy_at(alloc: Global, values: &[Value], place: u64) -> Result<Value, OutOfMemory>
    ensures { IfOk result (λ v. view v ≡ operand_at place (trees values.now)) }
{
    let nil = Value::Nil;
    operand(values, place, &nil).copy(alloc)
}

/// Whether it is nil.
pub fn is_nil(value: &Value) -> bool
    ensures { result ≡ is_nil (view value.now) }
{
    matches!(value, Value::Nil)
}

/// The port that the value is, if it is one.
pub fn port_in(value: &Value) -> Option<PortId>
    ensures { option_map (λ p. p.n) result ≡ port_in (view value.now) }
{
    match value {
        Value::Port(port) => Some(*port),
        _ => None,
    }
}

/// The value and the port of an answer `[value port]`, which shares the value; None where it has another form.
pub fn value_and_port(alloc: Global, answer: &Value) -> Result<Option<(Value, PortId)>, OutOfMemory>
    ensures { IfOk result (λ r. option_map {U = Tree × ℕ} (λ c. (view c.0, c.1.n)) r ≡ value_and_port (view answer.now)) }
{
    match answer {
        Value::Vector(parts) => pair_in(alloc, parts.as_slice()),
        _ => Ok(None),
    }
}

#[tactic(auto, using(crate::proofs::Operands::fewer_than_two, crate::proofs::Operands::more_than_two))]
fn pair_in(alloc: Global, parts: &[Value]) -> Result<Option<(Value, PortId)>, OutOfMemory>
    ensures { IfOk result (λ r. option_map {U = Tree × ℕ} (λ c. (view c.0, c.1.n)) r ≡ value_and_port (vector (trees parts.now))) }
{
    match parts {
        [value, port] => with_port(alloc, value, port_in(port)),
        _ => Ok(None),
    }
}

// The value beside the port, if there is one.
fn with_port(
    alloc: Global,
    value: &Value,
    port: Option<PortId>,
) -> Result<Option<(Value, PortId)>, OutOfMemory>
    ensures { IfOk result (λ r. option_map {U = Tree × ℕ} (λ c. (view c.0, c.1.n)) r ≡ option_map {U = Tree × ℕ} (λ p. (view value.now, p.n)) port) }
{
    match port {
        None => Ok(None),
        Some(port) => Ok(Some((value.copy(alloc)?, port))),
    }
}

/// The items of a vector; of another value none.
pub fn items_of(value: &Value) -> &[Value]
    ensures { trees result.now ≡ trees_in (view value.now) }
{
    match value {
        Value::Vector(items) => items.as_slice(),
        _ => &[],
    }
}
