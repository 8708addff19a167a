//! What a pipeline makes of a value. (Clojure reference: `map`, `filter`, `mapcat`.)
ghost use Rattle.std.specs.Prelude.{◌≡◌, cond, IfOk, IsTrue};
ghost use Rattle.ca_value.specs.Seq.{list};
ghost use Rattle.ca_value.specs.Tree.{none};
ghost use Rattle.ca_value.specs.View.{view, views, vector_trees, trees};
ghost use Rattle.ca_value.specs.Tree.{trees_of};
ghost use Rattle.ca_meaning.specs.Applied.{has_nil, items_output, outputs_by, outputs_of, without_nil};
ghost use Rattle.ca_meaning.specs.Asks.{one_of};
ghost use Rattle.ca_meaning.specs.Operands.{truth};
ghost use Rattle.ca_system.specs.Applied.{returned_view};
ghost use Rattle.ca_jobs.specs.Outputs.{outputs_view};

use ca_asking::operands::is_true;
use ca_system::operand::is_nil;
use ca_system::returned::Returned;
use ca_term::fault::Fault;
use ca_term::head::Transform;
use ca_value::memory::OutOfMemory;
use ca_value::seq::Seq;
use ca_value::value::{Items, Value, Vector};
use std::alloc::Global;

// The outputs of a value, or the fault that the job ends with.
#[derive(Drop)]
pub(crate) enum Outputs {
    All(Vector),
    None(Fault),
}

#[tactic(auto, using(crate::proofs::OutputLaws::nil_past))]
fn has_nil(values: &[Value]) -> bool
    ensures { result ≡ has_nil (trees values.now) }
{
    for value in values {
        if is_nil(value) {
            return true;
        }
    }
    false
}

// The outputs, unless one of them is nil.
fn without_nil(outputs: Vector) -> Outputs
    ensures { outputs_view result ≡ without_nil (trees_of (vector_trees outputs)) }
{
    if has_nil(outputs.as_slice()) {
        Outputs::None(Fault::NilPut)
    } else {
        Outputs::All(outputs)
    }
}

// One output.
fn one(alloc: Global, value: Value) -> Result<Vector, OutOfMemory>
    ensures { IfOk result (λ v. trees_of (vector_trees v) ≡ one_of (view value)) }
{
    let items = Seq::from_vec(vec![in alloc; value]?);
    Vector::of(alloc, items)
}

// None.
fn nothing(alloc: Global) -> Result<Vector, OutOfMemory>
    ensures { IfOk result (λ v. trees_of (vector_trees v) ≡ none) }
{
    Vector::of(alloc, Items::new(alloc))
}

// The value itself, where the function's value is true.
fn kept(alloc: Global, value: &Value, test: &Value) -> Result<Vector, OutOfMemory>
    ensures { IfOk result (λ v. trees_of (vector_trees v) ≡ cond (truth (view test.now)) (one_of (view value.now)) none) }
{
    if is_true(test) {
        one(alloc, value.copy(alloc)?)
    } else {
        nothing(alloc)
    }
}

// The items of what the function gave.
fn joined(alloc: Global, given: Value) -> Result<Outputs, OutOfMemory>
    ensures { IfOk result (λ o. outputs_view o ≡ items_output (view given)) }
{
    match given {
        Value::Vector(items) => Ok(without_nil(items)),
        Value::Nil => Ok(Outputs::All(nothing(alloc)?)),
        _ => Ok(Outputs::None(Fault::WrongKind)),
    }
}

// The outputs of the value, where the function gave this.
fn outputs_of(
    alloc: Global,
    transform: Transform,
    value: &Value,
    given: Value,
) -> Result<Outputs, OutOfMemory>
    ensures { IfOk result (λ o. outputs_view o ≡ outputs_of transform (view value.now) (view given)) }
{
    match transform {
        Transform::Map => Ok(without_nil(one(alloc, given)?)),
        Transform::Filter => Ok(without_nil(kept(alloc, value, &given)?)),
        Transform::Mapcat => joined(alloc, given),
    }
}

/// The outputs of the value, where the function came to this.
pub(crate) fn outputs_by(
    alloc: Global,
    transform: Transform,
    value: &Value,
    returned: Returned,
) -> Result<Outputs, OutOfMemory>
    ensures { IfOk result (λ o. outputs_view o ≡ outputs_by transform (view value.now) (returned_view returned)) }
{
    match returned {
        Returned::Value(given) => outputs_of(alloc, transform, value, given),
        Returned::Fault(fault) => Ok(Outputs::None(fault)),
    }
}
