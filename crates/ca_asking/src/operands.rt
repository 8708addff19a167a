//! What may stand as an operand of an operation, and operands by their place.
ghost use Rattle.std.specs.Prelude.{◌≡◌, IfOk};
ghost use Rattle.ca_value.specs.Seq.{list};
ghost use Rattle.ca_value.specs.Tree.{Tree, nil as nil_tree};
ghost use Rattle.ca_value.specs.View.{view, trees};
ghost use Rattle.ca_term.specs.View.{kernel};
ghost use Rattle.ca_term.specs.Operands.{operand_at, last_of, without_last, port_of_value, truth, value_of};
ghost use Rattle.ca_asking.specs.Asked.{trees_by};

use ca_term::term::Term;
use ca_value::memory::OutOfMemory;
use ca_value::seq::Seq;
use ca_value::value::{Items, PortId, Value};
use std::alloc::Global;

/// An operand: a value, or a term that is one. Another term counts as nil.
pub trait AsOperand {
    // the operand as a tree
    ghost tree: { Self → Tree };

    /// The value that it is, or nil.
    fn value<'a>(&'a self, nil: &'a Value) -> &'a Value
        requires { view nil.now ≡ nil_tree }
        ensures { view result.now ≡ tree self.now };
}

impl AsOperand for Value {
    ghost tree = { view };

    #[inline(always)]
    fn value<'a>(&'a self, _nil: &'a Value) -> &'a Value {
        self
    }
}

impl AsOperand for Term {
    ghost tree = { λ t. value_of (kernel t) };

    fn value<'a>(&'a self, nil: &'a Value) -> &'a Value {
        match self {
            Term::Const(value) => value,
            _ => nil,
        }
    }
}

/// The operand at the place, from 0, or nil.
#[inline(always)]
#[tactic(auto, using(crate::proofs::OperandLaws::operand_within, crate::proofs::OperandLaws::operand_past))]
pub fn operand<'a, O: AsOperand>(values: &'a [O], place: u64, nil: &'a Value) -> &'a Value
    requires { view nil.now ≡ nil_tree }
    ensures { view result.now ≡ operand_at place (trees_by O.tree values.now) }
{
    if place < values.len() as u64 {
        values[place as usize].value(nil)
    } else {
        nil
    }
}

// The last operand, or nil.
pub(crate) fn last_operand<'a, O: AsOperand>(values: &'a [O], nil: &'a Value) -> &'a Value
    requires { view nil.now ≡ nil_tree }
    ensures { view result.now ≡ last_of (trees_by O.tree values.now) }
{
    match values.last() {
        None => nil,
        Some(value) => value.value(nil),
    }
}

/// Copies of the operands, which share their parts.
pub fn copies<O: AsOperand>(alloc: Global, values: &[O]) -> Result<Items, OutOfMemory>
    ensures { IfOk result (λ s. trees (list s) ≡ trees_by O.tree values.now) }
{
    let nil = Value::Nil;
    let mut copies = Seq::new(alloc);
    copies.reserve(values.len() as u64)?;
    for value in values {
        copies.push(value.value(&nil).copy(alloc)?);
    }
    Ok(copies)
}

// Copies of all operands but the last.
pub(crate) fn all_but_last<O: AsOperand>(alloc: Global, values: &[O]) -> Result<Items, OutOfMemory>
    ensures { IfOk result (λ s. trees (list s) ≡ without_last (trees_by O.tree values.now)) }
{
    match values.split_last() {
        None => Ok(Items::new(alloc)),
        Some((_, first)) => copies(alloc, first),
    }
}

// The port that the last operand is, or port 0.
pub(crate) fn last_port<O: AsOperand>(values: &[O]) -> PortId
    ensures { result.n ≡ port_of_value (last_of (trees_by O.tree values.now)) }
{
    let nil = Value::Nil;
    port_of(last_operand(values, &nil))
}

/// The port that the value is, or port 0.
pub fn port_of(value: &Value) -> PortId
    ensures { result.n ≡ port_of_value (view value.now) }
{
    match value {
        Value::Port(port) => *port,
        _ => PortId { n: 0 },
    }
}

/// nil and false are false, all else is true.
#[inline(always)]
pub fn is_true(value: &Value) -> bool
    ensures { result ≡ truth (view value.now) }
{
    match value {
        Value::Nil => false,
        Value::Bool(b) => *b,
        _ => true,
    }
}

/// The port at the place of the values, from 0; port 0 where none stands there.
pub fn port_at(values: &[Value], place: u64) -> PortId
    ensures { result.n ≡ port_of_value (operand_at place (trees values.now)) }
{
    let nil = Value::Nil;
    port_of(operand(values, place, &nil))
}

/// Whether the value at the place, from 0, counts as true.
pub fn truth_at(values: &[Value], place: u64) -> bool
    ensures { result ≡ truth (operand_at place (trees values.now)) }
{
    let nil = Value::Nil;
    is_true(operand(values, place, &nil))
}

/// The value at the place, from 0, or nil. The others are let go.
#[tactic(auto, using(crate::proofs::OperandLaws::value_none, crate::proofs::OperandLaws::value_some))]
pub fn value_at(values: Items, place: u64) -> Value
    ensures { view result ≡ operand_at place (trees (list values)) }
{
    match values.into_item(place) {
        Some(value) => value,
        None => Value::Nil,
    }
}
