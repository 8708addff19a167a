ghost use Rattle.std.specs.Prelude.{◌≡◌, ◌≤◌, ℕ, IfOk, IfErr, Ok, Err};
ghost use Rattle.ca_value.specs.View.{view};
ghost use Rattle.ca_term.specs.Operation.{WhatView, what_view};
ghost use Rattle.ca_term.specs.Asking.{ranged, sized as sized_of, made_of};
ghost use Rattle.ca_asking.specs.Asked.{trees_by, made_with, sized_with, is_unbuffered};

use crate::operands::{AsOperand, operand};
use ca_term::fault::Fault;
use ca_term::head::MakeKind;
use ca_term::operation::What;
use ca_value::memory::OutOfMemory;
use ca_value::value::Value;
use std::alloc::Global;

/// The number that a Make takes, 0 where it takes none, or its operand's fault.
pub fn number_to_make<O: AsOperand>(kind: MakeKind, values: &[O]) -> Result<u64, Fault>
    ensures ok { IfOk result (λ n. made_of kind (trees_by O.tree values.now) ≡ Ok (made_with kind n (trees_by O.tree values.now))) }
    ensures err { IfErr result (λ f. made_of kind (trees_by O.tree values.now) ≡ Err f) }
{
    let nil = Value::Nil;
    let value = operand(values, 0, &nil);
    match kind {
        MakeKind::Sized => sized(value),
        MakeKind::Fixed | MakeKind::Dropping | MakeKind::Sliding => whole(1, 4_096, value),
        MakeKind::Timeout => whole(0, 86_400_000, value),
        MakeKind::Unbuffered | MakeKind::Promise => Ok(0),
        MakeKind::Mult | MakeKind::Mix | MakeKind::Pub => Ok(0),
    }
}

// The number of values that a channel made with that operand buffers: nil and 0 are no buffer.
fn sized(value: &Value) -> Result<u64, Fault>
    ensures ok { IfOk result (λ n. sized_of (view value.now) ≡ Ok (sized_with n)) }
    ensures err { IfErr result (λ f. sized_of (view value.now) ≡ Err f) }
{
    if is_unbuffered(value) {
        Ok(0)
    } else {
        whole(1, 4_096, value)
    }
}

fn is_unbuffered(value: &Value) -> bool
    ensures { result ≡ is_unbuffered (view value.now) }
{
    match value {
        Value::Nil => true,
        Value::Int(n) => *n == 0,
        _ => false,
    }
}

/// The whole number from the low to the high, or the fault of a value that is none.
pub fn whole(low: u64, high: u64, value: &Value) -> Result<u64, Fault>
    ensures ok { IfOk result (λ n. (make : ℕ → WhatView) → ranged low high make (view value.now) ≡ Ok (make n)) }
    ensures err { IfErr result (λ f. (make : ℕ → WhatView) → ranged low high make (view value.now) ≡ Err f) }
    ensures least { IfOk result (λ n. low ≤ n) }
{
    match value {
        Value::Int(n) => {
            if *n < 0 {
                return Err(Fault::OutOfRange);
            }
            let number = *n as u64;
            if low <= number && number <= high {
                Ok(number)
            } else {
                Err(Fault::OutOfRange)
            }
        }
        _ => Err(Fault::WrongKind),
    }
}

// What is made with that number.
pub(crate) fn what_of<O: AsOperand>(
    alloc: Global,
    kind: MakeKind,
    number: u64,
    values: &[O],
) -> Result<What, OutOfMemory>
    ensures { IfOk result (λ w. what_view w ≡ made_with kind number (trees_by O.tree values.now)) }
{
    let nil = Value::Nil;
    let first = operand(values, 0, &nil);
    match kind {
        MakeKind::Unbuffered => Ok(What::Unbuffered),
        MakeKind::Sized => Ok(sized_buffer(number)),
        MakeKind::Fixed => Ok(What::Fixed(number)),
        MakeKind::Dropping => Ok(What::Dropping(number)),
        MakeKind::Sliding => Ok(What::Sliding(number)),
        MakeKind::Promise => Ok(What::Promise),
        MakeKind::Timeout => Ok(What::Timeout(number)),
        MakeKind::Mult => Ok(What::Mult(first.copy(alloc)?)),
        MakeKind::Mix => Ok(What::Mix(first.copy(alloc)?, operand(values, 1, &nil).copy(alloc)?)),
        MakeKind::Pub => Ok(What::Pub(first.copy(alloc)?)),
    }
}

// A buffer of 0 values is none.
fn sized_buffer(number: u64) -> What
    ensures { what_view result ≡ sized_with number }
{
    if number == 0 {
        What::Unbuffered
    } else {
        What::Fixed(number)
    }
}
