ghost use Rattle.std.specs.Prelude.{◌≡◌, ◌≤ℤ◌, ◌+ℤ◌, ◌⊎◌, pos, IfOk, option_map};
ghost use Rattle.ca_value.specs.Seq.{list};
ghost use Rattle.ca_value.specs.Tree.{int};
ghost use Rattle.ca_value.specs.View.{view, views};
ghost use Rattle.ca_value.specs.Outcome.{outcome, judged};
ghost use Rattle.ca_value.specs.Kinds.{vector_from};
ghost use Rattle.ca_value.specs.Vectors.{distance_of, integers_from, integers_between, bounds_of, range_of};

use super::judge::GREATEST_WEIGHT;
use super::kinds::{Answer, integer};
use crate::fault::ValueFault;
use crate::memory::OutOfMemory;
use crate::value::{Items, Value};
use std::alloc::Global;

/// The integers from 0 up to one bound, or from one bound up to another, which is left out. What would
/// be too heavy is never built.
#[inline(never)]
pub fn range(alloc: Global, args: (Value, Option<Value>)) -> Result<Answer<Value>, OutOfMemory>
    ensures { IfOk result (λ r. outcome r ≡ judged (range_of (view args.0) (option_map view args.1))) }
{
    let (first, second) = args;
    match bounds(&first, second) {
        Ok((low, high)) => between(alloc, low, high),
        Err(fault) => Ok(Err(fault)),
    }
}

// The lower bound, which is 0 where only one is given, and the upper one.
fn bounds(first: &Value, second: Option<Value>) -> Answer<(i64, i64)>
    ensures { result ≡ bounds_of (view first.now) (option_map view second) }
{
    let first = integer(first)?;
    match second {
        Some(second) => Ok((first, integer(&second)?)),
        None => Ok((0, first)),
    }
}

// The integers from low up to, not including, high. Each weighs 1, and the vector 1 more.
fn between(alloc: Global, low: i64, high: i64) -> Result<Answer<Value>, OutOfMemory>
    ensures { IfOk result (λ r. outcome r ≡ judged (Ok (vector_from (integers_between low high)))) }
{
    let count = distance(low, high);
    if GREATEST_WEIGHT <= count {
        return Ok(Err(ValueFault::TooHeavy));
    }
    let items = integers(alloc, low, count)?;
    Ok(Ok(Value::vector(alloc, items)?))
}

// How far high is above low, or 0.
fn distance(low: i64, high: i64) -> u64
    ensures distance { result ≡ distance_of low high }
    ensures within { result ≡ 0 ⊎ ((low +ℤ pos result) ≤ℤ high) }
{
    if high <= low { 0 } else { high.abs_diff(low) }
}

// So many integers from the first one on.
fn integers(alloc: Global, first: i64, count: u64) -> Result<Items, OutOfMemory>
    requires { count ≡ 0 ⊎ ((first +ℤ pos count) ≤ℤ pos 9223372036854775807) }
    ensures { IfOk result (λ s. views (list s) ≡ integers_from first count) }
{
    let mut items = Items::new(alloc);
    items.reserve(count)?;
    for k in 0..count {
        items.push(integer_after(first, k));
    }
    Ok(items)
}

// The integer so far after the first one.
fn integer_after(first: i64, distance: u64) -> Value
    requires { (first +ℤ pos distance) ≤ℤ pos 9223372036854775807 }
    ensures { view result ≡ int (first +ℤ pos distance) }
{
    match first.checked_add_unsigned(distance) {
        Some(n) => Value::Int(n),
        None => unreachable!(),
    }
}
