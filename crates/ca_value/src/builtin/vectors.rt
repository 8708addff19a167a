ghost use Rattle.std.specs.Prelude.{◌≡◌, [], ◌∷◌, IfOk, option_map, slice_get, unwrap_or, length, ◌-◌};
ghost use Rattle.ca_value.specs.Seq.{list};
ghost use Rattle.ca_value.specs.Tree.{nil};
ghost use Rattle.ca_value.specs.View.{view, views, vector_trees};
ghost use Rattle.ca_value.specs.Outcome.{outcome};
ghost use Rattle.ca_value.specs.Vectors.{item_at, appended, nth_at, nth_of, first_item, item_at_end, popped, shortened, item_at_index, subvec_of, end_index, cut_of, part_between};

use super::kinds::{Answer, integer, vector};
use crate::fault::ValueFault;
use crate::memory::OutOfMemory;
use crate::value::{Items, Value, Vector};
use std::alloc::Global;

/// A copy of the item at the place.
pub fn item_copy(alloc: Global, items: &[Value], place: i64) -> Result<Option<Value>, OutOfMemory>
    ensures { IfOk result (λ o. option_map view o ≡ item_at (views items.now) place) }
{
    if place < 0 {
        return Ok(None);
    }
    match items.get(place as usize) {
        Some(value) => Ok(Some(value.copy(alloc)?)),
        None => Ok(None),
    }
}

/// The vector with more items at its end, in its own memory where it is no one else's.
#[inline(never)]
pub fn conj(alloc: Global, args: (Value, Items)) -> Result<Answer<Value>, OutOfMemory>
    ensures { IfOk result (λ r. outcome r ≡ appended (view args.0) (views (list args.1))) }
{
    let (collection, more) = args;
    let mut items = match vector(collection) {
        Ok(items) => items,
        Err(fault) => return Ok(Err(fault)),
    };
    for value in more.into_vec() {
        items.push(alloc, value)?;
    }
    Ok(Ok(Value::Vector(items)))
}

/// The vector with one more item at its end, in its own memory where it is no one else's.
pub fn conj_one(
    alloc: Global,
    collection: Value,
    value: Value,
) -> Result<Answer<Value>, OutOfMemory>
    ensures { IfOk result (λ r. outcome r ≡ appended (view collection) (view value ∷ [])) }
{
    let mut items = match vector(collection) {
        Ok(items) => items,
        Err(fault) => return Ok(Err(fault)),
    };
    items.push(alloc, value)?;
    Ok(Ok(Value::Vector(items)))
}

/// The item of a collection at an index, with a default. Outside a vector it is the default; of nil the
/// default or nil.
#[inline(never)]
pub fn nth(alloc: Global, args: (Value, Value, Option<Value>)) -> Result<Answer<Value>, OutOfMemory>
    ensures { IfOk result (λ r. outcome r ≡ nth_of (view args.0) (view args.1) (option_map view args.2)) }
{
    let (collection, index, default) = args;
    item_under(alloc, &collection, &index, default)
}

/// The same, with the operands borrowed.
#[inline(never)]
pub fn item_under(
    alloc: Global,
    collection: &Value,
    index: &Value,
    default: Option<Value>,
) -> Result<Answer<Value>, OutOfMemory>
    ensures { IfOk result (λ r. outcome r ≡ nth_of (view collection.now) (view index.now) (option_map view default)) }
{
    match integer(index) {
        Ok(index) => item_or(alloc, collection, index, default),
        Err(fault) => Ok(Err(fault)),
    }
}

// The same, at an index that is an integer.
#[tactic(auto, using(crate::proofs::Lists::items_of_trees_of))]
fn item_or(
    alloc: Global,
    collection: &Value,
    index: i64,
    default: Option<Value>,
) -> Result<Answer<Value>, OutOfMemory>
    ensures { IfOk result (λ r. outcome r ≡ nth_at (view collection.now) index (option_map view default)) }
{
    match collection {
        Value::Vector(items) => Ok(
            item_copy(alloc, items.as_slice(), index)?
                .or(default)
                .ok_or(ValueFault::OutOfRange),
        ),
        Value::Nil => Ok(Ok(default.unwrap_or(Value::Nil))),
        _ => Ok(Err(ValueFault::WrongKind)),
    }
}

// A copy of the item at the place, or nil.
fn item_or_nil(alloc: Global, items: &[Value], place: usize) -> Result<Value, OutOfMemory>
    ensures { IfOk result (λ v. view v ≡ unwrap_or (slice_get (views items.now) place) nil) }
{
    match items.get(place) {
        Some(value) => value.copy(alloc),
        None => Ok(Value::Nil),
    }
}

/// The first item, or nil.
#[inline(never)]
#[tactic(auto, using(crate::proofs::Lists::items_of_trees_of))]
pub fn first(alloc: Global, collection: &Value) -> Result<Answer<Value>, OutOfMemory>
    ensures { IfOk result (λ r. outcome r ≡ first_item (view collection.now)) }
{
    match collection {
        Value::Vector(items) => Ok(Ok(item_or_nil(alloc, items.as_slice(), 0)?)),
        Value::Nil => Ok(Ok(Value::Nil)),
        _ => Ok(Err(ValueFault::WrongKind)),
    }
}

/// The last item, or nil.
#[inline(never)]
#[tactic(auto, using(crate::proofs::Lists::items_of_trees_of))]
pub fn last(alloc: Global, collection: &Value) -> Result<Answer<Value>, OutOfMemory>
    ensures { IfOk result (λ r. outcome r ≡ item_at_end (view collection.now)) }
{
    match collection {
        Value::Vector(items) => Ok(Ok(last_item(alloc, items.as_slice())?)),
        Value::Nil => Ok(Ok(Value::Nil)),
        _ => Ok(Err(ValueFault::WrongKind)),
    }
}

// A copy of the last item, or nil.
fn last_item(alloc: Global, items: &[Value]) -> Result<Value, OutOfMemory>
    ensures { IfOk result (λ v. view v ≡ unwrap_or (slice_get (views items.now) (length (views items.now) - 1)) nil) }
{
    item_or_nil(alloc, items, items.len().saturating_sub(1))
}

/// The vector without its last item.
#[inline(never)]
#[tactic(auto, using(crate::proofs::Lists::items_of_trees_of))]
pub fn pop(alloc: Global, collection: Value) -> Result<Answer<Value>, OutOfMemory>
    ensures { IfOk result (λ r. outcome r ≡ popped (view collection)) }
{
    match collection {
        Value::Vector(items) => without_last(alloc, items.into_items(alloc)?),
        Value::Nil => Ok(Ok(Value::Nil)),
        _ => Ok(Err(ValueFault::WrongKind)),
    }
}

// The items but the last.
fn without_last(alloc: Global, mut items: Items) -> Result<Answer<Value>, OutOfMemory>
    ensures { IfOk result (λ r. outcome r ≡ shortened (views (list items))) }
{
    match items.pop() {
        Some(_) => Ok(Ok(Value::vector(alloc, items)?)),
        None => Ok(Err(ValueFault::OutOfRange)),
    }
}

/// The item of a collection at an index, or nil.
#[inline(never)]
#[tactic(auto, using(crate::proofs::Lists::items_of_trees_of))]
pub fn part(alloc: Global, collection: &Value, index: &Value) -> Result<Answer<Value>, OutOfMemory>
    ensures { IfOk result (λ r. outcome r ≡ item_at_index (view collection.now) (view index.now)) }
{
    match collection {
        Value::Vector(items) => match integer(index) {
            Ok(index) => Ok(Ok(item_copy(alloc, items.as_slice(), index)?.unwrap_or(Value::Nil))),
            Err(fault) => Ok(Err(fault)),
        },
        Value::Nil => match integer(index) {
            Ok(_) => Ok(Ok(Value::Nil)),
            Err(fault) => Ok(Err(fault)),
        },
        _ => Ok(Err(ValueFault::WrongKind)),
    }
}

/// The items from the start up to, not including, the end, which is the count where none is given.
#[inline(never)]
pub fn subvec(
    alloc: Global,
    args: (Value, Value, Option<Value>),
) -> Result<Answer<Value>, OutOfMemory>
    ensures { IfOk result (λ r. outcome r ≡ subvec_of (view args.0) (view args.1) (option_map view args.2)) }
{
    let (collection, start, end) = args;
    let items = match vector(collection) {
        Ok(items) => items,
        Err(fault) => return Ok(Err(fault)),
    };
    cut(alloc, items, &start, end)
}

// The same, of the vector's own items.
fn cut(
    alloc: Global,
    items: Vector,
    start: &Value,
    end: Option<Value>,
) -> Result<Answer<Value>, OutOfMemory>
    ensures { IfOk result (λ r. outcome r ≡ cut_of (vector_trees items) (view start.now) (option_map view end)) }
{
    let start = match integer(start) {
        Ok(start) => start,
        Err(fault) => return Ok(Err(fault)),
    };
    let end = match end_place(items.as_slice(), end) {
        Ok(end) => end,
        Err(fault) => return Ok(Err(fault)),
    };
    between(alloc, items, start, end)
}

// The end that is given, or else the count.
fn end_place(items: &[Value], end: Option<Value>) -> Answer<i64>
    ensures { result ≡ end_index (views items.now) (option_map view end) }
{
    match end {
        Some(end) => integer(&end),
        None => Ok(items.len() as i64),
    }
}

// The items from the start up to the end, which must lie within them in this order.
fn between(alloc: Global, items: Vector, start: i64, end: i64) -> Result<Answer<Value>, OutOfMemory>
    ensures { IfOk result (λ r. outcome r ≡ part_between (vector_trees items) start end) }
{
    let items = items.into_items(alloc)?;
    if start < 0 || end < start || (items.len() as i64) < end {
        return Ok(Err(ValueFault::OutOfRange));
    }
    Ok(Ok(Value::vector(alloc, items.into_range(start as u64, end as u64))?))
}
