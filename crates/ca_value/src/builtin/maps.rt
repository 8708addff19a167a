ghost use Rattle.std.specs.Prelude.{◌≡◌, [], ◌∷◌, IfOk, option_map, unwrap_or, if◌then◌else◌, map as map_list, is_some};
ghost use Rattle.ca_value.specs.Seq.{list};
ghost use Rattle.ca_value.specs.Pairs.{pairs_list};
ghost use Rattle.ca_value.specs.Tree.{nil};
ghost use Rattle.ca_value.specs.View.{view, views, pair_view, pair_views, vector_trees, map_pairs};
ghost use Rattle.ca_value.specs.Outcome.{outcome};
ghost use Rattle.ca_value.specs.Kinds.{map_from};
ghost use Rattle.ca_value.specs.Maps.{value_at, put_pair, put_all, paired, item_under, get_of, count_answer, item_set, items_assoc, assoc_of, without_pair, without_all, dissoc_of, is_empty_of, vector_or_nil, halves_of, contains_of, walked, pair_vector};
ghost use Rattle.ca_value.specs.Vectors.{item_at};
ghost use Rattle.ca_value.specs.Operations.{half_of};

use super::kinds::{Answer, integer};
use super::vectors::item_copy;
use crate::fault::ValueFault;
use crate::map::place;
use crate::memory::OutOfMemory;
use crate::value::{Items, Map, Pair, Pairs, Value, Vector};
use std::alloc::Global;

// A copy of the value of the key.
fn value_copy(alloc: Global, pairs: &[Pair], key: &Value) -> Result<Option<Value>, OutOfMemory>
    ensures { IfOk result (λ o. option_map view o ≡ value_at (pair_views pairs.now) (view key.now)) }
{
    match value_under(pairs, key) {
        Some(value) => Ok(Some(value.copy(alloc)?)),
        None => Ok(None),
    }
}

// The value of the key, where it lies.
fn value_under<'a>(pairs: &'a [Pair], key: &Value) -> Option<&'a Value>
    ensures { option_map (λ v. view v.now) result ≡ value_at (pair_views pairs.now) (view key.now) }
{
    for pair in pairs {
        if key.is_equal(&pair.key) {
            return Some(&pair.value);
        }
    }
    None
}

// Sets keys and values that stand in turn.
fn set_all(alloc: Global, mut map: Map, args: Items) -> Result<Map, OutOfMemory>
    ensures { IfOk result (λ m. map_pairs m ≡ put_all (map_pairs map) (paired (views (list args)))) }
{
    let mut rest = args.into_vec().into_iter();
    while let Some(key) = rest.next() {
        let Some(value) = rest.next() else {
            return Ok(map);
        };
        map.put(alloc, key, value)?;
    }
    Ok(map)
}

/// The map of keys and values that stand in turn.
#[inline(never)]
pub fn hash_map(alloc: Global, args: Items) -> Result<Value, OutOfMemory>
    ensures { IfOk result (λ v. view v ≡ map_from (put_all [] (paired (views (list args))))) }
{
    let mut pairs = Pairs::new(alloc);
    pairs.reserve(args.len() / 2)?;
    Ok(Value::Map(set_all(alloc, Map::of(alloc, pairs)?, args)?))
}

/// The value of a key of a map, or the item of a vector at an index; else the default, which is nil
/// where none is given.
#[inline(never)]
#[tactic(auto, using(crate::proofs::VectorLaws::view_unwrap_or))]
pub fn get(alloc: Global, args: (Value, Value, Option<Value>)) -> Result<Answer<Value>, OutOfMemory>
    ensures { IfOk result (λ r. outcome r ≡ get_of (view args.0) (view args.1) (unwrap_or (option_map view args.2) nil)) }
{
    let (collection, key, default) = args;
    get_or(alloc, &collection, &key, default.unwrap_or(Value::Nil))
}

// The same, with the default at hand.
#[tactic(auto, using(crate::proofs::Lists::items_of_trees_of, crate::proofs::Lists::entries_of_pairs_of, crate::proofs::VectorLaws::view_unwrap_or))]
pub fn get_or(
    alloc: Global,
    collection: &Value,
    key: &Value,
    default: Value,
) -> Result<Answer<Value>, OutOfMemory>
    ensures { IfOk result (λ r. outcome r ≡ get_of (view collection.now) (view key.now) (view default)) }
{
    match collection {
        Value::Map(pairs) => Ok(Ok(value_copy(alloc, pairs.as_slice(), key)?.unwrap_or(default))),
        Value::Vector(items) => Ok(Ok(copy_under(alloc, items.as_slice(), key)?.unwrap_or(
            default,
        ))),
        Value::Text(_) => Ok(Err(ValueFault::WrongKind)),
        _ => Ok(Ok(default)),
    }
}

// A copy of the item at a key that is an index.
fn copy_under(alloc: Global, items: &[Value], key: &Value) -> Result<Option<Value>, OutOfMemory>
    ensures { IfOk result (λ o. option_map view o ≡ item_under (views items.now) (view key.now)) }
{
    match key {
        Value::Int(place) => item_copy(alloc, items, *place),
        _ => Ok(None),
    }
}

/// How many items, or pairs, there are.
#[tactic(auto, using(crate::proofs::Lists::items_of_trees_of, crate::proofs::Lists::entries_of_pairs_of))]
pub fn count(collection: &Value) -> Answer<i64>
    ensures { result ≡ count_answer (view collection.now) }
{
    match collection {
        Value::Map(pairs) => Ok(pairs.as_slice().len() as i64),
        Value::Vector(items) => Ok(items.as_slice().len() as i64),
        Value::Nil => Ok(0),
        _ => Err(ValueFault::WrongKind),
    }
}

/// One half of a pair.
#[derive(Clone, Copy)]
pub enum Half {
    Key,
    Value,
}

/// The collection with keys or places set, in order.
#[inline(never)]
#[tactic(auto, using(crate::proofs::Lists::items_of_trees_of, crate::proofs::Lists::entries_of_pairs_of))]
pub fn assoc(alloc: Global, args: (Value, Items)) -> Result<Answer<Value>, OutOfMemory>
    ensures { IfOk result (λ r. outcome r ≡ assoc_of (view args.0) (views (list args.1))) }
{
    let (collection, settings) = args;
    match collection {
        Value::Map(map) => Ok(Ok(Value::Map(set_all(alloc, map, settings)?))),
        Value::Nil => Ok(Ok(hash_map(alloc, settings)?)),
        Value::Vector(items) => set_items(alloc, items, settings),
        _ => Ok(Err(ValueFault::WrongKind)),
    }
}

/// The collection with one key or place set, in its own memory where it is no one else's.
#[tactic(auto, using(crate::proofs::Lists::items_of_trees_of, crate::proofs::Lists::entries_of_pairs_of))]
pub fn assoc_one(
    alloc: Global,
    collection: Value,
    key: Value,
    value: Value,
) -> Result<Answer<Value>, OutOfMemory>
    ensures { IfOk result (λ r. outcome r ≡ assoc_of (view collection) (view key ∷ view value ∷ [])) }
{
    match collection {
        Value::Map(map) => Ok(Ok(map_with(alloc, map, key, value)?)),
        Value::Nil => {
            let map = Map::of(alloc, Pairs::new(alloc))?;
            Ok(Ok(map_with(alloc, map, key, value)?))
        }
        Value::Vector(items) => vector_with(alloc, items, &key, value),
        _ => Ok(Err(ValueFault::WrongKind)),
    }
}

// The map with the value of the key set.
fn map_with(alloc: Global, mut map: Map, key: Value, value: Value) -> Result<Value, OutOfMemory>
    ensures { IfOk result (λ v. view v ≡ map_from (put_pair (map_pairs map) (view key) (view value))) }
{
    map.put(alloc, key, value)?;
    Ok(Value::Map(map))
}

// The vector with the item set at a place that is an integer.
fn vector_with(
    alloc: Global,
    mut items: Vector,
    key: &Value,
    value: Value,
) -> Result<Answer<Value>, OutOfMemory>
    ensures { IfOk result (λ r. outcome r ≡ items_assoc (vector_trees items) ((view key.now, view value) ∷ [])) }
{
    let place = match integer(key) {
        Ok(place) => place,
        Err(fault) => return Ok(Err(fault)),
    };
    if set_item(alloc, &mut items, place, value)? {
        Ok(Ok(Value::Vector(items)))
    } else {
        Ok(Err(ValueFault::OutOfRange))
    }
}

// The vector with items set at places that stand in turn with them. Every place must be an integer,
// also those after one that lies outside.
fn set_items(alloc: Global, mut items: Vector, args: Items) -> Result<Answer<Value>, OutOfMemory>
    ensures { IfOk result (λ r. outcome r ≡ items_assoc (vector_trees items) (paired (views (list args)))) }
{
    let mut fits = true;
    let mut rest = args.into_vec().into_iter();
    while let Some(key) = rest.next() {
        let Some(value) = rest.next() else {
            break;
        };
        let place = match integer(&key) {
            Ok(place) => place,
            Err(fault) => return Ok(Err(fault)),
        };
        fits = fits && set_item(alloc, &mut items, place, value)?;
    }
    if fits {
        Ok(Ok(Value::Vector(items)))
    } else {
        Ok(Err(ValueFault::OutOfRange))
    }
}

// Sets the item at a place within the items, or adds it at their end; says whether it could.
fn set_item(
    alloc: Global,
    items: &mut Vector,
    place: i64,
    value: Value,
) -> Result<bool, OutOfMemory>
    ensures { IfOk result (λ b. item_set (vector_trees items.old) place (view value) ≡ (if b then Ok (vector_trees items.new) else Err ValueFault.OutOfRange)) }
{
    let count = items.as_slice().len() as u64;
    if place < 0 || count < place as u64 {
        return Ok(false);
    }
    if (place as u64) < count {
        items.set(alloc, place as u64, value)?;
    } else {
        items.push(alloc, value)?;
    }
    Ok(true)
}

// The pairs but that of the key.
fn without_key(pairs: Pairs, key: &Value) -> Pairs
    ensures { pair_views (pairs_list result) ≡ without_pair (pair_views (pairs_list pairs)) (view key.now) }
{
    match place(pairs.as_slice(), key) {
        Some(place) => pairs.without(place),
        None => pairs,
    }
}

// The pairs but those of the keys.
fn without_keys(mut pairs: Pairs, keys: &[Value]) -> Pairs
    ensures { pair_views (pairs_list result) ≡ without_all (pair_views (pairs_list pairs)) (views keys.now) }
{
    for key in keys {
        pairs = without_key(pairs, key);
    }
    pairs
}

/// The map without the keys; of nil nil.
#[inline(never)]
#[tactic(auto, using(crate::proofs::Lists::entries_of_pairs_of))]
pub fn dissoc(alloc: Global, args: (Value, Items)) -> Result<Answer<Value>, OutOfMemory>
    ensures { IfOk result (λ r. outcome r ≡ dissoc_of (view args.0) (views (list args.1))) }
{
    let (collection, keys) = args;
    match collection {
        Value::Map(pairs) => {
            let pairs = without_keys(pairs.into_pairs(alloc)?, keys.as_slice());
            Ok(Ok(Value::map(alloc, pairs)?))
        }
        Value::Nil => Ok(Ok(Value::Nil)),
        _ => Ok(Err(ValueFault::WrongKind)),
    }
}

/// Whether there are no items, or pairs. A text has no count: it is WrongKind, as anything else that is
/// no vector, map or nil.
pub fn is_empty(collection: &Value) -> Answer<bool>
    ensures { result ≡ is_empty_of (view collection.now) }
{
    Ok(count(collection)? == 0)
}

/// The keys, or the values, of a map in order, or nil.
#[inline(never)]
#[tactic(auto, using(crate::proofs::Lists::entries_of_pairs_of))]
pub fn halves(alloc: Global, collection: &Value, half: Half) -> Result<Answer<Value>, OutOfMemory>
    ensures { IfOk result (λ r. outcome r ≡ halves_of (half_of half) (view collection.now)) }
{
    match collection {
        Value::Map(pairs) => Ok(Ok(vector_or_none(
            alloc,
            half_items(alloc, pairs.as_slice(), half)?,
        )?)),
        Value::Nil => Ok(Ok(Value::Nil)),
        _ => Ok(Err(ValueFault::WrongKind)),
    }
}

// The items as a vector, or nil where there are none.
fn vector_or_none(alloc: Global, items: Items) -> Result<Value, OutOfMemory>
    ensures { IfOk result (λ v. view v ≡ vector_or_nil (views (list items))) }
{
    if items.is_empty() {
        Ok(Value::Nil)
    } else {
        Value::vector(alloc, items)
    }
}

// That half of each pair, in order.
fn half_items(alloc: Global, pairs: &[Pair], half: Half) -> Result<Items, OutOfMemory>
    ensures { IfOk result (λ s. views (list s) ≡ map_list (half_of half) (pair_views pairs.now)) }
{
    let mut items = Items::new(alloc);
    items.reserve(pairs.len() as u64)?;
    for pair in pairs {
        items.push(one_half(alloc, pair, half)?);
    }
    Ok(items)
}

// A copy of that half of one pair.
fn one_half(alloc: Global, pair: &Pair, half: Half) -> Result<Value, OutOfMemory>
    ensures { IfOk result (λ v. view v ≡ half_of half (pair_view pair.now)) }
{
    match half {
        Half::Key => pair.key.copy(alloc),
        Half::Value => pair.value.copy(alloc),
    }
}

/// Whether the key of a map, or the index of a vector, is there.
#[tactic(auto, using(crate::proofs::Lists::items_of_trees_of, crate::proofs::Lists::entries_of_pairs_of))]
pub fn contains(collection: &Value, key: &Value) -> Answer<bool>
    ensures { result ≡ contains_of (view collection.now) (view key.now) }
{
    match collection {
        Value::Map(pairs) => Ok(has_key(pairs.as_slice(), key)),
        Value::Vector(items) => Ok(has_index(items.as_slice(), key)),
        Value::Nil => Ok(false),
        _ => Err(ValueFault::WrongKind),
    }
}

// Whether a pair has an equal key.
fn has_key(pairs: &[Pair], key: &Value) -> bool
    ensures { result ≡ is_some (value_at (pair_views pairs.now) (view key.now)) }
{
    for pair in pairs {
        if key.is_equal(&pair.key) {
            return true;
        }
    }
    false
}

// Whether the key is an index of an item.
fn has_index(items: &[Value], key: &Value) -> bool
    ensures { result ≡ is_some (item_under (views items.now) (view key.now)) }
{
    match key {
        Value::Int(place) => has_place(items, *place),
        _ => false,
    }
}

// Whether there is an item at the place.
fn has_place(items: &[Value], place: i64) -> bool
    ensures { result ≡ is_some (item_at (views items.now) place) }
{
    if place < 0 {
        return false;
    }
    items.get(place as usize).is_some()
}

/// What a walk over the collection meets: the items of a vector, the pairs of a map as vectors.
#[inline(never)]
#[tactic(auto, using(crate::proofs::Lists::entries_of_pairs_of))]
pub fn items(alloc: Global, collection: Value) -> Result<Answer<Value>, OutOfMemory>
    ensures { IfOk result (λ r. outcome r ≡ walked (view collection)) }
{
    match collection {
        Value::Map(pairs) => Ok(Ok(Value::vector(alloc, pair_items(alloc, pairs.as_slice())?)?)),
        Value::Vector(items) => Ok(Ok(Value::Vector(items))),
        Value::Nil => Ok(Ok(Value::vector(alloc, Items::new(alloc))?)),
        _ => Ok(Err(ValueFault::WrongKind)),
    }
}

// The pairs, each as a vector of its key and its value.
fn pair_items(alloc: Global, pairs: &[Pair]) -> Result<Items, OutOfMemory>
    ensures { IfOk result (λ s. views (list s) ≡ map_list pair_vector (pair_views pairs.now)) }
{
    let mut items = Items::new(alloc);
    items.reserve(pairs.len() as u64)?;
    for pair in pairs {
        items.push(as_vector(alloc, pair)?);
    }
    Ok(items)
}

// The vector of the key and the value.
fn as_vector(alloc: Global, pair: &Pair) -> Result<Value, OutOfMemory>
    ensures { IfOk result (λ v. view v ≡ pair_vector (pair_view pair.now)) }
{
    let mut items = Items::new(alloc);
    items.reserve(2)?;
    items.push(pair.key.copy(alloc)?);
    items.push(pair.value.copy(alloc)?);
    Value::vector(alloc, items)
}
