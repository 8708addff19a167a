//! The pairs of a map, which its copies share: in place for a sole owner, else in a table of its own.
ghost use Rattle.std.specs.Prelude.{◌≡◌, ℕ, ◌+◌, ◌≤◌, ◌<◌, [], ◌∷◌, ◌++◌, false, max, length, IfOk, OnOk, OnErr, slice_set, slice_index_or};
ghost use Rattle.ca_value.specs.Pairs.{pairs_list};
ghost use Rattle.ca_value.specs.Tree.{nil, pairs_of};
ghost use Rattle.ca_value.specs.Measure.{weight_of, depth_of, weight_of_pairs, depth_of_pairs};
ghost use Rattle.ca_value.specs.Measured.{capped, IsDepthAfter};
ghost use Rattle.ca_value.specs.Equality.{has_key};
ghost use Rattle.ca_value.specs.Maps.{key_place, put_pair};
ghost use Rattle.ca_value.specs.View.{view, pair_view, pair_views, map_pairs};

use crate::copy::pair_copies;
use crate::measure::{depth_after, weight_after};
use crate::memory::OutOfMemory;
use crate::value::{Map, Pair, Pairs, Table, Value};
use std::alloc::Global;
use std::sync::Arc;

impl Map {
    /// The map of the pairs.
    pub fn of(alloc: Global, pairs: Pairs) -> Result<Map, OutOfMemory>
        ensures { IfOk result (λ m. map_pairs m ≡ pair_views (pairs_list pairs)) }
    {
        Ok(Map {
            table: Arc::new(alloc, Table::of(pairs))?,
        })
    }

    /// The same pairs, shared.
    pub fn copy(&self) -> Result<Map, OutOfMemory>
        ensures { IfOk result (λ m. map_pairs m ≡ map_pairs self.now) }
    {
        Ok(Map {
            table: Arc::try_clone(&self.table)?,
        })
    }

    /// The pairs, borrowed.
    pub fn as_slice(&self) -> &[Pair]
        ensures { pair_views result.now ≡ map_pairs self.now }
    {
        self.table.as_slice()
    }

    /// Sets the value of the key, in the place of an equal key or at the end: in place where no copy
    /// shares the pairs, else in pairs of its own.
    pub fn put(&mut self, alloc: Global, key: Value, value: Value) -> Result<(), OutOfMemory>
        ensures ok { OnOk result (map_pairs self.new ≡ put_pair (map_pairs self.old) (view key) (view value)) }
        ensures err { OnErr result (map_pairs self.new ≡ map_pairs self.old) }
    {
        match Arc::get_mut(&mut self.table) {
            Some(table) => table.put(key, value),
            None => {
                let mut table = self.unshared(alloc)?;
                table.put(key, value)?;
                self.table = Arc::new(alloc, table)?;
                Ok(())
            }
        }
    }

    // A table of its own with copies of the pairs.
    fn unshared(&self, alloc: Global) -> Result<Table, OutOfMemory>
        ensures { IfOk result (λ t. t ≡ map_pairs self.now) }
    {
        let table: &Table = &self.table;
        Ok(Table {
            pairs: pair_copies(alloc, table.pairs.as_slice())?,
            weight: table.weight,
            depth: table.depth,
        })
    }

    /// The pairs as a list of its own: the very one where no copy shares it, else copies.
    pub fn into_pairs(self, alloc: Global) -> Result<Pairs, OutOfMemory>
        ensures { IfOk result (λ s. pair_views (pairs_list s) ≡ map_pairs self) }
    {
        let Map { table } = self;
        match Arc::try_unwrap(table) {
            Ok(table) => Ok(table.into_pairs()),
            Err(table) => pair_copies(alloc, table.as_slice()),
        }
    }

    // What the keys and values weigh together.
    pub(crate) fn weight(&self) -> u64
        ensures { result ≡ capped (weight_of_pairs (pairs_of (map_pairs self.now))) }
    {
        let table: &Table = &self.table;
        table.weight
    }

    // How deep the deepest is.
    pub(crate) fn depth(&self) -> u64
        ensures { result ≡ capped (depth_of_pairs (pairs_of (map_pairs self.now))) }
    {
        let table: &Table = &self.table;
        table.depth
    }
}

impl Table {
    // These pairs, measured.
    fn of(pairs: Pairs) -> Table
        ensures { result ≡ pair_views (pairs_list pairs) }
    {
        let weight = pairs_weight(pairs.as_slice());
        let depth = pairs_depth(pairs.as_slice());
        Table {
            pairs,
            weight,
            depth,
        }
    }

    // Sets the value of the key, in the place of an equal key or at the end.
    fn put(&mut self, key: Value, value: Value) -> Result<(), OutOfMemory>
        ensures ok { OnOk result (self.new ≡ put_pair self.old (view key) (view value)) }
        ensures err { OnErr result (self.new ≡ self.old) }
    {
        match place(self.as_slice(), &key) {
            Some(place) => {
                self.set(place, value);
                Ok(())
            }
            None => self.push(Pair::new(key, value)),
        }
    }

    // Adds the pair last.
    fn push(&mut self, pair: Pair) -> Result<(), OutOfMemory>
        requires fresh { has_key (pair_view pair).0 (pairs_of self.old) ≡ false }
        ensures ok { OnOk result (self.new ≡ self.old ++ pair_view pair ∷ []) }
        ensures err { OnErr result (self.new ≡ self.old) }
    {
        let weight = self.weight.saturating_add(pair_weight(&pair));
        let depth = self.depth.max(pair_depth(&pair));
        self.pairs.reserve(1)?;
        self.pairs.push(pair);
        self.weight = weight;
        self.depth = depth;
        Ok(())
    }

    // Puts the value at the place of a pair.
    fn set(&mut self, place: u64, value: Value)
        requires { place < length self.old }
        ensures { self.new ≡ slice_set self.old place ((slice_index_or self.old place (nil, nil)).0, view value) }
    {
        let (weight, depth) = (value.capped_weight(), value.capped_depth());
        let old = self.pairs.set_value(place, value);
        let pairs = self.pairs.as_slice();
        let weight = pairs_weight_after(self.weight, old.capped_weight(), weight, pairs);
        let depth = pairs_depth_after(self.depth, old.capped_depth(), depth, pairs);
        self.weight = weight;
        self.depth = depth;
    }

    fn as_slice(&self) -> &[Pair]
        ensures { pair_views result.now ≡ self.now }
    {
        self.pairs.as_slice()
    }

    fn into_pairs(self) -> Pairs
        ensures { pair_views (pairs_list result) ≡ self }
    {
        self.pairs
    }
}

/// The place of the pair with an equal key.
pub(crate) fn place(pairs: &[Pair], key: &Value) -> Option<u64>
    ensures { result ≡ key_place (pair_views pairs.now) (view key.now) }
{
    for i in 0..pairs.len() {
        if key.is_equal(&pairs[i].key) {
            return Some(i as u64);
        }
    }
    None
}

// The weight of the key and the value together, or the greatest number.
fn pair_weight(pair: &Pair) -> u64
    ensures { let p = pair_view pair.now in result ≡ capped (weight_of p.0 + weight_of p.1) }
{
    pair.key
        .capped_weight()
        .saturating_add(pair.value.capped_weight())
}

// The depth of the deeper of the key and the value.
fn pair_depth(pair: &Pair) -> u64
    ensures { let p = pair_view pair.now in result ≡ capped (max (depth_of p.0) (depth_of p.1)) }
{
    pair.key.capped_depth().max(pair.value.capped_depth())
}

// The weight of the keys and values together, or the greatest number.
fn pairs_weight(pairs: &[Pair]) -> u64
    ensures { result ≡ capped (weight_of_pairs (pairs_of (pair_views pairs.now))) }
{
    let mut total: u64 = 0;
    for pair in pairs {
        total = total.saturating_add(pair_weight(pair));
    }
    total
}

// The depth of the deepest key or value, or 0.
fn pairs_depth(pairs: &[Pair]) -> u64
    ensures { result ≡ capped (depth_of_pairs (pairs_of (pair_views pairs.now))) }
{
    let mut deepest: u64 = 0;
    for pair in pairs {
        deepest = deepest.max(pair_depth(pair));
    }
    deepest
}

// The weight of the pairs, where they weighed so much before a value of theirs gave way to another.
fn pairs_weight_after(before: u64, old: u64, new: u64, pairs: &[Pair]) -> u64
    ensures { (w o n : ℕ) → before ≡ capped w → old ≡ capped o → new ≡ capped n → o ≤ w → weight_of_pairs (pairs_of (pair_views pairs.now)) + o ≡ w + n → result ≡ capped (weight_of_pairs (pairs_of (pair_views pairs.now))) }
{
    match weight_after(before, old, new) {
        Some(weight) => weight,
        None => pairs_weight(pairs),
    }
}

// The depth of the deepest key or value, where it was so deep before a value gave way to another.
fn pairs_depth_after(before: u64, old: u64, new: u64, pairs: &[Pair]) -> u64
    ensures { (d o n : ℕ) → before ≡ capped d → old ≡ capped o → new ≡ capped n → IsDepthAfter d o n (depth_of_pairs (pairs_of (pair_views pairs.now))) → result ≡ capped (depth_of_pairs (pairs_of (pair_views pairs.now))) }
{
    match depth_after(before, old, new) {
        Some(depth) => depth,
        None => pairs_depth(pairs),
    }
}
