ghost use Rattle.std.specs.Prelude.{◌≡◌, ◌+◌, ◌<◌, ◌≤◌, [], ◌∷◌, ◌++◌, false, length, OnOk, IfOk, IfSome, None, slice_get, slice_set, slice_index_or, remove, option_map};
ghost use Rattle.ca_value.specs.Seq.{list};
ghost use Rattle.ca_value.specs.Pairs.{pairs_list, pairs_spare};
ghost use Rattle.ca_value.specs.Tree.{nil, text, key as keyword, vector, map, trees_of, pairs_of};
ghost use Rattle.ca_value.specs.View.{view, views, pair_view, pair_views, pairs_view};
ghost use Rattle.ca_value.specs.Equality.{has_key};

use crate::memory::OutOfMemory;
use crate::seq::{Seq, Text};
use std::alloc::Global;
use std::marker::Model;
use std::sync::Arc;

/// The number that names a port: a channel, a mult, a mix or a publication.
#[derive(Clone, Copy)]
pub struct PortId {
    /// Any number: what it names is not a value's concern.
    pub n: u64,
}

/// A key of a map with its value.
#[cycle(value)]
#[derive(Drop)]
pub struct Pair {
    pub key: Value,
    pub value: Value,
}

/// The items of a vector, in order.
pub type Items = Seq<Value>;

/// The pairs of a map in order of insertion; a push keeps their keys distinct.
#[cycle(value)]
#[derive(Drop)]
pub struct Pairs {
    pairs: Seq<Pair>,
}

// The items of a vector, with their weight together and the depth of the deepest.
#[cycle(value)]
#[derive(Drop)]
pub(crate) struct Spine {
    pub(crate) items: Items,
    pub(crate) weight: u64,
    pub(crate) depth: u64,
}

impl Model for Spine {
    ghost use Rattle.std.specs.Prelude.{List};
    ghost use Rattle.ca_value.specs.Tree.{Tree, trees_of};
    ghost use Rattle.ca_value.specs.Measure.{depth_of_items};
    ghost use Rattle.ca_value.specs.Code.{coded_trees};

    ghost Value = { List Tree };

    ghost coded = { coded_trees };

    ghost use Rattle.ca_value.specs.Seq.{list};
    ghost use Rattle.ca_value.specs.View.{views};
    ghost use Rattle.ca_value.specs.Measured.{IsMeasured};

    ghost view = { λ a. views (list a.items) };

    ghost invariant = { λ a. IsMeasured (views (list a.items)) a.weight a.depth };

    ghost size = { λ d. depth_of_items (trees_of d) };

    ghost use Rattle.std.proofs.Common.{arith};
    ghost use Rattle.ca_value.specs.Falls.{items_fall};

    ghost size_decreases = { λ a h. omega (arith, items_fall (list a.items)) };
}

// The pairs of a map, with the weight of their keys and values together and the depth of the deepest.
#[cycle(value)]
#[derive(Drop)]
pub(crate) struct Table {
    pub(crate) pairs: Pairs,
    pub(crate) weight: u64,
    pub(crate) depth: u64,
}

impl Model for Table {
    ghost use Rattle.std.specs.Prelude.{List};
    ghost use Rattle.ca_value.specs.Tree.{Tree, pairs_of};
    ghost use Rattle.ca_value.specs.Measure.{depth_of_pairs};
    ghost use Rattle.ca_value.specs.Code.{coded_pairs};

    ghost Value = { List (Tree × Tree) };

    ghost coded = { coded_pairs };

    ghost use Rattle.ca_value.specs.Pairs.{pairs_list};
    ghost use Rattle.ca_value.specs.View.{pair_views};
    ghost use Rattle.ca_value.specs.Measured.{ArePairsMeasured};

    ghost view = { λ a. pair_views (pairs_list a.pairs) };

    ghost invariant = { λ a. ArePairsMeasured (pair_views (pairs_list a.pairs)) a.weight a.depth };

    ghost size = { λ d. depth_of_pairs (pairs_of d) };

    ghost use Rattle.std.proofs.Common.{arith};
    ghost use Rattle.ca_value.specs.Falls.{pairs_fall};

    ghost size_decreases = { λ a h. omega (arith, pairs_fall (pairs_list a.pairs)) };
}

/// The items of a vector, shared by its copies.
#[cycle(value)]
#[derive(Drop)]
pub struct Vector {
    pub(crate) spine: Arc<Spine>,
}

/// The pairs of a map, shared by its copies.
#[cycle(value)]
#[derive(Drop)]
pub struct Map {
    pub(crate) table: Arc<Table>,
}

/// A value of the language. `Key` is a keyword, without its colon. What is larger than a number is shared
/// by its copies, so a copy costs nothing.
#[cycle(value)]
#[derive(Drop)]
pub enum Value {
    Nil,
    Bool(bool),
    Int(i64),
    Text(Arc<Text>),
    Key(Arc<Text>),
    Vector(Vector),
    Map(Map),
    Port(PortId),
}

impl Pair {
    /// The pair of the two, which it takes over with no copy. Any value may be a key.
    pub fn new(key: Value, value: Value) -> Pair
        ensures { pair_view result ≡ (view key, view value) }
    {
        Pair { key, value }
    }

    /// The key and the value, with no copy.
    pub fn into_parts(self) -> (Value, Value)
        ensures { pair_view self ≡ (view result.0, view result.1) }
    {
        let Pair { key, value } = self;
        (key, value)
    }
}

impl Pairs {
    /// No pairs, which takes no memory.
    pub fn new(alloc: Global) -> Pairs
        ensures { pairs_list result ≡ [] }
    {
        Pairs {
            pairs: Seq::new(alloc),
        }
    }

    /// Makes room for `n` more pairs at the least.
    pub fn reserve(&mut self, n: u64) -> Result<(), OutOfMemory>
        ensures same { pairs_list self.new ≡ pairs_list self.old }
        ensures spare { OnOk result (n ≤ pairs_spare self.new) }
        ensures keeps { pairs_spare self.old ≤ pairs_spare self.new }
    {
        self.pairs.reserve(n)
    }

    /// Adds the pair last, taking no memory.
    pub fn push(&mut self, pair: Pair)
        requires room { 0 < pairs_spare self.old }
        requires fresh { has_key (pair_view pair).0 (pairs_view self.old) ≡ false }
        ensures added { pairs_list self.new ≡ pairs_list self.old ++ pair ∷ [] }
        ensures spare { pairs_spare self.old ≤ pairs_spare self.new + 1 }
    {
        self.pairs.push(pair);
    }

    /// Takes the last pair out.
    pub fn pop(&mut self) -> Option<Pair>
        ensures none { result ≡ None → (pairs_list self.old ≡ []) × (pairs_list self.new ≡ []) }
        ensures some { IfSome result (λ p. pairs_list self.old ≡ pairs_list self.new ++ p ∷ []) }
        ensures spare { pairs_spare self.old ≤ pairs_spare self.new }
    {
        self.pairs.pop()
    }

    /// The pair at the place, or None past the last one.
    pub fn get(&self, place: u64) -> Option<&Pair>
        ensures { option_map (λ p. p.now) result ≡ slice_get (pairs_list self.now) place }
    {
        self.pairs.get(place)
    }

    /// How many pairs there are, which is how many distinct keys. Spare room does not count.
    pub fn len(&self) -> u64
        ensures { result ≡ length (pairs_list self.now) }
    {
        self.pairs.len()
    }

    /// The pairs in order of insertion, borrowed where they lie, with no copy.
    pub fn as_slice(&self) -> &[Pair]
        ensures { result.now ≡ pairs_list self.now }
    {
        self.pairs.as_slice()
    }

    /// Puts the value at the place of a pair, whose key stays, and gives the one that stood there.
    pub fn set_value(&mut self, place: u64, value: Value) -> Value
        requires { place < length (pairs_list self.old) }
        ensures old { view result ≡ (slice_index_or (pair_views (pairs_list self.old)) place (nil, nil)).1 }
        ensures set { let pairs = pair_views (pairs_list self.old) in pair_views (pairs_list self.new) ≡ slice_set pairs place ((slice_index_or pairs place (nil, nil)).0, view value) }
        ensures spare { pairs_spare self.old ≤ pairs_spare self.new }
    {
        let pair = self.pairs.replace(place, Pair::new(Value::Nil, Value::Nil));
        let (key, old) = pair.into_parts();
        self.pairs.set(place, Pair::new(key, value));
        old
    }

    /// The pairs without that at the place.
    pub fn without(self, place: u64) -> Pairs
        requires { place < length (pairs_list self) }
        ensures { pairs_list result ≡ remove (pairs_list self) place }
    {
        let Pairs { pairs } = self;
        let mut pairs = pairs.into_vec();
        pairs.remove(place as usize);
        Pairs {
            pairs: Seq::from_vec(pairs),
        }
    }

    // These pairs, whose keys are distinct.
    pub(crate) fn of(pairs: Seq<Pair>) -> Pairs
        ensures { pairs_list result ≡ list pairs }
    {
        Pairs { pairs }
    }
}

impl Value {
    /// The vector of the items.
    pub fn vector(alloc: Global, items: Items) -> Result<Value, OutOfMemory>
        ensures { IfOk result (λ v. view v ≡ vector (trees_of (views (list items)))) }
    {
        Ok(Value::Vector(Vector::of(alloc, items)?))
    }

    /// The map of the pairs.
    pub fn map(alloc: Global, pairs: Pairs) -> Result<Value, OutOfMemory>
        ensures { IfOk result (λ v. view v ≡ map (pairs_of (pair_views (pairs_list pairs)))) }
    {
        Ok(Value::Map(Map::of(alloc, pairs)?))
    }

    /// The text.
    pub fn text(alloc: Global, bytes: Text) -> Result<Value, OutOfMemory>
        ensures { IfOk result (λ v. view v ≡ text (list bytes)) }
    {
        Ok(Value::Text(Arc::new(alloc, bytes)?))
    }

    /// The keyword.
    pub fn key(alloc: Global, bytes: Text) -> Result<Value, OutOfMemory>
        ensures { IfOk result (λ v. view v ≡ keyword (list bytes)) }
    {
        Ok(Value::Key(Arc::new(alloc, bytes)?))
    }
}
