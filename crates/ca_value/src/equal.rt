ghost use Rattle.std.specs.Prelude.{◌≡◌};
ghost use Rattle.ca_value.specs.Seq.{list};
ghost use Rattle.ca_value.specs.Tree.{map, trees_of, pairs_of};
ghost use Rattle.ca_value.specs.View.{view, pair_view, pairs_view, trees, vector_trees, map_pairs};
ghost use Rattle.ca_value.specs.Equality.{equals, equal_items, is_map_within, has_pair};

use crate::seq::Seq;
use crate::value::{Map, Pair, Pairs, Spine, Table, Value, Vector};

impl Value {
    /// Whether the two are equal. Maps are, whatever the order of their pairs.
    #[cycle(equal)]
    pub fn equal(&self, other: &Value) -> bool
        ensures { result ≡ equals (view self.now) (view other.now) }
    {
        match (self, other) {
            (Value::Nil, Value::Nil) => true,
            (Value::Bool(a), Value::Bool(b)) => *a == *b,
            (Value::Int(a), Value::Int(b)) => *a == *b,
            (Value::Text(a), Value::Text(b)) => a.as_slice() == b.as_slice(),
            (Value::Key(a), Value::Key(b)) => a.as_slice() == b.as_slice(),
            (Value::Vector(a), Value::Vector(b)) => a.equal(b),
            (Value::Map(a), Value::Map(b)) => a.equal(b),
            (Value::Port(a), Value::Port(b)) => a.n == b.n,
            _ => false,
        }
    }
}

impl Value {
    /// The same as `equal`, with integers and keywords compared in the caller's own code.
    #[inline(always)]
    pub(crate) fn is_equal(&self, other: &Value) -> bool
        ensures { result ≡ equals (view self.now) (view other.now) }
    {
        match (self, other) {
            (Value::Int(a), Value::Int(b)) => *a == *b,
            (Value::Key(a), Value::Key(b)) => a.as_slice() == b.as_slice(),
            _ => self.equal(other),
        }
    }
}

impl Seq<Value> {
    /// Whether the items are equal, one by one.
    #[cycle(equal)]
    pub fn equal(&self, other: &Seq<Value>) -> bool
        ensures { result ≡ equal_items (trees (list self.now)) (trees (list other.now)) }
    {
        if self.len() != other.len() {
            return false;
        }
        let (a, b) = (self.as_slice(), other.as_slice());
        for i in 0..a.len() {
            if !a[i].equal(&b[i]) {
                return false;
            }
        }
        true
    }
}

impl Pairs {
    /// Whether they are equal as maps, whatever their order.
    #[cycle(equal)]
    pub fn equal(&self, other: &Pairs) -> bool
        ensures { result ≡ equals (map (pairs_view self.now)) (map (pairs_view other.now)) }
    {
        self.len() == other.len() && self.is_within(other)
    }

    // Whether each pair is among the other ones.
    #[cycle(equal)]
    fn is_within(&self, other: &Pairs) -> bool
        ensures { result ≡ is_map_within (pairs_view self.now) (pairs_view other.now) }
    {
        for pair in self.as_slice() {
            if !pair.is_in(other) {
                return false;
            }
        }
        true
    }
}

impl Pair {
    // Whether the pair with this key is there and has this value.
    #[cycle(equal)]
    fn is_in(&self, pairs: &Pairs) -> bool
        ensures { let p = pair_view self.now in result ≡ has_pair (equals p.0) (equals p.1) (pairs_view pairs.now) }
    {
        for pair in pairs.as_slice() {
            if self.key.equal(&pair.key) {
                return self.value.equal(&pair.value);
            }
        }
        false
    }
}

impl Vector {
    // Whether the items are equal, one by one.
    #[cycle(equal)]
    fn equal(&self, other: &Vector) -> bool
        ensures { result ≡ equal_items (trees_of (vector_trees self.now)) (trees_of (vector_trees other.now)) }
    {
        let (one, two): (&Spine, &Spine) = (&self.spine, &other.spine);
        one.items.equal(&two.items)
    }
}

impl Map {
    // Whether they are equal as maps, whatever their order.
    #[cycle(equal)]
    fn equal(&self, other: &Map) -> bool
        ensures { result ≡ equals (map (pairs_of (map_pairs self.now))) (map (pairs_of (map_pairs other.now))) }
    {
        let (one, two): (&Table, &Table) = (&self.table, &other.table);
        one.pairs.equal(&two.pairs)
    }
}
