//! Whether two values are one and the same tree, which for maps is more than to be equal: their pairs stand
//! in one order too. What repeats a run step by step compares so.
ghost use Rattle.std.specs.Prelude.{◌≡◌, IsTrue, ◌↔◌};
ghost use Rattle.ca_value.specs.Seq.{list};
ghost use Rattle.ca_value.specs.Tree.{trees_of, pairs_of};
ghost use Rattle.ca_value.specs.View.{view, pairs_view, trees, vector_trees, map_pairs};
ghost use Rattle.ca_value.specs.Same.{same, same_items, same_pairs};

use crate::seq::Seq;
use crate::value::{Map, Pairs, Spine, Table, Value, Vector};

impl Value {
    /// Whether the two are the same tree: equal, and each map with its pairs in the same order.
    #[cycle(same)]
    pub fn same(&self, other: &Value) -> bool
        ensures tested { result ≡ same (view self.now) (view other.now) }
        ensures exact { IsTrue result ↔ (view self.now ≡ view other.now) }
    {
        match (self, other) {
            (Value::Nil, Value::Nil) => true,
            (Value::Bool(a), Value::Bool(b)) => *a == *b,
            (Value::Int(a), Value::Int(b)) => *a == *b,
            (Value::Text(a), Value::Text(b)) => a.as_slice() == b.as_slice(),
            (Value::Key(a), Value::Key(b)) => a.as_slice() == b.as_slice(),
            (Value::Vector(a), Value::Vector(b)) => a.same(b),
            (Value::Map(a), Value::Map(b)) => a.same(b),
            (Value::Port(a), Value::Port(b)) => a.n == b.n,
            _ => false,
        }
    }
}

impl Seq<Value> {
    /// Whether the items are the same trees, one by one.
    #[cycle(same)]
    pub fn same(&self, other: &Seq<Value>) -> bool
        ensures { result ≡ same_items (trees (list self.now)) (trees (list other.now)) }
    {
        if self.len() != other.len() {
            return false;
        }
        let (a, b) = (self.as_slice(), other.as_slice());
        for i in 0..a.len() {
            if !a[i].same(&b[i]) {
                return false;
            }
        }
        true
    }
}

impl Pairs {
    /// Whether the pairs are the same trees, one by one.
    #[cycle(same)]
    pub fn same(&self, other: &Pairs) -> bool
        ensures { result ≡ same_pairs (pairs_view self.now) (pairs_view other.now) }
    {
        if self.len() != other.len() {
            return false;
        }
        let (a, b) = (self.as_slice(), other.as_slice());
        for i in 0..a.len() {
            if !a[i].key.same(&b[i].key) {
                return false;
            }
            if !a[i].value.same(&b[i].value) {
                return false;
            }
        }
        true
    }
}

impl Vector {
    // Whether the items are the same trees, one by one.
    #[cycle(same)]
    fn same(&self, other: &Vector) -> bool
        ensures { result ≡ same_items (trees_of (vector_trees self.now)) (trees_of (vector_trees other.now)) }
    {
        let (one, two): (&Spine, &Spine) = (&self.spine, &other.spine);
        one.items.same(&two.items)
    }
}

impl Map {
    // Whether the pairs are the same trees, one by one.
    #[cycle(same)]
    fn same(&self, other: &Map) -> bool
        ensures { result ≡ same_pairs (pairs_of (map_pairs self.now)) (pairs_of (map_pairs other.now)) }
    {
        let (one, two): (&Table, &Table) = (&self.table, &other.table);
        one.pairs.same(&two.pairs)
    }
}
