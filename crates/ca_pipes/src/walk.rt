ghost use Rattle.std.specs.Prelude.{◌≡◌, IfOk};
ghost use Rattle.ca_value.specs.View.{view, trees};
ghost use Rattle.ca_meaning.specs.Operands.{first_of, rest_of};
ghost use Rattle.ca_meaning.specs.Asks.{trees_in};
ghost use Rattle.ca_pipes.specs.Walks.{walk_left, skipped, is_none};

use ca_system::operand::{copy_at, items_of};
use ca_value::memory::OutOfMemory;
use ca_value::value::Value;
use std::alloc::Global;

// A vector's items one after the other: those that are left, from a place on.
#[derive(Drop)]
pub struct Walk {
    vector: Value,
    place: u64,
}

impl Walk {
    // All the items of a vector; of another value none.
    pub(crate) fn new(vector: Value) -> Walk
        ensures { walk_left result ≡ trees_in (view vector) }
    {
        Walk { vector, place: 0 }
    }

    // Whether no item is left.
    #[tactic(auto, using(crate::proofs::WalkLaws::is_over))]
    pub(crate) fn is_over(&self) -> bool
        ensures { result ≡ is_none (walk_left self.now) }
    {
        items_of(&self.vector).len() as u64 <= self.place
    }

    // A copy of the first item that is left, or nil.
    #[tactic(auto, using(crate::proofs::WalkLaws::first_got))]
    pub(crate) fn first(&self, alloc: Global) -> Result<Value, OutOfMemory>
        ensures { IfOk result (λ v. view v ≡ first_of (walk_left self.now)) }
    {
        copy_at(alloc, items_of(&self.vector), self.place)
    }

    // What is left after the first item.
    pub(crate) fn rest(self) -> Walk
        ensures { walk_left result ≡ rest_of (walk_left self) }
    {
        let Walk { vector, place } = self;
        let place = place_after(items_of(&vector), place);
        Walk { vector, place }
    }
}

// The place of the next item, or of the end.
#[tactic(auto, using(crate::proofs::WalkLaws::rest_within, crate::proofs::WalkLaws::rest_past))]
fn place_after(items: &[Value], place: u64) -> u64
    ensures { skipped result (trees items.now) ≡ rest_of (skipped place (trees items.now)) }
{
    if place < items.len() as u64 {
        place + 1
    } else {
        place
    }
}
