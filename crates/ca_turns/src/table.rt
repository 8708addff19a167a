ghost use Rattle.std.specs.Prelude.{◌≡◌, ℕ, ◌+◌, ◌-◌, ◌<◌, ◌≤◌, List, [], IfOk, All, length, map};
ghost use Rattle.std.specs.Vec.{vec_ptr};
ghost use Rattle.ca_turns.specs.declared.rule.Turn.{Turn};
ghost use Rattle.ca_turns.specs.Views.{idle, hands_stood_for, both_views};
ghost use Rattle.ca_turns.specs.Steps.{IsWhole, Sees};
ghost use Rattle.ca_turns.specs.Hands.{HoldsNothing, IsFresh, IsTableId};

use crate::ends::{Owned, close_slots, emptied, open_slots, slots_of};
use crate::errors::OutOfMemory;
use crate::hand::{Hand, new_hand};
use crate::kept::{Kept, keep, take_back};
use crate::object::Object;
use crate::rule::Start;
use crate::steps::{Place, Words, join_in, line, split_off, tell_short};
use crossbeam_utils::CachePadded;
use std::alloc::{AllocError, Global};
use std::marker::Model;
use std::snapshot::Snapshot;
use std::sync::atomic::AtomicU64;

/// The shared table of an object's parts.
///
/// A contract sees which table it is, `id`, and where the vector lies that it was opened with, `memory`.
pub struct Table<O: Object> {
    pub(crate) owned: Owned<O>,
    // The vector that the parts came in, with nothing in it.
    rest: Kept<Vec<O::Part>>,
    // How many callers of `hold` wait for a part, or are about to.
    pub(crate) waiters: CachePadded<AtomicU64>,
}

impl<O: Object> Model for Table<O> {
    ghost use Rattle.std.specs.Vec.{vec_capacity, vec_ptr};
    ghost use Rattle.ca_turns.specs.Hands.{Opened, IsTable};

    ghost Value = { Opened };

    ghost view = { λ t. record { id = t.owned.shared.table_id; memory = vec_ptr t.rest.shared.key.value } };

    ghost invariant = { λ t. IsTable t.owned.shared.table_id t.rest.shared.table_id t.rest.shared.key.value.items (vec_capacity t.rest.shared.key.value) };
}

/// What a table gives when it closes.
#[derive(Drop)]
pub struct Closed<O: Object> {
    /// The parts as the drawn events left them, in the memory of the vector that the table was opened with.
    pub parts: Vec<O::Part>,
}

// The hands of a table, each of which stands for one of those that the seat stands for.
fn deal<O: Object>(
    alloc: Global,
    words: &Words<O>,
    mut seat: Place<O>,
    count: usize,
    hands: u64,
) -> Result<Vec<Hand<O>>, AllocError>
    requires table { (seat.table_id ≡ words.now.table_id) × IsTableId words.now.table_id × (count ≡ words.now.table_id.slots) }
    requires seat { (count ≡ length seat.me.0.opening) × (seat.me ≡ (idle seat.me.0.opening hands seat.me.0.stands_for, [])) }
    requires hands { (hands_stood_for seat.me.0 ≡ hands) × (0 < hands) }
    ensures { IfOk result (λ v. (length v.items ≡ hands) × All (IsFresh words.now.table_id seat.me.0.opening hands) v.items) }
{
    let mut all = Vec::with_capacity(alloc, hands as usize)?;
    for _ in 0..hands - 1 {
        let other = split_off::<O>(words, &mut seat);
        all.push_reserved(new_hand(alloc, other, count)?);
    }
    all.push_reserved(new_hand(alloc, seat, count)?);
    Ok(all)
}

impl<O: Object> Table<O> {
    /// A table of 1 to 256 parts, and a hand for each of 1 to 16 workers. Where there is no memory
    /// the parts are dropped.
    pub fn open(
        alloc: Global,
        mut parts: Vec<O::Part>,
        hands: u64,
    ) -> Result<(Table<O>, Vec<Hand<O>>), OutOfMemory>
        requires hands { (0 < hands) × (hands ≤ 16) }
        requires parts { (0 < length parts.items) × (length parts.items ≤ 256) }
        ensures parts { IfOk result (λ t. t.0.id.slots ≡ length parts.items) }
        ensures memory { IfOk result (λ t. t.0.memory ≡ vec_ptr parts) }
        ensures hands { IfOk result (λ t. length t.1.items ≡ hands) }
        ensures fresh { IfOk result (λ t. All (IsFresh t.0.id (map O.content parts.items) hands) t.1.items) }
    {
        let count = parts.len();
        let start = Start {
            parts: Snapshot::of(&parts),
            hands,
        };
        let slots = slots_of(alloc, &mut parts)?;
        let words = Vec::from_elem(alloc, 0u64, line(count + 1))?;
        let Ok((owned, seat)) = open_slots::<O>(alloc, words.as_slice(), slots, &start) else {
            return Err(OutOfMemory);
        };
        let all = deal::<O>(alloc, &owned.shared, seat, count, hands)?;
        let table = Table {
            owned,
            rest: keep(alloc, parts)?,
            waiters: CachePadded::new(AtomicU64::new(0)),
        };
        Ok((table, all))
    }

    /// Joins a hand that holds nothing into another, which stands for the hands of both from then on.
    pub fn join_hands(&self, into: &mut Hand<O>, from: Hand<O>)
        requires table { (into.old.table ≡ self.now.id) × (from.table ≡ self.now.id) }
        requires nothing { HoldsNothing from }
        ensures table { into.new.table ≡ into.old.table }
        ensures parts { into.new.parts ≡ into.old.parts }
        ensures view { into.new.view ≡ both_views into.old.view from.view }
    {
        let drawn = from.drawn();
        join_in::<O>(&self.owned.shared, &mut into.seat, from.into_seat());
        tell_short::<O>(&self.owned.shared, &mut into.seat);
        into.drawn += drawn;
    }

    /// Closes the table, once all its hands are joined into one that holds nothing.
    ///
    /// All drawn events, in the order of their numbers, lead from the opening parts to these. Each is
    /// there once, and each stands in the hand's list.
    pub fn close(self, hand: Hand<O>) -> Closed<O>
        requires table { hand.table ≡ self.id }
        requires all { hands_stood_for hand.view ≡ hand.view.hands }
        requires nothing { HoldsNothing hand }
        ensures history { (log : List (Turn O.Content O.Event)) × Sees O.touches O.moves hand.view log (map O.content result.parts.items) × IsWhole hand.view log }
        ensures in_place { vec_ptr result.parts ≡ self.memory }
    {
        let Table {
            owned,
            rest,
            waiters: _,
        } = self;
        Closed {
            parts: emptied(close_slots::<O>(owned, hand.into_seat()), take_back(rest)),
        }
    }
}

impl<O: Object> Drop for Table<O> {
    fn drop(self) {
        let Self {
            owned: _owned,
            rest: _rest,
            waiters: _,
        } = self;
    }
}
