ghost use mathlib.Core.Option.{some};
ghost use lib.ListN.{get_elem?};
ghost use Rattle.std.specs.Prelude.{◌≡◌, ◌<◌, ◌≤◌, IfOk, None, Some, [], length, replicate};
ghost use Rattle.ca_turns.specs.Views.{hands_stood_for, HoldsNone};
ghost use Rattle.ca_turns.specs.Hands.{IsHolding, HoldsNothing};

use crate::lend::inside;
use crate::object::Object;
use crate::rule::{Slot, View};
use atomic_table::Seat;
use std::alloc::{AllocError, Global};
use std::marker::Model;

/// One worker's token of a table: the parts that it holds, and for the proofs all that it drew.
///
/// A contract sees a hand as its table, what it knows, and its parts (`Held` in `specs/Hands.antt`).
/// A hand that is dropped keeps its parts for good, so join it into another.
pub struct HandOf<P, C, E> {
    pub(crate) seat: Seat<Slot<P>, View<C, E>>,
    // The part i, if it is held, at i.
    pub(crate) parts: Vec<Option<P>>,
    // The length of the list of events that it drew.
    pub(crate) drawn: u64,
}

/// A hand of a table of the object `O`.
pub type Hand<O> = HandOf<<O as Object>::Part, <O as Object>::Content, <O as Object>::Event>;

impl<P, C, E> Model for HandOf<P, C, E> {
    ghost use Rattle.ca_turns.specs.Hands.{Held, IsHand};
    ghost use Rattle.ca_turns.specs.Lines.{bare};

    ghost Value = { Held P C E };

    ghost view = { λ h. record { table = h.seat.table_id; view = h.seat.me.0; parts = h.parts.items } };

    ghost invariant = { λ h. IsHand h.seat.table_id (bare h.seat.me) h.parts.items h.drawn };
}

impl<P, C, E> HandOf<P, C, E> {
    ghost use Rattle.std.specs.Borrow.{sem};
    ghost use Rattle.ca_turns.specs.Lending.{lends_part};

    /// A part that the hand holds. Its content is as last settled, until `part_mut` changes it.
    pub fn part(&self, part: u64) -> &P
        requires { IsHolding self.now part }
        ensures { get_elem? self.now.parts part ≡ some (Some result.now) }
    {
        match &self.parts[part as usize] {
            Some(x) => x,
            None => unreachable!(),
        }
    }

    /// The same to write to. What is written shows in this hand alone until a draw settles it.
    pub fn part_mut(&mut self, part: u64) -> &mut P
        requires { IsHolding self.old part }
        ensures* writes_back { sem 𝓛 (lends_part P.row C.row E.row self.entry part result) }
        ensures value { get_elem? self.old.parts part ≡ some (Some result.now) }
    {
        inside(&mut self.parts[part as usize])
    }

    /// How many events the hand drew, those of the hands that were joined into it among them.
    pub fn drawn(&self) -> u64
        ensures { result ≡ length self.now.view.turns }
    {
        self.drawn
    }
}

// So that no part of 8 bytes or more is on a line of the cache with a part of the next hand.
const SPARE: usize = 8;

#[tactic(auto, using(crate::proofs::Rows::replicate_more))]
fn nones<P>(alloc: Global, count: usize) -> Result<Vec<Option<P>>, AllocError>
    requires { count ≤ 256 }
    ensures { IfOk result (λ v. v.items ≡ replicate count None) }
{
    let mut row = Vec::with_capacity(alloc, count + SPARE)?;
    for _ in 0..count {
        row.push_reserved(None);
    }
    Ok(row)
}

// A hand that holds nothing yet.
pub(crate) fn new_hand<P: Drop, C, E>(
    alloc: Global,
    seat: Seat<Slot<P>, View<C, E>>,
    count: usize,
) -> Result<HandOf<P, C, E>, AllocError>
    requires fits { (count ≡ seat.table_id.slots) × (count ≤ 256) × (seat.me.0.held ≡ replicate count None) }
    requires none { (seat.me.1 ≡ []) × (seat.me.0.turns ≡ []) }
    requires live { 0 < hands_stood_for seat.me.0 }
    ensures { IfOk result (λ h. (h.table ≡ seat.table_id) × (h.view ≡ seat.me.0) × (h.parts ≡ replicate count None)) }
{
    let parts = nones(alloc, count)?;
    Ok(HandOf {
        seat,
        parts,
        drawn: 0,
    })
}

impl<P: Drop, C, E> Drop for HandOf<P, C, E> {
    fn drop(self) {
        let Self {
            seat: _seat,
            parts: _parts,
            drawn: _,
        } = self;
    }
}

impl<P: Drop, C, E> HandOf<P, C, E> {
    pub(crate) fn into_seat(self) -> Seat<Slot<P>, View<C, E>>
        requires { HoldsNothing self }
        ensures seat { (result.table_id ≡ self.table) × (result.me.0 ≡ self.view) }
        ensures none { (result.me.1 ≡ []) × HoldsNone result.me.0 }
        ensures live { 0 < hands_stood_for result.me.0 }
    {
        let Self {
            seat,
            parts: _parts,
            drawn: _,
        } = self;
        seat
    }
}
