// A table's memory: how it is laid out when the table opens, and emptied when it closes.
ghost use Rattle.std.specs.Prelude.{◌≡◌, ℕ, ◌+◌, ◌<◌, ◌≤◌, List, [], ◌∷◌, length, map, Some, None, IfOk, IfErr, replicate};
ghost use Rattle.std.specs.Mem.Slots.{slots_items, slots_filled, slots_len, IsFull};
ghost use Rattle.std.specs.Vec.{vec_capacity, vec_ptr};
ghost use Rattle.ca_turns.specs.declared.rule.Turn.{Turn};
ghost use Rattle.crossbeam_utils.specs.Padded.{padded_value};
ghost use Rattle.ca_turns.specs.Lines.{line_address};
ghost use Rattle.ca_turns.specs.Views.{first_view, hands_stood_for, HoldsNone};
ghost use Rattle.ca_turns.specs.Steps.{IsWhole, Sees};

use crate::object::Object;
use crate::rule::{Slot, Start, Turns, View};
use crate::steps::Place;
use atomic_table::{Closed, Refused, Table};
use crossbeam_utils::CachePadded;
use std::alloc::{AllocError, Global};

pub type Owned<O> = Table<
    Slot<<O as Object>::Part>,
    View<<O as Object>::Content, <O as Object>::Event>,
    Start<<O as Object>::Part>,
    Turns<O>,
    Global,
>;

// Each part in a slot; the vector keeps its memory.
pub(crate) fn slots_of<P>(alloc: Global, parts: &mut Vec<P>) -> Result<Vec<Slot<P>>, AllocError>
    ensures { IfOk result (λ v. (map padded_value v.items ≡ map Some parts.old.items) × (parts.new.items ≡ []) × (vec_capacity parts.new ≡ vec_capacity parts.old) × (vec_ptr parts.new ≡ vec_ptr parts.old)) }
{
    let mut slots = Vec::with_capacity(alloc, parts.len())?;
    while parts.len() > 0 {
        slots.push_reserved(CachePadded::new(Some(parts.remove(0))));
    }
    Ok(slots)
}

pub(crate) fn open_slots<O: Object>(
    alloc: Global,
    words: &[u64],
    slots: Vec<Slot<O::Part>>,
    start: &Start<O::Part>,
) -> Result<(Owned<O>, Place<O>), Refused<Slot<O::Part>, Global>>
    requires parts { (map padded_value slots.items ≡ map Some start.now.parts.value.items) × (words.now ≡ replicate (line_address (length slots.items + 1)) 0) }
    requires hands { (0 < start.now.hands) × (start.now.hands ≤ 16) }
    ensures ok { IfOk result (λ t. (t.0.shared.table_id.words ≡ line_address (length slots.items + 1)) × (t.0.shared.table_id.slots ≡ length slots.items) × (t.1.table_id ≡ t.0.shared.table_id) × (t.1.me ≡ (first_view (map O.content start.now.parts.value.items) start.now.hands, []))) }
    ensures err { IfErr result (λ r. r.slots.items ≡ slots.items) }
{
    Table::new(alloc, words, slots, start)
}

pub(crate) fn close_slots<O: Object>(
    table: Owned<O>,
    seat: Place<O>,
) -> Closed<Slot<O::Part>, Global>
    requires table { (seat.table_id ≡ table.shared.table_id) × (hands_stood_for seat.me.0 ≡ seat.me.0.hands) × (0 < hands_stood_for seat.me.0) }
    requires home { HoldsNone seat.me.0 }
    ensures counts { (slots_len result.words ≡ table.shared.table_id.words) × (slots_len result.slots ≡ table.shared.table_id.slots) × IsFull result.words × IsFull result.slots }
    ensures history { (ps : List O.Part) × (log : List (Turn O.Content O.Event)) × (map padded_value (slots_items result.slots) ≡ map Some ps) × Sees O.touches O.moves seat.me.0 log (map O.content ps) × IsWhole seat.me.0 log }
{
    table.close_with(seat)
}

// All parts, in order.
pub(crate) fn emptied<P: Drop>(mut closed: Closed<Slot<P>, Global>, mut rest: Vec<P>) -> Vec<P>
    requires full { IsFull closed.slots × ((ps : List P) × (map padded_value (slots_items closed.slots) ≡ map Some ps)) }
    requires room { (rest.items ≡ []) × (slots_len closed.slots ≤ vec_capacity rest) }
    ensures parts { map Some result.items ≡ map padded_value (slots_items closed.slots) }
    ensures in_place { vec_ptr result ≡ vec_ptr rest }
{
    for i in 0..closed.slot_count() {
        match closed.take(i).into_inner() {
            Some(x) => rest.push_reserved(x),
            None => unreachable!(),
        }
    }
    closed.free();
    rest
}
