// The atomic steps. Each is one step on a word or a slot of the table, but for `take_out` and `put_in`, which are two.
ghost use Rattle.std.specs.Prelude.{◌≡◌, ℕ, ◌+◌, ◌^◌, ◌<◌, ◌≤◌, List, [], ◌∷◌, length, Option, Some, None, MatchBool, MatchOption, map};
ghost use mathlib.Core.Option.{some};
ghost use lib.ListN.{get_elem?};
ghost use Rattle.atomic_table.specs.Table.{rest};
ghost use Rattle.ca_turns.specs.declared.rule.Turn.{Turn};
ghost use Rattle.ca_turns.specs.Lines.{bare, line_address};
ghost use Rattle.ca_turns.specs.Places.{ReadsPlaces, without_first_pair};
ghost use Rattle.ca_turns.specs.Views.{new_turn, hands_stood_for, holding, drawing, left_view, right_view, both_views, HoldsNone};
ghost use Rattle.ca_turns.specs.Steps.{SeesOne, TookPart, Missed, IsGiven};
ghost use Rattle.ca_turns.specs.Hands.{IsTableId, IsOut, places, there, times};

use crate::object::Object;
use crate::rule::{
    AsOne, Draw, Drawing, Free, OneOff, Short, Slot, Start, Take, ToFront, Turns, View,
};
use atomic_table::{Seat, Shared};
use std::mem;
use std::ops::DerefMut;

pub type Words<O> = Shared<
    Slot<<O as Object>::Part>,
    View<<O as Object>::Content, <O as Object>::Event>,
    Start<<O as Object>::Part>,
    Turns<O>,
>;

pub type Place<O> = Seat<
    Slot<<O as Object>::Part>,
    View<<O as Object>::Content, <O as Object>::Event>,
>;

const WORDS_IN_A_LINE: usize = 8;

// Where in memory the word k of the rule stands: the event word is 0, that of the part i is i + 1.
pub(crate) fn line(k: usize) -> usize
    requires { k ≤ 257 }
    ensures { result ≡ line_address k }
{
    WORDS_IN_A_LINE * k
}

// Puts this into the slot that was taken last, in place of what was there.
fn swap_in<O: Object>(
    words: &Words<O>,
    seat: &mut Place<O>,
    part: usize,
    x: Option<O::Part>,
) -> Option<O::Part>
    requires table { seat.old.table_id ≡ words.now.table_id }
    requires out { (old : Option O.Part) × ((bare seat.old.me).1 ≡ (part, old) ∷ rest (bare seat.old.me).1) }
    ensures table { seat.new.table_id ≡ seat.old.table_id }
    ensures was { (bare seat.old.me).1 ≡ (part, result) ∷ rest (bare seat.old.me).1 }
    ensures now { bare seat.new.me ≡ (seat.old.me.0, (part, x) ∷ rest (bare seat.old.me).1) }
{
    let slot = seat.slot_mut(words, part);
    mem::replace(slot.deref_mut(), x)
}

// Take where the part's word is found free, and else miss.
fn take<O: Object>(words: &Words<O>, seat: &mut Place<O>, part: usize) -> bool
    requires table { (seat.old.table_id ≡ words.now.table_id) × IsTableId words.now.table_id }
    requires part { part < words.now.table_id.slots }
    requires free { (get_elem? seat.old.me.0.held part ≡ some None) × (0 < hands_stood_for seat.old.me.0) }
    ensures table { seat.new.table_id ≡ seat.old.table_id }
    ensures took { MatchBool result (TookPart O.content O.touches O.moves part (bare seat.old.me) (bare seat.new.me)) (Missed part (bare seat.old.me) (bare seat.new.me)) }
{
    words.compare_exchange::<Take<O>>(seat, line(part + 1), 0, 1) == 0
}

// Take and out, or miss.
pub(crate) fn take_out<O: Object>(
    words: &Words<O>,
    seat: &mut Place<O>,
    part: usize,
) -> Option<O::Part>
    requires table { (seat.old.table_id ≡ words.now.table_id) × IsTableId words.now.table_id }
    requires part { part < words.now.table_id.slots }
    requires free { (get_elem? seat.old.me.0.held part ≡ some None) × (0 < hands_stood_for seat.old.me.0) }
    ensures table { seat.new.table_id ≡ seat.old.table_id }
    ensures took { MatchOption result (Missed part (bare seat.old.me) (bare seat.new.me)) (λ x. (bare seat.new.me ≡ (holding seat.old.me.0 part (Some (O.content x)), (part, None) ∷ (bare seat.old.me).1)) × SeesOne O.touches O.moves seat.new.me.0) }
{
    if !take::<O>(words, seat, part) {
        return None;
    }
    let found = swap_in::<O>(words, seat, part, None);
    match found {
        Some(x) => Some(x),
        None => unreachable!(),
    }
}

// A load in which the slot of the part comes first of those that are out, since only the first can be given back.
pub(crate) fn bring_to_front<O: Object>(words: &Words<O>, seat: &mut Place<O>, part: usize)
    requires table { (seat.old.table_id ≡ words.now.table_id) × IsTableId words.now.table_id }
    requires part { part < words.now.table_id.slots }
    requires out { IsOut (there seat.old.me.0.held) (bare seat.old.me).1 × (0 < times part (places (bare seat.old.me).1)) × (0 < hands_stood_for seat.old.me.0) }
    ensures table { seat.new.table_id ≡ seat.old.table_id }
    ensures view { seat.new.me.0 ≡ seat.old.me.0 }
    ensures front { (bare seat.new.me).1 ≡ (part, None) ∷ without_first_pair part (bare seat.old.me).1 }
{
    words.load::<ToFront>(seat, line(part + 1));
}

fn free<O: Object>(words: &Words<O>, seat: &mut Place<O>, part: usize)
    requires table { (seat.old.table_id ≡ words.now.table_id) × IsTableId words.now.table_id }
    requires part { part < words.now.table_id.slots }
    requires held { IsGiven O.content part (bare seat.old.me) × (0 < hands_stood_for seat.old.me.0) }
    ensures table { seat.new.table_id ≡ seat.old.table_id }
    ensures freed { (seat.new.me.0 ≡ holding seat.old.me.0 part None) × ((bare seat.new.me).1 ≡ rest (bare seat.old.me).1) }
{
    words.store::<Free>(seat, line(part + 1), 0)
}

// Back and free, of the part whose slot was taken last.
pub(crate) fn put_in<O: Object>(words: &Words<O>, seat: &mut Place<O>, part: usize, x: O::Part)
    requires table { (seat.old.table_id ≡ words.now.table_id) × IsTableId words.now.table_id }
    requires part { part < words.now.table_id.slots }
    requires held { ((bare seat.old.me).1 ≡ (part, None) ∷ rest (bare seat.old.me).1) × (get_elem? seat.old.me.0.held part ≡ some (Some (O.content x))) × (0 < hands_stood_for seat.old.me.0) }
    ensures table { seat.new.table_id ≡ seat.old.table_id }
    ensures freed { bare seat.new.me ≡ (holding seat.old.me.0 part None, rest (bare seat.old.me).1) }
{
    let was = swap_in::<O>(words, seat, part, Some(x));
    match was {
        Some(_) => unreachable!(),
        None => {}
    }
    free::<O>(words, seat, part);
}

// Draw. A call at `Brand` picks the turn from the parts and the event, which are passed for that alone.
pub(crate) fn draw_as<O: Object, J: Drawing<O::Content, O::Event>>(
    words: &Words<O>,
    seat: &mut Place<O>,
    _parts: &Vec<Option<O::Part>>,
    _event: &O::Event,
) -> u64
    requires table { (seat.old.table_id ≡ words.now.table_id) × IsTableId words.now.table_id }
    requires turn { (t : Turn O.Content O.Event) × (J.turns ≡ t ∷ []) × ReadsPlaces seat.old.me.0.held (O.touches t.event) (map Some t.before) × O.moves t.event t.before t.after × (length t.after ≡ length (O.touches t.event)) }
    requires room { (length seat.old.me.0.turns < 2 ^ 59) × (0 < hands_stood_for seat.old.me.0) }
    ensures table { seat.new.table_id ≡ seat.old.table_id }
    ensures drew { (t : Turn O.Content O.Event) → J.turns ≡ t ∷ [] → (seat.new.me.0 ≡ drawing seat.old.me.0 (O.touches t.event) (new_turn result t.event t.before t.after)) × ((bare seat.new.me).1 ≡ (bare seat.old.me).1) × ((k : ℕ) (u : Turn O.Content O.Event) → get_elem? seat.old.me.0.turns k ≡ some u → u.number < result) }
{
    words.fetch_add::<Draw<O, J>>(seat, line(0), 1)
}

// Split, while the table is opened.
pub(crate) fn split_off<O: Object>(words: &Words<O>, seat: &mut Place<O>) -> Place<O>
    requires table { (seat.old.table_id ≡ words.now.table_id) × IsTableId words.now.table_id }
    requires opening { (seat.old.me.0.turns ≡ []) × (1 < hands_stood_for seat.old.me.0) }
    ensures table { (seat.new.table_id ≡ seat.old.table_id) × (result.table_id ≡ seat.old.table_id) }
    ensures views { (seat.new.me ≡ (left_view seat.old.me.0, seat.old.me.1)) × (result.me ≡ (right_view seat.old.me.0, [])) }
{
    words.split_seat::<OneOff>(seat)
}

// Join.
pub(crate) fn join_in<O: Object>(words: &Words<O>, seat: &mut Place<O>, other: Place<O>)
    requires table { (seat.old.table_id ≡ words.now.table_id) × IsTableId words.now.table_id × (other.table_id ≡ words.now.table_id) }
    requires live { (0 < hands_stood_for seat.old.me.0) × (0 < hands_stood_for other.me.0) × HoldsNone other.me.0 × (other.me.1 ≡ []) }
    ensures table { seat.new.table_id ≡ seat.old.table_id }
    ensures views { seat.new.me ≡ (both_views seat.old.me.0 other.me.0, seat.old.me.1) }
{
    words.join_seat::<AsOne>(seat, other);
}

// A load of the event word, which tells that the list is short.
pub(crate) fn tell_short<O: Object>(words: &Words<O>, seat: &mut Place<O>)
    requires table { (seat.old.table_id ≡ words.now.table_id) × IsTableId words.now.table_id }
    ensures table { seat.new.table_id ≡ seat.old.table_id }
    ensures same { bare seat.new.me ≡ bare seat.old.me }
    ensures short { length seat.new.me.0.turns ≤ 2 ^ 63 }
{
    words.load::<Short>(seat, line(0));
}
