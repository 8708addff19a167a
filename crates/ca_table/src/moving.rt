// Parts that move out of a hand and back, and events that are drawn with them.
ghost use mathlib.Core.Option.{some};
ghost use lib.ListN.{get_elem?};
ghost use Rattle.std.specs.Prelude.{◌≡◌, ℕ, ◌^◌, ◌<◌, ◌++◌, List, [], ◌∷◌, Some, None, Option, map, slice_set, eqb, length, true, false};
ghost use Rattle.std.specs.Map.{update};
ghost use Rattle.ca_turns.specs.declared.rule.Turn.{Turn};
ghost use Rattle.ca_turns.specs.Hands.{IsHolding, IsNone, IsWithout};
ghost use Rattle.ca_turns.specs.Steps.{SeesOne};
ghost use Rattle.ca_turns.specs.Views.{hands_stood_for, new_turn};
ghost use Rattle.ca_table.specs.Grips.{Grips, HasAll, SameHand, SameTurns, settle, settled_contents, values};
ghost use Rattle.ca_table.specs.LoneHands.{HoldsLeft};

use ca_turns::{Busy, Hand, Object, Table};
use std::mem;
use std::sync::Wait;

/// The part moves out of the hand, and another stands in its place.
#[inline(always)]
pub(crate) fn swap_part<O: Object>(hand: &mut Hand<O>, at: u64, other: O::Part) -> O::Part
    requires { IsHolding hand.old at }
    ensures table { hand.new.table ≡ hand.old.table }
    ensures view { hand.new.view ≡ hand.old.view }
    ensures out { get_elem? hand.old.parts at ≡ some (Some result) }
    ensures parts { hand.new.parts ≡ slice_set hand.old.parts at (Some other) }
{
    mem::replace(hand.part_mut(at), other)
}

/// Holds the part once it is free.
pub(crate) fn hold<R: Wait, O: Object>(rt: &R, table: &Table<O>, hand: &mut Hand<O>, at: u64)
    requires table { hand.old.table ≡ table.now.id }
    requires range { at < table.now.id.slots }
    requires ascending { (i : ℕ) → IsHolding hand.old i → i < at }
    ensures same { SameTurns hand.old hand.new }
    ensures held { (x : O.Part) × (get_elem? hand.new.parts at ≡ some (Some x)) × (get_elem? hand.new.view.held at ≡ some (Some (O.content x))) × ((g : ℕ → Option (O.Part × O.Content)) → Grips hand.old g → Grips hand.new (update eqb g at (Some (x, O.content x)))) }
    ensures history { SeesOne O.touches O.moves hand.new.view }
    ensures long { length hand.new.view.held ≡ length hand.old.view.held }
{
    table.hold(rt, hand, at);
}

/// Tries once to hold the part: false where another hand held it at that moment.
pub(crate) fn try_hold<O: Object>(table: &Table<O>, hand: &mut Hand<O>, at: u64) -> bool
    requires table { hand.old.table ≡ table.now.id }
    requires range { at < table.now.id.slots }
    requires free { IsWithout hand.old at }
    ensures same { SameTurns hand.old hand.new }
    ensures held { result ≡ true → (x : O.Part) × (get_elem? hand.new.parts at ≡ some (Some x)) × (get_elem? hand.new.view.held at ≡ some (Some (O.content x))) × ((g : ℕ → Option (O.Part × O.Content)) → Grips hand.old g → Grips hand.new (update eqb g at (Some (x, O.content x)))) }
    ensures kept { result ≡ false → (g : ℕ → Option (O.Part × O.Content)) → Grips hand.old g → Grips hand.new g }
    ensures history { result ≡ true → SeesOne O.touches O.moves hand.new.view }
    ensures long { result ≡ true → length hand.new.view.held ≡ length hand.old.view.held }
    ensures left { result ≡ false → HoldsLeft O.touches hand.old.view → HoldsLeft O.touches hand.new.view }
    ensures lone { result ≡ false → hands_stood_for hand.old.view < hand.old.view.hands }
{
    match table.try_hold(hand, at) {
        Ok(()) => true,
        Err(Busy) => false,
    }
}

/// The part moves out, and another stands in its place.
pub(crate) fn take_part<O: Object>(hand: &mut Hand<O>, at: u64, other: O::Part) -> O::Part
    requires { IsHolding hand.old at }
    ensures same { SameTurns hand.old hand.new }
    ensures view { hand.new.view ≡ hand.old.view }
    ensures out { get_elem? hand.old.parts at ≡ some (Some result) }
    ensures grips { (g : ℕ → Option (O.Part × O.Content)) (x : O.Part) (c : O.Content) → g at ≡ Some (x, c) → Grips hand.old g → Grips hand.new (update eqb g at (Some (other, c))) }
{
    swap_part::<O>(hand, at, other)
}

/// Draws the event, whose parts the hand holds as the event leaves them.
pub(crate) fn draw<O: Object>(table: &Table<O>, hand: &mut Hand<O>, event: &O::Event) -> u64
    requires table { hand.old.table ≡ table.now.id }
    requires allows { (i : ℕ) → IsHolding hand.old i → IsNone (O.touches event.now) i → O.allows event.now i }
    requires moved { (g : ℕ → Option (O.Part × O.Content)) × Grips hand.old g × HasAll g (O.touches event.now) × O.moves event.now (settled_contents g (O.touches event.now)) (map O.content (values g (O.touches event.now))) }
    requires room { length hand.old.view.turns < 2 ^ 59 }
    ensures same { SameHand hand.old hand.new }
    ensures grips { (g : ℕ → Option (O.Part × O.Content)) → Grips hand.old g → Grips hand.new (settle O.content (O.touches event.now) g) }
    ensures drew { (before after : List O.Content) × (hand.new.view.turns ≡ hand.old.view.turns ++ new_turn result event.now before after ∷ []) }
    ensures later { (k : ℕ) (t : Turn O.Content O.Event) → get_elem? hand.old.view.turns k ≡ some t → t.number < result }
    ensures left { HoldsLeft O.touches hand.old.view → HoldsLeft O.touches hand.new.view }
{
    table.draw(hand, event)
}

/// Gives back a part that is settled.
pub(crate) fn give<O: Object>(table: &Table<O>, hand: &mut Hand<O>, at: u64)
    requires table { hand.old.table ≡ table.now.id }
    requires settled { (g : ℕ → Option (O.Part × O.Content)) × (x : O.Part) × Grips hand.old g × (g at ≡ Some (x, O.content x)) }
    ensures same { SameTurns hand.old hand.new }
    ensures grips { (g : ℕ → Option (O.Part × O.Content)) → Grips hand.old g → Grips hand.new (update eqb g at None) }
    ensures left { HoldsLeft O.touches hand.old.view → HoldsLeft O.touches hand.new.view }
{
    table.give_back(hand, at);
}
