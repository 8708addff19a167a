ghost use mathlib.Core.Option.{some};
ghost use lib.ListN.{get_elem?};
ghost use Rattle.std.specs.Prelude.{◌≡◌, ℕ, ◌+◌, ◌^◌, ◌<◌, length, Some, slice_set};
ghost use Rattle.ca_turns.specs.Hands.{HoldsNothing, IsHolding};
ghost use Rattle.ca_turns_counters.specs.declared.counters.Event.TheVariants.{One, Pair};
ghost use Rattle.ca_turns_counters.specs.Adding.{counter_after, AreCountersWithin};
ghost use Rattle.ca_turns_counters.specs.Turning.{HoldsOnly, HoldsPair, Same, DrewEvent};

use crate::counters::{Counters, Event};
use ca_turns::{Hand, Table};
use std::sync::Wait;

// One more in a counter that the hand holds, not settled yet.
fn count_up(hand: &mut Hand<Counters>, part: u64)
    requires { IsHolding hand.old part }
    ensures table { hand.new.table ≡ hand.old.table }
    ensures view { hand.new.view ≡ hand.old.view }
    ensures parts { (n : ℕ) × (get_elem? hand.old.parts part ≡ some (Some n)) × (hand.new.parts ≡ slice_set hand.old.parts part (Some (counter_after n))) }
{
    let count = hand.part_mut(part);
    *count = count.wrapping_add(1);
}

/// Adds 1 to the counter that the hand holds, and gives it back. The answer is the event's number.
pub fn add_held(table: &Table<Counters>, hand: &mut Hand<Counters>, part: u64) -> u64
    requires table { hand.old.table ≡ table.now.id }
    requires held { HoldsOnly part hand.old }
    requires room { length hand.old.view.turns < 2 ^ 59 }
    ensures nothing { HoldsNothing hand.new }
    ensures same { Same hand.old hand.new }
    ensures drew { DrewEvent (One part) result hand.old hand.new }
{
    count_up(hand, part);
    let number = table.draw(hand, &Event::One(part));
    table.give_back(hand, part);
    number
}

/// Adds 1 to a counter, once it is free.
pub fn add_one<R: Wait>(
    rt: &R,
    table: &Table<Counters>,
    hand: &mut Hand<Counters>,
    part: u64,
) -> u64
    requires table { hand.old.table ≡ table.now.id }
    requires range { part < table.now.id.slots }
    requires nothing { HoldsNothing hand.old }
    requires room { length hand.old.view.turns < 2 ^ 59 }
    ensures nothing { HoldsNothing hand.new }
    ensures same { Same hand.old hand.new }
    ensures drew { DrewEvent (One part) result hand.old hand.new }
{
    table.hold(rt, hand, part);
    add_held(table, hand, part)
}

/// Adds 1 to two counters that the hand holds, and gives them back.
fn add_held_pair(table: &Table<Counters>, hand: &mut Hand<Counters>, low: u64) -> u64
    requires table { hand.old.table ≡ table.now.id }
    requires range { low < 255 }
    requires held { HoldsPair low hand.old }
    requires room { length hand.old.view.turns < 2 ^ 59 }
    ensures nothing { HoldsNothing hand.new }
    ensures same { Same hand.old hand.new }
    ensures drew { DrewEvent (Pair low) result hand.old hand.new }
{
    count_up(hand, low);
    count_up(hand, low + 1);
    let number = table.draw(hand, &Event::Pair(low));
    table.give_back(hand, low);
    table.give_back(hand, low + 1);
    number
}

/// Adds 1 to a counter and to the next, once both are free.
pub fn add_pair<R: Wait>(
    rt: &R,
    table: &Table<Counters>,
    hand: &mut Hand<Counters>,
    low: u64,
) -> u64
    requires table { hand.old.table ≡ table.now.id }
    requires range { (low + 1 < table.now.id.slots) × (low < 255) }
    requires nothing { HoldsNothing hand.old }
    requires room { length hand.old.view.turns < 2 ^ 59 }
    ensures nothing { HoldsNothing hand.new }
    ensures same { Same hand.old hand.new }
    ensures drew { DrewEvent (Pair low) result hand.old hand.new }
{
    table.hold(rt, hand, low);
    table.hold(rt, hand, low + 1);
    add_held_pair(table, hand, low)
}

/// Adds as the event says, once its counters are free.
pub fn add<R: Wait>(
    rt: &R,
    table: &Table<Counters>,
    hand: &mut Hand<Counters>,
    event: &Event,
) -> u64
    requires table { hand.old.table ≡ table.now.id }
    requires range { AreCountersWithin table.now.id.slots event.now }
    requires nothing { HoldsNothing hand.old }
    requires room { length hand.old.view.turns < 2 ^ 59 }
    ensures nothing { HoldsNothing hand.new }
    ensures same { Same hand.old hand.new }
    ensures drew { DrewEvent event.now result hand.old hand.new }
{
    match event {
        Event::One(part) => add_one(rt, table, hand, *part),
        Event::Pair(low) => add_pair(rt, table, hand, *low),
    }
}
