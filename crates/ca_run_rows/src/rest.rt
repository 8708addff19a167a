// Parts that a hand holds together for a while.
ghost use mathlib.Core.Option.{some};
ghost use lib.ListN.{get_elem?};
ghost use Rattle.std.specs.Prelude.{◌≡◌, ℕ, ◌<◌, ◌≤◌};
ghost use Rattle.ca_turns.specs.Hands.{HoldsNothing, IsHolding};

use crate::disjoint::Disjoint;
use ca_turns::{Hand, Object, Table};
use std::sync::Wait;

/// The first bank, behind the two lanes.
const BANKS: u64 = 2;

/// The part that stays free: bank 1.
const FREE: u64 = 3;

/// The part after the last shard.
const END: u64 = 34;

// Holds the parts from that one on but for the free one, waits at the gate, and gives them back.
fn hold_from<R: Wait, O: Object>(
    rt: &R,
    table: &Table<O>,
    hand: &mut Hand<O>,
    part: u64,
    gate: &Disjoint,
)
    requires table { hand.old.table ≡ table.now.id }
    requires slots { 34 ≤ table.now.id.slots }
    requires ascending { (i : ℕ) → IsHolding hand.old i → i < part }
    ensures table { hand.new.table ≡ hand.old.table }
    ensures below { (k : ℕ) → k < part → (get_elem? hand.new.parts k ≡ get_elem? hand.old.parts k) × (get_elem? hand.new.view.held k ≡ get_elem? hand.old.view.held k) }
{
    if part >= END {
        gate.stay();
    } else if part == FREE {
        hold_from(rt, table, hand, part + 1, gate);
    } else {
        table.hold(rt, hand, part);
        hold_from(rt, table, hand, part + 1, gate);
        table.give_back(hand, part);
    }
}

/// Holds the banks and shards but for the free one, waits at the gate, and gives them back.
pub fn hold_rest<R: Wait, O: Object>(rt: &R, table: &Table<O>, hand: &mut Hand<O>, gate: &Disjoint)
    requires table { hand.old.table ≡ table.now.id }
    requires slots { 34 ≤ table.now.id.slots }
    requires nothing { HoldsNothing hand.old }
{
    hold_from(rt, table, hand, BANKS, gate);
}
