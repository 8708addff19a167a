// The calls of a worker: it holds parts, draws events and gives parts back.
ghost use Rattle.std.specs.Bool.{OnTrue};
ghost use Rattle.std.specs.Prelude.{◌≡◌, ℕ, ◌<◌, List, length, Some, None, IfOk, IfErr, MatchBool, slice_set, map, ◌^◌};
ghost use mathlib.Core.Option.{some};
ghost use lib.ListN.{get_elem?};
ghost use Rattle.ca_turns.specs.declared.rule.Turn.{Turn};
ghost use Rattle.ca_turns.specs.Views.{new_turn, hands_stood_for, holding, missing_part, having_missed, drawing};
ghost use Rattle.ca_turns.specs.Steps.{SeesOne};
ghost use Rattle.ca_turns.specs.Places.{AllIn};
ghost use Rattle.ca_turns.specs.Hands.{look, IsHolding, IsNone, IsWithout, IsPartSettled, SameBut, IsTableId};

use crate::errors::Busy;
use crate::hand::Hand;
use crate::object::Object;
use crate::steps::{Words, bring_to_front, draw_as, line, put_in, take_out};
use crate::table::Table;
use std::hint::spin_loop;
use std::marker::Brand;
use std::sync::Wait;
use std::sync::atomic::{AtomicU64, Ordering};

// How often a hold tries before it sleeps, and how often it looks at the part's word between two tries.
const TRIES: u32 = 20;

const LOOKS: u32 = 10;

// Waits until the part's word is seen free, for no more than a moment.
fn linger<O: Object>(words: &Words<O>, part: usize)
    requires { (part < words.now.table_id.slots) × IsTableId words.now.table_id }
{
    for _ in 0..LOOKS {
        if words.peek(line(part + 1)) == 0 {
            break;
        }
        spin_loop();
    }
}

// Sleeps while the part's word is 1, until a wake. The count is raised before, so a `give_back` that
// frees the part from then on reads it as more than 0 and wakes one.
fn wait_for<O: Object, R: Wait>(rt: &R, words: &Words<O>, waiters: &AtomicU64, part: usize)
    requires { (part < words.now.table_id.slots) × IsTableId words.now.table_id }
{
    waiters.fetch_add(1, Ordering::SeqCst);
    words.park(rt, line(part + 1), 1);
    waiters.fetch_sub(1, Ordering::SeqCst);
}

// A wake is a system call, so it is made only where someone waits.
fn wake_one<O: Object>(words: &Words<O>, waiters: &AtomicU64, part: usize)
    requires { (part < words.now.table_id.slots) × IsTableId words.now.table_id }
{
    if waiters.load(Ordering::SeqCst) > 0 {
        words.wake_one(line(part + 1));
    }
}

impl<O: Object> Table<O> {
    /// Tries once to hold a part, by one compare and exchange on its word. `Busy` where another hand
    /// held it at that moment.
    pub fn try_hold(&self, hand: &mut Hand<O>, part: u64) -> Result<(), Busy>
        requires table { hand.old.table ≡ self.now.id }
        requires range { part < self.now.id.slots }
        requires free { IsWithout hand.old part }
        ensures table { hand.new.table ≡ hand.old.table }
        ensures held { IfOk result (λ _. (x : O.Part) × (hand.new.parts ≡ slice_set hand.old.parts part (Some x)) × (hand.new.view ≡ holding hand.old.view part (Some (O.content x)))) }
        ensures settled { IfOk result (λ _. IsPartSettled O.content hand.new part) }
        ensures history { IfOk result (λ _. SeesOne O.touches O.moves hand.new.view) }
        ensures busy { IfErr result (λ _. (hand.new.parts ≡ hand.old.parts) × (hand.new.view ≡ missing_part hand.old.view part) × (hands_stood_for hand.old.view < hand.old.view.hands)) }
        ensures others { SameBut part hand.old hand.new }
    {
        let at = part as usize;
        match take_out::<O>(&self.owned.shared, &mut hand.seat, at) {
            None => Err(Busy),
            Some(x) => {
                hand.parts[at] = Some(x);
                Ok(())
            }
        }
    }

    // Tries a few times, a moment apart, to hold the part.
    fn try_a_while(&self, hand: &mut Hand<O>, part: u64) -> bool
        requires table { hand.old.table ≡ self.now.id }
        requires range { part < self.now.id.slots }
        requires free { IsWithout hand.old part }
        ensures table { hand.new.table ≡ hand.old.table }
        ensures held { MatchBool result ((x : O.Part) × (missed : List ℕ) × (hand.new.parts ≡ slice_set hand.old.parts part (Some x)) × (hand.new.view ≡ holding (having_missed hand.old.view missed) part (Some (O.content x)))) ((hand.new.parts ≡ hand.old.parts) × ((missed : List ℕ) × (hand.new.view ≡ having_missed hand.old.view missed))) }
        ensures settled { OnTrue result (IsPartSettled O.content hand.new part) }
        ensures history { OnTrue result (SeesOne O.touches O.moves hand.new.view) }
        ensures others { SameBut part hand.old hand.new }
    {
        for _ in 0..TRIES {
            match self.try_hold(hand, part) {
                Ok(()) => return true,
                Err(Busy) => linger::<O>(&self.owned.shared, part as usize),
            }
        }
        false
    }

    // Tries again until the part is held, and sleeps between two tries.
    #[inline(never)]
    fn hold_later<R: Wait>(&self, rt: &R, hand: &mut Hand<O>, part: u64)
        requires table { hand.old.table ≡ self.now.id }
        requires range { part < self.now.id.slots }
        requires free { IsWithout hand.old part }
        ensures table { hand.new.table ≡ hand.old.table }
        ensures held { (x : O.Part) × (missed : List ℕ) × (hand.new.parts ≡ slice_set hand.old.parts part (Some x)) × (hand.new.view ≡ holding (having_missed hand.old.view missed) part (Some (O.content x))) }
        ensures settled { IsPartSettled O.content hand.new part }
        ensures history { SeesOne O.touches O.moves hand.new.view }
        ensures others { SameBut part hand.old hand.new }
    {
        for _ in rt.forever() {
            wait_for::<O, R>(rt, &self.owned.shared, &self.waiters, part as usize);
            if self.try_a_while(hand, part) {
                return;
            }
        }
        unreachable!()
    }

    /// Tries again until the part is held: a few times at once, and then with a sleep between. It may
    /// wait for ever. That a hand takes its parts in ascending order is to keep hands from waiting
    /// for one another in a circle; nothing is proved of it.
    pub fn hold<R: Wait>(&self, rt: &R, hand: &mut Hand<O>, part: u64)
        requires table { hand.old.table ≡ self.now.id }
        requires range { part < self.now.id.slots }
        requires ascending { (i : ℕ) → IsHolding hand.old i → i < part }
        ensures table { hand.new.table ≡ hand.old.table }
        ensures held { (x : O.Part) × (missed : List ℕ) × (hand.new.parts ≡ slice_set hand.old.parts part (Some x)) × (hand.new.view ≡ holding (having_missed hand.old.view missed) part (Some (O.content x))) }
        ensures settled { IsPartSettled O.content hand.new part }
        ensures history { SeesOne O.touches O.moves hand.new.view }
        ensures others { SameBut part hand.old hand.new }
    {
        if !self.try_a_while(hand, part) {
            self.hold_later(rt, hand, part);
        }
    }

    /// Draws the number of an event, whose changes the hand has made to the parts that it touches.
    /// They are settled from then on.
    pub fn draw(&self, hand: &mut Hand<O>, event: &O::Event) -> u64
        requires table { hand.old.table ≡ self.now.id }
        requires touched { AllIn (IsHolding hand.old) (O.touches event.now) }
        requires allowed { (i : ℕ) → IsHolding hand.old i → IsNone (O.touches event.now) i → O.allows event.now i }
        requires moves { O.moves event.now (look hand.old.view.held (O.touches event.now)) (map O.content (look hand.old.parts (O.touches event.now))) }
        requires room { length hand.old.view.turns < 2 ^ 59 }
        ensures table { hand.new.table ≡ hand.old.table }
        ensures parts { hand.new.parts ≡ hand.old.parts }
        ensures drew { hand.new.view ≡ drawing hand.old.view (O.touches event.now) (new_turn result event.now (look hand.old.view.held (O.touches event.now)) (map O.content (look hand.old.parts (O.touches event.now)))) }
        ensures later { (k : ℕ) (t : Turn O.Content O.Event) → get_elem? hand.old.view.turns k ≡ some t → t.number < result }
        ensures settled { (m i : ℕ) → get_elem? (O.touches event.now) m ≡ some i → IsPartSettled O.content hand.new i }
        ensures others { (i : ℕ) → IsNone (O.touches event.now) i → get_elem? hand.new.view.held i ≡ get_elem? hand.old.view.held i }
    {
        let number = draw_as::<O, Brand>(&self.owned.shared, &mut hand.seat, &hand.parts, event);
        hand.drawn += 1;
        number
    }

    /// Gives back a part whose content is as last settled, and wakes one who waits for it.
    pub fn give_back(&self, hand: &mut Hand<O>, part: u64)
        requires table { hand.old.table ≡ self.now.id }
        requires settled { IsPartSettled O.content hand.old part }
        ensures table { hand.new.table ≡ hand.old.table }
        ensures parts { hand.new.parts ≡ slice_set hand.old.parts part None }
        ensures given { hand.new.view ≡ holding hand.old.view part None }
        ensures without { IsWithout hand.new part }
        ensures others { SameBut part hand.old hand.new }
    {
        let at = part as usize;
        bring_to_front::<O>(&self.owned.shared, &mut hand.seat, at);
        match hand.parts[at].take() {
            Some(x) => put_in::<O>(&self.owned.shared, &mut hand.seat, at, x),
            None => unreachable!(),
        }
        wake_one::<O>(&self.owned.shared, &self.waiters, at);
    }
}
