ghost use Rattle.std.specs.Prelude.{◌≡◌, ℕ, ◌+◌, ◌<◌, ◌≤◌, List, All, IfOk, length, None, ◌++◌, vec_len, vec_capacity, option_to_list};
ghost use Rattle.ca_turns.specs.Hands.{TableId, IsFresh};
ghost use Rattle.ca_turns.specs.Places.{total};
ghost use Rattle.ca_turns.specs.Views.{hands_stood_for};
ghost use Rattle.ca_turns_counters.specs.declared.counters.Event.{Event};
ghost use Rattle.ca_turns_counters.specs.Working.{IsNew, IsReadyToCount, Repeats, stand, events_drawn};

use crate::counters::Counters;
use crate::workers::Worker;
use ca_turns::{Hand, OutOfMemory, Table};
use std::alloc::{AllocError, Global};

// The worker joins another, and its numbers go behind the other's.
fn merge(table: &Table<Counters>, into: &mut Worker, from: Worker) -> Result<(), OutOfMemory>
    requires ready { IsReadyToCount table.now.id into.old × IsReadyToCount table.now.id from × (from.spare ≡ None) }
    ensures ready { IfOk result (λ _. IsReadyToCount table.now.id into.new) }
    ensures stand { IfOk result (λ _. stand into.new ≡ stand into.old + stand from) }
    ensures drew { IfOk result (λ _. events_drawn into.new ≡ events_drawn into.old + events_drawn from) }
    ensures opening { IfOk result (λ _. into.new.hand.view.opening ≡ into.old.hand.view.opening) }
    ensures opened_for { IfOk result (λ _. into.new.hand.view.hands ≡ into.old.hand.view.hands) }
    ensures repeats { IfOk result (λ _. (e : Event) → Repeats e into.old → Repeats e from → Repeats e into.new) }
    ensures spare { IfOk result (λ _. into.new.spare ≡ into.old.spare) }
{
    let Worker {
        hand,
        numbers,
        spare: _,
    } = from;
    into.numbers.extend_from_slice(numbers.as_slice())?;
    table.join_hands(&mut into.hand, hand);
    Ok(())
}

/// All workers as one, where none has a spare hand left.
pub fn gather(
    table: &Table<Counters>,
    mut all: Worker,
    mut others: Vec<Worker>,
) -> Result<Worker, OutOfMemory>
    requires ready { IsReadyToCount table.now.id all × All (λ w. IsReadyToCount table.now.id w × (w.spare ≡ None)) others.items }
    ensures ready { IfOk result (λ w. IsReadyToCount table.now.id w × (w.spare ≡ all.spare)) }
    ensures stand { IfOk result (λ w. stand w ≡ stand all + total stand others.items) }
    ensures drew { IfOk result (λ w. events_drawn w ≡ events_drawn all + total events_drawn others.items) }
    ensures opening { IfOk result (λ w. w.hand.view.opening ≡ all.hand.view.opening) }
    ensures opened_for { IfOk result (λ w. w.hand.view.hands ≡ all.hand.view.hands) }
    ensures repeats { IfOk result (λ w. (e : Event) → Repeats e all → All (Repeats e) others.items → Repeats e w) }
{
    while others.len() > 0 {
        let next = others.take_last();
        merge(table, &mut all, next)?;
    }
    Ok(all)
}

// The last of the hands, where they are paired.
fn spare_of(hands: &mut Vec<Hand<Counters>>, paired: bool) -> Option<Hand<Counters>>
    ensures { hands.old.items ≡ hands.new.items ++ option_to_list result }
{
    if paired { hands.pop() } else { None }
}

fn worker_of(
    alloc: Global,
    hand: Hand<Counters>,
    spare: Option<Hand<Counters>>,
    room: usize,
) -> Result<Worker, AllocError>
    ensures hands { IfOk result (λ w. (w.hand ≡ hand) × (w.spare ≡ spare)) }
    ensures room { IfOk result (λ w. (vec_len w.numbers ≡ 0) × (room ≤ vec_capacity w.numbers)) }
{
    Ok(Worker {
        hand,
        numbers: Vec::with_capacity(alloc, room)?,
        spare,
    })
}

/// A worker for each hand, or for each two of them where they are paired, with room for the numbers.
pub fn enlist(
    alloc: Global,
    mut hands: Vec<Hand<Counters>>,
    paired: bool,
    room: usize,
) -> Result<Vec<Worker>, OutOfMemory>
    requires some { 0 < length hands.items }
    ensures some { IfOk result (λ v. 0 < length v.items) }
    ensures stand { IfOk result (λ v. total stand v.items ≡ total (λ h. hands_stood_for h.view) hands.items) }
    ensures fresh { IfOk result (λ v. (id : TableId) (cs : List ℕ) (n : ℕ) → All (IsFresh id cs n) hands.items → All (IsNew id cs n room) v.items) }
{
    let mut workers = Vec::new(alloc);
    while hands.len() > 0 {
        let hand = hands.take_last();
        let spare = spare_of(&mut hands, paired);
        workers.push(worker_of(alloc, hand, spare, room)?)?;
    }
    Ok(workers)
}
