// Whether what an event shows has a weight that fits 64 bits. It is so for every event of a run: a value weighs little,
// and an event shows few. But no contract below says so.
ghost use Rattle.std.specs.Prelude.{◌≡◌, ◌^◌, ◌≤◌, ◌+◌, ◌-◌, ◌/◌, suc, true, false, map, nat_lt, IfNone, IfSome, SomeIff};
ghost use Rattle.ca_value.specs.Measure.{weight_of, weight_of_items};
ghost use Rattle.ca_value.specs.Seq.{list};
ghost use Rattle.ca_value.specs.View.{trees, view};
ghost use Rattle.ca_term.specs.Cost.{cost_of, weight_done, weight_of_branches};
ghost use Rattle.ca_term.specs.Event.{branch_view, event_view};
ghost use Rattle.ca_journal.specs.Fitting.{is_light};
ghost use Rattle.ca_journal.specs.Note.{note_view};

use crate::note::Note;
use ca_term::event::{Branch, Event};
use ca_value::seq::Seq;
use ca_value::value::{Items, Value};

/// What the event costs of a run's budget, where the weight that its line shows fits.
#[inline(always)]
#[tactic(auto, using(crate::proofs::Spending::light))]
pub fn cost_that_fits(event: &Event) -> Option<u64>
    ensures fits { IfSome result (λ cost. (is_light (event_view event.now) ≡ true) × (cost ≡ cost_of (event_view event.now))) }
    ensures none { IfNone result (is_light (event_view event.now) ≡ false) }
{
    if fits(event) {
        Some(event.cost())
    } else {
        None
    }
}

// Whether the weight that the event's line shows fits.
#[inline(always)]
fn fits(event: &Event) -> bool
    ensures { result ≡ is_light (event_view event.now) }
{
    match event {
        Event::Done {
            operation,
            answer,
            ..
        } => done_fits(operation, answer),
        Event::Meet { value, .. } => value_fits(value),
        Event::Park { branches, .. } => branches_fit(branches),
        Event::Post { value, .. } => value_fits(value),
        Event::Settle { value, .. } => value_fits(value),
        Event::Default { value, .. } => value_fits(value),
        Event::Register {
            arguments,
            answer,
            ..
        } => arguments_fit(arguments, answer),
        Event::Print { line, .. } => line.len() < u64::MAX,
        Event::Make { .. } | Event::Spawn { .. } | Event::Close { .. } => true,
        Event::Tick { .. } | Event::End { .. } => true,
    }
}

fn value_fits(value: &Value) -> bool
    ensures { result ≡ nat_lt (weight_of (view value.now)) (2 ^ 64) }
{
    value.room_after(u64::MAX).is_some()
}

fn done_fits(operation: &Branch, answer: &Value) -> bool
    ensures { result ≡ nat_lt (weight_done (branch_view operation.now) (view answer.now)) (2 ^ 64) }
{
    match operation {
        Branch::Take(_) => value_fits(answer),
        Branch::Put(_, value) => value_fits(value),
    }
}

fn branches_fit(branches: &Seq<Branch>) -> bool
    ensures { result ≡ nat_lt (weight_of_branches (map branch_view (list branches.now))) (2 ^ 64) }
{
    let mut room = u64::MAX;
    for branch in branches.as_slice() {
        if let Branch::Put(_, value) = branch {
            match value.room_after(room) {
                Some(rest) => room = rest,
                None => return false,
            }
        }
    }
    true
}

// What is left of the room when the values have come.
fn room_after_items(items: &Items) -> Option<u64>
    ensures { let weight = weight_of_items (trees (list items.now)) in SomeIff result (weight ≤ 2 ^ 64 - 1) (2 ^ 64 - 1 - weight) }
{
    let mut room = u64::MAX;
    for value in items.as_slice() {
        room = value.room_after(room)?;
    }
    Some(room)
}

fn arguments_fit(arguments: &Items, answer: &Value) -> bool
    ensures { result ≡ nat_lt (weight_of_items (trees (list arguments.now)) + weight_of (view answer.now)) (2 ^ 64) }
{
    match room_after_items(arguments) {
        Some(room) => answer.room_after(room).is_some(),
        None => false,
    }
}

/// The same of the note's event.
pub(crate) fn cost_noted(note: &Note) -> Option<u64>
    ensures fits { IfSome result (λ cost. (is_light (note_view note.now) ≡ true) × (cost ≡ cost_of (note_view note.now))) }
    ensures none { IfNone result (is_light (note_view note.now) ≡ false) }
{
    match note {
        Note::Took { answer, .. } => cost_of_value(answer),
        Note::Gave { value, .. } => cost_of_value(value),
        Note::Met { value, .. } => cost_of_value(value),
        Note::PutParked { value, .. } => cost_of_value(value),
        Note::Settled { value, .. } => cost_of_value(value),
        Note::TakeParked { .. } | Note::Timed { .. } => Some(1),
        Note::Rare(event) => cost_that_fits(event),
    }
}

fn cost_of_value(value: &Value) -> Option<u64>
    ensures fits { IfSome result (λ cost. (nat_lt (weight_of (view value.now)) (2 ^ 64) ≡ true) × (cost ≡ suc (weight_of (view value.now) / 16))) }
    ensures none { IfNone result (nat_lt (weight_of (view value.now)) (2 ^ 64) ≡ false) }
{
    if value_fits(value) {
        Some(1 + value.weight() / 16)
    } else {
        None
    }
}
