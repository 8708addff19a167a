// Whether anything can go on in a run: a worker that holds all parts looks at each.
ghost use Rattle.std.specs.Prelude.{◌≡◌, ◌+◌, ◌<◌, ◌&&◌, ◌||◌, ℕ, IfNone, nat_lt, length, true};
ghost use mathlib.Core.Option.{some};
ghost use lib.ListN.{get_elem?};
ghost use Rattle.std.specs.Prelude.{Some};
ghost use Rattle.ca_term.specs.declared.event.Side.TheVariants.{Put, Take};
ghost use Rattle.ca_bank.specs.Bank.{kept_at};
ghost use Rattle.ca_bank.specs.Kept.{is_closed_at, queue_at, takes_one_more};
ghost use Rattle.ca_commit.specs.Finding.{holds_one, is_fixed_at};
ghost use Rattle.ca_turns.specs.Hands.{IsHolding};
ghost use Rattle.ca_table.specs.Parts.{contents_seen};
ghost use Rattle.ca_table.specs.Seen.{held_of};
ghost use Rattle.ca_table.specs.declared.part.Part.{Part};
ghost use Rattle.ca_pool.specs.Surveys.{AllRest, HasNoDeadline, IsStill, IsStillAt, rests_anyway};
ghost use Rattle.ca_pool.specs.declared.survey.Look.TheVariants.{Still};

use ca_agent::agent::Agent;
use ca_bank::bank::Bank;
use ca_buffers::any::AnyBuffer;
use ca_buffers::buffer::Buffer;
use ca_table::part::{Contents, Part};
use ca_table::worker::Worker;
use ca_term::event::Side;
use ca_timers::clock::Clock;
use ca_value::value::PortId;

/// What a part tells, or all of them together.
#[derive(Clone, Copy)]
pub(crate) enum Look {
    /// There is nothing to do.
    Still,
    /// A task can run.
    Runs,
    /// This channel may settle, or has a stale handler that stands in the way.
    Stirs(PortId),
}

fn is_fixed(bank: &Bank, port: PortId) -> bool
    ensures { result ≡ is_fixed_at (kept_at bank.now port.n) }
{
    match bank.buffer(port) {
        Some(AnyBuffer::Fixed(_)) => true,
        _ => false,
    }
}

fn holds_one(bank: &Bank, port: PortId) -> bool
    ensures { result ≡ holds_one (kept_at bank.now port.n) }
{
    match bank.buffer(port) {
        Some(buffer) => buffer.first().is_some(),
        None => false,
    }
}

// Whether a put may move in, be its handler stale or not.
fn moves_in(bank: &Bank, port: PortId) -> bool
    ensures { result ≡ (is_fixed_at (kept_at bank.now port.n) && takes_one_more (kept_at bank.now port.n)) && nat_lt 0 (length (queue_at Put (kept_at bank.now port.n))) }
{
    is_fixed(bank, port) && bank.has_room(port) && bank.waiting(port, Side::Put) > 0
}

// Whether a taker may be served.
fn serves_one(bank: &Bank, port: PortId) -> bool
    ensures { result ≡ (holds_one (kept_at bank.now port.n) || is_closed_at (kept_at bank.now port.n)) && nat_lt 0 (length (queue_at Take (kept_at bank.now port.n))) }
{
    (holds_one(bank, port) || bank.is_closed(port)) && bank.waiting(port, Side::Take) > 0
}

// Whether the channel rests, whichever of its handlers are stale.
fn rests(bank: &Bank, port: PortId) -> bool
    ensures { result ≡ rests_anyway (kept_at bank.now port.n) }
{
    !moves_in(bank, port) && !serves_one(bank, port)
}

// A channel that may not rest; None where all of them rest.
fn stirred(bank: &Bank) -> Option<PortId>
    ensures { IfNone result (AllRest (kept_at bank.now)) }
{
    for place in 0..usize::MAX {
        match bank.channel_at(place) {
            None => return None,
            Some(port) => {
                if !rests(bank, port) {
                    return Some(port);
                }
            }
        }
    }
    // No bank has as many channels.
    Some(PortId { n: 0 })
}

fn look_at<A: Agent, C: Clock + Drop>(part: &Part<A, C>) -> Look
    ensures { result ≡ Still → IsStill (held_of (contents_seen C.least C.faults C.readings part.now.contents)) }
{
    match &part.contents {
        Contents::Lane(lane) => {
            if lane.task.is_none() {
                Look::Still
            } else {
                Look::Runs
            }
        }
        Contents::Ready(ready) => {
            if ready.is_empty() {
                Look::Still
            } else {
                Look::Runs
            }
        }
        Contents::Bank(bank) => match stirred(bank.bank()) {
            None => Look::Still,
            Some(port) => Look::Stirs(port),
        },
        Contents::Shard(_) | Contents::Timers(_) | Contents::Away => Look::Still,
    }
}

/// What so many parts tell together, all of which the worker holds.
pub(crate) fn look_over<A: Agent, C: Clock + Drop>(worker: &Worker<A, C>, count: u64) -> Look
    requires { (i : ℕ) → i < count → IsHolding worker.now.hand i }
    ensures { result ≡ Still → (i : ℕ) → i < count → IsStillAt C.least C.faults C.readings worker.now.hand i }
{
    for at in 0..count {
        match look_at(worker.hand.part(at)) {
            Look::Still => {}
            Look::Runs => return Look::Runs,
            Look::Stirs(port) => return Look::Stirs(port),
        }
    }
    Look::Still
}

/// The first deadline, by the timers, which the worker holds; None where none is open.
pub(crate) fn first_open<A: Agent, C: Clock + Drop>(worker: &Worker<A, C>, at: u64) -> Option<u64>
    requires { IsHolding worker.now.hand at }
    ensures { IfNone result ((x : Part A C) → get_elem? worker.now.hand.parts at ≡ some (Some x) → HasNoDeadline (held_of (contents_seen C.least C.faults C.readings x.contents))) }
{
    match &worker.hand.part(at).contents {
        Contents::Timers(clockwork) => clockwork.timers.first(),
        // It is the timers' part.
        _ => Some(0),
    }
}
