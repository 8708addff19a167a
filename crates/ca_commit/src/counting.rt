// Whether a queue has a place for one more wait: a long one is counted by its waits.
ghost use Rattle.std.specs.Prelude.{◌≡◌, ◌<◌, ◌≤◌, Some, length, slice_get, ◌+◌, ◌^◌, ◌%◌, cond, nat_lt};
ghost use Rattle.ca_meaning.specs.Refusal.{crowd_of};
ghost use Rattle.ca_bank.specs.Bank.{kept_at};
ghost use Rattle.ca_bank.specs.Kept.{queue_at};
ghost use Rattle.ca_commit.specs.Contents.{whole};
ghost use Rattle.ca_commit.specs.Holds.{groups, changes_at};
ghost use Rattle.ca_commit.specs.Finding.{glance};
ghost use Rattle.ca_commit.specs.Showing.{channels_held, waits_held, seen};
ghost use Rattle.ca_commit.specs.Planning.{Planned, handler_asked, all_asked, queue_counted, handler_wait};
ghost use Rattle.ca_commit.specs.Branching.{plan_or, HaveCopies};

use crate::finding::{Glance, glance_of};
use crate::held::{Banks, Shards};
use crate::planned::Plan;
use ca_bank::bank::Bank;
use ca_term::event::{Side, WaitId};
use ca_term::fault::Fault;
use ca_value::value::PortId;

// How many waits may stand on one side of a channel.
pub(crate) const MOST_WAITS: u64 = 1024;

// The wait of the handler at that place of the queue.
fn wait_at(bank: &Bank, port: PortId, side: Side, place: u64) -> WaitId
    requires { place < length (queue_at side (kept_at bank.now port.n)) }
    ensures { handler_wait (slice_get (queue_at side (kept_at bank.now port.n)) place) ≡ Some result.n }
{
    match bank.handler(port, side, place) {
        Some(handler) => handler.wait,
        None => unreachable!(),
    }
}

// What a handler at a place of a queue decides, where its wait doesn't live.
fn ask<A: Drop>(
    shards: &Shards<A>,
    port: PortId,
    side: Side,
    place: u64,
    wait: WaitId,
) -> Option<Plan>
    ensures plan { (rest : Planned) → plan_or result rest ≡ handler_asked (glance (waits_held shards.now) wait.n) port.n side place wait.n rest }
    ensures copies { HaveCopies result }
{
    match glance_of(shards, wait) {
        Glance::Here => None,
        Glance::Gone => Some(Plan::Prune(port, side, place)),
        Glance::Unseen => Some(Plan::Look(wait)),
    }
}

// The first handler of the queue that is stale, or whose shard isn't held.
#[tactic(auto, using(crate::proofs::QueueLaws::asked_step))]
fn ask_all<A: Drop>(
    banks: &Banks,
    shards: &Shards<A>,
    bank: &Bank,
    port: PortId,
    side: Side,
) -> Option<Plan>
    ensures plan { (rest : Planned) → plan_or result rest ≡ all_asked (seen banks.now shards.now) port.n side 0 (queue_at side (kept_at bank.now port.n)) rest }
    ensures copies { HaveCopies result }
{
    for place in 0..bank.waiting(port, side) {
        let wait = wait_at(bank, port, side, place);
        if let Some(plan) = ask(shards, port, side, place, wait) {
            return Some(plan);
        }
    }
    None
}

// Whether the wait of this handler is that of the next one too.
fn goes_on(bank: &Bank, port: PortId, side: Side, place: u64, wait: u64) -> bool
    requires { place + 1 < 2 ^ 64 }
    ensures { changes_at wait (slice_get (queue_at side (kept_at bank.now port.n)) (place + 1)) ≡ cond result 0 1 }
{
    match bank.handler(port, side, place + 1) {
        Some(next) => next.wait.n == wait,
        None => false,
    }
}

// How many waits stand in the queue, where none is stale.
#[tactic(auto, using(crate::proofs::QueueLaws::groups_step))]
fn count_waits(bank: &Bank, port: PortId, side: Side) -> u64
    ensures { result ≡ groups (queue_at side (kept_at bank.now port.n)) }
{
    let mut waits = 0;
    for place in 0..bank.waiting(port, side) {
        let wait = wait_at(bank, port, side, place);
        if !goes_on(bank, port, side, place, wait.n) {
            waits += 1;
        }
    }
    waits
}

fn crowd(side: Side) -> Fault
    ensures { result ≡ crowd_of side }
{
    match side {
        Side::Take => Fault::TooManyTakes,
        Side::Put => Fault::TooManyPuts,
    }
}

#[inline(always)]
fn count_in<A: Drop>(
    banks: &Banks,
    shards: &Shards<A>,
    bank: &Bank,
    port: PortId,
    side: Side,
) -> Option<Plan>
    ensures plan { (rest : Planned) → plan_or result rest ≡ queue_counted (seen banks.now shards.now) side port.n (queue_at side (kept_at bank.now port.n)) rest }
    ensures copies { HaveCopies result }
{
    if bank.waiting(port, side) < MOST_WAITS {
        return None;
    }
    match ask_all(banks, shards, bank, port, side) {
        Some(plan) => Some(plan),
        None => {
            if count_waits(bank, port, side) < MOST_WAITS {
                None
            } else {
                Some(Plan::Refused(crowd(side)))
            }
        }
    }
}

/// What keeps a new wait from joining the queue, if anything does.
#[inline(always)]
pub(crate) fn count<A: Drop>(
    banks: &Banks,
    shards: &Shards<A>,
    port: PortId,
    side: Side,
) -> Option<Plan>
    ensures plan { (rest : Planned) → plan_or result rest ≡ queue_counted (seen banks.now shards.now) side port.n (queue_at side (whole (channels_held banks.now) port.n)) rest }
    ensures copies { HaveCopies result }
{
    match banks.get(port.n % 16) {
        Some(held) => count_in(banks, shards, &held.bank, port, side),
        None => None,
    }
}
