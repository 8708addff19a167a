// What comes in no run, and no contract says so: so many events that their numbers pass 2^59, a new port that its bank
// has, a name that an operation brings twice. There a worker waits for good.
ghost use Rattle.std.specs.Prelude.{◌≡◌, ◌+◌, ◌*◌, ◌^◌, ◌<◌, IfSome, IsFalse, IsTrue, None, length};
ghost use Rattle.ca_value.specs.Seq.{list};
ghost use Rattle.ca_value.specs.View.{trees};
ghost use Rattle.ca_term.specs.Operation.{op_view};
ghost use Rattle.ca_meaning.specs.State.{State};
ghost use Rattle.ca_bank.specs.Bank.{kept_at, registry_at};
ghost use Rattle.ca_registry.specs.Mixes.{TogglesApart};
ghost use Rattle.ca_registry.specs.Publications.{PlacesItself};
ghost use Rattle.ca_commit.specs.Contents.{whole};
ghost use Rattle.ca_commit.specs.Registering.{AreApart};
ghost use Rattle.ca_commit.specs.Showing.{channels_held, registries_held};
ghost use Rattle.ca_table.specs.Committing.{CanCount};
ghost use Rattle.ca_table.specs.Parts.{counts_view};
ghost use Rattle.ca_pool.specs.AtEvent.{HasNumbers};
ghost use Rattle.ca_pool.specs.Desk.{IsBare};

use crate::named::rest;
use ca_agent::agent::Agent;
use ca_bank::bank::Bank;
use ca_commit::held::{Banks, Held};
use ca_commit::task::Task;
use ca_registry::apart::{places_itself, toggles_apart};
use ca_table::noting::can_draw;
use ca_table::part::Counts;
use ca_table::waiting::wait_for_good;
use ca_table::worker::Worker;
use ca_term::head::RegisterName;
use ca_term::operation::Op;
use ca_timers::clock::Clock;
use ca_value::value::{PortId, Value};
use std::sync::Wait;

const MOST: u64 = 576_460_752_303_423_488;

/// The worker may draw one event more.
pub(crate) fn check_turns<R: Wait, A: Agent, C: Clock + Drop>(rt: &R, worker: &Worker<A, C>)
    ensures { length worker.now.hand.view.turns < 2 ^ 59 }
{
    if !can_draw(worker) {
        wait_for_good(rt);
        unreachable!()
    }
}

/// One number of each kind more, and one event more since the task was picked, can be counted.
pub(crate) fn check_counts<R: Wait>(rt: &R, counts: Counts, since: u64)
    ensures counts { CanCount (counts_view counts) }
    ensures since { since + 1 < 2 ^ 64 }
{
    if counts.tasks >= MOST || counts.ports >= MOST || counts.waits >= MOST || since >= MOST {
        wait_for_good(rt);
        unreachable!()
    }
}

/// One alts more of the task can be counted.
pub(crate) fn check_alts<R: Wait, A: Agent>(rt: &R, task: &Task<A>)
    ensures { task.now.alts + 1 < 2 ^ 64 }
{
    if task.alts >= MOST {
        wait_for_good(rt);
        unreachable!()
    }
}

fn has_port(bank: &Bank, port: PortId) -> bool
    ensures channel { IsFalse result → kept_at bank.now port.n ≡ None }
    ensures registry { IsFalse result → registry_at bank.now port.n ≡ None }
{
    match bank.kind(port) {
        Some(_) => true,
        None => false,
    }
}

// Whether no bank that is held has the port.
fn is_new(banks: &Banks, port: PortId) -> bool
    ensures channel { IsTrue result → whole (channels_held banks.now) port.n ≡ None }
    ensures registry { IsTrue result → whole (registries_held banks.now) port.n ≡ None }
{
    match banks.get(port.n % 16) {
        Some(bank) => !has_port(bank.bank(), port),
        None => true,
    }
}

/// The number of the next port is new.
pub(crate) fn check_new<R: Wait, A: Agent>(rt: &R, held: &Held<A>)
    ensures channel { whole (channels_held held.now.banks) held.now.new_port ≡ None }
    ensures registry { whole (registries_held held.now.banks) held.now.new_port ≡ None }
{
    let port = PortId { n: held.new_port };
    if !is_new(&held.banks, port) {
        wait_for_good(rt);
        unreachable!()
    }
}

fn are_apart(name: RegisterName, args: &[Value]) -> bool
    ensures toggles { IsTrue result → TogglesApart name (trees args.now) }
    ensures places { IsTrue result → PlacesItself name (trees args.now) }
{
    toggles_apart(name, args) && places_itself(name, args)
}

/// The names that the operation brings are apart.
pub(crate) fn check_apart<R: Wait>(rt: &R, op: &Op)
    ensures { (s : State) → AreApart s (op_view op.now) }
{
    if let Op::Register(name, args) = op {
        if !are_apart(*name, rest(args.as_slice())) {
            wait_for_good(rt);
            unreachable!()
        }
    }
}

// The number that a worker gives after so many.
fn number_after(number: u64, workers: u64, count: u64) -> Option<u64>
    ensures { IfSome result (λ k. k ≡ 1 + number + workers * count) }
{
    workers
        .checked_mul(count)?
        .checked_add(number)?
        .checked_add(1)
}

fn next_number<R: Wait>(rt: &R, number: u64, workers: u64, count: u64) -> u64
    ensures { result ≡ 1 + number + workers * count }
{
    match number_after(number, workers, count) {
        Some(next) => next,
        None => {
            wait_for_good(rt);
            unreachable!()
        }
    }
}

/// Sets the numbers that the next event of the worker may give.
pub(crate) fn set_numbers<R: Wait, A: Agent, C: Clock + Drop>(
    rt: &R,
    worker: &Worker<A, C>,
    counts: Counts,
    held: &mut Held<A>,
)
    ensures numbers { HasNumbers worker.now.number worker.now.workers (counts_view counts) held.new }
    ensures bare { IsBare held.old → IsBare held.new }
{
    held.new_task = next_number(rt, worker.number, worker.workers, counts.tasks);
    held.new_port = next_number(rt, worker.number, worker.workers, counts.ports);
    held.new_wait = next_number(rt, worker.number, worker.workers, counts.waits);
}
