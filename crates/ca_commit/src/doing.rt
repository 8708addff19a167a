// A branch that is done at once.
ghost use Rattle.std.specs.Prelude.{◌≡◌, ◌+◌, ◌<◌, ◌^◌, ◌%◌, ℕ, OnOk, IfOk, IfSome, IsSome, Some, option_map, true};
ghost use Rattle.ca_value.specs.View.{view};
ghost use Rattle.ca_term.specs.Event.{branch_view, done, event_view};
ghost use Rattle.ca_meaning.specs.BodyViews.{is_at_op};
ghost use Rattle.ca_meaning.specs.Wait.{brought, port_of};
ghost use Rattle.ca_bank.specs.Bank.{kept_at};
ghost use Rattle.ca_bank.specs.Kept.{is_closed_at};
ghost use Rattle.ca_commit.specs.Branching.{branch_by};
ghost use Rattle.ca_commit.specs.Contents.{whole};
ghost use Rattle.ca_commit.specs.Finding.{held_at};
ghost use Rattle.ca_commit.specs.Listing.{changed_at};
ghost use Rattle.ca_commit.specs.Plans.{IsTwice};
ghost use Rattle.ca_commit.specs.Replies.{GoesOn, HasDoneRoom, done_answer, done_change, or_nil, reply_by};
ghost use Rattle.ca_commit.specs.Showing.{channels_held, registries_held, spares_held};
ghost use Rattle.ca_commit.specs.Making.{IsMadeForDone, IsDoneRow, KeepsOthers};
ghost use Rattle.ca_commit.specs.Tasks.{agent_of};
ghost use Rattle.ca_meaning.specs.Wait.{head};

use crate::changing::do_in;
use crate::held::{Applied, Banks, Held};
use crate::in_place::first_copy;
use crate::planned::Chosen;
use crate::replying::{goes_on, reply, taken};
use crate::reserving::reserve_buffer;
use crate::task::Task;
use ca_agent::agent::Agent;
use ca_bank::bank::Bank;
use ca_buffers::buffer::Buffer;
use ca_term::event::{Branch, Event};
use ca_value::memory::OutOfMemory;
use ca_value::value::{PortId, Value};
use std::alloc::Global;

// Whether the channel is closed.
fn is_closed(banks: &Banks, port: PortId) -> bool
    ensures { result ≡ is_closed_at (whole (channels_held banks.now) port.n) }
{
    match banks.get(port.n % 16) {
        Some(held) => held.bank.is_closed(port),
        None => false,
    }
}

pub(crate) fn first_held(alloc: Global, banks: &Banks, port: PortId) -> Result<Value, OutOfMemory>
    ensures { IfOk result (λ v. view v ≡ or_nil (head (held_at (whole (channels_held banks.now) port.n)))) }
{
    match banks.get(port.n % 16) {
        Some(held) => first_copy(alloc, &held.bank, port),
        None => Ok(Value::Nil),
    }
}

// The answer of the branch.
fn answer(alloc: Global, banks: &Banks, branch: &Branch) -> Result<Value, OutOfMemory>
    ensures { IfOk result (λ v. view v ≡ done_answer (whole (channels_held banks.now) (port_of (branch_view branch.now))) (branch_view branch.now)) }
{
    match branch {
        Branch::Take(port) => first_held(alloc, banks, *port),
        Branch::Put(port, _) => Ok(Value::Bool(!is_closed(banks, *port))),
    }
}

pub(crate) fn port_in(branch: &Branch) -> PortId
    ensures { result.n ≡ port_of (branch_view branch.now) }
{
    match branch {
        Branch::Take(port) => *port,
        Branch::Put(port, _) => *port,
    }
}

// The value where the branch is a put.
fn brought_of(branch: &Branch, value: Value) -> Option<Value>
    requires { view value ≡ brought (branch_view branch.now) }
    ensures { branch_by (port_of (branch_view branch.now)) (option_map view result) ≡ branch_view branch.now }
{
    match branch {
        Branch::Take(_) => None,
        Branch::Put(_, _) => Some(value),
    }
}

// What the branch does to its channel.
fn change(banks: &mut Banks, chosen: Chosen) -> Branch
    requires twice { IsTwice chosen }
    requires room { HasDoneRoom (whole (channels_held banks.old) (port_of (branch_view chosen.operation))) (whole (spares_held banks.old) (port_of (branch_view chosen.operation))) (branch_view chosen.operation) }
    ensures operation { branch_view result ≡ branch_view chosen.operation }
    ensures channels { (i : ℕ) → channels_held banks.new i ≡ changed_at (port_of (branch_view chosen.operation)) (option_map (done_change (branch_view chosen.operation))) (channels_held banks.old) i }
    ensures registries { (i : ℕ) → registries_held banks.new i ≡ registries_held banks.old i }
{
    let Chosen {
        operation,
        value,
        ..
    } = chosen;
    let port = port_in(&operation);
    do_in(banks, port, brought_of(&operation, value));
    operation
}

/// Makes what the branch needs: its answer for the event and for the task, and room in its channel's buffer. Nothing
/// else changes.
pub fn reserve_done<A: Drop>(
    alloc: Global,
    held: &mut Held<A>,
    chosen: &Chosen,
) -> Result<(), OutOfMemory>
    ensures channels { (i : ℕ) → channels_held held.new.banks i ≡ channels_held held.old.banks i }
    ensures registries { (i : ℕ) → registries_held held.new.banks i ≡ registries_held held.old.banks i }
    ensures others { KeepsOthers held.old held.new }
    ensures made { OnOk result (IsMadeForDone held.new chosen.now) }
{
    let value = answer(alloc, &held.banks, &chosen.operation)?;
    let port = port_in(&chosen.operation);
    let answer = reply(alloc, chosen.of_alts, port, &value)?;
    reserve_buffer(&mut held.banks, port)?;
    held.spare.value = Some(value);
    held.spare.answer = Some(answer);
    Ok(())
}

/// The branch is done, and its task goes on with the answer. It takes no memory.
pub fn apply_done<A: Agent>(held: &mut Held<A>, chosen: Chosen, task: Task<A>) -> Applied<A>
    requires at { is_at_op (A.place task.agent) ≡ true }
    requires count { task.alts + 1 < 2 ^ 64 }
    requires twice { IsTwice chosen }
    requires row { IsDoneRow (whole (channels_held held.old.banks) (port_of (branch_view chosen.operation))) (branch_view chosen.operation) }
    requires made { IsMadeForDone held.old chosen }
    ensures event { event_view result.event ≡ done task.number chosen.branch (branch_view chosen.operation) (done_answer (whole (channels_held held.old.banks) (port_of (branch_view chosen.operation))) (branch_view chosen.operation)) }
    ensures channels { (i : ℕ) → channels_held held.new.banks i ≡ changed_at (port_of (branch_view chosen.operation)) (option_map (done_change (branch_view chosen.operation))) (channels_held held.old.banks) i }
    ensures registries { (i : ℕ) → registries_held held.new.banks i ≡ registries_held held.old.banks i }
    ensures others { KeepsOthers held.old held.new }
    ensures running { IfSome result.running (λ c. (c.number ≡ task.number) × GoesOn A.gives chosen.of_alts (agent_of task) (reply_by chosen.of_alts (port_of (branch_view chosen.operation)) (done_answer (whole (channels_held held.old.banks) (port_of (branch_view chosen.operation))) (branch_view chosen.operation))) (agent_of c)) }
    ensures runs { IsSome result.running }
{
    let value = taken(&mut held.spare.value);
    let answer = taken(&mut held.spare.answer);
    let number = task.number;
    let branch = chosen.branch;
    let task = goes_on(task, answer, Some(branch), chosen.of_alts);
    let operation = change(&mut held.banks, chosen);
    Applied {
        event: Event::Done {
            task: number,
            branch,
            operation,
            answer: value,
        },
        running: Some(task),
    }
}
