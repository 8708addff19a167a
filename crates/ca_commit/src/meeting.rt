//! A branch that meets a wait.

ghost use Rattle.std.specs.Prelude.{◌≡◌, ◌+◌, ◌<◌, ◌^◌, ◌%◌, ℕ, None, OnOk, IfOk, IfSome, IsSome, Some, option_map, true};
ghost use Rattle.ca_value.specs.View.{view};
ghost use Rattle.ca_term.specs.Event.{branch_view, event_view, met};
ghost use Rattle.ca_term.specs.declared.event.Side.TheVariants.{Put};
ghost use Rattle.ca_meaning.specs.BodyViews.{is_at_op};
ghost use Rattle.ca_meaning.specs.ChannelSteps.{other_side};
ghost use Rattle.ca_meaning.specs.Wait.{port_of, side_of, told};
ghost use Rattle.ca_meaning.specs.Task.{reply_at};
ghost use Rattle.ca_bank.specs.Bank.{kept_at};
ghost use Rattle.ca_bank.specs.Kept.{pruned};
ghost use Rattle.ca_commit.specs.Contents.{whole};
ghost use Rattle.ca_commit.specs.Finding.{front_at};
ghost use Rattle.ca_commit.specs.Listing.{changed_at};
ghost use Rattle.ca_commit.specs.Replies.{GoesOn, reply_by};
ghost use Rattle.ca_commit.specs.Showing.{channels_held, registries_held, waits_held, waits_of};
ghost use Rattle.ca_commit.specs.Tasks.{agent_of};
ghost use Rattle.ca_commit.specs.Waking.{HasReadyRoom, IsMadeForWaiter, IsMadeForMeeting, IsPaused, KeepsNumbers, WakesBy, passing, ready_in, handler_value};

use crate::changing::prune;
use crate::doing::port_in;
use crate::held::{Applied, Banks, Held, Shards};
use crate::planned::Chosen;
use crate::replying::{goes_on, reply, taken};
use crate::task::{Ready, Task};
use crate::waiting::{take_out, wake};
use ca_agent::agent::Agent;
use ca_bank::bank::Bank;
use ca_bank::shard::{Parked, Shard};
use ca_term::event::{Branch, Event, Side, WaitId};
use ca_term::operation::Op;
use ca_value::memory::OutOfMemory;
use ca_value::value::{PortId, Value};
use std::alloc::Global;

// A copy of the value that the handler in front of the queue of puts brings, or nil.
pub(crate) fn front_value(alloc: Global, bank: &Bank, port: PortId) -> Result<Value, OutOfMemory>
    ensures { IfOk result (λ v. view v ≡ handler_value (front_at Put (kept_at bank.now port.n))) }
{
    match bank.handler(port, Side::Put, 0) {
        Some(handler) => match &handler.value {
            Some(value) => value.copy(alloc),
            None => Ok(Value::Nil),
        },
        None => Ok(Value::Nil),
    }
}

pub(crate) fn offered(alloc: Global, banks: &Banks, port: PortId) -> Result<Value, OutOfMemory>
    ensures { IfOk result (λ v. view v ≡ handler_value (front_at Put (whole (channels_held banks.now) port.n))) }
{
    match banks.get(port.n % 16) {
        Some(held) => front_value(alloc, &held.bank, port),
        None => Ok(Value::Nil),
    }
}

// A copy of the value that passes.
fn passing(alloc: Global, banks: &Banks, branch: &Branch) -> Result<Value, OutOfMemory>
    ensures { IfOk result (λ v. view v ≡ passing (whole (channels_held banks.now) (port_of (branch_view branch.now))) (branch_view branch.now)) }
{
    match branch {
        Branch::Take(port) => offered(alloc, banks, *port),
        Branch::Put(_, value) => value.copy(alloc),
    }
}

// What a side is told where the value passes.
pub(crate) fn told(alloc: Global, side: Side, value: &Value) -> Result<Value, OutOfMemory>
    ensures { IfOk result (λ v. view v ≡ told side (view value.now)) }
{
    match side {
        Side::Take => value.copy(alloc),
        Side::Put => Ok(Value::Bool(true)),
    }
}

// The answer of an agent that waits, where the value passes on the channel.
fn answer_of<A: Agent>(
    alloc: Global,
    agent: &A,
    port: PortId,
    value: &Value,
) -> Result<Value, OutOfMemory>
    requires { is_at_op (A.place agent.now) ≡ true }
    ensures { IfOk result (λ v. view v ≡ reply_at (A.place agent.now) port.n (view value.now)) }
{
    let of_alts = match &agent.want().op {
        Op::Alts { .. } => true,
        _ => false,
    };
    reply(alloc, of_alts, port, value)
}

// The answer of whoever waits there, if it is a task.
pub(crate) fn partner_in<A: Agent>(
    alloc: Global,
    shard: &Shard<Task<A>>,
    wait: WaitId,
    port: PortId,
    value: &Value,
) -> Result<Option<Value>, OutOfMemory>
    requires { IsPaused A.place (waits_of shard.now wait.n) }
    ensures { IfOk result (λ o. IsMadeForWaiter A.place (waits_of shard.now wait.n) port.n (view value.now) o) }
{
    match shard.parked(wait) {
        Some(Parked::Owner(task)) => Ok(Some(answer_of(alloc, &task.agent, port, value)?)),
        Some(Parked::Nobody) => Ok(None),
        None => Ok(None),
    }
}

// The same, in the shards that are held.
#[inline(always)]
pub(crate) fn partner<A: Agent>(
    alloc: Global,
    shards: &Shards<A>,
    wait: WaitId,
    port: PortId,
    value: &Value,
) -> Result<Option<Value>, OutOfMemory>
    requires { IsPaused A.place (whole (waits_held shards.now) wait.n) }
    ensures { IfOk result (λ o. IsMadeForWaiter A.place (whole (waits_held shards.now) wait.n) port.n (view value.now) o) }
{
    match shards.get(wait.n % 16) {
        Some(held) => partner_in(alloc, &held.shard, wait, port, value),
        None => Ok(None),
    }
}

pub(crate) fn reserve_ready<A: Drop>(ready: &mut Option<Ready<A>>) -> Result<(), OutOfMemory>
    requires { IsSome ready.old }
    ensures tasks { ready_in ready.new ≡ ready_in ready.old }
    ensures there { IsSome ready.new }
    ensures room { OnOk result (HasReadyRoom ready.new) }
{
    match ready {
        Some(ready) => ready.reserve(),
        None => Ok(()),
    }
}

pub(crate) fn side_in(branch: &Branch) -> Side
    ensures { result ≡ side_of (branch_view branch.now) }
{
    match branch {
        Branch::Take(_) => Side::Take,
        Branch::Put(_, _) => Side::Put,
    }
}

pub(crate) fn opposite(side: Side) -> Side
    ensures { result ≡ other_side side }
{
    match side {
        Side::Take => Side::Put,
        Side::Put => Side::Take,
    }
}

/// Makes what the branch needs that meets the wait: the value that passes, the answers of both tasks, and room in the
/// ready part. Nothing else changes.
pub fn reserve_meet<A: Agent>(
    alloc: Global,
    held: &mut Held<A>,
    chosen: &Chosen,
    wait: WaitId,
) -> Result<(), OutOfMemory>
    requires paused { IsPaused A.place (whole (waits_held held.old.shards) wait.n) }
    requires ready { IsSome held.old.ready }
    ensures banks { held.new.banks ≡ held.old.banks }
    ensures shards { held.new.shards ≡ held.old.shards }
    ensures ready { ready_in held.new.ready ≡ ready_in held.old.ready }
    ensures numbers { KeepsNumbers held.old held.new }
    ensures made { OnOk result (IsMadeForMeeting A.place held.new chosen.now.of_alts wait.n (branch_view chosen.now.operation)) }
{
    let value = passing(alloc, &held.banks, &chosen.operation)?;
    let port = port_in(&chosen.operation);
    let side = side_in(&chosen.operation);
    let mine = told(alloc, side, &value)?;
    let answer = reply(alloc, chosen.of_alts, port, &mine)?;
    let theirs = told(alloc, opposite(side), &value)?;
    let partner = partner(alloc, &held.shards, wait, port, &theirs)?;
    reserve_ready(&mut held.ready)?;
    held.spare.value = Some(value);
    held.spare.answer = Some(answer);
    held.spare.partner = partner;
    Ok(())
}

/// The branch meets the wait, at the handler in front of the other side: the value passes, and both go on. It takes no
/// memory.
pub fn apply_meet<A: Agent>(
    held: &mut Held<A>,
    chosen: Chosen,
    wait: WaitId,
    other: u64,
    task: Task<A>,
) -> Applied<A>
    requires at { is_at_op (A.place task.agent) ≡ true }
    requires count { task.alts + 1 < 2 ^ 64 }
    requires paused { IsPaused A.place (whole (waits_held held.old.shards) wait.n) }
    requires made { IsMadeForMeeting A.place held.old chosen.of_alts wait.n (branch_view chosen.operation) }
    ensures event { event_view result.event ≡ met task.number chosen.branch (side_of (branch_view chosen.operation)) (port_of (branch_view chosen.operation)) (passing (whole (channels_held held.old.banks) (port_of (branch_view chosen.operation))) (branch_view chosen.operation)) wait.n other }
    ensures channels { (i : ℕ) → channels_held held.new.banks i ≡ changed_at (port_of (branch_view chosen.operation)) (option_map (pruned (other_side (side_of (branch_view chosen.operation))) 0)) (channels_held held.old.banks) i }
    ensures registries { (i : ℕ) → registries_held held.new.banks i ≡ registries_held held.old.banks i }
    ensures waits { (i : ℕ) → waits_held held.new.shards i ≡ changed_at wait.n (λ o. None) (waits_held held.old.shards) i }
    ensures wakes { WakesBy A.place A.gives (whole (waits_held held.old.shards) wait.n) (port_of (branch_view chosen.operation)) (told (other_side (side_of (branch_view chosen.operation))) (passing (whole (channels_held held.old.banks) (port_of (branch_view chosen.operation))) (branch_view chosen.operation))) (ready_in held.old.ready) (ready_in held.new.ready) }
    ensures numbers { KeepsNumbers held.old held.new }
    ensures running { IfSome result.running (λ c. (c.number ≡ task.number) × GoesOn A.gives chosen.of_alts (agent_of task) (reply_by chosen.of_alts (port_of (branch_view chosen.operation)) (told (side_of (branch_view chosen.operation)) (passing (whole (channels_held held.old.banks) (port_of (branch_view chosen.operation))) (branch_view chosen.operation)))) (agent_of c)) }
    ensures runs { IsSome result.running }
{
    let value = taken(&mut held.spare.value);
    let answer = taken(&mut held.spare.answer);
    let partner = held.spare.partner.take();
    let port = port_in(&chosen.operation);
    let side = side_in(&chosen.operation);
    prune(&mut held.banks, port, opposite(side), 0);
    let parked = take_out(&mut held.shards, wait);
    wake(&mut held.ready, parked, partner, other);
    let number = task.number;
    let branch = chosen.branch;
    let task = goes_on(task, answer, Some(branch), chosen.of_alts);
    Applied {
        event: Event::Meet {
            task: number,
            branch,
            side,
            port,
            value,
            wait,
            other,
        },
        running: Some(task),
    }
}
