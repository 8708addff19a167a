//! A new wait: a task parks on it, or a put waits without its task.

ghost use Rattle.std.specs.Prelude.{◌≡◌, ◌+◌, ◌<◌, ◌≤◌, ◌^◌, ℕ, None, OnOk, IfSome, IsSome, Some, false, is_some, length, map, option_map, true};
ghost use Rattle.ca_value.specs.Seq.{list};
ghost use Rattle.ca_value.specs.Tree.{bool};
ghost use Rattle.ca_value.specs.View.{view};
ghost use Rattle.ca_term.specs.Event.{branch_view, event_view, parked, posted};
ghost use Rattle.ca_meaning.specs.BodyViews.{is_at_op};
ghost use Rattle.ca_meaning.specs.Wait.{brought, port_of, side_of};
ghost use Rattle.ca_bank.specs.Kept.{enqueued, one_less, queue_spare};
ghost use Rattle.ca_bank.specs.Room.{handler_view};
ghost use Rattle.ca_commit.specs.Contents.{home, nobody, owner, whole};
ghost use Rattle.ca_commit.specs.InPlace.{CanCountAlts};
ghost use Rattle.ca_commit.specs.Listing.{changed_at};
ghost use Rattle.ca_commit.specs.Parking.{AreChannels, IsMadeToWait, QueuesTake, front_port, front_value, queued_from, waiting_as};
ghost use Rattle.ca_commit.specs.Plans.{AreTwice, handled};
ghost use Rattle.ca_commit.specs.Replies.{GoesOn};
ghost use Rattle.ca_commit.specs.Showing.{channels_held, registries_held, spares_held, waits_held};
ghost use Rattle.ca_commit.specs.Tasks.{agent_of};
ghost use Rattle.ca_commit.specs.Waking.{KeepsNumbers};

use crate::changing::enqueue;
use crate::doing::port_in;
use crate::held::{Applied, Banks, Held};
use crate::meeting::side_in;
use crate::planned::{Handlers, Joining};
use crate::replying::goes_on;
use crate::reserving::{reserve_queue, reserve_shard};
use crate::standing::is_alts;
use crate::task::Task;
use crate::waiting::put_in;
use ca_agent::agent::Agent;
use ca_bank::handler::Handler;
use ca_bank::shard::Parked;
use ca_term::event::{Branch, Event, Side, WaitId};
use ca_value::memory::OutOfMemory;
use ca_value::seq::Seq;
use ca_value::value::{PortId, Value};

// Room for all of the branches in each of their queues.
fn reserve_queues(banks: &mut Banks, branches: &[Branch]) -> Result<(), OutOfMemory>
    ensures channels { (i : ℕ) → channels_held banks.new i ≡ channels_held banks.old i }
    ensures registries { (i : ℕ) → registries_held banks.new i ≡ registries_held banks.old i }
    ensures room { OnOk result (QueuesTake (length branches.now) (whole (channels_held banks.old)) (whole (spares_held banks.new)) (map branch_view branches.now)) }
{
    let count = branches.len() as u64;
    for branch in branches {
        reserve_queue(banks, port_in(branch), side_in(branch), count)?;
    }
    Ok(())
}

// A branch as it stands in the queue of its channel, of a wait that has this number for it.
pub(crate) fn handler_of(wait: WaitId, number: u64, branch: Branch) -> (PortId, Side, Handler)
    ensures port { result.0.n ≡ port_of (branch_view branch) }
    ensures side { result.1 ≡ side_of (branch_view branch) }
    ensures handler { handler_view result.2 ≡ record { wait = wait.n; branch = number; value = brought (branch_view branch) } }
{
    let (port, side, value) = match branch {
        Branch::Take(port) => (port, Side::Take, None),
        Branch::Put(port, value) => (port, Side::Put, Some(value)),
    };
    let handler = Handler {
        wait,
        branch: number,
        value,
    };
    (port, side, handler)
}

// The branch of that number stands last in its queue.
#[inline(always)]
fn queue_one(banks: &mut Banks, wait: WaitId, number: u64, branch: Branch)
    requires { 0 < queue_spare (side_of (branch_view branch)) (whole (spares_held banks.old) (port_of (branch_view branch))) }
    ensures channels { (i : ℕ) → channels_held banks.new i ≡ changed_at (port_of (branch_view branch)) (option_map (enqueued (side_of (branch_view branch)) (record { wait = wait.n; branch = number; value = brought (branch_view branch) }))) (channels_held banks.old) i }
    ensures registries { (i : ℕ) → registries_held banks.new i ≡ registries_held banks.old i }
    ensures spares { (i : ℕ) → spares_held banks.new i ≡ changed_at (port_of (branch_view branch)) (option_map (one_less (side_of (branch_view branch)))) (spares_held banks.old) i }
{
    let (port, side, handler) = handler_of(wait, number, branch);
    enqueue(banks, port, side, handler);
}

// All of the list, in order.
fn queue_list(banks: &mut Banks, wait: WaitId, handlers: Seq<Branch>)
    requires channels { AreChannels (whole (channels_held banks.old)) (map branch_view (list handlers)) }
    requires room { QueuesTake (length (map branch_view (list handlers))) (whole (channels_held banks.old)) (whole (spares_held banks.old)) (map branch_view (list handlers)) }
    ensures channels { (i : ℕ) → channels_held banks.new i ≡ queued_from wait.n 0 (map branch_view (list handlers)) (channels_held banks.old) i }
    ensures registries { (i : ℕ) → registries_held banks.new i ≡ registries_held banks.old i }
{
    let mut number = 0;
    for branch in handlers.into_vec() {
        queue_one(banks, wait, number, branch);
        number += 1;
    }
}

// All of them, in order.
#[inline(always)]
fn queue_all(banks: &mut Banks, wait: WaitId, handlers: Handlers)
    requires channels { AreChannels (whole (channels_held banks.old)) (handled handlers) }
    requires room { QueuesTake (length (handled handlers)) (whole (channels_held banks.old)) (whole (spares_held banks.old)) (handled handlers) }
    ensures channels { (i : ℕ) → channels_held banks.new i ≡ queued_from wait.n 0 (handled handlers) (channels_held banks.old) i }
    ensures registries { (i : ℕ) → registries_held banks.new i ≡ registries_held banks.old i }
{
    match handlers {
        Handlers::One(branch) => queue_one(banks, wait, 0, branch),
        Handlers::Many(list) => queue_list(banks, wait, list),
    }
}

/// The task as it waits.
#[inline(always)]
pub(crate) fn waiting<A: Agent>(task: Task<A>) -> Task<A>
    requires at { is_at_op (A.place task.agent) ≡ true }
    requires count { CanCountAlts A.place task }
    ensures number { result.number ≡ task.number }
    ensures agent { agent_of result ≡ waiting_as A.place (agent_of task) }
{
    let mut task = task;
    if is_alts(&task.agent) {
        task.alts += 1;
    }
    task
}

/// Makes the room that a new wait needs: in the queues of its branches, and in its shard. Nothing else changes.
#[inline(always)]
pub fn reserve_wait<A: Drop>(held: &mut Held<A>, joining: &Joining) -> Result<(), OutOfMemory>
    requires shard { IsSome (waits_held held.old.shards (home held.old.new_wait)) }
    ensures channels { (i : ℕ) → channels_held held.new.banks i ≡ channels_held held.old.banks i }
    ensures registries { (i : ℕ) → registries_held held.new.banks i ≡ registries_held held.old.banks i }
    ensures waits { (i : ℕ) → waits_held held.new.shards i ≡ waits_held held.old.shards i }
    ensures ready { held.new.ready ≡ held.old.ready }
    ensures numbers { KeepsNumbers held.old held.new }
    ensures made { OnOk result (IsMadeToWait held.new (map branch_view (list joining.now.branches))) }
{
    reserve_queues(&mut held.banks, joining.branches.as_slice())?;
    let wait = WaitId { n: held.new_wait };
    reserve_shard(&mut held.shards, wait)
}

/// The task waits on the new wait, in its shard. It takes no memory.
pub fn apply_park<A: Agent>(held: &mut Held<A>, joining: Joining, task: Task<A>) -> Applied<A>
    requires at { is_at_op (A.place task.agent) ≡ true }
    requires count { task.alts + 1 < 2 ^ 64 }
    requires twice { AreTwice joining }
    requires channels { AreChannels (whole (channels_held held.old.banks)) (map branch_view (list joining.branches)) }
    requires made { IsMadeToWait held.old (map branch_view (list joining.branches)) }
    ensures event { event_view result.event ≡ parked task.number held.old.new_wait (map branch_view (list joining.branches)) }
    ensures channels { (i : ℕ) → channels_held held.new.banks i ≡ queued_from held.old.new_wait 0 (map branch_view (list joining.branches)) (channels_held held.old.banks) i }
    ensures registries { (i : ℕ) → registries_held held.new.banks i ≡ registries_held held.old.banks i }
    ensures waits { (i : ℕ) → waits_held held.new.shards i ≡ changed_at held.old.new_wait (λ o. Some (owner task.number (waiting_as A.place (agent_of task)))) (waits_held held.old.shards) i }
    ensures ready { held.new.ready ≡ held.old.ready }
    ensures numbers { KeepsNumbers held.old held.new }
    ensures running { result.running ≡ None }
{
    let Joining { branches, handlers } = joining;
    let wait = WaitId { n: held.new_wait };
    let number = task.number;
    queue_all(&mut held.banks, wait, handlers);
    put_in(&mut held.shards, wait, Parked::Owner(waiting(task)));
    Applied {
        event: Event::Park {
            task: number,
            wait,
            branches,
        },
        running: None,
    }
}

// The channel and the value of the put in front.
fn put_in_front(branches: Seq<Branch>) -> (PortId, Value)
    ensures port { result.0.n ≡ front_port (map branch_view (list branches)) }
    ensures value { view result.1 ≡ front_value (map branch_view (list branches)) }
{
    match branches.into_item(0) {
        Some(Branch::Put(port, value)) => (port, value),
        Some(Branch::Take(port)) => (port, Value::Nil),
        None => (PortId { n: 0 }, Value::Nil),
    }
}

/// The put waits on the new wait without its task, which gets true. It takes no memory.
pub fn apply_post<A: Agent>(held: &mut Held<A>, joining: Joining, task: Task<A>) -> Applied<A>
    requires at { is_at_op (A.place task.agent) ≡ true }
    requires count { task.alts + 1 < 2 ^ 64 }
    requires twice { AreTwice joining }
    requires channels { AreChannels (whole (channels_held held.old.banks)) (map branch_view (list joining.branches)) }
    requires made { IsMadeToWait held.old (map branch_view (list joining.branches)) }
    ensures event { event_view result.event ≡ posted task.number held.old.new_wait (front_port (map branch_view (list joining.branches))) (front_value (map branch_view (list joining.branches))) }
    ensures channels { (i : ℕ) → channels_held held.new.banks i ≡ queued_from held.old.new_wait 0 (map branch_view (list joining.branches)) (channels_held held.old.banks) i }
    ensures registries { (i : ℕ) → registries_held held.new.banks i ≡ registries_held held.old.banks i }
    ensures waits { (i : ℕ) → waits_held held.new.shards i ≡ changed_at held.old.new_wait (λ o. Some nobody) (waits_held held.old.shards) i }
    ensures ready { held.new.ready ≡ held.old.ready }
    ensures numbers { KeepsNumbers held.old held.new }
    ensures running { IfSome result.running (λ c. (c.number ≡ task.number) × GoesOn A.gives false (agent_of task) (bool true) (agent_of c)) }
    ensures runs { IsSome result.running }
{
    let Joining { branches, handlers } = joining;
    let wait = WaitId { n: held.new_wait };
    let number = task.number;
    queue_all(&mut held.banks, wait, handlers);
    put_in(&mut held.shards, wait, Parked::Nobody);
    let task = goes_on(task, Value::Bool(true), None, false);
    let (port, value) = put_in_front(branches);
    Applied {
        event: Event::Post {
            task: number,
            wait,
            port,
            value,
        },
        running: Some(task),
    }
}
