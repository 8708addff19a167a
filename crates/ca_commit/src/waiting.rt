// What events do to held shards and the ready part. None of it takes memory.
ghost use Rattle.std.specs.Prelude.{◌≡◌, ◌<◌, ◌%◌, ◌++◌, [], ◌∷◌, ℕ, None, Some, option_map, IsSome, true};
ghost use Rattle.ca_bank.specs.Shard.{belongs, shard_count, shard_number, shard_spare};
ghost use Rattle.ca_commit.specs.Contents.{whole};
ghost use Rattle.ca_commit.specs.Listing.{changed_at};
ghost use Rattle.ca_commit.specs.InPlace.{Sets};
ghost use Rattle.ca_commit.specs.Showing.{parked_view, waits_held, waits_of};
ghost use Rattle.ca_commit.specs.Tasks.{ready_spare, task_view, tasks_in};
ghost use Rattle.ca_commit.specs.Waking.{HasReadyRoom, HasShardRoom, IsOwned, IsPaused, Woke, ready_in};
ghost use Rattle.ca_value.specs.View.{view};
ghost use Rattle.ca_meaning.specs.BodyViews.{is_at_op};

use crate::held::Shards;
use crate::task::{Ready, Task};
use ca_agent::agent::{Agent, Outcome};
use ca_bank::shard::{Parked, Shard};
use ca_term::event::WaitId;
use ca_value::value::Value;

// The wait leaves the shard.
#[inline(always)]
pub(crate) fn take_wait<A: Drop>(
    shard: &mut Shard<Task<A>>,
    wait: WaitId,
) -> Option<Parked<Task<A>>>
    ensures parked { option_map parked_view result ≡ waits_of shard.old wait.n }
    ensures waits { Sets wait.n None shard.old shard.new }
{
    shard.take_out(wait)
}

// A new wait comes into the shard.
#[inline(always)]
pub(crate) fn put_wait<A: Drop>(shard: &mut Shard<Task<A>>, wait: WaitId, parked: Parked<Task<A>>)
    requires belongs { belongs (shard_number shard.old) (shard_count shard.old) wait.n ≡ true }
    requires spare { 0 < shard_spare shard.old }
    ensures { Sets wait.n (Some (parked_view parked)) shard.old shard.new }
{
    shard.put_in(wait, parked);
}

// The wait leaves its shard, if that is held.
#[inline(always)]
pub(crate) fn take_out<A: Drop>(shards: &mut Shards<A>, wait: WaitId) -> Option<Parked<Task<A>>>
    ensures parked { option_map parked_view result ≡ whole (waits_held shards.old) wait.n }
    ensures waits { (i : ℕ) → waits_held shards.new i ≡ changed_at wait.n (λ o. None) (waits_held shards.old) i }
{
    match shards.place(wait.n % 16) {
        Some(place) => take_wait(&mut shards.items[place].shard, wait),
        None => None,
    }
}

// A new wait comes into its shard, if that is held.
#[inline(always)]
pub(crate) fn put_in<A: Drop>(shards: &mut Shards<A>, wait: WaitId, parked: Parked<Task<A>>)
    requires { HasShardRoom shards.old wait.n }
    ensures { (i : ℕ) → waits_held shards.new i ≡ changed_at wait.n (λ o. Some (parked_view parked)) (waits_held shards.old) i }
{
    match shards.place(wait.n % 16) {
        Some(place) => put_wait(&mut shards.items[place].shard, wait, parked),
        None => {}
    }
}

// The task stands last in the ready part.
pub(crate) fn push<A: Drop>(ready: &mut Option<Ready<A>>, task: Task<A>)
    requires { HasReadyRoom ready.old }
    ensures { ready_in ready.new ≡ option_map (λ q. q ++ task_view task ∷ []) (ready_in ready.old) }
{
    match ready {
        Some(ready) => ready.push(task),
        None => unreachable!(),
    }
}

fn go_on<A: Agent>(task: Task<A>, value: Value, branch: u64) -> Task<A>
    requires { is_at_op (A.place task.agent) ≡ true }
    ensures number { result.number ≡ task.number }
    ensures result { result.result ≡ task.result }
    ensures alts { result.alts ≡ task.alts }
    ensures gives { A.gives task.agent (view value) result.agent }
{
    let mut task = task;
    task.agent.give(Outcome {
        value,
        branch: Some(branch),
    });
    task
}

// Whoever waited goes on with the answer of that branch, last in the ready part.
#[inline(always)]
pub(crate) fn wake_in<A: Agent>(
    ready: &mut Ready<A>,
    parked: Option<Parked<Task<A>>>,
    value: Option<Value>,
    branch: u64,
)
    requires room { 0 < ready_spare ready.old }
    requires paused { IsPaused A.place (option_map parked_view parked) }
    requires value { IsOwned (option_map parked_view parked) → IsSome value }
    ensures { Woke A.gives (option_map parked_view parked) value (Some (tasks_in ready.old)) (Some (tasks_in ready.new)) }
{
    match parked {
        Some(Parked::Owner(task)) => match value {
            Some(value) => ready.push(go_on(task, value, branch)),
            None => unreachable!(),
        },
        Some(Parked::Nobody) => {}
        None => {}
    }
}

// The same, in the ready part that is held.
#[inline(always)]
pub(crate) fn wake<A: Agent>(
    ready: &mut Option<Ready<A>>,
    parked: Option<Parked<Task<A>>>,
    value: Option<Value>,
    branch: u64,
)
    requires room { HasReadyRoom ready.old }
    requires paused { IsPaused A.place (option_map parked_view parked) }
    requires value { IsOwned (option_map parked_view parked) → IsSome value }
    ensures { Woke A.gives (option_map parked_view parked) value (ready_in ready.old) (ready_in ready.new) }
{
    match ready {
        Some(ready) => wake_in(ready, parked, value, branch),
        None => unreachable!(),
    }
}
