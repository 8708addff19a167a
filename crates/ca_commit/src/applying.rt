//! The event of a plan: what it needs is reserved, and then it is applied.

ghost use Rattle.std.specs.Prelude.{◌≡◌, ◌+◌, ◌<◌, ◌^◌, ℕ, OnOk};
ghost use Rattle.ca_term.specs.Event.{event_view};
ghost use Rattle.ca_commit.specs.Applying.{HasParts, HasSpawned, IsEvent, IsMade, IsPlanFor, IsTimely, KeepsApart, ReadyBy, RunsBy, channels_by, event_of, number_of, registries_by, times_by, waits_by};
ghost use Rattle.ca_commit.specs.Contents.{nobody, owner, whole};
ghost use Rattle.ca_commit.specs.NewPort.{KeepsCounts, times_in};
ghost use Rattle.ca_commit.specs.Parking.{waiting_as};
ghost use Rattle.ca_commit.specs.Plans.{HasCopies, plan_view};
ghost use Rattle.ca_commit.specs.Showing.{channels_held, registries_held, waits_held};
ghost use Rattle.ca_commit.specs.Tasks.{agent_of};
ghost use Rattle.ca_commit.specs.Waking.{IsPaused, ready_in};

use crate::doing::{apply_done, reserve_done};
use crate::entering::{apply_register, reserve_register};
use crate::going::{apply_close, apply_default, apply_print, apply_spawn, reserve_default};
use crate::held::{Applied, Held};
use crate::meeting::{apply_meet, reserve_meet, reserve_ready};
use crate::new_port::{apply_make, reserve_make};
use crate::parking::{apply_park, apply_post, reserve_wait};
use crate::planned::Plan;
use crate::task::Task;
use ca_agent::agent::Agent;
use ca_value::memory::OutOfMemory;
use std::alloc::Global;

/// Makes all that the event of the plan needs. Nothing else changes.
#[inline(always)]
pub fn reserve<A: Agent>(alloc: Global, held: &mut Held<A>, plan: &Plan) -> Result<(), OutOfMemory>
    requires paused { (w : ℕ) → IsPaused A.place (whole (waits_held held.old.shards) w) }
    requires parts { HasParts held.old (plan_view plan.now) }
    requires apart { KeepsApart (plan_view plan.now) }
    ensures channels { (i : ℕ) → channels_held held.new.banks i ≡ channels_held held.old.banks i }
    ensures registries { (i : ℕ) → registries_held held.new.banks i ≡ registries_held held.old.banks i }
    ensures waits { (i : ℕ) → waits_held held.new.shards i ≡ waits_held held.old.shards i }
    ensures ready { ready_in held.new.ready ≡ ready_in held.old.ready }
    ensures times { times_in held.new.timers ≡ times_in held.old.timers }
    ensures counts { KeepsCounts held.old held.new }
    ensures made { OnOk result (IsMade A.place held.new plan.now) }
{
    match plan {
        Plan::Done(chosen) => reserve_done(alloc, held, chosen),
        Plan::Meet(chosen, wait, _) => reserve_meet(alloc, held, chosen, *wait),
        Plan::Park(joining) => reserve_wait(held, joining),
        Plan::Post(joining) => reserve_wait(held, joining),
        Plan::Default(value) => reserve_default(alloc, held, value),
        Plan::Make(what) => reserve_make(held, what),
        Plan::Spawn(_, _) => reserve_ready(&mut held.ready),
        Plan::Register(name, args, _) => reserve_register(alloc, held, *name, args),
        Plan::Close(_) | Plan::Print(_) => Ok(()),
        Plan::Look(_) | Plan::Prune(_, _, _) | Plan::Refused(_) => Ok(()),
    }
}

/// The event of the plan, which is what `plan` answers from some start for the task's operation over the parts as they
/// are held, and for which `reserve` made what it needs. `running` is the task with its answer, None exactly where it
/// waits. It takes no memory.
#[inline(always)]
pub fn apply<A: Agent>(
    alloc: Global,
    held: &mut Held<A>,
    plan: Plan,
    task: Task<A>,
    spawned: Option<Task<A>>,
) -> Applied<A>
    requires event { IsEvent (plan_view plan) }
    requires planned { IsPlanFor A.place held.old (plan_view plan) (agent_of task) }
    requires copies { HasCopies plan }
    requires count { task.alts + 1 < 2 ^ 64 }
    requires paused { (w : ℕ) → IsPaused A.place (whole (waits_held held.old.shards) w) }
    requires apart { KeepsApart (plan_view plan) }
    requires timely { IsTimely held.old (plan_view plan) }
    requires spawned { HasSpawned spawned (plan_view plan) }
    requires made { IsMade A.place held.old plan }
    ensures event { event_view result.event ≡ event_of (channels_held held.old.banks) (registries_held held.old.banks) task.number (number_of spawned) held.old.new_port held.old.new_wait held.old.moment (plan_view plan) }
    ensures channels { (i : ℕ) → channels_held held.new.banks i ≡ channels_by held.old.new_port held.old.new_wait (plan_view plan) (channels_held held.old.banks) i }
    ensures registries { (i : ℕ) → registries_held held.new.banks i ≡ registries_by held.old.new_port (plan_view plan) (registries_held held.old.banks) i }
    ensures waits { (i : ℕ) → waits_held held.new.shards i ≡ waits_by held.old.new_wait (owner task.number (waiting_as A.place (agent_of task))) nobody (plan_view plan) (waits_held held.old.shards) i }
    ensures ready { ReadyBy A.place A.gives held.old held.new spawned (plan_view plan) }
    ensures times { times_in held.new.timers ≡ times_by held.old.new_port held.old.moment (plan_view plan) (times_in held.old.timers) }
    ensures counts { KeepsCounts held.old held.new }
    ensures running { RunsBy A.gives held.old task (plan_view plan) result.running }
{
    match plan {
        Plan::Done(chosen) => apply_done(held, chosen, task),
        Plan::Meet(chosen, wait, other) => apply_meet(held, chosen, wait, other, task),
        Plan::Park(joining) => apply_park(held, joining, task),
        Plan::Post(joining) => apply_post(held, joining, task),
        Plan::Default(value) => apply_default(held, value, task),
        Plan::Make(what) => apply_make(alloc, held, what, task),
        Plan::Spawn(kind, port) => match spawned {
            Some(spawned) => apply_spawn(held, kind, port, task, spawned),
            None => unreachable!(),
        },
        Plan::Close(port) => apply_close(held, port, task),
        Plan::Register(name, args, again) => apply_register(held, name, args, again, task),
        Plan::Print(line) => apply_print(line, task),
        Plan::Look(_) | Plan::Prune(_, _, _) | Plan::Refused(_) => unreachable!(),
    }
}
