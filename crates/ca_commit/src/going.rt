//! Events of a task alone, or with one channel or the ready part: each takes no memory.

ghost use Rattle.std.specs.Prelude.{◌≡◌, ◌+◌, ◌<◌, ◌^◌, ◌∷◌, ◌++◌, [], ℕ, false, true, IfOk, OnOk, IfSome, IsSome, Some, option_map};
ghost use Rattle.ca_value.specs.Seq.{list};
ghost use Rattle.ca_value.specs.Tree.{nil};
ghost use Rattle.ca_value.specs.View.{view};
ghost use Rattle.ca_term.specs.Event.{closed as closed_event, defaulted, event_view, port_number, printed, spawned as spawned_event};
ghost use Rattle.ca_meaning.specs.BodyViews.{is_at_op};
ghost use Rattle.ca_meaning.specs.ChannelSteps.{with_default};
ghost use Rattle.ca_bank.specs.Kept.{closed_channel};
ghost use Rattle.ca_commit.specs.Listing.{changed_at};
ghost use Rattle.ca_commit.specs.Making.{KeepsOthers};
ghost use Rattle.ca_commit.specs.Replies.{GoesOn};
ghost use Rattle.ca_commit.specs.Showing.{channels_held, registries_held};
ghost use Rattle.ca_commit.specs.Tasks.{agent_of, task_view};
ghost use Rattle.ca_commit.specs.Ticking.{closed_result};
ghost use Rattle.ca_commit.specs.Waking.{HasReadyRoom, KeepsNumbers, ready_in};

use crate::changing::close;
use crate::held::{Applied, Held};
use crate::replying::{goes_on, taken};
use crate::task::Task;
use crate::waiting::push;
use ca_agent::agent::Agent;
use ca_term::event::{Event, TaskKind};
use ca_value::memory::OutOfMemory;
use ca_value::seq::{Seq, Text};
use ca_value::value::{PortId, Value};
use std::alloc::Global;

/// The task closes the channel, and gets nil.
pub fn apply_close<A: Agent>(held: &mut Held<A>, port: PortId, task: Task<A>) -> Applied<A>
    requires at { is_at_op (A.place task.agent) ≡ true }
    requires count { task.alts + 1 < 2 ^ 64 }
    ensures event { event_view result.event ≡ closed_event task.number port.n }
    ensures channels { (i : ℕ) → channels_held held.new.banks i ≡ changed_at port.n (option_map closed_channel) (channels_held held.old.banks) i }
    ensures registries { (i : ℕ) → registries_held held.new.banks i ≡ registries_held held.old.banks i }
    ensures others { KeepsOthers held.old held.new }
    ensures running { IfSome result.running (λ c. (c.number ≡ task.number) × GoesOn A.gives false (agent_of task) nil (agent_of c)) }
    ensures runs { IsSome result.running }
{
    close(&mut held.banks, port);
    let number = task.number;
    let task = goes_on(task, Value::Nil, None, false);
    Applied {
        event: Event::Close { task: number, port },
        running: Some(task),
    }
}

/// The task writes the line, and gets nil.
pub fn apply_print<A: Agent>(line: Text, task: Task<A>) -> Applied<A>
    requires at { is_at_op (A.place task.agent) ≡ true }
    requires count { task.alts + 1 < 2 ^ 64 }
    ensures event { event_view result.event ≡ printed task.number (list line) }
    ensures running { IfSome result.running (λ c. (c.number ≡ task.number) × GoesOn A.gives false (agent_of task) nil (agent_of c)) }
    ensures runs { IsSome result.running }
{
    let number = task.number;
    let task = goes_on(task, Value::Nil, None, false);
    Applied {
        event: Event::Print { task: number, line },
        running: Some(task),
    }
}

/// The new task stands last in the ready part, and the task that started it gets nil.
pub fn apply_spawn<A: Agent>(
    held: &mut Held<A>,
    kind: TaskKind,
    port: Option<PortId>,
    task: Task<A>,
    spawned: Task<A>,
) -> Applied<A>
    requires at { is_at_op (A.place task.agent) ≡ true }
    requires count { task.alts + 1 < 2 ^ 64 }
    requires room { HasReadyRoom held.old.ready }
    ensures event { event_view result.event ≡ spawned_event task.number spawned.number kind (option_map port_number port) }
    ensures banks { held.new.banks ≡ held.old.banks }
    ensures shards { held.new.shards ≡ held.old.shards }
    ensures ready { ready_in held.new.ready ≡ option_map (λ q. q ++ task_view spawned ∷ []) (ready_in held.old.ready) }
    ensures numbers { KeepsNumbers held.old held.new }
    ensures running { IfSome result.running (λ c. (c.number ≡ task.number) × GoesOn A.gives false (agent_of task) nil (agent_of c)) }
    ensures runs { IsSome result.running }
{
    let number = task.number;
    let started = spawned.number;
    push(&mut held.ready, spawned);
    let task = goes_on(task, Value::Nil, None, false);
    Applied {
        event: Event::Spawn {
            task: number,
            spawned: started,
            kind,
            result: port,
        },
        running: Some(task),
    }
}

// `[v :default]`.
fn default_answer(alloc: Global, value: &Value) -> Result<Value, OutOfMemory>
    ensures { IfOk result (λ v. view v ≡ with_default (view value.now)) }
{
    let mut items = Seq::new(alloc);
    items.reserve(2)?;
    items.push(value.copy(alloc)?);
    items.push(Value::key(alloc, Text::from_bytes(alloc, b"default")?)?);
    Value::vector(alloc, items)
}

/// Makes the answer of an alts that takes its default. Nothing else changes.
pub fn reserve_default<A: Drop>(
    alloc: Global,
    held: &mut Held<A>,
    value: &Value,
) -> Result<(), OutOfMemory>
    ensures banks { held.new.banks ≡ held.old.banks }
    ensures others { KeepsOthers held.old held.new }
    ensures made { OnOk result (option_map view held.new.spare.answer ≡ Some (with_default (view value.now))) }
{
    held.spare.answer = Some(default_answer(alloc, value)?);
    Ok(())
}

/// The alts takes its default.
pub fn apply_default<A: Agent>(held: &mut Held<A>, value: Value, task: Task<A>) -> Applied<A>
    requires at { is_at_op (A.place task.agent) ≡ true }
    requires count { task.alts + 1 < 2 ^ 64 }
    requires made { option_map view held.old.spare.answer ≡ Some (with_default (view value)) }
    ensures event { event_view result.event ≡ defaulted task.number (view value) }
    ensures banks { held.new.banks ≡ held.old.banks }
    ensures others { KeepsOthers held.old held.new }
    ensures running { IfSome result.running (λ c. (c.number ≡ task.number) × GoesOn A.gives true (agent_of task) (with_default (view value)) (agent_of c)) }
    ensures runs { IsSome result.running }
{
    let answer = taken(&mut held.spare.answer);
    let number = task.number;
    let task = goes_on(task, answer, None, true);
    Applied {
        event: Event::Default {
            task: number,
            value,
        },
        running: Some(task),
    }
}

/// A task faulted: the channel of its result port is closed, if it has one. It takes no memory.
pub fn apply_fault<A: Drop>(held: &mut Held<A>, port: Option<PortId>)
    ensures channels { (i : ℕ) → channels_held held.new.banks i ≡ closed_result (option_map port_number port) (channels_held held.old.banks) i }
    ensures registries { (i : ℕ) → registries_held held.new.banks i ≡ registries_held held.old.banks i }
    ensures others { KeepsOthers held.old held.new }
{
    if let Some(port) = port {
        close(&mut held.banks, port);
    }
}
