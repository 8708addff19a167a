// What tasks are answered.
ghost use Rattle.std.specs.Prelude.{◌≡◌, ◌+◌, ◌<◌, ◌^◌, true, IfOk, IsSome, Some};
ghost use Rattle.ca_value.specs.View.{view};
ghost use Rattle.ca_meaning.specs.BodyViews.{is_at_op};
ghost use Rattle.ca_commit.specs.Replies.{GoesOn, reply_by};
ghost use Rattle.ca_commit.specs.Tasks.{agent_of};

use crate::task::Task;
use ca_agent::agent::{Agent, Outcome};
use ca_value::memory::OutOfMemory;
use ca_value::seq::Seq;
use ca_value::value::{PortId, Value};
use std::alloc::Global;

// A copy of the value; of an alts the vector of it and the port.
#[inline(always)]
pub(crate) fn reply(
    alloc: Global,
    of_alts: bool,
    port: PortId,
    value: &Value,
) -> Result<Value, OutOfMemory>
    ensures { IfOk result (λ r. view r ≡ reply_by of_alts port.n (view value.now)) }
{
    if of_alts {
        let mut items = Seq::new(alloc);
        items.reserve(2)?;
        items.push(value.copy(alloc)?);
        items.push(Value::Port(port));
        Value::vector(alloc, items)
    } else {
        value.copy(alloc)
    }
}

// The value that was made before.
pub(crate) fn taken(slot: &mut Option<Value>) -> Value
    requires { IsSome slot.old }
    ensures { slot.old ≡ Some result }
{
    match slot.take() {
        Some(value) => value,
        None => unreachable!(),
    }
}

/// The task goes on with the answer of that branch, and an alts is counted.
#[inline(always)]
pub(crate) fn answer_task<A: Agent>(
    task: &mut Task<A>,
    value: Value,
    branch: Option<u64>,
    of_alts: bool,
)
    requires at { is_at_op (A.place task.old.agent) ≡ true }
    requires count { of_alts ≡ true → task.old.alts + 1 < 2 ^ 64 }
    ensures number { task.new.number ≡ task.old.number }
    ensures agent { GoesOn A.gives of_alts (agent_of task.old) (view value) (agent_of task.new) }
{
    task.agent.give(Outcome { value, branch });
    if of_alts {
        task.alts += 1;
    }
}

// The same of a task by itself.
pub(crate) fn goes_on<A: Agent>(
    task: Task<A>,
    value: Value,
    branch: Option<u64>,
    of_alts: bool,
) -> Task<A>
    requires at { is_at_op (A.place task.agent) ≡ true }
    requires count { task.alts + 1 < 2 ^ 64 }
    ensures number { result.number ≡ task.number }
    ensures agent { GoesOn A.gives of_alts (agent_of task) (view value) (agent_of result) }
{
    let mut task = task;
    answer_task(&mut task, value, branch, of_alts);
    task
}
