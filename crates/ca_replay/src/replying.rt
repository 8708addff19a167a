//! What a task gets where its operation is done.
ghost use Rattle.std.specs.Prelude.{◌≡◌, IfOk, OnOk, Some};
ghost use Rattle.ca_value.specs.Tree.{vector, port as port_tree, item, none};
ghost use Rattle.ca_value.specs.View.{view};
ghost use Rattle.ca_term.specs.Operation.{op_view};
ghost use Rattle.ca_term.specs.Program.{program_view};
ghost use Rattle.ca_meaning.specs.State.{Task};
ghost use Rattle.ca_meaning.specs.Task.{body_reply};
ghost use Rattle.ca_meaning.specs.Wait.{told};
ghost use Rattle.ca_scene.specs.Scene.{IsScene, standing_view, task_at, tasks_of};
ghost use Rattle.ca_replay.specs.Goings.{SameButTasks, StandsThere};
ghost use Rattle.ca_replay.specs.Replies.{is_choosing, shown_chooses, chooses_there, GoesReplied};
ghost use Rattle.ca_replay.specs.SceneOf.{IsSceneOf};

use crate::going::go_on;
use ca_scene::scene::Scene;
use ca_scene::task::Standing;
use ca_term::event::Side;
use ca_term::operation::Op;
use ca_term::program::Program;
use ca_value::memory::OutOfMemory;
use ca_value::seq::Seq;
use ca_value::value::{PortId, Value};
use std::alloc::Global;

/// What a side is told when a value passes: a take gets it, a put gets true.
pub(crate) fn told(alloc: Global, side: Side, value: &Value) -> Result<Value, OutOfMemory>
    ensures { IfOk result (λ v. view v ≡ told side (view value.now)) }
{
    match side {
        Side::Take => value.copy(alloc),
        Side::Put => Ok(Value::Bool(true)),
    }
}

/// The task's operation is done on that port with that answer, and the task goes on: an alts gets both.
pub(crate) fn answer_task(
    scene: &mut Scene,
    alloc: Global,
    program: &Program,
    task: u64,
    port: PortId,
    answer: Value,
) -> Result<(), OutOfMemory>
    requires scene { IsSceneOf (program_view program.now) scene.old }
    requires stands { StandsThere (task_at scene.old task) }
    ensures goes { OnOk result (GoesReplied (program_view program.now) (tasks_of scene.old) task port.n (view answer) (tasks_of scene.new)) }
    ensures rest { OnOk result (SameButTasks scene.old scene.new) }
    ensures scene { OnOk result (IsSceneOf (program_view program.now) scene.new) }
{
    let given = reply(scene, alloc, task, port, answer)?;
    go_on(scene, alloc, program, task, given)?;
    Ok(())
}

fn reply(
    scene: &Scene,
    alloc: Global,
    task: u64,
    port: PortId,
    answer: Value,
) -> Result<Value, OutOfMemory>
    requires { IsScene scene.now }
    ensures { IfOk result (λ v. (x : Task) → tasks_of scene.now task ≡ Some x → view v ≡ body_reply x.body port.n (view answer)) }
{
    if chooses_there(scene, task) {
        with_port(alloc, answer, port)
    } else {
        Ok(answer)
    }
}

fn with_port(alloc: Global, answer: Value, port: PortId) -> Result<Value, OutOfMemory>
    ensures { IfOk result (λ v. view v ≡ vector (item (view answer) (item (port_tree port.n) none))) }
{
    let mut items = Seq::new(alloc);
    items.reserve(2)?;
    items.push(answer);
    items.push(Value::Port(port));
    Value::vector(alloc, items)
}

// Whether the task stands at an alts.
fn chooses_there(scene: &Scene, task: u64) -> bool
    requires { IsScene scene.now }
    ensures { result ≡ chooses_there (tasks_of scene.now task) }
{
    match scene.tasks.get(&task) {
        Some(task) => chooses(&task.standing),
        None => false,
    }
}

fn chooses(standing: &Standing) -> bool
    ensures { result ≡ shown_chooses (standing_view standing.now) }
{
    match standing {
        Standing::AtOp(want) => is_alts(&want.op),
        Standing::Ended | Standing::Faulted(_, _) => false,
    }
}

fn is_alts(op: &Op) -> bool
    ensures { result ≡ is_choosing (op_view op.now) }
{
    matches!(op, Op::Alts { .. })
}
