//! How a task goes on once it has its answer.
ghost use Rattle.std.specs.Prelude.{◌≡◌, IfOk, OnOk, nat_eq, true};
ghost use Rattle.indexmap.specs.IndexMap.{get};
ghost use Rattle.ca_value.specs.View.{view};
ghost use Rattle.ca_term.specs.Program.{ProgramView, program_view};
ghost use Rattle.ca_term.specs.View.{kernel};
ghost use Rattle.ca_meaning.specs.Body.{at, fill};
ghost use Rattle.ca_meaning.specs.BodyViews.{body_view, is_at_op};
ghost use Rattle.ca_meaning.specs.IsBody.{IsBodyOf};
ghost use Rattle.ca_meaning.specs.System.{system_fill};
ghost use Rattle.ca_meaning.specs.Task.{body_at, body_fill};
ghost use Rattle.ca_scene.specs.Scene.{task_at, task_body, tasks_of};
ghost use Rattle.ca_system_tasks.specs.Tables.{table_body};
ghost use Rattle.ca_replay.specs.Goings.{But, TaskGoesOn, IsAnswered, SameButTasks, StandsThere, TaskWentOn};
ghost use Rattle.ca_replay.specs.SceneOf.{AreKnown, AreTasksOf, IsKnown, IsSceneOf};

use crate::resting::rested;
use ca_meaning::body::Body;
use ca_scene::scene::Scene;
use ca_scene::task::{Standing, Task, TaskBody};
use ca_system_tasks::table::SystemTable;
use ca_term::program::Program;
use ca_value::memory::OutOfMemory;
use ca_value::value::Value;
use indexmap::IndexMap;
use std::alloc::Global;

/// Task `task` gets the value where it stands, and goes on to where it rests next.
pub(crate) fn go_on(
    scene: &mut Scene,
    alloc: Global,
    program: &Program,
    task: u64,
    value: Value,
) -> Result<(), OutOfMemory>
    requires tasks { AreTasksOf (program_view program.now) (task_at scene.old) }
    requires stands { StandsThere (task_at scene.old task) }
    ensures goes { OnOk result (TaskGoesOn (program_view program.now) (tasks_of scene.old) task (view value) (tasks_of scene.new)) }
    ensures rest { OnOk result (SameButTasks scene.old scene.new) }
    ensures tasks { OnOk result (AreTasksOf (program_view program.now) (task_at scene.new)) }
    ensures scene { OnOk result (IsSceneOf (program_view program.now) scene.old → IsSceneOf (program_view program.now) scene.new) }
{
    go_on_in(&mut scene.tasks, alloc, program, task, value)?;
    Ok(())
}

fn go_on_in(
    tasks: &mut IndexMap<u64, Task>,
    alloc: Global,
    program: &Program,
    task: u64,
    answer: Value,
) -> Result<(), OutOfMemory>
    requires known { AreKnown (program_view program.now) (λ t. get nat_eq tasks.old t) }
    requires stands { StandsThere (get nat_eq tasks.old task) }
    ensures went { OnOk result (TaskWentOn (program_view program.now) (get nat_eq tasks.old task) (view answer) (get nat_eq tasks.new task)) }
    ensures others { OnOk result (But task (λ t. get nat_eq tasks.old t) (λ t. get nat_eq tasks.new t)) }
{
    let Some(old) = tasks.swap_remove(&task) else {
        unreachable!()
    };
    let next = answered(alloc, program, old, answer)?;
    tasks.insert(task, next)?;
    Ok(())
}

// The task after the answer.
fn answered(
    alloc: Global,
    program: &Program,
    task: Task,
    answer: Value,
) -> Result<Task, OutOfMemory>
    requires known { IsKnown (program_view program.now) task.body }
    requires stands { is_at_op (body_at (task_body task.body)) ≡ true }
    ensures { IfOk result (λ y. IsAnswered (program_view program.now) task (view answer) y) }
{
    let Task {
        result,
        body,
        standing,
        mode: _,
    } = task;
    let_go(standing);
    let body = filled(alloc, body, answer)?;
    let next = rested(alloc, program, body, result)?;
    Ok(next)
}

fn let_go(_standing: Standing) {}

// The body with the answer in place of its operation.
fn filled(alloc: Global, body: TaskBody, answer: Value) -> Result<TaskBody, OutOfMemory>
    requires { is_at_op (body_at (task_body body)) ≡ true }
    ensures filled { IfOk result (λ b. task_body b ≡ body_fill (view answer) (task_body body)) }
    ensures known { IfOk result (λ b. (program : ProgramView) → IsKnown program body → IsKnown program b) }
{
    match body {
        TaskBody::Script(text) => Ok(TaskBody::Script(filled_text(text, answer))),
        TaskBody::System(table) => Ok(TaskBody::System(filled_table(alloc, table, answer)?)),
    }
}

fn filled_text(text: Body, answer: Value) -> Body
    requires { is_at_op (at (body_view text)) ≡ true }
    ensures filled { body_view result ≡ fill (view answer) (body_view text) }
    ensures known { (program : ProgramView) → IsBodyOf program (kernel text.term) → IsBodyOf program (kernel result.term) }
{
    let mut text = text;
    text.fill(answer);
    text
}

fn filled_table(
    alloc: Global,
    table: SystemTable,
    answer: Value,
) -> Result<SystemTable, OutOfMemory>
    ensures { IfOk result (λ t. table_body t ≡ system_fill (view answer) (table_body table)) }
{
    let mut table = table;
    table.follow(alloc, answer)?;
    Ok(table)
}
