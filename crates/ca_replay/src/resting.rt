//! Bodies that come to rest, as tasks that run.
ghost use Rattle.std.specs.Prelude.{◌≡◌, ◌≢◌, IfOk, None, OnOk};
ghost use Rattle.ca_term.specs.Program.{program_view};
ghost use Rattle.ca_term.specs.View.{kernel};
ghost use Rattle.ca_meaning.specs.Body.{at, local};
ghost use Rattle.ca_meaning.specs.BodyViews.{body_view};
ghost use Rattle.ca_meaning.specs.IsBody.{IsBodyOf};
ghost use Rattle.ca_meaning.specs.System.{SystemRest};
ghost use Rattle.ca_meaning.specs.Task.{script, system_task};
ghost use Rattle.ca_scene.specs.Scene.{shown_at, standing_view, task_body};
ghost use Rattle.ca_system.specs.Applications.{function_of, pending_application};
ghost use Rattle.ca_system.specs.Stands.{stand_at};
ghost use Rattle.ca_system_tasks.specs.Tables.{table_body};
ghost use Rattle.ca_replay.specs.Goings.{IsRested};
ghost use Rattle.ca_replay.specs.SceneOf.{HasFunction, IsKnown};

use crate::calling::apply_function;
use ca_meaning::body::{Body, Stand as BodyStand};
use ca_scene::task::{Mode, Standing, Task, TaskBody};
use ca_system::stand::Stand;
use ca_system_tasks::table::SystemTable;
use ca_term::program::Program;
use ca_value::memory::OutOfMemory;
use ca_value::value::PortId;
use std::alloc::Global;

/// The task with that result port, once its body came to rest.
pub(crate) fn rested(
    alloc: Global,
    program: &Program,
    body: TaskBody,
    port: Option<PortId>,
) -> Result<Task, OutOfMemory>
    requires { IsKnown (program_view program.now) body }
    ensures rested { IfOk result (λ x. IsRested (program_view program.now) (task_body body) x) }
    ensures port { IfOk result (λ x. x.result ≡ port) }
{
    match body {
        TaskBody::Script(text) => rested_text(alloc, program, text, port),
        TaskBody::System(table) => rested_table(alloc, program, table, port),
    }
}

fn rested_text(
    alloc: Global,
    program: &Program,
    text: Body,
    port: Option<PortId>,
) -> Result<Task, OutOfMemory>
    requires { IsBodyOf (program_view program.now) (kernel text.term) }
    ensures rested { IfOk result (λ x. IsRested (program_view program.now) (script (body_view text)) x) }
    ensures port { IfOk result (λ x. x.result ≡ port) }
{
    let mut text = text;
    text.rest(alloc, program)?;
    let standing = text_standing(alloc, &text)?;
    Ok(Task {
        result: port,
        body: TaskBody::Script(text),
        standing,
        mode: Mode::Running,
    })
}

fn text_standing(alloc: Global, text: &Body) -> Result<Standing, OutOfMemory>
    requires { at (body_view text.now) ≢ local }
    ensures { IfOk result (λ s. standing_view s ≡ shown_at (at (body_view text.now))) }
{
    match text.at() {
        BodyStand::AtOp => Ok(Standing::AtOp(text.want(alloc)?)),
        BodyStand::Faulted(fault, place) => Ok(Standing::Faulted(fault, place)),
        BodyStand::Ended | BodyStand::Local => Ok(Standing::Ended),
    }
}

fn rested_table(
    alloc: Global,
    program: &Program,
    table: SystemTable,
    port: Option<PortId>,
) -> Result<Task, OutOfMemory>
    requires { HasFunction (program_view program.now) (function_of (table_body table)) }
    ensures rested { IfOk result (λ x. IsRested (program_view program.now) (system_task (table_body table)) x) }
    ensures port { IfOk result (λ x. x.result ≡ port) }
{
    let mut table = table;
    come_to_rest(&mut table, alloc, program)?;
    let standing = table_standing(table.stand(alloc)?);
    Ok(Task {
        result: port,
        body: TaskBody::System(table),
        standing,
        mode: Mode::Running,
    })
}

// It applies the function that the table is about to apply, if any.
fn come_to_rest(
    table: &mut SystemTable,
    alloc: Global,
    program: &Program,
) -> Result<(), OutOfMemory>
    requires { HasFunction (program_view program.now) (function_of (table_body table.old)) }
    ensures rests { OnOk result (SystemRest (program_view program.now) (table_body table.old) (table_body table.new)) }
    ensures applies { OnOk result (pending_application (table_body table.new) ≡ None) }
    ensures function { OnOk result (function_of (table_body table.new) ≡ function_of (table_body table.old)) }
{
    let returned = match table.pending() {
        None => return Ok(()),
        Some(application) => apply_function(alloc, program, application)?,
    };
    table.applied(alloc, returned)
}

fn table_standing(stand: Stand) -> Standing
    ensures { standing_view result ≡ shown_at (stand_at stand) }
{
    match stand {
        Stand::AtOp(want) => Standing::AtOp(want),
        Stand::Ended => Standing::Ended,
        Stand::Faulted(fault, place) => Standing::Faulted(fault, place),
    }
}
