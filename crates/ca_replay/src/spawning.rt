//! A task starts a task.
ghost use Rattle.std.specs.Prelude.{◌≡◌, IfOk, OnOk, Some, length, option_map, suc, true};
ghost use Rattle.ca_value.specs.Seq.{list};
ghost use Rattle.ca_value.specs.View.{trees};
ghost use Rattle.ca_term.specs.Event.{port_number, spawned as spawned_by};
ghost use Rattle.ca_term.specs.Operation.{SeedView, go, op_view, seed_view, spawning};
ghost use Rattle.ca_term.specs.Program.{program_view};
ghost use Rattle.ca_term.specs.View.{kernel};
ghost use Rattle.ca_meaning.specs.BodyViews.{body_view};
ghost use Rattle.ca_meaning.specs.IsBody.{IsBodyOf};
ghost use Rattle.ca_meaning.specs.Steps.{Step};
ghost use Rattle.ca_meaning.specs.Task.{new_task, script};
ghost use Rattle.ca_scene.specs.Admits.{admits, asked_by};
ghost use Rattle.ca_scene.specs.Scene.{IsScene, scene_state, task_body, tasks_of};
ghost use Rattle.ca_replay.specs.Goings.{IsRested};
ghost use Rattle.ca_replay.specs.SceneOf.{IsKnown, IsSceneOf};
ghost use Rattle.ca_replay.specs.Seeds.{IsSeedOf, seed_in};

use crate::changing::insert_in;
use crate::going::go_on;
use crate::resting::rested;
use ca_meaning::body::Body;
use ca_scene::scene::Scene;
use ca_scene::task::{Task, TaskBody};
use ca_system_tasks::table::SystemTable;
use ca_term::event::TaskKind;
use ca_term::operation::{GoSeed, Op, Seed};
use ca_term::program::Program;
use ca_value::memory::OutOfMemory;
use ca_value::value::{PortId, Value};
use std::alloc::Global;

/// The task starts the new task, with that result port. Which kind it is, its operation says.
pub(crate) fn spawn(
    scene: &mut Scene,
    alloc: Global,
    program: &Program,
    task: u64,
    spawned: u64,
    _kind: TaskKind,
    port: Option<PortId>,
) -> Result<(), OutOfMemory>
    requires scene { IsSceneOf (program_view program.now) scene.old }
    requires admitted { admits (scene_state scene.old) (spawned_by task spawned _kind (option_map port_number port)) ≡ true }
    ensures step { OnOk result (Step (program_view program.now) (scene_state scene.old) (spawned_by task spawned _kind (option_map port_number port)) (scene_state scene.new)) }
    ensures scene { OnOk result (IsSceneOf (program_view program.now) scene.new) }
{
    let seed = seed_of(scene, alloc, task)?;
    let new = started(alloc, program, seed, port)?;
    go_on(scene, alloc, program, task, Value::Nil)?;
    insert_in(&mut scene.tasks, spawned, new)?;
    Ok(())
}

// The seed of the operation that the task stands at.
fn seed_of(scene: &Scene, alloc: Global, task: u64) -> Result<Seed, OutOfMemory>
    requires scene { IsScene scene.now }
    requires spawns { (seed : SeedView) × (asked_by (tasks_of scene.now task) ≡ Some (spawning seed)) }
    ensures { IfOk result (λ s. asked_by (tasks_of scene.now task) ≡ Some (spawning (seed_view s))) }
{
    let Some(op) = scene.asked_by(task) else {
        unreachable!()
    };
    let Some(seed) = seed_in(op) else {
        unreachable!()
    };
    seed.copy(alloc)
}

fn seed_in(op: &Op) -> Option<&Seed>
    ensures { option_map (λ s. seed_view s.now) result ≡ seed_in (op_view op.now) }
{
    match op {
        Op::Spawn(seed) => Some(seed),
        _ => None,
    }
}

// The new task of the seed, at rest.
fn started(
    alloc: Global,
    program: &Program,
    seed: Seed,
    port: Option<PortId>,
) -> Result<Task, OutOfMemory>
    requires { IsSeedOf (program_view program.now) (seed_view seed) }
    ensures rested { IfOk result (λ x. IsRested (program_view program.now) (new_task (program_view program.now) (seed_view seed)) x) }
    ensures port { IfOk result (λ x. x.result ≡ port) }
{
    let body = new_body(alloc, program, seed)?;
    rested(alloc, program, body, port)
}

fn new_body(alloc: Global, program: &Program, seed: Seed) -> Result<TaskBody, OutOfMemory>
    requires { IsSeedOf (program_view program.now) (seed_view seed) }
    ensures begins { IfOk result (λ b. task_body b ≡ new_task (program_view program.now) (seed_view seed)) }
    ensures known { IfOk result (λ b. IsKnown (program_view program.now) b) }
{
    match seed {
        Seed::Go(seed) => Ok(TaskBody::Script(go_body(alloc, program, seed)?)),
        Seed::System(seed) => Ok(TaskBody::System(SystemTable::new(
            seed.kind,
            seed.values,
            seed.place,
        ))),
    }
}

// The body of the go block, with the values and last the port of its result.
fn go_body(alloc: Global, program: &Program, seed: GoSeed) -> Result<Body, OutOfMemory>
    requires { IsSeedOf (program_view program.now) (go seed.body (trees (list seed.values)) seed.result.n seed.place) }
    ensures begins { IfOk result (λ b. script (body_view b) ≡ new_task (program_view program.now) (go seed.body (trees (list seed.values)) seed.result.n seed.place)) }
    ensures known { IfOk result (λ b. IsBodyOf (program_view program.now) (kernel b.term)) }
{
    let GoSeed {
        body,
        values,
        result,
        place: _,
    } = seed;
    let mut values = values;
    values.reserve(1)?;
    values.push(Value::Port(result));
    Ok(Body::go(alloc, program, body, &values)?)
}
