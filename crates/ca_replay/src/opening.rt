//! Where a program's runs begin.
ghost use Rattle.std.specs.Prelude.{◌≡◌, ℕ, [], Some, None, eqb, IfOk};
ghost use Rattle.std.specs.Map.{update};
ghost use Rattle.ca_term.specs.Program.{program_view};
ghost use Rattle.ca_meaning.specs.Body.{new_body};
ghost use Rattle.ca_meaning.specs.State.{Opening};
ghost use Rattle.ca_meaning.specs.Task.{script};
ghost use Rattle.ca_scene.specs.Scene.{scene_state, task_at, room_at, scene_registry, IsScene, IsStandingShown};
ghost use Rattle.ca_replay.specs.Goings.{IsRested};
ghost use Rattle.ca_replay.specs.SceneOf.{IsSceneOf};

use crate::resting::rested;
use ca_meaning::body::Body;
use ca_scene::scene::Scene;
use ca_scene::task::{Task, TaskBody};
use ca_term::program::Program;
use ca_value::memory::OutOfMemory;
use std::alloc::Global;

/// The scene in which the main text stands after its local steps, as task 0, and nothing else.
pub(crate) fn opened(alloc: Global, program: &Program) -> Result<Scene, OutOfMemory>
    ensures scene { IfOk result (λ s. IsSceneOf (program_view program.now) s) }
    ensures opens { IfOk result (λ s. Opening (program_view program.now) (scene_state s)) }
{
    let task = main_task(alloc, program)?;
    with_task(alloc, task)
}

// Task 0, which rests and runs.
fn main_task(alloc: Global, program: &Program) -> Result<Task, OutOfMemory>
    ensures rested { IfOk result (λ x. IsRested (program_view program.now) (script (new_body (program_view program.now).main)) x) }
    ensures result { IfOk result (λ x. x.result ≡ None) }
{
    let body = Body::main(alloc, program)?;
    rested(alloc, program, TaskBody::Script(body), None)
}

// A scene with one task, of number 0.
fn with_task(alloc: Global, task: Task) -> Result<Scene, OutOfMemory>
    requires { IsStandingShown task }
    ensures scene { IfOk result (λ s. IsScene s) }
    ensures task { IfOk result (λ s. (t : ℕ) → task_at s t ≡ update eqb (λ q. None) 0 (Some task) t) }
    ensures rooms { IfOk result (λ s. (p : ℕ) → room_at s p ≡ None) }
    ensures registries { IfOk result (λ s. (p : ℕ) → scene_registry s p ≡ None) }
    ensures waits { IfOk result (λ s. s.waits.entries ≡ []) }
    ensures deadlines { IfOk result (λ s. s.timers.deadlines ≡ []) }
    ensures moment { IfOk result (λ s. s.timers.moment ≡ 0) }
{
    let mut scene = Scene::new(alloc);
    let_go(scene.tasks.insert(0, task)?);
    Ok(scene)
}

fn let_go(old: Option<Task>) {
    if let Some(old) = old {
        old.let_go();
    }
}
