//! A wait that is completed is gone, and its owner goes on.
ghost use Rattle.std.specs.Prelude.{◌≡◌, true, OnOk, IfOk};
ghost use Rattle.ca_value.specs.View.{view};
ghost use Rattle.ca_term.specs.Program.{program_view};
ghost use Rattle.ca_meaning.specs.Going.{Wakes};
ghost use Rattle.ca_meaning.specs.Wait.{is_live, owner_of, told};
ghost use Rattle.ca_scene.specs.Admitted.{Woken};
ghost use Rattle.ca_scene.specs.Scene.{scene_state, tasks_of, IsScene};
ghost use Rattle.ca_replay.specs.Moves.{with_tasks, without_wait};
ghost use Rattle.ca_replay.specs.SceneOf.{IsSceneOf};

use crate::leaving::leave_all;
use crate::replying::{answer_task, told};
use ca_scene::scene::Scene;
use ca_term::event::Side;
use ca_term::program::Program;
use ca_value::memory::OutOfMemory;
use ca_value::value::{PortId, Value};
use std::alloc::Global;

/// The wait is gone, and its owner, if it has one, goes on with what its side is told.
pub(crate) fn complete(
    scene: &mut Scene,
    alloc: Global,
    program: &Program,
    wait: u64,
    port: PortId,
    side: Side,
    value: &Value,
) -> Result<(), OutOfMemory>
    requires scene { IsSceneOf (program_view program.now) scene.old }
    requires live { is_live wait (scene_state scene.old).waits ≡ true }
    requires woken { Woken (scene_state scene.old) wait (owner_of wait (scene_state scene.old).waits) }
    ensures wakes { OnOk result (Wakes (program_view program.now) (owner_of wait (scene_state scene.old).waits) (tasks_of scene.old) wait port.n (told side (view value.now)) (tasks_of scene.new)) }
    ensures state { OnOk result (scene_state scene.new ≡ with_tasks (tasks_of scene.new) (without_wait wait (scene_state scene.old))) }
    ensures scene { OnOk result (IsSceneOf (program_view program.now) scene.new) }
{
    match take_out(scene, wait)? {
        None => Ok(()),
        Some(owner) => {
            let answer = told(alloc, side, value)?;
            answer_task(scene, alloc, program, owner, port, answer)?;
            Ok(())
        }
    }
}

// The wait is gone, with all its branches. Its owner is given, if it has one.
fn take_out(scene: &mut Scene, wait: u64) -> Result<Option<u64>, OutOfMemory>
    requires scene { IsScene scene.old }
    requires live { is_live wait (scene_state scene.old).waits ≡ true }
    ensures owner { IfOk result (λ o. o ≡ owner_of wait (scene_state scene.old).waits) }
    ensures state { OnOk result (scene_state scene.new ≡ without_wait wait (scene_state scene.old)) }
    ensures scene { OnOk result (IsScene scene.new) }
    ensures tasks { OnOk result (scene.new.tasks ≡ scene.old.tasks) }
{
    let Some(old) = scene.waits.insert(wait, None)? else {
        unreachable!()
    };
    let Some(waiting) = old else { unreachable!() };
    leave_all(&mut scene.rooms, waiting.branches.as_slice(), wait);
    Ok(waiting.owner)
}
