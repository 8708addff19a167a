//! A branch of a task's operation is done at once.
ghost use Rattle.std.specs.Prelude.{◌≡◌, true, OnOk};
ghost use Rattle.ca_value.specs.View.{view};
ghost use Rattle.ca_term.specs.Event.{branch_view, done};
ghost use Rattle.ca_term.specs.Program.{program_view};
ghost use Rattle.ca_meaning.specs.Steps.{Step};
ghost use Rattle.ca_meaning.specs.Wait.{port_of};
ghost use Rattle.ca_scene.specs.Admits.{admits};
ghost use Rattle.ca_scene.specs.Scene.{scene_state};
ghost use Rattle.ca_replay.specs.SceneOf.{IsSceneOf};

use crate::keeping::do_branch;
use crate::replying::answer_task;
use ca_scene::scene::Scene;
use ca_term::event::Branch;
use ca_term::program::Program;
use ca_value::memory::OutOfMemory;
use ca_value::value::{PortId, Value};
use std::alloc::Global;

/// The branch is done, and the task goes on with the answer.
pub(crate) fn done(
    scene: &mut Scene,
    alloc: Global,
    program: &Program,
    task: u64,
    place: u64,
    branch: &Branch,
    answer: &Value,
) -> Result<(), OutOfMemory>
    requires scene { IsSceneOf (program_view program.now) scene.old }
    requires admitted { admits (scene_state scene.old) (done task place (branch_view branch.now) (view answer.now)) ≡ true }
    ensures step { OnOk result (Step (program_view program.now) (scene_state scene.old) (done task place (branch_view branch.now) (view answer.now)) (scene_state scene.new)) }
    ensures scene { OnOk result (IsSceneOf (program_view program.now) scene.new) }
{
    do_branch(&mut scene.rooms, alloc, branch)?;
    let copy = answer.copy(alloc)?;
    answer_task(scene, alloc, program, task, port_of(branch), copy)?;
    Ok(())
}

fn port_of(branch: &Branch) -> PortId
    ensures { result.n ≡ port_of (branch_view branch.now) }
{
    match branch {
        Branch::Take(port) | Branch::Put(port, _) => *port,
    }
}
