//! A put waits without its task.
ghost use Rattle.std.specs.Prelude.{◌≡◌, ◌∷◌, [], true, OnOk, IfOk, map};
ghost use Rattle.ca_value.specs.Seq.{list};
ghost use Rattle.ca_value.specs.View.{view};
ghost use Rattle.ca_term.specs.Event.{branch_view, posted, put_of};
ghost use Rattle.ca_term.specs.Program.{program_view};
ghost use Rattle.ca_meaning.specs.Steps.{Step};
ghost use Rattle.ca_scene.specs.Admits.{admits};
ghost use Rattle.ca_scene.specs.Scene.{scene_state};
ghost use Rattle.ca_replay.specs.SceneOf.{IsSceneOf};

use crate::going::go_on;
use crate::joining::join_wait;
use ca_scene::scene::Scene;
use ca_term::event::Branch;
use ca_term::program::Program;
use ca_value::memory::OutOfMemory;
use ca_value::seq::Seq;
use ca_value::value::{PortId, Value};
use std::alloc::Global;

/// The put of the value waits on the new wait, and the task goes on.
pub(crate) fn post(
    scene: &mut Scene,
    alloc: Global,
    program: &Program,
    task: u64,
    wait: u64,
    port: PortId,
    value: &Value,
) -> Result<(), OutOfMemory>
    requires scene { IsSceneOf (program_view program.now) scene.old }
    requires admitted { admits (scene_state scene.old) (posted task wait port.n (view value.now)) ≡ true }
    ensures step { OnOk result (Step (program_view program.now) (scene_state scene.old) (posted task wait port.n (view value.now)) (scene_state scene.new)) }
    ensures scene { OnOk result (IsSceneOf (program_view program.now) scene.new) }
{
    let branches = one_put(alloc, port, value)?;
    join_wait(scene, alloc, wait, None, branches)?;
    go_on(scene, alloc, program, task, Value::Bool(true))?;
    Ok(())
}

fn one_put(alloc: Global, port: PortId, value: &Value) -> Result<Seq<Branch>, OutOfMemory>
    ensures { IfOk result (λ s. map branch_view (list s) ≡ put_of port.n (view value.now) ∷ []) }
{
    let mut branches = Seq::new(alloc);
    branches.reserve(1)?;
    branches.push(Branch::Put(port, value.copy(alloc)?));
    Ok(branches)
}
