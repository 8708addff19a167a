//! A task waits on a new wait.
ghost use Rattle.std.specs.Prelude.{◌≡◌, ◌++◌, ℕ, true, OnOk, IfOk, map, nat_eq};
ghost use Rattle.indexmap.specs.IndexMap.{get};
ghost use Rattle.ca_value.specs.Seq.{list};
ghost use Rattle.ca_term.specs.Event.{branch_view, parked};
ghost use Rattle.ca_term.specs.Program.{ProgramView};
ghost use Rattle.ca_meaning.specs.Steps.{Step};
ghost use Rattle.ca_scene.specs.Admits.{admits};
ghost use Rattle.ca_scene.specs.Scene.{scene_state, IsScene};
ghost use Rattle.ca_replay.specs.Moves.{waiting_on};
ghost use Rattle.ca_replay.specs.Changes.{mapped_at};
ghost use Rattle.ca_replay.specs.SceneOf.{IsSceneOf};

use crate::joining::join_wait;
use ca_scene::scene::Scene;
use ca_scene::task::{Mode, Task};
use ca_term::event::Branch;
use ca_value::memory::OutOfMemory;
use ca_value::seq::Seq;
use indexmap::IndexMap;
use std::alloc::Global;

/// The task waits on the new wait of these branches.
pub(crate) fn park(
    scene: &mut Scene,
    alloc: Global,
    task: u64,
    wait: u64,
    branches: &[Branch],
) -> Result<(), OutOfMemory>
    requires scene { IsScene scene.old }
    requires admitted { admits (scene_state scene.old) (parked task wait (map branch_view branches.now)) ≡ true }
    ensures step { OnOk result ((program : ProgramView) → Step program (scene_state scene.old) (parked task wait (map branch_view branches.now)) (scene_state scene.new)) }
    ensures scene { OnOk result ((program : ProgramView) → IsSceneOf program scene.old → IsSceneOf program scene.new) }
{
    let branches = copied(alloc, branches)?;
    join_wait(scene, alloc, wait, Some(task), branches)?;
    wait_on(&mut scene.tasks, task, wait);
    Ok(())
}

fn wait_on(tasks: &mut IndexMap<u64, Task>, task: u64, wait: u64)
    ensures { (t : ℕ) → get nat_eq tasks.new t ≡ mapped_at (λ q. get nat_eq tasks.old q) task (waiting_on wait) t }
{
    if let Some(task) = tasks.get_mut(&task) {
        task.mode = Mode::Waiting(wait);
    }
}

fn copied(alloc: Global, branches: &[Branch]) -> Result<Seq<Branch>, OutOfMemory>
    ensures { IfOk result (λ s. map branch_view (list s) ≡ map branch_view branches.now) }
{
    let mut copies = Seq::new(alloc);
    copies.reserve(branches.len() as u64)?;
    for branch in branches {
        let copy = copy_of(alloc, branch)?;
        copies.reserve(1)?;
        copies.push(copy);
    }
    Ok(copies)
}

fn copy_of(alloc: Global, branch: &Branch) -> Result<Branch, OutOfMemory>
    ensures { IfOk result (λ b. branch_view b ≡ branch_view branch.now) }
{
    match branch {
        Branch::Take(port) => Ok(Branch::Take(*port)),
        Branch::Put(port, value) => Ok(Branch::Put(*port, value.copy(alloc)?)),
    }
}
