//! A line is printed.
ghost use Rattle.std.specs.Prelude.{◌≡◌, OnOk, true};
ghost use Rattle.ca_value.specs.Seq.{list};
ghost use Rattle.ca_term.specs.Event.{printed};
ghost use Rattle.ca_term.specs.Program.{program_view};
ghost use Rattle.ca_meaning.specs.Steps.{Step};
ghost use Rattle.ca_scene.specs.Admits.{admits};
ghost use Rattle.ca_scene.specs.Scene.{scene_state};
ghost use Rattle.ca_replay.specs.SceneOf.{IsSceneOf};

use crate::going::go_on;
use ca_scene::scene::Scene;
use ca_term::program::Program;
use ca_value::memory::OutOfMemory;
use ca_value::seq::Text;
use ca_value::value::Value;
use std::alloc::Global;

/// The task prints the line.
pub(crate) fn print(
    scene: &mut Scene,
    alloc: Global,
    program: &Program,
    task: u64,
    line: &Text,
) -> Result<(), OutOfMemory>
    requires scene { IsSceneOf (program_view program.now) scene.old }
    requires admitted { admits (scene_state scene.old) (printed task (list line.now)) ≡ true }
    ensures step { OnOk result (Step (program_view program.now) (scene_state scene.old) (printed task (list line.now)) (scene_state scene.new)) }
    ensures scene { OnOk result (IsSceneOf (program_view program.now) scene.new) }
{
    go_on(scene, alloc, program, task, Value::Nil)?;
    Ok(())
}
