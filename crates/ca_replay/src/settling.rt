//! A branch of a wait is served by its channel.
ghost use Rattle.std.specs.Prelude.{◌≡◌, true, OnOk};
ghost use Rattle.ca_value.specs.View.{view};
ghost use Rattle.ca_term.specs.Event.{settled};
ghost use Rattle.ca_term.specs.Program.{program_view};
ghost use Rattle.ca_meaning.specs.Steps.{Step};
ghost use Rattle.ca_scene.specs.Admits.{admits};
ghost use Rattle.ca_scene.specs.Scene.{scene_state};
ghost use Rattle.ca_replay.specs.SceneOf.{IsSceneOf};

use crate::completing::complete;
use crate::keeping::serve;
use ca_scene::scene::Scene;
use ca_term::event::Side;
use ca_term::program::Program;
use ca_value::memory::OutOfMemory;
use ca_value::value::{PortId, Value};
use std::alloc::Global;

/// A served branch: its wait, its number there, its side and its channel.
#[derive(Clone, Copy)]
pub(crate) struct Settling {
    pub(crate) wait: u64,
    pub(crate) branch: u64,
    pub(crate) side: Side,
    pub(crate) port: PortId,
}

/// The channel serves the branch, and the wait is completed.
pub(crate) fn settle(
    scene: &mut Scene,
    alloc: Global,
    program: &Program,
    served: Settling,
    value: &Value,
) -> Result<(), OutOfMemory>
    requires scene { IsSceneOf (program_view program.now) scene.old }
    requires admitted { admits (scene_state scene.old) (settled served.wait served.branch served.side served.port.n (view value.now)) ≡ true }
    ensures step { OnOk result (Step (program_view program.now) (scene_state scene.old) (settled served.wait served.branch served.side served.port.n (view value.now)) (scene_state scene.new)) }
    ensures scene { OnOk result (IsSceneOf (program_view program.now) scene.new) }
{
    serve(&mut scene.rooms, alloc, served.side, served.port.n, value)?;
    complete(
        scene,
        alloc,
        program,
        served.wait,
        served.port,
        served.side,
        value,
    )?;
    Ok(())
}
