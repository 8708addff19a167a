//! A branch of a task's operation meets a branch of a wait.
ghost use Rattle.std.specs.Prelude.{◌≡◌, true, OnOk};
ghost use Rattle.ca_value.specs.View.{view};
ghost use Rattle.ca_term.specs.Event.{met};
ghost use Rattle.ca_term.specs.Program.{program_view};
ghost use Rattle.ca_meaning.specs.ChannelSteps.{other_side};
ghost use Rattle.ca_meaning.specs.Steps.{Step};
ghost use Rattle.ca_scene.specs.Admits.{admits};
ghost use Rattle.ca_scene.specs.Scene.{scene_state};
ghost use Rattle.ca_replay.specs.SceneOf.{IsSceneOf};

use crate::completing::complete;
use crate::replying::{answer_task, told};
use ca_scene::scene::Scene;
use ca_term::event::Side;
use ca_term::program::Program;
use ca_value::memory::OutOfMemory;
use ca_value::value::{PortId, Value};
use std::alloc::Global;

/// A meeting on a channel: the number and the side of the task's branch, the wait that is met, and the number of its branch.
#[derive(Clone, Copy)]
pub(crate) struct Meeting {
    pub(crate) branch: u64,
    pub(crate) side: Side,
    pub(crate) port: PortId,
    pub(crate) wait: u64,
    pub(crate) other: u64,
}

/// The value passes, the wait is completed, and both go on.
pub(crate) fn meet(
    scene: &mut Scene,
    alloc: Global,
    program: &Program,
    task: u64,
    meeting: Meeting,
    value: &Value,
) -> Result<(), OutOfMemory>
    requires scene { IsSceneOf (program_view program.now) scene.old }
    requires admitted { admits (scene_state scene.old) (met task meeting.branch meeting.side meeting.port.n (view value.now) meeting.wait meeting.other) ≡ true }
    ensures step { OnOk result (Step (program_view program.now) (scene_state scene.old) (met task meeting.branch meeting.side meeting.port.n (view value.now) meeting.wait meeting.other) (scene_state scene.new)) }
    ensures scene { OnOk result (IsSceneOf (program_view program.now) scene.new) }
{
    let answer = told(alloc, meeting.side, value)?;
    answer_task(scene, alloc, program, task, meeting.port, answer)?;
    let other = other_side(meeting.side);
    complete(
        scene,
        alloc,
        program,
        meeting.wait,
        meeting.port,
        other,
        value,
    )?;
    Ok(())
}

fn other_side(side: Side) -> Side
    ensures { result ≡ other_side side }
{
    match side {
        Side::Take => Side::Put,
        Side::Put => Side::Take,
    }
}
