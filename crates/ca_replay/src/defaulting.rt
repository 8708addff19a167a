//! An alts takes its default.
ghost use Rattle.std.specs.Prelude.{◌≡◌, IfOk, OnOk, true};
ghost use Rattle.ca_value.specs.View.{view};
ghost use Rattle.ca_term.specs.Event.{defaulted};
ghost use Rattle.ca_term.specs.Program.{program_view};
ghost use Rattle.ca_meaning.specs.ChannelSteps.{with_default};
ghost use Rattle.ca_meaning.specs.Steps.{Step};
ghost use Rattle.ca_scene.specs.Admits.{admits};
ghost use Rattle.ca_scene.specs.Scene.{scene_state};
ghost use Rattle.ca_replay.specs.SceneOf.{IsSceneOf};

use crate::going::go_on;
use ca_scene::scene::Scene;
use ca_term::program::Program;
use ca_value::memory::OutOfMemory;
use ca_value::seq::{Seq, Text};
use ca_value::value::Value;
use std::alloc::Global;

/// The task takes its default, which is the value.
pub(crate) fn take_default(
    scene: &mut Scene,
    alloc: Global,
    program: &Program,
    task: u64,
    value: &Value,
) -> Result<(), OutOfMemory>
    requires scene { IsSceneOf (program_view program.now) scene.old }
    requires admitted { admits (scene_state scene.old) (defaulted task (view value.now)) ≡ true }
    ensures step { OnOk result (Step (program_view program.now) (scene_state scene.old) (defaulted task (view value.now)) (scene_state scene.new)) }
    ensures scene { OnOk result (IsSceneOf (program_view program.now) scene.new) }
{
    let answer = default_answer(alloc, value)?;
    go_on(scene, alloc, program, task, answer)?;
    Ok(())
}

// `[v :default]`.
fn default_answer(alloc: Global, value: &Value) -> Result<Value, OutOfMemory>
    ensures { IfOk result (λ v. view v ≡ with_default (view value.now)) }
{
    let mut items = Seq::new(alloc);
    items.reserve(2)?;
    items.push(value.copy(alloc)?);
    items.push(Value::key(alloc, Text::from_bytes(alloc, b"default")?)?);
    Value::vector(alloc, items)
}
