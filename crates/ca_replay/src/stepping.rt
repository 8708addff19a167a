//! One event of a run: it is done where the state admits it.
ghost use Rattle.std.specs.Prelude.{◌≡◌, true, false, OnOk, IfOk};
ghost use Rattle.ca_value.specs.IsValue.{any};
ghost use Rattle.ca_term.specs.Event.{event_view};
ghost use Rattle.ca_term.specs.Program.{program_view};
ghost use Rattle.ca_meaning.specs.RunValues.{Holds};
ghost use Rattle.ca_meaning.specs.State.{State};
ghost use Rattle.ca_meaning.specs.Steps.{Step};
ghost use Rattle.ca_scene.specs.Scene.{scene_state};
ghost use Rattle.ca_replay.specs.SceneOf.{IsSceneOf};

use crate::apply::apply;
use ca_scene::scene::Scene;
use ca_term::event::Event;
use ca_term::program::Program;
use ca_value::memory::OutOfMemory;
use std::alloc::Global;

/// Does the event where the state allows it: true, and the state after it; false, and nothing changes, where it doesn't.
pub(crate) fn stepped(
    scene: &mut Scene,
    alloc: Global,
    program: &Program,
    event: &Event,
) -> Result<bool, OutOfMemory>
    requires scene { IsSceneOf (program_view program.now) scene.old }
    requires values { Holds any (scene_state scene.old) }
    ensures allowed { IfOk result (λ b. b ≡ true → Step (program_view program.now) (scene_state scene.old) (event_view event.now) (scene_state scene.new)) }
    ensures refused { IfOk result (λ b. b ≡ false → (s2 : State) → Step (program_view program.now) (scene_state scene.old) (event_view event.now) s2 → ⊥) }
    ensures unchanged { IfOk result (λ b. b ≡ false → scene.new ≡ scene.old) }
    ensures scene { OnOk result (IsSceneOf (program_view program.now) scene.new) }
{
    if !scene.admits(event) {
        return Ok(false);
    }
    apply(scene, alloc, program, event)?;
    Ok(true)
}
