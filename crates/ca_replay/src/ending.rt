//! Tasks that are over: their bodies have values, or they fault.
ghost use Rattle.std.specs.Prelude.{◌≡◌, true};
ghost use Rattle.ca_term.specs.Event.{over};
ghost use Rattle.ca_term.specs.Program.{ProgramView};
ghost use Rattle.ca_term.specs.declared.event.Ending.TheVariants.{Ended, Faulted};
ghost use Rattle.ca_meaning.specs.Steps.{Step};
ghost use Rattle.ca_scene.specs.Admits.{admits};
ghost use Rattle.ca_scene.specs.Scene.{scene_state};
ghost use Rattle.ca_replay.specs.SceneOf.{IsSceneOf};

use crate::changing::{finish, shut_result};
use ca_scene::scene::Scene;
use ca_term::event::Ending;
use ca_term::fault::Fault;
use ca_term::place::Place;
use ca_value::value::PortId;

/// The task is over in that way.
pub(crate) fn end(scene: &mut Scene, task: u64, ending: Ending)
    requires { admits (scene_state scene.old) (over task ending) ≡ true }
    ensures step { (program : ProgramView) → Step program (scene_state scene.old) (over task ending) (scene_state scene.new) }
    ensures scene { (program : ProgramView) → IsSceneOf program scene.old → IsSceneOf program scene.new }
{
    match ending {
        Ending::Ended => end_with_value(scene, task),
        Ending::Faulted {
            fault,
            place,
            result,
        } => end_by_fault(scene, task, fault, place, result),
    }
}

fn end_with_value(scene: &mut Scene, task: u64)
    requires { admits (scene_state scene.old) (over task Ended) ≡ true }
    ensures step { (program : ProgramView) → Step program (scene_state scene.old) (over task Ended) (scene_state scene.new) }
    ensures scene { (program : ProgramView) → IsSceneOf program scene.old → IsSceneOf program scene.new }
{
    finish(scene, task);
}

fn end_by_fault(scene: &mut Scene, task: u64, fault: Fault, place: Place, port: Option<PortId>)
    requires { admits (scene_state scene.old) (over task (Faulted fault place port)) ≡ true }
    ensures step { (program : ProgramView) → Step program (scene_state scene.old) (over task (Faulted fault place port)) (scene_state scene.new) }
    ensures scene { (program : ProgramView) → IsSceneOf program scene.old → IsSceneOf program scene.new }
{
    finish(scene, task);
    shut_result(scene, port);
}
