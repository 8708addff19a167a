//! An admitted event is done.
ghost use Rattle.std.specs.Prelude.{◌≡◌, OnOk, true};
ghost use Rattle.ca_value.specs.IsValue.{any};
ghost use Rattle.ca_term.specs.Event.{event_view};
ghost use Rattle.ca_term.specs.Program.{program_view};
ghost use Rattle.ca_meaning.specs.RunValues.{Holds};
ghost use Rattle.ca_meaning.specs.Steps.{Step};
ghost use Rattle.ca_scene.specs.Admits.{admits};
ghost use Rattle.ca_scene.specs.Scene.{scene_state};
ghost use Rattle.ca_replay.specs.SceneOf.{IsSceneOf};

use crate::closing::close;
use crate::defaulting::take_default;
use crate::doing::done;
use crate::ending::end;
use crate::making::make;
use crate::meeting::{Meeting, meet};
use crate::parking::park;
use crate::posting::post;
use crate::printing::print;
use crate::registering::register;
use crate::settling::{Settling, settle};
use crate::spawning::spawn;
use crate::ticking::tick;
use ca_scene::scene::Scene;
use ca_term::event::Event;
use ca_term::program::Program;
use ca_value::memory::OutOfMemory;
use std::alloc::Global;

/// Does the admitted event: the state becomes the one that the event leads to.
pub(crate) fn apply(
    scene: &mut Scene,
    alloc: Global,
    program: &Program,
    event: &Event,
) -> Result<(), OutOfMemory>
    requires scene { IsSceneOf (program_view program.now) scene.old }
    requires values { Holds any (scene_state scene.old) }
    requires admitted { admits (scene_state scene.old) (event_view event.now) ≡ true }
    ensures step { OnOk result (Step (program_view program.now) (scene_state scene.old) (event_view event.now) (scene_state scene.new)) }
    ensures scene { OnOk result (IsSceneOf (program_view program.now) scene.new) }
{
    match event {
        Event::Make {
            task,
            port,
            what,
            moment,
        } => make(scene, alloc, program, *task, *port, what, *moment),
        Event::Spawn {
            task,
            spawned,
            kind,
            result,
        } => spawn(scene, alloc, program, *task, *spawned, *kind, *result),
        Event::Done {
            task,
            branch,
            operation,
            answer,
        } => done(scene, alloc, program, *task, *branch, operation, answer),
        Event::Meet {
            task,
            branch,
            side,
            port,
            value,
            wait,
            other,
        } => {
            let meeting = Meeting {
                branch: *branch,
                side: *side,
                port: *port,
                wait: wait.n,
                other: *other,
            };
            meet(scene, alloc, program, *task, meeting, value)
        }
        Event::Park {
            task,
            wait,
            branches,
        } => park(scene, alloc, *task, wait.n, branches.as_slice()),
        Event::Post {
            task,
            wait,
            port,
            value,
        } => post(scene, alloc, program, *task, wait.n, *port, value),
        Event::Settle {
            wait,
            branch,
            side,
            port,
            value,
        } => {
            let served = Settling {
                wait: wait.n,
                branch: *branch,
                side: *side,
                port: *port,
            };
            settle(scene, alloc, program, served, value)
        }
        Event::Default { task, value } => take_default(scene, alloc, program, *task, value),
        Event::Close { task, port } => close(scene, alloc, program, *task, port.n),
        Event::Register {
            task,
            name,
            arguments,
            answer,
        } => register(scene, alloc, program, *task, *name, arguments, answer),
        Event::Print { task, line } => print(scene, alloc, program, *task, line),
        Event::Tick { moment, ports } => {
            tick(scene, *moment, ports.as_slice());
            Ok(())
        }
        Event::End { task, ending } => {
            end(scene, *task, *ending);
            Ok(())
        }
    }
}
