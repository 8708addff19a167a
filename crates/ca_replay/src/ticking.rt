//! The clock reaches a moment: the channels that are due close.
ghost use Rattle.std.specs.Prelude.{◌≡◌, ◌≤◌, length, map, true};
ghost use Rattle.ca_value.specs.Deadlines.{due, open_after};
ghost use Rattle.ca_term.specs.Event.{port_number, ticked};
ghost use Rattle.ca_term.specs.Program.{ProgramView};
ghost use Rattle.ca_meaning.specs.Steps.{Step};
ghost use Rattle.ca_scene.specs.Admits.{admits};
ghost use Rattle.ca_scene.specs.Scene.{scene_state};
ghost use Rattle.ca_replay.specs.Changes.{Passes};
ghost use Rattle.ca_replay.specs.SceneOf.{IsSceneOf};

use crate::changing::shut_all;
use ca_scene::scene::Scene;
use ca_timers::timers::Timers;
use ca_value::value::PortId;

/// The clock reaches the moment, in milliseconds, at which these ports are due.
pub(crate) fn tick(scene: &mut Scene, moment: u64, ports: &[PortId])
    requires { admits (scene_state scene.old) (ticked moment (map port_number ports.now)) ≡ true }
    ensures step { (program : ProgramView) → Step program (scene_state scene.old) (ticked moment (map port_number ports.now)) (scene_state scene.new) }
    ensures scene { (program : ProgramView) → IsSceneOf program scene.old → IsSceneOf program scene.new }
{
    shut_all(scene, ports);
    pass(scene, moment, ports.len() as u64);
}

fn pass(scene: &mut Scene, moment: u64, count: u64)
    requires later { scene.old.timers.moment ≤ moment }
    requires count { count ≡ length (due moment scene.old.timers.deadlines) }
    ensures state { Passes (scene_state scene.old) moment (scene_state scene.new) }
    ensures scene { (program : ProgramView) → IsSceneOf program scene.old → IsSceneOf program scene.new }
{
    reach(&mut scene.timers, moment, count);
}

fn reach(timers: &mut Timers, moment: u64, count: u64)
    requires later { timers.old.moment ≤ moment }
    requires count { count ≡ length (due moment timers.old.deadlines) }
    ensures deadlines { timers.new.deadlines ≡ open_after moment timers.old.deadlines }
    ensures moment { timers.new.moment ≡ moment }
{
    pop_all(timers, moment, count);
    timers.set_moment(moment);
}

// What is due, so many deadlines, leaves the timers.
fn pop_all(timers: &mut Timers, now: u64, count: u64)
    requires { count ≡ length (due now timers.old.deadlines) }
    ensures deadlines { timers.new.deadlines ≡ open_after now timers.old.deadlines }
    ensures moment { timers.new.moment ≡ timers.old.moment }
{
    // The deadlines are in order, so the first ones are due.
    let _ = timers.first();
    for place in 0..count {
        let _ = timers.pop_due(now);
    }
}
