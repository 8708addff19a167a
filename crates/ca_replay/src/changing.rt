//! Small changes of a scene. All but `insert_in` take no memory.
ghost use Rattle.std.specs.Prelude.{◌≡◌, OnOk, Some, eqb, ℕ, map, nat_eq, option_map};
ghost use Rattle.std.specs.Map.{update};
ghost use Rattle.indexmap.specs.IndexMap.{get};
ghost use Rattle.ca_term.specs.Event.{port_number};
ghost use Rattle.ca_term.specs.Program.{ProgramView};
ghost use Rattle.ca_scene.specs.Scene.{scene_state};
ghost use Rattle.ca_replay.specs.Changes.{mapped_at, room_closed, finished, Finishes, Shuts, ShutsAll, ShutsResult};
ghost use Rattle.ca_replay.specs.SceneOf.{IsSceneOf};

use ca_scene::room::Room;
use ca_scene::scene::Scene;
use ca_scene::task::{Mode, Task};
use ca_value::memory::OutOfMemory;
use ca_value::value::PortId;
use indexmap::IndexMap;

/// The task is over.
pub(crate) fn finish(scene: &mut Scene, task: u64)
    ensures state { Finishes (scene_state scene.old) task (scene_state scene.new) }
    ensures scene { (program : ProgramView) → IsSceneOf program scene.old → IsSceneOf program scene.new }
{
    finish_in(&mut scene.tasks, task);
}

fn finish_in(tasks: &mut IndexMap<u64, Task>, task: u64)
    ensures { (t : ℕ) → get nat_eq tasks.new t ≡ mapped_at (λ q. get nat_eq tasks.old q) task finished t }
{
    if let Some(task) = tasks.get_mut(&task) {
        task.mode = Mode::Over;
    }
}

/// The channel is closed, if it is there.
pub(crate) fn shut(scene: &mut Scene, port: u64)
    ensures state { Shuts (scene_state scene.old) port (scene_state scene.new) }
    ensures scene { (program : ProgramView) → IsSceneOf program scene.old → IsSceneOf program scene.new }
{
    shut_in(&mut scene.rooms, port);
}

fn shut_in(rooms: &mut IndexMap<u64, Room>, port: u64)
    ensures { (p : ℕ) → get nat_eq rooms.new p ≡ mapped_at (λ q. get nat_eq rooms.old q) port room_closed p }
{
    if let Some(room) = rooms.get_mut(&port) {
        room.closed = true;
    }
}

/// The channel of a task's result is closed, if the task has one.
pub(crate) fn shut_result(scene: &mut Scene, port: Option<PortId>)
    ensures state { ShutsResult (scene_state scene.old) (option_map port_number port) (scene_state scene.new) }
    ensures scene { (program : ProgramView) → IsSceneOf program scene.old → IsSceneOf program scene.new }
{
    match port {
        Some(port) => shut(scene, port.n),
        None => {}
    }
}

/// The channels are closed, those that are there.
pub(crate) fn shut_all(scene: &mut Scene, ports: &[PortId])
    ensures state { ShutsAll (scene_state scene.old) (map port_number ports.now) (scene_state scene.new) }
    ensures scene { (program : ProgramView) → IsSceneOf program scene.old → IsSceneOf program scene.new }
{
    for port in ports {
        shut(scene, port.n);
    }
}

/// What stands at the number from now on.
pub(crate) fn insert_in<T: Drop>(
    table: &mut IndexMap<u64, T>,
    number: u64,
    item: T,
) -> Result<(), OutOfMemory>
    ensures { OnOk result ((n : ℕ) → get nat_eq table.new n ≡ update eqb (λ q. get nat_eq table.old q) number (Some item) n) }
{
    table.insert(number, item)?;
    Ok(())
}
