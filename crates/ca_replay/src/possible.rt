//! Whether a run can go on.
ghost use Rattle.std.specs.Prelude.{◌≡◌, ◌≢◌, ◌↔◌, [], slice_get, IsTrue};
ghost use Rattle.ca_scene.specs.Scene.{scene_state, IsScene};
ghost use Rattle.ca_replay.specs.Possible.{goes_at, room_settles, runs_there, settles_there, CanGoOn};

use ca_meaning::row::Policy;
use ca_scene::room::Room;
use ca_scene::scene::Scene;
use ca_scene::task::Mode;
use ca_term::event::Side;

/// Whether a task runs, a channel completes a wait by itself, or a deadline is open: one pass over the tasks and the
/// channels, without memory.
pub(crate) fn can_go_on(scene: &Scene) -> bool
    requires { IsScene scene.now }
    ensures { IsTrue result ↔ CanGoOn (scene_state scene.now) }
{
    let tasks = scene.tasks.len();
    let rooms = scene.rooms.len();
    for place in 0..tasks.max(rooms) {
        if goes_at(scene, place) {
            return true;
        }
    }
    is_dated(scene)
}

// Whether the task at that place runs, or the channel at that place completes a wait.
fn goes_at(scene: &Scene, place: usize) -> bool
    ensures { result ≡ goes_at scene.now place }
{
    runs_there(scene, place) || settles_there(scene, place)
}

fn runs_there(scene: &Scene, place: usize) -> bool
    ensures { result ≡ runs_there (slice_get scene.now.tasks.entries place) }
{
    match scene.tasks.get_index(place) {
        Some((_, task)) => matches!(task.mode, Mode::Running),
        None => false,
    }
}

fn settles_there(scene: &Scene, place: usize) -> bool
    ensures { result ≡ settles_there (slice_get scene.now.rooms.entries place) }
{
    match scene.rooms.get_index(place) {
        Some((_, room)) => room_settles(room),
        None => false,
    }
}

// A put that waits moves into a fixed buffer with room; else a taker gets what is held, or nil once the channel is closed.
fn room_settles(room: &Room) -> bool
    ensures { room_settles room.now ≡ result }
{
    if let Policy::Fixed = room.policy {
        if room.has_room() && room.front(Side::Put).is_some() {
            return true;
        }
    }
    room.front(Side::Take).is_some() && (!room.held.is_empty() || room.closed)
}

// Whether a deadline is open.
fn is_dated(scene: &Scene) -> bool
    ensures { IsTrue result ↔ ((scene_state scene.now).deadlines ≢ []) }
{
    scene.timers.first().is_some()
}
