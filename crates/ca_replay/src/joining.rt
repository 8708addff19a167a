//! A new wait joins the queues of its branches.
ghost use Rattle.std.specs.Prelude.{◌≡◌, ◌∷◌, [], ◌++◌, ℕ, ◌+◌, OnOk, map, false, nat_eq};
ghost use Rattle.ca_value.specs.Seq.{list};
ghost use Rattle.ca_term.specs.Event.{branch_view};
ghost use Rattle.ca_meaning.specs.Wait.{side_of, port_of, brought, is_among};
ghost use Rattle.ca_scene.specs.Scene.{handler_code_view, scene_state, IsScene};
ghost use Rattle.ca_replay.specs.Changes.{mapped_at};
ghost use Rattle.ca_replay.specs.Rooms.{room_view, rooms_kept, ends_with, handler_joined, join, join_rooms};
ghost use Rattle.ca_replay.specs.Moves.{HaveHomes, with_wait};

use ca_scene::room::{Handler, Room};
use ca_scene::scene::{Scene, Waiting};
use ca_term::event::{Branch, Side};
use ca_value::memory::OutOfMemory;
use ca_value::seq::Seq;
use ca_value::value::Value;
use indexmap::IndexMap;
use std::alloc::Global;
use std::collections::VecDeque;

/// There is a new wait of that owner, if it has one, with these branches.
pub(crate) fn join_wait(
    scene: &mut Scene,
    alloc: Global,
    wait: u64,
    owner: Option<u64>,
    branches: Seq<Branch>,
) -> Result<(), OutOfMemory>
    requires scene { IsScene scene.old }
    requires new { is_among wait (scene_state scene.old).used ≡ false }
    requires homes { HaveHomes (scene_state scene.old).channels (map branch_view (list branches)) }
    ensures state { OnOk result (scene_state scene.new ≡ with_wait wait owner (map branch_view (list branches)) (scene_state scene.old)) }
    ensures scene { OnOk result (IsScene scene.new) }
    ensures tasks { OnOk result (scene.new.tasks ≡ scene.old.tasks) }
{
    join_all(&mut scene.rooms, alloc, wait, branches.as_slice())?;
    scene.waits.insert(wait, Some(Waiting { owner, branches }))?;
    Ok(())
}

fn join_all(
    rooms: &mut IndexMap<u64, Room>,
    alloc: Global,
    wait: u64,
    branches: &[Branch],
) -> Result<(), OutOfMemory>
    ensures { OnOk result (rooms_kept rooms.new ≡ join_rooms wait 0 (map branch_view branches.now) (rooms_kept rooms.old)) }
{
    for i in 0..branches.len() {
        join_one(rooms, alloc, wait, i as u64, &branches[i])?;
    }
    Ok(())
}

fn join_one(
    rooms: &mut IndexMap<u64, Room>,
    alloc: Global,
    wait: u64,
    number: u64,
    branch: &Branch,
) -> Result<(), OutOfMemory>
    ensures { OnOk result (let b = branch_view branch.now in rooms_kept rooms.new ≡ mapped_at (rooms_kept rooms.old) (port_of b) (join (side_of b) (record { wait = wait; branch = number; value = brought b }))) }
{
    match branch {
        Branch::Take(port) => {
            let handler = Handler {
                wait,
                branch: number,
                value: Value::Nil,
            };
            join(rooms, port.n, Side::Take, handler)
        }
        Branch::Put(port, value) => {
            let handler = Handler {
                wait,
                branch: number,
                value: value.copy(alloc)?,
            };
            join(rooms, port.n, Side::Put, handler)
        }
    }
}

fn join(
    rooms: &mut IndexMap<u64, Room>,
    port: u64,
    side: Side,
    handler: Handler,
) -> Result<(), OutOfMemory>
    ensures { OnOk result ((p : ℕ) → rooms_kept rooms.new p ≡ mapped_at (rooms_kept rooms.old) port (join side (handler_code_view handler)) p) }
{
    match rooms.get_mut(&port) {
        Some(room) => join_room(room, side, handler),
        None => Ok(()),
    }
}

fn join_room(room: &mut Room, side: Side, handler: Handler) -> Result<(), OutOfMemory>
    ensures { OnOk result (room_view room.new ≡ join side (handler_code_view handler) (room_view room.old)) }
{
    match side {
        Side::Take => join_queue(&mut room.takes, handler),
        Side::Put => join_queue(&mut room.puts, handler),
    }
}

// Of each wait its first branch alone stands in a queue.
fn join_queue(queue: &mut VecDeque<Handler>, handler: Handler) -> Result<(), OutOfMemory>
    ensures { OnOk result (map handler_code_view queue.new.items ≡ handler_joined (handler_code_view handler) (map handler_code_view queue.old.items)) }
{
    if !ends_with(queue, handler.wait) {
        queue.push_back(handler)?;
    }
    Ok(())
}

// Whether the last of the queue is of that wait.
fn ends_with(queue: &VecDeque<Handler>, wait: u64) -> bool
    ensures { ends_with wait (map handler_code_view queue.now.items) ≡ result }
{
    match queue.back() {
        Some(handler) => wait == handler.wait,
        None => false,
    }
}
