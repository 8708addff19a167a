//! A wait that is completed leaves its queues.
ghost use Rattle.std.specs.Prelude.{◌≡◌, ℕ, map, filter, drop, nat_eq};
ghost use Rattle.ca_term.specs.Event.{branch_view};
ghost use Rattle.ca_meaning.specs.Wait.{side_of, port_of};
ghost use Rattle.ca_scene.specs.Scene.{handler_code_view};
ghost use Rattle.ca_replay.specs.Changes.{mapped_at};
ghost use Rattle.ca_replay.specs.Rooms.{room_view, rooms_kept, others, starts_with, queue_after_leaving, leave, leave_all};

use ca_scene::room::{Handler, Room};
use ca_term::event::{Branch, Side};
use indexmap::IndexMap;
use std::collections::VecDeque;

/// The wait leaves the queues of its branches.
pub(crate) fn leave_all(rooms: &mut IndexMap<u64, Room>, branches: &[Branch], wait: u64)
    ensures { rooms_kept rooms.new ≡ leave_all wait (map branch_view branches.now) (rooms_kept rooms.old) }
{
    for branch in branches {
        leave_one(rooms, branch, wait);
    }
}

fn leave_one(rooms: &mut IndexMap<u64, Room>, branch: &Branch, wait: u64)
    ensures { let b = branch_view branch.now in rooms_kept rooms.new ≡ mapped_at (rooms_kept rooms.old) (port_of b) (leave (side_of b) wait) }
{
    match branch {
        Branch::Take(port) => leave(rooms, port.n, Side::Take, wait),
        Branch::Put(port, _) => leave(rooms, port.n, Side::Put, wait),
    }
}

fn leave(rooms: &mut IndexMap<u64, Room>, port: u64, side: Side, wait: u64)
    ensures { (p : ℕ) → rooms_kept rooms.new p ≡ mapped_at (rooms_kept rooms.old) port (leave side wait) p }
{
    if let Some(room) = rooms.get_mut(&port) {
        leave_room(room, side, wait);
    }
}

fn leave_room(room: &mut Room, side: Side, wait: u64)
    ensures { room_view room.new ≡ leave side wait (room_view room.old) }
{
    match side {
        Side::Take => leave_queue(&mut room.takes, wait),
        Side::Put => leave_queue(&mut room.puts, wait),
    }
}

// The wait stands in front, or somewhere behind where it is one of an alts.
fn leave_queue(queue: &mut VecDeque<Handler>, wait: u64)
    ensures { map handler_code_view queue.new.items ≡ queue_after_leaving wait (map handler_code_view queue.old.items) }
{
    if starts_with(queue, wait) {
        drop_first(queue);
    } else {
        drop_all(queue, wait);
    }
}

fn drop_first(queue: &mut VecDeque<Handler>)
    ensures { map handler_code_view queue.new.items ≡ drop 1 (map handler_code_view queue.old.items) }
{
    let _ = queue.pop_front();
}

fn drop_all(queue: &mut VecDeque<Handler>, wait: u64)
    ensures { map handler_code_view queue.new.items ≡ filter (others wait) (map handler_code_view queue.old.items) }
{
    queue.retain(|handler| handler.wait != wait);
}

// Whether the first of the queue is of that wait.
fn starts_with(queue: &VecDeque<Handler>, wait: u64) -> bool
    ensures { starts_with wait (map handler_code_view queue.now.items) ≡ result }
{
    match queue.front() {
        Some(handler) => wait == handler.wait,
        None => false,
    }
}
