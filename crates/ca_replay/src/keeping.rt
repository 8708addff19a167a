//! What a channel keeps of the values that it accepts, and what it gives.
ghost use Rattle.std.specs.Prelude.{◌≡◌, ◌∷◌, [], ◌++◌, ℕ, OnOk, map};
ghost use Rattle.ca_value.specs.Buffer.{keep_by, only_first, give_first, is_full, without_first};
ghost use Rattle.ca_value.specs.View.{view};
ghost use Rattle.ca_term.specs.Event.{branch_view};
ghost use Rattle.ca_meaning.specs.Channel.{keeping, giving};
ghost use Rattle.ca_meaning.specs.RowViews.{policy_view};
ghost use Rattle.ca_meaning.specs.Wait.{port_of};
ghost use Rattle.ca_scene.specs.Scene.{room_channel};
ghost use Rattle.ca_replay.specs.Changes.{mapped_at};
ghost use Rattle.ca_replay.specs.Rooms.{room_view, rooms_kept, by_channel, accepting, done_by, served_by};

use ca_meaning::row::Policy;
use ca_scene::room::Room;
use ca_term::event::{Branch, Side};
use ca_value::memory::OutOfMemory;
use ca_value::value::Value;
use indexmap::IndexMap;
use std::alloc::Global;
use std::collections::VecDeque;

/// A branch that is done at once: a take is given the first value that its channel holds, and a put's value is kept by
/// its channel, where that is open.
pub(crate) fn do_branch(
    rooms: &mut IndexMap<u64, Room>,
    alloc: Global,
    branch: &Branch,
) -> Result<(), OutOfMemory>
    ensures { OnOk result ((p : ℕ) → let b = branch_view branch.now in rooms_kept rooms.new p ≡ mapped_at (rooms_kept rooms.old) (port_of b) (by_channel (done_by b)) p) }
{
    match branch {
        Branch::Take(port) => {
            give_at(rooms, port.n);
            Ok(())
        }
        Branch::Put(port, value) => accept_at(rooms, port.n, value.copy(alloc)?),
    }
}

/// A waiting branch that its channel serves with a value: a take is given the channel's first value, and a put's value is
/// kept.
pub(crate) fn serve(
    rooms: &mut IndexMap<u64, Room>,
    alloc: Global,
    side: Side,
    port: u64,
    value: &Value,
) -> Result<(), OutOfMemory>
    ensures { OnOk result ((p : ℕ) → rooms_kept rooms.new p ≡ mapped_at (rooms_kept rooms.old) port (by_channel (served_by side (view value.now))) p) }
{
    match side {
        Side::Take => {
            give_at(rooms, port);
            Ok(())
        }
        Side::Put => keep_at(rooms, port, value.copy(alloc)?),
    }
}

fn give_at(rooms: &mut IndexMap<u64, Room>, port: u64)
    ensures { (p : ℕ) → rooms_kept rooms.new p ≡ mapped_at (rooms_kept rooms.old) port (by_channel giving) p }
{
    if let Some(room) = rooms.get_mut(&port) {
        give(room);
    }
}

fn keep_at(rooms: &mut IndexMap<u64, Room>, port: u64, value: Value) -> Result<(), OutOfMemory>
    ensures { OnOk result ((p : ℕ) → rooms_kept rooms.new p ≡ mapped_at (rooms_kept rooms.old) port (by_channel (λ c. keeping c (view value))) p) }
{
    match rooms.get_mut(&port) {
        Some(room) => keep(room, value),
        None => Ok(()),
    }
}

fn accept_at(rooms: &mut IndexMap<u64, Room>, port: u64, value: Value) -> Result<(), OutOfMemory>
    ensures { OnOk result ((p : ℕ) → rooms_kept rooms.new p ≡ mapped_at (rooms_kept rooms.old) port (by_channel (λ c. accepting c (view value))) p) }
{
    match rooms.get_mut(&port) {
        Some(room) => accept(room, value),
        None => Ok(()),
    }
}

// A closed channel takes no value.
fn accept(room: &mut Room, value: Value) -> Result<(), OutOfMemory>
    ensures { OnOk result (room_view room.new ≡ by_channel (λ c. accepting c (view value)) (room_view room.old)) }
{
    if room.closed {
        return Ok(());
    }
    keep(room, value)
}

fn keep(room: &mut Room, value: Value) -> Result<(), OutOfMemory>
    ensures { OnOk result (room_view room.new ≡ by_channel (λ c. keeping c (view value)) (room_view room.old)) }
{
    let full = is_full(&room.held, room.capacity);
    keep_by(&mut room.held, room.policy, full, value)
}

fn give(room: &mut Room)
    ensures { room_view room.new ≡ by_channel giving (room_view room.old) }
{
    give_by(&mut room.held, room.policy);
}

fn is_full(held: &VecDeque<Value>, capacity: u64) -> bool
    ensures { result ≡ is_full capacity (map view held.now.items) }
{
    capacity <= held.len() as u64
}

fn keep_by(
    held: &mut VecDeque<Value>,
    policy: Policy,
    full: bool,
    value: Value,
) -> Result<(), OutOfMemory>
    ensures { OnOk result (map view held.new.items ≡ keep_by (policy_view policy) full (map view held.old.items) (view value)) }
{
    match policy {
        Policy::NoBuffer | Policy::Fixed => add(held, value),
        Policy::Dropping if full => Ok(()),
        Policy::Dropping => add(held, value),
        Policy::Sliding if full => slide(held, value),
        Policy::Sliding => add(held, value),
        Policy::Promise => promise(held, value),
    }
}

fn add(held: &mut VecDeque<Value>, value: Value) -> Result<(), OutOfMemory>
    ensures { OnOk result (map view held.new.items ≡ map view held.old.items ++ view value ∷ []) }
{
    held.push_back(value)?;
    Ok(())
}

// The oldest value makes room.
fn slide(held: &mut VecDeque<Value>, value: Value) -> Result<(), OutOfMemory>
    ensures { OnOk result (map view held.new.items ≡ without_first (map view held.old.items ++ view value ∷ [])) }
{
    add(held, value)?;
    drop_first(held);
    Ok(())
}

// A promise keeps its first value.
fn promise(held: &mut VecDeque<Value>, value: Value) -> Result<(), OutOfMemory>
    ensures { OnOk result (map view held.new.items ≡ only_first (map view held.old.items) (view value)) }
{
    if held.is_empty() {
        return add(held, value);
    }
    Ok(())
}

// The first value leaves, but a promise keeps it.
fn give_by(held: &mut VecDeque<Value>, policy: Policy)
    ensures { map view held.new.items ≡ give_first (policy_view policy) (map view held.old.items) }
{
    match policy {
        Policy::NoBuffer | Policy::Fixed => drop_first(held),
        Policy::Dropping | Policy::Sliding => drop_first(held),
        Policy::Promise => {}
    }
}

fn drop_first(held: &mut VecDeque<Value>)
    ensures { map view held.new.items ≡ without_first (map view held.old.items) }
{
    let _ = held.pop_front();
}
