//! A task makes a port: a channel, a timeout, or a registry.
ghost use Rattle.std.specs.Prelude.{◌≡◌, None, OnOk, Some, ◌+◌, ◌-◌, ◌^◌, min, option_map, true, unwrap_or};
ghost use Rattle.ca_term.specs.Event.{made};
ghost use Rattle.ca_term.specs.Operation.{what_view};
ghost use Rattle.ca_term.specs.Program.{ProgramView, program_view};
ghost use Rattle.ca_meaning.specs.Channel.{channel_made, new_channel, with_buffer};
ghost use Rattle.ca_meaning.specs.Registry.{registry_made};
ghost use Rattle.ca_meaning.specs.RowViews.{policy_view};
ghost use Rattle.ca_meaning.specs.Steps.{Step};
ghost use Rattle.ca_meaning.specs.TaskSteps.{IsMoment, with_deadline};
ghost use Rattle.ca_registry.specs.Registry.{registry_view};
ghost use Rattle.ca_scene.specs.Admits.{admits};
ghost use Rattle.ca_scene.specs.Scene.{room_channel, scene_state};
ghost use Rattle.ca_replay.specs.Changes.{AreUnattended, IsUnattended, PutsChannel, PutsRegistry, OpensDeadline};
ghost use Rattle.ca_replay.specs.SceneOf.{IsSceneOf};

use crate::changing::insert_in;
use crate::going::go_on;
use ca_asking::operands::port_of;
use ca_meaning::row::Policy;
use ca_registry::registry::Registry;
use ca_scene::room::Room;
use ca_scene::scene::Scene;
use ca_term::operation::What;
use ca_term::program::Program;
use ca_timers::timers::Timers;
use ca_value::memory::OutOfMemory;
use ca_value::value::{PortId, Value};
use std::alloc::Global;
use std::collections::VecDeque;

// No moment is later, in milliseconds.
const LAST_MOMENT: u64 = 0x3fff_ffff_ffff_ffff;

/// The task makes what is told at the new port; a timeout shows the moment of its making, in milliseconds.
pub(crate) fn make(
    scene: &mut Scene,
    alloc: Global,
    program: &Program,
    task: u64,
    port: PortId,
    what: &What,
    moment: Option<u64>,
) -> Result<(), OutOfMemory>
    requires scene { IsSceneOf (program_view program.now) scene.old }
    requires admitted { admits (scene_state scene.old) (made task port.n (what_view what.now) moment) ≡ true }
    ensures step { OnOk result (Step (program_view program.now) (scene_state scene.old) (made task port.n (what_view what.now) moment) (scene_state scene.new)) }
    ensures scene { OnOk result (IsSceneOf (program_view program.now) scene.new) }
{
    go_on(scene, alloc, program, task, Value::Port(port))?;
    put_channel(scene, port.n, room_for(alloc, what))?;
    put_registry(scene, port.n, registry_for(alloc, what))?;
    time(scene, port, what, moment)?;
    Ok(())
}

// The new channel, where what is made is one.
fn room_for(alloc: Global, what: &What) -> Option<Room>
    ensures channel { option_map room_channel result ≡ channel_made (what_view what.now) }
    ensures empty { AreUnattended result }
{
    match what {
        What::Unbuffered | What::Timeout(_) => Some(new_room(alloc, Policy::NoBuffer, 0)),
        What::Fixed(n) => Some(buffered(alloc, Policy::Fixed, *n)),
        What::Dropping(n) => Some(buffered(alloc, Policy::Dropping, *n)),
        What::Sliding(n) => Some(buffered(alloc, Policy::Sliding, *n)),
        What::Promise => Some(new_room(alloc, Policy::Promise, 1)),
        What::Mult(_) | What::Mix(_, _) | What::Pub(_) => None,
    }
}

// A buffer of 0 is none.
#[tactic(auto, using(crate::proofs::Made::with_some))]
fn buffered(alloc: Global, policy: Policy, capacity: u64) -> Room
    ensures channel { room_channel result ≡ with_buffer (policy_view policy) capacity }
    ensures empty { IsUnattended result }
{
    if capacity == 0 {
        new_room(alloc, Policy::NoBuffer, 0)
    } else {
        new_room(alloc, policy, capacity)
    }
}

fn new_room(alloc: Global, policy: Policy, capacity: u64) -> Room
    ensures channel { room_channel result ≡ new_channel (policy_view policy) capacity }
    ensures empty { IsUnattended result }
{
    Room {
        policy,
        capacity,
        held: VecDeque::new(alloc),
        closed: false,
        takes: VecDeque::new(alloc),
        puts: VecDeque::new(alloc),
    }
}

// The new registry, where what is made is one.
fn registry_for(alloc: Global, what: &What) -> Option<Registry>
    ensures { option_map registry_view result ≡ registry_made (what_view what.now) }
{
    match what {
        What::Mult(source) => Some(Registry::mult(alloc, port_of(source))),
        What::Mix(out, changes) => Some(Registry::mix(alloc, port_of(out), port_of(changes))),
        What::Pub(source) => Some(Registry::publication(alloc, port_of(source))),
        What::Unbuffered | What::Timeout(_) | What::Promise => None,
        What::Fixed(_) | What::Dropping(_) | What::Sliding(_) => None,
    }
}

fn put_channel(scene: &mut Scene, port: u64, room: Option<Room>) -> Result<(), OutOfMemory>
    requires new { (scene_state scene.old).channels port ≡ None }
    requires empty { AreUnattended room }
    ensures state { OnOk result (PutsChannel (scene_state scene.old) port (option_map room_channel room) (scene_state scene.new)) }
    ensures scene { OnOk result ((program : ProgramView) → IsSceneOf program scene.old → IsSceneOf program scene.new) }
{
    match room {
        Some(room) => put_room(scene, port, room),
        None => Ok(()),
    }
}

fn put_room(scene: &mut Scene, port: u64, room: Room) -> Result<(), OutOfMemory>
    requires new { (scene_state scene.old).channels port ≡ None }
    requires empty { IsUnattended room }
    ensures state { OnOk result (PutsChannel (scene_state scene.old) port (Some (room_channel room)) (scene_state scene.new)) }
    ensures scene { OnOk result ((program : ProgramView) → IsSceneOf program scene.old → IsSceneOf program scene.new) }
{
    insert_in(&mut scene.rooms, port, room)?;
    Ok(())
}

fn put_registry(scene: &mut Scene, port: u64, registry: Option<Registry>) -> Result<(), OutOfMemory>
    requires new { (scene_state scene.old).registries port ≡ None }
    ensures state { OnOk result (PutsRegistry (scene_state scene.old) port (option_map registry_view registry) (scene_state scene.new)) }
    ensures scene { OnOk result ((program : ProgramView) → IsSceneOf program scene.old → IsSceneOf program scene.new) }
{
    match registry {
        Some(registry) => put_one(scene, port, registry),
        None => Ok(()),
    }
}

fn put_one(scene: &mut Scene, port: u64, registry: Registry) -> Result<(), OutOfMemory>
    ensures state { OnOk result (PutsRegistry (scene_state scene.old) port (Some (registry_view registry)) (scene_state scene.new)) }
    ensures scene { OnOk result ((program : ProgramView) → IsSceneOf program scene.old → IsSceneOf program scene.new) }
{
    insert_in(&mut scene.registries, port, registry)?;
    Ok(())
}

fn time(
    scene: &mut Scene,
    port: PortId,
    what: &What,
    moment: Option<u64>,
) -> Result<(), OutOfMemory>
    requires { IsMoment scene.old.timers.moment (what_view what.now) moment }
    ensures state { OnOk result (OpensDeadline (scene_state scene.old) port.n (what_view what.now) moment (scene_state scene.new)) }
    ensures scene { OnOk result ((program : ProgramView) → IsSceneOf program scene.old → IsSceneOf program scene.new) }
{
    open(&mut scene.timers, port, what, moment)?;
    Ok(())
}

// A timeout opens its deadline, and the moment of its making is reached.
fn open(
    timers: &mut Timers,
    port: PortId,
    what: &What,
    moment: Option<u64>,
) -> Result<(), OutOfMemory>
    requires { IsMoment timers.old.moment (what_view what.now) moment }
    ensures deadlines { OnOk result (timers.new.deadlines ≡ with_deadline port.n (what_view what.now) (unwrap_or moment timers.old.moment) timers.old.deadlines) }
    ensures moment { OnOk result (timers.new.moment ≡ unwrap_or moment timers.old.moment) }
{
    let What::Timeout(milliseconds) = what else {
        return Ok(());
    };
    let Some(now) = moment else { unreachable!() };
    timers.reserve()?;
    timers.add(deadline(*milliseconds, now), port);
    timers.set_moment(now);
    Ok(())
}

// When a timeout of so many milliseconds is due that is made at the moment.
fn deadline(milliseconds: u64, moment: u64) -> u64
    ensures { result ≡ min (moment + milliseconds) (2 ^ 62 - 1) }
{
    moment.saturating_add(milliseconds).min(LAST_MOMENT)
}
