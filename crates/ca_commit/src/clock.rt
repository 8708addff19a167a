//! The clock reaches a moment: the channels of the due timeouts close.

ghost use Rattle.std.specs.Prelude.{◌≡◌, ◌≢◌, ◌≤◌, ℕ, [], IfNone, IfOk, IfSome, IsSome, OnOk, Some, length, map, option_map};
ghost use Rattle.ca_value.specs.Deadlines.{due, open_after};
ghost use Rattle.ca_value.specs.Seq.{list};
ghost use Rattle.ca_term.specs.Event.{event_view, port_number, ticked};
ghost use Rattle.ca_commit.specs.Making.{KeepsOthers};
ghost use Rattle.ca_commit.specs.NewPort.{KeepsCounts, times_in};
ghost use Rattle.ca_commit.specs.Showing.{channels_held, registries_held};
ghost use Rattle.ca_commit.specs.Ticking.{IsLater, IsMadeToTick, closed_all, due_in, numbers_of_ports, ticked_at};

use crate::changing::close;
use crate::held::{Banks, Held};
use ca_term::event::Event;
use ca_timers::timers::Timers;
use ca_value::memory::OutOfMemory;
use ca_value::seq::Seq;
use ca_value::value::PortId;
use std::alloc::Global;

// The ports that are due, in their order.
fn due_ports(alloc: Global, timers: &Timers, now: u64) -> Result<Seq<PortId>, OutOfMemory>
    ensures { IfOk result (λ s. numbers_of_ports s ≡ due now timers.now.deadlines) }
{
    let mut ports = Seq::new(alloc);
    while let Some(port) = timers.due(now, ports.len()) {
        ports.reserve(1)?;
        ports.push(port);
    }
    Ok(ports)
}

fn due_of(alloc: Global, timers: &Option<Timers>, now: u64) -> Result<Seq<PortId>, OutOfMemory>
    ensures { IfOk result (λ s. numbers_of_ports s ≡ due_in timers.now now) }
{
    match timers {
        Some(timers) => due_ports(alloc, timers, now),
        None => Ok(Seq::new(alloc)),
    }
}

fn close_all(banks: &mut Banks, ports: &[PortId])
    ensures channels { (i : ℕ) → channels_held banks.new i ≡ closed_all (map port_number ports.now) (channels_held banks.old) i }
    ensures registries { (i : ℕ) → registries_held banks.new i ≡ registries_held banks.old i }
{
    for port in ports {
        close(banks, *port);
    }
}

// What is due, so many deadlines, leaves the timers.
fn pop_all(timers: &mut Timers, now: u64, count: u64)
    requires { count ≡ length (due now timers.old.deadlines) }
    ensures deadlines { timers.new.deadlines ≡ open_after now timers.old.deadlines }
    ensures moment { timers.new.moment ≡ timers.old.moment }
{
    // The deadlines are in order, so the first ones are due.
    let _ = timers.first();
    for place in 0..count {
        let _ = timers.pop_due(now);
    }
}

fn pass(timers: &mut Option<Timers>, now: u64, count: u64)
    requires later { IsLater timers.old now }
    requires count { count ≡ length (due_in timers.old now) }
    ensures { times_in timers.new ≡ option_map (ticked_at now) (times_in timers.old) }
{
    match timers {
        Some(timers) => {
            pop_all(timers, now, count);
            timers.set_moment(now);
        }
        None => {}
    }
}

fn made_ports(slot: &mut Option<Seq<PortId>>) -> Seq<PortId>
    requires { IsSome slot.old }
    ensures { slot.old ≡ Some result }
{
    match slot.take() {
        Some(ports) => ports,
        None => unreachable!(),
    }
}

/// Makes what the tick of that moment needs: the list of the ports that are due. Nothing else changes.
pub fn reserve_tick<A: Drop>(alloc: Global, held: &mut Held<A>, now: u64) -> Result<(), OutOfMemory>
    ensures banks { held.new.banks ≡ held.old.banks }
    ensures others { KeepsOthers held.old held.new }
    ensures made { OnOk result (IsMadeToTick held.new now) }
{
    held.spare.ports = Some(due_of(alloc, &held.timers, now)?);
    Ok(())
}

/// The tick of that moment: the channels that are due close. None exactly where none is due. It takes no memory.
pub fn tick<A: Drop>(held: &mut Held<A>, now: u64) -> Option<Event>
    requires later { IsLater held.old.timers now }
    requires made { IsMadeToTick held.old now }
    ensures some { IfSome result (λ e. (event_view e ≡ ticked now (due_in held.old.timers now)) × (due_in held.old.timers now ≢ []) × (times_in held.new.timers ≡ option_map (ticked_at now) (times_in held.old.timers))) }
    ensures none { IfNone result ((due_in held.old.timers now ≡ []) × (times_in held.new.timers ≡ times_in held.old.timers)) }
    ensures channels { (i : ℕ) → channels_held held.new.banks i ≡ closed_all (due_in held.old.timers now) (channels_held held.old.banks) i }
    ensures registries { (i : ℕ) → registries_held held.new.banks i ≡ registries_held held.old.banks i }
    ensures shards { held.new.shards ≡ held.old.shards }
    ensures ready { held.new.ready ≡ held.old.ready }
    ensures counts { KeepsCounts held.old held.new }
{
    let ports = made_ports(&mut held.spare.ports);
    if ports.is_empty() {
        return None;
    }
    close_all(&mut held.banks, ports.as_slice());
    pass(&mut held.timers, now, ports.len());
    Some(Event::Tick { moment: now, ports })
}
