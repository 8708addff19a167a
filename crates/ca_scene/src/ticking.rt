//! The clock: which moments it may show, and which channels are due.
ghost use Rattle.std.specs.Prelude.{◌≡◌, is_some, map, not, slice_get};
ghost use Rattle.ca_term.specs.Event.{port_number, ticked};
ghost use Rattle.ca_value.specs.Deadlines.{due};
ghost use Rattle.ca_scene.specs.Admits.{admits, is_reading};
ghost use Rattle.ca_scene.specs.Same.{same_numbers, is_number_there};
ghost use Rattle.ca_scene.specs.Scene.{scene_state};

use crate::scene::Scene;
use ca_timers::timers::Timers;
use ca_value::value::PortId;

// Moments, in milliseconds, are below it.
const MOMENTS: u64 = 1 << 62;

/// Whether the moment, where one is shown, is one that the clock may show now.
pub(crate) fn is_reading(now: u64, moment: Option<u64>) -> bool
    ensures { result ≡ is_reading now moment }
{
    match moment {
        None => false,
        Some(moment) => now <= moment && moment < MOMENTS,
    }
}

// Whether the port is the one that is due at that place, from 0.
fn is_due(timers: &Timers, moment: u64, place: u64, port: PortId) -> bool
    ensures { result ≡ is_number_there port.n (slice_get (due moment timers.now.deadlines) place) }
{
    match timers.due(moment, place) {
        Some(due) => due.n == port.n,
        None => false,
    }
}

// Whether none is due at that place, nor behind it.
fn none_due(timers: &Timers, moment: u64, place: u64) -> bool
    ensures { result ≡ not (is_some (slice_get (due moment timers.now.deadlines) place)) }
{
    match timers.due(moment, place) {
        Some(_) => false,
        None => true,
    }
}

// Whether these are the ports that are due at the moment, in order.
fn are_due(timers: &Timers, moment: u64, ports: &[PortId]) -> bool
    ensures { same_numbers (due moment timers.now.deadlines) (map port_number ports.now) ≡ result }
{
    for place in 0..ports.len() {
        if !is_due(timers, moment, place as u64, ports[place]) {
            return false;
        }
    }
    none_due(timers, moment, ports.len() as u64)
}

impl Scene {
    pub(crate) fn admits_tick(&self, moment: u64, ports: &[PortId]) -> bool
        ensures { result ≡ admits (scene_state self.now) (ticked moment (map port_number ports.now)) }
    {
        self.timers.moment() <= moment
            && (moment < MOMENTS && (are_due(&self.timers, moment, ports) && !ports.is_empty()))
    }
}
