//! What is made and started: a new port, a new task.
ghost use Rattle.std.specs.Prelude.{◌≡◌, option_map};
ghost use Rattle.ca_value.specs.IsValue.{any};
ghost use Rattle.ca_term.specs.Event.{port_number, made, spawned as spawned_by};
ghost use Rattle.ca_term.specs.Operation.{what_view};
ghost use Rattle.ca_meaning.specs.RunValues.{Holds};
ghost use Rattle.ca_scene.specs.Admits.{admits, asks, is_moment, is_reading, operation_makes, spawns};
ghost use Rattle.ca_scene.specs.Scene.{scene_state, IsScene};

use crate::same::{same_kind, same_port, same_what};
use crate::scene::Scene;
use crate::ticking::is_reading;
use ca_registry::seed::{kind_of, result_of};
use ca_term::event::TaskKind;
use ca_term::operation::{Op, What};
use ca_value::value::PortId;

impl Scene {
    fn wants_to_make(&self, task: u64, what: &What) -> bool
        requires scene { IsScene self.now }
        requires values { Holds any (scene_state self.now) }
        ensures { result ≡ operation_makes (what_view what.now) (asks (scene_state self.now) task) }
    {
        match self.asks(task) {
            Some(Op::Make(made)) => same_what(what, made),
            _ => false,
        }
    }

    pub(crate) fn admits_make(&self, task: u64, port: u64, what: &What, moment: Option<u64>) -> bool
        requires scene { IsScene self.now }
        requires values { Holds any (scene_state self.now) }
        ensures { result ≡ admits (scene_state self.now) (made task port (what_view what.now) moment) }
    {
        self.wants_to_make(task, what)
            && (!self.rooms.contains_key(&port)
                && (!self.registries.contains_key(&port)
                    && is_moment(self.timers.moment(), what, moment)))
    }

    fn wants_to_spawn(&self, task: u64, kind: TaskKind, port: Option<PortId>) -> bool
        requires scene { IsScene self.now }
        requires values { Holds any (scene_state self.now) }
        ensures { result ≡ spawns kind (option_map port_number port) (asks (scene_state self.now) task) }
    {
        match self.asks(task) {
            Some(Op::Spawn(seed)) => {
                same_kind(kind_of(seed), kind) && same_port(result_of(seed), port)
            }
            _ => false,
        }
    }

    pub(crate) fn admits_spawn(
        &self,
        task: u64,
        spawned: u64,
        kind: TaskKind,
        port: Option<PortId>,
    ) -> bool
        requires scene { IsScene self.now }
        requires values { Holds any (scene_state self.now) }
        ensures { result ≡ admits (scene_state self.now) (spawned_by task spawned kind (option_map port_number port)) }
    {
        self.wants_to_spawn(task, kind, port) && !self.tasks.contains_key(&spawned)
    }
}

// A timeout's Make shows a reading of the clock, the others none.
fn is_moment(now: u64, what: &What, moment: Option<u64>) -> bool
    ensures { result ≡ is_moment now (what_view what.now) moment }
{
    match what {
        What::Timeout(_) => is_reading(now, moment),
        _ => moment.is_none(),
    }
}
