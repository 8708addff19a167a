//! Which events a state admits: nothing changes, and no memory is taken.
ghost use Rattle.std.specs.Prelude.{◌≡◌};
ghost use Rattle.ca_value.specs.IsValue.{any};
ghost use Rattle.ca_value.specs.Seq.{list};
ghost use Rattle.ca_value.specs.View.{view};
ghost use Rattle.ca_term.specs.Event.{event_view};
ghost use Rattle.ca_meaning.specs.RunValues.{Holds};
ghost use Rattle.ca_scene.specs.Admits.{admits, asks, prints, operation_closes, posts, is_port_value};
ghost use Rattle.ca_scene.specs.Scene.{scene_state, IsScene};

use crate::choosing::Meeting;
use crate::scene::Scene;
use ca_term::event::{Ending, Event};
use ca_term::operation::Op;
use ca_value::seq::Text;
use ca_value::value::Value;

impl Scene {
    /// Whether the state admits the event. The values of the state are values, which a toggle's keys and a topic are judged
    /// by.
    pub fn admits(&self, event: &Event) -> bool
        requires scene { IsScene self.now }
        requires values { Holds any (scene_state self.now) }
        ensures { admits (scene_state self.now) (event_view event.now) ≡ result }
    {
        match event {
            Event::Make {
                task,
                port,
                what,
                moment,
            } => self.admits_make(*task, port.n, what, *moment),
            Event::Spawn {
                task,
                spawned,
                kind,
                result,
            } => self.admits_spawn(*task, *spawned, *kind, *result),
            Event::Done {
                task,
                branch,
                operation,
                answer,
            } => self.admits_done(*task, *branch, operation, answer),
            Event::Meet {
                task,
                branch,
                side,
                port,
                value,
                wait,
                other,
            } => {
                let meeting = Meeting {
                    side: *side,
                    port: port.n,
                    wait: wait.n,
                    other: *other,
                };
                self.meets_by(*task, *branch, meeting, value) && self.can_wake(wait.n)
            }
            Event::Park {
                task,
                wait,
                branches,
            } => self.parks_on(*task, branches.as_slice()) && self.is_new(wait.n),
            Event::Post {
                task,
                wait,
                port,
                value,
            } => {
                self.wants_to_post(*task, port.n, value)
                    && (!self.is_put_ready(port.n) && self.is_new(wait.n))
            }
            Event::Settle {
                wait,
                branch,
                side,
                port,
                value,
            } => self.settles(wait.n, *branch, *side, port.n, value) && self.can_wake(wait.n),
            Event::Default { task, value } => self.admits_default(*task, value),
            Event::Close { task, port } => self.admits_close(*task, port.n),
            Event::Register {
                task,
                name,
                arguments,
                answer,
            } => self.admits_register(*task, *name, arguments, answer),
            Event::Print { task, line } => self.admits_print(*task, line),
            Event::Tick { moment, ports } => self.admits_tick(*moment, ports.as_slice()),
            Event::End { task, ending } => match ending {
                Ending::Ended => self.admits_end(*task),
                Ending::Faulted {
                    fault,
                    place,
                    result,
                } => self.faults_at(*task, *fault, *place) && self.has_result(*task, *result),
            },
        }
    }

    fn admits_print(&self, task: u64, line: &Text) -> bool
        requires scene { IsScene self.now }
        requires values { Holds any (scene_state self.now) }
        ensures { result ≡ prints (list line.now) (asks (scene_state self.now) task) }
    {
        match self.asks(task) {
            Some(Op::Print(text)) => line.as_slice() == text.as_slice(),
            _ => false,
        }
    }

    fn admits_close(&self, task: u64, port: u64) -> bool
        requires scene { IsScene self.now }
        requires values { Holds any (scene_state self.now) }
        ensures { result ≡ operation_closes port (asks (scene_state self.now) task) }
    {
        match self.asks(task) {
            Some(Op::Close(channel)) => is_port(port, channel),
            _ => false,
        }
    }

    fn wants_to_post(&self, task: u64, port: u64, value: &Value) -> bool
        requires scene { IsScene self.now }
        requires values { Holds any (scene_state self.now) }
        ensures { result ≡ posts port (view value.now) (asks (scene_state self.now) task) }
    {
        match self.asks(task) {
            Some(Op::Post(channel, put)) => is_port(port, channel) && value.same(put),
            _ => false,
        }
    }
}

fn is_port(port: u64, value: &Value) -> bool
    ensures { result ≡ is_port_value port (view value.now) }
{
    match value {
        Value::Port(other) => port == other.n,
        _ => false,
    }
}
