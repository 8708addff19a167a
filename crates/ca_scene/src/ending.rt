//! The ends of tasks: whether a body has a value, and at which fault it stands.
ghost use Rattle.std.specs.Prelude.{◌≡◌, Some, option_map};
ghost use Rattle.ca_value.specs.IsValue.{any};
ghost use Rattle.ca_term.specs.Event.{port_number};
ghost use Rattle.ca_meaning.specs.RunValues.{Holds};
ghost use Rattle.ca_scene.specs.Admits.{is_ended, is_fault, faults_at, has_result, standing_of};
ghost use Rattle.ca_scene.specs.Scene.{scene_state, tasks_of, IsScene};

use crate::same::{same_fault, same_place, same_port};
use crate::scene::Scene;
use crate::task::Standing;
use ca_term::fault::Fault;
use ca_term::place::Place;
use ca_value::value::PortId;

// Whether it is that fault at that place.
fn is_fault(fault: Fault, place: Place, other: Fault, elsewhere: Place) -> bool
    ensures { result ≡ is_fault fault place (Some (other, elsewhere)) }
{
    same_fault(fault, other) && same_place(place, elsewhere)
}

impl Scene {
    #[tactic(auto, using(crate::proofs::Ends::ended_seen))]
    pub(crate) fn admits_end(&self, task: u64) -> bool
        requires { IsScene self.now }
        ensures { is_ended (standing_of (tasks_of self.now task)) ≡ result }
    {
        match self.standing(task) {
            Some(Standing::Ended) => true,
            _ => false,
        }
    }

    /// Whether the task stands at that fault at that place.
    #[tactic(auto, using(crate::proofs::Ends::faults_seen))]
    pub(crate) fn faults_at(&self, task: u64, fault: Fault, place: Place) -> bool
        requires scene { IsScene self.now }
        requires values { Holds any (scene_state self.now) }
        ensures { faults_at (scene_state self.now) fault place (standing_of (tasks_of self.now task)) ≡ result }
    {
        match self.standing(task) {
            Some(Standing::Faulted(other, elsewhere)) => is_fault(fault, place, *other, *elsewhere),
            Some(Standing::AtOp(want)) => match self.refusal(&want.op) {
                Some(other) => is_fault(fault, place, other, want.place),
                None => false,
            },
            _ => false,
        }
    }

    /// Whether that is the task's result port, or none where it has none.
    pub(crate) fn has_result(&self, task: u64, port: Option<PortId>) -> bool
        ensures { has_result (option_map port_number port) (tasks_of self.now task) ≡ result }
    {
        match self.tasks.get(&task) {
            Some(task) => same_port(task.result, port),
            None => false,
        }
    }
}
