//! The events of an operation that puts, takes or chooses: whether a branch is done at once, meets a wait, or waits.
ghost use Rattle.std.specs.Prelude.{◌≡◌, ℕ, Some, option_map, map};
ghost use Rattle.ca_value.specs.IsValue.{any};
ghost use Rattle.ca_value.specs.View.{view, trees};
ghost use Rattle.ca_term.specs.Event.{branch_view};
ghost use Rattle.ca_term.specs.Operation.{op_view};
ghost use Rattle.ca_meaning.specs.Choice.{row, branch_of};
ghost use Rattle.ca_meaning.specs.Operands.{values_in};
ghost use Rattle.ca_meaning.specs.RunValues.{Holds};
ghost use Rattle.ca_scene.specs.Admits.{asks, completes_with, meets_so, ready_before, may_pick, completes_branch, parks_on, defaults_to, meets_at, meets_by};
ghost use Rattle.ca_scene.specs.Look.{look_view};
ghost use Rattle.ca_scene.specs.Scene.{scene_state, IsScene};

use crate::branch::{
    Look, branch_at, is_branch, is_default, is_some_default, parks, same_branches,
};
use crate::scene::Scene;
use ca_term::event::{Branch, Side};
use ca_term::operation::Op;
use ca_value::value::Value;

/// A meeting: the side and the channel of the task's branch, the wait that is met, and the number of its branch.
#[derive(Clone, Copy)]
pub(crate) struct Meeting {
    pub(crate) side: Side,
    pub(crate) port: u64,
    pub(crate) wait: u64,
    pub(crate) other: u64,
}

impl Scene {
    // Whether the branch is done at once with that answer.
    fn completes(&self, look: &Look<'_>, answer: &Value) -> bool
        requires { IsScene self.now }
        ensures { completes_with (view answer.now) (row (scene_state self.now) (look_view look.now)) ≡ result }
    {
        match look {
            Look::Take(port) => match self.rooms.get(port) {
                Some(room) => room.completes_take(answer),
                None => false,
            },
            Look::Put(port, _) => match self.rooms.get(port) {
                Some(room) => room.completes_put(answer),
                None => false,
            },
        }
    }

    // Whether the branch meets that branch of that wait, and this value passes.
    fn meets(&self, look: &Look<'_>, value: &Value, wait: u64, branch: u64) -> bool
        requires { IsScene self.now }
        ensures { meets_so (view value.now) wait branch (row (scene_state self.now) (look_view look.now)) ≡ result }
    {
        match look {
            Look::Take(port) => match self.rooms.get(port) {
                Some(room) => room.meets_take(value, wait, branch),
                None => false,
            },
            Look::Put(port, put) => match self.rooms.get(port) {
                Some(room) => room.meets_put(value, wait, branch, put),
                None => false,
            },
        }
    }

    // Whether some branch before that place is ready.
    #[tactic(auto, using(crate::proofs::Branches::before_taken, crate::proofs::Branches::before_all))]
    fn ready_before(&self, ports: &[Value], place: u64) -> bool
        requires { IsScene self.now }
        ensures { ready_before (scene_state self.now) place (map branch_of (values_in (trees ports.now))) ≡ result }
    {
        if place < ports.len() as u64 {
            self.any_branch_ready(&ports[..place as usize])
        } else {
            self.any_branch_ready(ports)
        }
    }

    fn may_pick(&self, op: &Op, place: u64) -> bool
        requires { IsScene self.now }
        ensures { may_pick (scene_state self.now) (op_view op.now) place ≡ result }
    {
        match op {
            Op::Alts {
                ports,
                priority,
                ..
            } => !(*priority && self.ready_before(ports.as_slice(), place)),
            _ => true,
        }
    }

    pub(crate) fn admits_done(&self, task: u64, place: u64, branch: &Branch, answer: &Value) -> bool
        requires scene { IsScene self.now }
        requires values { Holds any (scene_state self.now) }
        ensures { result ≡ completes_branch (scene_state self.now) place (branch_view branch.now) (view answer.now) (asks (scene_state self.now) task) }
    {
        let nil = Value::Nil;
        match self.asks(task) {
            None => false,
            Some(op) => {
                is_branch(branch, &branch_at(op, place, &nil))
                    && (self.may_pick(op, place) && self.completes(&Look::of(branch), answer))
            }
        }
    }

    fn meets_at(&self, look: &Option<Look<'_>>, meeting: Meeting, value: &Value) -> bool
        requires { IsScene self.now }
        ensures { result ≡ meets_at (scene_state self.now) meeting.side meeting.port (view value.now) meeting.wait meeting.other (option_map look_view look.now) }
    {
        match look {
            None => false,
            Some(look) => {
                look.is_on(meeting.side)
                    && (look.port() == meeting.port
                        && self.meets(look, value, meeting.wait, meeting.other))
            }
        }
    }

    pub(crate) fn meets_by(&self, task: u64, place: u64, meeting: Meeting, value: &Value) -> bool
        requires scene { IsScene self.now }
        requires values { Holds any (scene_state self.now) }
        ensures { result ≡ meets_by (scene_state self.now) place meeting.side meeting.port (view value.now) meeting.wait meeting.other (asks (scene_state self.now) task) }
    {
        let nil = Value::Nil;
        match self.asks(task) {
            None => false,
            Some(op) => {
                self.may_pick(op, place)
                    && self.meets_at(&branch_at(op, place, &nil), meeting, value)
            }
        }
    }

    pub(crate) fn parks_on(&self, task: u64, branches: &[Branch]) -> bool
        requires scene { IsScene self.now }
        requires values { Holds any (scene_state self.now) }
        ensures { result ≡ parks_on (scene_state self.now) (map branch_view branches.now) (asks (scene_state self.now) task) }
    {
        match self.asks(task) {
            None => false,
            Some(op) => {
                parks(op)
                    && (same_branches(branches, op)
                        && (!is_some_default(op) && !self.any_ready(op)))
            }
        }
    }

    pub(crate) fn admits_default(&self, task: u64, value: &Value) -> bool
        requires scene { IsScene self.now }
        requires values { Holds any (scene_state self.now) }
        ensures { result ≡ defaults_to (scene_state self.now) (view value.now) (asks (scene_state self.now) task) }
    {
        match self.asks(task) {
            None => false,
            Some(op) => is_default(value, op) && !self.any_ready(op),
        }
    }
}
