//! Which operations fault before they are done, and the operation that a task asks for where it doesn't.
ghost use Rattle.std.specs.Prelude.{◌≡◌, ◌≤◌, None, Some, cond, nat_le, map, option_map};
ghost use Rattle.ca_value.specs.View.{view, trees};
ghost use Rattle.ca_value.specs.IsValue.{any};
ghost use Rattle.ca_meaning.specs.Wait.{pending};
ghost use Rattle.ca_meaning.specs.RunValues.{Holds};
ghost use Rattle.ca_term.specs.Operation.{op_view};
ghost use Rattle.ca_meaning.specs.Choice.{branches_of, branch_of};
ghost use Rattle.ca_meaning.specs.Operands.{values_in};
ghost use Rattle.ca_meaning.specs.Refusal.{crowd_of, unfit, crowded_at, crowded, has_no_default, too_many, refusal};
ghost use Rattle.ca_scene.specs.Admits.{asks};
ghost use Rattle.ca_scene.specs.Registering.{OpApart};
ghost use Rattle.ca_scene.specs.Scene.{scene_state, IsScene};

use crate::scene::Scene;
use ca_asking::operands::{port_at, port_of};
use ca_registry::fit::{bad_choice, bad_put, bad_seed, bad_what, not_a_channel};
use ca_term::event::Side;
use ca_term::fault::Fault;
use ca_term::operation::Op;
use ca_value::value::Value;

const MOST_WAITS: usize = 1_024;

impl Scene {
    // Faults that are judged before any branch is looked at.
    fn unfit(&self, op: &Op) -> Option<Fault>
        requires apart { OpApart (op_view op.now) }
        ensures { result ≡ unfit (scene_state self.now) (op_view op.now) }
    {
        match op {
            Op::Take(channel) | Op::Close(channel) => not_a_channel(self, channel),
            Op::Put(channel, value) | Op::Post(channel, value) => bad_put(self, channel, value),
            Op::Alts { ports, .. } => bad_choice(self, ports.as_slice()),
            Op::Make(what) => bad_what(self, what),
            Op::Spawn(seed) => bad_seed(self, seed),
            Op::Register(name, args) => self.bad_register(*name, args.as_slice()),
            Op::Print(_) => None,
        }
    }

    // Whether a new wait on that side of the channel would be one too many.
    #[tactic(auto, using(crate::proofs::Queues::crowd_there, crate::proofs::Queues::crowd_nowhere))]
    fn is_crowded(&self, side: Side, port: u64) -> bool
        requires { IsScene self.now }
        ensures { result ≡ nat_le 1024 (pending side port (scene_state self.now).waits) }
    {
        match self.rooms.get(&port) {
            Some(room) => MOST_WAITS <= room.waiting(side),
            None => false,
        }
    }

    fn crowded_on(&self, side: Side, port: u64) -> Option<Fault>
        requires { IsScene self.now }
        ensures { result ≡ cond (nat_le 1024 (pending side port (scene_state self.now).waits)) (Some (crowd_of side)) None }
    {
        if self.is_crowded(side, port) {
            Some(match side {
                Side::Take => Fault::TooManyTakes,
                Side::Put => Fault::TooManyPuts,
            })
        } else {
            None
        }
    }

    fn crowded_branch(&self, branch: &Value) -> Option<Fault>
        requires { IsScene self.now }
        ensures { crowded_at (scene_state self.now) (branch_of (view branch.now)) ≡ result }
    {
        match branch {
            Value::Vector(items) => self.crowded_on(Side::Put, port_at(items.as_slice(), 0).n),
            Value::Port(port) => self.crowded_on(Side::Take, port.n),
            _ => self.crowded_on(Side::Take, 0),
        }
    }

    fn crowded_branches(&self, branches: &[Value]) -> Option<Fault>
        requires { IsScene self.now }
        ensures { crowded (scene_state self.now) (map branch_of (values_in (trees branches.now))) ≡ result }
    {
        for branch in branches {
            if let Some(fault) = self.crowded_branch(branch) {
                return Some(fault);
            }
        }
        None
    }

    // The fault of a new wait of the operation's branches that would be one too many.
    fn crowded(&self, op: &Op) -> Option<Fault>
        requires { IsScene self.now }
        ensures { crowded (scene_state self.now) (branches_of (op_view op.now)) ≡ result }
    {
        match op {
            Op::Take(channel) => self.crowded_on(Side::Take, port_of(channel).n),
            Op::Put(channel, _) | Op::Post(channel, _) => {
                self.crowded_on(Side::Put, port_of(channel).n)
            }
            Op::Alts { ports, .. } => self.crowded_branches(ports.as_slice()),
            _ => None,
        }
    }

    fn too_many(&self, op: &Op) -> Option<Fault>
        requires { IsScene self.now }
        ensures { result ≡ too_many (scene_state self.now) (op_view op.now) }
    {
        if self.any_ready(op) {
            return None;
        }
        if has_no_default(op) {
            return self.crowded(op);
        }
        None
    }

    /// The fault of the operation in this state, if it has one.
    pub(crate) fn refusal(&self, op: &Op) -> Option<Fault>
        requires scene { IsScene self.now }
        requires apart { OpApart (op_view op.now) }
        ensures { result ≡ refusal (scene_state self.now) (op_view op.now) }
    {
        match self.unfit(op) {
            Some(fault) => Some(fault),
            None => self.too_many(op),
        }
    }

    /// The operation that the task stands at, where it runs and doesn't fault there.
    pub(crate) fn asks(&self, task: u64) -> Option<&Op>
        requires scene { IsScene self.now }
        requires values { Holds any (scene_state self.now) }
        ensures { option_map (λ o. op_view o.now) result ≡ asks (scene_state self.now) task }
    {
        let op = self.asked_by(task)?;
        match self.refusal(op) {
            Some(_) => None,
            None => Some(op),
        }
    }
}

fn has_no_default(op: &Op) -> bool
    ensures { result ≡ has_no_default (op_view op.now) }
{
    match op {
        Op::Alts { default, .. } => default.is_none(),
        _ => true,
    }
}
