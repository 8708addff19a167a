//! Whether an operation's branches are ready.
ghost use Rattle.std.specs.Prelude.{◌≡◌, ℕ, map};
ghost use Rattle.ca_value.specs.Tree.{Tree};
ghost use Rattle.ca_value.specs.View.{view, trees};
ghost use Rattle.ca_term.specs.Event.{take_of, put_of};
ghost use Rattle.ca_term.specs.Operation.{op_view};
ghost use Rattle.ca_meaning.specs.Choice.{row, is_ready, any_ready, branch_of, branches_of};
ghost use Rattle.ca_meaning.specs.Operands.{values_in};
ghost use Rattle.ca_scene.specs.Scene.{scene_state, IsScene};

use crate::scene::Scene;
use ca_asking::operands::{port_at, port_of};
use ca_term::operation::Op;
use ca_value::value::Value;

impl Scene {
    pub(crate) fn is_put_ready(&self, port: u64) -> bool
        requires { IsScene self.now }
        ensures { (v : Tree) → is_ready (row (scene_state self.now) (put_of port v)) ≡ result }
    {
        match self.rooms.get(&port) {
            None => false,
            Some(room) => room.takes_put(),
        }
    }

    #[tactic(auto, using(crate::proofs::Queues::take_there))]
    fn is_take_ready(&self, port: u64) -> bool
        requires { IsScene self.now }
        ensures { is_ready (row (scene_state self.now) (take_of port)) ≡ result }
    {
        match self.rooms.get(&port) {
            None => false,
            Some(room) => room.gives_take(),
        }
    }

    // A port is a take, a pair of a port and a value a put.
    fn is_branch_ready(&self, branch: &Value) -> bool
        requires { IsScene self.now }
        ensures { is_ready (row (scene_state self.now) (branch_of (view branch.now))) ≡ result }
    {
        match branch {
            Value::Vector(items) => self.is_put_ready(port_at(items.as_slice(), 0).n),
            Value::Port(port) => self.is_take_ready(port.n),
            _ => self.is_take_ready(0),
        }
    }

    pub(crate) fn any_branch_ready(&self, branches: &[Value]) -> bool
        requires { IsScene self.now }
        ensures { any_ready (scene_state self.now) (map branch_of (values_in (trees branches.now))) ≡ result }
    {
        for branch in branches {
            if self.is_branch_ready(branch) {
                return true;
            }
        }
        false
    }

    /// Whether some branch of the operation is ready.
    pub(crate) fn any_ready(&self, op: &Op) -> bool
        requires { IsScene self.now }
        ensures { any_ready (scene_state self.now) (branches_of (op_view op.now)) ≡ result }
    {
        match op {
            Op::Take(channel) => self.is_take_ready(port_of(channel).n),
            Op::Put(channel, _) | Op::Post(channel, _) => self.is_put_ready(port_of(channel).n),
            Op::Alts { ports, .. } => self.any_branch_ready(ports.as_slice()),
            _ => false,
        }
    }
}
