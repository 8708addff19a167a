//! A task: its body at rest, and where that stands.
ghost use Rattle.std.specs.Prelude.{◌≡◌, option_map};
ghost use Rattle.ca_term.specs.Operation.{op_view};
ghost use Rattle.ca_meaning.specs.Task.{body_at};
ghost use Rattle.ca_scene.specs.Admits.{op_of};
ghost use Rattle.ca_scene.specs.Scene.{task_body, IsStandingShown};

use ca_meaning::body::Body;
use ca_system_tasks::table::SystemTable;
use ca_term::fault::Fault;
use ca_term::operation::{Op, Want};
use ca_term::place::Place;
use ca_value::value::PortId;

/// What a task does: a script's text, as a term that is rewritten whole, or a system task, as a table of states.
#[derive(Drop)]
pub enum TaskBody {
    Script(Body),
    System(SystemTable),
}

/// Where a body at rest stands.
#[derive(Drop)]
pub enum Standing {
    AtOp(Want),
    Ended,
    Faulted(Fault, Place),
}

/// Whether a task runs, waits on the wait of that number, or is over.
#[derive(Clone, Copy)]
pub enum Mode {
    Running,
    Waiting(u64),
    Over,
}

/// A task. Where its body stands is kept beside it, so that nothing has to be searched or copied to judge an event.
#[derive(Drop)]
pub struct Task {
    pub result: Option<PortId>,
    pub body: TaskBody,
    pub standing: Standing,
    pub mode: Mode,
}

impl Task {
    /// The operation that its body stands at.
    pub fn asked(&self) -> Option<&Op>
        requires { IsStandingShown self.now }
        ensures { option_map (λ o. op_view o.now) result ≡ op_of (body_at (task_body self.now.body)) }
    {
        match &self.standing {
            Standing::AtOp(want) => Some(&want.op),
            Standing::Ended | Standing::Faulted(_, _) => None,
        }
    }

    /// Lets the task go, part by part. Where one is let go in place, a proof meets each kind of body beside each operation.
    pub fn let_go(self) {
        let Task { body, standing, .. } = self;
        let_go_body(body);
        let_go_standing(standing);
    }
}

fn let_go_body(_body: TaskBody) {}

fn let_go_standing(_standing: Standing) {}
