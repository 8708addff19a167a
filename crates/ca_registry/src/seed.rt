//! What a journal tells of a new task, read off what it is made from.
ghost use Rattle.std.specs.Prelude.{◌≡◌, option_map};
ghost use Rattle.ca_value.specs.View.{trees};
ghost use Rattle.ca_term.specs.Event.{port_number};
ghost use Rattle.ca_term.specs.Operation.{seed_view};
ghost use Rattle.ca_meaning.specs.Operands.{values_in};
ghost use Rattle.ca_meaning.specs.TaskSteps.{kind_of, kind_of_system, last_port, result_of};

use ca_asking::operands::port_of;
use ca_term::event::TaskKind;
use ca_term::head::SystemTask;
use ca_term::operation::Seed;
use ca_value::value::{PortId, Value};

/// The kind of the new task.
pub fn kind_of(seed: &Seed) -> TaskKind
    ensures { result ≡ kind_of (seed_view seed.now) }
{
    match seed {
        Seed::Go(_) => TaskKind::Go,
        Seed::System(system) => kind_of_system(system.kind),
    }
}

// The kind without its function.
fn kind_of_system(kind: SystemTask) -> TaskKind
    ensures { result ≡ kind_of_system kind }
{
    match kind {
        SystemTask::Mult => TaskKind::Mult,
        SystemTask::Deliver => TaskKind::Deliver,
        SystemTask::Mix => TaskKind::Mix,
        SystemTask::Pub(_) => TaskKind::Pub,
        SystemTask::Pipe => TaskKind::Pipe,
        SystemTask::Merge => TaskKind::Merge,
        SystemTask::Onto => TaskKind::Onto,
        SystemTask::Feed => TaskKind::Feed,
        SystemTask::Job(_, _) => TaskKind::Job,
        SystemTask::Collect => TaskKind::Collect,
    }
}

fn last_port(values: &[Value]) -> Option<PortId>
    ensures { option_map port_number result ≡ last_port (values_in (trees values.now)) }
{
    match values.last() {
        Some(value) => Some(port_of(value)),
        None => None,
    }
}

/// The result port of the new task, if it has one: the last of the values of `onto` and of `collect`.
pub fn result_of(seed: &Seed) -> Option<PortId>
    ensures { option_map port_number result ≡ result_of (seed_view seed.now) }
{
    match seed {
        Seed::Go(go) => Some(go.result),
        Seed::System(system) => match system.kind {
            SystemTask::Onto | SystemTask::Collect => last_port(system.values.as_slice()),
            SystemTask::Mult | SystemTask::Deliver | SystemTask::Mix | SystemTask::Pub(_) => None,
            SystemTask::Pipe | SystemTask::Merge | SystemTask::Feed | SystemTask::Job(_, _) => None,
        },
    }
}
