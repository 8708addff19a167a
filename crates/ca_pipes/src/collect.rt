ghost use Rattle.std.proofs.Common.{refl};
ghost use Rattle.std.specs.Prelude.{◌≡◌, cond};
ghost use Rattle.ca_value.specs.Seq.{list};
ghost use Rattle.ca_value.specs.View.{view, trees};
ghost use Rattle.ca_term.specs.declared.head.SystemTask.{SystemTask};
ghost use Rattle.ca_meaning.specs.Asks.{needing, items_in, to};
ghost use Rattle.ca_meaning.specs.PipelineTable.{collect_next, collect_takes, collect_closes, collect_ends, outputs_left};
ghost use Rattle.ca_meaning.specs.System.{new_system};
ghost use Rattle.ca_system.specs.Stands.{running_body, next_view};
ghost use Rattle.ca_pipes.specs.Walks.{walk_left};
ghost use Rattle.ca_pipes.specs.CollectViews.{collect_body, collect_ports_view, collect_state};

use crate::walk::Walk;
use ca_asking::operands::{is_true, port_at, truth_at};
use ca_system::asks::{closes, puts, takes};
use ca_system::operand::is_nil;
use ca_system::running::{Kind, Running};
use ca_system::stand::{Next, Stand};
use ca_term::fault::Fault;
use ca_term::place::Place;
use ca_value::memory::OutOfMemory;
use ca_value::value::{Items, PortId, Value};
use std::alloc::Global;

/// The task at the end of a pipeline: it takes the replies one after the other, and puts the outputs of each into the
/// target.
pub type Collect = Running<Ports>;

/// The channels of the task, and what closes after the last reply.
#[derive(Clone, Copy, Drop)]
pub struct Ports {
    pub(crate) replies: PortId,
    pub(crate) target: PortId,
    // Whether the target closes after the last reply.
    pub(crate) closes: bool,
    pub(crate) result: PortId,
}

/// Where the task is in its table.
#[derive(Drop)]
pub enum State {
    Takes,
    // This reply's channel.
    Opens(PortId),
    // The first of these outputs.
    Puts(Walk),
    Closes,
    Ends,
}

/// A new task: its values are the channel of replies, the target, whether the target closes after the last reply, and
/// the port that closes last.
pub fn new_collect(values: Items, place: Place) -> Collect
    ensures { running_body collect_body result ≡ new_system SystemTask.Collect (trees (list values)) place }
{
    let values = values.as_slice();
    let ports = Ports {
        replies: port_at(values, 0),
        target: port_at(values, 1),
        closes: truth_at(values, 2),
        result: port_at(values, 3),
    };
    Running::new(ports, place, Next::To(State::Takes))
}

fn go_on(outputs: Walk) -> Next<State>
    ensures { next_view collect_state result ≡ outputs_left (walk_left outputs) }
{
    if outputs.is_over() {
        Next::To(State::Takes)
    } else {
        Next::To(State::Puts(outputs))
    }
}

// What follows on a reply.
fn after_reply(answer: Value) -> Next<State>
    ensures { next_view collect_state result ≡ needing (items_in (view answer)) outputs_left }
{
    match &answer {
        Value::Vector(_) => go_on(Walk::new(answer)),
        _ => Next::Fail(Fault::WrongKind),
    }
}

impl Kind for Ports {
    type State = State;

    ghost body = { collect_body };

    fn ask(&self, alloc: Global, place: Place, state: &State) -> Result<Stand, OutOfMemory> {
        match state {
            State::Takes => Ok(takes(self.replies, place)),
            State::Opens(reply) => Ok(takes(*reply, place)),
            State::Puts(outputs) => Ok(puts(self.target, outputs.first(alloc)?, place)),
            State::Closes => Ok(closes(self.target, place)),
            State::Ends => Ok(closes(self.result, place)),
        }
    }

    fn next(
        &self,
        _alloc: Global,
        state: State,
        answer: Value,
    ) -> Result<Next<State>, OutOfMemory> {
        match state {
            State::Takes => Ok(self.after_take(answer)),
            State::Opens(_) => Ok(after_reply(answer)),
            State::Puts(outputs) => {
                if is_true(&answer) {
                    Ok(go_on(outputs.rest()))
                } else {
                    Ok(Next::To(State::Ends))
                }
            }
            State::Closes => Ok(Next::To(State::Ends)),
            State::Ends => Ok(Next::Stop),
        }
    }

    ghost ends = { λ k p. refl };

    ghost faults = { λ k p f. refl };

    ghost stays = { λ k p v. refl };

    ghost stays_faulted = { λ k p f v. refl };
}

impl Ports {
    // After the last reply.
    fn over(self) -> Next<State>
        ensures { next_view collect_state result ≡ cond self.closes (to collect_closes) (to collect_ends) }
    {
        if self.closes {
            Next::To(State::Closes)
        } else {
            Next::To(State::Ends)
        }
    }

    // What follows on a reply's channel, or on nil after the last one.
    fn after_take(self, answer: Value) -> Next<State>
        ensures { next_view collect_state result ≡ collect_next (collect_ports_view self) (view answer) collect_takes }
    {
        if is_nil(&answer) {
            return self.over();
        }
        match answer {
            Value::Port(reply) => Next::To(State::Opens(reply)),
            _ => Next::Fail(Fault::WrongKind),
        }
    }
}
