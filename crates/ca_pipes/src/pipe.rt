ghost use Rattle.std.proofs.Common.{refl};
ghost use Rattle.std.specs.Prelude.{◌≡◌};
ghost use Rattle.ca_value.specs.Seq.{list};
ghost use Rattle.ca_value.specs.View.{view, trees};
ghost use Rattle.ca_term.specs.declared.head.SystemTask.{SystemTask};
ghost use Rattle.ca_meaning.specs.PipeTable.{pipe_next, pipe_takes};
ghost use Rattle.ca_meaning.specs.System.{new_system};
ghost use Rattle.ca_system.specs.Stands.{running_body, next_view};
ghost use Rattle.ca_pipes.specs.PipeViews.{pipe_body, pipe_ports_view, pipe_state};

use ca_asking::operands::{is_true, port_at, truth_at};
use ca_system::asks::{closes, puts, takes};
use ca_system::operand::is_nil;
use ca_system::running::{Kind, Running};
use ca_system::stand::{Next, Stand};
use ca_term::place::Place;
use ca_value::memory::OutOfMemory;
use ca_value::value::{Items, PortId, Value};
use std::alloc::Global;

/// The task of `pipe`: what it takes from one channel it puts into another.
pub type Pipe = Running<Ports>;

/// The channels of a pipe.
#[derive(Clone, Copy, Drop)]
pub struct Ports {
    pub(crate) source: PortId,
    pub(crate) target: PortId,
    // Whether the end of the source closes the target.
    pub(crate) closes: bool,
}

/// Where a pipe is in its table.
#[derive(Drop)]
pub enum State {
    Takes,
    /// This value.
    Puts(Value),
    Closes,
}

/// A new task: its values are the source, the target, and whether the target closes at the end of the source.
pub fn new_pipe(values: Items, place: Place) -> Pipe
    ensures { running_body pipe_body result ≡ new_system SystemTask.Pipe (trees (list values)) place }
{
    let values = values.as_slice();
    let ports = Ports {
        source: port_at(values, 0),
        target: port_at(values, 1),
        closes: truth_at(values, 2),
    };
    Running::new(ports, place, Next::To(State::Takes))
}

impl Kind for Ports {
    type State = State;

    ghost body = { pipe_body };

    fn ask(&self, alloc: Global, place: Place, state: &State) -> Result<Stand, OutOfMemory> {
        match state {
            State::Takes => Ok(takes(self.source, place)),
            State::Puts(value) => Ok(puts(self.target, value.copy(alloc)?, place)),
            State::Closes => Ok(closes(self.target, place)),
        }
    }

    fn next(
        &self,
        _alloc: Global,
        state: State,
        answer: Value,
    ) -> Result<Next<State>, OutOfMemory> {
        match state {
            State::Takes => Ok(self.after_take(answer)),
            State::Puts(_) => {
                if is_true(&answer) {
                    Ok(Next::To(State::Takes))
                } else {
                    Ok(Next::Stop)
                }
            }
            State::Closes => Ok(Next::Stop),
        }
    }

    ghost ends = { λ k p. refl };

    ghost faults = { λ k p f. refl };

    ghost stays = { λ k p v. refl };

    ghost stays_faulted = { λ k p f v. refl };
}

impl Ports {
    // What follows on a value, or on nil at the end of the source.
    fn after_take(&self, answer: Value) -> Next<State>
        ensures { next_view pipe_state result ≡ pipe_next (pipe_ports_view self.now) (view answer) pipe_takes }
    {
        if !is_nil(&answer) {
            return Next::To(State::Puts(answer));
        }
        if self.closes {
            Next::To(State::Closes)
        } else {
            Next::Stop
        }
    }
}
