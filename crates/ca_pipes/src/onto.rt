ghost use Rattle.std.proofs.Common.{refl};
ghost use Rattle.std.specs.Prelude.{◌≡◌};
ghost use Rattle.ca_value.specs.Seq.{list};
ghost use Rattle.ca_value.specs.View.{trees};
ghost use Rattle.ca_term.specs.declared.head.SystemTask.{SystemTask};
ghost use Rattle.ca_meaning.specs.Operands.{port_of_value, truth as truth_of, first_of, second_of, third_of};
ghost use Rattle.ca_meaning.specs.PipeTable.{onto_over, items_left};
ghost use Rattle.ca_meaning.specs.System.{new_system, fourth_of};
ghost use Rattle.ca_system.specs.Stands.{running_body, next_view};
ghost use Rattle.ca_pipes.specs.Walks.{walk_left};
ghost use Rattle.ca_pipes.specs.OntoViews.{onto_body, onto_ports_view, onto_state};

use crate::walk::Walk;
use ca_asking::operands::{is_true, port_at, truth_at, value_at};
use ca_system::asks::{closes, puts};
use ca_system::running::{Kind, Running};
use ca_system::stand::{Next, Stand};
use ca_term::place::Place;
use ca_value::memory::OutOfMemory;
use ca_value::value::{Items, PortId, Value};
use std::alloc::Global;

/// The task of `onto-chan!` and `to-chan!`: it puts the items of a vector into a channel, in order.
pub type Onto = Running<Ports>;

/// Where the items go, and what closes after them.
#[derive(Clone, Copy, Drop)]
pub struct Ports {
    pub(crate) target: PortId,
    // Whether the target closes after the last item.
    pub(crate) closes: bool,
    pub(crate) result: PortId,
}

/// Where the task is in its table.
#[derive(Drop)]
pub enum State {
    // The first of these items.
    Puts(Walk),
    Closes,
    Ends,
}

/// A new task: its values are the target, the vector, whether the target closes at the end, and the port that closes
/// last.
pub fn new_onto(values: Items, place: Place) -> Onto
    ensures { running_body onto_body result ≡ new_system SystemTask.Onto (trees (list values)) place }
{
    let ports = Ports::of(values.as_slice());
    let first = ports.go_on(Walk::new(value_at(values, 1)));
    Running::new(ports, place, first)
}

impl Kind for Ports {
    type State = State;

    ghost body = { onto_body };

    fn ask(&self, alloc: Global, place: Place, state: &State) -> Result<Stand, OutOfMemory> {
        match state {
            State::Puts(items) => Ok(puts(self.target, items.first(alloc)?, place)),
            State::Closes => Ok(closes(self.target, place)),
            State::Ends => Ok(closes(self.result, place)),
        }
    }

    fn next(
        &self,
        _alloc: Global,
        state: State,
        answer: Value,
    ) -> Result<Next<State>, OutOfMemory> {
        match state {
            State::Puts(items) => {
                if is_true(&answer) {
                    Ok(self.go_on(items.rest()))
                } else {
                    Ok(self.over())
                }
            }
            State::Closes => Ok(Next::To(State::Ends)),
            State::Ends => Ok(Next::Stop),
        }
    }

    ghost ends = { λ k p. refl };

    ghost faults = { λ k p f. refl };

    ghost stays = { λ k p v. refl };

    ghost stays_faulted = { λ k p f v. refl };
}

impl Ports {
    fn of(values: &[Value]) -> Ports
        ensures { onto_ports_view result ≡ record { target = port_of_value (first_of (trees values.now)); closes = truth_of (third_of (trees values.now)); result = port_of_value (fourth_of (trees values.now)) } }
    {
        Ports {
            target: port_at(values, 0),
            closes: truth_at(values, 2),
            result: port_at(values, 3),
        }
    }

    // After the last item, or a refused one.
    fn over(self) -> Next<State>
        ensures { next_view onto_state result ≡ onto_over (onto_ports_view self) }
    {
        if self.closes {
            Next::To(State::Closes)
        } else {
            Next::To(State::Ends)
        }
    }

    fn go_on(self, items: Walk) -> Next<State>
        ensures { next_view onto_state result ≡ items_left (onto_ports_view self) (walk_left items) }
    {
        if items.is_over() {
            self.over()
        } else {
            Next::To(State::Puts(items))
        }
    }
}
