//! The delivery of a value to a tap.
ghost use Rattle.std.proofs.Common.{refl};
ghost use Rattle.std.specs.Prelude.{◌≡◌, IfOk};
ghost use Rattle.ca_value.specs.Seq.{list};
ghost use Rattle.ca_value.specs.View.{view, trees};
ghost use Rattle.ca_term.specs.declared.head.SystemTask.TheVariants.{Deliver as deliver_task};
ghost use Rattle.ca_meaning.specs.MultTable.{deliver_asks, deliver_next, deliver_untaps, deliver_puts};
ghost use Rattle.ca_meaning.specs.System.{new_system};
ghost use Rattle.ca_system.specs.Stands.{running_body, stand_at, next_view};
ghost use Rattle.ca_mult.specs.Deliveries.{deliver_body, delivery_view, step_view};

use ca_asking::operands::{is_true, port_at, value_at};
use ca_system::asks::{puts, registers, two};
use ca_system::running::{Kind, Running};
use ca_system::stand::{Next, Stand};
use ca_term::head::RegisterName;
use ca_term::place::Place;
use ca_value::memory::OutOfMemory;
use ca_value::value::{Items, PortId, Value};
use std::alloc::Global;

/// The task that delivers a value to a tap.
pub type Deliver = Running<Delivery>;

/// The mult, its tapped channel, the value, and where the task answers.
#[derive(Drop)]
pub struct Delivery {
    pub(crate) mult: PortId,
    pub(crate) channel: PortId,
    pub(crate) value: Value,
    pub(crate) acks: PortId,
}

/// Where a delivery is in its table.
#[derive(Clone, Copy, Drop)]
pub enum Step {
    Puts,
    /// The channel is closed: it takes the tap off.
    Untaps,
    Answers,
}

/// The task with these values: the mult, the tapped channel, the value, and the channel of the answers.
pub fn new_deliver(values: Items, place: Place) -> Deliver
    ensures { running_body deliver_body result ≡ new_system deliver_task (trees (list values)) place }
{
    let mult = port_at(values.as_slice(), 0);
    let channel = port_at(values.as_slice(), 1);
    let acks = port_at(values.as_slice(), 3);
    let delivery = Delivery {
        mult,
        channel,
        value: value_at(values, 2),
        acks,
    };
    Running::new(delivery, place, Next::To(Step::Puts))
}

impl Kind for Delivery {
    type State = Step;

    ghost body = { deliver_body };

    fn ask(&self, alloc: Global, place: Place, state: &Step) -> Result<Stand, OutOfMemory> {
        match state {
            Step::Puts => Ok(puts(self.channel, self.value.copy(alloc)?, place)),
            Step::Untaps => self.untap(alloc, place),
            Step::Answers => Ok(puts(self.acks, Value::Bool(true), place)),
        }
    }

    fn next(&self, _alloc: Global, state: Step, answer: Value) -> Result<Next<Step>, OutOfMemory> {
        match state {
            Step::Puts => Ok(after_put(&answer)),
            Step::Untaps => Ok(Next::To(Step::Answers)),
            Step::Answers => Ok(Next::Stop),
        }
    }

    ghost ends = { λ k p. refl };

    ghost faults = { λ k p f. refl };

    ghost stays = { λ k p v. refl };

    ghost stays_faulted = { λ k p f v. refl };
}

impl Delivery {
    // It takes the tap off.
    fn untap(&self, alloc: Global, place: Place) -> Result<Stand, OutOfMemory>
        ensures { IfOk result (λ s. stand_at s ≡ deliver_asks (delivery_view self.now) deliver_untaps place) }
    {
        let values = two(alloc, Value::Port(self.mult), Value::Port(self.channel))?;
        Ok(registers(RegisterName::Untap, values, place))
    }
}

// A closed channel took nothing: its tap goes.
fn after_put(answer: &Value) -> Next<Step>
    ensures { next_view step_view result ≡ deliver_next (view answer.now) deliver_puts }
{
    if is_true(answer) {
        Next::To(Step::Answers)
    } else {
        Next::To(Step::Untaps)
    }
}
