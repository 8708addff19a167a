//! The task of a mult: each value that it takes from the source goes to all taps.
ghost use Rattle.std.proofs.Common.{refl};
ghost use Rattle.std.specs.Prelude.{◌≡◌, ◌+◌, ◌^◌, ◌<◌, map, IfOk};
ghost use Rattle.std.specs.Vec.Iter.{into_iter_items, into_iter_len};
ghost use Rattle.ca_value.specs.Seq.{list};
ghost use Rattle.ca_value.specs.Tree.{item, port};
ghost use Rattle.ca_value.specs.View.{view, trees};
ghost use Rattle.ca_term.specs.declared.head.SystemTask.TheVariants.{Mult as mult_task, Deliver as deliver_task};
ghost use Rattle.ca_meaning.specs.Asks.{closes_due, ask_to_spawn, two_of};
ghost use Rattle.ca_meaning.specs.MultTable.{mult_asks, mult_next, mult_takes, mult_reads, mult_reads_last, mult_closes, acks_due, spawns_due};
ghost use Rattle.ca_meaning.specs.System.{new_system};
ghost use Rattle.ca_system.specs.Stands.{running_body, stand_at, next_view};
ghost use Rattle.ca_mult.specs.Taps.{mult_tap_view};
ghost use Rattle.ca_mult.specs.Mults.{mult_body, mult_ports_view, mult_state_view};

use crate::taps::{Tap, Walk, closing_of, taps_in};
use ca_asking::operands::port_at;
use ca_system::asks::{closes, four, one, registers, spawns, takes};
use ca_system::operand::is_nil;
use ca_system::running::{Kind, Running};
use ca_system::stand::{Next, Stand};
use ca_term::fault::Fault;
use ca_term::head::{RegisterName, SystemTask};
use ca_term::place::Place;
use ca_value::memory::OutOfMemory;
use ca_value::value::{Items, PortId, Value};
use std::alloc::Global;
use std::vec::IntoIter;

/// The task of a mult.
pub type Mult = Running<Ports>;

/// The mult, its source, and where its deliveries answer.
#[derive(Clone, Copy, Drop)]
pub struct Ports {
    pub(crate) mult: PortId,
    pub(crate) source: PortId,
    pub(crate) acks: PortId,
}

/// Where a mult is in its table.
#[derive(Drop)]
pub enum State {
    /// It takes the next value.
    Takes,
    /// It reads the taps, which this value goes to.
    Reads(Value),
    /// It starts the delivery of this value to the tap where the walk stands.
    Spawns(Value, Walk),
    /// It waits for so many answers.
    Waits(u64),
    /// The source is closed: it reads the taps once more.
    ReadsLast,
    /// It closes this channel, and then those that are left.
    Closes {
        channel: PortId,
        left: IntoIter<PortId, Global>,
    },
}

/// The task with these values: the mult, its source, and the channel of its deliveries' answers.
pub fn new_mult(values: Items, place: Place) -> Mult
    ensures { running_body mult_body result ≡ new_system mult_task (trees (list values)) place }
{
    let values = values.as_slice();
    let ports = Ports {
        mult: port_at(values, 0),
        source: port_at(values, 1),
        acks: port_at(values, 2),
    };
    Running::new(ports, place, Next::To(State::Takes))
}

impl Kind for Ports {
    type State = State;

    ghost body = { mult_body };

    fn ask(&self, alloc: Global, place: Place, state: &State) -> Result<Stand, OutOfMemory> {
        match state {
            State::Takes => Ok(takes(self.source, place)),
            State::Reads(_) => self.taps(alloc, place),
            State::Spawns(value, walk) => self.delivery(alloc, value, walk.tap.channel, place),
            State::Waits(_) => Ok(takes(self.acks, place)),
            State::ReadsLast => self.taps(alloc, place),
            State::Closes { channel, .. } => Ok(closes(*channel, place)),
        }
    }

    fn next(&self, alloc: Global, state: State, answer: Value) -> Result<Next<State>, OutOfMemory> {
        match state {
            State::Takes => Ok(taken(answer)),
            State::Reads(value) => deliveries(alloc, value, &answer),
            State::Spawns(value, walk) => Ok(next_delivery(value, walk)),
            State::Waits(more) => Ok(acks_due(more)),
            State::ReadsLast => closings(alloc, &answer),
            State::Closes { left, .. } => Ok(closes_due(left)),
        }
    }

    ghost ends = { λ k p. refl };

    ghost faults = { λ k p f. refl };

    ghost stays = { λ k p v. refl };

    ghost stays_faulted = { λ k p f v. refl };
}

impl Ports {
    // It reads the taps.
    fn taps(&self, alloc: Global, place: Place) -> Result<Stand, OutOfMemory>
        ensures { IfOk result (λ s. stand_at s ≡ mult_asks (mult_ports_view self.now) mult_reads_last place) }
    {
        let values = one(alloc, Value::Port(self.mult))?;
        Ok(registers(RegisterName::Taps, values, place))
    }

    // It starts the delivery of the value to the channel.
    fn delivery(
        &self,
        alloc: Global,
        value: &Value,
        channel: PortId,
        place: Place,
    ) -> Result<Stand, OutOfMemory>
        ensures { IfOk result (λ s. stand_at s ≡ ask_to_spawn deliver_task (item (port self.now.mult.n) (item (port channel.n) (two_of (view value.now) (port self.now.acks.n)))) place) }
    {
        let mult = Value::Port(self.mult);
        let acks = Value::Port(self.acks);
        let values = four(alloc, mult, Value::Port(channel), value.copy(alloc)?, acks)?;
        Ok(spawns(SystemTask::Deliver, values, place))
    }
}

// The delivery to the tap after it, or the wait for the answers of all.
fn next_delivery(value: Value, walk: Walk) -> Next<State>
    ensures { next_view mult_state_view result ≡ spawns_due (view value) (map mult_tap_view (into_iter_items walk.left)) (walk.before + 1) }
{
    let Walk {
        tap: _,
        left,
        before,
    } = walk;
    spawns_due(value, left, before + 1)
}

// The end of the source, or the deliveries of its value.
fn taken(answer: Value) -> Next<State>
    ensures { next_view mult_state_view result ≡ mult_next (view answer) mult_takes }
{
    if is_nil(&answer) {
        Next::To(State::ReadsLast)
    } else {
        Next::To(State::Reads(answer))
    }
}

// The deliveries to the taps that the answer tells.
fn deliveries(alloc: Global, value: Value, answer: &Value) -> Result<Next<State>, OutOfMemory>
    ensures { IfOk result (λ n. next_view mult_state_view n ≡ mult_next (view answer.now) (mult_reads (view value))) }
{
    match taps_in(alloc, answer)? {
        None => Ok(Next::Fail(Fault::WrongKind)),
        Some(taps) => Ok(spawns_due(value, taps.into_vec().into_iter(), 0)),
    }
}

// The delivery to the first of these, with how many stand before it; after the last one the wait for the answers.
fn spawns_due(value: Value, left: IntoIter<Tap, Global>, before: u64) -> Next<State>
    requires { before + into_iter_len left < 2 ^ 64 }
    ensures { next_view mult_state_view result ≡ spawns_due (view value) (map mult_tap_view (into_iter_items left)) before }
{
    let mut left = left;
    match left.next() {
        None => acks_due(before),
        Some(tap) => Next::To(State::Spawns(value, Walk { tap, left, before })),
    }
}

// The wait for so many answers.
fn acks_due(more: u64) -> Next<State>
    ensures { next_view mult_state_view result ≡ acks_due more }
{
    if more == 0 {
        Next::To(State::Takes)
    } else {
        Next::To(State::Waits(more - 1))
    }
}

// The channels that close with the source, of the taps that the answer tells.
fn closings(alloc: Global, answer: &Value) -> Result<Next<State>, OutOfMemory>
    ensures { IfOk result (λ n. next_view mult_state_view n ≡ mult_next (view answer.now) mult_reads_last) }
{
    match taps_in(alloc, answer)? {
        None => Ok(Next::Fail(Fault::WrongKind)),
        Some(taps) => Ok(closes_due(closing_of(alloc, taps.as_slice())?.into_iter())),
    }
}

// The first of these channels closes next; after the last one the task ends.
fn closes_due(left: IntoIter<PortId, Global>) -> Next<State>
    ensures { next_view mult_state_view result ≡ closes_due mult_closes (map (λ p. p.n) (into_iter_items left)) }
{
    let mut left = left;
    match left.next() {
        None => Next::Stop,
        Some(channel) => Next::To(State::Closes { channel, left }),
    }
}
