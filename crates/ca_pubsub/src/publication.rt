//! The task of a publication: each value that it takes from the source goes to the channel of its topic.
ghost use Rattle.std.proofs.Common.{refl};
ghost use Rattle.std.specs.Prelude.{◌≡◌, map, option_map, IfOk, cond};
ghost use Rattle.std.specs.Vec.Iter.{into_iter_items};
ghost use Rattle.ca_value.specs.Seq.{list};
ghost use Rattle.ca_value.specs.View.{view, trees};
ghost use Rattle.ca_term.specs.declared.head.SystemTask.TheVariants.{Pub as pub_task};
ghost use Rattle.ca_meaning.specs.Asks.{to, needing, closes_due, ask_to_register, one_of, two_of};
ghost use Rattle.ca_term.specs.declared.head.RegisterName.TheVariants.{Find, Topics};
ghost use Rattle.ca_value.specs.Tree.{port};
ghost use Rattle.ca_meaning.specs.Operands.{is_nil};
ghost use Rattle.ca_meaning.specs.PubTable.{pub_next, pub_takes, pub_puts, pub_reads_last, pub_closes, channel_of_pair};
ghost use Rattle.ca_meaning.specs.System.{new_system};
ghost use Rattle.ca_system.specs.Applications.{function_applied, pending_application, topic_returned};
ghost use Rattle.ca_system.specs.Applied.{application_view, returned_view};
ghost use Rattle.ca_system.specs.Stands.{running_body, stand_at, next_view};
ghost use Rattle.ca_pubsub.specs.Publications.{pub_body, pub_state_view};

use crate::answers::{channel_of, ports_in};
use ca_asking::operands::{port_at, value_at};
use ca_system::application::Application;
use ca_system::asks::{closes, one, puts, registers, takes, two};
use ca_system::operand::is_nil;
use ca_system::returned::Returned;
use ca_system::running::{Kind, Running};
use ca_system::stand::{Next, Stand};
use ca_term::fault::Fault;
use ca_term::head::{PlainFunction, RegisterName};
use ca_term::place::Place;
use ca_value::memory::OutOfMemory;
use ca_value::value::{Items, PortId, Value};
use std::alloc::Global;
use std::mem;
use std::vec::IntoIter;

/// The task of a publication.
pub type Pub = Running<Ports>;

/// The publication, its source, its topic function, and the keyword where that is the function.
#[derive(Drop)]
pub struct Ports {
    pub(crate) publication: PortId,
    pub(crate) source: PortId,
    pub(crate) topic: PlainFunction,
    pub(crate) keyword: Value,
}

/// Where a publication is in its table.
#[derive(Drop)]
pub enum State {
    /// It takes the next value.
    Takes,
    /// It makes the topic of this value.
    Sorts(Value),
    /// It asks for the channel of this topic, for the value.
    Finds {
        topic: Value,
        value: Value,
    },
    /// It puts the value on the topic's channel.
    Puts {
        channel: PortId,
        value: Value,
    },
    /// The source is closed: it reads the topics' channels.
    ReadsLast,
    /// It closes this channel, and then those that are left.
    Closes {
        channel: PortId,
        left: IntoIter<PortId, Global>,
    },
}

/// The task with this topic function and these values: the publication, its source, and the keyword where that is the
/// function.
pub fn new_pub(topic: PlainFunction, values: Items, place: Place) -> Pub
    ensures { running_body pub_body result ≡ new_system (pub_task topic) (trees (list values)) place }
{
    let publication = port_at(values.as_slice(), 0);
    let source = port_at(values.as_slice(), 1);
    let ports = Ports {
        publication,
        source,
        topic,
        keyword: value_at(values, 2),
    };
    Running::new(ports, place, Next::To(State::Takes))
}

/// The topic function with its value, where the task is about to apply it.
pub fn pending_topic(task: &Pub) -> Option<Application<'_>>
    ensures { option_map application_view result ≡ pending_application (running_body pub_body task.now) }
{
    match &task.state {
        Next::To(State::Sorts(value)) => Some(Application {
            function: task.kind.topic,
            keyword: &task.kind.keyword,
            place: task.place,
            value,
        }),
        _ => None,
    }
}

/// Goes on with what the topic function came to.
pub fn topic_made(task: &mut Pub, returned: Returned)
    ensures { running_body pub_body task.new ≡ function_applied (returned_view returned) (running_body pub_body task.old) }
{
    match mem::replace(&mut task.state, Next::Stop) {
        Next::To(state) => task.state = sorted(state, returned),
        Next::Stop => {}
        Next::Fail(fault) => task.state = Next::Fail(fault),
    }
}

// The channel of the topic is asked for, or the task has the function's fault.
fn sorted(state: State, returned: Returned) -> Next<State>
    ensures { next_view pub_state_view result ≡ topic_returned (returned_view returned) (to (pub_state_view state)) }
{
    match (state, returned) {
        (State::Sorts(value), Returned::Value(topic)) => Next::To(State::Finds { topic, value }),
        (State::Sorts(_), Returned::Fault(fault)) => Next::Fail(fault),
        (state, _) => Next::To(state),
    }
}

impl Kind for Ports {
    type State = State;

    ghost body = { pub_body };

    fn ask(&self, alloc: Global, place: Place, state: &State) -> Result<Stand, OutOfMemory> {
        match state {
            State::Takes => Ok(takes(self.source, place)),
            State::Sorts(_) => unreachable!(),
            State::Finds { topic, value: _ } => self.find(alloc, topic, place),
            State::Puts { channel, value } => Ok(puts(*channel, value.copy(alloc)?, place)),
            State::ReadsLast => self.topics(alloc, place),
            State::Closes { channel, .. } => Ok(closes(*channel, place)),
        }
    }

    fn next(&self, alloc: Global, state: State, answer: Value) -> Result<Next<State>, OutOfMemory> {
        match state {
            State::Takes => Ok(taken(answer)),
            State::Sorts(value) => Ok(Next::To(State::Sorts(value))),
            State::Finds { topic: _, value } => Ok(found(&answer, value)),
            State::Puts { .. } => Ok(Next::To(State::Takes)),
            State::ReadsLast => closings(alloc, &answer),
            State::Closes { left, .. } => Ok(closes_due(left)),
        }
    }

    ghost ends = { λ k p. refl };

    ghost faults = { λ k p f. refl };

    ghost stays = { λ k p v. refl };

    ghost stays_faulted = { λ k p f v. refl };
}

impl Ports {
    // It asks for the channel of the topic.
    fn find(&self, alloc: Global, topic: &Value, place: Place) -> Result<Stand, OutOfMemory>
        ensures { IfOk result (λ s. stand_at s ≡ ask_to_register Find (two_of (port self.now.publication.n) (view topic.now)) place) }
    {
        let values = two(alloc, Value::Port(self.publication), topic.copy(alloc)?)?;
        Ok(registers(RegisterName::Find, values, place))
    }

    // It reads the topics' channels.
    fn topics(&self, alloc: Global, place: Place) -> Result<Stand, OutOfMemory>
        ensures { IfOk result (λ s. stand_at s ≡ ask_to_register Topics (one_of (port self.now.publication.n)) place) }
    {
        let values = one(alloc, Value::Port(self.publication))?;
        Ok(registers(RegisterName::Topics, values, place))
    }
}

// What follows on a value of the source, or on its end.
fn taken(answer: Value) -> Next<State>
    ensures { next_view pub_state_view result ≡ pub_next (view answer) pub_takes }
{
    if is_nil(&answer) {
        Next::To(State::ReadsLast)
    } else {
        Next::To(State::Sorts(answer))
    }
}

// The value goes to the channel that the answer tells; where nobody has the topic, it is dropped.
fn found(answer: &Value, value: Value) -> Next<State>
    ensures { next_view pub_state_view result ≡ cond (is_nil (view answer.now)) (to pub_takes) (needing (channel_of_pair (view answer.now)) (λ c. to (pub_puts c (view value)))) }
{
    if is_nil(answer) {
        return Next::To(State::Takes);
    }
    match channel_of(answer) {
        None => Next::Fail(Fault::WrongKind),
        Some(channel) => Next::To(State::Puts { channel, value }),
    }
}

// The topics' channels close, which the answer tells.
fn closings(alloc: Global, answer: &Value) -> Result<Next<State>, OutOfMemory>
    ensures { IfOk result (λ n. next_view pub_state_view n ≡ pub_next (view answer.now) pub_reads_last) }
{
    match ports_in(alloc, answer)? {
        None => Ok(Next::Fail(Fault::WrongKind)),
        Some(ports) => Ok(closes_due(ports.into_vec().into_iter())),
    }
}

// The first of these channels closes next; after the last one the task ends.
fn closes_due(left: IntoIter<PortId, Global>) -> Next<State>
    ensures { next_view pub_state_view result ≡ closes_due pub_closes (map (λ p. p.n) (into_iter_items left)) }
{
    let mut left = left;
    match left.next() {
        None => Next::Stop,
        Some(channel) => Next::To(State::Closes { channel, left }),
    }
}
