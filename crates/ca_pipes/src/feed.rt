ghost use Rattle.std.proofs.Common.{refl};
ghost use Rattle.std.specs.Prelude.{◌≡◌, IfOk};
ghost use Rattle.ca_value.specs.Seq.{list};
ghost use Rattle.ca_value.specs.Tree.{port as port_tree};
ghost use Rattle.ca_value.specs.View.{view, trees};
ghost use Rattle.ca_term.specs.declared.head.SystemTask.{SystemTask};
ghost use Rattle.ca_meaning.specs.Asks.{pair_of};
ghost use Rattle.ca_meaning.specs.PipelineTable.{feed_next, feed_takes, feed_makes};
ghost use Rattle.ca_meaning.specs.System.{new_system};
ghost use Rattle.ca_system.specs.Stands.{running_body, next_view};
ghost use Rattle.ca_pipes.specs.FeedViews.{feed_body, feed_state};

use ca_asking::operands::port_at;
use ca_system::asks::{closes, makes, puts, takes};
use ca_system::operand::is_nil;
use ca_system::running::{Kind, Running};
use ca_system::stand::{Next, Stand};
use ca_term::fault::Fault;
use ca_term::operation::What;
use ca_term::place::Place;
use ca_value::memory::OutOfMemory;
use ca_value::seq::Seq;
use ca_value::value::{Items, PortId, Value};
use std::alloc::Global;

/// The task at the front of a pipeline. For each value of the source it makes a channel for the reply, puts the two
/// to the jobs, and then the channel to the replies, which so stand in the order of the values.
pub type Feed = Running<Ports>;

/// The channels of a feed.
#[derive(Clone, Copy, Drop)]
pub struct Ports {
    pub(crate) source: PortId,
    pub(crate) jobs: PortId,
    pub(crate) replies: PortId,
}

/// Where a feed is in its table.
#[derive(Drop)]
pub enum State {
    Takes,
    // A reply's channel for this value.
    Makes(Value),
    // This value, with its reply's channel.
    Puts(Value, PortId),
    // This reply's channel.
    Queues(PortId),
    ClosesJobs,
    ClosesReplies,
}

/// A new task: its values are the source, the channel of jobs, and that of replies.
pub fn new_feed(values: Items, place: Place) -> Feed
    ensures { running_body feed_body result ≡ new_system SystemTask.Feed (trees (list values)) place }
{
    let values = values.as_slice();
    let ports = Ports {
        source: port_at(values, 0),
        jobs: port_at(values, 1),
        replies: port_at(values, 2),
    };
    Running::new(ports, place, Next::To(State::Takes))
}

// The vector of a value and its reply's channel.
fn pair(alloc: Global, value: &Value, reply: PortId) -> Result<Value, OutOfMemory>
    ensures { IfOk result (λ v. view v ≡ pair_of (view value.now) (port_tree reply.n)) }
{
    let mut items = Seq::new(alloc);
    items.reserve(2)?;
    items.push(value.copy(alloc)?);
    items.push(Value::Port(reply));
    Value::vector(alloc, items)
}

impl Kind for Ports {
    type State = State;

    ghost body = { feed_body };

    fn ask(&self, alloc: Global, place: Place, state: &State) -> Result<Stand, OutOfMemory> {
        match state {
            State::Takes => Ok(takes(self.source, place)),
            State::Makes(_) => Ok(makes(What::Fixed(1), place)),
            State::Puts(value, reply) => Ok(puts(self.jobs, pair(alloc, value, *reply)?, place)),
            State::Queues(reply) => Ok(puts(self.replies, Value::Port(*reply), place)),
            State::ClosesJobs => Ok(closes(self.jobs, place)),
            State::ClosesReplies => Ok(closes(self.replies, place)),
        }
    }

    fn next(
        &self,
        _alloc: Global,
        state: State,
        answer: Value,
    ) -> Result<Next<State>, OutOfMemory> {
        match state {
            State::Takes => Ok(after_take(answer)),
            State::Makes(value) => Ok(after_making(answer, value)),
            State::Puts(_, reply) => Ok(Next::To(State::Queues(reply))),
            State::Queues(_) => Ok(Next::To(State::Takes)),
            State::ClosesJobs => Ok(Next::To(State::ClosesReplies)),
            State::ClosesReplies => Ok(Next::Stop),
        }
    }

    ghost ends = { λ k p. refl };

    ghost faults = { λ k p f. refl };

    ghost stays = { λ k p v. refl };

    ghost stays_faulted = { λ k p f v. refl };
}

// What follows on a value, or on nil at the end of the source.
fn after_take(answer: Value) -> Next<State>
    ensures { next_view feed_state result ≡ feed_next (view answer) feed_takes }
{
    if is_nil(&answer) {
        Next::To(State::ClosesJobs)
    } else {
        Next::To(State::Makes(answer))
    }
}

// What follows on the channel that was made for the value's reply.
fn after_making(answer: Value, value: Value) -> Next<State>
    ensures { next_view feed_state result ≡ feed_next (view answer) (feed_makes (view value)) }
{
    match answer {
        Value::Port(reply) => Next::To(State::Puts(value, reply)),
        _ => Next::Fail(Fault::WrongKind),
    }
}
