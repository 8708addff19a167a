//! How values go through channels, and how many do.
ghost use Rattle.std.specs.Prelude.{◌≡◌, option_map};
ghost use Rattle.ca_value.specs.Tree.{Tree};
ghost use Rattle.ca_value.specs.View.{view};
ghost use Rattle.ca_term.specs.Event.{event_view};
ghost use Rattle.ca_meaning.specs.History.{mark_of_take, mark_of_put};
ghost use Rattle.ca_report.specs.Passages.{at_port, made_by_event, more, passage_in, passage_of, told_made, told_passage};
ghost use Rattle.ca_report.specs.Tallied.{AreFew};

use ca_asking::operands::is_true;
use ca_term::event::{Branch, Event, Side};
use ca_term::operation::What;
use ca_value::value::{PortId, Value};

/// How a value goes through a channel.
#[derive(Clone, Copy)]
pub(crate) enum Passage {
    /// It is accepted, to be held.
    Accepted,
    /// It passes from a put to a take.
    Passed,
    /// It is given out of what is held.
    Given,
}

/// How many values a channel accepted, passed and gave.
#[derive(Clone, Copy)]
pub struct Counts {
    pub accepted: u64,
    pub passed: u64,
    pub given: u64,
}

impl Counts {
    /// With one more.
    pub(crate) fn with(self, passage: Passage) -> Counts
        requires { AreFew self }
        ensures { result ≡ more passage self }
    {
        let Counts {
            accepted,
            passed,
            given,
        } = self;
        match passage {
            Passage::Accepted => Counts {
                accepted: accepted + 1,
                passed,
                given,
            },
            Passage::Passed => Counts {
                accepted,
                passed: passed + 1,
                given,
            },
            Passage::Given => Counts {
                accepted,
                passed,
                given: given + 1,
            },
        }
    }
}

/// The channel at which the event moves a value, and how.
pub(crate) fn passage_in(event: &Event) -> Option<(PortId, Passage)>
    ensures { option_map told_passage result ≡ passage_in (event_view event.now) }
{
    match event {
        Event::Done {
            operation,
            answer,
            ..
        } => match operation {
            Branch::Take(port) => taken(*port, answer),
            Branch::Put(port, _) => put(*port, answer),
        },
        Event::Meet { port, .. } => Some((*port, Passage::Passed)),
        Event::Settle {
            side,
            port,
            value,
            ..
        } => match side {
            Side::Take => taken(*port, value),
            Side::Put => Some((*port, Passage::Accepted)),
        },
        _ => None,
    }
}

/// What the event makes: the port, what is there, and the moment of a timeout's making.
pub(crate) fn made_in(event: &Event) -> Option<(PortId, &What, Option<u64>)>
    ensures { option_map told_made result ≡ made_by_event (event_view event.now) }
{
    match event {
        Event::Make {
            port,
            what,
            moment,
            ..
        } => Some((*port, what, *moment)),
        _ => None,
    }
}

// A take that got nil got no value.
fn taken(port: PortId, answer: &Value) -> Option<(PortId, Passage)>
    ensures { option_map told_passage result ≡ at_port port.n (passage_of (mark_of_take (view answer.now))) }
{
    match answer {
        Value::Nil => None,
        _ => Some((port, Passage::Given)),
    }
}

// A put into a closed channel is answered false.
fn put(port: PortId, answer: &Value) -> Option<(PortId, Passage)>
    ensures { (value : Tree) → option_map told_passage result ≡ at_port port.n (passage_of (mark_of_put value (view answer.now))) }
{
    if is_true(answer) {
        Some((port, Passage::Accepted))
    } else {
        None
    }
}
