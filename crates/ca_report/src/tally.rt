//! What the events of a journal say of its channels, counted as they come.
ghost use Rattle.std.specs.Prelude.{◌≡◌, [], OnOk, Some, None, cond, is_some, option_map};
ghost use Rattle.ca_term.specs.Event.{event_view};
ghost use Rattle.ca_term.specs.Operation.{what_view};
ghost use Rattle.ca_meaning.specs.Channel.{channel_made};
ghost use Rattle.ca_report.specs.Tallied.{AllFew, IsTally, rows, rows_after, with_new, with_one};

use crate::passage::{Counts, Passage, made_in, passage_in};
use ca_replay::observer::Observer;
use ca_replay::world::World;
use ca_term::event::Event;
use ca_term::operation::What;
use ca_value::memory::OutOfMemory;
use ca_value::value::PortId;
use std::alloc::Global;
use std::collections::BTreeMap;

/// What a channel is, and what it did.
#[derive(Drop)]
pub struct Record {
    pub what: What,
    /// The moment of a timeout's making, in milliseconds.
    pub moment: Option<u64>,
    pub counts: Counts,
}

/// How many events there were, what they cost together, and what each channel did, by its number.
#[derive(Drop)]
pub struct Tally {
    pub events: u64,
    pub cost: u64,
    pub channels: BTreeMap<u64, Record>,
}

impl Tally {
    /// Of no events, in no memory.
    pub fn new(alloc: Global) -> Tally
        ensures { IsTally result [] }
    {
        Tally {
            events: 0,
            cost: 0,
            channels: BTreeMap::new(alloc),
        }
    }

    // What the event makes, or the value that it moves.
    fn note(&mut self, event: &Event) -> Result<(), OutOfMemory>
        requires { AllFew (rows self.old) }
        ensures rows { OnOk result (rows self.new ≡ rows_after (event_view event.now) (rows self.old)) }
        ensures events { self.new.events ≡ self.old.events }
        ensures cost { self.new.cost ≡ self.old.cost }
    {
        if let Some((port, what, moment)) = made_in(event) {
            return self.add(port, what, moment);
        }
        if let Some((port, passage)) = passage_in(event) {
            self.count(port, passage);
        }
        Ok(())
    }

    // With the channel that was made, if it is one.
    fn add(&mut self, port: PortId, what: &What, moment: Option<u64>) -> Result<(), OutOfMemory>
        ensures rows { OnOk result (rows self.new ≡ with_new port.n (what_view what.now) moment (rows self.old)) }
        ensures events { self.new.events ≡ self.old.events }
        ensures cost { self.new.cost ≡ self.old.cost }
    {
        let Some(what) = channel_of(what) else {
            return Ok(());
        };
        let counts = Counts {
            accepted: 0,
            passed: 0,
            given: 0,
        };
        let record = Record {
            what,
            moment,
            counts,
        };
        self.channels.insert(port.n, record)?;
        Ok(())
    }

    // With one value more at the channel.
    fn count(&mut self, port: PortId, passage: Passage)
        requires { AllFew (rows self.old) }
        ensures rows { rows self.new ≡ with_one port.n passage (rows self.old) }
        ensures events { self.new.events ≡ self.old.events }
        ensures cost { self.new.cost ≡ self.old.cost }
    {
        if let Some(record) = self.channels.get_mut(&port.n) {
            record.counts = record.counts.with(passage);
        }
    }
}

impl Observer for Tally {
    ghost use Rattle.std.specs.Prelude.{◌^◌};
    ghost use Rattle.ca_report.specs.Tallied.{IsTally};

    ghost saw = { IsTally };

    // So that all that is counted fits 64 bits.
    ghost most = { 2 ^ 32 };

    fn see(&mut self, event: &Event, _world: &World<'_>) -> Result<(), OutOfMemory> {
        self.events += 1;
        self.cost += event.cost();
        self.note(event)
    }
}

// What is made, where that is a channel.
fn channel_of(what: &What) -> Option<What>
    ensures { let w = what_view what.now in option_map what_view result ≡ cond (is_some (channel_made w)) (Some w) None }
{
    match what {
        What::Unbuffered => Some(What::Unbuffered),
        What::Fixed(size) => Some(What::Fixed(*size)),
        What::Dropping(size) => Some(What::Dropping(*size)),
        What::Sliding(size) => Some(What::Sliding(*size)),
        What::Promise => Some(What::Promise),
        What::Timeout(milliseconds) => Some(What::Timeout(*milliseconds)),
        What::Mult(_) | What::Mix(_, _) | What::Pub(_) => None,
    }
}
