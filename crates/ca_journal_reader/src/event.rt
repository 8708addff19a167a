//! The line of an event: one function for each kind.
ghost use Rattle.std.specs.Prelude.{◌≡◌};
ghost use Rattle.ca_term.specs.Event.{event_view};
ghost use Rattle.ca_journal_reader.specs.Found.{FindsAtEnd};
ghost use Rattle.ca_journal_reader.specs.EventText.{made_read, spawned_in, done_in, met_in, parked_read, posted_in, settled_in, defaulted_in, closed_in, registered_in, printed_in, ticked_in, ended_in, faulted_in, event_by, entry_in};

use crate::cursor::Cursor;
use crate::field::Made;
use crate::list::parted;
use crate::refused::Refused;
use crate::value::MOST_WEIGHT;
use ca_term::event::{Ending, Event, WaitId};
use std::alloc::Global;

impl<'a> Cursor<'a> {
    /// The event of a line, behind the line's number.
    pub(crate) fn entry(&mut self, alloc: Global) -> Result<Event, Refused>
        ensures { FindsAtEnd event_view result (entry_in self.old.rest.now) }
    {
        self.decimal()?;
        let word = self.word();
        self.event(alloc, word)
    }

    /// The event whose kind this word tells.
    fn event(&mut self, alloc: Global, word: &[u8]) -> Result<Event, Refused>
        ensures { FindsAtEnd event_view result (event_by word.now self.old.rest.now) }
    {
        if word == b"make".as_slice() {
            return self.made_line();
        }
        if word == b"spawn".as_slice() {
            return self.spawned_line();
        }
        if word == b"done".as_slice() {
            return self.done_line(alloc);
        }
        if word == b"meet".as_slice() {
            return self.met_line(alloc);
        }
        if word == b"park".as_slice() {
            return self.parked_line(alloc);
        }
        if word == b"post".as_slice() {
            return self.posted_line(alloc);
        }
        if word == b"settle".as_slice() {
            return self.settled_line(alloc);
        }
        if word == b"default".as_slice() {
            return self.defaulted_line(alloc);
        }
        if word == b"close".as_slice() {
            return self.closed_line();
        }
        if word == b"register".as_slice() {
            return self.registered_line(alloc);
        }
        if word == b"print".as_slice() {
            return self.printed_line(alloc);
        }
        if word == b"tick".as_slice() {
            return self.ticked_line(alloc);
        }
        if word == b"end".as_slice() {
            return self.ended_line();
        }
        if word == b"fault".as_slice() {
            return self.faulted_line();
        }
        Err(Refused::Bad)
    }

    fn made_line(&mut self) -> Result<Event, Refused>
        ensures { FindsAtEnd event_view result (made_read self.old.rest.now) }
    {
        let task = self.numbered(b't')?;
        let port = self.port()?;
        let Made { what, moment } = self.made()?;
        Ok(Event::Make {
            task,
            port,
            what,
            moment,
        })
    }

    fn spawned_line(&mut self) -> Result<Event, Refused>
        ensures { FindsAtEnd event_view result (spawned_in self.old.rest.now) }
    {
        let task = self.numbered(b't')?;
        let spawned = self.numbered(b't')?;
        let kind = self.kind()?;
        let result = self.maybe_port()?;
        Ok(Event::Spawn {
            task,
            spawned,
            kind,
            result,
        })
    }

    fn done_line(&mut self, alloc: Global) -> Result<Event, Refused>
        ensures { FindsAtEnd event_view result (done_in self.old.rest.now) }
    {
        let task = self.numbered(b't')?;
        let branch = self.decimal()?;
        let operation = self.branch(alloc)?;
        let answer = self.value(alloc)?;
        Ok(Event::Done {
            task,
            branch,
            operation,
            answer,
        })
    }

    fn met_line(&mut self, alloc: Global) -> Result<Event, Refused>
        ensures { FindsAtEnd event_view result (met_in self.old.rest.now) }
    {
        let task = self.numbered(b't')?;
        let branch = self.decimal()?;
        let side = self.side()?;
        let port = self.port()?;
        let value = self.value(alloc)?;
        let n = self.numbered(b'w')?;
        let other = self.decimal()?;
        Ok(Event::Meet {
            task,
            branch,
            side,
            port,
            value,
            wait: WaitId { n },
            other,
        })
    }

    fn parked_line(&mut self, alloc: Global) -> Result<Event, Refused>
        ensures { FindsAtEnd event_view result (parked_read self.old.rest.now) }
    {
        let task = self.numbered(b't')?;
        let n = self.numbered(b'w')?;
        let branches = self.branches(alloc)?;
        Ok(Event::Park {
            task,
            wait: WaitId { n },
            branches,
        })
    }

    fn posted_line(&mut self, alloc: Global) -> Result<Event, Refused>
        ensures { FindsAtEnd event_view result (posted_in self.old.rest.now) }
    {
        let task = self.numbered(b't')?;
        let n = self.numbered(b'w')?;
        let port = self.port()?;
        let value = self.value(alloc)?;
        Ok(Event::Post {
            task,
            wait: WaitId { n },
            port,
            value,
        })
    }

    fn settled_line(&mut self, alloc: Global) -> Result<Event, Refused>
        ensures { FindsAtEnd event_view result (settled_in self.old.rest.now) }
    {
        let n = self.numbered(b'w')?;
        let branch = self.decimal()?;
        let side = self.side()?;
        let port = self.port()?;
        let value = self.value(alloc)?;
        Ok(Event::Settle {
            wait: WaitId { n },
            branch,
            side,
            port,
            value,
        })
    }

    fn defaulted_line(&mut self, alloc: Global) -> Result<Event, Refused>
        ensures { FindsAtEnd event_view result (defaulted_in self.old.rest.now) }
    {
        let task = self.numbered(b't')?;
        let value = self.value(alloc)?;
        Ok(Event::Default { task, value })
    }

    fn closed_line(&mut self) -> Result<Event, Refused>
        ensures { FindsAtEnd event_view result (closed_in self.old.rest.now) }
    {
        let task = self.numbered(b't')?;
        let port = self.port()?;
        Ok(Event::Close { task, port })
    }

    fn registered_line(&mut self, alloc: Global) -> Result<Event, Refused>
        ensures { FindsAtEnd event_view result (registered_in self.old.rest.now) }
    {
        let task = self.numbered(b't')?;
        let name = self.name()?;
        let values = self.values(alloc)?;
        let Some((arguments, answer)) = parted(values) else {
            return Err(Refused::Bad);
        };
        Ok(Event::Register {
            task,
            name,
            arguments,
            answer,
        })
    }

    fn printed_line(&mut self, alloc: Global) -> Result<Event, Refused>
        ensures { FindsAtEnd event_view result (printed_in self.old.rest.now) }
    {
        let task = self.numbered(b't')?;
        self.byte(b'"')?;
        let line = self.quoted(alloc)?;
        if line.len() >= MOST_WEIGHT {
            return Err(Refused::Bad);
        }
        Ok(Event::Print { task, line })
    }

    fn ticked_line(&mut self, alloc: Global) -> Result<Event, Refused>
        ensures { FindsAtEnd event_view result (ticked_in self.old.rest.now) }
    {
        let moment = self.decimal()?;
        let ports = self.ports(alloc)?;
        Ok(Event::Tick { moment, ports })
    }

    fn ended_line(&mut self) -> Result<Event, Refused>
        ensures { FindsAtEnd event_view result (ended_in self.old.rest.now) }
    {
        let task = self.numbered(b't')?;
        Ok(Event::End {
            task,
            ending: Ending::Ended,
        })
    }

    fn faulted_line(&mut self) -> Result<Event, Refused>
        ensures { FindsAtEnd event_view result (faulted_in self.old.rest.now) }
    {
        let task = self.numbered(b't')?;
        let fault = self.fault()?;
        let place = self.place()?;
        let result = self.maybe_port()?;
        Ok(Event::End {
            task,
            ending: Ending::Faulted {
                fault,
                place,
                result,
            },
        })
    }
}
