//! Fields of a line that have several parts: ports, places, what is made, branches.
ghost use Rattle.std.specs.Prelude.{◌≡◌, None, option_map};
ghost use Rattle.ca_value.specs.View.{view};
ghost use Rattle.ca_term.specs.Event.{branch_view, port_number};
ghost use Rattle.ca_term.specs.Operation.{what_view};
ghost use Rattle.ca_journal_reader.specs.Found.{Finds, itself};
ghost use Rattle.ca_journal_reader.specs.Words.{numbered_in};
ghost use Rattle.ca_journal_reader.specs.FieldText.{maybe_port_in, place_in, chan_in, timeout_in, what_in, branch_in};
ghost use Rattle.ca_journal_reader.specs.Made.{made_view};

use crate::cursor::Cursor;
use crate::refused::Refused;
use ca_term::event::{Branch, Side};
use ca_term::operation::What;
use ca_term::place::Place;
use ca_value::value::{PortId, Value};
use std::alloc::Global;

/// What is made, and the moment of a timeout's making.
#[derive(Drop)]
pub(crate) struct Made {
    pub(crate) what: What,
    pub(crate) moment: Option<u64>,
}

impl<'a> Cursor<'a> {
    pub(crate) fn port(&mut self) -> Result<PortId, Refused>
        ensures { Finds port_number result self.new.rest.now (numbered_in 112 self.old.rest.now) }
    {
        let n = self.numbered(b'p')?;
        Ok(PortId { n })
    }

    /// A result port, or a dash.
    pub(crate) fn maybe_port(&mut self) -> Result<Option<PortId>, Refused>
        ensures { Finds (λ p. option_map port_number p) result self.new.rest.now (maybe_port_in self.old.rest.now) }
    {
        if self.is_at(b'-') {
            self.skip();
            return Ok(None);
        }
        Ok(Some(self.port()?))
    }

    /// A line and a column.
    pub(crate) fn place(&mut self) -> Result<Place, Refused>
        ensures { Finds itself result self.new.rest.now (place_in self.old.rest.now) }
    {
        let line = self.number()?;
        self.byte(b':')?;
        let column = self.decimal()?;
        Ok(Place { line, column })
    }

    /// What is made.
    pub(crate) fn made(&mut self) -> Result<Made, Refused>
        ensures { Finds made_view result self.new.rest.now (what_in self.old.rest.now) }
    {
        let word = self.word();
        if word == b"chan".as_slice() {
            return self.channel();
        }
        if word == b"timeout".as_slice() {
            return self.timeout();
        }
        if word == b"mult".as_slice() {
            let port = self.port()?;
            return Ok(without_moment(What::Mult(Value::Port(port))));
        }
        if word == b"mix".as_slice() {
            let out = self.port()?;
            let changes = self.port()?;
            let what = What::Mix(Value::Port(out), Value::Port(changes));
            return Ok(without_moment(what));
        }
        if word == b"pub".as_slice() {
            let port = self.port()?;
            return Ok(without_moment(What::Pub(Value::Port(port))));
        }
        Err(Refused::Bad)
    }

    /// A channel, by its buffer.
    fn channel(&mut self) -> Result<Made, Refused>
        ensures { Finds made_view result self.new.rest.now (chan_in self.old.rest.now) }
    {
        let word = self.word();
        if word == b"none".as_slice() {
            return Ok(without_moment(What::Unbuffered));
        }
        if word == b"promise".as_slice() {
            return Ok(without_moment(What::Promise));
        }
        if word == b"fixed".as_slice() {
            let size = self.decimal()?;
            return Ok(without_moment(What::Fixed(size)));
        }
        if word == b"dropping".as_slice() {
            let size = self.decimal()?;
            return Ok(without_moment(What::Dropping(size)));
        }
        if word == b"sliding".as_slice() {
            let size = self.decimal()?;
            return Ok(without_moment(What::Sliding(size)));
        }
        Err(Refused::Bad)
    }

    /// Milliseconds, a word and a moment.
    fn timeout(&mut self) -> Result<Made, Refused>
        ensures { Finds made_view result self.new.rest.now (timeout_in self.old.rest.now) }
    {
        let milliseconds = self.decimal()?;
        self.word();
        let moment = self.decimal()?;
        Ok(Made {
            what: What::Timeout(milliseconds),
            moment: Some(moment),
        })
    }

    /// A take from a channel, or a put of a value into it.
    pub(crate) fn branch(&mut self, alloc: Global) -> Result<Branch, Refused>
        ensures { Finds branch_view result self.new.rest.now (branch_in self.old.rest.now) }
    {
        match self.side()? {
            Side::Take => Ok(Branch::Take(self.port()?)),
            Side::Put => {
                let port = self.port()?;
                let value = self.value(alloc)?;
                Ok(Branch::Put(port, value))
            }
        }
    }
}

fn without_moment(what: What) -> Made
    ensures what { result.what ≡ what }
    ensures moment { result.moment ≡ None }
{
    Made { what, moment: None }
}
