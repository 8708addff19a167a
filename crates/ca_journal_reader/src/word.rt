//! What words in a line name.
ghost use Rattle.std.specs.Prelude.{◌≡◌};
ghost use Rattle.ca_journal_reader.specs.Found.{Finds, itself};
ghost use Rattle.ca_journal_reader.specs.FieldText.{word_named, side_named, kind_named, name_named, fault_named};

use crate::cursor::Cursor;
use crate::refused::Refused;
use ca_term::event::{Side, TaskKind};
use ca_term::fault::Fault;
use ca_term::head::RegisterName;

impl<'a> Cursor<'a> {
    pub(crate) fn side(&mut self) -> Result<Side, Refused>
        ensures { Finds itself result self.new.rest.now (word_named side_named self.old.rest.now) }
    {
        match side_named(self.word()) {
            Some(side) => Ok(side),
            None => Err(Refused::Bad),
        }
    }

    pub(crate) fn kind(&mut self) -> Result<TaskKind, Refused>
        ensures { Finds itself result self.new.rest.now (word_named kind_named self.old.rest.now) }
    {
        match kind_named(self.word()) {
            Some(kind) => Ok(kind),
            None => Err(Refused::Bad),
        }
    }

    pub(crate) fn name(&mut self) -> Result<RegisterName, Refused>
        ensures { Finds itself result self.new.rest.now (word_named name_named self.old.rest.now) }
    {
        match name_named(self.word()) {
            Some(name) => Ok(name),
            None => Err(Refused::Bad),
        }
    }

    pub(crate) fn fault(&mut self) -> Result<Fault, Refused>
        ensures { Finds itself result self.new.rest.now (word_named fault_named self.old.rest.now) }
    {
        match fault_named(self.word()) {
            Some(fault) => Ok(fault),
            None => Err(Refused::Bad),
        }
    }
}

/// The side of an operation.
fn side_named(word: &[u8]) -> Option<Side>
    ensures { result ≡ side_named word.now }
{
    if word == b"take".as_slice() {
        return Some(Side::Take);
    }
    if word == b"put".as_slice() {
        return Some(Side::Put);
    }
    None
}

/// The kind of a new task.
fn kind_named(word: &[u8]) -> Option<TaskKind>
    ensures { result ≡ kind_named word.now }
{
    if word == b"go".as_slice() {
        return Some(TaskKind::Go);
    }
    if word == b"mult".as_slice() {
        return Some(TaskKind::Mult);
    }
    if word == b"deliver".as_slice() {
        return Some(TaskKind::Deliver);
    }
    if word == b"mix".as_slice() {
        return Some(TaskKind::Mix);
    }
    if word == b"pub".as_slice() {
        return Some(TaskKind::Pub);
    }
    if word == b"pipe".as_slice() {
        return Some(TaskKind::Pipe);
    }
    if word == b"merge".as_slice() {
        return Some(TaskKind::Merge);
    }
    if word == b"onto".as_slice() {
        return Some(TaskKind::Onto);
    }
    if word == b"feed".as_slice() {
        return Some(TaskKind::Feed);
    }
    if word == b"job".as_slice() {
        return Some(TaskKind::Job);
    }
    if word == b"collect".as_slice() {
        return Some(TaskKind::Collect);
    }
    None
}

/// An operation on a mult, a mix or a publication.
fn name_named(word: &[u8]) -> Option<RegisterName>
    ensures { result ≡ name_named word.now }
{
    if word == b"tap".as_slice() {
        return Some(RegisterName::Tap);
    }
    if word == b"untap".as_slice() {
        return Some(RegisterName::Untap);
    }
    if word == b"untap-all".as_slice() {
        return Some(RegisterName::UntapAll);
    }
    if word == b"taps".as_slice() {
        return Some(RegisterName::Taps);
    }
    if word == b"admix".as_slice() {
        return Some(RegisterName::Admix);
    }
    if word == b"unmix".as_slice() {
        return Some(RegisterName::Unmix);
    }
    if word == b"unmix-all".as_slice() {
        return Some(RegisterName::UnmixAll);
    }
    if word == b"toggle".as_slice() {
        return Some(RegisterName::Toggle);
    }
    if word == b"solo-mode".as_slice() {
        return Some(RegisterName::SoloMode);
    }
    if word == b"modes".as_slice() {
        return Some(RegisterName::Modes);
    }
    if word == b"find".as_slice() {
        return Some(RegisterName::Find);
    }
    if word == b"place".as_slice() {
        return Some(RegisterName::Place);
    }
    if word == b"drop".as_slice() {
        return Some(RegisterName::Drop);
    }
    if word == b"clear".as_slice() {
        return Some(RegisterName::Clear);
    }
    if word == b"topics".as_slice() {
        return Some(RegisterName::Topics);
    }
    None
}

/// A fault.
fn fault_named(word: &[u8]) -> Option<Fault>
    ensures { result ≡ fault_named word.now }
{
    if word == b"Overflow".as_slice() {
        return Some(Fault::Overflow);
    }
    if word == b"ZeroDivisor".as_slice() {
        return Some(Fault::ZeroDivisor);
    }
    if word == b"WrongKind".as_slice() {
        return Some(Fault::WrongKind);
    }
    if word == b"OutOfRange".as_slice() {
        return Some(Fault::OutOfRange);
    }
    if word == b"TooHeavy".as_slice() {
        return Some(Fault::TooHeavy);
    }
    if word == b"TooNested".as_slice() {
        return Some(Fault::TooNested);
    }
    if word == b"Spun".as_slice() {
        return Some(Fault::Spun);
    }
    if word == b"TooDeep".as_slice() {
        return Some(Fault::TooDeep);
    }
    if word == b"TooManyTakes".as_slice() {
        return Some(Fault::TooManyTakes);
    }
    if word == b"TooManyPuts".as_slice() {
        return Some(Fault::TooManyPuts);
    }
    if word == b"NilPut".as_slice() {
        return Some(Fault::NilPut);
    }
    if word == b"NoPorts".as_slice() {
        return Some(Fault::NoPorts);
    }
    if word == b"NotAPort".as_slice() {
        return Some(Fault::NotAPort);
    }
    if word == b"TooManyPorts".as_slice() {
        return Some(Fault::TooManyPorts);
    }
    if word == b"TooManyMembers".as_slice() {
        return Some(Fault::TooManyMembers);
    }
    None
}
