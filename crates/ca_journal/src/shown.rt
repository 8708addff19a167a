//! The event that a note stands for, for who reads a journal event by event.
ghost use Rattle.std.specs.Prelude.{◌≡◌, [], ◌∷◌, IfOk};
ghost use Rattle.ca_value.specs.Seq.{list};
ghost use Rattle.ca_term.specs.Event.{event_view, branch_view, parked};
ghost use Rattle.ca_journal.specs.Note.{note_view};
ghost use Rattle.ca_journal.specs.Shown.{shown_view, IsDoneNote, IsParked, ValuePasses};

use crate::note::Note;
use ca_term::event::{Branch, Event, WaitId};
use ca_term::operation::What;
use ca_value::memory::OutOfMemory;
use ca_value::seq::Seq;
use ca_value::value::Value;
use std::alloc::Global;

/// An event: that of a rare note where it lies, or one made of a frequent note, which shares the note's values.
#[derive(Drop)]
pub enum Shown<'a> {
    Kept(&'a Event),
    Made(Event),
}

impl<'a> Shown<'a> {
    /// The event that the note stands for.
    pub fn of(alloc: Global, note: &'a Note) -> Result<Shown<'a>, OutOfMemory>
        ensures { IfOk result (λ s. shown_view s ≡ note_view note.now) }
    {
        match note {
            Note::Took { .. } => Ok(Shown::Made(done_of(alloc, note)?)),
            Note::Gave { .. } => Ok(Shown::Made(done_of(alloc, note)?)),
            Note::Met { .. } => Ok(Shown::Made(passing_of(alloc, note)?)),
            Note::TakeParked { .. } => Ok(Shown::Made(parked_of(alloc, note)?)),
            Note::PutParked { .. } => Ok(Shown::Made(parked_of(alloc, note)?)),
            Note::Settled { .. } => Ok(Shown::Made(passing_of(alloc, note)?)),
            Note::Timed {
                task,
                port,
                milliseconds,
                moment,
            } => Ok(Shown::Made(Event::Make {
                task: *task,
                port: *port,
                what: What::Timeout(*milliseconds),
                moment: Some(*moment),
            })),
            Note::Rare(event) => Ok(Shown::Kept(event)),
        }
    }

    /// The event itself.
    pub fn event(&self) -> &Event
        ensures { event_view result.now ≡ shown_view self.now }
    {
        match self {
            Shown::Kept(event) => event,
            Shown::Made(event) => event,
        }
    }
}

// Where a take or a put is done at once.
fn done_of(alloc: Global, note: &Note) -> Result<Event, OutOfMemory>
    requires { IsDoneNote note.now }
    ensures { IfOk result (λ e. event_view e ≡ note_view note.now) }
{
    match note {
        Note::Took {
            branch,
            task,
            port,
            answer,
        } => Ok(Event::Done {
            task: *task,
            branch: *branch as u64,
            operation: Branch::Take(*port),
            answer: answer.copy(alloc)?,
        }),
        Note::Gave {
            branch,
            accepted,
            task,
            port,
            value,
        } => Ok(Event::Done {
            task: *task,
            branch: *branch as u64,
            operation: Branch::Put(*port, value.copy(alloc)?),
            answer: Value::Bool(*accepted),
        }),
        _ => unreachable!(),
    }
}

// Where a task waits on one branch.
fn parked_of(alloc: Global, note: &Note) -> Result<Event, OutOfMemory>
    requires { IsParked note.now }
    ensures { IfOk result (λ e. event_view e ≡ note_view note.now) }
{
    match note {
        Note::TakeParked { task, wait, port } => {
            parked_on(alloc, *task, *wait, Branch::Take(*port))
        }
        Note::PutParked {
            task,
            wait,
            port,
            value,
        } => {
            let put = Branch::Put(*port, value.copy(alloc)?);
            parked_on(alloc, *task, *wait, put)
        }
        _ => unreachable!(),
    }
}

fn parked_on(alloc: Global, task: u64, wait: WaitId, branch: Branch) -> Result<Event, OutOfMemory>
    ensures { IfOk result (λ e. event_view e ≡ parked task wait.n (branch_view branch ∷ [])) }
{
    let mut branches = Seq::new(alloc);
    branches.reserve(1)?;
    branches.push(branch);
    Ok(Event::Park {
        task,
        wait,
        branches,
    })
}

// Where a value passes to or from a wait.
fn passing_of(alloc: Global, note: &Note) -> Result<Event, OutOfMemory>
    requires { ValuePasses note.now }
    ensures { IfOk result (λ e. event_view e ≡ note_view note.now) }
{
    match note {
        Note::Met {
            side,
            branch,
            other,
            task,
            port,
            wait,
            value,
        } => Ok(Event::Meet {
            task: *task,
            branch: *branch as u64,
            side: *side,
            port: *port,
            value: value.copy(alloc)?,
            wait: *wait,
            other: *other as u64,
        }),
        Note::Settled {
            side,
            branch,
            wait,
            port,
            value,
        } => Ok(Event::Settle {
            wait: *wait,
            branch: *branch as u64,
            side: *side,
            port: *port,
            value: value.copy(alloc)?,
        }),
        _ => unreachable!(),
    }
}
