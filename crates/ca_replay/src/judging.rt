//! A journal judged, event by event.
ghost use Rattle.std.specs.Prelude.{◌≡◌, ◌<◌, ◌≤◌, ◌^◌, List, [], true, false, length, IfOk};
ghost use Rattle.ca_term.specs.Event.{EventView, event_view};
ghost use Rattle.ca_term.specs.Program.{ProgramView, program_view};
ghost use Rattle.ca_journal.specs.Events.{events};
ghost use Rattle.ca_journal.specs.Note.{note_view};
ghost use Rattle.ca_replay.specs.Judged.{IsJudged, IsRefused, LeadsOn, MayGoOn, SeesOn, WhereLegal};

use crate::main_end::{MainEnd, main_end};
use crate::observer::Observer;
use crate::world::World;
use ca_journal::journal::Journal;
use ca_journal::note::Note;
use ca_journal::shown::Shown;
use ca_journal::walk::Walk;
use ca_term::event::Event;
use ca_term::program::Program;
use ca_value::memory::OutOfMemory;
use std::alloc::Global;

/// What a journal comes to.
#[derive(Drop)]
pub enum Judged<'p> {
    /// It is a legal run of the program: the world behind it, and the end of the main text, where the last event is that.
    Legal(World<'p>, Option<MainEnd>),
    /// The number of the first event that no legal run has there.
    IllegalAt(u64),
}

/// Whether the journal is a legal run of the program. The observer is told each event that is legal where it stands; what it
/// was told of an illegal journal isn't said.
pub fn judge<'p, O: Observer>(
    alloc: Global,
    program: &'p Program,
    journal: &Journal,
    observer: &mut O,
) -> Result<Judged<'p>, OutOfMemory>
    requires fits { length (events journal.now) < 2 ^ 64 }
    requires few { length (events journal.now) ≤ O.most }
    requires none { O.saw observer.old [] }
    ensures judged { IfOk result (IsJudged (program_view program.now) (events journal.now)) }
    ensures saw { IfOk result (WhereLegal (O.saw observer.new (events journal.now))) }
{
    program.checked();
    let mut world = World::opening(alloc, program)?;
    let mut walk = Walk::of(alloc, journal)?;
    let mut end = None;
    let mut number = 0;
    while let Some(entry) = walk.next() {
        if end.is_some() {
            return Ok(Judged::IllegalAt(number));
        }
        if !goes_on(alloc, &entry.note, &mut world, observer)? {
            return Ok(Judged::IllegalAt(number));
        }
        end = main_end(&entry.note);
        number += 1;
    }
    Ok(Judged::Legal(world, end))
}

// Does the note's event and tells it, where the state allows it; else nothing changes.
fn goes_on<O: Observer>(
    alloc: Global,
    note: &Note,
    world: &mut World<'_>,
    observer: &mut O,
) -> Result<bool, OutOfMemory>
    requires { (program : ProgramView) × (before : List EventView) × O.saw observer.old before × MayGoOn O.most program before world.old }
    ensures run { IfOk result (λ b. b ≡ true → LeadsOn O.most (note_view note.now) world.old world.new) }
    ensures saw { IfOk result (λ b. b ≡ true → SeesOn O.saw O.most (note_view note.now) world.old observer.old observer.new) }
    ensures refused { IfOk result (λ b. b ≡ false → IsRefused (note_view note.now) world.old) }
{
    let shown = Shown::of(alloc, note)?;
    let is_legal = does(alloc, shown.event(), world, observer);
    let_go(shown);
    is_legal
}

// Where it is let go in place, a proof meets each kind of event beside each value.
fn let_go(_shown: Shown<'_>) {}

fn does<O: Observer>(
    alloc: Global,
    event: &Event,
    world: &mut World<'_>,
    observer: &mut O,
) -> Result<bool, OutOfMemory>
    requires { (program : ProgramView) × (before : List EventView) × O.saw observer.old before × MayGoOn O.most program before world.old }
    ensures run { IfOk result (λ b. b ≡ true → LeadsOn O.most (event_view event.now) world.old world.new) }
    ensures saw { IfOk result (λ b. b ≡ true → SeesOn O.saw O.most (event_view event.now) world.old observer.old observer.new) }
    ensures refused { IfOk result (λ b. b ≡ false → IsRefused (event_view event.now) world.old) }
{
    if !world.step(alloc, event)? {
        return Ok(false);
    }
    observer.see(event, world)?;
    Ok(true)
}
