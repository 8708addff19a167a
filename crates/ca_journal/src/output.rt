ghost use Rattle.std.specs.Prelude.{◌≡◌, ◌++◌, IfOk, OnOk};
ghost use Rattle.ca_value.specs.Seq.{list};
ghost use Rattle.ca_meaning.specs.Texts.{output, output_of, fault_line};
ghost use Rattle.ca_journal.specs.Events.{events};
ghost use Rattle.ca_journal.specs.Merge.{entries, events_of};
ghost use Rattle.ca_journal.specs.Note.{note_view};

use crate::entries::Entries;
use crate::journal::Journal;
use crate::note::Note;
use crate::part::append_place;
use crate::walk::Walk;
use ca_meaning::text::fault_name;
use ca_term::event::{Ending, Event};
use ca_term::fault::Fault;
use ca_term::place::Place;
use ca_value::memory::OutOfMemory;
use ca_value::seq::Text;
use std::alloc::Global;

/// What the run writes: its printed lines, and a line for each fault of a task but the main text. Of an only list that
/// is kept whole just the events are read that are said; else all.
pub fn output(alloc: Global, journal: &Journal) -> Result<Text, OutOfMemory>
    ensures { IfOk result (λ t. list t ≡ output (events journal.now)) }
{
    if let Some(list) = journal.only_list() {
        return said_output(alloc, list);
    }
    let mut text = Text::new(alloc);
    let mut walk = Walk::of(alloc, journal)?;
    while let Some(entry) = walk.next() {
        append_output(&entry.note, &mut text)?;
    }
    Ok(text)
}

#[tactic(auto, using(crate::proofs::Speaking::said_output))]
fn said_output(alloc: Global, noted: &Entries) -> Result<Text, OutOfMemory>
    ensures { IfOk result (λ t. list t ≡ output (events_of (entries noted.now))) }
{
    let mut text = Text::new(alloc);
    for spot in &noted.said {
        if let Some(entry) = noted.at(*spot) {
            append_output(&entry.note, &mut text)?;
        }
    }
    Ok(text)
}

// The note's part of the output.
fn append_output(note: &Note, into: &mut Text) -> Result<(), OutOfMemory>
    ensures { OnOk result (list into.new ≡ list into.old ++ output_of (note_view note.now)) }
{
    let Note::Rare(event) = note else {
        return Ok(());
    };
    match &**event {
        Event::Print { line, .. } => into.append(line.as_slice()),
        Event::End { task, ending } => {
            if *task == 0 {
                return Ok(());
            }
            match ending {
                Ending::Ended => Ok(()),
                Ending::Faulted { fault, place, .. } => append_fault(*fault, *place, into),
            }
        }
        _ => Ok(()),
    }
}

/// Appends the line that tells of a fault, with its line feed.
pub fn append_fault(fault: Fault, place: Place, into: &mut Text) -> Result<(), OutOfMemory>
    ensures { OnOk result (list into.new ≡ list into.old ++ fault_line fault place) }
{
    into.append(b"fault ")?;
    into.append(fault_name(fault).as_bytes())?;
    into.append(b" at ")?;
    append_place(place, into)?;
    into.append(b"\n")
}
