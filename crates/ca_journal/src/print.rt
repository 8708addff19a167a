ghost use Rattle.std.specs.Prelude.{◌≡◌, ◌≤◌, List, length, IfOk};
ghost use Rattle.ca_value.specs.Seq.{list};
ghost use Rattle.ca_term.specs.Event.{EventView};
ghost use Rattle.ca_meaning.specs.Journal.{journal_text};
ghost use Rattle.ca_journal.specs.Events.{events};

use crate::journal::Journal;
use crate::line::append_line;
use crate::walk::Walk;
use ca_value::memory::OutOfMemory;
use ca_value::seq::Text;
use std::alloc::Global;

/// The text of the journal: a line for each event, numbered from 0.
pub fn print(alloc: Global, journal: &Journal) -> Result<Text, OutOfMemory>
    ensures { IfOk result (λ t. list t ≡ journal_text (events journal.now)) }
{
    let mut text = Text::new(alloc);
    let mut walk = Walk::of(alloc, journal)?;
    let mut number = 0;
    while let Some(entry) = walk.next() {
        append_line(number, &entry.note, &mut text)?;
        number += 1;
    }
    Ok(text)
}

/// A journal has no more events than its text has bytes.
pub fn texts_are_as_long_as_journals()
    ensures { (journal : List EventView) → length journal ≤ length (journal_text journal) }
{}
