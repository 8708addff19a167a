//! How the main text ends, as a journal's events tell it.
ghost use Rattle.std.specs.Prelude.{◌≡◌};
ghost use Rattle.ca_journal.specs.Note.{note_view};
ghost use Rattle.ca_replay.specs.MainEnd.{main_text_end};

use ca_journal::note::Note;
use ca_term::event::{Ending, Event};

/// The main text ends with a value, or by a fault.
#[derive(Clone, Copy)]
pub enum MainEnd {
    Ended,
    Faulted,
}

/// The end of the main text, where the note's event is that.
pub fn main_end(note: &Note) -> Option<MainEnd>
    ensures { result ≡ main_text_end (note_view note.now) }
{
    let Note::Rare(event) = note else {
        return None;
    };
    match **event {
        Event::End { task: 0, ending } => match ending {
            Ending::Ended => Some(MainEnd::Ended),
            Ending::Faulted { .. } => Some(MainEnd::Faulted),
        },
        _ => None,
    }
}
