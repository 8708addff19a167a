// The ends of the main text.
ghost use Rattle.std.specs.Prelude.{◌≡◌};
ghost use Rattle.ca_journal.specs.Cut.{main_end};
ghost use Rattle.ca_journal.specs.Note.{note_view};

use crate::cut::CutAt;
use crate::note::Note;
use ca_term::event::{Ending, Event};

// What the main text comes to with this note's event.
pub(crate) fn main_end_of(note: &Note) -> Option<CutAt>
    ensures { result ≡ main_end (note_view note.now) }
{
    let Note::Rare(event) = note else {
        return None;
    };
    match **event {
        Event::End { task: 0, ending } => match ending {
            Ending::Ended => Some(CutAt::MainOver),
            Ending::Faulted { .. } => Some(CutAt::Faulted),
        },
        _ => None,
    }
}
