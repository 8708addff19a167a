ghost use Rattle.std.specs.Prelude.{◌≡◌, List};
ghost use Rattle.ca_term.specs.Program.{ProgramView};
ghost use Rattle.ca_term.specs.Event.{EventView};
ghost use Rattle.ca_meaning.specs.Sound.{Each};
ghost use Rattle.ca_meaning.specs.Legal.{Legal};
ghost use Rattle.ca_meaning.specs.Journal.{journal_text};
ghost use Rattle.ca_meaning.specs.Shown.{EventShown, EventTold, IsWrittenRun};

/// The text of a journal tells the journal: two journals of events as they can be, with one text, are one. Such are those
/// of every run, of whatever checked programs whose constants a script can write, where no number that the run gives out
/// is beyond 64 bits.
pub fn journals_are_told_apart()
    ensures texts { (es : List EventView) (fs : List EventView) → Each EventShown es → Each EventShown fs → journal_text es ≡ journal_text fs → es ≡ fs }
    ensures shown { (journal : List EventView) → IsWrittenRun journal → Each EventShown journal }
    ensures runs { (es : List EventView) (fs : List EventView) → IsWrittenRun es → IsWrittenRun fs → journal_text es ≡ journal_text fs → es ≡ fs }
{}

/// The line of an event of a run leaves nothing of it out.
pub fn events_are_told()
    ensures { (program : ProgramView) (journal : List EventView) → Legal program journal → Each EventTold journal }
{}
