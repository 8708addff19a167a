ghost use Rattle.std.specs.Prelude.{◌≡◌, List};
ghost use Rattle.ca_term.specs.Program.{ProgramView};
ghost use Rattle.ca_term.specs.Event.{EventView};
ghost use Rattle.ca_meaning.specs.State.{State};
ghost use Rattle.ca_meaning.specs.Legal.{Reaches};

/// A journal leads to one state at most: the state of a legal journal.
pub fn a_journal_has_one_state()
    ensures { (program : ProgramView) (journal : List EventView) (s t : State) → Reaches program journal s → Reaches program journal t → s ≡ t }
{}
