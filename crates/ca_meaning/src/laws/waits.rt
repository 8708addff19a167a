ghost use Rattle.std.specs.Prelude.{List};
ghost use Rattle.ca_term.specs.Program.{ProgramView};
ghost use Rattle.ca_term.specs.Event.{EventView};
ghost use Rattle.ca_meaning.specs.Legal.{Legal};
ghost use Rattle.ca_meaning.specs.WaitLaw.{WaitLaw};

/// The wait law.
pub fn operations_have_one_event()
    ensures { (program : ProgramView) (journal : List EventView) → Legal program journal → WaitLaw program journal }
{}
