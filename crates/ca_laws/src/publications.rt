ghost use Rattle.std.specs.Prelude.{List};
ghost use Rattle.ca_term.specs.Program.{ProgramView};
ghost use Rattle.ca_term.specs.Event.{EventView};
ghost use Rattle.ca_meaning.specs.State.{State};
ghost use Rattle.ca_meaning.specs.Legal.{Reaches};
ghost use Rattle.ca_laws.specs.PubRules.{PubsKeepTo};

/// A publication asks for the topic that its function makes of the value that it took, puts the value into the
/// channel that it found for it, once, and only then takes the next.
pub fn publications_put_by_topic()
    ensures { (program : ProgramView) (journal : List EventView) (s : State) → Reaches program journal s → PubsKeepTo program journal s }
{}
