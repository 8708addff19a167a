ghost use Rattle.std.specs.Prelude.{List};
ghost use Rattle.ca_term.specs.Program.{ProgramView, IsProgram};
ghost use Rattle.ca_term.specs.Event.{EventView};
ghost use Rattle.ca_meaning.specs.State.{State};
ghost use Rattle.ca_meaning.specs.Legal.{Reaches};
ghost use Rattle.ca_roles.specs.Sealed.{IsSealed};
ghost use Rattle.ca_roles.specs.HiddenLaw.{HiddenLaw};

/// No task uses a hidden port but those that it is for.
pub fn hidden_ports_stay_hidden()
    ensures { (program : ProgramView) → IsProgram program → IsSealed program → (journal : List EventView) (s : State) → Reaches program journal s → HiddenLaw program journal s }
{}
