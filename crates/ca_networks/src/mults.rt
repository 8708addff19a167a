ghost use Rattle.std.specs.Prelude.{List};
ghost use Rattle.ca_term.specs.Program.{ProgramView, IsProgram};
ghost use Rattle.ca_term.specs.Event.{EventView};
ghost use Rattle.ca_meaning.specs.State.{State};
ghost use Rattle.ca_meaning.specs.Legal.{Reaches};
ghost use Rattle.ca_roles.specs.Sealed.{IsSealed};
ghost use Rattle.ca_roles.specs.Once.{StartsOnce};
ghost use Rattle.ca_networks.specs.MultLaw.{MultLaw};

/// In every run a mult reads its taps right after it took a value, and before it goes back to its source this value was
/// put once into each of them, and each of these puts was done.
pub fn mults_deliver_before_they_go_on()
    ensures { (program : ProgramView) → IsProgram program → IsSealed program → StartsOnce program → (journal : List EventView) (s : State) → Reaches program journal s → MultLaw program journal s }
{}
