ghost use Rattle.std.specs.Prelude.{List};
ghost use Rattle.ca_term.specs.Program.{ProgramView, IsProgram};
ghost use Rattle.ca_term.specs.Event.{EventView};
ghost use Rattle.ca_meaning.specs.State.{State};
ghost use Rattle.ca_meaning.specs.Legal.{Reaches};
ghost use Rattle.ca_roles.specs.Sealed.{IsSealed};
ghost use Rattle.ca_roles.specs.Once.{StartsOnce};
ghost use Rattle.ca_networks.specs.PipelineLaw.{PipelineLaw};

/// In every run, whatever the order of its events and however many jobs there are, a pipeline puts the outputs of its
/// function for the values that it took, in the order in which it took them.
pub fn pipelines_put_in_order()
    ensures { (program : ProgramView) → IsProgram program → IsSealed program → StartsOnce program → (journal : List EventView) (s : State) → Reaches program journal s → PipelineLaw program journal }
{}
