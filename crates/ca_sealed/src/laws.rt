ghost use Rattle.std.specs.Prelude.{◌≡◌, Ok};
ghost use Rattle.ca_term.specs.Program.{ProgramView};
ghost use Rattle.ca_reader.specs.Form.{FormTrees};
ghost use Rattle.ca_check.specs.Expansion.{expansion_of};
ghost use Rattle.ca_roles.specs.Sealed.{IsSealed};
ghost use Rattle.ca_roles.specs.Once.{StartsOnce};

/// In the program of an accepted script no hidden port is used but by the tasks that it was made for.
pub fn checked_programs_are_sealed()
    ensures { (forms : FormTrees) (program : ProgramView) → expansion_of forms ≡ Ok program → IsSealed program }
{}

/// For each port that one task uses alone, the queue of a pipeline's replies and the channel of a mult's answers, the
/// program of an accepted script starts such a task at most once.
pub fn checked_programs_start_once()
    ensures { (forms : FormTrees) (program : ProgramView) → expansion_of forms ≡ Ok program → StartsOnce program }
{}
