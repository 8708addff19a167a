ghost use Rattle.std.specs.Prelude.{◌≡◌, Ok, List};
ghost use Rattle.ca_term.specs.Program.{ProgramView};
ghost use Rattle.ca_term.specs.Event.{EventView};
ghost use Rattle.ca_reader.specs.Form.{FormTrees};
ghost use Rattle.ca_check.specs.Expansion.{expansion_of};
ghost use Rattle.ca_meaning.specs.State.{State};
ghost use Rattle.ca_meaning.specs.Legal.{Reaches};
ghost use Rattle.ca_roles.specs.HiddenLaw.{HiddenLaw};
ghost use Rattle.ca_roles.specs.SoleUsers.{AreSole, ComeFirst};

use crate::laws::{checked_programs_are_sealed, checked_programs_start_once};
use ca_check::laws::programs_are_checked;
use ca_roles::hidden_ports::hidden_ports_stay_hidden;
use ca_roles::sole_users::ports_have_sole_users;

/// In each legal journal of an accepted script, no task uses a hidden port but those that it is for.
pub fn hidden_ports_of_scripts_stay_hidden()
    ensures { (forms : FormTrees) (program : ProgramView) → expansion_of forms ≡ Ok program → (journal : List EventView) (s : State) → Reaches program journal s → HiddenLaw program journal s }
{
    programs_are_checked();
    checked_programs_are_sealed();
    hidden_ports_stay_hidden();
}

/// In each legal journal of an accepted script, no two feeds have a queue of reply ports in common, no two collects
/// have, and no two mults have a channel of answers in common. Where a task is about to start one, there is none yet.
pub fn ports_of_scripts_have_sole_users()
    ensures sole { (forms : FormTrees) (program : ProgramView) → expansion_of forms ≡ Ok program → (journal : List EventView) (s : State) → Reaches program journal s → AreSole s }
    ensures first { (forms : FormTrees) (program : ProgramView) → expansion_of forms ≡ Ok program → (journal : List EventView) (s : State) → Reaches program journal s → ComeFirst program s }
{
    programs_are_checked();
    checked_programs_are_sealed();
    checked_programs_start_once();
    ports_have_sole_users();
}
