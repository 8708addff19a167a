ghost use Rattle.std.specs.Prelude.{◌≡◌, Ok, List};
ghost use Rattle.ca_term.specs.Program.{ProgramView};
ghost use Rattle.ca_term.specs.Event.{EventView};
ghost use Rattle.ca_reader.specs.Form.{FormTrees};
ghost use Rattle.ca_check.specs.Expansion.{expansion_of};
ghost use Rattle.ca_meaning.specs.State.{State};
ghost use Rattle.ca_meaning.specs.Legal.{Reaches};
ghost use Rattle.ca_networks.specs.MultLaw.{MultLaw};
ghost use Rattle.ca_networks.specs.PipelineLaw.{PipelineLaw};

use crate::laws::{checked_programs_are_sealed, checked_programs_start_once};
use ca_check::laws::programs_are_checked;
use ca_networks::mults::mults_deliver_before_they_go_on;
use ca_networks::pipelines::pipelines_put_in_order;

/// In each legal journal of an accepted script, a pipeline puts the outputs of its function for the values that it took,
/// in the order in which it took them.
pub fn pipelines_of_scripts_put_in_order()
    ensures { (forms : FormTrees) (program : ProgramView) → expansion_of forms ≡ Ok program → (journal : List EventView) (s : State) → Reaches program journal s → PipelineLaw program journal }
{
    programs_are_checked();
    checked_programs_are_sealed();
    checked_programs_start_once();
    pipelines_put_in_order();
}

/// In each legal journal of an accepted script, before a mult goes back to its source it has put the value that it took
/// last once into each of the taps that it read.
pub fn mults_of_scripts_deliver_before_they_go_on()
    ensures { (forms : FormTrees) (program : ProgramView) → expansion_of forms ≡ Ok program → (journal : List EventView) (s : State) → Reaches program journal s → MultLaw program journal s }
{
    programs_are_checked();
    checked_programs_are_sealed();
    checked_programs_start_once();
    mults_deliver_before_they_go_on();
}
