ghost use Rattle.std.specs.Prelude.{◌≡◌, Ok, List};
ghost use Rattle.ca_term.specs.Program.{ProgramView};
ghost use Rattle.ca_term.specs.Event.{EventView};
ghost use Rattle.ca_value.specs.IsValue.{written};
ghost use Rattle.ca_reader.specs.Form.{FormTrees};
ghost use Rattle.ca_reader.specs.Written.{HaveScalars};
ghost use Rattle.ca_check.specs.Expansion.{expansion_of};
ghost use Rattle.ca_meaning.specs.Legal.{Legal};
ghost use Rattle.ca_sealed.specs.KeepsLaws.{KeepsLaws};

use crate::networks::{
    mults_of_scripts_deliver_before_they_go_on, pipelines_of_scripts_put_in_order,
};
use ca_check::laws::{programs_are_checked, programs_keep_their_scalars};
use ca_meaning::laws::values::values_of_a_run_are_values;

/// Each legal journal of an accepted script, whose forms are as a text can write them, keeps the laws of values, channels,
/// waits, mixes, mults, pipelines, and of the takes, reduces and splits that the derived forms start.
pub fn journals_of_scripts_keep_the_laws()
    ensures { (forms : FormTrees) (program : ProgramView) → HaveScalars written forms → expansion_of forms ≡ Ok program → (journal : List EventView) → Legal program journal → KeepsLaws program journal }
{
    programs_are_checked();
    programs_keep_their_scalars();
    values_of_a_run_are_values();
    mults_of_scripts_deliver_before_they_go_on();
    pipelines_of_scripts_put_in_order();
}
