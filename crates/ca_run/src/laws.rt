ghost use Rattle.std.specs.Prelude.{◌≡◌, ℕ, List, Some};
ghost use Rattle.ca_term.specs.Program.{ProgramView};
ghost use Rattle.ca_term.specs.Event.{EventView};
ghost use Rattle.ca_meaning.specs.Journal.{journal_text};
ghost use Rattle.ca_meaning.specs.Legal.{Legal};
ghost use Rattle.ca_journal.specs.Events.{events};
ghost use Rattle.ca_journal_reader.specs.Input.{JournalReads};
ghost use Rattle.ca_replay.specs.Verdict.{IsFirstIllegal};
ghost use Rattle.ca_sealed.specs.KeepsLaws.{KeepsLaws};
ghost use Rattle.ca_words.specs.declared.command.Command.TheVariants.{Replay};
ghost use Rattle.ca_run.specs.Findings.{AsksOf, IsRejected};
ghost use Rattle.ca_run.specs.Inputs.{ProgramOf};
ghost use Rattle.ca_run.specs.Top.{HasScript};
ghost use Rattle.ca_run.specs.Written.{IsWritten};

use ca_check::laws::{programs_are_checked, programs_keep_their_scalars};
use ca_derived::laws::expanded_forms_keep_their_scalars;
use ca_journal::journal::Journal;
use ca_journal::numbered::journals_are_numbered;
use ca_journal_reader::read::one_journal;
use ca_meaning::laws::texts::journals_are_told_apart;
use ca_reader::read::read_forms_are_written;
use ca_sealed::journals::journals_of_scripts_keep_the_laws;

/// Each legal journal of a script's program keeps the laws of values, channels, waits, mixes, mults, pipelines, and of the
/// takes, reduces and splits that the derived forms start.
pub(crate) fn journals_of_a_text_keep_the_laws()
    ensures { (input : List ℕ) (program : ProgramView) → ProgramOf input program → (journal : List EventView) → Legal program journal → KeepsLaws program journal }
{
    read_forms_are_written();
    expanded_forms_keep_their_scalars();
    journals_of_scripts_keep_the_laws();
}

/// The text of the journal of a run of a script's program is read back as that journal.
pub fn written_journals_are_read(journal: &Journal)
    ensures { let run = events journal.now in (script : List ℕ) (program : ProgramView) → ProgramOf script program → Legal program run → JournalReads (journal_text run) run }
{
    journals_are_numbered(journal);
    journals_of_a_text_keep_the_laws();
    read_forms_are_written();
    expanded_forms_keep_their_scalars();
    programs_are_checked();
    programs_keep_their_scalars();
    journals_are_told_apart();
}

/// What a run writes of an accepted script is legal to `replay`: the input of the script, a marker line and the journal's text
/// asks of this program and this journal, no event of it is illegal, and the command neither refuses the input nor rejects it.
pub fn written_journals_are_legal(journal: &Journal)
    ensures asked { let run = events journal.now in (script : List ℕ) (program : ProgramView) (input : List ℕ) → IsWritten script program run input → AsksOf input program run }
    ensures legal { let run = events journal.now in (script : List ℕ) (program : ProgramView) (input : List ℕ) → IsWritten script program run input → (k : ℕ) → IsFirstIllegal program run k → ⊥ }
    ensures accepted { (script : List ℕ) (program : ProgramView) (input : List ℕ) → IsWritten script program (events journal.now) input → HasScript Replay (Some input) }
    ensures not_rejected { (script : List ℕ) (program : ProgramView) (input line : List ℕ) → IsWritten script program (events journal.now) input → IsRejected input line → ⊥ }
{
    written_journals_are_read(journal);
    one_journal();
}
