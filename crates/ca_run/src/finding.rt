//! What is found of a script and a journal, which are read from one input with a marker line between them.
ghost use Rattle.std.specs.Prelude.{◌≡◌, ◌<◌, ◌≤◌, ◌^◌, true, length, IfOk};
ghost use Rattle.ca_value.specs.Seq.{list};
ghost use Rattle.ca_term.specs.Program.{program_view};
ghost use Rattle.ca_journal.specs.Events.{events};
ghost use Rattle.ca_run.specs.Answers.{JudgedInput};
ghost use Rattle.ca_run.specs.Findings.{finding_text, numbered_line, IsFindingOf, IsOutputOf, IsReportOf, IsVerdictOf};
ghost use Rattle.ca_run.specs.Inputs.{greatest_input};
ghost use Rattle.ca_run.specs.Top.{judges};

use crate::answer::{Answer, GREATEST_LENGTH, Refusal, Scripted, program_of};
use crate::parting::parted;
use ca_follow::following::{Followed, follow};
use ca_journal::journal::Journal;
use ca_journal::print::texts_are_as_long_as_journals;
use ca_journal_reader::error::JournalError;
use ca_journal_reader::read::read_journal;
use ca_moves::lower::lower_moving;
use ca_replay::replaying::{Replayed, Standing, replay};
use ca_report::report::{Reported, report};
use ca_term::program::Program;
use ca_value::memory::OutOfMemory;
use ca_value::seq::Text;
use ca_words::command::Command;
use std::alloc::Global;

/// What is found of a journal.
#[derive(Drop)]
pub enum Finding {
    /// The input has no marker line, so there is none.
    NoJournal,
    /// That line of it, counted from 0, is the first that is none.
    BadLine(u64),
    /// That event, counted from 0, is the first that no legal run has there.
    IllegalAt(u64),
    /// It is legal, and stands so.
    Stands(Standing),
    /// It is legal, and this is what that run writes.
    Written(Text),
    /// It is legal, and this is the report on it.
    Lines(Text),
}

/// What the input's script and journal come to, or why the script is refused.
#[tactic(auto, using(crate::proofs::Judging::judged_by_finding))]
pub fn find(alloc: Global, command: Command, input: &[u8]) -> Result<Answer, OutOfMemory>
    requires judges { judges command ≡ true }
    requires short { length input.now ≤ greatest_input }
    ensures { IfOk result (JudgedInput command input.now) }
{
    let Some((script, text)) = parted(input) else {
        return Ok(Answer::Found(Finding::NoJournal));
    };
    if script.len() as u64 > GREATEST_LENGTH {
        return Ok(Answer::Refused(Refusal::TooLong));
    }
    match program_of(alloc, script)? {
        Scripted::Refused(refusal) => Ok(Answer::Refused(refusal)),
        Scripted::Program(program) => {
            let finding = finding_of(alloc, command, &program, text)?;
            Ok(Answer::Found(finding))
        }
    }
}

// What the text of a journal comes to, beside the script's program.
fn finding_of(
    alloc: Global,
    command: Command,
    program: &Program,
    text: &[u8],
) -> Result<Finding, OutOfMemory>
    requires judges { judges command ≡ true }
    requires short { length text.now ≤ greatest_input }
    ensures { IfOk result (IsFindingOf command (program_view program.now) text.now) }
{
    texts_are_as_long_as_journals();
    let journal = match read_journal(alloc, text) {
        Ok(journal) => journal,
        Err(JournalError::BadLine(number)) => return Ok(Finding::BadLine(number)),
        Err(JournalError::OutOfMemory) => return Err(OutOfMemory),
    };
    match command {
        Command::Replay => replayed(alloc, program, &journal),
        Command::Follow => followed(alloc, program, &journal),
        Command::Report => reported(alloc, program, &journal),
        Command::Run { .. } | Command::Check | Command::Load { .. } => unreachable!(),
    }
}

// Whether the journal is legal, and how it stands.
fn replayed(alloc: Global, program: &Program, journal: &Journal) -> Result<Finding, OutOfMemory>
    requires { length (events journal.now) < 2 ^ 32 }
    ensures { IfOk result (IsVerdictOf (program_view program.now) (events journal.now)) }
{
    match replay(alloc, program, journal)? {
        Replayed::Legal(standing) => Ok(Finding::Stands(standing)),
        Replayed::IllegalAt(number) => Ok(Finding::IllegalAt(number)),
    }
}

// What the compiled script writes along the journal, where it is legal.
fn followed(alloc: Global, program: &Program, journal: &Journal) -> Result<Finding, OutOfMemory>
    requires { length (events journal.now) < 2 ^ 32 }
    ensures { IfOk result (IsOutputOf (program_view program.now) (events journal.now)) }
{
    program.checked();
    let code = lower_moving(alloc, program)?;
    match follow(alloc, &code, journal)? {
        Followed::Written(text) => Ok(Finding::Written(text)),
        Followed::IllegalAt(number) => Ok(Finding::IllegalAt(number)),
    }
}

// The report on the journal, where it is legal.
fn reported(alloc: Global, program: &Program, journal: &Journal) -> Result<Finding, OutOfMemory>
    requires { length (events journal.now) < 2 ^ 32 }
    ensures { IfOk result (IsReportOf (program_view program.now) (events journal.now)) }
{
    match report(alloc, program, journal)? {
        Reported::Lines(text) => Ok(Finding::Lines(text)),
        Reported::IllegalAt(number) => Ok(Finding::IllegalAt(number)),
    }
}

/// The text that is written for the finding.
pub fn text_of_finding(alloc: Global, finding: &Finding) -> Result<Text, OutOfMemory>
    ensures { IfOk result (λ t. list t ≡ finding_text finding.now) }
{
    match finding {
        Finding::NoJournal => Text::from_bytes(alloc, b"no journal\n"),
        Finding::BadLine(number) => numbered_line(alloc, "bad line ", *number),
        Finding::IllegalAt(number) => numbered_line(alloc, "illegal ", *number),
        Finding::Stands(Standing::Ended) => Text::from_bytes(alloc, b"legal ended\n"),
        Finding::Stands(Standing::Faulted) => Text::from_bytes(alloc, b"legal faulted\n"),
        Finding::Stands(Standing::Stuck) => Text::from_bytes(alloc, b"legal stuck\n"),
        Finding::Stands(Standing::StillOpen) => Text::from_bytes(alloc, b"legal open\n"),
        Finding::Written(text) | Finding::Lines(text) => text.copy(alloc),
    }
}

// A line that ends with a number.
fn numbered_line(alloc: Global, word: &str, number: u64) -> Result<Text, OutOfMemory>
    ensures { IfOk result (λ t. list t ≡ numbered_line word.now number) }
{
    let mut text = Text::from_bytes(alloc, word.as_bytes())?;
    text.append(itoa::Buffer::new().format(number).as_bytes())?;
    text.append(b"\n")?;
    Ok(text)
}
