ghost use Rattle.std.specs.Prelude.{◌≡◌, ◌≢◌, ◌++◌, [], cond, false, true, IfOk, OnOk, Some, Err};
ghost use Rattle.ca_value.specs.Seq.{list};
ghost use Rattle.ca_term.specs.Program.{program_view};
ghost use Rattle.ca_meaning.specs.Journal.{journal_text};
ghost use Rattle.ca_meaning.specs.Texts.{output};
ghost use Rattle.ca_journal.specs.Events.{events};
ghost use Rattle.ca_timers.specs.Causes.{Rose};
ghost use Rattle.ca_run.specs.Inputs.{HasProgram};
ghost use Rattle.ca_run.specs.Top.{error_line, judges, runs_script, span_between};
ghost use Rattle.ca_run.specs.Answers.{answer_text, line_of_end, refusal_line, IsFit, IsScripted, Judged, JudgedProgram, RunsNothing};
ghost use Rattle.ca_run.specs.Stops.{clock_left};
ghost use Rattle.ca_run.specs.declared.stop.Stop.TheVariants.{ClockFailed, SourceFailed};

use crate::finding::{Finding, text_of_finding};
use crate::run::{ScriptEnd, ScriptRun, run_script};
use crate::stop::Stop;
use ca_check::check::check;
use ca_derived::error::{FormsError, FormsErrorKind};
use ca_derived::expand::expand;
use ca_forms::error::{CheckError, CheckErrorKind};
use ca_journal::output::{append_fault, output};
use ca_journal::print::print;
use ca_pool::gate::Gate;
use ca_pool::run_end::RunStop;
use ca_reader::error::{ReadError, ReadErrorKind};
use ca_reader::read::read;
use ca_term::place::Place;
use ca_term::program::Program;
use ca_timers::clock::Clock;
use ca_value::memory::OutOfMemory;
use ca_value::seq::Text;
use ca_words::command::Command;
use std::alloc::Global;
use std::sync::Wait;
use std::thread::Threads;

/// The budget of a run of the generator's script.
const LOAD_BUDGET: u64 = 4_000_000;

/// The greatest length of a script, in bytes.
pub(crate) const GREATEST_LENGTH: u64 = 1_048_576;

/// Why a script is refused, with the place where it is.
#[derive(Clone, Copy)]
pub enum Refusal {
    /// More bytes than a script may have.
    TooLong,
    /// The first fault of the text.
    Unreadable(ReadErrorKind, Place),
    /// The first error of the words that are expanded.
    Underived(FormsErrorKind, Place),
    /// The first error of its derived forms.
    Unchecked(CheckErrorKind, Place),
}

/// What the words and the input come to.
#[derive(Drop)]
pub enum Answer {
    Usage,
    Refused(Refusal),
    /// The script has a program, and only that was asked.
    Accepted,
    /// The run, and whether its journal was asked for.
    Ran(ScriptRun, bool),
    /// What is found of a journal.
    Found(Finding),
}

/// What a text comes to as a script.
#[derive(Drop)]
pub enum Scripted {
    /// It has this program.
    Program(Program),
    Refused(Refusal),
}

/// The run of a text or that it is accepted, or why it is refused. The clock comes back as the run left it; where nothing
/// was run it is the one that was given.
#[tactic(auto, using(crate::proofs::Judgements::judged_by_program))]
pub fn judge_text<R: Threads + Wait + Sync, C: Clock + Drop + Send, G: Gate + Sync>(
    rt: &R,
    alloc: Global,
    command: Command,
    input: &[u8],
    clock: C,
    gate: &G,
) -> Result<(Answer, C), Stop<C>>
    requires fit { IsFit command }
    requires unjudged { judges command ≡ false }
    ensures judged { IfOk result (λ j. Judged command (span_between C.least C.readings clock j.1) input.now j.0) }
    ensures unasked { IfOk result (λ j. RunsNothing j.0 → j.1 ≡ clock) }
    ensures idle { runs_script command ≡ false → clock_left result ≡ Some clock }
    ensures failed { (c : C) → result ≡ Err (ClockFailed c) → Rose (C.faults clock) (C.faults c) }
    ensures ran { (c : C) → result ≡ Err (ClockFailed c) → (runs_script command ≡ true) × HasProgram input.now }
    ensures unbroken { (c : C) → result ≢ Err (SourceFailed c) }
{
    match program_of(alloc, input) {
        Ok(Scripted::Program(program)) => answer_of(rt, alloc, command, &program, clock, gate),
        Ok(Scripted::Refused(refusal)) => Ok((Answer::Refused(refusal), clock)),
        Err(OutOfMemory) => Err(Stop::OutOfMemory(Some(clock))),
    }
}

/// The program of a text, or why it has none.
pub(crate) fn program_of(alloc: Global, input: &[u8]) -> Result<Scripted, OutOfMemory>
    ensures { IfOk result (IsScripted input.now) }
{
    let forms = match read(alloc, input) {
        Ok(forms) => forms,
        Err(ReadError::Fault(kind, place)) => {
            return Ok(Scripted::Refused(Refusal::Unreadable(kind, place)));
        }
        Err(ReadError::OutOfMemory) => return Err(OutOfMemory),
    };
    let derived = match expand(alloc, &forms) {
        Ok(derived) => derived,
        Err(FormsError::Fault(kind, place)) => {
            return Ok(Scripted::Refused(Refusal::Underived(kind, place)));
        }
        Err(FormsError::OutOfMemory) => return Err(OutOfMemory),
    };
    match check(alloc, &derived) {
        Ok(program) => Ok(Scripted::Program(program)),
        Err(CheckError::Fault(kind, place)) => {
            Ok(Scripted::Refused(Refusal::Unchecked(kind, place)))
        }
        Err(CheckError::OutOfMemory) => Err(OutOfMemory),
    }
}

// What a program comes to.
fn answer_of<R: Threads + Wait + Sync, C: Clock + Drop + Send, G: Gate + Sync>(
    rt: &R,
    alloc: Global,
    command: Command,
    program: &Program,
    clock: C,
    gate: &G,
) -> Result<(Answer, C), Stop<C>>
    requires fit { IsFit command }
    requires unjudged { judges command ≡ false }
    ensures judged { IfOk result (λ j. JudgedProgram command (span_between C.least C.readings clock j.1) (program_view program.now) j.0) }
    ensures unasked { IfOk result (λ j. RunsNothing j.0 → j.1 ≡ clock) }
    ensures idle { runs_script command ≡ false → clock_left result ≡ Some clock }
    ensures failed { (c : C) → result ≡ Err (ClockFailed c) → Rose (C.faults clock) (C.faults c) }
    ensures ran { (c : C) → result ≡ Err (ClockFailed c) → runs_script command ≡ true }
    ensures unbroken { (c : C) → result ≢ Err (SourceFailed c) }
{
    let (workers, budget, shown) = match command {
        Command::Check => return Ok((Answer::Accepted, clock)),
        Command::Run {
            workers,
            budget,
            journal,
        } => (workers, budget, journal),
        Command::Load { workers, .. } => (workers, LOAD_BUDGET, false),
        Command::Replay | Command::Follow | Command::Report => unreachable!(),
    };
    match run_script(rt, alloc, program, workers, budget, clock, gate) {
        Ok((run, clock)) => Ok((Answer::Ran(run, shown), clock)),
        Err(RunStop::ClockFailed(clock)) => Err(Stop::ClockFailed(clock)),
        Err(RunStop::OutOfMemory) => Err(Stop::OutOfMemory(None)),
    }
}

/// The text that is written for the answer.
pub fn text_of(alloc: Global, answer: &Answer) -> Result<Text, OutOfMemory>
    ensures { IfOk result (λ t. list t ≡ answer_text answer.now) }
{
    match answer {
        Answer::Usage => Text::from_bytes(
            alloc,
            b"usage: run [--workers N] [--budget N] [--journal] / check / load N [--workers N] / replay / follow / report\n",
        ),
        Answer::Refused(refusal) => line_of(alloc, *refusal),
        Answer::Accepted => Text::from_bytes(alloc, b"ok\n"),
        Answer::Ran(run, shown) => text_of_run(alloc, run, *shown),
        Answer::Found(finding) => text_of_finding(alloc, finding),
    }
}

// What the run prints, its journal where that is shown, and then the line of its end.
fn text_of_run(alloc: Global, run: &ScriptRun, shown: bool) -> Result<Text, OutOfMemory>
    ensures { IfOk result (λ t. list t ≡ output (events run.now.journal) ++ (cond shown (journal_text (events run.now.journal)) [] ++ line_of_end run.now.end)) }
{
    let mut text = output(alloc, &run.journal)?;
    if shown {
        text.append(print(alloc, &run.journal)?.as_slice())?;
    }
    append_end(run.end, &mut text)?;
    Ok(text)
}

// The line that tells of the end.
fn append_end(end: ScriptEnd, text: &mut Text) -> Result<(), OutOfMemory>
    ensures { OnOk result (list text.new ≡ list text.old ++ line_of_end end) }
{
    match end {
        ScriptEnd::Ended => Ok(()),
        ScriptEnd::Faulted(fault, place) => append_fault(fault, place, text),
        ScriptEnd::Limit => text.append(b"budget\n"),
        ScriptEnd::Stuck => text.append(b"stuck\n"),
    }
}

fn line_of(alloc: Global, refusal: Refusal) -> Result<Text, OutOfMemory>
    ensures { IfOk result (λ t. list t ≡ refusal_line refusal) }
{
    match refusal {
        Refusal::TooLong => error_line(alloc, "TooLong", Place { line: 1, column: 1 }),
        Refusal::Unreadable(kind, place) => error_line(alloc, kind.name(), place),
        Refusal::Underived(kind, place) => error_line(alloc, kind.name(), place),
        Refusal::Unchecked(kind, place) => error_line(alloc, kind.name(), place),
    }
}

fn error_line(alloc: Global, name: &str, place: Place) -> Result<Text, OutOfMemory>
    ensures { IfOk result (λ t. list t ≡ error_line name.now place) }
{
    let mut text = Text::from_bytes(alloc, b"error ")?;
    text.append(name.as_bytes())?;
    text.append(b" at ")?;
    text.append(itoa::Buffer::new().format(place.line).as_bytes())?;
    text.append(b":")?;
    text.append(itoa::Buffer::new().format(place.column).as_bytes())?;
    text.append(b"\n")?;
    Ok(text)
}
