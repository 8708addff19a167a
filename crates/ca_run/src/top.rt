ghost use Rattle.std.specs.Prelude.{◌≡◌, ◌≢◌, ◌⊎◌, ◌≤◌, ℕ, List, Option, map, string_bytes, true, false, codes, None, Some, Ok, Err, IfOk, IsSome, option_map};
ghost use Rattle.std.specs.Io.KnownBytes.{Appends};
ghost use Rattle.ca_journal.specs.Events.{events};
ghost use Rattle.ca_journal.specs.declared.journal.Journal.{Journal};
ghost use Rattle.ca_meaning.specs.Ends.{ended, faulted, limit, stuck};
ghost use Rattle.ca_meaning.specs.Solo.{NoTimeouts};
ghost use Rattle.ca_timers.specs.Causes.{Rose};
ghost use Rattle.ca_words.specs.Words.{command_in};
ghost use Rattle.ca_words.specs.declared.command.Command.TheVariants.{Check, Follow, Load, Replay, Report};
ghost use Rattle.ca_run.specs.Findings.{finding_status, IsFollowedText, IsRejected, IsReplayed, IsReported};
ghost use Rattle.ca_run.specs.Top.{Accepted, ClockSpan, Completed, CompletedFor, IsComplete, IsLawful, NoneRose, ReadsScript, Refused, RunsScript, Partly, ToldNothing, JudgesJournal, Writes, judges, reads_source, runs_script, span_between, span_of, usage};
ghost use Rattle.ca_run.specs.Answers.{status_of, journal_of, AnswersTo, IsFit, RunsNothing};
ghost use Rattle.ca_run.specs.Stops.{clock_left};
ghost use Rattle.ca_run.specs.declared.answer.Answer.{Answer};
ghost use Rattle.ca_run.specs.declared.stop.Stop.TheVariants.{ClockFailed, SourceFailed};

use crate::answer::{Answer, GREATEST_LENGTH, Refusal, judge_text, text_of};
use crate::device::{ReadError, Sink, Source, read_all, write_all};
use crate::finding::{Finding, find};
use crate::generator::load_script;
use crate::laws::journals_of_a_text_keep_the_laws;
use crate::run::ScriptEnd;
use crate::stop::Stop;
use ca_journal::journal::Journal;
use ca_pool::gate::Gate;
use ca_timers::clock::Clock;
use ca_value::memory;
use ca_words::command::{Command, WordsError};
use ca_words::reading::read_words;
use std::alloc::Global;
use std::sync::Wait;
use std::thread::Threads;

/// The greatest length of an input of a script and a journal, in bytes.
const GREATEST_INPUT: u64 = 67_108_864;

/// How a call of the program ended: its exit status, the journal of the run that it made, and the clock as the call left
/// it, None only at status 8.
#[derive(Drop)]
pub struct Finish<C> {
    pub status: u8,
    pub journal: Option<Journal>,
    pub clock: Option<C>,
}

// The command that the words ask for; None where they are not admitted.
fn asked(alloc: Global, words: &[String]) -> Result<Option<Command>, memory::OutOfMemory>
    ensures command { IfOk result (λ o. o ≡ command_in (map string_bytes words.now)) }
    ensures fit { IfOk result (λ o. (c : Command) → o ≡ Some c → IsFit c) }
{
    match read_words(alloc, words) {
        Ok(command) => Ok(Some(command)),
        Err(WordsError::Usage) => Ok(None),
        Err(WordsError::OutOfMemory) => Err(memory::OutOfMemory),
    }
}

// What the source's script comes to.
#[tactic(auto, using(crate::proofs::Judgements::answers_by_text))]
fn judge_source<R: Threads + Wait + Sync, S: Source, C: Clock + Drop + Send, G: Gate + Sync>(
    rt: &R,
    alloc: Global,
    command: Command,
    source: &mut S,
    clock: C,
    gate: &G,
) -> Result<(Answer, C), Stop<C>>
    requires fit { IsFit command }
    requires read { reads_source command ≡ true }
    requires unjudged { judges command ≡ false }
    ensures answers { (j : Answer × C) → result ≡ Ok j → AnswersTo (Some command) (span_between C.least C.readings clock j.1) (S.left source.old) (S.left source.new) j.0 }
    ensures later { S.faults source.old ≤ S.faults source.new }
    ensures broken { (c : C) → result ≡ Err (SourceFailed c) → Rose (S.faults source.old) (S.faults source.new) × (c ≡ clock) }
    ensures failed { (c : C) → result ≡ Err (ClockFailed c) → Rose (C.faults clock) (C.faults c) }
    ensures ran { (c : C) → result ≡ Err (ClockFailed c) → RunsScript (Some command) (S.left source.old) (S.left source.new) }
    ensures unasked { (j : Answer × C) → result ≡ Ok j → RunsNothing j.0 → j.1 ≡ clock }
    ensures idle { runs_script command ≡ false → clock_left result ≡ Some clock }
{
    let input = match read_all(alloc, source, GREATEST_LENGTH) {
        Ok(input) => input,
        Err(ReadError::Broken) => return Err(Stop::SourceFailed(clock)),
        Err(ReadError::OutOfMemory) => return Err(Stop::OutOfMemory(Some(clock))),
    };
    if input.len() > GREATEST_LENGTH {
        return Ok((Answer::Refused(Refusal::TooLong), clock));
    }
    judge_text(rt, alloc, command, input.as_slice(), clock, gate)
}

// What the source's script and journal come to.
#[tactic(auto, using(crate::proofs::Judgements::answers_by_input))]
fn judge_input<S: Source, C: Clock + Drop>(
    alloc: Global,
    command: Command,
    source: &mut S,
    clock: C,
) -> Result<(Answer, C), Stop<C>>
    requires { judges command ≡ true }
    ensures answers { (span : ClockSpan) (j : Answer × C) → result ≡ Ok j → AnswersTo (Some command) span (S.left source.old) (S.left source.new) j.0 }
    ensures later { S.faults source.old ≤ S.faults source.new }
    ensures broken { (c : C) → result ≡ Err (SourceFailed c) → Rose (S.faults source.old) (S.faults source.new) }
    ensures unfailed { (c : C) → result ≢ Err (ClockFailed c) }
    ensures idle { clock_left result ≡ Some clock }
{
    let input = match read_all(alloc, source, GREATEST_INPUT) {
        Ok(input) => input,
        Err(ReadError::Broken) => return Err(Stop::SourceFailed(clock)),
        Err(ReadError::OutOfMemory) => return Err(Stop::OutOfMemory(Some(clock))),
    };
    if input.len() > GREATEST_INPUT {
        return Ok((Answer::Refused(Refusal::TooLong), clock));
    }
    match find(alloc, command, input.as_slice()) {
        Ok(answer) => Ok((answer, clock)),
        Err(memory::OutOfMemory) => Err(Stop::OutOfMemory(Some(clock))),
    }
}

// What the generator's script for the number comes to.
#[tactic(auto, using(crate::proofs::Judgements::answers_by_load))]
fn judge_load<R: Threads + Wait + Sync, C: Clock + Drop + Send, G: Gate + Sync>(
    rt: &R,
    alloc: Global,
    n: u64,
    workers: u64,
    clock: C,
    gate: &G,
) -> Result<(Answer, C), Stop<C>>
    requires fit { IsFit (Load n workers) }
    ensures answers { (left : Option (List ℕ)) (j : Answer × C) → result ≡ Ok j → AnswersTo (Some (Load n workers)) (span_between C.least C.readings clock j.1) left left j.0 }
    ensures failed { (c : C) → result ≡ Err (ClockFailed c) → Rose (C.faults clock) (C.faults c) }
    ensures ran { (left : Option (List ℕ)) (c : C) → result ≡ Err (ClockFailed c) → RunsScript (Some (Load n workers)) left left }
    ensures unbroken { (c : C) → result ≢ Err (SourceFailed c) }
    ensures unasked { (j : Answer × C) → result ≡ Ok j → RunsNothing j.0 → j.1 ≡ clock }
{
    let Ok(script) = load_script(alloc, n) else {
        return Err(Stop::OutOfMemory(Some(clock)));
    };
    let command = Command::Load { n, workers };
    judge_text(rt, alloc, command, script.as_slice(), clock, gate)
}

// What the words and the source come to, and the clock.
fn judge<R: Threads + Wait + Sync, S: Source, C: Clock + Drop + Send, G: Gate + Sync>(
    rt: &R,
    alloc: Global,
    asked: Option<Command>,
    source: &mut S,
    clock: C,
    gate: &G,
) -> Result<(Answer, C), Stop<C>>
    requires fit { (c : Command) → asked ≡ Some c → IsFit c }
    ensures unread { ((c : Command) → asked ≡ Some c → reads_source c ≡ false) → source.new ≡ source.old }
    ensures admitted { asked ≡ None → result ≡ Ok (Answer.Usage, clock) }
    ensures answers { (j : Answer × C) → result ≡ Ok j → AnswersTo asked (span_between C.least C.readings clock j.1) (S.left source.old) (S.left source.new) j.0 }
    ensures later { S.faults source.old ≤ S.faults source.new }
    ensures broken { (c : C) → result ≡ Err (SourceFailed c) → ReadsScript asked × Rose (S.faults source.old) (S.faults source.new) × (c ≡ clock) }
    ensures failed { (c : C) → result ≡ Err (ClockFailed c) → Rose (C.faults clock) (C.faults c) }
    ensures ran { (c : C) → result ≡ Err (ClockFailed c) → RunsScript asked (S.left source.old) (S.left source.new) }
    ensures unasked { (j : Answer × C) → result ≡ Ok j → RunsNothing j.0 → j.1 ≡ clock }
    ensures idle { ((c : Command) → asked ≡ Some c → runs_script c ≡ false) → clock_left result ≡ Some clock }
{
    let Some(command) = asked else {
        return Ok((Answer::Usage, clock));
    };
    match command {
        Command::Load { n, workers } => judge_load(rt, alloc, n, workers, clock, gate),
        Command::Run { .. } | Command::Check => {
            judge_source(rt, alloc, command, source, clock, gate)
        }
        Command::Replay | Command::Follow | Command::Report => {
            judge_input(alloc, command, source, clock)
        }
    }
}

/// Reads the words and the source, runs the script, checks it or judges a journal beside it, and writes what it prints, `ok`,
/// or what is found.
///
/// The words are those after the program's name. The text is made whole, and room for it in the sink, before the first
/// write. Status 0 is a run to the main text's end, an accepted script or a legal journal, 1 wrong words, 2 a refused script,
/// 3 a fault of the main text, 4 a run in which nothing can go on, 5 one that reached its budget, 6 a failed source, 7 a
/// failed sink, 8 want of memory, 9 a failed clock and 10 an input without a journal, or a journal that isn't legal. The
/// clock goes in by value and comes back as the call left it; only a run that was given up for want of memory keeps it.
pub fn main_call<
    R: Threads + Wait + Sync,
    S: Source,
    K: Sink,
    C: Clock + Drop + Send,
    G: Gate + Sync,
>(
    rt: &R,
    alloc: Global,
    words: &[String],
    source: &mut S,
    sink: &mut K,
    clock: C,
    gate: &G,
) -> Finish<C>
    // The headline: whatever the number of workers, and however their steps fall, a run of the script's text in which no
    // body is ever cut. It ends with the main text's end, a fault of the main text, where nothing can go on, or at its
    // budget. The moments of its timeouts and ticks never fall, and each is an answer that the clock gave in this call, in
    // order, where the clock tells its answers; with one worker it is the run of the stated schedule over these answers.
    ensures ended { (command : Command) → command_in (map string_bytes words.now) ≡ Some command → runs_script command ≡ true → result.status ≡ 0 → Completed command (S.left source.old) (S.left source.new) (K.held sink.old) (K.held sink.new) (span_of C.least C.readings clock result.clock) result.journal ended }
    ensures faulted { result.status ≡ 3 → CompletedFor (command_in (map string_bytes words.now)) (S.left source.old) (S.left source.new) (K.held sink.old) (K.held sink.new) (span_of C.least C.readings clock result.clock) result.journal faulted }
    ensures stuck { result.status ≡ 4 → CompletedFor (command_in (map string_bytes words.now)) (S.left source.old) (S.left source.new) (K.held sink.old) (K.held sink.new) (span_of C.least C.readings clock result.clock) result.journal stuck }
    ensures limit { result.status ≡ 5 → CompletedFor (command_in (map string_bytes words.now)) (S.left source.old) (S.left source.new) (K.held sink.old) (K.held sink.new) (span_of C.least C.readings clock result.clock) result.journal limit }

    // And each such run keeps the laws of channels, waits, mixes, mults and pipelines.
    ensures laws { (j : Journal) → result.journal ≡ Some j → IsLawful (command_in (map string_bytes words.now)) (S.left source.old) (S.left source.new) (events j) }

    // When each other status comes.
    ensures accepted { command_in (map string_bytes words.now) ≡ Some Check → result.status ≡ 0 → Accepted (S.left source.old) (S.left source.new) × Appends (K.held sink.old) (K.held sink.new) (codes "ok\n") }
    ensures usage { result.status ≡ 1 → (command_in (map string_bytes words.now) ≡ None) × Appends (K.held sink.old) (K.held sink.new) usage }
    ensures refused { result.status ≡ 2 → (command : Command) × (line : List ℕ) × (command_in (map string_bytes words.now) ≡ Some command) × Refused command (S.left source.old) (S.left source.new) line × Appends (K.held sink.old) (K.held sink.new) line }
    // What is found of a journal.
    ensures replayed { command_in (map string_bytes words.now) ≡ Some Replay → result.status ≡ 0 → Writes IsReplayed (S.left source.old) (S.left source.new) (K.held sink.old) (K.held sink.new) }
    ensures followed { command_in (map string_bytes words.now) ≡ Some Follow → result.status ≡ 0 → Writes IsFollowedText (S.left source.old) (S.left source.new) (K.held sink.old) (K.held sink.new) }
    ensures reported { command_in (map string_bytes words.now) ≡ Some Report → result.status ≡ 0 → Writes IsReported (S.left source.old) (S.left source.new) (K.held sink.old) (K.held sink.new) }
    ensures rejected { result.status ≡ 10 → JudgesJournal (command_in (map string_bytes words.now)) × Writes IsRejected (S.left source.old) (S.left source.new) (K.held sink.old) (K.held sink.new) }
    ensures read { result.status ≡ 6 → ReadsScript (command_in (map string_bytes words.now)) × Rose (S.faults source.old) (S.faults source.new) }
    ensures unread { (command : Command) → command_in (map string_bytes words.now) ≡ Some command → reads_source command ≡ false → source.new ≡ source.old }
    ensures write { result.status ≡ 7 → Rose (K.faults sink.old) (K.faults sink.new) }
    ensures partial { result.status ≡ 7 → Partly (command_in (map string_bytes words.now)) (S.left source.old) (S.left source.new) (K.held sink.old) (K.held sink.new) (span_of C.least C.readings clock result.clock) result.journal }
    ensures admitted { command_in (map string_bytes words.now) ≡ None → (source.new ≡ source.old) × ((result.status ≡ 1) ⊎ ((result.status ≡ 7) ⊎ (result.status ≡ 8))) }
    ensures unasked { ((result.status ≡ 1) ⊎ ((result.status ≡ 2) ⊎ (result.status ≡ 6))) ⊎ ((c : Command) → command_in (map string_bytes words.now) ≡ Some c → runs_script c ≡ false) → result.clock ≡ Some clock }
    ensures unrun { result.status ≡ 7 → result.journal ≡ None → result.clock ≡ Some clock }
    ensures untimed { (j : Journal) → result.journal ≡ Some j → NoTimeouts (events j) → ToldNothing (command_in (map string_bytes words.now)) (span_of C.least C.readings clock result.clock) }
    ensures kept { result.clock ≡ None → result.status ≡ 8 }
    ensures waited { result.status ≡ 9 → (c : C) × (result.clock ≡ Some c) × Rose (C.faults clock) (C.faults c) }
    ensures ran { result.status ≡ 9 → RunsScript (command_in (map string_bytes words.now)) (S.left source.old) (S.left source.new) }
    ensures silent { (result.status ≡ 6) ⊎ ((result.status ≡ 8) ⊎ (result.status ≡ 9)) → K.held sink.new ≡ K.held sink.old }
    ensures known { result.status ≤ 10 }
    ensures done { result.status ≡ 0 → (command : Command) × (command_in (map string_bytes words.now) ≡ Some command) }
    // Where no device failed, an accepted script comes to its end, or there was not the memory: the clauses above say of each
    // end which it is and what was written.
    ensures complete { NoneRose (S.faults source.old) (S.faults source.new) (K.faults sink.old) (K.faults sink.new) (C.faults clock) (option_map C.faults result.clock) → IsComplete (command_in (map string_bytes words.now)) (S.left source.old) result.status }
    ensures journal { IsSome result.journal → ((command : Command) × (command_in (map string_bytes words.now) ≡ Some command) × (runs_script command ≡ true)) × ((result.status ≡ 0) ⊎ ((3 ≤ result.status × result.status ≤ 5) ⊎ (result.status ≡ 7))) }
{
    journals_of_a_text_keep_the_laws();
    let Ok(asked) = asked(alloc, words) else {
        return without_journal(8, Some(clock));
    };
    let judged = match judge(rt, alloc, asked, source, clock, gate) {
        Ok(judged) => judged,
        Err(Stop::SourceFailed(clock)) => return without_journal(6, Some(clock)),
        Err(Stop::OutOfMemory(clock)) => return without_journal(8, clock),
        Err(Stop::ClockFailed(clock)) => return without_journal(9, Some(clock)),
    };
    let (answer, clock) = judged;
    let Ok(text) = text_of(alloc, &answer) else {
        return without_journal(8, Some(clock));
    };
    if sink.reserve(text.len()).is_err() {
        return without_journal(8, Some(clock));
    }
    let written = write_all(sink, text.as_slice()).is_ok();
    close(answer, written, clock)
}

fn without_journal<C: Drop>(status: u8, clock: Option<C>) -> Finish<C>
    ensures status { result.status ≡ status }
    ensures none { result.journal ≡ None }
    ensures clock { result.clock ≡ clock }
{
    Finish {
        status,
        journal: None,
        clock,
    }
}

// The status of the answer, or 7 where its text was not written.
fn close<C: Drop>(answer: Answer, written: bool, clock: C) -> Finish<C>
    ensures lost { written ≡ false → result.status ≡ 7 }
    ensures done { written ≡ true → result.status ≡ status_of answer }
    ensures journal { result.journal ≡ journal_of answer }
    ensures clock { result.clock ≡ Some clock }
{
    let status = if written { status_of(&answer) } else { 7 };
    match answer {
        Answer::Ran(run, _) => Finish {
            status,
            journal: Some(run.journal),
            clock: Some(clock),
        },
        Answer::Found(finding) => {
            drop(finding);
            without_journal(status, Some(clock))
        }
        Answer::Usage | Answer::Refused(_) | Answer::Accepted => {
            without_journal(status, Some(clock))
        }
    }
}

fn status_of(answer: &Answer) -> u8
    ensures { result ≡ status_of answer.now }
{
    match answer {
        Answer::Usage => 1,
        Answer::Refused(_) => 2,
        Answer::Accepted => 0,
        Answer::Ran(run, _) => match run.end {
            ScriptEnd::Ended => 0,
            ScriptEnd::Faulted(_, _) => 3,
            ScriptEnd::Stuck => 4,
            ScriptEnd::Limit => 5,
        },
        Answer::Found(finding) => status_of_finding(finding),
    }
}

fn status_of_finding(finding: &Finding) -> u8
    ensures { result ≡ finding_status finding.now }
{
    match finding {
        Finding::NoJournal | Finding::BadLine(_) | Finding::IllegalAt(_) => 10,
        Finding::Stands(_) | Finding::Written(_) | Finding::Lines(_) => 0,
    }
}
