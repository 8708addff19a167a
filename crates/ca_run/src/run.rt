ghost use Rattle.std.specs.Prelude.{◌≡◌, ◌≤◌, ◌<◌, ℕ, List, IfOk, Option, Some, Err};
ghost use Rattle.ca_term.specs.declared.event.Ending.TheVariants.{Faulted as FaultedEnding};
ghost use Rattle.ca_term.specs.declared.fault.Fault.{Fault as FaultKind};
ghost use Rattle.ca_term.specs.declared.place.Place.{Place as PlaceKind};
ghost use Rattle.ca_term.specs.Event.{over};
ghost use Rattle.ca_term.specs.Program.{ProgramView, program_view};
ghost use Rattle.ca_value.specs.declared.value.PortId.{PortId};
ghost use Rattle.ca_meaning.specs.Ends.{EndsWith, HasEnd};
ghost use Rattle.ca_meaning.specs.Legal.{Legal};
ghost use Rattle.ca_journal.specs.Events.{events};
ghost use Rattle.ca_journal.specs.Note.{note_view};
ghost use Rattle.ca_timers.specs.Causes.{Rose};
ghost use Rattle.ca_table.specs.Moments.{KeepsTime};
ghost use Rattle.ca_pool.specs.PoolEnds.{IsSolo, end_view};
ghost use Rattle.ca_pool.specs.declared.run_end.RunStop.TheVariants.{ClockFailed};
ghost use Rattle.ca_sealed.specs.KeepsLaws.{KeepsLaws};
ghost use Rattle.ca_run.specs.Answers.{end_shown, line_of_end, main_fault};
ghost use Rattle.ca_run.specs.Inputs.{ProgramOf};
ghost use Rattle.ca_run.specs.Top.{EndLine};

use crate::laws::journals_of_a_text_keep_the_laws;
use ca_journal::journal::Journal;
use ca_journal::last::last;
use ca_journal::note::Note;
use ca_moves::lower::lower_moving;
use ca_pool::gate::Gate;
use ca_pool::pool_run::run_pool;
use ca_pool::run_end::{PoolEnd, PoolRun, RunStop};
use ca_tasks::task::AnyTask;
use ca_term::event::{Ending, Event};
use ca_term::fault::Fault;
use ca_term::place::Place;
use ca_term::program::Program;
use ca_timers::clock::Clock;
use ca_value::memory::OutOfMemory;
use std::alloc::Global;
use std::sync::Wait;
use std::thread::Threads;

/// How the run of a script came to its end.
#[derive(Clone, Copy)]
pub enum ScriptEnd {
    /// The main text has a value.
    Ended,
    /// The main text faulted at that place.
    Faulted(Fault, Place),
    /// Its events cost as much as the budget.
    Limit,
    /// No event is possible any more.
    Stuck,
}

/// The run of a script.
#[derive(Drop)]
pub struct ScriptRun {
    pub journal: Journal,
    pub end: ScriptEnd,
}

// The fault of the main text that is the last event, if it is one.
fn last_fault(alloc: Global, journal: &Journal) -> Result<Option<(Fault, Place)>, OutOfMemory>
    ensures { IfOk result (λ told. (f : FaultKind) (p : PlaceKind) (r : Option PortId) → EndsWith (events journal.now) (over 0 (FaultedEnding f p r)) → told ≡ Some (f, p)) }
{
    let Some(note) = last(alloc, journal)? else {
        return Ok(None);
    };
    Ok(fault_of(note))
}

// The fault of the main text that the note tells.
fn fault_of(note: &Note) -> Option<(Fault, Place)>
    ensures { result ≡ main_fault (note_view note.now) }
{
    let Note::Rare(event) = note else {
        return None;
    };
    match **event {
        Event::End {
            task: 0,
            ending: Ending::Faulted { fault, place, .. },
        } => Some((fault, place)),
        _ => None,
    }
}

// The same end, with the fault that the journal tells.
fn told(alloc: Global, journal: Journal, end: PoolEnd) -> Result<ScriptRun, OutOfMemory>
    requires end { (program : ProgramView) × (budget : ℕ) × HasEnd program budget (events journal) (end_view end) }
    ensures journal { IfOk result (λ run. run.journal ≡ journal) }
    ensures end { IfOk result (λ run. end_shown run.end ≡ end_view end) }
    ensures line { IfOk result (λ run. EndLine (events run.journal) (end_shown run.end) (line_of_end run.end)) }
{
    let end = match end {
        PoolEnd::Ended => ScriptEnd::Ended,
        PoolEnd::Limit => ScriptEnd::Limit,
        PoolEnd::Stuck => ScriptEnd::Stuck,
        PoolEnd::Faulted => {
            let fault = last_fault(alloc, &journal)?;
            match fault {
                Some((fault, place)) => ScriptEnd::Faulted(fault, place),
                None => unreachable!(),
            }
        }
    };
    Ok(ScriptRun { journal, end })
}

/// Compiles the program, and runs it with 1 to 16 workers, until an end or until its events cost the budget. The moments
/// of the journal are answers that the clock gave in this call, in order, and never fall. With one worker the run is that
/// of the stated schedule over these answers. The clock is handed back as the run left it; where the run wants memory that
/// there isn't, it is gone.
pub fn run_script<R: Threads + Wait + Sync, C: Clock + Drop + Send, G: Gate + Sync>(
    rt: &R,
    alloc: Global,
    program: &Program,
    workers: u64,
    budget: u64,
    clock: C,
    gate: &G,
) -> Result<(ScriptRun, C), RunStop<C>>
    requires workers { (0 < workers) × (workers ≤ 16) }
    requires budget { 0 < budget }
    ensures legal { IfOk result (λ m. Legal (program_view program.now) (events m.0.journal)) }
    ensures end { IfOk result (λ m. HasEnd (program_view program.now) budget (events m.0.journal) (end_shown m.0.end)) }
    ensures line { IfOk result (λ m. EndLine (events m.0.journal) (end_shown m.0.end) (line_of_end m.0.end)) }
    ensures moments { IfOk result (λ m. KeepsTime (events m.0.journal) (C.least clock) (C.readings clock) (C.readings m.1)) }
    ensures failed { (c : C) → result ≡ Err (ClockFailed c) → Rose (C.faults clock) (C.faults c) }
    ensures solo { IfOk result (λ m. workers ≡ 1 → IsSolo (program_view program.now) (events m.0.journal) (C.least clock) (C.readings clock) (C.readings m.1)) }
    ensures laws { IfOk result (λ m. (input : List ℕ) → ProgramOf input (program_view program.now) → KeepsLaws (program_view program.now) (events m.0.journal)) }
{
    let code = lower_moving(alloc, program)?;
    let main = AnyTask::main(alloc, &code)?;
    let run = run_pool(
        rt, alloc, program, &code, main, workers, budget, clock, gate,
    )?;
    let PoolRun {
        journal,
        end,
        clock,
    } = run;
    journals_of_a_text_keep_the_laws();
    Ok((told(alloc, journal, end)?, clock))
}
