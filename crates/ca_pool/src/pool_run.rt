// A whole run.
ghost use Rattle.std.specs.Prelude.{◌≡◌, ℕ, ◌+◌, ◌*◌, ◌<◌, ◌≤◌, All, List, IfOk, OnOk, Ok, Err, None, Some, Option, length, map, slice_index_or, false, true};
ghost use Rattle.ca_term.specs.Program.{program_view};
ghost use Rattle.ca_meaning.specs.Body.{new_body};
ghost use Rattle.ca_meaning.specs.Cost.{cost};
ghost use Rattle.ca_meaning.specs.ChannelLaw.{ChannelLaw};
ghost use Rattle.ca_meaning.specs.Ends.{HasEnd, IsWithin};
ghost use Rattle.ca_meaning.specs.EndsLaw.{IsQuiet};
ghost use Rattle.ca_meaning.specs.Legal.{EndsLast, Legal, Reaches};
ghost use Rattle.ca_meaning.specs.State.{State};
ghost use Rattle.ca_meaning.specs.Task.{BodyRest, TaskBody, script};
ghost use Rattle.ca_meaning.specs.WaitLaw.{WaitLaw};
ghost use Rattle.ca_derived_laws.specs.ReduceLaw.{ReduceLaw};
ghost use Rattle.ca_derived_laws.specs.SplitLaw.{SplitLaw};
ghost use Rattle.ca_derived_laws.specs.TakeLaw.{TakeLaw};
ghost use Rattle.ca_states.specs.ValidCode.{valid_code};
ghost use Rattle.ca_lower.specs.Gos.{SameGos};
ghost use Rattle.ca_lower.specs.Lowered.{Lowered};
ghost use Rattle.ca_journal.specs.Cut.{end_in};
ghost use Rattle.ca_journal.specs.Events.{events};
ghost use Rattle.ca_turns.specs.Places.{total};
ghost use Rattle.ca_commit.specs.Contents.{TimersPart, the_timers};
ghost use Rattle.ca_commit.specs.Gathered.{kind_of_part, parts_of, timers_kind};
ghost use Rattle.ca_commit.specs.Opening.{unasked};
ghost use Rattle.ca_timers.specs.Causes.{Rose};
ghost use Rattle.ca_table.specs.Moments.{KeepsTime};
ghost use Rattle.ca_table.specs.Opening.{opening_list};
ghost use Rattle.ca_table.specs.Parts.{contents_seen, part_seen};
ghost use Rattle.ca_table.specs.Running.{contents_at};
ghost use Rattle.ca_table.specs.Seen.{PartSeen, held_of};
ghost use Rattle.ca_table.specs.declared.part.Part.{Part};
ghost use Rattle.ca_table.specs.Worked.{HasMainEnd, any_drew, ends_main, fails_clock, gives_up, finds_run_end, obeys_mark, spent, stays_stuck};
ghost use Rattle.ca_table.specs.Workers.{IsOpenedWith, IsReady, stands_for};
ghost use Rattle.ca_table.specs.declared.answer.PoolStop.TheVariants.{ClockFailed};
ghost use Rattle.ca_table.specs.declared.answer.WorkEnd.TheVariants.{Over, Spent};
ghost use Rattle.ca_pool.specs.Answers.{BeginsAlone, StopsAlone};
ghost use Rattle.ca_pool.specs.PoolEnds.{IsSolo, end_view};

use crate::gate::Gate;
use crate::rounds::round;
use crate::run_end::{PoolRun, RunStop, end_run};
use ca_agent::agent::Agent;
use ca_agent::starting::Starting;
use ca_journal::journal::Journal;
use ca_meaning::laws::values::values_of_a_run_are_values;
use ca_states::valid_code::ValidCode;
use ca_table::answer::{PoolStop, WorkEnd};
use ca_table::gathering::{Gathered, gather};
use ca_table::opening::open_pool;
use ca_table::part::{Clockwork, Contents, Part};
use ca_table::pool::Pool;
use ca_table::worker::Worker;
use ca_term::program::Program;
use ca_timers::clock::Clock;
use ca_turns::Table;
use ca_value::memory::OutOfMemory;
use std::alloc::Global;
use std::sync::Wait;
use std::thread::Threads;

// All workers at once.
fn round_of<R: Threads + Wait + Sync, A: Starting + Send, C: Clock + Drop + Send, G: Gate + Sync>(
    rt: &R,
    alloc: Global,
    table: &Table<Pool<A, C>>,
    workers: &mut Vec<Worker<A, C>>,
    allowance: u64,
    program: &Program,
    code: &ValidCode,
    gate: &G,
) -> Result<WorkEnd, PoolStop>
    requires some { 0 < length workers.old.items }
    requires ready { All (IsReady A.over A.stands (program_view program.now) (valid_code code.now) table.now.id (length workers.old.items)) workers.old.items }
    requires lowered { Lowered (program_view program.now) (valid_code code.now) }
    requires gos { SameGos (program_view program.now) (valid_code code.now) }
    ensures many { length workers.new.items ≡ length workers.old.items }
    ensures ready { OnOk result (All (IsReady A.over A.stands (program_view program.now) (valid_code code.now) table.now.id (length workers.old.items)) workers.new.items) }
    ensures failed { result ≡ Err ClockFailed → All (IsReady A.over A.stands (program_view program.now) (valid_code code.now) table.now.id (length workers.old.items)) workers.new.items × (total stands_for workers.new.items ≡ total stands_for workers.old.items) × (any_drew fails_clock workers.new.items ≡ true) }
    ensures stay { OnOk result (total stands_for workers.new.items ≡ total stands_for workers.old.items) }
    ensures going { OnOk result (any_drew gives_up workers.old.items ≡ false → any_drew gives_up workers.new.items ≡ false) }
    ensures spent { IfOk result (λ e. e ≡ Spent → length workers.old.items * allowance + total spent workers.old.items ≤ total spent workers.new.items) }
    ensures over { IfOk result (λ e. e ≡ Over → any_drew finds_run_end workers.new.items ≡ true) }
    ensures opening { (o : List (PartSeen A)) → All (IsOpenedWith o) workers.old.items → All (IsOpenedWith o) workers.new.items }
    ensures solo { OnOk result ((opening : List (PartSeen A)) → 0 < allowance → All (BeginsAlone opening) workers.old.items → All (StopsAlone A.over A.place A.stands A.advances A.gives A.starts code.now allowance opening) workers.new.items) }
{
    round(
        rt,
        alloc,
        table,
        workers.as_mut_slice(),
        allowance,
        program,
        code,
        gate,
    )
}

// The clock of a timers' part.
fn clock_in<A: Agent, C: Clock + Drop>(contents: Contents<A, C>) -> C
    requires { kind_of_part (held_of (contents_seen C.least C.faults C.readings contents)) ≡ timers_kind }
    ensures { (t : TimersPart) → held_of (contents_seen C.least C.faults C.readings contents) ≡ the_timers t → (C.least result ≡ t.least) × (C.readings result ≡ t.readings) × (C.faults result ≡ t.faults) }
{
    match contents {
        Contents::Timers(clockwork) => {
            let Clockwork {
                timers: _,
                clock,
                mark: _,
            } = Box::into_inner(clockwork);
            clock
        }
        _ => unreachable!(),
    }
}

// The clock lies in the timers, which come after all lanes, banks and shards.
fn clock_of<A: Agent, C: Clock + Drop>(mut parts: Vec<Part<A, C>>, workers: u64) -> C
    requires few { workers ≤ 16 }
    requires there { workers + 32 < length parts.items }
    requires kind { (p : Part A C) → kind_of_part (held_of (contents_seen C.least C.faults C.readings (slice_index_or parts.items (workers + 32) p).contents)) ≡ timers_kind }
    ensures { (t : TimersPart) → (parts_of workers (contents_at (map (part_seen C.least C.faults C.readings) parts.items))).timers ≡ Some t → (C.least result ≡ t.least) × (C.readings result ≡ t.readings) × (C.faults result ≡ t.faults) }
{
    let at = (workers + 32) as usize;
    let Part {
        workers: _,
        code: _,
        contents,
    } = parts.swap_remove(at);
    clock_in(contents)
}

// Closes the table of these workers: the journal of what they drew, whose moments are answers of the clock in order, and
// the clock. Of one worker the journal is the run of the schedule over these answers.
fn collect<A: Agent, C: Clock + Drop>(
    alloc: Global,
    table: Table<Pool<A, C>>,
    hands: Vec<Worker<A, C>>,
    program: &Program,
    code: &ValidCode,
    workers: u64,
) -> Result<(Journal, C), OutOfMemory>
    requires workers { (0 < workers) × (workers ≤ 16) }
    requires many { length hands.items ≡ workers }
    requires ready { All (IsReady A.over A.stands (program_view program.now) (valid_code code.now) table.id workers) hands.items }
    requires all { total stands_for hands.items ≡ workers }
    ensures run { IfOk result (λ g. (s : State) × Reaches (program_view program.now) (events g.0) s × (any_drew stays_stuck hands.items ≡ true → IsQuiet s)) }
    ensures main { IfOk result (λ g. any_drew ends_main hands.items ≡ true → HasMainEnd (events g.0)) }
    ensures marked { IfOk result (λ g. any_drew gives_up hands.items ≡ false → any_drew obeys_mark hands.items ≡ true → HasMainEnd (events g.0)) }
    ensures spent { IfOk result (λ g. cost (events g.0) ≡ total spent hands.items) }
    ensures clock { IfOk result (λ g. (main : A) (least faults : ℕ) (readings : Option (List ℕ)) → All (IsOpenedWith (opening_list workers (valid_code code.now) program.now main (unasked least faults readings))) hands.items → KeepsTime (events g.0) least readings (C.readings g.1) × (any_drew fails_clock hands.items ≡ true → Rose faults (C.faults g.1))) }
    ensures solo { IfOk result (λ g. (main : A) (first : C) (allowance : ℕ) → workers ≡ 1 → All (StopsAlone A.over A.place A.stands A.advances A.gives A.starts code.now allowance (opening_list workers (valid_code code.now) program.now main (unasked (C.least first) (C.faults first) (C.readings first)))) hands.items → IsSolo (program_view program.now) (events g.0) (C.least first) (C.readings first) (C.readings g.1) × IsWithin allowance (events g.0) × EndsLast (events g.0)) }
{
    let gathered = gather(alloc, table, hands, program, code)?;
    let Gathered { journal, parts } = gathered;
    Ok((journal, clock_of(parts, workers)))
}

// The whole journal of workers whose allowances are the budget together, and the clock. Its moments are the clock's
// answers in order; of one worker it is the run of the schedule over them.
fn work_through<
    R: Threads + Wait + Sync,
    A: Starting + Send,
    C: Clock + Drop + Send,
    G: Gate + Sync,
>(
    rt: &R,
    alloc: Global,
    program: &Program,
    code: &ValidCode,
    main: A,
    workers: u64,
    budget: u64,
    clock: C,
    gate: &G,
) -> Result<(Journal, C), RunStop<C>>
    requires workers { (0 < workers) × (workers ≤ 16) }
    requires budget { 0 < budget }
    requires main { (body : TaskBody) × BodyRest (program_view program.now) (script (new_body (program_view program.now).main)) body × A.stands (program_view program.now) main body }
    requires over { A.over (valid_code code.now) main }
    requires lowered { Lowered (program_view program.now) (valid_code code.now) }
    requires gos { SameGos (program_view program.now) (valid_code code.now) }
    ensures run { IfOk result (λ j. (s : State) × Reaches (program_view program.now) (events j.0) s × (end_in budget (events j.0) ≡ None → IsQuiet s)) }
    ensures moments { IfOk result (λ j. KeepsTime (events j.0) (C.least clock) (C.readings clock) (C.readings j.1)) }
    ensures failed { (c : C) → result ≡ Err (RunStop.ClockFailed c) → Rose (C.faults clock) (C.faults c) }
    ensures solo { IfOk result (λ j. workers ≡ 1 → IsSolo (program_view program.now) (events j.0) (C.least clock) (C.readings clock) (C.readings j.1)) }
    ensures whole { IfOk result (λ j. workers ≡ 1 → IsWithin budget (events j.0) × EndsLast (events j.0)) }
{
    let opened = open_pool(alloc, program, code, main, workers, clock)?;
    let (table, mut hands) = opened;
    let allowance = (budget - 1) / workers + 1;
    match round_of(
        rt, alloc, &table, &mut hands, allowance, program, code, gate,
    ) {
        Ok(_end) => {
            let collected = collect(alloc, table, hands, program, code, workers)?;
            Ok(collected)
        }
        Err(PoolStop::ClockFailed) => {
            let collected = collect(alloc, table, hands, program, code, workers)?;
            let (_journal, clock) = collected;
            Err(RunStop::ClockFailed(clock))
        }
        Err(PoolStop::OutOfMemory) => Err(RunStop::OutOfMemory),
    }
}

/// Runs the program with 1 to 16 workers, until an end. `main` is the agent of the program's main text, over the code
/// that the program was lowered to. The journal is a run of the program, and has the end for the budget; each channel in
/// it keeps its order, and each operation has one event. The moments in it are answers that the clock gave, in order, and
/// never fall; with one worker it is the run of the stated schedule over these answers. Where a worker wants memory that
/// there isn't, or the clock fails, the run is given up, and a clock that failed is handed back.
pub fn run_pool<
    R: Threads + Wait + Sync,
    A: Starting + Send,
    C: Clock + Drop + Send,
    G: Gate + Sync,
>(
    rt: &R,
    alloc: Global,
    program: &Program,
    code: &ValidCode,
    main: A,
    workers: u64,
    budget: u64,
    clock: C,
    gate: &G,
) -> Result<PoolRun<C>, RunStop<C>>
    requires workers { (0 < workers) × (workers ≤ 16) }
    requires budget { 0 < budget }
    requires main { (body : TaskBody) × BodyRest (program_view program.now) (script (new_body (program_view program.now).main)) body × A.stands (program_view program.now) main body }
    requires over { A.over (valid_code code.now) main }
    requires lowered { Lowered (program_view program.now) (valid_code code.now) }
    requires gos { SameGos (program_view program.now) (valid_code code.now) }
    ensures legal { IfOk result (λ run. Legal (program_view program.now) (events run.journal)) }
    ensures end { IfOk result (λ run. HasEnd (program_view program.now) budget (events run.journal) (end_view run.end)) }
    ensures channels { IfOk result (λ run. ChannelLaw (events run.journal)) }
    ensures waits { IfOk result (λ run. WaitLaw (program_view program.now) (events run.journal)) }
    ensures takes { IfOk result (λ run. TakeLaw (program_view program.now) (events run.journal)) }
    ensures reduces { IfOk result (λ run. ReduceLaw (program_view program.now) (events run.journal)) }
    ensures splits { IfOk result (λ run. SplitLaw (program_view program.now) (events run.journal)) }
    ensures moments { IfOk result (λ run. KeepsTime (events run.journal) (C.least clock) (C.readings clock) (C.readings run.clock)) }
    ensures failed { (c : C) → result ≡ Err (RunStop.ClockFailed c) → Rose (C.faults clock) (C.faults c) }
    ensures solo { IfOk result (λ run. workers ≡ 1 → IsSolo (program_view program.now) (events run.journal) (C.least clock) (C.readings clock) (C.readings run.clock)) }
{
    let worked = work_through(rt, alloc, program, code, main, workers, budget, clock, gate)?;
    let (journal, clock) = worked;
    // Each event of a run shows little, so what it costs can be told.
    program.checked();
    values_of_a_run_are_values();
    let (journal, end) = end_run(journal, budget);
    Ok(PoolRun {
        journal,
        end,
        clock,
    })
}
