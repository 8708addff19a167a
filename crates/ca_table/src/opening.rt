// The parts of a run before its first event.
ghost use Rattle.std.specs.Prelude.{◌≡◌, ◌+◌, ◌++◌, ◌<◌, ◌≤◌, ◌-◌, ℕ, List, [], ◌∷◌, All, length, map, replicate, IfOk, None};
ghost use Rattle.ca_term.specs.Program.{program_view};
ghost use Rattle.ca_states.specs.ValidCode.{valid_code};
ghost use Rattle.ca_meaning.specs.Body.{new_body};
ghost use Rattle.ca_meaning.specs.Task.{BodyRest, TaskBody, script};
ghost use Rattle.ca_turns.specs.Hands.{IsFresh, TableId};
ghost use Rattle.ca_turns.specs.Places.{total};
ghost use Rattle.ca_commit.specs.Opening.{unasked};
ghost use Rattle.ca_table.specs.Opening.{empty_bank, empty_shard, idle_lane, main_ready, none_ready, opening_list, seen_part};
ghost use Rattle.ca_table.specs.Parts.{part_seen};
ghost use Rattle.ca_table.specs.Seen.{PartSeen, seen_timers};
ghost use Rattle.ca_table.specs.Workers.{IsNewWorker, IsOpenedWith, IsReady, stands_for};
ghost use Rattle.ca_table.specs.Worked.{HasDrawnNothing};

use crate::answer::WorkEnd;
use crate::part::{Clockwork, Contents, Counts, Lane, Mark, Part};
use crate::pool::Pool;
use crate::worker::Worker;
use ca_agent::agent::Agent;
use ca_bank::bank::Bank;
use ca_bank::shard::Shard;
use ca_commit::held::{HeldBank, HeldShard};
use ca_commit::task::{Ready, Task};
use ca_journal::entries::Entries;
use ca_states::valid_code::ValidCode;
use ca_term::program::Program;
use ca_timers::clock::Clock;
use ca_timers::timers::Timers;
use ca_turns::{Hand, Table};
use ca_value::memory::OutOfMemory;
use std::alloc::Global;
use std::snapshot::Snapshot;

const BANKS: u64 = 16;

fn idle_lane<A: Agent, C: Clock + Drop>(
    alloc: Global,
    program: &Program,
    code: &ValidCode,
    workers: u64,
) -> Result<Part<A, C>, OutOfMemory>
    ensures { IfOk result (λ p. part_seen C.least C.faults C.readings p ≡ idle_lane workers (valid_code code.now) program.now) }
{
    let lane = Lane {
        program: Snapshot::of(program),
        task: None,
        since: 0,
        counts: Counts {
            tasks: 0,
            ports: 0,
            waits: 0,
        },
    };
    Ok(Part {
        workers,
        code: Snapshot::of(code),
        contents: Contents::Lane(Box::new(alloc, lane)?),
    })
}

fn empty_bank<A: Agent, C: Clock + Drop>(
    alloc: Global,
    code: &ValidCode,
    workers: u64,
    number: u64,
) -> Result<Part<A, C>, OutOfMemory>
    requires { number < 16 }
    ensures { IfOk result (λ p. part_seen C.least C.faults C.readings p ≡ empty_bank workers (valid_code code.now)) }
{
    let bank = Bank::new(alloc, number, BANKS);
    Ok(Part {
        workers,
        code: Snapshot::of(code),
        contents: Contents::Bank(HeldBank::new(alloc, number, bank)?),
    })
}

fn empty_shard<A: Agent, C: Clock + Drop>(
    alloc: Global,
    code: &ValidCode,
    workers: u64,
    number: u64,
) -> Result<Part<A, C>, OutOfMemory>
    requires { number < 16 }
    ensures { IfOk result (λ p. part_seen C.least C.faults C.readings p ≡ empty_shard workers (valid_code code.now)) }
{
    let shard = Shard::new(alloc, number, BANKS);
    Ok(Part {
        workers,
        code: Snapshot::of(code),
        contents: Contents::Shard(HeldShard::new(alloc, number, shard)?),
    })
}

fn timers<A: Agent, C: Clock + Drop>(
    alloc: Global,
    code: &ValidCode,
    workers: u64,
    clock: C,
) -> Result<Part<A, C>, OutOfMemory>
    ensures { IfOk result (λ p. part_seen C.least C.faults C.readings p ≡ seen_part workers (valid_code code.now) (seen_timers (unasked (C.least clock) (C.faults clock) (C.readings clock)))) }
{
    let clockwork = Clockwork {
        timers: Timers::new(alloc),
        clock,
        mark: Mark::Unmarked,
    };
    Ok(Part {
        workers,
        code: Snapshot::of(code),
        contents: Contents::Timers(Box::new(alloc, clockwork)?),
    })
}

fn none_ready<A: Agent, C: Clock + Drop>(
    alloc: Global,
    code: &ValidCode,
    workers: u64,
) -> Result<Part<A, C>, OutOfMemory>
    ensures { IfOk result (λ p. part_seen C.least C.faults C.readings p ≡ none_ready workers (valid_code code.now)) }
{
    Ok(Part {
        workers,
        code: Snapshot::of(code),
        contents: Contents::Ready(Ready::new(alloc)?),
    })
}

fn main_ready<A: Agent, C: Clock + Drop>(
    alloc: Global,
    code: &ValidCode,
    workers: u64,
    main: A,
) -> Result<Part<A, C>, OutOfMemory>
    ensures { IfOk result (λ p. part_seen C.least C.faults C.readings p ≡ main_ready workers (valid_code code.now) main) }
{
    let mut ready = Ready::new(alloc)?;
    ready.reserve()?;
    ready.push(Task {
        number: 0,
        result: None,
        alts: 0,
        agent: main,
    });
    Ok(Part {
        workers,
        code: Snapshot::of(code),
        contents: Contents::Ready(ready),
    })
}

#[tactic(auto, using(crate::proofs::Pushes::one_more))]
fn push_lanes<A: Agent, C: Clock + Drop>(
    alloc: Global,
    parts: &mut Vec<Part<A, C>>,
    program: &Program,
    code: &ValidCode,
    workers: u64,
) -> Result<(), OutOfMemory>
    ensures { IfOk result (λ u. map (part_seen C.least C.faults C.readings) parts.new.items ≡ map (part_seen C.least C.faults C.readings) parts.old.items ++ replicate workers (idle_lane workers (valid_code code.now) program.now)) }
{
    for _ in 0..workers {
        parts.push(idle_lane(alloc, program, code, workers)?)?;
    }
    Ok(())
}

#[tactic(auto, using(crate::proofs::Pushes::one_more))]
fn push_banks<A: Agent, C: Clock + Drop>(
    alloc: Global,
    parts: &mut Vec<Part<A, C>>,
    code: &ValidCode,
    workers: u64,
) -> Result<(), OutOfMemory>
    ensures { IfOk result (λ u. map (part_seen C.least C.faults C.readings) parts.new.items ≡ map (part_seen C.least C.faults C.readings) parts.old.items ++ replicate 16 (empty_bank workers (valid_code code.now))) }
{
    for number in 0..BANKS {
        parts.push(empty_bank(alloc, code, workers, number)?)?;
    }
    Ok(())
}

#[tactic(auto, using(crate::proofs::Pushes::one_more))]
fn push_shards<A: Agent, C: Clock + Drop>(
    alloc: Global,
    parts: &mut Vec<Part<A, C>>,
    code: &ValidCode,
    workers: u64,
) -> Result<(), OutOfMemory>
    ensures { IfOk result (λ u. map (part_seen C.least C.faults C.readings) parts.new.items ≡ map (part_seen C.least C.faults C.readings) parts.old.items ++ replicate 16 (empty_shard workers (valid_code code.now))) }
{
    for number in 0..BANKS {
        parts.push(empty_shard(alloc, code, workers, number)?)?;
    }
    Ok(())
}

#[tactic(auto, using(crate::proofs::Pushes::one_more))]
fn push_readys<A: Agent, C: Clock + Drop>(
    alloc: Global,
    parts: &mut Vec<Part<A, C>>,
    code: &ValidCode,
    workers: u64,
    count: u64,
) -> Result<(), OutOfMemory>
    ensures { IfOk result (λ u. map (part_seen C.least C.faults C.readings) parts.new.items ≡ map (part_seen C.least C.faults C.readings) parts.old.items ++ replicate count (none_ready workers (valid_code code.now))) }
{
    for _ in 0..count {
        parts.push(none_ready(alloc, code, workers)?)?;
    }
    Ok(())
}

/// The parts of a run of 1 or more workers, with the main text as the one task that can run.
pub fn opening_parts<A: Agent, C: Clock + Drop>(
    alloc: Global,
    program: &Program,
    code: &ValidCode,
    main: A,
    workers: u64,
    clock: C,
) -> Result<Vec<Part<A, C>>, OutOfMemory>
    requires { (0 < workers) × (workers ≤ 16) }
    ensures { IfOk result (λ v. map (part_seen C.least C.faults C.readings) v.items ≡ opening_list workers (valid_code code.now) program.now main (unasked (C.least clock) (C.faults clock) (C.readings clock))) }
{
    let count = (workers + BANKS + BANKS + 1 + workers) as usize;
    let mut parts = Vec::with_capacity(alloc, count)?;
    push_lanes(alloc, &mut parts, program, code, workers)?;
    push_banks(alloc, &mut parts, code, workers)?;
    push_shards(alloc, &mut parts, code, workers)?;
    let timers = timers(alloc, code, workers, clock)?;
    parts.push(timers)?;
    let main_ready = main_ready(alloc, code, workers, main)?;
    parts.push(main_ready)?;
    push_readys(alloc, &mut parts, code, workers, workers - 1)?;
    Ok(parts)
}

/// A table with the parts of a run of 1 to 16 workers before its first event, and the workers. `main` is the agent of
/// the program's main text, over the code; program and code are there for the proofs. Where there is no memory the clock is dropped.
pub fn open_pool<A: Agent, C: Clock + Drop>(
    alloc: Global,
    program: &Program,
    code: &ValidCode,
    main: A,
    workers: u64,
    clock: C,
) -> Result<(Table<Pool<A, C>>, Vec<Worker<A, C>>), OutOfMemory>
    requires workers { (0 < workers) × (workers ≤ 16) }
    requires main { (body : TaskBody) × BodyRest (program_view program.now) (script (new_body (program_view program.now).main)) body × A.stands (program_view program.now) main body }
    requires over { A.over (valid_code code.now) main }
    ensures workers { IfOk result (λ t. length t.1.items ≡ workers) }
    ensures ready { IfOk result (λ t. All (IsReady A.over A.stands (program_view program.now) (valid_code code.now) t.0.id workers) t.1.items) }
    ensures all { IfOk result (λ t. total stands_for t.1.items ≡ workers) }
    ensures each { IfOk result (λ t. All (λ w. stands_for w ≡ 1) t.1.items) }
    ensures idle { IfOk result (λ t. All HasDrawnNothing t.1.items) }
    ensures opening { IfOk result (λ t. All (IsOpenedWith (opening_list workers (valid_code code.now) program.now main (unasked (C.least clock) (C.faults clock) (C.readings clock)))) t.1.items) }
{
    let parts = opening_parts(alloc, program, code, main, workers, clock)?;
    let Ok((table, hands)) = Table::<Pool<A, C>>::open(alloc, parts, workers) else {
        return Err(OutOfMemory);
    };
    Ok((table, enlist(alloc, hands, program, code, workers)?))
}

// A worker for each hand; their numbers are the places of their hands.
fn enlist<A: Agent, C: Clock + Drop>(
    alloc: Global,
    mut hands: Vec<Hand<Pool<A, C>>>,
    program: &Program,
    code: &ValidCode,
    workers: u64,
) -> Result<Vec<Worker<A, C>>, OutOfMemory>
    requires { length hands.items ≡ workers }
    ensures many { IfOk result (λ v. length v.items ≡ workers) }
    ensures new { IfOk result (λ v. (id : TableId) (cs : List (PartSeen A)) (n : ℕ) → All (IsFresh id cs n) hands.items → All (IsNewWorker (program_view program.now) (valid_code code.now) workers id cs n) v.items) }
{
    let mut all = Vec::with_capacity(alloc, hands.len())?;
    while let Some(hand) = hands.pop() {
        let number = hands.len() as u64;
        all.push(Worker {
            number,
            workers,
            program: Snapshot::of(program),
            code: Snapshot::of(code),
            hand,
            entries: Entries::new(alloc),
            answer: Ok(WorkEnd::Spent),
        })?;
    }
    Ok(all)
}
