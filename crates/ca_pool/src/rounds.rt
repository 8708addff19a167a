// All workers at once.
ghost use Rattle.std.specs.Prelude.{◌≡◌, ◌<◌, All, List, length, OnOk, Err, Ok};
ghost use Rattle.ca_term.specs.Program.{program_view};
ghost use Rattle.ca_lower.specs.Gos.{SameGos};
ghost use Rattle.ca_lower.specs.Lowered.{Lowered};
ghost use Rattle.ca_states.specs.ValidCode.{valid_code};
ghost use Rattle.ca_pool.specs.Answers.{BeginsAlone, CalledAt, EachWorked, HasCalled, HoldsLaneAtMost, StopsAlone, answers_joined, joined_from};
ghost use Rattle.ca_table.specs.Seen.{PartSeen};
ghost use Rattle.ca_table.specs.Workers.{IsReady};
ghost use Rattle.ca_table.specs.declared.answer.PoolStop.TheVariants.{ClockFailed};
ghost use Rattle.ca_table.specs.declared.answer.WorkEnd.TheVariants.{Spent};

use crate::gate::Gate;
use crate::work::work;
use ca_agent::agent::Agent;
use ca_agent::starting::Starting;
use ca_states::valid_code::ValidCode;
use ca_table::answer::{PoolStop, WorkEnd};
use ca_table::pool::Pool;
use ca_table::worker::Worker;
use ca_term::program::Program;
use ca_timers::clock::Clock;
use ca_turns::Table;
use std::alloc::Global;
use std::snapshot::Snapshot;
use std::sync::Wait;
use std::thread;
use std::thread::Threads;

// One worker's call, whose answer it keeps. The program is there for the proofs.
fn work_once<R: Wait, A: Starting, C: Clock + Drop, G: Gate>(
    rt: &R,
    alloc: Global,
    table: &Table<Pool<A, C>>,
    worker: &mut Worker<A, C>,
    allowance: u64,
    program: &Snapshot<Program>,
    code: &ValidCode,
    count: u64,
    gate: &G,
)
    requires ready { IsReady A.over A.stands (program_view program.now.value) (valid_code code.now) table.now.id count worker.old }
    requires lowered { Lowered (program_view program.now.value) (valid_code code.now) }
    requires gos { SameGos (program_view program.now.value) (valid_code code.now) }
    ensures { HasCalled A.over A.place A.stands A.advances A.gives A.starts code.now allowance (program_view program.now.value) table.now.id count worker.old worker.new }
{
    worker.answer = work(rt, alloc, table, worker, allowance, code, gate);
}

// All workers, each in a thread of its own.
fn work_all<R: Threads + Wait + Sync, A: Starting + Send, C: Clock + Drop + Send, G: Gate + Sync>(
    rt: &R,
    alloc: Global,
    table: &Table<Pool<A, C>>,
    workers: &mut [Worker<A, C>],
    allowance: u64,
    program: &Snapshot<Program>,
    code: &ValidCode,
    gate: &G,
)
    requires some { 0 < length workers.old }
    requires ready { All (IsReady A.over A.stands (program_view program.now.value) (valid_code code.now) table.now.id (length workers.old)) workers.old }
    requires lowered { Lowered (program_view program.now.value) (valid_code code.now) }
    requires gos { SameGos (program_view program.now.value) (valid_code code.now) }
    ensures many { length workers.new ≡ length workers.old }
    ensures called { CalledAt A.over A.place A.stands A.advances A.gives A.starts code.now allowance (program_view program.now.value) table.now.id (length workers.old) workers.old workers.new }
{
    let threads = workers.len();
    let count = threads as u64;
    thread::for_each_mut(
        rt,
        workers,
        threads,
        &|_, worker: &mut Worker<A, C>|
            requires { IsReady A.over A.stands (program_view program.now.value) (valid_code code.now) table.now.id count worker.old × Lowered (program_view program.now.value) (valid_code code.now) × SameGos (program_view program.now.value) (valid_code code.now) }
            ensures { HasCalled A.over A.place A.stands A.advances A.gives A.starts code.entry.now allowance (program_view program.entry.now.value) table.entry.now.id count worker.old worker.new }
        {
            work_once(
                rt, alloc, table, worker, allowance, program, code, count, gate,
            )
        },
    );
}

/// Each worker with that allowance, in a thread of its own. It is spent where each of them spent it, and over where
/// some worker found the run's end and none gave up. Otherwise some worker wanted memory, or, where none did, its clock
/// failed. Afterwards none holds a part, but perhaps its lane. An only worker that begins keeps to the schedule.
pub fn round<R: Threads + Wait + Sync, A: Starting + Send, C: Clock + Drop + Send, G: Gate + Sync>(
    rt: &R,
    alloc: Global,
    table: &Table<Pool<A, C>>,
    workers: &mut [Worker<A, C>],
    allowance: u64,
    program: &Program,
    code: &ValidCode,
    gate: &G,
) -> Result<WorkEnd, PoolStop>
    requires some { 0 < length workers.old }
    requires ready { All (IsReady A.over A.stands (program_view program.now) (valid_code code.now) table.now.id (length workers.old)) workers.old }
    requires lowered { Lowered (program_view program.now) (valid_code code.now) }
    requires gos { SameGos (program_view program.now) (valid_code code.now) }
    ensures many { length workers.new ≡ length workers.old }
    ensures ready { OnOk result (All (IsReady A.over A.stands (program_view program.now) (valid_code code.now) table.now.id (length workers.old)) workers.new) }
    ensures failed { result ≡ Err ClockFailed → All (IsReady A.over A.stands (program_view program.now) (valid_code code.now) table.now.id (length workers.old)) workers.new }
    ensures kept { All HoldsLaneAtMost workers.new }
    ensures worked { EachWorked allowance workers.old workers.new }
    ensures answer { result ≡ joined_from (Ok Spent) workers.new }
    ensures solo { OnOk result ((opening : List (PartSeen A)) → 0 < allowance → All (BeginsAlone opening) workers.old → All (StopsAlone A.over A.place A.stands A.advances A.gives A.starts code.now allowance opening) workers.new) }
{
    let text = Snapshot::of(program);
    work_all(rt, alloc, table, workers, allowance, &text, code, gate);
    answer_of(workers)
}

// Want of memory before a clock that failed, and that before the end.
fn answer_of<A: Agent, C: Clock + Drop>(workers: &[Worker<A, C>]) -> Result<WorkEnd, PoolStop>
    ensures { result ≡ joined_from (Ok Spent) workers.now }
{
    let mut answer = Ok(WorkEnd::Spent);
    for worker in workers {
        answer = joined(answer, worker.answer);
    }
    answer
}

fn joined(
    one: Result<WorkEnd, PoolStop>,
    other: Result<WorkEnd, PoolStop>,
) -> Result<WorkEnd, PoolStop>
    ensures { result ≡ answers_joined one other }
{
    match one {
        Err(PoolStop::OutOfMemory) => Err(PoolStop::OutOfMemory),
        Err(PoolStop::ClockFailed) => match other {
            Err(PoolStop::OutOfMemory) => Err(PoolStop::OutOfMemory),
            _ => Err(PoolStop::ClockFailed),
        },
        Ok(end) => match other {
            Err(stop) => Err(stop),
            Ok(WorkEnd::Spent) => Ok(end),
            Ok(WorkEnd::Over) => Ok(WorkEnd::Over),
        },
    }
}
