// A worker that makes events beside one that holds parts which they do not touch.
ghost use Rattle.std.specs.Prelude.{◌≡◌, ℕ, ◌<◌, All, length};
ghost use Rattle.ca_term.specs.Program.{program_view};
ghost use Rattle.ca_lower.specs.Gos.{SameGos};
ghost use Rattle.ca_lower.specs.Lowered.{Lowered};
ghost use Rattle.ca_states.specs.ValidCode.{valid_code};
ghost use Rattle.ca_table.specs.Workers.{IsReady};

use crate::disjoint::Disjoint;
use crate::rest::hold_rest;
use ca_agent::agent::Agent;
use ca_agent::starting::Starting;
use ca_pool::work::work;
use ca_states::valid_code::ValidCode;
use ca_table::answer::{PoolStop, WorkEnd};
use ca_table::pool::Pool;
use ca_table::worker::Worker;
use ca_term::program::Program;
use ca_timers::clock::Clock;
use ca_turns::Table;
use std::alloc::Global;
use std::snapshot::Snapshot;
use std::sync::Wait;
use std::thread;
use std::thread::Threads;

/// What the worker that makes events may spend.
const ALLOWANCE: u64 = 1_000;

/// The number of the worker that makes events.
const MAKER: u64 = 0;

// One for each worker.
const THREADS: usize = 2;

// Worker 0 makes events once the other one holds its parts. The program is there for the proofs.
fn make_or_hold<R: Wait, A: Starting, C: Clock + Drop>(
    rt: &R,
    alloc: Global,
    table: &Table<Pool<A, C>>,
    worker: &mut Worker<A, C>,
    program: &Snapshot<Program>,
    code: &ValidCode,
    count: u64,
    gate: &Disjoint,
)
    requires ready { IsReady A.over A.stands (program_view program.now.value) (valid_code code.now) table.now.id count worker.old }
    requires lowered { Lowered (program_view program.now.value) (valid_code code.now) }
    requires gos { SameGos (program_view program.now.value) (valid_code code.now) }
{
    if worker.number == MAKER {
        gate.await_holder();
        worker.answer = work(rt, alloc, table, worker, ALLOWANCE, code, gate);
    } else {
        hold_rest(rt, table, &mut worker.hand, gate);
    }
}

// Both workers, each in a thread of its own.
fn make_and_hold<R: Threads + Wait + Sync, A: Starting + Send, C: Clock + Drop + Send>(
    rt: &R,
    alloc: Global,
    table: &Table<Pool<A, C>>,
    workers: &mut [Worker<A, C>],
    program: &Snapshot<Program>,
    code: &ValidCode,
    count: u64,
    gate: &Disjoint,
)
    requires ready { All (IsReady A.over A.stands (program_view program.now.value) (valid_code code.now) table.now.id count) workers.old }
    requires lowered { Lowered (program_view program.now.value) (valid_code code.now) }
    requires gos { SameGos (program_view program.now.value) (valid_code code.now) }
{
    thread::for_each_mut(
        rt,
        workers,
        THREADS,
        &|_, worker: &mut Worker<A, C>|
            requires { IsReady A.over A.stands (program_view program.now.value) (valid_code code.now) table.now.id count worker.old × Lowered (program_view program.now.value) (valid_code code.now) × SameGos (program_view program.now.value) (valid_code code.now) }
        { make_or_hold(rt, alloc, table, worker, program, code, count, gate) },
    );
}

// What the call of worker 0 answered.
fn answer_of<A: Agent, C: Clock + Drop>(workers: &[Worker<A, C>]) -> Result<WorkEnd, PoolStop> {
    for worker in workers {
        if worker.number == MAKER {
            return worker.answer;
        }
    }
    Ok(WorkEnd::Over)
}

/// What worker 0's call answers beside workers that hold the banks and shards but one.
pub fn work_beside_holder<R: Threads + Wait + Sync, A: Starting + Send, C: Clock + Drop + Send>(
    rt: &R,
    alloc: Global,
    table: &Table<Pool<A, C>>,
    workers: &mut [Worker<A, C>],
    program: &Program,
    code: &ValidCode,
    count: u64,
    gate: &Disjoint,
) -> Result<WorkEnd, PoolStop>
    requires ready { All (IsReady A.over A.stands (program_view program.now) (valid_code code.now) table.now.id count) workers.old }
    requires lowered { Lowered (program_view program.now) (valid_code code.now) }
    requires gos { SameGos (program_view program.now) (valid_code code.now) }
{
    let text = Snapshot::of(program);
    make_and_hold(rt, alloc, table, workers, &text, code, count, gate);
    answer_of(workers)
}
