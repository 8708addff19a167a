// A script whose run is opened for two workers, of whom one makes events.
use crate::beside::work_beside_holder;
use crate::disjoint::Disjoint;
use ca_check::check::check;
use ca_derived::expand::expand;
use ca_moves::lower::lower_moving;
use ca_reader::read::read;
use ca_run::memory::MemoryClock;
use ca_table::answer::{PoolStop, WorkEnd};
use ca_table::opening::open_pool;
use ca_tasks::task::AnyTask;
use ca_term::program::Program;
use std::alloc::{AllocError, Global};
use std::sync::Wait;
use std::thread::Threads;

const WORKERS: u64 = 2;

fn program_of(alloc: Global, script: &[u8]) -> Option<Program> {
    let forms = read(alloc, script).ok()?;
    let derived = expand(alloc, &forms).ok()?;
    check(alloc, &derived).ok()
}

// What worker 0's call answers.
fn work_of<R: Threads + Wait + Sync>(
    rt: &R,
    alloc: Global,
    program: &Program,
    gate: &Disjoint,
) -> Result<WorkEnd, PoolStop> {
    let code = lower_moving(alloc, program)?;
    let main = AnyTask::main(alloc, &code)?;
    let clock = MemoryClock::new(alloc);
    let opened = open_pool(alloc, program, &code, main, WORKERS, clock)?;
    let (table, mut workers) = opened;
    work_beside_holder(
        rt,
        alloc,
        &table,
        workers.as_mut_slice(),
        program,
        &code,
        WORKERS,
        gate,
    )
}

/// How worker 0's call ends beside one that holds the banks and shards but for bank 1, and whether a wait was given up.
pub fn answer_beside_holder<R: Threads + Wait + Sync + AllocGlobal>(
    rt: &R,
    script: &[u8],
) -> Result<String, AllocError> {
    let gate = Disjoint::new();
    let Some(program) = program_of(rt.alloc(), script) else {
        return String::from_str(rt.alloc(), "no program");
    };
    let end = match work_of(rt, rt.alloc(), &program, &gate) {
        Ok(WorkEnd::Spent) => "Spent",
        Ok(WorkEnd::Over) => "Over",
        Err(PoolStop::OutOfMemory) => "OutOfMemory",
        Err(PoolStop::ClockFailed) => "ClockFailed",
    };
    format!(in rt.alloc(); "{end} {}", gate.waits.told())
}
