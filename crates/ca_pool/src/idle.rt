// A worker that finds no task: it waits for the clock, or leaves a run in which nothing can go on.
ghost use Rattle.std.specs.Prelude.{◌≡◌, ◌≢◌, ℕ, ◌<◌, ◌≤◌, ◌^◌, Some, None, IfErr, IfOk, false, true};
ghost use Rattle.ca_term.specs.Program.{ProgramView};
ghost use Rattle.ca_journal.specs.Merge.{room};
ghost use Rattle.ca_table.specs.Carriers.{IsCarrying, just_lane};
ghost use Rattle.ca_table.specs.Parts.{part_seen};
ghost use Rattle.ca_table.specs.Worked.{Drew};
ghost use Rattle.ca_table.specs.Workers.{IsSeated, SameWorker};
ghost use Rattle.ca_table.specs.declared.answer.PoolStop.TheVariants.{OutOfMemory};
ghost use Rattle.ca_table.specs.declared.part.Lane.{Lane};
ghost use Rattle.ca_alone.specs.Schedule.{AtEmpty, MaySettle, to_rest};
ghost use Rattle.ca_pool.specs.AtWork.{GaveUp};
ghost use Rattle.ca_pool.specs.Costs.{cost_asked, cost_idle, is_marked, is_over};
ghost use Rattle.ca_pool.specs.Desk.{IsBare, desk_taken};
ghost use Rattle.ca_pool.specs.Leaving.{TaskOver};
ghost use Rattle.ca_pool.specs.Surveys.{is_stuck};
ghost use Rattle.ca_pool.specs.Asking.{IsFirstMoment};
ghost use Rattle.ca_pool.specs.Lone.{MayGo, Stayed, Went};

use crate::clock::{Asked, answer_late, draw_clock, is_marked, ready_to_ask, with_mark};
use crate::hold::try_clock;
use crate::release::put_off;
use crate::stall::{Surveyed, survey};
use crate::tick::pass;
use ca_agent::agent::Agent;
use ca_commit::held::Held;
use ca_states::valid_code::ValidCode;
use ca_table::answer::PoolStop;
use ca_table::drawn::Turned;
use ca_table::part::{Clockwork, Lane, Mark};
use ca_table::pool::Pool;
use ca_table::seating::{rise, sit};
use ca_table::worker::Worker;
use ca_timers::clock::{Clock, Failed};
use ca_timers::timers::Timers;
use ca_turns::Table;
use ca_value::value::PortId;
use std::alloc::Global;
use std::sync::Wait;
use std::sync::atomic::AtomicU64;
use std::time::Duration;

// How long a worker sleeps that found the others at work, in microseconds.
const NAP: u64 = 50;

// Moments are below it.
const MOMENTS: u64 = 4_611_686_018_427_387_904;

/// What an idle worker came to.
#[derive(Clone, Copy)]
pub(crate) enum Rested {
    /// Another worker holds a part, or a task can run.
    Busy,
    /// It leaves: the run's mark is set, or nothing can go on.
    Over,
    /// Channels are to be settled, after a tick of that cost or before any.
    Ticked(u64),
}

// Leaves the run if its mark is set, where the timers are free; whether it does.
fn obey<R: Wait, A: Agent, C: Clock + Drop>(
    rt: &R,
    table: &Table<Pool<A, C>>,
    code: &ValidCode,
    worker: &mut Worker<A, C>,
    held: &mut Held<A>,
) -> bool
    requires bare { IsBare held.old }
    requires carries { (program : ProgramView) × (n : ℕ) × (l : Lane A) × IsCarrying A.over A.stands program code.now table.now.id n worker.old (just_lane n code.now l) }
    ensures same { SameWorker worker.old worker.new }
    ensures bare { IsBare held.new }
    ensures drew { Drew 0 result worker.old worker.new }
    ensures carries { (program : ProgramView) (n : ℕ) (l : Lane A) → IsCarrying A.over A.stands program code.now table.now.id n worker.old (just_lane n code.now l) → IsCarrying A.over A.stands program code.now table.now.id n worker.new (just_lane n code.now l) }
    ensures stayed { Stayed worker.old worker.new }
{
    match try_clock(table, code, worker, held) {
        None => false,
        Some(clockwork) => {
            if is_marked(clockwork.mark) {
                draw_clock(rt, table, code, worker, held, clockwork, Turned::Halt);
                true
            } else {
                put_off(table, code, worker, held, Some(clockwork));
                false
            }
        }
    }
}

fn idle_by(asked: Asked) -> Rested
    ensures cost { cost_idle result ≡ cost_asked asked }
    ensures over { is_over result ≡ is_marked asked }
{
    match asked {
        Asked::Nothing => Rested::Busy,
        Asked::Marked => Rested::Over,
        Asked::Ticked(cost) => Rested::Ticked(cost),
    }
}

// Waits until that moment, which is the first deadline, and ticks. All is made for it.
fn wait_late<R: Wait, A: Agent, C: Clock + Drop>(
    rt: &R,
    alloc: Global,
    table: &Table<Pool<A, C>>,
    code: &ValidCode,
    worker: &mut Worker<A, C>,
    held: &mut Held<A>,
    clockwork: Box<Clockwork<C>>,
    first: u64,
    ports: &mut Vec<u64>,
) -> Result<Rested, PoolStop>
    requires bare { IsBare held.old }
    requires carries { (program : ProgramView) × (n : ℕ) × (l : Lane A) × IsCarrying A.over A.stands program code.now table.now.id n worker.old (desk_taken (part_seen C.least C.faults C.readings) n code.now worker.old.number l (Some clockwork) held.old) }
    requires timely { clockwork.value.timers.moment ≤ C.least clockwork.value.clock }
    requires asking { 0 < C.spare clockwork.value.clock }
    requires bound { first < 2 ^ 62 }
    requires room { 0 < room worker.old.entries }
    ensures same { SameWorker worker.old worker.new }
    ensures bare { IsBare held.new }
    ensures drew { IfOk result (λ i. Drew (cost_idle i) (is_over i) worker.old worker.new) }
    ensures stopped { IfErr result (λ s. GaveUp s worker.old worker.new) }
    ensures carries { (program : ProgramView) (n : ℕ) (l : Lane A) → IsCarrying A.over A.stands program code.now table.now.id n worker.old (desk_taken (part_seen C.least C.faults C.readings) n code.now worker.old.number l (Some clockwork) held.old) → IsCarrying A.over A.stands program code.now table.now.id n worker.new (just_lane n code.now l) }
    ensures solo { IfOk result (λ r. IsFirstMoment first clockwork.value.timers.deadlines → (most : ℕ) → MayGo A.over A.place A.stands A.advances A.gives A.starts code.now AtEmpty most worker.old → Went A.over A.place A.stands A.advances A.gives A.starts code.now (MaySettle to_rest ports.new.items) most worker.new) }
{
    let (clockwork, answer) = answer_late(clockwork, first);
    match answer {
        Err(Failed) => {
            let failed = with_mark(clockwork, Mark::ClockFailed);
            draw_clock(rt, table, code, worker, held, failed, Turned::Fail);
            Err(PoolStop::ClockFailed)
        }
        Ok(now) => {
            let asked = pass(rt, alloc, table, code, worker, held, clockwork, now, ports)?;
            Ok(idle_by(asked))
        }
    }
}

// Whether that is the first deadline.
fn is_first(timers: &Timers, first: u64) -> bool
    ensures { result ≡ true → IsFirstMoment first timers.now.deadlines }
{
    match timers.first() {
        Some(moment) => moment == first,
        None => false,
    }
}

// Makes room, and waits until that moment, if it is the first deadline still. The run may have been marked since the worker
// looked, where it waited for the timers: then it leaves, and nothing is asked.
fn wait_with<R: Wait, A: Agent, C: Clock + Drop>(
    rt: &R,
    alloc: Global,
    table: &Table<Pool<A, C>>,
    code: &ValidCode,
    worker: &mut Worker<A, C>,
    held: &mut Held<A>,
    clockwork: Box<Clockwork<C>>,
    first: u64,
    ports: &mut Vec<u64>,
) -> Result<Rested, PoolStop>
    requires bare { IsBare held.old }
    requires carries { (program : ProgramView) × (n : ℕ) × (l : Lane A) × IsCarrying A.over A.stands program code.now table.now.id n worker.old (desk_taken (part_seen C.least C.faults C.readings) n code.now worker.old.number l (Some clockwork) held.old) }
    requires timely { clockwork.value.timers.moment ≤ C.least clockwork.value.clock }
    ensures same { SameWorker worker.old worker.new }
    ensures bare { IsBare held.new }
    ensures drew { IfOk result (λ i. Drew (cost_idle i) (is_over i) worker.old worker.new) }
    ensures stopped { IfErr result (λ s. GaveUp s worker.old worker.new) }
    ensures carries { (program : ProgramView) (n : ℕ) (l : Lane A) → IsCarrying A.over A.stands program code.now table.now.id n worker.old (desk_taken (part_seen C.least C.faults C.readings) n code.now worker.old.number l (Some clockwork) held.old) → IsCarrying A.over A.stands program code.now table.now.id n worker.new (just_lane n code.now l) }
    ensures solo { IfOk result (λ r. (most : ℕ) → MayGo A.over A.place A.stands A.advances A.gives A.starts code.now AtEmpty most worker.old → Went A.over A.place A.stands A.advances A.gives A.starts code.now (MaySettle to_rest ports.new.items) most worker.new) }
{
    if is_marked(clockwork.mark) {
        draw_clock(rt, table, code, worker, held, clockwork, Turned::Halt);
        return Ok(Rested::Over);
    }
    if !is_first(&clockwork.timers, first) || first >= MOMENTS {
        put_off(table, code, worker, held, Some(clockwork));
        return Ok(Rested::Busy);
    }
    let (clockwork, made) = ready_to_ask(worker, clockwork);
    match made {
        Ok(()) => wait_late(
            rt, alloc, table, code, worker, held, clockwork, first, ports,
        ),
        Err(_) => {
            put_off(table, code, worker, held, Some(clockwork));
            Err(PoolStop::OutOfMemory)
        }
    }
}

// Waits until that moment, where the timers are free and it is the first deadline still, and ticks.
fn await_deadline<R: Wait, A: Agent, C: Clock + Drop>(
    rt: &R,
    alloc: Global,
    table: &Table<Pool<A, C>>,
    code: &ValidCode,
    worker: &mut Worker<A, C>,
    held: &mut Held<A>,
    first: u64,
    ports: &mut Vec<u64>,
) -> Result<Rested, PoolStop>
    requires bare { IsBare held.old }
    requires carries { (program : ProgramView) × (n : ℕ) × (l : Lane A) × IsCarrying A.over A.stands program code.now table.now.id n worker.old (just_lane n code.now l) }
    ensures same { SameWorker worker.old worker.new }
    ensures bare { IsBare held.new }
    ensures drew { IfOk result (λ i. Drew (cost_idle i) (is_over i) worker.old worker.new) }
    ensures stopped { IfErr result (λ s. GaveUp s worker.old worker.new) }
    ensures carries { (program : ProgramView) (n : ℕ) (l : Lane A) → IsCarrying A.over A.stands program code.now table.now.id n worker.old (just_lane n code.now l) → IsCarrying A.over A.stands program code.now table.now.id n worker.new (just_lane n code.now l) }
    ensures solo { IfOk result (λ r. (most : ℕ) → MayGo A.over A.place A.stands A.advances A.gives A.starts code.now AtEmpty most worker.old → Went A.over A.place A.stands A.advances A.gives A.starts code.now (MaySettle to_rest ports.new.items) most worker.new) }
{
    match try_clock(table, code, worker, held) {
        None => Ok(Rested::Busy),
        Some(clockwork) => wait_with(
            rt, alloc, table, code, worker, held, clockwork, first, ports,
        ),
    }
}

// The channel is to be settled.
fn name_port(ports: &mut Vec<u64>, port: PortId) -> Result<Rested, PoolStop>
    ensures cost { IfOk result (λ i. (cost_idle i ≡ 0) × (is_over i ≡ false)) }
    ensures stopped { IfErr result (λ s. s ≡ OutOfMemory) }
{
    ports.clear();
    match ports.push(port.n) {
        Ok(()) => Ok(Rested::Ticked(0)),
        Err(_) => Err(PoolStop::OutOfMemory),
    }
}

// Where others were found at work the worker sleeps for a moment, since each of its looks holds them up.
fn stand_aside<R: Wait>(rt: &R, found: Surveyed) {
    if let Surveyed::Busy = found {
        AtomicU64::new(0).park_timeout(rt, 0, Duration::from_micros(NAP));
    }
}

// Gives the lane back, so that others may find the worker idle, looks at all parts, and takes the lane again.
fn look_round<R: Wait, A: Agent, C: Clock + Drop>(
    rt: &R,
    table: &Table<Pool<A, C>>,
    code: &ValidCode,
    worker: &mut Worker<A, C>,
    lane: Box<Lane<A>>,
) -> (Box<Lane<A>>, Surveyed)
    requires seated { (program : ProgramView) × (n : ℕ) × IsSeated A.over A.stands program code.now table.now.id n worker.old lane.value }
    ensures same { SameWorker worker.old worker.new }
    ensures drew { Drew 0 (is_stuck result.1) worker.old worker.new }
    ensures seated { (program : ProgramView) (n : ℕ) → IsSeated A.over A.stands program code.now table.now.id n worker.old lane.value → IsSeated A.over A.stands program code.now table.now.id n worker.new result.0.value }
    ensures over { TaskOver A.over code.now result.0.value }
    ensures stayed { Stayed worker.old worker.new }
{
    rise(table, code, worker, lane);
    let found = survey(rt, table, code, worker);
    stand_aside(rt, found);
    (sit(rt, table, code, worker), found)
}

/// A worker whose lane is empty finds no task. It leaves a run that is marked or in which nothing can go on, and where
/// only a deadline is open it waits for the clock. `due` is, where channels are to be settled, these in order of number.
/// The lane is given back for a moment, so that others may find the worker idle.
pub(crate) fn idle<R: Wait, A: Agent, C: Clock + Drop>(
    rt: &R,
    alloc: Global,
    table: &Table<Pool<A, C>>,
    code: &ValidCode,
    worker: &mut Worker<A, C>,
    held: &mut Held<A>,
    lane: Box<Lane<A>>,
    due: &mut Vec<u64>,
) -> (Box<Lane<A>>, Result<Rested, PoolStop>)
    requires seated { (program : ProgramView) × (n : ℕ) × IsSeated A.over A.stands program code.now table.now.id n worker.old lane.value }
    requires free { lane.value.task ≡ None }
    requires bare { IsBare held.old }
    ensures same { SameWorker worker.old worker.new }
    ensures bare { IsBare held.new }
    ensures drew { IfOk result.1 (λ i. Drew (cost_idle i) (is_over i) worker.old worker.new) }
    ensures stopped { IfErr result.1 (λ s. GaveUp s worker.old worker.new) }
    ensures over { TaskOver A.over code.now result.0.value }
    ensures seated { (program : ProgramView) (n : ℕ) → IsSeated A.over A.stands program code.now table.now.id n worker.old lane.value → IsSeated A.over A.stands program code.now table.now.id n worker.new result.0.value }
    ensures solo { IfOk result.1 (λ r. (most : ℕ) → MayGo A.over A.place A.stands A.advances A.gives A.starts code.now AtEmpty most worker.old → Went A.over A.place A.stands A.advances A.gives A.starts code.now (MaySettle to_rest due.new.items) most worker.new) }
{
    if obey(rt, table, code, worker, held) {
        return (lane, Ok(Rested::Over));
    }
    let (lane, found) = look_round(rt, table, code, worker, lane);
    match found {
        Surveyed::Busy => (lane, Ok(Rested::Busy)),
        Surveyed::Stuck => (lane, Ok(Rested::Over)),
        Surveyed::Stirs(port) => (lane, name_port(due, port)),
        Surveyed::Waits(first) => {
            let came = await_deadline(rt, alloc, table, code, worker, held, first, due);
            (lane, came)
        }
    }
}
