// A worker's visit to its lane: it puts a task there, if none is, and lets it run.
ghost use Rattle.std.specs.Prelude.{◌≡◌, ◌⊎◌, ℕ, ◌-◌, ◌<◌, ◌≤◌, ◌||◌, [], Err, IfErr, IfOk, IsSome, None, false, option_map};
ghost use Rattle.ca_term.specs.Event.{port_number};
ghost use Rattle.ca_meaning.specs.Solo.{patience};
ghost use Rattle.ca_solo.specs.Stirs.{port_if};
ghost use Rattle.ca_alone.specs.Schedule.{AtEmpty, AtFree, AtPicked, MaySettle, to_rest, to_turn};
ghost use Rattle.ca_table.specs.Worked.{Drew, HasWorked};
ghost use Rattle.ca_table.specs.Workers.{SameWorker};
ghost use Rattle.ca_table.specs.declared.worker.Worker.{Worker};
ghost use Rattle.ca_pool.specs.AtWork.{GaveUp, HasSpent, IsAtWork, IsGivenUp};
ghost use Rattle.ca_pool.specs.Costs.{cost_asked, cost_idle, is_marked, is_over};
ghost use Rattle.ca_pool.specs.Desk.{IsBare};
ghost use Rattle.ca_pool.specs.Lone.{IsGoing, IsRunning, MayGo, Went};

use crate::clock::{Asked, ask};
use crate::gate::{Gate, GatePlace};
use crate::idle::{Rested, idle};
use crate::limits::check_turns;
use crate::operation::Stepped;
use crate::progress::{Going, end_found, has_turn, spend};
use crate::step::step;
use crate::stir::{settle_ports, settle_stirred};
use ca_agent::agent::Agent;
use ca_agent::starting::Starting;
use ca_commit::held::Held;
use ca_states::valid_code::ValidCode;
use ca_table::answer::PoolStop;
use ca_table::pool::Pool;
use ca_table::seating::rise;
use ca_table::silent::{pick, yield_task};
use ca_table::worker::Worker;
use ca_timers::clock::Clock;
use ca_turns::Table;
use ca_value::memory::OutOfMemory;
use ca_value::value::PortId;
use std::alloc::Global;
use std::sync::Wait;

// Where the clock failed the worker gives its lane back; where there is no memory it stays, to tell the others.
fn give_up<A: Agent, C: Clock + Drop>(
    table: &Table<Pool<A, C>>,
    code: &ValidCode,
    worker: &mut Worker<A, C>,
    going: Going<A>,
    stop: PoolStop,
) -> PoolStop
    requires at { IsAtWork A.over A.stands code.now table.now.id worker.old going.lane.value }
    ensures same { SameWorker worker.old worker.new }
    ensures worked { (start : ℕ) (w : Worker A C) → HasWorked start (Err stop) w worker.old → HasWorked start (Err result) w worker.new }
    ensures given_up { IsGivenUp A.over A.stands code.now table.now.id result worker.new }
{
    match stop {
        PoolStop::ClockFailed => {
            let Going {
                lane,
                left: _,
                found: _,
            } = going;
            rise(table, code, worker, lane);
            PoolStop::ClockFailed
        }
        PoolStop::OutOfMemory => PoolStop::OutOfMemory,
    }
}

// The lane's task makes one event, which may bring a channel to settle.
fn make_one<R: Wait, A: Starting, C: Clock + Drop, G: Gate>(
    rt: &R,
    alloc: Global,
    table: &Table<Pool<A, C>>,
    code: &ValidCode,
    worker: &mut Worker<A, C>,
    held: &mut Held<A>,
    gate: &G,
    going: Going<A>,
) -> Result<(Going<A>, Option<PortId>), PoolStop>
    requires at { IsAtWork A.over A.stands code.now table.now.id worker.old going.lane.value }
    requires bare { IsBare held.old }
    requires busy { IsSome going.lane.value.task }
    requires on { going.found ≡ false }
    requires some { 0 < going.left }
    ensures same { SameWorker worker.old worker.new }
    ensures bare { IsBare held.new }
    ensures at { IfOk result (λ g. IsAtWork A.over A.stands code.now table.now.id worker.new g.0.lane.value) }
    ensures spent { IfOk result (λ g. (start : ℕ) (w : Worker A C) → HasSpent start going.left going.found w worker.old → HasSpent start g.0.left g.0.found w worker.new) }
    ensures given_up { IfErr result (λ s. IsGivenUp A.over A.stands code.now table.now.id s worker.new) }
    ensures stopped { IfErr result (λ s. (start : ℕ) (w : Worker A C) → HasSpent start going.left going.found w worker.old → HasWorked start (Err s) w worker.new) }
    ensures solo { IfOk result (λ g. (most : ℕ) → going.lane.value.since < patience → IsRunning A.over A.place A.stands A.advances A.gives A.starts code.now (MaySettle to_turn []) most going.left going.found worker.old → IsGoing A.over A.place A.stands A.advances A.gives A.starts code.now (MaySettle to_turn (port_if (option_map port_number g.1))) most g.0.left g.0.found worker.new) }
{
    let Going {
        lane,
        left,
        found: _,
    } = going;
    match step(rt, alloc, table, code, worker, held, gate, lane) {
        Ok(stepped) => {
            let Stepped {
                lane,
                cost,
                stirred,
                over,
            } = stepped;
            let left = left.saturating_sub(cost);
            let found = over;
            Ok((Going { lane, left, found }, stirred))
        }
        Err(OutOfMemory) => Err(PoolStop::OutOfMemory),
    }
}

// The lane's task makes one event, and what may settle then does.
fn make_event<R: Wait, A: Starting, C: Clock + Drop, G: Gate>(
    rt: &R,
    alloc: Global,
    table: &Table<Pool<A, C>>,
    code: &ValidCode,
    worker: &mut Worker<A, C>,
    held: &mut Held<A>,
    gate: &G,
    going: Going<A>,
) -> Result<Going<A>, PoolStop>
    requires at { IsAtWork A.over A.stands code.now table.now.id worker.old going.lane.value }
    requires bare { IsBare held.old }
    requires busy { IsSome going.lane.value.task }
    requires on { going.found ≡ false }
    requires some { 0 < going.left }
    ensures same { SameWorker worker.old worker.new }
    ensures bare { IsBare held.new }
    ensures at { IfOk result (λ g. IsAtWork A.over A.stands code.now table.now.id worker.new g.lane.value) }
    ensures spent { IfOk result (λ g. (start : ℕ) (w : Worker A C) → HasSpent start going.left going.found w worker.old → HasSpent start g.left g.found w worker.new) }
    ensures given_up { IfErr result (λ s. IsGivenUp A.over A.stands code.now table.now.id s worker.new) }
    ensures stopped { IfErr result (λ s. (start : ℕ) (w : Worker A C) → HasSpent start going.left going.found w worker.old → HasWorked start (Err s) w worker.new) }
    ensures solo { IfOk result (λ g. (most : ℕ) → going.lane.value.since < patience → IsRunning A.over A.place A.stands A.advances A.gives A.starts code.now (MaySettle to_turn []) most going.left going.found worker.old → IsGoing A.over A.place A.stands A.advances A.gives A.starts code.now (MaySettle to_turn []) most g.left g.found worker.new) }
{
    let (going, stirred) = make_one(rt, alloc, table, code, worker, held, gate, going)?;
    settle_stirred(rt, alloc, table, code, worker, held, going, stirred)
}

// The lane's task runs, until it is gone, or has made many events, or the worker is to stop.
fn run_task<R: Wait, A: Starting, C: Clock + Drop, G: Gate>(
    rt: &R,
    alloc: Global,
    table: &Table<Pool<A, C>>,
    code: &ValidCode,
    worker: &mut Worker<A, C>,
    held: &mut Held<A>,
    gate: &G,
    going: Going<A>,
) -> Result<Going<A>, PoolStop>
    requires at { IsAtWork A.over A.stands code.now table.now.id worker.old going.lane.value }
    requires bare { IsBare held.old }
    ensures same { SameWorker worker.old worker.new }
    ensures bare { IsBare held.new }
    ensures at { IfOk result (λ g. IsAtWork A.over A.stands code.now table.now.id worker.new g.lane.value) }
    ensures spent { IfOk result (λ g. (start : ℕ) (w : Worker A C) → HasSpent start going.left going.found w worker.old → HasSpent start g.left g.found w worker.new) }
    ensures given_up { IfErr result (λ s. IsGivenUp A.over A.stands code.now table.now.id s worker.new) }
    ensures stopped { IfErr result (λ s. (start : ℕ) (w : Worker A C) → HasSpent start going.left going.found w worker.old → HasWorked start (Err s) w worker.new) }
    ensures full { IfOk result (λ g. (0 < g.left → g.found ≡ false → (g.lane.value.task ≡ None) ⊎ (patience ≤ g.lane.value.since))) }
    ensures solo { IfOk result (λ g. (most : ℕ) → IsGoing A.over A.place A.stands A.advances A.gives A.starts code.now (MaySettle to_turn []) most going.left going.found worker.old → IsGoing A.over A.place A.stands A.advances A.gives A.starts code.now (MaySettle to_turn []) most g.left g.found worker.new) }
{
    let mut going = going;
    for _ in rt.forever() {
        if !has_turn(&going) {
            return Ok(going);
        }
        going = make_event(rt, alloc, table, code, worker, held, gate, going)?;
    }
    unreachable!()
}

// The lane's task goes back to the worker's ready part.
fn yield_lane<R: Wait, A: Agent, C: Clock + Drop>(
    rt: &R,
    table: &Table<Pool<A, C>>,
    code: &ValidCode,
    worker: &mut Worker<A, C>,
    going: Going<A>,
) -> Result<Going<A>, PoolStop>
    requires at { IsAtWork A.over A.stands code.now table.now.id worker.old going.lane.value }
    requires busy { IsSome going.lane.value.task }
    requires on { going.found ≡ false }
    ensures same { SameWorker worker.old worker.new }
    ensures at { IfOk result (λ g. IsAtWork A.over A.stands code.now table.now.id worker.new g.lane.value) }
    ensures spent { IfOk result (λ g. (start : ℕ) (w : Worker A C) → HasSpent start going.left going.found w worker.old → HasSpent start g.left g.found w worker.new) }
    ensures given_up { IfErr result (λ s. IsGivenUp A.over A.stands code.now table.now.id s worker.new) }
    ensures stopped { IfErr result (λ s. (start : ℕ) (w : Worker A C) → HasSpent start going.left going.found w worker.old → HasWorked start (Err s) w worker.new) }
    ensures solo { IfOk result (λ g. (most : ℕ) → (0 < going.left → going.found ≡ false → (going.lane.value.task ≡ None) ⊎ (patience ≤ going.lane.value.since)) → IsGoing A.over A.place A.stands A.advances A.gives A.starts code.now (MaySettle to_turn []) most going.left going.found worker.old → IsGoing A.over A.place A.stands A.advances A.gives A.starts code.now AtFree most g.left g.found worker.new) }
{
    check_turns(rt, worker);
    let Going { lane, left, found } = going;
    let (lane, yielded) = yield_task(rt, table, code, worker, lane);
    match yielded {
        Ok(()) => Ok(Going { lane, left, found }),
        Err(OutOfMemory) => Err(PoolStop::OutOfMemory),
    }
}

// The lane's task stands back, if there is one, unless the run is over.
fn stand_back<R: Wait, A: Agent, C: Clock + Drop>(
    rt: &R,
    table: &Table<Pool<A, C>>,
    code: &ValidCode,
    worker: &mut Worker<A, C>,
    going: Going<A>,
) -> Result<Going<A>, PoolStop>
    requires at { IsAtWork A.over A.stands code.now table.now.id worker.old going.lane.value }
    ensures same { SameWorker worker.old worker.new }
    ensures at { IfOk result (λ g. IsAtWork A.over A.stands code.now table.now.id worker.new g.lane.value) }
    ensures spent { IfOk result (λ g. (start : ℕ) (w : Worker A C) → HasSpent start going.left going.found w worker.old → HasSpent start g.left g.found w worker.new) }
    ensures given_up { IfErr result (λ s. IsGivenUp A.over A.stands code.now table.now.id s worker.new) }
    ensures stopped { IfErr result (λ s. (start : ℕ) (w : Worker A C) → HasSpent start going.left going.found w worker.old → HasWorked start (Err s) w worker.new) }
    ensures solo { IfOk result (λ g. (most : ℕ) → (0 < going.left → going.found ≡ false → (going.lane.value.task ≡ None) ⊎ (patience ≤ going.lane.value.since)) → IsGoing A.over A.place A.stands A.advances A.gives A.starts code.now (MaySettle to_turn []) most going.left going.found worker.old → IsGoing A.over A.place A.stands A.advances A.gives A.starts code.now AtFree most g.left g.found worker.new) }
{
    if going.found || going.lane.task.is_none() {
        Ok(going)
    } else {
        yield_lane(rt, table, code, worker, going)
    }
}

// The lane's task runs, and stands back.
fn run_and_leave<R: Wait, A: Starting, C: Clock + Drop, G: Gate>(
    rt: &R,
    alloc: Global,
    table: &Table<Pool<A, C>>,
    code: &ValidCode,
    worker: &mut Worker<A, C>,
    held: &mut Held<A>,
    gate: &G,
    going: Going<A>,
) -> Result<Going<A>, PoolStop>
    requires at { IsAtWork A.over A.stands code.now table.now.id worker.old going.lane.value }
    requires bare { IsBare held.old }
    ensures same { SameWorker worker.old worker.new }
    ensures bare { IsBare held.new }
    ensures at { IfOk result (λ g. IsAtWork A.over A.stands code.now table.now.id worker.new g.lane.value) }
    ensures spent { IfOk result (λ g. (start : ℕ) (w : Worker A C) → HasSpent start going.left going.found w worker.old → HasSpent start g.left g.found w worker.new) }
    ensures given_up { IfErr result (λ s. IsGivenUp A.over A.stands code.now table.now.id s worker.new) }
    ensures stopped { IfErr result (λ s. (start : ℕ) (w : Worker A C) → HasSpent start going.left going.found w worker.old → HasWorked start (Err s) w worker.new) }
    ensures solo { IfOk result (λ g. (most : ℕ) → IsGoing A.over A.place A.stands A.advances A.gives A.starts code.now (MaySettle to_turn []) most going.left going.found worker.old → IsGoing A.over A.place A.stands A.advances A.gives A.starts code.now AtFree most g.left g.found worker.new) }
{
    let going = run_task(rt, alloc, table, code, worker, held, gate, going)?;
    stand_back(rt, table, code, worker, going)
}

// The first task of that ready part comes into the empty lane, if there is one.
fn find_at<R: Wait, A: Agent, C: Clock + Drop>(
    rt: &R,
    table: &Table<Pool<A, C>>,
    code: &ValidCode,
    worker: &mut Worker<A, C>,
    going: Going<A>,
    at: u64,
) -> Going<A>
    requires at { IsAtWork A.over A.stands code.now table.now.id worker.old going.lane.value }
    requires free { going.lane.value.task ≡ None }
    requires below { at < worker.old.workers }
    requires on { going.found ≡ false }
    ensures same { SameWorker worker.old worker.new }
    ensures at { IsAtWork A.over A.stands code.now table.now.id worker.new result.lane.value }
    ensures left { result.left ≡ going.left }
    ensures found { result.found ≡ going.found }
    ensures spent { (start : ℕ) (w : Worker A C) → HasSpent start going.left going.found w worker.old → HasSpent start result.left result.found w worker.new }
    ensures empty { (most : ℕ) → result.lane.value.task ≡ None → IsRunning A.over A.place A.stands A.advances A.gives A.starts code.now AtFree most going.left going.found worker.old → IsRunning A.over A.place A.stands A.advances A.gives A.starts code.now AtEmpty most result.left result.found worker.new }
    ensures picked { (most : ℕ) → IsSome result.lane.value.task → IsRunning A.over A.place A.stands A.advances A.gives A.starts code.now AtFree most going.left going.found worker.old → IsRunning A.over A.place A.stands A.advances A.gives A.starts code.now AtPicked most result.left result.found worker.new }
{
    check_turns(rt, worker);
    let Going { lane, left, found } = going;
    let lane = pick(rt, table, code, worker, lane, at);
    Going { lane, left, found }
}

// A task comes into the empty lane, if any is ready: the worker's own come first, then those of the next.
fn find_task<R: Wait, A: Agent, C: Clock + Drop>(
    rt: &R,
    table: &Table<Pool<A, C>>,
    code: &ValidCode,
    worker: &mut Worker<A, C>,
    going: Going<A>,
) -> Going<A>
    requires at { IsAtWork A.over A.stands code.now table.now.id worker.old going.lane.value }
    requires on { going.found ≡ false }
    ensures same { SameWorker worker.old worker.new }
    ensures at { IsAtWork A.over A.stands code.now table.now.id worker.new result.lane.value }
    ensures left { result.left ≡ going.left }
    ensures found { result.found ≡ going.found }
    ensures spent { (start : ℕ) (w : Worker A C) → HasSpent start going.left going.found w worker.old → HasSpent start result.left result.found w worker.new }
    ensures empty { (most : ℕ) → going.lane.value.task ≡ None → result.lane.value.task ≡ None → IsRunning A.over A.place A.stands A.advances A.gives A.starts code.now AtFree most going.left going.found worker.old → IsRunning A.over A.place A.stands A.advances A.gives A.starts code.now AtEmpty most result.left result.found worker.new }
    ensures picked { (most : ℕ) → going.lane.value.task ≡ None → IsSome result.lane.value.task → IsRunning A.over A.place A.stands A.advances A.gives A.starts code.now AtFree most going.left going.found worker.old → IsRunning A.over A.place A.stands A.advances A.gives A.starts code.now AtPicked most result.left result.found worker.new }
{
    let number = worker.number;
    let workers = worker.workers;
    let mut going = going;
    for k in 0..workers {
        if going.lane.task.is_some() {
            return going;
        }
        let at = (number + k) % workers;
        going = find_at(rt, table, code, worker, going, at);
    }
    going
}

// Where the worker stands after it looked at the clock.
fn count_asked<A: Agent>(going: Going<A>, asked: Asked) -> Going<A>
    ensures lane { result.lane ≡ going.lane }
    ensures left { result.left ≡ going.left - cost_asked asked }
    ensures found { result.found ≡ (is_marked asked || going.found) }
{
    match asked {
        Asked::Nothing => going,
        Asked::Marked => end_found(going),
        Asked::Ticked(cost) => spend(going, cost),
    }
}

// Looks at the clock. `due` is what may settle then.
fn ask_clock<R: Wait, A: Agent, C: Clock + Drop>(
    rt: &R,
    alloc: Global,
    table: &Table<Pool<A, C>>,
    code: &ValidCode,
    worker: &mut Worker<A, C>,
    held: &mut Held<A>,
    due: &mut Vec<u64>,
    going: Going<A>,
) -> Result<Going<A>, PoolStop>
    requires at { IsAtWork A.over A.stands code.now table.now.id worker.old going.lane.value }
    requires bare { IsBare held.old }
    requires on { going.found ≡ false }
    requires some { 0 < going.left }
    ensures same { SameWorker worker.old worker.new }
    ensures bare { IsBare held.new }
    ensures at { IfOk result (λ g. IsAtWork A.over A.stands code.now table.now.id worker.new g.lane.value) }
    ensures spent { IfOk result (λ g. (start : ℕ) (w : Worker A C) → HasSpent start going.left going.found w worker.old → HasSpent start g.left g.found w worker.new) }
    ensures given_up { IfErr result (λ s. IsGivenUp A.over A.stands code.now table.now.id s worker.new) }
    ensures stopped { IfErr result (λ s. (start : ℕ) (w : Worker A C) → HasSpent start going.left going.found w worker.old → HasWorked start (Err s) w worker.new) }
    ensures solo { IfOk result (λ g. (most : ℕ) → due.old.items ≡ [] → IsRunning A.over A.place A.stands A.advances A.gives A.starts code.now AtPicked most going.left going.found worker.old → IsGoing A.over A.place A.stands A.advances A.gives A.starts code.now (MaySettle to_turn due.new.items) most g.left g.found worker.new) }
{
    match ask(rt, alloc, table, code, worker, held, due) {
        Ok(asked) => Ok(count_asked(going, asked)),
        Err(OutOfMemory) => Err(PoolStop::OutOfMemory),
    }
}

// The clock is looked at, and the task that was picked runs.
fn run_picked<R: Wait, A: Starting, C: Clock + Drop, G: Gate>(
    rt: &R,
    alloc: Global,
    table: &Table<Pool<A, C>>,
    code: &ValidCode,
    worker: &mut Worker<A, C>,
    held: &mut Held<A>,
    gate: &G,
    due: &mut Vec<u64>,
    going: Going<A>,
) -> Result<Going<A>, PoolStop>
    requires at { IsAtWork A.over A.stands code.now table.now.id worker.old going.lane.value }
    requires bare { IsBare held.old }
    requires on { going.found ≡ false }
    requires some { 0 < going.left }
    ensures same { SameWorker worker.old worker.new }
    ensures bare { IsBare held.new }
    ensures at { IfOk result (λ g. IsAtWork A.over A.stands code.now table.now.id worker.new g.lane.value) }
    ensures spent { IfOk result (λ g. (start : ℕ) (w : Worker A C) → HasSpent start going.left going.found w worker.old → HasSpent start g.left g.found w worker.new) }
    ensures given_up { IfErr result (λ s. IsGivenUp A.over A.stands code.now table.now.id s worker.new) }
    ensures stopped { IfErr result (λ s. (start : ℕ) (w : Worker A C) → HasSpent start going.left going.found w worker.old → HasWorked start (Err s) w worker.new) }
    ensures solo { IfOk result (λ g. (most : ℕ) → IsRunning A.over A.place A.stands A.advances A.gives A.starts code.now AtPicked most going.left going.found worker.old → IsGoing A.over A.place A.stands A.advances A.gives A.starts code.now AtFree most g.left g.found worker.new) }
{
    due.clear();
    let asked = ask_clock(rt, alloc, table, code, worker, held, due, going)?;
    let going = settle_ports(rt, alloc, table, code, worker, held, asked, due.as_slice())?;
    run_and_leave(rt, alloc, table, code, worker, held, gate, going)
}

// Where the worker stands after it rested.
fn count_rested<A: Agent>(going: Going<A>, rested: Rested) -> Going<A>
    ensures lane { result.lane ≡ going.lane }
    ensures left { result.left ≡ going.left - cost_idle rested }
    ensures found { result.found ≡ (is_over rested || going.found) }
{
    match rested {
        Rested::Busy => going,
        Rested::Over => end_found(going),
        Rested::Ticked(cost) => spend(going, cost),
    }
}

// The lane is empty, and so are the ready parts that were looked at. `due` is what may settle then.
fn look_idle<R: Wait, A: Agent, C: Clock + Drop>(
    rt: &R,
    alloc: Global,
    table: &Table<Pool<A, C>>,
    code: &ValidCode,
    worker: &mut Worker<A, C>,
    held: &mut Held<A>,
    due: &mut Vec<u64>,
    going: Going<A>,
) -> (Going<A>, Result<Rested, PoolStop>)
    requires at { IsAtWork A.over A.stands code.now table.now.id worker.old going.lane.value }
    requires bare { IsBare held.old }
    requires free { going.lane.value.task ≡ None }
    ensures same { SameWorker worker.old worker.new }
    ensures bare { IsBare held.new }
    ensures at { IsAtWork A.over A.stands code.now table.now.id worker.new result.0.lane.value }
    ensures left { result.0.left ≡ going.left }
    ensures found { result.0.found ≡ going.found }
    ensures drew { IfOk result.1 (λ r. Drew (cost_idle r) (is_over r) worker.old worker.new) }
    ensures stopped { IfErr result.1 (λ s. GaveUp s worker.old worker.new) }
    ensures solo { IfOk result.1 (λ r. (most : ℕ) → MayGo A.over A.place A.stands A.advances A.gives A.starts code.now AtEmpty most worker.old → Went A.over A.place A.stands A.advances A.gives A.starts code.now (MaySettle to_rest due.new.items) most worker.new) }
{
    let Going { lane, left, found } = going;
    let (lane, came) = idle(rt, alloc, table, code, worker, held, lane, due);
    (Going { lane, left, found }, came)
}

// The worker rests; `due` is what may settle then.
fn rest<R: Wait, A: Agent, C: Clock + Drop>(
    rt: &R,
    alloc: Global,
    table: &Table<Pool<A, C>>,
    code: &ValidCode,
    worker: &mut Worker<A, C>,
    held: &mut Held<A>,
    due: &mut Vec<u64>,
    going: Going<A>,
) -> Result<Going<A>, PoolStop>
    requires at { IsAtWork A.over A.stands code.now table.now.id worker.old going.lane.value }
    requires bare { IsBare held.old }
    requires free { going.lane.value.task ≡ None }
    requires on { going.found ≡ false }
    requires some { 0 < going.left }
    ensures same { SameWorker worker.old worker.new }
    ensures bare { IsBare held.new }
    ensures at { IfOk result (λ g. IsAtWork A.over A.stands code.now table.now.id worker.new g.lane.value) }
    ensures spent { IfOk result (λ g. (start : ℕ) (w : Worker A C) → HasSpent start going.left going.found w worker.old → HasSpent start g.left g.found w worker.new) }
    ensures given_up { IfErr result (λ s. IsGivenUp A.over A.stands code.now table.now.id s worker.new) }
    ensures stopped { IfErr result (λ s. (start : ℕ) (w : Worker A C) → HasSpent start going.left going.found w worker.old → HasWorked start (Err s) w worker.new) }
    ensures solo { IfOk result (λ g. (most : ℕ) → IsRunning A.over A.place A.stands A.advances A.gives A.starts code.now AtEmpty most going.left going.found worker.old → IsGoing A.over A.place A.stands A.advances A.gives A.starts code.now (MaySettle to_rest due.new.items) most g.left g.found worker.new) }
{
    let (looked, came) = look_idle(rt, alloc, table, code, worker, held, due, going);
    match came {
        Ok(rested) => Ok(count_rested(looked, rested)),
        Err(stop) => Err(give_up(table, code, worker, looked, stop)),
    }
}

// The worker rests, and what may settle then does.
fn rest_and_settle<R: Wait, A: Agent, C: Clock + Drop>(
    rt: &R,
    alloc: Global,
    table: &Table<Pool<A, C>>,
    code: &ValidCode,
    worker: &mut Worker<A, C>,
    held: &mut Held<A>,
    due: &mut Vec<u64>,
    going: Going<A>,
) -> Result<Going<A>, PoolStop>
    requires at { IsAtWork A.over A.stands code.now table.now.id worker.old going.lane.value }
    requires bare { IsBare held.old }
    requires free { going.lane.value.task ≡ None }
    requires on { going.found ≡ false }
    requires some { 0 < going.left }
    ensures same { SameWorker worker.old worker.new }
    ensures bare { IsBare held.new }
    ensures at { IfOk result (λ g. IsAtWork A.over A.stands code.now table.now.id worker.new g.lane.value) }
    ensures spent { IfOk result (λ g. (start : ℕ) (w : Worker A C) → HasSpent start going.left going.found w worker.old → HasSpent start g.left g.found w worker.new) }
    ensures given_up { IfErr result (λ s. IsGivenUp A.over A.stands code.now table.now.id s worker.new) }
    ensures stopped { IfErr result (λ s. (start : ℕ) (w : Worker A C) → HasSpent start going.left going.found w worker.old → HasWorked start (Err s) w worker.new) }
    ensures solo { IfOk result (λ g. (most : ℕ) → IsRunning A.over A.place A.stands A.advances A.gives A.starts code.now AtEmpty most going.left going.found worker.old → IsGoing A.over A.place A.stands A.advances A.gives A.starts code.now AtFree most g.left g.found worker.new) }
{
    due.clear();
    let going = rest(rt, alloc, table, code, worker, held, due, going)?;
    settle_ports(rt, alloc, table, code, worker, held, going, due.as_slice())
}

// A task is picked and runs, or the worker rests.
fn seek<R: Wait, A: Starting, C: Clock + Drop, G: Gate>(
    rt: &R,
    alloc: Global,
    table: &Table<Pool<A, C>>,
    code: &ValidCode,
    worker: &mut Worker<A, C>,
    held: &mut Held<A>,
    gate: &G,
    due: &mut Vec<u64>,
    going: Going<A>,
) -> Result<Going<A>, PoolStop>
    requires at { IsAtWork A.over A.stands code.now table.now.id worker.old going.lane.value }
    requires bare { IsBare held.old }
    requires on { going.found ≡ false }
    requires some { 0 < going.left }
    ensures same { SameWorker worker.old worker.new }
    ensures bare { IsBare held.new }
    ensures at { IfOk result (λ g. IsAtWork A.over A.stands code.now table.now.id worker.new g.lane.value) }
    ensures spent { IfOk result (λ g. (start : ℕ) (w : Worker A C) → HasSpent start going.left going.found w worker.old → HasSpent start g.left g.found w worker.new) }
    ensures given_up { IfErr result (λ s. IsGivenUp A.over A.stands code.now table.now.id s worker.new) }
    ensures stopped { IfErr result (λ s. (start : ℕ) (w : Worker A C) → HasSpent start going.left going.found w worker.old → HasWorked start (Err s) w worker.new) }
    ensures solo { IfOk result (λ g. (most : ℕ) → going.lane.value.task ≡ None → IsRunning A.over A.place A.stands A.advances A.gives A.starts code.now AtFree most going.left going.found worker.old → IsGoing A.over A.place A.stands A.advances A.gives A.starts code.now AtFree most g.left g.found worker.new) }
{
    let going = find_task(rt, table, code, worker, going);
    if going.lane.task.is_none() {
        gate.pass(worker.number, GatePlace::Idle);
        rest_and_settle(rt, alloc, table, code, worker, held, due, going)
    } else {
        gate.pass(worker.number, GatePlace::Picked);
        run_picked(rt, alloc, table, code, worker, held, gate, due, going)
    }
}

/// The lane's task runs; where there is none, one is picked, or the worker rests.
pub(crate) fn visit_lane<R: Wait, A: Starting, C: Clock + Drop, G: Gate>(
    rt: &R,
    alloc: Global,
    table: &Table<Pool<A, C>>,
    code: &ValidCode,
    worker: &mut Worker<A, C>,
    held: &mut Held<A>,
    gate: &G,
    due: &mut Vec<u64>,
    going: Going<A>,
) -> Result<Going<A>, PoolStop>
    requires at { IsAtWork A.over A.stands code.now table.now.id worker.old going.lane.value }
    requires bare { IsBare held.old }
    requires on { going.found ≡ false }
    requires some { 0 < going.left }
    ensures same { SameWorker worker.old worker.new }
    ensures bare { IsBare held.new }
    ensures at { IfOk result (λ g. IsAtWork A.over A.stands code.now table.now.id worker.new g.lane.value) }
    ensures spent { IfOk result (λ g. (start : ℕ) (w : Worker A C) → HasSpent start going.left going.found w worker.old → HasSpent start g.left g.found w worker.new) }
    ensures given_up { IfErr result (λ s. IsGivenUp A.over A.stands code.now table.now.id s worker.new) }
    ensures stopped { IfErr result (λ s. (start : ℕ) (w : Worker A C) → HasSpent start going.left going.found w worker.old → HasWorked start (Err s) w worker.new) }
    ensures solo { IfOk result (λ g. (most : ℕ) → IsRunning A.over A.place A.stands A.advances A.gives A.starts code.now AtFree most going.left going.found worker.old → IsGoing A.over A.place A.stands A.advances A.gives A.starts code.now AtFree most g.left g.found worker.new) }
{
    if going.lane.task.is_some() {
        run_and_leave(rt, alloc, table, code, worker, held, gate, going)
    } else {
        seek(rt, alloc, table, code, worker, held, gate, due, going)
    }
}
