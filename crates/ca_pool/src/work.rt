// A worker's call: it makes events until they cost its allowance, or it finds an end.
ghost use Rattle.std.specs.Prelude.{◌≡◌, ℕ, ◌<◌, [], true, OnOk, IfErr, IfOk, Err, Ok};
ghost use Rattle.ca_term.specs.Program.{program_view};
ghost use Rattle.ca_lower.specs.Gos.{SameGos};
ghost use Rattle.ca_lower.specs.Lowered.{Lowered};
ghost use Rattle.ca_states.specs.ValidCode.{valid_code};
ghost use Rattle.ca_turns.specs.Hands.{IsHolding};
ghost use Rattle.ca_table.specs.Worked.{HasWorked};
ghost use Rattle.ca_table.specs.Workers.{IsReady, SameWorker};
ghost use Rattle.ca_table.specs.declared.answer.PoolStop.TheVariants.{ClockFailed, OutOfMemory};
ghost use Rattle.ca_table.specs.declared.worker.Worker.{Worker};
ghost use Rattle.ca_alone.specs.Schedule.{AtFree};
ghost use Rattle.ca_pool.specs.AtWork.{HasSpent, IsAtWork, IsGivenUp};
ghost use Rattle.ca_pool.specs.Desk.{IsBare};
ghost use Rattle.ca_pool.specs.Lone.{IsGoing, IsLone, LoneStopped};

use crate::clock::stop;
use crate::gate::Gate;
use crate::progress::{Going, goes_on};
use crate::visit::visit_lane;
use ca_agent::agent::Agent;
use ca_agent::starting::Starting;
use ca_commit::held::Held;
use ca_states::valid_code::ValidCode;
use ca_table::answer::{PoolStop, WorkEnd};
use ca_table::pool::Pool;
use ca_table::seating::{rise, sit};
use ca_table::worker::Worker;
use ca_timers::clock::Clock;
use ca_turns::Table;
use std::alloc::Global;
use std::sync::Wait;

// The worker takes its lane.
fn take_seat<R: Wait, A: Agent, C: Clock + Drop>(
    rt: &R,
    table: &Table<Pool<A, C>>,
    code: &ValidCode,
    worker: &mut Worker<A, C>,
    allowance: u64,
) -> Going<A>
    requires ready { IsReady A.over A.stands (program_view worker.old.program.value) (valid_code code.now) table.now.id worker.old.workers worker.old }
    requires lowered { Lowered (program_view worker.old.program.value) (valid_code code.now) }
    requires gos { SameGos (program_view worker.old.program.value) (valid_code code.now) }
    ensures same { SameWorker worker.old worker.new }
    ensures at { IsAtWork A.over A.stands code.now table.now.id worker.new result.lane.value }
    ensures spent { HasSpent allowance result.left result.found worker.old worker.new }
    ensures solo { IsLone worker.old → worker.old.hand.view.turns ≡ [] → 0 < allowance → IsGoing A.over A.place A.stands A.advances A.gives A.starts code.now AtFree allowance result.left result.found worker.new }
{
    let lane = sit(rt, table, code, worker);
    Going {
        lane,
        left: allowance,
        found: false,
    }
}

// The worker visits its lane until its allowance is used, or the run's end is found.
fn go_on<R: Wait, A: Starting, C: Clock + Drop, G: Gate>(
    rt: &R,
    alloc: Global,
    table: &Table<Pool<A, C>>,
    code: &ValidCode,
    worker: &mut Worker<A, C>,
    held: &mut Held<A>,
    gate: &G,
    due: &mut Vec<u64>,
    going: Going<A>,
) -> Result<Going<A>, PoolStop>
    requires at { IsAtWork A.over A.stands code.now table.now.id worker.old going.lane.value }
    requires bare { IsBare held.old }
    ensures same { SameWorker worker.old worker.new }
    ensures bare { IsBare held.new }
    ensures at { IfOk result (λ g. IsAtWork A.over A.stands code.now table.now.id worker.new g.lane.value) }
    ensures spent { IfOk result (λ g. (start : ℕ) (w : Worker A C) → HasSpent start going.left going.found w worker.old → HasSpent start g.left g.found w worker.new) }
    ensures given_up { IfErr result (λ s. IsGivenUp A.over A.stands code.now table.now.id s worker.new) }
    ensures stopped { IfErr result (λ s. (start : ℕ) (w : Worker A C) → HasSpent start going.left going.found w worker.old → HasWorked start (Err s) w worker.new) }
    ensures over { IfOk result (λ g. 0 < g.left → g.found ≡ true) }
    ensures solo { IfOk result (λ g. (most : ℕ) → IsGoing A.over A.place A.stands A.advances A.gives A.starts code.now AtFree most going.left going.found worker.old → IsGoing A.over A.place A.stands A.advances A.gives A.starts code.now AtFree most g.left g.found worker.new) }
{
    let mut going = going;
    for _ in rt.forever() {
        if !goes_on(&going) {
            return Ok(going);
        }
        going = visit_lane(rt, alloc, table, code, worker, held, gate, due, going)?;
    }
    unreachable!()
}

// The worker gives its lane back; how its call ended.
fn leave_seat<A: Agent, C: Clock + Drop>(
    table: &Table<Pool<A, C>>,
    code: &ValidCode,
    worker: &mut Worker<A, C>,
    going: Going<A>,
) -> WorkEnd
    requires at { IsAtWork A.over A.stands code.now table.now.id worker.old going.lane.value }
    requires over { 0 < going.left → going.found ≡ true }
    ensures same { SameWorker worker.old worker.new }
    ensures ready { IsReady A.over A.stands (program_view worker.new.program.value) (valid_code code.now) table.now.id worker.new.workers worker.new }
    ensures worked { (start : ℕ) (w : Worker A C) → HasSpent start going.left going.found w worker.old → HasWorked start (Ok result) w worker.new }
    ensures solo { (most : ℕ) → IsGoing A.over A.place A.stands A.advances A.gives A.starts code.now AtFree most going.left going.found worker.old → LoneStopped A.over A.place A.stands A.advances A.gives A.starts code.now most worker.new }
{
    let Going {
        lane,
        left,
        found: _,
    } = going;
    rise(table, code, worker, lane);
    if left == 0 {
        WorkEnd::Spent
    } else {
        WorkEnd::Over
    }
}

// The worker takes its lane, makes events, and gives the lane back.
fn take_turns<R: Wait, A: Starting, C: Clock + Drop, G: Gate>(
    rt: &R,
    alloc: Global,
    table: &Table<Pool<A, C>>,
    code: &ValidCode,
    worker: &mut Worker<A, C>,
    held: &mut Held<A>,
    gate: &G,
    allowance: u64,
) -> Result<WorkEnd, PoolStop>
    requires ready { IsReady A.over A.stands (program_view worker.old.program.value) (valid_code code.now) table.now.id worker.old.workers worker.old }
    requires lowered { Lowered (program_view worker.old.program.value) (valid_code code.now) }
    requires gos { SameGos (program_view worker.old.program.value) (valid_code code.now) }
    requires bare { IsBare held.old }
    ensures same { SameWorker worker.old worker.new }
    ensures bare { IsBare held.new }
    ensures ready { OnOk result (IsReady A.over A.stands (program_view worker.new.program.value) (valid_code code.now) table.now.id worker.new.workers worker.new) }
    ensures worked { IfOk result (λ e. HasWorked allowance (Ok e) worker.old worker.new) }
    ensures given_up { IfErr result (λ s. IsGivenUp A.over A.stands code.now table.now.id s worker.new) }
    ensures stopped { IfErr result (λ s. HasWorked allowance (Err s) worker.old worker.new) }
    ensures solo { IfOk result (λ e. IsLone worker.old → worker.old.hand.view.turns ≡ [] → 0 < allowance → LoneStopped A.over A.place A.stands A.advances A.gives A.starts code.now allowance worker.new) }
{
    let mut due = Vec::new(alloc);
    let seated = take_seat(rt, table, code, worker, allowance);
    let going = go_on(rt, alloc, table, code, worker, held, gate, &mut due, seated)?;
    Ok(leave_seat(table, code, worker, going))
}

// A worker that wants memory tells the others.
fn tell_stop<R: Wait, A: Agent, C: Clock + Drop>(
    rt: &R,
    table: &Table<Pool<A, C>>,
    code: &ValidCode,
    worker: &mut Worker<A, C>,
    held: &mut Held<A>,
    stopped: PoolStop,
) -> PoolStop
    requires given_up { IsGivenUp A.over A.stands code.now table.now.id stopped worker.old }
    requires bare { IsBare held.old }
    ensures same { SameWorker worker.old worker.new }
    ensures worked { (start : ℕ) (w : Worker A C) → HasWorked start (Err stopped) w worker.old → HasWorked start (Err result) w worker.new }
    ensures failed { result ≡ ClockFailed → IsReady A.over A.stands (program_view worker.new.program.value) (valid_code code.now) table.now.id worker.new.workers worker.new }
    ensures kept { result ≡ OutOfMemory → (i : ℕ) → IsHolding worker.new.hand i → i ≡ worker.old.number }
{
    match stopped {
        PoolStop::ClockFailed => PoolStop::ClockFailed,
        PoolStop::OutOfMemory => {
            stop(rt, table, code, worker, held);
            PoolStop::OutOfMemory
        }
    }
}

/// One worker, until its events cost the allowance or it finds an end. The code is that which the program was lowered
/// to. It gives back all that it holds, but where memory was refused it may keep its lane, which has its own number.
pub fn work<R: Wait, A: Starting, C: Clock + Drop, G: Gate>(
    rt: &R,
    alloc: Global,
    table: &Table<Pool<A, C>>,
    worker: &mut Worker<A, C>,
    allowance: u64,
    code: &ValidCode,
    gate: &G,
) -> Result<WorkEnd, PoolStop>
    requires ready { IsReady A.over A.stands (program_view worker.old.program.value) (valid_code code.now) table.now.id worker.old.workers worker.old }
    requires lowered { Lowered (program_view worker.old.program.value) (valid_code code.now) }
    requires gos { SameGos (program_view worker.old.program.value) (valid_code code.now) }
    ensures ready { OnOk result (IsReady A.over A.stands (program_view worker.old.program.value) (valid_code code.now) table.now.id worker.old.workers worker.new) }
    ensures failed { result ≡ Err ClockFailed → IsReady A.over A.stands (program_view worker.old.program.value) (valid_code code.now) table.now.id worker.old.workers worker.new }
    ensures kept { result ≡ Err OutOfMemory → (i : ℕ) → IsHolding worker.new.hand i → i ≡ worker.old.number }
    ensures worked { HasWorked allowance result worker.old worker.new }
    ensures solo { IfOk result (λ e. IsLone worker.old → worker.old.hand.view.turns ≡ [] → 0 < allowance → LoneStopped A.over A.place A.stands A.advances A.gives A.starts code.now allowance worker.new) }
{
    // Where there is not even the memory to begin with, the others come to the end without this worker.
    let Ok(mut held) = Held::new(alloc) else {
        return Err(PoolStop::OutOfMemory);
    };
    match take_turns(rt, alloc, table, code, worker, &mut held, gate, allowance) {
        Ok(end) => Ok(end),
        Err(stopped) => Err(tell_stop(rt, table, code, worker, &mut held, stopped)),
    }
}
