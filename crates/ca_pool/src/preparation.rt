// What the event of a plan needs beside the plan's banks and shards: the clock for a timeout, the worker's own ready part
// for a task that is woken or started, and all memory.
ghost use Rattle.std.specs.Prelude.{◌≡◌, ℕ, ◌≤◌, ◌<◌, Option, Some, None, IfOk, IfSome, OnErr, OnOk, is_some, option_map, true};
ghost use Rattle.ca_journal.specs.Merge.{entries, room};
ghost use Rattle.ca_timers.specs.Timers.{TimersView};
ghost use Rattle.ca_term.specs.Event.{port_number};
ghost use Rattle.ca_term.specs.Operation.{seed_view, what_view};
ghost use Rattle.ca_term.specs.Program.{ProgramView, program_view};
ghost use Rattle.ca_meaning.specs.BodyViews.{is_at_op};
ghost use Rattle.ca_meaning.specs.TaskSteps.{result_of};
ghost use Rattle.ca_states.specs.ValidCode.{valid_code};
ghost use Rattle.ca_lower.specs.Gos.{SameGos};
ghost use Rattle.ca_lower.specs.Lowered.{Lowered};
ghost use Rattle.ca_agent.specs.Seeds.{HasSeed};
ghost use Rattle.ca_commit.specs.Applying.{HasParts, HasSpawned, IsMade, KeepsApart};
ghost use Rattle.ca_commit.specs.Contents.{whole};
ghost use Rattle.ca_commit.specs.Plans.{plan_view};
ghost use Rattle.ca_commit.specs.Showing.{waits_held};
ghost use Rattle.ca_commit.specs.Waking.{IsPaused};
ghost use Rattle.ca_commit.specs.declared.task.Task.{Task};
ghost use Rattle.ca_table.specs.Bearing.{ShowSame};
ghost use Rattle.ca_table.specs.Grips.{SameTurns};
ghost use Rattle.ca_table.specs.Needing.{is_timeout, needs_ready, needs_timers};
ghost use Rattle.ca_table.specs.Parts.{clockwork_seen, part_seen};
ghost use Rattle.ca_table.specs.Workers.{SameWorker};
ghost use Rattle.ca_table.specs.declared.part.Lane.{Lane};
ghost use Rattle.ca_pool.specs.AtEvent.{HasTaken, SameNext};
ghost use Rattle.ca_pool.specs.Desk.{ButReady, ClockBox};
ghost use Rattle.ca_pool.specs.Preparing.{AskedFor, ButTimers, HasRest, AreTimersTimely, SpawnsAt, StartsFor, clock_seen, clock_with, in_place};

use crate::hold::{take_clock, take_ready};
use ca_agent::agent::Agent;
use ca_agent::starting::Starting;
use ca_commit::applying::reserve;
use ca_commit::held::Held;
use ca_commit::making::result_of;
use ca_commit::planned::Plan;
use ca_commit::task::Task;
use ca_states::valid_code::ValidCode;
use ca_table::noting::make_room;
use ca_table::part::Clockwork;
use ca_table::pool::Pool;
use ca_table::worker::Worker;
use ca_term::operation::{Op, Seed, What};
use ca_timers::clock::Clock;
use ca_timers::timers::Timers;
use ca_turns::Table;
use ca_value::memory::OutOfMemory;
use std::alloc::Global;
use std::mem;
use std::sync::Wait;

fn is_timeout(what: &What) -> bool
    ensures { result ≡ is_timeout (what_view what.now) }
{
    match what {
        What::Timeout(_) => true,
        What::Unbuffered | What::Fixed(_) | What::Dropping(_) | What::Sliding(_) => false,
        What::Promise | What::Mult(_) | What::Mix(_, _) | What::Pub(_) => false,
    }
}

// Whether the event is a timeout, for which the clock is asked.
fn asks_clock(plan: &Plan) -> bool
    ensures { result ≡ needs_timers (plan_view plan.now) }
{
    match plan {
        Plan::Make(what) => is_timeout(what),
        Plan::Done(_) | Plan::Meet(_, _, _) | Plan::Park(_) | Plan::Post(_) => false,
        Plan::Default(_) | Plan::Spawn(_, _) | Plan::Close(_) => false,
        Plan::Register(_, _, _) | Plan::Print(_) => false,
        Plan::Look(_) | Plan::Prune(_, _, _) | Plan::Refused(_) => false,
    }
}

// Whether a task is woken or started.
fn wakes(plan: &Plan) -> bool
    ensures { result ≡ needs_ready (plan_view plan.now) }
{
    match plan {
        Plan::Meet(_, _, _) | Plan::Spawn(_, _) => true,
        Plan::Done(_) | Plan::Park(_) | Plan::Post(_) | Plan::Default(_) => false,
        Plan::Make(_) | Plan::Close(_) | Plan::Register(_, _, _) | Plan::Print(_) => false,
        Plan::Look(_) | Plan::Prune(_, _, _) | Plan::Refused(_) => false,
    }
}

// The clockwork, for a timeout.
fn take_timers<R: Wait, A: Agent, C: Clock + Drop>(
    rt: &R,
    table: &Table<Pool<A, C>>,
    code: &ValidCode,
    worker: &mut Worker<A, C>,
    held: &Held<A>,
    plan: &Plan,
) -> Option<Box<Clockwork<C>>>
    requires carries { (program : ProgramView) × (n : ℕ) × (l : Lane A) × HasTaken A.over A.stands code.now table.now.id program n l (part_seen C.least C.faults C.readings) None held.now worker.old }
    requires ready { held.now.ready ≡ None }
    ensures same { SameWorker worker.old worker.new }
    ensures turns { SameTurns worker.old.hand worker.new.hand }
    ensures there { is_some result ≡ needs_timers (plan_view plan.now) }
    ensures timely { AreTimersTimely (clock_seen C.least C.faults C.readings result) }
    ensures carries { (program : ProgramView) (n : ℕ) (l : Lane A) → HasTaken A.over A.stands code.now table.now.id program n l (part_seen C.least C.faults C.readings) None held.now worker.old → HasTaken A.over A.stands code.now table.now.id program n l (part_seen C.least C.faults C.readings) result held.now worker.new }
{
    if asks_clock(plan) {
        Some(take_clock(rt, table, code, worker, held))
    } else {
        None
    }
}

// The worker's own ready part, for a task that is woken or started.
fn take_woken<R: Wait, A: Agent, C: Clock + Drop>(
    rt: &R,
    table: &Table<Pool<A, C>>,
    code: &ValidCode,
    worker: &mut Worker<A, C>,
    held: &mut Held<A>,
    plan: &Plan,
)
    requires carries { (program : ProgramView) × (n : ℕ) × (l : Lane A) × (clock : Option (ClockBox C)) × HasTaken A.over A.stands code.now table.now.id program n l (part_seen C.least C.faults C.readings) clock held.old worker.old }
    requires ready { held.old.ready ≡ None }
    ensures same { SameWorker worker.old worker.new }
    ensures turns { SameTurns worker.old.hand worker.new.hand }
    ensures there { is_some held.new.ready ≡ needs_ready (plan_view plan.now) }
    ensures others { ButReady held.old held.new }
    ensures carries { (program : ProgramView) (n : ℕ) (l : Lane A) (clock : Option (ClockBox C)) → HasTaken A.over A.stands code.now table.now.id program n l (part_seen C.least C.faults C.readings) clock held.old worker.old → HasTaken A.over A.stands code.now table.now.id program n l (part_seen C.least C.faults C.readings) clock held.new worker.new }
{
    if wakes(plan) {
        take_ready(rt, table, code, worker, held);
    }
}

/// What the event of the plan touches beside the lane and what is held for the plan: the clockwork, and the ready part.
pub(crate) fn take_others<R: Wait, A: Agent, C: Clock + Drop>(
    rt: &R,
    table: &Table<Pool<A, C>>,
    code: &ValidCode,
    worker: &mut Worker<A, C>,
    held: &mut Held<A>,
    plan: &Plan,
) -> Option<Box<Clockwork<C>>>
    requires carries { (program : ProgramView) × (n : ℕ) × (l : Lane A) × HasTaken A.over A.stands code.now table.now.id program n l (part_seen C.least C.faults C.readings) None held.old worker.old }
    requires ready { held.old.ready ≡ None }
    ensures same { SameWorker worker.old worker.new }
    ensures turns { SameTurns worker.old.hand worker.new.hand }
    ensures clock { is_some result ≡ needs_timers (plan_view plan.now) }
    ensures timely { AreTimersTimely (clock_seen C.least C.faults C.readings result) }
    ensures there { is_some held.new.ready ≡ needs_ready (plan_view plan.now) }
    ensures others { ButReady held.old held.new }
    ensures carries { (program : ProgramView) (n : ℕ) (l : Lane A) → HasTaken A.over A.stands code.now table.now.id program n l (part_seen C.least C.faults C.readings) None held.old worker.old → HasTaken A.over A.stands code.now table.now.id program n l (part_seen C.least C.faults C.readings) result held.new worker.new }
{
    let clock = take_timers(rt, table, code, worker, held, plan);
    take_woken(rt, table, code, worker, held, plan);
    clock
}

// The timers of a clockwork, and the clockwork with none.
fn part_times<C: Clock + Drop>(
    alloc: Global,
    mut clock: Box<Clockwork<C>>,
) -> (Box<Clockwork<C>>, Timers)
    ensures timers { result.1 ≡ clock.value.timers }
    ensures clock { result.0.value.clock ≡ clock.value.clock }
    ensures mark { result.0.value.mark ≡ clock.value.mark }
{
    let timers = mem::replace(&mut clock.timers, Timers::new(alloc));
    (clock, timers)
}

// The timers of the clockwork, if that is there, come among what is held.
fn take_times<A: Agent, C: Clock + Drop>(
    alloc: Global,
    held: &mut Held<A>,
    clock: Option<Box<Clockwork<C>>>,
) -> Option<Box<Clockwork<C>>>
    requires none { held.old.timers ≡ None }
    ensures some { is_some result ≡ is_some clock }
    ensures there { is_some held.new.timers ≡ is_some clock }
    ensures seen { clock_with C.least C.faults C.readings result held.new.timers ≡ clock_seen C.least C.faults C.readings clock }
    ensures others { ButTimers held.old held.new }
{
    match clock {
        None => None,
        Some(clock) => {
            let parted = part_times(alloc, clock);
            held.timers = Some(parted.1);
            Some(parted.0)
        }
    }
}

fn with_times<C: Clock + Drop>(mut clock: Box<Clockwork<C>>, timers: Timers) -> Box<Clockwork<C>>
    ensures timers { result.value.timers ≡ timers }
    ensures clock { result.value.clock ≡ clock.value.clock }
    ensures mark { result.value.mark ≡ clock.value.mark }
{
    clock.timers = timers;
    clock
}

// The same, with its own where there are none.
fn joined<C: Clock + Drop>(clock: Box<Clockwork<C>>, timers: Option<Timers>) -> Box<Clockwork<C>>
    ensures { clockwork_seen C.least C.faults C.readings result.value ≡ in_place (clockwork_seen C.least C.faults C.readings clock.value) timers }
{
    match timers {
        Some(timers) => with_times(clock, timers),
        None => clock,
    }
}

/// The timers that are held, if they are, go back into the clockwork.
#[inline(always)]
pub(crate) fn put_times<A: Agent, C: Clock + Drop>(
    held: &mut Held<A>,
    clock: Option<Box<Clockwork<C>>>,
) -> Option<Box<Clockwork<C>>>
    ensures some { is_some result ≡ is_some clock }
    ensures none { held.new.timers ≡ None }
    ensures seen { clock_seen C.least C.faults C.readings result ≡ clock_with C.least C.faults C.readings clock held.old.timers }
    ensures others { ButTimers held.old held.new }
{
    // Most events have no timers, and nothing is moved then.
    if held.timers.is_none() {
        return clock;
    }
    let timers = held.timers.take();
    match clock {
        None => None,
        Some(clock) => Some(joined(clock, timers)),
    }
}

// The clock's answer.
fn ask<C: Clock + Drop>(
    mut clock: Box<Clockwork<C>>,
) -> (Box<Clockwork<C>>, Result<u64, OutOfMemory>)
    ensures refused { (o : Option TimersView) → OnErr result.1 (clock_with C.least C.faults C.readings (Some result.0) o ≡ clock_with C.least C.faults C.readings (Some clock) o) }
    ensures asked { (o : Option TimersView) → IfOk result.1 (λ m. AskedFor m (clock_with C.least C.faults C.readings (Some clock) o) (clock_with C.least C.faults C.readings (Some result.0) o)) }
{
    match clock.clock.reserve() {
        Err(OutOfMemory) => (clock, Err(OutOfMemory)),
        Ok(()) => {
            let moment = clock.clock.now();
            (clock, Ok(moment))
        }
    }
}

// The same where there is a clock.
fn ask_moment<C: Clock + Drop>(
    clock: Option<Box<Clockwork<C>>>,
) -> (Option<Box<Clockwork<C>>>, Result<u64, OutOfMemory>)
    ensures some { is_some result.0 ≡ is_some clock }
    ensures refused { (o : Option TimersView) → OnErr result.1 (clock_with C.least C.faults C.readings result.0 o ≡ clock_with C.least C.faults C.readings clock o) }
    ensures asked { (o : Option TimersView) → IfOk result.1 (λ m. AskedFor m (clock_with C.least C.faults C.readings clock o) (clock_with C.least C.faults C.readings result.0 o)) }
{
    match clock {
        None => (None, Ok(0)),
        Some(clock) => {
            let asked = ask(clock);
            (Some(asked.0), asked.1)
        }
    }
}

// The new task of a seed.
fn start_task<A: Starting>(
    alloc: Global,
    code: &ValidCode,
    seed: &Seed,
    number: u64,
) -> Result<Task<A>, OutOfMemory>
    requires { HasSeed (valid_code code.now) (seed_view seed.now) }
    ensures number { IfOk result (λ s. s.number ≡ number) }
    ensures result { IfOk result (λ s. option_map port_number s.result ≡ result_of (seed_view seed.now)) }
    ensures alts { IfOk result (λ s. s.alts ≡ 0) }
    ensures starts { IfOk result (λ s. (program : ProgramView) → Lowered program (valid_code code.now) → SameGos program (valid_code code.now) → A.starts program (seed_view seed.now) s.agent) }
    ensures over { IfOk result (λ s. A.over (valid_code code.now) s.agent) }
{
    match A::start(alloc, code, seed)? {
        Some(agent) => Ok(Task {
            number,
            result: result_of(seed),
            alts: 0,
            agent,
        }),
        None => unreachable!(),
    }
}

// The new task of a spawn. Each seed at which a task over the code stands is of a task that the code has.
fn spawned<A: Starting>(
    alloc: Global,
    code: &ValidCode,
    task: &Task<A>,
    plan: &Plan,
    number: u64,
) -> Result<Option<Task<A>>, OutOfMemory>
    requires at { is_at_op (A.place task.now.agent) ≡ true }
    requires over { A.over (valid_code code.now) task.now.agent }
    requires spawns { SpawnsAt (A.place task.now.agent) (plan_view plan.now) }
    ensures there { IfOk result (λ o. HasSpawned o (plan_view plan.now)) }
    ensures number { IfOk result (λ o. IfSome o (λ s. s.number ≡ number)) }
    ensures starts { IfOk result (λ o. IfSome o (λ s. (program : ProgramView) → Lowered program (valid_code code.now) → SameGos program (valid_code code.now) → StartsFor A.place A.starts program task.now s)) }
    ensures over { IfOk result (λ o. IfSome o (λ s. A.over (valid_code code.now) s.agent)) }
{
    match plan {
        Plan::Spawn(_, _) => match &task.agent.want().op {
            Op::Spawn(seed) => Ok(Some(start_task(alloc, code, seed, number)?)),
            _ => unreachable!(),
        },
        Plan::Done(_) | Plan::Meet(_, _, _) | Plan::Park(_) | Plan::Post(_) => Ok(None),
        Plan::Default(_) | Plan::Make(_) | Plan::Close(_) => Ok(None),
        Plan::Register(_, _, _) | Plan::Print(_) => Ok(None),
        Plan::Look(_) | Plan::Prune(_, _, _) | Plan::Refused(_) => Ok(None),
    }
}

// What is made for the event among what is held.
fn reserve_parts<A: Agent, C: Clock + Drop>(
    alloc: Global,
    held: &mut Held<A>,
    plan: &Plan,
    clock: &Option<Box<Clockwork<C>>>,
) -> Result<(), OutOfMemory>
    requires paused { (w : ℕ) → IsPaused A.place (whole (waits_held held.old.shards) w) }
    requires parts { HasParts held.old (plan_view plan.now) }
    requires apart { KeepsApart (plan_view plan.now) }
    ensures shown { ShowSame held.old held.new }
    ensures next { SameNext held.old held.new }
    ensures timers { clock_with C.least C.faults C.readings clock.now held.new.timers ≡ clock_with C.least C.faults C.readings clock.now held.old.timers }
    ensures some { is_some held.new.timers ≡ is_some held.old.timers }
    ensures made { OnOk result (IsMade A.place held.new plan.now) }
{
    reserve(alloc, held, plan)
}

// All memory that the event takes: its entry, the new task, and what is made for it.
fn make_parts<A: Starting, C: Clock + Drop>(
    alloc: Global,
    code: &ValidCode,
    worker: &mut Worker<A, C>,
    held: &mut Held<A>,
    task: &Task<A>,
    plan: &Plan,
    clock: &Option<Box<Clockwork<C>>>,
) -> Result<Option<Task<A>>, OutOfMemory>
    requires at { is_at_op (A.place task.now.agent) ≡ true }
    requires over { A.over (valid_code code.now) task.now.agent }
    requires spawns { SpawnsAt (A.place task.now.agent) (plan_view plan.now) }
    requires paused { (w : ℕ) → IsPaused A.place (whole (waits_held held.old.shards) w) }
    requires parts { HasParts held.old (plan_view plan.now) }
    requires apart { KeepsApart (plan_view plan.now) }
    ensures same { SameWorker worker.old worker.new }
    ensures hand { worker.new.hand ≡ worker.old.hand }
    ensures entries { entries worker.new.entries ≡ entries worker.old.entries }
    ensures room { OnOk result (0 < room worker.new.entries) }
    ensures shown { ShowSame held.old held.new }
    ensures next { SameNext held.old held.new }
    ensures timers { clock_with C.least C.faults C.readings clock.now held.new.timers ≡ clock_with C.least C.faults C.readings clock.now held.old.timers }
    ensures some { is_some held.new.timers ≡ is_some held.old.timers }
    ensures made { OnOk result (IsMade A.place held.new plan.now) }
    ensures there { IfOk result (λ o. HasSpawned o (plan_view plan.now)) }
    ensures number { IfOk result (λ o. IfSome o (λ s. s.number ≡ held.old.new_task)) }
    ensures starts { IfOk result (λ o. IfSome o (λ s. (program : ProgramView) → Lowered program (valid_code code.now) → SameGos program (valid_code code.now) → StartsFor A.place A.starts program task.now s)) }
    ensures over { IfOk result (λ o. IfSome o (λ s. A.over (valid_code code.now) s.agent)) }
{
    make_room(worker)?;
    let started = spawned(alloc, code, task, plan, held.new_task)?;
    reserve_parts(alloc, held, plan, clock)?;
    Ok(started)
}

// The clock is asked, once all else is there.
fn prepare_moment<A: Agent, C: Clock + Drop>(
    held: &mut Held<A>,
    plan: &Plan,
    clock: Option<Box<Clockwork<C>>>,
    started: Option<Task<A>>,
) -> (
    Option<Box<Clockwork<C>>>,
    Result<Option<Task<A>>, OutOfMemory>,
)
    requires made { IsMade A.place held.old plan.now }
    ensures shown { ShowSame held.old held.new }
    ensures next { SameNext held.old held.new }
    ensures some { is_some result.0 ≡ is_some clock }
    ensures none { OnErr result.1 (held.new.timers ≡ None) }
    ensures kept { OnErr result.1 (clock_seen C.least C.faults C.readings result.0 ≡ clock_with C.least C.faults C.readings clock held.old.timers) }
    ensures timers { OnOk result.1 (held.new.timers ≡ held.old.timers) }
    ensures asked { OnOk result.1 (AskedFor held.new.moment (clock_with C.least C.faults C.readings clock held.old.timers) (clock_with C.least C.faults C.readings result.0 held.new.timers)) }
    ensures made { OnOk result.1 (IsMade A.place held.new plan.now) }
    ensures started { IfOk result.1 (λ o. o ≡ started) }
{
    let (clock, asked) = ask_moment(clock);
    match asked {
        Err(OutOfMemory) => (put_times(held, clock), Err(OutOfMemory)),
        Ok(moment) => {
            held.moment = moment;
            (clock, Ok(started))
        }
    }
}

/// Makes all that the event of the plan needs; of a timeout the clock is asked last. The timers are held then. Where there
/// is no memory the clockwork shows what it did.
pub(crate) fn prepare<A: Starting, C: Clock + Drop>(
    alloc: Global,
    code: &ValidCode,
    worker: &mut Worker<A, C>,
    held: &mut Held<A>,
    task: &Task<A>,
    plan: &Plan,
    clock: Option<Box<Clockwork<C>>>,
) -> (
    Option<Box<Clockwork<C>>>,
    Result<Option<Task<A>>, OutOfMemory>,
)
    requires at { is_at_op (A.place task.now.agent) ≡ true }
    requires over { A.over (valid_code code.now) task.now.agent }
    requires spawns { SpawnsAt (A.place task.now.agent) (plan_view plan.now) }
    requires paused { (w : ℕ) → IsPaused A.place (whole (waits_held held.old.shards) w) }
    requires rest { HasRest held.old (plan_view plan.now) }
    requires ready { is_some held.old.ready ≡ needs_ready (plan_view plan.now) }
    requires clock { is_some clock ≡ needs_timers (plan_view plan.now) }
    requires timers { held.old.timers ≡ None }
    requires apart { KeepsApart (plan_view plan.now) }
    ensures same { SameWorker worker.old worker.new }
    ensures hand { worker.new.hand ≡ worker.old.hand }
    ensures entries { entries worker.new.entries ≡ entries worker.old.entries }
    ensures room { OnOk result.1 (0 < room worker.new.entries) }
    ensures shown { ShowSame held.old held.new }
    ensures next { SameNext held.old held.new }
    ensures some { is_some result.0 ≡ is_some clock }
    ensures none { OnErr result.1 (held.new.timers ≡ None) }
    ensures kept { OnErr result.1 (clock_seen C.least C.faults C.readings result.0 ≡ clock_seen C.least C.faults C.readings clock) }
    ensures timers { OnOk result.1 (is_some held.new.timers ≡ is_some clock) }
    ensures asked { OnOk result.1 (AskedFor held.new.moment (clock_seen C.least C.faults C.readings clock) (clock_with C.least C.faults C.readings result.0 held.new.timers)) }
    ensures made { OnOk result.1 (IsMade A.place held.new plan.now) }
    ensures there { IfOk result.1 (λ o. HasSpawned o (plan_view plan.now)) }
    ensures number { IfOk result.1 (λ o. IfSome o (λ s. s.number ≡ held.old.new_task)) }
    ensures starts { IfOk result.1 (λ o. IfSome o (λ s. (program : ProgramView) → Lowered program (valid_code code.now) → SameGos program (valid_code code.now) → StartsFor A.place A.starts program task.now s)) }
    ensures over { IfOk result.1 (λ o. IfSome o (λ s. A.over (valid_code code.now) s.agent)) }
{
    let clock = take_times(alloc, held, clock);
    match make_parts(alloc, code, worker, held, task, plan, &clock) {
        Err(OutOfMemory) => (put_times(held, clock), Err(OutOfMemory)),
        Ok(started) => prepare_moment(held, plan, clock, started),
    }
}
