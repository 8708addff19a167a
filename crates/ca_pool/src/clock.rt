// The clock: a worker asks it, and sets and obeys the mark of the run.
ghost use Rattle.std.specs.Prelude.{◌≡◌, ◌≢◌, ℕ, ◌+◌, ◌<◌, ◌≤◌, ◌^◌, [], Some, None, IfOk, OnErr, OnOk, false, true, List};
ghost use mathlib.Core.Option.{some};
ghost use lib.ListN.{get_elem?};
ghost use Rattle.ca_value.specs.Deadlines.{due};
ghost use Rattle.ca_term.specs.Program.{ProgramView};
ghost use Rattle.ca_journal.specs.Merge.{entries, room};
ghost use Rattle.ca_turns.specs.Views.{hands_stood_for};
ghost use Rattle.ca_commit.specs.Contents.{unmarked};
ghost use Rattle.ca_commit.specs.Moving.{visible};
ghost use Rattle.ca_commit.specs.TaskMoves.{with_mark};
ghost use Rattle.ca_commit.specs.Touched.{stops};
ghost use Rattle.ca_commit.specs.declared.held.Held.{Held};
ghost use Rattle.ca_table.specs.Bearing.{ShowSame};
ghost use Rattle.ca_table.specs.Carriers.{IsCarrying, just_lane};
ghost use Rattle.ca_table.specs.Draws.{turn_view, drawn_touches};
ghost use Rattle.ca_table.specs.Parts.{clockwork_seen, mark_view, part_seen};
ghost use Rattle.ca_table.specs.Worked.{Drew, gives_up, finds_run_end};
ghost use Rattle.ca_table.specs.Workers.{SameWorker};
ghost use Rattle.ca_table.specs.declared.part.Lane.{Lane};
ghost use Rattle.ca_table.specs.Grips.{SameHand};
ghost use Rattle.ca_table.specs.LoneHands.{DrewTurn, left_now};
ghost use Rattle.ca_table.specs.declared.part.Contents.TheVariants.{Timers};
ghost use Rattle.ca_alone.specs.Schedule.{AtPicked};
ghost use Rattle.ca_pool.specs.Asking.{HasFailed, IsAsked, TimesBy, IsFirstMoment};
ghost use Rattle.ca_pool.specs.Costs.{cost_asked, is_marked};
ghost use Rattle.ca_pool.specs.Desk.{ClockBox, IsBare, desk_taken, settled_as};
ghost use Rattle.ca_pool.specs.Lone.{HasAsked, MayGo};

use crate::draw::draw_aside;
use crate::hold::{take_clock, try_clock};
use crate::limits::check_turns;
use crate::release::put_off;
use crate::tick::pass;
use ca_agent::agent::Agent;
use ca_commit::clock::tick;
use ca_commit::held::Held;
use ca_states::valid_code::ValidCode;
use ca_table::drawn::Turned;
use ca_table::noting::make_room;
use ca_table::part::{Clockwork, Mark};
use ca_table::pool::Pool;
use ca_table::worker::Worker;
use ca_timers::clock::{Clock, Failed};
use ca_turns::Table;
use ca_value::memory::OutOfMemory;
use std::alloc::Global;
use std::sync::Wait;

/// What an asking of the clock came to.
#[derive(Clone, Copy)]
pub(crate) enum Asked {
    /// Nothing is due, or the timers aren't free.
    Nothing,
    /// The run's mark is set, and the worker leaves.
    Marked,
    /// A tick of that cost.
    Ticked(u64),
}

// Room for an asking of the clock.
fn reserve_asking<C: Clock + Drop>(
    mut clockwork: Box<Clockwork<C>>,
) -> (Box<Clockwork<C>>, Result<(), OutOfMemory>)
    ensures seen { clockwork_seen C.least C.faults C.readings result.0.value ≡ clockwork_seen C.least C.faults C.readings clockwork.value }
    ensures room { OnOk result.1 (0 < C.spare result.0.value.clock) }
    ensures timely { clockwork.value.timers.moment ≤ C.least clockwork.value.clock → result.0.value.timers.moment ≤ C.least result.0.value.clock }
{
    let made = clockwork.clock.reserve();
    (clockwork, made)
}

// Room for an asking of the clock, and for the event that follows it.
pub(crate) fn ready_to_ask<A: Agent, C: Clock + Drop>(
    worker: &mut Worker<A, C>,
    clockwork: Box<Clockwork<C>>,
) -> (Box<Clockwork<C>>, Result<(), OutOfMemory>)
    ensures same { SameWorker worker.old worker.new }
    ensures hand { worker.new.hand ≡ worker.old.hand }
    ensures entries { entries worker.new.entries ≡ entries worker.old.entries }
    ensures seen { clockwork_seen C.least C.faults C.readings result.0.value ≡ clockwork_seen C.least C.faults C.readings clockwork.value }
    ensures asking { OnOk result.1 (0 < C.spare result.0.value.clock) }
    ensures timely { clockwork.value.timers.moment ≤ C.least clockwork.value.clock → result.0.value.timers.moment ≤ C.least result.0.value.clock }
    ensures room { OnOk result.1 (0 < room worker.new.entries) }
{
    match make_room(worker) {
        Ok(()) => reserve_asking(clockwork),
        Err(refused) => (clockwork, Err(refused)),
    }
}

// The moment.
fn answer_now<C: Clock + Drop>(mut clockwork: Box<Clockwork<C>>) -> (Box<Clockwork<C>>, u64)
    requires room { 0 < C.spare clockwork.value.clock }
    requires timely { clockwork.value.timers.moment ≤ C.least clockwork.value.clock }
    ensures { IsAsked result.1 (clockwork_seen C.least C.faults C.readings clockwork.value) (clockwork_seen C.least C.faults C.readings result.0.value) }
{
    let now = clockwork.clock.now();
    (clockwork, now)
}

/// The clock waits until that moment, and answers.
pub(crate) fn answer_late<C: Clock + Drop>(
    mut clockwork: Box<Clockwork<C>>,
    first: u64,
) -> (Box<Clockwork<C>>, Result<u64, Failed>)
    requires room { 0 < C.spare clockwork.value.clock }
    requires timely { clockwork.value.timers.moment ≤ C.least clockwork.value.clock }
    requires bound { first < 2 ^ 62 }
    ensures asked { IfOk result.1 (λ now. IsAsked now (clockwork_seen C.least C.faults C.readings clockwork.value) (clockwork_seen C.least C.faults C.readings result.0.value)) }
    ensures failed { OnErr result.1 (HasFailed (clockwork_seen C.least C.faults C.readings clockwork.value) (clockwork_seen C.least C.faults C.readings result.0.value)) }
    ensures reached { IfOk result.1 (λ now. first ≤ now) }
{
    let answer = clockwork.clock.wait_until(first);
    (clockwork, answer)
}

/// The same with the mark, if none is set.
pub(crate) fn with_mark<C: Clock + Drop>(
    mut clockwork: Box<Clockwork<C>>,
    mark: Mark,
) -> Box<Clockwork<C>>
    ensures { clockwork_seen C.least C.faults C.readings result.value ≡ with_mark (mark_view mark) (clockwork_seen C.least C.faults C.readings clockwork.value) }
{
    match clockwork.mark {
        Mark::Unmarked => clockwork.mark = mark,
        Mark::MainOver | Mark::ClockFailed | Mark::Stopped => {}
    }
    clockwork
}

/// Whether it is one that was set.
pub(crate) fn is_marked(mark: Mark) -> bool
    ensures { result ≡ true → mark_view mark ≢ unmarked }
{
    match mark {
        Mark::Unmarked => false,
        Mark::MainOver | Mark::ClockFailed | Mark::Stopped => true,
    }
}

/// Draws a silent event over the timers and whatever is held unchanged, and gives all that back.
pub(crate) fn draw_clock<R: Wait, A: Agent, C: Clock + Drop>(
    rt: &R,
    table: &Table<Pool<A, C>>,
    code: &ValidCode,
    worker: &mut Worker<A, C>,
    held: &mut Held<A>,
    clockwork: Box<Clockwork<C>>,
    what: Turned,
)
    requires carries { (program : ProgramView) × (n : ℕ) × (l : Lane A) × (clock0 : ClockBox C) × (held0 : Held A) × IsCarrying A.over A.stands program code.now table.now.id n worker.old (desk_taken (part_seen C.least C.faults C.readings) n code.now worker.old.number l (Some clock0) held0) × ShowSame held0 held.old × TimesBy (turn_view what) (clockwork_seen C.least C.faults C.readings clock0.value) (clockwork_seen C.least C.faults C.readings clockwork.value) }
    requires hidden { visible (turn_view what) ≡ [] }
    requires ready { held.old.ready ≡ None }
    requires timers { held.old.timers ≡ None }
    ensures same { SameWorker worker.old worker.new }
    ensures bare { IsBare held.new }
    ensures drew { gives_up (turn_view what) ≡ false → Drew 0 (finds_run_end (turn_view what)) worker.old worker.new }
    ensures carries { (program : ProgramView) (n : ℕ) (l : Lane A) (clock0 : ClockBox C) (held0 : Held A) → IsCarrying A.over A.stands program code.now table.now.id n worker.old (desk_taken (part_seen C.least C.faults C.readings) n code.now worker.old.number l (Some clock0) held0) → ShowSame held0 held.old → TimesBy (turn_view what) (clockwork_seen C.least C.faults C.readings clock0.value) (clockwork_seen C.least C.faults C.readings clockwork.value) → IsCarrying A.over A.stands program code.now table.now.id n worker.new (just_lane n code.now l) }
    ensures timed { (program : ProgramView) (n : ℕ) (l : Lane A) (clock0 : ClockBox C) (held0 : Held A) → IsCarrying A.over A.stands program code.now table.now.id n worker.old (desk_taken (part_seen C.least C.faults C.readings) n code.now worker.old.number l (Some clock0) held0) → ShowSame held0 held.old → TimesBy (turn_view what) (clockwork_seen C.least C.faults C.readings clock0.value) (clockwork_seen C.least C.faults C.readings clockwork.value) → hands_stood_for worker.old.hand.view ≡ worker.old.hand.view.hands → get_elem? (left_now drawn_touches worker.new.hand.view) (n + 32) ≡ some (settled_as (part_seen C.least C.faults C.readings) n code.now (Timers clockwork)) }
    ensures hand { SameHand worker.old.hand worker.new.hand }
    ensures turn { DrewTurn (turn_view what) worker.old.hand.view worker.new.hand.view }
{
    check_turns(rt, worker);
    draw_aside(table, code, worker, held, Some(clockwork), what);
}

// Asks the clock, of which the first deadline is that. All is made for it.
fn read_now<R: Wait, A: Agent, C: Clock + Drop>(
    rt: &R,
    alloc: Global,
    table: &Table<Pool<A, C>>,
    code: &ValidCode,
    worker: &mut Worker<A, C>,
    held: &mut Held<A>,
    clockwork: Box<Clockwork<C>>,
    first: u64,
    ports: &mut Vec<u64>,
) -> Result<Asked, OutOfMemory>
    requires bare { IsBare held.old }
    requires carries { (program : ProgramView) × (n : ℕ) × (l : Lane A) × IsCarrying A.over A.stands program code.now table.now.id n worker.old (desk_taken (part_seen C.least C.faults C.readings) n code.now worker.old.number l (Some clockwork) held.old) }
    requires timely { clockwork.value.timers.moment ≤ C.least clockwork.value.clock }
    requires asking { 0 < C.spare clockwork.value.clock }
    requires room { 0 < room worker.old.entries }
    ensures same { SameWorker worker.old worker.new }
    ensures bare { IsBare held.new }
    ensures drew { IfOk result (λ a. Drew (cost_asked a) (is_marked a) worker.old worker.new) }
    ensures refused { OnErr result (Drew 0 false worker.old worker.new) }
    ensures carries { (program : ProgramView) (n : ℕ) (l : Lane A) → IsCarrying A.over A.stands program code.now table.now.id n worker.old (desk_taken (part_seen C.least C.faults C.readings) n code.now worker.old.number l (Some clockwork) held.old) → IsCarrying A.over A.stands program code.now table.now.id n worker.new (just_lane n code.now l) }
    ensures solo { IfOk result (λ a. (most : ℕ) → ports.old.items ≡ [] → IsFirstMoment first clockwork.value.timers.deadlines → MayGo A.over A.place A.stands A.advances A.gives A.starts code.now AtPicked most worker.old → HasAsked A.over A.place A.stands A.advances A.gives A.starts code.now ports.new.items most a worker.new) }
{
    let (clockwork, now) = answer_now(clockwork);
    if now < first {
        draw_clock(rt, table, code, worker, held, clockwork, Turned::Read);
        return Ok(Asked::Nothing);
    }
    pass(rt, alloc, table, code, worker, held, clockwork, now, ports)
}

// Asks the clock, of which the first deadline is that.
fn read<R: Wait, A: Agent, C: Clock + Drop>(
    rt: &R,
    alloc: Global,
    table: &Table<Pool<A, C>>,
    code: &ValidCode,
    worker: &mut Worker<A, C>,
    held: &mut Held<A>,
    clockwork: Box<Clockwork<C>>,
    first: u64,
    ports: &mut Vec<u64>,
) -> Result<Asked, OutOfMemory>
    requires bare { IsBare held.old }
    requires carries { (program : ProgramView) × (n : ℕ) × (l : Lane A) × IsCarrying A.over A.stands program code.now table.now.id n worker.old (desk_taken (part_seen C.least C.faults C.readings) n code.now worker.old.number l (Some clockwork) held.old) }
    requires timely { clockwork.value.timers.moment ≤ C.least clockwork.value.clock }
    ensures same { SameWorker worker.old worker.new }
    ensures bare { IsBare held.new }
    ensures drew { IfOk result (λ a. Drew (cost_asked a) (is_marked a) worker.old worker.new) }
    ensures refused { OnErr result (Drew 0 false worker.old worker.new) }
    ensures carries { (program : ProgramView) (n : ℕ) (l : Lane A) → IsCarrying A.over A.stands program code.now table.now.id n worker.old (desk_taken (part_seen C.least C.faults C.readings) n code.now worker.old.number l (Some clockwork) held.old) → IsCarrying A.over A.stands program code.now table.now.id n worker.new (just_lane n code.now l) }
    ensures solo { IfOk result (λ a. (most : ℕ) → ports.old.items ≡ [] → IsFirstMoment first clockwork.value.timers.deadlines → MayGo A.over A.place A.stands A.advances A.gives A.starts code.now AtPicked most worker.old → HasAsked A.over A.place A.stands A.advances A.gives A.starts code.now ports.new.items most a worker.new) }
{
    let (clockwork, made) = ready_to_ask(worker, clockwork);
    match made {
        Ok(()) => read_now(
            rt, alloc, table, code, worker, held, clockwork, first, ports,
        ),
        Err(refused) => {
            put_off(table, code, worker, held, Some(clockwork));
            Err(refused)
        }
    }
}

// What the timers come to, which were moved out.
fn look<R: Wait, A: Agent, C: Clock + Drop>(
    rt: &R,
    alloc: Global,
    table: &Table<Pool<A, C>>,
    code: &ValidCode,
    worker: &mut Worker<A, C>,
    held: &mut Held<A>,
    clockwork: Box<Clockwork<C>>,
    ports: &mut Vec<u64>,
) -> Result<Asked, OutOfMemory>
    requires bare { IsBare held.old }
    requires carries { (program : ProgramView) × (n : ℕ) × (l : Lane A) × IsCarrying A.over A.stands program code.now table.now.id n worker.old (desk_taken (part_seen C.least C.faults C.readings) n code.now worker.old.number l (Some clockwork) held.old) }
    requires timely { clockwork.value.timers.moment ≤ C.least clockwork.value.clock }
    ensures same { SameWorker worker.old worker.new }
    ensures bare { IsBare held.new }
    ensures drew { IfOk result (λ a. Drew (cost_asked a) (is_marked a) worker.old worker.new) }
    ensures refused { OnErr result (Drew 0 false worker.old worker.new) }
    ensures carries { (program : ProgramView) (n : ℕ) (l : Lane A) → IsCarrying A.over A.stands program code.now table.now.id n worker.old (desk_taken (part_seen C.least C.faults C.readings) n code.now worker.old.number l (Some clockwork) held.old) → IsCarrying A.over A.stands program code.now table.now.id n worker.new (just_lane n code.now l) }
    ensures solo { IfOk result (λ a. (most : ℕ) → ports.old.items ≡ [] → MayGo A.over A.place A.stands A.advances A.gives A.starts code.now AtPicked most worker.old → HasAsked A.over A.place A.stands A.advances A.gives A.starts code.now ports.new.items most a worker.new) }
{
    if is_marked(clockwork.mark) {
        draw_clock(rt, table, code, worker, held, clockwork, Turned::Halt);
        return Ok(Asked::Marked);
    }
    match clockwork.timers.first() {
        None => {
            put_off(table, code, worker, held, Some(clockwork));
            Ok(Asked::Nothing)
        }
        Some(first) => read(
            rt, alloc, table, code, worker, held, clockwork, first, ports,
        ),
    }
}

/// Asks the clock, where the timers are free and a deadline is open. `due` is, after a tick, the channels that closed, in
/// order of number.
pub(crate) fn ask<R: Wait, A: Agent, C: Clock + Drop>(
    rt: &R,
    alloc: Global,
    table: &Table<Pool<A, C>>,
    code: &ValidCode,
    worker: &mut Worker<A, C>,
    held: &mut Held<A>,
    due: &mut Vec<u64>,
) -> Result<Asked, OutOfMemory>
    requires bare { IsBare held.old }
    requires carries { (program : ProgramView) × (n : ℕ) × (l : Lane A) × IsCarrying A.over A.stands program code.now table.now.id n worker.old (just_lane n code.now l) }
    ensures same { SameWorker worker.old worker.new }
    ensures bare { IsBare held.new }
    ensures drew { IfOk result (λ a. Drew (cost_asked a) (is_marked a) worker.old worker.new) }
    ensures refused { OnErr result (Drew 0 false worker.old worker.new) }
    ensures carries { (program : ProgramView) (n : ℕ) (l : Lane A) → IsCarrying A.over A.stands program code.now table.now.id n worker.old (just_lane n code.now l) → IsCarrying A.over A.stands program code.now table.now.id n worker.new (just_lane n code.now l) }
    ensures solo { IfOk result (λ a. (most : ℕ) → due.old.items ≡ [] → MayGo A.over A.place A.stands A.advances A.gives A.starts code.now AtPicked most worker.old → HasAsked A.over A.place A.stands A.advances A.gives A.starts code.now due.new.items most a worker.new) }
{
    match try_clock(table, code, worker, held) {
        None => Ok(Asked::Nothing),
        Some(clockwork) => look(rt, alloc, table, code, worker, held, clockwork, due),
    }
}

/// Sets the mark of a run that wants memory, if none is set, and draws that.
pub(crate) fn stop<R: Wait, A: Agent, C: Clock + Drop>(
    rt: &R,
    table: &Table<Pool<A, C>>,
    code: &ValidCode,
    worker: &mut Worker<A, C>,
    held: &mut Held<A>,
)
    requires bare { IsBare held.old }
    requires carries { (program : ProgramView) × (n : ℕ) × (l : Lane A) × IsCarrying A.over A.stands program code.now table.now.id n worker.old (just_lane n code.now l) }
    ensures same { SameWorker worker.old worker.new }
    ensures bare { IsBare held.new }
    ensures carries { (program : ProgramView) (n : ℕ) (l : Lane A) → IsCarrying A.over A.stands program code.now table.now.id n worker.old (just_lane n code.now l) → IsCarrying A.over A.stands program code.now table.now.id n worker.new (just_lane n code.now l) }
    ensures hand { SameHand worker.old.hand worker.new.hand }
    ensures turn { DrewTurn stops worker.old.hand.view worker.new.hand.view }
{
    let clockwork = take_clock(rt, table, code, worker, held);
    let stopped = with_mark(clockwork, Mark::Stopped);
    draw_clock(rt, table, code, worker, held, stopped, Turned::Stop);
}
