// The event of a plan: all that it needs is taken and made, then it is applied and drawn.
ghost use Rattle.std.specs.Prelude.{◌≡◌, ℕ, ◌+◌, ◌<◌, ◌^◌, List, Option, None, OnErr, IfOk, false, true, [], ◌∷◌, cond, option_map};
ghost use Rattle.ca_term.specs.Event.{event_view, port_number, branch_view};
ghost use Rattle.ca_term.specs.Program.{ProgramView, program_view};
ghost use Rattle.ca_meaning.specs.BodyViews.{is_at_op};
ghost use Rattle.ca_meaning.specs.Solo.{patience};
ghost use Rattle.ca_meaning.specs.Wait.{port_of};
ghost use Rattle.ca_journal.specs.Merge.{room};
ghost use Rattle.ca_solo.specs.Stirs.{port_if, done_stirred};
ghost use Rattle.ca_states.specs.ValidCode.{valid_code};
ghost use Rattle.ca_states.specs.declared.valid_code.ValidCode.{ValidCode};
ghost use Rattle.ca_lower.specs.Gos.{SameGos};
ghost use Rattle.ca_lower.specs.Lowered.{Lowered};
ghost use Rattle.ca_timers.specs.Timers.{TimersView};
ghost use Rattle.ca_commit.specs.Applying.{HasSpawned, IsEvent, IsMade, IsPlanFor, IsTimely, KeepsApart, event_of, number_of, times_by};
ghost use Rattle.ca_commit.specs.Contents.{whole, channel_of};
ghost use Rattle.ca_commit.specs.NewPort.{KeepsCounts, times_in};
ghost use Rattle.ca_commit.specs.PlanMoves.{counts_by};
ghost use Rattle.ca_commit.specs.Plans.{HasCopies, plan_view};
ghost use Rattle.ca_commit.specs.Showing.{channels_held, registries_held, waits_held};
ghost use Rattle.ca_commit.specs.Tasks.{agent_of};
ghost use Rattle.ca_commit.specs.Waking.{IsPaused};
ghost use Rattle.ca_commit.specs.declared.task.Task.{Task};
ghost use Rattle.ca_commit.specs.Finding.{is_fixed_at, is_promise_at};
ghost use Rattle.ca_table.specs.Committing.{CanCount, IsDone};
ghost use Rattle.ca_table.specs.Parts.{counts_view, lane_seen, part_seen};
ghost use Rattle.ca_table.specs.Seen.{lane_of_seen};
ghost use Rattle.ca_table.specs.Worked.{Drew};
ghost use Rattle.ca_table.specs.Workers.{IsSeated, SameWorker};
ghost use Rattle.ca_table.specs.declared.part.Lane.{Lane};
ghost use Rattle.ca_alone.specs.Schedule.{MaySettle, to_turn};
ghost use Rattle.ca_pool.specs.AtEvent.{HasLane, HasNumbers, HasTaken};
ghost use Rattle.ca_pool.specs.Desk.{ClockBox, IsBare};
ghost use Rattle.ca_pool.specs.Leaving.{TaskOver};
ghost use Rattle.ca_pool.specs.Prepared.{HasGone, IsClockworkAsked, IsReadied, IsStarted};
ghost use Rattle.ca_pool.specs.Resolving.{TaskBringsApart, IsHeld, IsResolved, LeftOff};
ghost use Rattle.ca_pool.specs.Lone.{HasStepped, MayGo};
ghost use Rattle.ca_pool.specs.Stirred.{stirred_of};

use crate::cost::cost_of;
use crate::draw::draw_turn;
use crate::limits::{check_alts, check_counts, check_new, check_turns};
use crate::operation::Stepped;
use crate::preparation::{prepare, put_times, take_others};
use crate::release::put_off;
use ca_agent::agent::Agent;
use ca_agent::starting::Starting;
use ca_buffers::any::AnyBuffer;
use ca_commit::applying::apply;
use ca_commit::held::{Applied, Banks, Held};
use ca_commit::planned::Plan;
use ca_commit::task::Task;
use ca_states::valid_code::ValidCode;
use ca_table::drawn::Turned;
use ca_table::part::{Clockwork, Counts, Lane};
use ca_table::pool::Pool;
use ca_table::worker::Worker;
use ca_term::event::{Branch, Event};
use ca_timers::clock::Clock;
use ca_turns::Table;
use ca_value::memory::OutOfMemory;
use ca_value::value::PortId;
use std::alloc::Global;
use std::sync::Wait;

// The numbers that the worker has given after the event of the plan.
fn counted(counts: Counts, plan: &Plan) -> Counts
    requires { CanCount (counts_view counts) }
    ensures { counts_view result ≡ counts_by (plan_view plan.now) (counts_view counts) }
{
    let mut counts = counts;
    match plan {
        Plan::Make(_) => counts.ports += 1,
        Plan::Spawn(_, _) => counts.tasks += 1,
        Plan::Park(_) | Plan::Post(_) => counts.waits += 1,
        Plan::Done(_) | Plan::Meet(_, _, _) | Plan::Default(_) => {}
        Plan::Close(_) | Plan::Register(_, _, _) | Plan::Print(_) => {}
        Plan::Look(_) | Plan::Prune(_, _, _) | Plan::Refused(_) => {}
    }
    counts
}

// The lane after one event more, with the task that runs on, or with none.
fn gone_on<A: Agent>(
    mut lane: Box<Lane<A>>,
    counts: Counts,
    running: Option<Task<A>>,
) -> Box<Lane<A>>
    requires { lane.value.since + 1 < 2 ^ 64 }
    ensures task { result.value.task ≡ running }
    ensures since { result.value.since ≡ lane.value.since + 1 }
    ensures program { result.value.program ≡ lane.value.program }
    ensures counts { result.value.counts ≡ counts }
{
    lane.task = running;
    lane.since += 1;
    lane.counts = counts;
    lane
}

// An event, and the lane as it leaves it.
#[derive(Drop)]
struct Committed<A> {
    event: Event,
    lane: Box<Lane<A>>,
}

// The event of the plan, which is what `plan` answers from some start for the task's operation over what is held, and for
// which all is reserved. The lane has the task with its answer, or is empty where it waits. It takes no memory.
fn commit_plan<A: Agent>(
    alloc: Global,
    held: &mut Held<A>,
    lane: Box<Lane<A>>,
    plan: Plan,
    task: Task<A>,
    spawned: Option<Task<A>>,
) -> Committed<A>
    requires event { IsEvent (plan_view plan) }
    requires planned { IsPlanFor A.place held.old (plan_view plan) (agent_of task) }
    requires copies { HasCopies plan }
    requires count { task.alts + 1 < 2 ^ 64 }
    requires paused { (w : ℕ) → IsPaused A.place (whole (waits_held held.old.shards) w) }
    requires apart { KeepsApart (plan_view plan) }
    requires timely { IsTimely held.old (plan_view plan) }
    requires spawned { HasSpawned spawned (plan_view plan) }
    requires made { IsMade A.place held.old plan }
    requires counts { CanCount (counts_view lane.value.counts) }
    requires since { lane.value.since + 1 < 2 ^ 64 }
    ensures event { event_view result.event ≡ event_of (channels_held held.old.banks) (registries_held held.old.banks) task.number (number_of spawned) held.old.new_port held.old.new_wait held.old.moment (plan_view plan) }
    ensures done { (running : Option (Task A)) × IsDone A.place A.advances A.gives A.starts (plan_view plan) (lane_of_seen (lane_seen lane.value)) (lane_of_seen (lane_seen result.lane.value)) held.old held.new task spawned running × (result.lane.value.task ≡ running) }
    ensures times { times_in held.new.timers ≡ times_by held.old.new_port held.old.moment (plan_view plan) (times_in held.old.timers) }
    ensures numbers { KeepsCounts held.old held.new }
{
    let counts = counted(lane.counts, &plan);
    let Applied { event, running } = apply(alloc, held, plan, task, spawned);
    let lane = gone_on(lane, counts, running);
    Committed { event, lane }
}

// Whether the channel has a fixed buffer.
fn is_fixed(banks: &Banks, port: PortId) -> bool
    ensures { result ≡ is_fixed_at (whole (channels_held banks.now) port.n) }
{
    match banks.get(port.n % 16) {
        Some(held) => match held.bank().buffer(port) {
            Some(AnyBuffer::Fixed(_)) => true,
            _ => false,
        },
        None => false,
    }
}

// Whether it is a promise.
fn is_promise(banks: &Banks, port: PortId) -> bool
    ensures { result ≡ is_promise_at (whole (channels_held banks.now) port.n) }
{
    match banks.get(port.n % 16) {
        Some(held) => match held.bank().buffer(port) {
            Some(AnyBuffer::Promise(_)) => true,
            _ => false,
        },
        None => false,
    }
}

// The channel, where it is so.
fn only_if(port: PortId, stirs: bool) -> Option<PortId>
    ensures { port_if (option_map port_number result) ≡ cond stirs (port.n ∷ []) [] }
{
    if stirs { Some(port) } else { None }
}

// The channel, where a value was taken from its fixed buffer, or put into its promise.
fn stirred_at(banks: &Banks, operation: &Branch) -> Option<PortId>
    ensures { port_if (option_map port_number result) ≡ done_stirred (channel_of (whole (channels_held banks.now) (port_of (branch_view operation.now)))) (branch_view operation.now) }
{
    match operation {
        Branch::Take(port) => only_if(*port, is_fixed(banks, *port)),
        Branch::Put(port, _) => only_if(*port, is_promise(banks, *port)),
    }
}

// The channel that the event may bring to settle: a take from a fixed buffer, a put into a promise, and what is closed.
fn stirred_by<A: Agent>(held: &Held<A>, plan: &Plan) -> Option<PortId>
    ensures { port_if (option_map port_number result) ≡ stirred_of (whole (channels_held held.now.banks)) (plan_view plan.now) }
{
    match plan {
        Plan::Done(chosen) => stirred_at(&held.banks, &chosen.operation),
        Plan::Close(port) => Some(*port),
        _ => None,
    }
}

// Applies the plan and draws its event, for which all is there.
fn draw_plan<R: Wait, A: Agent, C: Clock + Drop>(
    rt: &R,
    alloc: Global,
    table: &Table<Pool<A, C>>,
    code: &ValidCode,
    worker: &mut Worker<A, C>,
    held: &mut Held<A>,
    clock: Option<Box<Clockwork<C>>>,
    lane: Box<Lane<A>>,
    task: Task<A>,
    plan: Plan,
    spawned: Option<Task<A>>,
) -> Stepped<A>
    requires carries { (program : ProgramView) × (n : ℕ) × (l : Lane A) × (clock0 : Option (ClockBox C)) × HasTaken A.over A.stands code.now table.now.id program n l (part_seen C.least C.faults C.readings) clock0 held.old worker.old × HasGone A.over A.advances program code.now l lane.value task × IsClockworkAsked C.least C.faults C.readings (plan_view plan) clock0 clock held.old × IsStarted A.place A.starts A.over program (valid_code code.now) held.old.new_task task spawned }
    requires ready { IsReadied A.place (counts_view lane.value.counts) worker.old.number worker.old.workers held.old task plan spawned }
    requires count { task.alts + 1 < 2 ^ 64 }
    requires counts { CanCount (counts_view lane.value.counts) }
    requires since { lane.value.since + 1 < 2 ^ 64 }
    requires over { A.over (valid_code code.now) task.agent }
    requires room { 0 < room worker.old.entries }
    ensures same { SameWorker worker.old worker.new }
    ensures bare { IsBare held.new }
    ensures drew { Drew result.cost result.over worker.old worker.new }
    ensures over { TaskOver A.over code.now result.lane.value }
    ensures stepped { (program : ProgramView) (n : ℕ) (l : Lane A) (clock0 : Option (ClockBox C)) → HasTaken A.over A.stands code.now table.now.id program n l (part_seen C.least C.faults C.readings) clock0 held.old worker.old → HasGone A.over A.advances program code.now l lane.value task → IsClockworkAsked C.least C.faults C.readings (plan_view plan) clock0 clock held.old → IsStarted A.place A.starts A.over program (valid_code code.now) held.old.new_task task spawned → IsSeated A.over A.stands program code.now table.now.id n worker.new result.lane.value }
    ensures solo { lane.value.since < patience → (most : ℕ) → MayGo A.over A.place A.stands A.advances A.gives A.starts code.now (MaySettle to_turn []) most worker.old → HasStepped A.over A.place A.stands A.advances A.gives A.starts code.now (port_if (option_map port_number result.stirred)) result.over most worker.new }
{
    check_turns(rt, worker);
    let stirred = stirred_by(held, &plan);
    let Committed { event, lane } = commit_plan(alloc, held, lane, plan, task, spawned);
    let cost = cost_of(rt, &event);
    let clock = put_times(held, clock);
    let lane = draw_turn(table, code, worker, held, clock, lane, Turned::Shown(event));
    Stepped {
        lane,
        cost,
        stirred,
        over: false,
    }
}

/// The event of the plan at which the operation of the lane's task was resolved. Where there is no memory nothing is held
/// but the lane, as it was.
pub(crate) fn commit<R: Wait, A: Starting, C: Clock + Drop>(
    rt: &R,
    alloc: Global,
    table: &Table<Pool<A, C>>,
    code: &ValidCode,
    worker: &mut Worker<A, C>,
    held: &mut Held<A>,
    lane: Box<Lane<A>>,
    task: Task<A>,
    plan: Plan,
) -> Result<Stepped<A>, OutOfMemory>
    requires carries { (program : ProgramView) × (n : ℕ) × (l : Lane A) × HasTaken A.over A.stands code.now table.now.id program n l (part_seen C.least C.faults C.readings) None held.old worker.old × HasGone A.over A.advances program code.now l lane.value task }
    requires held { IsHeld A.place held.old }
    requires resolved { IsResolved A.place held.old task plan }
    requires event { IsEvent (plan_view plan) }
    requires numbers { HasNumbers worker.old.number worker.old.workers (counts_view lane.value.counts) held.old }
    requires at { is_at_op (A.place task.agent) ≡ true }
    requires apart { TaskBringsApart A.place task }
    requires over { A.over (valid_code code.now) task.agent }
    requires lowered { Lowered (program_view worker.old.program.value) (valid_code code.now) }
    requires gos { SameGos (program_view worker.old.program.value) (valid_code code.now) }
    ensures same { SameWorker worker.old worker.new }
    ensures bare { IsBare held.new }
    ensures drew { IfOk result (λ s. Drew s.cost s.over worker.old worker.new) }
    ensures over { IfOk result (λ s. TaskOver A.over code.now s.lane.value) }
    ensures stepped { IfOk result (λ s. (program : ProgramView) (n : ℕ) (l : Lane A) → HasTaken A.over A.stands code.now table.now.id program n l (part_seen C.least C.faults C.readings) None held.old worker.old → HasGone A.over A.advances program code.now l lane.value task → IsSeated A.over A.stands program code.now table.now.id n worker.new s.lane.value) }
    ensures refused { OnErr result (Drew 0 false worker.old worker.new) }
    ensures kept { OnErr result ((program : ProgramView) (n : ℕ) (l : Lane A) → HasTaken A.over A.stands code.now table.now.id program n l (part_seen C.least C.faults C.readings) None held.old worker.old → HasLane A.over A.stands code.now table.now.id program n l worker.new) }
    ensures solo { IfOk result (λ s. lane.value.since < patience → (most : ℕ) → MayGo A.over A.place A.stands A.advances A.gives A.starts code.now (MaySettle to_turn []) most worker.old → HasStepped A.over A.place A.stands A.advances A.gives A.starts code.now (port_if (option_map port_number s.stirred)) s.over most worker.new) }
{
    let clock = take_others(rt, table, code, worker, held, &plan);
    check_new(rt, held);
    check_alts(rt, &task);
    check_counts(rt, lane.counts, lane.since);
    let (clock, prepared) = prepare(alloc, code, worker, held, &task, &plan, clock);
    match prepared {
        Err(OutOfMemory) => {
            put_off(table, code, worker, held, clock);
            Err(OutOfMemory)
        }
        Ok(spawned) => Ok(draw_plan(
            rt, alloc, table, code, worker, held, clock, lane, task, plan, spawned,
        )),
    }
}
