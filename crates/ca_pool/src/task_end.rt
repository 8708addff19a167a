// How the lane's task ends: by its value, by a fault of its own, or at an operation that is refused.
ghost use Rattle.std.specs.Prelude.{◌≡◌, ℕ, ◌+◌, ◌<◌, ◌^◌, Option, Some, None, IfOk, OnErr, eqb, false, is_some, option_map, true, []};
ghost use Rattle.ca_value.specs.Tree.{Tree};
ghost use Rattle.ca_term.specs.Event.{port_number};
ghost use Rattle.ca_term.specs.Program.{ProgramView, program_view};
ghost use Rattle.ca_meaning.specs.Body.{ended, faulted};
ghost use Rattle.ca_meaning.specs.Solo.{patience};
ghost use Rattle.ca_journal.specs.Merge.{room};
ghost use Rattle.ca_solo.specs.Stirs.{port_if};
ghost use Rattle.ca_commit.specs.Contents.{home, main_over};
ghost use Rattle.ca_commit.specs.TaskMoves.{with_mark};
ghost use Rattle.ca_commit.specs.declared.held.Held.{Held};
ghost use Rattle.ca_commit.specs.declared.planned.Plan.TheVariants.{Refused};
ghost use Rattle.ca_table.specs.Carriers.{IsCarrying, just_lane};
ghost use Rattle.ca_table.specs.DrawnEvents.{HasBanks};
ghost use Rattle.ca_table.specs.Grips.{SameTurns};
ghost use Rattle.ca_table.specs.Homes.{has_home};
ghost use Rattle.ca_table.specs.Parts.{clockwork_seen, part_seen};
ghost use Rattle.ca_table.specs.Worked.{Drew};
ghost use Rattle.ca_table.specs.Workers.{IsSeated, SameWorker};
ghost use Rattle.ca_table.specs.declared.part.Lane.{Lane};
ghost use Rattle.ca_alone.specs.Schedule.{MaySettle, to_turn};
ghost use Rattle.ca_pool.specs.AtEvent.{HasLane, HasTaken};
ghost use Rattle.ca_pool.specs.Desk.{IsBare};
ghost use Rattle.ca_pool.specs.Endings.{IsEnding, MayEndFaulted};
ghost use Rattle.ca_pool.specs.Leaving.{HasLeft, TaskOver};
ghost use Rattle.ca_pool.specs.Prepared.{HasGone};
ghost use Rattle.ca_pool.specs.Resolving.{IsHeld, IsResolved};
ghost use Rattle.ca_pool.specs.Lone.{HasStepped, MayGo};
ghost use Rattle.ca_pool.specs.Stirred.{stirred_at_end};

use crate::cost::cost_of;
use crate::draw::draw_turn;
use crate::hold::{take_banks, take_clock};
use crate::limits::{check_counts, check_turns};
use crate::operation::Stepped;
use crate::release::put_off;
use ca_agent::agent::Agent;
use ca_commit::going::apply_fault;
use ca_commit::held::Held;
use ca_commit::task::Task;
use ca_states::valid_code::ValidCode;
use ca_table::drawn::Turned;
use ca_table::homes::Homes;
use ca_table::noting::make_room;
use ca_table::part::{Clockwork, Lane, Mark};
use ca_table::pool::Pool;
use ca_table::worker::Worker;
use ca_term::event::{Ending, Event};
use ca_term::fault::Fault;
use ca_term::place::Place;
use ca_timers::clock::Clock;
use ca_turns::Table;
use ca_value::memory::OutOfMemory;
use ca_value::value::PortId;
use std::sync::Wait;

// The clockwork, for the end of the main text.
fn take_last<R: Wait, A: Agent, C: Clock + Drop>(
    rt: &R,
    table: &Table<Pool<A, C>>,
    code: &ValidCode,
    worker: &mut Worker<A, C>,
    held: &Held<A>,
    number: u64,
) -> Option<Box<Clockwork<C>>>
    requires carries { (program : ProgramView) × (n : ℕ) × (l : Lane A) × HasTaken A.over A.stands code.now table.now.id program n l (part_seen C.least C.faults C.readings) None held.now worker.old }
    requires ready { held.now.ready ≡ None }
    ensures same { SameWorker worker.old worker.new }
    ensures turns { SameTurns worker.old.hand worker.new.hand }
    ensures entries { worker.new.entries ≡ worker.old.entries }
    ensures there { is_some result ≡ eqb number 0 }
    ensures carries { (program : ProgramView) (n : ℕ) (l : Lane A) → HasTaken A.over A.stands code.now table.now.id program n l (part_seen C.least C.faults C.readings) None held.now worker.old → HasTaken A.over A.stands code.now table.now.id program n l (part_seen C.least C.faults C.readings) result held.now worker.new }
{
    if number == 0 {
        Some(take_clock(rt, table, code, worker, held))
    } else {
        None
    }
}

// The run's mark is set, where it isn't.
fn mark<C: Clock + Drop>(mut clock: Box<Clockwork<C>>) -> Box<Clockwork<C>>
    ensures { clockwork_seen C.least C.faults C.readings result.value ≡ with_mark main_over (clockwork_seen C.least C.faults C.readings clock.value) }
{
    if let Mark::Unmarked = clock.mark {
        clock.mark = Mark::MainOver;
    }
    clock
}

// The same, if the clockwork is there.
fn marked<C: Clock + Drop>(clock: Option<Box<Clockwork<C>>>) -> Option<Box<Clockwork<C>>>
    ensures { option_map (λ c. clockwork_seen C.least C.faults C.readings c.value) result ≡ option_map (λ c. with_mark main_over (clockwork_seen C.least C.faults C.readings c.value)) clock }
{
    match clock {
        Some(clock) => Some(mark(clock)),
        None => None,
    }
}

// The lane after the task's last event, with none.
fn left<A: Agent>(mut lane: Box<Lane<A>>) -> Box<Lane<A>>
    requires { lane.value.since + 1 < 2 ^ 64 }
    ensures task { result.value.task ≡ None }
    ensures since { result.value.since ≡ lane.value.since + 1 }
    ensures program { result.value.program ≡ lane.value.program }
    ensures counts { result.value.counts ≡ lane.value.counts }
{
    lane.task = None;
    lane.since += 1;
    lane
}

// Draws the end of the task. That of the main text sets the mark.
fn finish<R: Wait, A: Agent, C: Clock + Drop>(
    rt: &R,
    table: &Table<Pool<A, C>>,
    code: &ValidCode,
    worker: &mut Worker<A, C>,
    held: &mut Held<A>,
    clock: Option<Box<Clockwork<C>>>,
    lane: Box<Lane<A>>,
    task: &Task<A>,
    ending: Ending,
    stirred: Option<PortId>,
) -> Stepped<A>
    requires ending { (program : ProgramView) × (n : ℕ) × (l : Lane A) × (held0 : Held A) × IsEnding A.over A.stands A.place A.advances A.gives A.starts (part_seen C.least C.faults C.readings) code.now table.now.id program n l clock held0 held.old worker.old lane.value task.now ending }
    requires clock { is_some clock ≡ eqb task.now.number 0 }
    requires ready { held.old.ready ≡ None }
    requires timers { held.old.timers ≡ None }
    requires room { 0 < room worker.old.entries }
    requires stirs { port_if (option_map port_number stirred) ≡ stirred_at_end ending }
    ensures same { SameWorker worker.old worker.new }
    ensures bare { IsBare held.new }
    ensures over { TaskOver A.over code.now result.lane.value }
    ensures drew { Drew result.cost result.over worker.old worker.new }
    ensures stepped { (program : ProgramView) (n : ℕ) (l : Lane A) (held0 : Held A) → IsEnding A.over A.stands A.place A.advances A.gives A.starts (part_seen C.least C.faults C.readings) code.now table.now.id program n l clock held0 held.old worker.old lane.value task.now ending → IsSeated A.over A.stands program code.now table.now.id n worker.new result.lane.value }
    ensures solo { lane.value.since < patience → (most : ℕ) → MayGo A.over A.place A.stands A.advances A.gives A.starts code.now (MaySettle to_turn []) most worker.old → HasStepped A.over A.place A.stands A.advances A.gives A.starts code.now (port_if (option_map port_number result.stirred)) result.over most worker.new }
{
    check_turns(rt, worker);
    check_counts(rt, lane.counts, lane.since);
    let number = task.number;
    let event = Event::End {
        task: number,
        ending,
    };
    let cost = cost_of(rt, &event);
    let clock = marked(clock);
    let lane = draw_turn(
        table,
        code,
        worker,
        held,
        clock,
        left(lane),
        Turned::Shown(event),
    );
    Stepped {
        lane,
        cost,
        stirred,
        over: number == 0,
    }
}

// The task faults, at an operation or by itself: the channel of its result closes.
fn finish_by_fault<R: Wait, A: Agent, C: Clock + Drop>(
    rt: &R,
    table: &Table<Pool<A, C>>,
    code: &ValidCode,
    worker: &mut Worker<A, C>,
    held: &mut Held<A>,
    lane: Box<Lane<A>>,
    task: &Task<A>,
    fault: Fault,
    place: Place,
) -> Stepped<A>
    requires carries { (program : ProgramView) × (n : ℕ) × (l : Lane A) × HasTaken A.over A.stands code.now table.now.id program n l (part_seen C.least C.faults C.readings) None held.old worker.old × HasGone A.over A.advances program code.now l lane.value task.now }
    requires may { MayEndFaulted A.over A.place A.advances A.gives A.starts (part_seen C.least C.faults C.readings) code.now fault place task.now held.old }
    requires result { HasBanks held.old (λ q. option_map port_number task.now.result ≡ Some q) }
    requires ready { held.old.ready ≡ None }
    requires timers { held.old.timers ≡ None }
    requires room { 0 < room worker.old.entries }
    ensures same { SameWorker worker.old worker.new }
    ensures bare { IsBare held.new }
    ensures over { TaskOver A.over code.now result.lane.value }
    ensures drew { Drew result.cost result.over worker.old worker.new }
    ensures stepped { (program : ProgramView) (n : ℕ) (l : Lane A) → HasTaken A.over A.stands code.now table.now.id program n l (part_seen C.least C.faults C.readings) None held.old worker.old → HasGone A.over A.advances program code.now l lane.value task.now → IsSeated A.over A.stands program code.now table.now.id n worker.new result.lane.value }
    ensures solo { lane.value.since < patience → (most : ℕ) → MayGo A.over A.place A.stands A.advances A.gives A.starts code.now (MaySettle to_turn []) most worker.old → HasStepped A.over A.place A.stands A.advances A.gives A.starts code.now (port_if (option_map port_number result.stirred)) result.over most worker.new }
{
    let clock = take_last(rt, table, code, worker, held, task.number);
    let result = task.result;
    apply_fault(held, result);
    let ending = Ending::Faulted {
        fault,
        place,
        result,
    };
    finish(
        rt, table, code, worker, held, clock, lane, task, ending, result,
    )
}

/// The lane's task, which has advanced to its end, ends by its value. Where there is no memory the lane is as it was
/// settled.
pub(crate) fn end<R: Wait, A: Agent, C: Clock + Drop>(
    rt: &R,
    table: &Table<Pool<A, C>>,
    code: &ValidCode,
    worker: &mut Worker<A, C>,
    held: &mut Held<A>,
    lane: Box<Lane<A>>,
    task: Task<A>,
) -> Result<Stepped<A>, OutOfMemory>
    requires left { (program : ProgramView) × (n : ℕ) × (l : Lane A) × IsCarrying A.over A.stands program code.now table.now.id n worker.old (just_lane n code.now l) × HasLeft A.over A.advances program code.now l lane.value task × (program_view l.program.value ≡ program) }
    requires ended { (v : Tree) × (A.place task.agent ≡ ended v) }
    requires bare { IsBare held.old }
    ensures same { SameWorker worker.old worker.new }
    ensures bare { IsBare held.new }
    ensures stepped { IfOk result (λ s. (program : ProgramView) (n : ℕ) (l : Lane A) → IsCarrying A.over A.stands program code.now table.now.id n worker.old (just_lane n code.now l) → HasLeft A.over A.advances program code.now l lane.value task → program_view l.program.value ≡ program → IsSeated A.over A.stands program code.now table.now.id n worker.new s.lane.value) }
    ensures over { IfOk result (λ s. TaskOver A.over code.now s.lane.value) }
    ensures drew { IfOk result (λ s. Drew s.cost s.over worker.old worker.new) }
    ensures kept { OnErr result ((program : ProgramView) (n : ℕ) (l : Lane A) → IsCarrying A.over A.stands program code.now table.now.id n worker.old (just_lane n code.now l) → IsCarrying A.over A.stands program code.now table.now.id n worker.new (just_lane n code.now l)) }
    ensures refused { OnErr result (Drew 0 false worker.old worker.new) }
    ensures solo { IfOk result (λ s. lane.value.since < patience → (most : ℕ) → MayGo A.over A.place A.stands A.advances A.gives A.starts code.now (MaySettle to_turn []) most worker.old → HasStepped A.over A.place A.stands A.advances A.gives A.starts code.now (port_if (option_map port_number s.stirred)) s.over most worker.new) }
{
    make_room(worker)?;
    let clock = take_last(rt, table, code, worker, held, task.number);
    Ok(finish(
        rt,
        table,
        code,
        worker,
        held,
        clock,
        lane,
        &task,
        Ending::Ended,
        None,
    ))
}

// The home of that port, if there is one.
fn home_of(port: Option<PortId>) -> Homes
    ensures { (q : ℕ) → option_map port_number port ≡ Some q → has_home result (home q) ≡ true }
{
    let mut homes = Homes::none();
    if let Some(port) = port {
        homes.add(port.n);
    }
    homes
}

/// The lane's task, which has advanced to a fault of its own, ends by that. Where there is no memory the lane is as it was
/// settled.
pub(crate) fn fault<R: Wait, A: Agent, C: Clock + Drop>(
    rt: &R,
    table: &Table<Pool<A, C>>,
    code: &ValidCode,
    worker: &mut Worker<A, C>,
    held: &mut Held<A>,
    lane: Box<Lane<A>>,
    task: Task<A>,
    fault: Fault,
    place: Place,
) -> Result<Stepped<A>, OutOfMemory>
    requires left { (program : ProgramView) × (n : ℕ) × (l : Lane A) × IsCarrying A.over A.stands program code.now table.now.id n worker.old (just_lane n code.now l) × HasLeft A.over A.advances program code.now l lane.value task × (program_view l.program.value ≡ program) }
    requires faulted { A.place task.agent ≡ faulted fault place }
    requires bare { IsBare held.old }
    ensures same { SameWorker worker.old worker.new }
    ensures bare { IsBare held.new }
    ensures stepped { IfOk result (λ s. (program : ProgramView) (n : ℕ) (l : Lane A) → IsCarrying A.over A.stands program code.now table.now.id n worker.old (just_lane n code.now l) → HasLeft A.over A.advances program code.now l lane.value task → program_view l.program.value ≡ program → IsSeated A.over A.stands program code.now table.now.id n worker.new s.lane.value) }
    ensures over { IfOk result (λ s. TaskOver A.over code.now s.lane.value) }
    ensures drew { IfOk result (λ s. Drew s.cost s.over worker.old worker.new) }
    ensures kept { OnErr result ((program : ProgramView) (n : ℕ) (l : Lane A) → IsCarrying A.over A.stands program code.now table.now.id n worker.old (just_lane n code.now l) → IsCarrying A.over A.stands program code.now table.now.id n worker.new (just_lane n code.now l)) }
    ensures refused { OnErr result (Drew 0 false worker.old worker.new) }
    ensures solo { IfOk result (λ s. lane.value.since < patience → (most : ℕ) → MayGo A.over A.place A.stands A.advances A.gives A.starts code.now (MaySettle to_turn []) most worker.old → HasStepped A.over A.place A.stands A.advances A.gives A.starts code.now (port_if (option_map port_number s.stirred)) s.over most worker.new) }
{
    make_room(worker)?;
    let homes = home_of(task.result);
    take_banks(rt, table, code, worker, &homes, held)?;
    Ok(finish_by_fault(rt, table, code, worker, held, lane, &task, fault, place))
}

/// The lane's task is paused at an operation that is refused, and ends by that fault. The banks of the ports that the
/// operation names are held, and that of the task's result.
pub(crate) fn refuse<R: Wait, A: Agent, C: Clock + Drop>(
    rt: &R,
    table: &Table<Pool<A, C>>,
    code: &ValidCode,
    worker: &mut Worker<A, C>,
    held: &mut Held<A>,
    lane: Box<Lane<A>>,
    task: Task<A>,
    fault: Fault,
) -> Result<Stepped<A>, OutOfMemory>
    requires carries { (program : ProgramView) × (n : ℕ) × (l : Lane A) × HasTaken A.over A.stands code.now table.now.id program n l (part_seen C.least C.faults C.readings) None held.old worker.old × HasGone A.over A.advances program code.now l lane.value task }
    requires held { IsHeld A.place held.old }
    requires resolved { IsResolved A.place held.old task (Refused fault) }
    ensures same { SameWorker worker.old worker.new }
    ensures bare { IsBare held.new }
    ensures drew { IfOk result (λ s. Drew s.cost s.over worker.old worker.new) }
    ensures over { IfOk result (λ s. TaskOver A.over code.now s.lane.value) }
    ensures stepped { IfOk result (λ s. (program : ProgramView) (n : ℕ) (l : Lane A) → HasTaken A.over A.stands code.now table.now.id program n l (part_seen C.least C.faults C.readings) None held.old worker.old → HasGone A.over A.advances program code.now l lane.value task → IsSeated A.over A.stands program code.now table.now.id n worker.new s.lane.value) }
    ensures refused { OnErr result (Drew 0 false worker.old worker.new) }
    ensures kept { OnErr result ((program : ProgramView) (n : ℕ) (l : Lane A) → HasTaken A.over A.stands code.now table.now.id program n l (part_seen C.least C.faults C.readings) None held.old worker.old → HasLane A.over A.stands code.now table.now.id program n l worker.new) }
    ensures solo { IfOk result (λ s. lane.value.since < patience → (most : ℕ) → MayGo A.over A.place A.stands A.advances A.gives A.starts code.now (MaySettle to_turn []) most worker.old → HasStepped A.over A.place A.stands A.advances A.gives A.starts code.now (port_if (option_map port_number s.stirred)) s.over most worker.new) }
{
    match make_room(worker) {
        Err(OutOfMemory) => {
            put_off(table, code, worker, held, None);
            Err(OutOfMemory)
        }
        Ok(()) => {
            let place = task.agent.want().place;
            Ok(finish_by_fault(rt, table, code, worker, held, lane, &task, fault, place))
        }
    }
}
