// What the operation of the lane's task becomes: the banks that it needs are held, then the shards of the waits that its
// plan hangs on, one after another, until the plan is an event or a refusal.
ghost use Rattle.std.specs.Prelude.{◌≡◌, ℕ, ◌≤◌, ◌<◌, Some, IfNone, IfOk, IfSome, IsTrue, None, OnErr, OnOk, cond, eqb, false, option_map, true};
ghost use Rattle.ca_term.specs.Event.{port_number};
ghost use Rattle.ca_term.specs.Program.{ProgramView};
ghost use Rattle.ca_meaning.specs.BodyViews.{is_at_op};
ghost use Rattle.ca_commit.specs.Contents.{home};
ghost use Rattle.ca_commit.specs.Deciding.{IsStale};
ghost use Rattle.ca_commit.specs.Planning.{to_refuse};
ghost use Rattle.ca_commit.specs.Plans.{HasCopies, plan_view};
ghost use Rattle.ca_commit.specs.Tasks.{agent_of};
ghost use Rattle.ca_table.specs.Bearing.{parts_held};
ghost use Rattle.ca_table.specs.Homes.{has_home};
ghost use Rattle.ca_table.specs.Parts.{part_seen};
ghost use Rattle.ca_table.specs.Worked.{Drew};
ghost use Rattle.ca_table.specs.Workers.{SameWorker};
ghost use Rattle.ca_table.specs.declared.part.Lane.{Lane};
ghost use Rattle.ca_pool.specs.AtEvent.{HasLane, HasTaken};
ghost use Rattle.ca_pool.specs.Desk.{IsBare, SameNumbers, holds_shards};
ghost use Rattle.ca_pool.specs.OwnPlans.{IsOwnPlanFor};
ghost use Rattle.ca_pool.specs.Resolving.{TaskBringsApart, HoldsThese, IsHeld, IsResolved, IsSeen, LeftOff, Took, Wants};
ghost use Rattle.ca_pool.specs.Lone.{Stayed};

use crate::ahead::wait_ahead;
use crate::hold::{take_banks, take_shard, take_shards};
use crate::named::banks_of;
use crate::prune::prune;
use crate::release::put_off;
use ca_agent::agent::Agent;
use ca_commit::held::Held;
use ca_commit::planned::Plan;
use ca_commit::planning::plan;
use ca_commit::task::Task;
use ca_states::valid_code::ValidCode;
use ca_table::homes::Homes;
use ca_table::pool::Pool;
use ca_table::worker::Worker;
use ca_term::event::Side;
use ca_term::fault::Fault;
use ca_timers::clock::Clock;
use ca_turns::Table;
use ca_value::memory::OutOfMemory;
use ca_value::value::PortId;
use std::alloc::Global;
use std::sync::Wait;

/// The banks and shards that are held for an operation.
#[derive(Clone, Copy)]
pub(crate) struct Wanted {
    pub(crate) banks: Homes,
    pub(crate) shards: Homes,
}

// All of them, as they are free. Where there is no memory nothing is held.
fn take_all<R: Wait, A: Agent, C: Clock + Drop>(
    rt: &R,
    table: &Table<Pool<A, C>>,
    code: &ValidCode,
    worker: &mut Worker<A, C>,
    held: &mut Held<A>,
    wanted: &Wanted,
) -> Result<(), OutOfMemory>
    requires carries { (program : ProgramView) × (n : ℕ) × (l : Lane A) × HasLane A.over A.stands code.now table.now.id program n l worker.old }
    requires bare { IsBare held.old }
    ensures drew { Drew 0 false worker.old worker.new }
    ensures numbers { SameNumbers held.old held.new }
    ensures took { OnOk result (Took A.over A.stands A.place (part_seen C.least C.faults C.readings) code.now table.now.id (λ program n l. HasLane A.over A.stands code.now table.now.id program n l worker.old) wanted.now.banks wanted.now.shards held.new worker.new) }
    ensures refused { OnErr result (LeftOff A.over A.stands code.now table.now.id (λ program n l. HasLane A.over A.stands code.now table.now.id program n l worker.old) held.new worker.new) }
    ensures stayed { Stayed worker.old worker.new }
{
    take_banks(rt, table, code, worker, &wanted.banks, held)?;
    match take_shards(rt, table, code, worker, &wanted.shards, held) {
        Ok(()) => Ok(()),
        Err(OutOfMemory) => {
            put_off(table, code, worker, held, None);
            Err(OutOfMemory)
        }
    }
}

// All is given back, and these are taken.
fn take_again<R: Wait, A: Agent, C: Clock + Drop>(
    rt: &R,
    table: &Table<Pool<A, C>>,
    code: &ValidCode,
    worker: &mut Worker<A, C>,
    held: &mut Held<A>,
    wanted: &Wanted,
) -> Result<(), OutOfMemory>
    requires carries { (program : ProgramView) × (n : ℕ) × (l : Lane A) × HasTaken A.over A.stands code.now table.now.id program n l (part_seen C.least C.faults C.readings) None held.old worker.old }
    requires timers { held.old.timers ≡ None }
    ensures drew { Drew 0 false worker.old worker.new }
    ensures numbers { SameNumbers held.old held.new }
    ensures took { OnOk result (Took A.over A.stands A.place (part_seen C.least C.faults C.readings) code.now table.now.id (λ program n l. HasTaken A.over A.stands code.now table.now.id program n l (part_seen C.least C.faults C.readings) None held.old worker.old) wanted.now.banks wanted.now.shards held.new worker.new) }
    ensures refused { OnErr result (LeftOff A.over A.stands code.now table.now.id (λ program n l. HasTaken A.over A.stands code.now table.now.id program n l (part_seen C.least C.faults C.readings) None held.old worker.old) held.new worker.new) }
    ensures stayed { Stayed worker.old worker.new }
{
    put_off(table, code, worker, held, None);
    take_all(rt, table, code, worker, held, wanted)
}

// Whether no shard from that number on is among these.
fn is_above(shards: &Homes, number: u64) -> bool
    ensures { IsTrue result → (i : ℕ) → number ≤ i → i < 16 → has_home shards.now i ≡ false }
{
    shards.end() <= number
}

// One shard more, above all that are held.
#[inline(always)]
fn take_above<R: Wait, A: Agent, C: Clock + Drop>(
    rt: &R,
    table: &Table<Pool<A, C>>,
    code: &ValidCode,
    worker: &mut Worker<A, C>,
    held: &mut Held<A>,
    wanted: &mut Wanted,
    number: u64,
) -> Result<(), OutOfMemory>
    requires carries { (program : ProgramView) × (n : ℕ) × (l : Lane A) × HasTaken A.over A.stands code.now table.now.id program n l (part_seen C.least C.faults C.readings) None held.old worker.old }
    requires held { IsHeld A.place held.old }
    requires these { HoldsThese wanted.old.banks wanted.old.shards held.old }
    requires number { number < 16 }
    requires above { (i : ℕ) → number ≤ i → i < 16 → has_home wanted.old.shards i ≡ false }
    ensures drew { Drew 0 false worker.old worker.new }
    ensures numbers { SameNumbers held.old held.new }
    ensures banks { wanted.new.banks ≡ wanted.old.banks }
    ensures took { OnOk result (Took A.over A.stands A.place (part_seen C.least C.faults C.readings) code.now table.now.id (λ program n l. HasTaken A.over A.stands code.now table.now.id program n l (part_seen C.least C.faults C.readings) None held.old worker.old) wanted.new.banks wanted.new.shards held.new worker.new) }
    ensures refused { OnErr result (LeftOff A.over A.stands code.now table.now.id (λ program n l. HasTaken A.over A.stands code.now table.now.id program n l (part_seen C.least C.faults C.readings) None held.old worker.old) held.new worker.new) }
    ensures stayed { Stayed worker.old worker.new }
{
    wanted.shards.add(number);
    match take_shard(rt, table, code, worker, number, held) {
        Ok(()) => Ok(()),
        Err(OutOfMemory) => {
            put_off(table, code, worker, held, None);
            Err(OutOfMemory)
        }
    }
}

// The shard of that wait is held, too. Where it stands below one that is held, all is given back first.
#[inline(always)]
fn take_more<R: Wait, A: Agent, C: Clock + Drop>(
    rt: &R,
    table: &Table<Pool<A, C>>,
    code: &ValidCode,
    worker: &mut Worker<A, C>,
    held: &mut Held<A>,
    wanted: &mut Wanted,
    wait: u64,
) -> Result<(), OutOfMemory>
    requires carries { (program : ProgramView) × (n : ℕ) × (l : Lane A) × HasTaken A.over A.stands code.now table.now.id program n l (part_seen C.least C.faults C.readings) None held.old worker.old }
    requires held { IsHeld A.place held.old }
    requires these { HoldsThese wanted.old.banks wanted.old.shards held.old }
    ensures drew { Drew 0 false worker.old worker.new }
    ensures numbers { SameNumbers held.old held.new }
    ensures banks { wanted.new.banks ≡ wanted.old.banks }
    ensures took { OnOk result (Took A.over A.stands A.place (part_seen C.least C.faults C.readings) code.now table.now.id (λ program n l. HasTaken A.over A.stands code.now table.now.id program n l (part_seen C.least C.faults C.readings) None held.old worker.old) wanted.new.banks wanted.new.shards held.new worker.new) }
    ensures refused { OnErr result (LeftOff A.over A.stands code.now table.now.id (λ program n l. HasTaken A.over A.stands code.now table.now.id program n l (part_seen C.least C.faults C.readings) None held.old worker.old) held.new worker.new) }
    ensures stayed { Stayed worker.old worker.new }
{
    let number = wait % 16;
    if is_above(&wanted.shards, number) {
        take_above(rt, table, code, worker, held, wanted, number)
    } else {
        wanted.shards.add(number);
        take_again(rt, table, code, worker, held, wanted)
    }
}

// The stale handler leaves its queue, and all is taken once more.
fn prune_first<R: Wait, A: Agent, C: Clock + Drop>(
    rt: &R,
    table: &Table<Pool<A, C>>,
    code: &ValidCode,
    worker: &mut Worker<A, C>,
    held: &mut Held<A>,
    wanted: &Wanted,
    port: PortId,
    side: Side,
    place: u64,
) -> Result<(), OutOfMemory>
    requires carries { (program : ProgramView) × (n : ℕ) × (l : Lane A) × HasTaken A.over A.stands code.now table.now.id program n l (part_seen C.least C.faults C.readings) None held.old worker.old }
    requires held { IsHeld A.place held.old }
    requires stale { IsStale (parts_held worker.old.number None None held.old) port.n side place }
    ensures drew { Drew 0 false worker.old worker.new }
    ensures numbers { SameNumbers held.old held.new }
    ensures took { OnOk result (Took A.over A.stands A.place (part_seen C.least C.faults C.readings) code.now table.now.id (λ program n l. HasTaken A.over A.stands code.now table.now.id program n l (part_seen C.least C.faults C.readings) None held.old worker.old) wanted.now.banks wanted.now.shards held.new worker.new) }
    ensures refused { OnErr result (LeftOff A.over A.stands code.now table.now.id (λ program n l. HasTaken A.over A.stands code.now table.now.id program n l (part_seen C.least C.faults C.readings) None held.old worker.old) held.new worker.new) }
    ensures stayed { Stayed worker.old worker.new }
{
    prune(rt, table, code, worker, held, port, side, place);
    take_all(rt, table, code, worker, held, wanted)
}

// Whether the bank of that port, if there is one, is among these.
fn has_bank(banks: &Homes, port: Option<PortId>) -> bool
    ensures { IsTrue result → (q : ℕ) → option_map port_number port ≡ Some q → has_home banks.now (home q) ≡ true }
{
    match port {
        Some(port) => banks.has(port.n),
        None => true,
    }
}

fn add_bank(banks: &mut Homes, port: Option<PortId>)
    ensures { (i : ℕ) → has_home banks.old i ≡ true → has_home banks.new i ≡ true }
{
    if let Some(port) = port {
        banks.add(port.n);
    }
}

// The operation is refused. Where the bank of the task's result isn't held, all is taken with that.
fn refuse_over<R: Wait, A: Agent, C: Clock + Drop>(
    rt: &R,
    table: &Table<Pool<A, C>>,
    code: &ValidCode,
    worker: &mut Worker<A, C>,
    held: &mut Held<A>,
    task: &Task<A>,
    wanted: &mut Wanted,
    fault: Fault,
) -> Result<Option<Plan>, OutOfMemory>
    requires carries { (program : ProgramView) × (n : ℕ) × (l : Lane A) × HasTaken A.over A.stands code.now table.now.id program n l (part_seen C.least C.faults C.readings) None held.old worker.old }
    requires held { IsHeld A.place held.old }
    requires these { HoldsThese wanted.old.banks wanted.old.shards held.old }
    requires wants { Wants A.place wanted.old.banks held.old.new_port task.now }
    requires planned { IsOwnPlanFor A.place held.old (to_refuse fault) (agent_of task.now) }
    ensures drew { Drew 0 false worker.old worker.new }
    ensures numbers { SameNumbers held.old held.new }
    ensures wants { Wants A.place wanted.new.banks held.new.new_port task.now }
    ensures took { OnOk result (Took A.over A.stands A.place (part_seen C.least C.faults C.readings) code.now table.now.id (λ program n l. HasTaken A.over A.stands code.now table.now.id program n l (part_seen C.least C.faults C.readings) None held.old worker.old) wanted.new.banks wanted.new.shards held.new worker.new) }
    ensures refused { OnErr result (LeftOff A.over A.stands code.now table.now.id (λ program n l. HasTaken A.over A.stands code.now table.now.id program n l (part_seen C.least C.faults C.readings) None held.old worker.old) held.new worker.new) }
    ensures resolved { IfOk result (λ o. IfSome o (λ p. IsResolved A.place held.new task.now p)) }
    ensures stayed { Stayed worker.old worker.new }
{
    if has_bank(&wanted.banks, task.result) {
        Ok(Some(Plan::Refused(fault)))
    } else {
        add_bank(&mut wanted.banks, task.result);
        take_again(rt, table, code, worker, held, wanted)?;
        Ok(None)
    }
}

// The wait whose shard the plan wants beside those that are held.
fn lacking(plan: &Plan, new_wait: u64, shards: &Homes) -> Option<u64>
    ensures { IfNone result (IsSeen (has_home shards.now) new_wait (plan_view plan.now)) }
{
    match plan {
        Plan::Look(wait) => Some(wait.n),
        Plan::Park(_) | Plan::Post(_) => {
            if shards.has(new_wait) {
                None
            } else {
                Some(new_wait)
            }
        }
        Plan::Done(_) | Plan::Meet(_, _, _) | Plan::Default(_) => None,
        Plan::Make(_) | Plan::Spawn(_, _) | Plan::Close(_) => None,
        Plan::Register(_, _, _) | Plan::Print(_) => None,
        Plan::Prune(_, _, _) | Plan::Refused(_) => None,
    }
}

// A plan that hangs on no other shard: it is done with, or all is taken once more.
fn take_up<R: Wait, A: Agent, C: Clock + Drop>(
    rt: &R,
    table: &Table<Pool<A, C>>,
    code: &ValidCode,
    worker: &mut Worker<A, C>,
    held: &mut Held<A>,
    task: &Task<A>,
    wanted: &mut Wanted,
    plan: Plan,
) -> Result<Option<Plan>, OutOfMemory>
    requires carries { (program : ProgramView) × (n : ℕ) × (l : Lane A) × HasTaken A.over A.stands code.now table.now.id program n l (part_seen C.least C.faults C.readings) None held.old worker.old }
    requires held { IsHeld A.place held.old }
    requires these { HoldsThese wanted.old.banks wanted.old.shards held.old }
    requires wants { Wants A.place wanted.old.banks held.old.new_port task.now }
    requires planned { IsOwnPlanFor A.place held.old (plan_view plan) (agent_of task.now) }
    requires copies { HasCopies plan }
    requires seen { IsSeen (has_home wanted.old.shards) held.old.new_wait (plan_view plan) }
    ensures drew { Drew 0 false worker.old worker.new }
    ensures numbers { SameNumbers held.old held.new }
    ensures wants { Wants A.place wanted.new.banks held.new.new_port task.now }
    ensures took { OnOk result (Took A.over A.stands A.place (part_seen C.least C.faults C.readings) code.now table.now.id (λ program n l. HasTaken A.over A.stands code.now table.now.id program n l (part_seen C.least C.faults C.readings) None held.old worker.old) wanted.new.banks wanted.new.shards held.new worker.new) }
    ensures refused { OnErr result (LeftOff A.over A.stands code.now table.now.id (λ program n l. HasTaken A.over A.stands code.now table.now.id program n l (part_seen C.least C.faults C.readings) None held.old worker.old) held.new worker.new) }
    ensures resolved { IfOk result (λ o. IfSome o (λ p. IsResolved A.place held.new task.now p)) }
    ensures stayed { Stayed worker.old worker.new }
{
    match plan {
        Plan::Prune(port, side, place) => {
            prune_first(rt, table, code, worker, held, wanted, port, side, place)?;
            Ok(None)
        }
        Plan::Refused(fault) => refuse_over(rt, table, code, worker, held, task, wanted, fault),
        other => Ok(Some(other)),
    }
}

// What follows from the plan.
fn follow<R: Wait, A: Agent, C: Clock + Drop>(
    rt: &R,
    table: &Table<Pool<A, C>>,
    code: &ValidCode,
    worker: &mut Worker<A, C>,
    held: &mut Held<A>,
    task: &Task<A>,
    wanted: &mut Wanted,
    plan: Plan,
) -> Result<Option<Plan>, OutOfMemory>
    requires carries { (program : ProgramView) × (n : ℕ) × (l : Lane A) × HasTaken A.over A.stands code.now table.now.id program n l (part_seen C.least C.faults C.readings) None held.old worker.old }
    requires held { IsHeld A.place held.old }
    requires these { HoldsThese wanted.old.banks wanted.old.shards held.old }
    requires wants { Wants A.place wanted.old.banks held.old.new_port task.now }
    requires planned { IsOwnPlanFor A.place held.old (plan_view plan) (agent_of task.now) }
    requires copies { HasCopies plan }
    ensures drew { Drew 0 false worker.old worker.new }
    ensures numbers { SameNumbers held.old held.new }
    ensures wants { Wants A.place wanted.new.banks held.new.new_port task.now }
    ensures took { OnOk result (Took A.over A.stands A.place (part_seen C.least C.faults C.readings) code.now table.now.id (λ program n l. HasTaken A.over A.stands code.now table.now.id program n l (part_seen C.least C.faults C.readings) None held.old worker.old) wanted.new.banks wanted.new.shards held.new worker.new) }
    ensures refused { OnErr result (LeftOff A.over A.stands code.now table.now.id (λ program n l. HasTaken A.over A.stands code.now table.now.id program n l (part_seen C.least C.faults C.readings) None held.old worker.old) held.new worker.new) }
    ensures resolved { IfOk result (λ o. IfSome o (λ p. IsResolved A.place held.new task.now p)) }
    ensures stayed { Stayed worker.old worker.new }
{
    match lacking(&plan, held.new_wait, &wanted.shards) {
        Some(wait) => {
            take_more(rt, table, code, worker, held, wanted, wait)?;
            Ok(None)
        }
        None => take_up(rt, table, code, worker, held, task, wanted, plan),
    }
}

// One attempt to tell what the operation becomes; None where other parts are held now.
fn try_once<R: Wait, A: Agent, C: Clock + Drop>(
    rt: &R,
    alloc: Global,
    table: &Table<Pool<A, C>>,
    code: &ValidCode,
    worker: &mut Worker<A, C>,
    held: &mut Held<A>,
    task: &Task<A>,
    wanted: &mut Wanted,
) -> Result<Option<Plan>, OutOfMemory>
    requires carries { (program : ProgramView) × (n : ℕ) × (l : Lane A) × HasTaken A.over A.stands code.now table.now.id program n l (part_seen C.least C.faults C.readings) None held.old worker.old }
    requires held { IsHeld A.place held.old }
    requires these { HoldsThese wanted.old.banks wanted.old.shards held.old }
    requires wants { Wants A.place wanted.old.banks held.old.new_port task.now }
    requires at { is_at_op (A.place task.now.agent) ≡ true }
    requires apart { TaskBringsApart A.place task.now }
    ensures drew { Drew 0 false worker.old worker.new }
    ensures numbers { SameNumbers held.old held.new }
    ensures wants { Wants A.place wanted.new.banks held.new.new_port task.now }
    ensures took { OnOk result (Took A.over A.stands A.place (part_seen C.least C.faults C.readings) code.now table.now.id (λ program n l. HasTaken A.over A.stands code.now table.now.id program n l (part_seen C.least C.faults C.readings) None held.old worker.old) wanted.new.banks wanted.new.shards held.new worker.new) }
    ensures refused { OnErr result (LeftOff A.over A.stands code.now table.now.id (λ program n l. HasTaken A.over A.stands code.now table.now.id program n l (part_seen C.least C.faults C.readings) None held.old worker.old) held.new worker.new) }
    ensures resolved { IfOk result (λ o. IfSome o (λ p. IsResolved A.place held.new task.now p)) }
    ensures stayed { Stayed worker.old worker.new }
{
    match plan(alloc, held, task.agent.want(), task.alts) {
        Err(OutOfMemory) => {
            put_off(table, code, worker, held, None);
            Err(OutOfMemory)
        }
        Ok(plan) => follow(rt, table, code, worker, held, task, wanted, plan),
    }
}

// What the operation of the task needs at first.
fn wanted_by<A: Agent>(task: &Task<A>, new_port: u64) -> Wanted
    requires at { is_at_op (A.place task.now.agent) ≡ true }
    ensures { Wants A.place result.banks new_port task.now }
{
    Wanted {
        banks: banks_of(&task.agent.want().op, new_port),
        shards: Homes::none(),
    }
}

// What the operation of the task needs, and the shard that it will most likely want.
fn take_first<R: Wait, A: Agent, C: Clock + Drop>(
    rt: &R,
    table: &Table<Pool<A, C>>,
    code: &ValidCode,
    worker: &mut Worker<A, C>,
    held: &mut Held<A>,
    task: &Task<A>,
    wanted: &mut Wanted,
) -> Result<(), OutOfMemory>
    requires carries { (program : ProgramView) × (n : ℕ) × (l : Lane A) × HasLane A.over A.stands code.now table.now.id program n l worker.old }
    requires bare { IsBare held.old }
    requires at { is_at_op (A.place task.now.agent) ≡ true }
    ensures drew { Drew 0 false worker.old worker.new }
    ensures numbers { SameNumbers held.old held.new }
    ensures banks { wanted.new.banks ≡ wanted.old.banks }
    ensures took { OnOk result (Took A.over A.stands A.place (part_seen C.least C.faults C.readings) code.now table.now.id (λ program n l. HasLane A.over A.stands code.now table.now.id program n l worker.old) wanted.new.banks wanted.new.shards held.new worker.new) }
    ensures refused { OnErr result (LeftOff A.over A.stands code.now table.now.id (λ program n l. HasLane A.over A.stands code.now table.now.id program n l worker.old) held.new worker.new) }
    ensures stayed { Stayed worker.old worker.new }
{
    take_all(rt, table, code, worker, held, wanted)?;
    match wait_ahead(held, &task.agent.want().op, task.alts) {
        Some(wait) => take_more(rt, table, code, worker, held, wanted, wait),
        None => Ok(()),
    }
}

/// What the operation becomes at which the task is paused: an event or a refusal, with the banks and shards that are
/// needed for it. Where there is no memory nothing is held.
pub(crate) fn resolve<R: Wait, A: Agent, C: Clock + Drop>(
    rt: &R,
    alloc: Global,
    table: &Table<Pool<A, C>>,
    code: &ValidCode,
    worker: &mut Worker<A, C>,
    held: &mut Held<A>,
    task: &Task<A>,
) -> Result<Plan, OutOfMemory>
    requires carries { (program : ProgramView) × (n : ℕ) × (l : Lane A) × HasLane A.over A.stands code.now table.now.id program n l worker.old }
    requires bare { IsBare held.old }
    requires at { is_at_op (A.place task.now.agent) ≡ true }
    requires apart { TaskBringsApart A.place task.now }
    ensures drew { Drew 0 false worker.old worker.new }
    ensures numbers { SameNumbers held.old held.new }
    ensures held { OnOk result (IsHeld A.place held.new) }
    ensures carries { OnOk result ((program : ProgramView) (n : ℕ) (l : Lane A) → HasLane A.over A.stands code.now table.now.id program n l worker.old → HasTaken A.over A.stands code.now table.now.id program n l (part_seen C.least C.faults C.readings) None held.new worker.new) }
    ensures refused { OnErr result (LeftOff A.over A.stands code.now table.now.id (λ program n l. HasLane A.over A.stands code.now table.now.id program n l worker.old) held.new worker.new) }
    ensures resolved { IfOk result (λ p. IsResolved A.place held.new task.now p) }
    ensures stayed { Stayed worker.old worker.new }
{
    let mut wanted = wanted_by(task, held.new_port);
    take_first(rt, table, code, worker, held, task, &mut wanted)?;
    'tries: for _ in rt.forever() {
        if let Some(plan) = try_once(rt, alloc, table, code, worker, held, task, &mut wanted)? {
            return Ok(plan);
        }
    }
    unreachable!()
}
