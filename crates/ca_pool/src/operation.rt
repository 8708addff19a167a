// An operation of the lane's task: one event, or the task's end where it is refused.
ghost use Rattle.std.specs.Prelude.{◌≡◌, ℕ, IfOk, OnErr, false, true, [], ◌<◌, option_map};
ghost use Rattle.ca_term.specs.Program.{ProgramView, program_view};
ghost use Rattle.ca_term.specs.Event.{port_number};
ghost use Rattle.ca_meaning.specs.BodyViews.{is_at_op};
ghost use Rattle.ca_meaning.specs.Solo.{patience};
ghost use Rattle.ca_solo.specs.Stirs.{port_if};
ghost use Rattle.ca_states.specs.ValidCode.{valid_code};
ghost use Rattle.ca_lower.specs.Gos.{SameGos};
ghost use Rattle.ca_lower.specs.Lowered.{Lowered};
ghost use Rattle.ca_table.specs.Carriers.{IsCarrying, just_lane};
ghost use Rattle.ca_table.specs.Worked.{Drew};
ghost use Rattle.ca_table.specs.Workers.{IsSeated, SameWorker};
ghost use Rattle.ca_table.specs.declared.part.Lane.{Lane};
ghost use Rattle.ca_alone.specs.Schedule.{MaySettle, to_turn};
ghost use Rattle.ca_pool.specs.Desk.{IsBare};
ghost use Rattle.ca_pool.specs.Leaving.{HasLeft, TaskOver};
ghost use Rattle.ca_pool.specs.Lone.{HasStepped, MayGo};

use crate::commit::commit;
use crate::limits::{check_apart, set_numbers};
use crate::resolution::resolve;
use crate::task_end::refuse;
use ca_agent::starting::Starting;
use ca_commit::held::Held;
use ca_commit::planned::Plan;
use ca_commit::task::Task;
use ca_states::valid_code::ValidCode;
use ca_table::part::Lane;
use ca_table::pool::Pool;
use ca_table::worker::Worker;
use ca_timers::clock::Clock;
use ca_turns::Table;
use ca_value::memory::OutOfMemory;
use ca_value::value::PortId;
use std::alloc::Global;
use std::sync::Wait;

/// What an event came to: the lane, its cost, the channel that it may bring to settle, and whether the main text is over.
#[derive(Drop)]
pub(crate) struct Stepped<A> {
    pub(crate) lane: Box<Lane<A>>,
    pub(crate) cost: u64,
    pub(crate) stirred: Option<PortId>,
    pub(crate) over: bool,
}

/// The lane's task, which has advanced to an operation, goes on past it by one event, or ends there. Where there is no
/// memory the lane is as it was settled.
pub(crate) fn operate<R: Wait, A: Starting, C: Clock + Drop>(
    rt: &R,
    alloc: Global,
    table: &Table<Pool<A, C>>,
    code: &ValidCode,
    worker: &mut Worker<A, C>,
    held: &mut Held<A>,
    lane: Box<Lane<A>>,
    task: Task<A>,
) -> Result<Stepped<A>, OutOfMemory>
    requires left { (program : ProgramView) × (n : ℕ) × (l : Lane A) × IsCarrying A.over A.stands program code.now table.now.id n worker.old (just_lane n code.now l) × HasLeft A.over A.advances program code.now l lane.value task × (program_view l.program.value ≡ program) }
    requires at { is_at_op (A.place task.agent) ≡ true }
    requires over { A.over (valid_code code.now) task.agent }
    requires bare { IsBare held.old }
    requires lowered { Lowered (program_view worker.old.program.value) (valid_code code.now) }
    requires gos { SameGos (program_view worker.old.program.value) (valid_code code.now) }
    ensures same { SameWorker worker.old worker.new }
    ensures bare { IsBare held.new }
    ensures stepped { IfOk result (λ s. (program : ProgramView) (n : ℕ) (l : Lane A) → IsCarrying A.over A.stands program code.now table.now.id n worker.old (just_lane n code.now l) → HasLeft A.over A.advances program code.now l lane.value task → program_view l.program.value ≡ program → IsSeated A.over A.stands program code.now table.now.id n worker.new s.lane.value) }
    ensures over { IfOk result (λ s. TaskOver A.over code.now s.lane.value) }
    ensures drew { IfOk result (λ s. Drew s.cost s.over worker.old worker.new) }
    ensures kept { OnErr result ((program : ProgramView) (n : ℕ) (l : Lane A) → IsCarrying A.over A.stands program code.now table.now.id n worker.old (just_lane n code.now l) → IsCarrying A.over A.stands program code.now table.now.id n worker.new (just_lane n code.now l)) }
    ensures refused { OnErr result (Drew 0 false worker.old worker.new) }
    ensures solo { IfOk result (λ s. lane.value.since < patience → (most : ℕ) → MayGo A.over A.place A.stands A.advances A.gives A.starts code.now (MaySettle to_turn []) most worker.old → HasStepped A.over A.place A.stands A.advances A.gives A.starts code.now (port_if (option_map port_number s.stirred)) s.over most worker.new) }
{
    set_numbers(rt, worker, lane.counts, held);
    check_apart(rt, &task.agent.want().op);
    let plan = resolve(rt, alloc, table, code, worker, held, &task)?;
    match plan {
        Plan::Refused(fault) => refuse(rt, table, code, worker, held, lane, task, fault),
        plan => commit(rt, alloc, table, code, worker, held, lane, task, plan),
    }
}
