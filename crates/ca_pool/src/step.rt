// A task's next event: the task leaves its lane and goes on to its next pause, and what it is paused at is done.
ghost use Rattle.std.specs.Prelude.{◌≡◌, ℕ, IfOk, IsSome, OnErr, Some, [], ◌<◌, option_map, false};
ghost use Rattle.ca_term.specs.Program.{ProgramView, program_view};
ghost use Rattle.ca_term.specs.Event.{port_number};
ghost use Rattle.ca_meaning.specs.Solo.{patience};
ghost use Rattle.ca_solo.specs.Stirs.{port_if};
ghost use Rattle.ca_states.specs.ValidCode.{valid_code};
ghost use Rattle.ca_lower.specs.Gos.{SameGos};
ghost use Rattle.ca_lower.specs.Lowered.{Lowered};
ghost use Rattle.ca_agent.specs.Agents.{PausesAt};
ghost use Rattle.ca_table.specs.Carriers.{IsCarrying, just_lane};
ghost use Rattle.ca_table.specs.Worked.{Drew};
ghost use Rattle.ca_table.specs.Workers.{IsSeated, SameWorker};
ghost use Rattle.ca_table.specs.declared.part.Lane.{Lane};
ghost use Rattle.ca_alone.specs.Schedule.{MaySettle, to_turn};
ghost use Rattle.ca_pool.specs.AtWork.{HasLost, IsAtWork};
ghost use Rattle.ca_pool.specs.Desk.{IsBare};
ghost use Rattle.ca_pool.specs.Leaving.{HasLeft, TaskOver};
ghost use Rattle.ca_pool.specs.Lone.{HasStepped, MayGo};

use crate::gate::{Gate, GatePlace};
use crate::operation::{Stepped, operate};
use crate::task_end::{end, fault};
use ca_agent::agent::{Agent, Pause};
use ca_agent::starting::Starting;
use ca_commit::held::Held;
use ca_commit::task::Task;
use ca_states::valid_code::ValidCode;
use ca_table::part::Lane;
use ca_table::pool::Pool;
use ca_table::worker::Worker;
use ca_timers::clock::Clock;
use ca_turns::Table;
use ca_value::memory::OutOfMemory;
use std::alloc::Global;
use std::sync::Wait;

fn leave_lane<A: Agent>(mut lane: Box<Lane<A>>) -> (Box<Lane<A>>, Task<A>)
    requires { IsSome lane.value.task }
    ensures task { lane.value.task ≡ Some result.1 }
    ensures program { result.0.value.program ≡ lane.value.program }
    ensures since { result.0.value.since ≡ lane.value.since }
    ensures counts { result.0.value.counts ≡ lane.value.counts }
{
    match lane.task.take() {
        Some(task) => (lane, task),
        None => unreachable!(),
    }
}

// The task goes on to its next pause.
fn advance<A: Agent>(
    alloc: Global,
    code: &ValidCode,
    mut task: Task<A>,
) -> Result<(Task<A>, Pause), OutOfMemory>
    requires { A.over (valid_code code.now) task.agent }
    ensures number { IfOk result (λ r. r.0.number ≡ task.number) }
    ensures port { IfOk result (λ r. r.0.result ≡ task.result) }
    ensures alts { IfOk result (λ r. r.0.alts ≡ task.alts) }
    ensures advances { IfOk result (λ r. (program : ProgramView) → Lowered program (valid_code code.now) → A.advances program task.agent r.0.agent) }
    ensures over { IfOk result (λ r. A.over (valid_code code.now) r.0.agent) }
    ensures pauses { IfOk result (λ r. PausesAt r.1 (A.place r.0.agent)) }
{
    let pause = task.agent.advance(alloc, code)?;
    Ok((task, pause))
}

// What the task is paused at.
fn act<R: Wait, A: Starting, C: Clock + Drop>(
    rt: &R,
    alloc: Global,
    table: &Table<Pool<A, C>>,
    code: &ValidCode,
    worker: &mut Worker<A, C>,
    held: &mut Held<A>,
    lane: Box<Lane<A>>,
    task: Task<A>,
    pause: Pause,
) -> Result<Stepped<A>, OutOfMemory>
    requires left { (program : ProgramView) × (n : ℕ) × (l : Lane A) × IsCarrying A.over A.stands program code.now table.now.id n worker.old (just_lane n code.now l) × HasLeft A.over A.advances program code.now l lane.value task × (program_view l.program.value ≡ program) }
    requires pauses { PausesAt pause (A.place task.agent) }
    requires over { A.over (valid_code code.now) task.agent }
    requires bare { IsBare held.old }
    requires lowered { Lowered (program_view worker.old.program.value) (valid_code code.now) }
    requires gos { SameGos (program_view worker.old.program.value) (valid_code code.now) }
    ensures same { SameWorker worker.old worker.new }
    ensures bare { IsBare held.new }
    ensures stepped { IfOk result (λ s. (program : ProgramView) (n : ℕ) (l : Lane A) → IsCarrying A.over A.stands program code.now table.now.id n worker.old (just_lane n code.now l) → HasLeft A.over A.advances program code.now l lane.value task → program_view l.program.value ≡ program → IsSeated A.over A.stands program code.now table.now.id n worker.new s.lane.value) }
    ensures over { IfOk result (λ s. TaskOver A.over code.now s.lane.value) }
    ensures drew { IfOk result (λ s. Drew s.cost s.over worker.old worker.new) }
    ensures refused { OnErr result (Drew 0 false worker.old worker.new) }
    ensures kept { OnErr result ((program : ProgramView) (n : ℕ) (l : Lane A) → IsCarrying A.over A.stands program code.now table.now.id n worker.old (just_lane n code.now l) → IsCarrying A.over A.stands program code.now table.now.id n worker.new (just_lane n code.now l)) }
    ensures solo { IfOk result (λ s. lane.value.since < patience → (most : ℕ) → MayGo A.over A.place A.stands A.advances A.gives A.starts code.now (MaySettle to_turn []) most worker.old → HasStepped A.over A.place A.stands A.advances A.gives A.starts code.now (port_if (option_map port_number s.stirred)) s.over most worker.new) }
{
    match pause {
        Pause::AtOp => operate(rt, alloc, table, code, worker, held, lane, task),
        Pause::Ended => end(rt, table, code, worker, held, lane, task),
        Pause::Faulted(kind, place) => {
            fault(rt, table, code, worker, held, lane, task, kind, place)
        }
    }
}

/// The lane's task makes its next event. Where there is no memory for that, the lane is lost.
pub(crate) fn step<R: Wait, A: Starting, C: Clock + Drop, G: Gate>(
    rt: &R,
    alloc: Global,
    table: &Table<Pool<A, C>>,
    code: &ValidCode,
    worker: &mut Worker<A, C>,
    held: &mut Held<A>,
    gate: &G,
    lane: Box<Lane<A>>,
) -> Result<Stepped<A>, OutOfMemory>
    requires at { IsAtWork A.over A.stands code.now table.now.id worker.old lane.value }
    requires bare { IsBare held.old }
    requires busy { IsSome lane.value.task }
    ensures same { SameWorker worker.old worker.new }
    ensures bare { IsBare held.new }
    ensures at { IfOk result (λ s. IsAtWork A.over A.stands code.now table.now.id worker.new s.lane.value) }
    ensures drew { IfOk result (λ s. Drew s.cost s.over worker.old worker.new) }
    ensures refused { OnErr result (Drew 0 false worker.old worker.new) }
    ensures lost { OnErr result (HasLost A.over A.stands code.now table.now.id worker.new) }
    ensures solo { IfOk result (λ s. lane.value.since < patience → (most : ℕ) → MayGo A.over A.place A.stands A.advances A.gives A.starts code.now (MaySettle to_turn []) most worker.old → HasStepped A.over A.place A.stands A.advances A.gives A.starts code.now (port_if (option_map port_number s.stirred)) s.over most worker.new) }
{
    let (left, before) = leave_lane(lane);
    let (task, pause) = advance(alloc, code, before)?;
    gate.pass(worker.number, GatePlace::Advanced);
    act(rt, alloc, table, code, worker, held, left, task, pause)
}
