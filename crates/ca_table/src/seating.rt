// A worker takes its lane, and gives it back.
ghost use Rattle.std.specs.Prelude.{◌≡◌, ℕ, Some, false};
ghost use Rattle.ca_term.specs.Program.{ProgramView};
ghost use Rattle.ca_states.specs.ValidCode.{valid_code};
ghost use Rattle.ca_table.specs.Grips.{SameTurns};
ghost use Rattle.ca_table.specs.Worked.{Drew};
ghost use Rattle.ca_table.specs.Workers.{IsReady, IsSeated, SameWorker};
ghost use Rattle.ca_commit.specs.declared.task.Task.{Task};

use crate::holding::{hold_out, part_with};
use crate::moving::{give, take_part};
use crate::part::{Contents, Lane};
use crate::pool::Pool;
use crate::worker::Worker;
use ca_agent::agent::Agent;
use ca_states::valid_code::ValidCode;
use ca_timers::clock::Clock;
use ca_turns::Table;
use std::sync::Wait;

/// The worker's own lane, which stays with it until it rises.
pub fn sit<R: Wait, A: Agent, C: Clock + Drop>(
    rt: &R,
    table: &Table<Pool<A, C>>,
    code: &ValidCode,
    worker: &mut Worker<A, C>,
) -> Box<Lane<A>>
    requires ready { (program : ProgramView) × (n : ℕ) × IsReady A.over A.stands program (valid_code code.now) table.now.id n worker.old }
    ensures same { SameWorker worker.old worker.new }
    ensures turns { SameTurns worker.old.hand worker.new.hand }
    ensures drew { Drew 0 false worker.old worker.new }
    ensures over { (t : Task A) → result.value.task ≡ Some t → A.over (valid_code code.now) t.agent }
    ensures seated { (program : ProgramView) (n : ℕ) → IsReady A.over A.stands program (valid_code code.now) table.now.id n worker.old → IsSeated A.over A.stands program code.now table.now.id n worker.new result.value }
{
    let number = worker.number;
    let workers = worker.workers;
    match hold_out(
        rt,
        table,
        &mut worker.hand,
        &worker.program,
        code,
        workers,
        number,
    ) {
        Contents::Lane(lane) => lane,
        _ => unreachable!(),
    }
}

/// Gives the lane back, as it was last drawn.
pub fn rise<A: Agent, C: Clock + Drop>(
    table: &Table<Pool<A, C>>,
    code: &ValidCode,
    worker: &mut Worker<A, C>,
    lane: Box<Lane<A>>,
)
    requires seated { (program : ProgramView) × (n : ℕ) × IsSeated A.over A.stands program code.now table.now.id n worker.old lane.value }
    ensures same { SameWorker worker.old worker.new }
    ensures turns { SameTurns worker.old.hand worker.new.hand }
    ensures drew { Drew 0 false worker.old worker.new }
    ensures ready { (program : ProgramView) (n : ℕ) → IsSeated A.over A.stands program code.now table.now.id n worker.old lane.value → IsReady A.over A.stands program (valid_code code.now) table.now.id n worker.new }
{
    let part = part_with(code, worker.workers, Contents::Lane(lane));
    let number = worker.number;
    let _away = take_part::<Pool<A, C>>(&mut worker.hand, number, part);
    give(table, &mut worker.hand, number);
}
