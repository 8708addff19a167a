// A stale handler leaves its queue: an event that no journal shows, beside the lane.
ghost use Rattle.std.specs.Prelude.{◌≡◌, ℕ, None, false};
ghost use Rattle.ca_term.specs.Program.{ProgramView};
ghost use Rattle.ca_commit.specs.Deciding.{IsStale};
ghost use Rattle.ca_table.specs.Bearing.{parts_held};
ghost use Rattle.ca_table.specs.Parts.{part_seen};
ghost use Rattle.ca_table.specs.Worked.{Drew};
ghost use Rattle.ca_table.specs.Workers.{SameWorker};
ghost use Rattle.ca_table.specs.declared.part.Lane.{Lane};
ghost use Rattle.ca_pool.specs.AtEvent.{HasLane, HasTaken};
ghost use Rattle.ca_pool.specs.Desk.{IsBare, SameNumbers};
ghost use Rattle.ca_pool.specs.Lone.{Stayed};

use crate::draw::draw_aside;
use crate::limits::check_turns;
use ca_agent::agent::Agent;
use ca_commit::held::Held;
use ca_commit::pruning::prune_held;
use ca_states::valid_code::ValidCode;
use ca_table::drawn::Turned;
use ca_table::pool::Pool;
use ca_table::worker::Worker;
use ca_term::event::Side;
use ca_timers::clock::Clock;
use ca_turns::Table;
use ca_value::value::PortId;
use std::sync::Wait;

/// The handler at that place of the queue leaves it; its wait is answered. All that is held is given back.
pub(crate) fn prune<R: Wait, A: Agent, C: Clock + Drop>(
    rt: &R,
    table: &Table<Pool<A, C>>,
    code: &ValidCode,
    worker: &mut Worker<A, C>,
    held: &mut Held<A>,
    port: PortId,
    side: Side,
    place: u64,
)
    requires carries { (program : ProgramView) × (n : ℕ) × (l : Lane A) × HasTaken A.over A.stands code.now table.now.id program n l (part_seen C.least C.faults C.readings) None held.old worker.old }
    requires stale { IsStale (parts_held worker.old.number None None held.old) port.n side place }
    requires ready { held.old.ready ≡ None }
    requires timers { held.old.timers ≡ None }
    ensures same { SameWorker worker.old worker.new }
    ensures bare { IsBare held.new }
    ensures numbers { SameNumbers held.old held.new }
    ensures drew { Drew 0 false worker.old worker.new }
    ensures carries { (program : ProgramView) (n : ℕ) (l : Lane A) → HasTaken A.over A.stands code.now table.now.id program n l (part_seen C.least C.faults C.readings) None held.old worker.old → HasLane A.over A.stands code.now table.now.id program n l worker.new }
    ensures stayed { Stayed worker.old worker.new }
{
    check_turns(rt, worker);
    let wait = prune_held(held, port, side, place);
    draw_aside(
        table,
        code,
        worker,
        held,
        None,
        Turned::Prune(side, port, wait),
    );
}
