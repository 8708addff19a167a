// A worker picks a task, and lets its own stand back. No journal shows either.
ghost use mathlib.Core.Option.{some};
ghost use lib.ListN.{get_elem?};
ghost use Rattle.std.specs.Prelude.{◌≡◌, ℕ, ◌+◌, ◌^◌, ◌<◌, IsSome, List, [], Some, None, OnErr, OnOk, length, false};
ghost use Rattle.ca_term.specs.Program.{ProgramView};
ghost use Rattle.ca_states.specs.ValidCode.{valid_code};
ghost use Rattle.ca_turns.specs.Hands.{TableId};
ghost use Rattle.ca_turns.specs.Views.{hands_stood_for};
ghost use Rattle.ca_commit.specs.Agents.{TaskAgent};
ghost use Rattle.ca_commit.specs.Moving.{visible};
ghost use Rattle.ca_commit.specs.Tasks.{tasks_in};
ghost use Rattle.ca_commit.specs.Touched.{picks, yields};
ghost use Rattle.ca_commit.specs.declared.task.Task.{Task};
ghost use Rattle.ca_table.specs.Carriers.{IsCarrying, IsMoved, both_back, just_lane, with_ready};
ghost use Rattle.ca_table.specs.Carrying.{Carries, each_by};
ghost use Rattle.ca_table.specs.Covering.{plain_drawn};
ghost use Rattle.ca_table.specs.Draws.{drawn_touches, drawn_view, turn_view};
ghost use Rattle.ca_table.specs.Grips.{SameHand, SameTurns, settled_one};
ghost use Rattle.ca_table.specs.LoneHands.{DrewTurn, left_now};
ghost use Rattle.ca_table.specs.Parts.{part_seen};
ghost use Rattle.ca_table.specs.Seen.{PartSeen, seen_ready};
ghost use Rattle.ca_table.specs.Worked.{Drew, gives_up, finds_run_end};
ghost use Rattle.ca_table.specs.Workers.{IsSeated, SameWorker};
ghost use Rattle.ca_table.specs.declared.part.Lane.{Lane};
ghost use Rattle.ca_table.specs.declared.part.Part.{Part};

use crate::drawn::{Drawn, Turned};
use crate::handling::{draw_carried, give_at, hold_ready, put_at, take_lane};
use crate::homes::Homes;
use crate::part::{Contents, Lane};
use crate::pool::Pool;
use crate::worker::Worker;
use ca_agent::agent::Agent;
use ca_commit::task::{Ready, Task};
use ca_states::valid_code::ValidCode;
use ca_timers::clock::Clock;
use ca_turns::Table;
use ca_value::memory::OutOfMemory;
use std::snapshot::Snapshot;
use std::sync::Wait;

/// An event of the worker that names all that it touches.
pub fn silent<A: Agent, C: Clock + Drop>(
    code: &ValidCode,
    worker: &Worker<A, C>,
    what: Turned,
) -> Drawn
    ensures code { result.code.value ≡ code.now }
    ensures what { result.what ≡ what }
    ensures view { drawn_view result ≡ plain_drawn worker.now.number worker.now.workers (turn_view what) }
{
    let none = Homes::none();
    Drawn {
        worker: worker.number,
        workers: worker.workers,
        what,
        ports: Snapshot::of(&none),
        looked: Snapshot::of(&none),
        code: Snapshot::of(code),
    }
}

// Puts a ready part back as it was held, and gives it back.
fn give_ready<A: Agent, C: Clock + Drop>(
    table: &Table<Pool<A, C>>,
    code: &ValidCode,
    worker: &mut Worker<A, C>,
    at: u64,
    ready: Ready<A>,
)
    requires carries { (program : ProgramView) × (n : ℕ) × (l : Lane A) × IsCarrying A.over A.stands program code.now table.now.id n worker.old (with_ready n code.now at (tasks_in ready) (just_lane n code.now l)) × (at < n) }
    ensures same { SameWorker worker.old worker.new }
    ensures turns { SameTurns worker.old.hand worker.new.hand }
    ensures carries { (program : ProgramView) (n : ℕ) (l : Lane A) → IsCarrying A.over A.stands program code.now table.now.id n worker.old (with_ready n code.now at (tasks_in ready) (just_lane n code.now l)) → IsCarrying A.over A.stands program code.now table.now.id n worker.new (just_lane n code.now l) }
{
    let place = worker.workers + 33 + at;
    put_at(code, worker, place, Contents::Ready(ready));
    give_at(table, worker, place);
}

// Draws an event that names all that it touches, which the worker carries as the event leaves it.
fn draw_silent<A: Agent, C: Clock + Drop>(
    table: &Table<Pool<A, C>>,
    code: &ValidCode,
    worker: &mut Worker<A, C>,
    what: Turned,
)
    requires carries { (program : ProgramView) × (n : ℕ) × (h : Carries (Part A C × PartSeen A)) × IsCarrying A.over A.stands program code.now table.now.id n worker.old h × IsMoved A.over A.place A.advances A.gives A.starts (part_seen C.least C.faults C.readings) code.now n worker.old.number (plain_drawn worker.old.number n (turn_view what)) h }
    requires hidden { visible (turn_view what) ≡ [] }
    requires turns { length worker.old.hand.view.turns < 2 ^ 59 }
    ensures same { SameWorker worker.old worker.new }
    ensures hand { SameHand worker.old.hand worker.new.hand }
    ensures turn { DrewTurn (turn_view what) worker.old.hand.view worker.new.hand.view }
    ensures drew { gives_up (turn_view what) ≡ false → Drew 0 (finds_run_end (turn_view what)) worker.old worker.new }
    ensures carries { (program : ProgramView) (n : ℕ) (h : Carries (Part A C × PartSeen A)) → IsCarrying A.over A.stands program code.now table.now.id n worker.old h → IsMoved A.over A.place A.advances A.gives A.starts (part_seen C.least C.faults C.readings) code.now n worker.old.number (plain_drawn worker.old.number n (turn_view what)) h → IsCarrying A.over A.stands program code.now table.now.id n worker.new (each_by (settled_one (part_seen C.least C.faults C.readings)) h) }
{
    let drawn = silent(code, worker, what);
    draw_carried(table, worker, drawn);
}

// Puts the lane and a ready part back as they are now.
fn put_both<A: Agent, C: Clock + Drop>(
    code: &ValidCode,
    worker: &mut Worker<A, C>,
    lane: Box<Lane<A>>,
    ready: Ready<A>,
    at: u64,
)
    requires { (program : ProgramView) × (id : TableId) × (n : ℕ) × (l : Lane A) × (q : List (ℕ × TaskAgent A)) × IsCarrying A.over A.stands program code.now id n worker.old (with_ready n code.now at q (just_lane n code.now l)) × (at < n) }
    ensures same { SameWorker worker.old worker.new }
    ensures turns { SameTurns worker.old.hand worker.new.hand }
    ensures carries { (program : ProgramView) (id : TableId) (n : ℕ) (l : Lane A) (q : List (ℕ × TaskAgent A)) → IsCarrying A.over A.stands program code.now id n worker.old (with_ready n code.now at q (just_lane n code.now l)) → IsCarrying A.over A.stands program code.now id n worker.new (both_back n code.now at l q lane ready) }
{
    let place = worker.workers + 33 + at;
    put_at(code, worker, place, Contents::Ready(ready));
    let number = worker.number;
    put_at(code, worker, number, Contents::Lane(lane));
}

// Draws an event that moved the lane and a ready part, and gives the ready part back.
fn draw_with_ready<A: Agent, C: Clock + Drop>(
    table: &Table<Pool<A, C>>,
    code: &ValidCode,
    worker: &mut Worker<A, C>,
    lane: Box<Lane<A>>,
    ready: Ready<A>,
    at: u64,
    what: Turned,
) -> Box<Lane<A>>
    requires carries { (program : ProgramView) × (n : ℕ) × (l : Lane A) × (q : List (ℕ × TaskAgent A)) × IsCarrying A.over A.stands program code.now table.now.id n worker.old (with_ready n code.now at q (just_lane n code.now l)) × IsMoved A.over A.place A.advances A.gives A.starts (part_seen C.least C.faults C.readings) code.now n worker.old.number (plain_drawn worker.old.number n (turn_view what)) (both_back n code.now at l q lane ready) × (at < n) }
    requires hidden { visible (turn_view what) ≡ [] }
    requires turns { length worker.old.hand.view.turns < 2 ^ 59 }
    ensures same { SameWorker worker.old worker.new }
    ensures lane { result ≡ lane }
    ensures hand { SameHand worker.old.hand worker.new.hand }
    ensures turn { DrewTurn (turn_view what) worker.old.hand.view worker.new.hand.view }
    ensures drew { gives_up (turn_view what) ≡ false → Drew 0 (finds_run_end (turn_view what)) worker.old worker.new }
    ensures carries { (program : ProgramView) (n : ℕ) (l : Lane A) (q : List (ℕ × TaskAgent A)) → IsCarrying A.over A.stands program code.now table.now.id n worker.old (with_ready n code.now at q (just_lane n code.now l)) → IsMoved A.over A.place A.advances A.gives A.starts (part_seen C.least C.faults C.readings) code.now n worker.old.number (plain_drawn worker.old.number n (turn_view what)) (both_back n code.now at l q lane ready) → IsCarrying A.over A.stands program code.now table.now.id n worker.new (just_lane n code.now result.value) }
{
    let place = worker.workers + 33 + at;
    put_both(code, worker, lane, ready, at);
    draw_silent(table, code, worker, what);
    give_at(table, worker, place);
    take_lane(code, worker)
}

fn with_task<A: Agent>(mut lane: Box<Lane<A>>, task: Task<A>) -> Box<Lane<A>>
    ensures task { result.value.task ≡ Some task }
    ensures since { result.value.since ≡ 0 }
    ensures program { result.value.program ≡ lane.value.program }
    ensures counts { result.value.counts ≡ lane.value.counts }
{
    lane.task = Some(task);
    lane.since = 0;
    lane
}

fn without_task<A: Agent>(mut lane: Box<Lane<A>>) -> (Box<Lane<A>>, Task<A>)
    requires { (t : Task A) × (lane.value.task ≡ Some t) }
    ensures task { lane.value.task ≡ Some result.1 }
    ensures free { result.0.value.task ≡ None }
    ensures program { result.0.value.program ≡ lane.value.program }
    ensures counts { result.0.value.counts ≡ lane.value.counts }
{
    match lane.task.take() {
        Some(task) => (lane, task),
        None => unreachable!(),
    }
}

/// Puts the first task of that ready part into the worker's empty lane, if there is one. Where there is none, the turns of
/// an only worker left that part empty.
pub fn pick<R: Wait, A: Agent, C: Clock + Drop>(
    rt: &R,
    table: &Table<Pool<A, C>>,
    code: &ValidCode,
    worker: &mut Worker<A, C>,
    lane: Box<Lane<A>>,
    at: u64,
) -> Box<Lane<A>>
    requires seated { (program : ProgramView) × (n : ℕ) × IsSeated A.over A.stands program code.now table.now.id n worker.old lane.value × (at < n) }
    requires free { lane.value.task ≡ None }
    requires turns { length worker.old.hand.view.turns < 2 ^ 59 }
    ensures same { SameWorker worker.old worker.new }
    ensures hand { SameHand worker.old.hand worker.new.hand }
    ensures picked { IsSome result.value.task → DrewTurn (picks at) worker.old.hand.view worker.new.hand.view }
    ensures none { result.value.task ≡ None → SameTurns worker.old.hand worker.new.hand }
    ensures since { IsSome result.value.task → result.value.since ≡ 0 }
    ensures empty { result.value.task ≡ None → hands_stood_for worker.old.hand.view ≡ worker.old.hand.view.hands → (c : PartSeen A) × (get_elem? (left_now drawn_touches worker.new.hand.view) (worker.old.workers + 33 + at) ≡ some c) × (c.held ≡ seen_ready []) }
    ensures drew { Drew 0 false worker.old worker.new }
    ensures over { (t : Task A) → result.value.task ≡ Some t → A.over (valid_code code.now) t.agent }
    ensures seated { (program : ProgramView) (n : ℕ) → IsSeated A.over A.stands program code.now table.now.id n worker.old lane.value → IsSeated A.over A.stands program code.now table.now.id n worker.new result.value }
{
    let mut ready = hold_ready(rt, table, code, worker, at);
    match ready.pop() {
        None => {
            give_ready(table, code, worker, at, ready);
            lane
        }
        Some(task) => {
            let seated = with_task(lane, task);
            draw_with_ready(table, code, worker, seated, ready, at, Turned::Pick(at))
        }
    }
}

/// Puts the lane's task last into the worker's own ready part. Where there is no memory for that nothing changes.
pub fn yield_task<R: Wait, A: Agent, C: Clock + Drop>(
    rt: &R,
    table: &Table<Pool<A, C>>,
    code: &ValidCode,
    worker: &mut Worker<A, C>,
    lane: Box<Lane<A>>,
) -> (Box<Lane<A>>, Result<(), OutOfMemory>)
    requires seated { (program : ProgramView) × (n : ℕ) × IsSeated A.over A.stands program code.now table.now.id n worker.old lane.value }
    requires busy { (t : Task A) × (lane.value.task ≡ Some t) }
    requires turns { length worker.old.hand.view.turns < 2 ^ 59 }
    ensures same { SameWorker worker.old worker.new }
    ensures hand { SameHand worker.old.hand worker.new.hand }
    ensures yielded { OnOk result.1 (DrewTurn yields worker.old.hand.view worker.new.hand.view) }
    ensures stays { OnErr result.1 (SameTurns worker.old.hand worker.new.hand) }
    ensures drew { Drew 0 false worker.old worker.new }
    ensures seated { (program : ProgramView) (n : ℕ) → IsSeated A.over A.stands program code.now table.now.id n worker.old lane.value → IsSeated A.over A.stands program code.now table.now.id n worker.new result.0.value }
    ensures free { OnOk result.1 (result.0.value.task ≡ None) }
    ensures refused { OnErr result.1 (result.0 ≡ lane) }
{
    let own = worker.number;
    let mut ready = hold_ready(rt, table, code, worker, own);
    match ready.reserve() {
        Err(OutOfMemory) => {
            give_ready(table, code, worker, own, ready);
            (lane, Err(OutOfMemory))
        }
        Ok(()) => {
            let parted = without_task(lane);
            ready.push(parted.1);
            let free = draw_with_ready(table, code, worker, parted.0, ready, own, Turned::Yield);
            (free, Ok(()))
        }
    }
}
