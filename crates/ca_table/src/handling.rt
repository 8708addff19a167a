// Parts that a worker carries: it holds them and moves them out of its hand, puts them back, draws an event with them,
// and gives them back. Each call says what it does to all that the worker carries.
ghost use mathlib.Core.Option.{some};
ghost use lib.ListN.{get_elem?};
ghost use Rattle.std.specs.Prelude.{◌≡◌, ℕ, ◌+◌, ◌^◌, ◌<◌, ◌≤◌, ◌++◌, ◌∷◌, IfNone, IfSome, List, [], Option, Some, None, length};
ghost use Rattle.ca_term.specs.Program.{ProgramView};
ghost use Rattle.ca_states.specs.ValidCode.{valid_code};
ghost use Rattle.ca_journal.specs.Merge.{room};
ghost use Rattle.ca_turns.specs.Hands.{IsHolding, TableId};
ghost use Rattle.ca_turns.specs.Views.{hands_stood_for, new_turn};
ghost use Rattle.ca_commit.specs.Moving.{visible};
ghost use Rattle.ca_commit.specs.Gathered.{kind_at, kind_of_part};
ghost use Rattle.ca_commit.specs.Tasks.{tasks_in};
ghost use Rattle.ca_table.specs.Beside.{beside_lane, settled_beside};
ghost use Rattle.ca_table.specs.Carriers.{IsCarrying, IsMoved, LaneBox, with_ready};
ghost use Rattle.ca_table.specs.Carrying.{Carries, IsPlace, Place, each_by, lane_place, number_at, part_at, with_at};
ghost use Rattle.ca_table.specs.Draws.{drawn_allows, drawn_code, drawn_view, turn_view};
ghost use Rattle.ca_table.specs.Grips.{SameHand, SameTurns, settled_one};
ghost use Rattle.ca_table.specs.Parts.{part_away, contents_seen, part_of, part_seen};
ghost use Rattle.ca_table.specs.Seen.{PartSeen, held_of};
ghost use Rattle.ca_table.specs.Sound.{AllOver, IsSound};
ghost use Rattle.ca_table.specs.Workers.{IsOne, SameWorker, part_count};
ghost use Rattle.ca_table.specs.declared.part.Contents.TheVariants as V;
ghost use Rattle.ca_table.specs.declared.part.Part.{Part};

use crate::drawn::Drawn;
use crate::holding::{hold_out, part_with, try_out};
use crate::moving::{give, take_part};
use crate::noting::draw_event;
use crate::part::{Contents, Lane, Part};
use crate::pool::Pool;
use crate::worker::Worker;
use ca_agent::agent::Agent;
use ca_commit::task::Ready;
use ca_states::valid_code::ValidCode;
use ca_timers::clock::Clock;
use ca_turns::Table;
use std::mem;
use std::sync::Wait;

/// Holds a part above all that the worker holds, once it is free, and moves it out of the hand.
pub fn hold_at<R: Wait, A: Agent, C: Clock + Drop>(
    rt: &R,
    table: &Table<Pool<A, C>>,
    code: &ValidCode,
    worker: &mut Worker<A, C>,
    at: u64,
) -> Contents<A, C>
    requires one { (program : ProgramView) × (n : ℕ) × IsOne A.over A.stands program (valid_code code.now) table.now.id n worker.old × (at < part_count n) }
    requires ascending { (i : ℕ) → IsHolding worker.old.hand i → i < at }
    ensures same { SameWorker worker.old worker.new }
    ensures turns { SameTurns worker.old.hand worker.new.hand }
    ensures entries { worker.new.entries ≡ worker.old.entries }
    ensures kind { kind_of_part (held_of (contents_seen C.least C.faults C.readings result)) ≡ kind_at worker.old.workers at }
    ensures sound { IsSound A.over A.place (valid_code code.now) worker.old.workers at (held_of (contents_seen C.least C.faults C.readings result)) }
    ensures carries { (program : ProgramView) (n : ℕ) (h : Carries (Part A C × PartSeen A)) (z : Place) → IsCarrying A.over A.stands program code.now table.now.id n worker.old h → IsPlace z → at ≡ number_at n worker.old.number z → IsCarrying A.over A.stands program code.now table.now.id n worker.new (with_at z (Some (part_away n code.now, part_seen C.least C.faults C.readings (part_of n code.now result))) h) }
{
    let workers = worker.workers;
    hold_out(
        rt,
        table,
        &mut worker.hand,
        &worker.program,
        code,
        workers,
        at,
    )
}

/// Tries once to hold a part that the worker doesn't hold, and moves it out of the hand. None where another worker held
/// it at that moment: then nothing changes. The only worker always holds it.
pub fn try_hold_at<A: Agent, C: Clock + Drop>(
    table: &Table<Pool<A, C>>,
    code: &ValidCode,
    worker: &mut Worker<A, C>,
    at: u64,
) -> Option<Contents<A, C>>
    requires one { (program : ProgramView) × (n : ℕ) × (h : Carries (Part A C × PartSeen A)) × (z : Place) × IsCarrying A.over A.stands program code.now table.now.id n worker.old h × IsPlace z × (at ≡ number_at n worker.old.number z) × (part_at z h ≡ None) × (at < part_count n) }
    ensures same { SameWorker worker.old worker.new }
    ensures turns { SameTurns worker.old.hand worker.new.hand }
    ensures entries { worker.new.entries ≡ worker.old.entries }
    ensures kind { IfSome result (λ x. kind_of_part (held_of (contents_seen C.least C.faults C.readings x)) ≡ kind_at worker.old.workers at) }
    ensures sound { IfSome result (λ x. IsSound A.over A.place (valid_code code.now) worker.old.workers at (held_of (contents_seen C.least C.faults C.readings x))) }
    ensures carries { IfSome result (λ x. (program : ProgramView) (n : ℕ) (h : Carries (Part A C × PartSeen A)) (z : Place) → IsCarrying A.over A.stands program code.now table.now.id n worker.old h → IsPlace z → at ≡ number_at n worker.old.number z → IsCarrying A.over A.stands program code.now table.now.id n worker.new (with_at z (Some (part_away n code.now, part_seen C.least C.faults C.readings (part_of n code.now x))) h)) }
    ensures busy { IfNone result ((program : ProgramView) (n : ℕ) (h : Carries (Part A C × PartSeen A)) → IsCarrying A.over A.stands program code.now table.now.id n worker.old h → IsCarrying A.over A.stands program code.now table.now.id n worker.new h) }
    ensures lone { IfNone result (hands_stood_for worker.old.hand.view < worker.old.hand.view.hands) }
{
    let workers = worker.workers;
    try_out(table, &mut worker.hand, &worker.program, code, workers, at)
}

/// The part that the worker holds there, as it is now.
pub fn look_at<A: Agent, C: Clock + Drop>(worker: &Worker<A, C>, at: u64) -> &Part<A, C>
    requires { IsHolding worker.now.hand at }
    ensures there { get_elem? worker.now.hand.parts at ≡ some (Some result.now) }
    ensures carries { (program : ProgramView) (code : ValidCode) (id : TableId) (n : ℕ) (h : Carries (Part A C × PartSeen A)) (z : Place) (x : Part A C) (c : PartSeen A) → IsCarrying A.over A.stands program code id n worker.now (with_at z (Some (x, c)) h) → IsPlace z → at ≡ number_at n worker.now.number z → result.now ≡ x }
{
    worker.hand.part(at)
}

/// The tasks of a ready part, held above all that the worker holds.
pub fn hold_ready<R: Wait, A: Agent, C: Clock + Drop>(
    rt: &R,
    table: &Table<Pool<A, C>>,
    code: &ValidCode,
    worker: &mut Worker<A, C>,
    at: u64,
) -> Ready<A>
    requires one { (program : ProgramView) × (n : ℕ) × IsOne A.over A.stands program (valid_code code.now) table.now.id n worker.old × (at < n) }
    requires ascending { (i : ℕ) → IsHolding worker.old.hand i → i < worker.old.workers + 33 + at }
    ensures same { SameWorker worker.old worker.new }
    ensures turns { SameTurns worker.old.hand worker.new.hand }
    ensures entries { worker.new.entries ≡ worker.old.entries }
    ensures over { AllOver A.over (valid_code code.now) (tasks_in result) }
    ensures carries { (program : ProgramView) (n : ℕ) (h : Carries (Part A C × PartSeen A)) → IsCarrying A.over A.stands program code.now table.now.id n worker.old h → IsCarrying A.over A.stands program code.now table.now.id n worker.new (with_ready n code.now at (tasks_in result) h) }
{
    let place = worker.workers + 33 + at;
    match hold_at(rt, table, code, worker, place) {
        Contents::Ready(ready) => ready,
        _ => unreachable!(),
    }
}

/// Puts a part back into the hand, as it is now.
pub fn put_at<A: Agent, C: Clock + Drop>(
    code: &ValidCode,
    worker: &mut Worker<A, C>,
    at: u64,
    contents: Contents<A, C>,
)
    requires { IsHolding worker.old.hand at }
    ensures same { SameWorker worker.old worker.new }
    ensures turns { SameTurns worker.old.hand worker.new.hand }
    ensures entries { worker.new.entries ≡ worker.old.entries }
    ensures carries { (program : ProgramView) (id : TableId) (n : ℕ) (h : Carries (Part A C × PartSeen A)) (z : Place) (y : Part A C) (c : PartSeen A) → IsCarrying A.over A.stands program code.now id n worker.old (with_at z (Some (y, c)) h) → IsPlace z → at ≡ number_at n worker.old.number z → IsCarrying A.over A.stands program code.now id n worker.new (with_at z (Some (part_of n code.now contents, c)) h) }
{
    let part = part_with(code, worker.workers, contents);
    // What stood there is `Away`, which has nothing to let go.
    let other = take_part::<Pool<A, C>>(&mut worker.hand, at, part);
    mem::forget(other);
}

/// Moves a part out of the hand again.
pub fn take_at<A: Agent, C: Clock + Drop>(
    code: &ValidCode,
    worker: &mut Worker<A, C>,
    at: u64,
) -> Contents<A, C>
    requires { IsHolding worker.old.hand at }
    ensures same { SameWorker worker.old worker.new }
    ensures turns { SameTurns worker.old.hand worker.new.hand }
    ensures entries { worker.new.entries ≡ worker.old.entries }
    ensures out { (x : Part A C) × (get_elem? worker.old.hand.parts at ≡ some (Some x)) × (x.contents ≡ result) }
    ensures carries { (program : ProgramView) (id : TableId) (n : ℕ) (h : Carries (Part A C × PartSeen A)) (z : Place) (y : Part A C) (c : PartSeen A) → IsCarrying A.over A.stands program code.now id n worker.old (with_at z (Some (y, c)) h) → IsPlace z → at ≡ number_at n worker.old.number z → IsCarrying A.over A.stands program code.now id n worker.new (with_at z (Some (part_away n code.now, c)) h) }
{
    let away = part_with(code, worker.workers, Contents::Away);
    let part = take_part::<Pool<A, C>>(&mut worker.hand, at, away);
    part.contents
}

/// The worker's own lane, moved out of the hand again.
pub fn take_lane<A: Agent, C: Clock + Drop>(
    code: &ValidCode,
    worker: &mut Worker<A, C>,
) -> Box<Lane<A>>
    requires lane { (program : ProgramView) × (id : TableId) × (n : ℕ) × (h : Carries (Part A C × PartSeen A)) × (l : LaneBox A) × (c : PartSeen A) × IsCarrying A.over A.stands program code.now id n worker.old (with_at lane_place (Some (part_of n code.now (V.Lane l), c)) h) }
    ensures same { SameWorker worker.old worker.new }
    ensures turns { SameTurns worker.old.hand worker.new.hand }
    ensures entries { worker.new.entries ≡ worker.old.entries }
    ensures carries { (program : ProgramView) (id : TableId) (n : ℕ) (h : Carries (Part A C × PartSeen A)) (l : LaneBox A) (c : PartSeen A) → IsCarrying A.over A.stands program code.now id n worker.old (with_at lane_place (Some (part_of n code.now (V.Lane l), c)) h) → (result ≡ l) × IsCarrying A.over A.stands program code.now id n worker.new (with_at lane_place (Some (part_away n code.now, c)) h) }
{
    let number = worker.number;
    match take_at(code, worker, number) {
        Contents::Lane(lane) => lane,
        _ => unreachable!(),
    }
}

/// Gives back a part that is settled.
pub fn give_at<A: Agent, C: Clock + Drop>(
    table: &Table<Pool<A, C>>,
    worker: &mut Worker<A, C>,
    at: u64,
)
    requires settled { (program : ProgramView) × (code : ValidCode) × (n : ℕ) × (h : Carries (Part A C × PartSeen A)) × (z : Place) × (x : Part A C) × IsCarrying A.over A.stands program code table.now.id n worker.old (with_at z (Some (x, part_seen C.least C.faults C.readings x)) h) × IsPlace z × (at ≡ number_at n worker.old.number z) }
    ensures same { SameWorker worker.old worker.new }
    ensures turns { SameTurns worker.old.hand worker.new.hand }
    ensures entries { worker.new.entries ≡ worker.old.entries }
    ensures carries { (program : ProgramView) (code : ValidCode) (n : ℕ) (h : Carries (Part A C × PartSeen A)) (z : Place) (o : Option (Part A C × PartSeen A)) → part_at z h ≡ None → IsCarrying A.over A.stands program code table.now.id n worker.old (with_at z o h) → IsPlace z → at ≡ number_at n worker.old.number z → IsCarrying A.over A.stands program code table.now.id n worker.new h }
{
    give(table, &mut worker.hand, at);
}

/// Draws the event, whose parts the worker carries as the event leaves them, and no other.
pub fn draw_carried<A: Agent, C: Clock + Drop>(
    table: &Table<Pool<A, C>>,
    worker: &mut Worker<A, C>,
    drawn: Drawn,
)
    requires carries { (program : ProgramView) × (code : ValidCode) × (n : ℕ) × (h : Carries (Part A C × PartSeen A)) × IsCarrying A.over A.stands program code table.now.id n worker.old h × IsMoved A.over A.place A.advances A.gives A.starts (part_seen C.least C.faults C.readings) code n worker.old.number (drawn_view drawn) h }
    requires code { drawn_code drawn ≡ valid_code worker.old.code.value }
    requires room { length (visible (turn_view drawn.what)) ≤ room worker.old.entries }
    requires turns { length worker.old.hand.view.turns < 2 ^ 59 }
    ensures same { SameWorker worker.old worker.new }
    ensures room { room worker.old.entries ≤ room worker.new.entries + length (visible (turn_view drawn.what)) }
    ensures hand { SameHand worker.old.hand worker.new.hand }
    ensures drew { (k : ℕ) × (before : List (PartSeen A)) × (after : List (PartSeen A)) × (worker.new.hand.view.turns ≡ worker.old.hand.view.turns ++ new_turn k drawn before after ∷ []) }
    ensures carries { (program : ProgramView) (code : ValidCode) (n : ℕ) (h : Carries (Part A C × PartSeen A)) → IsCarrying A.over A.stands program code table.now.id n worker.old h → IsMoved A.over A.place A.advances A.gives A.starts (part_seen C.least C.faults C.readings) code n worker.old.number (drawn_view drawn) h → IsCarrying A.over A.stands program code table.now.id n worker.new (each_by (settled_one (part_seen C.least C.faults C.readings)) h) }
{
    draw_event(table, worker, drawn);
}

/// Draws the event, whose parts the worker carries as the event leaves them, beside its lane, which it leaves alone.
/// Such an event allows that any part is held.
pub fn draw_beside<A: Agent, C: Clock + Drop>(
    table: &Table<Pool<A, C>>,
    worker: &mut Worker<A, C>,
    drawn: Drawn,
)
    requires carries { (program : ProgramView) × (code : ValidCode) × (n : ℕ) × (h : Carries (Part A C × PartSeen A)) × IsCarrying A.over A.stands program code table.now.id n worker.old h × IsMoved A.over A.place A.advances A.gives A.starts (part_seen C.least C.faults C.readings) code n worker.old.number (drawn_view drawn) (beside_lane h) }
    requires code { drawn_code drawn ≡ valid_code worker.old.code.value }
    requires allows { (i : ℕ) → drawn_allows drawn i }
    requires room { length (visible (turn_view drawn.what)) ≤ room worker.old.entries }
    requires turns { length worker.old.hand.view.turns < 2 ^ 59 }
    ensures same { SameWorker worker.old worker.new }
    ensures room { room worker.old.entries ≤ room worker.new.entries + length (visible (turn_view drawn.what)) }
    ensures hand { SameHand worker.old.hand worker.new.hand }
    ensures drew { (k : ℕ) × (before : List (PartSeen A)) × (after : List (PartSeen A)) × (worker.new.hand.view.turns ≡ worker.old.hand.view.turns ++ new_turn k drawn before after ∷ []) }
    ensures carries { (program : ProgramView) (code : ValidCode) (n : ℕ) (h : Carries (Part A C × PartSeen A)) → IsCarrying A.over A.stands program code table.now.id n worker.old h → IsMoved A.over A.place A.advances A.gives A.starts (part_seen C.least C.faults C.readings) code n worker.old.number (drawn_view drawn) (beside_lane h) → IsCarrying A.over A.stands program code table.now.id n worker.new (settled_beside (part_seen C.least C.faults C.readings) h) }
{
    draw_event(table, worker, drawn);
}
