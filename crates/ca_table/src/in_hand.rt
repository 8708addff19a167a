// Parts that were moved out of the hand lie in it again: an event is drawn over all that lies there, with the lane, and a
// part goes back as it was held.
ghost use Rattle.std.specs.Prelude.{◌≡◌, ℕ, ◌^◌, ◌<◌, ◌≤◌, ◌++◌, [], ◌∷◌, Some, None, false, length};
ghost use Rattle.ca_term.specs.Program.{ProgramView};
ghost use Rattle.ca_meaning.specs.Cost.{cost};
ghost use Rattle.ca_journal.specs.Merge.{room};
ghost use Rattle.ca_turns.specs.declared.rule.Turn.{Turn};
ghost use Rattle.ca_commit.specs.Moving.{visible};
ghost use Rattle.ca_table.specs.Carriers.{IsCarrying, IsMoved};
ghost use Rattle.ca_table.specs.Carrying.{Carries, IsPlace, Place, each_by, lane_place, number_at, part_at, with_at};
ghost use Rattle.ca_table.specs.Covering.{plain_drawn};
ghost use Rattle.ca_table.specs.Draws.{turn_view};
ghost use Rattle.ca_table.specs.Grips.{SameHand, SameTurns, settled_one};
ghost use Rattle.ca_table.specs.Parts.{part_away, part_of, part_seen};
ghost use Rattle.ca_table.specs.Seen.{PartSeen};
ghost use Rattle.ca_table.specs.Worked.{Drew, gives_up, finds_run_end};
ghost use Rattle.ca_table.specs.Workers.{SameWorker, part_of_lane};
ghost use Rattle.ca_table.specs.declared.drawn.Drawn.{Drawn};
ghost use Rattle.ca_table.specs.declared.part.Contents.TheVariants as V;
ghost use Rattle.ca_table.specs.declared.part.Part.{Part};

use crate::drawn::Turned;
use crate::handling::{draw_carried, give_at, put_at, take_lane};
use crate::part::{Contents, Lane};
use crate::pool::Pool;
use crate::silent::silent;
use crate::worker::Worker;
use ca_agent::agent::Agent;
use ca_states::valid_code::ValidCode;
use ca_timers::clock::Clock;
use ca_turns::Table;

/// Puts a part back into the hand as it was held, and gives it back.
pub fn leave_at<A: Agent, C: Clock + Drop>(
    table: &Table<Pool<A, C>>,
    code: &ValidCode,
    worker: &mut Worker<A, C>,
    at: u64,
    contents: Contents<A, C>,
)
    requires carries { (program : ProgramView) × (n : ℕ) × (h : Carries (Part A C × PartSeen A)) × (z : Place) × IsCarrying A.over A.stands program code.now table.now.id n worker.old (with_at z (Some (part_away n code.now, part_seen C.least C.faults C.readings (part_of n code.now contents))) h) × IsPlace z × (at ≡ number_at n worker.old.number z) }
    ensures same { SameWorker worker.old worker.new }
    ensures turns { SameTurns worker.old.hand worker.new.hand }
    ensures entries { worker.new.entries ≡ worker.old.entries }
    ensures carries { (program : ProgramView) (n : ℕ) (h : Carries (Part A C × PartSeen A)) (z : Place) → part_at z h ≡ None → IsCarrying A.over A.stands program code.now table.now.id n worker.old (with_at z (Some (part_away n code.now, part_seen C.least C.faults C.readings (part_of n code.now contents))) h) → IsPlace z → at ≡ number_at n worker.old.number z → IsCarrying A.over A.stands program code.now table.now.id n worker.new h }
{
    put_at(code, worker, at, contents);
    give_at(table, worker, at);
}

/// Draws an event that names all that it touches: the lane, which is laid into the hand for it, and all that lies there.
/// From then on that is settled as it is.
pub fn draw_with_lane<A: Agent, C: Clock + Drop>(
    table: &Table<Pool<A, C>>,
    code: &ValidCode,
    worker: &mut Worker<A, C>,
    lane: Box<Lane<A>>,
    what: Turned,
) -> Box<Lane<A>>
    requires carries { (program : ProgramView) × (n : ℕ) × (h : Carries (Part A C × PartSeen A)) × (l : PartSeen A) × IsCarrying A.over A.stands program code.now table.now.id n worker.old (with_at lane_place (Some (part_away n code.now, l)) h) × IsMoved A.over A.place A.advances A.gives A.starts (part_seen C.least C.faults C.readings) code.now n worker.old.number (plain_drawn worker.old.number n (turn_view what)) (with_at lane_place (Some (part_of n code.now (V.Lane lane), l)) h) }
    requires room { length (visible (turn_view what)) ≤ room worker.old.entries }
    requires turns { length worker.old.hand.view.turns < 2 ^ 59 }
    ensures same { SameWorker worker.old worker.new }
    ensures lane { result ≡ lane }
    ensures hand { SameHand worker.old.hand worker.new.hand }
    ensures turn { (t : Turn (PartSeen A) Drawn) × (worker.new.hand.view.turns ≡ worker.old.hand.view.turns ++ t ∷ []) × (t.event.what ≡ what) }
    ensures drew { gives_up (turn_view what) ≡ false → Drew (cost (visible (turn_view what))) (finds_run_end (turn_view what)) worker.old worker.new }
    ensures carries { (program : ProgramView) (n : ℕ) (h : Carries (Part A C × PartSeen A)) (l : PartSeen A) → IsCarrying A.over A.stands program code.now table.now.id n worker.old (with_at lane_place (Some (part_away n code.now, l)) h) → IsMoved A.over A.place A.advances A.gives A.starts (part_seen C.least C.faults C.readings) code.now n worker.old.number (plain_drawn worker.old.number n (turn_view what)) (with_at lane_place (Some (part_of n code.now (V.Lane lane), l)) h) → IsCarrying A.over A.stands program code.now table.now.id n worker.new (with_at lane_place (Some (part_away n code.now, part_of_lane n code.now lane.value)) (each_by (settled_one (part_seen C.least C.faults C.readings)) h)) }
{
    let number = worker.number;
    put_at(code, worker, number, Contents::Lane(lane));
    let drawn = silent(code, worker, what);
    draw_carried(table, worker, drawn);
    take_lane(code, worker)
}
