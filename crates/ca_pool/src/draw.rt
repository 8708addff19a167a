// A worker draws an event over what it moved out of its hand: it lays that back, draws, and gives it back.
ghost use Rattle.std.specs.Prelude.{◌≡◌, ℕ, ◌+◌, ◌^◌, ◌<◌, ◌≤◌, ◌++◌, ◌∷◌, [], Option, None, false, length, IfSome};
ghost use mathlib.Core.Option.{some};
ghost use lib.ListN.{get_elem?};
ghost use Rattle.ca_term.specs.Program.{ProgramView};
ghost use Rattle.ca_meaning.specs.Cost.{cost};
ghost use Rattle.ca_journal.specs.Merge.{room};
ghost use Rattle.ca_turns.specs.declared.rule.Turn.{Turn};
ghost use Rattle.ca_turns.specs.Views.{hands_stood_for};
ghost use Rattle.ca_commit.specs.Moving.{visible};
ghost use Rattle.ca_table.specs.Beside.{beside_lane, settled_beside};
ghost use Rattle.ca_table.specs.Carriers.{IsCarrying, just_lane};
ghost use Rattle.ca_table.specs.Carrying.{Carries, each_by};
ghost use Rattle.ca_table.specs.Draws.{MayHold, drawn_view, turn_view, drawn_touches};
ghost use Rattle.ca_table.specs.Grips.{SameHand, settled_one};
ghost use Rattle.ca_table.specs.Homes.{has_home, members};
ghost use Rattle.ca_table.specs.Needing.{drawn_with};
ghost use Rattle.ca_table.specs.Parts.{part_seen};
ghost use Rattle.ca_table.specs.Seen.{PartSeen};
ghost use Rattle.ca_table.specs.Worked.{Drew, gives_up, finds_run_end};
ghost use Rattle.ca_table.specs.Workers.{SameWorker};
ghost use Rattle.ca_table.specs.declared.drawn.Drawn.{Drawn};
ghost use Rattle.ca_table.specs.declared.part.Lane.{Lane};
ghost use Rattle.ca_table.specs.declared.part.Part.{Part};
ghost use Rattle.ca_table.specs.LoneHands.{left_now};
ghost use Rattle.ca_table.specs.declared.part.Contents.TheVariants.{Timers};
ghost use Rattle.ca_pool.specs.Desk.{ClockBox, IsBare, IsMovedWith, SameHeld, SameNumbers, all_laid, holds_banks, holds_shards, laid_aside, desk_taken, settled_as};

use crate::release::{Laid, give_back, lay_back};
use ca_agent::agent::Agent;
use ca_commit::held::Held;
use ca_states::valid_code::ValidCode;
use ca_table::drawn::{Drawn, Turned};
use ca_table::handling::{draw_beside, draw_carried, put_at, take_lane};
use ca_table::part::{Clockwork, Contents, Lane};
use ca_table::pool::Pool;
use ca_table::worker::Worker;
use ca_timers::clock::Clock;
use ca_turns::Table;
use std::snapshot::Snapshot;

// The event, with the banks and shards that lie in the hand for it.
fn drawn_by<A: Agent, C: Clock + Drop>(
    code: &ValidCode,
    worker: &Worker<A, C>,
    laid: &Laid,
    what: Turned,
) -> Drawn
    ensures code { result.code.value ≡ code.now }
    ensures what { result.what ≡ what }
    ensures view { drawn_view result ≡ drawn_with worker.now.number worker.now.workers (turn_view what) (members laid.now.banks) (members laid.now.shards) }
{
    Drawn {
        worker: worker.number,
        workers: worker.workers,
        what,
        ports: Snapshot::of(&laid.banks),
        looked: Snapshot::of(&laid.shards),
        code: Snapshot::of(code),
    }
}

// Draws the event over all that lies in the hand, the lane with it.
fn draw_laid<A: Agent, C: Clock + Drop>(
    table: &Table<Pool<A, C>>,
    code: &ValidCode,
    worker: &mut Worker<A, C>,
    laid: &Laid,
    what: Turned,
)
    requires carries { (program : ProgramView) × (n : ℕ) × (h : Carries (Part A C × PartSeen A)) × IsCarrying A.over A.stands program code.now table.now.id n worker.old h × IsMovedWith A.over A.place A.advances A.gives A.starts (part_seen C.least C.faults C.readings) code.now n worker.old.number (has_home laid.now.banks) (has_home laid.now.shards) (turn_view what) h }
    requires room { length (visible (turn_view what)) ≤ room worker.old.entries }
    requires turns { length worker.old.hand.view.turns < 2 ^ 59 }
    ensures same { SameWorker worker.old worker.new }
    ensures room { room worker.old.entries ≤ room worker.new.entries + length (visible (turn_view what)) }
    ensures hand { SameHand worker.old.hand worker.new.hand }
    ensures drew { (t : Turn (PartSeen A) Drawn) × (worker.new.hand.view.turns ≡ worker.old.hand.view.turns ++ t ∷ []) × (t.event.what ≡ what) }
    ensures carries { (program : ProgramView) (n : ℕ) (h : Carries (Part A C × PartSeen A)) → IsCarrying A.over A.stands program code.now table.now.id n worker.old h → IsMovedWith A.over A.place A.advances A.gives A.starts (part_seen C.least C.faults C.readings) code.now n worker.old.number (has_home laid.now.banks) (has_home laid.now.shards) (turn_view what) h → IsCarrying A.over A.stands program code.now table.now.id n worker.new (each_by (settled_one (part_seen C.least C.faults C.readings)) h) }
{
    let drawn = drawn_by(code, worker, laid, what);
    draw_carried(table, worker, drawn);
}

// Draws the event over all that lies in the hand, beside the lane.
fn draw_laid_aside<A: Agent, C: Clock + Drop>(
    table: &Table<Pool<A, C>>,
    code: &ValidCode,
    worker: &mut Worker<A, C>,
    laid: &Laid,
    what: Turned,
)
    requires carries { (program : ProgramView) × (n : ℕ) × (h : Carries (Part A C × PartSeen A)) × IsCarrying A.over A.stands program code.now table.now.id n worker.old h × IsMovedWith A.over A.place A.advances A.gives A.starts (part_seen C.least C.faults C.readings) code.now n worker.old.number (has_home laid.now.banks) (has_home laid.now.shards) (turn_view what) (beside_lane h) }
    requires allows { (i : ℕ) → MayHold worker.old.number worker.old.workers (turn_view what) i }
    requires room { length (visible (turn_view what)) ≤ room worker.old.entries }
    requires turns { length worker.old.hand.view.turns < 2 ^ 59 }
    ensures same { SameWorker worker.old worker.new }
    ensures room { room worker.old.entries ≤ room worker.new.entries + length (visible (turn_view what)) }
    ensures hand { SameHand worker.old.hand worker.new.hand }
    ensures drew { (t : Turn (PartSeen A) Drawn) × (worker.new.hand.view.turns ≡ worker.old.hand.view.turns ++ t ∷ []) × (t.event.what ≡ what) }
    ensures carries { (program : ProgramView) (n : ℕ) (h : Carries (Part A C × PartSeen A)) → IsCarrying A.over A.stands program code.now table.now.id n worker.old h → IsMovedWith A.over A.place A.advances A.gives A.starts (part_seen C.least C.faults C.readings) code.now n worker.old.number (has_home laid.now.banks) (has_home laid.now.shards) (turn_view what) (beside_lane h) → IsCarrying A.over A.stands program code.now table.now.id n worker.new (settled_beside (part_seen C.least C.faults C.readings) h) }
{
    let drawn = drawn_by(code, worker, laid, what);
    draw_beside(table, worker, drawn);
}

/// Draws an event that leaves the lane alone over what was moved out, and gives that back.
pub(crate) fn draw_aside<A: Agent, C: Clock + Drop>(
    table: &Table<Pool<A, C>>,
    code: &ValidCode,
    worker: &mut Worker<A, C>,
    held: &mut Held<A>,
    clock: Option<Box<Clockwork<C>>>,
    what: Turned,
)
    requires moved { (program : ProgramView) × (n : ℕ) × (l : Lane A) × (clock0 : Option (ClockBox C)) × (held0 : Held A) × IsCarrying A.over A.stands program code.now table.now.id n worker.old (desk_taken (part_seen C.least C.faults C.readings) n code.now worker.old.number l clock0 held0) × SameHeld clock0 clock held0 held.old × IsMovedWith A.over A.place A.advances A.gives A.starts (part_seen C.least C.faults C.readings) code.now n worker.old.number (holds_banks held.old) (holds_shards held.old) (turn_view what) (laid_aside (part_seen C.least C.faults C.readings) n code.now worker.old.number l clock0 held0 clock held.old) }
    requires allows { (i : ℕ) → MayHold worker.old.number worker.old.workers (turn_view what) i }
    requires room { length (visible (turn_view what)) ≤ room worker.old.entries }
    requires turns { length worker.old.hand.view.turns < 2 ^ 59 }
    requires timers { held.old.timers ≡ None }
    ensures same { SameWorker worker.old worker.new }
    ensures room { room worker.old.entries ≤ room worker.new.entries + length (visible (turn_view what)) }
    ensures hand { SameHand worker.old.hand worker.new.hand }
    ensures turns { (t : Turn (PartSeen A) Drawn) × (worker.new.hand.view.turns ≡ worker.old.hand.view.turns ++ t ∷ []) × (t.event.what ≡ what) }
    ensures drew { gives_up (turn_view what) ≡ false → Drew (cost (visible (turn_view what))) (finds_run_end (turn_view what)) worker.old worker.new }
    ensures bare { IsBare held.new }
    ensures numbers { SameNumbers held.old held.new }
    ensures carries { (program : ProgramView) (n : ℕ) (l : Lane A) (clock0 : Option (ClockBox C)) (held0 : Held A) → IsCarrying A.over A.stands program code.now table.now.id n worker.old (desk_taken (part_seen C.least C.faults C.readings) n code.now worker.old.number l clock0 held0) → SameHeld clock0 clock held0 held.old → IsMovedWith A.over A.place A.advances A.gives A.starts (part_seen C.least C.faults C.readings) code.now n worker.old.number (holds_banks held.old) (holds_shards held.old) (turn_view what) (laid_aside (part_seen C.least C.faults C.readings) n code.now worker.old.number l clock0 held0 clock held.old) → IsCarrying A.over A.stands program code.now table.now.id n worker.new (just_lane n code.now l) }
    ensures timed { (program : ProgramView) (n : ℕ) (l : Lane A) (clock0 : Option (ClockBox C)) (held0 : Held A) → IsCarrying A.over A.stands program code.now table.now.id n worker.old (desk_taken (part_seen C.least C.faults C.readings) n code.now worker.old.number l clock0 held0) → SameHeld clock0 clock held0 held.old → IsMovedWith A.over A.place A.advances A.gives A.starts (part_seen C.least C.faults C.readings) code.now n worker.old.number (holds_banks held.old) (holds_shards held.old) (turn_view what) (laid_aside (part_seen C.least C.faults C.readings) n code.now worker.old.number l clock0 held0 clock held.old) → hands_stood_for worker.old.hand.view ≡ worker.old.hand.view.hands → IfSome clock (λ t. get_elem? (left_now drawn_touches worker.new.hand.view) (n + 32) ≡ some (settled_as (part_seen C.least C.faults C.readings) n code.now (Timers t))) }
{
    let laid = lay_back(code, worker, held, clock);
    draw_laid_aside(table, code, worker, &laid, what);
    give_back(table, worker, &laid);
}

/// Draws an event of the lane's task over the lane and what was moved out, and gives the others back.
pub(crate) fn draw_turn<A: Agent, C: Clock + Drop>(
    table: &Table<Pool<A, C>>,
    code: &ValidCode,
    worker: &mut Worker<A, C>,
    held: &mut Held<A>,
    clock: Option<Box<Clockwork<C>>>,
    lane: Box<Lane<A>>,
    what: Turned,
) -> Box<Lane<A>>
    requires moved { (program : ProgramView) × (n : ℕ) × (l : Lane A) × (clock0 : Option (ClockBox C)) × (held0 : Held A) × IsCarrying A.over A.stands program code.now table.now.id n worker.old (desk_taken (part_seen C.least C.faults C.readings) n code.now worker.old.number l clock0 held0) × SameHeld clock0 clock held0 held.old × IsMovedWith A.over A.place A.advances A.gives A.starts (part_seen C.least C.faults C.readings) code.now n worker.old.number (holds_banks held.old) (holds_shards held.old) (turn_view what) (all_laid (part_seen C.least C.faults C.readings) n code.now worker.old.number l lane clock0 held0 clock held.old) }
    requires room { length (visible (turn_view what)) ≤ room worker.old.entries }
    requires turns { length worker.old.hand.view.turns < 2 ^ 59 }
    requires timers { held.old.timers ≡ None }
    ensures same { SameWorker worker.old worker.new }
    ensures room { room worker.old.entries ≤ room worker.new.entries + length (visible (turn_view what)) }
    ensures hand { SameHand worker.old.hand worker.new.hand }
    ensures turns { (t : Turn (PartSeen A) Drawn) × (worker.new.hand.view.turns ≡ worker.old.hand.view.turns ++ t ∷ []) × (t.event.what ≡ what) }
    ensures drew { gives_up (turn_view what) ≡ false → Drew (cost (visible (turn_view what))) (finds_run_end (turn_view what)) worker.old worker.new }
    ensures bare { IsBare held.new }
    ensures numbers { SameNumbers held.old held.new }
    ensures lane { result ≡ lane }
    ensures carries { (program : ProgramView) (n : ℕ) (l : Lane A) (clock0 : Option (ClockBox C)) (held0 : Held A) → IsCarrying A.over A.stands program code.now table.now.id n worker.old (desk_taken (part_seen C.least C.faults C.readings) n code.now worker.old.number l clock0 held0) → SameHeld clock0 clock held0 held.old → IsMovedWith A.over A.place A.advances A.gives A.starts (part_seen C.least C.faults C.readings) code.now n worker.old.number (holds_banks held.old) (holds_shards held.old) (turn_view what) (all_laid (part_seen C.least C.faults C.readings) n code.now worker.old.number l lane clock0 held0 clock held.old) → IsCarrying A.over A.stands program code.now table.now.id n worker.new (just_lane n code.now lane.value) }
{
    let laid = lay_back(code, worker, held, clock);
    let number = worker.number;
    put_at(code, worker, number, Contents::Lane(lane));
    draw_laid(table, code, worker, &laid, what);
    give_back(table, worker, &laid);
    take_lane(code, worker)
}
