// Parts that were moved out for an event: a worker lays them back into its hand, as they are, and gives them back.
ghost use Rattle.std.specs.Prelude.{◌≡◌, ℕ, ◌<◌, [], Option, None, is_some};
ghost use Rattle.ca_term.specs.Program.{ProgramView};
ghost use Rattle.ca_turns.specs.Hands.{TableId};
ghost use Rattle.ca_commit.specs.Listings.{parts};
ghost use Rattle.ca_table.specs.Carriers.{IsCarrying, just_lane};
ghost use Rattle.ca_table.specs.Carrying.{Carries, IsPlace, Place, lane_place, nothing_carried, number_at, part_at, ready_place, timers_place, with_at};
ghost use Rattle.ca_table.specs.Grips.{SameTurns};
ghost use Rattle.ca_table.specs.Lifting.{SettledIf, laid_back};
ghost use Rattle.ca_table.specs.Parts.{part_seen};
ghost use Rattle.ca_table.specs.Seen.{PartSeen};
ghost use Rattle.ca_table.specs.Workers.{SameWorker};
ghost use Rattle.ca_table.specs.declared.part.Contents.TheVariants as V;
ghost use Rattle.ca_table.specs.declared.part.Lane.{Lane};
ghost use Rattle.ca_table.specs.declared.part.Part.{Part};
ghost use Rattle.ca_pool.specs.Desk.{AreLaid, ClockBox, IsBare, SameHeld, SameNumbers, TellsOf, desk, laid_again, desk_taken};

use ca_agent::agent::Agent;
use ca_commit::held::Held;
use ca_commit::task::Ready;
use ca_states::valid_code::ValidCode;
use ca_table::handling::{give_at, put_at};
use ca_table::homes::Homes;
use ca_table::lifting::{give_all, unload};
use ca_table::part::{Clockwork, Contents};
use ca_table::pool::Pool;
use ca_table::worker::Worker;
use ca_timers::clock::Clock;
use ca_turns::Table;

/// Which parts lie in the hand again after an event, beside the lane.
#[derive(Clone, Copy)]
pub(crate) struct Laid {
    pub(crate) banks: Homes,
    pub(crate) shards: Homes,
    pub(crate) timers: bool,
    pub(crate) ready: bool,
}

// The worker's own ready part lies in the hand again, if it was moved out; whether it was.
fn lay_ready<A: Agent, C: Clock + Drop>(
    code: &ValidCode,
    worker: &mut Worker<A, C>,
    ready: Option<Ready<A>>,
) -> bool
    requires carries { (program : ProgramView) × (id : TableId) × (n : ℕ) × (h : Carries (Part A C × PartSeen A)) × (was : Option (PartSeen A)) × (is_some was ≡ is_some ready) × IsCarrying A.over A.stands program code.now id n worker.old (with_at (ready_place worker.old.number) (laid_back n code.now V.Ready None was) h) }
    ensures there { result ≡ is_some ready }
    ensures same { SameWorker worker.old worker.new }
    ensures turns { SameTurns worker.old.hand worker.new.hand }
    ensures entries { worker.new.entries ≡ worker.old.entries }
    ensures carries { (program : ProgramView) (id : TableId) (n : ℕ) (h : Carries (Part A C × PartSeen A)) (was : Option (PartSeen A)) → is_some was ≡ is_some ready → IsCarrying A.over A.stands program code.now id n worker.old (with_at (ready_place worker.old.number) (laid_back n code.now V.Ready None was) h) → IsCarrying A.over A.stands program code.now id n worker.new (with_at (ready_place worker.old.number) (laid_back n code.now V.Ready ready was) h) }
{
    match ready {
        Some(ready) => {
            let place = worker.workers + 33 + worker.number;
            put_at(code, worker, place, Contents::Ready(ready));
            true
        }
        None => false,
    }
}

// The clockwork lies in the hand again, if it was moved out; whether it was.
fn lay_timers<A: Agent, C: Clock + Drop>(
    code: &ValidCode,
    worker: &mut Worker<A, C>,
    clock: Option<Box<Clockwork<C>>>,
) -> bool
    requires carries { (program : ProgramView) × (id : TableId) × (n : ℕ) × (h : Carries (Part A C × PartSeen A)) × (was : Option (PartSeen A)) × (is_some was ≡ is_some clock) × IsCarrying A.over A.stands program code.now id n worker.old (with_at timers_place (laid_back n code.now V.Timers None was) h) }
    ensures there { result ≡ is_some clock }
    ensures same { SameWorker worker.old worker.new }
    ensures turns { SameTurns worker.old.hand worker.new.hand }
    ensures entries { worker.new.entries ≡ worker.old.entries }
    ensures carries { (program : ProgramView) (id : TableId) (n : ℕ) (h : Carries (Part A C × PartSeen A)) (was : Option (PartSeen A)) → is_some was ≡ is_some clock → IsCarrying A.over A.stands program code.now id n worker.old (with_at timers_place (laid_back n code.now V.Timers None was) h) → IsCarrying A.over A.stands program code.now id n worker.new (with_at timers_place (laid_back n code.now V.Timers clock was) h) }
{
    match clock {
        Some(clockwork) => {
            let place = worker.workers + 32;
            put_at(code, worker, place, Contents::Timers(clockwork));
            true
        }
        None => false,
    }
}

/// All that was moved out but the lane lies in the hand again, as it is now; which parts these are.
pub(crate) fn lay_back<A: Agent, C: Clock + Drop>(
    code: &ValidCode,
    worker: &mut Worker<A, C>,
    held: &mut Held<A>,
    clock: Option<Box<Clockwork<C>>>,
) -> Laid
    requires carries { (program : ProgramView) × (id : TableId) × (n : ℕ) × (l : Lane A) × (clock0 : Option (ClockBox C)) × (held0 : Held A) × SameHeld clock0 clock held0 held.old × IsCarrying A.over A.stands program code.now id n worker.old (desk_taken (part_seen C.least C.faults C.readings) n code.now worker.old.number l clock0 held0) }
    ensures same { SameWorker worker.old worker.new }
    ensures turns { SameTurns worker.old.hand worker.new.hand }
    ensures entries { worker.new.entries ≡ worker.old.entries }
    ensures tells { TellsOf result (is_some clock) held.old }
    ensures banks { parts held.new.banks ≡ [] }
    ensures shards { parts held.new.shards ≡ [] }
    ensures ready { held.new.ready ≡ None }
    ensures timers { held.new.timers ≡ held.old.timers }
    ensures numbers { SameNumbers held.old held.new }
    ensures carries { (program : ProgramView) (id : TableId) (n : ℕ) (l : Lane A) (clock0 : Option (ClockBox C)) (held0 : Held A) → SameHeld clock0 clock held0 held.old → IsCarrying A.over A.stands program code.now id n worker.old (desk_taken (part_seen C.least C.faults C.readings) n code.now worker.old.number l clock0 held0) → IsCarrying A.over A.stands program code.now id n worker.new (laid_again (part_seen C.least C.faults C.readings) n code.now worker.old.number l clock0 held0 clock held.old) }
{
    let banks = unload(code, worker, &mut held.banks);
    let shards = unload(code, worker, &mut held.shards);
    let ready = lay_ready(code, worker, held.ready.take());
    let timers = lay_timers(code, worker, clock);
    Laid {
        banks,
        shards,
        timers,
        ready,
    }
}

// Gives the part back, if it is said to be there; it is settled as it is.
fn give_if<A: Agent, C: Clock + Drop>(
    table: &Table<Pool<A, C>>,
    worker: &mut Worker<A, C>,
    at: u64,
    there: bool,
)
    requires settled { (program : ProgramView) × (code : ValidCode) × (n : ℕ) × (h : Carries (Part A C × PartSeen A)) × (z : Place) × (o : Option (Part A C × PartSeen A)) × SettledIf (part_seen C.least C.faults C.readings) there o × IsCarrying A.over A.stands program code table.now.id n worker.old (with_at z o h) × IsPlace z × (at ≡ number_at n worker.old.number z) }
    ensures same { SameWorker worker.old worker.new }
    ensures turns { SameTurns worker.old.hand worker.new.hand }
    ensures entries { worker.new.entries ≡ worker.old.entries }
    ensures carries { (program : ProgramView) (code : ValidCode) (n : ℕ) (h : Carries (Part A C × PartSeen A)) (z : Place) (o : Option (Part A C × PartSeen A)) → SettledIf (part_seen C.least C.faults C.readings) there o → part_at z h ≡ None → IsCarrying A.over A.stands program code table.now.id n worker.old (with_at z o h) → IsPlace z → at ≡ number_at n worker.old.number z → IsCarrying A.over A.stands program code table.now.id n worker.new h }
{
    if there {
        give_at(table, worker, at);
    }
}

/// Gives back all that lies in the hand again but the lane, settled as it is.
pub(crate) fn give_back<A: Agent, C: Clock + Drop>(
    table: &Table<Pool<A, C>>,
    worker: &mut Worker<A, C>,
    laid: &Laid,
)
    requires carries { (program : ProgramView) × (code : ValidCode) × (n : ℕ) × (lane : Option (Part A C × PartSeen A)) × (banks : ℕ → Option (Part A C × PartSeen A)) × (shards : ℕ → Option (Part A C × PartSeen A)) × (timers : Option (Part A C × PartSeen A)) × (ready : Option (Part A C × PartSeen A)) × AreLaid (part_seen C.least C.faults C.readings) laid.now banks shards timers ready × IsCarrying A.over A.stands program code table.now.id n worker.old (desk worker.old.number lane banks shards timers ready) }
    ensures same { SameWorker worker.old worker.new }
    ensures turns { SameTurns worker.old.hand worker.new.hand }
    ensures entries { worker.new.entries ≡ worker.old.entries }
    ensures carries { (program : ProgramView) (code : ValidCode) (n : ℕ) (lane : Option (Part A C × PartSeen A)) (banks : ℕ → Option (Part A C × PartSeen A)) (shards : ℕ → Option (Part A C × PartSeen A)) (timers : Option (Part A C × PartSeen A)) (ready : Option (Part A C × PartSeen A)) → AreLaid (part_seen C.least C.faults C.readings) laid.now banks shards timers ready → IsCarrying A.over A.stands program code table.now.id n worker.old (desk worker.old.number lane banks shards timers ready) → IsCarrying A.over A.stands program code table.now.id n worker.new (with_at lane_place lane nothing_carried) }
{
    let workers = worker.workers;
    let number = worker.number;
    give_all(table, worker, workers, &laid.banks);
    give_all(table, worker, workers + 16, &laid.shards);
    give_if(table, worker, workers + 32, laid.timers);
    give_if(table, worker, workers + 33 + number, laid.ready);
}

/// Lays all that was moved out but the lane back as it was, and gives it back.
pub(crate) fn put_off<A: Agent, C: Clock + Drop>(
    table: &Table<Pool<A, C>>,
    code: &ValidCode,
    worker: &mut Worker<A, C>,
    held: &mut Held<A>,
    clock: Option<Box<Clockwork<C>>>,
)
    requires carries { (program : ProgramView) × (n : ℕ) × (l : Lane A) × IsCarrying A.over A.stands program code.now table.now.id n worker.old (desk_taken (part_seen C.least C.faults C.readings) n code.now worker.old.number l clock held.old) }
    requires timers { held.old.timers ≡ None }
    ensures same { SameWorker worker.old worker.new }
    ensures turns { SameTurns worker.old.hand worker.new.hand }
    ensures entries { worker.new.entries ≡ worker.old.entries }
    ensures bare { IsBare held.new }
    ensures numbers { SameNumbers held.old held.new }
    ensures carries { (program : ProgramView) (n : ℕ) (l : Lane A) → IsCarrying A.over A.stands program code.now table.now.id n worker.old (desk_taken (part_seen C.least C.faults C.readings) n code.now worker.old.number l clock held.old) → IsCarrying A.over A.stands program code.now table.now.id n worker.new (just_lane n code.now l) }
{
    let laid = lay_back(code, worker, held, clock);
    give_back(table, worker, &laid);
}
