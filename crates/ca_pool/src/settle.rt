// A channel that settles by itself.
ghost use Rattle.std.specs.Prelude.{◌≡◌, ℕ, ◌<◌, List, ◌∷◌, None, IfOk, IsSome, OnErr, OnOk, false, unwrap_or};
ghost use Rattle.ca_term.specs.Program.{ProgramView};
ghost use Rattle.ca_journal.specs.Merge.{entries, room};
ghost use Rattle.ca_commit.specs.Contents.{home, whole};
ghost use Rattle.ca_commit.specs.Finding.{serves};
ghost use Rattle.ca_commit.specs.Settling.{IsMadeToSettle, IsSettled, served_in};
ghost use Rattle.ca_commit.specs.Showing.{channels_held, waits_held};
ghost use Rattle.ca_commit.specs.Waking.{IsPaused, KeepsNumbers};
ghost use Rattle.ca_table.specs.Bearing.{ShowSame};
ghost use Rattle.ca_table.specs.Carriers.{IsCarrying, just_lane};
ghost use Rattle.ca_table.specs.Grips.{SameTurns};
ghost use Rattle.ca_table.specs.Parts.{part_seen};
ghost use Rattle.ca_table.specs.Worked.{Drew};
ghost use Rattle.ca_table.specs.Workers.{SameWorker};
ghost use Rattle.ca_table.specs.declared.part.Lane.{Lane};
ghost use Rattle.ca_alone.specs.Schedule.{Follow, MaySettle};
ghost use Rattle.ca_pool.specs.Desk.{IsBare, desk_taken};
ghost use Rattle.ca_pool.specs.Costs.{cost_settling};
ghost use Rattle.ca_pool.specs.Lone.{HasLooked, HasSettled, MayGo, Went};

use crate::cost::cost_of;
use crate::draw::draw_aside;
use crate::hold::{take_banks, take_ready, take_shards};
use crate::limits::check_turns;
use crate::prune::prune;
use crate::release::put_off;
use ca_agent::agent::Agent;
use ca_commit::held::Held;
use ca_commit::serving::{Serving, settle_of};
use ca_commit::settling::{SettleNext, reserve_settle, settle_next};
use ca_states::valid_code::ValidCode;
use ca_table::drawn::Turned;
use ca_table::homes::Homes;
use ca_table::noting::make_room;
use ca_table::pool::Pool;
use ca_table::worker::Worker;
use ca_term::event::{Event, Side, WaitId};
use ca_timers::clock::Clock;
use ca_turns::Table;
use ca_value::memory::OutOfMemory;
use ca_value::value::PortId;
use std::alloc::Global;
use std::sync::Wait;

/// What one look at a channel came to.
#[derive(Clone, Copy)]
pub(crate) enum Settling {
    Rests,
    /// A stale handler left its queue, or one more shard is wanted.
    Again,
    /// By an event of that cost.
    Settled(u64),
}

// Takes the bank of the channel, and these shards.
fn take_channel<R: Wait, A: Agent, C: Clock + Drop>(
    rt: &R,
    table: &Table<Pool<A, C>>,
    code: &ValidCode,
    worker: &mut Worker<A, C>,
    held: &mut Held<A>,
    port: PortId,
    shards: &Homes,
) -> Result<(), OutOfMemory>
    requires bare { IsBare held.old }
    requires carries { (program : ProgramView) × (n : ℕ) × (l : Lane A) × IsCarrying A.over A.stands program code.now table.now.id n worker.old (just_lane n code.now l) }
    ensures same { SameWorker worker.old worker.new }
    ensures drew { Drew 0 false worker.old worker.new }
    ensures bare { OnErr result (IsBare held.new) }
    ensures ready { held.new.ready ≡ None }
    ensures timers { held.new.timers ≡ None }
    ensures paused { (w : ℕ) → IsPaused A.place (whole (waits_held held.new.shards) w) }
    ensures carries { OnOk result ((program : ProgramView) (n : ℕ) (l : Lane A) → IsCarrying A.over A.stands program code.now table.now.id n worker.old (just_lane n code.now l) → IsCarrying A.over A.stands program code.now table.now.id n worker.new (desk_taken (part_seen C.least C.faults C.readings) n code.now worker.old.number l None held.new)) }
    ensures kept { OnErr result ((program : ProgramView) (n : ℕ) (l : Lane A) → IsCarrying A.over A.stands program code.now table.now.id n worker.old (just_lane n code.now l) → IsCarrying A.over A.stands program code.now table.now.id n worker.new (just_lane n code.now l)) }
    ensures turns { SameTurns worker.old.hand worker.new.hand }
    ensures bank { OnOk result (IsSome (channels_held held.new.banks (home port.n))) }
{
    let mut banks = Homes::none();
    banks.add(port.n);
    take_banks(rt, table, code, worker, &banks, held)?;
    match take_shards(rt, table, code, worker, shards, held) {
        Ok(()) => Ok(()),
        Err(refused) => {
            put_off(table, code, worker, held, None);
            Err(refused)
        }
    }
}

// Makes all that settling needs, and room for the event: what is held shows the same.
fn prepare<A: Agent, C: Clock + Drop>(
    alloc: Global,
    worker: &mut Worker<A, C>,
    held: &mut Held<A>,
    port: PortId,
) -> Result<(), OutOfMemory>
    requires paused { (w : ℕ) → IsPaused A.place (whole (waits_held held.old.shards) w) }
    requires ready { IsSome held.old.ready }
    ensures same { SameWorker worker.old worker.new }
    ensures hand { worker.new.hand ≡ worker.old.hand }
    ensures entries { entries worker.new.entries ≡ entries worker.old.entries }
    ensures shows { ShowSame held.old held.new }
    ensures shards { held.new.shards ≡ held.old.shards }
    ensures numbers { KeepsNumbers held.old held.new }
    ensures made { OnOk result (IsMadeToSettle A.place held.new port.n (served_in held.new port.n)) }
    ensures room { OnOk result (0 < room worker.new.entries) }
{
    make_room(worker)?;
    reserve_settle(alloc, held, port)
}

// The event by which the channel serves that branch of the wait, for which all is made.
fn settled_by<A: Agent>(
    held: &mut Held<A>,
    port: PortId,
    side: Side,
    wait: WaitId,
    branch: u64,
) -> Event
    requires serves { served_in held.old port.n ≡ serves side wait.n branch }
    requires paused { (w : ℕ) → IsPaused A.place (whole (waits_held held.old.shards) w) }
    requires made { IsMadeToSettle A.place held.old port.n (served_in held.old port.n) }
    ensures { IsSettled A.place A.gives held.old held.new port.n side wait.n branch result }
{
    match settle_next(held, port) {
        SettleNext::Settled(event) => event,
        _ => unreachable!(),
    }
}

// Settles the channel by the event for which all is made, and gives back all that is held. What the event cost.
fn draw_served<R: Wait, A: Agent, C: Clock + Drop>(
    rt: &R,
    table: &Table<Pool<A, C>>,
    code: &ValidCode,
    worker: &mut Worker<A, C>,
    held: &mut Held<A>,
    port: PortId,
    side: Side,
    wait: WaitId,
    branch: u64,
) -> u64
    requires carries { (program : ProgramView) × (n : ℕ) × (l : Lane A) × IsCarrying A.over A.stands program code.now table.now.id n worker.old (desk_taken (part_seen C.least C.faults C.readings) n code.now worker.old.number l None held.old) }
    requires serves { served_in held.old port.n ≡ serves side wait.n branch }
    requires paused { (w : ℕ) → IsPaused A.place (whole (waits_held held.old.shards) w) }
    requires made { IsMadeToSettle A.place held.old port.n (served_in held.old port.n) }
    requires ready { IsSome held.old.ready }
    requires timers { held.old.timers ≡ None }
    requires room { 0 < room worker.old.entries }
    ensures same { SameWorker worker.old worker.new }
    ensures bare { IsBare held.new }
    ensures drew { Drew result false worker.old worker.new }
    ensures carries { (program : ProgramView) (n : ℕ) (l : Lane A) → IsCarrying A.over A.stands program code.now table.now.id n worker.old (desk_taken (part_seen C.least C.faults C.readings) n code.now worker.old.number l None held.old) → IsCarrying A.over A.stands program code.now table.now.id n worker.new (just_lane n code.now l) }
    ensures solo { (k : Follow) (us : List ℕ) (most : ℕ) → MayGo A.over A.place A.stands A.advances A.gives A.starts code.now (MaySettle k (port.n ∷ us)) most worker.old → Went A.over A.place A.stands A.advances A.gives A.starts code.now (MaySettle k (port.n ∷ us)) most worker.new }
{
    check_turns(rt, worker);
    let event = settled_by(held, port, side, wait, branch);
    let cost = cost_of(rt, &event);
    draw_aside(table, code, worker, held, None, Turned::Shown(event));
    cost
}

// Settles the channel by serving that branch of the wait, and gives back all that is held.
fn serve_taken<R: Wait, A: Agent, C: Clock + Drop>(
    rt: &R,
    alloc: Global,
    table: &Table<Pool<A, C>>,
    code: &ValidCode,
    worker: &mut Worker<A, C>,
    held: &mut Held<A>,
    port: PortId,
    side: Side,
    wait: WaitId,
    branch: u64,
) -> Result<Settling, OutOfMemory>
    requires carries { (program : ProgramView) × (n : ℕ) × (l : Lane A) × IsCarrying A.over A.stands program code.now table.now.id n worker.old (desk_taken (part_seen C.least C.faults C.readings) n code.now worker.old.number l None held.old) }
    requires serves { served_in held.old port.n ≡ serves side wait.n branch }
    requires paused { (w : ℕ) → IsPaused A.place (whole (waits_held held.old.shards) w) }
    requires ready { held.old.ready ≡ None }
    requires timers { held.old.timers ≡ None }
    ensures same { SameWorker worker.old worker.new }
    ensures bare { IsBare held.new }
    ensures drew { IfOk result (λ s. Drew (cost_settling s) false worker.old worker.new) }
    ensures refused { OnErr result (Drew 0 false worker.old worker.new) }
    ensures carries { (program : ProgramView) (n : ℕ) (l : Lane A) → IsCarrying A.over A.stands program code.now table.now.id n worker.old (desk_taken (part_seen C.least C.faults C.readings) n code.now worker.old.number l None held.old) → IsCarrying A.over A.stands program code.now table.now.id n worker.new (just_lane n code.now l) }
    ensures solo { IfOk result (λ s. (k : Follow) (us : List ℕ) (most : ℕ) → MayGo A.over A.place A.stands A.advances A.gives A.starts code.now (MaySettle k (port.n ∷ us)) most worker.old → HasLooked A.over A.place A.stands A.advances A.gives A.starts code.now k port.n us most s worker.new) }
{
    take_ready(rt, table, code, worker, held);
    match prepare(alloc, worker, held, port) {
        Ok(()) => {
            let cost = draw_served(rt, table, code, worker, held, port, side, wait, branch);
            Ok(Settling::Settled(cost))
        }
        Err(refused) => {
            put_off(table, code, worker, held, None);
            Err(refused)
        }
    }
}

// Looks at the channel once, with these shards.
fn look_once<R: Wait, A: Agent, C: Clock + Drop>(
    rt: &R,
    alloc: Global,
    table: &Table<Pool<A, C>>,
    code: &ValidCode,
    worker: &mut Worker<A, C>,
    held: &mut Held<A>,
    port: PortId,
    shards: &mut Homes,
) -> Result<Settling, OutOfMemory>
    requires bare { IsBare held.old }
    requires carries { (program : ProgramView) × (n : ℕ) × (l : Lane A) × IsCarrying A.over A.stands program code.now table.now.id n worker.old (just_lane n code.now l) }
    ensures same { SameWorker worker.old worker.new }
    ensures bare { IsBare held.new }
    ensures drew { IfOk result (λ s. Drew (cost_settling s) false worker.old worker.new) }
    ensures refused { OnErr result (Drew 0 false worker.old worker.new) }
    ensures carries { (program : ProgramView) (n : ℕ) (l : Lane A) → IsCarrying A.over A.stands program code.now table.now.id n worker.old (just_lane n code.now l) → IsCarrying A.over A.stands program code.now table.now.id n worker.new (just_lane n code.now l) }
    ensures solo { IfOk result (λ s. (k : Follow) (us : List ℕ) (most : ℕ) → MayGo A.over A.place A.stands A.advances A.gives A.starts code.now (MaySettle k (port.n ∷ us)) most worker.old → HasLooked A.over A.place A.stands A.advances A.gives A.starts code.now k port.n us most s worker.new) }
{
    take_channel(rt, table, code, worker, held, port, shards)?;
    match settle_of(&held.banks, &held.shards, port) {
        Serving::Rests => {
            put_off(table, code, worker, held, None);
            Ok(Settling::Rests)
        }
        Serving::Unheld(wait) => {
            put_off(table, code, worker, held, None);
            shards.add(wait.n);
            Ok(Settling::Again)
        }
        Serving::Stale(side) => {
            prune(rt, table, code, worker, held, port, side, 0);
            Ok(Settling::Again)
        }
        Serving::Serves(side, wait, branch) => {
            serve_taken(
                rt, alloc, table, code, worker, held, port, side, wait, branch,
            )
        }
    }
}

/// Settles the channel once, by an event of that cost; None where it doesn't settle.
pub(crate) fn settle<R: Wait, A: Agent, C: Clock + Drop>(
    rt: &R,
    alloc: Global,
    table: &Table<Pool<A, C>>,
    code: &ValidCode,
    worker: &mut Worker<A, C>,
    held: &mut Held<A>,
    port: PortId,
) -> Result<Option<u64>, OutOfMemory>
    requires bare { IsBare held.old }
    requires carries { (program : ProgramView) × (n : ℕ) × (l : Lane A) × IsCarrying A.over A.stands program code.now table.now.id n worker.old (just_lane n code.now l) }
    ensures same { SameWorker worker.old worker.new }
    ensures bare { IsBare held.new }
    ensures drew { IfOk result (λ o. Drew (unwrap_or o 0) false worker.old worker.new) }
    ensures refused { OnErr result (Drew 0 false worker.old worker.new) }
    ensures carries { (program : ProgramView) (n : ℕ) (l : Lane A) → IsCarrying A.over A.stands program code.now table.now.id n worker.old (just_lane n code.now l) → IsCarrying A.over A.stands program code.now table.now.id n worker.new (just_lane n code.now l) }
    ensures solo { IfOk result (λ o. (k : Follow) (us : List ℕ) (most : ℕ) → MayGo A.over A.place A.stands A.advances A.gives A.starts code.now (MaySettle k (port.n ∷ us)) most worker.old → HasSettled A.over A.place A.stands A.advances A.gives A.starts code.now k port.n us most o worker.new) }
{
    let mut shards = Homes::none();
    for _ in rt.forever() {
        match look_once(rt, alloc, table, code, worker, held, port, &mut shards)? {
            Settling::Rests => return Ok(None),
            Settling::Again => {}
            Settling::Settled(cost) => return Ok(Some(cost)),
        }
    }
    unreachable!()
}
