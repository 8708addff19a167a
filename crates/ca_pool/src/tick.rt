// A tick: the timeouts that are due are closed, where their banks are free.
ghost use Rattle.std.specs.Prelude.{◌≡◌, ◌≢◌, ℕ, ◌+◌, ◌<◌, ◌≤◌, ◌^◌, [], Some, None, IfNone, IfOk, IfSome, OnErr, OnOk, false, true, List};
ghost use Rattle.ca_value.specs.Deadlines.{due};
ghost use Rattle.ca_term.specs.Event.{event_view, ticked};
ghost use Rattle.ca_term.specs.Program.{ProgramView};
ghost use Rattle.ca_journal.specs.Merge.{room};
ghost use Rattle.ca_commit.specs.NewPort.{KeepsCounts};
ghost use Rattle.ca_commit.specs.Running.{Placed};
ghost use Rattle.ca_commit.specs.Showing.{channels_held, registries_held};
ghost use Rattle.ca_commit.specs.Ticking.{closed_all};
ghost use Rattle.ca_commit.specs.declared.held.Held.{Held};
ghost use Rattle.ca_table.specs.Carriers.{IsCarrying, just_lane};
ghost use Rattle.ca_table.specs.Parts.{clockwork_seen, part_seen};
ghost use Rattle.ca_table.specs.Worked.{Drew};
ghost use Rattle.ca_table.specs.Workers.{SameWorker};
ghost use Rattle.ca_table.specs.declared.part.Lane.{Lane};
ghost use Rattle.ca_solo.specs.Stirs.{Ordered};
ghost use Rattle.ca_alone.specs.OwnTurn.{IsDue};
ghost use Rattle.ca_alone.specs.Schedule.{Follow, MaySettle, MayTick};
ghost use Rattle.ca_pool.specs.Asking.{HasBanksOf, HasHomes, IsAsked, AreDuePortsMade, moment_passed};
ghost use Rattle.ca_pool.specs.Costs.{cost_asked, is_marked};
ghost use Rattle.ca_pool.specs.Desk.{ClockBox, IsBare, desk_taken};
ghost use Rattle.ca_pool.specs.Lone.{MayGo, Went};
ghost use Rattle.ca_pool.specs.declared.clock.Asked.TheVariants.{Ticked};

use crate::clock::{Asked, draw_clock};
use crate::cost::cost_of;
use crate::draw::draw_aside;
use crate::hold::try_banks;
use crate::limits::check_turns;
use ca_agent::agent::Agent;
use ca_commit::clock::{reserve_tick, tick};
use ca_commit::held::Held;
use ca_states::valid_code::ValidCode;
use ca_table::drawn::Turned;
use ca_table::homes::Homes;
use ca_table::part::Clockwork;
use ca_table::pool::Pool;
use ca_table::waiting::wait_for_good;
use ca_table::worker::Worker;
use ca_term::event::Event;
use ca_timers::clock::Clock;
use ca_timers::timers::Timers;
use ca_turns::Table;
use ca_value::memory::OutOfMemory;
use std::alloc::Global;
use std::mem;
use std::sync::Wait;

// The timers move into what is held.
fn lend_timers<A: Agent, C: Clock + Drop>(
    alloc: Global,
    held: &mut Held<A>,
    mut clockwork: Box<Clockwork<C>>,
) -> Box<Clockwork<C>>
    ensures timers { held.new.timers ≡ Some clockwork.value.timers }
    ensures banks { held.new.banks ≡ held.old.banks }
    ensures shards { held.new.shards ≡ held.old.shards }
    ensures ready { held.new.ready ≡ held.old.ready }
    ensures ports { held.new.spare.ports ≡ held.old.spare.ports }
    ensures counts { KeepsCounts held.old held.new }
    ensures clock { result.value.clock ≡ clockwork.value.clock }
    ensures mark { result.value.mark ≡ clockwork.value.mark }
{
    held.timers = Some(mem::replace(&mut clockwork.timers, Timers::new(alloc)));
    clockwork
}

// They move back.
fn return_timers<A: Agent, C: Clock + Drop>(
    held: &mut Held<A>,
    mut clockwork: Box<Clockwork<C>>,
) -> Box<Clockwork<C>>
    ensures timers { held.new.timers ≡ None }
    ensures back { IfSome held.old.timers (λ t. result.value.timers ≡ t) }
    ensures banks { held.new.banks ≡ held.old.banks }
    ensures shards { held.new.shards ≡ held.old.shards }
    ensures ready { held.new.ready ≡ held.old.ready }
    ensures ports { held.new.spare.ports ≡ held.old.spare.ports }
    ensures counts { KeepsCounts held.old held.new }
    ensures clock { result.value.clock ≡ clockwork.value.clock }
    ensures mark { result.value.mark ≡ clockwork.value.mark }
{
    if let Some(timers) = held.timers.take() {
        clockwork.timers = timers;
    }
    clockwork
}

// Makes the list of the ports that are due.
fn reserve_due<A: Agent, C: Clock + Drop>(
    alloc: Global,
    held: &mut Held<A>,
    clockwork: Box<Clockwork<C>>,
    now: u64,
) -> (Box<Clockwork<C>>, Result<(), OutOfMemory>)
    ensures seen { clockwork_seen C.least C.faults C.readings result.0.value ≡ clockwork_seen C.least C.faults C.readings clockwork.value }
    ensures timers { held.new.timers ≡ None }
    ensures banks { held.new.banks ≡ held.old.banks }
    ensures shards { held.new.shards ≡ held.old.shards }
    ensures ready { held.new.ready ≡ held.old.ready }
    ensures made { OnOk result.1 (AreDuePortsMade held.new (clockwork_seen C.least C.faults C.readings clockwork.value) now) }
{
    let clockwork = lend_timers(alloc, held, clockwork);
    let made = reserve_tick(alloc, held, now);
    (return_timers(held, clockwork), made)
}

// The banks of the ports that are due; `ports` has these ports then, in order of number.
fn banks_due<R: Wait>(
    rt: &R,
    timers: &Timers,
    now: u64,
    ports: &mut Vec<u64>,
) -> Result<Homes, OutOfMemory>
    ensures homes { IfOk result (λ homes. HasHomes homes (due now timers.now.deadlines)) }
    ensures ordered { IfOk result (λ homes. Ordered (due now timers.now.deadlines) ports.new.items) }
{
    let mut banks = Homes::none();
    ports.clear();
    for place in 0..u64::MAX {
        match timers.due(now, place) {
            Some(port) => {
                banks.add(port.n);
                ports.push(port.n)?;
            }
            None => {
                ports.sort_unstable();
                return Ok(banks);
            }
        }
    }
    // No list is as long as that.
    wait_for_good(rt);
    unreachable!()
}

// The tick of that moment, over what is held and the timers; None where nothing is due.
fn tick_over<A: Agent, C: Clock + Drop>(
    alloc: Global,
    held: &mut Held<A>,
    clockwork: Box<Clockwork<C>>,
    now: u64,
) -> (Box<Clockwork<C>>, Option<Event>)
    requires later { clockwork.value.timers.moment ≤ now }
    requires made { AreDuePortsMade held.old (clockwork_seen C.least C.faults C.readings clockwork.value) now }
    ensures some { IfSome result.1 (λ e. (event_view e ≡ ticked now (due now clockwork.value.timers.deadlines)) × (due now clockwork.value.timers.deadlines ≢ []) × (clockwork_seen C.least C.faults C.readings result.0.value ≡ moment_passed now (clockwork_seen C.least C.faults C.readings clockwork.value))) }
    ensures none { IfNone result.1 ((due now clockwork.value.timers.deadlines ≡ []) × (clockwork_seen C.least C.faults C.readings result.0.value ≡ clockwork_seen C.least C.faults C.readings clockwork.value)) }
    ensures channels { (i : ℕ) → channels_held held.new.banks i ≡ closed_all (due now clockwork.value.timers.deadlines) (channels_held held.old.banks) i }
    ensures registries { (i : ℕ) → registries_held held.new.banks i ≡ registries_held held.old.banks i }
    ensures shards { held.new.shards ≡ held.old.shards }
    ensures ready { held.new.ready ≡ held.old.ready }
    ensures timers { held.new.timers ≡ None }
{
    let clockwork = lend_timers(alloc, held, clockwork);
    let event = tick(held, now);
    (return_timers(held, clockwork), event)
}

// Draws the tick of that moment over the timers and the banks of the ports that are due, and gives all that back.
fn draw_tick<R: Wait, A: Agent, C: Clock + Drop>(
    rt: &R,
    alloc: Global,
    table: &Table<Pool<A, C>>,
    code: &ValidCode,
    worker: &mut Worker<A, C>,
    held: &mut Held<A>,
    clockwork: Box<Clockwork<C>>,
    now: u64,
) -> Asked
    requires carries { (program : ProgramView) × (n : ℕ) × (l : Lane A) × (clock0 : ClockBox C) × IsCarrying A.over A.stands program code.now table.now.id n worker.old (desk_taken (part_seen C.least C.faults C.readings) n code.now worker.old.number l (Some clock0) held.old) × IsAsked now (clockwork_seen C.least C.faults C.readings clock0.value) (clockwork_seen C.least C.faults C.readings clockwork.value) }
    requires made { AreDuePortsMade held.old (clockwork_seen C.least C.faults C.readings clockwork.value) now }
    requires there { HasBanksOf held.old (due now clockwork.value.timers.deadlines) }
    requires placed { Placed (channels_held held.old.banks) }
    requires room { 0 < room worker.old.entries }
    requires ready { held.old.ready ≡ None }
    requires timers { held.old.timers ≡ None }
    ensures same { SameWorker worker.old worker.new }
    ensures bare { IsBare held.new }
    ensures drew { Drew (cost_asked result) (is_marked result) worker.old worker.new }
    ensures carries { (program : ProgramView) (n : ℕ) (l : Lane A) (clock0 : ClockBox C) → IsCarrying A.over A.stands program code.now table.now.id n worker.old (desk_taken (part_seen C.least C.faults C.readings) n code.now worker.old.number l (Some clock0) held.old) → IsAsked now (clockwork_seen C.least C.faults C.readings clock0.value) (clockwork_seen C.least C.faults C.readings clockwork.value) → IsCarrying A.over A.stands program code.now table.now.id n worker.new (just_lane n code.now l) }
    ensures solo { (k : Follow) (us : List ℕ) (most : ℕ) → IsDue clockwork.value.timers.deadlines now → Ordered (due now clockwork.value.timers.deadlines) us → MayGo A.over A.place A.stands A.advances A.gives A.starts code.now (MayTick k) most worker.old → (cost : ℕ) × (result ≡ Ticked cost) × Went A.over A.place A.stands A.advances A.gives A.starts code.now (MaySettle k us) most worker.new }
{
    check_turns(rt, worker);
    let (clockwork, ticked) = tick_over(alloc, held, clockwork, now);
    match ticked {
        Some(event) => {
            let cost = cost_of(rt, &event);
            draw_aside(
                table,
                code,
                worker,
                held,
                Some(clockwork),
                Turned::Shown(event),
            );
            Asked::Ticked(cost)
        }
        None => {
            draw_clock(rt, table, code, worker, held, clockwork, Turned::Read);
            Asked::Nothing
        }
    }
}

/// The clock has answered that moment: closes what is due, if the banks are free. `ports` has the closed channels then, in
/// order of number.
pub(crate) fn pass<R: Wait, A: Agent, C: Clock + Drop>(
    rt: &R,
    alloc: Global,
    table: &Table<Pool<A, C>>,
    code: &ValidCode,
    worker: &mut Worker<A, C>,
    held: &mut Held<A>,
    clockwork: Box<Clockwork<C>>,
    now: u64,
    ports: &mut Vec<u64>,
) -> Result<Asked, OutOfMemory>
    requires bare { IsBare held.old }
    requires carries { (program : ProgramView) × (n : ℕ) × (l : Lane A) × (clock0 : ClockBox C) × IsCarrying A.over A.stands program code.now table.now.id n worker.old (desk_taken (part_seen C.least C.faults C.readings) n code.now worker.old.number l (Some clock0) held.old) × IsAsked now (clockwork_seen C.least C.faults C.readings clock0.value) (clockwork_seen C.least C.faults C.readings clockwork.value) }
    requires room { 0 < room worker.old.entries }
    ensures same { SameWorker worker.old worker.new }
    ensures bare { IsBare held.new }
    ensures drew { IfOk result (λ a. Drew (cost_asked a) (is_marked a) worker.old worker.new) }
    ensures refused { OnErr result (Drew 0 false worker.old worker.new) }
    ensures carries { (program : ProgramView) (n : ℕ) (l : Lane A) (clock0 : ClockBox C) → IsCarrying A.over A.stands program code.now table.now.id n worker.old (desk_taken (part_seen C.least C.faults C.readings) n code.now worker.old.number l (Some clock0) held.old) → IsAsked now (clockwork_seen C.least C.faults C.readings clock0.value) (clockwork_seen C.least C.faults C.readings clockwork.value) → IsCarrying A.over A.stands program code.now table.now.id n worker.new (just_lane n code.now l) }
    ensures solo { IfOk result (λ a. (k : Follow) (most : ℕ) → IsDue clockwork.value.timers.deadlines now → MayGo A.over A.place A.stands A.advances A.gives A.starts code.now (MayTick k) most worker.old → (cost : ℕ) × (a ≡ Ticked cost) × Went A.over A.place A.stands A.advances A.gives A.starts code.now (MaySettle k ports.new.items) most worker.new) }
{
    match banks_due(rt, &clockwork.timers, now, ports) {
        Ok(banks) => close_due(rt, alloc, table, code, worker, held, clockwork, now, &banks),
        Err(refused) => {
            draw_clock(rt, table, code, worker, held, clockwork, Turned::Read);
            Err(refused)
        }
    }
}

// Ticks, where the banks of the ports that are due are held.
fn tick_with<R: Wait, A: Agent, C: Clock + Drop>(
    rt: &R,
    alloc: Global,
    table: &Table<Pool<A, C>>,
    code: &ValidCode,
    worker: &mut Worker<A, C>,
    held: &mut Held<A>,
    clockwork: Box<Clockwork<C>>,
    now: u64,
) -> Result<Asked, OutOfMemory>
    requires carries { (program : ProgramView) × (n : ℕ) × (l : Lane A) × (clock0 : ClockBox C) × IsCarrying A.over A.stands program code.now table.now.id n worker.old (desk_taken (part_seen C.least C.faults C.readings) n code.now worker.old.number l (Some clock0) held.old) × IsAsked now (clockwork_seen C.least C.faults C.readings clock0.value) (clockwork_seen C.least C.faults C.readings clockwork.value) }
    requires there { HasBanksOf held.old (due now clockwork.value.timers.deadlines) }
    requires placed { Placed (channels_held held.old.banks) }
    requires room { 0 < room worker.old.entries }
    requires ready { held.old.ready ≡ None }
    requires timers { held.old.timers ≡ None }
    ensures same { SameWorker worker.old worker.new }
    ensures bare { IsBare held.new }
    ensures drew { IfOk result (λ a. Drew (cost_asked a) (is_marked a) worker.old worker.new) }
    ensures refused { OnErr result (Drew 0 false worker.old worker.new) }
    ensures carries { (program : ProgramView) (n : ℕ) (l : Lane A) (clock0 : ClockBox C) → IsCarrying A.over A.stands program code.now table.now.id n worker.old (desk_taken (part_seen C.least C.faults C.readings) n code.now worker.old.number l (Some clock0) held.old) → IsAsked now (clockwork_seen C.least C.faults C.readings clock0.value) (clockwork_seen C.least C.faults C.readings clockwork.value) → IsCarrying A.over A.stands program code.now table.now.id n worker.new (just_lane n code.now l) }
    ensures solo { IfOk result (λ a. (k : Follow) (us : List ℕ) (most : ℕ) → IsDue clockwork.value.timers.deadlines now → Ordered (due now clockwork.value.timers.deadlines) us → MayGo A.over A.place A.stands A.advances A.gives A.starts code.now (MayTick k) most worker.old → (cost : ℕ) × (a ≡ Ticked cost) × Went A.over A.place A.stands A.advances A.gives A.starts code.now (MaySettle k us) most worker.new) }
{
    let (clockwork, made) = reserve_due(alloc, held, clockwork, now);
    match made {
        Ok(()) => Ok(draw_tick(rt, alloc, table, code, worker, held, clockwork, now)),
        Err(refused) => {
            draw_clock(rt, table, code, worker, held, clockwork, Turned::Read);
            Err(refused)
        }
    }
}

// Ticks where these banks are free, which are those of the ports that are due.
fn close_due<R: Wait, A: Agent, C: Clock + Drop>(
    rt: &R,
    alloc: Global,
    table: &Table<Pool<A, C>>,
    code: &ValidCode,
    worker: &mut Worker<A, C>,
    held: &mut Held<A>,
    clockwork: Box<Clockwork<C>>,
    now: u64,
    banks: &Homes,
) -> Result<Asked, OutOfMemory>
    requires bare { IsBare held.old }
    requires carries { (program : ProgramView) × (n : ℕ) × (l : Lane A) × (clock0 : ClockBox C) × IsCarrying A.over A.stands program code.now table.now.id n worker.old (desk_taken (part_seen C.least C.faults C.readings) n code.now worker.old.number l (Some clock0) held.old) × IsAsked now (clockwork_seen C.least C.faults C.readings clock0.value) (clockwork_seen C.least C.faults C.readings clockwork.value) }
    requires homes { HasHomes banks.now (due now clockwork.value.timers.deadlines) }
    requires room { 0 < room worker.old.entries }
    ensures same { SameWorker worker.old worker.new }
    ensures bare { IsBare held.new }
    ensures drew { IfOk result (λ a. Drew (cost_asked a) (is_marked a) worker.old worker.new) }
    ensures refused { OnErr result (Drew 0 false worker.old worker.new) }
    ensures carries { (program : ProgramView) (n : ℕ) (l : Lane A) (clock0 : ClockBox C) → IsCarrying A.over A.stands program code.now table.now.id n worker.old (desk_taken (part_seen C.least C.faults C.readings) n code.now worker.old.number l (Some clock0) held.old) → IsAsked now (clockwork_seen C.least C.faults C.readings clock0.value) (clockwork_seen C.least C.faults C.readings clockwork.value) → IsCarrying A.over A.stands program code.now table.now.id n worker.new (just_lane n code.now l) }
    ensures solo { IfOk result (λ a. (k : Follow) (us : List ℕ) (most : ℕ) → IsDue clockwork.value.timers.deadlines now → Ordered (due now clockwork.value.timers.deadlines) us → MayGo A.over A.place A.stands A.advances A.gives A.starts code.now (MayTick k) most worker.old → (cost : ℕ) × (a ≡ Ticked cost) × Went A.over A.place A.stands A.advances A.gives A.starts code.now (MaySettle k us) most worker.new) }
{
    match try_banks(rt, table, code, worker, banks, held) {
        Ok(true) => tick_with(rt, alloc, table, code, worker, held, clockwork, now),
        Ok(false) => {
            draw_clock(rt, table, code, worker, held, clockwork, Turned::Read);
            Ok(Asked::Nothing)
        }
        Err(refused) => {
            draw_clock(rt, table, code, worker, held, clockwork, Turned::Read);
            Err(refused)
        }
    }
}
