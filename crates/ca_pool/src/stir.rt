// The channels that an event may bring to settle.
ghost use Rattle.std.specs.Prelude.{◌≡◌, ℕ, ◌-◌, ◌<◌, List, [], ◌∷◌, Err, IfErr, IfOk, false, is_some, option_map, unwrap_or};
ghost use Rattle.ca_term.specs.Event.{port_number};
ghost use Rattle.ca_solo.specs.Stirs.{port_if};
ghost use Rattle.ca_table.specs.Worked.{HasWorked};
ghost use Rattle.ca_table.specs.Workers.{SameWorker};
ghost use Rattle.ca_table.specs.declared.worker.Worker.{Worker};
ghost use Rattle.ca_alone.specs.Schedule.{Follow, MaySettle};
ghost use Rattle.ca_pool.specs.AtWork.{HasSpent, IsAtWork, IsGivenUp};
ghost use Rattle.ca_pool.specs.Desk.{IsBare};
ghost use Rattle.ca_pool.specs.Lone.{HasCounted, IsGoing, IsRunning};

use crate::progress::{Going, goes_on, spend};
use crate::settle::settle;
use ca_agent::agent::Agent;
use ca_commit::held::Held;
use ca_states::valid_code::ValidCode;
use ca_table::answer::PoolStop;
use ca_table::pool::Pool;
use ca_table::worker::Worker;
use ca_timers::clock::Clock;
use ca_turns::Table;
use ca_value::memory::OutOfMemory;
use ca_value::value::PortId;
use std::alloc::Global;
use std::sync::Wait;

// What is left when the channel has settled at that cost, if it does; whether it did.
fn count_settled<A: Agent>(going: Going<A>, settled: Option<u64>) -> (Going<A>, bool)
    ensures lane { result.0.lane ≡ going.lane }
    ensures left { result.0.left ≡ going.left - unwrap_or settled 0 }
    ensures found { result.0.found ≡ going.found }
    ensures more { result.1 ≡ is_some settled }
{
    match settled {
        None => (going, false),
        Some(cost) => (spend(going, cost), true),
    }
}

// Settles the channel, if it settles; whether it did.
fn settle_once<R: Wait, A: Agent, C: Clock + Drop>(
    rt: &R,
    alloc: Global,
    table: &Table<Pool<A, C>>,
    code: &ValidCode,
    worker: &mut Worker<A, C>,
    held: &mut Held<A>,
    going: Going<A>,
    port: PortId,
) -> Result<(Going<A>, bool), PoolStop>
    requires at { IsAtWork A.over A.stands code.now table.now.id worker.old going.lane.value }
    requires bare { IsBare held.old }
    requires on { going.found ≡ false }
    requires some { 0 < going.left }
    ensures same { SameWorker worker.old worker.new }
    ensures bare { IsBare held.new }
    ensures at { IfOk result (λ g. IsAtWork A.over A.stands code.now table.now.id worker.new g.0.lane.value) }
    ensures spent { IfOk result (λ g. (start : ℕ) (w : Worker A C) → HasSpent start going.left going.found w worker.old → HasSpent start g.0.left g.0.found w worker.new) }
    ensures given_up { IfErr result (λ s. IsGivenUp A.over A.stands code.now table.now.id s worker.new) }
    ensures stopped { IfErr result (λ s. (start : ℕ) (w : Worker A C) → HasSpent start going.left going.found w worker.old → HasWorked start (Err s) w worker.new) }
    ensures solo { IfOk result (λ g. (k : Follow) (us : List ℕ) (most : ℕ) → IsRunning A.over A.place A.stands A.advances A.gives A.starts code.now (MaySettle k (port.n ∷ us)) most going.left going.found worker.old → HasCounted A.over A.place A.stands A.advances A.gives A.starts code.now k port.n us most g.1 g.0.left g.0.found worker.new) }
{
    match settle(rt, alloc, table, code, worker, held, port) {
        Ok(settled) => Ok(count_settled(going, settled)),
        Err(OutOfMemory) => Err(PoolStop::OutOfMemory),
    }
}

// Settles the channel as often as it settles.
fn settle_port<R: Wait, A: Agent, C: Clock + Drop>(
    rt: &R,
    alloc: Global,
    table: &Table<Pool<A, C>>,
    code: &ValidCode,
    worker: &mut Worker<A, C>,
    held: &mut Held<A>,
    going: Going<A>,
    port: PortId,
) -> Result<Going<A>, PoolStop>
    requires at { IsAtWork A.over A.stands code.now table.now.id worker.old going.lane.value }
    requires bare { IsBare held.old }
    ensures same { SameWorker worker.old worker.new }
    ensures bare { IsBare held.new }
    ensures at { IfOk result (λ g. IsAtWork A.over A.stands code.now table.now.id worker.new g.lane.value) }
    ensures spent { IfOk result (λ g. (start : ℕ) (w : Worker A C) → HasSpent start going.left going.found w worker.old → HasSpent start g.left g.found w worker.new) }
    ensures given_up { IfErr result (λ s. IsGivenUp A.over A.stands code.now table.now.id s worker.new) }
    ensures stopped { IfErr result (λ s. (start : ℕ) (w : Worker A C) → HasSpent start going.left going.found w worker.old → HasWorked start (Err s) w worker.new) }
    ensures solo { IfOk result (λ g. (k : Follow) (us : List ℕ) (most : ℕ) → IsGoing A.over A.place A.stands A.advances A.gives A.starts code.now (MaySettle k (port.n ∷ us)) most going.left going.found worker.old → IsGoing A.over A.place A.stands A.advances A.gives A.starts code.now (MaySettle k us) most g.left g.found worker.new) }
{
    let mut going = going;
    for _ in rt.forever() {
        if !goes_on(&going) {
            return Ok(going);
        }
        let (next, more) = settle_once(rt, alloc, table, code, worker, held, going, port)?;
        if !more {
            return Ok(next);
        }
        going = next;
    }
    unreachable!()
}

/// Settles these channels, in order.
pub(crate) fn settle_ports<R: Wait, A: Agent, C: Clock + Drop>(
    rt: &R,
    alloc: Global,
    table: &Table<Pool<A, C>>,
    code: &ValidCode,
    worker: &mut Worker<A, C>,
    held: &mut Held<A>,
    going: Going<A>,
    ports: &[u64],
) -> Result<Going<A>, PoolStop>
    requires at { IsAtWork A.over A.stands code.now table.now.id worker.old going.lane.value }
    requires bare { IsBare held.old }
    ensures same { SameWorker worker.old worker.new }
    ensures bare { IsBare held.new }
    ensures at { IfOk result (λ g. IsAtWork A.over A.stands code.now table.now.id worker.new g.lane.value) }
    ensures spent { IfOk result (λ g. (start : ℕ) (w : Worker A C) → HasSpent start going.left going.found w worker.old → HasSpent start g.left g.found w worker.new) }
    ensures given_up { IfErr result (λ s. IsGivenUp A.over A.stands code.now table.now.id s worker.new) }
    ensures stopped { IfErr result (λ s. (start : ℕ) (w : Worker A C) → HasSpent start going.left going.found w worker.old → HasWorked start (Err s) w worker.new) }
    ensures solo { IfOk result (λ g. (k : Follow) (most : ℕ) → IsGoing A.over A.place A.stands A.advances A.gives A.starts code.now (MaySettle k ports.now) most going.left going.found worker.old → IsGoing A.over A.place A.stands A.advances A.gives A.starts code.now (MaySettle k []) most g.left g.found worker.new) }
{
    let mut going = going;
    for i in 0..ports.len() {
        let port = PortId { n: ports[i] };
        going = settle_port(rt, alloc, table, code, worker, held, going, port)?;
    }
    Ok(going)
}

/// Settles the channel that an event may bring to settle.
pub(crate) fn settle_stirred<R: Wait, A: Agent, C: Clock + Drop>(
    rt: &R,
    alloc: Global,
    table: &Table<Pool<A, C>>,
    code: &ValidCode,
    worker: &mut Worker<A, C>,
    held: &mut Held<A>,
    going: Going<A>,
    stirred: Option<PortId>,
) -> Result<Going<A>, PoolStop>
    requires at { IsAtWork A.over A.stands code.now table.now.id worker.old going.lane.value }
    requires bare { IsBare held.old }
    ensures same { SameWorker worker.old worker.new }
    ensures bare { IsBare held.new }
    ensures at { IfOk result (λ g. IsAtWork A.over A.stands code.now table.now.id worker.new g.lane.value) }
    ensures spent { IfOk result (λ g. (start : ℕ) (w : Worker A C) → HasSpent start going.left going.found w worker.old → HasSpent start g.left g.found w worker.new) }
    ensures given_up { IfErr result (λ s. IsGivenUp A.over A.stands code.now table.now.id s worker.new) }
    ensures stopped { IfErr result (λ s. (start : ℕ) (w : Worker A C) → HasSpent start going.left going.found w worker.old → HasWorked start (Err s) w worker.new) }
    ensures solo { IfOk result (λ g. (k : Follow) (most : ℕ) → IsGoing A.over A.place A.stands A.advances A.gives A.starts code.now (MaySettle k (port_if (option_map port_number stirred))) most going.left going.found worker.old → IsGoing A.over A.place A.stands A.advances A.gives A.starts code.now (MaySettle k []) most g.left g.found worker.new) }
{
    match stirred {
        Some(port) => settle_port(rt, alloc, table, code, worker, held, going, port),
        None => Ok(going),
    }
}
