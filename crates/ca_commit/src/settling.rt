//! A channel that settles by itself.

ghost use Rattle.std.specs.Prelude.{◌≡◌, ◌%◌, ◌<◌, ℕ, None, OnOk, IfOk, IsSome, Some, is_some, option_map, true};
ghost use Rattle.ca_value.specs.View.{view};
ghost use Rattle.ca_term.specs.Event.{event_view, settled};
ghost use Rattle.ca_term.specs.declared.event.Side.TheVariants.{Put, Take};
ghost use Rattle.ca_meaning.specs.Wait.{told};
ghost use Rattle.ca_bank.specs.Kept.{buffer_at, buffer_spare};
ghost use Rattle.ca_commit.specs.Contents.{whole};
ghost use Rattle.ca_commit.specs.Listing.{changed_at};
ghost use Rattle.ca_commit.specs.Settling.{HasRoomToServe, IsMadeToServe, IsMadeToSettle, Settles, served_in, settle_change, value_settled};
ghost use Rattle.ca_commit.specs.Showing.{channels_held, registries_held, spares_held, waits_held};
ghost use Rattle.ca_commit.specs.Waking.{IsPaused, KeepsNumbers, WakesBy, ready_in};

use crate::changing::serve_in;
use crate::doing::first_held;
use crate::held::{Banks, Held};
use crate::meeting::{offered, partner, reserve_ready, told};
use crate::replying::taken;
use crate::reserving::reserve_buffer;
use crate::serving::{Serving, settle_of};
use crate::waiting::{take_out, wake};
use ca_agent::agent::Agent;
use ca_term::event::{Event, Side, WaitId};
use ca_value::memory::OutOfMemory;
use ca_value::value::{PortId, Value};
use std::alloc::Global;

/// What a channel settled, or why it can't be told.
#[derive(Drop)]
pub enum SettleNext {
    None,
    /// It hangs on this wait, whose shard isn't held.
    Look(WaitId),
    /// It hangs on the stale handler at that place of the queue.
    Prune(PortId, Side, u64),
    Settled(Event),
}

// A copy of the value that moves in, or that a taker gets.
fn settling(alloc: Global, banks: &Banks, side: Side, port: PortId) -> Result<Value, OutOfMemory>
    ensures { IfOk result (λ v. view v ≡ value_settled side (whole (channels_held banks.now) port.n)) }
{
    match side {
        Side::Put => offered(alloc, banks, port),
        Side::Take => first_held(alloc, banks, port),
    }
}

/// Makes what serving that side of the channel needs, where the wait stands in front: the value, the answer of whoever
/// waits, and room. Nothing else changes.
pub fn reserve_serving<A: Agent>(
    alloc: Global,
    held: &mut Held<A>,
    port: PortId,
    side: Side,
    wait: WaitId,
) -> Result<(), OutOfMemory>
    requires paused { IsPaused A.place (whole (waits_held held.old.shards) wait.n) }
    requires ready { IsSome held.old.ready }
    ensures channels { (i : ℕ) → channels_held held.new.banks i ≡ channels_held held.old.banks i }
    ensures registries { (i : ℕ) → registries_held held.new.banks i ≡ registries_held held.old.banks i }
    ensures shards { held.new.shards ≡ held.old.shards }
    ensures ready { ready_in held.new.ready ≡ ready_in held.old.ready }
    ensures numbers { KeepsNumbers held.old held.new }
    ensures made { OnOk result (IsMadeToServe A.place held.new port.n side wait.n) }
    ensures room { OnOk result (is_some (buffer_at (whole (channels_held held.old.banks) port.n)) ≡ true → 0 < buffer_spare (whole (spares_held held.new.banks) port.n)) }
{
    let value = settling(alloc, &held.banks, side, port)?;
    let again = value.copy(alloc)?;
    let theirs = told(alloc, side, &value)?;
    let partner = partner(alloc, &held.shards, wait, port, &theirs)?;
    reserve_ready(&mut held.ready)?;
    reserve_buffer(&mut held.banks, port)?;
    held.spare.value = Some(value);
    held.spare.answer = Some(again);
    held.spare.partner = partner;
    Ok(())
}

/// The channel serves that branch of the wait, which stands in front of the side: the value moves in, or a taker gets
/// it, and whoever waited goes on. It takes no memory.
pub fn serve<A: Agent>(
    held: &mut Held<A>,
    port: PortId,
    side: Side,
    wait: WaitId,
    branch: u64,
) -> Event
    requires paused { IsPaused A.place (whole (waits_held held.old.shards) wait.n) }
    requires made { IsMadeToServe A.place held.old port.n side wait.n }
    requires room { HasRoomToServe (whole (channels_held held.old.banks) port.n) side }
    requires spare { side ≡ Put → 0 < buffer_spare (whole (spares_held held.old.banks) port.n) }
    ensures event { event_view result ≡ settled wait.n branch side port.n (value_settled side (whole (channels_held held.old.banks) port.n)) }
    ensures channels { (i : ℕ) → channels_held held.new.banks i ≡ changed_at port.n (option_map (settle_change side (value_settled side (whole (channels_held held.old.banks) port.n)))) (channels_held held.old.banks) i }
    ensures registries { (i : ℕ) → registries_held held.new.banks i ≡ registries_held held.old.banks i }
    ensures waits { (i : ℕ) → waits_held held.new.shards i ≡ changed_at wait.n (λ o. None) (waits_held held.old.shards) i }
    ensures wakes { WakesBy A.place A.gives (whole (waits_held held.old.shards) wait.n) port.n (told side (value_settled side (whole (channels_held held.old.banks) port.n))) (ready_in held.old.ready) (ready_in held.new.ready) }
    ensures numbers { KeepsNumbers held.old held.new }
{
    let value = taken(&mut held.spare.value);
    let again = taken(&mut held.spare.answer);
    let partner = held.spare.partner.take();
    serve_in(&mut held.banks, port, side, again);
    let parked = take_out(&mut held.shards, wait);
    wake(&mut held.ready, parked, partner, branch);
    Event::Settle {
        wait,
        branch,
        side,
        port,
        value,
    }
}

/// Makes what the channel needs to settle once, where the held parts show that it does. Nothing else changes.
pub fn reserve_settle<A: Agent>(
    alloc: Global,
    held: &mut Held<A>,
    port: PortId,
) -> Result<(), OutOfMemory>
    requires paused { (w : ℕ) → IsPaused A.place (whole (waits_held held.old.shards) w) }
    requires ready { IsSome held.old.ready }
    ensures channels { (i : ℕ) → channels_held held.new.banks i ≡ channels_held held.old.banks i }
    ensures registries { (i : ℕ) → registries_held held.new.banks i ≡ registries_held held.old.banks i }
    ensures shards { held.new.shards ≡ held.old.shards }
    ensures ready { ready_in held.new.ready ≡ ready_in held.old.ready }
    ensures numbers { KeepsNumbers held.old held.new }
    ensures made { OnOk result (IsMadeToSettle A.place held.new port.n (served_in held.new port.n)) }
{
    match settle_of(&held.banks, &held.shards, port) {
        Serving::Rests | Serving::Stale(_) | Serving::Unheld(_) => Ok(()),
        Serving::Serves(side, wait, _) => reserve_serving(alloc, held, port, side, wait),
    }
}

/// Settles the channel once, if it settles. It takes no memory.
pub fn settle_next<A: Agent>(held: &mut Held<A>, port: PortId) -> SettleNext
    requires paused { (w : ℕ) → IsPaused A.place (whole (waits_held held.old.shards) w) }
    requires made { IsMadeToSettle A.place held.old port.n (served_in held.old port.n) }
    ensures { Settles A.place A.gives held.old held.new port.n (served_in held.old port.n) result }
{
    match settle_of(&held.banks, &held.shards, port) {
        Serving::Rests => SettleNext::None,
        Serving::Stale(side) => SettleNext::Prune(port, side, 0),
        Serving::Unheld(wait) => SettleNext::Look(wait),
        Serving::Serves(side, wait, branch) => {
            SettleNext::Settled(serve(held, port, side, wait, branch))
        }
    }
}
