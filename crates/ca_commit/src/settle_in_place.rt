//! A channel that settles, and a stale handler that is pruned, where the parts lie: as `in_place` has it of a task's events.

ghost use Rattle.std.specs.Prelude.{◌≡◌, ◌<◌, ℕ, IfOk, None, OnErr, OnOk, Some, slice_get};
ghost use Rattle.ca_value.specs.View.{view};
ghost use Rattle.ca_term.specs.declared.event.Side.TheVariants.{Put};
ghost use Rattle.ca_meaning.specs.Wait.{Handler, told};
ghost use Rattle.ca_bank.specs.Bank.{kept_at, spares_at};
ghost use Rattle.ca_bank.specs.Kept.{buffer_spare, pruned, queue_at};
ghost use Rattle.ca_commit.specs.InPlace.{BankRests, Sets, Turns, WakesOn};
ghost use Rattle.ca_commit.specs.Settling.{HasRoomToServe, channel_filled, settle_change, value_settled};
ghost use Rattle.ca_commit.specs.Showing.{bank_in, shard_in, waits_of};
ghost use Rattle.ca_commit.specs.Tasks.{tasks_in};
ghost use Rattle.ca_commit.specs.Waking.{IsPaused};

use crate::held::{HeldBank, HeldShard};
use crate::in_place::first_copy;
use crate::meeting::{front_value, partner_in, told};
use crate::sight::Partner;
use crate::task::{Ready, Task};
use crate::waiting::{take_wait, wake_in};
use ca_agent::agent::Agent;
use ca_bank::bank::Bank;
use ca_bank::shard::Shard;
use ca_term::event::{Side, WaitId};
use ca_value::memory::OutOfMemory;
use ca_value::value::{PortId, Value};
use std::alloc::Global;

/// The channel serves the one in front of the side, whose wait lives: a put's value moves into the buffer, or a taker gets
/// one, and whoever waited goes on. It gives the value, for the event. Where memory is refused nothing but room is changed.
pub fn settle<A: Agent>(
    alloc: Global,
    held: &mut HeldBank,
    waits: &mut HeldShard<A>,
    ready: &mut Ready<A>,
    port: PortId,
    side: Side,
    partner: Partner,
) -> Result<Value, OutOfMemory>
    requires room { HasRoomToServe (bank_in held.old port.n) side }
    requires paused { IsPaused A.place (shard_in waits.old partner.wait.n) }
    ensures value { IfOk result (λ v. view v ≡ value_settled side (bank_in held.old port.n)) }
    ensures channel { OnOk result (Turns port.n (settle_change side (value_settled side (bank_in held.old port.n))) held.old.bank.value held.new.bank.value) }
    ensures wait { OnOk result (Sets partner.wait.n None waits.old.shard.value waits.new.shard.value) }
    ensures wakes { let v = value_settled side (bank_in held.old port.n) in OnOk result (WakesOn A.place A.gives partner.wait.n port.n (told side v) waits.old.shard.value ready.old ready.new) }
    ensures refused { OnErr result (BankRests held.old.bank.value held.new.bank.value × (waits.new.shard.value ≡ waits.old.shard.value) × (tasks_in ready.new ≡ tasks_in ready.old)) }
    ensures same { (held.new.number ≡ held.old.number) × (waits.new.number ≡ waits.old.number) }
{
    settle_in_bank(
        alloc,
        &mut held.bank,
        &mut waits.shard,
        ready,
        port,
        side,
        partner,
    )
}

/// The handler in front of that side, a stale one, leaves its queue; its wait is answered, or wait 0 where there is none. It
/// takes no memory.
pub fn prune_front(held: &mut HeldBank, port: PortId, side: Side) -> WaitId
    ensures wait { (h : Handler) → slice_get (queue_at side (bank_in held.old port.n)) 0 ≡ Some h → result.n ≡ h.wait }
    ensures channel { Turns port.n (pruned side 0) held.old.bank.value held.new.bank.value }
    ensures same { held.new.number ≡ held.old.number }
{
    prune_in(&mut held.bank, port, side)
}

fn prune_in(bank: &mut Bank, port: PortId, side: Side) -> WaitId
    ensures wait { (h : Handler) → slice_get (queue_at side (kept_at bank.old port.n)) 0 ≡ Some h → result.n ≡ h.wait }
    ensures channel { Turns port.n (pruned side 0) bank.old bank.new }
{
    match bank.prune(port, side, 0) {
        Some(handler) => handler.wait,
        None => WaitId { n: 0 },
    }
}

/// A copy of the value that moves in, or that a taker gets.
pub(crate) fn settling_in(
    alloc: Global,
    bank: &Bank,
    side: Side,
    port: PortId,
) -> Result<Value, OutOfMemory>
    ensures { IfOk result (λ v. view v ≡ value_settled side (kept_at bank.now port.n)) }
{
    match side {
        Side::Put => front_value(alloc, bank, port),
        Side::Take => first_copy(alloc, bank, port),
    }
}

// Room for the value that moves in.
#[tactic(auto, using(crate::proofs::SettleMade::room_buffers))]
fn reserve_filling(bank: &mut Bank, port: PortId, side: Side) -> Result<(), OutOfMemory>
    requires { HasRoomToServe (kept_at bank.old port.n) side }
    ensures room { OnOk result (side ≡ Put → 0 < buffer_spare (spares_at bank.new port.n)) }
    ensures rests { BankRests bank.old bank.new }
{
    match side {
        Side::Put => bank.reserve_buffer(port),
        Side::Take => Ok(()),
    }
}

// The value moves in, or the oldest one leaves.
fn fill(bank: &mut Bank, port: PortId, side: Side, value: Value)
    requires room { HasRoomToServe (kept_at bank.old port.n) side }
    requires spare { side ≡ Put → 0 < buffer_spare (spares_at bank.old port.n) }
    ensures { Turns port.n (channel_filled side (view value)) bank.old bank.new }
{
    match side {
        Side::Put => {
            let _ = bank.add(port, value);
        }
        Side::Take => {
            let _ = bank.remove(port);
        }
    }
}

/// What serving that side does to the channel; a value that moves in was made before.
pub(crate) fn change_settled(bank: &mut Bank, port: PortId, side: Side, value: Value)
    requires room { HasRoomToServe (kept_at bank.old port.n) side }
    requires spare { side ≡ Put → 0 < buffer_spare (spares_at bank.old port.n) }
    ensures { Turns port.n (settle_change side (view value)) bank.old bank.new }
{
    fill(bank, port, side, value);
    let _ = bank.prune(port, side, 0);
}

// The channel serves the side in its bank.
fn settle_in_bank<A: Agent>(
    alloc: Global,
    bank: &mut Bank,
    shard: &mut Shard<Task<A>>,
    ready: &mut Ready<A>,
    port: PortId,
    side: Side,
    partner: Partner,
) -> Result<Value, OutOfMemory>
    requires room { HasRoomToServe (kept_at bank.old port.n) side }
    requires paused { IsPaused A.place (waits_of shard.old partner.wait.n) }
    ensures value { IfOk result (λ v. view v ≡ value_settled side (kept_at bank.old port.n)) }
    ensures channel { OnOk result (Turns port.n (settle_change side (value_settled side (kept_at bank.old port.n))) bank.old bank.new) }
    ensures wait { OnOk result (Sets partner.wait.n None shard.old shard.new) }
    ensures wakes { let v = value_settled side (kept_at bank.old port.n) in OnOk result (WakesOn A.place A.gives partner.wait.n port.n (told side v) shard.old ready.old ready.new) }
    ensures refused { OnErr result (BankRests bank.old bank.new × (shard.new ≡ shard.old) × (tasks_in ready.new ≡ tasks_in ready.old)) }
{
    let value = settling_in(alloc, bank, side, port)?;
    let moved = value.copy(alloc)?;
    let theirs = told(alloc, side, &value)?;
    let woken = partner_in(alloc, shard, partner.wait, port, &theirs)?;
    ready.reserve()?;
    reserve_filling(bank, port, side)?;
    change_settled(bank, port, side, moved);
    let parked = take_wait(shard, partner.wait);
    wake_in(ready, parked, woken, partner.branch);
    Ok(value)
}
