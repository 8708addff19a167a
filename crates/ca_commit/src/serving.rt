//! What a channel settles by itself: the channel tells which wait it would serve, and the held parts whether that lives.

ghost use Rattle.std.specs.Prelude.{◌≡◌, ◌%◌, ◌&&◌, ℕ, Some};
ghost use Rattle.ca_term.specs.declared.event.Side.TheVariants.{Put, Take};
ghost use Rattle.ca_bank.specs.Bank.{kept_at};
ghost use Rattle.ca_bank.specs.Kept.{is_closed_at, takes_one_more};
ghost use Rattle.ca_bank.specs.Room.{kept_view};
ghost use Rattle.ca_commit.specs.Contents.{whole};
ghost use Rattle.ca_commit.specs.Finding.{Glance as PureGlance, front_at, glance, holds_one, is_fixed_at, serve_front, serve_taker, settle_at};
ghost use Rattle.ca_commit.specs.Found.{serving_view};
ghost use Rattle.ca_commit.specs.ServesSeen.{HasRoomFor, IsOf, serving_seen};
ghost use Rattle.ca_commit.specs.Showing.{bank_in, channels_held, waits_held};

use crate::finding::{Glance, front, glance_of, holds_one};
use crate::held::{Banks, HeldBank, Shards};
use crate::sight::Partner;
use ca_bank::bank::Bank;
use ca_bank::room::Room;
use ca_buffers::any::AnyBuffer;
use ca_term::event::{Side, WaitId};
use ca_value::value::PortId;

/// What a channel does by itself.
#[derive(Clone, Copy)]
pub enum Serving {
    Rests,
    /// It serves that branch of the wait, which stands in front of the side.
    Serves(Side, WaitId, u64),
    /// The handler in front of that side is stale.
    Stale(Side),
    /// The shard of this wait isn't held.
    Unheld(WaitId),
}

/// What a channel does by itself, before a wait is asked.
#[derive(Clone, Copy)]
pub enum Serves {
    Nothing,
    /// It serves the one in front of the side, if that wait lives.
    Front(Side, Partner),
}

fn is_fixed(room: &Room) -> bool
    ensures { result ≡ is_fixed_at (Some (kept_view room.now)) }
{
    match room.buffer() {
        Some(AnyBuffer::Fixed(_)) => true,
        _ => false,
    }
}

// The one in front of the side, if there is one.
#[tactic(auto, using(crate::proofs::ServesLaws::front_serves))]
fn front_served(room: &Room, side: Side) -> Serves
    ensures serves { (see : ℕ → PureGlance) → serving_seen result see ≡ serve_front see side (front_at side (Some (kept_view room.now))) }
    ensures side { IsOf side result }
{
    match front(room, side) {
        Some(handler) => Serves::Front(
            side,
            Partner {
                wait: handler.wait,
                branch: handler.branch,
            },
        ),
        None => Serves::Nothing,
    }
}

fn taker_served(room: &Room) -> Serves
    ensures serves { (see : ℕ → PureGlance) → serving_seen result see ≡ serve_taker see (holds_one (Some (kept_view room.now))) (is_closed_at (Some (kept_view room.now))) (front_at Take (Some (kept_view room.now))) }
    ensures side { IsOf Take result }
{
    if holds_one(room) || room.is_closed() {
        front_served(room, Side::Take)
    } else {
        Serves::Nothing
    }
}

// What the channel serves.
#[tactic(auto, using(crate::proofs::ServesLaws::takers_have, crate::proofs::ServesLaws::putters_have))]
fn served(room: &Room) -> Serves
    ensures serves { (see : ℕ → PureGlance) → serving_seen result see ≡ settle_at see (Some (kept_view room.now)) }
    ensures room { HasRoomFor result (Some (kept_view room.now)) }
{
    if is_fixed(room) && room.has_room() && front(room, Side::Put).is_some() {
        front_served(room, Side::Put)
    } else {
        taker_served(room)
    }
}

fn settle_in<A: Drop>(shards: &Shards<A>, room: &Room) -> Serving
    ensures { serving_view result ≡ settle_at (glance (waits_held shards.now)) (Some (kept_view room.now)) }
{
    match served(room) {
        Serves::Nothing => Serving::Rests,
        Serves::Front(side, partner) => match glance_of(shards, partner.wait) {
            Glance::Here => Serving::Serves(side, partner.wait, partner.branch),
            Glance::Gone => Serving::Stale(side),
            Glance::Unseen => Serving::Unheld(partner.wait),
        },
    }
}

/// What the channel serves, before the wait in front is asked; what is no channel of this bank serves nothing.
pub fn serves_of(held: &HeldBank, port: PortId) -> Serves
    ensures serves { (see : ℕ → PureGlance) → serving_seen result see ≡ settle_at see (bank_in held.now port.n) }
    ensures room { HasRoomFor result (bank_in held.now port.n) }
{
    match held.bank.room(port) {
        Some(room) => served(room),
        None => Serves::Nothing,
    }
}

// What is no channel rests.
fn settle_at<A: Drop>(shards: &Shards<A>, bank: &Bank, port: PortId) -> Serving
    ensures { serving_view result ≡ settle_at (glance (waits_held shards.now)) (kept_at bank.now port.n) }
{
    match bank.room(port) {
        Some(room) => settle_in(shards, room),
        None => Serving::Rests,
    }
}

/// What the channel settles.
pub fn settle_of<A: Drop>(banks: &Banks, shards: &Shards<A>, port: PortId) -> Serving
    ensures { serving_view result ≡ settle_at (glance (waits_held shards.now)) (whole (channels_held banks.now) port.n) }
{
    match banks.get(port.n % 16) {
        Some(held) => settle_at(shards, &held.bank, port),
        None => Serving::Rests,
    }
}
