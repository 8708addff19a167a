// What becomes of a branch, as far as the held parts tell.
ghost use Rattle.std.specs.Prelude.{◌≡◌, ◌≤◌, ℕ, ◌+◌, ◌%◌, Some, None, option_map};
ghost use Rattle.ca_bank.specs.Bank.{kept_at};
ghost use Rattle.ca_bank.specs.Kept.{is_closed_at, takes_one_more};
ghost use Rattle.ca_bank.specs.Room.{handler_view, kept_view};
ghost use Rattle.ca_commit.specs.Contents.{whole};
ghost use Rattle.ca_commit.specs.Finding.{glance, is_promise_at, holds_one, front_at, found_by_asking, put_at, take_at};
ghost use Rattle.ca_commit.specs.Found.{glance_view, finding_view};
ghost use Rattle.ca_commit.specs.Showing.{channels_held, waits_held};
ghost use Rattle.ca_commit.specs.Sights.{found_by};

use crate::held::{Banks, Shards};
use crate::sight::{Sight, put_sight, take_sight};
use ca_bank::bank::Bank;
use ca_bank::handler::Handler;
use ca_bank::room::Room;
use ca_buffers::buffer::Buffer;
use ca_term::event::{Side, WaitId};
use ca_value::value::PortId;

/// What the held shards tell of a wait.
#[derive(Clone, Copy)]
pub enum Glance {
    Here,
    Gone,
    Unseen,
}

/// What is found of a branch.
#[derive(Clone, Copy)]
pub enum Finding {
    Unready,
    /// It is done at once.
    Alone,
    /// It meets that branch of the wait, which stands in front of the other side.
    Partner(WaitId, u64),
    /// The handler in front of that side is stale.
    Stale(Side),
    /// The shard of this wait isn't held.
    Unheld(WaitId),
}

/// Whether the wait lives, as far as the held shards tell.
pub fn glance_of<A: Drop>(shards: &Shards<A>, wait: WaitId) -> Glance
    ensures { glance_view result ≡ glance (waits_held shards.now) wait.n }
{
    match shards.get(wait.n % 16) {
        Some(held) => match held.shard.parked(wait) {
            Some(_) => Glance::Here,
            None => Glance::Gone,
        },
        None => Glance::Unseen,
    }
}

// What is found where the wait, in front of that side, is asked; live is what is found where it lives.
fn asking<A: Drop>(shards: &Shards<A>, side: Side, wait: WaitId, live: Finding) -> Finding
    ensures { finding_view result ≡ found_by_asking (glance (waits_held shards.now) wait.n) side wait.n (finding_view live) }
{
    match glance_of(shards, wait) {
        Glance::Here => live,
        Glance::Gone => Finding::Stale(side),
        Glance::Unseen => Finding::Unheld(wait),
    }
}

// The handler in front of that side of the channel.
#[tactic(auto, using(crate::proofs::Fronts::head_is))]
pub(crate) fn front(room: &Room, side: Side) -> Option<&Handler>
    ensures { option_map (λ h. handler_view h.now) result ≡ front_at side (Some (kept_view room.now)) }
{
    room.handler(side, 0)
}

// Whether the channel is a promise.
pub(crate) fn is_promise(room: &Room) -> bool
    ensures { result ≡ is_promise_at (Some (kept_view room.now)) }
{
    match room.buffer() {
        Some(buffer) => buffer.keeps(),
        None => false,
    }
}

// Whether the channel holds a value.
pub(crate) fn holds_one(room: &Room) -> bool
    ensures { result ≡ holds_one (Some (kept_view room.now)) }
{
    match room.buffer() {
        Some(buffer) => buffer.first().is_some(),
        None => false,
    }
}

// What is found where that is seen.
fn asked<A: Drop>(shards: &Shards<A>, sight: Sight) -> Finding
    ensures { finding_view result ≡ found_by sight (glance (waits_held shards.now)) }
{
    match sight {
        Sight::Unready | Sight::Crowded => Finding::Unready,
        Sight::Alone => Finding::Alone,
        Sight::Meets(side, partner) => {
            let live = Finding::Partner(partner.wait, partner.branch);
            asking(shards, side, partner.wait, live)
        }
        Sight::Rivals(wait) => asking(shards, Side::Put, wait, Finding::Unready),
    }
}

// Of no channel it is not ready.
fn put_at<A: Drop>(shards: &Shards<A>, bank: &Bank, port: PortId) -> Finding
    ensures { finding_view result ≡ put_at (glance (waits_held shards.now)) (kept_at bank.now port.n) }
{
    match bank.room(port) {
        Some(room) => asked(shards, put_sight(room)),
        None => Finding::Unready,
    }
}

// The same of a take.
fn take_at<A: Drop>(shards: &Shards<A>, bank: &Bank, port: PortId) -> Finding
    ensures { finding_view result ≡ take_at (glance (waits_held shards.now)) (kept_at bank.now port.n) }
{
    match bank.room(port) {
        Some(room) => asked(shards, take_sight(room)),
        None => Finding::Unready,
    }
}

/// What is found of a put into the channel, whatever the value.
pub fn find_put<A: Drop>(banks: &Banks, shards: &Shards<A>, port: PortId) -> Finding
    ensures { finding_view result ≡ put_at (glance (waits_held shards.now)) (whole (channels_held banks.now) port.n) }
{
    match banks.get(port.n % 16) {
        Some(held) => put_at(shards, &held.bank, port),
        None => Finding::Unready,
    }
}

/// What is found of a take from the channel.
pub fn find_take<A: Drop>(banks: &Banks, shards: &Shards<A>, port: PortId) -> Finding
    ensures { finding_view result ≡ take_at (glance (waits_held shards.now)) (whole (channels_held banks.now) port.n) }
{
    match banks.get(port.n % 16) {
        Some(held) => take_at(shards, &held.bank, port),
        None => Finding::Unready,
    }
}
