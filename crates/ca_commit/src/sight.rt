//! What is seen of a branch in its channel, before a wait is asked: the channel alone decides it, or tells which wait does.

ghost use Rattle.std.specs.Prelude.{◌≡◌, ℕ, IfSome, Some, false, true};
ghost use Rattle.ca_value.specs.View.{view};
ghost use Rattle.ca_term.specs.declared.event.Side.TheVariants.{Put, Take};
ghost use Rattle.ca_meaning.specs.BodyViews.{is_at_op};
ghost use Rattle.ca_meaning.specs.Operands.{is_nil, port_of_value};
ghost use Rattle.ca_meaning.specs.Wait.{port_of, side_of};
ghost use Rattle.ca_bank.specs.Kept.{on, queue_at};
ghost use Rattle.ca_bank.specs.Room.{kept_view};
ghost use Rattle.ca_commit.specs.Finding.{Glance, find_at, put_at, take_at, unready};
ghost use Rattle.ca_commit.specs.InPlace.{IsPlainOperation, IsChannelThere};
ghost use Rattle.ca_commit.specs.Showing.{bank_in};
ghost use Rattle.ca_commit.specs.Sights.{TellsFew, found_by};
ghost use Rattle.ca_commit.specs.Standing.{IsAtOne, branch_no, op_at};

use crate::counting::MOST_WAITS;
use crate::finding::{front, holds_one, is_promise};
use crate::held::HeldBank;
use ca_agent::agent::Agent;
use ca_bank::room::Room;
use ca_term::event::{Side, WaitId};
use ca_term::operation::Op;
use ca_value::value::Value;

/// The handler in front of a queue: its wait, and the number of its branch there.
#[derive(Clone, Copy)]
pub struct Partner {
    pub wait: WaitId,
    pub branch: u64,
}

/// What is seen of a branch in its channel alone. Of a wait in front it tells which one decides.
#[derive(Clone, Copy)]
pub enum Sight {
    /// It isn't ready, and the queue that it would join has fewer than 1,024 handlers.
    Unready,
    /// It isn't ready, and that queue is longer: its waits would be counted.
    Crowded,
    /// It is done at once.
    Alone,
    /// It meets the one in front of that side, if that wait lives.
    Meets(Side, Partner),
    /// A put with room that has to wait behind this one, if it lives.
    Rivals(WaitId),
}

// A branch that isn't ready.
fn unready(room: &Room, side: Side) -> Sight
    ensures found { (see : ℕ → Glance) → found_by result see ≡ unready }
    ensures few { TellsFew result (on side (kept_view room.now)) }
{
    if room.waiting(side) < MOST_WAITS {
        Sight::Unready
    } else {
        Sight::Crowded
    }
}

/// A put into the channel, whatever the value.
pub fn put_sight(room: &Room) -> Sight
    ensures found { (see : ℕ → Glance) → found_by result see ≡ put_at see (Some (kept_view room.now)) }
    ensures few { TellsFew result (on Put (kept_view room.now)) }
{
    if room.is_closed() || is_promise(room) {
        return Sight::Alone;
    }
    match front(room, Side::Take) {
        Some(handler) => Sight::Meets(
            Side::Take,
            Partner {
                wait: handler.wait,
                branch: handler.branch,
            },
        ),
        None => {
            if room.has_room() {
                match front(room, Side::Put) {
                    Some(handler) => Sight::Rivals(handler.wait),
                    None => Sight::Alone,
                }
            } else {
                unready(room, Side::Put)
            }
        }
    }
}

/// A take from the channel.
pub fn take_sight(room: &Room) -> Sight
    ensures found { (see : ℕ → Glance) → found_by result see ≡ take_at see (Some (kept_view room.now)) }
    ensures few { TellsFew result (on Take (kept_view room.now)) }
{
    if holds_one(room) {
        return Sight::Alone;
    }
    match front(room, Side::Put) {
        Some(handler) => Sight::Meets(
            Side::Put,
            Partner {
                wait: handler.wait,
                branch: handler.branch,
            },
        ),
        None => {
            if room.is_closed() {
                Sight::Alone
            } else {
                unready(room, Side::Take)
            }
        }
    }
}

// The channel that the operand is; None where it is none in this bank.
fn room_of<'a>(held: &'a HeldBank, channel: &Value) -> Option<&'a Room>
    ensures there { IfSome result (λ r. IsChannelThere (bank_in held.now) (view channel.now)) }
    ensures room { IfSome result (λ r. bank_in held.now (port_of_value (view channel.now)) ≡ Some (kept_view r.now)) }
{
    match channel {
        Value::Port(port) => held.bank.room(*port),
        _ => None,
    }
}

// A put of the value into the channel that the operand is.
fn put_seen(held: &HeldBank, channel: &Value, value: &Value) -> Option<Sight>
    ensures there { IfSome result (λ s. IsChannelThere (bank_in held.now) (view channel.now)) }
    ensures value { IfSome result (λ s. is_nil (view value.now) ≡ false) }
    ensures found { IfSome result (λ s. (see : ℕ → Glance) → found_by s see ≡ put_at see (bank_in held.now (port_of_value (view channel.now)))) }
    ensures few { IfSome result (λ s. TellsFew s (queue_at Put (bank_in held.now (port_of_value (view channel.now))))) }
{
    match value {
        Value::Nil => None,
        _ => match room_of(held, channel) {
            Some(room) => Some(put_sight(room)),
            None => None,
        },
    }
}

/// What is seen of the one branch of the operation at which the task stands. None where `plan` is to decide: it is no
/// take and no put, its channel isn't in this bank, or nil is put.
pub fn sight_of<A: Agent>(held: &HeldBank, agent: &A) -> Option<Sight>
    requires at { is_at_op (A.place agent.now) ≡ true }
    ensures one { IfSome result (λ s. IsAtOne (A.place agent.now)) }
    ensures plain { IfSome result (λ s. IsPlainOperation (bank_in held.now) (op_at (A.place agent.now))) }
    ensures found { let b = branch_no (A.place agent.now) 0 in IfSome result (λ s. (see : ℕ → Glance) → found_by s see ≡ find_at see (bank_in held.now (port_of b)) b) }
    ensures few { let b = branch_no (A.place agent.now) 0 in IfSome result (λ s. TellsFew s (queue_at (side_of b) (bank_in held.now (port_of b)))) }
{
    match &agent.want().op {
        Op::Take(channel) => match room_of(held, channel) {
            Some(room) => Some(take_sight(room)),
            None => None,
        },
        Op::Put(channel, value) => put_seen(held, channel, value),
        Op::Post(channel, value) => put_seen(held, channel, value),
        _ => None,
    }
}
