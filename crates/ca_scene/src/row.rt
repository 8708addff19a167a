//! What becomes of a put, of a take and of a channel by itself.
ghost use Rattle.std.specs.Prelude.{◌≡◌, option_map, length};
ghost use Rattle.ca_value.specs.Tree.{Tree};
ghost use Rattle.ca_term.specs.declared.event.Side.TheVariants.{Take, Put};
ghost use Rattle.ca_meaning.specs.Channel.{has_room};
ghost use Rattle.ca_meaning.specs.Choice.{is_ready};
ghost use Rattle.ca_meaning.specs.Row.{put_row, take_row};
ghost use Rattle.ca_meaning.specs.Wait.{head};
ghost use Rattle.ca_scene.specs.Scene.{handler_code_view, room_channel, room_queue};

use crate::room::{Handler, Room};
use ca_meaning::row::Policy;
use ca_term::event::Side;

impl Room {
    // Whether the buffer takes one more value.
    pub fn has_room(&self) -> bool
        ensures { result ≡ has_room (room_channel self.now) }
    {
        match self.policy {
            Policy::NoBuffer => false,
            Policy::Fixed => (self.held.len() as u64) < self.capacity,
            Policy::Dropping | Policy::Sliding | Policy::Promise => true,
        }
    }

    /// The first wait on that side.
    pub fn front(&self, side: Side) -> Option<&Handler>
        ensures { option_map (λ h. handler_code_view h.now) result ≡ head (room_queue side self.now) }
    {
        match side {
            Side::Take => self.takes.front(),
            Side::Put => self.puts.front(),
        }
    }

    /// How many wait on that side.
    pub fn waiting(&self, side: Side) -> usize
        ensures { result ≡ length (room_queue side self.now) }
    {
        match side {
            Side::Take => self.takes.len(),
            Side::Put => self.puts.len(),
        }
    }

    /// Whether a put is ready.
    pub(crate) fn takes_put(&self) -> bool
        ensures { (v : Tree) → is_ready (put_row (room_channel self.now) (head (room_queue Take self.now)) (head (room_queue Put self.now)) v) ≡ result }
    {
        if self.closed {
            return true;
        }
        if let Policy::Promise = self.policy {
            return true;
        }
        if self.front(Side::Take).is_some() {
            return true;
        }
        self.has_room() && self.front(Side::Put).is_none()
    }

    /// Whether a take is ready.
    pub(crate) fn gives_take(&self) -> bool
        ensures { is_ready (take_row (room_channel self.now) (head (room_queue Put self.now))) ≡ result }
    {
        if !self.held.is_empty() {
            return true;
        }
        if self.front(Side::Put).is_some() {
            return true;
        }
        self.closed
    }
}
