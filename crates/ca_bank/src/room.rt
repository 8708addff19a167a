ghost use Rattle.std.specs.Prelude.{◌≡◌, ℕ, ◌+◌, ◌-◌, ◌<◌, ◌≤◌, Some, true, false, option_map, OnOk, slice_get, is_some, length, map, remove};
ghost use Rattle.std.specs.VecDeque.{deque_len, deque_capacity};
ghost use Rattle.ca_value.specs.View.{view};
ghost use Rattle.ca_meaning.specs.Channel.{has_room};
ghost use Rattle.ca_bank.specs.Kept.{on, unattended, enqueued, pruned, closed_channel, added, removed, dropped_at, given_at, buffer_at, spare_on, spare_put_on, one_less, spare_in_buffer};
ghost use Rattle.ca_bank.specs.Room.{handler_view, kept_view, spares_view, channel_with, spare_of, room_buffered};

use crate::handler::Handler;
use ca_buffers::any::AnyBuffer;
use ca_buffers::buffer::Buffer;
use ca_term::event::Side;
use ca_value::memory::OutOfMemory;
use ca_value::value::Value;
use std::alloc::Global;
use std::collections::VecDeque;

/// A channel in its bank: its buffer, if it has one, whether it is closed, and a queue for each side.
#[derive(Drop)]
pub struct Room {
    buffer: Option<AnyBuffer>,
    closed: bool,
    takes: VecDeque<Handler>,
    puts: VecDeque<Handler>,
}

impl Room {
    // An open channel with this buffer, where nothing waits. It takes no memory.
    pub(crate) fn new(alloc: Global, buffer: Option<AnyBuffer>) -> Room
        ensures { kept_view result ≡ unattended (channel_with buffer false) }
    {
        Room {
            buffer,
            closed: false,
            takes: VecDeque::new(alloc),
            puts: VecDeque::new(alloc),
        }
    }

    fn queue(&self, side: Side) -> &VecDeque<Handler>
        ensures { map handler_view result.now.items ≡ on side (kept_view self.now) }
    {
        match side {
            Side::Take => &self.takes,
            Side::Put => &self.puts,
        }
    }

    /// The handler at that place of the queue, from 0; None exactly where the place is past the last one.
    pub fn handler(&self, side: Side, place: u64) -> Option<&Handler>
        ensures { option_map (λ h. handler_view h.now) result ≡ slice_get (on side (kept_view self.now)) place }
    {
        self.queue(side).get(place as usize)
    }

    /// How many handlers the queue has, stale ones too.
    pub fn waiting(&self, side: Side) -> u64
        ensures { result ≡ length (on side (kept_view self.now)) }
    {
        self.queue(side).len() as u64
    }

    pub(crate) fn enqueue(&mut self, side: Side, handler: Handler)
        requires { 0 < spare_on side (spares_view self.old) }
        ensures kept { kept_view self.new ≡ enqueued side (handler_view handler) (kept_view self.old) }
        ensures spares { spares_view self.new ≡ one_less side (spares_view self.old) }
    {
        match side {
            Side::Take => self.takes.push_back_reserved(handler),
            Side::Put => self.puts.push_back_reserved(handler),
        }
    }

    // Room for n more handlers on that side.
    pub(crate) fn reserve(&mut self, side: Side, n: u64) -> Result<(), OutOfMemory>
        ensures spare { OnOk result (n ≤ spare_on side (spares_view self.new)) }
        ensures kept { kept_view self.new ≡ kept_view self.old }
        ensures spares { spares_view self.new ≡ spare_put_on side (spare_on side (spares_view self.new)) (spares_view self.old) }
        ensures more { spare_on side (spares_view self.old) ≤ spare_on side (spares_view self.new) }
    {
        match side {
            Side::Take => self.takes.reserve(n as usize)?,
            Side::Put => self.puts.reserve(n as usize)?,
        }
        Ok(())
    }

    // Takes the handler at that place out. At the front it costs the same however many there are.
    pub(crate) fn prune(&mut self, side: Side, place: u64) -> Option<Handler>
        ensures handler { option_map handler_view result ≡ slice_get (on side (kept_view self.old)) place }
        ensures kept { kept_view self.new ≡ pruned side place (kept_view self.old) }
        ensures spares { spare_on side (spares_view self.old) ≤ spare_on side (spares_view self.new) }
        ensures others { spares_view self.new ≡ spare_put_on side (spare_on side (spares_view self.new)) (spares_view self.old) }
    {
        match side {
            Side::Take => take_at(&mut self.takes, place),
            Side::Put => take_at(&mut self.puts, place),
        }
    }

    pub(crate) fn close(&mut self)
        ensures kept { kept_view self.new ≡ closed_channel (kept_view self.old) }
        ensures spares { spares_view self.new ≡ spares_view self.old }
    {
        self.closed = true;
    }

    /// Whether the channel is closed.
    pub fn is_closed(&self) -> bool
        ensures { result ≡ (kept_view self.now).channel.closed }
    {
        self.closed
    }

    /// The channel's buffer; None exactly where it has none.
    pub fn buffer(&self) -> Option<&AnyBuffer>
        ensures { option_map (λ b. room_buffered b.now) result ≡ buffer_at (Some (kept_view self.now)) }
    {
        self.buffer.as_ref()
    }

    /// Whether the channel has a buffer that takes one more value.
    pub fn has_room(&self) -> bool
        ensures { result ≡ has_room (kept_view self.now).channel }
    {
        match &self.buffer {
            Some(buffer) => !buffer.is_full(),
            None => false,
        }
    }

    pub(crate) fn add(&mut self, value: Value) -> Option<Value>
        requires room { has_room (kept_view self.old).channel ≡ true }
        requires spare { 0 < (spares_view self.old).buffer }
        ensures kept { kept_view self.new ≡ added (view value) (kept_view self.old) }
        ensures dropped { option_map view result ≡ dropped_at (Some (kept_view self.old)) (view value) }
        ensures spares { spares_view self.new ≡ spare_in_buffer (spares_view self.new).buffer (spares_view self.old) }
        ensures less { (spares_view self.old).buffer ≤ (spares_view self.new).buffer + 1 }
    {
        match &mut self.buffer {
            Some(buffer) => buffer.add(value),
            None => None,
        }
    }

    pub(crate) fn remove(&mut self) -> Option<Value>
        ensures kept { kept_view self.new ≡ removed (kept_view self.old) }
        ensures given { option_map view result ≡ given_at (Some (kept_view self.old)) }
        ensures spares { spares_view self.new ≡ spare_in_buffer (spares_view self.new).buffer (spares_view self.old) }
        ensures more { (spares_view self.old).buffer ≤ (spares_view self.new).buffer }
    {
        match &mut self.buffer {
            Some(buffer) => buffer.remove(),
            None => None,
        }
    }

    // Room for one more value in its buffer, if it has one.
    pub(crate) fn reserve_buffer(&mut self) -> Result<(), OutOfMemory>
        ensures spare { OnOk result (is_some (buffer_at (Some (kept_view self.old))) ≡ true → 0 < (spares_view self.new).buffer) }
        ensures kept { kept_view self.new ≡ kept_view self.old }
        ensures spares { spares_view self.new ≡ spare_in_buffer (spares_view self.new).buffer (spares_view self.old) }
        ensures more { (spares_view self.old).buffer ≤ (spares_view self.new).buffer }
    {
        match &mut self.buffer {
            Some(buffer) => buffer.reserve(),
            None => Ok(()),
        }
    }
}

// Takes the item at that place out. In front it costs the same however many there are.
#[inline(always)]
#[tactic(auto, using(crate::proofs::Queues::view_removed, crate::proofs::Queues::view_past))]
fn take_at(queue: &mut VecDeque<Handler>, place: u64) -> Option<Handler>
    ensures handler { option_map handler_view result ≡ slice_get (map handler_view queue.old.items) place }
    ensures queue { map handler_view queue.new.items ≡ remove (map handler_view queue.old.items) place }
    ensures spare { deque_capacity queue.old - deque_len queue.old ≤ deque_capacity queue.new - deque_len queue.new }
{
    match queue.remove(place as usize) {
        Some(handler) => Some(handler),
        None => None,
    }
}
