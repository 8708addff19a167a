ghost use Rattle.std.specs.Prelude.{◌≡◌, ℕ, ◌+◌, ◌%◌, ◌<◌, ◌≤◌, None, Some, true, false, OnOk, IfOk, IfErr, eqb, is_some, length, option_map, slice_get, nat_eq};
ghost use Rattle.std.specs.Map.{update};
ghost use Rattle.indexmap.specs.IndexMap.{get};
ghost use Rattle.ca_value.specs.Seq.{list};
ghost use Rattle.ca_value.specs.View.{view, trees};
ghost use Rattle.ca_term.specs.Event.{port_number};
ghost use Rattle.ca_bank.specs.Kept.{entry_changed, unattended, enqueued, pruned, closed_channel, added, removed, queue_at, is_closed_at, buffer_at, takes_one_more, dropped_at, given_at, queue_spare, buffer_spare, spare_put_on, one_less, spare_in_buffer};
ghost use Rattle.ca_registry.specs.Kind.{kind_of_registry};
ghost use Rattle.ca_registry.specs.Registries.{answered, IsCause, members_added};
ghost use Rattle.ca_registry.specs.Mixes.{TogglesApart};
ghost use Rattle.ca_registry.specs.Publications.{PlacesItself};
ghost use Rattle.ca_registry.specs.Registry.{registry_view, comes_to, registry_after};
ghost use Rattle.ca_bank.specs.Room.{handler_view, kept_view, room_buffered};

use crate::handler::Handler;
use crate::room::Room;
use ca_buffers::any::AnyBuffer;
use ca_registry::kind::PortKind;
use ca_registry::registry::{Registry, members_added};
use ca_registry::registry_error::RegisterError;
use ca_term::event::Side;
use ca_term::head::RegisterName;
use ca_value::memory::OutOfMemory;
use ca_value::value::{Items, PortId, Value};
use indexmap::IndexMap;
use std::alloc::Global;

/// What is made at a new port.
#[derive(Drop)]
pub enum Made {
    /// A channel with that buffer, or without one.
    Channel(Option<AnyBuffer>),
    /// The source.
    Mult(PortId),
    /// The output, then the change channel.
    Mix(PortId, PortId),
    /// The source.
    Pub(PortId),
}

// Where the channel of that number stands in its bank, of sixteen, if all ports before it are channels.
fn likely_place(port: PortId) -> usize {
    (port.n.saturating_sub(1) / 16) as usize
}

/// The channels and registries of one bank, by number.
#[derive(Drop)]
pub struct Bank {
    rooms: IndexMap<u64, Room>,
    registries: IndexMap<u64, Registry>,
    number: u64,
    count: u64,
    ghost within: { number < count },
    ghost placed: { (p : ℕ) → is_some (get nat_eq rooms p) ≡ true → eqb (p % count) number ≡ true },
    ghost registered: { (p : ℕ) → is_some (get nat_eq registries p) ≡ true → eqb (p % count) number ≡ true },
}

impl Bank {
    ghost use Rattle.ca_bank.specs.Shard.{belongs};
    ghost use Rattle.ca_bank.specs.Bank.{kept_at, channel_at, spares_at, registry_at, members_spare_at, bank_number, bank_count, channels_spare, registries_spare, SameBank, SameChannels, SameRegistries, ArePlaced, kind_of_port, with_made, kept_made, new_registry};

    /// The bank of that number, of so many: it has no port, and takes no memory.
    pub fn new(alloc: Global, number: u64, count: u64) -> Bank
        requires { number < count }
        ensures channels { (p : ℕ) → kept_at result p ≡ None }
        ensures registries { (p : ℕ) → registry_at result p ≡ None }
        ensures number { bank_number result ≡ number }
        ensures count { bank_count result ≡ count }
    {
        Bank {
            rooms: IndexMap::new(alloc),
            registries: IndexMap::new(alloc),
            number,
            count,
        }
    }

    // The channel. A bank's channels are numbered as they are made, and none leaves: so one mostly stands at the place that
    // its number tells. It is looked up where it doesn't.
    fn find(&self, port: PortId) -> Option<&Room>
        ensures { option_map (λ r. r.now) result ≡ get nat_eq self.now.rooms port.n }
    {
        if let Some((number, room)) = self.rooms.get_index(likely_place(port)) {
            if *number == port.n {
                return Some(room);
            }
        }
        self.rooms.get(&port.n)
    }

    /// Whether the port can stand in this bank.
    pub fn owns(&self, port: PortId) -> bool
        ensures owns { result ≡ belongs (bank_number self.now) (bank_count self.now) port.n }
        ensures placed { ArePlaced self.now }
    {
        port.n % self.count == self.number
    }

    /// What the port is; None exactly where it isn't in this bank.
    pub fn kind(&self, port: PortId) -> Option<PortKind>
        ensures { result ≡ kind_of_port (kept_at self.now port.n) (registry_at self.now port.n) }
    {
        match self.find(port) {
            Some(_) => Some(PortKind::Channel),
            None => self.registry_kind(port),
        }
    }

    /// The channel at that place, from 0 on, in no order that tells anything; None exactly where the place is past the
    /// last one.
    pub fn channel_at(&self, place: usize) -> Option<PortId>
        ensures { option_map port_number result ≡ channel_at self.now place }
    {
        match self.rooms.get_index(place) {
            Some((number, _)) => Some(PortId { n: *number }),
            None => None,
        }
    }

    /// What the registry is that the port names; None exactly where it names none in this bank.
    pub fn registry_kind(&self, port: PortId) -> Option<PortKind>
        ensures { result ≡ kind_of_registry (registry_at self.now port.n) }
    {
        match self.registries.get(&port.n) {
            Some(registry) => Some(registry.kind()),
            None => None,
        }
    }

    /// The channel, for whoever asks it more than one thing: each question to the bank looks it up. None exactly where the
    /// port is no channel in this bank.
    pub fn room(&self, port: PortId) -> Option<&Room>
        ensures { option_map (λ r. kept_view r.now) result ≡ kept_at self.now port.n }
    {
        self.find(port)
    }

    /// The handler at that place of the queue, from 0; None exactly where the place is past the last one.
    pub fn handler(&self, port: PortId, side: Side, place: u64) -> Option<&Handler>
        ensures { option_map (λ h. handler_view h.now) result ≡ slice_get (queue_at side (kept_at self.now port.n)) place }
    {
        match self.find(port) {
            Some(room) => room.handler(side, place),
            None => None,
        }
    }

    /// How many handlers the queue has, stale ones too.
    pub fn waiting(&self, port: PortId, side: Side) -> u64
        ensures { result ≡ length (queue_at side (kept_at self.now port.n)) }
    {
        match self.find(port) {
            Some(room) => room.waiting(side),
            None => 0,
        }
    }

    /// Whether the channel is closed.
    pub fn is_closed(&self, port: PortId) -> bool
        ensures { result ≡ is_closed_at (kept_at self.now port.n) }
    {
        match self.find(port) {
            Some(room) => room.is_closed(),
            None => false,
        }
    }

    /// The channel's buffer; None exactly where it has none.
    pub fn buffer(&self, port: PortId) -> Option<&AnyBuffer>
        ensures { option_map (λ b. room_buffered b.now) result ≡ buffer_at (kept_at self.now port.n) }
    {
        match self.find(port) {
            Some(room) => room.buffer(),
            None => None,
        }
    }

    /// Whether the port is a channel here.
    pub fn is_channel(&self, port: PortId) -> bool
        ensures { result ≡ is_some (kept_at self.now port.n) }
    {
        self.find(port).is_some()
    }

    /// Whether the port is a registry here.
    pub fn is_registry(&self, port: PortId) -> bool
        ensures { result ≡ is_some (registry_at self.now port.n) }
    {
        self.registries.get(&port.n).is_some()
    }

    /// Whether the channel has a buffer that takes one more value.
    pub fn has_room(&self, port: PortId) -> bool
        ensures { result ≡ takes_one_more (kept_at self.now port.n) }
    {
        match self.find(port) {
            Some(room) => room.has_room(),
            None => false,
        }
    }

    /// Makes room for one more port, and changes nothing else.
    pub fn reserve_port(&mut self) -> Result<(), OutOfMemory>
        ensures channels { OnOk result (0 < channels_spare self.new) }
        ensures registries { OnOk result (0 < registries_spare self.new) }
        ensures kept { (p : ℕ) → kept_at self.new p ≡ kept_at self.old p }
        ensures spares { (p : ℕ) → spares_at self.new p ≡ spares_at self.old p }
        ensures same { SameBank self.old self.new }
        ensures others { SameRegistries self.old self.new }
    {
        self.rooms.reserve(1)?;
        self.registries.reserve(1)?;
        Ok(())
    }

    /// Adds the port. It takes no memory.
    pub fn make(&mut self, alloc: Global, port: PortId, made: Made)
        requires belongs { belongs (bank_number self.old) (bank_count self.old) port.n ≡ true }
        requires channels { 0 < channels_spare self.old }
        requires registries { 0 < registries_spare self.old }
        ensures kept { (p : ℕ) → kept_at self.new p ≡ with_made port.n (kept_made made) (kept_at self.old) p }
        ensures registered { (p : ℕ) → registry_at self.new p ≡ with_made port.n (new_registry made) (registry_at self.old) p }
        ensures spare { channels_spare self.old ≤ channels_spare self.new + 1 }
        ensures more { registries_spare self.old ≤ registries_spare self.new + 1 }
        ensures number { bank_number self.new ≡ bank_number self.old }
        ensures count { bank_count self.new ≡ bank_count self.old }
    {
        match made {
            Made::Channel(buffer) => self.add_room(port, Room::new(alloc, buffer)),
            Made::Mult(source) => self.add_registry(port, Registry::mult(alloc, source)),
            Made::Mix(out, changes) => self.add_registry(port, Registry::mix(alloc, out, changes)),
            Made::Pub(source) => self.add_registry(port, Registry::publication(alloc, source)),
        }
    }

    fn add_room(&mut self, port: PortId, room: Room)
        requires belongs { belongs (bank_number self.old) (bank_count self.old) port.n ≡ true }
        requires spare { 0 < channels_spare self.old }
        ensures kept { (p : ℕ) → kept_at self.new p ≡ update eqb (kept_at self.old) port.n (Some (kept_view room)) p }
        ensures registered { (p : ℕ) → registry_at self.new p ≡ registry_at self.old p }
        ensures spare { channels_spare self.old ≤ channels_spare self.new + 1 }
        ensures more { registries_spare self.old ≤ registries_spare self.new }
        ensures number { bank_number self.new ≡ bank_number self.old }
        ensures count { bank_count self.new ≡ bank_count self.old }
    {
        match self.rooms.insert(port.n, room) {
            Ok(_) => {}
            Err(_) => unreachable!(),
        }
    }

    fn add_registry(&mut self, port: PortId, registry: Registry)
        requires belongs { belongs (bank_number self.old) (bank_count self.old) port.n ≡ true }
        requires spare { 0 < registries_spare self.old }
        ensures kept { (p : ℕ) → kept_at self.new p ≡ kept_at self.old p }
        ensures registered { (p : ℕ) → registry_at self.new p ≡ update eqb (registry_at self.old) port.n (Some (registry_view registry)) p }
        ensures spare { channels_spare self.old ≤ channels_spare self.new }
        ensures more { registries_spare self.old ≤ registries_spare self.new + 1 }
        ensures number { bank_number self.new ≡ bank_number self.old }
        ensures count { bank_count self.new ≡ bank_count self.old }
    {
        match self.registries.insert(port.n, registry) {
            Ok(_) => {}
            Err(_) => unreachable!(),
        }
    }

    /// Makes room for `n` more handlers on that side of the channel, and changes nothing else.
    pub fn reserve(&mut self, port: PortId, side: Side, n: u64) -> Result<(), OutOfMemory>
        ensures spare { OnOk result (is_some (kept_at self.old port.n) ≡ true → n ≤ queue_spare side (spares_at self.new port.n)) }
        ensures kept { (p : ℕ) → kept_at self.new p ≡ kept_at self.old p }
        ensures spares { (p : ℕ) → spares_at self.new p ≡ entry_changed (spares_at self.old) port.n (spare_put_on side (queue_spare side (spares_at self.new port.n))) p }
        ensures more { queue_spare side (spares_at self.old port.n) ≤ queue_spare side (spares_at self.new port.n) }
        ensures same { SameBank self.old self.new }
        ensures others { SameRegistries self.old self.new }
    {
        match self.rooms.get_mut(&port.n) {
            Some(room) => room.reserve(side, n),
            None => Ok(()),
        }
    }

    /// Adds the handler last on that side of the channel. It takes no memory.
    pub fn enqueue(&mut self, port: PortId, side: Side, handler: Handler)
        requires { 0 < queue_spare side (spares_at self.old port.n) }
        ensures kept { (p : ℕ) → kept_at self.new p ≡ entry_changed (kept_at self.old) port.n (enqueued side (handler_view handler)) p }
        ensures spares { (p : ℕ) → spares_at self.new p ≡ entry_changed (spares_at self.old) port.n (one_less side) p }
        ensures same { SameBank self.old self.new }
        ensures others { SameRegistries self.old self.new }
    {
        if let Some(room) = self.rooms.get_mut(&port.n) {
            room.enqueue(side, handler);
        }
    }

    /// Takes the handler at that place out; None exactly where the place is past the last one. In front it
    /// costs the same however many there are.
    pub fn prune(&mut self, port: PortId, side: Side, place: u64) -> Option<Handler>
        ensures handler { option_map handler_view result ≡ slice_get (queue_at side (kept_at self.old port.n)) place }
        ensures kept { (p : ℕ) → kept_at self.new p ≡ entry_changed (kept_at self.old) port.n (pruned side place) p }
        ensures spares { (p : ℕ) → spares_at self.new p ≡ entry_changed (spares_at self.old) port.n (spare_put_on side (queue_spare side (spares_at self.new port.n))) p }
        ensures more { queue_spare side (spares_at self.old port.n) ≤ queue_spare side (spares_at self.new port.n) }
        ensures same { SameBank self.old self.new }
        ensures others { SameRegistries self.old self.new }
    {
        match self.rooms.get_mut(&port.n) {
            Some(room) => room.prune(side, place),
            None => None,
        }
    }

    /// Closes the channel. What it holds and who waits stay.
    pub fn close(&mut self, port: PortId)
        ensures kept { (p : ℕ) → kept_at self.new p ≡ entry_changed (kept_at self.old) port.n closed_channel p }
        ensures spares { (p : ℕ) → spares_at self.new p ≡ spares_at self.old p }
        ensures same { SameBank self.old self.new }
        ensures others { SameRegistries self.old self.new }
    {
        if let Some(room) = self.rooms.get_mut(&port.n) {
            room.close();
        }
    }

    /// Makes room for one more value in the channel's buffer, if it has one, and changes nothing else.
    pub fn reserve_buffer(&mut self, port: PortId) -> Result<(), OutOfMemory>
        ensures spare { OnOk result (is_some (buffer_at (kept_at self.old port.n)) ≡ true → 0 < buffer_spare (spares_at self.new port.n)) }
        ensures kept { (p : ℕ) → kept_at self.new p ≡ kept_at self.old p }
        ensures spares { (p : ℕ) → spares_at self.new p ≡ entry_changed (spares_at self.old) port.n (spare_in_buffer (buffer_spare (spares_at self.new port.n))) p }
        ensures more { buffer_spare (spares_at self.old port.n) ≤ buffer_spare (spares_at self.new port.n) }
        ensures same { SameBank self.old self.new }
        ensures others { SameRegistries self.old self.new }
    {
        match self.rooms.get_mut(&port.n) {
            Some(room) => room.reserve_buffer(),
            None => Ok(()),
        }
    }

    /// Adds the value to the channel's buffer, and gives the value that is dropped, if any. It takes no
    /// memory.
    pub fn add(&mut self, port: PortId, value: Value) -> Option<Value>
        requires room { takes_one_more (kept_at self.old port.n) ≡ true }
        requires spare { 0 < buffer_spare (spares_at self.old port.n) }
        ensures kept { (p : ℕ) → kept_at self.new p ≡ entry_changed (kept_at self.old) port.n (added (view value)) p }
        ensures dropped { option_map view result ≡ dropped_at (kept_at self.old port.n) (view value) }
        ensures spares { (p : ℕ) → spares_at self.new p ≡ entry_changed (spares_at self.old) port.n (spare_in_buffer (buffer_spare (spares_at self.new port.n))) p }
        ensures less { buffer_spare (spares_at self.old port.n) ≤ buffer_spare (spares_at self.new port.n) + 1 }
        ensures same { SameBank self.old self.new }
        ensures others { SameRegistries self.old self.new }
    {
        match self.rooms.get_mut(&port.n) {
            Some(room) => room.add(value),
            None => None,
        }
    }

    /// Takes the oldest value out of the channel's buffer; None where there is none. Nothing leaves a promise.
    pub fn remove(&mut self, port: PortId) -> Option<Value>
        ensures kept { (p : ℕ) → kept_at self.new p ≡ entry_changed (kept_at self.old) port.n removed p }
        ensures given { option_map view result ≡ given_at (kept_at self.old port.n) }
        ensures spares { (p : ℕ) → spares_at self.new p ≡ entry_changed (spares_at self.old) port.n (spare_in_buffer (buffer_spare (spares_at self.new port.n))) p }
        ensures more { buffer_spare (spares_at self.old port.n) ≤ buffer_spare (spares_at self.new port.n) }
        ensures same { SameBank self.old self.new }
        ensures others { SameRegistries self.old self.new }
    {
        match self.rooms.get_mut(&port.n) {
            Some(room) => room.remove(),
            None => None,
        }
    }

    /// What the operation on a registry answers, by the table of registry operations. No two keys of a
    /// toggle may name one channel, and a topic that is placed is equal to itself; both hold of
    /// every value whose keys are channels (`apart` has the tests).
    pub fn answer(
        &self,
        alloc: Global,
        port: PortId,
        name: RegisterName,
        args: &[Value],
    ) -> Result<Value, RegisterError>
        requires apart { TogglesApart name (trees args.now) }
        requires itself { PlacesItself name (trees args.now) }
        ensures ok { IfOk result (λ v. answered (comes_to (registry_at self.now port.n) name (trees args.now)) ≡ Some (view v)) }
        ensures err { IfErr result (λ e. IsCause e (comes_to (registry_at self.now port.n) name (trees args.now))) }
    {
        match self.registries.get(&port.n) {
            Some(registry) => registry.answer(alloc, name, args),
            None => Err(RegisterError::NotAPort),
        }
    }

    /// Makes room for the change of the operation, and changes nothing else.
    pub fn reserve_register(
        &mut self,
        port: PortId,
        name: RegisterName,
        args: &[Value],
    ) -> Result<(), OutOfMemory>
        ensures spare { OnOk result (is_some (registry_at self.old port.n) ≡ true → members_added name (trees args.now) ≤ members_spare_at self.new port.n) }
        ensures registered { (p : ℕ) → registry_at self.new p ≡ registry_at self.old p }
        ensures more { members_spare_at self.old port.n ≤ members_spare_at self.new port.n }
        ensures same { SameBank self.old self.new }
        ensures others { SameChannels self.old self.new }
    {
        let n = members_added(name, args);
        match self.registries.get_mut(&port.n) {
            Some(registry) => registry.reserve(n),
            None => Ok(()),
        }
    }

    /// The change of the operation; where it faults there is none. It takes no memory.
    pub fn register(&mut self, port: PortId, name: RegisterName, args: Items)
        requires room { members_added name (trees (list args)) ≤ members_spare_at self.old port.n }
        requires apart { TogglesApart name (trees (list args)) }
        ensures registered { (p : ℕ) → registry_at self.new p ≡ entry_changed (registry_at self.old) port.n (registry_after name (trees (list args))) p }
        ensures same { SameBank self.old self.new }
        ensures others { SameChannels self.old self.new }
    {
        if let Some(registry) = self.registries.get_mut(&port.n) {
            registry.register(name, args);
        }
    }
}
