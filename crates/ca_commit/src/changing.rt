// What events do to held banks. None of it takes memory.
ghost use Rattle.std.specs.Prelude.{◌≡◌, ◌<◌, ℕ, is_some, option_map, true};
ghost use Rattle.ca_value.specs.Seq.{list};
ghost use Rattle.ca_value.specs.View.{trees, view};
ghost use Rattle.ca_term.specs.declared.event.Side.TheVariants.{Put};
ghost use Rattle.ca_bank.specs.Bank.{kept_made, new_registry};
ghost use Rattle.ca_bank.specs.Kept.{buffer_spare, closed_channel, enqueued, one_less, pruned, queue_spare};
ghost use Rattle.ca_registry.specs.Mixes.{TogglesApart};
ghost use Rattle.ca_registry.specs.Registry.{registry_after};
ghost use Rattle.ca_bank.specs.Room.{handler_view};
ghost use Rattle.ca_commit.specs.Branching.{branch_by};
ghost use Rattle.ca_commit.specs.Contents.{whole};
ghost use Rattle.ca_commit.specs.Entering.{HasMembersRoom};
ghost use Rattle.ca_commit.specs.Listing.{changed_at};
ghost use Rattle.ca_commit.specs.NewPort.{HasPortRoom};
ghost use Rattle.ca_commit.specs.Replies.{HasDoneRoom, done_change};
ghost use Rattle.ca_commit.specs.Running.{or_was};
ghost use Rattle.ca_commit.specs.Settling.{HasRoomToServe, settle_change};
ghost use Rattle.ca_commit.specs.Showing.{channels_held, registries_held, spares_held};

use crate::held::Banks;
use crate::in_place::change_done;
use crate::settle_in_place::change_settled;
use ca_bank::bank::Made;
use ca_bank::handler::Handler;
use ca_term::event::Side;
use ca_term::head::RegisterName;
use ca_value::value::{Items, PortId, Value};
use std::alloc::Global;

// The channel is closed.
pub(crate) fn close(banks: &mut Banks, port: PortId)
    ensures channels { (i : ℕ) → channels_held banks.new i ≡ changed_at port.n (option_map closed_channel) (channels_held banks.old) i }
    ensures registries { (i : ℕ) → registries_held banks.new i ≡ registries_held banks.old i }
{
    if let Some(place) = banks.place(port.n % 16) {
        banks.items[place].bank.close(port);
    }
}

// A branch is done in its channel, if its bank is held: `brought` is the value of a put.
pub(crate) fn do_in(banks: &mut Banks, port: PortId, brought: Option<Value>)
    requires { HasDoneRoom (whole (channels_held banks.old) port.n) (whole (spares_held banks.old) port.n) (branch_by port.n (option_map view brought)) }
    ensures channels { (i : ℕ) → channels_held banks.new i ≡ changed_at port.n (option_map (done_change (branch_by port.n (option_map view brought)))) (channels_held banks.old) i }
    ensures registries { (i : ℕ) → registries_held banks.new i ≡ registries_held banks.old i }
{
    match banks.place(port.n % 16) {
        Some(place) => change_done(&mut banks.items[place].bank, port, brought),
        None => {}
    }
}

// The channel serves a side, if its bank is held: a value that moves in was made before.
pub(crate) fn serve_in(banks: &mut Banks, port: PortId, side: Side, value: Value)
    requires room { HasRoomToServe (whole (channels_held banks.old) port.n) side }
    requires spare { side ≡ Put → 0 < buffer_spare (whole (spares_held banks.old) port.n) }
    ensures channels { (i : ℕ) → channels_held banks.new i ≡ changed_at port.n (option_map (settle_change side (view value))) (channels_held banks.old) i }
    ensures registries { (i : ℕ) → registries_held banks.new i ≡ registries_held banks.old i }
{
    match banks.place(port.n % 16) {
        Some(place) => change_settled(&mut banks.items[place].bank, port, side, value),
        None => {}
    }
}

// The handler at that place leaves its queue.
#[inline(always)]
pub(crate) fn prune(banks: &mut Banks, port: PortId, side: Side, place: u64)
    ensures channels { (i : ℕ) → channels_held banks.new i ≡ changed_at port.n (option_map (pruned side place)) (channels_held banks.old) i }
    ensures registries { (i : ℕ) → registries_held banks.new i ≡ registries_held banks.old i }
{
    if let Some(at) = banks.place(port.n % 16) {
        let _ = banks.items[at].bank.prune(port, side, place);
    }
}

// The handler stands last in its queue.
#[inline(always)]
pub(crate) fn enqueue(banks: &mut Banks, port: PortId, side: Side, handler: Handler)
    requires { 0 < queue_spare side (whole (spares_held banks.old) port.n) }
    ensures channels { (i : ℕ) → channels_held banks.new i ≡ changed_at port.n (option_map (enqueued side (handler_view handler))) (channels_held banks.old) i }
    ensures registries { (i : ℕ) → registries_held banks.new i ≡ registries_held banks.old i }
    ensures spares { (i : ℕ) → spares_held banks.new i ≡ changed_at port.n (option_map (one_less side)) (spares_held banks.old) i }
{
    if let Some(place) = banks.place(port.n % 16) {
        banks.items[place].bank.enqueue(port, side, handler);
    }
}

// What is made stands at the port.
pub(crate) fn make(alloc: Global, banks: &mut Banks, port: PortId, made: Made)
    requires { HasPortRoom banks.old port.n }
    ensures channels { (i : ℕ) → channels_held banks.new i ≡ changed_at port.n (or_was (kept_made made)) (channels_held banks.old) i }
    ensures registries { (i : ℕ) → registries_held banks.new i ≡ changed_at port.n (or_was (new_registry made)) (registries_held banks.old) i }
{
    match banks.place(port.n % 16) {
        Some(place) => banks.items[place].bank.make(alloc, port, made),
        None => {}
    }
}

// The registry changes by the operation.
pub(crate) fn register(banks: &mut Banks, port: PortId, name: RegisterName, rest: Items)
    requires there { is_some (whole (registries_held banks.old) port.n) ≡ true }
    requires room { HasMembersRoom banks.old port.n name (trees (list rest)) }
    requires apart { TogglesApart name (trees (list rest)) }
    ensures channels { (i : ℕ) → channels_held banks.new i ≡ channels_held banks.old i }
    ensures registries { (i : ℕ) → registries_held banks.new i ≡ changed_at port.n (option_map (registry_after name (trees (list rest)))) (registries_held banks.old) i }
{
    match banks.place(port.n % 16) {
        Some(place) => banks.items[place].bank.register(port, name, rest),
        None => {}
    }
}
