//! A stale handler leaves its queue.

ghost use Rattle.std.specs.Prelude.{◌≡◌, ℕ, Some, option_map, slice_get};
ghost use Rattle.ca_meaning.specs.Wait.{Handler};
ghost use Rattle.ca_bank.specs.Kept.{Kept, pruned, queue_at};
ghost use Rattle.ca_commit.specs.Contents.{whole};
ghost use Rattle.ca_commit.specs.Listing.{changed_at};
ghost use Rattle.ca_commit.specs.Making.{KeepsOthers};
ghost use Rattle.ca_commit.specs.Showing.{channels_held, registries_held};

use crate::changing::prune;
use crate::held::{Banks, Held};
use ca_term::event::{Side, WaitId};
use ca_value::value::PortId;

// The wait of the handler at that place of the queue, or wait 0.
fn wait_at(banks: &Banks, port: PortId, side: Side, place: u64) -> WaitId
    ensures { (h : Handler) → slice_get (queue_at side (whole (channels_held banks.now) port.n)) place ≡ Some h → result.n ≡ h.wait }
{
    match banks.get(port.n % 16) {
        Some(held) => match held.bank.handler(port, side, place) {
            Some(handler) => handler.wait,
            None => WaitId { n: 0 },
        },
        None => WaitId { n: 0 },
    }
}

/// The handler at that place of the queue leaves it; its wait is answered. It takes no memory.
pub fn prune_held<A: Drop>(held: &mut Held<A>, port: PortId, side: Side, place: u64) -> WaitId
    ensures wait { (h : Handler) → slice_get (queue_at side (whole (channels_held held.old.banks) port.n)) place ≡ Some h → result.n ≡ h.wait }
    ensures channels { (i : ℕ) → channels_held held.new.banks i ≡ changed_at port.n (option_map (pruned side place)) (channels_held held.old.banks) i }
    ensures registries { (i : ℕ) → registries_held held.new.banks i ≡ registries_held held.old.banks i }
    ensures others { KeepsOthers held.old held.new }
{
    let wait = wait_at(&held.banks, port, side, place);
    prune(&mut held.banks, port, side, place);
    wait
}
