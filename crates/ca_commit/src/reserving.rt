// Room for what events do to held banks and shards. Nothing else changes.
ghost use Rattle.std.specs.Prelude.{◌≡◌, ◌<◌, ◌≤◌, ℕ, IsSome, OnOk, is_some, true};
ghost use Rattle.ca_bank.specs.Kept.{buffer_at, buffer_spare, queue_spare};
ghost use Rattle.ca_value.specs.View.{trees};
ghost use Rattle.ca_commit.specs.Contents.{home, whole};
ghost use Rattle.ca_commit.specs.Entering.{HasMembersRoom};
ghost use Rattle.ca_commit.specs.NewPort.{HasPortRoom};
ghost use Rattle.ca_commit.specs.Parking.{Grown};
ghost use Rattle.ca_commit.specs.Showing.{channels_held, registries_held, spares_held, waits_held};
ghost use Rattle.ca_commit.specs.Waking.{HasShardRoom};

use crate::held::{Banks, Shards};
use ca_term::event::{Side, WaitId};
use ca_term::head::RegisterName;
use ca_value::memory::OutOfMemory;
use ca_value::value::{PortId, Value};

// Room for one more value in the channel's buffer, if it has one.
pub(crate) fn reserve_buffer(banks: &mut Banks, port: PortId) -> Result<(), OutOfMemory>
    ensures channels { (i : ℕ) → channels_held banks.new i ≡ channels_held banks.old i }
    ensures registries { (i : ℕ) → registries_held banks.new i ≡ registries_held banks.old i }
    ensures room { OnOk result (is_some (buffer_at (whole (channels_held banks.old) port.n)) ≡ true → 0 < buffer_spare (whole (spares_held banks.new) port.n)) }
{
    match banks.place(port.n % 16) {
        Some(place) => banks.items[place].bank.reserve_buffer(port),
        None => Ok(()),
    }
}

// Room for so many more handlers in that queue of the channel.
pub(crate) fn reserve_queue(
    banks: &mut Banks,
    port: PortId,
    side: Side,
    count: u64,
) -> Result<(), OutOfMemory>
    ensures channels { (i : ℕ) → channels_held banks.new i ≡ channels_held banks.old i }
    ensures registries { (i : ℕ) → registries_held banks.new i ≡ registries_held banks.old i }
    ensures room { OnOk result (is_some (whole (channels_held banks.old) port.n) ≡ true → count ≤ queue_spare side (whole (spares_held banks.new) port.n)) }
    ensures more { Grown (whole (spares_held banks.old)) (whole (spares_held banks.new)) }
{
    match banks.place(port.n % 16) {
        Some(place) => banks.items[place].bank.reserve(port, side, count),
        None => Ok(()),
    }
}

// Room for one more wait in the shard of this one.
pub(crate) fn reserve_shard<A: Drop>(
    shards: &mut Shards<A>,
    wait: WaitId,
) -> Result<(), OutOfMemory>
    requires { IsSome (waits_held shards.old (home wait.n)) }
    ensures waits { (i : ℕ) → waits_held shards.new i ≡ waits_held shards.old i }
    ensures room { OnOk result (HasShardRoom shards.new wait.n) }
{
    match shards.place(wait.n % 16) {
        Some(place) => shards.items[place].shard.reserve(),
        None => Ok(()),
    }
}

// Room for one more port in the bank of this one.
pub(crate) fn reserve_port(banks: &mut Banks, port: PortId) -> Result<(), OutOfMemory>
    requires { IsSome (channels_held banks.old (home port.n)) }
    ensures channels { (i : ℕ) → channels_held banks.new i ≡ channels_held banks.old i }
    ensures registries { (i : ℕ) → registries_held banks.new i ≡ registries_held banks.old i }
    ensures room { OnOk result (HasPortRoom banks.new port.n) }
{
    match banks.place(port.n % 16) {
        Some(place) => banks.items[place].bank.reserve_port(),
        None => Ok(()),
    }
}

// Room for the members that the operation adds to the registry.
pub(crate) fn reserve_members(
    banks: &mut Banks,
    port: PortId,
    name: RegisterName,
    rest: &[Value],
) -> Result<(), OutOfMemory>
    ensures channels { (i : ℕ) → channels_held banks.new i ≡ channels_held banks.old i }
    ensures registries { (i : ℕ) → registries_held banks.new i ≡ registries_held banks.old i }
    ensures room { OnOk result (is_some (whole (registries_held banks.old) port.n) ≡ true → HasMembersRoom banks.new port.n name (trees rest.now)) }
{
    match banks.place(port.n % 16) {
        Some(place) => banks.items[place].bank.reserve_register(port, name, rest),
        None => Ok(()),
    }
}
