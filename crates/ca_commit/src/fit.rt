// What stands at ports, as far as the held banks tell. How operands are judged by it is `ca_registry`'s.
ghost use Rattle.std.specs.Prelude.{◌≡◌, ◌%◌, is_some};
ghost use Rattle.ca_registry.specs.Kind.{kind_of_registry};
ghost use Rattle.ca_commit.specs.Contents.{whole};
ghost use Rattle.ca_commit.specs.Showing.{channels_held, registries_held};

use crate::held::{Banks, HeldBank};
use crate::listing::Listing;
use ca_registry::fit::Ports;
use ca_registry::kind::PortKind;
use ca_registry::need::Need;
use ca_value::value::PortId;

// Whether a held bank has the channel.
#[inline(always)]
fn has_channel(banks: &Banks, port: PortId) -> bool
    ensures { result ≡ is_some (whole (channels_held banks.now) port.n) }
{
    match banks.get(port.n % 16) {
        Some(held) => held.bank.is_channel(port),
        None => false,
    }
}

// What the registry is that the port names in a held bank, if it names one.
fn registry_kind(banks: &Banks, port: PortId) -> Option<PortKind>
    ensures { result ≡ kind_of_registry (whole (registries_held banks.now) port.n) }
{
    match banks.get(port.n % 16) {
        Some(held) => held.bank.registry_kind(port),
        None => None,
    }
}

impl Ports for Listing<HeldBank> {
    ghost use Rattle.ca_commit.specs.Showing.{state_held};

    ghost state = { state_held };

    fn is_port_to(&self, need: Need, port: PortId) -> bool {
        match need {
            Need::Channel => has_channel(self, port),
            Need::Mult => match registry_kind(self, port) {
                Some(PortKind::Mult) => true,
                _ => false,
            },
            Need::Mix => match registry_kind(self, port) {
                Some(PortKind::Mix) => true,
                _ => false,
            },
            Need::Publication => match registry_kind(self, port) {
                Some(PortKind::Pub) => true,
                _ => false,
            },
            Need::Anything => true,
        }
    }
}
