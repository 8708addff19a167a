// Whether an operation on a registry is refused.
ghost use Rattle.std.specs.Prelude.{◌≡◌, IfOk, true};
ghost use Rattle.ca_value.specs.View.{trees};
ghost use Rattle.ca_meaning.specs.Operands.{or_else, first_of, rest_of, port_of_value};
ghost use Rattle.ca_meaning.specs.Refusal.{fault_of_registered, is_channel, needs_to_register, registered_at, registering_gives, unmet};
ghost use Rattle.ca_meaning.specs.Registry.{all_channels, pairs_in};
ghost use Rattle.ca_commit.specs.Showing.{registries_held, state_held};
ghost use Rattle.ca_commit.specs.Registering.{RegistersApart};
ghost use Rattle.ca_commit.specs.Contents.{whole};
ghost use Rattle.ca_bank.specs.Bank.{registry_at};
ghost use Rattle.ca_registry.specs.Mixes.{TogglesApart};
ghost use Rattle.ca_registry.specs.Publications.{PlacesItself};
ghost use Rattle.ca_registry.specs.Registry.{comes_to};

use crate::held::Banks;
use ca_asking::operands::port_of;
use ca_bank::bank::Bank;
use ca_registry::fit::{keys_pass, unmet};
use ca_registry::need::needs_to_register;
use ca_registry::registry_error::RegisterError;
use ca_term::fault::Fault;
use ca_term::head::RegisterName;
use ca_value::memory::OutOfMemory;
use ca_value::value::{PortId, Value};
use std::alloc::Global;

// What the table says of the operation on a registry of this bank, whose keys are channels.
fn table_fault(
    alloc: Global,
    bank: &Bank,
    port: PortId,
    name: RegisterName,
    rest: &[Value],
) -> Result<Option<Fault>, OutOfMemory>
    requires apart { TogglesApart name (trees rest.now) }
    requires itself { PlacesItself name (trees rest.now) }
    ensures { IfOk result (λ o. o ≡ fault_of_registered (comes_to (registry_at bank.now port.n) name (trees rest.now))) }
{
    match bank.answer(alloc, port, name, rest) {
        Ok(_) => Ok(None),
        Err(RegisterError::NotAPort) => Ok(Some(Fault::NotAPort)),
        Err(RegisterError::TooManyMembers) => Ok(Some(Fault::TooManyMembers)),
        Err(RegisterError::OutOfMemory) => Err(OutOfMemory),
    }
}

// What the table says of the operation.
#[tactic(auto, using(ca_registry::proofs::KeyLaws::refused_keys, ca_registry::proofs::KeyLaws::same_table, ca_registry::proofs::KeyLaws::apart_by))]
fn registry_fault(
    alloc: Global,
    banks: &Banks,
    port: PortId,
    name: RegisterName,
    rest: &[Value],
) -> Result<Option<Fault>, OutOfMemory>
    requires apart { all_channels (is_channel (state_held banks.now)) (pairs_in (first_of (trees rest.now))) ≡ true → TogglesApart name (trees rest.now) }
    requires itself { PlacesItself name (trees rest.now) }
    ensures { IfOk result (λ o. o ≡ fault_of_registered (registered_at (state_held banks.now) (whole (registries_held banks.now) port.n) name (trees rest.now))) }
{
    match banks.get(port.n % 16) {
        None => Ok(Some(Fault::NotAPort)),
        Some(held) => {
            if !keys_pass(banks, name, rest) {
                return Ok(Some(Fault::NotAPort));
            }
            table_fault(alloc, &held.bank, port, name, rest)
        }
    }
}

/// The fault of the operation, if it has one.
pub(crate) fn bad_register(
    alloc: Global,
    banks: &Banks,
    name: RegisterName,
    args: &[Value],
) -> Result<Option<Fault>, OutOfMemory>
    requires apart { RegistersApart (state_held banks.now) name (trees args.now) }
    ensures { IfOk result (λ o. o ≡ or_else (unmet (state_held banks.now) (needs_to_register name) (trees args.now)) (fault_of_registered (registering_gives (state_held banks.now) name (trees args.now)))) }
{
    if let Some(fault) = unmet(banks, needs_to_register(name), args) {
        return Ok(Some(fault));
    }
    match args.first() {
        Some(registry) => registry_fault(alloc, banks, port_of(registry), name, &args[1..]),
        None => Ok(Some(Fault::NotAPort)),
    }
}
