//! An operation on a registry.

ghost use Rattle.std.specs.Prelude.{◌≡◌, ◌+◌, ◌<◌, ◌^◌, ℕ, IfOk, OnOk, IfSome, IsSome, false, is_some, option_map, true};
ghost use Rattle.ca_value.specs.Seq.{list};
ghost use Rattle.ca_value.specs.View.{trees, view};
ghost use Rattle.ca_term.specs.Event.{event_view, registered as registered_event};
ghost use Rattle.ca_meaning.specs.BodyViews.{is_at_op};
ghost use Rattle.ca_meaning.specs.Operands.{rest_of};
ghost use Rattle.ca_bank.specs.Bank.{registry_at};
ghost use Rattle.ca_registry.specs.Mixes.{TogglesApart};
ghost use Rattle.ca_registry.specs.Publications.{PlacesItself};
ghost use Rattle.ca_registry.specs.Registry.{registry_after};
ghost use Rattle.ca_commit.specs.Contents.{whole};
ghost use Rattle.ca_commit.specs.Entering.{IsMadeToRegister, answer_of, answers_in, registry_of};
ghost use Rattle.ca_commit.specs.Listing.{changed_at};
ghost use Rattle.ca_commit.specs.Making.{KeepsOthers};
ghost use Rattle.ca_commit.specs.Replies.{GoesOn};
ghost use Rattle.ca_commit.specs.Showing.{channels_held, registries_held};
ghost use Rattle.ca_commit.specs.Tasks.{agent_of};

use crate::changing::register;
use crate::held::{Applied, Banks, Held};
use crate::replying::{goes_on, taken};
use crate::reserving::reserve_members;
use crate::task::Task;
use ca_agent::agent::Agent;
use ca_asking::operands::port_of;
use ca_bank::bank::Bank;
use ca_registry::registry_error::RegisterError;
use ca_term::event::Event;
use ca_term::head::RegisterName;
use ca_value::memory::OutOfMemory;
use ca_value::value::{Items, PortId, Value};
use std::alloc::Global;

// What the operation answers, or nil where it has no answer.
#[tactic(auto, using(crate::proofs::Enterings::unanswered))]
fn answer_in(
    alloc: Global,
    bank: &Bank,
    port: PortId,
    name: RegisterName,
    rest: &[Value],
) -> Result<Value, OutOfMemory>
    requires apart { TogglesApart name (trees rest.now) }
    requires itself { PlacesItself name (trees rest.now) }
    ensures { IfOk result (λ v. view v ≡ answer_of (registry_at bank.now port.n) name (trees rest.now)) }
{
    match bank.answer(alloc, port, name, rest) {
        Ok(value) => Ok(value),
        Err(RegisterError::NotAPort) => Ok(Value::Nil),
        Err(RegisterError::TooManyMembers) => Ok(Value::Nil),
        Err(RegisterError::OutOfMemory) => Err(OutOfMemory),
    }
}

fn answer(
    alloc: Global,
    banks: &Banks,
    port: PortId,
    name: RegisterName,
    rest: &[Value],
) -> Result<Value, OutOfMemory>
    requires apart { TogglesApart name (trees rest.now) }
    requires itself { PlacesItself name (trees rest.now) }
    ensures { IfOk result (λ v. view v ≡ answer_of (whole (registries_held banks.now) port.n) name (trees rest.now)) }
{
    match banks.get(port.n % 16) {
        Some(held) => answer_in(alloc, &held.bank, port, name, rest),
        None => Ok(Value::Nil),
    }
}

// The port that the first argument is, or port 0.
fn registry(args: &[Value]) -> PortId
    ensures { result.n ≡ registry_of (trees args.now) }
{
    match args.first() {
        Some(value) => port_of(value),
        None => PortId { n: 0 },
    }
}

// The arguments behind the first.
fn rest(args: &[Value]) -> &[Value]
    ensures { trees result.now ≡ rest_of (trees args.now) }
{
    if args.is_empty() { args } else { &args[1..] }
}

fn into_rest(args: Items) -> Items
    ensures { trees (list result) ≡ rest_of (trees (list args)) }
{
    let end = args.len();
    if end == 0 {
        args
    } else {
        args.into_range(1, end)
    }
}

/// Makes what the operation needs: its answer for the event and for the task, and room for members. Nothing else
/// changes.
pub fn reserve_register<A: Drop>(
    alloc: Global,
    held: &mut Held<A>,
    name: RegisterName,
    args: &Items,
) -> Result<(), OutOfMemory>
    requires apart { TogglesApart name (rest_of (trees (list args.now))) }
    requires itself { PlacesItself name (rest_of (trees (list args.now))) }
    ensures channels { (i : ℕ) → channels_held held.new.banks i ≡ channels_held held.old.banks i }
    ensures registries { (i : ℕ) → registries_held held.new.banks i ≡ registries_held held.old.banks i }
    ensures others { KeepsOthers held.old held.new }
    ensures made { OnOk result (IsMadeToRegister held.new name (trees (list args.now))) }
{
    let port = registry(args.as_slice());
    let rest = rest(args.as_slice());
    let value = answer(alloc, &held.banks, port, name, rest)?;
    let again = value.copy(alloc)?;
    reserve_members(&mut held.banks, port, name, rest)?;
    held.spare.value = Some(value);
    held.spare.answer = Some(again);
    Ok(())
}

/// The registry changes, and the task gets the answer. It takes no memory.
pub fn apply_register<A: Agent>(
    held: &mut Held<A>,
    name: RegisterName,
    args: Items,
    again: Items,
    task: Task<A>,
) -> Applied<A>
    requires at { is_at_op (A.place task.agent) ≡ true }
    requires count { task.alts + 1 < 2 ^ 64 }
    requires twice { trees (list again) ≡ trees (list args) }
    requires there { is_some (whole (registries_held held.old.banks) (registry_of (trees (list args)))) ≡ true }
    requires apart { TogglesApart name (rest_of (trees (list args))) }
    requires made { IsMadeToRegister held.old name (trees (list args)) }
    ensures event { event_view result.event ≡ registered_event task.number name (trees (list args)) (answers_in held.old name (trees (list args))) }
    ensures channels { (i : ℕ) → channels_held held.new.banks i ≡ channels_held held.old.banks i }
    ensures registries { (i : ℕ) → registries_held held.new.banks i ≡ changed_at (registry_of (trees (list args))) (option_map (registry_after name (rest_of (trees (list args))))) (registries_held held.old.banks) i }
    ensures others { KeepsOthers held.old held.new }
    ensures running { IfSome result.running (λ c. (c.number ≡ task.number) × GoesOn A.gives false (agent_of task) (answers_in held.old name (trees (list args))) (agent_of c)) }
    ensures runs { IsSome result.running }
{
    let value = taken(&mut held.spare.value);
    let answer = taken(&mut held.spare.answer);
    let number = task.number;
    let port = registry(args.as_slice());
    register(&mut held.banks, port, name, into_rest(again));
    let task = goes_on(task, answer, None, false);
    Applied {
        event: Event::Register {
            task: number,
            name,
            arguments: args,
            answer: value,
        },
        running: Some(task),
    }
}
