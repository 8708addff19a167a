//! The words of a table's rows: what a state asks for, at the task's place.
ghost use Rattle.std.specs.Prelude.{◌≡◌, None, IfOk};
ghost use Rattle.ca_value.specs.Seq.{list};
ghost use Rattle.ca_value.specs.Tree.{item, trees_of};
ghost use Rattle.ca_value.specs.View.{view, trees, vector_trees};
ghost use Rattle.ca_term.specs.Operation.{op_view, what_view};
ghost use Rattle.ca_meaning.specs.Body.{asking};
ghost use Rattle.ca_meaning.specs.Asks.{ask_to_take, ask_to_put, ask_to_choose, ask_to_make, ask_to_close, ask_to_register, ask_to_spawn, too_large_here, one_of, two_of};
ghost use Rattle.ca_system.specs.Stands.{stand_at};

use crate::stand::Stand;
use ca_asking::asking::ask;
use ca_term::fault::Fault;
use ca_term::head::{AltsOptions, Head, RegisterName, SystemTask};
use ca_term::operation::{Op, Seed, SystemSeed, Want, What};
use ca_term::place::Place;
use ca_value::memory::OutOfMemory;
use ca_value::seq::Seq;
use ca_value::value::{Items, PortId, Value, Vector};
use std::alloc::Global;

// What a value that a system task puts weighs at most, and how deep it is at most: its `[value port]` is a value too.
const GREATEST_WEIGHT: u64 = 131_000;

const GREATEST_DEPTH: u64 = 78;

/// At the operation.
pub fn asks(op: Op, place: Place) -> Stand
    ensures { stand_at result ≡ asking place None (op_view op) }
{
    Stand::AtOp(Want { op, place })
}

/// It takes from the channel.
pub fn takes(channel: PortId, place: Place) -> Stand
    ensures { stand_at result ≡ ask_to_take channel.n place }
{
    asks(Op::Take(Value::Port(channel)), place)
}

/// It puts the value on the channel; a value beyond the limits is its fault.
pub fn puts(channel: PortId, value: Value, place: Place) -> Stand
    ensures { stand_at result ≡ ask_to_put channel.n (view value) place }
{
    match size_fault(&value) {
        Some(fault) => Stand::Faulted(fault, place),
        None => asks(Op::Put(Value::Port(channel), value), place),
    }
}

// The fault of a value that is too heavy or too deep, weight first.
fn size_fault(value: &Value) -> Option<Fault>
    ensures { result ≡ too_large_here (view value.now) }
{
    if value.room_after(GREATEST_WEIGHT).is_none() {
        return Some(Fault::TooHeavy);
    }
    if !value.is_within_depth(GREATEST_DEPTH) {
        return Some(Fault::TooNested);
    }
    None
}

/// It does one operation of these channels, as a script's `alts!` with no options.
pub fn chooses(alloc: Global, channels: &Vector, place: Place) -> Result<Stand, OutOfMemory>
    ensures { IfOk result (λ s. stand_at s ≡ ask_to_choose (trees_of (vector_trees channels.now)) place) }
{
    let operands = [Value::Vector(channels.copy()?)];
    match ask(alloc, Head::Alts(AltsOptions::None), &operands, place)? {
        Ok(op) => Ok(asks(op, place)),
        Err(fault) => Ok(Stand::Faulted(fault, place)),
    }
}

/// It makes a channel.
pub fn makes(what: What, place: Place) -> Stand
    ensures { stand_at result ≡ ask_to_make (what_view what) place }
{
    asks(Op::Make(what), place)
}

/// It closes the channel.
pub fn closes(channel: PortId, place: Place) -> Stand
    ensures { stand_at result ≡ ask_to_close channel.n place }
{
    asks(Op::Close(Value::Port(channel)), place)
}

/// It does the operation of a registry on the values.
pub fn registers(name: RegisterName, values: Items, place: Place) -> Stand
    ensures { stand_at result ≡ ask_to_register name (trees (list values)) place }
{
    asks(Op::Register(name, values), place)
}

/// It starts a system task of the kind with the values.
pub fn spawns(kind: SystemTask, values: Items, place: Place) -> Stand
    ensures { stand_at result ≡ ask_to_spawn kind (trees (list values)) place }
{
    let seed = SystemSeed {
        kind,
        values,
        place,
    };
    asks(Op::Spawn(Seed::System(seed)), place)
}

/// The values of an operation that has one.
pub fn one(alloc: Global, value: Value) -> Result<Items, OutOfMemory>
    ensures { IfOk result (λ s. trees (list s) ≡ one_of (view value)) }
{
    Ok(Seq::from_vec(vec![in alloc; value]?))
}

/// The values of an operation that has two.
pub fn two(alloc: Global, first: Value, second: Value) -> Result<Items, OutOfMemory>
    ensures { IfOk result (λ s. trees (list s) ≡ two_of (view first) (view second)) }
{
    Ok(Seq::from_vec(vec![in alloc; first, second]?))
}

/// The values of an operation that has four.
pub fn four(
    alloc: Global,
    first: Value,
    second: Value,
    third: Value,
    fourth: Value,
) -> Result<Items, OutOfMemory>
    ensures { IfOk result (λ s. trees (list s) ≡ item (view first) (item (view second) (two_of (view third) (view fourth)))) }
{
    Ok(Seq::from_vec(vec![in alloc; first, second, third, fourth]?))
}
