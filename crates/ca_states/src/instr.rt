//! What each instruction does to the slots.
ghost use Rattle.std.specs.Prelude.{◌≡◌, ◌<◌, ◌∷◌, [], length, IfOk, IfSome, Ok, IsTrue};
ghost use Rattle.std.specs.Bool.{OnTrue, OnFalse};
ghost use Rattle.ca_value.specs.View.{view, views};
ghost use Rattle.ca_value.specs.Outcome.{Outcome, Gives};
ghost use Rattle.ca_value.specs.Tree.{int};
ghost use Rattle.ca_value.specs.Builtins.{admits_arguments};
ghost use Rattle.ca_value.specs.declared.builtin.Builtin.TheVariants.{Str, Vector};
ghost use Rattle.ca_states.specs.Code.{one, pushing, putting, many};
ghost use Rattle.ca_states.specs.Machine.{read, builtin_applied, slot_answered, effect, done, slots_from};
ghost use Rattle.ca_states.specs.Valid.{are_below};
ghost use Rattle.ca_states.specs.Operands.{operand_value, IsThere};
ghost use Rattle.ca_states.specs.Runs.{StopsAt};

use crate::slots::{Operand, plain_of, set_at, take_at, take_row, value_at};
use crate::stop::Stop;
use ca_asking::judging::task_fault;
use ca_term::place::Place;
use ca_value::builtin::direct::{apply_one, apply_two, assoc_one, conj_one};
use ca_value::builtin::{Builtin, apply_builtin};
use ca_value::fault::ApplyError;
use ca_value::memory::OutOfMemory;
use ca_value::seq::Text;
use ca_value::value::{Items, Value};
use itoa::Buffer;
use std::alloc::Global;

// A builtin's value comes into the slot, or its fault stops the runner.
fn settle(
    slots: &mut [Value],
    to: u64,
    place: Place,
    outcome: Result<Value, ApplyError>,
    stop: &mut Stop,
) -> bool
    requires { to < length slots.old }
    ensures ok { (o : Outcome) → Gives outcome o → OnTrue result (slot_answered (views slots.old) to place o ≡ done (views slots.new)) }
    ensures stop { (o : Outcome) → Gives outcome o → OnFalse result (StopsAt stop.new (slot_answered (views slots.old) to place o)) }
    ensures same { length slots.new ≡ length slots.old }
{
    match outcome {
        Ok(value) => {
            set_at(slots, to, value);
            true
        }
        Err(ApplyError::Fault(fault)) => {
            *stop = Stop::Fault(task_fault(fault), place);
            false
        }
        Err(ApplyError::OutOfMemory) => {
            *stop = Stop::OutOfMemory;
            false
        }
    }
}

// The text of an integer, as `str` has it.
#[inline(never)]
#[tactic(auto, using(crate::proofs::TextLaws::str_integer))]
fn text_of(alloc: Global, n: i64) -> Result<Value, OutOfMemory>
    ensures { IfOk result (λ v. builtin_applied Str (int n ∷ []) ≡ Ok (view v)) }
{
    let mut digits = Buffer::new();
    let text = Text::from_bytes(alloc, digits.format(n).as_bytes())?;
    Value::text(alloc, text)
}

// A builtin of one value.
#[tactic(auto, using(crate::proofs::SlotLaws::gives_by))]
fn apply_to_one(alloc: Global, builtin: Builtin, operand: &Value) -> Result<Value, ApplyError>
    requires { IsTrue (admits_arguments builtin 1) }
    ensures { Gives result (builtin_applied builtin (view operand.now ∷ [])) }
{
    match (builtin, operand) {
        (Builtin::Str, Value::Int(n)) => match text_of(alloc, *n) {
            Ok(text) => Ok(text),
            Err(OutOfMemory) => Err(ApplyError::OutOfMemory),
        },
        _ => apply_one(alloc, builtin, operand),
    }
}

/// A builtin of one slot.
#[inline(never)]
pub(crate) fn run_one(
    alloc: Global,
    slots: &mut [Value],
    builtin: Builtin,
    to: u64,
    operand: u64,
    place: Place,
    stop: &mut Stop,
) -> bool
    requires counted { IsTrue (admits_arguments builtin 1) }
    requires to { to < length slots.old }
    requires operand { operand < length slots.old }
    ensures ok { OnTrue result (effect (one builtin to operand place) (views slots.old) ≡ done (views slots.new)) }
    ensures stop { OnFalse result (StopsAt stop.new (effect (one builtin to operand place) (views slots.old))) }
    ensures same { length slots.new ≡ length slots.old }
{
    let outcome = apply_to_one(alloc, builtin, value_at(slots, operand));
    settle(slots, to, place, outcome, stop)
}

// The vector of two plain values; None leaves others to the builtin.
#[tactic(auto, using(crate::proofs::SlotLaws::pair_of_plain))]
fn pair_of(alloc: Global, left: &Value, right: &Value) -> Result<Option<Value>, OutOfMemory>
    ensures { IfOk result (λ o. IfSome o (λ v. builtin_applied Vector (view left.now ∷ view right.now ∷ []) ≡ Ok (view v))) }
{
    let Some(first) = plain_of(left) else {
        return Ok(None);
    };
    let Some(second) = plain_of(right) else {
        return Ok(None);
    };
    let mut items = Items::new(alloc);
    items.reserve(2)?;
    items.push(first);
    items.push(second);
    Ok(Some(Value::vector(alloc, items)?))
}

// A builtin of two values.
#[tactic(auto, using(crate::proofs::SlotLaws::gives_by))]
fn apply_to_both(
    alloc: Global,
    builtin: Builtin,
    left: &Value,
    right: &Value,
) -> Result<Value, ApplyError>
    requires { IsTrue (admits_arguments builtin 2) }
    ensures { Gives result (builtin_applied builtin (view left.now ∷ view right.now ∷ [])) }
{
    if let Builtin::Vector = builtin {
        match pair_of(alloc, left, right) {
            Ok(Some(pair)) => return Ok(pair),
            Ok(None) => {}
            Err(OutOfMemory) => return Err(ApplyError::OutOfMemory),
        }
    }
    apply_two(alloc, builtin, left, right)
}

/// A builtin of a slot's value and another operand.
pub(crate) fn apply_to_two(
    alloc: Global,
    slots: &[Value],
    builtin: Builtin,
    left: u64,
    right: Operand,
) -> Result<Value, ApplyError>
    requires counted { IsTrue (admits_arguments builtin 2) }
    requires left { left < length slots.now }
    requires right { IsThere right (length slots.now) }
    ensures { Gives result (builtin_applied builtin (read (views slots.now) left ∷ operand_value right (views slots.now) ∷ [])) }
{
    let left = value_at(slots, left);
    match right {
        Operand::Slot(right) => apply_to_both(alloc, builtin, left, value_at(slots, right)),
        Operand::Int(n) => apply_to_both(alloc, builtin, left, &Value::Int(n)),
    }
}

/// A builtin of a slot and another operand.
#[inline(never)]
pub(crate) fn run_two(
    alloc: Global,
    slots: &mut [Value],
    builtin: Builtin,
    to: u64,
    left: u64,
    right: Operand,
    place: Place,
    stop: &mut Stop,
) -> bool
    requires counted { IsTrue (admits_arguments builtin 2) }
    requires to { to < length slots.old }
    requires left { left < length slots.old }
    requires right { IsThere right (length slots.old) }
    ensures ok { OnTrue result (slot_answered (views slots.old) to place (builtin_applied builtin (read (views slots.old) left ∷ operand_value right (views slots.old) ∷ [])) ≡ done (views slots.new)) }
    ensures stop { OnFalse result (StopsAt stop.new (slot_answered (views slots.old) to place (builtin_applied builtin (read (views slots.old) left ∷ operand_value right (views slots.old) ∷ [])))) }
    ensures same { length slots.new ≡ length slots.old }
{
    let outcome = apply_to_two(alloc, slots, builtin, left, right);
    settle(slots, to, place, outcome, stop)
}

/// `conj` of a slot to the collection that is taken out of its slot.
#[inline(never)]
#[tactic(auto, using(crate::proofs::SlotLaws::gives_by))]
pub(crate) fn run_push(
    alloc: Global,
    slots: &mut [Value],
    to: u64,
    collection: u64,
    item: u64,
    place: Place,
    stop: &mut Stop,
) -> bool
    requires to { to < length slots.old }
    requires collection { collection < length slots.old }
    requires item { item < length slots.old }
    ensures ok { OnTrue result (effect (pushing to collection item place) (views slots.old) ≡ done (views slots.new)) }
    ensures stop { OnFalse result (StopsAt stop.new (effect (pushing to collection item place) (views slots.old))) }
    ensures same { length slots.new ≡ length slots.old }
{
    // The item first: it may stand in the collection's own slot.
    let Ok(item) = value_at(slots, item).copy(alloc) else {
        *stop = Stop::OutOfMemory;
        return false;
    };
    let collection = take_at(slots, collection);
    let outcome = conj_one(alloc, collection, item);
    settle(slots, to, place, outcome, stop)
}

/// `assoc` of two slots to the collection that is taken out of its slot.
#[inline(never)]
#[tactic(auto, using(crate::proofs::SlotLaws::gives_by))]
pub(crate) fn run_put(
    alloc: Global,
    slots: &mut [Value],
    to: u64,
    collection: u64,
    key: u64,
    value: u64,
    place: Place,
    stop: &mut Stop,
) -> bool
    requires to { to < length slots.old }
    requires collection { collection < length slots.old }
    requires key { key < length slots.old }
    requires value { value < length slots.old }
    ensures ok { OnTrue result (effect (putting to collection key value place) (views slots.old) ≡ done (views slots.new)) }
    ensures stop { OnFalse result (StopsAt stop.new (effect (putting to collection key value place) (views slots.old))) }
    ensures same { length slots.new ≡ length slots.old }
{
    // The key and the value first: they may stand in the collection's own slot.
    let Ok(key) = value_at(slots, key).copy(alloc) else {
        *stop = Stop::OutOfMemory;
        return false;
    };
    let Ok(value) = value_at(slots, value).copy(alloc) else {
        *stop = Stop::OutOfMemory;
        return false;
    };
    let collection = take_at(slots, collection);
    let outcome = assoc_one(alloc, collection, key, value);
    settle(slots, to, place, outcome, stop)
}

/// A builtin of the values that are taken out of so many slots, from one on.
#[inline(never)]
pub(crate) fn run_many(
    alloc: Global,
    slots: &mut [Value],
    builtin: Builtin,
    to: u64,
    from: u64,
    count: u64,
    place: Place,
    stop: &mut Stop,
) -> bool
    requires counted { IsTrue (admits_arguments builtin count) }
    requires to { to < length slots.old }
    requires row { IsTrue (are_below (length slots.old) (slots_from from count)) }
    ensures ok { OnTrue result (effect (many builtin to from count place) (views slots.old) ≡ done (views slots.new)) }
    ensures stop { OnFalse result (StopsAt stop.new (effect (many builtin to from count place) (views slots.old))) }
    ensures same { length slots.new ≡ length slots.old }
{
    let Ok(values) = take_row(alloc, slots, from, count) else {
        *stop = Stop::OutOfMemory;
        return false;
    };
    let outcome = apply_builtin(alloc, builtin, values);
    settle(slots, to, place, outcome, stop)
}
