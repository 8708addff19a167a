//! A runner's slots: a value of one is read where it lies, copied, taken out or overwritten.
//!
//! What is inlined into the runner's loop touches numbers and ports alone. What makes or lets go of another value is a
//! function of its own, which is not inlined.
ghost use Rattle.std.specs.Prelude.{◌≡◌, ◌<◌, true, false, length, IfOk, OnOk, IfSome, IfNone, IsTrue, ◌≤◌, ◌+◌, ◌++◌};
ghost use Rattle.ca_value.specs.Seq.{list};
ghost use Rattle.ca_value.specs.Tree.{int};
ghost use Rattle.ca_value.specs.View.{view, views};
ghost use Rattle.ca_states.specs.Machine.{begun, is_plain_value, read, slot_written, reads, slot_taken, taken_all, slots_from};
ghost use Rattle.ca_states.specs.Operands.{operand_value, IsThere};
ghost use Rattle.ca_states.specs.Standing.{is_bare};
ghost use Rattle.ca_states.specs.Valid.{are_below};

use ca_value::memory::OutOfMemory;
use ca_value::value::{Items, Value};
use std::alloc::Global;
use std::mem;

/// An operand of a builtin: a slot's value, or an integer of the text.
#[derive(Clone, Copy)]
pub(crate) enum Operand {
    Slot(u64),
    Int(i64),
}

/// The slot's value, where it lies.
#[inline(always)]
#[tactic(auto, using(crate::proofs::SlotLaws::read_view))]
pub(crate) fn value_at(slots: &[Value], slot: u64) -> &Value
    requires { slot < length slots.now }
    ensures { view result.now ≡ read (views slots.now) slot }
{
    &slots[slot as usize]
}

/// The integer in the slot, if it holds one.
#[inline(always)]
pub(crate) fn int_at(slots: &[Value], slot: u64) -> Option<i64>
    requires { slot < length slots.now }
    ensures { IfSome result (λ n. read (views slots.now) slot ≡ int n) }
{
    match value_at(slots, slot) {
        Value::Int(n) => Some(*n),
        _ => None,
    }
}

/// The integer that the operand is, if it is one.
#[inline(always)]
pub(crate) fn int_of(slots: &[Value], operand: Operand) -> Option<i64>
    requires { IsThere operand (length slots.now) }
    ensures { IfSome result (λ n. operand_value operand (views slots.now) ≡ int n) }
{
    match operand {
        Operand::Slot(slot) => int_at(slots, slot),
        Operand::Int(n) => Some(n),
    }
}

/// Whether nothing is let go where the value is overwritten.
#[inline(always)]
pub(crate) fn is_bare(value: &Value) -> bool
    ensures { result ≡ is_bare (view value.now) }
{
    match value {
        Value::Nil | Value::Bool(_) | Value::Int(_) | Value::Port(_) => true,
        _ => false,
    }
}

/// A copy of the value, if it is nil, an integer or a port: a plain value, which is copied as it lies, and stays where it is
/// taken out. A boolean lies elsewhere in a value, and would cost the others a jump.
#[inline(always)]
pub(crate) fn plain_of(value: &Value) -> Option<Value>
    ensures same { IfSome result (λ v. view value.now ≡ view v) }
    ensures plain { IfSome result (λ v. is_plain_value (view v) ≡ true) }
    ensures other { IfNone result (is_plain_value (view value.now) ≡ false) }
{
    match value {
        Value::Nil => Some(Value::Nil),
        Value::Int(n) => Some(Value::Int(*n)),
        Value::Port(port) => Some(Value::Port(*port)),
        _ => None,
    }
}

/// A copy of the slot's value, if that is plain.
#[inline(always)]
pub(crate) fn plain_at(slots: &[Value], slot: u64) -> Option<Value>
    requires { slot < length slots.now }
    ensures same { IfSome result (λ v. read (views slots.now) slot ≡ view v) }
    ensures plain { IfSome result (λ v. is_plain_value (view v) ≡ true) }
    ensures other { IfNone result (is_plain_value (read (views slots.now) slot) ≡ false) }
{
    plain_of(value_at(slots, slot))
}

/// The slot has another value.
#[inline(always)]
#[tactic(auto, using(crate::proofs::SlotLaws::write_view))]
pub(crate) fn set_at(slots: &mut [Value], slot: u64, value: Value)
    requires { slot < length slots.old }
    ensures written { views slots.new ≡ slot_written (views slots.old) slot (view value) }
    ensures same { length slots.new ≡ length slots.old }
{
    if is_bare(value_at(slots, slot)) {
        mem::forget(mem::replace(&mut slots[slot as usize], value));
    } else {
        put_at(slots, slot, value);
    }
}

// The same, where the one that was there is let go.
#[inline(never)]
#[tactic(auto, using(crate::proofs::SlotLaws::write_view))]
fn put_at(slots: &mut [Value], slot: u64, value: Value)
    requires { slot < length slots.old }
    ensures written { views slots.new ≡ slot_written (views slots.old) slot (view value) }
    ensures same { length slots.new ≡ length slots.old }
{
    slots[slot as usize] = value;
}

/// The slot's value, taken out of it; a plain one stays there too.
#[inline(always)]
#[tactic(auto, using(crate::proofs::SlotLaws::taken_plain, crate::proofs::SlotLaws::taken_other))]
pub(crate) fn take_at(slots: &mut [Value], slot: u64) -> Value
    requires { slot < length slots.old }
    ensures value { view result ≡ read (views slots.old) slot }
    ensures taken { views slots.new ≡ slot_taken (views slots.old) slot }
    ensures same { length slots.new ≡ length slots.old }
{
    if let Some(plain) = plain_at(slots, slot) {
        return plain;
    }
    mem::replace(&mut slots[slot as usize], Value::Nil)
}

/// The slot's value is let go.
#[inline(always)]
#[tactic(auto, using(crate::proofs::SlotLaws::taken_plain, crate::proofs::SlotLaws::nil_left))]
pub(crate) fn clear_at(slots: &mut [Value], slot: u64)
    requires { slot < length slots.old }
    ensures taken { views slots.new ≡ slot_taken (views slots.old) slot }
    ensures same { length slots.new ≡ length slots.old }
{
    match plain_at(slots, slot) {
        Some(_) => {}
        None => put_at(slots, slot, Value::Nil),
    }
}

/// The value is taken out of the slot `from`, and the slot `to` has it.
#[inline(always)]
#[tactic(auto, using(crate::proofs::SlotLaws::moved_plain))]
pub(crate) fn move_at(slots: &mut [Value], to: u64, from: u64)
    requires to { to < length slots.old }
    requires from { from < length slots.old }
    ensures moved { views slots.new ≡ slot_written (slot_taken (views slots.old) from) to (read (views slots.old) from) }
    ensures same { length slots.new ≡ length slots.old }
{
    if let Some(plain) = plain_at(slots, from) {
        set_at(slots, to, plain);
    } else {
        move_value(slots, to, from);
    }
}

#[inline(never)]
fn move_value(slots: &mut [Value], to: u64, from: u64)
    requires to { to < length slots.old }
    requires from { from < length slots.old }
    ensures moved { views slots.new ≡ slot_written (slot_taken (views slots.old) from) to (read (views slots.old) from) }
    ensures same { length slots.new ≡ length slots.old }
{
    let value = take_at(slots, from);
    set_at(slots, to, value);
}

// How many slots there are.
#[inline(always)]
fn width_of(slots: &[Value]) -> u64
    ensures { result ≡ length slots.now }
{
    slots.len() as u64
}

/// The values of so many slots, from one on, taken out of them in order, at the end of the others.
pub(crate) fn take_into(
    values: &mut Vec<Value>,
    slots: &mut [Value],
    from: u64,
    count: u64,
) -> Result<(), OutOfMemory>
    requires { IsTrue (are_below (length slots.old) (slots_from from count)) }
    ensures values { OnOk result (views values.new.items ≡ views values.old.items ++ reads (views slots.old) (slots_from from count)) }
    ensures count { OnOk result (length values.new.items ≡ length values.old.items + count) }
    ensures taken { OnOk result (views slots.new ≡ taken_all (views slots.old) (slots_from from count)) }
    ensures same { length slots.new ≡ length slots.old }
{
    // Each of the slots is below it, so its number fits.
    let _width = width_of(slots);
    for i in 0..count {
        values.push(take_at(slots, from + i))?;
    }
    Ok(())
}

/// The values of so many slots, from one on, taken out of them.
pub(crate) fn take_row(
    alloc: Global,
    slots: &mut [Value],
    from: u64,
    count: u64,
) -> Result<Items, OutOfMemory>
    requires { IsTrue (are_below (length slots.old) (slots_from from count)) }
    ensures values { IfOk result (λ vs. views (list vs) ≡ reads (views slots.old) (slots_from from count)) }
    ensures taken { OnOk result (views slots.new ≡ taken_all (views slots.old) (slots_from from count)) }
    ensures same { length slots.new ≡ length slots.old }
{
    let mut values = Vec::new(alloc);
    values.reserve_exact(count as usize)?;
    take_into(&mut values, slots, from, count)?;
    Ok(Items::from_vec(values))
}

/// So many slots: behind those that are there, such as hold nil.
pub(crate) fn fill(slots: &mut Vec<Value>, width: u64) -> Result<(), OutOfMemory>
    requires { length slots.old.items ≤ width }
    ensures { OnOk result (views slots.new.items ≡ begun width (views slots.old.items)) }
{
    while (slots.len() as u64) < width {
        slots.push(Value::Nil)?;
    }
    Ok(())
}

/// The values of so many slots, from one on, are let go.
pub(crate) fn clear_row(slots: &mut [Value], from: u64, count: u64)
    requires { IsTrue (are_below (length slots.old) (slots_from from count)) }
    ensures taken { views slots.new ≡ taken_all (views slots.old) (slots_from from count) }
    ensures same { length slots.new ≡ length slots.old }
{
    // Each of the slots is below it, so its number fits.
    let _width = width_of(slots);
    for i in 0..count {
        clear_at(slots, from + i);
    }
}
