//! A block's instructions.
ghost use Rattle.std.specs.Prelude.{◌≡◌, ◌<◌, length, map, IsTrue};
ghost use Rattle.std.specs.Bool.{OnTrue, OnFalse};
ghost use Rattle.ca_value.specs.Seq.{list};
ghost use Rattle.ca_value.specs.View.{view, views};
ghost use Rattle.ca_states.specs.Code.{instruction};
ghost use Rattle.ca_states.specs.Machine.{done, effect, read, slot_written};
ghost use Rattle.ca_states.specs.Valid.{each, is_instruction_in_range};
ghost use Rattle.ca_states.specs.Runs.{StopsAt, effects};

use crate::code::{Block, Instr};
use crate::instr::{run_many, run_one, run_push, run_put, run_two};
use crate::plain::{const_in_place, copy_in_place, many_in_place, one_in_place, two_in_place};
use crate::runner::Runner;
use crate::slots::{Operand, clear_at, move_at, set_at, value_at};
use crate::stop::Stop;
use ca_value::memory::OutOfMemory;
use ca_value::value::Value;
use std::alloc::Global;

// A value of the text comes into the slot.
#[inline(never)]
fn run_const(alloc: Global, slots: &mut [Value], to: u64, value: &Value, stop: &mut Stop) -> bool
    requires { to < length slots.old }
    ensures ok { OnTrue result (done (slot_written (views slots.old) to (view value.now)) ≡ done (views slots.new)) }
    ensures stop { OnFalse result (StopsAt stop.new (done (slot_written (views slots.old) to (view value.now)))) }
    ensures same { length slots.new ≡ length slots.old }
{
    match value.copy(alloc) {
        Ok(value) => {
            set_at(slots, to, value);
            true
        }
        Err(OutOfMemory) => {
            *stop = Stop::OutOfMemory;
            false
        }
    }
}

// A copy of a slot's value comes into the slot.
#[inline(never)]
fn run_copy(alloc: Global, slots: &mut [Value], to: u64, from: u64, stop: &mut Stop) -> bool
    requires to { to < length slots.old }
    requires from { from < length slots.old }
    ensures ok { OnTrue result (done (slot_written (views slots.old) to (read (views slots.old) from)) ≡ done (views slots.new)) }
    ensures stop { OnFalse result (StopsAt stop.new (done (slot_written (views slots.old) to (read (views slots.old) from)))) }
    ensures same { length slots.new ≡ length slots.old }
{
    match value_at(slots, from).copy(alloc) {
        Ok(value) => {
            set_at(slots, to, value);
            true
        }
        Err(OutOfMemory) => {
            *stop = Stop::OutOfMemory;
            false
        }
    }
}

// One instruction: in place, where it needs no memory and can't fault, else of any values. A fault is told by `stop`.
#[inline(always)]
fn run_instr(alloc: Global, slots: &mut [Value], instr: &Instr, stop: &mut Stop) -> bool
    requires { IsTrue (is_instruction_in_range (length slots.old) (instruction instr.now)) }
    ensures ok { OnTrue result (effect (instruction instr.now) (views slots.old) ≡ done (views slots.new)) }
    ensures stop { OnFalse result (StopsAt stop.new (effect (instruction instr.now) (views slots.old))) }
    ensures same { length slots.new ≡ length slots.old }
{
    match instr {
        Instr::Const { to, value } => const_in_place(slots, *to, value)
            || run_const(alloc, slots, *to, value, stop),
        Instr::Copy { to, from } => copy_in_place(slots, *to, *from)
            || run_copy(alloc, slots, *to, *from, stop),
        Instr::Move { to, from } => {
            move_at(slots, *to, *from);
            true
        }
        Instr::Clear { slot } => {
            clear_at(slots, *slot);
            true
        }
        Instr::One {
            builtin,
            to,
            operand,
            place,
        } => one_in_place(slots, *builtin, *to, *operand)
            || run_one(alloc, slots, *builtin, *to, *operand, *place, stop),
        Instr::Two {
            builtin,
            to,
            left,
            right,
            place,
        } => {
            let right = Operand::Slot(*right);
            two_in_place(slots, *builtin, *to, *left, right)
                || run_two(alloc, slots, *builtin, *to, *left, right, *place, stop)
        }
        Instr::TwoInt {
            builtin,
            to,
            left,
            right,
            place,
        } => {
            let right = Operand::Int(*right);
            two_in_place(slots, *builtin, *to, *left, right)
                || run_two(alloc, slots, *builtin, *to, *left, right, *place, stop)
        }
        Instr::Push {
            to,
            collection,
            item,
            place,
        } => run_push(alloc, slots, *to, *collection, *item, *place, stop),
        Instr::Put {
            to,
            collection,
            key,
            value,
            place,
        } => run_put(alloc, slots, *to, *collection, *key, *value, *place, stop),
        Instr::Many {
            builtin,
            to,
            from,
            count,
            place,
        } => many_in_place(slots, *builtin, *to, *from, *count)
            || run_many(alloc, slots, *builtin, *to, *from, *count, *place, stop),
    }
}

// The instructions in order, up to the first fault, which `stop` then is.
#[inline(always)]
fn run_instrs(alloc: Global, slots: &mut [Value], instrs: &[Instr], stop: &mut Stop) -> bool
    requires { IsTrue (each (is_instruction_in_range (length slots.old)) (map instruction instrs.now)) }
    ensures ok { OnTrue result (effects (map instruction instrs.now) (views slots.old) ≡ done (views slots.new)) }
    ensures stop { OnFalse result (StopsAt stop.new (effects (map instruction instrs.now) (views slots.old))) }
    ensures same { length slots.new ≡ length slots.old }
{
    for instr in instrs {
        if !run_instr(alloc, slots, instr, stop) {
            return false;
        }
    }
    true
}

impl Runner {
    /// The instructions of a block, up to the first fault, which `stop` then is.
    #[inline(always)]
    pub(crate) fn run_block(&mut self, alloc: Global, block: &Block, stop: &mut Stop) -> bool
        requires { IsTrue (each (is_instruction_in_range (length self.old.slots.items)) (map instruction (list block.now.instrs))) }
        ensures ok { OnTrue result (effects (map instruction (list block.now.instrs)) (views self.old.slots.items) ≡ done (views self.new.slots.items)) }
        ensures stop { OnFalse result (StopsAt stop.new (effects (map instruction (list block.now.instrs)) (views self.old.slots.items))) }
        ensures same { self.new ≡ record self.old { slots = self.new.slots } }
        ensures count { length self.new.slots.items ≡ length self.old.slots.items }
    {
        run_instrs(
            alloc,
            self.slots.as_mut_slice(),
            block.instrs.as_slice(),
            stop,
        )
    }
}
