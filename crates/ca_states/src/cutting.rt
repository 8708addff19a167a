//! The operations that a runner halts at: their values go from the slots into the halt.
ghost use Rattle.std.specs.Prelude.{◌≡◌, ◌<◌, ◌∷◌, [], suc, true, length, OnOk, IsTrue};
ghost use Rattle.std.specs.Bool.{OnTrue, OnFalse};
ghost use Rattle.ca_value.specs.Tree.{trees_of};
ghost use Rattle.ca_value.specs.View.{views};
ghost use Rattle.ca_term.specs.Asking.{asked};
ghost use Rattle.ca_term.specs.declared.head.AltsOptions.TheVariants.{None as NoOptions};
ghost use Rattle.ca_term.specs.declared.head.Head.TheVariants.{Take, Put, Alts, Make};
ghost use Rattle.ca_term.specs.declared.head.MakeKind.TheVariants.{Timeout};
ghost use Rattle.ca_states.specs.Machine.{read, reads, slots_from, slot_taken, taken_all};
ghost use Rattle.ca_states.specs.Valid.{are_below};
ghost use Rattle.ca_states.specs.Standing.{HoldsAsked, is_bare_halt};
ghost use Rattle.ca_states.specs.declared.runner.Halt.TheVariants.{Cut};

use crate::runner::Halt;
use crate::slots::{clear_at, take_at, take_row, value_at};
use ca_asking::asking::ask;
use ca_asking::judging::{branches_fault, size_fault};
use ca_asking::making::whole;
use ca_term::head::{AltsOptions, Head, MakeKind};
use ca_term::operation::{Op, Want, What};
use ca_term::place::Place;
use ca_value::memory::OutOfMemory;
use ca_value::value::Value;
use std::alloc::Global;
use std::mem;

// The milliseconds that a timeout takes at most.
const LONGEST_TIMEOUT: u64 = 86_400_000;

// The operation comes into the halt, in which nothing is left to let go.
#[inline(always)]
fn put_operation(halt: &mut Halt, op: Op, place: Place)
    requires { is_bare_halt halt.old ≡ true }
    ensures { halt.new ≡ Cut (record { op = op; place = place }) }
{
    mem::forget(mem::replace(halt, Halt::Cut(Want { op, place })));
}

// A take.
#[inline(always)]
fn cut_take(slots: &mut [Value], from: u64, place: Place, halt: &mut Halt)
    requires slot { from < length slots.old }
    requires bare { is_bare_halt halt.old ≡ true }
    ensures cut { HoldsAsked halt.new (asked Take (trees_of (read (views slots.old) from ∷ [])) place) place }
    ensures taken { views slots.new ≡ slot_taken (views slots.old) from }
    ensures same { length slots.new ≡ length slots.old }
{
    let channel = take_at(slots, from);
    put_operation(halt, Op::Take(channel), place);
}

// A put, unless its value is too large.
#[inline(always)]
#[tactic(auto, using(crate::proofs::SlotLaws::read_other))]
fn cut_put(slots: &mut [Value], from: u64, place: Place, halt: &mut Halt) -> bool
    requires slot { suc from < length slots.old }
    requires bare { is_bare_halt halt.old ≡ true }
    ensures cut { OnTrue result (HoldsAsked halt.new (asked Put (trees_of (read (views slots.old) from ∷ read (views slots.old) (suc from) ∷ [])) place) place) }
    ensures taken { OnTrue result (views slots.new ≡ slot_taken (slot_taken (views slots.old) from) (suc from)) }
    ensures left { OnFalse result (slots.new ≡ slots.old) }
    ensures stays { OnFalse result (halt.new ≡ halt.old) }
    ensures same { length slots.new ≡ length slots.old }
{
    // The slot is below it, so its number fits.
    let _width = slots.len();
    if size_fault(value_at(slots, from + 1)).is_some() {
        return false;
    }
    let channel = take_at(slots, from);
    let value = take_at(slots, from + 1);
    put_operation(halt, Op::Put(channel, value), place);
    true
}

// An alts of its ports alone, unless they are none, or put a value that is too large.
#[inline(never)]
fn cut_alts(slots: &mut [Value], from: u64, place: Place, halt: &mut Halt) -> bool
    requires slot { from < length slots.old }
    requires bare { is_bare_halt halt.old ≡ true }
    ensures cut { OnTrue result (HoldsAsked halt.new (asked (Alts NoOptions) (trees_of (read (views slots.old) from ∷ [])) place) place) }
    ensures taken { OnTrue result (views slots.new ≡ slot_taken (views slots.old) from) }
    ensures left { OnFalse result (slots.new ≡ slots.old) }
    ensures stays { OnFalse result (halt.new ≡ halt.old) }
    ensures same { length slots.new ≡ length slots.old }
{
    if branches_fault(value_at(slots, from)).is_some() {
        return false;
    }
    match take_at(slots, from) {
        Value::Vector(ports) => {
            let op = Op::Alts {
                ports,
                priority: false,
                default: None,
            };
            put_operation(halt, op, place);
            true
        }
        _ => unreachable!(),
    }
}

// The making of a timeout, unless its time is out of range.
#[inline(never)]
fn cut_timeout(slots: &mut [Value], from: u64, place: Place, halt: &mut Halt) -> bool
    requires slot { from < length slots.old }
    requires bare { is_bare_halt halt.old ≡ true }
    ensures cut { OnTrue result (HoldsAsked halt.new (asked (Make Timeout) (trees_of (read (views slots.old) from ∷ [])) place) place) }
    ensures taken { OnTrue result (views slots.new ≡ slot_taken (views slots.old) from) }
    ensures left { OnFalse result (slots.new ≡ slots.old) }
    ensures stays { OnFalse result (halt.new ≡ halt.old) }
    ensures same { length slots.new ≡ length slots.old }
{
    let Ok(time) = whole(0, LONGEST_TIMEOUT, value_at(slots, from)) else {
        return false;
    };
    clear_at(slots, from);
    put_operation(halt, Op::Make(What::Timeout(time)), place);
    true
}

// An operation of the common ones, which takes no memory; else nothing is done.
#[inline(always)]
fn cut_in_place(
    slots: &mut [Value],
    head: &Head,
    from: u64,
    count: u64,
    place: Place,
    halt: &mut Halt,
) -> bool
    requires row { IsTrue (are_below (length slots.old) (slots_from from count)) }
    requires bare { is_bare_halt halt.old ≡ true }
    ensures cut { OnTrue result (HoldsAsked halt.new (asked head.now (trees_of (reads (views slots.old) (slots_from from count))) place) place) }
    ensures taken { OnTrue result (views slots.new ≡ taken_all (views slots.old) (slots_from from count)) }
    ensures left { OnFalse result (slots.new ≡ slots.old) }
    ensures stays { OnFalse result (halt.new ≡ halt.old) }
    ensures same { length slots.new ≡ length slots.old }
{
    if count == 2 {
        return match head {
            Head::Put => cut_put(slots, from, place, halt),
            _ => false,
        };
    }
    if count != 1 {
        return false;
    }
    match head {
        Head::Take => {
            cut_take(slots, from, place, halt);
            true
        }
        Head::Alts(AltsOptions::None) => cut_alts(slots, from, place, halt),
        Head::Make(MakeKind::Timeout) => cut_timeout(slots, from, place, halt),
        _ => false,
    }
}

// Any operation, or the fault of one of its values.
#[inline(never)]
fn cut_row(
    alloc: Global,
    slots: &mut [Value],
    head: &Head,
    from: u64,
    count: u64,
    place: Place,
    halt: &mut Halt,
) -> Result<(), OutOfMemory>
    requires row { IsTrue (are_below (length slots.old) (slots_from from count)) }
    requires bare { is_bare_halt halt.old ≡ true }
    ensures cut { OnOk result (HoldsAsked halt.new (asked head.now (trees_of (reads (views slots.old) (slots_from from count))) place) place) }
    ensures taken { OnOk result (views slots.new ≡ taken_all (views slots.old) (slots_from from count)) }
    ensures same { length slots.new ≡ length slots.old }
{
    let values = take_row(alloc, slots, from, count)?;
    match ask(alloc, *head, values.as_slice(), place)? {
        Ok(op) => put_operation(halt, op, place),
        Err(fault) => *halt = Halt::Faulted(fault, place),
    }
    Ok(())
}

/// The operation over the values that are taken out of the slots comes into the halt, or the fault of one of them.
#[inline(always)]
pub(crate) fn cut(
    alloc: Global,
    slots: &mut [Value],
    head: &Head,
    from: u64,
    count: u64,
    place: Place,
    halt: &mut Halt,
) -> Result<(), OutOfMemory>
    requires row { IsTrue (are_below (length slots.old) (slots_from from count)) }
    requires bare { is_bare_halt halt.old ≡ true }
    ensures cut { OnOk result (HoldsAsked halt.new (asked head.now (trees_of (reads (views slots.old) (slots_from from count))) place) place) }
    ensures taken { OnOk result (views slots.new ≡ taken_all (views slots.old) (slots_from from count)) }
    ensures same { length slots.new ≡ length slots.old }
{
    if cut_in_place(slots, head, from, count, place, halt) {
        return Ok(());
    }
    cut_row(alloc, slots, head, from, count, place, halt)
}
