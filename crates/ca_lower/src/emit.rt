//! From terms to blocks.
ghost use Rattle.std.specs.Prelude.{◌≡◌, ◌++◌, ◌==◌, None, Option, cond, length, take, IfOk, OnOk};
ghost use Rattle.ca_value.specs.Seq.{list};
ghost use Rattle.ca_term.specs.View.{bindings as bindings_view, kernel, kernels};
ghost use Rattle.ca_term.specs.declared.head.Head.TheVariants as heads;
ghost use Rattle.ca_term.specs.Kernel.{apply};
ghost use Rattle.ca_states.specs.Code.{instruction};
ghost use Rattle.ca_lower.specs.Implements.{Target, in_slots, written_integer, names_bound, next_slot, operand_slot, paired_instruction};
ghost use Rattle.ca_lower.specs.Emit.{emit, emit_all, emit_bindings, emit_in_order, operand, second};
ghost use Rattle.ca_lower.specs.Layouts.{layout_of};
ghost use Rattle.ca_lower.specs.Splits.{stacked, stacked_all, stacked_bound, IsOnTop, TakesSplits};
ghost use Rattle.ca_lower.specs.declared.emit.Layout.TheVariants.{Push, Put};
ghost use Rattle.ca_lower.specs.Views.{builder_view, scope_view, target_view};

use crate::builder::{Builder, Loop, Name, slot_of, sum};
use crate::sizes::{Split, next_split};
use ca_states::code::Instr;
use ca_term::head::Head;
use ca_term::place::Place;
use ca_term::term::{Binding, Term};
use ca_value::builtin::Builtin;
use ca_value::memory::OutOfMemory;
use ca_value::seq::Seq;
use ca_value::value::Value;
use std::alloc::Global;

/// The term's value comes into slot h. The splits of its branches are taken from the end of the list.
#[cycle(emit)]
pub(crate) fn emit_term(
    alloc: Global,
    b: &mut Builder,
    splits: &mut Seq<Split>,
    width: u64,
    target: Option<Loop>,
    names: &mut Seq<Name>,
    h: u64,
    term: &Term,
) -> Result<(), OutOfMemory>
    requires { IsOnTop (stacked (kernel term.now)) (list splits.old) }
    ensures code { OnOk result (builder_view b.new ≡ emit width (target_view target) (scope_view (list names.old)) h (kernel term.now) (builder_view b.old)) }
    ensures names { OnOk result (list names.new ≡ list names.old) }
    ensures splits { OnOk result (TakesSplits (stacked (kernel term.now)) (list splits.old) (list splits.new)) }
{
    match term {
        Term::Const(value) => b.put_constant(alloc, h, value),
        Term::Var(name) => {
            let from = slot_of(names.as_slice(), *name);
            b.put(Instr::Copy { to: h, from })
        }
        Term::If(test, then, otherwise) => {
            emit_term(alloc, b, splits, width, None, names, h, test)?;
            let behind = b.branch_on(alloc, width, h, next_split(splits))?;
            emit_term(alloc, b, splits, width, target, names, h, then)?;
            b.jump_to(alloc, width, behind, h)?;
            emit_term(alloc, b, splits, width, target, names, h, otherwise)?;
            b.jump_to(alloc, width, behind, sum(h, 1)?)
        }
        Term::Let(bindings, body) => {
            let from = sum(h, bindings.len())?;
            let kept = names.len();
            emit_bindings(alloc, b, splits, width, names, h, bindings)?;
            emit_term(alloc, b, splits, width, target, names, from, body)?;
            names.truncate(kept);
            b.put(Instr::Move { to: h, from })
        }
        Term::Loop(_, bindings, body) => {
            let from = sum(h, bindings.len())?;
            let kept = names.len();
            emit_bindings(alloc, b, splits, width, names, h, bindings)?;
            let inner = b.enter_loop(alloc, width, h, bindings.len())?;
            emit_term(alloc, b, splits, width, Some(inner), names, from, body)?;
            names.truncate(kept);
            b.put(Instr::Move { to: h, from })
        }
        Term::Do(terms) => emit_in_order(alloc, b, splits, width, target, names, h, terms),
        Term::Frame(_) | Term::Turn(_, _, _) => Ok(()),
        Term::Apply(head, operands, place) => emit_apply(
            alloc, b, splits, width, target, names, h, *head, operands, *place,
        ),
    }
}

// What is done with operands: a builtin reads them where they are, any other head in a row of slots.
#[cycle(emit)]
fn emit_apply(
    alloc: Global,
    b: &mut Builder,
    splits: &mut Seq<Split>,
    width: u64,
    target: Option<Loop>,
    names: &mut Seq<Name>,
    h: u64,
    head: Head,
    operands: &Seq<Term>,
    place: Place,
) -> Result<(), OutOfMemory>
    requires { IsOnTop (stacked_all (kernels (list operands.now))) (list splits.old) }
    ensures code { OnOk result (builder_view b.new ≡ emit width (target_view target) (scope_view (list names.old)) h (apply head (kernels (list operands.now)) place) (builder_view b.old)) }
    ensures names { OnOk result (list names.new ≡ list names.old) }
    ensures splits { OnOk result (TakesSplits (stacked_all (kernels (list operands.now))) (list splits.old) (list splits.new)) }
{
    match head {
        Head::Builtin(builtin) => {
            emit_builtin(alloc, b, splits, width, names, h, builtin, operands, place)
        }
        _ => {
            emit_all(alloc, b, splits, width, names, h, operands)?;
            b.finish(alloc, width, target, head, h, operands.len(), place)
        }
    }
}

// Where an operand's value is read, and the next free slot.
#[derive(Clone, Copy)]
struct Operand {
    slot: u64,
    next: u64,
}

// An operand that is to be read where it is: a name's value is in its slot already.
#[cycle(emit)]
fn emit_operand(
    alloc: Global,
    b: &mut Builder,
    splits: &mut Seq<Split>,
    width: u64,
    names: &mut Seq<Name>,
    h: u64,
    term: &Term,
) -> Result<Operand, OutOfMemory>
    requires { IsOnTop (stacked (kernel term.now)) (list splits.old) }
    ensures code { OnOk result (builder_view b.new ≡ operand (kernel term.now) (emit width None (scope_view (list names.old)) h (kernel term.now) (builder_view b.old)) (builder_view b.old)) }
    ensures names { OnOk result (list names.new ≡ list names.old) }
    ensures slot { IfOk result (λ o. o.slot ≡ operand_slot (scope_view (list names.old)) h (kernel term.now)) }
    ensures next { IfOk result (λ o. o.next ≡ next_slot h (kernel term.now)) }
    ensures splits { OnOk result (TakesSplits (stacked (kernel term.now)) (list splits.old) (list splits.new)) }
{
    match term {
        Term::Var(name) => Ok(Operand {
            slot: slot_of(names.as_slice(), *name),
            next: h,
        }),
        _ => {
            emit_term(alloc, b, splits, width, None, names, h, term)?;
            Ok(Operand {
                slot: h,
                next: sum(h, 1)?,
            })
        }
    }
}

// A builtin's second operand: an integer of the text, or what is read in a slot.
#[derive(Clone, Copy)]
struct Second {
    integer: Option<i64>,
    slot: u64,
}

// The integer that the term is, where it is one of the text.
fn integer_of(term: &Term) -> Option<i64>
    ensures { result ≡ written_integer (kernel term.now) }
{
    match term {
        Term::Const(value) => match value {
            Value::Int(n) => Some(*n),
            _ => None,
        },
        _ => None,
    }
}

// A second operand, which is read where it is: an integer of the text in the instruction itself.
#[cycle(emit)]
#[tactic(auto, using(crate::proofs::LayoutLaws::integer_slot))]
fn emit_second(
    alloc: Global,
    b: &mut Builder,
    splits: &mut Seq<Split>,
    width: u64,
    names: &mut Seq<Name>,
    h: u64,
    term: &Term,
) -> Result<Second, OutOfMemory>
    requires { IsOnTop (stacked (kernel term.now)) (list splits.old) }
    ensures code { OnOk result (builder_view b.new ≡ second (written_integer (kernel term.now)) (operand (kernel term.now) (emit width None (scope_view (list names.old)) h (kernel term.now) (builder_view b.old)) (builder_view b.old)) (builder_view b.old)) }
    ensures names { OnOk result (list names.new ≡ list names.old) }
    ensures integer { IfOk result (λ s. s.integer ≡ written_integer (kernel term.now)) }
    ensures slot { IfOk result (λ s. s.slot ≡ operand_slot (scope_view (list names.old)) h (kernel term.now)) }
    ensures splits { OnOk result (TakesSplits (stacked (kernel term.now)) (list splits.old) (list splits.new)) }
{
    match integer_of(term) {
        Some(n) => Ok(Second {
            integer: Some(n),
            slot: h,
        }),
        None => {
            let operand = emit_operand(alloc, b, splits, width, names, h, term)?;
            Ok(Second {
                integer: None,
                slot: operand.slot,
            })
        }
    }
}

// A builtin of a slot and a second operand.
fn paired(builtin: Builtin, to: u64, left: u64, right: Second, place: Place) -> Instr
    ensures { instruction result ≡ paired_instruction builtin to left right.integer right.slot place }
{
    match right.integer {
        Some(right) => Instr::TwoInt {
            builtin,
            to,
            left,
            right,
            place,
        },
        None => Instr::Two {
            builtin,
            to,
            left,
            right: right.slot,
            place,
        },
    }
}

// A builtin over its operands, whose value comes into slot h.
#[cycle(emit)]
fn emit_builtin(
    alloc: Global,
    b: &mut Builder,
    splits: &mut Seq<Split>,
    width: u64,
    names: &mut Seq<Name>,
    h: u64,
    builtin: Builtin,
    operands: &Seq<Term>,
    place: Place,
) -> Result<(), OutOfMemory>
    requires { IsOnTop (stacked_all (kernels (list operands.now))) (list splits.old) }
    ensures code { OnOk result ((lp : Option Target) → builder_view b.new ≡ emit width lp (scope_view (list names.old)) h (apply (heads.Builtin builtin) (kernels (list operands.now)) place) (builder_view b.old)) }
    ensures names { OnOk result (list names.new ≡ list names.old) }
    ensures splits { OnOk result (TakesSplits (stacked_all (kernels (list operands.now))) (list splits.old) (list splits.new)) }
{
    match layout_of(builtin, operands.len()) {
        Layout::One => {
            let operand = emit_operand(alloc, b, splits, width, names, h, &operands.as_slice()[0])?;
            b.put(Instr::One {
                builtin,
                to: h,
                operand: operand.slot,
                place,
            })
        }
        Layout::Two => {
            let left = emit_operand(alloc, b, splits, width, names, h, &operands.as_slice()[0])?;
            let right = emit_second(
                alloc,
                b,
                splits,
                width,
                names,
                left.next,
                &operands.as_slice()[1],
            )?;
            b.put(paired(builtin, h, left.slot, right, place))
        }
        Layout::Push => emit_push(alloc, b, splits, width, names, h, builtin, operands, place),
        Layout::Put => emit_put(alloc, b, splits, width, names, h, builtin, operands, place),
        Layout::Row => {
            emit_all(alloc, b, splits, width, names, h, operands)?;
            b.put(Instr::Many {
                builtin,
                to: h,
                from: h,
                count: operands.len(),
                place,
            })
        }
    }
}

// `conj` of one item: the collection is taken out of its slot.
#[cycle(emit)]
fn emit_push(
    alloc: Global,
    b: &mut Builder,
    splits: &mut Seq<Split>,
    width: u64,
    names: &mut Seq<Name>,
    h: u64,
    builtin: Builtin,
    operands: &Seq<Term>,
    place: Place,
) -> Result<(), OutOfMemory>
    requires layout { layout_of builtin (length (list operands.now)) ≡ Push }
    requires on_top { IsOnTop (stacked_all (kernels (list operands.now))) (list splits.old) }
    ensures code { OnOk result ((lp : Option Target) → builder_view b.new ≡ emit width lp (scope_view (list names.old)) h (apply (heads.Builtin builtin) (kernels (list operands.now)) place) (builder_view b.old)) }
    ensures names { OnOk result (list names.new ≡ list names.old) }
    ensures splits { OnOk result (TakesSplits (stacked_all (kernels (list operands.now))) (list splits.old) (list splits.new)) }
{
    emit_term(
        alloc,
        b,
        splits,
        width,
        None,
        names,
        h,
        &operands.as_slice()[0],
    )?;
    let next = sum(h, 1)?;
    let item = emit_operand(
        alloc,
        b,
        splits,
        width,
        names,
        next,
        &operands.as_slice()[1],
    )?;
    b.put(Instr::Push {
        to: h,
        collection: h,
        item: item.slot,
        place,
    })
}

// `assoc` of one pair: the collection is taken out of its slot.
#[cycle(emit)]
fn emit_put(
    alloc: Global,
    b: &mut Builder,
    splits: &mut Seq<Split>,
    width: u64,
    names: &mut Seq<Name>,
    h: u64,
    builtin: Builtin,
    operands: &Seq<Term>,
    place: Place,
) -> Result<(), OutOfMemory>
    requires layout { layout_of builtin (length (list operands.now)) ≡ Put }
    requires on_top { IsOnTop (stacked_all (kernels (list operands.now))) (list splits.old) }
    ensures code { OnOk result ((lp : Option Target) → builder_view b.new ≡ emit width lp (scope_view (list names.old)) h (apply (heads.Builtin builtin) (kernels (list operands.now)) place) (builder_view b.old)) }
    ensures names { OnOk result (list names.new ≡ list names.old) }
    ensures splits { OnOk result (TakesSplits (stacked_all (kernels (list operands.now))) (list splits.old) (list splits.new)) }
{
    emit_term(
        alloc,
        b,
        splits,
        width,
        None,
        names,
        h,
        &operands.as_slice()[0],
    )?;
    let next = sum(h, 1)?;
    let key = emit_operand(
        alloc,
        b,
        splits,
        width,
        names,
        next,
        &operands.as_slice()[1],
    )?;
    let value = emit_operand(
        alloc,
        b,
        splits,
        width,
        names,
        key.next,
        &operands.as_slice()[2],
    )?;
    b.put(Instr::Put {
        to: h,
        collection: h,
        key: key.slot,
        value: value.slot,
        place,
    })
}

// How a builtin's operands come to it: one or two where they are, a collection that grows taken out of its slot and
// the rest where it is, or a row of slots.
#[derive(Clone, Copy)]
pub(crate) enum Layout {
    One,
    Two,
    Push,
    Put,
    Row,
}

fn layout_of(builtin: Builtin, count: u64) -> Layout
    ensures { result ≡ layout_of builtin count }
{
    match count {
        1 => Layout::One,
        2 => match builtin {
            Builtin::Conj => Layout::Push,
            _ => Layout::Two,
        },
        3 => match builtin {
            Builtin::Assoc => Layout::Put,
            _ => Layout::Row,
        },
        _ => Layout::Row,
    }
}

#[cycle(emit)]
fn emit_all(
    alloc: Global,
    b: &mut Builder,
    splits: &mut Seq<Split>,
    width: u64,
    names: &mut Seq<Name>,
    h: u64,
    terms: &Seq<Term>,
) -> Result<(), OutOfMemory>
    requires { IsOnTop (stacked_all (kernels (list terms.now))) (list splits.old) }
    ensures code { OnOk result (builder_view b.new ≡ emit_all width (scope_view (list names.old)) h (kernels (list terms.now)) (builder_view b.old)) }
    ensures names { OnOk result (list names.new ≡ list names.old) }
    ensures splits { OnOk result (TakesSplits (stacked_all (kernels (list terms.now))) (list splits.old) (list splits.new)) }
{
    let mut slot = h;
    for term in terms.as_slice() {
        emit_term(alloc, b, splits, width, None, names, slot, term)?;
        slot = sum(slot, 1)?;
    }
    Ok(())
}

// The last of the terms stands where all of them do.
fn last_target(left: u64, target: Option<Loop>) -> Option<Loop>
    ensures { target_view result ≡ cond (left == 1) (target_view target) None }
{
    if left == 1 { target } else { None }
}

#[cycle(emit)]
fn emit_in_order(
    alloc: Global,
    b: &mut Builder,
    splits: &mut Seq<Split>,
    width: u64,
    target: Option<Loop>,
    names: &mut Seq<Name>,
    h: u64,
    terms: &Seq<Term>,
) -> Result<(), OutOfMemory>
    requires { IsOnTop (stacked_all (kernels (list terms.now))) (list splits.old) }
    ensures code { OnOk result (builder_view b.new ≡ emit_in_order width (target_view target) (scope_view (list names.old)) h (kernels (list terms.now)) (builder_view b.old)) }
    ensures names { OnOk result (list names.new ≡ list names.old) }
    ensures splits { OnOk result (TakesSplits (stacked_all (kernels (list terms.now))) (list splits.old) (list splits.new)) }
{
    if terms.is_empty() {
        return b.put_constant(alloc, h, &Value::Nil);
    }
    let mut left = terms.len();
    for term in terms.as_slice() {
        let own = last_target(left, target);
        emit_term(alloc, b, splits, width, own, names, h, term)?;
        left = left.saturating_sub(1);
    }
    Ok(())
}

#[cycle(emit)]
fn emit_bindings(
    alloc: Global,
    b: &mut Builder,
    splits: &mut Seq<Split>,
    width: u64,
    names: &mut Seq<Name>,
    h: u64,
    bindings: &Seq<Binding>,
) -> Result<(), OutOfMemory>
    requires { IsOnTop (stacked_bound (bindings_view (list bindings.now))) (list splits.old) }
    ensures code { OnOk result (builder_view b.new ≡ emit_bindings width (scope_view (list names.old)) h (bindings_view (list bindings.now)) (builder_view b.old)) }
    ensures scope { OnOk result (scope_view (list names.new) ≡ scope_view (list names.old) ++ in_slots (names_bound (bindings_view (list bindings.now))) h) }
    ensures kept { OnOk result (take (length (list names.old)) (list names.new) ≡ list names.old) }
    ensures splits { OnOk result (TakesSplits (stacked_bound (bindings_view (list bindings.now))) (list splits.old) (list splits.new)) }
{
    let mut slot = h;
    for binding in bindings.as_slice() {
        emit_term(alloc, b, splits, width, None, names, slot, &binding.term)?;
        names.reserve(1)?;
        names.push(Name {
            name: binding.name,
            slot,
        });
        slot = sum(slot, 1)?;
    }
    Ok(())
}
