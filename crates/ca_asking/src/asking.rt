ghost use Rattle.std.specs.Prelude.{◌≡◌, IfOk};
ghost use Rattle.ca_value.specs.Tree.{text, trees_of};
ghost use Rattle.ca_value.specs.View.{view, vector_trees};
ghost use Rattle.ca_term.specs.Operation.{op_view, seed_view, putting, posting, spawning, registering, printing};
ghost use Rattle.ca_term.specs.Operands.{first_of, second_of};
ghost use Rattle.ca_term.specs.Asking.{asked, asked_to_make, unless_faulted, too_large, bad_alts, alts_of, made_of, alts_ports, bad_operands, seed_of, bad_arguments, line_of};
ghost use Rattle.ca_asking.specs.Asked.{asked_view, trees_by};

use crate::judging::{alts_fault, default_operand, size_fault, spawn_fault};
use crate::line::{line, line_fault};
use crate::making::{number_to_make, what_of};
use crate::modes::register_fault;
use crate::operands::{AsOperand, all_but_last, copies, is_true, last_port, operand};
use ca_term::fault::Fault;
use ca_term::head::{AltsOptions, Head, MakeKind, RegisterName, SeedKind};
use ca_term::operation::{GoSeed, Op, Seed, SystemSeed};
use ca_term::place::Place;
use ca_value::memory::OutOfMemory;
use ca_value::value::{Items, Value, Vector};
use std::alloc::Global;

/// The operation of the head over these values, or the fault of one of them; the head's form stands at the
/// place. A head that is no operation asks for nothing: its fault is WrongKind.
pub fn ask<O: AsOperand>(
    alloc: Global,
    head: Head,
    values: &[O],
    place: Place,
) -> Result<Result<Op, Fault>, OutOfMemory>
    ensures { IfOk result (λ r. asked_view r ≡ asked head (trees_by O.tree values.now) place) }
{
    let nil = Value::Nil;
    let first = operand(values, 0, &nil);
    match head {
        Head::Recur | Head::Builtin(_) | Head::Call(_) => Ok(Err(Fault::WrongKind)),
        Head::Take => Ok(Ok(Op::Take(first.copy(alloc)?))),
        Head::Put => ask_put(alloc, values),
        Head::Alts(options) => ask_choice(alloc, options, values),
        Head::Make(kind) => ask_making(alloc, kind, values),
        Head::Spawn(kind) => ask_spawning(alloc, kind, values, place),
        Head::Close => Ok(Ok(Op::Close(first.copy(alloc)?))),
        Head::Register(name) => ask_register(alloc, name, values),
        Head::Print => ask_line(alloc, values),
        Head::Post => ask_post(alloc, values),
    }
}

fn ask_put<O: AsOperand>(alloc: Global, values: &[O]) -> Result<Result<Op, Fault>, OutOfMemory>
    ensures { let vs = trees_by O.tree values.now in IfOk result (λ r. asked_view r ≡ unless_faulted (too_large (second_of vs)) (putting (first_of vs) (second_of vs))) }
{
    let nil = Value::Nil;
    let value = operand(values, 1, &nil);
    match size_fault(value) {
        Some(fault) => Ok(Err(fault)),
        None => Ok(Ok(Op::Put(operand(values, 0, &nil).copy(alloc)?, value.copy(alloc)?))),
    }
}

fn ask_post<O: AsOperand>(alloc: Global, values: &[O]) -> Result<Result<Op, Fault>, OutOfMemory>
    ensures { let vs = trees_by O.tree values.now in IfOk result (λ r. asked_view r ≡ unless_faulted (too_large (second_of vs)) (posting (first_of vs) (second_of vs))) }
{
    let nil = Value::Nil;
    let value = operand(values, 1, &nil);
    match size_fault(value) {
        Some(fault) => Ok(Err(fault)),
        None => Ok(Ok(Op::Post(operand(values, 0, &nil).copy(alloc)?, value.copy(alloc)?))),
    }
}

fn ask_choice<O: AsOperand>(
    alloc: Global,
    options: AltsOptions,
    values: &[O],
) -> Result<Result<Op, Fault>, OutOfMemory>
    ensures { IfOk result (λ r. asked_view r ≡ unless_faulted (bad_alts options (trees_by O.tree values.now)) (alts_of options (trees_by O.tree values.now))) }
{
    match alts_fault(options, values) {
        Some(fault) => Ok(Err(fault)),
        None => Ok(Ok(choice(alloc, options, values)?)),
    }
}

// The ports of an alts, and its options.
fn choice<O: AsOperand>(
    alloc: Global,
    options: AltsOptions,
    values: &[O],
) -> Result<Op, OutOfMemory>
    ensures { IfOk result (λ op. op_view op ≡ alts_of options (trees_by O.tree values.now)) }
{
    let nil = Value::Nil;
    let default = match default_operand(options, values, &nil) {
        None => None,
        Some(value) => Some(value.copy(alloc)?),
    };
    let priority = match options {
        AltsOptions::None | AltsOptions::Default => false,
        AltsOptions::Priority | AltsOptions::PriorityThenDefault => {
            is_true(operand(values, 1, &nil))
        }
        AltsOptions::DefaultThenPriority => is_true(operand(values, 2, &nil)),
    };
    Ok(Op::Alts {
        ports: ports(alloc, operand(values, 0, &nil))?,
        priority,
        default,
    })
}

// The items of a vector of ports.
fn ports(alloc: Global, value: &Value) -> Result<Vector, OutOfMemory>
    ensures { IfOk result (λ v. trees_of (vector_trees v) ≡ alts_ports (view value.now)) }
{
    match value {
        Value::Vector(items) => items.copy(),
        _ => Vector::of(alloc, Items::new(alloc)),
    }
}

fn ask_making<O: AsOperand>(
    alloc: Global,
    kind: MakeKind,
    values: &[O],
) -> Result<Result<Op, Fault>, OutOfMemory>
    ensures { IfOk result (λ r. asked_view r ≡ asked_to_make (made_of kind (trees_by O.tree values.now))) }
{
    match number_to_make(kind, values) {
        Err(fault) => Ok(Err(fault)),
        Ok(number) => Ok(Ok(Op::Make(what_of(alloc, kind, number, values)?))),
    }
}

fn ask_spawning<O: AsOperand>(
    alloc: Global,
    kind: SeedKind,
    values: &[O],
    place: Place,
) -> Result<Result<Op, Fault>, OutOfMemory>
    ensures { IfOk result (λ r. asked_view r ≡ unless_faulted (bad_operands kind (trees_by O.tree values.now)) (spawning (seed_of kind (trees_by O.tree values.now) place))) }
{
    match spawn_fault(kind, values) {
        Some(fault) => Ok(Err(fault)),
        None => Ok(Ok(Op::Spawn(seed(alloc, kind, values, place)?))),
    }
}

// What a Spawn starts: a go block's last operand is its result port.
fn seed<O: AsOperand>(
    alloc: Global,
    kind: SeedKind,
    values: &[O],
    place: Place,
) -> Result<Seed, OutOfMemory>
    ensures { IfOk result (λ s. seed_view s ≡ seed_of kind (trees_by O.tree values.now) place) }
{
    match kind {
        SeedKind::Go(body) => Ok(Seed::Go(GoSeed {
            body,
            values: all_but_last(alloc, values)?,
            result: last_port(values),
            place,
        })),
        SeedKind::System(kind) => Ok(Seed::System(SystemSeed {
            kind,
            values: copies(alloc, values)?,
            place,
        })),
    }
}

fn ask_register<O: AsOperand>(
    alloc: Global,
    name: RegisterName,
    values: &[O],
) -> Result<Result<Op, Fault>, OutOfMemory>
    ensures { IfOk result (λ r. asked_view r ≡ unless_faulted (bad_arguments name (trees_by O.tree values.now)) (registering name (trees_by O.tree values.now))) }
{
    match register_fault(name, values) {
        Some(fault) => Ok(Err(fault)),
        None => Ok(Ok(Op::Register(name, copies(alloc, values)?))),
    }
}

fn ask_line<O: AsOperand>(alloc: Global, values: &[O]) -> Result<Result<Op, Fault>, OutOfMemory>
    ensures { IfOk result (λ r. asked_view r ≡ unless_faulted (too_large (text (line_of (trees_by O.tree values.now)))) (printing (line_of (trees_by O.tree values.now)))) }
{
    match line_fault(values) {
        Some(fault) => Ok(Err(fault)),
        None => Ok(Ok(Op::Print(line(alloc, values)?))),
    }
}
