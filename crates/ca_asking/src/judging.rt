ghost use Rattle.std.specs.Prelude.{◌≡◌, None, cond, option_map};
ghost use Rattle.ca_value.specs.Tree.{nil as nil_tree};
ghost use Rattle.ca_value.specs.View.{view, trees};
ghost use Rattle.ca_term.specs.Operands.{is_pair, second_of};
ghost use Rattle.ca_asking.specs.Asked.{trees_by};
ghost use Rattle.ca_term.specs.Asking.{task_fault, too_large, too_large_branch, too_large_branches, bad_branches, default_in, bad_alts, not_a_vector, not_a_port, bad_operands, bad_collection};

use crate::operands::{AsOperand, last_operand, operand};
use ca_term::fault::Fault;
use ca_term::head::{AltsOptions, SeedKind, SystemTask};
use ca_value::fault::ValueFault;
use ca_value::value::Value;

/// A builtin's fault, as a task's.
pub fn task_fault(fault: ValueFault) -> Fault
    ensures { result ≡ task_fault fault }
{
    match fault {
        ValueFault::Overflow => Fault::Overflow,
        ValueFault::ZeroDivisor => Fault::ZeroDivisor,
        ValueFault::WrongKind => Fault::WrongKind,
        ValueFault::OutOfRange => Fault::OutOfRange,
        ValueFault::TooHeavy => Fault::TooHeavy,
        ValueFault::TooNested => Fault::TooNested,
    }
}

// What a value that a script puts, posts or prints weighs at most, and how deep it is.
const GREATEST_WEIGHT: u64 = 65_536;

const GREATEST_DEPTH: u64 = 64;

/// The fault of a value that is too heavy or too nested; the weight is tested first.
pub fn size_fault(value: &Value) -> Option<Fault>
    ensures { result ≡ too_large (view value.now) }
{
    if value.room_after(GREATEST_WEIGHT).is_none() {
        return Some(Fault::TooHeavy);
    }
    if !value.is_within_depth(GREATEST_DEPTH) {
        return Some(Fault::TooNested);
    }
    None
}

/// The first fault of an alts: its vector of ports, the values that its branches put, its default.
pub fn alts_fault<O: AsOperand>(options: AltsOptions, values: &[O]) -> Option<Fault>
    ensures { result ≡ bad_alts options (trees_by O.tree values.now) }
{
    let nil = Value::Nil;
    if let Some(fault) = branches_fault(operand(values, 0, &nil)) {
        return Some(fault);
    }
    match default_operand(options, values, &nil) {
        None => None,
        Some(value) => size_fault(value),
    }
}

// The value of an alts for where nothing is ready, if it has one.
pub(crate) fn default_operand<'a, O: AsOperand>(
    options: AltsOptions,
    values: &'a [O],
    nil: &'a Value,
) -> Option<&'a Value>
    requires { view nil.now ≡ nil_tree }
    ensures { option_map (λ v. view v.now) result ≡ default_in options (trees_by O.tree values.now) }
{
    match options {
        AltsOptions::None | AltsOptions::Priority => None,
        AltsOptions::Default | AltsOptions::DefaultThenPriority => Some(operand(values, 1, nil)),
        AltsOptions::PriorityThenDefault => Some(operand(values, 2, nil)),
    }
}

/// The first fault of the ports and puts that an alts chooses from.
pub fn branches_fault(ports: &Value) -> Option<Fault>
    ensures { result ≡ bad_branches (view ports.now) }
{
    match ports {
        Value::Vector(items) => put_branches_fault(items.as_slice()),
        _ => Some(Fault::WrongKind),
    }
}

// The first fault of a value that a branch puts.
fn put_branches_fault(branches: &[Value]) -> Option<Fault>
    ensures { result ≡ too_large_branches (trees branches.now) }
{
    for branch in branches {
        if let Some(fault) = branch_fault(branch) {
            return Some(fault);
        }
    }
    None
}

// A pair puts its second value.
fn branch_fault(branch: &Value) -> Option<Fault>
    ensures { result ≡ too_large_branch (view branch.now) }
{
    match branch {
        Value::Vector(items) => pair_fault(items.as_slice()),
        _ => None,
    }
}

fn pair_fault(items: &[Value]) -> Option<Fault>
    ensures { result ≡ cond (is_pair (trees items.now)) (too_large (second_of (trees items.now))) None }
{
    if items.len() == 2 {
        size_fault(&items[1])
    } else {
        None
    }
}

/// The fault of a Spawn's operands: a go block's result port is a port, a system task's collection a vector.
pub fn spawn_fault<O: AsOperand>(kind: SeedKind, values: &[O]) -> Option<Fault>
    ensures { result ≡ bad_operands kind (trees_by O.tree values.now) }
{
    let nil = Value::Nil;
    match kind {
        SeedKind::Go(_) => no_port_fault(last_operand(values, &nil)),
        SeedKind::System(task) => collection_fault(task, values),
    }
}

fn collection_fault<O: AsOperand>(task: SystemTask, values: &[O]) -> Option<Fault>
    ensures { result ≡ bad_collection task (trees_by O.tree values.now) }
{
    let nil = Value::Nil;
    match task {
        SystemTask::Merge => no_vector_fault(operand(values, 0, &nil)),
        SystemTask::Onto => no_vector_fault(operand(values, 1, &nil)),
        SystemTask::Mult | SystemTask::Deliver | SystemTask::Mix | SystemTask::Pub(_) => None,
        SystemTask::Pipe | SystemTask::Feed | SystemTask::Job(_, _) | SystemTask::Collect => None,
    }
}

fn no_port_fault(value: &Value) -> Option<Fault>
    ensures { result ≡ not_a_port (view value.now) }
{
    match value {
        Value::Port(_) => None,
        _ => Some(Fault::WrongKind),
    }
}

fn no_vector_fault(value: &Value) -> Option<Fault>
    ensures { result ≡ not_a_vector (view value.now) }
{
    match value {
        Value::Vector(_) => None,
        _ => Some(Fault::WrongKind),
    }
}
