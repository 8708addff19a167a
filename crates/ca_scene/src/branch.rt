//! The branches of an operation, looked at without copying what they put.
ghost use Rattle.std.specs.Prelude.{◌≡◌, Some, [], ◌∷◌, is_some, slice_get, option_map, map};
ghost use Rattle.ca_value.specs.Tree.{vector, nil as nil_tree};
ghost use Rattle.ca_value.specs.View.{view, trees};
ghost use Rattle.ca_term.specs.Event.{BranchView, branch_view};
ghost use Rattle.ca_term.specs.Operation.{op_view};
ghost use Rattle.ca_meaning.specs.Choice.{branches_of, branch_of, has_priority, default_of, parks};
ghost use Rattle.ca_meaning.specs.Operands.{values_in};
ghost use Rattle.ca_meaning.specs.Wait.{side_of, port_of};
ghost use Rattle.ca_scene.specs.Admits.{is_branch, is_default};
ghost use Rattle.ca_scene.specs.Look.{look_view};
ghost use Rattle.ca_scene.specs.Same.{same_branch, same_branches, same_side};

use ca_asking::operands::{operand, port_at, port_of};
use ca_term::event::{Branch, Side};
use ca_term::operation::Op;
use ca_value::value::Value;

/// A branch: a take from a channel, or a put of a value into it.
#[derive(Clone, Copy)]
pub(crate) enum Look<'a> {
    Take(u64),
    Put(u64, &'a Value),
}

impl<'a> Look<'a> {
    /// The branch that an event shows.
    pub(crate) fn of(branch: &'a Branch) -> Look<'a>
        ensures { look_view result ≡ branch_view branch.now }
    {
        match branch {
            Branch::Take(port) => Look::Take(port.n),
            Branch::Put(port, value) => Look::Put(port.n, value),
        }
    }

    /// Whether it stands on that side.
    pub(crate) fn is_on(&self, side: Side) -> bool
        ensures { result ≡ same_side (side_of (look_view self.now)) side }
    {
        match (self, side) {
            (Look::Take(_), Side::Take) => true,
            (Look::Put(_, _), Side::Put) => true,
            _ => false,
        }
    }

    /// The number of its channel.
    pub(crate) fn port(&self) -> u64
        ensures { result ≡ port_of (look_view self.now) }
    {
        match self {
            Look::Take(port) => *port,
            Look::Put(port, _) => *port,
        }
    }
}

// A port is a take, a pair of a port and a value is a put.
fn seen<'a>(branch: &'a Value, nil: &'a Value) -> Look<'a>
    requires { view nil.now ≡ nil_tree }
    ensures { look_view result ≡ branch_of (view branch.now) }
{
    match branch {
        Value::Vector(items) => look_pair(items.as_slice(), nil),
        Value::Port(port) => Look::Take(port.n),
        _ => Look::Take(0),
    }
}

fn look_pair<'a>(items: &'a [Value], nil: &'a Value) -> Look<'a>
    requires { view nil.now ≡ nil_tree }
    ensures { look_view result ≡ branch_of (vector (trees items.now)) }
{
    Look::Put(port_at(items, 0).n, operand(items, 1, nil))
}

fn look_at<'a>(ports: &'a [Value], place: u64, nil: &'a Value) -> Option<Look<'a>>
    requires { view nil.now ≡ nil_tree }
    ensures { option_map look_view result ≡ slice_get (map branch_of (values_in (trees ports.now))) place }
{
    match ports.get(place as usize) {
        Some(branch) => Some(seen(branch, nil)),
        None => None,
    }
}

/// The branch at that place of the operation, from 0.
pub(crate) fn branch_at<'a>(op: &'a Op, place: u64, nil: &'a Value) -> Option<Look<'a>>
    requires { view nil.now ≡ nil_tree }
    ensures { option_map look_view result ≡ slice_get (branches_of (op_view op.now)) place }
{
    match op {
        Op::Alts { ports, .. } => look_at(ports.as_slice(), place, nil),
        Op::Take(channel) if place == 0 => Some(Look::Take(port_of(channel).n)),
        Op::Put(channel, value) if place == 0 => Some(Look::Put(port_of(channel).n, value)),
        Op::Post(channel, value) if place == 0 => Some(Look::Put(port_of(channel).n, value)),
        _ => None,
    }
}

/// Whether the branch is this one.
pub(crate) fn is_branch(branch: &Branch, look: &Option<Look<'_>>) -> bool
    ensures { result ≡ is_branch (branch_view branch.now) (option_map look_view look.now) }
{
    match (branch, look) {
        (Branch::Take(p), Some(Look::Take(q))) => p.n == *q,
        (Branch::Put(p, v), Some(Look::Put(q, u))) => p.n == *q && v.same(u),
        _ => false,
    }
}

/// Whether a task waits at it, if nothing is ready and it has no default.
pub(crate) fn parks(op: &Op) -> bool
    ensures { result ≡ parks (op_view op.now) }
{
    matches!(op, Op::Take(_) | Op::Put(_, _) | Op::Alts { .. })
}

/// Whether it has a default.
pub(crate) fn is_some_default(op: &Op) -> bool
    ensures { result ≡ is_some (default_of (op_view op.now)) }
{
    match op {
        Op::Alts { default, .. } => default.is_some(),
        _ => false,
    }
}

/// Whether it has that default.
pub(crate) fn is_default(value: &Value, op: &Op) -> bool
    ensures { result ≡ is_default (view value.now) (default_of (op_view op.now)) }
{
    match op {
        Op::Alts {
            default: Some(default),
            ..
        } => value.same(default),
        _ => false,
    }
}

// Whether the branch is the one that the port, or the pair of a port and a value, means.
fn is_port_branch(branch: &Branch, port: &Value) -> bool
    ensures { result ≡ same_branch (branch_view branch.now) (branch_of (view port.now)) }
{
    let nil = Value::Nil;
    is_branch(branch, &Some(seen(port, &nil)))
}

fn same_ports(branches: &[Branch], ports: &[Value]) -> bool
    ensures { same_branches (map branch_view branches.now) (map branch_of (values_in (trees ports.now))) ≡ result }
{
    if branches.len() != ports.len() {
        return false;
    }
    for i in 0..branches.len() {
        if !is_port_branch(&branches[i], &ports[i]) {
            return false;
        }
    }
    true
}

/// Whether these are the operation's branches.
pub(crate) fn same_branches(branches: &[Branch], op: &Op) -> bool
    ensures { same_branches (map branch_view branches.now) (branches_of (op_view op.now)) ≡ result }
{
    let nil = Value::Nil;
    match op {
        Op::Alts { ports, .. } => same_ports(branches, ports.as_slice()),
        Op::Take(_) | Op::Put(_, _) | Op::Post(_, _) => same_one(branches, &branch_at(op, 0, &nil)),
        Op::Make(_) | Op::Spawn(_) | Op::Close(_) => same_none(branches),
        Op::Register(_, _) | Op::Print(_) => same_none(branches),
    }
}

fn same_one(branches: &[Branch], look: &Option<Look<'_>>) -> bool
    ensures { (c : BranchView) → option_map look_view look.now ≡ Some c → same_branches (map branch_view branches.now) (c ∷ []) ≡ result }
{
    if branches.len() != 1 {
        return false;
    }
    is_branch(&branches[0], look)
}

fn same_none(branches: &[Branch]) -> bool
    ensures { same_branches (map branch_view branches.now) [] ≡ result }
{
    match branches.first() {
        None => true,
        Some(_) => false,
    }
}
