//! Whether two things that an event shows are one.
ghost use Rattle.std.specs.Prelude.{◌≡◌, option_map};
ghost use Rattle.ca_term.specs.Event.{port_number};
ghost use Rattle.ca_term.specs.Operation.{what_view};
ghost use Rattle.ca_scene.specs.Same.{same_side, same_what, same_fault, same_place, same_name, same_kind, same_number};

use ca_term::event::{Side, TaskKind};
use ca_term::fault::Fault;
use ca_term::head::RegisterName;
use ca_term::operation::What;
use ca_term::place::Place;
use ca_value::value::PortId;

pub(crate) fn same_side(a: Side, b: Side) -> bool
    ensures { result ≡ same_side a b }
{
    match (a, b) {
        (Side::Take, Side::Take) | (Side::Put, Side::Put) => true,
        _ => false,
    }
}

pub(crate) fn same_what(a: &What, b: &What) -> bool
    ensures { result ≡ same_what (what_view a.now) (what_view b.now) }
{
    match (a, b) {
        (What::Unbuffered, What::Unbuffered) => true,
        (What::Fixed(m), What::Fixed(n)) => *m == *n,
        (What::Dropping(m), What::Dropping(n)) => *m == *n,
        (What::Sliding(m), What::Sliding(n)) => *m == *n,
        (What::Promise, What::Promise) => true,
        (What::Timeout(m), What::Timeout(n)) => *m == *n,
        (What::Mult(a), What::Mult(b)) => a.same(b),
        (What::Mix(a, c), What::Mix(b, d)) => a.same(b) && c.same(d),
        (What::Pub(a), What::Pub(b)) => a.same(b),
        _ => false,
    }
}

pub(crate) fn same_fault(a: Fault, b: Fault) -> bool
    ensures { result ≡ same_fault a b }
{
    a == b
}

pub(crate) fn same_place(a: Place, b: Place) -> bool
    ensures { result ≡ same_place a b }
{
    a.line == b.line && a.column == b.column
}

pub(crate) fn same_name(a: RegisterName, b: RegisterName) -> bool
    ensures { result ≡ same_name a b }
{
    a == b
}

pub(crate) fn same_kind(a: TaskKind, b: TaskKind) -> bool
    ensures { result ≡ same_kind a b }
{
    match (a, b) {
        (TaskKind::Go, TaskKind::Go) => true,
        (TaskKind::Mult, TaskKind::Mult) => true,
        (TaskKind::Deliver, TaskKind::Deliver) => true,
        (TaskKind::Mix, TaskKind::Mix) => true,
        (TaskKind::Pub, TaskKind::Pub) => true,
        (TaskKind::Pipe, TaskKind::Pipe) => true,
        (TaskKind::Merge, TaskKind::Merge) => true,
        (TaskKind::Onto, TaskKind::Onto) => true,
        (TaskKind::Feed, TaskKind::Feed) => true,
        (TaskKind::Job, TaskKind::Job) => true,
        (TaskKind::Collect, TaskKind::Collect) => true,
        _ => false,
    }
}

pub(crate) fn same_port(a: Option<PortId>, b: Option<PortId>) -> bool
    ensures { result ≡ same_number (option_map port_number a) (option_map port_number b) }
{
    match (a, b) {
        (None, None) => true,
        (Some(a), Some(b)) => a.n == b.n,
        _ => false,
    }
}
