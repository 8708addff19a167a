//! Whether two events are one. What compares a run with another, event by event, asks this.
ghost use Rattle.std.specs.Prelude.{◌≡◌, ◌↔◌, IsTrue, map};
ghost use Rattle.ca_term.specs.Event.{branch_view, event_view, port_number};
ghost use Rattle.ca_scene.specs.Same.{same_branch, same_branches, same_numbers};
ghost use Rattle.ca_scene.specs.SameEvent.{same_make, same_spawn, same_done, same_meet, same_park, same_post, same_settle, same_register, same_alone, same_tick, same_ending, same_end, same_event};

use crate::branch::{Look, is_branch};
use crate::same::{same_fault, same_kind, same_name, same_place, same_port, same_side, same_what};
use ca_term::event::{Branch, Ending, Event};
use ca_value::value::PortId;

/// Whether the two events are one, with all that they show.
pub fn same_event(a: &Event, b: &Event) -> bool
    ensures { IsTrue result ↔ (event_view a.now ≡ event_view b.now) }
{
    is_same(a, b)
}

// Events of two kinds are two; the function of a kind compares all that such an event shows.
fn is_same(a: &Event, b: &Event) -> bool
    ensures { result ≡ same_event (event_view a.now) (event_view b.now) }
{
    match a {
        Event::Make { .. } => same_make(a, b),
        Event::Spawn { .. } => same_spawn(a, b),
        Event::Done { .. } => same_done(a, b),
        Event::Meet { .. } => same_meet(a, b),
        Event::Park { .. } => same_park(a, b),
        Event::Post { .. } => same_post(a, b),
        Event::Settle { .. } => same_settle(a, b),
        Event::Default { .. } => same_alone(a, b),
        Event::Close { .. } => same_alone(a, b),
        Event::Register { .. } => same_register(a, b),
        Event::Print { .. } => same_alone(a, b),
        Event::Tick { .. } => same_tick(a, b),
        Event::End { .. } => same_end(a, b),
    }
}

fn same_make(a: &Event, b: &Event) -> bool
    ensures { result ≡ same_make (event_view a.now) (event_view b.now) }
{
    match (a, b) {
        (
            Event::Make {
                task,
                port,
                what,
                moment,
            },
            Event::Make {
                task: other_task,
                port: other_port,
                what: other_what,
                moment: other_moment,
            },
        ) => {
            *task == *other_task
                && (port.n == other_port.n
                    && (same_what(what, other_what) && *moment == *other_moment))
        }
        _ => false,
    }
}

fn same_spawn(a: &Event, b: &Event) -> bool
    ensures { result ≡ same_spawn (event_view a.now) (event_view b.now) }
{
    match (a, b) {
        (
            Event::Spawn {
                task,
                spawned,
                kind,
                result,
            },
            Event::Spawn {
                task: other_task,
                spawned: other_spawned,
                kind: other_kind,
                result: other_result,
            },
        ) => {
            *task == *other_task
                && (*spawned == *other_spawned
                    && (same_kind(*kind, *other_kind) && same_port(*result, *other_result)))
        }
        _ => false,
    }
}

fn same_done(a: &Event, b: &Event) -> bool
    ensures { result ≡ same_done (event_view a.now) (event_view b.now) }
{
    match (a, b) {
        (
            Event::Done {
                task,
                branch,
                operation,
                answer,
            },
            Event::Done {
                task: other_task,
                branch: other_branch,
                operation: other_operation,
                answer: other_answer,
            },
        ) => {
            *task == *other_task
                && (*branch == *other_branch
                    && (same_branch(operation, other_operation) && answer.same(other_answer)))
        }
        _ => false,
    }
}

fn same_meet(a: &Event, b: &Event) -> bool
    ensures { result ≡ same_meet (event_view a.now) (event_view b.now) }
{
    match (a, b) {
        (
            Event::Meet {
                task,
                branch,
                side,
                port,
                value,
                wait,
                other: met,
            },
            Event::Meet {
                task: other_task,
                branch: other_branch,
                side: other_side,
                port: other_port,
                value: other_value,
                wait: other_wait,
                other: other_met,
            },
        ) => {
            *task == *other_task
                && (*branch == *other_branch
                    && (same_side(*side, *other_side)
                        && (port.n == other_port.n
                            && (value.same(other_value)
                                && (wait.n == other_wait.n && *met == *other_met)))))
        }
        _ => false,
    }
}

fn same_park(a: &Event, b: &Event) -> bool
    ensures { result ≡ same_park (event_view a.now) (event_view b.now) }
{
    match (a, b) {
        (
            Event::Park {
                task,
                wait,
                branches,
            },
            Event::Park {
                task: other_task,
                wait: other_wait,
                branches: other_branches,
            },
        ) => {
            *task == *other_task
                && (wait.n == other_wait.n
                    && same_branches(branches.as_slice(), other_branches.as_slice()))
        }
        _ => false,
    }
}

fn same_post(a: &Event, b: &Event) -> bool
    ensures { result ≡ same_post (event_view a.now) (event_view b.now) }
{
    match (a, b) {
        (
            Event::Post {
                task,
                wait,
                port,
                value,
            },
            Event::Post {
                task: other_task,
                wait: other_wait,
                port: other_port,
                value: other_value,
            },
        ) => {
            *task == *other_task
                && (wait.n == other_wait.n && (port.n == other_port.n && value.same(other_value)))
        }
        _ => false,
    }
}

fn same_branch(a: &Branch, b: &Branch) -> bool
    ensures { result ≡ same_branch (branch_view a.now) (branch_view b.now) }
{
    is_branch(a, &Some(Look::of(b)))
}

fn same_branches(a: &[Branch], b: &[Branch]) -> bool
    ensures { same_branches (map branch_view a.now) (map branch_view b.now) ≡ result }
{
    if a.len() != b.len() {
        return false;
    }
    for i in 0..a.len() {
        if !same_branch(&a[i], &b[i]) {
            return false;
        }
    }
    true
}

fn same_settle(a: &Event, b: &Event) -> bool
    ensures { result ≡ same_settle (event_view a.now) (event_view b.now) }
{
    match (a, b) {
        (
            Event::Settle {
                wait,
                branch,
                side,
                port,
                value,
            },
            Event::Settle {
                wait: other_wait,
                branch: other_branch,
                side: other_side,
                port: other_port,
                value: other_value,
            },
        ) => {
            wait.n == other_wait.n
                && (*branch == *other_branch
                    && (same_side(*side, *other_side)
                        && (port.n == other_port.n && value.same(other_value))))
        }
        _ => false,
    }
}

fn same_register(a: &Event, b: &Event) -> bool
    ensures { result ≡ same_register (event_view a.now) (event_view b.now) }
{
    match (a, b) {
        (
            Event::Register {
                task,
                name,
                arguments,
                answer,
            },
            Event::Register {
                task: other_task,
                name: other_name,
                arguments: other_arguments,
                answer: other_answer,
            },
        ) => {
            *task == *other_task
                && (same_name(*name, *other_name)
                    && (arguments.same(other_arguments) && answer.same(other_answer)))
        }
        _ => false,
    }
}

fn same_alone(a: &Event, b: &Event) -> bool
    ensures { result ≡ same_alone (event_view a.now) (event_view b.now) }
{
    match (a, b) {
        (
            Event::Default { task, value },
            Event::Default {
                task: other_task,
                value: other_value,
            },
        ) => *task == *other_task && value.same(other_value),
        (
            Event::Close { task, port },
            Event::Close {
                task: other_task,
                port: other_port,
            },
        ) => *task == *other_task && port.n == other_port.n,
        (
            Event::Print { task, line },
            Event::Print {
                task: other_task,
                line: other_line,
            },
        ) => *task == *other_task && line.as_slice() == other_line.as_slice(),
        _ => false,
    }
}

fn same_tick(a: &Event, b: &Event) -> bool
    ensures { result ≡ same_tick (event_view a.now) (event_view b.now) }
{
    match (a, b) {
        (
            Event::Tick { moment, ports },
            Event::Tick {
                moment: other_moment,
                ports: other_ports,
            },
        ) => *moment == *other_moment && same_ports(ports.as_slice(), other_ports.as_slice()),
        _ => false,
    }
}

fn same_ports(a: &[PortId], b: &[PortId]) -> bool
    ensures { same_numbers (map port_number a.now) (map port_number b.now) ≡ result }
{
    if a.len() != b.len() {
        return false;
    }
    for i in 0..a.len() {
        if a[i].n != b[i].n {
            return false;
        }
    }
    true
}

fn same_end(a: &Event, b: &Event) -> bool
    ensures { result ≡ same_end (event_view a.now) (event_view b.now) }
{
    match (a, b) {
        (
            Event::End { task, ending },
            Event::End {
                task: other_task,
                ending: other_ending,
            },
        ) => *task == *other_task && same_ending(*ending, *other_ending),
        _ => false,
    }
}

fn same_ending(a: Ending, b: Ending) -> bool
    ensures { result ≡ same_ending a b }
{
    match (a, b) {
        (Ending::Ended, Ending::Ended) => true,
        (
            Ending::Faulted {
                fault,
                place,
                result,
            },
            Ending::Faulted {
                fault: other_fault,
                place: other_place,
                result: other_result,
            },
        ) => {
            same_fault(fault, other_fault)
                && (same_place(place, other_place) && same_port(result, other_result))
        }
        _ => false,
    }
}
