//! A law of journals, which no run calls: each number that an event shows is one of 64 bits, since it is kept as one. A
//! call would walk the whole journal.
ghost use Rattle.std.specs.Prelude.{map, option_map};
ghost use Rattle.ca_value.specs.View.{trees, tree_pairs, view};
ghost use Rattle.ca_term.specs.Operation.{what_view};
ghost use Rattle.ca_term.specs.Event.{branch_view, event_view, over, port_number};
ghost use Rattle.ca_meaning.specs.Shown.{AllPortsFit, BranchNumbered, IsNumber, IsEventNumbered, MaybeNumber, MaybePort, PairsPortsFit, PortsFit, WhatNumbered};
ghost use Rattle.ca_meaning.specs.Sound.{Each};
ghost use Rattle.ca_journal.specs.Events.{events};
ghost use Rattle.ca_journal.specs.Merge.{entries, entry_view, piece_entries};
ghost use Rattle.ca_journal.specs.Note.{note_view};

use crate::entries::Entries;
use crate::entry::Entry;
use crate::journal::Journal;
use crate::note::Note;
use ca_term::event::{Branch, Ending, Event};
use ca_term::operation::What;
use ca_value::value::{Pair, PortId, Value};

/// Each number that an event of the journal shows is one of 64 bits, those of the ports in its values among them.
pub fn journals_are_numbered(journal: &Journal)
    ensures { Each IsEventNumbered (events journal.now) }
{
    lists_numbered(journal.lists.as_slice());
}

fn lists_numbered(lists: &[Entries])
    ensures { Each (λ l. Each (λ e. IsEventNumbered e.event) (entries l)) lists.now }
{
    for list in lists {
        list_numbered(list);
    }
}

fn list_numbered(list: &Entries)
    ensures { Each (λ e. IsEventNumbered e.event) (entries list.now) }
{
    pieces_numbered(list.full.as_slice());
    entries_numbered(list.last.as_slice());
}

fn pieces_numbered(pieces: &[Vec<Entry>])
    ensures { Each (λ p. Each (λ e. IsEventNumbered e.event) (piece_entries p)) pieces.now }
{
    for piece in pieces {
        entries_numbered(piece.as_slice());
    }
}

fn entries_numbered(entries: &[Entry])
    ensures { Each (λ e. IsEventNumbered e.event) (map entry_view entries.now) }
{
    for entry in entries {
        note_numbered(&entry.note);
    }
}

fn note_numbered(note: &Note)
    ensures { IsEventNumbered (note_view note.now) }
{
    match note {
        Note::Took {
            branch,
            task,
            port,
            answer,
        } => {
            numbers_fit(&[*task, *branch as u64, port.n]);
            ports_fit(answer);
        }
        Note::Gave {
            branch,
            task,
            port,
            value,
            ..
        } => {
            numbers_fit(&[*task, *branch as u64, port.n]);
            ports_fit(value);
        }
        Note::Met {
            branch,
            other,
            task,
            port,
            wait,
            value,
            ..
        } => {
            numbers_fit(&[*task, *branch as u64, port.n, wait.n, *other as u64]);
            ports_fit(value);
        }
        Note::TakeParked { task, wait, port } => numbers_fit(&[*task, wait.n, port.n]),
        Note::PutParked {
            task,
            wait,
            port,
            value,
        } => {
            numbers_fit(&[*task, wait.n, port.n]);
            ports_fit(value);
        }
        Note::Settled {
            branch,
            wait,
            port,
            value,
            ..
        } => {
            numbers_fit(&[wait.n, *branch as u64, port.n]);
            ports_fit(value);
        }
        Note::Timed {
            task,
            port,
            milliseconds,
            moment,
        } => numbers_fit(&[*task, port.n, *milliseconds, *moment]),
        Note::Rare(event) => event_numbered(event),
    }
}

fn event_numbered(event: &Event)
    ensures { IsEventNumbered (event_view event.now) }
{
    match event {
        Event::Make {
            task,
            port,
            what,
            moment,
        } => {
            numbers_fit(&[*task, port.n]);
            what_numbered(what, *moment);
        }
        Event::Spawn {
            task,
            spawned,
            result,
            ..
        } => {
            numbers_fit(&[*task, *spawned]);
            port_fits(*result);
        }
        Event::Done {
            task,
            branch,
            operation,
            answer,
        } => {
            numbers_fit(&[*task, *branch]);
            branch_numbered(operation);
            ports_fit(answer);
        }
        Event::Meet {
            task,
            branch,
            port,
            value,
            wait,
            other,
            ..
        } => {
            numbers_fit(&[*task, *branch, port.n, wait.n, *other]);
            ports_fit(value);
        }
        Event::Park {
            task,
            wait,
            branches,
        } => {
            numbers_fit(&[*task, wait.n]);
            branches_numbered(branches.as_slice());
        }
        Event::Post {
            task,
            wait,
            port,
            value,
        } => {
            numbers_fit(&[*task, wait.n, port.n]);
            ports_fit(value);
        }
        Event::Settle {
            wait,
            branch,
            port,
            value,
            ..
        } => {
            numbers_fit(&[wait.n, *branch, port.n]);
            ports_fit(value);
        }
        Event::Default { task, value } => {
            numbers_fit(&[*task]);
            ports_fit(value);
        }
        Event::Close { task, port } => numbers_fit(&[*task, port.n]),
        Event::Register {
            task,
            arguments,
            answer,
            ..
        } => {
            numbers_fit(&[*task]);
            items_ports_fit(arguments.as_slice());
            ports_fit(answer);
        }
        Event::Print { task, .. } => numbers_fit(&[*task]),
        Event::Tick { moment, ports } => {
            numbers_fit(&[*moment]);
            ports_numbered(ports.as_slice());
        }
        Event::End { task, ending } => ending_numbered(*task, *ending),
    }
}

fn what_numbered(what: &What, moment: Option<u64>)
    ensures { WhatNumbered (what_view what.now) moment }
{
    match what {
        What::Unbuffered | What::Promise => {}
        What::Fixed(count) | What::Dropping(count) | What::Sliding(count) => numbers_fit(&[*count]),
        What::Timeout(milliseconds) => {
            numbers_fit(&[*milliseconds]);
            moment_fits(moment);
        }
        What::Mult(source) | What::Pub(source) => ports_fit(source),
        What::Mix(out, changes) => {
            ports_fit(out);
            ports_fit(changes);
        }
    }
}

fn branch_numbered(branch: &Branch)
    ensures { BranchNumbered (branch_view branch.now) }
{
    match branch {
        Branch::Take(port) => numbers_fit(&[port.n]),
        Branch::Put(port, value) => {
            numbers_fit(&[port.n]);
            ports_fit(value);
        }
    }
}

fn branches_numbered(branches: &[Branch])
    ensures { Each BranchNumbered (map branch_view branches.now) }
{
    for branch in branches {
        branch_numbered(branch);
    }
}

fn ending_numbered(task: u64, ending: Ending)
    ensures { IsEventNumbered (over task ending) }
{
    match ending {
        Ending::Ended => numbers_fit(&[task]),
        Ending::Faulted { place, result, .. } => {
            numbers_fit(&[task, place.line, place.column]);
            port_fits(result);
        }
    }
}

fn port_fits(port: Option<PortId>)
    ensures port { MaybePort port }
    ensures number { MaybeNumber (option_map port_number port) }
{
    if let Some(port) = port {
        numbers_fit(&[port.n]);
    }
}

fn moment_fits(moment: Option<u64>)
    ensures { MaybeNumber moment }
{
    if let Some(moment) = moment {
        numbers_fit(&[moment]);
    }
}

fn ports_numbered(ports: &[PortId])
    ensures { Each IsNumber (map port_number ports.now) }
{
    for port in ports {
        number_fits(port.n);
    }
}

fn numbers_fit(numbers: &[u64])
    ensures { Each IsNumber numbers.now }
{
    for number in numbers {
        number_fits(*number);
    }
}

fn number_fits(number: u64)
    ensures { IsNumber number }
{}

#[cycle(ports)]
fn ports_fit(value: &Value)
    ensures { PortsFit (view value.now) }
{
    match value {
        Value::Vector(items) => items_ports_fit(items.as_slice()),
        Value::Map(pairs) => pairs_ports_fit(pairs.as_slice()),
        Value::Port(port) => number_fits(port.n),
        _ => {}
    }
}

#[cycle(ports)]
fn items_ports_fit(items: &[Value])
    ensures { AllPortsFit (trees items.now) }
{
    for item in items {
        ports_fit(item);
    }
}

#[cycle(ports)]
fn pairs_ports_fit(pairs: &[Pair])
    ensures { PairsPortsFit (tree_pairs pairs.now) }
{
    for pair in pairs {
        ports_fit(&pair.key);
        ports_fit(&pair.value);
    }
}
