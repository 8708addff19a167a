ghost use Rattle.std.specs.Prelude.{◌≡◌, ◌∷◌, ◌++◌, OnOk, option_map, decimal, map};
ghost use Rattle.ca_value.specs.Seq.{list};
ghost use Rattle.ca_value.specs.View.{view, trees};
ghost use Rattle.ca_value.specs.Printed.{readable_text, quoted};
ghost use Rattle.ca_term.specs.Operation.{what_view};
ghost use Rattle.ca_term.specs.Event.{branch_view, event_view, made, spawned, done, parked, posted, settled, defaulted, registered, printed, ticked, over, port_number};
ghost use Rattle.ca_meaning.specs.Texts.{◌⋅◌};
ghost use Rattle.ca_meaning.specs.Journal.{event_text, event_line, side_text, port_text};
ghost use Rattle.ca_journal.specs.Note.{note_view};

use crate::name::{kind_name, register_name};
use crate::note::Note;
use crate::part::{
    append_branch, append_branches, append_maybe_port, append_numbered, append_place, append_ports,
    append_put, append_values, append_what,
};
use ca_meaning::text::{fault_name, side_name};
use ca_term::event::{Branch, Ending, Event, Side, TaskKind, WaitId};
use ca_term::head::RegisterName;
use ca_term::operation::What;
use ca_value::memory::OutOfMemory;
use ca_value::seq::Text;
use ca_value::value::{Items, PortId, Value};

// The line of a note, with its number and its line feed.
pub(crate) fn append_line(number: u64, note: &Note, into: &mut Text) -> Result<(), OutOfMemory>
    ensures { OnOk result (list into.new ≡ list into.old ++ event_line number (note_view note.now)) }
{
    append_numbered(b"", number, into)?;
    into.append(b" ")?;
    append_note(note, into)?;
    into.append(b"\n")
}

/// The same of an event.
pub fn append_event_line(number: u64, event: &Event, into: &mut Text) -> Result<(), OutOfMemory>
    ensures { OnOk result (list into.new ≡ list into.old ++ event_line number (event_view event.now)) }
{
    append_numbered(b"", number, into)?;
    into.append(b" ")?;
    append_event(event, into)?;
    into.append(b"\n")
}

fn append_note(note: &Note, into: &mut Text) -> Result<(), OutOfMemory>
    ensures { OnOk result (list into.new ≡ list into.old ++ event_text (note_view note.now)) }
{
    match note {
        Note::Took {
            branch,
            task,
            port,
            answer,
        } => append_done(*task, *branch as u64, &Branch::Take(*port), answer, into),
        Note::Gave {
            branch,
            accepted,
            task,
            port,
            value,
        } => {
            append_pair(b"done t", *task, b" ", *branch as u64, into)?;
            into.append(b" ")?;
            append_put(*port, value, into)?;
            into.append(b" ")?;
            Value::Bool(*accepted).append_readable(into)
        }
        Note::Met {
            side,
            branch,
            other,
            task,
            port,
            wait,
            value,
        } => {
            append_pair(b"meet t", *task, b" ", *branch as u64, into)?;
            append_passing(*side, *port, value, into)?;
            append_pair(b" w", wait.n, b" ", *other as u64, into)
        }
        Note::TakeParked { task, wait, port } => {
            append_pair(b"park t", *task, b" w", wait.n, into)?;
            append_numbered(b" take p", port.n, into)
        }
        Note::PutParked {
            task,
            wait,
            port,
            value,
        } => {
            append_pair(b"park t", *task, b" w", wait.n, into)?;
            into.append(b" ")?;
            append_put(*port, value, into)
        }
        Note::Settled {
            side,
            branch,
            wait,
            port,
            value,
        } => append_settle(*wait, *branch as u64, *side, *port, value, into),
        Note::Timed {
            task,
            port,
            milliseconds,
            moment,
        } => append_make(
            *task,
            *port,
            &What::Timeout(*milliseconds),
            Some(*moment),
            into,
        ),
        Note::Rare(event) => append_event(event, into),
    }
}

fn append_event(event: &Event, into: &mut Text) -> Result<(), OutOfMemory>
    ensures { OnOk result (list into.new ≡ list into.old ++ event_text (event_view event.now)) }
{
    match event {
        Event::Make {
            task,
            port,
            what,
            moment,
        } => append_make(*task, *port, what, *moment, into),
        Event::Spawn {
            task,
            spawned,
            kind,
            result,
        } => append_spawn(*task, *spawned, *kind, *result, into),
        Event::Done {
            task,
            branch,
            operation,
            answer,
        } => append_done(*task, *branch, operation, answer, into),
        Event::Meet {
            task,
            branch,
            side,
            port,
            value,
            wait,
            other,
        } => {
            append_pair(b"meet t", *task, b" ", *branch, into)?;
            append_passing(*side, *port, value, into)?;
            append_pair(b" w", wait.n, b" ", *other, into)
        }
        Event::Park {
            task,
            wait,
            branches,
        } => append_park(*task, *wait, branches.as_slice(), into),
        Event::Post {
            task,
            wait,
            port,
            value,
        } => append_post(*task, *wait, *port, value, into),
        Event::Settle {
            wait,
            branch,
            side,
            port,
            value,
        } => append_settle(*wait, *branch, *side, *port, value, into),
        Event::Default { task, value } => append_default(*task, value, into),
        Event::Close { task, port } => append_pair(b"close t", *task, b" p", port.n, into),
        Event::Register {
            task,
            name,
            arguments,
            answer,
        } => append_register(*task, *name, arguments, answer, into),
        Event::Print { task, line } => append_print(*task, line, into),
        Event::Tick { moment, ports } => append_tick(*moment, ports.as_slice(), into),
        Event::End { task, ending } => append_end(*task, *ending, into),
    }
}

// Two numbers, each behind some text.
fn append_pair(
    before: &[u8],
    first: u64,
    between: &[u8],
    second: u64,
    into: &mut Text,
) -> Result<(), OutOfMemory>
    ensures { OnOk result (list into.new ≡ list into.old ++ ((before.now ++ decimal first) ++ (between.now ++ decimal second))) }
{
    append_numbered(before, first, into)?;
    append_numbered(between, second, into)
}

// A side, its channel and the value that passes, each behind a space.
fn append_passing(
    side: Side,
    port: PortId,
    value: &Value,
    into: &mut Text,
) -> Result<(), OutOfMemory>
    ensures { OnOk result (list into.new ≡ list into.old ++ (32 ∷ (side_text side ⋅ port_text port.n ⋅ readable_text (view value.now)))) }
{
    into.append(b" ")?;
    into.append(side_name(side).as_bytes())?;
    append_numbered(b" p", port.n, into)?;
    into.append(b" ")?;
    value.append_readable(into)
}

fn append_make(
    task: u64,
    port: PortId,
    what: &What,
    moment: Option<u64>,
    into: &mut Text,
) -> Result<(), OutOfMemory>
    ensures { OnOk result (list into.new ≡ list into.old ++ event_text (made task port.n (what_view what.now) moment)) }
{
    append_pair(b"make t", task, b" p", port.n, into)?;
    into.append(b" ")?;
    append_what(what, moment, into)
}

fn append_spawn(
    task: u64,
    created: u64,
    kind: TaskKind,
    port: Option<PortId>,
    into: &mut Text,
) -> Result<(), OutOfMemory>
    ensures { OnOk result (list into.new ≡ list into.old ++ event_text (spawned task created kind (option_map port_number port))) }
{
    append_pair(b"spawn t", task, b" t", created, into)?;
    into.append(b" ")?;
    into.append(kind_name(kind).as_bytes())?;
    into.append(b" ")?;
    append_maybe_port(port, into)
}

#[tactic(auto, using(crate::proofs::Branches::done_text_is))]
fn append_done(
    task: u64,
    branch: u64,
    operation: &Branch,
    answer: &Value,
    into: &mut Text,
) -> Result<(), OutOfMemory>
    ensures { OnOk result (list into.new ≡ list into.old ++ event_text (done task branch (branch_view operation.now) (view answer.now))) }
{
    append_pair(b"done t", task, b" ", branch, into)?;
    into.append(b" ")?;
    append_branch(operation, into)?;
    into.append(b" ")?;
    answer.append_readable(into)
}

fn append_park(
    task: u64,
    wait: WaitId,
    branches: &[Branch],
    into: &mut Text,
) -> Result<(), OutOfMemory>
    ensures { OnOk result (list into.new ≡ list into.old ++ event_text (parked task wait.n (map branch_view branches.now))) }
{
    append_pair(b"park t", task, b" w", wait.n, into)?;
    into.append(b" ")?;
    append_branches(branches, into)
}

fn append_post(
    task: u64,
    wait: WaitId,
    port: PortId,
    value: &Value,
    into: &mut Text,
) -> Result<(), OutOfMemory>
    ensures { OnOk result (list into.new ≡ list into.old ++ event_text (posted task wait.n port.n (view value.now))) }
{
    append_pair(b"post t", task, b" w", wait.n, into)?;
    append_numbered(b" p", port.n, into)?;
    into.append(b" ")?;
    value.append_readable(into)
}

fn append_settle(
    wait: WaitId,
    branch: u64,
    side: Side,
    port: PortId,
    value: &Value,
    into: &mut Text,
) -> Result<(), OutOfMemory>
    ensures { OnOk result (list into.new ≡ list into.old ++ event_text (settled wait.n branch side port.n (view value.now))) }
{
    append_pair(b"settle w", wait.n, b" ", branch, into)?;
    append_passing(side, port, value, into)
}

fn append_default(task: u64, value: &Value, into: &mut Text) -> Result<(), OutOfMemory>
    ensures { OnOk result (list into.new ≡ list into.old ++ event_text (defaulted task (view value.now))) }
{
    append_numbered(b"default t", task, into)?;
    into.append(b" ")?;
    value.append_readable(into)
}

fn append_register(
    task: u64,
    name: RegisterName,
    arguments: &Items,
    answer: &Value,
    into: &mut Text,
) -> Result<(), OutOfMemory>
    ensures { OnOk result (list into.new ≡ list into.old ++ event_text (registered task name (trees (list arguments.now)) (view answer.now))) }
{
    append_numbered(b"register t", task, into)?;
    into.append(b" ")?;
    into.append(register_name(name).as_bytes())?;
    into.append(b" ")?;
    append_values(arguments.as_slice(), into)?;
    into.append(b" ")?;
    answer.append_readable(into)
}

fn append_print(task: u64, line: &Text, into: &mut Text) -> Result<(), OutOfMemory>
    ensures { OnOk result (list into.new ≡ list into.old ++ event_text (printed task (list line.now))) }
{
    append_numbered(b"print t", task, into)?;
    into.append(b" ")?;
    into.append_quoted(line.as_slice())
}

fn append_tick(moment: u64, ports: &[PortId], into: &mut Text) -> Result<(), OutOfMemory>
    ensures { OnOk result (list into.new ≡ list into.old ++ event_text (ticked moment (map port_number ports.now))) }
{
    append_numbered(b"tick ", moment, into)?;
    append_ports(ports, into)
}

fn append_end(task: u64, ending: Ending, into: &mut Text) -> Result<(), OutOfMemory>
    ensures { OnOk result (list into.new ≡ list into.old ++ event_text (over task ending)) }
{
    match ending {
        Ending::Ended => append_numbered(b"end t", task, into),
        Ending::Faulted {
            fault,
            place,
            result,
        } => {
            append_numbered(b"fault t", task, into)?;
            into.append(b" ")?;
            into.append(fault_name(fault).as_bytes())?;
            into.append(b" ")?;
            append_place(place, into)?;
            into.append(b" ")?;
            append_maybe_port(result, into)
        }
    }
}
