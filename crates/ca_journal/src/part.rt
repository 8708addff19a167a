// Parts of lines, which a journal's lines share with those of a report.
ghost use Rattle.std.specs.Prelude.{◌≡◌, ◌∷◌, ◌++◌, OnOk, option_map, decimal, map};
ghost use Rattle.ca_value.specs.Seq.{list};
ghost use Rattle.ca_value.specs.View.{view, trees};
ghost use Rattle.ca_value.specs.Printed.{readable_items};
ghost use Rattle.ca_term.specs.Operation.{what_view};
ghost use Rattle.ca_term.specs.Event.{branch_view, put_of, port_number as number_of};
ghost use Rattle.ca_meaning.specs.Texts.{place_text};
ghost use Rattle.ca_meaning.specs.Journal.{maybe_port_text, moment_text, what_text, branch_text, branches_text, ports_text};

use ca_asking::operands::port_of;
use ca_term::event::Branch;
use ca_term::operation::What;
use ca_term::place::Place;
use ca_value::memory::OutOfMemory;
use ca_value::seq::Text;
use ca_value::value::{PortId, Value};

/// Some text and behind it a number, in decimal.
pub fn append_numbered(before: &[u8], number: u64, into: &mut Text) -> Result<(), OutOfMemory>
    ensures { OnOk result (list into.new ≡ list into.old ++ (before.now ++ decimal number)) }
{
    into.append(before)?;
    into.append(itoa::Buffer::new().format(number).as_bytes())
}

// A line and a column.
pub(crate) fn append_place(place: Place, into: &mut Text) -> Result<(), OutOfMemory>
    ensures { OnOk result (list into.new ≡ list into.old ++ place_text place) }
{
    append_numbered(b"", place.line, into)?;
    append_numbered(b":", place.column, into)
}

// A port, or a dash where there is none.
pub(crate) fn append_maybe_port(port: Option<PortId>, into: &mut Text) -> Result<(), OutOfMemory>
    ensures { OnOk result (list into.new ≡ list into.old ++ maybe_port_text (option_map number_of port)) }
{
    match port {
        Some(port) => append_numbered(b"p", port.n, into),
        None => into.append(b"-"),
    }
}

// A moment, or a dash where there is none.
fn append_moment(moment: Option<u64>, into: &mut Text) -> Result<(), OutOfMemory>
    ensures { OnOk result (list into.new ≡ list into.old ++ moment_text moment) }
{
    match moment {
        Some(moment) => append_numbered(b"", moment, into),
        None => into.append(b"-"),
    }
}

/// What is made at a new port, with the moment of a timeout's making.
pub fn append_what(what: &What, moment: Option<u64>, into: &mut Text) -> Result<(), OutOfMemory>
    ensures { OnOk result (list into.new ≡ list into.old ++ what_text (what_view what.now) moment) }
{
    match what {
        What::Unbuffered => into.append(b"chan none"),
        What::Fixed(size) => append_numbered(b"chan fixed ", *size, into),
        What::Dropping(size) => append_numbered(b"chan dropping ", *size, into),
        What::Sliding(size) => append_numbered(b"chan sliding ", *size, into),
        What::Promise => into.append(b"chan promise"),
        What::Timeout(milliseconds) => {
            append_numbered(b"timeout ", *milliseconds, into)?;
            into.append(b" at ")?;
            append_moment(moment, into)
        }
        What::Mult(source) => append_numbered(b"mult p", port_of(source).n, into),
        What::Mix(out, changes) => {
            append_numbered(b"mix p", port_of(out).n, into)?;
            append_numbered(b" p", port_of(changes).n, into)
        }
        What::Pub(source) => append_numbered(b"pub p", port_of(source).n, into),
    }
}

// One operation of a wait.
pub(crate) fn append_branch(branch: &Branch, into: &mut Text) -> Result<(), OutOfMemory>
    ensures { OnOk result (list into.new ≡ list into.old ++ branch_text (branch_view branch.now)) }
{
    match branch {
        Branch::Take(port) => append_numbered(b"take p", port.n, into),
        Branch::Put(port, value) => append_put(*port, value, into),
    }
}

// A put of a value into a channel.
pub(crate) fn append_put(port: PortId, value: &Value, into: &mut Text) -> Result<(), OutOfMemory>
    ensures { OnOk result (list into.new ≡ list into.old ++ branch_text (put_of port.n (view value.now))) }
{
    append_numbered(b"put p", port.n, into)?;
    into.append(b" ")?;
    value.append_readable(into)
}

/// The operations of a wait, joined by a comma and a space.
#[tactic(auto, using(crate::proofs::Branches::more_cons))]
pub fn append_branches(branches: &[Branch], into: &mut Text) -> Result<(), OutOfMemory>
    ensures { OnOk result (list into.new ≡ list into.old ++ branches_text (map branch_view branches.now)) }
{
    let Some((first, rest)) = branches.split_first() else {
        return Ok(());
    };
    append_branch(first, into)?;
    for branch in rest {
        into.append(b", ")?;
        append_branch(branch, into)?;
    }
    Ok(())
}

// Values in their readable text, joined by a space.
pub(crate) fn append_values(values: &[Value], into: &mut Text) -> Result<(), OutOfMemory>
    ensures { OnOk result (list into.new ≡ list into.old ++ readable_items (trees values.now)) }
{
    let Some((first, rest)) = values.split_first() else {
        return Ok(());
    };
    first.append_readable(into)?;
    for value in rest {
        into.append(b" ")?;
        value.append_readable(into)?;
    }
    Ok(())
}

// Ports, each behind a space.
pub(crate) fn append_ports(ports: &[PortId], into: &mut Text) -> Result<(), OutOfMemory>
    ensures { OnOk result (list into.new ≡ list into.old ++ ports_text (map number_of ports.now)) }
{
    for port in ports {
        append_numbered(b" p", port.n, into)?;
    }
    Ok(())
}
