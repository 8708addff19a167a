//! The lines of a report.
ghost use Rattle.std.specs.Prelude.{◌≡◌, ◌++◌, OnOk};
ghost use Rattle.ca_value.specs.Seq.{list};
ghost use Rattle.ca_term.specs.Operation.{what_view};
ghost use Rattle.ca_report.specs.Counts.{lost};
ghost use Rattle.ca_report.specs.Report.{closed_text, counts_text, made_text, wait_line};
ghost use Rattle.ca_report.specs.Tallied.{makes_promise, made_in_row, row_text, row_view, tally_head, wait_told};

use crate::passage::Counts;
use crate::tally::{Record, Tally};
use ca_journal::part::{append_branches, append_numbered, append_what};
use ca_term::event::Branch;
use ca_term::operation::What;
use ca_value::memory::OutOfMemory;
use ca_value::seq::Text;

/// The first line: how many events there are, and what they cost.
pub fn append_events(tally: &Tally, into: &mut Text) -> Result<(), OutOfMemory>
    ensures { OnOk result (list into.new ≡ list into.old ++ tally_head tally.now) }
{
    append_numbered(b"events ", tally.events, into)?;
    append_numbered(b" cost ", tally.cost, into)?;
    into.append(b"\n")
}

/// The line of a channel, by what was counted at its port, how many values it holds and whether it is closed.
pub fn append_channel(
    port: u64,
    row: &Record,
    held: u64,
    closed: bool,
    into: &mut Text,
) -> Result<(), OutOfMemory>
    ensures { OnOk result (list into.new ≡ list into.old ++ row_text port (row_view row.now) held closed) }
{
    append_name(port, row, into)?;
    append_counts(row.counts, dropped(row, held), held, into)?;
    append_closed(closed, into)?;
    into.append(b"\n")
}

/// The line of a wait: its number, the task that waits, if a task does, and on what.
pub fn append_wait(
    number: u64,
    owner: Option<u64>,
    branches: &[Branch],
    into: &mut Text,
) -> Result<(), OutOfMemory>
    ensures { OnOk result (list into.new ≡ list into.old ++ wait_line (wait_told number owner branches.now)) }
{
    append_numbered(b"w", number, into)?;
    match owner {
        Some(task) => append_numbered(b" t", task, into)?,
        None => into.append(b" -")?,
    }
    into.append(b": ")?;
    append_branches(branches, into)?;
    into.append(b"\n")
}

fn append_name(port: u64, row: &Record, into: &mut Text) -> Result<(), OutOfMemory>
    ensures { OnOk result (list into.new ≡ list into.old ++ made_text (made_in_row port (row_view row.now))) }
{
    append_numbered(b"p", port, into)?;
    into.append(b" ")?;
    append_what(&row.what, row.moment, into)?;
    into.append(b":")
}

fn append_counts(
    counts: Counts,
    dropped: u64,
    held: u64,
    into: &mut Text,
) -> Result<(), OutOfMemory>
    ensures { OnOk result (list into.new ≡ list into.old ++ counts_text counts.accepted counts.passed counts.given dropped held) }
{
    append_numbered(b" accepted ", counts.accepted, into)?;
    append_numbered(b" passed ", counts.passed, into)?;
    append_numbered(b" given ", counts.given, into)?;
    append_numbered(b" dropped ", dropped, into)?;
    append_numbered(b" held ", held, into)
}

fn append_closed(closed: bool, into: &mut Text) -> Result<(), OutOfMemory>
    ensures { OnOk result (list into.new ≡ list into.old ++ closed_text closed) }
{
    if closed {
        into.append(b" closed")
    } else {
        into.append(b" open")
    }
}

// What was accepted and is neither given nor held; a promise holds what it gave.
fn dropped(row: &Record, held: u64) -> u64
    ensures { result ≡ lost (makes_promise (what_view row.now.what)) row.now.counts.accepted row.now.counts.given held }
{
    let accepted = row.counts.accepted;
    match row.what {
        What::Promise => accepted.saturating_sub(held),
        _ => accepted
            .saturating_sub(row.counts.given)
            .saturating_sub(held),
    }
}
