//! The report on a journal.
ghost use Rattle.std.specs.Prelude.{◌≡◌, ◌<◌, ◌^◌, ◌++◌, flat_map, length, IfOk, OnOk};
ghost use Rattle.ca_value.specs.Seq.{list};
ghost use Rattle.ca_term.specs.Program.{program_view};
ghost use Rattle.ca_journal.specs.Events.{events};
ghost use Rattle.ca_replay.specs.World.{world_state};
ghost use Rattle.ca_report.specs.Report.{wait_line};
ghost use Rattle.ca_report.specs.Reported.{IsReport};
ghost use Rattle.ca_report.specs.Tallied.{row_line, row_view, rows, tally_text};

use crate::lines::{append_channel, append_events, append_wait};
use crate::tally::{Record, Tally};
use ca_journal::journal::Journal;
use ca_replay::judging::{Judged, judge};
use ca_replay::world::World;
use ca_term::program::Program;
use ca_value::memory::OutOfMemory;
use ca_value::seq::Text;
use std::alloc::Global;

/// What comes of a report on a journal.
#[derive(Drop)]
pub enum Reported {
    /// The journal is a legal run of the program, and this is the report on it.
    Lines(Text),
    /// The number of the first event that no legal run has there.
    IllegalAt(u64),
}

/// The report on the journal, or else its first event that no legal run of the program has there.
pub fn report(alloc: Global, program: &Program, journal: &Journal) -> Result<Reported, OutOfMemory>
    requires { length (events journal.now) < 2 ^ 32 }
    ensures { IfOk result (IsReport (program_view program.now) (events journal.now)) }
{
    let mut tally = Tally::new(alloc);
    match judge(alloc, program, journal, &mut tally)? {
        Judged::Legal(world, _) => Ok(Reported::Lines(text_of(alloc, &tally, &world)?)),
        Judged::IllegalAt(number) => Ok(Reported::IllegalAt(number)),
    }
}

// The report, by what was counted and the world behind all events.
fn text_of(alloc: Global, tally: &Tally, world: &World<'_>) -> Result<Text, OutOfMemory>
    ensures { IfOk result (λ t. list t ≡ tally_text (world_state world.now) tally.now) }
{
    let mut text = Text::new(alloc);
    append_events(tally, &mut text)?;
    append_channels(tally, world, &mut text)?;
    append_waits(world, &mut text)?;
    Ok(text)
}

// A line for each channel, in order of number.
fn append_channels(tally: &Tally, world: &World<'_>, into: &mut Text) -> Result<(), OutOfMemory>
    ensures { OnOk result (list into.new ≡ list into.old ++ flat_map (row_line (world_state world.now)) (rows tally.now)) }
{
    for (port, row) in &tally.channels {
        append_row(*port, row, world, into)?;
    }
    Ok(())
}

fn append_row(
    port: u64,
    row: &Record,
    world: &World<'_>,
    into: &mut Text,
) -> Result<(), OutOfMemory>
    ensures { OnOk result (list into.new ≡ list into.old ++ row_line (world_state world.now) (port, row_view row.now)) }
{
    match world.channel(port) {
        Some(channel) => append_channel(port, row, channel.held, channel.closed, into),
        None => Ok(()),
    }
}

// A line for each wait that is there, in order of arrival.
fn append_waits(world: &World<'_>, into: &mut Text) -> Result<(), OutOfMemory>
    ensures { OnOk result (list into.new ≡ list into.old ++ flat_map wait_line (world_state world.now).waits) }
{
    let mut place = 0;
    while let Some((behind, wait)) = world.next_wait(place) {
        append_wait(wait.number, wait.owner, wait.branches, into)?;
        place = behind;
    }
    Ok(())
}
