//! The verdict on a journal.
ghost use Rattle.std.specs.Prelude.{◌<◌, ◌^◌, List, length, IfOk};
ghost use Rattle.ca_term.specs.Event.{EventView};
ghost use Rattle.ca_term.specs.Program.{ProgramView, program_view};
ghost use Rattle.ca_journal.specs.Events.{events};
ghost use Rattle.ca_replay.specs.Judged.{IsRun};
ghost use Rattle.ca_replay.specs.Verdict.{IsVerdict, VerdictStands};

use crate::judging::{Judged, judge};
use crate::main_end::MainEnd;
use crate::observer::Nobody;
use crate::world::World;
use ca_journal::journal::Journal;
use ca_term::program::Program;
use ca_value::memory::OutOfMemory;
use std::alloc::Global;

/// How a legal journal stands.
#[derive(Clone, Copy, PartialEq, Eq, Debug)]
pub enum Standing {
    /// The main text has a value.
    Ended,
    /// The main text faulted.
    Faulted,
    /// No event is possible any more.
    Stuck,
    /// An event is possible.
    StillOpen,
}

/// What a journal comes to.
#[derive(Clone, Copy, PartialEq, Eq, Debug)]
pub enum Replayed {
    /// It is a legal run of the program.
    Legal(Standing),
    /// The number of the first event that no legal run has there.
    IllegalAt(u64),
}

/// Whether the journal is a legal run of the program, and how it stands, or else its first event that no legal run has there.
pub fn replay(alloc: Global, program: &Program, journal: &Journal) -> Result<Replayed, OutOfMemory>
    requires { length (events journal.now) < 2 ^ 64 }
    ensures { IfOk result (IsVerdict (program_view program.now) (events journal.now)) }
{
    let mut nobody = Nobody;
    match judge(alloc, program, journal, &mut nobody)? {
        Judged::Legal(world, end) => Ok(Replayed::Legal(stands_as(&world, end))),
        Judged::IllegalAt(number) => Ok(Replayed::IllegalAt(number)),
    }
}

// How a legal journal stands, by the world behind it.
fn stands_as(world: &World<'_>, end: Option<MainEnd>) -> Standing
    requires { (program : ProgramView) × (journal : List EventView) × IsRun program journal world.now end }
    ensures { (program : ProgramView) (journal : List EventView) → IsRun program journal world.now end → VerdictStands program journal result }
{
    match end {
        Some(how) => match how {
            MainEnd::Ended => Standing::Ended,
            MainEnd::Faulted => Standing::Faulted,
        },
        None => {
            if world.possible() {
                Standing::StillOpen
            } else {
                Standing::Stuck
            }
        }
    }
}
