//! A journal followed, event by event.
ghost use Rattle.std.specs.Prelude.{◌≡◌, ◌<◌, ◌^◌, length, true, false, IfOk};
ghost use Rattle.ca_term.specs.Program.{IsProgram, ProgramView};
ghost use Rattle.ca_meaning.specs.State.{State};
ghost use Rattle.ca_states.specs.ValidCode.{valid_code};
ghost use Rattle.ca_lower.specs.Gos.{SameGos};
ghost use Rattle.ca_lower.specs.Lowered.{Lowered};
ghost use Rattle.ca_journal.specs.Events.{events};
ghost use Rattle.ca_journal.specs.Note.{note_view};
ghost use Rattle.ca_follow.specs.Followed.{IsFollowed};
ghost use Rattle.ca_follow.specs.Follower.{IsFollower, IsMadeFor, Leads, Refuses, FollowerStands, has};

use crate::follower::Follower;
use ca_journal::journal::Journal;
use ca_journal::note::Note;
use ca_journal::output::output;
use ca_journal::shown::Shown;
use ca_journal::walk::Walk;
use ca_replay::main_end::main_end;
use ca_states::valid_code::ValidCode;
use ca_value::memory::OutOfMemory;
use ca_value::seq::Text;
use std::alloc::Global;

/// What following a journal comes to.
#[derive(Drop)]
pub enum Followed {
    /// It is a legal run, which writes this.
    Written(Text),
    /// The number of the first event that no legal run has there.
    IllegalAt(u64),
}

/// Runs the code's tasks along the journal: what that run writes, or the number of the first event that no legal run has
/// there.
pub fn follow(alloc: Global, code: &ValidCode, journal: &Journal) -> Result<Followed, OutOfMemory>
    requires made { (program : ProgramView) × IsProgram program × Lowered program (valid_code code.now) × SameGos program (valid_code code.now) }
    requires fits { length (events journal.now) < 2 ^ 64 }
    ensures { (program : ProgramView) → IsProgram program → Lowered program (valid_code code.now) → SameGos program (valid_code code.now) → IfOk result (IsFollowed program (events journal.now)) }
{
    let mut follower = Follower::opening(alloc, code)?;
    let mut walk = Walk::of(alloc, journal)?;
    let mut end = None;
    let mut number = 0;
    while let Some(entry) = walk.next() {
        if end.is_some() {
            return Ok(Followed::IllegalAt(number));
        }
        if !goes_on(alloc, &entry.note, &mut follower)? {
            return Ok(Followed::IllegalAt(number));
        }
        end = main_end(&entry.note);
        number += 1;
    }
    let text = output(alloc, journal)?;
    Ok(Followed::Written(text))
}

// Makes the note's event, where the meaning allows it.
fn goes_on(alloc: Global, note: &Note, follower: &mut Follower<'_>) -> Result<bool, OutOfMemory>
    requires follower { IsFollower follower.old }
    requires stands { (program : ProgramView) × (s : State) × IsMadeFor program (valid_code follower.old.code.now) × FollowerStands program (has follower.old) s }
    ensures leads { IfOk result (λ b. b ≡ true → Leads (valid_code follower.old.code.now) (note_view note.now) (has follower.old) (has follower.new)) }
    ensures refused { IfOk result (λ b. b ≡ false → Refuses (valid_code follower.old.code.now) (note_view note.now) (has follower.old)) }
    ensures follower { IfOk result (λ b. b ≡ true → IsFollower follower.new) }
    ensures code { follower.new.code.now ≡ follower.old.code.now }
{
    let shown = Shown::of(alloc, note)?;
    let is_legal = follower.step(alloc, shown.event());
    let_go(shown);
    is_legal
}

// Where it is let go in place, a proof meets each kind of event beside each value.
fn let_go(_shown: Shown<'_>) {}
