// Parts that a worker holds and moves out of its hand, as what they are.
ghost use mathlib.Core.Option.{some};
ghost use lib.ListN.{get_elem?};
ghost use Rattle.std.specs.Prelude.{◌≡◌, ℕ, ◌<◌, IfNone, IfSome, Option, Some, eqb};
ghost use Rattle.std.specs.Map.{update};
ghost use Rattle.ca_term.specs.Program.{program_view};
ghost use Rattle.ca_states.specs.ValidCode.{valid_code};
ghost use Rattle.ca_turns.specs.Hands.{IsHolding, IsWithout};
ghost use Rattle.ca_turns.specs.Steps.{SeesOne};
ghost use Rattle.ca_turns.specs.Views.{hands_stood_for};
ghost use Rattle.ca_commit.specs.Gathered.{kind_at, kind_of_part};
ghost use Rattle.ca_table.specs.Draws.{drawn_moves, drawn_touches};
ghost use Rattle.ca_table.specs.Grips.{Grips, SameTurns};
ghost use Rattle.ca_table.specs.Parts.{part_away, contents_seen, part_of, part_seen};
ghost use Rattle.ca_table.specs.Running.{Knows};
ghost use Rattle.ca_table.specs.Seen.{PartSeen, held_of};
ghost use Rattle.ca_table.specs.Sound.{IsSound};
ghost use Rattle.ca_table.specs.Workers.{KeepsLeft, part_count};
ghost use Rattle.ca_table.specs.declared.part.Part.{Part};

use crate::moving::{hold, take_part, try_hold};
use crate::part::{Contents, Part};
use crate::pool::Pool;
use ca_agent::agent::Agent;
use ca_states::valid_code::ValidCode;
use ca_term::program::Program;
use ca_timers::clock::Clock;
use ca_turns::{Hand, Table};
use std::snapshot::Snapshot;
use std::sync::Wait;

/// A part of a run of so many workers over that code.
pub fn part_with<A: Agent, C: Clock + Drop>(
    code: &ValidCode,
    workers: u64,
    contents: Contents<A, C>,
) -> Part<A, C>
    ensures { result ≡ part_of workers code.now contents }
{
    Part {
        workers,
        code: Snapshot::of(code),
        contents,
    }
}

// Moves what a part that is held is out of the hand.
fn move_out<A: Agent, C: Clock + Drop>(
    hand: &mut Hand<Pool<A, C>>,
    program: &Snapshot<Program>,
    code: &ValidCode,
    workers: u64,
    at: u64,
) -> Contents<A, C>
    requires knows { Knows A.over A.stands (program_view program.now.value) (valid_code code.now) workers hand.old.view }
    requires held { (x : Part A C) × (get_elem? hand.old.parts at ≡ some (Some x)) × (get_elem? hand.old.view.held at ≡ some (Some (part_seen C.least C.faults C.readings x))) }
    requires history { SeesOne drawn_touches (drawn_moves A.over A.place A.advances A.gives A.starts) hand.old.view }
    ensures same { SameTurns hand.old hand.new }
    ensures view { hand.new.view ≡ hand.old.view }
    ensures kind { kind_of_part (held_of (contents_seen C.least C.faults C.readings result)) ≡ kind_at workers at }
    ensures sound { IsSound A.over A.place (valid_code code.now) workers at (held_of (contents_seen C.least C.faults C.readings result)) }
    ensures grips { (g : ℕ → Option (Part A C × PartSeen A)) (x : Part A C) → Grips hand.old (update eqb g at (Some (x, part_seen C.least C.faults C.readings x))) → Grips hand.new (update eqb g at (Some (part_away workers code.now, part_seen C.least C.faults C.readings (part_of workers code.now result)))) }
{
    let away = part_with(code, workers, Contents::Away);
    let part = take_part::<Pool<A, C>>(hand, at, away);
    part.contents
}

/// Holds a part once it is free, and moves what it is out of the hand.
#[inline(always)]
pub fn hold_out<R: Wait, A: Agent, C: Clock + Drop>(
    rt: &R,
    table: &Table<Pool<A, C>>,
    hand: &mut Hand<Pool<A, C>>,
    program: &Snapshot<Program>,
    code: &ValidCode,
    workers: u64,
    at: u64,
) -> Contents<A, C>
    requires table { hand.old.table ≡ table.now.id }
    requires slots { table.now.id.slots ≡ part_count workers }
    requires range { at < part_count workers }
    requires knows { Knows A.over A.stands (program_view program.now.value) (valid_code code.now) workers hand.old.view }
    requires ascending { (i : ℕ) → IsHolding hand.old i → i < at }
    ensures same { SameTurns hand.old hand.new }
    ensures kind { kind_of_part (held_of (contents_seen C.least C.faults C.readings result)) ≡ kind_at workers at }
    ensures sound { IsSound A.over A.place (valid_code code.now) workers at (held_of (contents_seen C.least C.faults C.readings result)) }
    ensures grips { (g : ℕ → Option (Part A C × PartSeen A)) → Grips hand.old g → Grips hand.new (update eqb g at (Some (part_away workers code.now, part_seen C.least C.faults C.readings (part_of workers code.now result)))) }
    ensures history { SeesOne drawn_touches (drawn_moves A.over A.place A.advances A.gives A.starts) hand.new.view }
    ensures left { KeepsLeft hand.old.view hand.new.view }
{
    hold(rt, table, hand, at);
    move_out(hand, program, code, workers, at)
}

/// Tries once to hold a part, and moves what it is out of the hand. None where another worker held it at that moment.
pub fn try_out<A: Agent, C: Clock + Drop>(
    table: &Table<Pool<A, C>>,
    hand: &mut Hand<Pool<A, C>>,
    program: &Snapshot<Program>,
    code: &ValidCode,
    workers: u64,
    at: u64,
) -> Option<Contents<A, C>>
    requires table { hand.old.table ≡ table.now.id }
    requires slots { table.now.id.slots ≡ part_count workers }
    requires range { at < part_count workers }
    requires knows { Knows A.over A.stands (program_view program.now.value) (valid_code code.now) workers hand.old.view }
    requires free { IsWithout hand.old at }
    ensures same { SameTurns hand.old hand.new }
    ensures kind { IfSome result (λ x. kind_of_part (held_of (contents_seen C.least C.faults C.readings x)) ≡ kind_at workers at) }
    ensures sound { IfSome result (λ x. IsSound A.over A.place (valid_code code.now) workers at (held_of (contents_seen C.least C.faults C.readings x))) }
    ensures grips { IfSome result (λ x. (g : ℕ → Option (Part A C × PartSeen A)) → Grips hand.old g → Grips hand.new (update eqb g at (Some (part_away workers code.now, part_seen C.least C.faults C.readings (part_of workers code.now x))))) }
    ensures kept { IfNone result ((g : ℕ → Option (Part A C × PartSeen A)) → Grips hand.old g → Grips hand.new g) }
    ensures left { KeepsLeft hand.old.view hand.new.view }
    ensures lone { IfNone result (hands_stood_for hand.old.view < hand.old.view.hands) }
{
    if try_hold(table, hand, at) {
        Some(move_out(hand, program, code, workers, at))
    } else {
        None
    }
}
