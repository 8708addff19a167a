// A worker that holds all parts of a run, and leaves it where nothing can go on.
ghost use Rattle.std.specs.Prelude.{◌≡◌, ℕ, ◌+◌, ◌<◌, ◌≤◌, Option, Some, None, eqb, false, is_some, true};
ghost use Rattle.std.specs.Map.{update};
ghost use Rattle.ca_term.specs.Program.{ProgramView};
ghost use Rattle.ca_states.specs.Code.{CodeView};
ghost use Rattle.ca_states.specs.ValidCode.{valid_code};
ghost use Rattle.ca_turns.specs.Hands.{HoldsNothing, IsHolding, IsWithout};
ghost use Rattle.ca_table.specs.Grips.{SameTurns};
ghost use Rattle.ca_table.specs.Parts.{part_seen};
ghost use Rattle.ca_table.specs.Worked.{Drew};
ghost use Rattle.ca_table.specs.Workers.{IsOne, IsReady, SameWorker, part_count, KeepsLeft};
ghost use Rattle.ca_table.specs.declared.part.Part.{Part};
ghost use Rattle.ca_pool.specs.Surveys.{Drops, Fills, Fulls, IsSpread, IsUndatedAt, IsStillAt, Surveys, is_stuck};
ghost use Rattle.ca_pool.specs.Lone.{Stayed};

use crate::limits::check_turns;
use crate::survey::{Look, first_open, look_over};
use ca_agent::agent::Agent;
use ca_states::valid_code::ValidCode;
use ca_table::drawn::Turned;
use ca_table::noting::draw_event;
use ca_table::pool::Pool;
use ca_table::silent::silent;
use ca_table::worker::Worker;
use ca_timers::clock::Clock;
use ca_turns::{Busy, Table};
use ca_value::value::PortId;
use std::sync::Wait;

/// What a look at all parts came to.
#[derive(Clone, Copy)]
pub(crate) enum Surveyed {
    /// Another worker holds a part, or a task can run.
    Busy,
    /// This channel may settle, or has a stale handler that stands in the way.
    Stirs(PortId),
    /// Nothing can go on before the clock comes to that moment.
    Waits(u64),
    /// Nothing can go on, and the worker has left the run.
    Stuck,
}

// Holds the part once it is free.
fn hold_one<R: Wait, A: Agent, C: Clock + Drop>(
    rt: &R,
    table: &Table<Pool<A, C>>,
    worker: &mut Worker<A, C>,
    at: u64,
)
    requires one { (program : ProgramView) × (code : CodeView) × (n : ℕ) × IsOne A.over A.stands program code table.now.id n worker.old × (at < part_count n) }
    requires nothing { HoldsNothing worker.old.hand }
    ensures same { SameWorker worker.old worker.new }
    ensures turns { SameTurns worker.old.hand worker.new.hand }
    ensures entries { worker.new.entries ≡ worker.old.entries }
    ensures holds { (program : ProgramView) (code : CodeView) (n : ℕ) → IsOne A.over A.stands program code table.now.id n worker.old → (g : ℕ → Option (Part A C)) × Surveys (part_seen C.least C.faults C.readings) n code worker.new.hand g × ((i : ℕ) → is_some (g i) ≡ eqb at i) }
    ensures left { KeepsLeft worker.old.hand.view worker.new.hand.view }
{
    table.hold(rt, &mut worker.hand, at);
}

// Holds the part if it is free; whether it is.
fn try_one<A: Agent, C: Clock + Drop>(
    table: &Table<Pool<A, C>>,
    worker: &mut Worker<A, C>,
    at: u64,
) -> bool
    requires one { (program : ProgramView) × (code : CodeView) × (n : ℕ) × IsOne A.over A.stands program code table.now.id n worker.old × (at < part_count n) }
    requires free { IsWithout worker.old.hand at }
    ensures same { SameWorker worker.old worker.new }
    ensures turns { SameTurns worker.old.hand worker.new.hand }
    ensures entries { worker.new.entries ≡ worker.old.entries }
    ensures holds { result ≡ true → (program : ProgramView) (code : CodeView) (n : ℕ) → IsOne A.over A.stands program code table.now.id n worker.old → (g : ℕ → Option (Part A C)) → Surveys (part_seen C.least C.faults C.readings) n code worker.old.hand g → (x : Part A C) × Surveys (part_seen C.least C.faults C.readings) n code worker.new.hand (update eqb g at (Some x)) }
    ensures missed { result ≡ false → (n : ℕ) (code : CodeView) (g : ℕ → Option (Part A C)) → Surveys (part_seen C.least C.faults C.readings) n code worker.old.hand g → Surveys (part_seen C.least C.faults C.readings) n code worker.new.hand g }
    ensures left { KeepsLeft worker.old.hand.view worker.new.hand.view }
{
    match table.try_hold(&mut worker.hand, at) {
        Ok(()) => true,
        Err(Busy) => false,
    }
}

// Holds the parts from the first on, as long as they are free; how far it came.
fn hold_range<A: Agent, C: Clock + Drop>(
    table: &Table<Pool<A, C>>,
    worker: &mut Worker<A, C>,
    first: u64,
    end: u64,
) -> u64
    requires order { first ≤ end }
    requires surveys { (program : ProgramView) × (code : CodeView) × (n : ℕ) × IsOne A.over A.stands program code table.now.id n worker.old × (end ≤ part_count n) × (g : ℕ → Option (Part A C)) × Surveys (part_seen C.least C.faults C.readings) n code worker.old.hand g × ((i : ℕ) → first ≤ i → i < end → g i ≡ None) }
    ensures same { SameWorker worker.old worker.new }
    ensures turns { SameTurns worker.old.hand worker.new.hand }
    ensures entries { worker.new.entries ≡ worker.old.entries }
    ensures reached { (first ≤ result) × (result ≤ end) }
    ensures holds { (program : ProgramView) (code : CodeView) (n : ℕ) → IsOne A.over A.stands program code table.now.id n worker.old → (g : ℕ → Option (Part A C)) → Surveys (part_seen C.least C.faults C.readings) n code worker.old.hand g → (g2 : ℕ → Option (Part A C)) × Surveys (part_seen C.least C.faults C.readings) n code worker.new.hand g2 × Fills first result g g2 }
    ensures left { KeepsLeft worker.old.hand.view worker.new.hand.view }
{
    for at in first..end {
        if !try_one(table, worker, at) {
            return at;
        }
    }
    end
}

// Gives back a part that is settled as it is.
fn give_one<A: Agent, C: Clock + Drop>(
    table: &Table<Pool<A, C>>,
    worker: &mut Worker<A, C>,
    at: u64,
)
    requires table { worker.old.hand.table ≡ table.now.id }
    requires settled { (n : ℕ) × (code : CodeView) × (g : ℕ → Option (Part A C)) × Surveys (part_seen C.least C.faults C.readings) n code worker.old.hand g × (is_some (g at) ≡ true) }
    ensures same { SameWorker worker.old worker.new }
    ensures turns { SameTurns worker.old.hand worker.new.hand }
    ensures entries { worker.new.entries ≡ worker.old.entries }
    ensures gives { (n : ℕ) (code : CodeView) (g : ℕ → Option (Part A C)) → Surveys (part_seen C.least C.faults C.readings) n code worker.old.hand g → Surveys (part_seen C.least C.faults C.readings) n code worker.new.hand (update eqb g at None) }
    ensures left { KeepsLeft worker.old.hand.view worker.new.hand.view }
{
    table.give_back(&mut worker.hand, at);
}

// Gives back the parts from the first on, before the end.
fn give_range<A: Agent, C: Clock + Drop>(
    table: &Table<Pool<A, C>>,
    worker: &mut Worker<A, C>,
    first: u64,
    end: u64,
)
    requires table { worker.old.hand.table ≡ table.now.id }
    requires order { first ≤ end }
    requires settled { (n : ℕ) × (code : CodeView) × (g : ℕ → Option (Part A C)) × Surveys (part_seen C.least C.faults C.readings) n code worker.old.hand g × ((i : ℕ) → first ≤ i → i < end → is_some (g i) ≡ true) }
    ensures same { SameWorker worker.old worker.new }
    ensures turns { SameTurns worker.old.hand worker.new.hand }
    ensures entries { worker.new.entries ≡ worker.old.entries }
    ensures gives { (n : ℕ) (code : CodeView) (g : ℕ → Option (Part A C)) → Surveys (part_seen C.least C.faults C.readings) n code worker.old.hand g → (g2 : ℕ → Option (Part A C)) × Surveys (part_seen C.least C.faults C.readings) n code worker.new.hand g2 × Drops first end g g2 }
    ensures left { KeepsLeft worker.old.hand.view worker.new.hand.view }
{
    for at in first..end {
        give_one(table, worker, at);
    }
}

// Holds the parts above the timers, as long as they are free, if it holds all below; how far it came.
fn hold_above<A: Agent, C: Clock + Drop>(
    table: &Table<Pool<A, C>>,
    worker: &mut Worker<A, C>,
    low: u64,
    timers: u64,
    count: u64,
) -> u64
    requires order { low ≤ timers }
    requires parts { (program : ProgramView) × (code : CodeView) × (n : ℕ) × IsOne A.over A.stands program code table.now.id n worker.old × (count ≡ part_count n) × (timers < count) × (g : ℕ → Option (Part A C)) × Surveys (part_seen C.least C.faults C.readings) n code worker.old.hand g × IsSpread low timers (timers + 1) g }
    ensures same { SameWorker worker.old worker.new }
    ensures turns { SameTurns worker.old.hand worker.new.hand }
    ensures entries { worker.new.entries ≡ worker.old.entries }
    ensures reached { (timers < result) × (result ≤ count) }
    ensures holds { (program : ProgramView) (code : CodeView) (n : ℕ) → IsOne A.over A.stands program code table.now.id n worker.old → (g : ℕ → Option (Part A C)) → Surveys (part_seen C.least C.faults C.readings) n code worker.old.hand g → IsSpread low timers (timers + 1) g → (g2 : ℕ → Option (Part A C)) × Surveys (part_seen C.least C.faults C.readings) n code worker.new.hand g2 × IsSpread low timers result g2 }
    ensures left { KeepsLeft worker.old.hand.view worker.new.hand.view }
{
    if low < timers {
        return timers + 1;
    }
    hold_range(table, worker, timers + 1, count)
}

// Gives back the parts below that place, and those from the timers on before the other.
fn give_spread<A: Agent, C: Clock + Drop>(
    table: &Table<Pool<A, C>>,
    worker: &mut Worker<A, C>,
    low: u64,
    timers: u64,
    high: u64,
)
    requires table { worker.old.hand.table ≡ table.now.id }
    requires order { (low ≤ timers) × (timers < high) }
    requires parts { (n : ℕ) × (code : CodeView) × (g : ℕ → Option (Part A C)) × Surveys (part_seen C.least C.faults C.readings) n code worker.old.hand g × IsSpread low timers high g }
    ensures same { SameWorker worker.old worker.new }
    ensures turns { SameTurns worker.old.hand worker.new.hand }
    ensures entries { worker.new.entries ≡ worker.old.entries }
    ensures nothing { HoldsNothing worker.new.hand }
    ensures left { KeepsLeft worker.old.hand.view worker.new.hand.view }
{
    give_range(table, worker, 0, low);
    give_range(table, worker, timers, high);
}

// Holds all parts, or none: the timers once they are free, so that of several idle workers one looks at a time, and the
// others where they are free.
fn hold_all<R: Wait, A: Agent, C: Clock + Drop>(
    rt: &R,
    table: &Table<Pool<A, C>>,
    worker: &mut Worker<A, C>,
) -> bool
    requires ready { (program : ProgramView) × (code : CodeView) × (n : ℕ) × IsReady A.over A.stands program code table.now.id n worker.old }
    ensures same { SameWorker worker.old worker.new }
    ensures turns { SameTurns worker.old.hand worker.new.hand }
    ensures entries { worker.new.entries ≡ worker.old.entries }
    ensures all { result ≡ true → (program : ProgramView) (code : CodeView) (n : ℕ) → IsOne A.over A.stands program code table.now.id n worker.old → (g : ℕ → Option (Part A C)) × Surveys (part_seen C.least C.faults C.readings) n code worker.new.hand g × Fulls (part_count n) g }
    ensures none { result ≡ false → HoldsNothing worker.new.hand }
    ensures left { KeepsLeft worker.old.hand.view worker.new.hand.view }
{
    let timers = worker.workers + 32;
    let count = worker.workers + 33 + worker.workers;
    hold_one(rt, table, worker, timers);
    let low = hold_range(table, worker, 0, timers);
    let high = hold_above(table, worker, low, timers, count);
    if low == timers && high == count {
        return true;
    }
    give_spread(table, worker, low, timers, high);
    false
}

// Draws that the worker leaves the run, in which nothing can go on, and holds all parts as before.
fn draw_stall<R: Wait, A: Agent, C: Clock + Drop>(
    rt: &R,
    table: &Table<Pool<A, C>>,
    code: &ValidCode,
    worker: &mut Worker<A, C>,
)
    requires all { (program : ProgramView) × (n : ℕ) × IsOne A.over A.stands program (valid_code code.now) table.now.id n worker.old × (g : ℕ → Option (Part A C)) × Surveys (part_seen C.least C.faults C.readings) n (valid_code code.now) worker.old.hand g × Fulls (part_count n) g × ((i : ℕ) → i < part_count n → IsStillAt C.least C.faults C.readings worker.old.hand i) × IsUndatedAt C.least C.faults C.readings worker.old.hand (n + 32) }
    ensures same { SameWorker worker.old worker.new }
    ensures drew { Drew 0 true worker.old worker.new }
    ensures holds { (program : ProgramView) (n : ℕ) → IsOne A.over A.stands program (valid_code code.now) table.now.id n worker.old → (g : ℕ → Option (Part A C)) → Surveys (part_seen C.least C.faults C.readings) n (valid_code code.now) worker.old.hand g → Fulls (part_count n) g → IsOne A.over A.stands program (valid_code code.now) table.now.id n worker.new × Surveys (part_seen C.least C.faults C.readings) n (valid_code code.now) worker.new.hand g }
    ensures stayed { Stayed worker.old worker.new }
{
    check_turns(rt, worker);
    let drawn = silent(code, worker, Turned::Stall);
    draw_event(table, worker, drawn);
}

// Looks at all parts, which the worker holds. Where nothing can go on it leaves the run.
fn conclude<R: Wait, A: Agent, C: Clock + Drop>(
    rt: &R,
    table: &Table<Pool<A, C>>,
    code: &ValidCode,
    worker: &mut Worker<A, C>,
) -> Surveyed
    requires all { (program : ProgramView) × (n : ℕ) × IsOne A.over A.stands program (valid_code code.now) table.now.id n worker.old × (g : ℕ → Option (Part A C)) × Surveys (part_seen C.least C.faults C.readings) n (valid_code code.now) worker.old.hand g × Fulls (part_count n) g }
    ensures same { SameWorker worker.old worker.new }
    ensures drew { Drew 0 (is_stuck result) worker.old worker.new }
    ensures holds { (program : ProgramView) (n : ℕ) → IsOne A.over A.stands program (valid_code code.now) table.now.id n worker.old → (g : ℕ → Option (Part A C)) → Surveys (part_seen C.least C.faults C.readings) n (valid_code code.now) worker.old.hand g → Fulls (part_count n) g → IsOne A.over A.stands program (valid_code code.now) table.now.id n worker.new × Surveys (part_seen C.least C.faults C.readings) n (valid_code code.now) worker.new.hand g }
    ensures stayed { Stayed worker.old worker.new }
{
    let timers = worker.workers + 32;
    let count = worker.workers + 33 + worker.workers;
    match look_over(worker, count) {
        Look::Runs => Surveyed::Busy,
        Look::Stirs(port) => Surveyed::Stirs(port),
        Look::Still => match first_open(worker, timers) {
            Some(first) => Surveyed::Waits(first),
            None => {
                draw_stall(rt, table, code, worker);
                Surveyed::Stuck
            }
        },
    }
}

/// Looks at all parts, if they are free, and gives them back. Where nothing can go on the worker leaves the run.
pub(crate) fn survey<R: Wait, A: Agent, C: Clock + Drop>(
    rt: &R,
    table: &Table<Pool<A, C>>,
    code: &ValidCode,
    worker: &mut Worker<A, C>,
) -> Surveyed
    requires ready { (program : ProgramView) × (n : ℕ) × IsReady A.over A.stands program (valid_code code.now) table.now.id n worker.old }
    ensures drew { Drew 0 (is_stuck result) worker.old worker.new }
    ensures ready { (program : ProgramView) (n : ℕ) → IsReady A.over A.stands program (valid_code code.now) table.now.id n worker.old → IsReady A.over A.stands program (valid_code code.now) table.now.id n worker.new }
    ensures stayed { Stayed worker.old worker.new }
{
    if !hold_all(rt, table, worker) {
        return Surveyed::Busy;
    }
    let found = conclude(rt, table, code, worker);
    let count = worker.workers + 33 + worker.workers;
    give_range(table, worker, 0, count);
    found
}
