// A worker draws events, and notes those that the journal shows.
ghost use Rattle.std.specs.Prelude.{◌≡◌, ℕ, ◌+◌, ◌^◌, ◌<◌, ◌≤◌, ◌++◌, List, [], ◌∷◌, Option, OnOk, length, map, true};
ghost use Rattle.ca_term.specs.Program.{ProgramView};
ghost use Rattle.ca_states.specs.Code.{CodeView};
ghost use Rattle.ca_journal.specs.Merge.{entries, room};
ghost use Rattle.ca_turns.specs.Hands.{IsHolding, IsNone};
ghost use Rattle.ca_turns.specs.Views.{new_turn};
ghost use Rattle.ca_commit.specs.Moving.{visible};
ghost use Rattle.ca_table.specs.Draws.{drawn_allows, drawn_moves, drawn_touches, turn_view};
ghost use Rattle.ca_table.specs.Grips.{Grips, HasAll, SameHand, settle, settled_contents, values};
ghost use Rattle.ca_table.specs.Parts.{part_seen};
ghost use Rattle.ca_table.specs.Seen.{PartSeen};
ghost use Rattle.ca_table.specs.Workers.{IsOne, SameWorker, event_entries};
ghost use Rattle.ca_table.specs.declared.part.Part.{Part};

use crate::drawn::{Drawn, Turned};
use crate::moving::draw;
use crate::pool::Pool;
use crate::worker::Worker;
use ca_agent::agent::Agent;
use ca_journal::entries::Entries;
use ca_timers::clock::Clock;
use ca_turns::Table;
use ca_value::memory::OutOfMemory;

const MOST_TURNS: u64 = 576_460_752_303_423_488;

/// Makes room for one more entry, and changes nothing else.
pub fn make_room<A: Agent, C: Clock + Drop>(worker: &mut Worker<A, C>) -> Result<(), OutOfMemory>
    ensures room { OnOk result (0 < room worker.new.entries) }
    ensures kept { room worker.old.entries ≤ room worker.new.entries }
    ensures entries { entries worker.new.entries ≡ entries worker.old.entries }
    ensures hand { worker.new.hand ≡ worker.old.hand }
    ensures same { SameWorker worker.old worker.new }
{
    worker.entries.reserve()
}

/// Whether the worker's list of events has a place for one more.
pub fn can_draw<A: Agent, C: Clock + Drop>(worker: &Worker<A, C>) -> bool
    ensures { result ≡ true → length worker.now.hand.view.turns < 2 ^ 59 }
{
    worker.hand.drawn() < MOST_TURNS
}

// The entry of an event that the journal shows; none of another.
fn note(into: &mut Entries, number: u64, what: Turned)
    requires { length (visible (turn_view what)) ≤ room into.old }
    ensures noted { entries into.new ≡ entries into.old ++ event_entries number what }
    ensures room { room into.old ≤ room into.new + length (visible (turn_view what)) }
{
    if let Turned::Shown(event) = what {
        into.push(number, event);
    }
}

/// Draws the event, whose parts the worker holds as the event leaves them, and notes it where the journal shows it.
pub fn draw_event<A: Agent, C: Clock + Drop>(
    table: &Table<Pool<A, C>>,
    worker: &mut Worker<A, C>,
    drawn: Drawn,
)
    requires one { (program : ProgramView) × (code : CodeView) × (n : ℕ) × IsOne A.over A.stands program code table.now.id n worker.old }
    requires room { length (visible (turn_view drawn.what)) ≤ room worker.old.entries }
    requires turns { length worker.old.hand.view.turns < 2 ^ 59 }
    requires allows { (i : ℕ) → IsHolding worker.old.hand i → IsNone (drawn_touches drawn) i → drawn_allows drawn i }
    requires moved { (g : ℕ → Option (Part A C × PartSeen A)) × Grips worker.old.hand g × HasAll g (drawn_touches drawn) × drawn_moves A.over A.place A.advances A.gives A.starts drawn (settled_contents g (drawn_touches drawn)) (map (part_seen C.least C.faults C.readings) (values g (drawn_touches drawn))) }
    ensures one { (program : ProgramView) (code : CodeView) (n : ℕ) → IsOne A.over A.stands program code table.now.id n worker.old → IsOne A.over A.stands program code table.now.id n worker.new }
    ensures grips { (g : ℕ → Option (Part A C × PartSeen A)) → Grips worker.old.hand g → Grips worker.new.hand (settle (part_seen C.least C.faults C.readings) (drawn_touches drawn) g) }
    ensures hand { SameHand worker.old.hand worker.new.hand }
    ensures drew { (k : ℕ) × (before : List (PartSeen A)) × (after : List (PartSeen A)) × (worker.new.hand.view.turns ≡ worker.old.hand.view.turns ++ new_turn k drawn before after ∷ []) }
    ensures same { SameWorker worker.old worker.new }
    ensures room { room worker.old.entries ≤ room worker.new.entries + length (visible (turn_view drawn.what)) }
{
    let number = draw::<Pool<A, C>>(table, &mut worker.hand, &drawn);
    note(&mut worker.entries, number, drawn.what);
}
