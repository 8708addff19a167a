// The end of a run: all hands are joined into one, and the table closes.
ghost use Rattle.std.specs.Prelude.{◌≡◌, ℕ, ◌+◌, ◌<◌, ◌++◌, List, [], All, true, false, length, map, IfOk, Option, Some};
ghost use Rattle.std.specs.Vec.{vec_len, vec_capacity};
ghost use Rattle.ca_term.specs.Program.{program_view};
ghost use Rattle.ca_meaning.specs.Cost.{cost};
ghost use Rattle.ca_meaning.specs.EndsLaw.{IsQuiet};
ghost use Rattle.ca_meaning.specs.Legal.{Reaches};
ghost use Rattle.ca_meaning.specs.State.{State};
ghost use Rattle.ca_states.specs.ValidCode.{valid_code};
ghost use Rattle.ca_journal.specs.Events.{events};
ghost use Rattle.ca_journal.specs.Merge.{entries, events_of, joined};
ghost use Rattle.ca_turns.specs.Places.{total};
ghost use Rattle.ca_turns.specs.Views.{hands_stood_for};
ghost use Rattle.ca_commit.specs.Contents.{TimersPart};
ghost use Rattle.ca_commit.specs.Gathered.{parts_of};
ghost use Rattle.ca_commit.specs.Opening.{unasked};
ghost use Rattle.ca_table.specs.Draws.{drawn_moves};
ghost use Rattle.ca_table.specs.Moments.{ClockWent};
ghost use Rattle.ca_table.specs.OneCode.{stands_over};
ghost use Rattle.ca_table.specs.Opening.{opening_list};
ghost use Rattle.ca_table.specs.Parts.{part_seen};
ghost use Rattle.ca_table.specs.Running.{TableStands, contents_at};
ghost use Rattle.ca_table.specs.Workers.{IsJoined, IsOpenedWith, IsReady, stands_for, turns_of};
ghost use Rattle.ca_table.specs.Worked.{HasMainEnd, RanAlone, ShowsAll, any_drew, ends_main, fails_clock, gives_up, obeys_mark, spent, stays_stuck};

use crate::part::Part;
use crate::pool::Pool;
use crate::worker::Worker;
use ca_agent::agent::Agent;
use ca_journal::entries::Entries;
use ca_journal::journal::Journal;
use ca_journal::merge::merge;
use ca_states::valid_code::ValidCode;
use ca_term::program::Program;
use ca_timers::clock::Clock;
use ca_turns::{Hand, Table};
use ca_value::memory::OutOfMemory;
use std::alloc::Global;

/// What a run was: the events that its workers drew and the journal shows, in order, and the parts as they left them.
#[derive(Drop)]
pub struct Gathered<A, C> {
    pub journal: Journal,
    pub parts: Vec<Part<A, C>>,
}

// Joins the hands of the other workers into this one's, and lists what they all noted.
fn join_all<A: Agent, C: Clock + Drop>(
    table: &Table<Pool<A, C>>,
    first: Worker<A, C>,
    mut others: Vec<Worker<A, C>>,
    lists: &mut Vec<Entries>,
    program: &Program,
    code: &ValidCode,
) -> Hand<Pool<A, C>>
    requires room { vec_len lists.old + length others.items < vec_capacity lists.old }
    requires none { lists.old.items ≡ [] }
    requires ready { (n : ℕ) × IsReady A.over A.stands (program_view program.now) (valid_code code.now) table.now.id n first × All (IsReady A.over A.stands (program_view program.now) (valid_code code.now) table.now.id n) others.items }
    ensures joined { (n : ℕ) → IsReady A.over A.stands (program_view program.now) (valid_code code.now) table.now.id n first → All (IsReady A.over A.stands (program_view program.now) (valid_code code.now) table.now.id n) others.items → IsJoined A.over A.stands (program_view program.now) (valid_code code.now) table.now.id n (stands_for first + total stands_for others.items) result lists.new.items }
    ensures opening { result.view.opening ≡ first.hand.view.opening }
    ensures alone { others.items ≡ [] → result ≡ first.hand }
    ensures turns { result.view.turns ≡ first.hand.view.turns ++ turns_of others.items }
    ensures spent { cost (events_of (joined (map entries lists.new.items))) ≡ spent first + total spent others.items }
{
    let Worker {
        number: _,
        workers: _,
        program: _,
        code: _,
        mut hand,
        entries,
        answer: _,
    } = first;
    lists.push_reserved(entries);
    while let Some(other) = others.pop() {
        let Worker {
            number: _,
            workers: _,
            program: _,
            code: _,
            hand: other_hand,
            entries: more,
            answer: _,
        } = other;
        table.join_hands(&mut hand, other_hand);
        lists.push_reserved(more);
    }
    hand
}

/// Closes the table of these workers, who are all that it was opened with and hold nothing. The journal shows just what they
/// drew, each event once, in order of number: it is a run of the program, and the parts stand for the state that it leads to,
/// with each agent over the code. That state is quiet where some worker found that nothing can go on. Where one obeyed
/// a mark and none gave up, the main text has ended. Where the table was opened with one clock, the moments that the
/// journal tells are answers that it gave since, one after another, which never fall; the parts have it as it is then,
/// and where some worker drew that it failed, its count of faults rose. Of an only worker the journal shows its own
/// turns, one after another, and the parts are what these left.
pub fn gather<A: Agent, C: Clock + Drop>(
    alloc: Global,
    table: Table<Pool<A, C>>,
    mut workers: Vec<Worker<A, C>>,
    program: &Program,
    code: &ValidCode,
) -> Result<Gathered<A, C>, OutOfMemory>
    requires ready { All (IsReady A.over A.stands (program_view program.now) (valid_code code.now) table.id (length workers.items)) workers.items }
    requires all { total stands_for workers.items ≡ length workers.items }
    requires some { 0 < length workers.items }
    ensures shown { IfOk result (λ g. ShowsAll workers.items (events g.journal)) }
    ensures run { IfOk result (λ g. (s : State) × Reaches (program_view program.now) (events g.journal) s × TableStands A.place (stands_over A.over (valid_code code.now) A.stands) (program_view program.now) (length workers.items) (map (part_seen C.least C.faults C.readings) g.parts.items) s × (any_drew stays_stuck workers.items ≡ true → IsQuiet s)) }
    ensures main { IfOk result (λ g. any_drew ends_main workers.items ≡ true → HasMainEnd (events g.journal)) }
    ensures marked { IfOk result (λ g. any_drew gives_up workers.items ≡ false → any_drew obeys_mark workers.items ≡ true → HasMainEnd (events g.journal)) }
    ensures spent { IfOk result (λ g. cost (events g.journal) ≡ total spent workers.items) }
    ensures clock { IfOk result (λ g. (main : A) (least faults : ℕ) (readings : Option (List ℕ)) → All (IsOpenedWith (opening_list (length workers.items) (valid_code code.now) program.now main (unasked least faults readings))) workers.items → (t : TimersPart) × ((parts_of (length workers.items) (contents_at (map (part_seen C.least C.faults C.readings) g.parts.items))).timers ≡ Some t) × ClockWent least faults readings (events g.journal) (any_drew fails_clock workers.items) t) }
    ensures alone { IfOk result (λ g. length workers.items ≡ 1 → All (RanAlone (drawn_moves A.over A.place A.advances A.gives A.starts) (events g.journal) (map (part_seen C.least C.faults C.readings) g.parts.items)) workers.items) }
{
    let mut lists = Vec::with_capacity(alloc, workers.len())?;
    let Some(first) = workers.pop() else {
        unreachable!()
    };
    let hand = join_all(&table, first, workers, &mut lists, program, code);
    let journal = merge(alloc, lists)?;
    let closed = table.close(hand);
    Ok(Gathered {
        journal,
        parts: closed.parts,
    })
}
