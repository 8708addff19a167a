ghost use Rattle.std.specs.Prelude.{◌≡◌, ◌<◌, ◌≤◌, ℕ, IfSome, List, length, take, option_map, Some, None};
ghost use Rattle.ca_term.specs.Program.{ProgramView};
ghost use Rattle.ca_term.specs.Event.{EventView, event_view};
ghost use Rattle.ca_meaning.specs.Ends.{HasEnd};
ghost use Rattle.ca_journal.specs.Coming.{coming};
ghost use Rattle.ca_journal.specs.Events.{events};
ghost use Rattle.ca_journal.specs.Cut.{AllFit, End, main_end, end_in, end_of, kept};
ghost use Rattle.ca_journal.specs.Found.{found_view};
ghost use Rattle.ca_journal.specs.Note.{note_view};
ghost use Rattle.ca_journal.specs.declared.cut.CutAt.{CutAt};

use crate::fits::cost_noted;
use crate::journal::Journal;
use crate::main_end::main_end_of;
use crate::tally::{latest_of, tally_of};
use crate::walk::Walk;

/// The end behind which a journal is cut.
#[derive(Clone, Copy)]
pub enum CutAt {
    /// The main text has a value.
    MainOver,
    /// The main text faulted.
    Faulted,
    /// The budget is used up.
    Limit,
}

// How many events there are up to an end, and which it is.
#[derive(Clone, Copy)]
struct Found {
    count: u64,
    at: CutAt,
}

/// The shortest beginning of the journal that has an end for the budget, and that end; or the whole journal
/// where no beginning of it has one. It is read off the events and their costs alone, and takes no memory. A journal that
/// costs less than the budget, where the main text is over with the last event or nowhere, isn't walked.
pub fn cut(journal: Journal, budget: u64) -> (Journal, Option<CutAt>)
    requires { AllFit (events journal) }
    ensures kept { events result.0 ≡ kept (end_in budget (events journal)) (events journal) }
    ensures end { result.1 ≡ option_map (λ c. c.1) (end_in budget (events journal)) }
{
    if let Some(end) = quick_end(&journal, budget) {
        return (journal, end);
    }
    let Journal {
        lists,
        fronts,
        kept,
    } = journal;
    let mut walk = Walk::over(lists.as_slice(), fronts, kept);
    let found = end_within(&mut walk, budget);
    let Walk {
        lists: _,
        fronts,
        left: _,
    } = walk;
    let journal = Journal {
        lists,
        fronts,
        kept,
    };
    match found {
        Some(found) => (journal.upto(found.count), Some(found.at)),
        None => (journal, None),
    }
}

// The end of a journal that costs less than the budget, where the main text is over with the last event or nowhere.
#[tactic(auto, using(crate::proofs::Rising::all_rise_ascend))]
fn quick_end(journal: &Journal, budget: u64) -> Option<Option<CutAt>>
    ensures { IfSome result (λ r. end_in budget (events journal.now) ≡ option_map (λ at. (length (events journal.now), at)) r) }
{
    if journal.kept.is_some() {
        return None;
    }
    let (spent, ends) = tally_of(journal.lists.as_slice());
    if budget <= spent {
        return None;
    }
    if ends == 0 {
        return Some(None);
    }
    if ends > 1 {
        return None;
    }
    let last = latest_of(journal.lists.as_slice())?;
    let at = main_end_of(&last.note)?;
    Some(Some(at))
}

// The first end on the walk, whose events each cost at least 1.
fn end_within(walk: &mut Walk<'_>, budget: u64) -> Option<Found>
    requires { AllFit (coming walk.old) }
    ensures end { option_map found_view result ≡ end_in budget (coming walk.old) }
    ensures lists { walk.new.lists ≡ walk.old.lists }
{
    if budget == 0 {
        return None;
    }
    let mut left = budget;
    let mut count = 0;
    while let Some(entry) = walk.next() {
        count += 1;
        if let Some(at) = main_end_of(&entry.note) {
            return Some(Found { count, at });
        }
        let Some(cost) = cost_noted(&entry.note) else {
            unreachable!()
        };
        if left <= cost {
            let at = CutAt::Limit;
            return Some(Found { count, at });
        }
        left -= cost;
    }
    None
}

/// A journal is cut where the first of its beginnings with an end has it, and nowhere where none has one.
pub fn cuts_are_first_ends()
    ensures ends { (program : ProgramView) (budget : ℕ) (journal : List EventView) (c : End) → end_in budget journal ≡ Some c → HasEnd program budget (take c.0 journal) (end_of c.1) }
    ensures within { (budget : ℕ) (journal : List EventView) (c : End) → end_in budget journal ≡ Some c → c.0 ≤ length journal }
    ensures first { (program : ProgramView) (budget : ℕ) (journal : List EventView) (c : End) (n : ℕ) (at : CutAt) → end_in budget journal ≡ Some c → n < c.0 → HasEnd program budget (take n journal) (end_of at) → ⊥ }
    ensures none { (program : ProgramView) (budget : ℕ) (journal : List EventView) (n : ℕ) (at : CutAt) → end_in budget journal ≡ None → HasEnd program budget (take n journal) (end_of at) → ⊥ }
{}
