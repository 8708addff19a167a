// How a whole run ends.
ghost use Rattle.std.specs.Prelude.{◌≡◌, ◌<◌, ℕ, List, None, Option, option_map};
ghost use Rattle.ca_term.specs.Program.{ProgramView};
ghost use Rattle.ca_meaning.specs.Ends.{HasEnd, IsWithin};
ghost use Rattle.ca_meaning.specs.EndsLaw.{IsQuiet};
ghost use Rattle.ca_meaning.specs.Legal.{EndsLast, Legal, Reaches};
ghost use Rattle.ca_meaning.specs.State.{State};
ghost use Rattle.ca_journal.specs.Cut.{AllFit, end_in, kept};
ghost use Rattle.ca_journal.specs.Events.{events};
ghost use Rattle.ca_table.specs.Moments.{KeepsTime};
ghost use Rattle.ca_pool.specs.PoolEnds.{end_view, ended_by};

use ca_journal::cut::{CutAt, cut};
use ca_journal::journal::Journal;
use ca_value::memory;

/// How a run came to its end.
#[derive(Clone, Copy)]
pub enum PoolEnd {
    /// The main text has a value.
    Ended,
    /// The main text faulted.
    Faulted,
    /// Nothing can go on.
    Stuck,
    /// The budget is used up.
    Limit,
}

/// What a run was, up to its end, and the clock as the run left it.
#[derive(Drop)]
pub struct PoolRun<C> {
    pub journal: Journal,
    pub end: PoolEnd,
    pub clock: C,
}

/// Why a run was given up.
#[derive(Drop)]
pub enum RunStop<C> {
    /// The clock failed; here it is.
    ClockFailed(C),
    /// There is not the memory.
    OutOfMemory,
}

impl<C> From<memory::OutOfMemory> for RunStop<C> {
    ghost use Rattle.ca_pool.specs.declared.run_end.RunStop.TheVariants.{OutOfMemory};

    ghost from_gives = { λ _ e. e ≡ OutOfMemory };

    fn from(_refused: memory::OutOfMemory) -> RunStop<C> {
        RunStop::OutOfMemory
    }
}

fn end_at(at: Option<CutAt>) -> PoolEnd
    ensures { end_view result ≡ ended_by at }
{
    match at {
        Some(CutAt::MainOver) => PoolEnd::Ended,
        Some(CutAt::Faulted) => PoolEnd::Faulted,
        Some(CutAt::Limit) => PoolEnd::Limit,
        None => PoolEnd::Stuck,
    }
}

fn cut_run(journal: Journal, budget: u64) -> (Journal, PoolEnd)
    requires { AllFit (events journal) }
    ensures journal { events result.0 ≡ kept (end_in budget (events journal)) (events journal) }
    ensures end { end_view result.1 ≡ ended_by (option_map (λ c. c.1) (end_in budget (events journal))) }
{
    let (journal, at) = cut(journal, budget);
    let end = end_at(at);
    (journal, end)
}

/// The journal of a run up to its end for the budget, where nothing can go on if it has none. Its moments are answers of
/// the clock as they were before. It stays whole where no event but the last uses the budget up or ends the main text.
pub(crate) fn end_run(journal: Journal, budget: u64) -> (Journal, PoolEnd)
    requires fit { AllFit (events journal) }
    requires budget { 0 < budget }
    ensures ends { (program : ProgramView) (s : State) → Reaches program (events journal) s → (end_in budget (events journal) ≡ None → IsQuiet s) → Legal program (events result.0) × HasEnd program budget (events result.0) (end_view result.1) }
    ensures moments { (least : ℕ) (before after : Option (List ℕ)) → KeepsTime (events journal) least before after → KeepsTime (events result.0) least before after }
    ensures whole { IsWithin budget (events journal) → EndsLast (events journal) → events result.0 ≡ events journal }
{
    cut_run(journal, budget)
}
