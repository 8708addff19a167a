ghost use Rattle.std.specs.Prelude.{◌≡◌, ℕ, List, []};
ghost use Rattle.ca_term.specs.Program.{ProgramView};
ghost use Rattle.ca_term.specs.Event.{EventView};
ghost use Rattle.ca_meaning.specs.Legal.{Legal};
ghost use Rattle.ca_meaning.specs.Ends.{HasEnd, RunEnd};
ghost use Rattle.ca_meaning.specs.Solo.{Solo, NoTimeouts};

/// Two journals of one worker over the same answers of the clock, which have an end for the same budget,
/// are equal: the program, the budget and these answers decide the run.
pub fn one_worker_has_one_journal()
    ensures { (program : ProgramView) (readings : List ℕ) (journal other : List EventView) (budget : ℕ) (a b : RunEnd) → Legal program journal → Legal program other → Solo program readings journal → Solo program readings other → HasEnd program budget journal a → HasEnd program budget other b → journal ≡ other }
{}

/// A run of one worker that makes no timeout asks the clock for nothing.
pub fn no_timeout_asks_no_clock()
    ensures { (program : ProgramView) (readings : List ℕ) (journal : List EventView) → Solo program readings journal → NoTimeouts journal → readings ≡ [] }
{}
