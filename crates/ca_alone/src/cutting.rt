// A journal that is cut for a budget.
ghost use Rattle.std.specs.Prelude.{◌≡◌, ℕ, List};
ghost use Rattle.ca_term.specs.Event.{EventView};
ghost use Rattle.ca_meaning.specs.Ends.{IsWithin};
ghost use Rattle.ca_meaning.specs.Legal.{EndsLast};
ghost use Rattle.ca_journal.specs.Cut.{end_in, kept};

/// Where the last event alone may use the budget up, or end the main text, the journal is kept whole.
pub fn ended_journals_are_kept_whole()
    ensures { (budget : ℕ) (journal : List EventView) → IsWithin budget journal → EndsLast journal → kept (end_in budget journal) journal ≡ journal }
{}
