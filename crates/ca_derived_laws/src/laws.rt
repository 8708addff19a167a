ghost use Rattle.std.specs.Prelude.{List};
ghost use Rattle.ca_term.specs.Program.{ProgramView};
ghost use Rattle.ca_term.specs.Event.{EventView};
ghost use Rattle.ca_meaning.specs.State.{State};
ghost use Rattle.ca_meaning.specs.Legal.{Reaches};
ghost use Rattle.ca_derived_laws.specs.TakeLaw.{TakeLaw};
ghost use Rattle.ca_derived_laws.specs.ReduceLaw.{ReduceLaw};
ghost use Rattle.ca_derived_laws.specs.SplitLaw.{SplitLaw};

/// A take puts the values that it took into its channel, in their order, and takes at most as many as it was told.
/// Where it ends, it has closed that channel, and took so many or found its source at its end.
pub fn takes_pass_on_the_first()
    ensures { (program : ProgramView) (journal : List EventView) (s : State) → Reaches program journal s → TakeLaw program journal }
{}

/// A reduce that ends found its source at its end, and posted its function folded over all that it took, or nothing
/// where that is nil.
pub fn reduces_post_the_fold()
    ensures { (program : ProgramView) (journal : List EventView) (s : State) → Reaches program journal s → ReduceLaw program journal }
{}

/// A split puts the values that it took into its two channels, in their order, each into the first where its test is
/// true and into the second where it isn't.
pub fn splits_pass_on_by_their_test()
    ensures { (program : ProgramView) (journal : List EventView) (s : State) → Reaches program journal s → SplitLaw program journal }
{}
