ghost use Rattle.std.specs.Prelude.{◌≡◌, ℕ, List, ◌∷◌, ◌++◌};
ghost use Rattle.ca_value.specs.Tree.{Tree};
ghost use Rattle.ca_term.specs.Program.{ProgramView};
ghost use Rattle.ca_term.specs.Event.{EventView};
ghost use Rattle.ca_meaning.specs.State.{State};
ghost use Rattle.ca_meaning.specs.Legal.{Reaches};
ghost use Rattle.ca_meaning.specs.MixTable.{MixPorts};
ghost use Rattle.ca_laws.specs.Deeds.{Deed, did_take, did_put, deeds};
ghost use Rattle.ca_laws.specs.Rules.{KeepsTo};
ghost use Rattle.ca_laws.specs.MixLaw.{MixRule, TakesRead, PutsHeard, MixLaw};

/// The mix law. Each alts of a mix takes from exactly the channels that its last reading of its modes tells to
/// read, and from its change channel. Each value that it puts goes into its output, is the answer of its last alts,
/// put once, and came from a channel that this reading tells to hear. So each take and each put that the journal
/// tells of a mix is such a one.
pub fn mixes_pass_on_what_is_heard()
    ensures keeps { (program : ProgramView) (journal : List EventView) (s : State) → Reaches program journal s → MixLaw program journal s }
    ensures takes { (x : MixPorts) (t : ℕ) (journal : List EventView) (s : State) → KeepsTo (MixRule x) t journal s → (before after : List Deed) (k p : ℕ) (a : Tree) → deeds t journal ≡ before ++ did_take k p a ∷ after → TakesRead x before k p }
    ensures puts { (x : MixPorts) (t : ℕ) (journal : List EventView) (s : State) → KeepsTo (MixRule x) t journal s → (before after : List Deed) (k p : ℕ) (v a : Tree) → deeds t journal ≡ before ++ did_put k p v a ∷ after → PutsHeard x before p v }
{}
