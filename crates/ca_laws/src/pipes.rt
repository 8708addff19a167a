ghost use Rattle.std.specs.Prelude.{List};
ghost use Rattle.ca_term.specs.Program.{ProgramView};
ghost use Rattle.ca_term.specs.Event.{EventView};
ghost use Rattle.ca_meaning.specs.State.{State};
ghost use Rattle.ca_meaning.specs.Legal.{Reaches};
ghost use Rattle.ca_laws.specs.PipeRules.{PipesKeepTo, OntosKeepTo};
ghost use Rattle.ca_laws.specs.MergeRules.{MergesKeepTo};

/// A pipe puts into its target what it took from its source, value by value in order.
pub fn pipes_pass_on_in_order()
    ensures { (program : ProgramView) (journal : List EventView) (s : State) → Reaches program journal s → PipesKeepTo program journal s }
{}

/// A collection that goes onto a channel goes there item by item in order.
pub fn collections_go_on_in_order()
    ensures { (program : ProgramView) (journal : List EventView) (s : State) → Reaches program journal s → OntosKeepTo program journal s }
{}

/// A merge chooses among the inputs that it didn't find closed, and puts the answer into its output, once, before it
/// chooses again.
pub fn merges_put_what_they_chose()
    ensures { (program : ProgramView) (journal : List EventView) (s : State) → Reaches program journal s → MergesKeepTo program journal s }
{}
