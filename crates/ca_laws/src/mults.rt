ghost use Rattle.std.specs.Prelude.{List};
ghost use Rattle.ca_term.specs.Program.{ProgramView};
ghost use Rattle.ca_term.specs.Event.{EventView};
ghost use Rattle.ca_meaning.specs.State.{State};
ghost use Rattle.ca_meaning.specs.Legal.{Reaches};
ghost use Rattle.ca_laws.specs.MultRules.{MultsKeepTo, DeliveriesKeepTo, StartedKeepTo};

/// A mult that took a value reads its taps next. It starts a delivery of that value to each tap read, in their
/// order, and takes the next value only when it took as many answers. What it starts keeps to the rule of a delivery,
/// for that value and that tap.
pub fn mults_deliver_to_each_tap()
    ensures keeps { (program : ProgramView) (journal : List EventView) (s : State) → Reaches program journal s → MultsKeepTo program journal s }
    ensures started { (program : ProgramView) (journal : List EventView) (s : State) → Reaches program journal s → StartedKeepTo program journal s }
{}

/// A delivery puts its value into its tap, once, and answers only after that put was answered, once.
pub fn deliveries_answer_after_their_put()
    ensures { (program : ProgramView) (journal : List EventView) (s : State) → Reaches program journal s → DeliveriesKeepTo program journal s }
{}
