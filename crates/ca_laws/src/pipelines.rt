ghost use Rattle.std.specs.Prelude.{ℕ, List};
ghost use Rattle.ca_term.specs.Program.{ProgramView};
ghost use Rattle.ca_term.specs.Event.{EventView};
ghost use Rattle.ca_meaning.specs.State.{State};
ghost use Rattle.ca_meaning.specs.Legal.{Reaches};
ghost use Rattle.ca_meaning.specs.PipelineTable.{FeedPorts, CollectPorts};
ghost use Rattle.ca_laws.specs.Deeds.{deeds};
ghost use Rattle.ca_laws.specs.Taken.{taken, sent, put_in, made_in, Begins};
ghost use Rattle.ca_laws.specs.Rules.{KeepsTo};
ghost use Rattle.ca_laws.specs.PipelineRules.{passed_on, collected, FeedRule, CollectRule, FeedsKeepTo, JobsKeepTo, CollectsKeepTo};

/// A feed passes on the values of its source in order: for each it makes a reply port, puts the value with that port
/// into the jobs' channel, and then the port into the queue; only then it takes the next. So all that it put begins
/// what is to be passed on for all that it took.
pub fn feeds_pass_on_in_order()
    ensures keeps { (program : ProgramView) (journal : List EventView) (s : State) → Reaches program journal s → FeedsKeepTo program journal s }
    ensures order { (f : FeedPorts) (t : ℕ) (journal : List EventView) (s : State) → KeepsTo (FeedRule f) t journal s → Begins (put_in (deeds t journal)) (passed_on f (taken (deeds t journal)) (made_in (deeds t journal))) }
{}

/// A job puts the outputs of the value that it took on the reply port that came with it, once, and then takes the
/// next.
pub fn jobs_answer_with_outputs()
    ensures { (program : ProgramView) (journal : List EventView) (s : State) → Reaches program journal s → JobsKeepTo program journal s }
{}

/// A collect takes in turn a reply port from the queue and a vector from that port, and puts the outputs that it took
/// into its target in that order; only then it takes the next port. So all that it put begins the outputs in all
/// vectors that it took.
pub fn collects_put_in_order()
    ensures keeps { (program : ProgramView) (journal : List EventView) (s : State) → Reaches program journal s → CollectsKeepTo program journal s }
    ensures order { (c : CollectPorts) (t : ℕ) (journal : List EventView) (s : State) → KeepsTo (CollectRule c) t journal s → Begins (sent (deeds t journal)) (collected (deeds t journal)) }
{}
