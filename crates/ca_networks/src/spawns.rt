ghost use Rattle.std.specs.Prelude.{List};
ghost use Rattle.ca_term.specs.Program.{ProgramView};
ghost use Rattle.ca_term.specs.Event.{EventView};
ghost use Rattle.ca_meaning.specs.State.{State};
ghost use Rattle.ca_meaning.specs.Legal.{Reaches};
ghost use Rattle.ca_networks.specs.Networks.{AllSpawned};

/// Each system task that a journal spawns has values and a place, those of the operation at which its spawner stood. So
/// the laws of pipelines and of mults speak of every feed, collect, job and mult of a run.
pub fn system_tasks_have_values()
    ensures { (program : ProgramView) (journal : List EventView) (s : State) → Reaches program journal s → AllSpawned program journal }
{}
