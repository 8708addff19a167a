ghost use Rattle.std.specs.Prelude.{List};
ghost use Rattle.ca_term.specs.Program.{ProgramView};
ghost use Rattle.ca_term.specs.Event.{EventView};
ghost use Rattle.ca_meaning.specs.State.{State};
ghost use Rattle.ca_meaning.specs.Legal.{Reaches};
ghost use Rattle.ca_laws.specs.SpawnLaw.{SpawnedOnce};

/// No task is spawned twice.
pub fn tasks_are_spawned_once()
    ensures { (program : ProgramView) (journal : List EventView) (s : State) → Reaches program journal s → SpawnedOnce journal }
{}
