// When the one worker's run is stuck.
ghost use Rattle.std.specs.Prelude.{◌≡◌, ℕ, List, [], Some};
ghost use Rattle.ca_term.specs.Program.{ProgramView};
ghost use Rattle.ca_term.specs.Event.{EventView};
ghost use Rattle.ca_meaning.specs.State.{State, Task, Opening, running};
ghost use Rattle.ca_meaning.specs.Ends.{IsStuck};
ghost use Rattle.ca_solo.specs.Positions.{Position, first_position, free};
ghost use Rattle.ca_solo.specs.Moves.{SoloMoves};
ghost use Rattle.ca_solo.specs.Alone.{Alone};

/// Where the worker is free, no task runs and no deadline is open, nothing can go on. No task runs where none is ready.
pub fn a_free_worker_is_stuck()
    ensures alone { (program : ProgramView) (readings : List ℕ) (journal : List EventView) (w : Position) → Alone program readings journal w → w.phase ≡ free → ((t : ℕ) (x : Task) → w.state.tasks t ≡ Some x → x.mode ≡ running → ⊥) → w.state.deadlines ≡ [] → IsStuck program journal }
    ensures none_ready { (program : ProgramView) (readings : List ℕ) (s : State) (w : Position) (journal : List EventView) → Opening program s → SoloMoves program (first_position readings s) w journal → w.phase ≡ free → w.desk.ready ≡ [] → w.state.deadlines ≡ [] → IsStuck program journal }
{}
