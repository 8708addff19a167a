// Where running tasks are, and what tasks that weren't started have made.
ghost use Rattle.std.specs.Prelude.{ℕ, List};
ghost use Rattle.ca_term.specs.Program.{ProgramView};
ghost use Rattle.ca_term.specs.Event.{EventView};
ghost use Rattle.ca_meaning.specs.State.{State, Opening};
ghost use Rattle.ca_solo.specs.Positions.{Position, first_position};
ghost use Rattle.ca_solo.specs.Moves.{SoloMoves};
ghost use Rattle.ca_solo.specs.Seats.{TasksSeated, Uncounted};

/// Each running task is in the lane or in the ready part.
pub fn running_tasks_have_seats()
    ensures { (program : ProgramView) (readings : List ℕ) (s : State) (w : Position) (journal : List EventView) → Opening program s → SoloMoves program (first_position readings s) w journal → TasksSeated w }
{}

/// A task that wasn't started has made no alts.
pub fn new_tasks_count_from_zero()
    ensures { (program : ProgramView) (readings : List ℕ) (s : State) (w : Position) (journal : List EventView) → Opening program s → SoloMoves program (first_position readings s) w journal → Uncounted w }
{}
