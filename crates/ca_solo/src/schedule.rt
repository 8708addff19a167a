// The moves of the one worker make the schedule, and keep it.
ghost use Rattle.std.specs.Prelude.{◌≡◌, ℕ, List, [], ◌++◌};
ghost use Rattle.ca_term.specs.Program.{ProgramView};
ghost use Rattle.ca_term.specs.Event.{EventView};
ghost use Rattle.ca_meaning.specs.State.{State, Opening};
ghost use Rattle.ca_meaning.specs.Legal.{Reaches};
ghost use Rattle.ca_meaning.specs.Solo.{Solo};
ghost use Rattle.ca_solo.specs.Positions.{HasUsed, Position, also_later, first_position};
ghost use Rattle.ca_solo.specs.Moves.{MadeByMoves, SoloMove, SoloMoves};
ghost use Rattle.ca_solo.specs.Alone.{Alone};

/// What moves from an opening show, where the clock's answers are all used, is a run of one worker's schedule, and each
/// such run is made so. It leads to the state at which the worker then stands.
pub fn moves_make_the_schedule()
    ensures solo { (program : ProgramView) (readings : List ℕ) (journal : List EventView) → MadeByMoves program readings journal → Solo program readings journal }
    ensures every { (program : ProgramView) (readings : List ℕ) (journal : List EventView) → Solo program readings journal → MadeByMoves program readings journal }
    ensures reaches { (program : ProgramView) (readings : List ℕ) (s : State) (w : Position) (journal : List EventView) → Opening program s → SoloMoves program (first_position readings s) w journal → Reaches program journal w.state }
{}

/// The worker starts alone, each move keeps it so, and what it has done so is the schedule.
pub fn moves_keep_the_worker_alone()
    ensures starts { (program : ProgramView) (readings : List ℕ) (s : State) → Opening program s → Alone program readings [] (first_position readings s) }
    ensures goes_on { (program : ProgramView) (readings : List ℕ) (journal : List EventView) (w w2 : Position) (es : List EventView) → Alone program readings journal w → SoloMove program w w2 es → Alone program readings (journal ++ es) w2 }
    ensures ends { (program : ProgramView) (readings : List ℕ) (journal : List EventView) (w : Position) → Alone program readings journal w → HasUsed w.phase → w.desk.readings ≡ [] → Solo program readings journal }
{}

/// Further answers of the clock change nothing of what was done over the first ones.
pub fn further_answers_change_nothing()
    ensures { (rs : List ℕ) (program : ProgramView) (readings : List ℕ) (journal : List EventView) (w : Position) → Alone program readings journal w → Alone program (readings ++ rs) journal (also_later rs w) }
{}
