ghost use Rattle.std.specs.Prelude.{◌≡◌, ◌↔◌, ℕ, List, Some};
ghost use Rattle.ca_term.specs.Program.{ProgramView, IsProgram};
ghost use Rattle.ca_term.specs.Event.{EventView};
ghost use Rattle.ca_meaning.specs.State.{State, Task, running};
ghost use Rattle.ca_meaning.specs.Legal.{Reaches};
ghost use Rattle.ca_meaning.specs.Ends.{IsPossible, HasEnd, RunEnd};
ghost use Rattle.ca_meaning.specs.EndsLaw.{HasEvent, IsQuiet};

/// In the state of every legal journal of a checked program each running task has a possible event.
pub fn running_tasks_have_events()
    ensures { (program : ProgramView) (journal : List EventView) (s : State) (t : ℕ) (x : Task) → IsProgram program → Reaches program journal s → s.tasks t ≡ Some x → x.mode ≡ running → HasEvent program s t }
{}

/// A run of a checked program is stuck exactly where no task runs, no channel settles and no deadline is open.
pub fn stuck_runs_are_quiet()
    ensures { (program : ProgramView) (journal : List EventView) (s : State) → IsProgram program → Reaches program journal s → (IsPossible program s → ⊥) ↔ IsQuiet s }
{}

/// For a budget a journal has one end at most.
pub fn a_journal_has_one_end()
    ensures { (program : ProgramView) (budget : ℕ) (journal : List EventView) (a : RunEnd) (b : RunEnd) → HasEnd program budget journal a → HasEnd program budget journal b → a ≡ b }
{}
