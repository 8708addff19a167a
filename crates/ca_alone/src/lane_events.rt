// The events of the lane's task are moves of the schedule.
ghost use Rattle.std.specs.Prelude.{◌≡◌, ℕ, List, [], ◌∷◌, Option, true};
ghost use Rattle.ca_term.specs.Event.{EventView};
ghost use Rattle.ca_term.specs.Program.{ProgramView};
ghost use Rattle.ca_meaning.specs.EndsLaw.{is_of};
ghost use Rattle.ca_commit.specs.Agents.{TaskAgent};
ghost use Rattle.ca_commit.specs.Contents.{Content};
ghost use Rattle.ca_commit.specs.Running.{contents_written};
ghost use Rattle.ca_commit.specs.Touched.{Drawn, shown, touches};
ghost use Rattle.ca_solo.specs.Moves.{MayMake, SoloMove};
ghost use Rattle.ca_solo.specs.Positions.{Position, also_later, settling};
ghost use Rattle.ca_solo.specs.Stirs.{stirred};
ghost use Rattle.ca_alone.specs.OwnTurn.{IsOwnTurn};
ghost use Rattle.ca_alone.specs.Standing.{ChoosesWell, IsOn, IsPosition, clock_answers};

use ca_agent::agent::Agent;

/// An event of the lane's task, which made fewer than 64 since it was picked, is a move where the branch that it took
/// without priority is the first from the number of the task's earlier alts on. Of the clock it took what it tells.
pub fn events_of_the_lane_are_moves<A: Agent>()
    ensures { (program : ProgramView) (now : ℕ → Option (Content (TaskAgent A))) (w : Position) (d : Drawn) (before after : List (Content (TaskAgent A))) (t : ℕ) (e : EventView) → IsPosition A.place A.stands program now w → IsOwnTurn A.place A.advances A.gives A.starts (shown e) now d before after → is_of t e ≡ true → MayMake w.phase → IsOn w.desk.lane → ChoosesWell w.state w.desk e → (w2 : Position) × SoloMove program (also_later (clock_answers e) w) w2 (e ∷ []) × (w2.phase ≡ settling (stirred w.state e)) × IsPosition A.place A.stands program (contents_written now (touches d) after) w2 }
{}
