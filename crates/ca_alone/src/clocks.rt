// What the clock answered a lone worker.
ghost use Rattle.std.specs.Prelude.{◌≡◌, ℕ, List, [], ◌++◌, Option};
ghost use Rattle.ca_commit.specs.Agents.{TaskAgent};
ghost use Rattle.ca_commit.specs.Contents.{Content, TimersPart};
ghost use Rattle.ca_commit.specs.Running.{contents_written};
ghost use Rattle.ca_commit.specs.Touched.{Drawn, Turn, touches};
ghost use Rattle.ca_table.specs.Moments.{turn_asked};
ghost use Rattle.ca_alone.specs.Answers.{Gave, HasGiven};
ghost use Rattle.ca_alone.specs.OwnTurn.{IsOwnTurn};

use ca_agent::agent::Agent;

/// With each turn it gave just the answers that the turn took, in order; where it tells them they are told, and they
/// never fall.
pub fn clocks_give_their_answers<A: Agent>()
    ensures none { (c : TimersPart) → Gave c [] c }
    ensures more { (what : Turn) (now : ℕ → Option (Content (TaskAgent A))) (d : Drawn) (before after : List (Content (TaskAgent A))) (first : TimersPart) (ms : List ℕ) → HasGiven first ms now → IsOwnTurn A.place A.advances A.gives A.starts what now d before after → (least : ℕ) × HasGiven first (ms ++ turn_asked what least) (contents_written now (touches d) after) }
{}
