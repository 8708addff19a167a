// The turns of a lone worker that aren't events of a task are moves of the schedule.
ghost use Rattle.std.specs.Prelude.{◌≡◌, ◌≤◌, ℕ, List, [], ◌∷◌, Option, Some};
ghost use Rattle.ca_value.specs.Tree.{Tree};
ghost use Rattle.ca_term.specs.declared.event.Side.{Side};
ghost use Rattle.ca_term.specs.Event.{settled, ticked};
ghost use Rattle.ca_term.specs.Program.{ProgramView};
ghost use Rattle.ca_meaning.specs.Solo.{Lane, patience};
ghost use Rattle.ca_commit.specs.Agents.{TaskAgent};
ghost use Rattle.ca_commit.specs.Contents.{Content};
ghost use Rattle.ca_commit.specs.Running.{contents_written};
ghost use Rattle.ca_commit.specs.Touched.{Drawn, asks_clock, picks, prunes, shown, touches, yields};
ghost use Rattle.ca_solo.specs.Moves.{IsInTime, IsLate, PicksFront, SettlesOne, WaitsIdle, Yields};
ghost use Rattle.ca_solo.specs.Positions.{Position, also_later, free, in_time, picked, settling};
ghost use Rattle.ca_solo.specs.Stirs.{Ordered};
ghost use Rattle.ca_alone.specs.OwnTurn.{IsDue, IsEarly, IsOwnTurn};
ghost use Rattle.ca_alone.specs.Standing.{IsPosition};

use ca_agent::agent::Agent;

/// Pick, Yield after all its events, and an asking at a pick whose answer is in time are moves; a stale handler that
/// leaves its queue is none.
pub fn silent_turns_are_moves<A: Agent>()
    ensures pick { (program : ProgramView) (now : ℕ → Option (Content (TaskAgent A))) (w : Position) (d : Drawn) (before after : List (Content (TaskAgent A))) → IsPosition A.place A.stands program now w → IsOwnTurn A.place A.advances A.gives A.starts (picks 0) now d before after → w.phase ≡ free → (w2 : Position) × PicksFront w w2 × (w2.phase ≡ picked) × IsPosition A.place A.stands program (contents_written now (touches d) after) w2 }
    ensures back { (program : ProgramView) (now : ℕ → Option (Content (TaskAgent A))) (w : Position) (d : Drawn) (before after : List (Content (TaskAgent A))) → IsPosition A.place A.stands program now w → IsOwnTurn A.place A.advances A.gives A.starts yields now d before after → w.phase ≡ settling [] → ((lane : Lane) → w.desk.lane ≡ Some lane → patience ≤ lane.events) → (w2 : Position) × Yields w w2 × (w2.phase ≡ free) × IsPosition A.place A.stands program (contents_written now (touches d) after) w2 }
    ensures read { (program : ProgramView) (now : ℕ → Option (Content (TaskAgent A))) (w : Position) (d : Drawn) (before after : List (Content (TaskAgent A))) (a : ℕ) → IsPosition A.place A.stands program now w → IsOwnTurn A.place A.advances A.gives A.starts asks_clock now d before after → w.phase ≡ picked → IsEarly w.state.deadlines a → (w2 : Position) × IsInTime (also_later (a ∷ []) w) w2 × (w2.phase ≡ in_time) × IsPosition A.place A.stands program (contents_written now (touches d) after) w2 }
    ensures prune { (program : ProgramView) (now : ℕ → Option (Content (TaskAgent A))) (w : Position) (d : Drawn) (before after : List (Content (TaskAgent A))) (side : Side) (q wait : ℕ) → IsPosition A.place A.stands program now w → IsOwnTurn A.place A.advances A.gives A.starts (prunes side q wait) now d before after → IsPosition A.place A.stands program (contents_written now (touches d) after) w }
{}

/// So are a Tick at a pick, and one that a worker without a ready task waited for, with the closed channels in order.
pub fn ticks_are_moves<A: Agent>()
    ensures late { (program : ProgramView) (now : ℕ → Option (Content (TaskAgent A))) (w : Position) (d : Drawn) (before after : List (Content (TaskAgent A))) (a : ℕ) (ports us : List ℕ) → IsPosition A.place A.stands program now w → IsOwnTurn A.place A.advances A.gives A.starts (shown (ticked a ports)) now d before after → w.phase ≡ picked → IsDue w.state.deadlines a → Ordered ports us → (w2 : Position) × IsLate program (also_later (a ∷ []) w) a ports w2 × (w2.phase ≡ settling us) × IsPosition A.place A.stands program (contents_written now (touches d) after) w2 }
    ensures idle { (program : ProgramView) (now : ℕ → Option (Content (TaskAgent A))) (w : Position) (d : Drawn) (before after : List (Content (TaskAgent A))) (a : ℕ) (ports us : List ℕ) → IsPosition A.place A.stands program now w → IsOwnTurn A.place A.advances A.gives A.starts (shown (ticked a ports)) now d before after → w.phase ≡ free → w.desk.ready ≡ [] → IsDue w.state.deadlines a → Ordered ports us → (w2 : Position) × WaitsIdle program (also_later (a ∷ []) w) a ports w2 × (w2.phase ≡ settling us) × IsPosition A.place A.stands program (contents_written now (touches d) after) w2 }
{}

/// And a channel that settles: whoever waited stands last in the ready part.
pub fn settlings_are_moves<A: Agent>()
    ensures { (program : ProgramView) (now : ℕ → Option (Content (TaskAgent A))) (w : Position) (d : Drawn) (before after : List (Content (TaskAgent A))) (wait k : ℕ) (side : Side) (q : ℕ) (v : Tree) (us : List ℕ) → IsPosition A.place A.stands program now w → IsOwnTurn A.place A.advances A.gives A.starts (shown (settled wait k side q v)) now d before after → w.phase ≡ settling (q ∷ us) → (w2 : Position) × SettlesOne program w (settled wait k side q v) w2 × (w2.phase ≡ settling (q ∷ us)) × IsPosition A.place A.stands program (contents_written now (touches d) after) w2 }
{}
