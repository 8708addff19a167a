// A lone worker's turns are those of the schedule.
ghost use Rattle.std.specs.Prelude.{◌≡◌, ◌≤◌, ℕ, Option, map, List, [], ◌∷◌, ◌++◌, Some, None, length, true};
ghost use Rattle.ca_value.specs.Tree.{Tree};
ghost use Rattle.ca_term.specs.declared.event.Side.{Side};
ghost use Rattle.ca_term.specs.Event.{EventView, settled, ticked};
ghost use Rattle.ca_term.specs.Program.{ProgramView};
ghost use Rattle.ca_meaning.specs.EndsLaw.{is_of};
ghost use Rattle.ca_meaning.specs.Legal.{Reaches};
ghost use Rattle.ca_meaning.specs.Solo.{Lane, CanSettle, Solo, patience};
ghost use Rattle.ca_meaning.specs.State.{State};
ghost use Rattle.ca_states.specs.Code.{CodeView};
ghost use Rattle.ca_journal.specs.Merge.{events_of, in_order};
ghost use Rattle.ca_turns.specs.Hands.{Held, look};
ghost use Rattle.ca_turns.specs.History.{Run};
ghost use Rattle.ca_turns.specs.Steps.{Sees, SeesOne};
ghost use Rattle.ca_turns.specs.Views.{drawing, having_missed, holding, hands_stood_for, new_turn};
ghost use Rattle.ca_turns.specs.declared.rule.Turn.{Turn};
ghost use Rattle.ca_turns.specs.declared.rule.View.{View};
ghost use Rattle.ca_commit.specs.Touched as said;
ghost use Rattle.ca_table.specs.Draws.{drawn_moves, drawn_touches, turn_view};
ghost use Rattle.ca_table.specs.Grips.{Grips, HasAll};
ghost use Rattle.ca_table.specs.Parts.{part_seen};
ghost use Rattle.ca_table.specs.Running.{Knows, shown_by};
ghost use Rattle.ca_table.specs.Seen.{PartSeen};
ghost use Rattle.ca_table.specs.Workers.{AllAbove, noted};
ghost use Rattle.ca_table.specs.declared.drawn.Drawn.{Drawn};
ghost use Rattle.ca_table.specs.declared.part.Part.{Part};
ghost use Rattle.ca_solo.specs.Moves.{MayMake};
ghost use Rattle.ca_solo.specs.Positions.{HasUsed, Position, first_position, free, in_time, picked, settling};
ghost use Rattle.ca_solo.specs.Stirs.{Ordered, stirred};
ghost use Rattle.ca_table.specs.LoneHands.{HoldsLeft, IsAfter, left_now};
ghost use Rattle.ca_alone.specs.Lone.{AloneAt, DrewNext, StandsAlone};
ghost use Rattle.ca_alone.specs.OwnTurn.{IsDue, IsEarly};
ghost use Rattle.ca_alone.specs.Standing.{ChoosesWell, IsOn, clock_answers};

use ca_agent::agent::Agent;
use ca_timers::clock::Clock;

/// To the only hand of a table its own turns are the history, and what it holds is what these left. That stays so
/// where it draws, and where it gives a part back.
pub fn lone_hands_know_all_parts<A: Agent>()
    ensures runs { (v : View (PartSeen A) Drawn) → SeesOne drawn_touches (drawn_moves A.over A.place A.advances A.gives A.starts) v → hands_stood_for v ≡ v.hands → AllAbove 0 v.turns → Run drawn_touches (drawn_moves A.over A.place A.advances A.gives A.starts) v.opening v.turns (left_now drawn_touches v) }
    ensures holds { (v : View (PartSeen A) Drawn) → SeesOne drawn_touches (drawn_moves A.over A.place A.advances A.gives A.starts) v → hands_stood_for v ≡ v.hands → AllAbove 0 v.turns → length v.held ≡ length v.opening → HoldsLeft drawn_touches v }
    ensures draws { (v : View (PartSeen A) Drawn) (t : Turn (PartSeen A) Drawn) → HoldsLeft drawn_touches v → HoldsLeft drawn_touches (drawing v (drawn_touches t.event) t) }
    ensures given { (v : View (PartSeen A) Drawn) (i : ℕ) → HoldsLeft drawn_touches v → HoldsLeft drawn_touches (holding v i None) }
{}

/// A lone worker that drew nothing stands where the schedule begins.
pub fn lone_workers_begin<A: Agent>()
    ensures { (program : ProgramView) (code : CodeView) (v : View (PartSeen A) Drawn) → Knows A.over A.stands program code 1 v → v.turns ≡ [] → (s : State) × StandsAlone A.over A.place A.stands program code v [] (first_position [] s) }
{}

/// An event of its lane's task leads from a position to the next.
pub fn lone_events_lead_on<A: Agent>()
    ensures { (program : ProgramView) (code : CodeView) (v v2 : View (PartSeen A) Drawn) (answers : List ℕ) (w : Position) (t : ℕ) (e : EventView) → StandsAlone A.over A.place A.stands program code v answers w → DrewNext (drawn_moves A.over A.place A.advances A.gives A.starts) (said.shown e) v v2 → is_of t e ≡ true → MayMake w.phase → IsOn w.desk.lane → ChoosesWell w.state w.desk e → AloneAt A.over A.place A.stands program code v2 (answers ++ clock_answers e) (settling (stirred w.state e)) }
{}

/// So does each other turn of its, and the clock's answer is one more where it was asked.
pub fn lone_turns_lead_on<A: Agent>()
    ensures pick { (program : ProgramView) (code : CodeView) (v v2 : View (PartSeen A) Drawn) (answers : List ℕ) (w : Position) → StandsAlone A.over A.place A.stands program code v answers w → DrewNext (drawn_moves A.over A.place A.advances A.gives A.starts) (said.picks 0) v v2 → w.phase ≡ free → AloneAt A.over A.place A.stands program code v2 answers picked }
    ensures back { (program : ProgramView) (code : CodeView) (v v2 : View (PartSeen A) Drawn) (answers : List ℕ) (w : Position) → StandsAlone A.over A.place A.stands program code v answers w → DrewNext (drawn_moves A.over A.place A.advances A.gives A.starts) said.yields v v2 → w.phase ≡ settling [] → ((lane : Lane) → w.desk.lane ≡ Some lane → patience ≤ lane.events) → AloneAt A.over A.place A.stands program code v2 answers free }
    ensures settle { (program : ProgramView) (code : CodeView) (v v2 : View (PartSeen A) Drawn) (answers : List ℕ) (w : Position) (wait k : ℕ) (side : Side) (p : ℕ) (x : Tree) (us : List ℕ) → StandsAlone A.over A.place A.stands program code v answers w → DrewNext (drawn_moves A.over A.place A.advances A.gives A.starts) (said.shown (settled wait k side p x)) v v2 → w.phase ≡ settling (p ∷ us) → AloneAt A.over A.place A.stands program code v2 answers (settling (p ∷ us)) }
    ensures read { (program : ProgramView) (code : CodeView) (v v2 : View (PartSeen A) Drawn) (answers : List ℕ) (w : Position) (m : ℕ) → StandsAlone A.over A.place A.stands program code v answers w → DrewNext (drawn_moves A.over A.place A.advances A.gives A.starts) said.asks_clock v v2 → w.phase ≡ picked → IsEarly w.state.deadlines m → AloneAt A.over A.place A.stands program code v2 (answers ++ m ∷ []) in_time }
    ensures late { (program : ProgramView) (code : CodeView) (v v2 : View (PartSeen A) Drawn) (answers : List ℕ) (w : Position) (m : ℕ) (ports us : List ℕ) → StandsAlone A.over A.place A.stands program code v answers w → DrewNext (drawn_moves A.over A.place A.advances A.gives A.starts) (said.shown (ticked m ports)) v v2 → w.phase ≡ picked → IsDue w.state.deadlines m → Ordered ports us → AloneAt A.over A.place A.stands program code v2 (answers ++ m ∷ []) (settling us) }
    ensures idle { (program : ProgramView) (code : CodeView) (v v2 : View (PartSeen A) Drawn) (answers : List ℕ) (w : Position) (m : ℕ) (ports us : List ℕ) → StandsAlone A.over A.place A.stands program code v answers w → DrewNext (drawn_moves A.over A.place A.advances A.gives A.starts) (said.shown (ticked m ports)) v v2 → w.phase ≡ free → w.desk.ready ≡ [] → IsDue w.state.deadlines m → Ordered ports us → AloneAt A.over A.place A.stands program code v2 (answers ++ m ∷ []) (settling us) }
{}

/// A stale handler that leaves its queue, and what a worker draws as it leaves the run, lead nowhere.
pub fn lone_workers_stay<A: Agent>()
    ensures prune { (program : ProgramView) (code : CodeView) (v v2 : View (PartSeen A) Drawn) (answers : List ℕ) (w : Position) (side : Side) (p wait : ℕ) → StandsAlone A.over A.place A.stands program code v answers w → DrewNext (drawn_moves A.over A.place A.advances A.gives A.starts) (said.prunes side p wait) v v2 → StandsAlone A.over A.place A.stands program code v2 answers w }
    ensures stall { (program : ProgramView) (code : CodeView) (v v2 : View (PartSeen A) Drawn) (answers : List ℕ) (w : Position) → StandsAlone A.over A.place A.stands program code v answers w → DrewNext (drawn_moves A.over A.place A.advances A.gives A.starts) said.stalls v v2 → StandsAlone A.over A.place A.stands program code v2 answers w }
    ensures halt { (program : ProgramView) (code : CodeView) (v v2 : View (PartSeen A) Drawn) (answers : List ℕ) (w : Position) → StandsAlone A.over A.place A.stands program code v answers w → DrewNext (drawn_moves A.over A.place A.advances A.gives A.starts) said.halts v v2 → StandsAlone A.over A.place A.stands program code v2 answers w }
{}

/// The moves that are no turns: no deadline is open, the least channel that might settle doesn't, the task left.
pub fn lone_workers_go_on<A: Agent>()
    ensures untimed { (program : ProgramView) (code : CodeView) (v : View (PartSeen A) Drawn) (answers : List ℕ) (w : Position) → StandsAlone A.over A.place A.stands program code v answers w → w.phase ≡ picked → w.state.deadlines ≡ [] → AloneAt A.over A.place A.stands program code v answers in_time }
    ensures passes { (program : ProgramView) (code : CodeView) (v : View (PartSeen A) Drawn) (answers : List ℕ) (w : Position) (p : ℕ) (us : List ℕ) → StandsAlone A.over A.place A.stands program code v answers w → w.phase ≡ settling (p ∷ us) → (CanSettle w.state p → ⊥) → AloneAt A.over A.place A.stands program code v answers (settling us) }
    ensures rests { (program : ProgramView) (code : CodeView) (v : View (PartSeen A) Drawn) (answers : List ℕ) (w : Position) → StandsAlone A.over A.place A.stands program code v answers w → w.phase ≡ settling [] → w.desk.lane ≡ None → AloneAt A.over A.place A.stands program code v answers free }
{}

/// What its turns show is the run of the schedule over the answers so far, and leads to the position's state.
pub fn lone_workers_show_the_schedule<A: Agent>()
    ensures solo { (program : ProgramView) (code : CodeView) (v : View (PartSeen A) Drawn) (answers : List ℕ) (w : Position) → StandsAlone A.over A.place A.stands program code v answers w → HasUsed w.phase → Solo program answers (shown_by v.turns) }
    ensures reaches { (program : ProgramView) (code : CodeView) (v : View (PartSeen A) Drawn) (answers : List ℕ) (w : Position) → StandsAlone A.over A.place A.stands program code v answers w → Reaches program (shown_by v.turns) w.state }
{}

/// An event that moves what the hand holds, as a draw asks for, is its next turn, and what it holds is then what its
/// turns left. Holding one more part keeps that too.
pub fn lone_hands_draw_next<A: Agent, C: Clock + Drop>()
    ensures draws { (h : Held (Part A C) (PartSeen A) Drawn) (e : Drawn) (g : ℕ → Option (Part A C × PartSeen A)) → Grips h g → HasAll g (drawn_touches e) → drawn_moves A.over A.place A.advances A.gives A.starts e (look h.view.held (drawn_touches e)) (map (part_seen C.least C.faults C.readings) (look h.parts (drawn_touches e))) → HoldsLeft drawn_touches h.view → (n : ℕ) (v2 : View (PartSeen A) Drawn) → v2 ≡ drawing h.view (drawn_touches e) (new_turn n e (look h.view.held (drawn_touches e)) (map (part_seen C.least C.faults C.readings) (look h.parts (drawn_touches e)))) → DrewNext (drawn_moves A.over A.place A.advances A.gives A.starts) (turn_view e.what) h.view v2 × HoldsLeft drawn_touches v2 }
    ensures holds { (v : View (PartSeen A) Drawn) (missed : List ℕ) (i : ℕ) (c : PartSeen A) → HoldsLeft drawn_touches v → SeesOne drawn_touches (drawn_moves A.over A.place A.advances A.gives A.starts) (holding (having_missed v missed) i (Some c)) → hands_stood_for v ≡ v.hands → AllAbove 0 v.turns → HoldsLeft drawn_touches (holding (having_missed v missed) i (Some c)) }
{}

/// Where its turns are a run, as it knows at each hold, the last one moved what those before it left, and these are a run.
pub fn lone_turns_were_next<A: Agent>()
    ensures { (what : said.Turn) (v v2 : View (PartSeen A) Drawn) (t : Turn (PartSeen A) Drawn) (last : List (PartSeen A)) → Run drawn_touches (drawn_moves A.over A.place A.advances A.gives A.starts) v2.opening v2.turns last → IsAfter v v2 t → turn_view t.event.what ≡ what → DrewNext (drawn_moves A.over A.place A.advances A.gives A.starts) what v v2 × Run drawn_touches (drawn_moves A.over A.place A.advances A.gives A.starts) v.opening v.turns (left_now drawn_touches v) }
{}

/// What it noted, in order of number, is what its turns show.
pub fn lone_workers_note_their_turns<A: Agent>()
    ensures { (v : View (PartSeen A) Drawn) (log : List (Turn (PartSeen A) Drawn)) (now : List (PartSeen A)) → Sees drawn_touches (drawn_moves A.over A.place A.advances A.gives A.starts) v log now → hands_stood_for v ≡ v.hands → AllAbove 0 v.turns → events_of (in_order (noted v.turns)) ≡ shown_by v.turns }
{}
