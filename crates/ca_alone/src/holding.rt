// What a lone worker holds, and its clock.
ghost use mathlib.Core.Option.{some};
ghost use lib.ListN.{get_elem?};
ghost use Rattle.std.specs.Prelude.{◌≡◌, ◌≤◌, ℕ, List, [], ◌∷◌, ◌++◌, Some, map};
ghost use Rattle.ca_term.specs.Program.{ProgramView};
ghost use Rattle.ca_states.specs.Code.{CodeView};
ghost use Rattle.ca_turns.specs.declared.rule.View.{View};
ghost use Rattle.ca_commit.specs.Agents.{TaskAgent};
ghost use Rattle.ca_commit.specs.Contents.{TimersPart};
ghost use Rattle.ca_commit.specs.Gathered.{parts_of};
ghost use Rattle.ca_commit.specs.Opening.{unasked};
ghost use Rattle.ca_commit.specs.Touched as said;
ghost use Rattle.ca_table.specs.Draws.{drawn_moves, drawn_touches};
ghost use Rattle.ca_table.specs.Moments.{turn_asked};
ghost use Rattle.ca_table.specs.Running.{Knows, contents_at};
ghost use Rattle.ca_table.specs.Seen.{LaneSeen, PartSeen, seen_lane, seen_ready, seen_timers};
ghost use Rattle.ca_table.specs.declared.drawn.Drawn.{Drawn};
ghost use Rattle.ca_solo.specs.Positions.{Position, in_time, picked};
ghost use Rattle.ca_alone.specs.Answers.{HasGiven};
ghost use Rattle.ca_table.specs.LoneHands.{HoldsLeft, left_now};
ghost use Rattle.ca_alone.specs.Lone.{AloneAt, DrewNext, StandsAlone};
ghost use Rattle.ca_alone.specs.OwnTurn.{IsEarly};
ghost use Rattle.ca_alone.specs.Reading.{lane_read, task_number};

use ca_agent::agent::Agent;

/// The lane, which is part 0, the ready part, which is part 34, and the timers, part 33, tell the desk and the deadlines
/// of the position while the worker holds them, as they were settled.
pub fn held_parts_tell_the_desk<A: Agent>()
    ensures lane { (program : ProgramView) (code : CodeView) (v : View (PartSeen A) Drawn) (answers : List ℕ) (w : Position) (c : PartSeen A) (l : LaneSeen A) → HoldsLeft drawn_touches v → StandsAlone A.over A.place A.stands program code v answers w → get_elem? v.held 0 ≡ some (Some c) → c.held ≡ seen_lane l → w.desk.lane ≡ lane_read l.task l.since }
    ensures ready { (program : ProgramView) (code : CodeView) (v : View (PartSeen A) Drawn) (answers : List ℕ) (w : Position) (c : PartSeen A) (q : List (ℕ × TaskAgent A)) → HoldsLeft drawn_touches v → StandsAlone A.over A.place A.stands program code v answers w → get_elem? v.held 34 ≡ some (Some c) → c.held ≡ seen_ready q → w.desk.ready ≡ map task_number q }
    ensures timers { (program : ProgramView) (code : CodeView) (v : View (PartSeen A) Drawn) (answers : List ℕ) (w : Position) (c : PartSeen A) (t : TimersPart) → HoldsLeft drawn_touches v → StandsAlone A.over A.place A.stands program code v answers w → get_elem? v.held 33 ≡ some (Some c) → c.held ≡ seen_timers t → (t.deadlines ≡ w.state.deadlines) × (t.now ≡ w.state.now) × (t.now ≤ t.least) }
{}

/// The answers that its turns took are those that its clock gave: none at first, with each turn those that the turn
/// took, and at a pick one in time, where the timers say so.
pub fn lone_turns_take_what_the_clock_gave<A: Agent>()
    ensures none { (program : ProgramView) (code : CodeView) (v : View (PartSeen A) Drawn) (k : Knows A.over A.stands program code 1 v) → v.turns ≡ [] → HasGiven (unasked k.least k.faults k.readings) [] (contents_at (left_now drawn_touches v)) }
    ensures more { (program : ProgramView) (code : CodeView) (v v2 : View (PartSeen A) Drawn) (answers : List ℕ) (w : Position) (first : TimersPart) (what : said.Turn) → HasGiven first answers (contents_at (left_now drawn_touches v)) → StandsAlone A.over A.place A.stands program code v answers w → DrewNext (drawn_moves A.over A.place A.advances A.gives A.starts) what v v2 → (least : ℕ) × HasGiven first (answers ++ turn_asked what least) (contents_at (left_now drawn_touches v2)) }
    ensures read { (program : ProgramView) (code : CodeView) (v v2 : View (PartSeen A) Drawn) (answers : List ℕ) (w : Position) (first : TimersPart) → HasGiven first answers (contents_at (left_now drawn_touches v)) → StandsAlone A.over A.place A.stands program code v answers w → DrewNext (drawn_moves A.over A.place A.advances A.gives A.starts) said.asks_clock v v2 → w.phase ≡ picked → ((c : TimersPart) → (parts_of 1 (contents_at (left_now drawn_touches v2))).timers ≡ Some c → IsEarly w.state.deadlines c.least) → (m : ℕ) × AloneAt A.over A.place A.stands program code v2 (answers ++ m ∷ []) in_time × HasGiven first (answers ++ m ∷ []) (contents_at (left_now drawn_touches v2)) }
{}
