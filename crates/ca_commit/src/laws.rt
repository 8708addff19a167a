//! What holds of the parts of every run. Each law is the contract of a function that does nothing: what it says
//! is in `specs/`.

ghost use Rattle.std.specs.Prelude.{◌≡◌, ◌<◌, ℕ, List, [], ◌∷◌, Option, Some};
ghost use Rattle.ca_value.specs.Tree.{Tree, port};
ghost use Rattle.ca_term.specs.declared.place.Place.{Place};
ghost use Rattle.ca_term.specs.Operation.{taking};
ghost use Rattle.ca_term.specs.Event.{EventView, done, take_of};
ghost use Rattle.ca_term.specs.Program.{ProgramView};
ghost use Rattle.ca_meaning.specs.EndsLaw.{IsQuiet};
ghost use Rattle.ca_meaning.specs.Body.{at_op, new_body};
ghost use Rattle.ca_meaning.specs.Legal.{Reaches};
ghost use Rattle.ca_meaning.specs.Task.{BodyRest, TaskBody, script};
ghost use Rattle.ca_meaning.specs.State.{State, opening_state};
ghost use Rattle.ca_meaning.specs.Steps.{Steps};
ghost use Rattle.ca_commit.specs.Agents.{TaskAgent};
ghost use Rattle.ca_commit.specs.Contents.{BankView, Content, Kept, LaneView, a_bank, a_lane};
ghost use Rattle.ca_commit.specs.Drawing.{given_up, took};
ghost use Rattle.ca_commit.specs.Touched.{Drawn, NoneTwice, Rises, event_names, shown, stalls, touches};
ghost use Rattle.ca_commit.specs.Gathered.{HoldsNamed, gather, parts_of};
ghost use Rattle.ca_commit.specs.Moving.{Moves, visible};
ghost use Rattle.ca_commit.specs.Running.{AreAt, RunStands, contents_written};
ghost use Rattle.ca_commit.specs.Histories.{Entry, EntriesFollow, journal};
ghost use Rattle.ca_commit.specs.Opening.{opening_parts, unasked};

use ca_agent::agent::Agent;

/// No drawn event touches a part twice, and their numbers ascend.
pub fn touches_are_distinct()
    ensures ascend { (d : Drawn) → Rises 0 (touches d) }
    ensures distinct { (d : Drawn) → NoneTwice (touches d) }
{}

/// What an event of the journal names, and what stands beside it, is among the parts that it touches: these have each
/// of them as it is among all parts.
pub fn named_parts_are_held<A: Agent>()
    ensures { (d : Drawn) (e : EventView) (now : ℕ → Option (Content (TaskAgent A))) (before : List (Content (TaskAgent A))) → d.worker < d.workers → d.what ≡ shown e → AreAt now (touches d) before → HoldsNamed d.worker d.ports d.looked (event_names d.worker e) (gather d before) (parts_of d.workers now) }
{}

/// Before the first event the parts of a run stand for its opening state, for any number of workers, where the main
/// text's agent stands for the main text's body.
pub fn runs_open<A: Agent>()
    ensures { (program : ProgramView) (n : ℕ) (main : A) (body : TaskBody) (least faults : ℕ) (readings : Option (List ℕ)) → 0 < n → A.stands program main body → RunStands A.place A.stands program n (opening_parts n program main (unasked least faults readings)) (opening_state body) }
{}

/// A take of a value that its channel holds is drawn with its worker's lane and that channel's bank alone: the task
/// goes on with the value, and the channel is without it.
pub fn takes_are_drawn<A: Agent>()
    ensures { (w n t p : ℕ) (v : Tree) (vs : List Tree) (l : LaneView (TaskAgent A)) (a : TaskAgent A) (paused went : A) (at : Place) (b : BankView) (kept : Kept) → w < n → l.task ≡ Some (t, a) → A.advances l.program a.agent paused → A.place paused ≡ at_op (record { op = taking (port p); place = at }) → A.gives paused v went → b.channels p ≡ Some kept → kept.channel.held ≡ v ∷ vs → Moves A.place A.advances A.gives A.starts (record { worker = w; workers = n; what = shown (done t 0 (take_of p) v); ports = []; looked = [] }) (record { workers = n; held = a_lane l } ∷ record { workers = n; held = a_bank b } ∷ []) (record { workers = n; held = a_lane (took t l a went) } ∷ record { workers = n; held = a_bank (given_up p kept b) } ∷ []) }
{}

/// Locality. Where the parts of a run stand for a state and an event moves the contents of the parts that it
/// touches, whatever is in the others, it is a step of the state, and the parts stand for the next one; a silent
/// event leaves the state as it is.
pub fn events_are_local<A: Agent>()
    ensures { (program : ProgramView) (n : ℕ) (d : Drawn) (now : ℕ → Option (Content (TaskAgent A))) (before after : List (Content (TaskAgent A))) (s : State) → RunStands A.place A.stands program n now s → AreAt now (touches d) before → Moves A.place A.advances A.gives A.starts d before after → (s2 : State) × Steps program s (visible d.what) s2 × RunStands A.place A.stands program n (contents_written now (touches d) after) s2 }
{}

/// A worker leaves a run because nothing can go on only where that is so: no task runs, no channel settles and
/// no deadline is open.
pub fn stalled_runs_are_quiet<A: Agent>()
    ensures { (program : ProgramView) (n : ℕ) (d : Drawn) (now : ℕ → Option (Content (TaskAgent A))) (before after : List (Content (TaskAgent A))) (s : State) → RunStands A.place A.stands program n now s → AreAt now (touches d) before → Moves A.place A.advances A.gives A.starts d before after → d.what ≡ stalls → IsQuiet s }
{}

/// Whatever any number of workers draw, in whatever order, from the opening parts of a program is a run of it: the
/// events that stand in a journal lead from the program's opening to the state that the parts then stand for.
pub fn histories_are_runs<A: Agent>()
    ensures { (program : ProgramView) (n : ℕ) (main : A) (body : TaskBody) (least faults : ℕ) (readings : Option (List ℕ)) (entries : List (Entry A)) (last : ℕ → Option (Content (TaskAgent A))) → 0 < n → BodyRest program (script (new_body program.main)) body → A.stands program main body → EntriesFollow A.place A.advances A.gives A.starts (opening_parts n program main (unasked least faults readings)) entries last → (s : State) × Reaches program (journal entries) s × RunStands A.place A.stands program n last s }
{}
