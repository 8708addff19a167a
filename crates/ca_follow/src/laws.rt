//! What holds of whoever holds all parts of a run. Each law is the contract of a function that does nothing: what it says is in
//! `specs/`.

ghost use Rattle.std.specs.Prelude.{◌≡◌, ◌<◌, ◌≤◌, ◌≢◌, ℕ, List, [], Option, Some, None, option_map};
ghost use Rattle.ca_value.specs.Deadlines.{due};
ghost use Rattle.ca_value.specs.Tree.{Tree};
ghost use Rattle.ca_value.specs.declared.value.PortId.{PortId};
ghost use Rattle.ca_term.specs.declared.event.Ending.TheVariants.{Ended, Faulted};
ghost use Rattle.ca_term.specs.declared.event.Side.{Side};
ghost use Rattle.ca_term.specs.declared.fault.Fault.{Fault};
ghost use Rattle.ca_term.specs.declared.place.Place.{Place};
ghost use Rattle.ca_term.specs.Event.{EventView, over, port_number, settled, ticked};
ghost use Rattle.ca_term.specs.Operation.{OpView};
ghost use Rattle.ca_term.specs.Program.{ProgramView};
ghost use Rattle.ca_meaning.specs.Body.{ended, faulted};
ghost use Rattle.ca_meaning.specs.Choice.{branches_of};
ghost use Rattle.ca_meaning.specs.State.{State};
ghost use Rattle.ca_meaning.specs.Steps.{Step};
ghost use Rattle.ca_meaning.specs.TaskSteps.{moments};
ghost use Rattle.ca_bank.specs.Kept.{pruned};
ghost use Rattle.ca_commit.specs.Agents.{TaskAgent};
ghost use Rattle.ca_commit.specs.Applying.{BankChannels, IsEvent, event_of};
ghost use Rattle.ca_commit.specs.Contents.{whole};
ghost use Rattle.ca_commit.specs.Deciding.{IsStale, PlanTells, seen_in};
ghost use Rattle.ca_commit.specs.Finding.{glance, rests_on_stale, rests_on_unheld, settle_at};
ghost use Rattle.ca_commit.specs.Listing.{changed_at};
ghost use Rattle.ca_commit.specs.NewPort.{Times};
ghost use Rattle.ca_commit.specs.Planning.{Planned, planned, to_look, to_prune, to_refuse};
ghost use Rattle.ca_commit.specs.Settling.{value_settled};
ghost use Rattle.ca_follow.specs.Applies.{Applies};
ghost use Rattle.ca_follow.specs.Ending.{IsTaskFault, TicksOnly, ticked_by, without_task};
ghost use Rattle.ca_follow.specs.Events.{AreNew, Numbers, event_start, task_of};
ghost use Rattle.ca_follow.specs.Follows.{Follows, IsAt, IsFollowedAtOp};
ghost use Rattle.ca_follow.specs.Has.{AreAll, Has, IsAll, parts_had};
ghost use Rattle.ca_follow.specs.Pruning.{queued_at, queued_in};
ghost use Rattle.ca_follow.specs.Settles.{ServesOnly, SettlesTo};

use ca_agent::agent::Agent;

/// A step of a state that is followed is what is made. Its task can go on; where that stands at an operation, the operation's
/// plan, with the step's first branch and numbers, makes this very event, and the numbers are new; where the plan refuses, or
/// the body has a value or faults, it is that end. A channel that settles serves so, and the clock closes what is due.
pub fn allowed_events_are_made<A: Agent>()
    ensures running { (program : ProgramView) (h : Has A) (s s2 : State) (e : EventView) (t : ℕ) → Follows A.place A.stands program h s → Step program s e s2 → task_of e ≡ Some t → (a : TaskAgent A) × (h.running t ≡ Some a) }
    ensures made { (program : ProgramView) (h : Has A) (s s2 : State) (e : EventView) (t u p w m : ℕ) (a : TaskAgent A) (op : OpView) (at : Place) (q : Planned) → IsFollowedAtOp A.place A.stands program h s t a op at → q ≡ planned (seen_in (parts_had h)) op (event_start e) → IsEvent q → Step program s e s2 → task_of e ≡ Some t → Numbers e u p w m → event_of h.bank h.registry t u p w m q ≡ e }
    ensures new { (program : ProgramView) (h : Has A) (s s2 : State) (e : EventView) (t u p w m : ℕ) (q : Planned) → Follows A.place A.stands program h s → Step program s e s2 → event_of h.bank h.registry t u p w m q ≡ e → AreNew h q u p w m }
    ensures refused { (program : ProgramView) (h : Has A) (s s2 : State) (e : EventView) (t start : ℕ) (a : TaskAgent A) (op : OpView) (at : Place) (f : Fault) → IsFollowedAtOp A.place A.stands program h s t a op at → to_refuse f ≡ planned (seen_in (parts_had h)) op start → Step program s e s2 → task_of e ≡ Some t → IsTaskFault e t f at a.result }
    ensures ended { (program : ProgramView) (h : Has A) (s s2 : State) (e : EventView) (t : ℕ) (a : TaskAgent A) (v : Tree) → IsAt A.place A.stands program h s t a → A.place a.agent ≡ ended v → Step program s e s2 → task_of e ≡ Some t → e ≡ over t Ended }
    ensures faulted { (program : ProgramView) (h : Has A) (s s2 : State) (e : EventView) (t : ℕ) (a : TaskAgent A) (f : Fault) (at : Place) → IsAt A.place A.stands program h s t a → A.place a.agent ≡ faulted f at → Step program s e s2 → task_of e ≡ Some t → IsTaskFault e t f at a.result }
    ensures settled { (program : ProgramView) (h : Has A) (s s2 : State) (w k p : ℕ) (side : Side) (v : Tree) → Follows A.place A.stands program h s → IsAll h → Step program s (settled w k side p v) s2 → ServesOnly w k side v (whole h.bank p) (settle_at (glance h.shard) (whole h.bank p)) }
    ensures ticked { (program : ProgramView) (h : Has A) (s s2 : State) (m : ℕ) (ports : List ℕ) → Follows A.place A.stands program h s → Step program s (ticked m ports) s2 → TicksOnly m ports h.times }
{}

/// What is made is a step of the state that was followed, and what is then there follows the state to which that leads: the
/// event of a plan, the end of a task, a channel that settles, a tick of the clock.
pub fn made_events_are_steps<A: Agent>()
    ensures applied { (program : ProgramView) (h h2 : Has A) (s : State) (op : OpView) (at : Place) (start : ℕ) (q : Planned) (t u p w m : ℕ) (a : TaskAgent A) → IsFollowedAtOp A.place A.stands program h s t a op at → q ≡ planned (seen_in (parts_had h)) op start → IsEvent q → AreNew h q u p w m → Applies A.place A.gives A.starts program op q t u p w m a h h2 → (s2 : State) × Step program s (event_of h.bank h.registry t u p w m q) s2 × Follows A.place A.stands program h2 s2 }
    ensures ended { (program : ProgramView) (h : Has A) (s : State) (t : ℕ) (a : TaskAgent A) (v : Tree) → Follows A.place A.stands program h s → IsAt A.place A.stands program h s t a → A.place a.agent ≡ ended v → (s2 : State) × Step program s (over t Ended) s2 × Follows A.place A.stands program (without_task h t None) s2 }
    ensures faulted { (program : ProgramView) (h : Has A) (s : State) (t : ℕ) (a : TaskAgent A) (f : Fault) (at : Place) (r : Option PortId) → Follows A.place A.stands program h s → IsAll h → IsAt A.place A.stands program h s t a → option_map port_number r ≡ a.result → A.place a.agent ≡ faulted f at → (s2 : State) × Step program s (over t (Faulted f at r)) s2 × Follows A.place A.stands program (without_task h t a.result) s2 }
    ensures refused { (program : ProgramView) (h : Has A) (s : State) (t : ℕ) (a : TaskAgent A) (op : OpView) (f : Fault) (at : Place) (r : Option PortId) → IsFollowedAtOp A.place A.stands program h s t a op at → option_map port_number r ≡ a.result → PlanTells (parts_had h) op (to_refuse f) → (s2 : State) × Step program s (over t (Faulted f at r)) s2 × Follows A.place A.stands program (without_task h t a.result) s2 }
    ensures settled { (program : ProgramView) (h h2 : Has A) (s : State) (p : ℕ) (side : Side) (w o : ℕ) → Follows A.place A.stands program h s → SettlesTo A.place A.gives p side w o h h2 → (s2 : State) × Step program s (settled w o side p (value_settled side (whole h.bank p))) s2 × Follows A.place A.stands program h2 s2 }
    ensures ticked { (program : ProgramView) (h : Has A) (s : State) (m : ℕ) (ports : List ℕ) (c : Times) → Follows A.place A.stands program h s → IsAll h → h.times ≡ Some c → c.now ≤ m → m < moments → due m c.deadlines ≡ ports → ports ≢ [] → (s2 : State) × Step program s (ticked m ports) s2 × Follows A.place A.stands program (ticked_by m ports h) s2 }
{}

/// An operation, and a channel that may settle, come to an event, a refusal or to rest: nothing waits for a look, and a stale
/// handler that is taken away changes no state and leaves fewer at the channels in question.
pub fn pruning_ends<A: Agent>()
    ensures looks { (h : Has A) (op : OpView) (start w : ℕ) → AreAll h.shard → to_look w ≢ planned (seen_in (parts_had h)) op start }
    ensures settling_looks { (h : Has A) (p w : ℕ) → AreAll h.shard → settle_at (glance h.shard) (whole h.bank p) ≢ rests_on_unheld w }
    ensures pruned { (program : ProgramView) (h : Has A) (s : State) (p : ℕ) (side : Side) (place : ℕ) → IsStale (parts_had h) p side place → Follows A.place A.stands program h s → Follows A.place A.stands program (record h { bank = changed_at p (option_map (pruned side place)) h.bank }) s }
    ensures fewer { (h : Has A) (op : OpView) (start p place : ℕ) (side : Side) (new : BankChannels) → to_prune p side place ≡ planned (seen_in (parts_had h)) op start → ((i : ℕ) → new i ≡ changed_at p (option_map (pruned side place)) h.bank i) → queued_in (branches_of op) new < queued_in (branches_of op) h.bank }
    ensures settling_fewer { (h : Has A) (p : ℕ) (side : Side) (new : BankChannels) → settle_at (glance h.shard) (whole h.bank p) ≡ rests_on_stale side → ((i : ℕ) → new i ≡ changed_at p (option_map (pruned side 0)) h.bank i) → queued_at (whole new p) < queued_at (whole h.bank p) }
{}
