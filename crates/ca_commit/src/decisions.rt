ghost use Rattle.std.specs.Prelude.{◌≡◌, ℕ};
ghost use Rattle.ca_term.specs.declared.event.Side.{Side};
ghost use Rattle.ca_term.specs.declared.fault.Fault.{Fault};
ghost use Rattle.ca_term.specs.Operation.{OpView};
ghost use Rattle.ca_commit.specs.Contents.{Parts, whole};
ghost use Rattle.ca_commit.specs.Deciding.{AreOperandsRefused, PlanTells, RestsOnStale, RestsOnUnseen, seen_in};
ghost use Rattle.ca_commit.specs.Moves.{UnfitIn};
ghost use Rattle.ca_commit.specs.Finding.{glance, rests_on_stale, rests_on_unheld, settle_at};
ghost use Rattle.ca_commit.specs.Applying.{KeepsApart};
ghost use Rattle.ca_commit.specs.Planning.{Seen, planned, state_of};
ghost use Rattle.ca_commit.specs.Registering.{AreApart};
ghost use Rattle.ca_commit.specs.AltsPlans.{AltsDone, AltsMeets, AltsStale};
ghost use Rattle.ca_commit.specs.Agents.{TaskAgent, advances_of, gives_of, place_of};
ghost use Rattle.ca_commit.specs.Drawings.{DoneMoves, MeetMoves};
ghost use Rattle.ca_commit.specs.EventMoves.{CloseMoves, DefaultMoves, MakeMoves, ParkMoves, PostMoves, PrintMoves, PruneMoves, RegisterMoves, ResultCloses, SettleMoves, SpawnMoves, TickMoves};
ghost use Rattle.ca_commit.specs.PlanMoves.{PlanMoves};
ghost use Rattle.ca_commit.specs.Ending.{EndMoves, FaultMoves, RefusedMoves};
ghost use Rattle.ca_commit.specs.Naming.{NamesHeld};
ghost use Rattle.ca_commit.specs.JustPlain.{PlainJust};
ghost use Rattle.ca_commit.specs.PlacesApplied.{DoneApplies, MeetApplies, ParkApplies, PostApplies};
ghost use Rattle.ca_commit.specs.PlacesSettled.{PruneApplies, SettleApplies, StaleServed};
ghost use Rattle.ca_commit.specs.PlainPlans.{PlainDone, PlainMeets, PlainStale, PlainWaits};

use ca_agent::agent::Agent;

/// What is planned over held parts is right by them, and its operands are: of a branch that is done or meets a wait,
/// that with priority none before it is ready, and its row with all that it asks; of a wait, a posted put and a default,
/// that no branch is ready, and of the first two that each queue has a place; of the other events, that the operation is
/// theirs, and of a registry that its table answers. Of a refusal, that the operands aren't right, or a wait would be one
/// too many. Of a stale handler, that it stands there and its wait is gone, and of a look, that the shard of that wait isn't
/// held; and of both that what becomes of the operation hangs on it: it stands in front of a queue, and the row of a branch
/// asks it, or no branch is ready and it is one of a long queue whose live waits are counted.
pub fn plans_tell<A>()
    ensures { (h : Parts A) (op : OpView) (start : ℕ) → PlanTells h op (planned (seen_in h) op start) }
{}

/// Where a stale handler stands in the way of what a channel settles, or one whose shard isn't held, it is in front of its
/// queue, and what the channel settles hangs on it.
pub fn settling_tells<A>()
    ensures stale { (h : Parts A) (p : ℕ) (side : Side) → settle_at (glance h.shard) (whole h.bank p) ≡ rests_on_stale side → RestsOnStale h p side }
    ensures unheld { (h : Parts A) (p w : ℕ) → settle_at (glance h.shard) (whole h.bank p) ≡ rests_on_unheld w → RestsOnUnseen h p w }
{}

/// Where the names that an operation brings are as `plan` wants them, those of what it becomes are as `reserve` and
/// `apply` do: a registering that isn't refused has channels as its keys.
pub fn plans_keep_apart()
    ensures { (x : Seen) (op : OpView) (start : ℕ) → AreApart (state_of x.ports x.registries) op → KeepsApart (planned x op start) }
{}

/// What the calls of an event promise, with what the plan tells, is how the event moves the parts, where the worker's
/// lane has the task with its answer, or is empty where the task waits.
pub fn calls_are_moves<A: Agent>()
    ensures done { DoneMoves (place_of A.place) (advances_of A.advances) (gives_of A.place A.gives) }
    ensures meet { MeetMoves A.place A.advances A.gives }
    ensures park { ParkMoves A.place A.advances }
    ensures post { PostMoves A.place A.advances A.gives }
    ensures default { DefaultMoves A.place A.advances A.gives }
    ensures close { CloseMoves A.place A.advances A.gives }
    ensures make { MakeMoves A.place A.advances A.gives }
    ensures spawn { SpawnMoves A.place A.advances A.gives A.starts }
    ensures register { RegisterMoves A.place A.advances A.gives }
    ensures print { PrintMoves A.place A.advances A.gives }
    ensures result { ResultCloses A.place A.advances }
    ensures settle { SettleMoves A.place A.gives }
    ensures tick { TickMoves (TaskAgent A) }
    ensures prune { PruneMoves (TaskAgent A) }
{}

/// So what the calls of a plan's event promise is how that event moves the parts, whichever it is.
pub fn plans_are_moves<A: Agent>()
    ensures { PlanMoves A.place A.advances A.gives A.starts }
{}

/// What is seen of a take or a put in its channel decides what it becomes over all that is held, from whichever branch one
/// begins: there is one.
pub fn plain_is_planned<A>()
    ensures done { PlainDone A }
    ensures meets { PlainMeets A }
    ensures stale { PlainStale A }
    ensures waits { PlainWaits A }
{}

/// So does what `choose` tells of an alts over the banks of its ports.
pub fn alts_is_planned<A>()
    ensures done { AltsDone A }
    ensures meets { AltsMeets A }
    ensures stale { AltsStale A }
{}

/// What the calls of `in_place` promise, over a bank that lies among the parts, is that the plan of the task's operation
/// was applied to all of them.
pub fn places_are_applied<A: Agent>()
    ensures done { DoneApplies A.place A.advances A.gives A.starts }
    ensures meet { MeetApplies A.place A.advances A.gives A.starts }
    ensures park { ParkApplies A.place A.advances A.gives A.starts }
    ensures post { PostApplies A.place A.advances A.gives A.starts }
{}

/// So are the calls of `settle_in_place`: a channel serves whoever waits in front, where that wait lives, or its stale handler
/// is pruned.
pub fn places_settle<A: Agent>()
    ensures settle { SettleApplies A.place A.gives }
    ensures stale { StaleServed A }
    ensures prune { PruneApplies A }
{}

/// A call of `in_place` for a take or a put is drawn over the bank of its channel alone, and over no shard but those of its own line.
pub fn plain_touch_just<A>()
    ensures { PlainJust A }
{}

/// Where the banks of all ports that an operation names are held, and refuse its operands, these are refused whatever is
/// in the other banks.
pub fn names_decide<A>()
    ensures { (h : Parts A) (op : OpView) (f : Fault) → NamesHeld h op → AreOperandsRefused h op f → UnfitIn h op f }
{}

/// What the end of a task promises, by a value, by a fault of its own, or at an operation that is refused, is how its
/// event moves the parts.
pub fn ends_are_moves<A: Agent>()
    ensures ended { EndMoves A.place A.advances A.gives A.starts }
    ensures faulted { FaultMoves A.place A.advances A.gives A.starts }
    ensures refused { RefusedMoves A.place A.advances A.gives A.starts }
{}
