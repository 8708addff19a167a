//! The event of a task that stands at an operation.
ghost use Rattle.std.specs.Prelude.{◌≡◌, ℕ, List, [], IfOk, IfSome, IsSome, OnOk, Some, false, nat_eq, option_map, true};
ghost use Rattle.indexmap.specs.IndexSet.{contains};
ghost use Rattle.ca_meaning.specs.BodyViews.{is_at_op};
ghost use Rattle.ca_term.specs.Event.{event_view};
ghost use Rattle.ca_term.specs.Program.{ProgramView};
ghost use Rattle.ca_meaning.specs.State.{State};
ghost use Rattle.ca_states.specs.ValidCode.{valid_code};
ghost use Rattle.ca_bank.specs.Kept.{pruned};
ghost use Rattle.ca_commit.specs.Agents.{TaskAgent};
ghost use Rattle.ca_commit.specs.Applying.{HasSpawned, IsEvent, IsMade, KeepsApart, event_of};
ghost use Rattle.ca_commit.specs.NewPort.{KeepsCounts};
ghost use Rattle.ca_commit.specs.Plans.{HasCopies, plan_view};
ghost use Rattle.ca_commit.specs.Deciding.{IsStale};
ghost use Rattle.ca_commit.specs.Listing.{changed_at};
ghost use Rattle.ca_commit.specs.Showing.{channels_held};
ghost use Rattle.ca_commit.specs.Tasks.{agent_of, task_view, tasks_in};
ghost use Rattle.ca_commit.specs.Waking.{ready_in};
ghost use Rattle.ca_tasks.specs.Tasks.{task_over_code, place};
ghost use Rattle.ca_follow.specs.Applies.{knows_all, knows_own, used_by, with_all, with_own};
ghost use Rattle.ca_follow.specs.Events.{AreNew, Numbers, event_start, task_of};
ghost use Rattle.ca_follow.specs.Has.{parts_had};
ghost use Rattle.ca_follow.specs.Follower.{AppliedFor, IsBehind, IsDecided, IsFollower, IsMadeFor, IsPlanOf, IsSpawnedTask, KeepsBehind, KnowsTask, LeadsBehind, RefusesBehind, FollowerStands, has, is_known_task, running_in};

use crate::follower::Follower;
use crate::reading::{agrees, give_numbers, start_of};
use crate::tasks::Tasks;
use ca_agent::agent::Agent;
use ca_agent::starting::Starting;
use ca_commit::applying::{apply, reserve};
use ca_commit::held::Applied;
use ca_commit::planned::Plan;
use ca_commit::planning::plan;
use ca_commit::pruning::prune_held;
use ca_commit::task::{Ready, Task};
use ca_registry::seed::result_of;
use ca_tasks::task::AnyTask;
use ca_term::event::{Event, Side};
use ca_term::operation::Op;
use ca_value::memory::OutOfMemory;
use ca_value::value::PortId;
use indexmap::IndexSet;
use std::alloc::Global;

impl Follower<'_> {
    /// Makes the event of the task, which was taken out and stands at an operation, and tells whether it is the journal's.
    pub(crate) fn operate(
        &mut self,
        alloc: Global,
        task: Task<AnyTask>,
        event: &Event,
    ) -> Result<bool, OutOfMemory>
        requires follower { IsFollower self.old }
        requires at { is_at_op (place task.agent) ≡ true }
        requires over { task_over_code (valid_code self.old.code.now) task.agent }
        requires mine { task_of (event_view event.now) ≡ Some task.number }
        requires behind { (program : ProgramView) × (s : State) × IsMadeFor program (valid_code self.old.code.now) × IsBehind program (has self.old) task.number (agent_of task) s }
        ensures allowed { IfOk result (λ b. b ≡ true → LeadsBehind (valid_code self.old.code.now) (event_view event.now) (has self.old) task.number (agent_of task) (has self.new)) }
        ensures refused { IfOk result (λ b. b ≡ false → RefusesBehind (valid_code self.old.code.now) (event_view event.now) (has self.old) task.number (agent_of task)) }
        ensures follower { IfOk result (λ b. b ≡ true → IsFollower self.new) }
        ensures code { self.new.code ≡ self.old.code }
    {
        match self.settled_plan(alloc, &task, start_of(event))? {
            Plan::Refused(fault) => {
                let place = task.agent.want().place;
                Ok(self.fault(&task, fault, place, event))
            }
            plan => self.make(alloc, task, plan, event),
        }
    }

    // What the task's operation becomes, once no stale handler stands in its way.
    fn settled_plan(
        &mut self,
        alloc: Global,
        task: &Task<AnyTask>,
        start: u64,
    ) -> Result<Plan, OutOfMemory>
        requires follower { IsFollower self.old }
        requires at { is_at_op (place task.now.agent) ≡ true }
        requires behind { (program : ProgramView) × (s : State) × IsMadeFor program (valid_code self.old.code.now) × IsBehind program (has self.old) task.now.number (agent_of task.now) s }
        ensures plan { IfOk result (λ p. IsPlanOf (has self.new) (agent_of task.now) start (plan_view p)) }
        ensures copies { IfOk result HasCopies }
        ensures decided { IfOk result (λ p. IsDecided (plan_view p)) }
        ensures behind { OnOk result (KeepsBehind (has self.old) (has self.new) task.now.number (agent_of task.now)) }
        ensures follower { OnOk result (IsFollower self.new) }
        ensures code { self.new.code ≡ self.old.code }
        ensures tasks { self.new.tasks ≡ self.old.tasks }
        ensures waits { self.new.waits ≡ self.old.waits }
    {
        let mut planned = self.planned(alloc, task, start)?;
        while let Plan::Prune(port, side, place) = planned {
            self.prune(port, side, place);
            planned = self.planned(alloc, task, start)?;
        }
        Ok(planned)
    }

    // What the task's operation becomes over all that is held.
    fn planned(&self, alloc: Global, task: &Task<AnyTask>, start: u64) -> Result<Plan, OutOfMemory>
        requires at { is_at_op (place task.now.agent) ≡ true }
        requires behind { (program : ProgramView) × (s : State) × IsMadeFor program (valid_code self.now.code.now) × IsBehind program (has self.now) task.now.number (agent_of task.now) s }
        ensures plan { IfOk result (λ p. IsPlanOf (has self.now) (agent_of task.now) start (plan_view p)) }
        ensures copies { IfOk result HasCopies }
    {
        plan(alloc, &self.held, task.agent.want(), start)
    }

    // The stale handler leaves its queue, which is no event.
    pub(crate) fn prune(&mut self, port: PortId, side: Side, place: u64)
        requires follower { IsFollower self.old }
        requires stale { IsStale (parts_had (has self.old)) port.n side place }
        ensures follower { IsFollower self.new }
        ensures keeps { (t : ℕ) (a : TaskAgent AnyTask) → KeepsBehind (has self.old) (has self.new) t a }
        ensures stands { (program : ProgramView) (s : State) → FollowerStands program (has self.old) s → FollowerStands program (has self.new) s }
        ensures channels { (i : ℕ) → channels_held self.new.held.banks i ≡ changed_at port.n (option_map (pruned side place)) (channels_held self.old.held.banks) i }
        ensures code { self.new.code ≡ self.old.code }
        ensures tasks { self.new.tasks ≡ self.old.tasks }
        ensures waits { self.new.waits ≡ self.old.waits }
    {
        let _ = prune_held(&mut self.held, port, side, place);
    }

    // Makes the plan's event with the journal's numbers, and tells whether it is the journal's.
    fn make(
        &mut self,
        alloc: Global,
        task: Task<AnyTask>,
        plan: Plan,
        event: &Event,
    ) -> Result<bool, OutOfMemory>
        requires follower { IsFollower self.old }
        requires over { task_over_code (valid_code self.old.code.now) task.agent }
        requires plan { IsPlanOf (has self.old) (agent_of task) (event_start (event_view event.now)) (plan_view plan) }
        requires event { IsEvent (plan_view plan) }
        requires copies { HasCopies plan }
        requires mine { task_of (event_view event.now) ≡ Some task.number }
        requires behind { (program : ProgramView) × (s : State) × IsMadeFor program (valid_code self.old.code.now) × IsBehind program (has self.old) task.number (agent_of task) s }
        ensures allowed { IfOk result (λ b. b ≡ true → LeadsBehind (valid_code self.old.code.now) (event_view event.now) (has self.old) task.number (agent_of task) (has self.new)) }
        ensures refused { IfOk result (λ b. b ≡ false → RefusesBehind (valid_code self.old.code.now) (event_view event.now) (has self.old) task.number (agent_of task)) }
        ensures follower { IfOk result (λ b. b ≡ true → IsFollower self.new) }
        ensures code { self.new.code ≡ self.old.code }
    {
        self.take_numbers(event);
        if !self.are_new(&plan) {
            return Ok(false);
        }
        let made = self.applied(alloc, task, plan)?;
        Ok(agrees(made, event))
    }

    // The next event has the numbers of the journal's.
    fn take_numbers(&mut self, event: &Event)
        requires follower { IsFollower self.old }
        ensures numbers { let h = self.new.held in Numbers (event_view event.now) h.new_task h.new_port h.new_wait h.moment }
        ensures same { has self.new ≡ has self.old }
        ensures follower { IsFollower self.new }
        ensures code { self.new.code ≡ self.old.code }
    {
        give_numbers(&mut self.held, event);
    }

    // The plan's event, with the numbers that are held.
    fn applied(
        &mut self,
        alloc: Global,
        task: Task<AnyTask>,
        plan: Plan,
    ) -> Result<Event, OutOfMemory>
        requires follower { IsFollower self.old }
        requires over { task_over_code (valid_code self.old.code.now) task.agent }
        requires plan { (start : ℕ) × IsPlanOf (has self.old) (agent_of task) start (plan_view plan) }
        requires event { IsEvent (plan_view plan) }
        requires copies { HasCopies plan }
        requires new { AreNew (has self.old) (plan_view plan) self.old.held.new_task self.old.held.new_port self.old.held.new_wait self.old.held.moment }
        requires apart { KeepsApart (plan_view plan) }
        requires known { KnowsTask (has self.old) task.number }
        ensures event { let h = has self.old in IfOk result (λ e. event_view e ≡ event_of h.bank h.registry task.number self.old.held.new_task self.old.held.new_port self.old.held.new_wait self.old.held.moment (plan_view plan)) }
        ensures applies { OnOk result (AppliedFor (valid_code self.old.code.now) (plan_view plan) task.number self.old.held (agent_of task) (has self.old) (has self.new)) }
        ensures follower { OnOk result (IsFollower self.new) }
        ensures code { self.new.code ≡ self.old.code }
    {
        let plain = Task { alts: 0, ..task };
        self.reserved(alloc, &plan)?;
        let spawned = self.spawned(alloc, &plain, &plan)?;
        self.go(alloc, plain, plan, spawned)
    }

    // All that the plan's event needs is made.
    fn reserved(&mut self, alloc: Global, plan: &Plan) -> Result<(), OutOfMemory>
        requires follower { IsFollower self.old }
        requires apart { KeepsApart (plan_view plan.now) }
        ensures same { OnOk result (has self.new ≡ has self.old) }
        ensures follower { OnOk result (IsFollower self.new) }
        ensures counts { OnOk result (KeepsCounts self.old.held self.new.held) }
        ensures made { OnOk result (IsMade place self.new.held plan.now) }
        ensures code { self.new.code ≡ self.old.code }
    {
        reserve(alloc, &mut self.held, plan)
    }

    // The plan's event, for which all that it needs is made.
    fn go(
        &mut self,
        alloc: Global,
        task: Task<AnyTask>,
        plan: Plan,
        spawned: Option<Task<AnyTask>>,
    ) -> Result<Event, OutOfMemory>
        requires follower { IsFollower self.old }
        requires over { task_over_code (valid_code self.old.code.now) task.agent }
        requires none { task.alts ≡ 0 }
        requires plan { (start : ℕ) × IsPlanOf (has self.old) (agent_of task) start (plan_view plan) }
        requires event { IsEvent (plan_view plan) }
        requires copies { HasCopies plan }
        requires new { AreNew (has self.old) (plan_view plan) self.old.held.new_task self.old.held.new_port self.old.held.new_wait self.old.held.moment }
        requires apart { KeepsApart (plan_view plan) }
        requires known { KnowsTask (has self.old) task.number }
        requires made { IsMade place self.old.held plan }
        requires spawned { HasSpawned spawned (plan_view plan) }
        requires starts { IfSome spawned (λ t. IsSpawnedTask (valid_code self.old.code.now) (agent_of task) self.old.held.new_task t) }
        ensures event { let h = has self.old in IfOk result (λ e. event_view e ≡ event_of h.bank h.registry task.number self.old.held.new_task self.old.held.new_port self.old.held.new_wait self.old.held.moment (plan_view plan)) }
        ensures applies { OnOk result (AppliedFor (valid_code self.old.code.now) (plan_view plan) task.number self.old.held (agent_of task) (has self.old) (has self.new)) }
        ensures follower { OnOk result (IsFollower self.new) }
        ensures code { self.new.code ≡ self.old.code }
    {
        note_wait(&mut self.waits, self.held.new_wait, &plan)?;
        let Applied { event, running } = apply(alloc, &mut self.held, plan, task, spawned);
        take_running(&mut self.tasks, &mut self.held.ready, running)?;
        Ok(event)
    }

    // The new task of a spawn. Each seed at which a task over the code stands is of a task that the code has.
    fn spawned(
        &self,
        alloc: Global,
        task: &Task<AnyTask>,
        plan: &Plan,
    ) -> Result<Option<Task<AnyTask>>, OutOfMemory>
        requires at { is_at_op (place task.now.agent) ≡ true }
        requires over { task_over_code (valid_code self.now.code.now) task.now.agent }
        requires plan { (start : ℕ) × IsPlanOf (has self.now) (agent_of task.now) start (plan_view plan.now) }
        ensures there { IfOk result (λ o. HasSpawned o (plan_view plan.now)) }
        ensures starts { IfOk result (λ o. IfSome o (λ t. IsSpawnedTask (valid_code self.now.code.now) (agent_of task.now) self.now.held.new_task t)) }
    {
        let (Plan::Spawn(_, _), Op::Spawn(seed)) = (plan, &task.agent.want().op) else {
            return Ok(None);
        };
        match AnyTask::start(alloc, self.code, seed)? {
            Some(agent) => Ok(Some(Task {
                number: self.held.new_task,
                result: result_of(seed),
                alts: 0,
                agent,
            })),
            None => unreachable!(),
        }
    }

    /// Who stands in the ready part can go on, and stands there no more.
    pub(crate) fn take_ready(&mut self) -> Result<(), OutOfMemory>
        ensures ready { OnOk result (IsSome self.old.held.ready → ready_in self.new.held.ready ≡ Some []) }
        ensures running { OnOk result ((q : List (ℕ × TaskAgent AnyTask)) → ready_in self.old.held.ready ≡ Some q → (t : ℕ) → running_in self.new.tasks t ≡ with_all q (running_in self.old.tasks) t) }
        ensures known { OnOk result ((q : List (ℕ × TaskAgent AnyTask)) → ready_in self.old.held.ready ≡ Some q → (t : ℕ) → is_known_task self.new.tasks t ≡ knows_all q (is_known_task self.old.tasks) t) }
        ensures banks { self.new.held.banks ≡ self.old.held.banks }
        ensures shards { self.new.held.shards ≡ self.old.held.shards }
        ensures timers { self.new.held.timers ≡ self.old.held.timers }
        ensures waits { self.new.waits ≡ self.old.waits }
        ensures code { self.new.code ≡ self.old.code }
    {
        take_all(&mut self.tasks, &mut self.held.ready)
    }
}

// The number of a new wait is noted.
fn note_wait(waits: &mut IndexSet<u64>, number: u64, plan: &Plan) -> Result<(), OutOfMemory>
    ensures { OnOk result ((w : ℕ) → contains nat_eq waits.new w ≡ used_by number (plan_view plan.now) (λ v. contains nat_eq waits.old v) w) }
{
    if let Plan::Park(_) | Plan::Post(_) = plan {
        waits.insert(number)?;
    }
    Ok(())
}

// The task, if it doesn't wait, and who stands in the ready part can go on.
fn take_running(
    tasks: &mut Tasks,
    ready: &mut Option<Ready<AnyTask>>,
    running: Option<Task<AnyTask>>,
) -> Result<(), OutOfMemory>
    ensures ready { OnOk result (IsSome ready.old → ready_in ready.new ≡ Some []) }
    ensures running { OnOk result ((q : List (ℕ × TaskAgent AnyTask)) → ready_in ready.old ≡ Some q → (t : ℕ) → running_in tasks.new t ≡ with_all q (with_own (option_map task_view running) (running_in tasks.old)) t) }
    ensures known { OnOk result ((q : List (ℕ × TaskAgent AnyTask)) → ready_in ready.old ≡ Some q → (t : ℕ) → is_known_task tasks.new t ≡ knows_all q (knows_own (option_map task_view running) (is_known_task tasks.old)) t) }
{
    match running {
        Some(task) => {
            tasks.put(task)?;
            take_all(tasks, ready)
        }
        None => take_all(tasks, ready),
    }
}

// Who stands in the ready part can go on, and stands there no more.
fn take_all(tasks: &mut Tasks, ready: &mut Option<Ready<AnyTask>>) -> Result<(), OutOfMemory>
    ensures ready { OnOk result (IsSome ready.old → ready_in ready.new ≡ Some []) }
    ensures running { OnOk result ((q : List (ℕ × TaskAgent AnyTask)) → ready_in ready.old ≡ Some q → (t : ℕ) → running_in tasks.new t ≡ with_all q (running_in tasks.old) t) }
    ensures known { OnOk result ((q : List (ℕ × TaskAgent AnyTask)) → ready_in ready.old ≡ Some q → (t : ℕ) → is_known_task tasks.new t ≡ knows_all q (is_known_task tasks.old) t) }
{
    if let Some(ready) = ready {
        put_all(tasks, ready)?;
    }
    Ok(())
}

// All of these tasks can go on, in their order.
fn put_all(tasks: &mut Tasks, ready: &mut Ready<AnyTask>) -> Result<(), OutOfMemory>
    ensures ready { OnOk result (tasks_in ready.new ≡ []) }
    ensures running { OnOk result ((t : ℕ) → running_in tasks.new t ≡ with_all (tasks_in ready.old) (running_in tasks.old) t) }
    ensures known { OnOk result ((t : ℕ) → is_known_task tasks.new t ≡ knows_all (tasks_in ready.old) (is_known_task tasks.old) t) }
{
    while let Some(task) = ready.pop() {
        tasks.put(task)?;
    }
    Ok(())
}
