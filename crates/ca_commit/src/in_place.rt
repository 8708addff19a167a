//! Events of an operation with branches, made where the parts lie, so that a worker moves nothing out of its hand and back.
//! Each call begins with all that can be refused, and then takes no memory: what it did is its event, or nothing was done.

ghost use Rattle.std.specs.Prelude.{◌≡◌, ◌<◌, ℕ, IfOk, None, OnErr, OnOk, Some, is_some, option_map, true};
ghost use Rattle.ca_value.specs.Tree.{bool};
ghost use Rattle.ca_value.specs.View.{view};
ghost use Rattle.ca_term.specs.Event.{branch_view};
ghost use Rattle.ca_meaning.specs.ChannelSteps.{other_side};
ghost use Rattle.ca_meaning.specs.Wait.{brought, head, port_of, side_of, told};
ghost use Rattle.ca_bank.specs.Bank.{kept_at, spares_at};
ghost use Rattle.ca_bank.specs.Kept.{enqueued, pruned, queue_spare};
ghost use Rattle.ca_bank.specs.Shard.{belongs, shard_count, shard_number, shard_spare};
ghost use Rattle.ca_commit.specs.Branching.{branch_by};
ghost use Rattle.ca_commit.specs.Contents.{home, nobody, owner};
ghost use Rattle.ca_commit.specs.Finding.{Glance, alone, find_at, held_at};
ghost use Rattle.ca_commit.specs.InPlace.{GoesOnAnswered, CanCountAlts, GoesWithAnswer, IsBranchDone, IsTaskAtOne, BankRests, RestsIn, Sets, Turns, BranchWakes, task_branch};
ghost use Rattle.ca_commit.specs.Parking.{waiting_as};
ghost use Rattle.ca_commit.specs.Replies.{HasDoneRoom, done_answer, done_change, or_nil};
ghost use Rattle.ca_commit.specs.Showing.{bank_in, shard_in, waits_of};
ghost use Rattle.ca_commit.specs.Standing.{IsAtBranch, IsAtOne, branch_no};
ghost use Rattle.ca_commit.specs.Tasks.{agent_of, tasks_in};
ghost use Rattle.ca_commit.specs.Waking.{IsPaused, passing};

use crate::doing::port_in;
use crate::held::{HeldBank, HeldShard};
use crate::meeting::{front_value, opposite, partner_in, side_in, told};
use crate::parking::{handler_of, waiting};
use crate::replying::{answer_task, reply};
use crate::sight::Partner;
use crate::standing::{branch_of, copy_of, is_alts};
use crate::task::{Ready, Task};
use crate::waiting::{put_wait, take_wait, wake_in};
use ca_agent::agent::Agent;
use ca_bank::bank::Bank;
use ca_bank::shard::{Parked, Shard};
use ca_buffers::buffer::Buffer;
use ca_term::event::{Branch, WaitId};
use ca_value::memory::OutOfMemory;
use ca_value::value::{PortId, Value};
use std::alloc::Global;

/// The branch of that number of the operation at which the task stands is done at once. It gives the branch and its
/// answer, for the event. Where memory is refused nothing but room is changed.
pub fn do_branch<A: Agent>(
    alloc: Global,
    held: &mut HeldBank,
    task: &mut Task<A>,
    number: u64,
) -> Result<(Branch, Value), OutOfMemory>
    requires at { IsAtBranch (A.place task.old.agent) number }
    requires count { CanCountAlts A.place task.old }
    requires alone { let b = branch_no (A.place task.old.agent) number in (see : ℕ → Glance) → alone ≡ find_at see (bank_in held.old (port_of b)) b }
    ensures branch { IfOk result (λ r. branch_view r.0 ≡ branch_no (A.place task.old.agent) number) }
    ensures answer { let b = branch_no (A.place task.old.agent) number in IfOk result (λ r. view r.1 ≡ done_answer (bank_in held.old (port_of b)) b) }
    ensures done { OnOk result (IsBranchDone A.place A.gives number held.old.bank.value held.new.bank.value task.old task.new) }
    ensures refused { OnErr result (BankRests held.old.bank.value held.new.bank.value × (task.new ≡ task.old)) }
    ensures same { held.new.number ≡ held.old.number }
{
    do_in_bank(alloc, &mut held.bank, task, number)
}

/// That branch meets its partner, which stands in front of the other side and lives: the value passes, and both go on.
/// It gives the value, for the event. Where memory is refused nothing but room is changed.
pub fn meet<A: Agent>(
    alloc: Global,
    held: &mut HeldBank,
    waits: &mut HeldShard<A>,
    ready: &mut Ready<A>,
    task: &mut Task<A>,
    number: u64,
    partner: Partner,
) -> Result<Value, OutOfMemory>
    requires at { IsAtBranch (A.place task.old.agent) number }
    requires count { CanCountAlts A.place task.old }
    requires paused { IsPaused A.place (shard_in waits.old partner.wait.n) }
    ensures value { let b = branch_no (A.place task.old.agent) number in IfOk result (λ v. view v ≡ passing (bank_in held.old (port_of b)) b) }
    ensures channel { let b = branch_no (A.place task.old.agent) number in OnOk result (Turns (port_of b) (pruned (other_side (side_of b)) 0) held.old.bank.value held.new.bank.value) }
    ensures wait { OnOk result (Sets partner.wait.n None waits.old.shard.value waits.new.shard.value) }
    ensures wakes { let b = branch_no (A.place task.old.agent) number in OnOk result (BranchWakes A.place A.gives b partner.wait.n held.old.bank.value waits.old.shard.value ready.old ready.new) }
    ensures task { let b = branch_no (A.place task.old.agent) number in OnOk result (GoesOnAnswered A.place A.gives (port_of b) (told (side_of b) (passing (bank_in held.old (port_of b)) b)) task.old task.new) }
    ensures refused { OnErr result ((held.new.bank.value ≡ held.old.bank.value) × (waits.new.shard.value ≡ waits.old.shard.value) × (tasks_in ready.new ≡ tasks_in ready.old) × (task.new ≡ task.old)) }
    ensures same { (held.new.number ≡ held.old.number) × (waits.new.number ≡ waits.old.number) }
{
    meet_in(
        alloc,
        &mut held.bank,
        &mut waits.shard,
        ready,
        task,
        number,
        partner,
    )
}

/// The task of the slot waits on the new wait by its one branch, which stands last in its queue then. It gives the branch,
/// for the event. Where memory is refused nothing but room is changed.
pub fn park<A: Agent>(
    alloc: Global,
    held: &mut HeldBank,
    waits: &mut HeldShard<A>,
    slot: &mut Option<Task<A>>,
    wait: WaitId,
) -> Result<Branch, OutOfMemory>
    requires at { IsTaskAtOne A.place slot.old }
    requires channel { is_some (bank_in held.old (port_of (task_branch A.place slot.old))) ≡ true }
    requires home { waits.old.number ≡ home wait.n }
    ensures branch { IfOk result (λ b. branch_view b ≡ task_branch A.place slot.old) }
    ensures channel { let b = task_branch A.place slot.old in OnOk result (Turns (port_of b) (enqueued (side_of b) (record { wait = wait.n; branch = 0; value = brought b })) held.old.bank.value held.new.bank.value) }
    ensures wait { OnOk result (Sets wait.n (option_map (λ t. owner t.number (waiting_as A.place (agent_of t))) slot.old) waits.old.shard.value waits.new.shard.value) }
    ensures task { OnOk result (slot.new ≡ None) }
    ensures refused { OnErr result (BankRests held.old.bank.value held.new.bank.value × RestsIn waits.old.shard.value waits.new.shard.value × (slot.new ≡ slot.old)) }
    ensures same { (held.new.number ≡ held.old.number) × (waits.new.number ≡ waits.old.number) }
{
    park_in(alloc, &mut held.bank, &mut waits.shard, slot, wait)
}

/// The put at which the task stands, a posted one, waits on the new wait without its task, which gets true. It gives the
/// branch, for the event. Where memory is refused nothing but room is changed.
pub fn post<A: Agent>(
    alloc: Global,
    held: &mut HeldBank,
    waits: &mut HeldShard<A>,
    task: &mut Task<A>,
    wait: WaitId,
) -> Result<Branch, OutOfMemory>
    requires at { IsAtOne (A.place task.old.agent) }
    requires channel { is_some (bank_in held.old (port_of (branch_no (A.place task.old.agent) 0))) ≡ true }
    requires home { waits.old.number ≡ home wait.n }
    ensures branch { IfOk result (λ b. branch_view b ≡ branch_no (A.place task.old.agent) 0) }
    ensures channel { let b = branch_no (A.place task.old.agent) 0 in OnOk result (Turns (port_of b) (enqueued (side_of b) (record { wait = wait.n; branch = 0; value = brought b })) held.old.bank.value held.new.bank.value) }
    ensures wait { OnOk result (Sets wait.n (Some nobody) waits.old.shard.value waits.new.shard.value) }
    ensures task { OnOk result (GoesWithAnswer A.gives (bool true) task.old task.new) }
    ensures refused { OnErr result (BankRests held.old.bank.value held.new.bank.value × RestsIn waits.old.shard.value waits.new.shard.value × (task.new ≡ task.old)) }
    ensures same { (held.new.number ≡ held.old.number) × (waits.new.number ≡ waits.old.number) }
{
    post_in(alloc, &mut held.bank, &mut waits.shard, task, wait)
}

/// A copy of the first value that the channel holds, or nil.
pub(crate) fn first_copy(alloc: Global, bank: &Bank, port: PortId) -> Result<Value, OutOfMemory>
    ensures { IfOk result (λ v. view v ≡ or_nil (head (held_at (kept_at bank.now port.n)))) }
{
    match bank.buffer(port) {
        Some(buffer) => match buffer.first() {
            Some(value) => value.copy(alloc),
            None => Ok(Value::Nil),
        },
        None => Ok(Value::Nil),
    }
}

/// What a branch that is done does to its channel: `brought` is the value of a put.
pub(crate) fn change_done(bank: &mut Bank, port: PortId, brought: Option<Value>)
    requires { HasDoneRoom (kept_at bank.old port.n) (spares_at bank.old port.n) (branch_by port.n (option_map view brought)) }
    ensures { Turns port.n (done_change (branch_by port.n (option_map view brought))) bank.old bank.new }
{
    match brought {
        Some(value) => {
            if !bank.is_closed(port) {
                let _ = bank.add(port, value);
            }
        }
        None => {
            let _ = bank.remove(port);
        }
    }
}

// The answer of a branch that is done.
fn answer_in(alloc: Global, bank: &Bank, branch: &Branch) -> Result<Value, OutOfMemory>
    ensures { IfOk result (λ v. view v ≡ done_answer (kept_at bank.now (port_of (branch_view branch.now))) (branch_view branch.now)) }
{
    match branch {
        Branch::Take(port) => first_copy(alloc, bank, *port),
        Branch::Put(port, _) => Ok(Value::Bool(!bank.is_closed(*port))),
    }
}

// The value of a put once more, with room for it in its channel's buffer.
#[tactic(auto, using(crate::proofs::InPlace::alone_reserved))]
fn bring(alloc: Global, bank: &mut Bank, branch: &Branch) -> Result<Option<Value>, OutOfMemory>
    requires { let b = branch_view branch.now in (see : ℕ → Glance) → alone ≡ find_at see (kept_at bank.old (port_of b)) b }
    ensures again { IfOk result (λ o. branch_by (port_of (branch_view branch.now)) (option_map view o) ≡ branch_view branch.now) }
    ensures room { let b = branch_view branch.now in OnOk result (HasDoneRoom (kept_at bank.new (port_of b)) (spares_at bank.new (port_of b)) b) }
    ensures rests { BankRests bank.old bank.new }
{
    match branch {
        Branch::Take(_) => Ok(None),
        Branch::Put(port, value) => {
            let value = value.copy(alloc)?;
            bank.reserve_buffer(*port)?;
            Ok(Some(value))
        }
    }
}

// The branch is done in its bank.
fn do_in_bank<A: Agent>(
    alloc: Global,
    bank: &mut Bank,
    task: &mut Task<A>,
    number: u64,
) -> Result<(Branch, Value), OutOfMemory>
    requires at { IsAtBranch (A.place task.old.agent) number }
    requires count { CanCountAlts A.place task.old }
    requires alone { let b = branch_no (A.place task.old.agent) number in (see : ℕ → Glance) → alone ≡ find_at see (kept_at bank.old (port_of b)) b }
    ensures branch { IfOk result (λ r. branch_view r.0 ≡ branch_no (A.place task.old.agent) number) }
    ensures answer { let b = branch_no (A.place task.old.agent) number in IfOk result (λ r. view r.1 ≡ done_answer (kept_at bank.old (port_of b)) b) }
    ensures done { OnOk result (IsBranchDone A.place A.gives number bank.old bank.new task.old task.new) }
    ensures refused { OnErr result (BankRests bank.old bank.new × (task.new ≡ task.old)) }
{
    let branch = branch_of(alloc, &task.agent, number)?;
    let of_alts = is_alts(&task.agent);
    let port = port_in(&branch);
    let value = answer_in(alloc, bank, &branch)?;
    let answer = reply(alloc, of_alts, port, &value)?;
    let brought = bring(alloc, bank, &branch)?;
    change_done(bank, port, brought);
    answer_task(task, answer, Some(number), of_alts);
    Ok((branch, value))
}

// A copy of the value that passes where the branch meets a wait.
fn passing_in(alloc: Global, bank: &Bank, branch: &Branch) -> Result<Value, OutOfMemory>
    ensures { IfOk result (λ v. view v ≡ passing (kept_at bank.now (port_of (branch_view branch.now))) (branch_view branch.now)) }
{
    match branch {
        Branch::Take(port) => front_value(alloc, bank, *port),
        Branch::Put(_, value) => value.copy(alloc),
    }
}

// The branch meets its partner in its bank.
fn meet_in<A: Agent>(
    alloc: Global,
    bank: &mut Bank,
    shard: &mut Shard<Task<A>>,
    ready: &mut Ready<A>,
    task: &mut Task<A>,
    number: u64,
    partner: Partner,
) -> Result<Value, OutOfMemory>
    requires at { IsAtBranch (A.place task.old.agent) number }
    requires count { CanCountAlts A.place task.old }
    requires paused { IsPaused A.place (waits_of shard.old partner.wait.n) }
    ensures value { let b = branch_no (A.place task.old.agent) number in IfOk result (λ v. view v ≡ passing (kept_at bank.old (port_of b)) b) }
    ensures channel { let b = branch_no (A.place task.old.agent) number in OnOk result (Turns (port_of b) (pruned (other_side (side_of b)) 0) bank.old bank.new) }
    ensures wait { OnOk result (Sets partner.wait.n None shard.old shard.new) }
    ensures wakes { let b = branch_no (A.place task.old.agent) number in OnOk result (BranchWakes A.place A.gives b partner.wait.n bank.old shard.old ready.old ready.new) }
    ensures task { let b = branch_no (A.place task.old.agent) number in OnOk result (GoesOnAnswered A.place A.gives (port_of b) (told (side_of b) (passing (kept_at bank.old (port_of b)) b)) task.old task.new) }
    ensures refused { OnErr result ((bank.new ≡ bank.old) × (shard.new ≡ shard.old) × (tasks_in ready.new ≡ tasks_in ready.old) × (task.new ≡ task.old)) }
{
    let branch = branch_of(alloc, &task.agent, number)?;
    let of_alts = is_alts(&task.agent);
    let port = port_in(&branch);
    let side = side_in(&branch);
    let value = passing_in(alloc, bank, &branch)?;
    let mine = told(alloc, side, &value)?;
    let answer = reply(alloc, of_alts, port, &mine)?;
    let theirs = told(alloc, opposite(side), &value)?;
    let woken = partner_in(alloc, shard, partner.wait, port, &theirs)?;
    ready.reserve()?;
    let _ = bank.prune(port, opposite(side), 0);
    let parked = take_wait(shard, partner.wait);
    wake_in(ready, parked, woken, partner.branch);
    answer_task(task, answer, Some(number), of_alts);
    Ok(value)
}

// The branch stands last in the queue of its channel.
fn queue_in(bank: &mut Bank, wait: WaitId, branch: Branch)
    requires { 0 < queue_spare (side_of (branch_view branch)) (spares_at bank.old (port_of (branch_view branch))) }
    ensures { Turns (port_of (branch_view branch)) (enqueued (side_of (branch_view branch)) (record { wait = wait.n; branch = 0; value = brought (branch_view branch) })) bank.old bank.new }
{
    let (port, side, handler) = handler_of(wait, 0, branch);
    bank.enqueue(port, side, handler);
}

// The branch at which the agent stands is last in its queue, and its shard has room for the wait.
fn join_in<A: Agent>(
    alloc: Global,
    bank: &mut Bank,
    shard: &mut Shard<Task<A>>,
    agent: &A,
    wait: WaitId,
) -> Result<Branch, OutOfMemory>
    requires at { IsAtBranch (A.place agent.now) 0 }
    requires channel { is_some (kept_at bank.old (port_of (branch_no (A.place agent.now) 0))) ≡ true }
    ensures branch { IfOk result (λ b. branch_view b ≡ branch_no (A.place agent.now) 0) }
    ensures channel { let b = branch_no (A.place agent.now) 0 in OnOk result (Turns (port_of b) (enqueued (side_of b) (record { wait = wait.n; branch = 0; value = brought b })) bank.old bank.new) }
    ensures room { OnOk result (0 < shard_spare shard.new) }
    ensures rests { RestsIn shard.old shard.new }
    ensures refused { OnErr result (BankRests bank.old bank.new) }
{
    let branch = branch_of(alloc, agent, 0)?;
    let queued = copy_of(alloc, &branch)?;
    bank.reserve(port_in(&branch), side_in(&branch), 1)?;
    shard.reserve()?;
    queue_in(bank, wait, queued);
    Ok(branch)
}

// The task of the slot waits in its bank and its shard.
fn park_in<A: Agent>(
    alloc: Global,
    bank: &mut Bank,
    shard: &mut Shard<Task<A>>,
    slot: &mut Option<Task<A>>,
    wait: WaitId,
) -> Result<Branch, OutOfMemory>
    requires at { IsTaskAtOne A.place slot.old }
    requires channel { is_some (kept_at bank.old (port_of (task_branch A.place slot.old))) ≡ true }
    requires belongs { belongs (shard_number shard.old) (shard_count shard.old) wait.n ≡ true }
    ensures branch { IfOk result (λ b. branch_view b ≡ task_branch A.place slot.old) }
    ensures channel { let b = task_branch A.place slot.old in OnOk result (Turns (port_of b) (enqueued (side_of b) (record { wait = wait.n; branch = 0; value = brought b })) bank.old bank.new) }
    ensures wait { OnOk result (Sets wait.n (option_map (λ t. owner t.number (waiting_as A.place (agent_of t))) slot.old) shard.old shard.new) }
    ensures task { OnOk result (slot.new ≡ None) }
    ensures refused { OnErr result (BankRests bank.old bank.new × RestsIn shard.old shard.new × (slot.new ≡ slot.old)) }
{
    let branch = match slot {
        Some(task) => join_in(alloc, bank, shard, &task.agent, wait)?,
        None => unreachable!(),
    };
    match slot.take() {
        Some(task) => put_wait(shard, wait, Parked::Owner(waiting(task))),
        None => unreachable!(),
    }
    Ok(branch)
}

// The put waits in its bank and its shard without its task.
fn post_in<A: Agent>(
    alloc: Global,
    bank: &mut Bank,
    shard: &mut Shard<Task<A>>,
    task: &mut Task<A>,
    wait: WaitId,
) -> Result<Branch, OutOfMemory>
    requires at { IsAtOne (A.place task.old.agent) }
    requires channel { is_some (kept_at bank.old (port_of (branch_no (A.place task.old.agent) 0))) ≡ true }
    requires belongs { belongs (shard_number shard.old) (shard_count shard.old) wait.n ≡ true }
    ensures branch { IfOk result (λ b. branch_view b ≡ branch_no (A.place task.old.agent) 0) }
    ensures channel { let b = branch_no (A.place task.old.agent) 0 in OnOk result (Turns (port_of b) (enqueued (side_of b) (record { wait = wait.n; branch = 0; value = brought b })) bank.old bank.new) }
    ensures wait { OnOk result (Sets wait.n (Some nobody) shard.old shard.new) }
    ensures task { OnOk result (GoesWithAnswer A.gives (bool true) task.old task.new) }
    ensures refused { OnErr result (BankRests bank.old bank.new × RestsIn shard.old shard.new × (task.new ≡ task.old)) }
{
    let branch = join_in(alloc, bank, shard, &task.agent, wait)?;
    put_wait(shard, wait, Parked::Nobody);
    answer_task(task, Value::Bool(true), None, false);
    Ok(branch)
}
