//! What runs along a journal: the parts of a run, all in one hand.
ghost use Rattle.std.specs.Prelude.{◌≡◌, ◌≤◌, [], IfOk, OnOk, Some};
ghost use Rattle.ca_term.specs.Program.{ProgramView};
ghost use Rattle.ca_meaning.specs.State.{Opening, State};
ghost use Rattle.ca_states.specs.ValidCode.{valid_code};
ghost use Rattle.ca_commit.specs.Listings.{parts, spare_parts};
ghost use Rattle.ca_commit.specs.NewPort.{times_in};
ghost use Rattle.ca_commit.specs.Showing.{channels_held, registries_held, waits_held};
ghost use Rattle.ca_commit.specs.Waking.{ready_in};
ghost use Rattle.ca_follow.specs.Has.{AreEmpty};
ghost use Rattle.ca_follow.specs.Follower.{IsFollower, IsMadeFor, FollowerStands, has};

use crate::tasks::Tasks;
use ca_bank::bank::Bank;
use ca_bank::shard::Shard;
use ca_commit::held::{Banks, Held, HeldBank, HeldShard, Shards};
use ca_commit::task::{Ready, Task};
use ca_states::valid_code::ValidCode;
use ca_tasks::task::AnyTask;
use ca_timers::timers::Timers;
use ca_value::memory::OutOfMemory;
use indexmap::IndexSet;
use std::alloc::Global;

// Banks and shards are as many.
const BANKS: u64 = 16;

/// A run of the code's tasks, as far as the events so far led it. After `OutOfMemory`, and where an event was refused, it is
/// only dropped.
#[derive(Drop)]
pub(crate) struct Follower<'c> {
    pub(crate) code: &'c ValidCode,
    /// All banks, all shards, the timers, and a ready part that is empty between two events.
    pub(crate) held: Held<AnyTask>,
    pub(crate) tasks: Tasks,
    /// The numbers of all waits so far.
    pub(crate) waits: IndexSet<u64>,
}

impl<'c> Follower<'c> {
    /// Where the program's runs begin.
    pub(crate) fn opening(alloc: Global, code: &'c ValidCode) -> Result<Follower<'c>, OutOfMemory>
        ensures follower { IfOk result (λ f. IsFollower f) }
        ensures code { IfOk result (λ f. f.code.now ≡ code.now) }
        ensures opens { IfOk result (λ f. (program : ProgramView) → IsMadeFor program (valid_code code.now) → (s : State) × Opening program s × FollowerStands program (has f) s) }
    {
        let mut tasks = Tasks::new(alloc);
        tasks.put(Task {
            number: 0,
            result: None,
            alts: 0,
            agent: AnyTask::main(alloc, code)?,
        })?;
        Ok(Follower {
            code,
            held: all_parts(alloc)?,
            tasks,
            waits: IndexSet::new(alloc),
        })
    }
}

// All parts, with nothing in them.
fn all_parts(alloc: Global) -> Result<Held<AnyTask>, OutOfMemory>
    ensures banks { IfOk result (λ h. AreEmpty (channels_held h.banks)) }
    ensures registries { IfOk result (λ h. AreEmpty (registries_held h.banks)) }
    ensures shards { IfOk result (λ h. AreEmpty (waits_held h.shards)) }
    ensures timers { IfOk result (λ h. times_in h.timers ≡ Some (record { deadlines = []; now = 0 })) }
    ensures ready { IfOk result (λ h. ready_in h.ready ≡ Some []) }
{
    let mut held = Held::new(alloc)?;
    push_banks(alloc, &mut held.banks)?;
    push_shards(alloc, &mut held.shards)?;
    held.timers = Some(Timers::new(alloc));
    held.ready = Some(Ready::new(alloc)?);
    Ok(held)
}

// The sixteen banks, with nothing in them. There is room for them.
fn push_banks(alloc: Global, banks: &mut Banks) -> Result<(), OutOfMemory>
    requires none { parts banks.old ≡ [] }
    requires room { 16 ≤ spare_parts banks.old }
    ensures channels { OnOk result (AreEmpty (channels_held banks.new)) }
    ensures registries { OnOk result (AreEmpty (registries_held banks.new)) }
{
    for number in 0..BANKS {
        let bank = Bank::new(alloc, number, BANKS);
        banks.push(HeldBank::new(alloc, number, bank)?);
    }
    Ok(())
}

// The sixteen shards, with nobody in them. There is room for them.
fn push_shards(alloc: Global, shards: &mut Shards<AnyTask>) -> Result<(), OutOfMemory>
    requires none { parts shards.old ≡ [] }
    requires room { 16 ≤ spare_parts shards.old }
    ensures { OnOk result (AreEmpty (waits_held shards.new)) }
{
    for number in 0..BANKS {
        let shard = Shard::new(alloc, number, BANKS);
        shards.push(HeldShard::new(alloc, number, shard)?);
    }
    Ok(())
}
