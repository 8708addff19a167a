ghost use Rattle.std.specs.Prelude.{◌≡◌, ◌≤◌, ◌<◌, ℕ, None, [], IfOk, is_some};
ghost use Rattle.ca_bank.specs.Bank.{bank_number, bank_count};
ghost use Rattle.ca_bank.specs.Shard.{shard_number, shard_count};

use crate::listing::{Listing, Numbered};
use crate::task::{Ready, Task};
use ca_bank::bank::Bank;
use ca_bank::shard::Shard;
use ca_term::event::{Event, WaitId};
use ca_timers::timers::Timers;
use ca_value::memory::OutOfMemory;
use ca_value::seq::Seq;
use ca_value::value::{PortId, Value};
use std::alloc::Global;

/// A bank of sixteen, with its number. The bank lies in a box, so that a worker moves a few words where it takes the
/// bank out of its hand or puts it back.
#[derive(Drop)]
pub struct HeldBank {
    pub(crate) number: u64,
    pub(crate) bank: Box<Bank>,
    ghost home: { (bank_number bank.value ≡ number) × (bank_count bank.value ≡ 16) },
}

/// A shard of sixteen, with its number, in a box as a bank is.
#[derive(Drop)]
pub struct HeldShard<A> {
    pub(crate) number: u64,
    pub(crate) shard: Box<Shard<Task<A>>>,
    ghost home: { (shard_number shard.value ≡ number) × (shard_count shard.value ≡ 16) },
}

/// Banks with their numbers.
pub type Banks = Listing<HeldBank>;

/// Shards with their numbers.
pub type Shards<A> = Listing<HeldShard<A>>;

impl HeldBank {
    /// The bank with its number.
    pub fn new(alloc: Global, number: u64, bank: Bank) -> Result<HeldBank, OutOfMemory>
        requires number { bank_number bank ≡ number }
        requires count { bank_count bank ≡ 16 }
        ensures number { IfOk result (λ h. h.number ≡ number) }
        ensures bank { IfOk result (λ h. h.bank.value ≡ bank) }
    {
        let bank = Box::new(alloc, bank)?;
        Ok(HeldBank { number, bank })
    }

    /// The bank, to look at.
    pub fn bank(&self) -> &Bank
        ensures { result.now ≡ self.now.bank.value }
    {
        &self.bank
    }
}

impl<A: Drop> HeldShard<A> {
    /// The shard with its number.
    pub fn new(
        alloc: Global,
        number: u64,
        shard: Shard<Task<A>>,
    ) -> Result<HeldShard<A>, OutOfMemory>
        requires number { shard_number shard ≡ number }
        requires count { shard_count shard ≡ 16 }
        ensures number { IfOk result (λ h. h.number ≡ number) }
        ensures shard { IfOk result (λ h. h.shard.value ≡ shard) }
    {
        let shard = Box::new(alloc, shard)?;
        Ok(HeldShard { number, shard })
    }
}

impl<A: Drop> HeldShard<A> {
    ghost use Rattle.ca_commit.specs.Showing.{shard_in};

    /// Whether the wait lives, where it is one of this shard.
    pub fn lives(&self, wait: WaitId) -> bool
        ensures { result ≡ is_some (shard_in self.now wait.n) }
    {
        self.shard.parked(wait).is_some()
    }
}

impl Numbered for HeldBank {
    ghost use Rattle.ca_commit.specs.Numbers.{number_of_bank};

    ghost number = { number_of_bank };

    fn number(&self) -> u64 {
        self.number
    }
}

impl<A: Drop> Numbered for HeldShard<A> {
    ghost use Rattle.ca_commit.specs.Numbers.{number_of_shard};

    ghost number = { number_of_shard };

    fn number(&self) -> u64 {
        self.number
    }
}

// What the reserving calls make and an event moves out: copies of values, which are the event's value, the answer of
// the task, and that of the one who waited; and the ports of a tick.
#[derive(Drop)]
pub(crate) struct Spare {
    pub(crate) value: Option<Value>,
    pub(crate) answer: Option<Value>,
    pub(crate) partner: Option<Value>,
    pub(crate) ports: Option<Seq<PortId>>,
}

/// The parts that a worker has moved out of its hand, and the numbers that an event may give.
#[derive(Drop)]
pub struct Held<A> {
    pub banks: Banks,
    pub shards: Shards<A>,
    pub timers: Option<Timers>,
    pub ready: Option<Ready<A>>,
    /// The number of the next task, port and wait that this worker makes.
    pub new_task: u64,
    pub new_port: u64,
    pub new_wait: u64,
    /// The clock's answer, for a new timeout.
    pub moment: u64,
    pub(crate) spare: Spare,
}

/// What an event is, and the task with its answer; None where the task waits.
#[derive(Drop)]
pub struct Applied<A> {
    pub event: Event,
    pub running: Option<Task<A>>,
}

const MOST_HELD: u64 = 16;

impl<A: Drop> Held<A> {
    ghost use Rattle.ca_commit.specs.Listings.{parts, spare_parts};

    /// Nothing is held, with room for 16 banks and 16 shards.
    pub fn new(alloc: Global) -> Result<Held<A>, OutOfMemory>
        ensures banks { IfOk result (λ h. (parts h.banks ≡ []) × (16 ≤ spare_parts h.banks)) }
        ensures shards { IfOk result (λ h. (parts h.shards ≡ []) × (16 ≤ spare_parts h.shards)) }
        ensures timers { IfOk result (λ h. h.timers ≡ None) }
        ensures ready { IfOk result (λ h. h.ready ≡ None) }
    {
        Ok(Held {
            banks: Listing::with_room(alloc, MOST_HELD)?,
            shards: Listing::with_room(alloc, MOST_HELD)?,
            timers: None,
            ready: None,
            new_task: 0,
            new_port: 0,
            new_wait: 0,
            moment: 0,
            spare: Spare {
                value: None,
                answer: None,
                partner: None,
                ports: None,
            },
        })
    }
}
