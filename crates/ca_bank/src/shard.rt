ghost use Rattle.std.specs.Prelude.{◌≡◌, ℕ, ◌+◌, ◌%◌, ◌<◌, ◌≤◌, None, Some, option_map, OnOk, true, eqb, is_some, nat_eq};
ghost use Rattle.std.specs.Map.{update};
ghost use Rattle.indexmap.specs.IndexMap.{get};

use crate::wait_table::WaitTable;
use ca_term::event::WaitId;
use ca_value::memory::OutOfMemory;
use std::alloc::Global;

/// Who waits: a task, or nobody where a value was put by a task that went on.
#[derive(Drop)]
pub enum Parked<A> {
    Owner(A),
    Nobody,
}

/// Whether a wait is still to be completed.
#[derive(Clone, Copy)]
pub enum Probe {
    Live,
    Stale,
}

/// The live waits of one shard, by number.
#[derive(Drop)]
pub struct Shard<A> {
    waits: WaitTable<Parked<A>>,
    number: u64,
    count: u64,
    ghost within: { number < count },
    ghost placed: { (w : ℕ) → is_some (get nat_eq waits w) ≡ true → eqb (w % count) number ≡ true },
}

impl<A> Shard<A> {
    ghost use Rattle.ca_bank.specs.Shard.{belongs, parked_in, shard_number, shard_count, shard_spare, probes_live, SameShard, WaitsArePlaced};

    /// The shard of that number, of so many: it has no wait, and takes no memory.
    pub fn new(alloc: Global, number: u64, count: u64) -> Shard<A>
        requires { number < count }
        ensures empty { (w : ℕ) → parked_in result w ≡ None }
        ensures number { shard_number result ≡ number }
        ensures count { shard_count result ≡ count }
    {
        Shard {
            waits: WaitTable::new(alloc),
            number,
            count,
        }
    }

    /// Whether the wait can stand in this shard.
    pub fn owns(&self, wait: WaitId) -> bool
        ensures owns { result ≡ belongs (shard_number self.now) (shard_count self.now) wait.n }
        ensures placed { WaitsArePlaced self.now }
    {
        wait.n % self.count == self.number
    }

    /// Makes room for one more wait, and changes nothing else.
    pub fn reserve(&mut self) -> Result<(), OutOfMemory>
        ensures spare { OnOk result (0 < shard_spare self.new) }
        ensures kept { shard_spare self.old ≤ shard_spare self.new }
        ensures waits { (w : ℕ) → parked_in self.new w ≡ parked_in self.old w }
        ensures same { SameShard self.old self.new }
    {
        self.waits.reserve()
    }

    /// Whether the wait is live: it is stale exactly where it isn't in its shard.
    pub fn probe(&self, wait: WaitId) -> Probe
        ensures { probes_live result ≡ is_some (parked_in self.now wait.n) }
    {
        match self.waits.get(wait.n) {
            Some(_) => Probe::Live,
            None => Probe::Stale,
        }
    }

    /// Who waits on it, if anybody, to look at.
    pub fn parked(&self, wait: WaitId) -> Option<&Parked<A>>
        ensures { option_map (λ p. p.now) result ≡ parked_in self.now wait.n }
    {
        self.waits.get(wait.n)
    }

    /// Takes the wait out; None exactly where it isn't there.
    pub fn take_out(&mut self, wait: WaitId) -> Option<Parked<A>>
        ensures parked { result ≡ parked_in self.old wait.n }
        ensures waits { (w : ℕ) → parked_in self.new w ≡ update eqb (parked_in self.old) wait.n None w }
        ensures spare { shard_spare self.old ≤ shard_spare self.new }
        ensures same { SameShard self.old self.new }
    {
        self.waits.take(wait.n)
    }

    /// Puts the wait in. It takes no memory.
    pub fn put_in(&mut self, wait: WaitId, parked: Parked<A>)
    where
        A: Drop,
        requires belongs { belongs (shard_number self.old) (shard_count self.old) wait.n ≡ true }
        requires spare { 0 < shard_spare self.old }
        ensures waits { (w : ℕ) → parked_in self.new w ≡ update eqb (parked_in self.old) wait.n (Some parked) w }
        ensures spare { shard_spare self.old ≤ shard_spare self.new + 1 }
        ensures same { SameShard self.old self.new }
    {
        self.waits.put(wait.n, parked);
    }
}
