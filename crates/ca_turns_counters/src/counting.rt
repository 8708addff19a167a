ghost use Rattle.std.specs.Prelude.{◌≡◌, ◌+◌, ◌-◌, ◌*◌, ◌^◌, ◌<◌, ◌≤◌, ◌∷◌, IfOk, replicate, vec_len};
ghost use Rattle.ca_turns_counters.specs.declared.counters.Event.TheVariants.{One};
ghost use Rattle.ca_turns_counters.specs.Adding.{AreCountersWithin};

use crate::counters::{Counters, Event};
use crate::gathering::{enlist, gather};
use crate::workers::Worker;
use crate::working::work_all;
use ca_turns::{OutOfMemory, Table};
use std::alloc::Global;
use std::sync::Wait;
use std::thread::Threads;

/// The counters in the end, and the numbers of all events, in no order.
#[derive(Drop)]
pub struct Counted {
    pub counters: Vec<u64>,
    pub numbers: Vec<u64>,
}

/// Opens a table of counters at 0, lets its hands work in threads, and closes it.
///
/// Each worker has one hand, or two where they are paired: then it takes in the second one half way,
/// while the others work on. It makes `times` events before that and as many after it.
pub fn count<R: Threads + Wait + Sync>(
    rt: &R,
    alloc: Global,
    counters: usize,
    hands: u64,
    paired: bool,
    even: &Event,
    odd: &Event,
    times: u64,
) -> Result<Counted, OutOfMemory>
    requires counters { (0 < counters) × (counters ≤ 256) }
    requires hands { (0 < hands) × (hands ≤ 16) }
    requires range { AreCountersWithin counters even.now × AreCountersWithin counters odd.now }
    requires room { 2 * times < 2 ^ 59 }
    ensures first { even.now ≡ One 0 → odd.now ≡ One 0 → IfOk result (λ c. c.counters.items ≡ vec_len c.numbers ∷ replicate (counters - 1) 0) }
{
    let parts = Vec::from_elem(alloc, 0u64, counters)?;
    let (table, dealt) = Table::<Counters>::open(alloc, parts, hands)?;
    let mut workers = enlist(alloc, dealt, paired, (2 * times) as usize)?;
    work_all(rt, &table, &mut workers, even, odd, times);
    let first = workers.take_last();
    let Worker {
        hand,
        numbers,
        spare: _,
    } = gather(&table, first, workers)?;
    let closed = table.close(hand);
    Ok(Counted {
        counters: closed.parts,
        numbers,
    })
}
