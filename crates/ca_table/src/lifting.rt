// All banks, or all shards, that an event needs: a worker moves them out of its hand at once, and back.
ghost use Rattle.std.specs.Prelude.{◌≡◌, ◌+◌, ◌<◌, ◌≤◌, ◌++◌, ◌∷◌, [], ℕ, Option, Some, None, is_some, length};
ghost use Rattle.ca_term.specs.Program.{ProgramView};
ghost use Rattle.ca_turns.specs.Hands.{IsHolding, TableId};
ghost use Rattle.ca_commit.specs.Gathered.{bank_kind, shard_kind};
ghost use Rattle.ca_commit.specs.Listing.{listed};
ghost use Rattle.ca_commit.specs.Listings.{parts, spare_parts};
ghost use Rattle.ca_table.specs.Carriers.{IsCarrying};
ghost use Rattle.ca_table.specs.Carrying.{Carries};
ghost use Rattle.ca_table.specs.Grips.{SameTurns};
ghost use Rattle.ca_table.specs.Homes.{has_home};
ghost use Rattle.ca_table.specs.Lifting.{HasNone, PartRow, SettledIf, bank_row, contents_kind, first_part_number, kind_of_row, laid_back, lifted, shard_row, with_row};
ghost use Rattle.ca_table.specs.Parts.{contents_seen, part_seen};
ghost use Rattle.ca_states.specs.ValidCode.{valid_code};
ghost use Rattle.ca_table.specs.Seen.{PartSeen, held_of};
ghost use Rattle.ca_table.specs.Sound.{IsSound};
ghost use Rattle.ca_table.specs.Workers.{SameWorker};
ghost use Rattle.ca_table.specs.declared.part.Part.{Part};
ghost use Rattle.ca_table.specs.declared.part.Contents.TheVariants.{Bank, Shard};

use crate::handling::{give_at, hold_at, put_at};
use crate::homes::Homes;
use crate::part::{Contents, Part};
use crate::pool::Pool;
use crate::waiting::wait_for_good;
use crate::worker::Worker;
use ca_agent::agent::Agent;
use ca_commit::held::{HeldBank, HeldShard};
use ca_commit::listing::{Listing, Numbered};
use ca_states::valid_code::ValidCode;
use ca_timers::clock::Clock;
use ca_turns::Table;
use std::sync::Wait;

const ALL: u64 = 16;

/// Parts of one kind, of which there are sixteen.
pub trait Sixteen<A, C>: Numbered {
    ghost use Rattle.ca_table.specs.Lifting.{PartRow};
    ghost use Rattle.ca_table.specs.declared.part.Contents.{Contents};

    // banks, or shards
    ghost group: { PartRow };

    // what it is as a part
    ghost as_contents: { Self → Contents A C };

    /// The number of the first of them.
    fn first(workers: u64) -> u64
        requires { workers ≤ 16 }
        ensures number { result ≡ first_part_number group workers }
        ensures small { result ≤ 32 };

    fn from_contents(contents: Contents<A, C>) -> Self
        requires { contents_kind contents ≡ kind_of_row group }
        ensures { as_contents result ≡ contents };

    fn into_contents(self) -> Contents<A, C>
        ensures { result ≡ as_contents self };
}

impl<A: Agent, C: Clock + Drop> Sixteen<A, C> for HeldBank {
    ghost group = { bank_row };

    ghost as_contents = { Bank };

    fn first(workers: u64) -> u64
        requires { workers ≤ 16 }
        ensures number { result ≡ workers }
        ensures small { result ≤ 32 }
    {
        workers
    }

    fn from_contents(contents: Contents<A, C>) -> HeldBank
        requires { contents_kind contents ≡ bank_kind }
        ensures { Bank result ≡ contents }
    {
        match contents {
            Contents::Bank(bank) => bank,
            _ => unreachable!(),
        }
    }

    fn into_contents(self) -> Contents<A, C>
        ensures { result ≡ Bank self }
    {
        Contents::Bank(self)
    }
}

impl<A: Agent, C: Clock + Drop> Sixteen<A, C> for HeldShard<A> {
    ghost group = { shard_row };

    ghost as_contents = { Shard };

    fn first(workers: u64) -> u64
        requires { workers ≤ 16 }
        ensures number { result ≡ workers + 16 }
        ensures small { result ≤ 32 }
    {
        workers + ALL
    }

    fn from_contents(contents: Contents<A, C>) -> HeldShard<A>
        requires { contents_kind contents ≡ shard_kind }
        ensures { Shard result ≡ contents }
    {
        match contents {
            Contents::Shard(shard) => shard,
            _ => unreachable!(),
        }
    }

    fn into_contents(self) -> Contents<A, C>
        ensures { result ≡ Shard self }
    {
        Contents::Shard(self)
    }
}

/// Holds the part of that number, above all that the worker holds, once it is free, and moves it out into the list.
pub fn load_one<R: Wait, A: Agent, C: Clock + Drop, T: Sixteen<A, C>>(
    rt: &R,
    table: &Table<Pool<A, C>>,
    code: &ValidCode,
    worker: &mut Worker<A, C>,
    number: u64,
    list: &mut Listing<T>,
)
    requires carries { (program : ProgramView) × (n : ℕ) × (h : Carries (Part A C × PartSeen A)) × IsCarrying A.over A.stands program code.now table.now.id n worker.old h }
    requires number { number < 16 }
    requires ascending { (i : ℕ) → IsHolding worker.old.hand i → i < first_part_number T.group worker.old.workers + number }
    requires room { 0 < spare_parts list.old }
    ensures same { SameWorker worker.old worker.new }
    ensures turns { SameTurns worker.old.hand worker.new.hand }
    ensures entries { worker.new.entries ≡ worker.old.entries }
    ensures list { (x : T) × (parts list.new ≡ parts list.old ++ x ∷ []) × (T.number x ≡ number) × IsSound A.over A.place (valid_code code.now) worker.old.workers (first_part_number T.group worker.old.workers + number) (held_of (contents_seen C.least C.faults C.readings (T.as_contents x))) }
    ensures room { spare_parts list.old ≤ spare_parts list.new + 1 }
    ensures ascending { (i : ℕ) → IsHolding worker.new.hand i → i < first_part_number T.group worker.old.workers + number + 1 }
    ensures carries { (program : ProgramView) (n : ℕ) (h : Carries (Part A C × PartSeen A)) → listed T.number (parts list.old) number ≡ None → IsCarrying A.over A.stands program code.now table.now.id n worker.old (with_row T.group (lifted n code.now T.as_contents (part_seen C.least C.faults C.readings) T.number (parts list.old)) h) → IsCarrying A.over A.stands program code.now table.now.id n worker.new (with_row T.group (lifted n code.now T.as_contents (part_seen C.least C.faults C.readings) T.number (parts list.new)) h) }
{
    let at = T::first(worker.workers) + number;
    let part = T::from_contents(hold_at(rt, table, code, worker, at));
    if part.number() != number {
        wait_for_good(rt);
        unreachable!()
    }
    list.push(part);
}

/// Holds these banks or shards, one after another as they are free, and moves them out into the list.
pub fn load<R: Wait, A: Agent, C: Clock + Drop, T: Sixteen<A, C>>(
    rt: &R,
    table: &Table<Pool<A, C>>,
    code: &ValidCode,
    worker: &mut Worker<A, C>,
    homes: &Homes,
    list: &mut Listing<T>,
)
    requires carries { (program : ProgramView) × (n : ℕ) × (h : Carries (Part A C × PartSeen A)) × IsCarrying A.over A.stands program code.now table.now.id n worker.old h × HasNone T.group h }
    requires ascending { (i : ℕ) → IsHolding worker.old.hand i → i < first_part_number T.group worker.old.workers }
    requires empty { parts list.old ≡ [] }
    requires room { 16 ≤ spare_parts list.old }
    ensures same { SameWorker worker.old worker.new }
    ensures turns { SameTurns worker.old.hand worker.new.hand }
    ensures entries { worker.new.entries ≡ worker.old.entries }
    ensures homes { (i : ℕ) → i < 16 → is_some (listed T.number (parts list.new) i) ≡ has_home homes.now i }
    ensures none { (i : ℕ) → 16 ≤ i → listed T.number (parts list.new) i ≡ None }
    ensures sound { (i : ℕ) (x : T) → listed T.number (parts list.new) i ≡ Some x → IsSound A.over A.place (valid_code code.now) worker.old.workers (first_part_number T.group worker.old.workers + i) (held_of (contents_seen C.least C.faults C.readings (T.as_contents x))) }
    ensures room { spare_parts list.old ≤ spare_parts list.new + length (parts list.new) }
    ensures ascending { (i : ℕ) → IsHolding worker.new.hand i → i < first_part_number T.group worker.old.workers + 16 }
    ensures carries { (program : ProgramView) (n : ℕ) (h : Carries (Part A C × PartSeen A)) → HasNone T.group h → IsCarrying A.over A.stands program code.now table.now.id n worker.old h → IsCarrying A.over A.stands program code.now table.now.id n worker.new (with_row T.group (lifted n code.now T.as_contents (part_seen C.least C.faults C.readings) T.number (parts list.new)) h) }
{
    for number in homes.first()..homes.end() {
        if homes.has(number) {
            load_one(rt, table, code, worker, number, list);
        }
    }
}

/// Puts the parts of the list back into the hand as they are now, and tells which they are.
pub fn unload<A: Agent, C: Clock + Drop, T: Sixteen<A, C>>(
    code: &ValidCode,
    worker: &mut Worker<A, C>,
    list: &mut Listing<T>,
) -> Homes
    requires carries { (program : ProgramView) × (id : TableId) × (n : ℕ) × (h : Carries (Part A C × PartSeen A)) × (was : ℕ → Option (PartSeen A)) × ((i : ℕ) → is_some (was i) ≡ is_some (listed T.number (parts list.old) i)) × IsCarrying A.over A.stands program code.now id n worker.old (with_row T.group (λ i. laid_back n code.now T.as_contents None (was i)) h) }
    ensures same { SameWorker worker.old worker.new }
    ensures turns { SameTurns worker.old.hand worker.new.hand }
    ensures entries { worker.new.entries ≡ worker.old.entries }
    ensures empty { parts list.new ≡ [] }
    ensures room { spare_parts list.old + length (parts list.old) ≤ spare_parts list.new }
    ensures homes { (i : ℕ) → i < 16 → has_home result i ≡ is_some (listed T.number (parts list.old) i) }
    ensures carries { (program : ProgramView) (id : TableId) (n : ℕ) (h : Carries (Part A C × PartSeen A)) (was : ℕ → Option (PartSeen A)) → ((i : ℕ) → is_some (was i) ≡ is_some (listed T.number (parts list.old) i)) → IsCarrying A.over A.stands program code.now id n worker.old (with_row T.group (λ i. laid_back n code.now T.as_contents None (was i)) h) → IsCarrying A.over A.stands program code.now id n worker.new (with_row T.group (λ i. laid_back n code.now T.as_contents (listed T.number (parts list.old) i) (was i)) h) }
{
    let mut homes = Homes::none();
    while let Some(part) = list.pop() {
        let number = part.number();
        let at = T::first(worker.workers) + number;
        put_at(code, worker, at, part.into_contents());
        homes.add(number);
    }
    homes
}

/// Gives these banks or shards back, all settled as they are. They begin at that number.
pub fn give_all<A: Agent, C: Clock + Drop>(
    table: &Table<Pool<A, C>>,
    worker: &mut Worker<A, C>,
    first: u64,
    homes: &Homes,
)
    requires carries { (program : ProgramView) × (code : ValidCode) × (n : ℕ) × (row : PartRow) × (h : Carries (Part A C × PartSeen A)) × (now : ℕ → Option (Part A C × PartSeen A)) × (first ≡ first_part_number row n) × ((i : ℕ) → i < 16 → SettledIf (part_seen C.least C.faults C.readings) (has_home homes.now i) (now i)) × IsCarrying A.over A.stands program code table.now.id n worker.old (with_row row now h) }
    ensures same { SameWorker worker.old worker.new }
    ensures turns { SameTurns worker.old.hand worker.new.hand }
    ensures entries { worker.new.entries ≡ worker.old.entries }
    ensures carries { (program : ProgramView) (code : ValidCode) (n : ℕ) (row : PartRow) (h : Carries (Part A C × PartSeen A)) (now : ℕ → Option (Part A C × PartSeen A)) → first ≡ first_part_number row n → ((i : ℕ) → i < 16 → SettledIf (part_seen C.least C.faults C.readings) (has_home homes.now i) (now i)) → IsCarrying A.over A.stands program code table.now.id n worker.old (with_row row now h) → IsCarrying A.over A.stands program code table.now.id n worker.new (with_row row (λ i. None) h) }
{
    for number in homes.first()..homes.end() {
        if homes.has(number) {
            give_at(table, worker, first + number);
        }
    }
}
