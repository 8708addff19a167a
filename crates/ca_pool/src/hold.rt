// Parts that a worker moves out of its hand for an event.
ghost use Rattle.std.specs.Prelude.{◌≡◌, ◌≢◌, ℕ, ◌+◌, ◌<◌, ◌≤◌, [], Option, Some, None, IsSome, OnErr, OnOk, IfOk, IfSome, is_some, true, IfNone, false};
ghost use Rattle.std.specs.Bool.{OnTrue};
ghost use Rattle.ca_term.specs.Program.{ProgramView};
ghost use Rattle.ca_states.specs.ValidCode.{valid_code};
ghost use Rattle.ca_turns.specs.Views.{hands_stood_for};
ghost use Rattle.ca_commit.specs.Contents.{whole};
ghost use Rattle.ca_commit.specs.Gathered.{bank_kind};
ghost use Rattle.ca_commit.specs.Listing.{listed};
ghost use Rattle.ca_commit.specs.Listings.{parts, spare_parts};
ghost use Rattle.ca_commit.specs.Numbers.{number_of_bank, number_of_shard};
ghost use Rattle.ca_commit.specs.Running.{Placed};
ghost use Rattle.ca_commit.specs.Showing.{channels_held, waits_held};
ghost use Rattle.ca_commit.specs.Waking.{IsPaused};
ghost use Rattle.ca_commit.specs.declared.held.HeldBank.{HeldBank};
ghost use Rattle.ca_table.specs.Carriers.{IsCarrying};
ghost use Rattle.ca_table.specs.Carrying.{Carries};
ghost use Rattle.ca_table.specs.Grips.{SameTurns};
ghost use Rattle.ca_table.specs.Homes.{has_home};
ghost use Rattle.ca_table.specs.Lifting.{HasNone, bank_row, contents_kind, lifted, with_row};
ghost use Rattle.ca_table.specs.Parts.{contents_seen, part_seen};
ghost use Rattle.ca_table.specs.Seen.{PartSeen, held_of};
ghost use Rattle.ca_table.specs.Sound.{IsSound};
ghost use Rattle.ca_table.specs.Workers.{SameWorker};
ghost use Rattle.ca_table.specs.declared.part.Contents.TheVariants.{Bank};
ghost use Rattle.ca_table.specs.declared.part.Lane.{Lane};
ghost use Rattle.ca_table.specs.declared.part.Part.{Part};
ghost use Rattle.ca_pool.specs.Desk.{ButBanks, ButReady, ButShards, ClockBox, IsBare, desk_taken};

use ca_agent::agent::Agent;
use ca_commit::held::{Banks, Held, HeldBank};
use ca_commit::listing::Numbered;
use ca_states::valid_code::ValidCode;
use ca_table::handling::{hold_at, hold_ready, try_hold_at};
use ca_table::homes::Homes;
use ca_table::lifting::{load, load_one};
use ca_table::part::{Clockwork, Contents};
use ca_table::pool::Pool;
use ca_table::waiting::wait_for_good;
use ca_table::worker::Worker;
use ca_timers::clock::Clock;
use ca_turns::Table;
use ca_value::memory::OutOfMemory;
use std::sync::Wait;

/// How many banks there are, and shards.
const ALL: u64 = 16;

/// Holds these banks, as they are free, and moves them out into what is held.
#[inline(always)]
pub(crate) fn take_banks<R: Wait, A: Agent, C: Clock + Drop>(
    rt: &R,
    table: &Table<Pool<A, C>>,
    code: &ValidCode,
    worker: &mut Worker<A, C>,
    homes: &Homes,
    held: &mut Held<A>,
) -> Result<(), OutOfMemory>
    requires carries { (program : ProgramView) × (n : ℕ) × (l : Lane A) × IsCarrying A.over A.stands program code.now table.now.id n worker.old (desk_taken (part_seen C.least C.faults C.readings) n code.now worker.old.number l None held.old) }
    requires bare { IsBare held.old }
    ensures same { SameWorker worker.old worker.new }
    ensures turns { SameTurns worker.old.hand worker.new.hand }
    ensures entries { worker.new.entries ≡ worker.old.entries }
    ensures banks { OnOk result ((i : ℕ) → i < 16 → is_some (listed number_of_bank (parts held.new.banks) i) ≡ has_home homes.now i) }
    ensures placed { OnOk result (Placed (channels_held held.new.banks)) }
    ensures refused { OnErr result (IsBare held.new) }
    ensures others { ButBanks held.old held.new }
    ensures carries { (program : ProgramView) (n : ℕ) (l : Lane A) → IsCarrying A.over A.stands program code.now table.now.id n worker.old (desk_taken (part_seen C.least C.faults C.readings) n code.now worker.old.number l None held.old) → IsCarrying A.over A.stands program code.now table.now.id n worker.new (desk_taken (part_seen C.least C.faults C.readings) n code.now worker.old.number l None held.new) }
{
    held.banks.reserve(ALL)?;
    load(rt, table, code, worker, homes, &mut held.banks);
    Ok(())
}

/// Holds these shards, as they are free, and moves them out into what is held.
#[inline(always)]
pub(crate) fn take_shards<R: Wait, A: Agent, C: Clock + Drop>(
    rt: &R,
    table: &Table<Pool<A, C>>,
    code: &ValidCode,
    worker: &mut Worker<A, C>,
    homes: &Homes,
    held: &mut Held<A>,
) -> Result<(), OutOfMemory>
    requires carries { (program : ProgramView) × (n : ℕ) × (l : Lane A) × IsCarrying A.over A.stands program code.now table.now.id n worker.old (desk_taken (part_seen C.least C.faults C.readings) n code.now worker.old.number l None held.old) }
    requires shards { parts held.old.shards ≡ [] }
    requires ready { held.old.ready ≡ None }
    ensures same { SameWorker worker.old worker.new }
    ensures turns { SameTurns worker.old.hand worker.new.hand }
    ensures entries { worker.new.entries ≡ worker.old.entries }
    ensures shards { OnOk result ((i : ℕ) → i < 16 → is_some (listed number_of_shard (parts held.new.shards) i) ≡ has_home homes.now i) }
    ensures paused { (w : ℕ) → IsPaused A.place (whole (waits_held held.new.shards) w) }
    ensures refused { OnErr result (parts held.new.shards ≡ []) }
    ensures others { ButShards held.old held.new }
    ensures carries { (program : ProgramView) (n : ℕ) (l : Lane A) → IsCarrying A.over A.stands program code.now table.now.id n worker.old (desk_taken (part_seen C.least C.faults C.readings) n code.now worker.old.number l None held.old) → IsCarrying A.over A.stands program code.now table.now.id n worker.new (desk_taken (part_seen C.least C.faults C.readings) n code.now worker.old.number l None held.new) }
{
    held.shards.reserve(ALL)?;
    load(rt, table, code, worker, homes, &mut held.shards);
    Ok(())
}

/// Holds one shard more, above all that are held, once it is free, and moves it out into what is held.
pub(crate) fn take_shard<R: Wait, A: Agent, C: Clock + Drop>(
    rt: &R,
    table: &Table<Pool<A, C>>,
    code: &ValidCode,
    worker: &mut Worker<A, C>,
    number: u64,
    held: &mut Held<A>,
) -> Result<(), OutOfMemory>
    requires carries { (program : ProgramView) × (n : ℕ) × (l : Lane A) × IsCarrying A.over A.stands program code.now table.now.id n worker.old (desk_taken (part_seen C.least C.faults C.readings) n code.now worker.old.number l None held.old) }
    requires number { number < 16 }
    requires above { (i : ℕ) → number ≤ i → listed number_of_shard (parts held.old.shards) i ≡ None }
    requires ready { held.old.ready ≡ None }
    requires paused { (w : ℕ) → IsPaused A.place (whole (waits_held held.old.shards) w) }
    ensures same { SameWorker worker.old worker.new }
    ensures turns { SameTurns worker.old.hand worker.new.hand }
    ensures entries { worker.new.entries ≡ worker.old.entries }
    ensures there { OnOk result (is_some (listed number_of_shard (parts held.new.shards) number) ≡ true) }
    ensures kept { (i : ℕ) → i ≢ number → listed number_of_shard (parts held.new.shards) i ≡ listed number_of_shard (parts held.old.shards) i }
    ensures paused { (w : ℕ) → IsPaused A.place (whole (waits_held held.new.shards) w) }
    ensures refused { OnErr result (parts held.new.shards ≡ parts held.old.shards) }
    ensures others { ButShards held.old held.new }
    ensures carries { (program : ProgramView) (n : ℕ) (l : Lane A) → IsCarrying A.over A.stands program code.now table.now.id n worker.old (desk_taken (part_seen C.least C.faults C.readings) n code.now worker.old.number l None held.old) → IsCarrying A.over A.stands program code.now table.now.id n worker.new (desk_taken (part_seen C.least C.faults C.readings) n code.now worker.old.number l None held.new) }
{
    held.shards.reserve(1)?;
    load_one(rt, table, code, worker, number, &mut held.shards);
    Ok(())
}

/// Holds the worker's own ready part, once it is free, and moves it out into what is held.
pub(crate) fn take_ready<R: Wait, A: Agent, C: Clock + Drop>(
    rt: &R,
    table: &Table<Pool<A, C>>,
    code: &ValidCode,
    worker: &mut Worker<A, C>,
    held: &mut Held<A>,
)
    requires carries { (program : ProgramView) × (n : ℕ) × (l : Lane A) × (clock : Option (ClockBox C)) × IsCarrying A.over A.stands program code.now table.now.id n worker.old (desk_taken (part_seen C.least C.faults C.readings) n code.now worker.old.number l clock held.old) }
    requires ready { held.old.ready ≡ None }
    ensures same { SameWorker worker.old worker.new }
    ensures turns { SameTurns worker.old.hand worker.new.hand }
    ensures entries { worker.new.entries ≡ worker.old.entries }
    ensures there { IsSome held.new.ready }
    ensures others { ButReady held.old held.new }
    ensures carries { (program : ProgramView) (n : ℕ) (l : Lane A) (clock : Option (ClockBox C)) → IsCarrying A.over A.stands program code.now table.now.id n worker.old (desk_taken (part_seen C.least C.faults C.readings) n code.now worker.old.number l clock held.old) → IsCarrying A.over A.stands program code.now table.now.id n worker.new (desk_taken (part_seen C.least C.faults C.readings) n code.now worker.old.number l clock held.new) }
{
    let number = worker.number;
    held.ready = Some(hold_ready(rt, table, code, worker, number));
}

/// The clockwork, once it is free, moved out of the hand.
pub(crate) fn take_clock<R: Wait, A: Agent, C: Clock + Drop>(
    rt: &R,
    table: &Table<Pool<A, C>>,
    code: &ValidCode,
    worker: &mut Worker<A, C>,
    held: &Held<A>,
) -> Box<Clockwork<C>>
    requires carries { (program : ProgramView) × (n : ℕ) × (l : Lane A) × IsCarrying A.over A.stands program code.now table.now.id n worker.old (desk_taken (part_seen C.least C.faults C.readings) n code.now worker.old.number l None held.now) }
    requires ready { held.now.ready ≡ None }
    ensures same { SameWorker worker.old worker.new }
    ensures turns { SameTurns worker.old.hand worker.new.hand }
    ensures entries { worker.new.entries ≡ worker.old.entries }
    ensures timely { result.value.timers.moment ≤ C.least result.value.clock }
    ensures carries { (program : ProgramView) (n : ℕ) (l : Lane A) → IsCarrying A.over A.stands program code.now table.now.id n worker.old (desk_taken (part_seen C.least C.faults C.readings) n code.now worker.old.number l None held.now) → IsCarrying A.over A.stands program code.now table.now.id n worker.new (desk_taken (part_seen C.least C.faults C.readings) n code.now worker.old.number l (Some result) held.now) }
{
    let place = worker.workers + 32;
    match hold_at(rt, table, code, worker, place) {
        Contents::Timers(clockwork) => clockwork,
        _ => unreachable!(),
    }
}

/// The clockwork, moved out of the hand, where it is free.
pub(crate) fn try_clock<A: Agent, C: Clock + Drop>(
    table: &Table<Pool<A, C>>,
    code: &ValidCode,
    worker: &mut Worker<A, C>,
    held: &Held<A>,
) -> Option<Box<Clockwork<C>>>
    requires carries { (program : ProgramView) × (n : ℕ) × (l : Lane A) × IsCarrying A.over A.stands program code.now table.now.id n worker.old (desk_taken (part_seen C.least C.faults C.readings) n code.now worker.old.number l None held.now) }
    ensures same { SameWorker worker.old worker.new }
    ensures turns { SameTurns worker.old.hand worker.new.hand }
    ensures entries { worker.new.entries ≡ worker.old.entries }
    ensures timely { IfSome result (λ t. t.value.timers.moment ≤ C.least t.value.clock) }
    ensures carries { (program : ProgramView) (n : ℕ) (l : Lane A) → IsCarrying A.over A.stands program code.now table.now.id n worker.old (desk_taken (part_seen C.least C.faults C.readings) n code.now worker.old.number l None held.now) → IsCarrying A.over A.stands program code.now table.now.id n worker.new (desk_taken (part_seen C.least C.faults C.readings) n code.now worker.old.number l result held.now) }
    ensures free { IfNone result (hands_stood_for worker.old.hand.view < worker.old.hand.view.hands) }
{
    let place = worker.workers + 32;
    match try_hold_at(table, code, worker, place) {
        None => None,
        Some(contents) => match contents {
            Contents::Timers(clockwork) => Some(clockwork),
            _ => unreachable!(),
        },
    }
}

// Holds one bank where it is free, and moves it out into the list; false where it isn't.
fn try_bank<R: Wait, A: Agent, C: Clock + Drop>(
    rt: &R,
    table: &Table<Pool<A, C>>,
    code: &ValidCode,
    worker: &mut Worker<A, C>,
    number: u64,
    banks: &mut Banks,
) -> bool
    requires carries { (program : ProgramView) × (n : ℕ) × (h : Carries (Part A C × PartSeen A)) × IsCarrying A.over A.stands program code.now table.now.id n worker.old (with_row bank_row (lifted n code.now Bank (part_seen C.least C.faults C.readings) number_of_bank (parts banks.old)) h) }
    requires number { number < 16 }
    requires none { listed number_of_bank (parts banks.old) number ≡ None }
    requires room { 0 < spare_parts banks.old }
    ensures same { SameWorker worker.old worker.new }
    ensures turns { SameTurns worker.old.hand worker.new.hand }
    ensures entries { worker.new.entries ≡ worker.old.entries }
    ensures told { OnTrue result (is_some (listed number_of_bank (parts banks.new) number) ≡ true) }
    ensures kept { (i : ℕ) → i ≢ number → listed number_of_bank (parts banks.new) i ≡ listed number_of_bank (parts banks.old) i }
    ensures sound { (x : HeldBank) → listed number_of_bank (parts banks.new) number ≡ Some x → IsSound A.over A.place (valid_code code.now) worker.old.workers (worker.old.workers + number) (held_of (contents_seen C.least C.faults C.readings (Bank x))) }
    ensures room { spare_parts banks.old ≤ spare_parts banks.new + 1 }
    ensures carries { (program : ProgramView) (n : ℕ) (h : Carries (Part A C × PartSeen A)) → IsCarrying A.over A.stands program code.now table.now.id n worker.old (with_row bank_row (lifted n code.now Bank (part_seen C.least C.faults C.readings) number_of_bank (parts banks.old)) h) → IsCarrying A.over A.stands program code.now table.now.id n worker.new (with_row bank_row (lifted n code.now Bank (part_seen C.least C.faults C.readings) number_of_bank (parts banks.new)) h) }
    ensures free { result ≡ false → hands_stood_for worker.old.hand.view < worker.old.hand.view.hands }
{
    let place = worker.workers + number;
    match try_hold_at(table, code, worker, place) {
        None => false,
        Some(contents) => {
            let bank = bank_of(contents);
            if bank.number() != number {
                // A bank stands at its own number in every run.
                wait_for_good(rt);
                unreachable!()
            }
            banks.push(bank);
            true
        }
    }
}

// The same, where it is wanted.
fn try_wanted<R: Wait, A: Agent, C: Clock + Drop>(
    rt: &R,
    table: &Table<Pool<A, C>>,
    code: &ValidCode,
    worker: &mut Worker<A, C>,
    wanted: bool,
    number: u64,
    banks: &mut Banks,
) -> bool
    requires carries { (program : ProgramView) × (n : ℕ) × (h : Carries (Part A C × PartSeen A)) × IsCarrying A.over A.stands program code.now table.now.id n worker.old (with_row bank_row (lifted n code.now Bank (part_seen C.least C.faults C.readings) number_of_bank (parts banks.old)) h) }
    requires number { number < 16 }
    requires none { listed number_of_bank (parts banks.old) number ≡ None }
    requires room { 0 < spare_parts banks.old }
    ensures same { SameWorker worker.old worker.new }
    ensures turns { SameTurns worker.old.hand worker.new.hand }
    ensures entries { worker.new.entries ≡ worker.old.entries }
    ensures told { OnTrue result (is_some (listed number_of_bank (parts banks.new) number) ≡ wanted) }
    ensures kept { (i : ℕ) → i ≢ number → listed number_of_bank (parts banks.new) i ≡ listed number_of_bank (parts banks.old) i }
    ensures sound { (x : HeldBank) → listed number_of_bank (parts banks.new) number ≡ Some x → IsSound A.over A.place (valid_code code.now) worker.old.workers (worker.old.workers + number) (held_of (contents_seen C.least C.faults C.readings (Bank x))) }
    ensures room { spare_parts banks.old ≤ spare_parts banks.new + 1 }
    ensures carries { (program : ProgramView) (n : ℕ) (h : Carries (Part A C × PartSeen A)) → IsCarrying A.over A.stands program code.now table.now.id n worker.old (with_row bank_row (lifted n code.now Bank (part_seen C.least C.faults C.readings) number_of_bank (parts banks.old)) h) → IsCarrying A.over A.stands program code.now table.now.id n worker.new (with_row bank_row (lifted n code.now Bank (part_seen C.least C.faults C.readings) number_of_bank (parts banks.new)) h) }
    ensures free { result ≡ false → hands_stood_for worker.old.hand.view < worker.old.hand.view.hands }
{
    if wanted {
        try_bank(rt, table, code, worker, number, banks)
    } else {
        true
    }
}

// The bank that a part is.
fn bank_of<A: Agent, C: Clock + Drop>(contents: Contents<A, C>) -> HeldBank
    requires { contents_kind contents ≡ bank_kind }
    ensures { Bank result ≡ contents }
{
    match contents {
        Contents::Bank(bank) => bank,
        _ => unreachable!(),
    }
}

// Holds these banks, one after another, where they are free, and moves them out into the list; false at the first that
// isn't.
fn try_load<R: Wait, A: Agent, C: Clock + Drop>(
    rt: &R,
    table: &Table<Pool<A, C>>,
    code: &ValidCode,
    worker: &mut Worker<A, C>,
    homes: &Homes,
    banks: &mut Banks,
) -> bool
    requires carries { (program : ProgramView) × (n : ℕ) × (h : Carries (Part A C × PartSeen A)) × HasNone bank_row h × IsCarrying A.over A.stands program code.now table.now.id n worker.old h }
    requires empty { parts banks.old ≡ [] }
    requires room { 16 ≤ spare_parts banks.old }
    ensures same { SameWorker worker.old worker.new }
    ensures turns { SameTurns worker.old.hand worker.new.hand }
    ensures entries { worker.new.entries ≡ worker.old.entries }
    ensures homes { OnTrue result ((i : ℕ) → i < 16 → is_some (listed number_of_bank (parts banks.new) i) ≡ has_home homes.now i) }
    ensures sound { (i : ℕ) (x : HeldBank) → listed number_of_bank (parts banks.new) i ≡ Some x → IsSound A.over A.place (valid_code code.now) worker.old.workers (worker.old.workers + i) (held_of (contents_seen C.least C.faults C.readings (Bank x))) }
    ensures carries { (program : ProgramView) (n : ℕ) (h : Carries (Part A C × PartSeen A)) → HasNone bank_row h → IsCarrying A.over A.stands program code.now table.now.id n worker.old h → IsCarrying A.over A.stands program code.now table.now.id n worker.new (with_row bank_row (lifted n code.now Bank (part_seen C.least C.faults C.readings) number_of_bank (parts banks.new)) h) }
    ensures free { result ≡ false → hands_stood_for worker.old.hand.view < worker.old.hand.view.hands }
{
    for number in 0..ALL {
        let free = try_wanted(rt, table, code, worker, homes.has(number), number, banks);
        if !free {
            return false;
        }
    }
    true
}

/// Holds these banks where they are free, and moves them out into what is held. Where one isn't, those before it are
/// held.
pub(crate) fn try_banks<R: Wait, A: Agent, C: Clock + Drop>(
    rt: &R,
    table: &Table<Pool<A, C>>,
    code: &ValidCode,
    worker: &mut Worker<A, C>,
    homes: &Homes,
    held: &mut Held<A>,
) -> Result<bool, OutOfMemory>
    requires carries { (program : ProgramView) × (n : ℕ) × (l : Lane A) × (clock : Option (ClockBox C)) × IsCarrying A.over A.stands program code.now table.now.id n worker.old (desk_taken (part_seen C.least C.faults C.readings) n code.now worker.old.number l clock held.old) }
    requires banks { parts held.old.banks ≡ [] }
    ensures same { SameWorker worker.old worker.new }
    ensures turns { SameTurns worker.old.hand worker.new.hand }
    ensures entries { worker.new.entries ≡ worker.old.entries }
    ensures banks { IfOk result (λ b. b ≡ true → (i : ℕ) → i < 16 → is_some (listed number_of_bank (parts held.new.banks) i) ≡ has_home homes.now i) }
    ensures placed { Placed (channels_held held.new.banks) }
    ensures others { ButBanks held.old held.new }
    ensures carries { (program : ProgramView) (n : ℕ) (l : Lane A) (clock : Option (ClockBox C)) → IsCarrying A.over A.stands program code.now table.now.id n worker.old (desk_taken (part_seen C.least C.faults C.readings) n code.now worker.old.number l clock held.old) → IsCarrying A.over A.stands program code.now table.now.id n worker.new (desk_taken (part_seen C.least C.faults C.readings) n code.now worker.old.number l clock held.new) }
    ensures free { IfOk result (λ b. b ≡ false → hands_stood_for worker.old.hand.view < worker.old.hand.view.hands) }
{
    held.banks.reserve(ALL)?;
    Ok(try_load(rt, table, code, worker, homes, &mut held.banks))
}
