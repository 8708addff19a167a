ghost use Rattle.std.specs.Prelude.{◌≡◌, true, map, IfOk};
ghost use Rattle.ca_journal.specs.Events.{events};
ghost use Rattle.ca_journal.specs.Merge.{entries, entry_view, events_of, in_order, joined, EachAscends};
ghost use Rattle.ca_journal.specs.Rising.{risen_from, rises_from, all_rise};

use crate::entries::Entries;
use crate::entry::Entry;
use crate::journal::Journal;
use ca_value::memory::OutOfMemory;
use std::alloc::Global;

/// The events of all entries, in order of number, the numbers of each list never falling. Of two entries of one number
/// that of the earlier list stands first. The lists stay as they are; the memory that is taken serves `cut`.
#[tactic(auto, using(crate::proofs::Rising::all_ascend_rise))]
pub fn merge(alloc: Global, lists: Vec<Entries>) -> Result<Journal, OutOfMemory>
    requires { EachAscends (map entries lists.items) }
    ensures { IfOk result (λ j. events j ≡ events_of (in_order (joined (map entries lists.items)))) }
{
    let fronts = Vec::with_capacity(alloc, lists.len())?;
    Ok(Journal {
        lists,
        fronts,
        kept: None,
    })
}

/// Whether the numbers of each list never fall.
#[tactic(auto, using(crate::proofs::Rising::all_rise_ascend, crate::proofs::Rising::all_ascend_rise))]
pub fn all_ascend(lists: &[Entries]) -> bool
    ensures yes { result ≡ true → EachAscends (map entries lists.now) }
    ensures no { EachAscends (map entries lists.now) → result ≡ true }
{
    all_rise(lists)
}

fn all_rise(lists: &[Entries]) -> bool
    ensures { result ≡ all_rise (map entries lists.now) }
{
    for list in lists {
        if !rises(list) {
            return false;
        }
    }
    true
}

fn rises(list: &Entries) -> bool
    ensures { result ≡ rises_from 0 (entries list.now) }
{
    let mut least = Some(0);
    for piece in &list.full {
        least = rises_to(least, piece.as_slice());
    }
    rises_to(least, list.last.as_slice()).is_some()
}

// The last number, where none is lower than the one before it, nor the first than `least`.
fn rises_to(least: Option<u64>, piece: &[Entry]) -> Option<u64>
    ensures { result ≡ risen_from least (map entry_view piece.now) }
{
    let mut least = least?;
    for entry in piece {
        if entry.number < least {
            return None;
        }
        least = entry.number;
    }
    Some(least)
}
