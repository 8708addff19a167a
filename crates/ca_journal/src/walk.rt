// The events of several lists in order of number, read where they lie.
ghost use Rattle.std.specs.Prelude.{◌≡◌, ◌≤◌, ◌∷◌, true, length, map, List, Some, IfNone, IfSome};
ghost use Rattle.std.specs.Vec.{vec_capacity};
ghost use Rattle.ca_term.specs.Event.{EventView};
ghost use Rattle.ca_journal.specs.Kept.{upto};
ghost use Rattle.ca_journal.specs.Left.{entries_waiting};
ghost use Rattle.ca_journal.specs.Merge.{entries};
ghost use Rattle.ca_journal.specs.Rising.{all_rise};

use crate::entries::Entries;
use crate::entry::{Entry, Spot};
use crate::journal::Journal;
use crate::least::next;
use ca_value::memory::OutOfMemory;
use std::alloc::Global;

/// From where on a list is left: the list's place among the lists, and a place in it.
#[derive(Clone, Copy)]
pub struct Front {
    pub(crate) list: usize,
    pub(crate) spot: Spot,
}

/// A walk over the events, in order. Each step costs a look at the front of each list.
#[derive(Drop)]
pub struct Walk<'a> {
    pub(crate) lists: &'a [Entries],
    pub(crate) fronts: Vec<Front>,
    // So many events more are kept; all where this tells none.
    pub(crate) left: Option<u64>,
    ghost rising: { all_rise (map (entries_waiting lists.now) fronts.items) ≡ true },
    ghost roomy: { length lists.now ≤ vec_capacity fronts },
}

impl<'a> Walk<'a> {
    ghost use Rattle.std.specs.Prelude.{[], ◌++◌, IfOk, option_map, option_to_list};
    ghost use Rattle.ca_journal.specs.Coming.{coming};
    ghost use Rattle.ca_journal.specs.Events.{events};
    ghost use Rattle.ca_journal.specs.Merge.{events_of, in_order, joined};
    ghost use Rattle.ca_journal.specs.Note.{note_view};

    /// A walk from the first event on.
    pub fn of(alloc: Global, journal: &'a Journal) -> Result<Walk<'a>, OutOfMemory>
        ensures { IfOk result (λ w. coming w ≡ events journal.now) }
    {
        let lists = journal.lists.as_slice();
        let fronts = Vec::with_capacity(alloc, lists.len())?;
        Ok(Walk::over(lists, fronts, journal.kept))
    }

    /// A walk from the first event on, in this memory.
    pub(crate) fn over(lists: &'a [Entries], fronts: Vec<Front>, kept: Option<u64>) -> Walk<'a>
        requires room { length lists.now ≤ vec_capacity fronts }
        requires rising { all_rise (map entries lists.now) ≡ true }
        ensures coming { coming result ≡ upto kept (events_of (in_order (joined (map entries lists.now)))) }
        ensures lists { result.lists ≡ lists.entry }
    {
        let fronts = starts(lists, fronts);
        Walk {
            lists,
            fronts,
            left: kept,
        }
    }

    /// The next entry, or none where the walk is over.
    #[tactic(auto, using(crate::proofs::Rising::all_ascend_rise, crate::proofs::Rising::all_rise_ascend))]
    pub fn next(&mut self) -> Option<&'a Entry>
        ensures order { coming self.old ≡ option_to_list (option_map (λ e. note_view e.now.note) result) ++ coming self.new }
        ensures none { IfNone result (coming self.old ≡ []) }
        ensures lists { self.new.lists ≡ self.old.lists }
    {
        let left = behind_one(self.left)?;
        let entry = next(self.lists, &mut self.fronts)?;
        self.left = left;
        Some(entry)
    }
}

// The fronts of all lists, from their first entries on.
fn starts(lists: &[Entries], fronts: Vec<Front>) -> Vec<Front>
    requires { length lists.now ≤ vec_capacity fronts }
    ensures fronts { map (entries_waiting lists.now) result.items ≡ map entries lists.now }
    ensures room { vec_capacity result ≡ vec_capacity fronts }
{
    let mut fronts = fronts;
    fronts.clear();
    for list in 0..lists.len() {
        let spot = Spot { piece: 0, place: 0 };
        fronts.push_reserved(Front { list, spot });
    }
    fronts
}

// How many events are kept behind the next one; none where that isn't kept.
#[tactic(auto, using(crate::proofs::Walking::upto_cons))]
fn behind_one(left: Option<u64>) -> Option<Option<u64>>
    ensures over { IfNone result (left ≡ Some 0) }
    ensures behind { IfSome result (λ more. (e : EventView) (es : List EventView) → upto left (e ∷ es) ≡ e ∷ upto more es) }
{
    match left {
        Some(0) => None,
        Some(left) => Some(Some(left - 1)),
        None => Some(None),
    }
}
