ghost use Rattle.std.specs.Prelude.{◌≡◌, ◌≤◌, true, length, map};
ghost use Rattle.std.specs.Vec.{vec_capacity};
ghost use Rattle.ca_journal.specs.Merge.{entries};
ghost use Rattle.ca_journal.specs.Rising.{all_rise};

use crate::entries::Entries;
use crate::walk::Front;
use ca_value::memory::OutOfMemory;
use std::alloc::Global;

/// The events of a run, in order of number: the lists of all workers, as they are. Of two events of one number that of
/// the earlier list stands first.
#[derive(Drop)]
pub struct Journal {
    pub(crate) lists: Vec<Entries>,
    // The memory of a walk over the lists.
    pub(crate) fronts: Vec<Front>,
    // So many events are kept, from the first on; all where this tells none.
    pub(crate) kept: Option<u64>,
    ghost rising: { all_rise (map entries lists.items) ≡ true },
    ghost roomy: { length lists.items ≤ vec_capacity fronts },
}

impl Journal {
    ghost use Rattle.std.specs.Prelude.{take, IfOk, IfSome};
    ghost use Rattle.ca_journal.specs.Events.{events};
    ghost use Rattle.ca_journal.specs.Merge.{Ascends, events_of};

    /// The events of one list, whose numbers never fall.
    #[tactic(auto, using(crate::proofs::OnlyList::of_one, crate::proofs::OnlyList::one_rises))]
    pub fn of(alloc: Global, list: Entries) -> Result<Journal, OutOfMemory>
        requires { Ascends (entries list) }
        ensures { IfOk result (λ j. events j ≡ events_of (entries list)) }
    {
        let mut lists = Vec::new(alloc);
        lists.push(list)?;
        let fronts = Vec::with_capacity(alloc, 1)?;
        Ok(Journal {
            lists,
            fronts,
            kept: None,
        })
    }

    /// The list where there is just one, whose events are all kept.
    pub(crate) fn only_list(&self) -> Option<&Entries>
        ensures { IfSome result (λ l. events self.now ≡ events_of (entries l.now)) }
    {
        if self.kept.is_some() || self.lists.len() != 1 {
            return None;
        }
        self.lists.first()
    }

    /// No more events than so many, from the first on.
    pub(crate) fn upto(self, count: u64) -> Journal
        ensures { events result ≡ take count (events self) }
    {
        let kept = match self.kept {
            Some(kept) => kept.min(count),
            None => count,
        };
        let Journal {
            lists,
            fronts,
            kept: _,
        } = self;
        Journal {
            lists,
            fronts,
            kept: Some(kept),
        }
    }
}
