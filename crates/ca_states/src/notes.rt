ghost use Rattle.std.specs.Prelude.{◌≡◌, ℕ, ◌+◌, ◌<◌, length, IsTrue};
ghost use Rattle.ca_value.specs.Seq.{list};
ghost use Rattle.ca_states.specs.Code.{Slots, has_slot, slots_view, is_slot_among};
ghost use Rattle.ca_states.specs.Machine.{slots_from};
ghost use Rattle.ca_states.specs.Valid.{each, are_below, slot_noted, noted_all};
ghost use Rattle.ca_states.specs.Views.{slot_numbers};
ghost use Rattle.ca_states.specs.Told.{slot_told, IsBefore};

use crate::code::{Mark, SlotSet};
use crate::touch::Numbers;
use ca_value::seq::Seq;

impl SlotSet {
    /// Whether the slot is one of them.
    pub fn has(&self, slot: u64) -> bool
        ensures { result ≡ has_slot (slots_view self.now) slot }
    {
        slot < self.below && !is_hole(self.holes.as_slice(), slot)
    }
}

// Whether the slot is one of the holes.
fn is_hole(holes: &[u64], slot: u64) -> bool
    ensures { result ≡ is_slot_among slot holes.now }
{
    for hole in holes {
        if slot == *hole {
            return true;
        }
    }
    false
}

/// What is known of slots at a place of a block, beside its entry slots: what was last said of each, in
/// which block, and the number of this block, counted from 1.
pub struct Notes {
    pub marks: Seq<Mark>,
    pub block: u64,
}

impl Notes {
    /// Nothing is said.
    pub fn new(marks: Seq<Mark>) -> Notes
        ensures same { length (list result.marks) ≡ length (list marks) }
        ensures before { IsBefore result 1 }
    {
        let mut marks = marks;
        for i in 0..marks.len() {
            marks.set(
                i,
                Mark {
                    block: 0,
                    known: false,
                },
            );
        }
        Notes { marks, block: 0 }
    }

    /// In the block of that number nothing is said yet.
    pub fn begin(&mut self, block: u64)
        requires { IsBefore self.old block }
        ensures same { length (list self.new.marks) ≡ length (list self.old.marks) }
        ensures block { self.new.block ≡ block }
        ensures told { (s : Slots) (k : ℕ) → slot_told self.new s k ≡ has_slot s k }
        ensures before { IsBefore self.new (block + 1) }
    {
        self.block = block;
    }

    /// Whether a slot is known, where these are the entry slots.
    pub fn is_known(&self, entry: &SlotSet, slot: u64) -> bool
        ensures { result ≡ slot_told self.now (slots_view entry.now) slot }
    {
        match self.marks.get(slot) {
            Some(mark) => {
                if mark.block == self.block {
                    mark.known
                } else {
                    entry.has(slot)
                }
            }
            None => entry.has(slot),
        }
    }

    /// Whether all of these slots are known.
    pub fn are_known(&self, entry: &SlotSet, slots: Numbers) -> bool
        requires { IsTrue (are_below (length (list self.now.marks)) (slot_numbers slots)) }
        ensures { result ≡ each (slot_told self.now (slots_view entry.now)) (slot_numbers slots) }
    {
        match slots {
            Numbers::None => true,
            Numbers::One(a) => self.is_known(entry, a),
            Numbers::Two(a, b) => self.is_known(entry, a) && self.is_known(entry, b),
            Numbers::Three(a, b, c) => {
                self.is_known(entry, a) && self.is_known(entry, b) && self.is_known(entry, c)
            }
            Numbers::Range { from, count } => self.is_range_known(entry, from, count),
        }
    }

    // Whether so many slots from one on are known.
    #[tactic(auto, using(crate::proofs::RowLaws::each_range, crate::proofs::RowLaws::each_range_start, crate::proofs::RowLaws::each_range_end, crate::proofs::RowLaws::row_within))]
    fn is_range_known(&self, entry: &SlotSet, from: u64, count: u64) -> bool
        requires { IsTrue (are_below (length (list self.now.marks)) (slots_from from count)) }
        ensures { result ≡ each (slot_told self.now (slots_view entry.now)) (slots_from from count) }
    {
        // Each of the slots is below it, so its number fits.
        let _width = self.marks.len();
        for i in 0..count {
            if !self.is_known(entry, from + i) {
                return false;
            }
        }
        true
    }

    /// The slot is known from here on, or unknown.
    #[tactic(auto, using(crate::proofs::RowLaws::said_set, crate::proofs::RowLaws::before_set))]
    pub fn note(&mut self, known: bool, slot: u64)
        requires { slot < length (list self.old.marks) }
        ensures same { length (list self.new.marks) ≡ length (list self.old.marks) }
        ensures block { self.new.block ≡ self.old.block }
        ensures told { (s : Slots) (k : ℕ) → slot_told self.new s k ≡ slot_noted known slot (slot_told self.old s) k }
        ensures before { (n : ℕ) → self.old.block < n → IsBefore self.old n → IsBefore self.new n }
    {
        let block = self.block;
        self.marks.set(slot, Mark { block, known });
    }

    /// All of these slots are known from here on, or unknown.
    pub fn note_all(&mut self, known: bool, slots: Numbers)
        requires { IsTrue (are_below (length (list self.old.marks)) (slot_numbers slots)) }
        ensures same { length (list self.new.marks) ≡ length (list self.old.marks) }
        ensures block { self.new.block ≡ self.old.block }
        ensures told { (s : Slots) (k : ℕ) → slot_told self.new s k ≡ noted_all known (slot_numbers slots) (slot_told self.old s) k }
        ensures before { (n : ℕ) → self.old.block < n → IsBefore self.old n → IsBefore self.new n }
    {
        match slots {
            Numbers::None => {}
            Numbers::One(a) => self.note(known, a),
            Numbers::Two(a, b) => {
                self.note(known, a);
                self.note(known, b);
            }
            Numbers::Three(a, b, c) => {
                self.note(known, a);
                self.note(known, b);
                self.note(known, c);
            }
            Numbers::Range { from, count } => self.note_range(known, from, count),
        }
    }

    // So many slots from one on are known from here on, or unknown.
    #[tactic(auto, using(crate::proofs::RowLaws::row_within))]
    fn note_range(&mut self, known: bool, from: u64, count: u64)
        requires { IsTrue (are_below (length (list self.old.marks)) (slots_from from count)) }
        ensures same { length (list self.new.marks) ≡ length (list self.old.marks) }
        ensures block { self.new.block ≡ self.old.block }
        ensures told { (s : Slots) (k : ℕ) → slot_told self.new s k ≡ noted_all known (slots_from from count) (slot_told self.old s) k }
        ensures before { (n : ℕ) → self.old.block < n → IsBefore self.old n → IsBefore self.new n }
    {
        // Each of the slots is below it, so its number fits.
        let _width = self.marks.len();
        for i in 0..count {
            self.note(known, from + i);
        }
    }
}
