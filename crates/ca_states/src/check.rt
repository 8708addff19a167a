ghost use Rattle.std.specs.Prelude.{◌≡◌, ℕ, ◌+◌, ◌^◌, ◌<◌, ◌≤◌, length, map, true, not, cond, nat_lt, IsTrue};
ghost use Rattle.std.specs.Bool.{OnTrue};
ghost use Rattle.ca_value.specs.Seq.{list};
ghost use Rattle.ca_states.specs.Code.{Slots, has_slot, slots_view, instruction, block_at, block_view};
ghost use Rattle.ca_states.specs.Machine.{slots_from};
ghost use Rattle.ca_states.specs.Touched.{read_by, read_at, emptied_at, answered_at, targets};
ghost use Rattle.ca_states.specs.Valid.{each, are_below, after_instruction, known_after, reads_known, known_past, are_entry_slots_known, targets_known, are_just, begins_well, is_instruction_in_range, is_in_range, knows_slots, is_valid, is_valid_block, are_valid_blocks};
ghost use Rattle.ca_states.specs.Views.{texts_view};
ghost use Rattle.ca_states.specs.Told.{slot_told, IsBefore};

use crate::code::{Block, EntryPoint, Exit, Instr, SlotSet};
use crate::notes::Notes;
use crate::range::Texts;

impl Notes {
    /// Whether the slots that the instruction reads are known; and what it does to its slots is noted.
    pub fn pass(&mut self, entry: &SlotSet, width: u64, instr: &Instr) -> bool
        requires wide { width ≤ length (list self.old.marks) }
        requires range { IsTrue (is_instruction_in_range width (instruction instr.now)) }
        ensures reads { result ≡ each (slot_told self.old (slots_view entry.now)) (read_by (instruction instr.now)) }
        ensures told { (s : Slots) (k : ℕ) → slot_told self.new s k ≡ after_instruction (instruction instr.now) (slot_told self.old s) k }
        ensures same { length (list self.new.marks) ≡ length (list self.old.marks) }
        ensures block { self.new.block ≡ self.old.block }
        ensures before { (n : ℕ) → self.old.block < n → IsBefore self.old n → IsBefore self.new n }
    {
        let known = self.are_known(entry, instr.reads());
        self.note_all(false, instr.empties());
        self.note_all(true, instr.writes());
        known
    }

    /// Whether each slot that the instructions read is known there; and what they do to slots is noted.
    pub fn pass_all(&mut self, entry: &SlotSet, width: u64, instrs: &[Instr]) -> bool
        requires wide { width ≤ length (list self.old.marks) }
        requires range { IsTrue (each (is_instruction_in_range width) (map instruction instrs.now)) }
        ensures reads { result ≡ reads_known (slot_told self.old (slots_view entry.now)) (map instruction instrs.now) }
        ensures told { OnTrue result ((k : ℕ) → slot_told self.new (slots_view entry.now) k ≡ known_after (slot_told self.old (slots_view entry.now)) (map instruction instrs.now) k) }
        ensures same { length (list self.new.marks) ≡ length (list self.old.marks) }
        ensures block { self.new.block ≡ self.old.block }
        ensures before { (n : ℕ) → self.old.block < n → IsBefore self.old n → IsBefore self.new n }
    {
        for instr in instrs {
            if !self.pass(entry, width, instr) {
                return false;
            }
        }
        true
    }

    /// What the exit does to its slots is noted, the answer's slot as known.
    pub fn pass_exit(&mut self, width: u64, exit: &Exit)
        requires wide { width ≤ length (list self.old.marks) }
        requires empties { IsTrue (are_below width (emptied_at exit.now)) }
        requires answers { IsTrue (are_below width (answered_at exit.now)) }
        ensures told { (s : Slots) (k : ℕ) → slot_told self.new s k ≡ known_past exit.now (slot_told self.old s) k }
        ensures same { length (list self.new.marks) ≡ length (list self.old.marks) }
        ensures block { self.new.block ≡ self.old.block }
        ensures before { (n : ℕ) → self.old.block < n → IsBefore self.old n → IsBefore self.new n }
    {
        self.note_all(false, exit.empties());
        self.note_all(true, exit.answers());
    }

    // Whether all slots of the other set are known, where `entry` are the block's entry slots.
    #[tactic(auto, using(crate::proofs::RowLaws::each_up, crate::proofs::RowLaws::each_up_end))]
    fn are_entry_slots_known(&self, entry: &SlotSet, others: &SlotSet) -> bool
        ensures { result ≡ are_entry_slots_known (slot_told self.now (slots_view entry.now)) (slots_view others.now) }
    {
        for slot in 0..others.below {
            if others.has(slot) && !self.is_known(entry, slot) {
                return false;
            }
        }
        true
    }
}

impl SlotSet {
    // Whether they are just so many, from slot 0 on.
    #[tactic(auto, using(crate::proofs::RowLaws::each_up, crate::proofs::RowLaws::each_up_end))]
    fn are_just(&self, count: u64) -> bool
        ensures { result ≡ are_just count (slots_view self.now) }
    {
        if self.below < count {
            return false;
        }
        for slot in 0..self.below {
            if self.has(slot) != (slot < count) {
                return false;
            }
        }
        true
    }
}

impl Texts {
    // Whether the entry slots of a block are known.
    fn is_target_known(&self, notes: &Notes, entry: &SlotSet, number: u64) -> bool
        ensures { result ≡ are_entry_slots_known (slot_told notes.now (slots_view entry.now)) (block_at (texts_view self.now) number).entry }
    {
        match self.blocks.get(number) {
            Some(block) => notes.are_entry_slots_known(entry, &block.entry),
            None => true,
        }
    }

    // Whether the entry slots of each target are known.
    fn are_targets_known(&self, notes: &Notes, entry: &SlotSet, exit: &Exit) -> bool
        ensures { result ≡ each (λ n. are_entry_slots_known (slot_told notes.now (slots_view entry.now)) (block_at (texts_view self.now) n).entry) (targets exit.now) }
    {
        match exit {
            Exit::Jump { next, .. } => self.is_target_known(notes, entry, *next),
            Exit::Branch { yes, no, .. } => {
                self.is_target_known(notes, entry, *yes) && self.is_target_known(notes, entry, *no)
            }
            Exit::Test { yes, no, .. } => {
                self.is_target_known(notes, entry, *yes) && self.is_target_known(notes, entry, *no)
            }
            Exit::TestInt { yes, no, .. } => {
                self.is_target_known(notes, entry, *yes) && self.is_target_known(notes, entry, *no)
            }
            Exit::Call { next, .. } => self.is_target_known(notes, entry, *next),
            Exit::Return { .. } => true,
            Exit::Cut { next, .. } => self.is_target_known(notes, entry, *next),
        }
    }

    // Whether the entry point's block is there, and has just so many entry slots.
    fn begins_well(&self, entry: &EntryPoint) -> bool
        ensures { result ≡ begins_well (texts_view self.now) entry.now }
    {
        match self.blocks.get(entry.block) {
            Some(block) => block.entry.are_just(entry.values),
            None => false,
        }
    }

    // Whether each of them begins well.
    fn begin_well(&self, entries: &[EntryPoint]) -> bool
        ensures { result ≡ each (begins_well (texts_view self.now)) entries.now }
    {
        for entry in entries {
            if !self.begins_well(entry) {
                return false;
            }
        }
        true
    }
}

impl Texts {
    // Whether each slot that the block reads is known there, and the entry slots of its targets are at its exit.
    fn knows_slots(&self, notes: &mut Notes, block: &Block) -> bool
        requires wide { self.now.width ≤ length (list notes.old.marks) }
        requires range { IsTrue (is_in_range (texts_view self.now) (block_view block.now)) }
        requires told { (k : ℕ) → slot_told notes.old (slots_view block.now.entry) k ≡ has_slot (slots_view block.now.entry) k }
        ensures knows { result ≡ knows_slots (texts_view self.now) (block_view block.now) }
        ensures same { length (list notes.new.marks) ≡ length (list notes.old.marks) }
        ensures before { (n : ℕ) → notes.old.block < n → IsBefore notes.old n → IsBefore notes.new n }
    {
        if !notes.pass_all(&block.entry, block.width, block.instrs.as_slice()) {
            return false;
        }
        if !notes.are_known(&block.entry, block.exit.reads()) {
            return false;
        }
        notes.pass_exit(block.width, &block.exit);
        self.are_targets_known(notes, &block.entry, &block.exit)
    }

    // Whether the block, of that number, is valid by all rules for one block.
    fn is_valid_block(&self, notes: &mut Notes, number: u64, block: &Block) -> bool
        requires wide { self.now.width ≤ length (list notes.old.marks) }
        requires fits { number + 1 < 2 ^ 64 }
        requires before { IsBefore notes.old (number + 1) }
        ensures valid { result ≡ is_valid_block (texts_view self.now) number (block_view block.now) }
        ensures same { length (list notes.new.marks) ≡ length (list notes.old.marks) }
        ensures before { IsBefore notes.new (number + 1 + 1) }
    {
        notes.begin(number + 1);
        if !self.is_in_range(block) {
            return false;
        }
        if !block.exit.leads_forward(number) {
            return false;
        }
        self.knows_slots(notes, block)
    }

    // Whether each block is valid by all rules for one block.
    fn are_valid_blocks(&self, notes: &mut Notes) -> bool
        requires wide { self.now.width ≤ length (list notes.old.marks) }
        requires before { IsBefore notes.old 1 }
        ensures valid { result ≡ are_valid_blocks (texts_view self.now) 0 (texts_view self.now).blocks }
        ensures same { length (list notes.new.marks) ≡ length (list notes.old.marks) }
    {
        for number in 0..self.blocks.len() {
            match self.blocks.get(number) {
                Some(block) => {
                    if !self.is_valid_block(notes, number, block) {
                        return false;
                    }
                }
                None => return true,
            }
        }
        true
    }

    /// Whether the code is valid by all five rules.
    pub fn is_valid(&self, notes: &mut Notes) -> bool
        requires wide { self.now.width ≤ length (list notes.old.marks) }
        requires before { IsBefore notes.old 1 }
        ensures valid { result ≡ is_valid (texts_view self.now) }
        ensures same { length (list notes.new.marks) ≡ length (list notes.old.marks) }
    {
        let main = EntryPoint {
            block: self.main,
            values: 0,
        };
        let identity = EntryPoint {
            block: self.identity,
            values: 1,
        };
        self.are_valid_blocks(notes)
            && self.begins_well(&main)
            && self.begins_well(&identity)
            && self.begin_well(self.bodies.as_slice())
            && self.begin_well(self.functions.as_slice())
    }
}
