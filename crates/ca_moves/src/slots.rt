//! Some slots of a text: those that a place of a block needs, or those that hold a value there.
use ca_states::code::{Exit, Instr, SlotSet};
use ca_value::memory::OutOfMemory;
use ca_value::seq::Seq;
use std::alloc::Global;

/// Some of a text's slots.
#[derive(Drop)]
pub(crate) struct Slots {
    slots: Seq<bool>,
}

impl Slots {
    /// None of so many slots.
    pub(crate) fn new(alloc: Global, width: u64) -> Result<Slots, OutOfMemory> {
        let mut slots = Seq::new(alloc);
        for _slot in 0..width {
            slots.reserve(1)?;
            slots.push(false);
        }
        Ok(Slots { slots })
    }

    /// Whether that is one of them.
    pub(crate) fn has(&self, slot: u64) -> bool {
        match self.slots.get(slot) {
            Some(has) => *has,
            None => false,
        }
    }

    /// How many slots there are.
    pub(crate) fn width(&self) -> u64 {
        self.slots.len()
    }

    /// The slot is one of them now, or none.
    pub(crate) fn put(&mut self, slot: u64, has: bool) {
        if slot < self.slots.len() {
            self.slots.set(slot, has);
        }
    }

    fn put_row(&mut self, from: u64, count: u64, has: bool) {
        for i in 0..count {
            self.put(from.saturating_add(i), has);
        }
    }

    /// With the others.
    pub(crate) fn add(&mut self, other: &Slots) {
        for slot in 0..other.slots.len() {
            if other.has(slot) {
                self.put(slot, true);
            }
        }
    }

    /// Without the others.
    pub(crate) fn remove(&mut self, other: &Slots) {
        for slot in 0..other.slots.len() {
            if other.has(slot) {
                self.put(slot, false);
            }
        }
    }

    /// With those of the set.
    pub(crate) fn add_set(&mut self, set: &SlotSet) {
        for slot in 0..set.below {
            if set.has(slot) {
                self.put(slot, true);
            }
        }
    }

    /// Whether it has a slot that the other hasn't.
    pub(crate) fn has_more(&self, other: &Slots) -> bool {
        for slot in 0..self.slots.len() {
            if self.has(slot) && !other.has(slot) {
                return true;
            }
        }
        false
    }

    /// How many slots it hasn't below the last one that it has.
    pub(crate) fn holes(&self) -> u64 {
        let mut slots: u64 = 0;
        let mut holes: u64 = 0;
        for slot in 0..self.slots.len() {
            if self.has(slot) {
                holes = slot.saturating_sub(slots);
                slots = slots.saturating_add(1);
            }
        }
        holes
    }

    /// As a set of slots.
    pub(crate) fn as_set(&self, alloc: Global) -> Result<SlotSet, OutOfMemory> {
        let mut below = 0;
        let mut holes = Seq::new(alloc);
        for slot in 0..self.slots.len() {
            if self.has(slot) {
                for hole in below..slot {
                    holes.reserve(1)?;
                    holes.push(hole);
                }
                below = slot + 1;
            }
        }
        Ok(SlotSet { below, holes })
    }

    // One slot is read for the other; the answer is whether it is free afterwards.
    fn read_one(&mut self, to: u64, from: u64) -> bool {
        self.put(to, false);
        let free = !self.has(from);
        self.put(from, true);
        free
    }

    /// What is needed before the instruction; the answer is whether the slot that it reads first is free after it.
    pub(crate) fn pass(&mut self, instr: &Instr) -> bool {
        match instr {
            Instr::Const { to, .. } | Instr::Clear { slot: to } => {
                self.put(*to, false);
                false
            }
            Instr::Copy { to, from }
            | Instr::Move { to, from }
            | Instr::One {
                to,
                operand: from,
                ..
            }
            | Instr::TwoInt { to, left: from, .. } => self.read_one(*to, *from),
            Instr::Many {
                to,
                from,
                count,
                ..
            } => {
                self.put(*to, false);
                self.put_row(*from, *count, true);
                false
            }
            _ => self.pass_several(instr),
        }
    }

    // The same, of an instruction that reads more than one slot where it lies.
    fn pass_several(&mut self, instr: &Instr) -> bool {
        match instr {
            Instr::Two {
                to,
                left,
                right,
                ..
            }
            | Instr::Push {
                to,
                collection: left,
                item: right,
                ..
            } => {
                let free = self.read_one(*to, *left);
                self.put(*right, true);
                free
            }
            Instr::Put {
                to,
                collection,
                key,
                value,
                ..
            } => {
                let free = self.read_one(*to, *collection);
                self.put(*key, true);
                self.put(*value, true);
                free
            }
            _ => false,
        }
    }

    /// Which slots hold a value after the instruction, where these do before it.
    pub(crate) fn hold(&mut self, instr: &Instr) {
        match instr {
            Instr::Const { to, .. }
            | Instr::Copy { to, .. }
            | Instr::One { to, .. }
            | Instr::Two { to, .. }
            | Instr::TwoInt { to, .. } => self.put(*to, true),
            Instr::Clear { slot } => self.put(*slot, false),
            Instr::Move { to, from }
            | Instr::Push {
                to,
                collection: from,
                ..
            }
            | Instr::Put {
                to,
                collection: from,
                ..
            } => {
                self.put(*from, false);
                self.put(*to, true);
            }
            Instr::Many {
                to,
                from,
                count,
                ..
            } => {
                self.put_row(*from, *count, false);
                self.put(*to, true);
            }
        }
    }

    // What is needed before a call or an operation over so many slots, besides what follows it.
    fn ask(&mut self, from: u64, count: u64, answer: u64) {
        self.put(answer, false);
        self.put_row(from, count, true);
    }

    /// What the exit needs, where this is what the blocks need that follow it.
    pub(crate) fn leave(&mut self, exit: &Exit) {
        match exit {
            Exit::Jump { .. } => {}
            Exit::Branch { slot, .. } => self.put(*slot, true),
            Exit::Test {
                to,
                left,
                right,
                ..
            } => {
                self.put(*to, false);
                self.put(*left, true);
                self.put(*right, true);
            }
            Exit::TestInt { to, left, .. } => {
                self.put(*to, false);
                self.put(*left, true);
            }
            Exit::Call {
                from,
                count,
                answer,
                ..
            } => self.ask(*from, *count, *answer),
            Exit::Return { slot } => self.put(*slot, true),
            Exit::Cut {
                from,
                count,
                answer,
                ..
            } => self.ask(*from, *count, *answer),
        }
    }
}
