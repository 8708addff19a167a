//! Some slots for each block of a code.
use crate::slots::Slots;
use ca_states::code::{Code, EntryPoint};
use ca_value::memory::OutOfMemory;
use std::alloc::Global;

/// So many passes over the blocks are enough for a guess: each sees through one loop more, so nested loops take one each.
pub(crate) const PASSES: u64 = 64;

/// Some slots for each block.
#[derive(Drop)]
pub(crate) struct ByBlock {
    blocks: Vec<Slots>,
}

impl ByBlock {
    /// The entry slots of each text's first block; none for the others.
    pub(crate) fn at_entries(alloc: Global, code: &Code) -> Result<ByBlock, OutOfMemory> {
        let mut blocks = Vec::new(alloc);
        for block in code.blocks.as_slice() {
            blocks.push(Slots::new(alloc, block.width)?)?;
        }
        let mut at_entries = ByBlock { blocks };
        at_entries.enter(alloc, code, code.main)?;
        at_entries.enter(alloc, code, code.identity)?;
        at_entries.enter_all(alloc, code, code.bodies.as_slice())?;
        at_entries.enter_all(alloc, code, code.functions.as_slice())?;
        Ok(at_entries)
    }

    fn enter(&mut self, alloc: Global, code: &Code, number: u64) -> Result<(), OutOfMemory> {
        if let Some(block) = code.blocks.get(number) {
            let mut slots = Slots::new(alloc, block.width)?;
            slots.add_set(&block.entry);
            self.grow(number, &slots);
        }
        Ok(())
    }

    fn enter_all(
        &mut self,
        alloc: Global,
        code: &Code,
        entries: &[EntryPoint],
    ) -> Result<(), OutOfMemory> {
        for entry in entries {
            self.enter(alloc, code, entry.block)?;
        }
        Ok(())
    }

    /// The slots with those of that block.
    pub(crate) fn add_to(&self, slots: &mut Slots, number: u64) {
        if let Some(others) = self.blocks.get(number as usize) {
            slots.add(others);
        }
    }

    /// The slots of that block, which has so many.
    pub(crate) fn of(&self, alloc: Global, number: u64, width: u64) -> Result<Slots, OutOfMemory> {
        let mut slots = Slots::new(alloc, width)?;
        self.add_to(&mut slots, number);
        Ok(slots)
    }

    /// These are slots of that block too; whether one of them is new.
    pub(crate) fn grow(&mut self, number: u64, slots: &Slots) -> bool {
        let Some(before) = self.blocks.get_mut(number as usize) else {
            return false;
        };
        let more = slots.has_more(before);
        before.add(slots);
        more
    }
}
