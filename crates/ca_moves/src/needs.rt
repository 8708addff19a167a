//! What each block needs, as it is guessed: from nothing, in passes from the last block to the first, until one
//! changes nothing.
use crate::by_block::{ByBlock, PASSES};
use crate::exits::targets;
use crate::slots::Slots;
use ca_states::code::{Block, Code};
use ca_value::memory::OutOfMemory;
use std::alloc::Global;

// A set of slots is looked through from its first hole to its last, at each slot. So a block that would need slots
// with more holes keeps its entry slots.
const MOST_HOLES: u64 = 16;

/// What each block needs. The first one of a text needs its entry slots.
#[derive(Drop)]
pub(crate) struct Needs {
    blocks: ByBlock,
}

impl Needs {
    /// What the blocks need that the block leads to.
    pub(crate) fn behind(&self, alloc: Global, block: &Block) -> Result<Slots, OutOfMemory> {
        let mut needed = Slots::new(alloc, block.width)?;
        if let Some((one, other)) = targets(&block.exit) {
            self.blocks.add_to(&mut needed, one);
            self.blocks.add_to(&mut needed, other);
        }
        Ok(needed)
    }

    /// What is needed at the end of the block, its exit with it.
    pub(crate) fn at_exit(&self, alloc: Global, block: &Block) -> Result<Slots, OutOfMemory> {
        let mut needed = self.behind(alloc, block)?;
        needed.leave(&block.exit);
        Ok(needed)
    }

    /// What that block needs, which has so many slots.
    pub(crate) fn at_entry(
        &self,
        alloc: Global,
        number: u64,
        width: u64,
    ) -> Result<Slots, OutOfMemory> {
        self.blocks.of(alloc, number, width)
    }

    // What the block needs, and whether that is more than before.
    fn pass(&mut self, alloc: Global, number: u64, block: &Block) -> Result<bool, OutOfMemory> {
        let mut needed = self.at_exit(alloc, block)?;
        for instr in block.instrs.as_slice().iter().rev() {
            needed.pass(instr);
        }
        if needed.holes() > MOST_HOLES {
            needed.add_set(&block.entry);
        }
        Ok(self.blocks.grow(number, &needed))
    }

    // Each block once, from the last to the first; whether one of them needs more than before.
    fn pass_all(&mut self, alloc: Global, blocks: &[Block]) -> Result<bool, OutOfMemory> {
        let mut more = false;
        for number in (0..blocks.len()).rev() {
            more = self.pass(alloc, number as u64, &blocks[number])? || more;
        }
        Ok(more)
    }

    /// What each block of the code needs.
    pub(crate) fn of(alloc: Global, code: &Code) -> Result<Needs, OutOfMemory> {
        let mut needs = Needs {
            blocks: ByBlock::at_entries(alloc, code)?,
        };
        for _pass in 0..PASSES {
            if !needs.pass_all(alloc, code.blocks.as_slice())? {
                return Ok(needs);
            }
        }
        Ok(needs)
    }
}
