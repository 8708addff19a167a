//! Which slots may hold a value where each block begins, as it is guessed: from the entry slots of each text's first
//! block alone, in passes from the first block to the last, until one changes nothing.
use crate::by_block::{ByBlock, PASSES};
use crate::exits::{answered, targets};
use crate::needs::Needs;
use crate::slots::Slots;
use ca_states::code::Block;
use ca_value::memory::OutOfMemory;
use std::alloc::Global;

/// Which slots may hold a value where each block begins.
#[derive(Drop)]
pub(crate) struct Held {
    blocks: ByBlock,
}

impl Held {
    // Which may hold one at the block's exit.
    fn at_exit(&self, alloc: Global, number: u64, block: &Block) -> Result<Slots, OutOfMemory> {
        let mut held = self.blocks.of(alloc, number, block.width)?;
        for instr in block.instrs.as_slice() {
            held.hold(instr);
        }
        Ok(held)
    }

    // Which may hold one behind the exit. Where the text waits, that is what is needed there, since all else is let go,
    // and the answer.
    fn behind(
        &self,
        alloc: Global,
        needs: &Needs,
        number: u64,
        block: &Block,
    ) -> Result<Slots, OutOfMemory> {
        let Some(answer) = answered(&block.exit) else {
            return self.at_exit(alloc, number, block);
        };
        let mut held = needs.behind(alloc, block)?;
        held.put(answer, true);
        Ok(held)
    }

    // Whether a block that this one leads to may hold more than before.
    fn pass(
        &mut self,
        alloc: Global,
        needs: &Needs,
        number: u64,
        block: &Block,
    ) -> Result<bool, OutOfMemory> {
        let Some((one, other)) = targets(&block.exit) else {
            return Ok(false);
        };
        let held = self.behind(alloc, needs, number, block)?;
        let more = self.blocks.grow(one, &held);
        Ok(self.blocks.grow(other, &held) || more)
    }

    // Each block once, from the first to the last; whether one of them may hold more than before.
    fn pass_all(
        &mut self,
        alloc: Global,
        needs: &Needs,
        blocks: &[Block],
    ) -> Result<bool, OutOfMemory> {
        let mut more = false;
        for number in 0..blocks.len() {
            more = self.pass(alloc, needs, number as u64, &blocks[number])? || more;
        }
        Ok(more)
    }

    /// Which slots may hold a value where each of the blocks begins, where these hold one at the first of a text, and
    /// what nothing needs is let go wherever a text waits.
    pub(crate) fn of(
        alloc: Global,
        needs: &Needs,
        at_entries: ByBlock,
        blocks: &[Block],
    ) -> Result<Held, OutOfMemory> {
        let mut held = Held { blocks: at_entries };
        for _pass in 0..PASSES {
            if !held.pass_all(alloc, needs, blocks)? {
                return Ok(held);
            }
        }
        Ok(held)
    }

    /// Which hold a value at the block's exit that nothing needs.
    pub(crate) fn for_nothing(
        &self,
        alloc: Global,
        needs: &Needs,
        number: u64,
        block: &Block,
    ) -> Result<Slots, OutOfMemory> {
        let mut held = self.at_exit(alloc, number, block)?;
        held.remove(&needs.at_exit(alloc, block)?);
        Ok(held)
    }
}
