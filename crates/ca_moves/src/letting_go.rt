//! Blocks that let go, before the text waits for a call or for an operation, of the values that nothing needs any more.
ghost use Rattle.std.specs.Prelude.{◌≡◌, map, IfOk};
ghost use Rattle.ca_value.specs.Seq.{list};
ghost use Rattle.ca_states.specs.Code.{instruction, block_view};
ghost use Rattle.ca_moves.specs.Plain.{plain_instruction, doing, plain_block};

use crate::exits::answered;
use crate::held::Held;
use crate::needs::Needs;
use crate::slots::Slots;
use ca_states::code::{Block, Instr};
use ca_value::memory::OutOfMemory;
use ca_value::seq::Seq;
use std::alloc::Global;

// The instructions, and last these slots' values are let go.
#[tactic(auto, using(crate::proofs::Doing::doing_more))]
fn letting_go(alloc: Global, instrs: Seq<Instr>, held: &Slots) -> Result<Seq<Instr>, OutOfMemory>
    ensures { IfOk result (λ s. doing (map plain_instruction (map instruction (list s))) ≡ doing (map plain_instruction (map instruction (list instrs)))) }
{
    let mut instrs = instrs;
    for slot in 0..held.width() {
        if held.has(slot) {
            instrs.reserve(1)?;
            instrs.push(Instr::Clear { slot });
        }
    }
    Ok(instrs)
}

// The block of that number; where the text waits behind it, what is held for nothing is let go.
fn block_letting_go(
    alloc: Global,
    needs: &Needs,
    held: &Held,
    number: u64,
    block: Block,
) -> Result<Block, OutOfMemory>
    ensures { IfOk result (λ b. plain_block (block_view b) ≡ plain_block (block_view block)) }
{
    if answered(&block.exit).is_none() {
        return Ok(block);
    }
    let held = held.for_nothing(alloc, needs, number, &block)?;
    let Block {
        width,
        entry,
        instrs,
        exit,
    } = block;
    Ok(Block {
        width,
        entry,
        instrs: letting_go(alloc, instrs, &held)?,
        exit,
    })
}

/// The blocks; where a text waits, what is held for nothing is let go.
pub(crate) fn blocks_letting_go(
    alloc: Global,
    needs: &Needs,
    held: &Held,
    blocks: Seq<Block>,
) -> Result<Seq<Block>, OutOfMemory>
    ensures { IfOk result (λ s. map plain_block (map block_view (list s)) ≡ map plain_block (map block_view (list blocks))) }
{
    let mut let_go = Seq::new(alloc);
    let mut number = 0u64;
    for block in blocks.into_vec() {
        let_go.reserve(1)?;
        let_go.push(block_letting_go(alloc, needs, held, number, block)?);
        number = number.saturating_add(1);
    }
    Ok(let_go)
}
