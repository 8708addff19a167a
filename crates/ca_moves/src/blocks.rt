//! Blocks with each copy a move where the slot isn't needed any more, and each branch by a builtin's value a test where
//! nothing else needs the value.
ghost use Rattle.std.specs.Prelude.{◌≡◌, ◌-◌, ◌∷◌, [], length, map, take, IfOk, IfSome};
ghost use Rattle.ca_value.specs.Seq.{list};
ghost use Rattle.ca_states.specs.Code.{instruction, block_view};
ghost use Rattle.ca_states.specs.declared.code.Exit.TheVariants.{Branch};
ghost use Rattle.ca_moves.specs.Plain.{plain_instruction, doing, exit_tests, untested, plain_instrs, plain_block};

use crate::needs::Needs;
use crate::slots::Slots;
use ca_states::code::{Block, Exit, Instr};
use ca_value::builtin::Builtin;
use ca_value::memory::OutOfMemory;
use ca_value::seq::Seq;
use std::alloc::Global;

// The instruction, which takes the value out of the slot that it reads first, where it can.
fn moving(instr: Instr) -> Instr
    ensures { plain_instruction (instruction result) ≡ plain_instruction (instruction instr) }
{
    match instr {
        Instr::Copy { to, from } => Instr::Move { to, from },
        Instr::Two {
            builtin: Builtin::Conj,
            to,
            left,
            right,
            place,
        } => Instr::Push {
            to,
            collection: left,
            item: right,
            place,
        },
        other => other,
    }
}

fn moving_if(free: bool, instr: Instr) -> Instr
    ensures { plain_instruction (instruction result) ≡ plain_instruction (instruction instr) }
{
    if free { moving(instr) } else { instr }
}

// Whether the slot that each instruction reads first is free after it, the last one first, where these are needed
// after all of them.
fn free_slots(alloc: Global, needed: &Slots, instrs: &[Instr]) -> Result<Seq<bool>, OutOfMemory> {
    let mut needs = Slots::new(alloc, needed.width())?;
    needs.add(needed);
    let mut free = Seq::new(alloc);
    for instr in instrs.iter().rev() {
        free.reserve(1)?;
        free.push(needs.pass(instr));
    }
    Ok(free)
}

// The instructions, each moving where the slot is free; whether it is stands last for the first.
fn moving_where(
    alloc: Global,
    instrs: Seq<Instr>,
    free: Seq<bool>,
) -> Result<Seq<Instr>, OutOfMemory>
    ensures { IfOk result (λ s. map plain_instruction (map instruction (list s)) ≡ map plain_instruction (map instruction (list instrs))) }
{
    let mut free = free;
    let mut moved = Seq::new(alloc);
    for instr in instrs.into_vec() {
        let is_free = free.pop() == Some(true);
        moved.reserve(1)?;
        moved.push(moving_if(is_free, instr));
    }
    Ok(moved)
}

// The test that the instruction and a branch by that slot are, if it is a builtin whose value comes into the slot. But
// `conj` makes a collection, and changes its own where it lies.
fn test_by(instr: &Instr, slot: u64, yes: u64, no: u64) -> Option<Exit>
    ensures { IfSome result (λ x. (untested x ≡ Branch slot yes no) × (exit_tests x ≡ doing (plain_instruction (instruction instr.now) ∷ []))) }
{
    match instr {
        Instr::Two {
            builtin,
            to,
            left,
            right,
            place,
        } => {
            if *to != slot || *builtin == Builtin::Conj {
                return None;
            }
            Some(Exit::Test {
                builtin: *builtin,
                to: slot,
                left: *left,
                right: *right,
                yes,
                no,
                place: *place,
            })
        }
        Instr::TwoInt {
            builtin,
            to,
            left,
            right,
            place,
        } => {
            if *to != slot {
                return None;
            }
            Some(Exit::TestInt {
                builtin: *builtin,
                to: slot,
                left: *left,
                right: *right,
                yes,
                no,
                place: *place,
            })
        }
        _ => None,
    }
}

// The test that the last instruction and the branch are, where these slots are needed behind it.
fn test_at_end(instrs: &[Instr], exit: Exit, behind: &Slots) -> Option<Exit>
    ensures same { IfSome result (λ x. untested x ≡ untested exit) }
    ensures instrs { IfSome result (λ x. plain_instrs (map instruction (take (length instrs.now - 1) instrs.now)) x ≡ plain_instrs (map instruction instrs.now) exit) }
{
    let Exit::Branch { slot, yes, no } = exit else {
        return None;
    };
    if behind.has(slot) {
        return None;
    }
    let last = instrs.get(instrs.len().saturating_sub(1))?;
    test_by(last, slot, yes, no)
}

// The block, which ends in a test where its last instruction and its branch are one.
fn tested_block(alloc: Global, needs: &Needs, block: Block) -> Result<Block, OutOfMemory>
    ensures { IfOk result (λ b. plain_block (block_view b) ≡ plain_block (block_view block)) }
{
    let behind = needs.behind(alloc, &block)?;
    let Some(test) = test_at_end(block.instrs.as_slice(), block.exit, &behind) else {
        return Ok(block);
    };
    let Block {
        width,
        entry,
        instrs,
        exit: _,
    } = block;
    let mut instrs = instrs;
    instrs.truncate(instrs.len().saturating_sub(1));
    Ok(Block {
        width,
        entry,
        instrs,
        exit: test,
    })
}

// The block of that number, where that is what the blocks need.
fn moved_block(
    alloc: Global,
    needs: &Needs,
    number: u64,
    block: Block,
) -> Result<Block, OutOfMemory>
    ensures { IfOk result (λ b. plain_block (block_view b) ≡ plain_block (block_view block)) }
{
    let block = tested_block(alloc, needs, block)?;
    let needed = needs.at_exit(alloc, &block)?;
    let free = free_slots(alloc, &needed, block.instrs.as_slice())?;
    let entry = needs.at_entry(alloc, number, block.width)?;
    let Block {
        width,
        entry: _,
        instrs,
        exit,
    } = block;
    Ok(Block {
        width,
        entry: entry.as_set(alloc)?,
        instrs: moving_where(alloc, instrs, free)?,
        exit,
    })
}

/// The blocks, where that is what they need.
pub(crate) fn moved_blocks(
    alloc: Global,
    needs: &Needs,
    blocks: Seq<Block>,
) -> Result<Seq<Block>, OutOfMemory>
    ensures { IfOk result (λ s. map plain_block (map block_view (list s)) ≡ map plain_block (map block_view (list blocks))) }
{
    let mut moved = Seq::new(alloc);
    let mut number = 0u64;
    for block in blocks.into_vec() {
        moved.reserve(1)?;
        moved.push(moved_block(alloc, needs, number, block)?);
        number = number.saturating_add(1);
    }
    Ok(moved)
}
