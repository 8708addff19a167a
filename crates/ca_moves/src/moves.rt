//! The pass: copies become moves where a variable is read for the last time, and a builtin and the branch by its value
//! one test.
ghost use Rattle.std.specs.Prelude.{◌≡◌, true, IfOk, IfSome};
ghost use Rattle.ca_term.specs.Program.{ProgramView};
ghost use Rattle.ca_states.specs.Code.{code_view};
ghost use Rattle.ca_states.specs.Valid.{is_valid};
ghost use Rattle.ca_states.specs.ValidCode.{valid_code};
ghost use Rattle.ca_lower.specs.Lowered.{Lowered};
ghost use Rattle.ca_moves.specs.Plain.{plain_code};

use crate::blocks::moved_blocks;
use crate::by_block::ByBlock;
use crate::held::Held;
use crate::letting_go::blocks_letting_go;
use crate::needs::Needs;
use ca_states::code::{Block, Code};
use ca_states::valid_code::ValidCode;
use ca_states::validate::validate;
use ca_value::memory::OutOfMemory;
use std::alloc::Global;

// So much work is enough for a pass: so many slots of blocks.
const MOST_SLOTS: u64 = 16_777_216;

fn is_small(blocks: &[Block]) -> bool {
    let mut slots: u64 = 0;
    for block in blocks {
        slots = slots.saturating_add(block.width);
    }
    slots <= MOST_SLOTS
}

// The same code with each copy a move, and each branch a test, where the guess says so; what is held for nothing is let
// go where a text waits.
fn moved(alloc: Global, code: Code) -> Result<Code, OutOfMemory>
    ensures { IfOk result (λ c. plain_code (code_view c) ≡ plain_code (code_view code)) }
{
    let needs = Needs::of(alloc, &code)?;
    let at_entries = ByBlock::at_entries(alloc, &code)?;
    let Code {
        blocks,
        main,
        identity,
        bodies,
        functions,
        marks,
    } = code;
    let blocks = moved_blocks(alloc, &needs, blocks)?;
    let held = Held::of(alloc, &needs, at_entries, blocks.as_slice())?;
    Ok(Code {
        blocks: blocks_letting_go(alloc, &needs, &held, blocks)?,
        main,
        identity,
        bodies,
        functions,
        marks,
    })
}

fn moved_if_small(alloc: Global, code: Code) -> Result<Code, OutOfMemory>
    ensures { IfOk result (λ c. plain_code (code_view c) ≡ plain_code (code_view code)) }
{
    if is_small(code.blocks.as_slice()) {
        moved(alloc, code)
    } else {
        Ok(code)
    }
}

/// The same code, but that a value is moved out of its slot where it is read for the last time, that one which nothing
/// needs any more is let go before the text waits, for a call or for an operation, and that a block ends in a test where
/// nothing but its branch needs the value of its last instruction; each block names as entry slots what it needs. Code of more than 16,777,216 slots in all its blocks is only validated. None where what
/// comes of it isn't valid; a guess of what is needed is right as far as is known, so this is said of no valid code.
pub fn moves(alloc: Global, code: Code) -> Result<Option<ValidCode>, OutOfMemory>
    ensures plain { IfOk result (λ o. IfSome o (λ v. plain_code (valid_code v) ≡ plain_code (code_view code))) }
    ensures valid { IfOk result (λ o. IfSome o (λ v. is_valid (valid_code v) ≡ true)) }
    ensures lowered { IfOk result (λ o. IfSome o (λ v. (program : ProgramView) → is_valid (code_view code) ≡ true → Lowered program (code_view code) → Lowered program (valid_code v))) }
{
    match validate(moved_if_small(alloc, code)?) {
        Ok(valid) => Ok(Some(valid)),
        Err(_) => Ok(None),
    }
}
