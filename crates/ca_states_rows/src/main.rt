//! Says of code of blocks whether it keeps the rules, and what its moves are, by rows of text, for anyone to add a row to:
//! each line of the input is one row, its answer stands in the output.
//!
//! A row is code, `run`, and a call: `validate` answers `valid` or `invalid`, and `moves` has the blocks after the pass
//! that moves values at their last use, in the words of a row. `block 2 0` begins a block with two slots, of which it begins
//! with the first none, `block 4 3-1` one that begins with the first three but slot 1; what it does follows, word by word: `const:0:7`,
//! `copy:1:0`, `move:1:0`, `clear:0`, `one:inc:0:1`, `two:+:0:1:2`, `int:+:0:1:5`, `push:0:1:2`,
//! `put:0:1:2:3`, `many:str:0:1:2`, and last where it leads: `jump:1`, `branch:0:1:2`, `test:<:2:0:1:3:4` and
//! `testint:<:2:0:5:3:4` (the slot that is unknown afterwards, the operands, the next blocks),
//! `call:0:1:2:0:3` (function, first slot, how many, the value's slot, the next block), `return:0`,
//! `take:0:1:0:3` and `print:0:1:0:3` (first slot, how many, the answer's slot, the next block). `main 3`
//! says where the main text begins, `go 1 2` and `function 1 2` where such a text does, and how many values
//! it takes; `identity 4` where the text does that has the value which it takes, and where no word says so such a text
//! is the last block.
#![tactic(auto)]

mod answer;
mod printing;
mod reading;
mod words;

use std::io;

fn main(rt: HostRuntime) -> io::Result<()> {
    for line in rt.lines(rt.alloc()) {
        match answer::answer(rt.alloc(), line?.as_str()) {
            Ok(text) => println!(rt; "{text}")?,
            Err(words::RowError::Unreadable) => println!(rt; "unreadable")?,
            Err(words::RowError::OutOfMemory) => println!(rt; "out of memory")?,
        }
    }
    Ok(())
}
