use crate::words::{Parts, RowError, number_of, value_of};
use ca_states::code::{Block, Code, EntryPoint, Exit, Instr, Mark, SlotSet};
use ca_term::head::Head;
use ca_term::place::Place;
use ca_value::seq::Seq;
use std::alloc::Global;
use std::str::SplitWhitespace;

/// The code of a row, up to the word `run`.
pub fn code(alloc: Global, words: &mut SplitWhitespace<'_>) -> Result<Code, RowError> {
    let mut code = Code {
        blocks: Seq::new(alloc),
        main: 0,
        identity: 0,
        bodies: Seq::new(alloc),
        functions: Seq::new(alloc),
        marks: Seq::new(alloc),
    };
    let mut identity = None;
    for _word in 0..u64::MAX {
        let word = words.next().ok_or(RowError::Unreadable)?;
        match word.as_bytes() {
            b"run" => {
                code.identity = match identity {
                    Some(block) => block,
                    None => add_identity(alloc, &mut code)?,
                };
                return Ok(code);
            }
            b"block" => add_block(alloc, &mut code, words)?,
            b"main" => code.main = next_number(words)?,
            b"identity" => identity = Some(next_number(words)?),
            b"go" => add_entry(&mut code.bodies, words)?,
            b"function" => add_entry(&mut code.functions, words)?,
            _ => return Err(RowError::Unreadable),
        }
    }
    Err(RowError::Unreadable)
}

fn next_number(words: &mut SplitWhitespace<'_>) -> Result<u64, RowError> {
    number_of(words.next().ok_or(RowError::Unreadable)?)
}

fn add_entry(
    entries: &mut Seq<EntryPoint>,
    words: &mut SplitWhitespace<'_>,
) -> Result<(), RowError> {
    let block = next_number(words)?;
    let values = next_number(words)?;
    entries.reserve(1)?;
    entries.push(EntryPoint { block, values });
    Ok(())
}

// One more block, of a text that has the value which it takes; its number.
fn add_identity(alloc: Global, code: &mut Code) -> Result<u64, RowError> {
    let number = code.blocks.len();
    add_marks(&mut code.marks, 1)?;
    code.blocks.reserve(1)?;
    code.blocks.push(Block {
        width: 1,
        entry: SlotSet {
            below: 1,
            holes: Seq::new(alloc),
        },
        instrs: Seq::new(alloc),
        exit: Exit::Return { slot: 0 },
    });
    Ok(number)
}

fn add_block(
    alloc: Global,
    code: &mut Code,
    words: &mut SplitWhitespace<'_>,
) -> Result<(), RowError> {
    let width = next_number(words)?;
    let entry = slots(alloc, words.next().ok_or(RowError::Unreadable)?)?;
    let mut place = Place {
        line: code.blocks.len(),
        column: 1,
    };
    let mut instrs = Seq::new(alloc);
    while let Some(word) = words.next() {
        match instr(alloc, word, place)? {
            Some(instr) => {
                instrs.reserve(1)?;
                instrs.push(instr);
            }
            None => {
                let exit = exit(word, place)?;
                add_marks(&mut code.marks, width)?;
                code.blocks.reserve(1)?;
                code.blocks.push(Block {
                    width,
                    entry,
                    instrs,
                    exit,
                });
                return Ok(());
            }
        }
        place.column = place.column.checked_add(1).ok_or(RowError::Unreadable)?;
    }
    Err(RowError::Unreadable)
}

// The slots below a number, but for those behind a dash.
fn slots(alloc: Global, word: &str) -> Result<SlotSet, RowError> {
    let mut parts = word.split('-');
    let below = number_of(parts.next().ok_or(RowError::Unreadable)?)?;
    let mut holes = Seq::new(alloc);
    for part in parts {
        holes.reserve(1)?;
        holes.push(number_of(part)?);
    }
    Ok(SlotSet { below, holes })
}

// As many marks as the widest block has slots.
fn add_marks(marks: &mut Seq<Mark>, width: u64) -> Result<(), RowError> {
    for _slot in marks.len()..width {
        marks.reserve(1)?;
        marks.push(Mark {
            block: 0,
            known: false,
        });
    }
    Ok(())
}

// The instruction that the word is, if it is one.
fn instr(alloc: Global, word: &str, place: Place) -> Result<Option<Instr>, RowError> {
    let mut parts = Parts::new(word);
    let instr = match parts.part()?.as_bytes() {
        b"const" => Instr::Const {
            to: parts.number()?,
            value: value_of(alloc, parts.part()?)?,
        },
        b"copy" => Instr::Copy {
            to: parts.number()?,
            from: parts.number()?,
        },
        b"move" => Instr::Move {
            to: parts.number()?,
            from: parts.number()?,
        },
        b"clear" => Instr::Clear {
            slot: parts.number()?,
        },
        b"push" => Instr::Push {
            to: parts.number()?,
            collection: parts.number()?,
            item: parts.number()?,
            place,
        },
        b"put" => Instr::Put {
            to: parts.number()?,
            collection: parts.number()?,
            key: parts.number()?,
            value: parts.number()?,
            place,
        },
        kind => return applied(kind, parts, place),
    };
    Ok(Some(instr))
}

// The instruction of that kind that applies a builtin, if there is one.
fn applied(kind: &[u8], mut parts: Parts<'_>, place: Place) -> Result<Option<Instr>, RowError> {
    let instr = match kind {
        b"one" => Instr::One {
            builtin: parts.builtin()?,
            to: parts.number()?,
            operand: parts.number()?,
            place,
        },
        b"two" => Instr::Two {
            builtin: parts.builtin()?,
            to: parts.number()?,
            left: parts.number()?,
            right: parts.number()?,
            place,
        },
        b"int" => Instr::TwoInt {
            builtin: parts.builtin()?,
            to: parts.number()?,
            left: parts.number()?,
            right: parts.integer()?,
            place,
        },
        b"many" => Instr::Many {
            builtin: parts.builtin()?,
            to: parts.number()?,
            from: parts.number()?,
            count: parts.number()?,
            place,
        },
        _ => return Ok(None),
    };
    Ok(Some(instr))
}

fn exit(word: &str, place: Place) -> Result<Exit, RowError> {
    let mut parts = Parts::new(word);
    match parts.part()?.as_bytes() {
        b"jump" => Ok(Exit::Jump {
            next: parts.number()?,
            place,
        }),
        b"branch" => Ok(Exit::Branch {
            slot: parts.number()?,
            yes: parts.number()?,
            no: parts.number()?,
        }),
        b"test" => Ok(Exit::Test {
            builtin: parts.builtin()?,
            to: parts.number()?,
            left: parts.number()?,
            right: parts.number()?,
            yes: parts.number()?,
            no: parts.number()?,
            place,
        }),
        b"testint" => Ok(Exit::TestInt {
            builtin: parts.builtin()?,
            to: parts.number()?,
            left: parts.number()?,
            right: parts.integer()?,
            yes: parts.number()?,
            no: parts.number()?,
            place,
        }),
        b"call" => Ok(Exit::Call {
            function: parts.number()?,
            from: parts.number()?,
            count: parts.number()?,
            answer: parts.number()?,
            next: parts.number()?,
            place,
        }),
        b"return" => Ok(Exit::Return {
            slot: parts.number()?,
        }),
        b"take" => cut(Head::Take, parts, place),
        b"print" => cut(Head::Print, parts, place),
        _ => Err(RowError::Unreadable),
    }
}

fn cut(head: Head, mut parts: Parts<'_>, place: Place) -> Result<Exit, RowError> {
    Ok(Exit::Cut {
        head,
        from: parts.number()?,
        count: parts.number()?,
        answer: parts.number()?,
        next: parts.number()?,
        place,
    })
}
