//! Code as the words of a row.
use crate::words::RowError;
use ca_states::code::{Block, Code, Exit, Instr};
use ca_term::head::Head;
use ca_value::builtin::Builtin;
use ca_value::value::Value;
use std::alloc::Global;

/// The blocks of the code.
pub fn blocks_text(alloc: Global, code: &Code) -> Result<String, RowError> {
    let mut text = String::new(alloc);
    for block in code.blocks.as_slice() {
        append_block(alloc, &mut text, block)?;
    }
    Ok(text)
}

// The value as a script has it.
fn append_value(alloc: Global, text: &mut String, value: &Value) -> Result<(), RowError> {
    let bytes = value.print_readable(alloc)?;
    match str::from_utf8(bytes.as_slice()) {
        Ok(part) => Ok(text.push_str(part)?),
        Err(_) => Err(RowError::Unreadable),
    }
}

fn append_block(alloc: Global, text: &mut String, block: &Block) -> Result<(), RowError> {
    if !text.is_empty() {
        text.push_str(" ")?;
    }
    text.push_str(format!(in alloc; "block {} {}", block.width, block.entry.below)?.as_str())?;
    for hole in block.entry.holes.as_slice() {
        text.push_str(format!(in alloc; "-{hole}")?.as_str())?;
    }
    for instr in block.instrs.as_slice() {
        text.push_str(" ")?;
        append_instr(alloc, text, instr)?;
    }
    text.push_str(" ")?;
    append_exit(alloc, text, &block.exit)
}

// A word, and the numbers behind it.
fn append_word(
    alloc: Global,
    text: &mut String,
    word: &str,
    numbers: &[u64],
) -> Result<(), RowError> {
    text.push_str(word)?;
    for number in numbers {
        text.push_str(format!(in alloc; ":{number}")?.as_str())?;
    }
    Ok(())
}

// The same of a builtin, whose name stands first.
fn append_applied(
    alloc: Global,
    text: &mut String,
    word: &str,
    builtin: Builtin,
    numbers: &[u64],
) -> Result<(), RowError> {
    text.push_str(word)?;
    append_word(alloc, text, builtin.name(), numbers)
}

fn append_instr(alloc: Global, text: &mut String, instr: &Instr) -> Result<(), RowError> {
    match instr {
        Instr::Const { to, value } => {
            append_word(alloc, text, "const", &[*to])?;
            text.push_str(":")?;
            append_value(alloc, text, value)
        }
        Instr::Copy { to, from } => append_word(alloc, text, "copy", &[*to, *from]),
        Instr::Move { to, from } => append_word(alloc, text, "move", &[*to, *from]),
        Instr::Clear { slot } => append_word(alloc, text, "clear", &[*slot]),
        Instr::One {
            builtin,
            to,
            operand,
            ..
        } => append_applied(alloc, text, "one:", *builtin, &[*to, *operand]),
        Instr::Two {
            builtin,
            to,
            left,
            right,
            ..
        } => append_applied(alloc, text, "two:", *builtin, &[*to, *left, *right]),
        Instr::TwoInt {
            builtin,
            to,
            left,
            right,
            ..
        } => {
            append_applied(alloc, text, "int:", *builtin, &[*to, *left])?;
            text.push_str(format!(in alloc; ":{right}")?.as_str())?;
            Ok(())
        }
        Instr::Push {
            to,
            collection,
            item,
            ..
        } => append_word(alloc, text, "push", &[*to, *collection, *item]),
        Instr::Put {
            to,
            collection,
            key,
            value,
            ..
        } => append_word(alloc, text, "put", &[*to, *collection, *key, *value]),
        Instr::Many {
            builtin,
            to,
            from,
            count,
            ..
        } => append_applied(alloc, text, "many:", *builtin, &[*to, *from, *count]),
    }
}

fn append_exit(alloc: Global, text: &mut String, exit: &Exit) -> Result<(), RowError> {
    match exit {
        Exit::Jump { next, .. } => append_word(alloc, text, "jump", &[*next]),
        Exit::Branch { slot, yes, no } => append_word(alloc, text, "branch", &[*slot, *yes, *no]),
        Exit::Test {
            builtin,
            to,
            left,
            right,
            yes,
            no,
            ..
        } => append_applied(
            alloc,
            text,
            "test:",
            *builtin,
            &[*to, *left, *right, *yes, *no],
        ),
        Exit::TestInt {
            builtin,
            to,
            left,
            right,
            yes,
            no,
            ..
        } => {
            append_applied(alloc, text, "testint:", *builtin, &[*to, *left])?;
            text.push_str(format!(in alloc; ":{right}:{yes}:{no}")?.as_str())?;
            Ok(())
        }
        Exit::Call {
            function,
            from,
            count,
            answer,
            next,
            ..
        } => append_word(
            alloc,
            text,
            "call",
            &[*function, *from, *count, *answer, *next],
        ),
        Exit::Return { slot } => append_word(alloc, text, "return", &[*slot]),
        Exit::Cut {
            head,
            from,
            count,
            answer,
            next,
            ..
        } => append_word(
            alloc,
            text,
            head_text(*head),
            &[*from, *count, *answer, *next],
        ),
    }
}

fn head_text(head: Head) -> &'static str {
    match head {
        Head::Take => "take",
        Head::Print => "print",
        _ => "cut",
    }
}
