use crate::describe::{describe_forms, describe_place};
use ca_reader::error::ReadError;
use ca_reader::print::print;
use ca_reader::read::read;
use ca_value::memory::OutOfMemory;
use ca_value::seq::Text;
use percent_encoding::{CONTROLS, percent_decode, percent_encode};
use std::alloc::{AllocError, Global};

/// What the line asks of its script, with each byte outside printed ASCII escaped.
pub fn answer_text(alloc: Global, line: &str) -> Result<String, AllocError> {
    let (asked, escaped) = line.split_once(": ").unwrap_or((line, ""));
    let mut script = Vec::new(alloc);
    percent_decode(escaped.as_bytes()).append_to(&mut script)?;
    let mut answer = Text::new(alloc);
    match answered(alloc, asked, script.as_slice(), &mut answer) {
        Ok(()) => {}
        Err(ReadError::Fault(kind, place)) => {
            let name = kind.name();
            append(&mut answer, name.as_bytes())?;
            append(&mut answer, b" ")?;
            describe_place(alloc, place, &mut answer).map_err(|_| AllocError)?;
        }
        Err(ReadError::OutOfMemory) => return Err(AllocError),
    }
    let mut text = String::new(alloc);
    percent_encode(answer.as_slice(), CONTROLS.add(b'%')).append_to(&mut text)?;
    Ok(text)
}

fn append(into: &mut Text, bytes: &[u8]) -> Result<(), AllocError> {
    into.append(bytes).map_err(|_| AllocError)
}

// Adds what is asked of the script to the text.
fn answered(alloc: Global, asked: &str, script: &[u8], into: &mut Text) -> Result<(), ReadError> {
    let forms = read(alloc, script)?;
    match asked {
        "read" => describe_forms(alloc, forms.as_slice(), true, into)?,
        "print" => into.append(print(alloc, &forms)?.as_slice())?,
        "again" => into.append(if comes_back(alloc, script)? {
            b"same"
        } else {
            b"differs"
        })?,
        _ => into.append(b"unknown")?,
    }
    Ok(())
}

// Whether what is printed of the script's forms reads as the same forms, places aside.
fn comes_back(alloc: Global, script: &[u8]) -> Result<bool, ReadError> {
    let printed = print(alloc, &read(alloc, script)?)?;
    let first = without_places(alloc, script)?;
    let second = without_places(alloc, printed.as_slice())?;
    Ok(!first.is_empty() && first.as_slice() == second.as_slice())
}

// The script's forms with no place.
fn without_places(alloc: Global, script: &[u8]) -> Result<Text, ReadError> {
    let forms = read(alloc, script)?;
    let mut text = Text::new(alloc);
    describe_forms(alloc, forms.as_slice(), false, &mut text)?;
    Ok(text)
}
