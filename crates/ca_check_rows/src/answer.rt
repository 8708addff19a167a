use crate::script::script_of;
use ca_check::check::check;
use ca_derived::error::FormsError;
use ca_derived::expand::expand;
use ca_forms::error::CheckError;
use ca_reader::error::ReadError;
use ca_reader::read::read;
use ca_term::place::Place;
use std::alloc::{AllocError, Global};

/// What the script of the line comes to: `ok`, or its first error with its place.
pub fn answer_text(alloc: Global, line: &str) -> Result<String, AllocError> {
    let script = script_of(alloc, line)?;
    let forms = match read(alloc, script.as_slice()) {
        Ok(forms) => forms,
        Err(ReadError::Fault(kind, place)) => return error_text(alloc, kind.name(), place),
        Err(ReadError::OutOfMemory) => return String::from_str(alloc, "OutOfMemory"),
    };
    let derived = match expand(alloc, &forms) {
        Ok(derived) => derived,
        Err(FormsError::Fault(kind, place)) => return error_text(alloc, kind.name(), place),
        Err(FormsError::OutOfMemory) => return String::from_str(alloc, "OutOfMemory"),
    };
    match check(alloc, &derived) {
        Ok(_) => String::from_str(alloc, "ok"),
        Err(CheckError::Fault(kind, place)) => error_text(alloc, kind.name(), place),
        Err(CheckError::OutOfMemory) => String::from_str(alloc, "OutOfMemory"),
    }
}

fn error_text(alloc: Global, name: &str, place: Place) -> Result<String, AllocError> {
    let mut text = String::from_str(alloc, "error ")?;
    text.push_str(name)?;
    text.push_str(" at ")?;
    text.push_str(itoa::Buffer::new().format(place.line))?;
    text.push_str(":")?;
    text.push_str(itoa::Buffer::new().format(place.column))?;
    Ok(text)
}
