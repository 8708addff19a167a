use crate::form::{Refusal, value_of};
use ca_reader::read::read;
use ca_value::fault::ValueFault;
use ca_value::memory::OutOfMemory;
use ca_value::seq::Text;
use std::alloc::{AllocError, Global};

/// The readable text of what the line's form comes to, or the name of what is wrong with it.
pub fn answer_text(alloc: Global, line: &[u8]) -> Result<Text, AllocError> {
    match written(alloc, line) {
        Ok(text) => Ok(text),
        Err(OutOfMemory) => Err(AllocError),
    }
}

fn written(alloc: Global, line: &[u8]) -> Result<Text, OutOfMemory> {
    let Ok(forms) = read(alloc, line) else {
        return Text::from_bytes(alloc, b"unreadable");
    };
    let Some(form) = forms.get(0) else {
        return Text::from_bytes(alloc, b"unreadable");
    };
    match value_of(alloc, form) {
        Ok(value) => value.print_readable(alloc),
        Err(refusal) => Text::from_bytes(alloc, name_of(&refusal).as_bytes()),
    }
}

fn name_of(refusal: &Refusal) -> &'static str {
    match refusal {
        Refusal::Fault(fault) => fault_name(*fault),
        Refusal::Arity => "arity",
        Refusal::Unknown => "unknown",
        Refusal::Differs => "differs",
        Refusal::OutOfMemory => "OutOfMemory",
    }
}

fn fault_name(fault: ValueFault) -> &'static str {
    match fault {
        ValueFault::Overflow => "Overflow",
        ValueFault::ZeroDivisor => "ZeroDivisor",
        ValueFault::WrongKind => "WrongKind",
        ValueFault::OutOfRange => "OutOfRange",
        ValueFault::TooHeavy => "TooHeavy",
        ValueFault::TooNested => "TooNested",
    }
}
