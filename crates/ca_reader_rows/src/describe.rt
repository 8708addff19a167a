use ca_reader::form::{Form, Shape};
use ca_term::place::Place;
use ca_value::memory::OutOfMemory;
use ca_value::seq::Text;
use std::alloc::Global;

/// Adds the place to the text, as `1:10`.
pub fn describe_place(alloc: Global, place: Place, into: &mut Text) -> Result<(), OutOfMemory> {
    let line = place.line;
    let column = place.column;
    into.append(format!(in alloc; "{line}:{column}")?.as_bytes())
}

/// Adds the forms to the text, with their places or without.
#[cycle(describe)]
pub fn describe_forms(
    alloc: Global,
    forms: &[Form],
    places: bool,
    into: &mut Text,
) -> Result<(), OutOfMemory> {
    let mut first = true;
    for form in forms {
        if !first {
            into.append(b" ")?;
        }
        first = false;
        describe_form(alloc, form, places, into)?;
        if places {
            into.append(b"@")?;
            describe_place(alloc, form.place, into)?;
        }
    }
    Ok(())
}

#[cycle(describe)]
fn describe_form(
    alloc: Global,
    form: &Form,
    places: bool,
    into: &mut Text,
) -> Result<(), OutOfMemory> {
    match &form.shape {
        Shape::Nil => into.append(b"nil"),
        Shape::Bool(true) => into.append(b"true"),
        Shape::Bool(false) => into.append(b"false"),
        Shape::Int(number) => into.append(format!(in alloc; "#{number}")?.as_bytes()),
        Shape::Text(text) => {
            into.append(b"\"")?;
            into.append(text.as_slice())?;
            into.append(b"\"")
        }
        Shape::Key(name) => {
            into.append(b":")?;
            into.append(name.as_slice())
        }
        Shape::Symbol(name) => {
            into.append(b"'")?;
            into.append(name.as_slice())
        }
        Shape::List(forms) => {
            into.append(b"(")?;
            describe_forms(alloc, forms.as_slice(), places, into)?;
            into.append(b")")
        }
        Shape::Vector(forms) => {
            into.append(b"[")?;
            describe_forms(alloc, forms.as_slice(), places, into)?;
            into.append(b"]")
        }
        Shape::Map(forms) => {
            into.append(b"{")?;
            describe_forms(alloc, forms.as_slice(), places, into)?;
            into.append(b"}")
        }
    }
}
