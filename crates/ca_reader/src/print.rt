ghost use Rattle.std.specs.Prelude.{◌≡◌, ◌∷◌, ◌++◌};
ghost use Rattle.ca_reader.specs.Words.{List, ℕ, OnOk, IfOk, list, form_tree, form_trees, form_text, forms_text, opening, closing_bracket, ReadsAside};

use crate::form::{Bracket, Form, Forms, Shape};
use ca_value::memory::OutOfMemory;
use ca_value::seq::Text;
use std::alloc::Global;

/// A text that reads to these forms, places aside. They are forms that some text reads to, so that every
/// name is a token and no bracket stands too deep.
pub fn print(alloc: Global, forms: &Forms) -> Result<Text, OutOfMemory>
    requires { (bytes : List ℕ) × ReadsAside bytes (form_trees (list forms.now)) }
    ensures text { IfOk result (λ t. list t ≡ forms_text (form_trees (list forms.now))) }
    ensures reads { IfOk result (λ t. ReadsAside (list t) (form_trees (list forms.now))) }
{
    let mut text = Text::new(alloc);
    append_forms(forms, &mut text)?;
    Ok(text)
}

/// Appends the forms, with a space between two.
#[cycle(print)]
fn append_forms(forms: &Forms, into: &mut Text) -> Result<(), OutOfMemory>
    ensures { OnOk result (list into.new ≡ list into.old ++ forms_text (form_trees (list forms.now))) }
{
    let Some((first, rest)) = forms.as_slice().split_first() else {
        return Ok(());
    };
    append_form(first, into)?;
    for form in rest {
        into.append(b" ")?;
        append_form(form, into)?;
    }
    Ok(())
}

#[cycle(print)]
fn append_form(form: &Form, into: &mut Text) -> Result<(), OutOfMemory>
    ensures { OnOk result (list into.new ≡ list into.old ++ form_text (form_tree form.now)) }
{
    match &form.shape {
        Shape::Nil => into.append(b"nil"),
        Shape::Bool(true) => into.append(b"true"),
        Shape::Bool(false) => into.append(b"false"),
        Shape::Int(number) => into.append(itoa::Buffer::new().format(*number).as_bytes()),
        Shape::Text(text) => into.append_quoted(text.as_slice()),
        Shape::Key(name) => {
            into.append(b":")?;
            into.append(name.as_slice())
        }
        Shape::Symbol(name) => into.append(name.as_slice()),
        Shape::List(forms) => {
            into.append(b"(")?;
            append_forms(forms, into)?;
            into.append(b")")
        }
        Shape::Vector(forms) => {
            into.append(b"[")?;
            append_forms(forms, into)?;
            into.append(b"]")
        }
        Shape::Map(forms) => {
            into.append(b"{")?;
            append_forms(forms, into)?;
            into.append(b"}")
        }
    }
}
