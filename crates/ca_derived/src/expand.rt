ghost use Rattle.std.specs.Prelude.{◌≡◌, ◌≤◌, ◌<◌, IsTrue, IfOk, IfErr, length, drop};
ghost use Rattle.ca_value.specs.Seq.{list};
ghost use Rattle.ca_term.specs.declared.place.Place.{Place};
ghost use Rattle.ca_reader.specs.declared.form.Bracket.TheVariants.{Round};
ghost use Rattle.ca_reader.specs.Form.{group, form};
ghost use Rattle.ca_reader.specs.View.{form_tree, form_trees};
ghost use Rattle.ca_derived.specs.Outcome.{made, ExpansionFails};
ghost use Rattle.ca_derived.specs.Words.{word};
ghost use Rattle.ca_derived.specs.Expand.{word_row, expand_symbol, leading_word, expand_form, expand_list, expand_all, is_namespace_form, begins_with_namespace, expand_behind, expand};

use crate::choice::choose;
use crate::copy::copy_form;
use crate::error::{FormsError, FormsErrorKind};
use crate::name::Name;
use crate::rows;
use crate::shape::shape_fault;
use crate::template::symbol;
use crate::word::Word;
use ca_reader::form::{Form, Forms, Shape};
use ca_term::place::Place;
use ca_value::memory::OutOfMemory;
use ca_value::seq::Text;
use std::alloc::Global;

/// The forms of a script with the lists of the six words rewritten, or the first error in them with its place. A
/// first form that is a list headed by `ns` stays as it is.
pub fn expand(alloc: Global, forms: &Forms) -> Result<Forms, FormsError>
    ensures made { IfOk result (λ fs. expand (form_trees (list forms.now)) ≡ made (form_trees (list fs))) }
    ensures refused { IfErr result (λ e. ExpansionFails e (expand (form_trees (list forms.now)))) }
{
    let forms = forms.as_slice();
    if has_namespace(forms) {
        expand_behind(alloc, forms)
    } else {
        expand_all(alloc, forms, 0)
    }
}

// A symbol that heads no list.
fn symbol_form(alloc: Global, place: Place, name: &Text) -> Result<Form, FormsError>
    ensures ok { IfOk result (λ f. expand_symbol (word (list name.now)) (list name.now) place ≡ made (form_tree f)) }
    ensures err { IfErr result (λ e. ExpansionFails e (expand_symbol (word (list name.now)) (list name.now) place)) }
{
    if Word::named(name.as_slice()).is_some() {
        return Err(FormsError::Fault(FormsErrorKind::BadForm, place));
    }
    let form = symbol(alloc, place, name.as_slice())?;
    Ok(form)
}

fn head_word(parts: &[Form]) -> Option<Word>
    ensures { result ≡ leading_word (form_trees parts.now) }
{
    if parts.len() == 0 {
        return None;
    }
    match &parts[0].shape {
        Shape::Symbol(name) => Word::named(name.as_slice()),
        Shape::Nil | Shape::Bool(_) | Shape::Int(_) | Shape::Text(_) | Shape::Key(_) => None,
        Shape::List(_) | Shape::Vector(_) | Shape::Map(_) => None,
    }
}

// The word's list of these parts.
fn row(alloc: Global, word: Word, place: Place, parts: Forms) -> Result<Form, OutOfMemory>
    ensures { IfOk result (λ f. form_tree f ≡ word_row word place (form_trees (list parts))) }
{
    match word {
        Word::Choose => choose(alloc, Name::Alts, place, parts),
        Word::ChooseBlocking => choose(alloc, Name::AltsBlocking, place, parts),
        Word::Reduce => rows::reduce(alloc, place, parts),
        Word::Into => rows::into(alloc, place, parts),
        Word::Split => rows::split(alloc, place, parts),
        Word::Take => rows::take(alloc, place, parts),
    }
}

/// What the form is rewritten to, or its first error.
#[cycle(expand)]
fn expand_form(alloc: Global, form: &Form) -> Result<Form, FormsError>
    ensures ok { IfOk result (λ f. expand_form (form_tree form.now) ≡ made (form_tree f)) }
    ensures err { IfErr result (λ e. ExpansionFails e (expand_form (form_tree form.now))) }
{
    match &form.shape {
        Shape::Nil | Shape::Bool(_) | Shape::Int(_) | Shape::Text(_) | Shape::Key(_) => {
            let copy = copy_form(alloc, form)?;
            Ok(copy)
        }
        Shape::Symbol(name) => symbol_form(alloc, form.place, name),
        Shape::List(parts) => expand_list(alloc, form.place, parts.as_slice()),
        Shape::Vector(parts) => {
            let parts = expand_all(alloc, parts.as_slice(), 0)?;
            Ok(Form::new(Shape::Vector(parts), form.place))
        }
        Shape::Map(parts) => {
            let parts = expand_all(alloc, parts.as_slice(), 0)?;
            Ok(Form::new(Shape::Map(parts), form.place))
        }
    }
}

#[cycle(expand)]
fn expand_list(alloc: Global, place: Place, parts: &[Form]) -> Result<Form, FormsError>
    ensures ok { IfOk result (λ f. expand_list (form_trees parts.now) place ≡ made (form_tree f)) }
    ensures err { IfErr result (λ e. ExpansionFails e (expand_list (form_trees parts.now) place)) }
{
    match head_word(parts) {
        None => {
            let forms = expand_all(alloc, parts, 0)?;
            Ok(Form::new(Shape::List(forms), place))
        }
        Some(word) => {
            if let Some(kind) = shape_fault(word, parts) {
                return Err(FormsError::Fault(kind, place));
            }
            let forms = expand_all(alloc, parts, 1)?;
            let form = row(alloc, word, place, forms)?;
            Ok(form)
        }
    }
}

// The forms from one place on.
#[cycle(expand)]
fn expand_all(alloc: Global, parts: &[Form], from: usize) -> Result<Forms, FormsError>
    requires { from ≤ length parts.now }
    ensures ok { IfOk result (λ fs. expand_all (form_trees (drop from parts.now)) ≡ made (form_trees (list fs))) }
    ensures err { IfErr result (λ e. ExpansionFails e (expand_all (form_trees (drop from parts.now)))) }
{
    let mut forms = Forms::new(alloc);
    forms.reserve((parts.len() - from) as u64)?;
    for i in from..parts.len() {
        let form = expand_form(alloc, &parts[i])?;
        forms.push(form);
    }
    Ok(forms)
}

// The word `ns` stands first.
fn begins_namespace(parts: &[Form]) -> bool
    ensures { (p : Place) → result ≡ is_namespace_form (form (group Round (form_trees parts.now)) p) }
{
    if parts.len() == 0 {
        return false;
    }
    match &parts[0].shape {
        Shape::Symbol(name) => name.as_slice() == b"ns".as_slice(),
        Shape::Nil | Shape::Bool(_) | Shape::Int(_) | Shape::Text(_) | Shape::Key(_) => false,
        Shape::List(_) | Shape::Vector(_) | Shape::Map(_) => false,
    }
}

fn is_namespace(form: &Form) -> bool
    ensures { result ≡ is_namespace_form (form_tree form.now) }
{
    match &form.shape {
        Shape::List(parts) => begins_namespace(parts.as_slice()),
        Shape::Nil | Shape::Bool(_) | Shape::Int(_) => false,
        Shape::Text(_) | Shape::Key(_) | Shape::Symbol(_) => false,
        Shape::Vector(_) | Shape::Map(_) => false,
    }
}

fn has_namespace(forms: &[Form]) -> bool
    ensures is { result ≡ begins_with_namespace (form_trees forms.now) }
    ensures some { IsTrue result → 0 < length forms.now }
{
    if forms.len() == 0 {
        return false;
    }
    is_namespace(&forms[0])
}

// The first form as it is, and the others rewritten.
fn expand_behind(alloc: Global, forms: &[Form]) -> Result<Forms, FormsError>
    requires { 0 < length forms.now }
    ensures made { IfOk result (λ fs. expand_behind (form_trees forms.now) ≡ made (form_trees (list fs))) }
    ensures refused { IfErr result (λ e. ExpansionFails e (expand_behind (form_trees forms.now))) }
{
    let rest = expand_all(alloc, forms, 1)?;
    let first = copy_form(alloc, &forms[0])?;
    let mut all = rest.into_vec();
    let Ok(()) = all.insert(0, first) else {
        return Err(FormsError::OutOfMemory);
    };
    Ok(Forms::from_vec(all))
}
