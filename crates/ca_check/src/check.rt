ghost use Rattle.std.specs.Prelude.{◌≡◌, ◌<◌};
ghost use Rattle.ca_check.specs.Words.{IsTrue, Ok, IfOk, IfErr, length, drop, list, nil, Place, bind, const, program_view, kernel, bindings, form, group, Round, form_tree, form_trees, is_namespace, script_tops, tops, expansion_of, RefusesForms, Gathered, done, Tops, tops_of, has_namespace, nothing_defined, nothing_gathered, gathered, Fails, CheckError};

use crate::defn::list_items;
use crate::tops::Expansion;
use ca_forms::error::{CheckError, CheckErrorKind};
use ca_reader::form::{Form, Forms, Shape};
use ca_term::program::Program;
use ca_term::term::{Binding, Term};
use ca_value::memory::OutOfMemory;
use ca_value::seq::Seq;
use ca_value::value::Value;
use std::alloc::Global;

// The word `ns` stands first.
fn begins_namespace(parts: &[Form]) -> bool
    ensures { (p : Place) → result ≡ is_namespace (form (group Round (form_trees parts.now)) p) }
{
    if parts.len() == 0 {
        return false;
    }
    match &parts[0].shape {
        Shape::Symbol(name) => name.as_slice() == b"ns".as_slice(),
        Shape::Nil | Shape::Bool(_) | Shape::Int(_) | Shape::Text(_) | Shape::Key(_) => false,
        Shape::List(_) | Shape::Vector(_) | Shape::Map(_) => false,
    }
}

fn is_namespace(form: &Form) -> bool
    ensures { result ≡ is_namespace (form_tree form.now) }
{
    match &form.shape {
        Shape::List(parts) => begins_namespace(parts.as_slice()),
        Shape::Nil | Shape::Bool(_) | Shape::Int(_) => false,
        Shape::Text(_) | Shape::Key(_) | Shape::Symbol(_) => false,
        Shape::Vector(_) | Shape::Map(_) => false,
    }
}

// The first form is a list headed by `ns`.
fn has_namespace(forms: &[Form]) -> bool
    ensures is { result ≡ has_namespace (form_trees forms.now) }
    ensures some { IsTrue result → 0 < length forms.now }
{
    if forms.len() == 0 {
        return false;
    }
    is_namespace(&forms[0])
}

// How many forms are passed over: the first one, if it is a list headed by `ns`.
fn passed_over(forms: &[Form]) -> Result<usize, CheckError>
    ensures ok { IfOk result (λ n. (t : Tops) (s : Gathered) → script_tops (form_trees forms.now) t s ≡ tops n (form_trees (drop n forms.now)) t s) }
    ensures err { IfErr result (λ e. (t : Tops) (s : Gathered) → Fails e (script_tops (form_trees forms.now) t s)) }
{
    if !has_namespace(forms) {
        return Ok(0);
    }
    let first = &forms[0];
    if 4096 < list_items(first).len() {
        return Err(CheckError::Fault(CheckErrorKind::TooMany, first.place));
    }
    Ok(1)
}

fn expand(alloc: Global, forms: &[Form]) -> Result<Expansion, CheckError>
    ensures ok { IfOk result (λ e. script_tops (form_trees forms.now) nothing_defined nothing_gathered ≡ done (record { bindings = bindings (list e.bindings); tops = tops_of e.definitions }) (gathered e.definitions.walker.gathered)) }
    ensures err { IfErr result (λ e. Fails e (script_tops (form_trees forms.now) nothing_defined nothing_gathered)) }
{
    let first = passed_over(forms)?;
    let mut expansion = Expansion::new(alloc);
    for i in first..forms.len() {
        expansion.form(alloc, i as u64, &forms[i])?;
    }
    Ok(expansion)
}

fn main_text(alloc: Global, rest: Seq<Binding>) -> Result<Term, OutOfMemory>
    ensures ok { IfOk result (λ t. kernel t ≡ bind (bindings (list rest)) (const nil)) }
{
    let body = Box::new(alloc, Term::Const(Value::Nil))?;
    Ok(Term::Let(rest, body))
}

/// The program of a script's forms, or the first error in them with its place.
pub fn check(alloc: Global, forms: &Forms) -> Result<Program, CheckError>
    ensures accepted { IfOk result (λ p. expansion_of (form_trees (list forms.now)) ≡ Ok (program_view p)) }
    ensures refused { IfErr result (λ e. RefusesForms e (form_trees (list forms.now))) }
{
    let expansion = expand(alloc, forms.as_slice())?;
    let main = main_text(alloc, expansion.bindings)?;
    let definitions = expansion.definitions;
    Ok(Program::of(
        definitions.procedures,
        definitions.walker.gathered.bodies,
        main,
    ))
}
