ghost use Rattle.std.specs.Prelude.{◌≡◌, [], OnOk, IfOk};
ghost use Rattle.ca_value.specs.Seq.{list};
ghost use Rattle.ca_term.specs.View.{kernel, kernels, bindings};
ghost use Rattle.ca_forms.specs.Tops.{plain_with};
ghost use Rattle.ca_forms.specs.Uses.{name_noted, uses, uses_items, uses_bindings, is_recur, aims_out, last_aims_out, is_plain_head, is_plain, are_plain, are_plain_bindings};

use crate::functions::Functions;
use ca_term::head::Head;
use ca_term::term::{Binding, Term};
use ca_value::memory::OutOfMemory;
use ca_value::seq::Seq;
use indexmap::IndexSet;
use std::alloc::Global;

/// The names below `size` that the term uses, in order of first use, in time linear in the term.
pub fn uses(alloc: Global, size: u64, term: &Term) -> Result<Seq<u64>, OutOfMemory>
    ensures { IfOk result (λ s. list s ≡ uses size (kernel term.now) []) }
{
    let mut seen = IndexSet::new(alloc);
    note_term(&mut seen, size, term)?;
    Ok(Seq::from_vec(Vec::from_slice(alloc, seen.as_slice())?))
}

fn note(seen: &mut IndexSet<u64>, size: u64, number: u64) -> Result<(), OutOfMemory>
    ensures { OnOk result (seen.new.keys ≡ name_noted size number seen.old.keys) }
{
    if number < size {
        seen.insert(number)?;
    }
    Ok(())
}

/// The names below `size` that the term uses, behind those seen before.
#[cycle(note)]
pub fn note_term(seen: &mut IndexSet<u64>, size: u64, term: &Term) -> Result<(), OutOfMemory>
    ensures { OnOk result (seen.new.keys ≡ uses size (kernel term.now) seen.old.keys) }
{
    match term {
        Term::Const(_) | Term::Frame(_) | Term::Turn(_, _, _) => Ok(()),
        Term::Var(number) => note(seen, size, *number),
        Term::If(test, then, otherwise) => {
            note_term(seen, size, test)?;
            note_term(seen, size, then)?;
            note_term(seen, size, otherwise)
        }
        Term::Let(rest, body) => {
            note_bindings(seen, size, rest.as_slice())?;
            note_term(seen, size, body)
        }
        Term::Loop(_, rest, body) => {
            note_bindings(seen, size, rest.as_slice())?;
            note_term(seen, size, body)
        }
        Term::Do(terms) => note_terms(seen, size, terms.as_slice()),
        Term::Apply(_, operands, _) => note_terms(seen, size, operands.as_slice()),
    }
}

#[cycle(note)]
fn note_terms(seen: &mut IndexSet<u64>, size: u64, terms: &[Term]) -> Result<(), OutOfMemory>
    ensures { OnOk result (seen.new.keys ≡ uses_items size (kernels terms.now) seen.old.keys) }
{
    for term in terms {
        note_term(seen, size, term)?;
    }
    Ok(())
}

#[cycle(note)]
fn note_bindings(seen: &mut IndexSet<u64>, size: u64, rest: &[Binding]) -> Result<(), OutOfMemory>
    ensures { OnOk result (seen.new.keys ≡ uses_bindings size (bindings rest.now) seen.old.keys) }
{
    for binding in rest {
        note_term(seen, size, &binding.term)?;
    }
    Ok(())
}

/// Whether a `recur` in tail position goes back past the term.
#[cycle(aims_out)]
pub fn aims_out(term: &Term) -> bool
    ensures { result ≡ aims_out (kernel term.now) }
{
    match term {
        Term::Const(_) | Term::Var(_) | Term::Loop(_, _, _) => false,
        Term::Frame(_) | Term::Turn(_, _, _) => false,
        Term::If(_, then, otherwise) => aims_out(then) || aims_out(otherwise),
        Term::Let(_, body) => aims_out(body),
        Term::Do(terms) => last_aims_out(terms.as_slice()),
        Term::Apply(head, _, _) => is_recur(*head),
    }
}

#[cycle(aims_out)]
fn last_aims_out(terms: &[Term]) -> bool
    ensures { result ≡ last_aims_out (kernels terms.now) }
{
    if terms.len() == 0 {
        return false;
    }
    aims_out(&terms[terms.len() - 1])
}

fn is_recur(head: Head) -> bool
    ensures { result ≡ is_recur head }
{
    match head {
        Head::Recur => true,
        _ => false,
    }
}

/// Whether the term has no operation, and calls plain functions only, the one of number `own` among them.
#[cycle(plain)]
pub fn is_plain(functions: &Functions, own: u64, term: &Term) -> bool
    ensures { result ≡ is_plain (plain_with own functions.now) (kernel term.now) }
{
    match term {
        Term::Const(_) | Term::Var(_) => true,
        Term::If(test, then, otherwise) => {
            is_plain(functions, own, test)
                && is_plain(functions, own, then)
                && is_plain(functions, own, otherwise)
        }
        Term::Let(rest, body) => {
            are_plain_bindings(functions, own, rest.as_slice()) && is_plain(functions, own, body)
        }
        Term::Loop(_, rest, body) => {
            are_plain_bindings(functions, own, rest.as_slice()) && is_plain(functions, own, body)
        }
        Term::Do(terms) => are_plain(functions, own, terms.as_slice()),
        Term::Frame(body) => is_plain(functions, own, body),
        Term::Turn(_, text, now) => is_plain(functions, own, text) && is_plain(functions, own, now),
        Term::Apply(head, operands, _) => {
            is_plain_head(functions, own, *head) && are_plain(functions, own, operands.as_slice())
        }
    }
}

#[cycle(plain)]
fn are_plain(functions: &Functions, own: u64, terms: &[Term]) -> bool
    ensures { result ≡ are_plain (plain_with own functions.now) (kernels terms.now) }
{
    for term in terms {
        if !is_plain(functions, own, term) {
            return false;
        }
    }
    true
}

#[cycle(plain)]
fn are_plain_bindings(functions: &Functions, own: u64, rest: &[Binding]) -> bool
    ensures { result ≡ are_plain_bindings (plain_with own functions.now) (bindings rest.now) }
{
    for binding in rest {
        if !is_plain(functions, own, &binding.term) {
            return false;
        }
    }
    true
}

fn is_plain_head(functions: &Functions, own: u64, head: Head) -> bool
    ensures { result ≡ is_plain_head (plain_with own functions.now) head }
{
    match head {
        Head::Recur | Head::Builtin(_) => true,
        Head::Call(number) => number == own || functions.is_plain(number),
        _ => false,
    }
}
