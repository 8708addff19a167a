ghost use Rattle.std.specs.Prelude.{◌≡◌, false};
ghost use Rattle.ca_value.specs.Seq.{list};
ghost use Rattle.ca_term.specs.View.{kernel, kernels, bindings};
ghost use Rattle.ca_meaning.specs.Redex.{redex, redex_items, redex_binding, is_value, all_values, is_open, is_ready_recur};
ghost use Rattle.ca_meaning.specs.Parts.{is_open_sequence, is_whole};

use ca_term::head::Head;
use ca_term::term::{Binding, Term};
use ca_value::seq::Seq;

pub fn is_value(term: &Term) -> bool
    ensures { result ≡ is_value (kernel term.now) }
{
    matches!(term, Term::Const(_))
}

pub(crate) fn are_values(terms: &Seq<Term>) -> bool
    ensures { result ≡ all_values (kernels (list terms.now)) }
{
    for term in terms.as_slice() {
        if !is_value(term) {
            return false;
        }
    }
    true
}

// The first binding's term isn't a value yet.
pub(crate) fn is_open_binding(rest: &Seq<Binding>) -> bool
    ensures { result ≡ is_open (bindings (list rest.now)) }
{
    match rest.as_slice().first() {
        None => false,
        Some(first) => !is_value(&first.term),
    }
}

// The first of several terms isn't a value yet.
pub(crate) fn is_open_sequence(terms: &Seq<Term>) -> bool
    ensures { result ≡ is_open_sequence (kernels (list terms.now)) }
{
    match terms.as_slice().split_first() {
        None => false,
        Some((first, rest)) => !rest.is_empty() && !is_value(first),
    }
}

// A recur whose operands are values.
pub(crate) fn is_ready_recur(term: &Term) -> bool
    ensures { result ≡ is_ready_recur (kernel term.now) }
{
    match term {
        Term::Apply(Head::Recur, operands, _) => are_values(operands),
        _ => false,
    }
}

// The redex of the term is the whole of it.
pub(crate) fn is_whole(term: &Term) -> bool
    ensures { result ≡ is_whole (kernel term.now) }
{
    match term {
        Term::Const(_) | Term::Var(_) => true,
        Term::If(test, _, _) => is_value(test),
        Term::Let(rest, _) => !is_open_binding(rest),
        Term::Loop(_, rest, _) => !is_open_binding(rest),
        Term::Do(terms) => !is_open_sequence(terms),
        Term::Frame(body) => is_value(body),
        Term::Turn(_, _, now) => is_value(now) || is_ready_recur(now),
        Term::Apply(_, operands, _) => are_values(operands),
    }
}

/// The leftmost innermost place that isn't a value: where the term goes on.
#[cycle(redex)]
pub fn redex(term: &Term) -> &Term
    ensures { kernel result.now ≡ redex (kernel term.now) }
{
    if is_whole(term) {
        term
    } else {
        redex_inside(term)
    }
}

// The same where it is a part of the term.
#[cycle(redex)]
fn redex_inside(term: &Term) -> &Term
    requires { is_whole (kernel term.now) ≡ false }
    ensures { kernel result.now ≡ redex (kernel term.now) }
{
    match term {
        Term::Const(_) | Term::Var(_) => term,
        Term::If(test, _, _) => redex(test),
        Term::Let(rest, _) | Term::Loop(_, rest, _) => redex_of_bindings(rest, term),
        Term::Do(terms) => redex_of_terms(terms, term),
        Term::Frame(body) => redex(body),
        Term::Turn(_, _, now) => redex(now),
        Term::Apply(_, operands, _) => redex_of_terms(operands, term),
    }
}

// That of the first of the terms that isn't a value, or `here` where all are values.
#[cycle(redex)]
fn redex_of_terms<'a>(terms: &'a Seq<Term>, here: &'a Term) -> &'a Term
    ensures { kernel result.now ≡ redex_items (kernels (list terms.now)) (kernel here.now) }
{
    for term in terms.as_slice() {
        if !is_value(term) {
            return redex(term);
        }
    }
    here
}

// That of the first binding's term, or `here` where it is a value or there is none.
#[cycle(redex)]
fn redex_of_bindings<'a>(rest: &'a Seq<Binding>, here: &'a Term) -> &'a Term
    ensures { kernel result.now ≡ redex_binding (bindings (list rest.now)) (kernel here.now) }
{
    match rest.as_slice().first() {
        None => here,
        Some(first) => {
            if is_value(&first.term) {
                here
            } else {
                redex(&first.term)
            }
        }
    }
}
