ghost use Rattle.std.specs.Prelude.{◌≡◌, ◌<◌, ◌+◌, true, false, length};
ghost use Rattle.ca_value.specs.Seq.{list};
ghost use Rattle.ca_term.specs.View.{kernel, kernels, bindings};
ghost use Rattle.ca_meaning.specs.Redex.{replace, replace_items, replace_binding, all_values, is_open};
ghost use Rattle.ca_meaning.specs.Parts.{is_whole, first_open};

use crate::redex::{is_value, is_whole};
use ca_term::term::{Binding, Term};
use ca_value::seq::Seq;
use std::mem;

/// The same whole term with `new` in place of its redex. It takes no memory.
#[cycle(replaced)]
pub fn replaced(term: Term, new: Term) -> Term
    ensures { kernel result ≡ replace (kernel new) (kernel term) }
{
    if is_whole(&term) {
        new
    } else {
        replaced_inside(term, new)
    }
}

// The same where the redex is a part of the term.
#[cycle(replaced)]
fn replaced_inside(term: Term, new: Term) -> Term
    requires { is_whole (kernel term) ≡ false }
    ensures { kernel result ≡ replace (kernel new) (kernel term) }
{
    match term {
        Term::Const(_) => new,
        Term::Var(_) => new,
        Term::If(test, then, otherwise) => { Term::If(replaced_in_box(test, new), then, otherwise) }
        Term::Let(rest, body) => Term::Let(replaced_in_bindings(rest, new), body),
        Term::Loop(known, rest, body) => {
            Term::Loop(known, replaced_in_bindings(rest, new), body)
        }
        Term::Do(terms) => Term::Do(replaced_in_terms(terms, new)),
        Term::Frame(body) => Term::Frame(replaced_in_box(body, new)),
        Term::Turn(names, text, now) => Term::Turn(names, text, replaced_in_box(now, new)),
        Term::Apply(head, operands, place) => {
            Term::Apply(head, replaced_in_terms(operands, new), place)
        }
    }
}

// The term in the same box.
#[cycle(replaced)]
fn replaced_in_box(mut inside: Box<Term>, new: Term) -> Box<Term>
    ensures { kernel result.value ≡ replace (kernel new) (kernel inside.value) }
{
    let old = mem::replace(&mut *inside, Term::Var(0));
    *inside = replaced(old, new);
    inside
}

// The first of the terms that isn't a value has `new` in place of its redex.
#[cycle(replaced)]
fn replaced_in_terms(terms: Seq<Term>, new: Term) -> Seq<Term>
    requires { all_values (kernels (list terms)) ≡ false }
    ensures { kernels (list result) ≡ replace_items (kernel new) (kernels (list terms)) }
{
    let open = first_open(&terms);
    let mut items = terms.into_vec();
    let old = mem::replace(&mut items[open], Term::Var(0));
    items[open] = replaced(old, new);
    Seq::from_vec(items)
}

// The first binding's term has `new` in place of its redex.
#[cycle(replaced)]
fn replaced_in_bindings(rest: Seq<Binding>, new: Term) -> Seq<Binding>
    requires { is_open (bindings (list rest)) ≡ true }
    ensures { bindings (list result) ≡ replace_binding (kernel new) (bindings (list rest)) }
{
    let mut items = rest.into_vec();
    let name = items[0].name;
    let old = mem::replace(&mut items[0].term, Term::Var(0));
    items[0] = Binding {
        name,
        term: replaced(old, new),
    };
    Seq::from_vec(items)
}

// The place of the first term that isn't a value.
#[tactic(auto, using(crate::proofs::OpenTerms::first_open_lt))]
fn first_open(terms: &Seq<Term>) -> usize
    ensures place { result ≡ first_open (kernels (list terms.now)) }
    ensures within { all_values (kernels (list terms.now)) ≡ false → result < length (list terms.now) }
{
    let mut place = 0;
    for term in terms.as_slice() {
        if !is_value(term) {
            return place;
        }
        place += 1;
    }
    place
}
