//! How many slots a term needs.
ghost use Rattle.std.specs.Prelude.{◌≡◌, IfOk};
ghost use Rattle.ca_value.specs.Seq.{list};
ghost use Rattle.ca_term.specs.View.{bindings as bindings_view, kernel, kernels};
ghost use Rattle.ca_lower.specs.Emit.{greater, slots_for, slots_for_all, slots_for_bound, slots_in_order};

use crate::builder::sum;
use ca_term::term::{Binding, Term};
use ca_value::memory::OutOfMemory;
use ca_value::seq::Seq;

// The greater of two.
pub(crate) fn greater(a: u64, b: u64) -> u64
    ensures { result ≡ greater a b }
{
    if a < b { b } else { a }
}

/// How many slots the term needs whose value comes into that slot.
#[cycle(slots)]
#[tactic(auto, using(crate::proofs::GreaterLaws::greater_zero, crate::proofs::GreaterLaws::greater_assoc, crate::proofs::BuilderLaws::count_bindings_length))]
pub(crate) fn slots_for(slot: u64, term: &Term) -> Result<u64, OutOfMemory>
    ensures { IfOk result (λ n. n ≡ slots_for slot (kernel term.now)) }
{
    match term {
        Term::Const(_) | Term::Var(_) | Term::Frame(_) | Term::Turn(_, _, _) => sum(slot, 1),
        Term::If(test, then, otherwise) => {
            let then = slots_for(slot, then)?;
            let otherwise = slots_for(slot, otherwise)?;
            Ok(greater(slots_for(slot, test)?, greater(then, otherwise)))
        }
        Term::Let(bindings, body) => {
            let bound = slots_for_bound(slot, bindings)?;
            let inner = sum(slot, bindings.len())?;
            Ok(greater(bound, slots_for(inner, body)?))
        }
        Term::Loop(_, bindings, body) => {
            let bound = slots_for_bound(slot, bindings)?;
            let inner = sum(slot, bindings.len())?;
            Ok(greater(bound, slots_for(inner, body)?))
        }
        Term::Do(terms) => slots_in_order(slot, terms),
        Term::Apply(_, operands, _) => {
            let own = sum(slot, 1)?;
            Ok(greater(own, slots_for_all(slot, operands)?))
        }
    }
}

// How many slots the terms need, one after another.
#[cycle(slots)]
#[tactic(auto, using(crate::proofs::GreaterLaws::greater_zero, crate::proofs::GreaterLaws::greater_assoc, crate::proofs::BuilderLaws::count_bindings_length))]
fn slots_in_order(slot: u64, terms: &Seq<Term>) -> Result<u64, OutOfMemory>
    ensures { IfOk result (λ n. n ≡ slots_in_order slot (kernels (list terms.now))) }
{
    let mut most = 0;
    for term in terms.as_slice() {
        most = greater(most, slots_for(slot, term)?);
    }
    Ok(greater(most, sum(slot, 1)?))
}

// How many slots the bindings need, each with a slot of its own.
#[cycle(slots)]
#[tactic(auto, using(crate::proofs::GreaterLaws::greater_zero, crate::proofs::GreaterLaws::greater_assoc, crate::proofs::BuilderLaws::count_bindings_length))]
fn slots_for_bound(slot: u64, bindings: &Seq<Binding>) -> Result<u64, OutOfMemory>
    ensures { IfOk result (λ n. n ≡ slots_for_bound slot (bindings_view (list bindings.now))) }
{
    let mut most = 0;
    let mut next = slot;
    for binding in bindings.as_slice() {
        most = greater(most, slots_for(next, &binding.term)?);
        next = sum(next, 1)?;
    }
    Ok(greater(most, next))
}

// How many slots the operands need, each with a slot of its own.
#[cycle(slots)]
#[tactic(auto, using(crate::proofs::GreaterLaws::greater_zero, crate::proofs::GreaterLaws::greater_assoc, crate::proofs::BuilderLaws::count_bindings_length))]
fn slots_for_all(slot: u64, terms: &Seq<Term>) -> Result<u64, OutOfMemory>
    ensures { IfOk result (λ n. n ≡ slots_for_all slot (kernels (list terms.now))) }
{
    let mut most = 0;
    let mut next = slot;
    for term in terms.as_slice() {
        most = greater(most, slots_for(next, term)?);
        next = sum(next, 1)?;
    }
    Ok(greater(most, next))
}
