ghost use Rattle.std.specs.Prelude.{◌≡◌, IfOk};
ghost use Rattle.ca_value.specs.Seq.{list};
ghost use Rattle.ca_value.specs.View.{view};
ghost use Rattle.ca_term.specs.Kernel.{put, put_items, put_bindings};
ghost use Rattle.ca_term.specs.View.{kernel, kernels, binding_view, bindings};

use crate::copy::copy_found;
use crate::term::{Binding, Term};
use ca_value::memory::OutOfMemory;
use ca_value::seq::Seq;
use ca_value::value::Value;
use std::alloc::Global;

impl Term {
    /// A copy of the term with the value in place of the name.
    #[cycle(with)]
    pub fn with(&self, alloc: Global, name: u64, value: &Value) -> Result<Term, OutOfMemory>
        ensures { IfOk result (λ t. kernel t ≡ put name (view value.now) (kernel self.now)) }
    {
        match self {
            Term::Const(own) => Ok(Term::Const(own.copy(alloc)?)),
            Term::Var(own) => {
                if *own == name {
                    Ok(Term::Const(value.copy(alloc)?))
                } else {
                    Ok(Term::Var(*own))
                }
            }
            Term::If(test, then, otherwise) => {
                let test = Box::new(alloc, test.with(alloc, name, value)?)?;
                let then = Box::new(alloc, then.with(alloc, name, value)?)?;
                let otherwise = Box::new(alloc, otherwise.with(alloc, name, value)?)?;
                Ok(Term::If(test, then, otherwise))
            }
            Term::Let(rest, body) => {
                let body = Box::new(alloc, body.with(alloc, name, value)?)?;
                Ok(Term::Let(bindings_with(alloc, rest.as_slice(), name, value)?, body))
            }
            Term::Loop(known, rest, body) => {
                let known = copy_found(alloc, known)?;
                let body = Box::new(alloc, body.with(alloc, name, value)?)?;
                Ok(Term::Loop(
                    known,
                    bindings_with(alloc, rest.as_slice(), name, value)?,
                    body,
                ))
            }
            Term::Do(terms) => Ok(Term::Do(terms_with(alloc, terms, name, value)?)),
            Term::Frame(_) | Term::Turn(_, _, _) => self.copy(alloc),
            Term::Apply(head, operands, place) => {
                Ok(Term::Apply(*head, terms_with(alloc, operands, name, value)?, *place))
            }
        }
    }
}

impl Binding {
    /// A copy of the binding with the value in place of the name.
    #[cycle(with)]
    pub fn with(&self, alloc: Global, name: u64, value: &Value) -> Result<Binding, OutOfMemory>
        ensures { IfOk result (λ b. ((binding_view b).0 ≡ (binding_view self.now).0) × ((binding_view b).1 ≡ put name (view value.now) (binding_view self.now).1)) }
    {
        Ok(Binding {
            name: self.name,
            term: self.term.with(alloc, name, value)?,
        })
    }
}

/// Copies of the terms with the value in place of the name.
#[cycle(with)]
pub fn terms_with(
    alloc: Global,
    terms: &Seq<Term>,
    name: u64,
    value: &Value,
) -> Result<Seq<Term>, OutOfMemory>
    ensures { IfOk result (λ s. kernels (list s) ≡ put_items name (view value.now) (kernels (list terms.now))) }
{
    let mut copies = Seq::new(alloc);
    copies.reserve(terms.len())?;
    for term in terms.as_slice() {
        copies.push(term.with(alloc, name, value)?);
    }
    Ok(copies)
}

/// Copies of the bindings with the value in place of the name.
#[cycle(with)]
pub fn bindings_with(
    alloc: Global,
    rest: &[Binding],
    name: u64,
    value: &Value,
) -> Result<Seq<Binding>, OutOfMemory>
    ensures { IfOk result (λ s. bindings (list s) ≡ put_bindings name (view value.now) (bindings rest.now)) }
{
    let mut copies = Seq::new(alloc);
    copies.reserve(rest.len() as u64)?;
    for binding in rest {
        copies.push(binding.with(alloc, name, value)?);
    }
    Ok(copies)
}
