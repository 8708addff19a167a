ghost use Rattle.std.specs.Prelude.{◌≡◌, IfOk};
ghost use Rattle.ca_value.specs.Seq.{list};
ghost use Rattle.ca_value.specs.View.{trees};
ghost use Rattle.ca_term.specs.Operation.{seed_view};
ghost use Rattle.ca_term.specs.View.{kernel, kernels, binding_view, bindings, view_of_found, founds};

use crate::operation::{GoSeed, Seed, SystemSeed};
use crate::term::{Binding, Found, Term};
use ca_value::memory::OutOfMemory;
use ca_value::seq::Seq;
use ca_value::value::{Items, Value};
use std::alloc::Global;

impl Term {
    /// An equal term, in memory of its own.
    #[cycle(copy)]
    pub fn copy(&self, alloc: Global) -> Result<Term, OutOfMemory>
        ensures { IfOk result (λ t. kernel t ≡ kernel self.now) }
    {
        match self {
            Term::Const(value) => Ok(Term::Const(value.copy(alloc)?)),
            Term::Var(name) => Ok(Term::Var(*name)),
            Term::If(test, then, otherwise) => {
                let test = Box::new(alloc, test.copy(alloc)?)?;
                let then = Box::new(alloc, then.copy(alloc)?)?;
                let otherwise = Box::new(alloc, otherwise.copy(alloc)?)?;
                Ok(Term::If(test, then, otherwise))
            }
            Term::Let(rest, body) => {
                let body = Box::new(alloc, body.copy(alloc)?)?;
                Ok(Term::Let(copy_bindings(alloc, rest)?, body))
            }
            Term::Loop(known, rest, body) => {
                let known = copy_found(alloc, known)?;
                let body = Box::new(alloc, body.copy(alloc)?)?;
                Ok(Term::Loop(known, copy_bindings(alloc, rest)?, body))
            }
            Term::Do(terms) => Ok(Term::Do(copy_terms(alloc, terms.as_slice())?)),
            Term::Frame(body) => Ok(Term::Frame(Box::new(alloc, body.copy(alloc)?)?)),
            Term::Turn(names, text, now) => {
                let text = Box::new(alloc, text.copy(alloc)?)?;
                let now = Box::new(alloc, now.copy(alloc)?)?;
                Ok(Term::Turn(copy_names(alloc, names)?, text, now))
            }
            Term::Apply(head, operands, place) => {
                Ok(Term::Apply(*head, copy_terms(alloc, operands.as_slice())?, *place))
            }
        }
    }
}

impl Binding {
    /// An equal binding, in memory of its own.
    #[cycle(copy)]
    pub fn copy(&self, alloc: Global) -> Result<Binding, OutOfMemory>
        ensures { IfOk result (λ b. binding_view b ≡ binding_view self.now) }
    {
        Ok(Binding {
            name: self.name,
            term: self.term.copy(alloc)?,
        })
    }
}

impl Found {
    /// The same name with an equal value.
    pub fn copy(&self, alloc: Global) -> Result<Found, OutOfMemory>
        ensures { IfOk result (λ f. view_of_found f ≡ view_of_found self.now) }
    {
        Ok(Found {
            name: self.name,
            value: self.value.copy(alloc)?,
        })
    }
}

/// Equal terms, in memory of their own.
#[cycle(copy)]
pub fn copy_terms(alloc: Global, terms: &[Term]) -> Result<Seq<Term>, OutOfMemory>
    ensures { IfOk result (λ s. kernels (list s) ≡ kernels terms.now) }
{
    let mut copies = Seq::new(alloc);
    copies.reserve(terms.len() as u64)?;
    for term in terms {
        copies.push(term.copy(alloc)?);
    }
    Ok(copies)
}

/// Equal bindings, in memory of their own.
#[cycle(copy)]
pub fn copy_bindings(alloc: Global, rest: &Seq<Binding>) -> Result<Seq<Binding>, OutOfMemory>
    ensures { IfOk result (λ s. bindings (list s) ≡ bindings (list rest.now)) }
{
    let mut copies = Seq::new(alloc);
    copies.reserve(rest.len())?;
    for binding in rest.as_slice() {
        copies.push(binding.copy(alloc)?);
    }
    Ok(copies)
}

/// The same names with equal values, in memory of their own.
pub fn copy_found(alloc: Global, known: &Seq<Found>) -> Result<Seq<Found>, OutOfMemory>
    ensures { IfOk result (λ s. founds (list s) ≡ founds (list known.now)) }
{
    let mut copies = Seq::new(alloc);
    copies.reserve(known.len())?;
    for pair in known.as_slice() {
        copies.push(pair.copy(alloc)?);
    }
    Ok(copies)
}

/// The same names.
pub fn copy_names(alloc: Global, names: &Seq<u64>) -> Result<Seq<u64>, OutOfMemory>
    ensures { IfOk result (λ s. list s ≡ list names.now) }
{
    Ok(Seq::from_vec(Vec::from_slice(alloc, names.as_slice())?))
}

impl Seed {
    /// An equal seed.
    pub fn copy(&self, alloc: Global) -> Result<Seed, OutOfMemory>
        ensures { IfOk result (λ s. seed_view s ≡ seed_view self.now) }
    {
        match self {
            Seed::Go(seed) => Ok(Seed::Go(GoSeed {
                body: seed.body,
                values: copy_values(alloc, seed.values.as_slice())?,
                result: seed.result,
                place: seed.place,
            })),
            Seed::System(seed) => Ok(Seed::System(SystemSeed {
                kind: seed.kind,
                values: copy_values(alloc, seed.values.as_slice())?,
                place: seed.place,
            })),
        }
    }
}

/// Equal values, each of which shares its parts.
pub fn copy_values(alloc: Global, values: &[Value]) -> Result<Items, OutOfMemory>
    ensures { IfOk result (λ s. trees (list s) ≡ trees values.now) }
{
    let mut copies = Seq::new(alloc);
    copies.reserve(values.len() as u64)?;
    for value in values {
        copies.push(value.copy(alloc)?);
    }
    Ok(copies)
}
