ghost use Rattle.std.specs.Prelude.{◌≡◌, ◌≤◌, ◌+◌, ◌<◌, ◌^◌, IfOk, IfErr, [], ◌∷◌, cond, length, take};
ghost use Rattle.ca_value.specs.Seq.{list};
ghost use Rattle.ca_value.specs.View.{view};
ghost use Rattle.ca_term.specs.Kernel.{const, var, branch as branch_of, bind as bind_of, loop as loop_of, seq as seq_of, apply as apply_of};
ghost use Rattle.ca_term.specs.View.{kernel, kernels, kernels_of, bindings};
ghost use Rattle.ca_forms.specs.declared.error.CheckError.{CheckError};
ghost use Rattle.ca_forms.specs.Depth.{kernel_depth, kernels_depth};
ghost use Rattle.ca_forms.specs.Judged.{part_term, chained, chain_of};
ghost use Rattle.ca_forms.specs.Meaning.{numbered};
ghost use Rattle.ca_forms.specs.Outcome.{limited, done};
ghost use Rattle.ca_forms.specs.WalkView.{gathered, terms_of};

use crate::error::CheckError;
use crate::operands::single;
use ca_term::head::Head;
use ca_term::place::Place;
use ca_term::program::Procedure;
use ca_term::term::{Binding, Term};
use ca_value::builtin::Builtin;
use ca_value::memory::OutOfMemory;
use ca_value::seq::Seq;
use ca_value::value::Value;
use std::alloc::Global;
use std::marker::Model;

/// A term that is at most 400 deep. It knows its depth.
pub struct Made {
    term: Term,
    depth: u64,
}

// By hand, so that a function which holds one where it ends early calls this, and does not spell out each kind of term.
impl Drop for Made {
    fn drop(self) {
        let Made {
            term: _term,
            depth: _,
        } = self;
    }
}

impl Model for Made {
    ghost use Rattle.std.specs.Prelude.{◌≡◌, ◌≤◌};
    ghost use Rattle.ca_term.specs.declared.term.Term.{Term};
    ghost use Rattle.ca_term.specs.contracts.term.Term as term_row;
    ghost use Rattle.ca_term.specs.View.{kernel};
    ghost use Rattle.ca_forms.specs.Depth.{kernel_depth};

    ghost Value = { Term };

    ghost coded = { term_row.the_row.coded };

    ghost view = { λ m. m.term };

    ghost invariant = { λ m. (m.depth ≡ kernel_depth (kernel m.term)) × (m.depth ≤ 400) };
}

/// What a walk gathers: the go bodies so far, by number, and whether a term was too deep.
#[derive(Drop)]
pub struct Bodies {
    pub bodies: Seq<Procedure>,
    pub deep: bool,
}

impl Made {
    /// A value.
    pub fn constant(value: Value) -> Made
        ensures { kernel result ≡ const (view value) }
    {
        Made {
            term: Term::Const(value),
            depth: 1,
        }
    }

    /// The name of that number.
    pub fn local(number: u64) -> Made
        ensures { kernel result ≡ var number }
    {
        Made {
            term: Term::Var(number),
            depth: 1,
        }
    }

    /// How deep the term is.
    pub fn depth(&self) -> u64
        ensures is { result ≡ kernel_depth (kernel self.now) }
        ensures most { result ≤ 400 }
    {
        self.depth
    }

    /// The term.
    pub fn term(&self) -> &Term
        ensures { result.now ≡ self.now }
    {
        &self.term
    }

    /// The term alone.
    pub fn into_term(self) -> Term
        ensures { result ≡ self }
    {
        let Made { term, depth: _ } = self;
        term
    }

    // The term alone, as part of another.
    fn into_box(self, alloc: Global) -> Result<Box<Term>, OutOfMemory>
        ensures { IfOk result (λ t. t.value ≡ self) }
    {
        Ok(Box::new(alloc, self.into_term())?)
    }
}

// The deepest of them.
fn deepest(terms: &[Made]) -> u64
    ensures is { result ≡ kernels_depth (kernels terms.now) }
    ensures most { result ≤ 400 }
{
    let mut depth = 0;
    for term in terms {
        depth = depth.max(term.depth());
    }
    depth
}

// The terms alone.
fn plain_terms(alloc: Global, terms: Seq<Made>) -> Result<Seq<Term>, OutOfMemory>
    ensures { IfOk result (λ s. kernels (list s) ≡ kernels (list terms)) }
{
    let mut plain = Seq::new(alloc);
    plain.reserve(terms.len())?;
    for term in terms.into_vec() {
        plain.push(term.into_term());
    }
    Ok(plain)
}

// The terms bound to the numbers from `first` on.
fn bound_terms(alloc: Global, first: u64, terms: Seq<Made>) -> Result<Seq<Binding>, OutOfMemory>
    requires { first + length (list terms) < 2 ^ 64 }
    ensures { IfOk result (λ s. bindings (list s) ≡ numbered first (terms_of (list terms))) }
{
    let mut rest = Seq::new(alloc);
    rest.reserve(terms.len())?;
    let mut number = first;
    for term in terms.into_vec() {
        rest.push(Binding::new(number, term.into_term()));
        number += 1;
    }
    Ok(rest)
}

/// The item at `index` of the value of the name `whole`, or nil.
pub fn part_of(alloc: Global, whole: u64, index: u64, place: Place) -> Result<Made, CheckError>
    requires { index ≤ 4096 }
    ensures ok { IfOk result (λ t. kernel t ≡ part_term place whole index) }
    ensures err { IfErr result (λ e. e ≡ CheckError.OutOfMemory) }
{
    let mut operands = Seq::new(alloc);
    operands.reserve(2)?;
    operands.push(Term::Var(whole));
    operands.push(Term::Const(Value::Int(index as i64)));
    Ok(Made {
        term: Term::Apply(Head::Builtin(Builtin::Part), operands, place),
        depth: 2,
    })
}

impl Bodies {
    /// Leaves all go bodies but the first `bodies`, and sets the mark.
    pub fn cut(&mut self, bodies: u64, deep: bool)
        ensures { gathered self.new ≡ record { bodies = take bodies (gathered self.old).bodies; deep = deep } }
    {
        self.bodies.truncate(bodies);
        self.deep = deep;
    }

    // The term of that depth; nil, and the mark, where it is deeper than 400.
    fn limit(&mut self, term: Term, depth: u64) -> Made
        requires { depth ≡ kernel_depth (kernel term) }
        ensures { limited (kernel term) (gathered self.old) ≡ done (kernel result) (gathered self.new) }
    {
        if depth <= 400 {
            Made { term, depth }
        } else {
            self.deep = true;
            Made::constant(Value::Nil)
        }
    }

    /// An If.
    pub fn branch(
        &mut self,
        alloc: Global,
        test: Made,
        then: Made,
        otherwise: Made,
    ) -> Result<Made, CheckError>
        ensures ok { IfOk result (λ t. limited (branch_of (kernel test) (kernel then) (kernel otherwise)) (gathered self.old) ≡ done (kernel t) (gathered self.new)) }
        ensures err { IfErr result (λ e. e ≡ CheckError.OutOfMemory) }
    {
        let depth = 1 + test.depth().max(then.depth().max(otherwise.depth()));
        let test = test.into_box(alloc)?;
        let then = then.into_box(alloc)?;
        let otherwise = otherwise.into_box(alloc)?;
        Ok(self.limit(Term::If(test, then, otherwise), depth))
    }

    /// Operands, and what is then done with them.
    pub fn apply(
        &mut self,
        alloc: Global,
        head: Head,
        operands: Seq<Made>,
        place: Place,
    ) -> Result<Made, CheckError>
        ensures ok { IfOk result (λ t. limited (apply_of head (kernels (list operands)) place) (gathered self.old) ≡ done (kernel t) (gathered self.new)) }
        ensures err { IfErr result (λ e. e ≡ CheckError.OutOfMemory) }
    {
        let depth = 1 + deepest(operands.as_slice());
        let operands = plain_terms(alloc, operands)?;
        Ok(self.limit(Term::Apply(head, operands, place), depth))
    }

    /// A Do.
    pub fn seq(&mut self, alloc: Global, terms: Seq<Made>) -> Result<Made, CheckError>
        ensures ok { IfOk result (λ t. limited (seq_of (kernels (list terms))) (gathered self.old) ≡ done (kernel t) (gathered self.new)) }
        ensures err { IfErr result (λ e. e ≡ CheckError.OutOfMemory) }
    {
        let depth = 1 + deepest(terms.as_slice());
        let terms = plain_terms(alloc, terms)?;
        Ok(self.limit(Term::Do(terms), depth))
    }

    /// The Do of one term.
    pub fn alone(&mut self, alloc: Global, term: Made) -> Result<Made, CheckError>
        ensures ok { IfOk result (λ t. limited (seq_of (kernels_of (kernel term ∷ []))) (gathered self.old) ≡ done (kernel t) (gathered self.new)) }
        ensures err { IfErr result (λ e. e ≡ CheckError.OutOfMemory) }
    {
        let terms = single(alloc, term)?;
        self.seq(alloc, terms)
    }

    /// A Let of these values, from number `first` on.
    pub fn bind(
        &mut self,
        alloc: Global,
        first: u64,
        values: Seq<Made>,
        body: Made,
    ) -> Result<Made, CheckError>
        requires { first + length (list values) < 2 ^ 64 }
        ensures ok { IfOk result (λ t. limited (bind_of (numbered first (terms_of (list values))) (kernel body)) (gathered self.old) ≡ done (kernel t) (gathered self.new)) }
        ensures err { IfErr result (λ e. e ≡ CheckError.OutOfMemory) }
    {
        let depth = 1 + deepest(values.as_slice()).max(body.depth());
        let rest = bound_terms(alloc, first, values)?;
        let body = body.into_box(alloc)?;
        Ok(self.limit(Term::Let(rest, body), depth))
    }

    /// A Loop over these values, from number `first` on.
    pub fn repeat(
        &mut self,
        alloc: Global,
        first: u64,
        values: Seq<Made>,
        body: Made,
    ) -> Result<Made, CheckError>
        requires { first + length (list values) < 2 ^ 64 }
        ensures ok { IfOk result (λ t. limited (loop_of [] (numbered first (terms_of (list values))) (kernel body)) (gathered self.old) ≡ done (kernel t) (gathered self.new)) }
        ensures err { IfErr result (λ e. e ≡ CheckError.OutOfMemory) }
    {
        let depth = 1 + deepest(values.as_slice()).max(body.depth());
        let rest = bound_terms(alloc, first, values)?;
        let body = body.into_box(alloc)?;
        Ok(self.limit(Term::Loop(Seq::new(alloc), rest, body), depth))
    }

    // `(if n rest n)` where `both`, else `(if n n rest)`, n being the name of that number.
    fn chosen(
        &mut self,
        alloc: Global,
        both: bool,
        number: u64,
        rest: Made,
    ) -> Result<Made, CheckError>
        ensures ok { IfOk result (λ t. limited (cond both (branch_of (var number) (kernel rest) (var number)) (branch_of (var number) (var number) (kernel rest))) (gathered self.old) ≡ done (kernel t) (gathered self.new)) }
        ensures err { IfErr result (λ e. e ≡ CheckError.OutOfMemory) }
    {
        let name = Made::local(number);
        if both {
            self.branch(alloc, name, rest, Made::local(number))
        } else {
            self.branch(alloc, name, Made::local(number), rest)
        }
    }

    // `(let [n value] (if n rest n))` where `both`, else `(let [n value] (if n n rest))`.
    fn chained(
        &mut self,
        alloc: Global,
        both: bool,
        number: u64,
        value: Made,
        rest: Made,
    ) -> Result<Made, CheckError>
        requires { number + 1 < 2 ^ 64 }
        ensures ok { IfOk result (λ t. chained both number (kernel value) (kernel rest) (gathered self.old) ≡ done (kernel t) (gathered self.new)) }
        ensures err { IfErr result (λ e. e ≡ CheckError.OutOfMemory) }
    {
        let values = single(alloc, value)?;
        let choice = self.chosen(alloc, both, number, rest)?;
        let body = self.alone(alloc, choice)?;
        self.bind(alloc, number, values, body)
    }

    /// An `and`, or an `or`, of these values under the hidden names from `first` on, and a last operand.
    pub fn chain(
        &mut self,
        alloc: Global,
        both: bool,
        first: u64,
        mut values: Seq<Made>,
        last: Made,
    ) -> Result<Made, CheckError>
        requires { first + length (list values) < 2 ^ 64 }
        ensures ok { IfOk result (λ t. chain_of both (numbered first (terms_of (list values))) (kernel last) (gathered self.old) ≡ done (kernel t) (gathered self.new)) }
        ensures err { IfErr result (λ e. e ≡ CheckError.OutOfMemory) }
    {
        let mut made = last;
        while let Some(value) = values.pop() {
            made = self.chained(alloc, both, first + values.len(), value, made)?;
        }
        Ok(made)
    }
}
