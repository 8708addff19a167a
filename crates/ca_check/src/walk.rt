ghost use Rattle.std.specs.Prelude.{◌≡◌, ◌≤◌, ◌<◌, ◌+◌, ◌++◌};
ghost use Rattle.ca_check.specs.Words.{IfOk, IfErr, OnOk, length, map, drop, take, List, ℕ, list, kernel, kernels, form_tree, done, bound_names, Signature, binds, numbered, unnamed, before_others, means_in_order, operation, block, counted, meanings, row_recur, walk, special_row, row_list, row_group, gathered, env, form_parts, terms_of, Fails};

use ca_forms::context::At;
use ca_forms::error::{CheckError, CheckErrorKind};
use ca_forms::fixed::nothing;
use ca_forms::functions::Functions;
use ca_forms::gathered::{Bodies, Made};
use ca_forms::operands::{key_constant, text_constant};
use ca_forms::scope::Scope;
use ca_forms::special::Special;
use ca_reader::form::{Bracket, Form, Shape};
use ca_term::head::Head;
use ca_term::place::Place;
use ca_value::builtin::Builtin;
use ca_value::seq::{Seq, Text};
use ca_value::value::Value;
use std::alloc::Global;

/// A walk through forms: the names in scope, and what was gathered so far.
#[derive(Drop)]
pub struct Walker {
    pub scope: Scope,
    pub gathered: Bodies,
}

// Where a form stands behind which so many others come.
fn standing(at: At, others: usize) -> At
    ensures { (scope : List (List ℕ)) (fs : List Signature) → env scope fs result ≡ before_others others (env scope fs at) }
{
    if others == 0 { at } else { at.inner() }
}

impl Walker {
    /// What the form means, or its first error.
    #[cycle(walk)]
    pub fn form(
        &mut self,
        alloc: Global,
        functions: &Functions,
        at: At,
        form: &Form,
    ) -> Result<Made, CheckError>
        ensures ok { IfOk result (λ t. walk (form_tree form.now) (env self.old.scope functions.now at) (gathered self.old.gathered) ≡ done (kernel t) (gathered self.new.gathered)) }
        ensures err { IfErr result (λ e. Fails e (walk (form_tree form.now) (env self.old.scope functions.now at) (gathered self.old.gathered))) }
        ensures scope { OnOk result (self.new.scope ≡ self.old.scope) }
    {
        match &form.shape {
            Shape::Nil => Ok(nothing()),
            Shape::Bool(truth) => Ok(Made::constant(Value::Bool(*truth))),
            Shape::Int(number) => Ok(Made::constant(Value::Int(*number))),
            Shape::Text(text) => text_constant(alloc, text, form.place),
            Shape::Key(name) => key_constant(alloc, name, form.place),
            Shape::Symbol(name) => self.symbol(functions, name, form.place),
            Shape::List(parts) => self.group(
                alloc,
                functions,
                at,
                Bracket::Round,
                form.place,
                parts.as_slice(),
            ),
            Shape::Vector(parts) => self.group(
                alloc,
                functions,
                at,
                Bracket::Square,
                form.place,
                parts.as_slice(),
            ),
            Shape::Map(parts) => self.group(
                alloc,
                functions,
                at,
                Bracket::Curly,
                form.place,
                parts.as_slice(),
            ),
        }
    }

    #[cycle(walk)]
    fn group(
        &mut self,
        alloc: Global,
        functions: &Functions,
        at: At,
        bracket: Bracket,
        place: Place,
        parts: &[Form],
    ) -> Result<Made, CheckError>
        ensures ok { IfOk result (λ t. counted (length (form_parts parts.now)) place (row_group bracket (form_parts parts.now) place) (env self.old.scope functions.now at) (gathered self.old.gathered) ≡ done (kernel t) (gathered self.new.gathered)) }
        ensures err { IfErr result (λ e. Fails e (counted (length (form_parts parts.now)) place (row_group bracket (form_parts parts.now) place) (env self.old.scope functions.now at) (gathered self.old.gathered))) }
        ensures scope { OnOk result (self.new.scope ≡ self.old.scope) }
    {
        if 4096 < parts.len() {
            return Err(CheckError::Fault(CheckErrorKind::TooMany, place));
        }
        match bracket {
            Bracket::Round => self.list_form(alloc, functions, at, place, parts),
            Bracket::Square => self.operation(
                alloc,
                functions,
                at,
                Head::Builtin(Builtin::Vector),
                parts,
                0,
                place,
            ),
            Bracket::Curly => self.builtin_form(
                alloc,
                functions,
                at,
                Builtin::HashMap,
                parts,
                0,
                place,
            ),
        }
    }

    #[cycle(walk)]
    fn list_form(
        &mut self,
        alloc: Global,
        functions: &Functions,
        at: At,
        place: Place,
        parts: &[Form],
    ) -> Result<Made, CheckError>
        ensures ok { IfOk result (λ t. row_list (form_parts parts.now) place (env self.old.scope functions.now at) (gathered self.old.gathered) ≡ done (kernel t) (gathered self.new.gathered)) }
        ensures err { IfErr result (λ e. Fails e (row_list (form_parts parts.now) place (env self.old.scope functions.now at) (gathered self.old.gathered))) }
        ensures scope { OnOk result (self.new.scope ≡ self.old.scope) }
    {
        if parts.len() == 0 {
            return Err(CheckError::Fault(CheckErrorKind::BadForm, place));
        }
        let head = &parts[0];
        match &head.shape {
            Shape::Symbol(name) => match Special::named(name.as_slice()) {
                Some(special) => self.row(alloc, functions, at, special, place, parts),
                None => self.call(alloc, functions, at, name, head.place, parts, place),
            },
            Shape::Key(name) => self.keyword_form(
                alloc, functions, at, name, head.place, parts, place,
            ),
            Shape::Nil | Shape::Bool(_) | Shape::Int(_) | Shape::Text(_) => Err(CheckError::Fault(
                CheckErrorKind::BadForm,
                place,
            )),
            Shape::List(_) | Shape::Vector(_) | Shape::Map(_) => Err(CheckError::Fault(
                CheckErrorKind::BadForm,
                place,
            )),
        }
    }

    #[cycle(walk)]
    fn row(
        &mut self,
        alloc: Global,
        functions: &Functions,
        at: At,
        special: Special,
        place: Place,
        parts: &[Form],
    ) -> Result<Made, CheckError>
        requires { 0 < length parts.now }
        ensures ok { IfOk result (λ t. special_row special place (form_parts (drop 1 parts.now)) (env self.old.scope functions.now at) (gathered self.old.gathered) ≡ done (kernel t) (gathered self.new.gathered)) }
        ensures err { IfErr result (λ e. Fails e (special_row special place (form_parts (drop 1 parts.now)) (env self.old.scope functions.now at) (gathered self.old.gathered))) }
        ensures scope { OnOk result (self.new.scope ≡ self.old.scope) }
    {
        match special {
            Special::Do => self.block(alloc, functions, at, parts, 1),
            Special::And => self.chain_form(alloc, functions, at, true, parts),
            Special::Or => self.chain_form(alloc, functions, at, false, parts),
            Special::Let => self.let_form(alloc, functions, at, place, parts),
            Special::Cond => self.cond_form(alloc, functions, at, place, parts),
            Special::Loop => self.loop_form(alloc, functions, at, place, parts),
            Special::IfLet => self.bound_form(alloc, functions, at, false, true, place, parts),
            Special::WhenLet => self.bound_form(alloc, functions, at, false, false, place, parts),
            Special::IfSome => self.bound_form(alloc, functions, at, true, true, place, parts),
            Special::WhenSome => self.bound_form(alloc, functions, at, true, false, place, parts),
            Special::Dotimes => self.dotimes_form(alloc, functions, at, place, parts),
            Special::Doseq => self.doseq_form(alloc, functions, at, place, parts),
            Special::While => self.while_form(alloc, functions, at, place, parts),
            Special::Go => self.go_form(alloc, functions, at, false, place, parts),
            Special::GoLoop => self.go_form(alloc, functions, at, true, place, parts),
            Special::If => self.if_form(alloc, functions, at, place, parts),
            Special::IfNot => self.if_not_form(alloc, functions, at, place, parts),
            Special::When => self.when_form(alloc, functions, at, place, parts),
            Special::WhenNot => self.when_not_form(alloc, functions, at, place, parts),
            Special::Recur => self.recur_form(alloc, functions, at, place, parts),
            Special::Print => self.operation(alloc, functions, at, Head::Print, parts, 1, place),
            Special::Def | Special::Defn => Err(CheckError::Fault(CheckErrorKind::BadForm, place)),
            Special::Buffer | Special::DroppingBuffer | Special::SlidingBuffer => Err(
                CheckError::Fault(CheckErrorKind::BadForm, place),
            ),
            Special::Map | Special::Filter | Special::Mapcat => Err(CheckError::Fault(
                CheckErrorKind::BadForm,
                place,
            )),
            Special::Take
            | Special::TakeBlocking
            | Special::Put
            | Special::PutBlocking
            | Special::Alts
            | Special::AltsBlocking
            | Special::Offer
            | Special::Poll
            | Special::Post
            | Special::Close
            | Special::Chan
            | Special::PromiseChan
            | Special::Timeout
            | Special::Mult
            | Special::Tap
            | Special::Untap
            | Special::UntapAll
            | Special::Mix
            | Special::Admix
            | Special::Unmix
            | Special::UnmixAll
            | Special::Toggle
            | Special::SoloMode
            | Special::Pub
            | Special::Sub
            | Special::Unsub
            | Special::UnsubAll
            | Special::Pipe
            | Special::Merge
            | Special::Pipeline
            | Special::OntoChan
            | Special::ToChan => { self.planned_form(alloc, functions, at, special, place, parts) }
        }
    }

    #[cycle(walk)]
    fn recur_form(
        &mut self,
        alloc: Global,
        functions: &Functions,
        at: At,
        place: Place,
        parts: &[Form],
    ) -> Result<Made, CheckError>
        requires { 0 < length parts.now }
        ensures ok { IfOk result (λ t. row_recur place (form_parts (drop 1 parts.now)) (env self.old.scope functions.now at) (gathered self.old.gathered) ≡ done (kernel t) (gathered self.new.gathered)) }
        ensures err { IfErr result (λ e. Fails e (row_recur place (form_parts (drop 1 parts.now)) (env self.old.scope functions.now at) (gathered self.old.gathered))) }
        ensures scope { OnOk result (self.new.scope ≡ self.old.scope) }
    {
        match at.target {
            None => Err(CheckError::Fault(CheckErrorKind::RecurNotTail, place)),
            Some(arity) => {
                if parts.len() as u64 - 1 == arity {
                    self.operation(alloc, functions, at, Head::Recur, parts, 1, place)
                } else {
                    Err(CheckError::Fault(CheckErrorKind::BadArity, place))
                }
            }
        }
    }

    /// The parts from one place on, as a body.
    #[cycle(walk)]
    pub fn block(
        &mut self,
        alloc: Global,
        functions: &Functions,
        at: At,
        parts: &[Form],
        from: usize,
    ) -> Result<Made, CheckError>
        requires { from ≤ length parts.now }
        ensures ok { IfOk result (λ t. block (meanings (form_parts (drop from parts.now))) (env self.old.scope functions.now at) (gathered self.old.gathered) ≡ done (kernel t) (gathered self.new.gathered)) }
        ensures err { IfErr result (λ e. Fails e (block (meanings (form_parts (drop from parts.now))) (env self.old.scope functions.now at) (gathered self.old.gathered))) }
        ensures scope { OnOk result (self.new.scope ≡ self.old.scope) }
    {
        if from == parts.len() {
            return Ok(nothing());
        }
        let terms = self.in_order(alloc, functions, at, parts, from)?;
        self.gathered.seq(alloc, terms)
    }

    /// The head over the parts from a place on, which are evaluated from left to right.
    #[cycle(walk)]
    pub fn operation(
        &mut self,
        alloc: Global,
        functions: &Functions,
        at: At,
        head: Head,
        parts: &[Form],
        from: usize,
        place: Place,
    ) -> Result<Made, CheckError>
        requires { from ≤ length parts.now }
        ensures ok { IfOk result (λ t. operation head (meanings (form_parts (drop from parts.now))) place (env self.old.scope functions.now at) (gathered self.old.gathered) ≡ done (kernel t) (gathered self.new.gathered)) }
        ensures err { IfErr result (λ e. Fails e (operation head (meanings (form_parts (drop from parts.now))) place (env self.old.scope functions.now at) (gathered self.old.gathered))) }
        ensures scope { OnOk result (self.new.scope ≡ self.old.scope) }
    {
        let terms = self.in_order(alloc, functions, at.inner(), parts, from)?;
        self.gathered.apply(alloc, head, terms, place)
    }

    /// The parts from one place on, in order; the last one stands where the whole stands.
    #[cycle(walk)]
    pub fn in_order(
        &mut self,
        alloc: Global,
        functions: &Functions,
        at: At,
        parts: &[Form],
        from: usize,
    ) -> Result<Seq<Made>, CheckError>
        requires { from ≤ length parts.now }
        ensures ok { IfOk result (λ t. means_in_order (meanings (form_parts (drop from parts.now))) (env self.old.scope functions.now at) (gathered self.old.gathered) ≡ done (kernels (list t)) (gathered self.new.gathered)) }
        ensures err { IfErr result (λ e. Fails e (means_in_order (meanings (form_parts (drop from parts.now))) (env self.old.scope functions.now at) (gathered self.old.gathered))) }
        ensures scope { OnOk result (self.new.scope ≡ self.old.scope) }
    {
        let mut terms = Seq::new(alloc);
        terms.reserve((parts.len() - from) as u64)?;
        for i in from..parts.len() {
            let others = parts.len() - (i + 1);
            let term = self.form(alloc, functions, standing(at, others), &parts[i])?;
            terms.push(term);
        }
        Ok(terms)
    }

    /// The values of the forms from one place up to another, each under a hidden name behind it.
    #[cycle(walk)]
    pub fn hidden(
        &mut self,
        alloc: Global,
        functions: &Functions,
        at: At,
        parts: &[Form],
        from: usize,
        to: usize,
    ) -> Result<Seq<Made>, CheckError>
        requires { (from ≤ to) × (to ≤ length parts.now) }
        ensures ok { IfOk result (λ t. binds (map unnamed (meanings (form_parts (drop from (take to parts.now))))) (env self.old.scope functions.now at) (gathered self.old.gathered) ≡ done (numbered (length self.old.scope) (terms_of (list t))) (gathered self.new.gathered)) }
        ensures err { IfErr result (λ e. Fails e (binds (map unnamed (meanings (form_parts (drop from (take to parts.now))))) (env self.old.scope functions.now at) (gathered self.old.gathered))) }
        ensures names { OnOk result (self.new.scope ≡ self.old.scope ++ bound_names (map unnamed (meanings (form_parts (drop from (take to parts.now)))))) }
        ensures longer { IfOk result (λ t. length self.new.scope ≡ length self.old.scope + length (list t)) }
    {
        let mut values = Seq::new(alloc);
        for i in from..to {
            let term = self.form(alloc, functions, at.inner(), &parts[i])?;
            values.reserve(1)?;
            values.push(term);
            self.scope.hide(alloc)?;
        }
        Ok(values)
    }
}
