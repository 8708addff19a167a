ghost use Rattle.std.specs.Prelude.{◌≡◌, ◌<◌};
ghost use Rattle.ca_check.specs.Words.{IfOk, IfErr, OnOk, length, drop, kernel, done, more_of, meanings, row_if, row_if_not, row_when, row_when_not, gathered, env, form_parts, Fails};

use crate::walk::Walker;
use ca_forms::context::At;
use ca_forms::error::{CheckError, CheckErrorKind};
use ca_forms::fixed::nothing;
use ca_forms::functions::Functions;
use ca_forms::gathered::Made;
use ca_reader::form::Form;
use ca_term::place::Place;
use ca_value::value::Value;
use std::alloc::Global;

impl Walker {
    /// `(if test a)` and `(if test a b)`.
    #[cycle(walk)]
    #[tactic(auto, using(crate::proofs::Parts::two_parts, crate::proofs::Parts::three_parts))]
    pub fn if_form(
        &mut self,
        alloc: Global,
        functions: &Functions,
        at: At,
        place: Place,
        parts: &[Form],
    ) -> Result<Made, CheckError>
        requires { 0 < length parts.now }
        ensures ok { IfOk result (λ t. row_if place (form_parts (drop 1 parts.now)) (env self.old.scope functions.now at) (gathered self.old.gathered) ≡ done (kernel t) (gathered self.new.gathered)) }
        ensures err { IfErr result (λ e. Fails e (row_if place (form_parts (drop 1 parts.now)) (env self.old.scope functions.now at) (gathered self.old.gathered))) }
        ensures scope { OnOk result (self.new.scope ≡ self.old.scope) }
    {
        match parts {
            [_, test, then] => {
                let test = self.form(alloc, functions, at.inner(), test)?;
                let then = self.form(alloc, functions, at, then)?;
                self.gathered.branch(alloc, test, then, nothing())
            }
            [_, test, then, otherwise] => {
                let test = self.form(alloc, functions, at.inner(), test)?;
                let then = self.form(alloc, functions, at, then)?;
                let otherwise = self.form(alloc, functions, at, otherwise)?;
                self.gathered.branch(alloc, test, then, otherwise)
            }
            _ => Err(CheckError::Fault(CheckErrorKind::BadForm, place)),
        }
    }

    /// `(if-not test a)` and `(if-not test a b)`.
    #[cycle(walk)]
    #[tactic(auto, using(crate::proofs::Parts::two_parts, crate::proofs::Parts::three_parts))]
    pub fn if_not_form(
        &mut self,
        alloc: Global,
        functions: &Functions,
        at: At,
        place: Place,
        parts: &[Form],
    ) -> Result<Made, CheckError>
        requires { 0 < length parts.now }
        ensures ok { IfOk result (λ t. row_if_not place (form_parts (drop 1 parts.now)) (env self.old.scope functions.now at) (gathered self.old.gathered) ≡ done (kernel t) (gathered self.new.gathered)) }
        ensures err { IfErr result (λ e. Fails e (row_if_not place (form_parts (drop 1 parts.now)) (env self.old.scope functions.now at) (gathered self.old.gathered))) }
        ensures scope { OnOk result (self.new.scope ≡ self.old.scope) }
    {
        match parts {
            [_, test, then] => {
                let test = self.form(alloc, functions, at.inner(), test)?;
                let then = self.form(alloc, functions, at, then)?;
                self.gathered.branch(alloc, test, nothing(), then)
            }
            [_, test, then, otherwise] => {
                let test = self.form(alloc, functions, at.inner(), test)?;
                let then = self.form(alloc, functions, at, then)?;
                let otherwise = self.form(alloc, functions, at, otherwise)?;
                self.gathered.branch(alloc, test, otherwise, then)
            }
            _ => Err(CheckError::Fault(CheckErrorKind::BadForm, place)),
        }
    }

    /// `(when test a ..)`.
    #[cycle(walk)]
    pub fn when_form(
        &mut self,
        alloc: Global,
        functions: &Functions,
        at: At,
        place: Place,
        parts: &[Form],
    ) -> Result<Made, CheckError>
        requires { 0 < length parts.now }
        ensures ok { IfOk result (λ t. row_when place (form_parts (drop 1 parts.now)) (env self.old.scope functions.now at) (gathered self.old.gathered) ≡ done (kernel t) (gathered self.new.gathered)) }
        ensures err { IfErr result (λ e. Fails e (row_when place (form_parts (drop 1 parts.now)) (env self.old.scope functions.now at) (gathered self.old.gathered))) }
        ensures scope { OnOk result (self.new.scope ≡ self.old.scope) }
    {
        match parts {
            [_, test, ..] => {
                let test = self.form(alloc, functions, at.inner(), test)?;
                let body = self.block(alloc, functions, at, parts, 2)?;
                self.gathered.branch(alloc, test, body, nothing())
            }
            _ => Err(CheckError::Fault(CheckErrorKind::BadForm, place)),
        }
    }

    /// `(when-not test a ..)`.
    #[cycle(walk)]
    pub fn when_not_form(
        &mut self,
        alloc: Global,
        functions: &Functions,
        at: At,
        place: Place,
        parts: &[Form],
    ) -> Result<Made, CheckError>
        requires { 0 < length parts.now }
        ensures ok { IfOk result (λ t. row_when_not place (form_parts (drop 1 parts.now)) (env self.old.scope functions.now at) (gathered self.old.gathered) ≡ done (kernel t) (gathered self.new.gathered)) }
        ensures err { IfErr result (λ e. Fails e (row_when_not place (form_parts (drop 1 parts.now)) (env self.old.scope functions.now at) (gathered self.old.gathered))) }
        ensures scope { OnOk result (self.new.scope ≡ self.old.scope) }
    {
        match parts {
            [_, test, ..] => {
                let test = self.form(alloc, functions, at.inner(), test)?;
                let body = self.block(alloc, functions, at, parts, 2)?;
                self.gathered.branch(alloc, test, nothing(), body)
            }
            _ => Err(CheckError::Fault(CheckErrorKind::BadForm, place)),
        }
    }

    /// An `and` or an `or`.
    #[cycle(walk)]
    pub fn chain_form(
        &mut self,
        alloc: Global,
        functions: &Functions,
        at: At,
        both: bool,
        parts: &[Form],
    ) -> Result<Made, CheckError>
        requires { 0 < length parts.now }
        ensures ok { IfOk result (λ t. more_of both (meanings (form_parts (drop 1 parts.now))) (env self.old.scope functions.now at) (gathered self.old.gathered) ≡ done (kernel t) (gathered self.new.gathered)) }
        ensures err { IfErr result (λ e. Fails e (more_of both (meanings (form_parts (drop 1 parts.now))) (env self.old.scope functions.now at) (gathered self.old.gathered))) }
        ensures scope { OnOk result (self.new.scope ≡ self.old.scope) }
    {
        let count = parts.len();
        if count == 1 {
            return Ok(Made::constant(if both { Value::Bool(true) } else { Value::Nil }));
        }
        let end = count - 1;
        let tail = &parts[end];
        let first = self.scope.len();
        let values = self.hidden(alloc, functions, at, parts, 1, end)?;
        let last = self.form(alloc, functions, at, tail)?;
        self.scope.leave(first);
        self.gathered.chain(alloc, both, first, values, last)
    }
}
