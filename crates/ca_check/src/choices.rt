ghost use Rattle.std.specs.Prelude.{◌≡◌, ◌<◌};
ghost use Rattle.ca_check.specs.Words.{IfOk, IfErr, OnOk, length, drop, list, kernel, CheckError, tested, chain_of_ifs, choice_terms, done, meanings, row_cond, gathered, env, form_parts, Fails};

use crate::walk::Walker;
use ca_forms::context::At;
use ca_forms::error::{CheckError, CheckErrorKind};
use ca_forms::fixed::nothing;
use ca_forms::functions::Functions;
use ca_forms::gathered::{Bodies, Made};
use ca_reader::form::Form;
use ca_term::place::Place;
use ca_value::seq::Seq;
use std::alloc::Global;

/// A test, and what is done where it holds.
#[derive(Drop)]
pub struct Choice {
    pub test: Made,
    pub term: Made,
}

// The Ifs of these choices, each in the other branch of the one before it; nil behind the last.
fn choose(bodies: &mut Bodies, alloc: Global, mut choices: Seq<Choice>) -> Result<Made, CheckError>
    ensures ok { IfOk result (λ t. chain_of_ifs (choice_terms (list choices)) (gathered bodies.old) ≡ done (kernel t) (gathered bodies.new)) }
    ensures err { IfErr result (λ e. e ≡ CheckError.OutOfMemory) }
{
    let mut made = nothing();
    while let Some(choice) = choices.pop() {
        let Choice { test, term } = choice;
        made = bodies.branch(alloc, test, term, made)?;
    }
    Ok(made)
}

impl Walker {
    /// `(cond c e ..)`.
    #[cycle(walk)]
    pub fn cond_form(
        &mut self,
        alloc: Global,
        functions: &Functions,
        at: At,
        place: Place,
        parts: &[Form],
    ) -> Result<Made, CheckError>
        requires { 0 < length parts.now }
        ensures ok { IfOk result (λ t. row_cond place (form_parts (drop 1 parts.now)) (env self.old.scope functions.now at) (gathered self.old.gathered) ≡ done (kernel t) (gathered self.new.gathered)) }
        ensures err { IfErr result (λ e. Fails e (row_cond place (form_parts (drop 1 parts.now)) (env self.old.scope functions.now at) (gathered self.old.gathered))) }
        ensures scope { OnOk result (self.new.scope ≡ self.old.scope) }
    {
        let pairs = (parts.len() - 1) / 2;
        if 2 * pairs + 1 == parts.len() {
            let choices = self.tested(alloc, functions, at, parts)?;
            choose(&mut self.gathered, alloc, choices)
        } else {
            Err(CheckError::Fault(CheckErrorKind::BadForm, place))
        }
    }

    // The tests of a `cond`, each with what is done where it holds.
    #[cycle(walk)]
    fn tested(
        &mut self,
        alloc: Global,
        functions: &Functions,
        at: At,
        parts: &[Form],
    ) -> Result<Seq<Choice>, CheckError>
        requires { 0 < length parts.now }
        ensures ok { IfOk result (λ t. tested (meanings (form_parts (drop 1 parts.now))) (env self.old.scope functions.now at) (gathered self.old.gathered) ≡ done (choice_terms (list t)) (gathered self.new.gathered)) }
        ensures err { IfErr result (λ e. Fails e (tested (meanings (form_parts (drop 1 parts.now))) (env self.old.scope functions.now at) (gathered self.old.gathered))) }
        ensures scope { OnOk result (self.new.scope ≡ self.old.scope) }
    {
        let mut choices = Seq::new(alloc);
        let count = (parts.len() - 1) / 2;
        for i in 0..count {
            let test = self.form(alloc, functions, at.inner(), &parts[2 * i + 1])?;
            let term = self.form(alloc, functions, at, &parts[2 * i + 2])?;
            choices.reserve(1)?;
            choices.push(Choice { test, term });
        }
        Ok(choices)
    }
}
