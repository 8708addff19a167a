ghost use Rattle.std.specs.Prelude.{◌≡◌, ◌≤◌, ◌<◌, ◌+◌, ◌^◌, ◌++◌};
ghost use Rattle.ca_check.specs.Words.{length, IfOk, IfErr, OnOk, list_any, list, kernel, form_trees, CheckError, is_pattern, unpacked, block, done, meanings, names_of, numbers, straight, looped, total_binders, pattern_parts, pattern_names, written_as, in_function, body_in, AreCounted, gathered, env, form_parts, terms_of, Fails};

use crate::defn::{Defn, Pass};
use crate::walk::Walker;
use ca_forms::context::{At, Context};
use ca_forms::error::CheckError;
use ca_forms::functions::Functions;
use ca_forms::gathered::Made;
use ca_forms::operands::with_names;
use ca_forms::shapes::{is_pattern, pattern_items};
use ca_reader::form::Form;
use ca_term::place::Place;
use ca_value::memory::OutOfMemory;
use ca_value::seq::Seq;
use std::alloc::Global;

/// The numbers of these parameters, the first one being `first`.
pub fn parameter_numbers(
    alloc: Global,
    first: u64,
    parameters: &[Form],
) -> Result<Seq<u64>, OutOfMemory>
    requires { first + length parameters.now < 2 ^ 64 }
    ensures ok { IfOk result (λ s. list s ≡ numbers first (names_of (total_binders (form_trees parameters.now)))) }
{
    let mut numbers = Seq::new(alloc);
    numbers.reserve(parameters.len() as u64)?;
    for i in 0..parameters.len() {
        numbers.push(first + i as u64);
    }
    Ok(numbers)
}

/// The numbers of these parameters, the first one being `first`, and the hidden ones behind them.
pub fn all_parameters(
    alloc: Global,
    first: u64,
    parameters: &[Form],
    hidden: &[u64],
) -> Result<Seq<u64>, OutOfMemory>
    requires { first + length parameters.now < 2 ^ 64 }
    ensures ok { IfOk result (λ s. list s ≡ numbers first (names_of (total_binders (form_trees parameters.now))) ++ hidden.now) }
{
    let numbers = parameter_numbers(alloc, first, parameters)?;
    let mut all = numbers.into_vec();
    all.extend_from_slice(hidden)?;
    Ok(Seq::from_vec(all))
}

// Whether one of the parameters is a pattern.
fn have_pattern(parameters: &[Form]) -> bool
    ensures { result ≡ list_any is_pattern (total_binders (form_trees parameters.now)) }
{
    for parameter in parameters {
        if is_pattern(parameter) {
            return true;
        }
    }
    false
}

impl Walker {
    // The values that the names of the patterns among the parameters have, the first parameter being `first`.
    fn unpack_patterns(
        &mut self,
        alloc: Global,
        place: Place,
        first: u64,
        parameters: &[Form],
    ) -> Result<Seq<Made>, CheckError>
        requires room { first + length parameters.now ≤ length self.old.scope }
        requires patterns { AreCounted (total_binders (form_trees parameters.now)) }
        ensures ok { IfOk result (λ t. terms_of (list t) ≡ pattern_parts place first (total_binders (form_trees parameters.now))) }
        ensures err { IfErr result (λ e. e ≡ CheckError.OutOfMemory) }
        ensures names { OnOk result (self.new.scope ≡ self.old.scope ++ pattern_names (total_binders (form_trees parameters.now))) }
        ensures longer { IfOk result (λ t. length self.new.scope ≡ length self.old.scope + length (list t)) }
        ensures gathered { gathered self.new.gathered ≡ gathered self.old.gathered }
    {
        let _size = self.scope.len();
        let mut values = Seq::new(alloc);
        for i in 0..parameters.len() {
            let whole = first + i as u64;
            values = self.unpack(alloc, place, whole, pattern_items(&parameters[i]), values)?;
        }
        Ok(values)
    }

    // The body behind a Let of the patterns among the parameters, if there are any.
    fn unpacked(
        &mut self,
        alloc: Global,
        functions: &Functions,
        at: At,
        place: Place,
        first: u64,
        parameters: &[Form],
        body: &[Form],
    ) -> Result<Made, CheckError>
        requires room { first + length parameters.now ≤ length self.old.scope }
        requires patterns { AreCounted (total_binders (form_trees parameters.now)) }
        ensures ok { IfOk result (λ t. unpacked place first (total_binders (form_trees parameters.now)) (block (meanings (form_parts body.now))) (env self.old.scope functions.now at) (gathered self.old.gathered) ≡ done (kernel t) (gathered self.new.gathered)) }
        ensures err { IfErr result (λ e. Fails e (unpacked place first (total_binders (form_trees parameters.now)) (block (meanings (form_parts body.now))) (env self.old.scope functions.now at) (gathered self.old.gathered))) }
        ensures scope { OnOk result (self.new.scope ≡ self.old.scope) }
    {
        if !have_pattern(parameters) {
            return self.block(alloc, functions, at, body, 0);
        }
        let size = self.scope.len();
        let values = self.unpack_patterns(alloc, place, first, parameters)?;
        let made = self.block(alloc, functions, at, body, 0)?;
        self.scope.leave(size);
        self.gathered.bind(alloc, size, values, made)
    }

    // Binds the names of the parameters, and a hidden one for a pattern.
    fn bind_parameters(&mut self, alloc: Global, parameters: &[Form]) -> Result<(), CheckError>
        ensures ok { OnOk result (self.new.scope ≡ self.old.scope ++ names_of (total_binders (form_trees parameters.now))) }
        ensures err { IfErr result (λ e. e ≡ CheckError.OutOfMemory) }
        ensures gathered { gathered self.new.gathered ≡ gathered self.old.gathered }
    {
        for parameter in parameters {
            self.bind_name(alloc, parameter)?;
        }
        Ok(())
    }

    // The body by itself; a `recur` aims at the function where there is a target.
    fn straight(
        &mut self,
        alloc: Global,
        functions: &Functions,
        target: Option<u64>,
        defn: &Defn,
        place: Place,
    ) -> Result<Made, CheckError>
        requires patterns { AreCounted (written_as defn.now).parameters }
        ensures ok { IfOk result (λ t. straight target (written_as defn.now) place (in_function self.old.scope functions.now) (gathered self.old.gathered) ≡ done (kernel t) (gathered self.new.gathered)) }
        ensures err { IfErr result (λ e. Fails e (straight target (written_as defn.now) place (in_function self.old.scope functions.now) (gathered self.old.gathered))) }
        ensures scope { OnOk result (self.new.scope ≡ self.old.scope) }
    {
        let size = self.scope.len();
        self.bind_parameters(alloc, defn.parameters)?;
        let at = At {
            target,
            context: Context::Function,
        };
        let body = self.unpacked(
            alloc,
            functions,
            at,
            place,
            size,
            defn.parameters,
            defn.body,
        )?;
        self.scope.leave(size);
        Ok(body)
    }

    // The body in a loop over the parameters.
    fn looped(
        &mut self,
        alloc: Global,
        functions: &Functions,
        defn: &Defn,
        place: Place,
    ) -> Result<Made, CheckError>
        requires few { length self.old.scope ≤ 4096 }
        requires short { length defn.now.parameters.now ≤ 16 }
        requires patterns { AreCounted (written_as defn.now).parameters }
        ensures ok { IfOk result (λ t. looped (written_as defn.now) place (in_function self.old.scope functions.now) (gathered self.old.gathered) ≡ done (kernel t) (gathered self.new.gathered)) }
        ensures err { IfErr result (λ e. Fails e (looped (written_as defn.now) place (in_function self.old.scope functions.now) (gathered self.old.gathered))) }
        ensures scope { OnOk result (self.new.scope ≡ self.old.scope) }
    {
        let size = self.scope.len();
        let numbers = parameter_numbers(alloc, size, defn.parameters)?;
        let values = with_names(alloc, Seq::new(alloc), numbers.as_slice())?;
        self.bind_parameters(alloc, defn.parameters)?;
        let first = self.scope.len();
        self.bind_parameters(alloc, defn.parameters)?;
        let at = At {
            target: Some(defn.parameters.len() as u64),
            context: Context::Function,
        };
        let body = self.unpacked(
            alloc,
            functions,
            at,
            place,
            first,
            defn.parameters,
            defn.body,
        )?;
        self.scope.leave(size);
        self.gathered.repeat(alloc, first, values, body)
    }

    /// The body of the function as it is walked in that pass.
    pub fn body(
        &mut self,
        alloc: Global,
        functions: &Functions,
        pass: Pass,
        defn: &Defn,
        place: Place,
    ) -> Result<Made, CheckError>
        requires few { length self.old.scope ≤ 4096 }
        requires short { length defn.now.parameters.now ≤ 16 }
        requires patterns { AreCounted (written_as defn.now).parameters }
        ensures ok { IfOk result (λ t. body_in pass (written_as defn.now) place (in_function self.old.scope functions.now) (gathered self.old.gathered) ≡ done (kernel t) (gathered self.new.gathered)) }
        ensures err { IfErr result (λ e. Fails e (body_in pass (written_as defn.now) place (in_function self.old.scope functions.now) (gathered self.old.gathered))) }
        ensures scope { OnOk result (self.new.scope ≡ self.old.scope) }
    {
        match pass {
            Pass::First => self.straight(
                alloc,
                functions,
                Some(defn.parameters.len() as u64),
                defn,
                place,
            ),
            Pass::Straight => self.straight(alloc, functions, None, defn, place),
            Pass::Looped => self.looped(alloc, functions, defn, place),
        }
    }
}
