ghost use Rattle.std.specs.Prelude.{◌≡◌, ◌≤◌, ◌<◌};
ghost use Rattle.ca_check.specs.Words.{IfOk, IfErr, OnOk, length, drop, list, kernel, done, meanings, row_symbol, row_call, row_keyword, builtin_call, function_call, named_function, gathered, env, form_parts, Fails};

use crate::walk::Walker;
use ca_forms::context::At;
use ca_forms::error::{CheckError, CheckErrorKind};
use ca_forms::functions::{Function, Functions};
use ca_forms::gathered::Made;
use ca_forms::operands::{is_known, key_constant, with_names, with_second};
use ca_forms::words;
use ca_reader::form::Form;
use ca_term::head::Head;
use ca_term::place::Place;
use ca_value::builtin::Builtin;
use ca_value::seq::Text;
use std::alloc::Global;

impl Walker {
    /// A list whose head is the symbol `name`, which is no form: a call of a function or of a builtin.
    #[cycle(walk)]
    pub fn call(
        &mut self,
        alloc: Global,
        functions: &Functions,
        at: At,
        name: &Text,
        head: Place,
        parts: &[Form],
        place: Place,
    ) -> Result<Made, CheckError>
        requires { 0 < length parts.now }
        ensures ok { IfOk result (λ t. row_call (list name.now) head (meanings (form_parts (drop 1 parts.now))) place (env self.old.scope functions.now at) (gathered self.old.gathered) ≡ done (kernel t) (gathered self.new.gathered)) }
        ensures err { IfErr result (λ e. Fails e (row_call (list name.now) head (meanings (form_parts (drop 1 parts.now))) place (env self.old.scope functions.now at) (gathered self.old.gathered))) }
        ensures scope { OnOk result (self.new.scope ≡ self.old.scope) }
    {
        match self.scope.find(name.as_slice()) {
            Some(_) => Err(CheckError::Fault(CheckErrorKind::BadForm, place)),
            None => match functions.find(name.as_slice()) {
                Some((number, function)) => self.function_form(
                    alloc, functions, at, name, number, function, parts, place,
                ),
                None => match words::builtin(name.as_slice()) {
                    Some(builtin) => self.builtin_form(
                        alloc, functions, at, builtin, parts, 1, place,
                    ),
                    None => Err(CheckError::Fault(CheckErrorKind::UnknownName, head)),
                },
            },
        }
    }

    #[cycle(walk)]
    fn function_form(
        &mut self,
        alloc: Global,
        functions: &Functions,
        at: At,
        name: &Text,
        number: u64,
        function: &Function,
        parts: &[Form],
        place: Place,
    ) -> Result<Made, CheckError>
        requires { 0 < length parts.now }
        ensures ok { IfOk result (λ t. function_call number (named_function (list name.now) function.now) (meanings (form_parts (drop 1 parts.now))) place (env self.old.scope functions.now at) (gathered self.old.gathered) ≡ done (kernel t) (gathered self.new.gathered)) }
        ensures err { IfErr result (λ e. Fails e (function_call number (named_function (list name.now) function.now) (meanings (form_parts (drop 1 parts.now))) place (env self.old.scope functions.now at) (gathered self.old.gathered))) }
        ensures scope { OnOk result (self.new.scope ≡ self.old.scope) }
    {
        if parts.len() as u64 - 1 == function.arity {
            let terms = self.in_order(alloc, functions, at.inner(), parts, 1)?;
            let terms = with_names(alloc, terms, function.hidden.as_slice())?;
            self.gathered.apply(alloc, Head::Call(number), terms, place)
        } else {
            Err(CheckError::Fault(CheckErrorKind::BadArity, place))
        }
    }

    /// A builtin over the parts from a place on: BadArity where it admits another number of them.
    #[cycle(walk)]
    pub fn builtin_form(
        &mut self,
        alloc: Global,
        functions: &Functions,
        at: At,
        builtin: Builtin,
        parts: &[Form],
        from: usize,
        place: Place,
    ) -> Result<Made, CheckError>
        requires { from ≤ length parts.now }
        ensures ok { IfOk result (λ t. builtin_call builtin (meanings (form_parts (drop from parts.now))) place (env self.old.scope functions.now at) (gathered self.old.gathered) ≡ done (kernel t) (gathered self.new.gathered)) }
        ensures err { IfErr result (λ e. Fails e (builtin_call builtin (meanings (form_parts (drop from parts.now))) place (env self.old.scope functions.now at) (gathered self.old.gathered))) }
        ensures scope { OnOk result (self.new.scope ≡ self.old.scope) }
    {
        if builtin.admits((parts.len() - from) as u64) {
            self.operation(
                alloc,
                functions,
                at,
                Head::Builtin(builtin),
                parts,
                from,
                place,
            )
        } else {
            Err(CheckError::Fault(CheckErrorKind::BadArity, place))
        }
    }

    /// A keyword at the head of a list: it looks itself up in a map.
    #[cycle(walk)]
    pub fn keyword_form(
        &mut self,
        alloc: Global,
        functions: &Functions,
        at: At,
        name: &Text,
        head: Place,
        parts: &[Form],
        place: Place,
    ) -> Result<Made, CheckError>
        requires { 0 < length parts.now }
        ensures ok { IfOk result (λ t. row_keyword (list name.now) head (meanings (form_parts (drop 1 parts.now))) place (env self.old.scope functions.now at) (gathered self.old.gathered) ≡ done (kernel t) (gathered self.new.gathered)) }
        ensures err { IfErr result (λ e. Fails e (row_keyword (list name.now) head (meanings (form_parts (drop 1 parts.now))) place (env self.old.scope functions.now at) (gathered self.old.gathered))) }
        ensures scope { OnOk result (self.new.scope ≡ self.old.scope) }
    {
        if parts.len() < 2 {
            return Err(CheckError::Fault(CheckErrorKind::BadArity, place));
        }
        if 3 < parts.len() {
            return Err(CheckError::Fault(CheckErrorKind::BadArity, place));
        }
        let key = key_constant(alloc, name, head)?;
        let terms = self.in_order(alloc, functions, at.inner(), parts, 1)?;
        let terms = with_second(terms, key)?;
        self.gathered
            .apply(alloc, Head::Builtin(Builtin::Get), terms, place)
    }

    /// A symbol that stands alone: the innermost name in scope that is written so.
    pub fn symbol(
        &self,
        functions: &Functions,
        name: &Text,
        place: Place,
    ) -> Result<Made, CheckError>
        ensures ok { IfOk result (λ t. (at : At) → row_symbol (list name.now) place (env self.now.scope functions.now at) (gathered self.now.gathered) ≡ done (kernel t) (gathered self.now.gathered)) }
        ensures err { IfErr result (λ e. (at : At) → Fails e (row_symbol (list name.now) place (env self.now.scope functions.now at) (gathered self.now.gathered))) }
    {
        match self.scope.find(name.as_slice()) {
            Some(number) => Ok(Made::local(number)),
            None => {
                if is_known(functions, name.as_slice()) {
                    Err(CheckError::Fault(CheckErrorKind::BadForm, place))
                } else {
                    Err(CheckError::Fault(CheckErrorKind::UnknownName, place))
                }
            }
        }
    }
}
