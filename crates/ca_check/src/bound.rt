ghost use Rattle.std.specs.Prelude.{◌≡◌, ◌<◌, ◌+◌, ◌^◌};
ghost use Rattle.ca_check.specs.Words.{IfOk, IfErr, OnOk, length, drop, is_some, true, list, form_tree, form_trees, kernel, bindings_in, is_only, only_shape, first_in, second_means, only_means, row_bound, bound_shape, bound_body, bound_other, test_term, bound_choice, total_name, local_name, name_as, done, one_bound, gathered, env, part, form_parts, terms_of, Fails, CheckError};

use crate::walk::Walker;
use ca_forms::context::At;
use ca_forms::error::{CheckError, CheckErrorKind};
use ca_forms::fixed::{nothing, over};
use ca_forms::functions::Functions;
use ca_forms::gathered::{Bodies, Made};
use ca_forms::operands::single;
use ca_forms::shapes::{is_binder, is_name};
use ca_reader::form::{Form, Shape};
use ca_term::head::Head;
use ca_term::place::Place;
use ca_value::builtin::Builtin;
use ca_value::seq::Seq;
use std::alloc::Global;

/// The first form of a vector of two.
pub fn binder_in(bindings: &Form) -> &Form
    ensures { form_tree result.now ≡ first_in (form_tree bindings.now) }
{
    match &bindings.shape {
        Shape::Vector(items) => {
            let items = items.as_slice();
            if items.len() == 2 {
                &items[0]
            } else {
                bindings
            }
        }
        Shape::Nil | Shape::Bool(_) | Shape::Int(_) => bindings,
        Shape::Text(_) | Shape::Key(_) | Shape::Symbol(_) => bindings,
        Shape::List(_) | Shape::Map(_) => bindings,
    }
}

/// Whether the form is a vector of one name and its value.
#[tactic(auto, using(crate::proofs::BoundLaws::only_name, crate::proofs::BoundLaws::only_off))]
fn is_only_name(bindings: &Form) -> bool
    ensures { result ≡ is_some (one_bound (bindings_in (part bindings.now))) }
{
    match &bindings.shape {
        Shape::Vector(items) => {
            let items = items.as_slice();
            if items.len() == 2 {
                is_name(&items[0])
            } else {
                false
            }
        }
        Shape::Nil | Shape::Bool(_) | Shape::Int(_) => false,
        Shape::Text(_) | Shape::Key(_) | Shape::Symbol(_) => false,
        Shape::List(_) | Shape::Map(_) => false,
    }
}

/// Whether the parts are those of a form that binds one name to a value, with one branch or two behind it or with any
/// other parts.
pub fn is_bound_shape(branches: bool, parts: &[Form]) -> bool
    ensures { result ≡ bound_shape branches (form_parts (drop 1 parts.now)) }
{
    if parts.len() < 2 {
        return false;
    }
    if branches {
        if parts.len() < 3 {
            false
        } else if parts.len() < 5 {
            is_only_name(&parts[1])
        } else {
            false
        }
    } else {
        is_only_name(&parts[1])
    }
}

// Whether the form is a vector of one name or pattern and its value.
fn is_only_binding(bindings: &Form) -> bool
    ensures { result ≡ is_only (bindings_in (part bindings.now)) }
{
    match &bindings.shape {
        Shape::Vector(items) => {
            let items = items.as_slice();
            if items.len() == 2 {
                is_binder(&items[0])
            } else {
                false
            }
        }
        Shape::Nil | Shape::Bool(_) | Shape::Int(_) => false,
        Shape::Text(_) | Shape::Key(_) | Shape::Symbol(_) => false,
        Shape::List(_) | Shape::Map(_) => false,
    }
}

/// Whether the parts are those of a form that binds one name or pattern to a value.
pub fn is_only_shape(parts: &[Form]) -> bool
    ensures { result ≡ only_shape (form_parts (drop 1 parts.now)) }
{
    if parts.len() < 2 {
        false
    } else {
        is_only_binding(&parts[1])
    }
}

// The test of the name of that number: that it isn't nil, or its truth.
fn bound_test(alloc: Global, some: bool, number: u64, place: Place) -> Result<Made, CheckError>
    ensures ok { IfOk result (λ t. kernel t ≡ test_term some number place) }
    ensures err { IfErr result (λ e. e ≡ CheckError.OutOfMemory) }
{
    if some {
        over(alloc, Head::Builtin(Builtin::IsSome), &[number], place)
    } else {
        Ok(Made::local(number))
    }
}

// The choice by the value that has the hidden name of number `first`.
fn choice(
    bodies: &mut Bodies,
    alloc: Global,
    some: bool,
    first: u64,
    values: Seq<Made>,
    body: Made,
    other: Made,
    place: Place,
) -> Result<Made, CheckError>
    requires { first + length (list values) < 2 ^ 64 }
    ensures ok { IfOk result (λ t. bound_choice some first (terms_of (list values)) (kernel body) (kernel other) place (gathered bodies.old) ≡ done (kernel t) (gathered bodies.new)) }
    ensures err { IfErr result (λ e. e ≡ CheckError.OutOfMemory) }
{
    let test = bound_test(alloc, some, first, place)?;
    let choice = bodies.branch(alloc, test, body, other)?;
    bodies.under(alloc, first, values, choice)
}

impl Walker {
    /// `(if-let [x e] a b)` and `(if-some [x e] a b)`, which have branches, the second maybe left out;
    /// `(when-let [x e] a ..)` and `(when-some [x e] a ..)`.
    #[cycle(walk)]
    pub fn bound_form(
        &mut self,
        alloc: Global,
        functions: &Functions,
        at: At,
        some: bool,
        branches: bool,
        place: Place,
        parts: &[Form],
    ) -> Result<Made, CheckError>
        requires { 0 < length parts.now }
        ensures ok { IfOk result (λ t. row_bound some branches place (form_parts (drop 1 parts.now)) (env self.old.scope functions.now at) (gathered self.old.gathered) ≡ done (kernel t) (gathered self.new.gathered)) }
        ensures err { IfErr result (λ e. Fails e (row_bound some branches place (form_parts (drop 1 parts.now)) (env self.old.scope functions.now at) (gathered self.old.gathered))) }
        ensures scope { OnOk result (self.new.scope ≡ self.old.scope) }
    {
        if parts.len() < 2 {
            return Err(CheckError::Fault(CheckErrorKind::BadForm, place));
        }
        if is_bound_shape(branches, parts) {
            self.bound_tested(alloc, functions, at, some, branches, place, parts)
        } else {
            Err(CheckError::Fault(CheckErrorKind::BadForm, place))
        }
    }

    #[cycle(walk)]
    fn bound_tested(
        &mut self,
        alloc: Global,
        functions: &Functions,
        at: At,
        some: bool,
        branches: bool,
        place: Place,
        parts: &[Form],
    ) -> Result<Made, CheckError>
        requires more { 1 < length parts.now }
        requires shape { bound_shape branches (form_parts (drop 1 parts.now)) ≡ true }
        ensures ok { IfOk result (λ t. row_bound some branches place (form_parts (drop 1 parts.now)) (env self.old.scope functions.now at) (gathered self.old.gathered) ≡ done (kernel t) (gathered self.new.gathered)) }
        ensures err { IfErr result (λ e. Fails e (row_bound some branches place (form_parts (drop 1 parts.now)) (env self.old.scope functions.now at) (gathered self.old.gathered))) }
        ensures scope { OnOk result (self.new.scope ≡ self.old.scope) }
    {
        let first = self.scope.len();
        let bindings = &parts[1];
        let value = self.only_value(alloc, functions, at.inner(), bindings)?;
        let values = single(alloc, value)?;
        self.scope.hide(alloc)?;
        let body = self.bound_then(alloc, functions, at, branches, first, parts, bindings)?;
        let other = self.bound_other(alloc, functions, at, branches, parts)?;
        self.scope.leave(first);
        choice(
            &mut self.gathered,
            alloc,
            some,
            first,
            values,
            body,
            other,
            place,
        )
    }

    /// The value of the only binding in a form; nil for another form.
    #[cycle(walk)]
    pub fn only_value(
        &mut self,
        alloc: Global,
        functions: &Functions,
        at: At,
        bindings: &Form,
    ) -> Result<Made, CheckError>
        ensures ok { IfOk result (λ t. only_means (form_tree bindings.now) (env self.old.scope functions.now at) (gathered self.old.gathered) ≡ done (kernel t) (gathered self.new.gathered)) }
        ensures err { IfErr result (λ e. Fails e (only_means (form_tree bindings.now) (env self.old.scope functions.now at) (gathered self.old.gathered))) }
        ensures scope { OnOk result (self.new.scope ≡ self.old.scope) }
    {
        match &bindings.shape {
            Shape::Vector(items) => self.second_value(alloc, functions, at, items.as_slice()),
            Shape::Nil | Shape::Bool(_) | Shape::Int(_) => Ok(nothing()),
            Shape::Text(_) | Shape::Key(_) | Shape::Symbol(_) => Ok(nothing()),
            Shape::List(_) | Shape::Map(_) => Ok(nothing()),
        }
    }

    // The value of the second of two forms.
    #[cycle(walk)]
    #[tactic(auto, using(crate::proofs::BoundLaws::second_off))]
    fn second_value(
        &mut self,
        alloc: Global,
        functions: &Functions,
        at: At,
        items: &[Form],
    ) -> Result<Made, CheckError>
        ensures ok { IfOk result (λ t. second_means (form_trees items.now) (env self.old.scope functions.now at) (gathered self.old.gathered) ≡ done (kernel t) (gathered self.new.gathered)) }
        ensures err { IfErr result (λ e. Fails e (second_means (form_trees items.now) (env self.old.scope functions.now at) (gathered self.old.gathered))) }
        ensures scope { OnOk result (self.new.scope ≡ self.old.scope) }
    {
        if items.len() == 2 {
            self.form(alloc, functions, at, &items[1])
        } else {
            Ok(nothing())
        }
    }

    // What is done where the test holds: the name gets the tested value, which has the number `hidden`.
    #[cycle(walk)]
    fn bound_then(
        &mut self,
        alloc: Global,
        functions: &Functions,
        at: At,
        branches: bool,
        hidden: u64,
        parts: &[Form],
        bindings: &Form,
    ) -> Result<Made, CheckError>
        requires { 1 < length parts.now }
        ensures ok { IfOk result (λ t. name_as (total_name (first_in (form_tree bindings.now))) (local_name hidden) (bound_body branches (form_parts (drop 2 parts.now))) (env self.old.scope functions.now at) (gathered self.old.gathered) ≡ done (kernel t) (gathered self.new.gathered)) }
        ensures err { IfErr result (λ e. Fails e (name_as (total_name (first_in (form_tree bindings.now))) (local_name hidden) (bound_body branches (form_parts (drop 2 parts.now))) (env self.old.scope functions.now at) (gathered self.old.gathered))) }
        ensures scope { OnOk result (self.new.scope ≡ self.old.scope) }
    {
        let first = self.scope.len();
        let values = single(alloc, Made::local(hidden))?;
        self.bind_name(alloc, binder_in(bindings))?;
        let body = self.bound_body(alloc, functions, at, branches, parts)?;
        self.scope.leave(first);
        self.gathered.bind(alloc, first, values, body)
    }

    #[cycle(walk)]
    fn bound_body(
        &mut self,
        alloc: Global,
        functions: &Functions,
        at: At,
        branches: bool,
        parts: &[Form],
    ) -> Result<Made, CheckError>
        requires { 1 < length parts.now }
        ensures ok { IfOk result (λ t. bound_body branches (form_parts (drop 2 parts.now)) (env self.old.scope functions.now at) (gathered self.old.gathered) ≡ done (kernel t) (gathered self.new.gathered)) }
        ensures err { IfErr result (λ e. Fails e (bound_body branches (form_parts (drop 2 parts.now)) (env self.old.scope functions.now at) (gathered self.old.gathered))) }
        ensures scope { OnOk result (self.new.scope ≡ self.old.scope) }
    {
        if branches {
            if parts.len() == 2 {
                Ok(nothing())
            } else {
                let made = self.form(alloc, functions, at, &parts[2])?;
                self.gathered.seq(alloc, single(alloc, made)?)
            }
        } else {
            self.block(alloc, functions, at, parts, 2)
        }
    }

    // What is done where the test doesn't hold.
    #[cycle(walk)]
    fn bound_other(
        &mut self,
        alloc: Global,
        functions: &Functions,
        at: At,
        branches: bool,
        parts: &[Form],
    ) -> Result<Made, CheckError>
        requires { 1 < length parts.now }
        ensures ok { IfOk result (λ t. bound_other branches (form_parts (drop 2 parts.now)) (env self.old.scope functions.now at) (gathered self.old.gathered) ≡ done (kernel t) (gathered self.new.gathered)) }
        ensures err { IfErr result (λ e. Fails e (bound_other branches (form_parts (drop 2 parts.now)) (env self.old.scope functions.now at) (gathered self.old.gathered))) }
        ensures scope { OnOk result (self.new.scope ≡ self.old.scope) }
    {
        if branches {
            if parts.len() < 4 {
                Ok(nothing())
            } else {
                self.form(alloc, functions, at, &parts[3])
            }
        } else {
            Ok(nothing())
        }
    }
}
