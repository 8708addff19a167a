ghost use Rattle.std.specs.Prelude.{◌≡◌, ◌<◌, ◌+◌, ◌^◌, ◌∷◌, ◌++◌};
ghost use Rattle.ca_check.specs.Words.{IfOk, IfErr, OnOk, [], length, drop, false, true, form_tree, kernel, bound_shape, first_in, only_shape, total_binder, block, done, CheckError, meanings, row_loop, row_while, row_dotimes, row_doseq, loop_parts, loop_names, item_of, gathered, env, form_parts, Fails};

use crate::bound::{binder_in, is_bound_shape, is_only_shape};
use crate::walk::Walker;
use ca_forms::context::At;
use ca_forms::error::{CheckError, CheckErrorKind};
use ca_forms::fixed::{over, pair};
use ca_forms::functions::Functions;
use ca_forms::gathered::Made;
use ca_forms::operands::single;
use ca_forms::rounds::recur;
use ca_forms::shapes::{bounds_error, have_pattern, is_over_long};
use ca_reader::form::Form;
use ca_term::head::Head;
use ca_term::place::Place;
use ca_value::builtin::Builtin;
use ca_value::seq::Seq;
use std::alloc::Global;

impl Walker {
    /// `(loop [b e ..] e ..)`.
    #[cycle(walk)]
    pub fn loop_form(
        &mut self,
        alloc: Global,
        functions: &Functions,
        at: At,
        place: Place,
        parts: &[Form],
    ) -> Result<Made, CheckError>
        requires { 0 < length parts.now }
        ensures ok { IfOk result (λ t. row_loop place (form_parts (drop 1 parts.now)) (env self.old.scope functions.now at) (gathered self.old.gathered) ≡ done (kernel t) (gathered self.new.gathered)) }
        ensures err { IfErr result (λ e. Fails e (row_loop place (form_parts (drop 1 parts.now)) (env self.old.scope functions.now at) (gathered self.old.gathered))) }
        ensures scope { OnOk result (self.new.scope ≡ self.old.scope) }
    {
        if parts.len() < 2 {
            return Err(CheckError::Fault(CheckErrorKind::BadForm, place));
        }
        match bounds_error(&parts[1]) {
            Some(kind) => Err(CheckError::Fault(kind, place)),
            None => self.loop_parts(alloc, functions, at, place, parts),
        }
    }

    #[cycle(walk)]
    fn loop_parts(
        &mut self,
        alloc: Global,
        functions: &Functions,
        at: At,
        place: Place,
        parts: &[Form],
    ) -> Result<Made, CheckError>
        requires { 1 < length parts.now }
        ensures ok { IfOk result (λ t. loop_parts place (form_parts (drop 1 parts.now)) (env self.old.scope functions.now at) (gathered self.old.gathered) ≡ done (kernel t) (gathered self.new.gathered)) }
        ensures err { IfErr result (λ e. Fails e (loop_parts place (form_parts (drop 1 parts.now)) (env self.old.scope functions.now at) (gathered self.old.gathered))) }
        ensures scope { OnOk result (self.new.scope ≡ self.old.scope) }
    {
        if have_pattern(&parts[1]) {
            self.pattern_loop(alloc, functions, at, place, parts)
        } else {
            self.loop_names(alloc, functions, at, place, parts)
        }
    }

    // A loop over names alone.
    #[cycle(walk)]
    fn loop_names(
        &mut self,
        alloc: Global,
        functions: &Functions,
        at: At,
        place: Place,
        parts: &[Form],
    ) -> Result<Made, CheckError>
        requires { 1 < length parts.now }
        ensures ok { IfOk result (λ t. loop_names place (form_parts (drop 1 parts.now)) (env self.old.scope functions.now at) (gathered self.old.gathered) ≡ done (kernel t) (gathered self.new.gathered)) }
        ensures err { IfErr result (λ e. Fails e (loop_names place (form_parts (drop 1 parts.now)) (env self.old.scope functions.now at) (gathered self.old.gathered))) }
        ensures scope { OnOk result (self.new.scope ≡ self.old.scope) }
    {
        let first = self.scope.len();
        let values = self.bound_parts(alloc, functions, at, place, &parts[1])?;
        let inside = at.in_loop(values.len());
        let body = self.block(alloc, functions, inside, parts, 2)?;
        self.scope.leave(first);
        self.gathered.repeat(alloc, first, values, body)
    }

    /// `(while c e ..)`.
    #[cycle(walk)]
    pub fn while_form(
        &mut self,
        alloc: Global,
        functions: &Functions,
        at: At,
        place: Place,
        parts: &[Form],
    ) -> Result<Made, CheckError>
        requires { 0 < length parts.now }
        ensures ok { IfOk result (λ t. row_while place (form_parts (drop 1 parts.now)) (env self.old.scope functions.now at) (gathered self.old.gathered) ≡ done (kernel t) (gathered self.new.gathered)) }
        ensures err { IfErr result (λ e. Fails e (row_while place (form_parts (drop 1 parts.now)) (env self.old.scope functions.now at) (gathered self.old.gathered))) }
        ensures scope { OnOk result (self.new.scope ≡ self.old.scope) }
    {
        if parts.len() < 2 {
            return Err(CheckError::Fault(CheckErrorKind::BadForm, place));
        }
        let first = self.scope.len();
        let test = self.form(alloc, functions, at.inner(), &parts[1])?;
        let terms = self.in_order(alloc, functions, at.inner(), parts, 2)?;
        let next = recur(alloc, place)?;
        self.gathered
            .rounds(alloc, first, Seq::new(alloc), test, terms, next)
    }

    /// `(dotimes [i n] e ..)`.
    #[cycle(walk)]
    pub fn dotimes_form(
        &mut self,
        alloc: Global,
        functions: &Functions,
        at: At,
        place: Place,
        parts: &[Form],
    ) -> Result<Made, CheckError>
        requires { 0 < length parts.now }
        ensures ok { IfOk result (λ t. row_dotimes place (form_parts (drop 1 parts.now)) (env self.old.scope functions.now at) (gathered self.old.gathered) ≡ done (kernel t) (gathered self.new.gathered)) }
        ensures err { IfErr result (λ e. Fails e (row_dotimes place (form_parts (drop 1 parts.now)) (env self.old.scope functions.now at) (gathered self.old.gathered))) }
        ensures scope { OnOk result (self.new.scope ≡ self.old.scope) }
    {
        if parts.len() < 2 {
            return Err(CheckError::Fault(CheckErrorKind::BadForm, place));
        }
        if is_bound_shape(false, parts) {
            self.dotimes_parts(alloc, functions, at, place, parts)
        } else {
            Err(CheckError::Fault(CheckErrorKind::BadForm, place))
        }
    }

    #[cycle(walk)]
    fn dotimes_parts(
        &mut self,
        alloc: Global,
        functions: &Functions,
        at: At,
        place: Place,
        parts: &[Form],
    ) -> Result<Made, CheckError>
        requires more { 1 < length parts.now }
        requires shape { bound_shape false (form_parts (drop 1 parts.now)) ≡ true }
        ensures ok { IfOk result (λ t. row_dotimes place (form_parts (drop 1 parts.now)) (env self.old.scope functions.now at) (gathered self.old.gathered) ≡ done (kernel t) (gathered self.new.gathered)) }
        ensures err { IfErr result (λ e. Fails e (row_dotimes place (form_parts (drop 1 parts.now)) (env self.old.scope functions.now at) (gathered self.old.gathered))) }
        ensures scope { OnOk result (self.new.scope ≡ self.old.scope) }
    {
        let first = self.scope.len();
        let bindings = &parts[1];
        let value = self.only_value(alloc, functions, at.inner(), bindings)?;
        let values = single(alloc, value)?;
        self.scope.hide(alloc)?;
        self.bind_name(alloc, binder_in(bindings))?;
        let terms = self.in_order(alloc, functions, at.inner(), parts, 2)?;
        self.scope.leave(first);
        let counted = self.gathered.count(alloc, first + 1, first, terms, place)?;
        self.gathered.under(alloc, first, values, counted)
    }

    /// `(doseq [b e] e ..)`.
    #[cycle(walk)]
    pub fn doseq_form(
        &mut self,
        alloc: Global,
        functions: &Functions,
        at: At,
        place: Place,
        parts: &[Form],
    ) -> Result<Made, CheckError>
        requires { 0 < length parts.now }
        ensures ok { IfOk result (λ t. row_doseq place (form_parts (drop 1 parts.now)) (env self.old.scope functions.now at) (gathered self.old.gathered) ≡ done (kernel t) (gathered self.new.gathered)) }
        ensures err { IfErr result (λ e. Fails e (row_doseq place (form_parts (drop 1 parts.now)) (env self.old.scope functions.now at) (gathered self.old.gathered))) }
        ensures scope { OnOk result (self.new.scope ≡ self.old.scope) }
    {
        if parts.len() < 2 {
            return Err(CheckError::Fault(CheckErrorKind::BadForm, place));
        }
        if is_only_shape(parts) {
            self.doseq_parts(alloc, functions, at, place, parts)
        } else {
            Err(CheckError::Fault(CheckErrorKind::BadForm, place))
        }
    }

    #[cycle(walk)]
    fn doseq_parts(
        &mut self,
        alloc: Global,
        functions: &Functions,
        at: At,
        place: Place,
        parts: &[Form],
    ) -> Result<Made, CheckError>
        requires more { 1 < length parts.now }
        requires shape { only_shape (form_parts (drop 1 parts.now)) ≡ true }
        ensures ok { IfOk result (λ t. row_doseq place (form_parts (drop 1 parts.now)) (env self.old.scope functions.now at) (gathered self.old.gathered) ≡ done (kernel t) (gathered self.new.gathered)) }
        ensures err { IfErr result (λ e. Fails e (row_doseq place (form_parts (drop 1 parts.now)) (env self.old.scope functions.now at) (gathered self.old.gathered))) }
        ensures scope { OnOk result (self.new.scope ≡ self.old.scope) }
    {
        let first = self.scope.next_number();
        let bindings = &parts[1];
        let value = self.only_value(alloc, functions, at.inner(), bindings)?;
        let operands = single(alloc, value)?;
        let items = self
            .gathered
            .apply(alloc, Head::Builtin(Builtin::Items), operands, place)?;
        let count = over(alloc, Head::Builtin(Builtin::Count), &[first], place)?;
        let values = pair(alloc, items, count)?;
        self.hide_three(alloc)?;
        let body = self.doseq_item(alloc, functions, at.inner(), place, first, parts, bindings)?;
        self.scope.leave(first);
        let terms = single(alloc, body)?;
        let counted = self
            .gathered
            .count(alloc, first + 2, first + 1, terms, place)?;
        self.gathered.under(alloc, first, values, counted)
    }

    // The hidden names of a vector, of its length, and of a place in it.
    fn hide_three(&mut self, alloc: Global) -> Result<(), CheckError>
        ensures ok { OnOk result (self.new.scope ≡ (self.old.scope ++ [] ∷ [] ∷ []) ++ [] ∷ []) }
        ensures err { IfErr result (λ e. e ≡ CheckError.OutOfMemory) }
        ensures gathered { gathered self.new.gathered ≡ gathered self.old.gathered }
    {
        self.scope.hide(alloc)?;
        self.scope.hide(alloc)?;
        self.scope.hide(alloc)?;
        Ok(())
    }

    // A `let` of the item of the vector whose name has the number `vector`, at the place whose name is two behind.
    #[cycle(walk)]
    fn doseq_item(
        &mut self,
        alloc: Global,
        functions: &Functions,
        at: At,
        place: Place,
        vector: u64,
        parts: &[Form],
        bindings: &Form,
    ) -> Result<Made, CheckError>
        requires more { 1 < length parts.now }
        requires number { vector + 2 < 2 ^ 64 }
        ensures ok { IfOk result (λ t. item_of (total_binder (first_in (form_tree bindings.now))) vector (vector + 2) (block (meanings (form_parts (drop 2 parts.now)))) place (env self.old.scope functions.now at) (gathered self.old.gathered) ≡ done (kernel t) (gathered self.new.gathered)) }
        ensures err { IfErr result (λ e. Fails e (item_of (total_binder (first_in (form_tree bindings.now))) vector (vector + 2) (block (meanings (form_parts (drop 2 parts.now)))) place (env self.old.scope functions.now at) (gathered self.old.gathered))) }
        ensures scope { OnOk result (self.new.scope ≡ self.old.scope) }
    {
        let binder = binder_in(bindings);
        if is_over_long(binder) {
            return Err(CheckError::Fault(CheckErrorKind::TooMany, binder.place));
        }
        let size = self.scope.len();
        let term = over(
            alloc,
            Head::Builtin(Builtin::Nth),
            &[vector, vector + 2],
            place,
        )?;
        let values = self.bind_value(alloc, place, binder, Seq::new(alloc), term)?;
        let body = self.block(alloc, functions, at, parts, 2)?;
        self.scope.leave(size);
        self.gathered.bind(alloc, size, values, body)
    }
}
