ghost use Rattle.std.specs.Prelude.{◌≡◌, ◌≤◌, ◌<◌, ◌+◌, ◌∷◌, ◌++◌};
ghost use Rattle.ca_check.specs.Words.{false, IfOk, IfErr, OnOk, [], length, drop, list, kernel, form_tree, form_trees, done, CheckError, let_parts, over_long, binder_names, binder_parts, bound_names, total_name, total_names, total_binder, total_bounds, part_terms, binds, numbered, spread, row_let, within, gathered, env, form_parts, form_pairs, terms_of, Fails};

use crate::walk::Walker;
use ca_forms::context::At;
use ca_forms::error::{CheckError, CheckErrorKind};
use ca_forms::functions::Functions;
use ca_forms::gathered::{Made, part_of};
use ca_forms::shapes::{bounds_error, is_over_long};
use ca_reader::form::{Form, Shape};
use ca_term::place::Place;
use ca_value::seq::{Seq, Text};
use std::alloc::Global;

impl Walker {
    /// `(let [x e ..] a ..)`: each value in scope of the names before it.
    #[cycle(walk)]
    pub fn let_form(
        &mut self,
        alloc: Global,
        functions: &Functions,
        at: At,
        place: Place,
        parts: &[Form],
    ) -> Result<Made, CheckError>
        requires { 0 < length parts.now }
        ensures ok { IfOk result (λ t. row_let place (form_parts (drop 1 parts.now)) (env self.old.scope functions.now at) (gathered self.old.gathered) ≡ done (kernel t) (gathered self.new.gathered)) }
        ensures err { IfErr result (λ e. Fails e (row_let place (form_parts (drop 1 parts.now)) (env self.old.scope functions.now at) (gathered self.old.gathered))) }
        ensures scope { OnOk result (self.new.scope ≡ self.old.scope) }
    {
        if parts.len() < 2 {
            return Err(CheckError::Fault(CheckErrorKind::BadForm, place));
        }
        match bounds_error(&parts[1]) {
            Some(kind) => Err(CheckError::Fault(kind, place)),
            None => self.let_parts(alloc, functions, at, place, parts),
        }
    }

    #[cycle(walk)]
    fn let_parts(
        &mut self,
        alloc: Global,
        functions: &Functions,
        at: At,
        place: Place,
        parts: &[Form],
    ) -> Result<Made, CheckError>
        requires { 1 < length parts.now }
        ensures ok { IfOk result (λ t. let_parts place (form_parts (drop 1 parts.now)) (env self.old.scope functions.now at) (gathered self.old.gathered) ≡ done (kernel t) (gathered self.new.gathered)) }
        ensures err { IfErr result (λ e. Fails e (let_parts place (form_parts (drop 1 parts.now)) (env self.old.scope functions.now at) (gathered self.old.gathered))) }
        ensures scope { OnOk result (self.new.scope ≡ self.old.scope) }
    {
        let first = self.scope.len();
        let values = self.bound_parts(alloc, functions, at, place, &parts[1])?;
        let body = self.block(alloc, functions, at, parts, 2)?;
        self.scope.leave(first);
        self.gathered.bind(alloc, first, values, body)
    }

    /// The values that the bindings in a form give.
    #[cycle(walk)]
    pub fn bound_parts(
        &mut self,
        alloc: Global,
        functions: &Functions,
        at: At,
        place: Place,
        bindings: &Form,
    ) -> Result<Seq<Made>, CheckError>
        ensures ok { IfOk result (λ t. binds (spread place (length self.old.scope) (total_bounds (within (form_tree bindings.now)))) (env self.old.scope functions.now at) (gathered self.old.gathered) ≡ done (numbered (length self.old.scope) (terms_of (list t))) (gathered self.new.gathered)) }
        ensures err { IfErr result (λ e. Fails e (binds (spread place (length self.old.scope) (total_bounds (within (form_tree bindings.now)))) (env self.old.scope functions.now at) (gathered self.old.gathered))) }
        ensures names { OnOk result (self.new.scope ≡ self.old.scope ++ bound_names (spread place (length self.old.scope) (total_bounds (within (form_tree bindings.now))))) }
        ensures longer { IfOk result (λ t. length self.new.scope ≡ length self.old.scope + length (list t)) }
    {
        match &bindings.shape {
            Shape::Vector(items) => self.bound_values(
                alloc,
                functions,
                at,
                place,
                items.as_slice(),
            ),
            Shape::List(items) => self.bound_values(alloc, functions, at, place, items.as_slice()),
            Shape::Map(items) => self.bound_values(alloc, functions, at, place, items.as_slice()),
            Shape::Nil | Shape::Bool(_) | Shape::Int(_) => Ok(Seq::new(alloc)),
            Shape::Text(_) | Shape::Key(_) | Shape::Symbol(_) => Ok(Seq::new(alloc)),
        }
    }

    // The values that bindings give in order, each in scope of those behind it.
    #[cycle(walk)]
    fn bound_values(
        &mut self,
        alloc: Global,
        functions: &Functions,
        at: At,
        place: Place,
        items: &[Form],
    ) -> Result<Seq<Made>, CheckError>
        ensures ok { IfOk result (λ t. binds (spread place (length self.old.scope) (total_bounds (form_pairs items.now))) (env self.old.scope functions.now at) (gathered self.old.gathered) ≡ done (numbered (length self.old.scope) (terms_of (list t))) (gathered self.new.gathered)) }
        ensures err { IfErr result (λ e. Fails e (binds (spread place (length self.old.scope) (total_bounds (form_pairs items.now))) (env self.old.scope functions.now at) (gathered self.old.gathered))) }
        ensures names { OnOk result (self.new.scope ≡ self.old.scope ++ bound_names (spread place (length self.old.scope) (total_bounds (form_pairs items.now)))) }
        ensures longer { IfOk result (λ t. length self.new.scope ≡ length self.old.scope + length (list t)) }
    {
        let mut values = Seq::new(alloc);
        let count = items.len() / 2;
        for i in 0..count {
            let binder = &items[2 * i];
            let value = &items[2 * i + 1];
            if is_over_long(binder) {
                return Err(CheckError::Fault(CheckErrorKind::TooMany, binder.place));
            }
            let term = self.form(alloc, functions, at.inner(), value)?;
            values = self.bind_value(alloc, place, binder, values, term)?;
        }
        Ok(values)
    }

    /// Binds what the form binds to the term.
    pub fn bind_value(
        &mut self,
        alloc: Global,
        place: Place,
        binder: &Form,
        mut values: Seq<Made>,
        term: Made,
    ) -> Result<Seq<Made>, CheckError>
        requires { over_long (total_binder (form_tree binder.now)) ≡ false }
        ensures ok { IfOk result (λ t. terms_of (list t) ≡ terms_of (list values) ++ kernel term ∷ binder_parts place (length self.old.scope) (total_binder (form_tree binder.now))) }
        ensures err { IfErr result (λ e. e ≡ CheckError.OutOfMemory) }
        ensures names { OnOk result (self.new.scope ≡ self.old.scope ++ binder_names (total_binder (form_tree binder.now))) }
        ensures gathered { gathered self.new.gathered ≡ gathered self.old.gathered }
    {
        values.reserve(1)?;
        values.push(term);
        self.bind_parts(alloc, place, binder, values)
    }

    // Binds the name that the form is, or the names of a pattern, behind the value.
    fn bind_parts(
        &mut self,
        alloc: Global,
        place: Place,
        binder: &Form,
        values: Seq<Made>,
    ) -> Result<Seq<Made>, CheckError>
        requires { over_long (total_binder (form_tree binder.now)) ≡ false }
        ensures ok { IfOk result (λ t. terms_of (list t) ≡ terms_of (list values) ++ binder_parts place (length self.old.scope) (total_binder (form_tree binder.now))) }
        ensures err { IfErr result (λ e. e ≡ CheckError.OutOfMemory) }
        ensures names { OnOk result (self.new.scope ≡ self.old.scope ++ binder_names (total_binder (form_tree binder.now))) }
        ensures gathered { gathered self.new.gathered ≡ gathered self.old.gathered }
    {
        match &binder.shape {
            Shape::Vector(names) => {
                let whole = self.scope.len();
                self.scope.hide(alloc)?;
                self.unpack(alloc, place, whole, names.as_slice(), values)
            }
            Shape::Nil | Shape::Bool(_) | Shape::Int(_) => self.bind_simple(alloc, binder, values),
            Shape::Text(_) | Shape::Key(_) | Shape::Symbol(_) => self.bind_simple(
                alloc, binder, values,
            ),
            Shape::List(_) | Shape::Map(_) => self.bind_simple(alloc, binder, values),
        }
    }

    fn bind_simple(
        &mut self,
        alloc: Global,
        binder: &Form,
        values: Seq<Made>,
    ) -> Result<Seq<Made>, CheckError>
        ensures ok { IfOk result (λ t. list t ≡ list values) }
        ensures err { IfErr result (λ e. e ≡ CheckError.OutOfMemory) }
        ensures names { OnOk result (self.new.scope ≡ self.old.scope ++ total_name (form_tree binder.now) ∷ []) }
        ensures gathered { gathered self.new.gathered ≡ gathered self.old.gathered }
    {
        self.bind_name(alloc, binder)?;
        Ok(values)
    }

    /// Binds the names of a pattern whose value is the name of number `whole`.
    pub fn unpack(
        &mut self,
        alloc: Global,
        place: Place,
        whole: u64,
        names: &[Form],
        mut values: Seq<Made>,
    ) -> Result<Seq<Made>, CheckError>
        requires { length names.now ≤ 4096 }
        ensures ok { IfOk result (λ t. terms_of (list t) ≡ terms_of (list values) ++ part_terms place whole 0 (length names.now)) }
        ensures err { IfErr result (λ e. e ≡ CheckError.OutOfMemory) }
        ensures names { OnOk result (self.new.scope ≡ self.old.scope ++ total_names (form_trees names.now)) }
        ensures longer { IfOk result (λ t. length (list t) ≡ length (list values) + length names.now) }
        ensures gathered { gathered self.new.gathered ≡ gathered self.old.gathered }
    {
        for i in 0..names.len() {
            values.reserve(1)?;
            values.push(part_of(alloc, whole, i as u64, place)?);
            self.bind_name(alloc, &names[i])?;
        }
        Ok(values)
    }

    /// Binds the name that the form is, a hidden one for another form.
    pub fn bind_name(&mut self, alloc: Global, name: &Form) -> Result<(), CheckError>
        ensures ok { OnOk result (self.new.scope ≡ self.old.scope ++ total_name (form_tree name.now) ∷ []) }
        ensures err { IfErr result (λ e. e ≡ CheckError.OutOfMemory) }
        ensures gathered { gathered self.new.gathered ≡ gathered self.old.gathered }
    {
        match &name.shape {
            Shape::Symbol(name) => self.scope.bind(alloc, name.as_slice())?,
            Shape::Nil | Shape::Bool(_) | Shape::Int(_) => self.scope.hide(alloc)?,
            Shape::Text(_) | Shape::Key(_) => self.scope.hide(alloc)?,
            Shape::List(_) | Shape::Vector(_) | Shape::Map(_) => self.scope.hide(alloc)?,
        }
        Ok(())
    }
}
