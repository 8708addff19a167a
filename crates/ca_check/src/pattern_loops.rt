ghost use Rattle.std.specs.Prelude.{◌≡◌, ◌≤◌, ◌<◌, ◌+◌, ◌++◌};
ghost use Rattle.ca_check.specs.Words.{suc, IfOk, IfErr, OnOk, length, drop, get_or, true, Form, list_any, list, kernel, form_tree, form_trees, CheckError, widths, again_terms, whole_names, binders_of, again_row, is_pattern, width, patterns, total_binder, total_bounds, block, lets, done, meanings, binders, loop_parts, pattern_names, pattern_parts, AreCounted, within, gathered, env, form_parts, form_pairs, terms_of, Fails};

use crate::walk::Walker;
use ca_forms::context::At;
use ca_forms::error::CheckError;
use ca_forms::functions::Functions;
use ca_forms::gathered::Made;
use ca_forms::operands::single;
use ca_forms::shapes::pattern_items;
use ca_reader::form::{Form, Shape};
use ca_term::place::Place;
use ca_value::seq::Seq;
use std::alloc::Global;

// The forms in the brackets of a form.
fn items_in(form: &Form) -> &[Form]
    ensures { form_pairs result.now ≡ within (form_tree form.now) }
{
    match &form.shape {
        Shape::List(items) => items.as_slice(),
        Shape::Vector(items) => items.as_slice(),
        Shape::Map(items) => items.as_slice(),
        Shape::Nil | Shape::Bool(_) | Shape::Int(_) => &[],
        Shape::Text(_) | Shape::Key(_) | Shape::Symbol(_) => &[],
    }
}

// How many names a binder binds besides the first.
fn further_names(binder: &Form) -> usize
    ensures { suc result ≡ width (total_binder (form_tree binder.now)) }
{
    match &binder.shape {
        Shape::Vector(names) => names.as_slice().len(),
        Shape::Nil | Shape::Bool(_) | Shape::Int(_) | Shape::Text(_) | Shape::Key(_) => 0,
        Shape::Symbol(_) | Shape::List(_) | Shape::Map(_) => 0,
    }
}

impl Walker {
    // Binds the whole values of bindings once more, whose first name has the number `first`: a hidden name stands
    // for each pattern.
    fn bind_again(
        &mut self,
        alloc: Global,
        first: u64,
        items: &[Form],
    ) -> Result<Seq<Made>, CheckError>
        requires { first + widths (binders_of items.now) ≤ length self.old.scope }
        ensures ok { IfOk result (λ t. terms_of (list t) ≡ again_terms first (binders_of items.now)) }
        ensures err { IfErr result (λ e. e ≡ CheckError.OutOfMemory) }
        ensures names { OnOk result (self.new.scope ≡ self.old.scope ++ whole_names (binders_of items.now)) }
        ensures longer { IfOk result (λ t. length self.new.scope ≡ length self.old.scope + length (list t)) }
        ensures gathered { gathered self.new.gathered ≡ gathered self.old.gathered }
    {
        let _size = self.scope.len();
        let mut values = Seq::new(alloc);
        let mut number = first;
        for i in 0..items.len() / 2 {
            let binder = &items[2 * i];
            values.reserve(1)?;
            values.push(Made::local(number));
            self.bind_name(alloc, binder)?;
            number += 1 + further_names(binder) as u64;
        }
        Ok(values)
    }

    // The values that the names of the patterns have, `first` being the number of the first whole value.
    fn unpack_bindings(
        &mut self,
        alloc: Global,
        place: Place,
        first: u64,
        items: &[Form],
    ) -> Result<Seq<Made>, CheckError>
        requires room { first + length (binders_of items.now) ≤ length self.old.scope }
        requires patterns { AreCounted (binders_of items.now) }
        ensures ok { IfOk result (λ t. terms_of (list t) ≡ pattern_parts place first (binders_of items.now)) }
        ensures err { IfErr result (λ e. e ≡ CheckError.OutOfMemory) }
        ensures names { OnOk result (self.new.scope ≡ self.old.scope ++ pattern_names (binders_of items.now)) }
        ensures longer { IfOk result (λ t. length self.new.scope ≡ length self.old.scope + length (list t)) }
        ensures gathered { gathered self.new.gathered ≡ gathered self.old.gathered }
    {
        let _size = self.scope.len();
        let mut values = Seq::new(alloc);
        for i in 0..items.len() / 2 {
            let whole = first + i as u64;
            values = self.unpack(alloc, place, whole, pattern_items(&items[2 * i]), values)?;
        }
        Ok(values)
    }

    /// A loop with patterns among its bindings: a `let` of all of them, the loop over their whole values, and in
    /// it a `let` of the patterns.
    #[cycle(walk)]
    pub fn pattern_loop(
        &mut self,
        alloc: Global,
        functions: &Functions,
        at: At,
        place: Place,
        parts: &[Form],
    ) -> Result<Made, CheckError>
        requires more { 1 < length parts.now }
        requires some { (b : Form) → b ≡ get_or parts.now 1 b → list_any is_pattern (binders (total_bounds (within (form_tree b)))) ≡ true }
        ensures ok { IfOk result (λ t. loop_parts place (form_parts (drop 1 parts.now)) (env self.old.scope functions.now at) (gathered self.old.gathered) ≡ done (kernel t) (gathered self.new.gathered)) }
        ensures err { IfErr result (λ e. Fails e (loop_parts place (form_parts (drop 1 parts.now)) (env self.old.scope functions.now at) (gathered self.old.gathered))) }
        ensures scope { OnOk result (self.new.scope ≡ self.old.scope) }
    {
        let first = self.scope.len();
        let bindings = &parts[1];
        let values = self.bound_parts(alloc, functions, at, place, bindings)?;
        let items = items_in(bindings);
        let body = self.loop_again(alloc, functions, at, place, first, parts, items)?;
        self.scope.leave(first);
        self.gathered.under(alloc, first, values, body)
    }

    // The loop over the whole values, whose first name has the number `bound`.
    #[cycle(walk)]
    fn loop_again(
        &mut self,
        alloc: Global,
        functions: &Functions,
        at: At,
        place: Place,
        bound: u64,
        parts: &[Form],
        items: &[Form],
    ) -> Result<Made, CheckError>
        requires more { 1 < length parts.now }
        requires room { bound + widths (binders_of items.now) ≤ length self.old.scope }
        requires patterns { AreCounted (binders_of items.now) }
        ensures ok { IfOk result (λ t. again_row bound place (total_bounds (form_pairs items.now)) (block (meanings (form_parts (drop 2 parts.now)))) (env self.old.scope functions.now at) (gathered self.old.gathered) ≡ done (kernel t) (gathered self.new.gathered)) }
        ensures err { IfErr result (λ e. Fails e (again_row bound place (total_bounds (form_pairs items.now)) (block (meanings (form_parts (drop 2 parts.now)))) (env self.old.scope functions.now at) (gathered self.old.gathered))) }
        ensures scope { OnOk result (self.new.scope ≡ self.old.scope) }
    {
        let first = self.scope.len();
        let values = self.bind_again(alloc, bound, items)?;
        let inside = at.in_loop(values.len());
        let body = self.loop_patterns(alloc, functions, inside, place, first, parts, items)?;
        self.scope.leave(first);
        let body = self.gathered.seq(alloc, single(alloc, body)?)?;
        self.gathered.repeat(alloc, first, values, body)
    }

    // The body behind a `let` of the patterns, `whole` being the number of the first whole value.
    #[cycle(walk)]
    fn loop_patterns(
        &mut self,
        alloc: Global,
        functions: &Functions,
        at: At,
        place: Place,
        whole: u64,
        parts: &[Form],
        items: &[Form],
    ) -> Result<Made, CheckError>
        requires more { 1 < length parts.now }
        requires room { whole + length (binders_of items.now) ≤ length self.old.scope }
        requires patterns { AreCounted (binders_of items.now) }
        ensures ok { IfOk result (λ t. lets (patterns place whole (binders_of items.now)) (block (meanings (form_parts (drop 2 parts.now)))) (env self.old.scope functions.now at) (gathered self.old.gathered) ≡ done (kernel t) (gathered self.new.gathered)) }
        ensures err { IfErr result (λ e. Fails e (lets (patterns place whole (binders_of items.now)) (block (meanings (form_parts (drop 2 parts.now)))) (env self.old.scope functions.now at) (gathered self.old.gathered))) }
        ensures scope { OnOk result (self.new.scope ≡ self.old.scope) }
    {
        let size = self.scope.len();
        let values = self.unpack_bindings(alloc, place, whole, items)?;
        let body = self.block(alloc, functions, at, parts, 2)?;
        self.scope.leave(size);
        self.gathered.bind(alloc, size, values, body)
    }
}
