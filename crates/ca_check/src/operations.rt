ghost use Rattle.std.specs.Prelude.{◌≡◌, ◌≤◌, ◌<◌, ◌+◌, ◌∷◌, ◌++◌};
ghost use Rattle.ca_check.specs.Words.{true, IfOk, IfErr, OnOk, [], length, drop, List, list, Alts, kernel, form_tree, operands_in, row_chan, buffered_channel, inner, operation, done, after_walk, meanings, is_planned, planned_row, and_yes, walk, special_row, within, gathered, env, form_parts, form_pairs, terms_of, Fails};

use crate::walk::Walker;
use ca_forms::context::At;
use ca_forms::error::{CheckError, CheckErrorKind};
use ca_forms::fixed::{with_last, yes};
use ca_forms::functions::Functions;
use ca_forms::gathered::Made;
use ca_forms::options::{buffer_named, word_in};
use ca_forms::planned::{Planned, plan_of};
use ca_forms::special::Special;
use ca_reader::form::{Form, Shape};
use ca_term::head::{AltsOptions, Head, MakeKind};
use ca_term::place::Place;
use ca_value::seq::Seq;
use std::alloc::Global;

impl Walker {
    /// The form of a word whose row is planned.
    #[cycle(walk)]
    pub fn planned_form(
        &mut self,
        alloc: Global,
        functions: &Functions,
        at: At,
        special: Special,
        place: Place,
        parts: &[Form],
    ) -> Result<Made, CheckError>
        requires some { 0 < length parts.now }
        requires planned { is_planned special ≡ true }
        ensures ok { IfOk result (λ t. special_row special place (form_parts (drop 1 parts.now)) (env self.old.scope functions.now at) (gathered self.old.gathered) ≡ done (kernel t) (gathered self.new.gathered)) }
        ensures err { IfErr result (λ e. Fails e (special_row special place (form_parts (drop 1 parts.now)) (env self.old.scope functions.now at) (gathered self.old.gathered))) }
        ensures scope { OnOk result (self.new.scope ≡ self.old.scope) }
    {
        let plan = plan_of(special, at.context, parts);
        self.follow(alloc, functions, at, plan, place, parts)
    }

    // The form of that plan.
    #[cycle(walk)]
    fn follow(
        &mut self,
        alloc: Global,
        functions: &Functions,
        at: At,
        plan: Planned,
        place: Place,
        parts: &[Form],
    ) -> Result<Made, CheckError>
        requires { 0 < length parts.now }
        ensures ok { IfOk result (λ t. planned_row plan place (form_parts (drop 1 parts.now)) (env self.old.scope functions.now at) (gathered self.old.gathered) ≡ done (kernel t) (gathered self.new.gathered)) }
        ensures err { IfErr result (λ e. Fails e (planned_row plan place (form_parts (drop 1 parts.now)) (env self.old.scope functions.now at) (gathered self.old.gathered))) }
        ensures scope { OnOk result (self.new.scope ≡ self.old.scope) }
    {
        match plan {
            Planned::Wrong(kind) => Err(CheckError::Fault(kind, place)),
            Planned::Operands(head) => self.operation(alloc, functions, at, head, parts, 1, place),
            Planned::OperandsAndYes(head) => self.operation_and_yes(
                alloc, functions, at, head, place, parts,
            ),
            Planned::Alts(options) => self.alts_form(alloc, functions, at, options, place, parts),
            Planned::Chan => self.chan_form(alloc, functions, at, place, parts, 1),
            Planned::Hidden(form) => self.hidden_form(
                alloc, functions, at, form, false, place, parts,
            ),
            Planned::HiddenAndYes(form) => self.hidden_form(
                alloc, functions, at, form, true, place, parts,
            ),
            Planned::Changing(name) => self.changing_form(alloc, functions, at, name, place, parts),
            Planned::Pub => self.pub_form(alloc, functions, at, place, parts),
            Planned::Merge => self.merge_form(alloc, functions, at, place, parts),
            Planned::Pipeline(transform) => self.pipeline_form(
                alloc, functions, at, transform, place, parts,
            ),
        }
    }

    // One operation over all parts and `true`.
    #[cycle(walk)]
    fn operation_and_yes(
        &mut self,
        alloc: Global,
        functions: &Functions,
        at: At,
        head: Head,
        place: Place,
        parts: &[Form],
    ) -> Result<Made, CheckError>
        requires { 0 < length parts.now }
        ensures ok { IfOk result (λ t. operation head (and_yes true (meanings (form_parts (drop 1 parts.now)))) place (env self.old.scope functions.now at) (gathered self.old.gathered) ≡ done (kernel t) (gathered self.new.gathered)) }
        ensures err { IfErr result (λ e. Fails e (operation head (and_yes true (meanings (form_parts (drop 1 parts.now)))) place (env self.old.scope functions.now at) (gathered self.old.gathered))) }
        ensures scope { OnOk result (self.new.scope ≡ self.old.scope) }
    {
        let terms = self.in_order(alloc, functions, at.inner(), parts, 1)?;
        let terms = with_last(terms, yes())?;
        self.gathered.apply(alloc, head, terms, place)
    }

    /// The terms, and that of one more form outside tail position.
    #[cycle(walk)]
    pub fn one_more(
        &mut self,
        alloc: Global,
        functions: &Functions,
        at: At,
        terms: Seq<Made>,
        form: &Form,
    ) -> Result<Seq<Made>, CheckError>
        ensures ok { IfOk result (λ t. after_walk (walk (form_tree form.now) (inner (env self.old.scope functions.now at)) (gathered self.old.gathered)) (λ k s. done (terms_of (list terms) ++ k ∷ []) s) ≡ done (terms_of (list t)) (gathered self.new.gathered)) }
        ensures err { IfErr result (λ e. Fails e (walk (form_tree form.now) (inner (env self.old.scope functions.now at)) (gathered self.old.gathered))) }
        ensures scope { OnOk result (self.new.scope ≡ self.old.scope) }
    {
        let term = self.form(alloc, functions, at.inner(), form)?;
        with_last(terms, term)
    }

    // An alts: the ports, and what stands behind each option.
    #[cycle(walk)]
    fn alts_form(
        &mut self,
        alloc: Global,
        functions: &Functions,
        at: At,
        options: AltsOptions,
        place: Place,
        parts: &[Form],
    ) -> Result<Made, CheckError>
        requires { 0 < length parts.now }
        ensures ok { IfOk result (λ t. operation (Alts options) (operands_in (form_parts (drop 1 parts.now))) place (env self.old.scope functions.now at) (gathered self.old.gathered) ≡ done (kernel t) (gathered self.new.gathered)) }
        ensures err { IfErr result (λ e. Fails e (operation (Alts options) (operands_in (form_parts (drop 1 parts.now))) place (env self.old.scope functions.now at) (gathered self.old.gathered))) }
        ensures scope { OnOk result (self.new.scope ≡ self.old.scope) }
    {
        if 6 <= parts.len() {
            let terms = self.one_more(alloc, functions, at, Seq::new(alloc), &parts[1])?;
            let terms = self.one_more(alloc, functions, at, terms, &parts[3])?;
            let terms = self.one_more(alloc, functions, at, terms, &parts[5])?;
            self.gathered
                .apply(alloc, Head::Alts(options), terms, place)
        } else if 4 <= parts.len() {
            let terms = self.one_more(alloc, functions, at, Seq::new(alloc), &parts[1])?;
            let terms = self.one_more(alloc, functions, at, terms, &parts[3])?;
            self.gathered
                .apply(alloc, Head::Alts(options), terms, place)
        } else {
            self.operation(alloc, functions, at, Head::Alts(options), parts, 1, place)
        }
    }

    /// A new channel, what it is made of standing from a place on.
    #[cycle(walk)]
    pub fn chan_form(
        &mut self,
        alloc: Global,
        functions: &Functions,
        at: At,
        place: Place,
        parts: &[Form],
        from: usize,
    ) -> Result<Made, CheckError>
        requires { from ≤ length parts.now }
        ensures ok { IfOk result (λ t. row_chan place (form_parts (drop from parts.now)) (env self.old.scope functions.now at) (gathered self.old.gathered) ≡ done (kernel t) (gathered self.new.gathered)) }
        ensures err { IfErr result (λ e. Fails e (row_chan place (form_parts (drop from parts.now)) (env self.old.scope functions.now at) (gathered self.old.gathered))) }
        ensures scope { OnOk result (self.new.scope ≡ self.old.scope) }
    {
        let count = parts.len() - from;
        if count == 0 {
            return self.operation(
                alloc,
                functions,
                at,
                Head::Make(MakeKind::Unbuffered),
                parts,
                from,
                place,
            );
        }
        if 1 < count {
            return Err(CheckError::Fault(CheckErrorKind::BadForm, place));
        }
        match buffer_named(word_in(&parts[from])) {
            Some(kind) => self.buffered_form(alloc, functions, at, kind, place, &parts[from]),
            None => self.operation(
                alloc,
                functions,
                at,
                Head::Make(MakeKind::Sized),
                parts,
                from,
                place,
            ),
        }
    }

    // A channel with a buffer whose size stands in the form.
    #[cycle(walk)]
    fn buffered_form(
        &mut self,
        alloc: Global,
        functions: &Functions,
        at: At,
        kind: MakeKind,
        place: Place,
        buffer: &Form,
    ) -> Result<Made, CheckError>
        ensures ok { IfOk result (λ t. buffered_channel kind (within (form_tree buffer.now)) place (env self.old.scope functions.now at) (gathered self.old.gathered) ≡ done (kernel t) (gathered self.new.gathered)) }
        ensures err { IfErr result (λ e. Fails e (buffered_channel kind (within (form_tree buffer.now)) place (env self.old.scope functions.now at) (gathered self.old.gathered))) }
        ensures scope { OnOk result (self.new.scope ≡ self.old.scope) }
    {
        match &buffer.shape {
            Shape::List(items) => self.buffer_of(
                alloc,
                functions,
                at,
                kind,
                place,
                items.as_slice(),
            ),
            Shape::Vector(items) => self.buffer_of(
                alloc,
                functions,
                at,
                kind,
                place,
                items.as_slice(),
            ),
            Shape::Map(items) => self.buffer_of(
                alloc,
                functions,
                at,
                kind,
                place,
                items.as_slice(),
            ),
            Shape::Nil | Shape::Bool(_) | Shape::Int(_) => Err(CheckError::Fault(
                CheckErrorKind::BadForm,
                place,
            )),
            Shape::Text(_) | Shape::Key(_) | Shape::Symbol(_) => Err(CheckError::Fault(
                CheckErrorKind::BadForm,
                place,
            )),
        }
    }

    #[cycle(walk)]
    fn buffer_of(
        &mut self,
        alloc: Global,
        functions: &Functions,
        at: At,
        kind: MakeKind,
        place: Place,
        items: &[Form],
    ) -> Result<Made, CheckError>
        ensures ok { IfOk result (λ t. buffered_channel kind (form_pairs items.now) place (env self.old.scope functions.now at) (gathered self.old.gathered) ≡ done (kernel t) (gathered self.new.gathered)) }
        ensures err { IfErr result (λ e. Fails e (buffered_channel kind (form_pairs items.now) place (env self.old.scope functions.now at) (gathered self.old.gathered))) }
        ensures scope { OnOk result (self.new.scope ≡ self.old.scope) }
    {
        if items.len() == 2 {
            self.operation(alloc, functions, at, Head::Make(kind), items, 1, place)
        } else {
            Err(CheckError::Fault(CheckErrorKind::BadForm, place))
        }
    }
}
