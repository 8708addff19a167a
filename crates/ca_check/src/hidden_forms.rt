ghost use Rattle.std.specs.Prelude.{◌≡◌, ◌≤◌, ◌<◌};
ghost use Rattle.ca_check.specs.Words.{true, IfOk, IfErr, OnOk, length, drop, take, kernel, changing, row_pub, stopping, given_view, done, meanings, hidden_row, merge_row, pub_over, pipeline_row, pipeline_by, gathered, env, form_parts, Fails};

use crate::walk::Walker;
use ca_forms::context::At;
use ca_forms::error::{CheckError, CheckErrorKind};
use ca_forms::fixed::with_last;
use ca_forms::functions::Functions;
use ca_forms::gathered::Made;
use ca_forms::given::{Applied, given};
use ca_forms::hidden::{and_true, changing, hiding, merging, pipelining, publishing};
use ca_forms::operands::{joined_terms, single};
use ca_forms::planned::{HiddenForm, function_in};
use ca_reader::form::Form;
use ca_term::head::{Head, RegisterName, Transform};
use ca_term::place::Place;
use ca_value::builtin::Builtin;
use ca_value::seq::Seq;
use std::alloc::Global;

impl Walker {
    /// All parts under hidden names, and `true` for an option that isn't written.
    #[cycle(walk)]
    pub fn hidden_form(
        &mut self,
        alloc: Global,
        functions: &Functions,
        at: At,
        form: HiddenForm,
        unwritten: bool,
        place: Place,
        parts: &[Form],
    ) -> Result<Made, CheckError>
        requires { 0 < length parts.now }
        ensures ok { IfOk result (λ t. hidden_row form unwritten place (form_parts (drop 1 parts.now)) (env self.old.scope functions.now at) (gathered self.old.gathered) ≡ done (kernel t) (gathered self.new.gathered)) }
        ensures err { IfErr result (λ e. Fails e (hidden_row form unwritten place (form_parts (drop 1 parts.now)) (env self.old.scope functions.now at) (gathered self.old.gathered))) }
        ensures scope { OnOk result (self.new.scope ≡ self.old.scope) }
    {
        let first = self.scope.next_number();
        let operands = self.hidden(alloc, functions, at, parts, 1, parts.len())?;
        self.scope.leave(first);
        let operands = and_true(unwritten, operands)?;
        hiding(alloc, &mut self.gathered, form, first, operands, place)
    }

    /// A change of a mix, which the mix then hears of.
    #[cycle(walk)]
    pub fn changing_form(
        &mut self,
        alloc: Global,
        functions: &Functions,
        at: At,
        name: RegisterName,
        place: Place,
        parts: &[Form],
    ) -> Result<Made, CheckError>
        requires { 0 < length parts.now }
        ensures ok { IfOk result (λ t. changing name (meanings (form_parts (drop 1 parts.now))) place (env self.old.scope functions.now at) (gathered self.old.gathered) ≡ done (kernel t) (gathered self.new.gathered)) }
        ensures err { IfErr result (λ e. Fails e (changing name (meanings (form_parts (drop 1 parts.now))) place (env self.old.scope functions.now at) (gathered self.old.gathered))) }
        ensures scope { OnOk result (self.new.scope ≡ self.old.scope) }
    {
        let first = self.scope.next_number();
        let head = Head::Register(name);
        let entry = self.operation(alloc, functions, at.inner(), head, parts, 1, place)?;
        changing(alloc, &mut self.gathered, first, entry, place)
    }

    /// A merge into a new channel.
    #[cycle(walk)]
    pub fn merge_form(
        &mut self,
        alloc: Global,
        functions: &Functions,
        at: At,
        place: Place,
        parts: &[Form],
    ) -> Result<Made, CheckError>
        requires { 0 < length parts.now }
        ensures ok { IfOk result (λ t. merge_row place (form_parts (drop 1 parts.now)) (env self.old.scope functions.now at) (gathered self.old.gathered) ≡ done (kernel t) (gathered self.new.gathered)) }
        ensures err { IfErr result (λ e. Fails e (merge_row place (form_parts (drop 1 parts.now)) (env self.old.scope functions.now at) (gathered self.old.gathered))) }
        ensures scope { OnOk result (self.new.scope ≡ self.old.scope) }
    {
        if parts.len() < 2 {
            return Err(CheckError::Fault(CheckErrorKind::BadForm, place));
        }
        let first = self.scope.next_number();
        let operands = self.hidden(alloc, functions, at, parts, 1, 2)?;
        let port = self.chan_form(alloc, functions, at.inner(), place, parts, 2)?;
        self.scope.leave(first);
        let operands = with_last(operands, port)?;
        merging(alloc, &mut self.gathered, first, operands, place)
    }

    /// A publication by the function that is given.
    #[cycle(walk)]
    pub fn pub_form(
        &mut self,
        alloc: Global,
        functions: &Functions,
        at: At,
        place: Place,
        parts: &[Form],
    ) -> Result<Made, CheckError>
        requires { 0 < length parts.now }
        ensures ok { IfOk result (λ t. row_pub place (form_parts (drop 1 parts.now)) (env self.old.scope functions.now at) (gathered self.old.gathered) ≡ done (kernel t) (gathered self.new.gathered)) }
        ensures err { IfErr result (λ e. Fails e (row_pub place (form_parts (drop 1 parts.now)) (env self.old.scope functions.now at) (gathered self.old.gathered))) }
        ensures scope { OnOk result (self.new.scope ≡ self.old.scope) }
    {
        if parts.len() != 3 {
            return Err(CheckError::Fault(CheckErrorKind::BadForm, place));
        }
        match given(alloc, functions, &self.scope, &parts[2]) {
            Ok(given) => self.published(alloc, functions, at, given, place, parts),
            Err(error) => match error {
                CheckError::Fault(kind, wrong) => self.wrong_behind_one(
                    alloc, functions, at, kind, wrong, parts,
                ),
                CheckError::OutOfMemory => Err(CheckError::OutOfMemory),
            },
        }
    }

    #[cycle(walk)]
    fn published(
        &mut self,
        alloc: Global,
        functions: &Functions,
        at: At,
        given: Applied,
        place: Place,
        parts: &[Form],
    ) -> Result<Made, CheckError>
        requires { 2 < length parts.now }
        ensures ok { IfOk result (λ t. pub_over (given_view given) place (form_parts (drop 1 parts.now)) (env self.old.scope functions.now at) (gathered self.old.gathered) ≡ done (kernel t) (gathered self.new.gathered)) }
        ensures err { IfErr result (λ e. Fails e (pub_over (given_view given) place (form_parts (drop 1 parts.now)) (env self.old.scope functions.now at) (gathered self.old.gathered))) }
        ensures scope { OnOk result (self.new.scope ≡ self.old.scope) }
    {
        let first = self.scope.next_number();
        let operands = self.hidden(alloc, functions, at, parts, 1, 2)?;
        self.scope.leave(first);
        publishing(alloc, &mut self.gathered, first, given, operands, place)
    }

    // What is wrong with the function, where the first part is right.
    #[cycle(walk)]
    fn wrong_behind_one(
        &mut self,
        alloc: Global,
        functions: &Functions,
        at: At,
        kind: CheckErrorKind,
        wrong: Place,
        parts: &[Form],
    ) -> Result<Made, CheckError>
        requires { 1 < length parts.now }
        ensures ok { IfOk result (λ t. stopping (meanings (form_parts (drop 1 (take 2 parts.now)))) kind wrong (env self.old.scope functions.now at) (gathered self.old.gathered) ≡ done (kernel t) (gathered self.new.gathered)) }
        ensures err { IfErr result (λ e. Fails e (stopping (meanings (form_parts (drop 1 (take 2 parts.now)))) kind wrong (env self.old.scope functions.now at) (gathered self.old.gathered))) }
        ensures scope { OnOk result (self.new.scope ≡ self.old.scope) }
    {
        let _before = self.one_more(alloc, functions, at, Seq::new(alloc), &parts[1])?;
        Err(CheckError::Fault(kind, wrong))
    }

    /// A pipeline by the function that is given.
    #[cycle(walk)]
    pub fn pipeline_form(
        &mut self,
        alloc: Global,
        functions: &Functions,
        at: At,
        transform: Transform,
        place: Place,
        parts: &[Form],
    ) -> Result<Made, CheckError>
        requires { 0 < length parts.now }
        ensures ok { IfOk result (λ t. pipeline_row transform place (form_parts (drop 1 parts.now)) (env self.old.scope functions.now at) (gathered self.old.gathered) ≡ done (kernel t) (gathered self.new.gathered)) }
        ensures err { IfErr result (λ e. Fails e (pipeline_row transform place (form_parts (drop 1 parts.now)) (env self.old.scope functions.now at) (gathered self.old.gathered))) }
        ensures scope { OnOk result (self.new.scope ≡ self.old.scope) }
    {
        if parts.len() < 5 {
            return Err(CheckError::Fault(CheckErrorKind::BadForm, place));
        }
        if 6 < parts.len() {
            return Err(CheckError::Fault(CheckErrorKind::BadForm, place));
        }
        match function_in(&parts[3]) {
            Some(function) => match given(alloc, functions, &self.scope, function) {
                Ok(given) => self.piped(alloc, functions, at, transform, given, place, parts),
                Err(error) => match error {
                    CheckError::Fault(kind, wrong) => self.wrong_behind_two(
                        alloc, functions, at, kind, wrong, parts,
                    ),
                    CheckError::OutOfMemory => Err(CheckError::OutOfMemory),
                },
            },
            None => Err(CheckError::Fault(CheckErrorKind::BadForm, place)),
        }
    }

    #[cycle(walk)]
    fn piped(
        &mut self,
        alloc: Global,
        functions: &Functions,
        at: At,
        transform: Transform,
        given: Applied,
        place: Place,
        parts: &[Form],
    ) -> Result<Made, CheckError>
        requires least { 5 ≤ length parts.now }
        requires most { length parts.now ≤ 6 }
        ensures ok { IfOk result (λ t. pipeline_by transform (given_view given) place place (form_parts (drop 1 parts.now)) (env self.old.scope functions.now at) (gathered self.old.gathered) ≡ done (kernel t) (gathered self.new.gathered)) }
        ensures err { IfErr result (λ e. Fails e (pipeline_by transform (given_view given) place place (form_parts (drop 1 parts.now)) (env self.old.scope functions.now at) (gathered self.old.gathered))) }
        ensures scope { OnOk result (self.new.scope ≡ self.old.scope) }
    {
        let first = self.scope.next_number();
        let count = self.one_more(alloc, functions, at, Seq::new(alloc), &parts[1])?;
        let head = Head::Builtin(Builtin::WorkerCount);
        let workers = single(alloc, self.gathered.apply(alloc, head, count, place)?)?;
        self.scope.hide(alloc)?;
        let target = self.hidden(alloc, functions, at, parts, 2, 3)?;
        let source = self.hidden(alloc, functions, at, parts, 4, parts.len())?;
        self.scope.leave(first);
        let ports = joined_terms(target, source)?;
        let operands = joined_terms(workers, ports)?;
        let operands = and_true(parts.len() == 5, operands)?;
        pipelining(
            alloc,
            &mut self.gathered,
            first,
            transform,
            given,
            operands,
            place,
        )
    }
    // What is wrong with the function, where the first two parts are right.
    #[cycle(walk)]
    fn wrong_behind_two(
        &mut self,
        alloc: Global,
        functions: &Functions,
        at: At,
        kind: CheckErrorKind,
        wrong: Place,
        parts: &[Form],
    ) -> Result<Made, CheckError>
        requires { 2 < length parts.now }
        ensures ok { IfOk result (λ t. stopping (meanings (form_parts (drop 1 (take 3 parts.now)))) kind wrong (env self.old.scope functions.now at) (gathered self.old.gathered) ≡ done (kernel t) (gathered self.new.gathered)) }
        ensures err { IfErr result (λ e. Fails e (stopping (meanings (form_parts (drop 1 (take 3 parts.now)))) kind wrong (env self.old.scope functions.now at) (gathered self.old.gathered))) }
        ensures scope { OnOk result (self.new.scope ≡ self.old.scope) }
    {
        let before = self.one_more(alloc, functions, at, Seq::new(alloc), &parts[1])?;
        let _before = self.one_more(alloc, functions, at, before, &parts[2])?;
        Err(CheckError::Fault(kind, wrong))
    }
}
