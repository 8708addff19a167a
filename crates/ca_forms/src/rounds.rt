ghost use Rattle.std.specs.Prelude.{◌≡◌, ◌≤◌, ◌<◌, ◌+◌, ◌^◌, IfOk, IfErr, [], ◌∷◌, length};
ghost use Rattle.ca_value.specs.Seq.{list};
ghost use Rattle.ca_term.specs.View.{kernel, kernels};
ghost use Rattle.ca_forms.specs.declared.error.CheckError.{CheckError};
ghost use Rattle.ca_forms.specs.Outcome.{done};
ghost use Rattle.ca_forms.specs.Rounds.{turn_of, rounds, recur_term, next_term, counted_rounds, under};
ghost use Rattle.ca_forms.specs.WalkView.{gathered, terms_of};

use crate::error::CheckError;
use crate::fixed::{apply, nothing, over, whole, with_last};
use crate::gathered::{Bodies, Made};
use crate::operands::single;
use ca_term::head::Head;
use ca_term::place::Place;
use ca_value::builtin::Builtin;
use ca_value::seq::Seq;
use std::alloc::Global;

/// `(recur)`.
pub fn recur(alloc: Global, place: Place) -> Result<Made, CheckError>
    ensures ok { IfOk result (λ t. kernel t ≡ recur_term [] place) }
    ensures err { IfErr result (λ e. e ≡ CheckError.OutOfMemory) }
{
    apply(alloc, Head::Recur, Seq::new(alloc), place)
}

/// `(recur (inc i))`, i being the name of that number.
pub fn recur_with_next(alloc: Global, number: u64, place: Place) -> Result<Made, CheckError>
    ensures ok { IfOk result (λ t. kernel t ≡ recur_term (next_term number place ∷ []) place) }
    ensures err { IfErr result (λ e. e ≡ CheckError.OutOfMemory) }
{
    let next = over(alloc, Head::Builtin(Builtin::Inc), &[number], place)?;
    let operands = single(alloc, next)?;
    apply(alloc, Head::Recur, operands, place)
}

impl Bodies {
    // What is done while the test holds: the terms, and then a `recur`.
    #[tactic(auto, using(crate::proofs::RoundLaws::kernels_last))]
    fn turn(
        &mut self,
        alloc: Global,
        test: Made,
        terms: Seq<Made>,
        next: Made,
    ) -> Result<Made, CheckError>
        ensures ok { IfOk result (λ t. turn_of (kernel test) (kernels (list terms)) (kernel next) (gathered self.old) ≡ done (kernel t) (gathered self.new)) }
        ensures err { IfErr result (λ e. e ≡ CheckError.OutOfMemory) }
    {
        let terms = with_last(terms, next)?;
        let body = self.seq(alloc, terms)?;
        let choice = self.branch(alloc, test, body, nothing())?;
        self.alone(alloc, choice)
    }

    /// The loop over these values, from number `first` on, that goes round while the test holds.
    pub fn rounds(
        &mut self,
        alloc: Global,
        first: u64,
        values: Seq<Made>,
        test: Made,
        terms: Seq<Made>,
        next: Made,
    ) -> Result<Made, CheckError>
        requires { first + length (list values) < 2 ^ 64 }
        ensures ok { IfOk result (λ t. rounds first (terms_of (list values)) (kernel test) (kernels (list terms)) (kernel next) (gathered self.old) ≡ done (kernel t) (gathered self.new)) }
        ensures err { IfErr result (λ e. e ≡ CheckError.OutOfMemory) }
    {
        let body = self.turn(alloc, test, terms, next)?;
        self.repeat(alloc, first, values, body)
    }

    /// The loop that counts from 0 up to the value of the name `limit`, by the name `number`.
    pub fn count(
        &mut self,
        alloc: Global,
        number: u64,
        limit: u64,
        terms: Seq<Made>,
        place: Place,
    ) -> Result<Made, CheckError>
        requires { number + 1 < 2 ^ 64 }
        ensures ok { IfOk result (λ t. counted_rounds number limit (kernels (list terms)) place (gathered self.old) ≡ done (kernel t) (gathered self.new)) }
        ensures err { IfErr result (λ e. e ≡ CheckError.OutOfMemory) }
    {
        let zero = single(alloc, whole(0))?;
        let test = over(alloc, Head::Builtin(Builtin::Less), &[number, limit], place)?;
        let next = recur_with_next(alloc, number, place)?;
        self.rounds(alloc, number, zero, test, terms, next)
    }

    /// The Let of these values, under hidden names from number `first` on, round a body of one form.
    pub fn under(
        &mut self,
        alloc: Global,
        first: u64,
        values: Seq<Made>,
        body: Made,
    ) -> Result<Made, CheckError>
        requires { first + length (list values) < 2 ^ 64 }
        ensures ok { IfOk result (λ t. under first (terms_of (list values)) (kernel body) (gathered self.old) ≡ done (kernel t) (gathered self.new)) }
        ensures err { IfErr result (λ e. e ≡ CheckError.OutOfMemory) }
    {
        let body = self.alone(alloc, body)?;
        self.bind(alloc, first, values, body)
    }
}
