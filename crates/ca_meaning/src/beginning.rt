//! Bodies as they begin: of the main text, of a go block, and of a call by itself.
ghost use Rattle.std.specs.Prelude.{◌≡◌, ◌<◌, IfOk, length, map};
ghost use Rattle.ca_value.specs.Seq.{list};
ghost use Rattle.ca_value.specs.View.{view, views};
ghost use Rattle.ca_term.specs.declared.head.Head.{Head as HeadKind};
ghost use Rattle.ca_term.specs.Kernel.{const, apply, none, item};
ghost use Rattle.ca_term.specs.Fits.{Takes};
ghost use Rattle.ca_term.specs.Program.{ProgramView, IsProgram, arity, program_view};
ghost use Rattle.ca_term.specs.View.{kernel};
ghost use Rattle.ca_meaning.specs.Body.{new_body};
ghost use Rattle.ca_meaning.specs.BodyViews.{body_view};
ghost use Rattle.ca_meaning.specs.IsBody.{IsBodyOf};
ghost use Rattle.ca_meaning.specs.Started.{procedure_at, started};

use crate::body::Body;
use crate::started::started;
use ca_term::head::Head;
use ca_term::place::Place;
use ca_term::program::Program;
use ca_term::term::Term;
use ca_value::memory::OutOfMemory;
use ca_value::seq::Seq;
use ca_value::value::{Items, Value};
use std::alloc::Global;

impl Body {
    /// The body of the main text.
    pub fn main(alloc: Global, program: &Program) -> Result<Body, OutOfMemory>
        ensures begins { IfOk result (λ b. body_view b ≡ new_body (program_view program.now).main) }
        ensures known { IfOk result (λ b. IsBodyOf (program_view program.now) (kernel b.term)) }
    {
        Ok(Body::of(program.main().copy(alloc)?))
    }

    /// The body of the go block of that number, with a value for each of its parameters.
    pub fn go(
        alloc: Global,
        program: &Program,
        number: u64,
        values: &Items,
    ) -> Result<Body, OutOfMemory>
        requires there { number < length (program_view program.now).bodies }
        requires count { length (list values.now) ≡ arity (procedure_at (program_view program.now).bodies number) }
        ensures begins { IfOk result (λ b. body_view b ≡ new_body (started (procedure_at (program_view program.now).bodies number) (views (list values.now)))) }
        ensures known { IfOk result (λ b. IsBodyOf (program_view program.now) (kernel b.term)) }
    {
        let Some(text) = program.body(number) else {
            unreachable!()
        };
        Ok(Body::of(started(alloc, text, values)?))
    }

    /// The body of a call of the function of that number with one value, at the place of the form that applies it.
    pub fn call(alloc: Global, number: u64, value: Value, place: Place) -> Result<Body, OutOfMemory>
        ensures begins { IfOk result (λ b. body_view b ≡ new_body (apply (HeadKind.Call number) (item (const (view value)) none) place)) }
        ensures known { IfOk result (λ b. (P : ProgramView) → IsProgram P → Takes (map arity P.functions) number 1 → IsBodyOf P (kernel b.term)) }
    {
        Ok(Body::of(called(alloc, number, value, place)?))
    }
}

// The call as a term.
fn called(alloc: Global, number: u64, value: Value, place: Place) -> Result<Term, OutOfMemory>
    ensures { IfOk result (λ t. kernel t ≡ apply (HeadKind.Call number) (item (const (view value)) none) place) }
{
    let operands = Seq::from_vec(vec![in alloc; Term::Const(value)]?);
    Ok(Term::Apply(Head::Call(number), operands, place))
}
