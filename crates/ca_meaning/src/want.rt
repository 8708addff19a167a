ghost use Rattle.std.specs.Prelude.{ℕ, IfOk};
ghost use Rattle.ca_value.specs.Seq.{list};
ghost use Rattle.ca_term.specs.View.{kernel, kernels};
ghost use Rattle.ca_term.specs.Operation.{op_view, want_view};
ghost use Rattle.ca_meaning.specs.Redex.{values_of};
ghost use Rattle.ca_meaning.specs.Body.{standing, standing_with};
ghost use Rattle.ca_meaning.specs.BodyViews.{AtNoOther};

use ca_asking::asking::ask;
use ca_term::head::Head;
use ca_term::operation::{Op, Want};
use ca_term::place::Place;
use ca_term::term::Term;
use ca_value::memory::OutOfMemory;
use ca_value::seq::Seq;
use ca_value::value::Value;
use std::alloc::Global;

// The operation of a redex that stands at one, with its values.
pub(crate) fn want_of(alloc: Global, redex: &Term) -> Result<Want, OutOfMemory>
    ensures { IfOk result (λ w. (turns depth : ℕ) → AtNoOther (standing turns depth (kernel redex.now)) (want_view w)) }
{
    match redex {
        Term::Apply(head, operands, place) => Ok(Want {
            op: op_of(alloc, *head, operands, *place)?,
            place: *place,
        }),
        _ => Ok(Want {
            op: Op::Take(Value::Nil),
            place: Place { line: 0, column: 0 },
        }),
    }
}

// The operation of that head with these values.
fn op_of(alloc: Global, head: Head, operands: &Seq<Term>, place: Place) -> Result<Op, OutOfMemory>
    ensures { let vs = values_of (kernels (list operands.now)) in IfOk result (λ op. (turns depth : ℕ) → AtNoOther (standing_with turns depth vs place head) (record { op = op_view op; place = place })) }
{
    match ask(alloc, head, operands.as_slice(), place)? {
        Ok(op) => Ok(op),
        Err(_) => Ok(Op::Take(Value::Nil)),
    }
}
