ghost use Rattle.std.specs.Prelude.{◌≡◌, ◌≤◌, ◌<◌, ◌+◌, ◌^◌, IfOk, IfErr, OnOk, ℕ, suc, [], ◌∷◌, ◌++◌, map, length, slice_set};
ghost use Rattle.ca_value.specs.Seq.{list};
ghost use Rattle.ca_value.specs.Tree.{nil};
ghost use Rattle.ca_value.specs.declared.builtin.Builtin.{Builtin};
ghost use Rattle.ca_term.specs.Kernel.{const, var, branch as branch_of, apply as apply_of, bind as bind_of, binding, empty};
ghost use Rattle.ca_term.specs.Program.{procedure_view};
ghost use Rattle.ca_term.specs.View.{kernel, kernels_of};
ghost use Rattle.ca_term.specs.declared.head.Head.{Head};
ghost use Rattle.ca_term.specs.declared.head.SeedKind.{SeedKind};
ghost use Rattle.ca_forms.specs.Channels.{built};
ghost use Rattle.ca_forms.specs.Depth.{kernel_depth};
ghost use Rattle.ca_forms.specs.Go.{go_spawned};
ghost use Rattle.ca_forms.specs.GoView.{ending, go_body_held, go_finished};
ghost use Rattle.ca_forms.specs.Outcome.{done, limited};
ghost use Rattle.ca_forms.specs.WalkView.{gathered};
ghost use Rattle.ca_forms.specs.declared.error.CheckError.{CheckError};

use crate::error::CheckError;
use crate::fixed::{apply, bind, branch, followed, locals, made_of_one, nothing, over, with_last};
use crate::gathered::{Bodies, Made};
use crate::operands::single;
use crate::uses::uses;
use ca_term::head::{Head, MakeKind, SeedKind};
use ca_term::place::Place;
use ca_term::program::Procedure;
use ca_term::term::Term;
use ca_value::builtin::Builtin;
use ca_value::seq::Seq;
use ca_value::value::Value;
use std::alloc::Global;

// The value, whose number is the one behind that of the port, is put there unless it is nil.
fn put_unless_nil(alloc: Global, port: u64, place: Place) -> Result<Made, CheckError>
    requires { port + 1 < 2 ^ 64 }
    ensures ok { IfOk result (λ t. kernel t ≡ branch_of (built Builtin.IsNil (var (port + 1) ∷ []) place) (const nil) (apply_of Head.Post (kernels_of (var port ∷ var (port + 1) ∷ [])) place)) }
    ensures err { IfErr result (λ e. e ≡ CheckError.OutOfMemory) }
{
    let test = over(alloc, Head::Builtin(Builtin::IsNil), &[port + 1], place)?;
    let put = over(alloc, Head::Post, &[port, port + 1], place)?;
    branch(alloc, test, nothing(), put)
}

// What stands behind the body of a go block: its value, which has the number behind that of the result port,
// is put there unless it is nil, and the port is closed.
fn ending(alloc: Global, port: u64, place: Place) -> Result<Made, CheckError>
    requires { port + 1 < 2 ^ 64 }
    ensures ok { IfOk result (λ t. kernel t ≡ ending port place) }
    ensures err { IfErr result (λ e. e ≡ CheckError.OutOfMemory) }
{
    let put = put_unless_nil(alloc, port, place)?;
    let close = over(alloc, Head::Close, &[port], place)?;
    followed(alloc, put, close)
}

// The text of a task whose body was walked, over the result port.
fn task(
    alloc: Global,
    bodies: &mut Bodies,
    body: Made,
    port: u64,
    place: Place,
) -> Result<Made, CheckError>
    requires { port + 2 < 2 ^ 64 }
    ensures ok { IfOk result (λ t. limited (bind_of (binding (suc port) (kernel body) empty) (ending port place)) (gathered bodies.old) ≡ done (kernel t) (gathered bodies.new)) }
    ensures err { IfErr result (λ e. e ≡ CheckError.OutOfMemory) }
{
    let values = single(alloc, body)?;
    let end = ending(alloc, port, place)?;
    let text = bodies.bind(alloc, port + 1, values, end)?;
    Ok(text)
}

// The Spawn of the go body of that number, over the names that it uses and the result port.
#[tactic(auto, using(crate::proofs::GoLaws::vars_more, crate::proofs::GoLaws::vars_last))]
fn spawn(
    alloc: Global,
    number: u64,
    port: u64,
    captured: &[u64],
    place: Place,
) -> Result<Made, CheckError>
    ensures ok { IfOk result (λ t. kernel t ≡ apply_of (Head.Spawn (SeedKind.Go number)) (kernels_of (map var (captured.now ++ port ∷ []))) place) }
    ensures small { IfOk result (λ t. kernel_depth (kernel t) ≤ 2) }
    ensures err { IfErr result (λ e. e ≡ CheckError.OutOfMemory) }
{
    let operands = locals(alloc, captured)?;
    let operands = with_last(operands, Made::local(port))?;
    let term = apply(alloc, Head::Spawn(SeedKind::Go(number)), operands, place)?;
    Ok(term)
}

// A go block: its result port, the Spawn of its body, and the port as the value.
fn spawned(
    alloc: Global,
    number: u64,
    port: u64,
    captured: &[u64],
    place: Place,
) -> Result<Made, CheckError>
    requires { port + 1 < 2 ^ 64 }
    ensures ok { IfOk result (λ t. kernel t ≡ go_spawned number port captured.now place) }
    ensures err { IfErr result (λ e. e ≡ CheckError.OutOfMemory) }
{
    let made = made_of_one(alloc, MakeKind::Fixed, place)?;
    let values = single(alloc, made)?;
    let term = spawn(alloc, number, port, captured, place)?;
    let body = followed(alloc, term, Made::local(port))?;
    bind(alloc, port, values, body)
}

// The text of a go body, over the names that it uses and the result port.
fn over_port(mut captured: Seq<u64>, port: u64, body: Made) -> Result<Procedure, CheckError>
    ensures ok { IfOk result (λ q. procedure_view q ≡ record { parameters = list captured ++ port ∷ []; body = kernel body }) }
    ensures err { IfErr result (λ e. e ≡ CheckError.OutOfMemory) }
{
    captured.reserve(1)?;
    captured.push(port);
    Ok(Procedure {
        parameters: captured,
        body: body.into_term(),
    })
}

impl Bodies {
    /// Holds a number for a go body that is made later.
    pub fn open(&mut self, alloc: Global) -> Result<u64, CheckError>
        ensures number { IfOk result (λ n. n ≡ length (gathered self.old).bodies) }
        ensures ok { OnOk result (gathered self.new ≡ go_body_held (gathered self.old)) }
        ensures err { IfErr result (λ e. e ≡ CheckError.OutOfMemory) }
    {
        let number = self.bodies.len();
        self.bodies.reserve(1)?;
        self.bodies.push(Procedure {
            parameters: Seq::new(alloc),
            body: Term::Const(Value::Nil),
        });
        Ok(number)
    }

    // Puts the go body of that number in place.
    fn fill(&mut self, number: u64, made: Procedure)
        ensures { gathered self.new ≡ record (gathered self.old) { bodies = slice_set (gathered self.old).bodies number (procedure_view made) } }
    {
        if number < self.bodies.len() {
            self.bodies.set(number, made);
        }
    }

    /// The go block of that number, once its body was walked behind the result port.
    pub fn finish(
        &mut self,
        alloc: Global,
        number: u64,
        port: u64,
        body: Made,
        place: Place,
    ) -> Result<Made, CheckError>
        requires { port + 2 < 2 ^ 64 }
        ensures ok { IfOk result (λ t. go_finished (kernel body) number port place (gathered self.old) ≡ done (kernel t) (gathered self.new)) }
        ensures err { IfErr result (λ e. e ≡ CheckError.OutOfMemory) }
    {
        let text = task(alloc, self, body, port, place)?;
        let captured = uses(alloc, port, text.term())?;
        let made = spawned(alloc, number, port, captured.as_slice(), place)?;
        let text = over_port(captured, port, text)?;
        self.fill(number, text);
        Ok(made)
    }
}
