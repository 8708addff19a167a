ghost use Rattle.std.specs.Prelude.{◌≡◌, ◌≤◌, ◌<◌, ◌+◌, ◌^◌, ◌∷◌, ◌++◌, ◌&&◌};
ghost use Rattle.ca_check.specs.Words.{ℕ, suc, [], length, false, None, IfOk, IfErr, IfSome, IfNone, OnOk, list, kernel, form_trees, CheckError, find, named_function, is_known, done, names_of, numbers, straight, looped, signature, function_env, body_settled, add_function, with_function, is_empty, plain_with, is_plain, total_binders, written_as, in_function, body_in, tops_of, settled_view, settled_function, AreBelow, AreCounted, IsSafe, gathered, Fails};

use crate::defn::{Defn, Pass};
use crate::function_body::all_parameters;
use crate::walk::Walker;
use ca_forms::error::{CheckError, CheckErrorKind};
use ca_forms::functions::{Function, Functions};
use ca_forms::gathered::Made;
use ca_forms::uses::{aims_out, is_plain, note_term};
use ca_term::place::Place;
use ca_term::program::Procedure;
use ca_term::term::Term;
use ca_value::memory::OutOfMemory;
use ca_value::seq::Seq;
use indexmap::IndexSet;
use std::alloc::Global;

/// What the top-level forms so far have defined: the names of the main text, and the functions with their texts.
/// The walk has gathered the go bodies.
#[derive(Drop)]
pub struct Definitions {
    pub walker: Walker,
    pub functions: Functions,
    pub procedures: Seq<Procedure>,
    /// How many `def` and `defn` forms there were.
    pub defined: u64,
}

/// The body of a function, and its hidden parameters: the numbers of the `def` names that it uses.
#[derive(Drop)]
pub struct Body {
    pub made: Made,
    pub hidden: IndexSet<u64>,
}

/// What a first walk of a body tells: whether a `recur` aims at the function, and the numbers of the `def` names
/// that the body uses.
#[derive(Drop)]
pub struct Hints {
    pub looping: bool,
    pub hidden: IndexSet<u64>,
}

// The function that comes next is plain: it has no hidden parameter, no operation, and calls plain functions only,
// itself among them.
fn is_plain_function(functions: &Functions, hidden: &IndexSet<u64>, body: &Term) -> bool
    ensures { result ≡ (is_empty hidden.now.keys && is_plain (plain_with (length functions.now) functions.now) (kernel body.now)) }
{
    hidden.is_empty() && is_plain(functions, functions.len(), body)
}

// What calls know of the function, with these hidden parameters.
fn signature(
    alloc: Global,
    defn: &Defn,
    hidden: &[u64],
    plain: bool,
) -> Result<Function, OutOfMemory>
    ensures ok { IfOk result (λ f. named_function defn.now.name.now f ≡ signature (written_as defn.now) hidden.now plain) }
{
    let numbers = Vec::from_slice(alloc, hidden)?;
    Ok(Function {
        arity: defn.parameters.len() as u64,
        hidden: Seq::from_vec(numbers),
        plain,
    })
}

impl Definitions {
    // The body in that pass, where calls of the function itself pass these hidden parameters.
    fn pass(
        &mut self,
        alloc: Global,
        pass: Pass,
        hidden: &[u64],
        defn: &Defn,
        place: Place,
    ) -> Result<Made, CheckError>
        requires free { is_known defn.now.name.now self.old.functions ≡ false }
        requires few { length self.old.walker.scope ≤ 4096 }
        requires short { length defn.now.parameters.now ≤ 16 }
        requires patterns { AreCounted (written_as defn.now).parameters }
        ensures ok { IfOk result (λ t. body_in pass (written_as defn.now) place (function_env (signature (written_as defn.now) hidden.now false) (tops_of self.old)) (gathered self.old.walker.gathered) ≡ done (kernel t) (gathered self.new.walker.gathered)) }
        ensures err { IfErr result (λ e. Fails e (body_in pass (written_as defn.now) place (function_env (signature (written_as defn.now) hidden.now false) (tops_of self.old)) (gathered self.old.walker.gathered))) }
        ensures kept { OnOk result (tops_of self.new ≡ tops_of self.old) }
    {
        let known = signature(alloc, defn, hidden, false)?;
        self.functions.add(alloc, defn.name, known)?;
        let body = self.walker.body(alloc, &self.functions, pass, defn, place)?;
        self.functions.remove_last();
        Ok(body)
    }

    // A first walk meets each error; what it gathered is left.
    fn first_pass(&mut self, alloc: Global, defn: &Defn, place: Place) -> Result<Hints, CheckError>
        requires free { is_known defn.now.name.now self.old.functions ≡ false }
        requires few { length self.old.walker.scope ≤ 4096 }
        requires short { length defn.now.parameters.now ≤ 16 }
        requires safe { IsSafe (tops_of self.old) }
        ensures ok { IfOk result (λ h. add_function (written_as defn.now) place (tops_of self.old) (gathered self.old.walker.gathered) ≡ settled_function h.looping h.hidden.keys (written_as defn.now) place (tops_of self.old) (gathered self.old.walker.gathered)) }
        ensures err { IfErr result (λ e. Fails e (add_function (written_as defn.now) place (tops_of self.old) (gathered self.old.walker.gathered))) }
        ensures kept { OnOk result (tops_of self.new ≡ tops_of self.old) }
        ensures gathered { OnOk result (gathered self.new.walker.gathered ≡ gathered self.old.walker.gathered) }
        ensures below { IfOk result (λ h. AreBelow (length self.old.walker.scope) h.hidden.keys) }
        ensures patterns { OnOk result (AreCounted (written_as defn.now).parameters) }
    {
        defn.judge()?;
        let bodies = self.walker.gathered.bodies.len();
        let deep = self.walker.gathered.deep;
        let first = self.pass(alloc, Pass::First, &[], defn, place)?;
        if self.walker.gathered.deep {
            return Err(CheckError::Fault(CheckErrorKind::TooMany, place));
        }
        let mut hidden = IndexSet::new(alloc);
        note_term(&mut hidden, self.walker.scope.len(), first.term())?;
        self.walker.gathered.cut(bodies, deep);
        Ok(Hints {
            looping: aims_out(first.term()),
            hidden,
        })
    }

    // One more walk of the body. Where it uses a name that is not among the hidden parameters, what it gathered is
    // left, and the name is now one of them.
    fn walk_again(
        &mut self,
        alloc: Global,
        looping: bool,
        hidden: &mut IndexSet<u64>,
        defn: &Defn,
        place: Place,
    ) -> Result<Option<Made>, CheckError>
        requires free { is_known defn.now.name.now self.old.functions ≡ false }
        requires few { length self.old.walker.scope ≤ 4096 }
        requires short { length defn.now.parameters.now ≤ 16 }
        requires safe { IsSafe (tops_of self.old) }
        requires below { AreBelow (length self.old.walker.scope) hidden.old.keys }
        requires patterns { AreCounted (written_as defn.now).parameters }
        ensures ok { IfOk result (λ r. IfSome r (λ t. (n : ℕ) → body_settled (suc n) looping hidden.old.keys (written_as defn.now) place (tops_of self.old) (gathered self.old.walker.gathered) ≡ done (settled_view t hidden.new.keys) (gathered self.new.walker.gathered))) }
        ensures more { IfOk result (λ r. IfNone r ((n : ℕ) → body_settled (suc n) looping hidden.old.keys (written_as defn.now) place (tops_of self.old) (gathered self.old.walker.gathered) ≡ body_settled n looping hidden.new.keys (written_as defn.now) place (tops_of self.old) (gathered self.old.walker.gathered))) }
        ensures err { IfErr result (λ e. (n : ℕ) → Fails e (body_settled (suc n) looping hidden.old.keys (written_as defn.now) place (tops_of self.old) (gathered self.old.walker.gathered))) }
        ensures kept { OnOk result (tops_of self.new ≡ tops_of self.old) }
        ensures gathered { IfOk result (λ r. IfNone r (gathered self.new.walker.gathered ≡ gathered self.old.walker.gathered)) }
        ensures below { OnOk result (AreBelow (length self.old.walker.scope) hidden.new.keys) }
    {
        let bodies = self.walker.gathered.bodies.len();
        let deep = self.walker.gathered.deep;
        let before = hidden.len();
        let pass = Pass::for_good(looping);
        let body = self.pass(alloc, pass, hidden.as_slice(), defn, place)?;
        note_term(hidden, self.walker.scope.len(), body.term())?;
        if 64 < hidden.len() {
            return Err(CheckError::Fault(CheckErrorKind::TooMany, place));
        }
        if hidden.len() == before {
            return Ok(Some(body));
        }
        self.walker.gathered.cut(bodies, deep);
        Ok(None)
    }

    // The body is walked until no further name comes up.
    fn settle(
        &mut self,
        alloc: Global,
        hints: Hints,
        defn: &Defn,
        place: Place,
    ) -> Result<Body, CheckError>
        requires free { is_known defn.now.name.now self.old.functions ≡ false }
        requires few { length self.old.walker.scope ≤ 4096 }
        requires short { length defn.now.parameters.now ≤ 16 }
        requires safe { IsSafe (tops_of self.old) }
        requires below { AreBelow (length self.old.walker.scope) hints.hidden.keys }
        requires patterns { AreCounted (written_as defn.now).parameters }
        ensures ok { IfOk result (λ r. body_settled 66 hints.looping hints.hidden.keys (written_as defn.now) place (tops_of self.old) (gathered self.old.walker.gathered) ≡ done (settled_view r.made r.hidden.keys) (gathered self.new.walker.gathered)) }
        ensures err { IfErr result (λ e. Fails e (body_settled 66 hints.looping hints.hidden.keys (written_as defn.now) place (tops_of self.old) (gathered self.old.walker.gathered))) }
        ensures kept { OnOk result (tops_of self.new ≡ tops_of self.old) }
        ensures below { IfOk result (λ r. AreBelow (length self.old.walker.scope) r.hidden.keys) }
    {
        let Hints {
            looping,
            mut hidden,
        } = hints;
        let mut left: u64 = 66;
        while 0 < left {
            left -= 1;
            let walked = self.walk_again(alloc, looping, &mut hidden, defn, place)?;
            match walked {
                Some(made) => return Ok(Body { made, hidden }),
                None => {}
            }
        }
        Err(CheckError::Fault(CheckErrorKind::TooMany, place))
    }

    // Adds the function with its text.
    fn define(&mut self, alloc: Global, body: Body, defn: &Defn) -> Result<(), CheckError>
        requires free { is_known defn.now.name.now self.old.functions ≡ false }
        requires few { length self.old.walker.scope ≤ 4096 }
        requires short { length defn.now.parameters.now ≤ 16 }
        requires safe { IsSafe (tops_of self.old) }
        requires below { AreBelow (length self.old.walker.scope) body.hidden.keys }
        requires counted { self.old.defined ≤ 4096 }
        ensures ok { OnOk result (tops_of self.new ≡ with_function (written_as defn.now) body.hidden.keys (kernel body.made) (tops_of self.old)) }
        ensures err { IfErr result (λ e. e ≡ CheckError.OutOfMemory) }
        ensures gathered { gathered self.new.walker.gathered ≡ gathered self.old.walker.gathered }
        ensures safe { OnOk result (IsSafe (tops_of self.new)) }
    {
        let Body { made, hidden } = body;
        let plain = is_plain_function(&self.functions, &hidden, made.term());
        let known = signature(alloc, defn, hidden.as_slice(), plain)?;
        let first = self.walker.scope.len();
        let parameters = all_parameters(alloc, first, defn.parameters, hidden.as_slice())?;
        let procedure = Procedure {
            parameters,
            body: made.into_term(),
        };
        self.enter(alloc, defn.name, known, procedure)?;
        Ok(())
    }

    // Adds what calls know of a function, under its name, and its text.
    fn enter(
        &mut self,
        alloc: Global,
        name: &[u8],
        known: Function,
        procedure: Procedure,
    ) -> Result<(), CheckError>
        requires free { find name.now self.old.functions ≡ None }
        requires counted { self.old.defined ≤ 4096 }
        ensures functions { OnOk result (self.new.functions ≡ self.old.functions ++ named_function name.now known ∷ []) }
        ensures procedures { OnOk result (list self.new.procedures ≡ list self.old.procedures ++ procedure ∷ []) }
        ensures defined { OnOk result (self.new.defined ≡ self.old.defined + 1) }
        ensures walker { self.new.walker ≡ self.old.walker }
        ensures err { IfErr result (λ e. e ≡ CheckError.OutOfMemory) }
    {
        self.procedures.reserve(1)?;
        self.functions.add(alloc, name, known)?;
        self.procedures.push(procedure);
        self.defined += 1;
        Ok(())
    }

    /// Adds the function, whose name is free; `TooMany` where it has more than 64 hidden parameters, or a body that is
    /// deeper than 60.
    pub fn add_function(
        &mut self,
        alloc: Global,
        defn: &Defn,
        place: Place,
    ) -> Result<(), CheckError>
        requires free { is_known defn.now.name.now self.old.functions ≡ false }
        requires few { length self.old.walker.scope ≤ 4096 }
        requires short { length defn.now.parameters.now ≤ 16 }
        requires safe { IsSafe (tops_of self.old) }
        requires counted { self.old.defined ≤ 4096 }
        ensures ok { OnOk result (add_function (written_as defn.now) place (tops_of self.old) (gathered self.old.walker.gathered) ≡ done (tops_of self.new) (gathered self.new.walker.gathered)) }
        ensures err { IfErr result (λ e. Fails e (add_function (written_as defn.now) place (tops_of self.old) (gathered self.old.walker.gathered))) }
        ensures safe { OnOk result (IsSafe (tops_of self.new)) }
        ensures size { OnOk result (length self.new.walker.scope ≡ length self.old.walker.scope) }
        ensures defined { OnOk result (self.new.defined ≡ self.old.defined + 1) }
    {
        let hints = self.first_pass(alloc, defn, place)?;
        let body = self.settle(alloc, hints, defn, place)?;
        if 60 < body.made.depth() {
            return Err(CheckError::Fault(CheckErrorKind::TooMany, place));
        }
        self.define(alloc, body, defn)
    }
}
