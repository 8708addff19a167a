ghost use Rattle.std.specs.Prelude.{◌≡◌, ◌<◌};
ghost use Rattle.ca_check.specs.Words.{IfOk, IfErr, OnOk, length, drop, kernel, go_meaning, go_form_body, done, gathered, env, form_parts, Fails};

use crate::walk::Walker;
use ca_forms::context::At;
use ca_forms::error::CheckError;
use ca_forms::functions::Functions;
use ca_forms::gathered::Made;
use ca_forms::operands::single;
use ca_reader::form::Form;
use ca_term::place::Place;
use std::alloc::Global;

impl Walker {
    /// `(go e ..)`, or `(go-loop [b e ..] e ..)` where it repeats.
    #[cycle(walk)]
    pub fn go_form(
        &mut self,
        alloc: Global,
        functions: &Functions,
        at: At,
        repeats: bool,
        place: Place,
        parts: &[Form],
    ) -> Result<Made, CheckError>
        requires { 0 < length parts.now }
        ensures ok { IfOk result (λ t. go_meaning (go_form_body repeats place (form_parts (drop 1 parts.now))) place (env self.old.scope functions.now at) (gathered self.old.gathered) ≡ done (kernel t) (gathered self.new.gathered)) }
        ensures err { IfErr result (λ e. Fails e (go_meaning (go_form_body repeats place (form_parts (drop 1 parts.now))) place (env self.old.scope functions.now at) (gathered self.old.gathered))) }
        ensures scope { OnOk result (self.new.scope ≡ self.old.scope) }
    {
        let port = self.scope.len();
        let number = self.gathered.open(alloc)?;
        self.scope.hide(alloc)?;
        let body = self.go_body(alloc, functions, at.in_task(), repeats, place, parts)?;
        // The body's value has the name behind the port.
        self.scope.hide(alloc)?;
        self.scope.leave(port);
        self.gathered.finish(alloc, number, port, body, place)
    }

    #[cycle(walk)]
    fn go_body(
        &mut self,
        alloc: Global,
        functions: &Functions,
        at: At,
        repeats: bool,
        place: Place,
        parts: &[Form],
    ) -> Result<Made, CheckError>
        requires { 0 < length parts.now }
        ensures ok { IfOk result (λ t. go_form_body repeats place (form_parts (drop 1 parts.now)) (env self.old.scope functions.now at) (gathered self.old.gathered) ≡ done (kernel t) (gathered self.new.gathered)) }
        ensures err { IfErr result (λ e. Fails e (go_form_body repeats place (form_parts (drop 1 parts.now)) (env self.old.scope functions.now at) (gathered self.old.gathered))) }
        ensures scope { OnOk result (self.new.scope ≡ self.old.scope) }
    {
        if repeats {
            let looped = self.loop_form(alloc, functions, at, place, parts)?;
            self.gathered.seq(alloc, single(alloc, looped)?)
        } else {
            self.block(alloc, functions, at, parts, 1)
        }
    }
}
