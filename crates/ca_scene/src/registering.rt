//! What an operation on a registry comes to in a scene.
ghost use Rattle.std.specs.Prelude.{◌≡◌, IsTrue};
ghost use Rattle.ca_value.specs.IsValue.{any};
ghost use Rattle.ca_value.specs.Seq.{list};
ghost use Rattle.ca_value.specs.View.{view, trees};
ghost use Rattle.ca_term.specs.Event.{registered as registered_by};
ghost use Rattle.ca_term.specs.Operation.{registering};
ghost use Rattle.ca_meaning.specs.Operands.{rest_of};
ghost use Rattle.ca_meaning.specs.Refusal.{fault_of_registered, registering_gives, unfit};
ghost use Rattle.ca_meaning.specs.RunValues.{BringsApart, Holds};
ghost use Rattle.ca_registry.specs.Gives.{gives_answer};
ghost use Rattle.ca_scene.specs.Admits.{admits};
ghost use Rattle.ca_scene.specs.Scene.{scene_state, IsScene};

use crate::same::same_name;
use crate::scene::Scene;
use ca_asking::operands::port_at;
use ca_registry::fit::{keys_pass, unmet};
use ca_registry::need::needs_to_register;
use ca_term::fault::Fault;
use ca_term::head::RegisterName;
use ca_term::operation::Op;
use ca_value::value::{Items, Value};

// The arguments behind the registry.
fn behind_first(args: &[Value]) -> &[Value]
    ensures { trees result.now ≡ rest_of (trees args.now) }
{
    match args.split_first() {
        Some((_, rest)) => rest,
        None => args,
    }
}

impl Scene {
    /// The fault of the operation: an operand's, and then the table's.
    pub(crate) fn bad_register(&self, name: RegisterName, args: &[Value]) -> Option<Fault>
        requires apart { BringsApart (trees args.now) }
        ensures { result ≡ unfit (scene_state self.now) (registering name (trees args.now)) }
    {
        match unmet(self, needs_to_register(name), args) {
            Some(fault) => Some(fault),
            None => self.registry_fault(name, args),
        }
    }

    // What the table says of the operation on the registry that the first argument names.
    #[tactic(auto, using(ca_registry::proofs::KeyLaws::refused_keys, ca_registry::proofs::KeyLaws::same_table, crate::proofs::Brought::toggles_apart))]
    fn registry_fault(&self, name: RegisterName, args: &[Value]) -> Option<Fault>
        requires apart { BringsApart (trees args.now) }
        ensures { result ≡ fault_of_registered (registering_gives (scene_state self.now) name (trees args.now)) }
    {
        let rest = behind_first(args);
        match self.registries.get(&port_at(args, 0).n) {
            None => Some(Fault::NotAPort),
            Some(registry) => {
                if keys_pass(self, name, rest) {
                    registry.fault(name, rest)
                } else {
                    Some(Fault::NotAPort)
                }
            }
        }
    }

    // Whether the operation on the registry that the first argument names has this answer.
    #[tactic(auto, using(ca_registry::proofs::KeyLaws::refused_keys, ca_registry::proofs::KeyLaws::same_table, crate::proofs::Brought::toggles_apart, crate::proofs::Brought::places_itself))]
    fn registry_gives(&self, name: RegisterName, args: &[Value], answer: &Value) -> bool
        requires apart { BringsApart (trees args.now) }
        ensures { gives_answer (view answer.now) (registering_gives (scene_state self.now) name (trees args.now)) ≡ result }
    {
        let rest = behind_first(args);
        match self.registries.get(&port_at(args, 0).n) {
            None => false,
            Some(registry) => {
                if keys_pass(self, name, rest) {
                    registry.gives(name, rest, answer)
                } else {
                    false
                }
            }
        }
    }

    pub(crate) fn admits_register(
        &self,
        task: u64,
        name: RegisterName,
        args: &Items,
        answer: &Value,
    ) -> bool
        requires scene { IsScene self.now }
        requires values { Holds any (scene_state self.now) }
        ensures { admits (scene_state self.now) (registered_by task name (trees (list args.now)) (view answer.now)) ≡ result }
    {
        match self.asks(task) {
            Some(Op::Register(asked, brought)) => {
                if same_name(name, *asked) && args.same(brought) {
                    self.registry_gives(*asked, brought.as_slice(), answer)
                } else {
                    false
                }
            }
            _ => false,
        }
    }
}
