ghost use Rattle.std.specs.Prelude.{◌≡◌, ◌≤◌, Some, false, [], IfOk, IfErr, OnOk};
ghost use Rattle.ca_value.specs.Seq.{list};
ghost use Rattle.ca_value.specs.View.{view, trees};
ghost use Rattle.ca_registry.specs.Registries.{answered, IsCause, members_added};
ghost use Rattle.ca_registry.specs.Mixes.{TogglesApart};
ghost use Rattle.ca_registry.specs.Publications.{PlacesItself};
ghost use Rattle.ca_registry.specs.Kind.{kind_of_registry};
ghost use Rattle.ca_meaning.specs.Registry.{a_mult, a_mix, a_publication, pairs_in};
ghost use Rattle.ca_value.specs.Equality.{pair_count};
ghost use Rattle.ca_registry.specs.Registry.{registry_view, members_spare, comes_to, registry_after};

use crate::kind::PortKind;
use crate::mix::Mix;
use crate::mult::Mult;
use crate::publication::Publication;
use crate::registry_error::RegisterError;
use ca_asking::operands::operand;
use ca_term::head::RegisterName;
use ca_value::memory::OutOfMemory;
use ca_value::value::{Items, PortId, Value};
use std::alloc::Global;

// What is no channel.
#[derive(Drop)]
pub enum Registry {
    Mult(Mult),
    Mix(Mix),
    Publication(Publication),
}

impl Registry {
    pub fn reserve(&mut self, n: u64) -> Result<(), OutOfMemory>
        ensures spare { OnOk result (n ≤ members_spare (Some self.new)) }
        ensures kept { registry_view self.new ≡ registry_view self.old }
        ensures more { members_spare (Some self.old) ≤ members_spare (Some self.new) }
    {
        match self {
            Registry::Mult(mult) => mult.reserve(n),
            Registry::Mix(mix) => mix.reserve(n),
            Registry::Publication(publication) => publication.reserve(n),
        }
    }

    pub fn answer(
        &self,
        alloc: Global,
        name: RegisterName,
        args: &[Value],
    ) -> Result<Value, RegisterError>
        requires apart { TogglesApart name (trees args.now) }
        requires itself { PlacesItself name (trees args.now) }
        ensures ok { IfOk result (λ v. answered (comes_to (Some (registry_view self.now)) name (trees args.now)) ≡ Some (view v)) }
        ensures err { IfErr result (λ e. IsCause e (comes_to (Some (registry_view self.now)) name (trees args.now))) }
    {
        match self {
            Registry::Mult(mult) => mult.answer(alloc, name, args),
            Registry::Mix(mix) => mix.answer(alloc, name, args),
            Registry::Publication(publication) => publication.answer(alloc, name, args),
        }
    }

    pub fn register(&mut self, name: RegisterName, args: Items)
        requires room { members_added name (trees (list args)) ≤ members_spare (Some self.old) }
        requires apart { TogglesApart name (trees (list args)) }
        ensures { registry_view self.new ≡ registry_after name (trees (list args)) (registry_view self.old) }
    {
        match self {
            Registry::Mult(mult) => mult.register(name, args.as_slice()),
            Registry::Mix(mix) => mix.register(name, args.as_slice()),
            Registry::Publication(publication) => publication.register(name, args),
        }
    }

    // A mult without a tap. It takes no memory.
    pub fn mult(alloc: Global, source: PortId) -> Registry
        ensures { registry_view result ≡ a_mult source.n [] }
    {
        Registry::Mult(Mult::new(alloc, source))
    }

    // A mix without a source. It takes no memory.
    pub fn mix(alloc: Global, out: PortId, changes: PortId) -> Registry
        ensures { registry_view result ≡ a_mix out.n changes.n false [] }
    {
        Registry::Mix(Mix::new(alloc, out, changes))
    }

    // A publication without a topic. It takes no memory.
    pub fn publication(alloc: Global, source: PortId) -> Registry
        ensures { registry_view result ≡ a_publication source.n [] }
    {
        Registry::Publication(Publication::new(alloc, source))
    }

    pub fn kind(&self) -> PortKind
        ensures { Some result ≡ kind_of_registry (Some (registry_view self.now)) }
    {
        match self {
            Registry::Mult(_) => PortKind::Mult,
            Registry::Mix(_) => PortKind::Mix,
            Registry::Publication(_) => PortKind::Pub,
        }
    }
}

// How many members the operation may add.
pub fn members_added(name: RegisterName, args: &[Value]) -> u64
    ensures { result ≡ members_added name (trees args.now) }
{
    match name {
        RegisterName::Tap | RegisterName::Admix | RegisterName::Place => 1,
        RegisterName::Toggle => {
            let nil = Value::Nil;
            pairs_in(operand(args, 0, &nil))
        }
        _ => 0,
    }
}

// How many pairs the value has, 0 where it is no map.
#[tactic(auto, using(crate::proofs::Sources::counted_pairs))]
fn pairs_in(value: &Value) -> u64
    ensures { result ≡ pair_count (pairs_in (view value.now)) }
{
    match value {
        Value::Map(pairs) => pairs.as_slice().len() as u64,
        _ => 0,
    }
}
