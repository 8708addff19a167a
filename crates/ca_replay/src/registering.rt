//! An operation on a registry.
ghost use Rattle.std.specs.Prelude.{◌≡◌, OnOk, ℕ, nat_eq, option_map, true};
ghost use Rattle.indexmap.specs.IndexMap.{get};
ghost use Rattle.ca_value.specs.IsValue.{any};
ghost use Rattle.ca_value.specs.Seq.{list};
ghost use Rattle.ca_value.specs.View.{trees, view};
ghost use Rattle.ca_term.specs.Event.{registered as registered_by};
ghost use Rattle.ca_term.specs.Program.{program_view};
ghost use Rattle.ca_meaning.specs.Operands.{rest_of};
ghost use Rattle.ca_meaning.specs.RunValues.{Holds};
ghost use Rattle.ca_meaning.specs.Steps.{Step};
ghost use Rattle.ca_registry.specs.Mixes.{TogglesApart};
ghost use Rattle.ca_registry.specs.Registry.{registry_after, registry_view};
ghost use Rattle.ca_scene.specs.Admits.{admits};
ghost use Rattle.ca_scene.specs.Scene.{scene_state};
ghost use Rattle.ca_replay.specs.Changes.{mapped_at};
ghost use Rattle.ca_replay.specs.SceneOf.{IsSceneOf};

use crate::going::go_on;
use ca_asking::operands::port_at;
use ca_registry::registry::{Registry, members_added};
use ca_scene::scene::Scene;
use ca_term::copy::copy_values;
use ca_term::head::RegisterName;
use ca_term::program::Program;
use ca_value::memory::OutOfMemory;
use ca_value::value::{Items, Value};
use indexmap::IndexMap;
use std::alloc::Global;

/// The task's operation on the registry that its first argument names has the answer.
pub(crate) fn register(
    scene: &mut Scene,
    alloc: Global,
    program: &Program,
    task: u64,
    name: RegisterName,
    args: &Items,
    answer: &Value,
) -> Result<(), OutOfMemory>
    requires scene { IsSceneOf (program_view program.now) scene.old }
    requires values { Holds any (scene_state scene.old) }
    requires admitted { admits (scene_state scene.old) (registered_by task name (trees (list args.now)) (view answer.now)) ≡ true }
    ensures step { OnOk result (Step (program_view program.now) (scene_state scene.old) (registered_by task name (trees (list args.now)) (view answer.now)) (scene_state scene.new)) }
    ensures scene { OnOk result (IsSceneOf (program_view program.now) scene.new) }
{
    let port = port_at(args.as_slice(), 0);
    let rest = copy_values(alloc, behind_first(args.as_slice()))?;
    let value = answer.copy(alloc)?;
    go_on(scene, alloc, program, task, value)?;
    enter(&mut scene.registries, port.n, name, rest)?;
    Ok(())
}

// The arguments behind the registry.
fn behind_first(args: &[Value]) -> &[Value]
    ensures { trees result.now ≡ rest_of (trees args.now) }
{
    match args.split_first() {
        Some((_, rest)) => rest,
        None => args,
    }
}

fn enter(
    registries: &mut IndexMap<u64, Registry>,
    port: u64,
    name: RegisterName,
    args: Items,
) -> Result<(), OutOfMemory>
    requires apart { TogglesApart name (trees (list args)) }
    ensures { OnOk result ((p : ℕ) → option_map registry_view (get nat_eq registries.new p) ≡ mapped_at (λ q. option_map registry_view (get nat_eq registries.old q)) port (registry_after name (trees (list args))) p) }
{
    match registries.get_mut(&port) {
        Some(registry) => enter_one(registry, name, args),
        None => Ok(()),
    }
}

fn enter_one(registry: &mut Registry, name: RegisterName, args: Items) -> Result<(), OutOfMemory>
    requires apart { TogglesApart name (trees (list args)) }
    ensures { OnOk result (registry_view registry.new ≡ registry_after name (trees (list args)) (registry_view registry.old)) }
{
    registry.reserve(members_added(name, args.as_slice()))?;
    registry.register(name, args);
    Ok(())
}
