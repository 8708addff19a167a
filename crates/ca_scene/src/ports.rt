//! What stands at the ports of a scene.
ghost use Rattle.std.specs.Prelude.{◌≡◌};
ghost use Rattle.ca_meaning.specs.Refusal.{is_port_to};

use crate::scene::Scene;
use ca_registry::fit::Ports;
use ca_registry::kind::PortKind;
use ca_registry::need::Need;
use ca_value::value::PortId;

impl Scene {
    ghost use Rattle.std.specs.Prelude.{option_map};
    ghost use Rattle.ca_registry.specs.Kind.{kind_of_registry};
    ghost use Rattle.ca_registry.specs.Registry.{registry_view};
    ghost use Rattle.ca_scene.specs.Scene.{scene_registry};

    // Which registry stands at the port.
    fn registry_kind(&self, port: PortId) -> Option<PortKind>
        ensures { result ≡ kind_of_registry (option_map registry_view (scene_registry self.now port.n)) }
    {
        match self.registries.get(&port.n) {
            Some(registry) => Some(registry.kind()),
            None => None,
        }
    }
}

impl Ports for Scene {
    ghost use Rattle.ca_scene.specs.Scene.{scene_state};

    ghost state = { scene_state };

    fn is_port_to(&self, need: Need, port: PortId) -> bool {
        match need {
            Need::Channel => self.rooms.contains_key(&port.n),
            Need::Mult => match self.registry_kind(port) {
                Some(PortKind::Mult) => true,
                _ => false,
            },
            Need::Mix => match self.registry_kind(port) {
                Some(PortKind::Mix) => true,
                _ => false,
            },
            Need::Publication => match self.registry_kind(port) {
                Some(PortKind::Pub) => true,
                _ => false,
            },
            Need::Anything => true,
        }
    }
}
