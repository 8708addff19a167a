//! Who is told the events of a journal as it is judged.
use crate::world::World;
use ca_term::event::Event;
use ca_value::memory::OutOfMemory;

/// Who is told, one by one, the events of a legal run, with the world behind each.
pub trait Observer {
    ghost use Rattle.std.specs.Prelude.{ℕ, List, OnOk};
    ghost use Rattle.ca_term.specs.Event.{EventView, event_view};
    ghost use Rattle.ca_term.specs.Program.{ProgramView};
    ghost use Rattle.ca_replay.specs.Judged.{IsWorldTold, TellsEvent};

    /// It was told these events.
    ghost saw: { Self → List EventView → Type 0 };

    /// How many events it can be told.
    ghost most: { ℕ };

    /// Is told the next event of a legal run. After OutOfMemory it is of no use.
    fn see(&mut self, event: &Event, world: &World<'_>) -> Result<(), OutOfMemory>
        requires { (program : ProgramView) × (before : List EventView) × saw self.old before × IsWorldTold most program before (event_view event.now) world.now }
        ensures { OnOk result (TellsEvent saw most (event_view event.now) world.now self.old self.new) };
}

/// Nobody is told anything.
#[derive(Drop)]
pub struct Nobody;

impl Observer for Nobody {
    ghost use Rattle.std.specs.Prelude.{◌^◌};

    ghost saw = { λ nobody events. Unit {0} };

    ghost most = { 2 ^ 64 };

    fn see(&mut self, _event: &Event, _world: &World<'_>) -> Result<(), OutOfMemory> {
        Ok(())
    }
}
