//! What the decision is: the meaning's step, both ways.
ghost use Rattle.std.specs.Prelude.{◌≡◌, true};
ghost use Rattle.ca_term.specs.Event.{EventView};
ghost use Rattle.ca_term.specs.Program.{ProgramView};
ghost use Rattle.ca_meaning.specs.State.{State};
ghost use Rattle.ca_meaning.specs.Steps.{Step};
ghost use Rattle.ca_scene.specs.Admits.{admits};

/// A state admits an event exactly where the event leads from it to a state, whatever the program.
pub fn what_is_admitted_is_a_step()
    ensures leads { (program : ProgramView) (s : State) (e : EventView) → admits s e ≡ true → (s2 : State) × Step program s e s2 }
    ensures admitted { (program : ProgramView) (s s2 : State) (e : EventView) → Step program s e s2 → admits s e ≡ true }
{}
