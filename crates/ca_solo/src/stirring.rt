// Which channels can settle after an event.
ghost use Rattle.std.specs.Prelude.{◌⊎◌, ℕ, List};
ghost use Rattle.ca_term.specs.Program.{ProgramView};
ghost use Rattle.ca_term.specs.Event.{EventView};
ghost use Rattle.ca_meaning.specs.State.{State};
ghost use Rattle.ca_meaning.specs.Steps.{Step};
ghost use Rattle.ca_meaning.specs.Legal.{Reaches};
ghost use Rattle.ca_meaning.specs.Solo.{CanSettle};
ghost use Rattle.ca_solo.specs.Stirs.{AmongPorts, stirred};

/// After an event a channel can settle only if the event stirs it, or if it could before.
pub fn events_stir_their_channels()
    ensures { (program : ProgramView) (journal : List EventView) (s s2 : State) (e : EventView) → Reaches program journal s → Step program s e s2 → (q : ℕ) → CanSettle s2 q → AmongPorts q (stirred s e) ⊎ CanSettle s q }
{}
