ghost use Rattle.std.specs.Prelude.{◌≡◌, ℕ, List};
ghost use Rattle.ca_term.specs.Program.{ProgramView};
ghost use Rattle.ca_term.specs.Event.{EventView};
ghost use Rattle.ca_meaning.specs.State.{State};
ghost use Rattle.ca_meaning.specs.Legal.{Reaches, Legal};
ghost use Rattle.ca_meaning.specs.Sound.{Sound};
ghost use Rattle.ca_meaning.specs.History.{channel_in};
ghost use Rattle.ca_meaning.specs.ChannelLaw.{ChannelLaw};

/// What holds of the state of every legal journal: no channel holds more than its capacity; where a task
/// waits to take nothing is held, but in a promise, and no put waits on a fixed buffer; no held value is
/// nil; tasks wait exactly on the waits that they own.
pub fn every_state_is_sound()
    ensures { (program : ProgramView) (journal : List EventView) (s : State) → Reaches program journal s → Sound s }
{}

/// A channel of the state is what the journal tells of it.
pub fn channels_are_told()
    ensures { (program : ProgramView) (journal : List EventView) (s : State) (p : ℕ) → Reaches program journal s → s.channels p ≡ channel_in p journal }
{}

/// The channel law.
pub fn channels_keep_order()
    ensures { (program : ProgramView) (journal : List EventView) → Legal program journal → ChannelLaw journal }
{}
