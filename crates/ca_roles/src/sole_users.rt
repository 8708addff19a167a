ghost use Rattle.std.specs.Prelude.{List};
ghost use Rattle.ca_term.specs.Program.{ProgramView, IsProgram};
ghost use Rattle.ca_term.specs.Event.{EventView};
ghost use Rattle.ca_meaning.specs.State.{State};
ghost use Rattle.ca_meaning.specs.Legal.{Reaches};
ghost use Rattle.ca_roles.specs.Sealed.{IsSealed};
ghost use Rattle.ca_roles.specs.Once.{StartsOnce};
ghost use Rattle.ca_roles.specs.SoleUsers.{AreSole, ComeFirst};

/// No two feeds have a queue of reply ports in common, no two collects have, and no two mults have a channel of answers
/// in common. Where a task is about to start one, there is none yet.
pub fn ports_have_sole_users()
    ensures sole { (program : ProgramView) → IsProgram program → IsSealed program → StartsOnce program → (journal : List EventView) (s : State) → Reaches program journal s → AreSole s }
    ensures first { (program : ProgramView) → IsProgram program → IsSealed program → StartsOnce program → (journal : List EventView) (s : State) → Reaches program journal s → ComeFirst program s }
{}
