ghost use Rattle.std.specs.Prelude.{◌≡◌, ◌≢◌, ℕ, List, Some};
ghost use Rattle.ca_term.specs.Program.{ProgramView, IsProgram, known_in};
ghost use Rattle.ca_term.specs.Fits.{Suits};
ghost use Rattle.ca_term.specs.Event.{EventView};
ghost use Rattle.ca_meaning.specs.Body.{BodyView, at, nowhere};
ghost use Rattle.ca_meaning.specs.IsBody.{IsBodyBy};
ghost use Rattle.ca_meaning.specs.Task.{script};
ghost use Rattle.ca_meaning.specs.State.{State, Task};
ghost use Rattle.ca_meaning.specs.Legal.{Reaches};

/// In the state of every legal journal of a checked program each task of a script's text has a body of that
/// program: no name in it is free, each recur stands in its loop, and all that it names is there. It never
/// stands nowhere.
pub fn bodies_are_of_their_program()
    ensures of { (program : ProgramView) (checked : IsProgram program) (journal : List EventView) (s : State) (t : ℕ) (x : Task) (b : BodyView) → Reaches program journal s → s.tasks t ≡ Some x → x.body ≡ script b → IsBodyBy (Suits (known_in checked.plain program)) b.term }
    ensures somewhere { (program : ProgramView) (journal : List EventView) (s : State) (t : ℕ) (x : Task) (b : BodyView) → IsProgram program → Reaches program journal s → s.tasks t ≡ Some x → x.body ≡ script b → at b ≢ nowhere }
{}
