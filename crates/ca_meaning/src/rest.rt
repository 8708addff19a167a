ghost use Rattle.std.specs.Prelude.{◌≡◌};
ghost use Rattle.ca_term.specs.Program.{ProgramView};
ghost use Rattle.ca_meaning.specs.Body.{BodyView};
ghost use Rattle.ca_meaning.specs.Rest.{Rest};

/// The two laws of local steps: each body comes to rest, and in one way alone.
pub fn each_body_rests_once()
    ensures rests { (program : ProgramView) (b : BodyView) → (c : BodyView) × Rest program b c }
    ensures once { (program : ProgramView) (b : BodyView) → (c : BodyView) → (d : BodyView) → Rest program b c → Rest program b d → c ≡ d }
{}
