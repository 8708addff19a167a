ghost use Rattle.std.specs.Prelude.{◌≡◌, []};
ghost use Rattle.ca_value.specs.IsValue.{written};
ghost use Rattle.ca_reader.specs.Form.{FormTrees};
ghost use Rattle.ca_reader.specs.Written.{AreWritten, HaveScalars};
ghost use Rattle.ca_derived.specs.Outcome.{made};
ghost use Rattle.ca_derived.specs.Expand.{expand};
ghost use Rattle.ca_derived.specs.Hidden.{AllBound};

/// What a script's forms are expanded to binds each hidden name that it uses. So derived forms may stand in one another in
/// any way: no part of one uses a name of the other.
pub fn expanded_forms_bind_their_names()
    ensures { (fs : FormTrees) (gs : FormTrees) → AreWritten fs → expand fs ≡ made gs → AllBound gs [] }
{}

/// Where each integer of a script's forms lies in 64 bits and each keyword is one, so it is with what they are expanded to.
pub fn expanded_forms_keep_their_scalars()
    ensures { (fs : FormTrees) (gs : FormTrees) → HaveScalars written fs → expand fs ≡ made gs → HaveScalars written gs }
{}
