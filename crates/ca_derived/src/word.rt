ghost use Rattle.std.specs.Prelude.{◌≡◌};
ghost use Rattle.ca_derived.specs.Words.{word};

/// The six words whose lists stand for other forms.
#[derive(Clone, Copy)]
pub enum Word {
    /// `alt!`.
    Choose,
    /// `alt!!`.
    ChooseBlocking,
    Reduce,
    Into,
    Split,
    Take,
}

impl Word {
    /// The word of that name.
    pub fn named(name: &[u8]) -> Option<Word>
        ensures { result ≡ word name.now }
    {
        if name == b"alt!".as_slice() {
            Some(Word::Choose)
        } else if name == b"alt!!".as_slice() {
            Some(Word::ChooseBlocking)
        } else if name == b"reduce".as_slice() {
            Some(Word::Reduce)
        } else if name == b"into".as_slice() {
            Some(Word::Into)
        } else if name == b"split".as_slice() {
            Some(Word::Split)
        } else if name == b"take".as_slice() {
            Some(Word::Take)
        } else {
            None
        }
    }
}
