//! The command that the first word names, and which words clap may read behind it.

ghost use Rattle.std.specs.List.{list_all};
ghost use Rattle.std.specs.Prelude.{◌≡◌, map, string_bytes};
ghost use Rattle.std.specs.Str.{bytes_eq};
ghost use Rattle.ca_words.specs.Reading.{is_open_word, command_name, name_told};

/// The names of commands.
#[derive(Clone, Copy)]
pub enum Name {
    Run,
    Check,
    Load,
    Replay,
    Follow,
    Report,
}

/// The command that the words name, or None where they name none or one of the others is not for clap to read.
pub fn name_in(words: &[String]) -> Option<Name>
    ensures { result ≡ command_name (map string_bytes words.now) }
{
    match words {
        [first, rest @ ..] if are_open(rest) => name_of(first.as_str()),
        _ => None,
    }
}

// The command that a word names.
fn name_of(word: &str) -> Option<Name>
    ensures { result ≡ name_told word.now }
{
    if is_word(word, "run") {
        Some(Name::Run)
    } else if is_word(word, "check") {
        Some(Name::Check)
    } else if is_word(word, "load") {
        Some(Name::Load)
    } else if is_word(word, "replay") {
        Some(Name::Replay)
    } else if is_word(word, "follow") {
        Some(Name::Follow)
    } else if is_word(word, "report") {
        Some(Name::Report)
    } else {
        None
    }
}

fn is_word(word: &str, name: &str) -> bool
    ensures { result ≡ bytes_eq word.now name.now }
{
    word == name
}

fn are_open(words: &[String]) -> bool
    ensures { result ≡ list_all is_open_word (map string_bytes words.now) }
{
    for word in words {
        if !is_open(word.as_str()) {
            return false;
        }
    }
    true
}

// The word is not `--`, behind which clap takes all words as they are, and doesn't begin with a single `-`, behind
// which it looks for short options.
fn is_open(word: &str) -> bool
    ensures { result ≡ is_open_word word.now }
{
    match word.as_bytes() {
        [b'-', b'-', _, ..] => true,
        [b'-', ..] => false,
        _ => true,
    }
}
