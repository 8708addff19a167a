//! Numbers in words: one to seven decimal digits, in a range.

ghost use Rattle.std.specs.List.{list_all};
ghost use Rattle.std.specs.Prelude.{◌≡◌, option_map, option_to_list};
ghost use Rattle.ca_words.specs.Words.{is_decimal_digit, is_number, number_asked, setting};

/// The number that an option was given, or the one that stands for it where it wasn't given; None where the text is
/// no number from `least` to `most`.
pub fn setting(text: Option<&str>, default: u64, least: u64, most: u64) -> Option<u64>
    ensures { result ≡ setting default least most (option_to_list (option_map (λ s. s.now) text.entry)) }
{
    match text {
        Some(text) => number_of(text, least, most),
        None => Some(default),
    }
}

/// The number that a text writes, where it is from `least` to `most`.
pub fn number_of(text: &str, least: u64, most: u64) -> Option<u64>
    ensures { result ≡ number_asked least most text.now }
{
    if !is_number(text) {
        return None;
    }
    let n = text.parse::<u64>().ok()?;
    if least <= n && n <= most {
        Some(n)
    } else {
        None
    }
}

fn is_number(text: &str) -> bool
    ensures { result ≡ is_number text.now }
{
    1 <= text.len() && text.len() <= 7 && are_digits(text.as_bytes())
}

fn are_digits(bytes: &[u8]) -> bool
    ensures { result ≡ list_all is_decimal_digit bytes.now }
{
    for byte in bytes {
        if !(b'0' <= *byte && *byte <= b'9') {
            return false;
        }
    }
    true
}
