//! What is left to read of a journal: bytes, words and numbers in front of it.
ghost use Rattle.std.specs.Prelude.{◌≡◌, ◌^◌, ◌≤◌, None, IfSome, drop, length};
ghost use Rattle.std.specs.List.{prefix_len};
ghost use Rattle.ca_journal_reader.specs.Found.{Found, Finds, itself};
ghost use Rattle.ca_journal_reader.specs.Words.{is_digit_byte, is_first, is_word_byte, number_from, number_in, unspaced, byte_in, word_behind, word_in, decimal_in, numbered_in};

use crate::refused::Refused;

/// The bytes that are left.
pub(crate) struct Cursor<'a> {
    pub(crate) rest: &'a [u8],
}

pub(crate) fn is_digit(byte: u8) -> bool
    ensures { result ≡ is_digit_byte byte }
{
    matches!(byte, b'0'..=b'9')
}

impl<'a> Cursor<'a> {
    /// Whether this byte stands in front.
    pub(crate) fn is_at(&self, byte: u8) -> bool
        ensures { result ≡ is_first byte self.now.rest.now }
    {
        match self.rest.first() {
            Some(first) => *first == byte,
            None => false,
        }
    }

    /// Passes over a byte, where one is left.
    pub(crate) fn skip(&mut self)
        ensures { self.new.rest.now ≡ drop 1 self.old.rest.now }
    {
        if let Some((_, rest)) = self.rest.split_first() {
            self.rest = rest;
        }
    }

    /// Passes over a space, where one stands in front.
    pub(crate) fn skip_space(&mut self)
        ensures { self.new.rest.now ≡ unspaced self.old.rest.now }
    {
        if self.is_at(b' ') {
            self.skip();
        }
    }

    /// Passes over this byte.
    pub(crate) fn byte(&mut self, byte: u8) -> Result<(), Refused>
        ensures { Finds itself result self.new.rest.now (byte_in byte self.old.rest.now) }
    {
        if !self.is_at(byte) {
            return Err(Refused::Bad);
        }
        self.skip();
        Ok(())
    }

    /// Passes over this word.
    pub(crate) fn pass(&mut self, word: &[u8]) -> Result<(), Refused>
        ensures { Finds itself result self.new.rest.now (word_behind word.now self.old.rest.now) }
    {
        let rest = self.rest;
        if rest.len() < word.len() {
            return Err(Refused::Bad);
        }
        for place in 0..word.len() {
            if word[place] != rest[place] {
                return Err(Refused::Bad);
            }
        }
        self.rest = &rest[word.len()..];
        Ok(())
    }

    /// The number in front, of 64 bits.
    pub(crate) fn number(&mut self) -> Result<u64, Refused>
        ensures { Finds itself result self.new.rest.now (number_in self.old.rest.now) }
    {
        let Some((number, rest)) = number_of(self.rest) else {
            return Err(Refused::Bad);
        };
        self.rest = rest;
        Ok(number)
    }

    /// The number in front, and a space behind it.
    pub(crate) fn decimal(&mut self) -> Result<u64, Refused>
        ensures { Finds itself result self.new.rest.now (decimal_in self.old.rest.now) }
    {
        let number = self.number()?;
        self.skip_space();
        Ok(number)
    }

    /// A number behind this letter, and a space behind it.
    pub(crate) fn numbered(&mut self, letter: u8) -> Result<u64, Refused>
        ensures { Finds itself result self.new.rest.now (numbered_in letter self.old.rest.now) }
    {
        self.byte(letter)?;
        self.decimal()
    }

    /// The bytes up to a space or a line feed, and a space behind them.
    pub(crate) fn word(&mut self) -> &'a [u8]
        ensures { (result.now, self.new.rest.now) ≡ word_in self.old.rest.now }
    {
        let (word, rest) = self.rest.split_at(word_len(self.rest));
        self.rest = rest;
        self.skip_space();
        word
    }
}

fn word_len(rest: &[u8]) -> usize
    ensures length { result ≡ prefix_len is_word_byte rest.now }
    ensures within { result ≤ length rest.now }
{
    for (index, byte) in rest.iter().enumerate() {
        if *byte == b' ' || *byte == b'\n' {
            return index;
        }
    }
    rest.len()
}

fn number_of(text: &[u8]) -> Option<(u64, &[u8])>
    ensures some { IfSome result (λ r. (r.0, r.1.now) ≡ number_from 0 text.now) }
    ensures none { result ≡ None → 2 ^ 64 ≤ (number_from 0 text.now).0 }
{
    let mut value: u64 = 0;
    for place in 0..text.len() {
        let byte = text[place];
        if !is_digit(byte) {
            return Some((value, &text[place..]));
        }
        value = value.checked_mul(10)?.checked_add((byte - 48) as u64)?;
    }
    Some((value, &text[text.len()..]))
}
