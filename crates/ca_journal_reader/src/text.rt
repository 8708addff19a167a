//! Texts and keywords.
ghost use Rattle.std.specs.Prelude.{◌≡◌, ◌≤◌, [], length};
ghost use Rattle.std.specs.List.{prefix_len};
ghost use Rattle.ca_value.specs.Seq.{list};
ghost use Rattle.ca_value.specs.View.{view};
ghost use Rattle.ca_value.specs.IsValue.{is_keyword_byte};
ghost use Rattle.ca_journal_reader.specs.Found.{Finds};
ghost use Rattle.ca_journal_reader.specs.ValueText.{unescaped, text_from, text_in, key_in};

use crate::cursor::Cursor;
use crate::refused::Refused;
use ca_value::seq::Text;
use ca_value::value::Value;
use std::alloc::Global;

impl<'a> Cursor<'a> {
    /// The bytes of a text up to its closing quote.
    pub(crate) fn quoted(&mut self, alloc: Global) -> Result<Text, Refused>
        ensures { Finds list result self.new.rest.now (text_from [] self.old.rest.now) }
    {
        let mut said = Text::new(alloc);
        'bytes: loop {
            let Some((byte, behind)) = self.rest.split_first() else {
                return Err(Refused::Bad);
            };
            if *byte == b'"' {
                self.rest = behind;
                return Ok(said);
            }
            let Some((second, further)) = behind.split_first() else {
                return Err(Refused::Bad);
            };
            if *byte == b'\\' {
                said.append(&[unescaped(*second)])?;
                self.rest = further;
            } else {
                said.append(&[*byte])?;
                self.rest = behind;
            }
        }
    }

    /// A text behind its opening quote.
    pub(crate) fn text(&mut self, alloc: Global) -> Result<Value, Refused>
        ensures { Finds view result self.new.rest.now (text_in self.old.rest.now) }
    {
        let said = self.quoted(alloc)?;
        Ok(Value::text(alloc, said)?)
    }

    /// A keyword behind its colon.
    pub(crate) fn key(&mut self, alloc: Global) -> Result<Value, Refused>
        ensures { Finds view result self.new.rest.now (key_in self.old.rest.now) }
    {
        let (name, rest) = self.rest.split_at(keyword_len(self.rest));
        if name.is_empty() {
            return Err(Refused::Bad);
        }
        self.rest = rest;
        let name = Text::from_bytes(alloc, name)?;
        Ok(Value::key(alloc, name)?)
    }
}

/// The byte that an escape stands for.
fn unescaped(byte: u8) -> u8
    ensures { result ≡ unescaped byte }
{
    match byte {
        b'n' => b'\n',
        b't' => b'\t',
        b'r' => b'\r',
        byte => byte,
    }
}

fn keyword_len(rest: &[u8]) -> usize
    ensures length { result ≡ prefix_len is_keyword_byte rest.now }
    ensures within { result ≤ length rest.now }
{
    for (index, byte) in rest.iter().enumerate() {
        if !is_keyword_byte(*byte) {
            return index;
        }
    }
    rest.len()
}

fn is_keyword_byte(byte: u8) -> bool
    ensures { result ≡ is_keyword_byte byte }
{
    match byte {
        b'a'..=b'z' | b'A'..=b'Z' | b'0'..=b'9' => true,
        b'*' | b'+' | b'!' | b'-' | b'_' | b'?' | b'<' | b'>' => true,
        b'=' | b'&' | b'%' | b'$' | b'.' | b'/' => true,
        _ => false,
    }
}
