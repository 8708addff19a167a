//! Values, by their readable text.
ghost use Rattle.std.specs.Prelude.{◌≡◌, ◌∷◌, ◌++◌, [], length, min, OnOk};
ghost use Rattle.ca_value.specs.Seq.{list};
ghost use Rattle.ca_value.specs.View.{view, views, pair_view, map_pairs};
ghost use Rattle.ca_value.specs.Maps.{put_pair};
ghost use Rattle.ca_journal_reader.specs.Found.{Finds, itself};
ghost use Rattle.ca_journal_reader.specs.ValueText.{signed, signed_in, integer_in, named_in, scalar_in, items_read, uncomma, pair_in, pairs_read, vector_in, map_in, value_by, value_read, value_field};

use crate::cursor::{Cursor, is_digit};
use crate::refused::Refused;
use ca_value::memory::OutOfMemory;
use ca_value::value::{Items, Map, Pair, Pairs, PortId, Value};
use std::alloc::Global;

/// How heavy a value is at the most.
pub(crate) const MOST_WEIGHT: u64 = 131_072;

/// How deep a value is at the most.
const MOST_DEPTH: u64 = 80;

/// How many pairs a map may have for sure.
const MOST_PAIRS: usize = 65_536;

impl<'a> Cursor<'a> {
    /// A value within the bounds, and a space behind it.
    pub(crate) fn value(&mut self, alloc: Global) -> Result<Value, Refused>
        ensures { Finds view result self.new.rest.now (value_field self.old.rest.now) }
    {
        let value = self.value_within(alloc, MOST_DEPTH)?;
        if value.room_after(MOST_WEIGHT).is_none() || !value.is_within_depth(MOST_DEPTH) {
            return Err(Refused::Bad);
        }
        self.skip_space();
        Ok(value)
    }

    /// A value at most so deep.
    #[cycle(value)]
    fn value_within(&mut self, alloc: Global, depth: u64) -> Result<Value, Refused>
        ensures { Finds view result self.new.rest.now (value_read depth self.old.rest.now) }
    {
        if depth == 0 {
            return Err(Refused::Bad);
        }
        let Some((byte, rest)) = self.rest.split_first() else {
            return Err(Refused::Bad);
        };
        if *byte == b'[' {
            self.rest = rest;
            return self.vector(alloc, depth - 1);
        }
        if *byte == b'{' {
            self.rest = rest;
            return self.map(alloc, depth - 1);
        }
        self.scalar(alloc, *byte)
    }

    /// A vector behind its opening bracket.
    #[cycle(value)]
    fn vector(&mut self, alloc: Global, depth: u64) -> Result<Value, Refused>
        ensures { Finds view result self.new.rest.now (vector_in (value_read depth) self.old.rest.now) }
    {
        let items = self.items(alloc, depth)?;
        Ok(Value::vector(alloc, items)?)
    }

    /// The items of a vector, up to its closing bracket.
    #[cycle(value)]
    fn items(&mut self, alloc: Global, depth: u64) -> Result<Items, Refused>
        ensures { Finds (λ vs. views (list vs)) result self.new.rest.now (items_read (value_read depth) (length self.old.rest.now) [] self.old.rest.now) }
    {
        let mut items = Items::new(alloc);
        for _ in 0..self.rest.len() {
            self.skip_space();
            if self.is_at(b']') {
                self.skip();
                return Ok(items);
            }
            let value = self.value_within(alloc, depth)?;
            add_item(&mut items, value)?;
        }
        Err(Refused::Bad)
    }

    /// A map behind its opening bracket.
    #[cycle(value)]
    fn map(&mut self, alloc: Global, depth: u64) -> Result<Value, Refused>
        ensures { Finds view result self.new.rest.now (map_in (value_read depth) self.old.rest.now) }
    {
        let pairs = self.pairs(alloc, depth)?;
        Ok(Value::Map(pairs))
    }

    /// The pairs of a map, up to its closing bracket.
    #[cycle(value)]
    fn pairs(&mut self, alloc: Global, depth: u64) -> Result<Map, Refused>
        ensures { Finds map_pairs result self.new.rest.now (pairs_read (value_read depth) (min (length self.old.rest.now) 65536) [] self.old.rest.now) }
    {
        let mut map = Map::of(alloc, Pairs::new(alloc))?;
        for _ in 0..self.rest.len().min(MOST_PAIRS) {
            self.skip_comma();
            if self.is_at(b'}') {
                self.skip();
                return Ok(map);
            }
            let pair = self.pair(alloc, depth)?;
            add_pair(alloc, &mut map, pair)?;
        }
        Err(Refused::Bad)
    }

    /// A key and its value.
    #[cycle(value)]
    fn pair(&mut self, alloc: Global, depth: u64) -> Result<Pair, Refused>
        ensures { Finds pair_view result self.new.rest.now (pair_in (value_read depth) self.old.rest.now) }
    {
        let key = self.value_within(alloc, depth)?;
        self.skip_space();
        let value = self.value_within(alloc, depth)?;
        Ok(Pair::new(key, value))
    }

    /// Passes over a comma and the space behind it, where they stand in front.
    pub(crate) fn skip_comma(&mut self)
        ensures { self.new.rest.now ≡ uncomma self.old.rest.now }
    {
        if self.is_at(b',') {
            self.skip();
            self.skip_space();
        }
    }

    /// A value that is no vector and no map, and begins with this byte.
    fn scalar(&mut self, alloc: Global, byte: u8) -> Result<Value, Refused>
        ensures { Finds view result self.new.rest.now (scalar_in byte self.old.rest.now) }
    {
        if is_digit(byte) || byte == b'-' {
            return self.integer();
        }
        if byte == b'"' {
            self.skip();
            return self.text(alloc);
        }
        if byte == b':' {
            self.skip();
            return self.key(alloc);
        }
        self.named(byte)
    }

    /// One of the words for a value, or a port, that begins with this byte.
    fn named(&mut self, byte: u8) -> Result<Value, Refused>
        ensures { Finds view result self.new.rest.now (named_in byte self.old.rest.now) }
    {
        if byte == b'n' {
            self.pass(b"nil")?;
            return Ok(Value::Nil);
        }
        if byte == b't' {
            self.pass(b"true")?;
            return Ok(Value::Bool(true));
        }
        if byte == b'f' {
            self.pass(b"false")?;
            return Ok(Value::Bool(false));
        }
        self.pass(b"#port ")?;
        let n = self.number()?;
        Ok(Value::Port(PortId { n }))
    }

    /// An integer, with its sign.
    fn integer(&mut self) -> Result<Value, Refused>
        ensures { Finds view result self.new.rest.now (integer_in self.old.rest.now) }
    {
        if self.is_at(b'-') {
            self.skip();
            return self.signed(true);
        }
        self.signed(false)
    }

    /// The integer of this sign and the magnitude in front.
    fn signed(&mut self, is_negative: bool) -> Result<Value, Refused>
        ensures { Finds view result self.new.rest.now (signed_in is_negative self.old.rest.now) }
    {
        let number = self.number()?;
        match signed(is_negative, number) {
            Some(number) => Ok(Value::Int(number)),
            None => Err(Refused::Bad),
        }
    }
}

/// The number with its sign, where 64 bits hold it.
fn signed(is_negative: bool, number: u64) -> Option<i64>
    ensures { result ≡ signed is_negative number }
{
    const LEAST: u64 = 1 << 63;
    if number < LEAST {
        let number = number as i64;
        Some(if is_negative { -number } else { number })
    } else if is_negative && number == LEAST {
        Some(i64::MIN)
    } else {
        None
    }
}

/// Adds the item last.
pub(crate) fn add_item(items: &mut Items, value: Value) -> Result<(), OutOfMemory>
    ensures { OnOk result (views (list items.new) ≡ views (list items.old) ++ view value ∷ []) }
{
    items.reserve(1)?;
    items.push(value);
    Ok(())
}

/// Sets the value of the pair's key.
fn add_pair(alloc: Global, map: &mut Map, pair: Pair) -> Result<(), OutOfMemory>
    ensures { let p = pair_view pair in OnOk result (map_pairs map.new ≡ put_pair (map_pairs map.old) p.0 p.1) }
{
    let (key, value) = pair.into_parts();
    map.put(alloc, key, value)
}
