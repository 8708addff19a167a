ghost use Rattle.std.specs.Prelude.{◌≡◌, ◌∷◌, ◌++◌, OnOk, IfOk};
ghost use Rattle.ca_value.specs.Seq.{list};
ghost use Rattle.ca_value.specs.View.{view, pair_view, pairs_view, trees, vector_trees, map_pairs};
ghost use Rattle.ca_value.specs.Tree.{trees_of, pairs_of};
ghost use Rattle.ca_value.specs.Printed.{plain_text, readable_text, printed_text, printed_value, printed_items, printed_pairs, quoted, escaped};

use crate::memory::OutOfMemory;
use crate::seq::{Seq, Text};
use crate::value::{Map, Pair, Pairs, Spine, Table, Value, Vector};
use std::alloc::Global;

/// How texts stand in a printed value: as they are, or readably, in quotes and with their escapes.
#[derive(Clone, Copy)]
pub enum Style {
    Plain,
    Readable,
}

impl Value {
    /// The text that `println` writes: nested texts stand without quotes.
    pub fn print_plain(&self, alloc: Global) -> Result<Text, OutOfMemory>
        ensures { IfOk result (λ t. list t ≡ plain_text (view self.now)) }
    {
        self.print(alloc, Style::Plain)
    }

    /// The text in which each text stands in quotes, with its escapes.
    pub fn print_readable(&self, alloc: Global) -> Result<Text, OutOfMemory>
        ensures { IfOk result (λ t. list t ≡ readable_text (view self.now)) }
    {
        self.print(alloc, Style::Readable)
    }

    /// Appends the plain text; after a refusal a part of it may stand at the end.
    pub fn append_plain(&self, into: &mut Text) -> Result<(), OutOfMemory>
        ensures { OnOk result (list into.new ≡ list into.old ++ plain_text (view self.now)) }
    {
        self.append(Style::Plain, into)
    }

    /// Appends the readable text; after a refusal a part of it may stand at the end.
    pub fn append_readable(&self, into: &mut Text) -> Result<(), OutOfMemory>
        ensures { OnOk result (list into.new ≡ list into.old ++ readable_text (view self.now)) }
    {
        self.append(Style::Readable, into)
    }

    fn print(&self, alloc: Global, style: Style) -> Result<Text, OutOfMemory>
        ensures { IfOk result (λ t. list t ≡ printed_value style (view self.now)) }
    {
        let mut text = Text::new(alloc);
        self.append(style, &mut text)?;
        Ok(text)
    }

    #[cycle(printed)]
    fn append(&self, style: Style, into: &mut Text) -> Result<(), OutOfMemory>
        ensures { OnOk result (list into.new ≡ list into.old ++ printed_value style (view self.now)) }
    {
        match self {
            Value::Nil => into.append(b"nil"),
            Value::Bool(true) => into.append(b"true"),
            Value::Bool(false) => into.append(b"false"),
            Value::Int(n) => into.append(itoa::Buffer::new().format(*n).as_bytes()),
            Value::Text(text) => into.append_text(style, text.as_slice()),
            Value::Key(text) => {
                into.append(b":")?;
                into.append(text.as_slice())
            }
            Value::Vector(items) => {
                into.append(b"[")?;
                items.append_values(style, into)?;
                into.append(b"]")
            }
            Value::Map(pairs) => {
                into.append(b"{")?;
                pairs.append_pairs(style, into)?;
                into.append(b"}")
            }
            Value::Port(port) => {
                into.append(b"#port ")?;
                into.append(itoa::Buffer::new().format(port.n).as_bytes())
            }
        }
    }
}

impl Vector {
    // The items, joined by a space.
    #[cycle(printed)]
    fn append_values(&self, style: Style, into: &mut Text) -> Result<(), OutOfMemory>
        ensures { OnOk result (list into.new ≡ list into.old ++ printed_items style (trees_of (vector_trees self.now))) }
    {
        let spine: &Spine = &self.spine;
        spine.items.append_values(style, into)
    }
}

impl Map {
    // The pairs, joined by a comma and a space.
    #[cycle(printed)]
    fn append_pairs(&self, style: Style, into: &mut Text) -> Result<(), OutOfMemory>
        ensures { OnOk result (list into.new ≡ list into.old ++ printed_pairs style (pairs_of (map_pairs self.now))) }
    {
        let table: &Table = &self.table;
        table.pairs.append_pairs(style, into)
    }
}

impl Seq<Value> {
    // The items, joined by a space.
    #[cycle(printed)]
    fn append_values(&self, style: Style, into: &mut Text) -> Result<(), OutOfMemory>
        ensures { OnOk result (list into.new ≡ list into.old ++ printed_items style (trees (list self.now))) }
    {
        let Some((first, rest)) = self.as_slice().split_first() else {
            return Ok(());
        };
        first.append(style, into)?;
        for value in rest {
            into.append(b" ")?;
            value.append(style, into)?;
        }
        Ok(())
    }
}

impl Pairs {
    // The pairs, joined by a comma and a space.
    #[cycle(printed)]
    fn append_pairs(&self, style: Style, into: &mut Text) -> Result<(), OutOfMemory>
        ensures { OnOk result (list into.new ≡ list into.old ++ printed_pairs style (pairs_view self.now)) }
    {
        let Some((first, rest)) = self.as_slice().split_first() else {
            return Ok(());
        };
        first.append(style, into)?;
        for pair in rest {
            into.append(b", ")?;
            pair.append(style, into)?;
        }
        Ok(())
    }
}

impl Pair {
    // The key, a space and the value.
    #[cycle(printed)]
    fn append(&self, style: Style, into: &mut Text) -> Result<(), OutOfMemory>
        ensures { let p = pair_view self.now in OnOk result (list into.new ≡ list into.old ++ (printed_value style p.0 ++ (32 ∷ printed_value style p.1))) }
    {
        self.key.append(style, into)?;
        into.append(b" ")?;
        self.value.append(style, into)
    }
}

impl Seq<u8> {
    // A text, as it stands in that style.
    fn append_text(&mut self, style: Style, bytes: &[u8]) -> Result<(), OutOfMemory>
        ensures { OnOk result (list self.new ≡ list self.old ++ printed_text style bytes.now) }
    {
        match style {
            Style::Plain => self.append(bytes),
            Style::Readable => self.append_quoted(bytes),
        }
    }

    /// Adds the bytes between quotes, with their escapes; after a refusal a part of it may stand at the end.
    pub fn append_quoted(&mut self, bytes: &[u8]) -> Result<(), OutOfMemory>
        ensures { OnOk result (list self.new ≡ list self.old ++ quoted bytes.now) }
    {
        self.append(b"\"")?;
        for byte in bytes {
            self.append_escaped(*byte)?;
        }
        self.append(b"\"")
    }

    // A byte as it stands between quotes.
    fn append_escaped(&mut self, byte: u8) -> Result<(), OutOfMemory>
        ensures { OnOk result (list self.new ≡ list self.old ++ escaped byte) }
    {
        match byte {
            b'"' => self.append(b"\\\""),
            b'\\' => self.append(b"\\\\"),
            b'\n' => self.append(b"\\n"),
            b'\t' => self.append(b"\\t"),
            b'\r' => self.append(b"\\r"),
            _ => self.append(&[byte]),
        }
    }
}
