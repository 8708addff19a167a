ghost use Rattle.std.specs.Prelude.{◌≡◌, ◌++◌, IfOk, OnOk};
ghost use Rattle.ca_value.specs.Seq.{list};
ghost use Rattle.ca_value.specs.Tree.{text};
ghost use Rattle.ca_value.specs.View.{view, views};
ghost use Rattle.ca_value.specs.Texts.{joined_text, str_text};

use crate::memory::OutOfMemory;
use crate::seq::Text;
use crate::value::{Items, Value};
use std::alloc::Global;

/// The texts of the arguments, joined: nil as nothing, a text as it is, others as they read.
#[inline(never)]
pub fn str(alloc: Global, args: Items) -> Result<Value, OutOfMemory>
    ensures { IfOk result (λ v. view v ≡ text (joined_text (views (list args)))) }
{
    Value::text(alloc, join(alloc, args.as_slice())?)
}

fn join(alloc: Global, args: &[Value]) -> Result<Text, OutOfMemory>
    ensures { IfOk result (λ t. list t ≡ joined_text (views args.now)) }
{
    let mut text = Text::new(alloc);
    text.reserve(bytes_of_texts(args))?;
    for value in args {
        append_str(value, &mut text)?;
    }
    Ok(text)
}

// How many bytes the texts among the arguments have: what is reserved at once.
fn bytes_of_texts(args: &[Value]) -> u64 {
    let mut bytes: u64 = 0;
    for value in args {
        if let Value::Text(text) = value {
            bytes = bytes.saturating_add(text.len());
        }
    }
    bytes
}

// Adds the text that the argument has in `str`; after a refusal a part of it may stand at the end.
fn append_str(value: &Value, into: &mut Text) -> Result<(), OutOfMemory>
    ensures { OnOk result (list into.new ≡ list into.old ++ str_text (view value.now)) }
{
    match value {
        Value::Nil => Ok(()),
        Value::Text(text) => into.append(text.as_slice()),
        _ => value.append_readable(into),
    }
}
