ghost use Rattle.std.specs.Prelude.{◌≡◌, ◌++◌, IfOk};
ghost use Rattle.ca_value.specs.Seq.{list};
ghost use Rattle.ca_value.specs.Tree.{text};
ghost use Rattle.ca_value.specs.Printed.{plain_text, plain_more};
ghost use Rattle.ca_term.specs.Asking.{too_large, line_of};
ghost use Rattle.ca_asking.specs.Asked.{trees_by};

use crate::operands::AsOperand;
use crate::room::room_after_operands;
use ca_term::fault::Fault;
use ca_value::memory::OutOfMemory;
use ca_value::seq::Text;
use ca_value::value::Value;
use std::alloc::Global;

// A line with its line feed weighs, as a text, at most 65,536: two more than its values' bytes.
const GREATEST_LENGTH: u64 = 65_534;

// The values' plain texts joined by a space, and a line feed.
pub(crate) fn line<O: AsOperand>(alloc: Global, values: &[O]) -> Result<Text, OutOfMemory>
    ensures { IfOk result (λ t. list t ≡ line_of (trees_by O.tree values.now)) }
{
    let nil = Value::Nil;
    let mut text = Text::new(alloc);
    if let Some((first, rest)) = values.split_first() {
        first.value(&nil).append_plain(&mut text)?;
        for value in rest {
            text.append(b" ")?;
            value.value(&nil).append_plain(&mut text)?;
        }
    }
    text.append(b"\n")?;
    Ok(text)
}

/// The fault of a line that is too long, told without its text.
pub fn line_fault<O: AsOperand>(values: &[O]) -> Option<Fault>
    ensures { result ≡ too_large (text (line_of (trees_by O.tree values.now))) }
{
    match room_after_operands(values, GREATEST_LENGTH) {
        None => Some(Fault::TooHeavy),
        Some(_) => None,
    }
}
