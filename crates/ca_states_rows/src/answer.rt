use crate::printing::blocks_text;
use crate::reading::code;
use crate::words::RowError;
use ca_moves::moves::moves;
use ca_states::validate::validate;
use std::alloc::Global;

/// What the call that the row names says of the row's code.
pub fn answer(alloc: Global, row: &str) -> Result<String, RowError> {
    let mut words = row.split_whitespace();
    let code = code(alloc, &mut words)?;
    let call = words.next().ok_or(RowError::Unreadable)?;
    match call.as_bytes() {
        b"moves" => {
            if let Some(moved) = moves(alloc, code)? {
                return blocks_text(alloc, moved.code());
            }
        }
        b"validate" => {
            if validate(code).is_ok() {
                return Ok(String::from_str(alloc, "valid")?);
            }
        }
        _ => return Err(RowError::Unreadable),
    }
    Ok(String::from_str(alloc, "invalid")?)
}
