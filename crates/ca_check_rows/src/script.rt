use std::alloc::{AllocError, Global};

/// The script that the line writes: a `|` is a line feed, and `@N TEXT@` is TEXT, N times.
pub fn script_of(alloc: Global, line: &str) -> Result<Vec<u8>, AllocError> {
    let mut script = Vec::new(alloc);
    let mut repeats = false;
    for piece in line.split('@') {
        if repeats {
            let (count, text) = piece.split_once(" ").unwrap_or(("0", ""));
            let count: u64 = count.parse().unwrap_or(0);
            for number in 0..count {
                append(&mut script, text, number)?;
            }
        } else {
            append(&mut script, piece, 0)?;
        }
        repeats = !repeats;
    }
    Ok(script)
}

// The text's bytes, each `#` being the number.
fn append(script: &mut Vec<u8>, text: &str, number: u64) -> Result<(), AllocError> {
    for byte in text.as_bytes() {
        if *byte == b'|' {
            script.push(b'\n')?;
        } else if *byte == b'#' {
            script.extend_from_slice(itoa::Buffer::new().format(number).as_bytes())?;
        } else {
            script.push(*byte)?;
        }
    }
    Ok(())
}
