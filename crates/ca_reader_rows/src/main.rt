//! Worked rows of the reader: each line of the input is what is asked of a script, `: ` and the script; its line of the
//! output is the answer.
//!
//! `read` answers the script's forms, each with its place behind it, with `#` before a number and `'` before a symbol, or
//! the first error with its place. `print` answers what printing writes of the forms. `again` answers `same` where what
//! was printed reads as the same forms. A byte outside printed ASCII is `%` and its two hexadecimal digits, in both files.
//! Empty lines and comments are written as they stand, so the lines of both files go together. A row is added by writing a
//! line into each: what the grammar's rules say, never what this program did. Stands on `ca_reader`, with no claim of its
//! own; start with `answer_text`.
#![tactic(auto)]

mod answer;
mod describe;

use std::io;

fn main(rt: HostRuntime) -> io::Result<()> {
    for line in rt.lines(rt.alloc()) {
        let line = line?;
        if line.as_str().is_empty() || line.as_str().starts_with(";") {
            println!(rt; "{line}")?;
            continue;
        }
        let answer = answer::answer_text(rt.alloc(), line.as_str())?;
        println!(rt; "{answer}")?;
    }
    Ok(())
}
