//! Worked rows of the checker: each line of the input is a script, and its line of the output is `ok`, or the
//! first error with its place, as a runner prints it.
//!
//! A `|` in a script stands for a line feed, and `@N TEXT@` for TEXT, N times; each `#` in TEXT is the number of
//! the time, counted from 0. Empty lines and comments are written as they stand, so the lines of both files go
//! together. A row is added by writing a line into each: what the language's rules say, never what this program
//! did. Stands on `ca_check`, with no claim of its own; start with `answer_text`.
#![tactic(auto)]

mod answer;
mod script;

use std::io;

fn main(rt: HostRuntime) -> io::Result<()> {
    for line in rt.lines(rt.alloc()) {
        let line = line?;
        if line.as_str().is_empty() || line.as_str().starts_with(";") {
            println!(rt; "{line}")?;
            continue;
        }
        let answer = answer::answer_text(rt.alloc(), line.as_str())?;
        println!(rt; "{answer}")?;
    }
    Ok(())
}
