//! Worked rows of the builtins: each line of the input is a form, as `(+ 1 2)`, and its line of the output
//! is what that comes to: the value's readable text, or the name of its fault, or `arity`.
//!
//! Empty lines and comments are written as they stand, so the lines of both files go together. A row is
//! added by writing a line into each: what Clojure answers, never what this program did. Stands on
//! `ca_reader`, with no claim of its own; start with `value_of`.
#![tactic(auto)]

mod answer;
mod form;

use std::{io, str};

fn main(rt: HostRuntime) -> io::Result<()> {
    for line in rt.lines(rt.alloc()) {
        let line = line?;
        if line.as_str().is_empty() || line.as_str().starts_with(";") {
            println!(rt; "{line}")?;
            continue;
        }
        let answer = answer::answer_text(rt.alloc(), line.as_str().as_bytes())?;
        match str::from_utf8(answer.as_slice()) {
            Ok(text) => println!(rt; "{text}")?,
            Err(_) => println!(rt; "no text")?,
        }
    }
    Ok(())
}
