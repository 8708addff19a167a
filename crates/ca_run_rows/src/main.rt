//! Worked rows of whole scripts: each line of the input has the words, devices that fail where it says so,
//! and a script; its line of the output has the exit status, `+` where a journal is handed back or `-`, and the text that
//! was written.
//!
//! `run: (println 1)` asks for a run; `|` in a script stands for a line feed. `piece=N` lets the devices give and take N
//! bytes at most at once; `read=N`, `write=N` and `wait=N` make that call of the source, the sink or the clock fail, counted
//! from 0. The clock is one in memory, which stands until it is waited for; `rise=N` has it rise by N at each look, and
//! `askings` has the answer tell how often it was asked. `spaces=N` puts N spaces behind the script. `cuts` cuts the script
//! after each of its bytes: the answer has each answer that differs from that of a byte less, behind the number of bytes.
//!
//! What no contract can speak of is shown by two workers that are held at gates: `gate=both` holds whoever passes first until
//! the other has passed too, so both work; `gate=held` holds one until the other has picked and advanced tasks, so one goes
//! on while the other stands; `gate=disjoint` has one worker make events while the other holds all banks and shards but one,
//! so an event needs the parts that it touches alone. The answer says whether a wait at the gate was given up, which a test
//! fails by. `slow` has the clock take milliseconds to tell the moment, and `runs=N` runs the script N times: the answer has
//! each that differs from the one before it, behind its number.
//!
//! The journal of each run is judged by `replay` beside its script: the answer tells what that writes, behind `replay`, where
//! it isn't that the journal is legal and stands as the run ended; and what `follow` writes, behind `follow`, where it isn't
//! the run's output. `unjudged` leaves both out, where a script takes very many turns.
//! `replay: SCRIPT|;;; journal|LINES` is a row of its own, and so is one of `follow` or `report`.
//!
//! Empty lines and comments are written as they stand, so the lines of both files go together. A row is added by writing a
//! line into each: what the language's rules or core.async answer, never what this program did.
//!
//! Stands on `ca_run`, and in `beside` on the workers of `ca_pool` and the parts of `ca_table` themselves, with no claim of
//! its own; start with `answer_text`.
#![tactic(auto)]

mod answer;
mod beside;
mod both;
mod clock;
mod differing;
mod disjoint;
mod gate;
mod held;
mod opened;
mod passing;
mod replayed;
mod rest;
mod row;

use std::io;

fn main(rt: HostRuntime) -> io::Result<()> {
    for line in rt.lines(rt.alloc()) {
        let line = line?;
        if line.as_str().is_empty() || line.as_str().starts_with(";") {
            println!(rt; "{line}")?;
            continue;
        }
        let answer = answer::answer_text(&rt, line.as_str())?;
        println!(rt; "{answer}")?;
    }
    Ok(())
}
