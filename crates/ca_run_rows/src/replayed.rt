use crate::clock::RowClock;
use crate::row::Row;
use ca_journal::journal::Journal;
use ca_journal::output::output;
use ca_journal::print::print;
use ca_pool::gate::OpenGate;
use ca_run::memory::{MemorySink, MemorySource};
use ca_run::top::{Finish, main_call};
use ca_value::memory::OutOfMemory;
use ca_value::seq::Text;
use std::alloc::{AllocError, Global};
use std::sync::Wait;
use std::thread::Threads;

/// The greatest length of a script. One as long has no room for the line feed before the marker line.
const GREATEST_LENGTH: usize = 1_048_576;

/// What `replay` writes of the run's journal beside its script, where that isn't what the run's status says, or `follow`,
/// where that isn't the run's output, behind the command; None too where no script was run.
pub fn other_verdict<R: Threads + Wait + Sync + AllocGlobal, C>(
    rt: &R,
    row: &Row,
    script: &[u8],
    finish: &Finish<C>,
) -> Result<Option<(&'static str, Text)>, AllocError> {
    let Some(journal) = &finish.journal else {
        return Ok(None);
    };
    if !row.is_judged || !runs(row) || script.len() >= GREATEST_LENGTH {
        return Ok(None);
    }
    let Ok(input) = input_of(rt.alloc(), script, journal) else {
        return Err(AllocError);
    };
    let replayed = judged(rt, "replay", input.as_slice())?;
    if !agrees(finish.status, replayed.as_slice()) {
        return Ok(Some(("replay", replayed)));
    }
    let Ok(expected) = output(rt.alloc(), journal) else {
        return Err(AllocError);
    };
    let followed = judged(rt, "follow", input.as_slice())?;
    if followed.as_slice() != expected.as_slice() {
        return Ok(Some(("follow", followed)));
    }
    Ok(None)
}

fn runs(row: &Row) -> bool {
    match row.words.first() {
        Some(word) => word.as_str() == "run",
        None => false,
    }
}

// The script, a marker line, and the journal's text.
fn input_of(alloc: Global, script: &[u8], journal: &Journal) -> Result<Text, OutOfMemory> {
    let mut input = Text::from_bytes(alloc, script)?;
    input.append(b"\n;;; journal\n")?;
    input.append(print(alloc, journal)?.as_slice())?;
    Ok(input)
}

// What the command writes.
fn judged<R: Threads + Wait + Sync + AllocGlobal>(
    rt: &R,
    command: &str,
    input: &[u8],
) -> Result<Text, AllocError> {
    let alloc = rt.alloc();
    let mut words = Vec::new(alloc);
    words.push(String::from_str(alloc, command)?)?;
    let mut source = MemorySource::new(input, 4096);
    let mut sink = MemorySink::new(alloc, 4096);
    main_call(
        rt,
        alloc,
        words.as_slice(),
        &mut source,
        &mut sink,
        RowClock::new(0, false),
        &OpenGate,
    );
    match sink.text().copy(alloc) {
        Ok(text) => Ok(text),
        Err(OutOfMemory) => Err(AllocError),
    }
}

// Whether a legal journal's standing is that of a run of this status. At another one the run was cut, or its end isn't told.
fn agrees(status: u8, verdict: &[u8]) -> bool {
    match status {
        0 => verdict == b"legal ended\n".as_slice(),
        3 => verdict == b"legal faulted\n".as_slice(),
        4 => verdict == b"legal stuck\n".as_slice(),
        _ => verdict.starts_with(b"legal "),
    }
}
