use crate::clock::RowClock;
use crate::differing::Differing;
use crate::gate::RowGate;
use crate::opened::answer_beside_holder;
use crate::replayed::other_verdict;
use crate::row::{GateKind, Row};
use ca_run::failing::Failing;
use ca_run::memory::{MemorySink, MemorySource};
use ca_run::top::{Finish, main_call};
use ca_value::memory::OutOfMemory;
use ca_value::seq::Text;
use ca_value::value::Value;
use std::alloc::{AllocError, Global};
use std::str;
use std::sync::Wait;
use std::thread::Threads;

/// The answer of the row that the line tells: of its run, of its runs, or of those of its script cut after each byte.
pub fn answer_text<R: Threads + Wait + Sync + AllocGlobal>(
    rt: &R,
    line: &str,
) -> Result<String, AllocError> {
    let row = Row::of(rt.alloc(), line)?;
    if let GateKind::Disjoint = row.gate {
        return answer_beside_holder(rt, row.script.as_slice());
    }
    if row.is_cut {
        cut_answers(rt, &row)
    } else if row.runs > 1 {
        answers_of_runs(rt, &row)
    } else {
        answer_of(rt, &row, row.script.as_slice())
    }
}

// Those of the script cut after each of its bytes, by how many bytes it has there.
fn cut_answers<R: Threads + Wait + Sync + AllocGlobal>(
    rt: &R,
    row: &Row,
) -> Result<String, AllocError> {
    let mut answers = Differing::new(rt.alloc());
    let mut begun = Vec::new(rt.alloc());
    for byte in row.script.as_slice() {
        begun.push(*byte)?;
        answers.add(begun.len() as u64, answer_of(rt, row, begun.as_slice())?)?;
    }
    Ok(answers.told())
}

// Those of so many runs of the script, since what several workers do is not the same each time.
fn answers_of_runs<R: Threads + Wait + Sync + AllocGlobal>(
    rt: &R,
    row: &Row,
) -> Result<String, AllocError> {
    let mut answers = Differing::new(rt.alloc());
    for run in 0..row.runs {
        answers.add(run, answer_of(rt, row, row.script.as_slice())?)?;
    }
    Ok(answers.told())
}

// The status, `+` where a journal is handed back, the text that was written, where the row asks for it how often the clock
// was asked, where workers are held at a gate whether a wait at it was given up, and what `replay` says of the journal where
// that isn't that it is legal and stands as the run ended, or `follow` where that isn't the run's output.
fn answer_of<R: Threads + Wait + Sync + AllocGlobal>(
    rt: &R,
    row: &Row,
    script: &[u8],
) -> Result<String, AllocError> {
    let alloc = rt.alloc();
    let mut source = Failing::new(MemorySource::new(script, row.piece), row.reads.as_slice());
    let mut sink = Failing::new(MemorySink::new(alloc, row.piece), row.writes.as_slice());
    let gate = RowGate::new(row.gate);
    let clock = Failing::new(RowClock::new(row.rise, row.is_slow), row.waits.as_slice());
    let finish = main_call(
        rt,
        alloc,
        row.words.as_slice(),
        &mut source,
        &mut sink,
        clock,
        &gate,
    );
    let Ok(mut text) = told(alloc, &finish, sink.device().text()) else {
        return Err(AllocError);
    };
    if let Some(clock) = &finish.clock
        && row.tells_askings
    {
        text.push_str(" askings ")?;
        text.push_str(itoa::Buffer::new().format(clock.device().askings()))?;
    }
    if let Some(waits) = gate.waits() {
        text.push_str(" ")?;
        text.push_str(waits.told())?;
    }
    if let Some((command, verdict)) = other_verdict(rt, row, script, &finish)? {
        text.push_str(" ")?;
        text.push_str(command)?;
        text.push_str(" ")?;
        if append_readable(alloc, &mut text, &verdict).is_err() {
            return Err(AllocError);
        }
    }
    Ok(text)
}

fn told<C>(alloc: Global, finish: &Finish<C>, written: &Text) -> Result<String, OutOfMemory> {
    let mut text = String::new(alloc);
    text.push_str(itoa::Buffer::new().format(finish.status))?;
    text.push_str(" ")?;
    text.push_str(if finish.journal.is_some() { "+" } else { "-" })?;
    text.push_str(" ")?;
    append_readable(alloc, &mut text, written)?;
    Ok(text)
}

// Adds the text as a readable one.
fn append_readable(alloc: Global, into: &mut String, written: &Text) -> Result<(), OutOfMemory> {
    let readable = Value::text(alloc, written.copy(alloc)?)?.print_readable(alloc)?;
    match str::from_utf8(readable.as_slice()) {
        Ok(line) => into.push_str(line)?,
        Err(_) => into.push_str("no text")?,
    }
    Ok(())
}
