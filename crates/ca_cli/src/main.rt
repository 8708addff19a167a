//! The program `runzolev`: the top call over standard input, standard output and the system's steady
//! clock. What it does is what `ca_run::top::main_call` does.
#![tactic(auto)]

use ca_pool::gate::OpenGate;
use ca_run::standard::{ReaderSource, SteadyClock, WriterSink};
use ca_run::top::main_call;
use std::process::ExitCode;
use std::{env, io, mem};

/// The exit status of want of memory.
const OUT_OF_MEMORY: u8 = 8;

// The words after the program's name. Where one isn't UTF-8 there are none: neither is a command.
fn words<R: env::Env + AllocGlobal>(rt: &R) -> io::Result<Vec<String>> {
    let mut words = Vec::new(rt.alloc());
    let given = match env::args(rt) {
        Ok(given) => given,
        Err(error) if error.kind() == io::ErrorKind::InvalidData => return Ok(words),
        Err(error) => return Err(error),
    };
    for word in given.skip(1) {
        words.push(word)?;
    }
    Ok(words)
}

fn main(rt: HostRuntime) -> ExitCode {
    let Ok(words) = words(&rt) else {
        return ExitCode::from(OUT_OF_MEMORY);
    };
    let mut source = ReaderSource::new(rt.reader());
    let mut sink = WriterSink::new(io::writer(&rt));
    let clock = SteadyClock::new(&rt);
    let finish = main_call(
        &rt,
        rt.alloc(),
        words.as_slice(),
        &mut source,
        &mut sink,
        clock,
        &OpenGate,
    );
    let status = finish.status;
    // The journal goes with the process, and its events aren't let go of one by one.
    mem::forget(finish);
    ExitCode::from(status)
}
