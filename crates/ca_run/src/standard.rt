ghost use Rattle.std.specs.Prelude.{◌≡◌, ◌+◌, ◌-◌, ◌/◌, ◌<◌, ◌≤◌, ◌^◌, None, IfOk, IsOk, OnOk, OnErr, MatchResult, length, min, max};
ghost use Rattle.std.specs.Duration.{as_nanos};
ghost use Rattle.std.specs.Io.{ReadsAtMost};
ghost use Rattle.std.specs.Io.KnownBytes.{ReadConsumes, WriteAppends};
ghost use Rattle.ca_timers.specs.Causes.{HasCause, one_more};
ghost use Rattle.ca_timers.specs.Readings.{Tells, StaysTold};

use crate::device::{Failed, Sink, Source};
use ca_timers::clock::Clock;
use ca_value::memory::OutOfMemory;
use std::io::{Read, Write};
use std::time::Duration;
use std::{thread, time};

/// A source over a reader, as standard input. It tells of its content what the reader tells.
#[derive(Drop)]
pub struct ReaderSource<R> {
    reader: R,
    faults: u64,
}

impl<R> ReaderSource<R> {
    ghost use Rattle.ca_run.specs.Standard.{reader_of, read_faults};

    /// The source of what the reader gives from here on. Each error of the reader is a fault.
    pub fn new(reader: R) -> ReaderSource<R>
        ensures reader { reader_of result ≡ reader }
        ensures faults { read_faults result ≡ 0 }
    {
        ReaderSource { reader, faults: 0 }
    }
}

impl<R: Read> Source for ReaderSource<R> {
    ghost use Rattle.ca_run.specs.Standard.{reader_of, read_faults};

    ghost left = { λ s. R.remaining (reader_of s) };

    ghost faults = { λ s. read_faults s };

    fn read(&mut self, into: &mut [u8]) -> Result<usize, Failed>
        ensures bound { ReadsAtMost result into.new }
        ensures bytes { ReadConsumes (R.remaining (reader_of self.old)) (R.remaining (reader_of self.new)) result into.new }
        ensures cause { HasCause (read_faults self.old) (read_faults self.new) result }
        ensures steady { OnOk result (read_faults self.new ≡ read_faults self.old) }
        ensures fault { OnErr result (read_faults self.new ≡ one_more (read_faults self.old)) }
    {
        match self.reader.read(into) {
            Ok(count) => Ok(count),
            Err(_) => {
                self.faults = self.faults.saturating_add(1);
                Err(Failed)
            }
        }
    }
}

/// A sink over a writer, as standard output. It tells of its content what the writer tells, and takes no
/// memory.
#[derive(Drop)]
pub struct WriterSink<W> {
    writer: W,
    spare: u64,
    faults: u64,
}

impl<W> WriterSink<W> {
    ghost use Rattle.ca_run.specs.Standard.{writer_of, write_faults};

    /// The sink that writes to the writer. Each error of the writer is a fault, and so is an answer of 0
    /// bytes for a piece that isn't empty.
    pub fn new(writer: W) -> WriterSink<W>
        ensures writer { writer_of result ≡ writer }
        ensures faults { write_faults result ≡ 0 }
    {
        WriterSink {
            writer,
            spare: 0,
            faults: 0,
        }
    }
}

impl<W: Write> Sink for WriterSink<W> {
    ghost use Rattle.ca_run.specs.Standard.{writer_of, room_asked, write_faults};

    ghost held = { λ s. W.contents (writer_of s) };

    ghost spare = { λ s. room_asked s };

    ghost faults = { λ s. write_faults s };

    fn reserve(&mut self, n: u64) -> Result<(), OutOfMemory>
        ensures ok { IsOk result }
        ensures room { room_asked self.new ≡ max (room_asked self.old) n }
        ensures writer { writer_of self.new ≡ writer_of self.old }
        ensures faults { write_faults self.new ≡ write_faults self.old }
    {
        self.spare = self.spare.max(n);
        Ok(())
    }

    fn write(&mut self, piece: &[u8]) -> Result<usize, Failed>
        requires { length piece.now ≤ room_asked self.old }
        ensures bound { IfOk result (λ n. n ≤ length piece.now) }
        ensures takes { IfOk result (λ n. 0 < length piece.now → 0 < n) }
        ensures spare { MatchResult result (λ n. room_asked self.new ≡ room_asked self.old - n) (λ _. room_asked self.new ≡ room_asked self.old) }
        ensures bytes { WriteAppends (W.contents (writer_of self.old)) (W.contents (writer_of self.new)) result piece.now }
        ensures cause { HasCause (write_faults self.old) (write_faults self.new) result }
        ensures steady { OnOk result (write_faults self.new ≡ write_faults self.old) }
        ensures fault { OnErr result (write_faults self.new ≡ one_more (write_faults self.old)) }
    {
        match self.writer.write(piece) {
            Ok(count) if count > 0 || piece.is_empty() => {
                self.spare -= count as u64;
                Ok(count)
            }
            _ => {
                self.faults = self.faults.saturating_add(1);
                Err(Failed)
            }
        }
    }
}

/// The last moment that a clock may answer.
const LAST_MOMENT: u64 = 4_611_686_018_427_387_903;

/// The system's steady clock, in milliseconds since it was made. It tells no content.
#[derive(Drop)]
pub struct SteadyClock<'a, T> {
    runtime: &'a T,
    start: u64,
    least: u64,
    spare: u64,
    faults: u64,
    ghost bound: { least < 2 ^ 62 },
}

impl<'a, T: time::Clock> SteadyClock<'a, T> {
    ghost use Rattle.ca_run.specs.Standard.{last_moment, clock_faults};

    /// A clock that stands at 0 now. Where the system's clock can't be read, it counts from the start of that.
    pub fn new(runtime: &'a T) -> SteadyClock<'a, T>
        ensures start { last_moment result ≡ 0 }
        ensures steady { clock_faults result ≡ 0 }
    {
        SteadyClock {
            runtime,
            start: reading(runtime).unwrap_or(0),
            least: 0,
            spare: 0,
            faults: 0,
        }
    }
}

// What the system's clock shows, in milliseconds, or None where it can't be read.
fn reading<T: time::Clock>(runtime: &T) -> Option<u64> {
    match runtime.monotonic() {
        Ok(since) => Some(milliseconds(since)),
        Err(_) => None,
    }
}

// Whole milliseconds; where 64 bits don't hold them, the greatest number that they hold.
fn milliseconds(since: Duration) -> u64
    ensures { result ≡ min (as_nanos since / 1_000_000) (2 ^ 64 - 1) }
{
    let whole = since.as_secs().saturating_mul(1000);
    whole.saturating_add(u64::from(since.subsec_millis()))
}

// The moment that is shown, within a clock's bounds and no less than an earlier one.
fn moment_from(shown: u64, start: u64, least: u64) -> u64
    requires { least < 2 ^ 62 }
    ensures value { result ≡ max (min (shown - start) (2 ^ 62 - 1)) least }
    ensures later { least ≤ result }
    ensures bound { result < 2 ^ 62 }
{
    shown.saturating_sub(start).min(LAST_MOMENT).max(least)
}

impl<'a, T: time::Clock> Clock for SteadyClock<'a, T> {
    ghost use Rattle.ca_run.specs.Standard.{last_moment, askings_asked, clock_faults};

    ghost least = { λ c. last_moment c };

    ghost spare = { λ c. askings_asked c };

    ghost faults = { λ c. clock_faults c };

    ghost readings = { λ _. None };

    fn reserve(&mut self) -> Result<(), OutOfMemory>
        ensures ok { IsOk result }
        ensures spare { OnOk result (0 < askings_asked self.new) }
        ensures room { askings_asked self.new ≡ max (askings_asked self.old) 1 }
        ensures moment { last_moment self.new ≡ last_moment self.old }
        ensures faults { clock_faults self.new ≡ clock_faults self.old }
    {
        self.spare = self.spare.max(1);
        Ok(())
    }

    fn now(&mut self) -> u64 {
        self.spare -= 1;
        if let Some(shown) = reading(self.runtime) {
            self.least = moment_from(shown, self.start, self.least);
        }
        self.least
    }

    fn wait_until(&mut self, ask: u64) -> Result<u64, Failed>
        requires room { 0 < askings_asked self.old }
        requires bound { ask < 2 ^ 62 }
        ensures bound { IfOk result (λ m. m < 2 ^ 62) }
        ensures reached { IfOk result (λ m. ask ≤ m) }
        ensures later { IfOk result (λ m. last_moment self.old ≤ m) }
        ensures least { IfOk result (λ m. last_moment self.new ≡ m) }
        ensures stands { OnErr result (last_moment self.new ≡ last_moment self.old) }
        ensures never_falls { last_moment self.old ≤ last_moment self.new }
        ensures spare { askings_asked self.old ≤ askings_asked self.new + 1 }
        ensures steady { OnOk result (clock_faults self.new ≡ clock_faults self.old) }
        ensures fault { OnErr result (clock_faults self.new ≡ one_more (clock_faults self.old)) }
        ensures cause { HasCause (clock_faults self.old) (clock_faults self.new) result }

        // It tells no answers.
        ensures readings { IfOk result (λ m. Tells None None m) }
        ensures silent { OnErr result (StaysTold None None) }
    {
        self.spare -= 1;
        let Some(shown) = reading(self.runtime) else {
            self.faults = self.faults.saturating_add(1);
            return Err(Failed);
        };
        let moment = moment_from(shown, self.start, self.least);
        if moment < ask {
            thread::sleep(self.runtime, Duration::from_millis(ask - moment));
        }
        self.least = moment.max(ask);
        Ok(self.least)
    }
}
