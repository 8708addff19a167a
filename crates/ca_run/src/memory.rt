ghost use Rattle.std.specs.Prelude.{◌≡◌, ◌+◌, ◌<◌, ◌≤◌, ◌^◌, ◌∷◌, ◌++◌, Some, Ok, [], length, take, drop, min, max, IfOk, OnOk};
ghost use Rattle.std.specs.Io.{ReadsAtMost};
ghost use Rattle.std.specs.Io.KnownBytes.{ReadConsumes};
ghost use Rattle.ca_timers.specs.Causes.{HasCause};

use crate::device::{Failed, Sink, Source};
use ca_timers::clock::Clock;
use ca_value::memory::OutOfMemory;
use ca_value::seq::{Seq, Text};
use std::alloc::Global;

/// A source over bytes in memory, which never fails.
#[derive(Drop)]
pub struct MemorySource<'a> {
    bytes: &'a [u8],
    most: usize,
}

impl<'a> MemorySource<'a> {
    ghost use Rattle.ca_run.specs.Memory.{bytes_left, most_a_read};

    /// A source that gives at most `most` bytes a read, and at least one.
    pub fn new(bytes: &'a [u8], most: usize) -> MemorySource<'a>
        ensures bytes { bytes_left result ≡ bytes.now }
        ensures most { most_a_read result ≡ max 1 most }
    {
        MemorySource { bytes, most }
    }
}

impl<'a> Source for MemorySource<'a> {
    ghost use Rattle.ca_run.specs.Memory.{bytes_left, most_a_read};

    ghost left = { λ s. Some (bytes_left s) };

    ghost faults = { λ _. 0 };

    /// Gives as many bytes as are left, as the piece has room for and as the source gives in one read.
    fn read(&mut self, into: &mut [u8]) -> Result<usize, Failed>
        ensures bound { ReadsAtMost result into.new }
        ensures bytes { ReadConsumes (Some (bytes_left self.old)) (Some (bytes_left self.new)) result into.new }
        ensures cause { HasCause 0 0 result }
        ensures count { result ≡ Ok (min (min (length (bytes_left self.old)) (length into.old)) (most_a_read self.old)) }
        ensures copied { IfOk result (λ n. into.new ≡ take n (bytes_left self.old) ++ drop n into.old) }
        ensures left { IfOk result (λ n. bytes_left self.new ≡ drop n (bytes_left self.old)) }
        ensures most { most_a_read self.new ≡ most_a_read self.old }
    {
        let n = self.bytes.len().min(into.len()).min(self.most.max(1));
        into[..n].copy_from_slice(&self.bytes[..n]);
        self.bytes = &self.bytes[n..];
        Ok(n)
    }
}

/// A sink in memory, which never fails.
#[derive(Drop)]
pub struct MemorySink {
    text: Text,
    most: usize,
}

impl MemorySink {
    ghost use Rattle.ca_run.specs.Memory.{bytes_taken, most_a_write};

    /// An empty sink that takes at most `most` bytes a write, and at least one.
    pub fn new(alloc: Global, most: usize) -> MemorySink
        ensures empty { bytes_taken result ≡ [] }
        ensures most { most_a_write result ≡ max 1 most }
    {
        MemorySink {
            text: Text::new(alloc),
            most,
        }
    }

    /// The bytes taken.
    pub fn text(&self) -> &Text
        ensures { result.now ≡ self.now.text }
    {
        &self.text
    }
}

impl Sink for MemorySink {
    ghost use Rattle.ca_run.specs.Memory.{bytes_taken, most_a_write, sink_room};

    ghost held = { λ s. Some (bytes_taken s) };

    ghost spare = { λ s. sink_room s };

    ghost faults = { λ _. 0 };

    fn reserve(&mut self, n: u64) -> Result<(), OutOfMemory>
        ensures room { OnOk result (n ≤ sink_room self.new) }
        ensures kept { sink_room self.old ≤ sink_room self.new }
        ensures taken { bytes_taken self.new ≡ bytes_taken self.old }
        ensures most { most_a_write self.new ≡ most_a_write self.old }
    {
        self.text.reserve(n)
    }

    /// Takes as many bytes as the piece has and as the sink takes in one write.
    fn write(&mut self, piece: &[u8]) -> Result<usize, Failed>
        requires { length piece.now ≤ sink_room self.old }
        ensures count { result ≡ Ok (min (length piece.now) (most_a_write self.old)) }
        ensures taken { IfOk result (λ n. bytes_taken self.new ≡ bytes_taken self.old ++ take n piece.now) }
        ensures room { IfOk result (λ n. sink_room self.old ≤ sink_room self.new + n) }
        ensures most { most_a_write self.new ≡ most_a_write self.old }
    {
        let n = piece.len().min(self.most.max(1));
        for byte in &piece[..n] {
            self.text.push(*byte);
        }
        Ok(n)
    }
}

/// A clock in memory, which never fails: it stands at 0 first, and moves only where it is asked to wait.
#[derive(Drop)]
pub struct MemoryClock {
    moment: u64,
    answers: Seq<u64>,
    ghost bound: { moment < 2 ^ 62 },
}

impl MemoryClock {
    ghost use Rattle.ca_run.specs.Memory.{moment_of, answers_of};

    /// A clock that stands at 0 and was never asked.
    pub fn new(alloc: Global) -> MemoryClock
        ensures start { moment_of result ≡ 0 }
        ensures unasked { answers_of result ≡ [] }
    {
        MemoryClock {
            moment: 0,
            answers: Seq::new(alloc),
        }
    }

    /// How often it was asked.
    pub fn askings(&self) -> u64
        ensures { result ≡ length (answers_of self.now) }
    {
        self.answers.len()
    }
}

impl Clock for MemoryClock {
    ghost use Rattle.ca_run.specs.Memory.{moment_of, answers_of, askings_left};

    ghost least = { λ c. moment_of c };

    ghost spare = { λ c. askings_left c };

    ghost faults = { λ _. 0 };

    ghost readings = { λ c. Some (answers_of c) };

    fn reserve(&mut self) -> Result<(), OutOfMemory>
        ensures room { OnOk result (0 < askings_left self.new) }
        ensures kept { askings_left self.old ≤ askings_left self.new }
        ensures moment { moment_of self.new ≡ moment_of self.old }
        ensures answers { answers_of self.new ≡ answers_of self.old }
    {
        self.answers.reserve(1)
    }

    /// The moment at which it stands.
    fn now(&mut self) -> u64
        requires { 0 < askings_left self.old }
        ensures moment { result ≡ moment_of self.old }
        ensures stands { moment_of self.new ≡ moment_of self.old }
        ensures answers { answers_of self.new ≡ answers_of self.old ++ result ∷ [] }
        ensures room { askings_left self.old ≤ askings_left self.new + 1 }
    {
        self.answers.push(self.moment);
        self.moment
    }

    /// Goes to the moment that is asked for, where that is later, and answers where it stands then.
    fn wait_until(&mut self, ask: u64) -> Result<u64, Failed>
        requires room { 0 < askings_left self.old }
        requires bound { ask < 2 ^ 62 }
        ensures moment { result ≡ Ok (max (moment_of self.old) ask) }
        ensures moves { moment_of self.new ≡ max (moment_of self.old) ask }
        ensures answers { answers_of self.new ≡ answers_of self.old ++ moment_of self.new ∷ [] }
        ensures room { askings_left self.old ≤ askings_left self.new + 1 }
    {
        self.moment = self.moment.max(ask);
        self.answers.push(self.moment);
        Ok(self.moment)
    }
}
