ghost use Rattle.std.specs.Prelude.{◌≡◌, ◌+◌, ◌-◌, ◌<◌, ◌≤◌, ◌^◌, ℕ, List, Option, length, take, [], ◌++◌, Ok, Err, IfOk, OnOk, OnErr, MatchResult, MatchOption};
ghost use Rattle.std.specs.Io.{ReadsAtMost};
ghost use Rattle.std.specs.Io.KnownBytes.{ReadConsumes, WriteAppends, Consumes, Appends, IsAtEnd};
ghost use Rattle.ca_value.specs.Seq.{list};
ghost use Rattle.ca_timers.specs.Causes.{Rose, HasCause};
ghost use Rattle.ca_run.specs.declared.device.ReadError.TheVariants.{Broken, OutOfMemory};

pub use ca_timers::clock::Failed;
use ca_value::memory;
use ca_value::seq::Text;
use std::alloc::Global;

/// Where a script comes from.
pub trait Source {
    /// The bytes still to come, where the source tells them.
    ghost left: { Self → Option (List ℕ) };

    /// How often it has failed; it never falls.
    ghost faults: { Self → ℕ };

    /// Reads at most as many bytes as the piece has; 0 for a piece that isn't empty is the end of input.
    fn read(&mut self, into: &mut [u8]) -> Result<usize, Failed>
        ensures bound { ReadsAtMost result into.new }
        ensures bytes { ReadConsumes (left self.old) (left self.new) result into.new }
        ensures cause { HasCause (faults self.old) (faults self.new) result };
}

/// Where a text goes to.
pub trait Sink {
    /// The bytes taken, where the sink tells them.
    ghost held: { Self → Option (List ℕ) };

    /// How many more bytes it takes with no growth.
    ghost spare: { Self → ℕ };

    /// How often it has failed; it never falls.
    ghost faults: { Self → ℕ };

    /// Makes room for `n` bytes at the least, and changes nothing else.
    fn reserve(&mut self, n: u64) -> Result<(), memory::OutOfMemory>
        ensures spare { OnOk result (n ≤ spare self.new) }
        ensures held { held self.new ≡ held self.old }
        ensures faults { faults self.new ≡ faults self.old };

    /// Takes some of the piece from its front: at least one byte of a piece that isn't empty.
    fn write(&mut self, piece: &[u8]) -> Result<usize, Failed>
        requires { length piece.now ≤ spare self.old }
        ensures bound { IfOk result (λ n. n ≤ length piece.now) }
        ensures takes { IfOk result (λ n. 0 < length piece.now → 0 < n) }
        ensures spare { MatchResult result (λ n. spare self.old ≤ spare self.new + n) (λ _. spare self.old ≤ spare self.new) }
        ensures bytes { WriteAppends (held self.old) (held self.new) result piece.now }
        ensures cause { HasCause (faults self.old) (faults self.new) result };
}

/// Why a source was not read.
#[derive(Clone, Copy)]
pub enum ReadError {
    Broken,
    OutOfMemory,
}

impl From<Failed> for ReadError {
    ghost from_gives = { λ _ e. e ≡ Broken };

    fn from(_: Failed) -> ReadError {
        ReadError::Broken
    }
}

impl From<memory::OutOfMemory> for ReadError {
    ghost from_gives = { λ _ e. e ≡ OutOfMemory };

    fn from(_: memory::OutOfMemory) -> ReadError {
        ReadError::OutOfMemory
    }
}

/// The bytes of the source to its end, or to one past the limit.
pub fn read_all<S: Source>(alloc: Global, source: &mut S, limit: u64) -> Result<Text, ReadError>
    requires { limit < 2 ^ 32 }
    ensures bytes { IfOk result (λ t. Consumes (S.left source.old) (S.left source.new) (list t)) }
    ensures most { IfOk result (λ t. length (list t) ≤ limit + 1) }
    ensures whole { IfOk result (λ t. length (list t) ≤ limit → IsAtEnd (S.left source.new)) }
    ensures later { S.faults source.old ≤ S.faults source.new }
    ensures broken { result ≡ Err ReadError.Broken → Rose (S.faults source.old) (S.faults source.new) }
{
    let mut text = Text::new(alloc);
    let mut piece = [0u8; 4096];
    while text.len() <= limit {
        let room = (limit + 1 - text.len()).min(4096) as usize;
        let n = source.read(&mut piece[..room])?;
        if n == 0 {
            return Ok(text);
        }
        text.append(&piece[..n])?;
    }
    Ok(text)
}

/// Writes all of the text. After an error the bytes taken are a prefix of it.
pub fn write_all<K: Sink>(sink: &mut K, text: &[u8]) -> Result<(), Failed>
    requires { length text.now ≤ K.spare sink.old }
    ensures ok { OnOk result (Appends (K.held sink.old) (K.held sink.new) text.now) }
    ensures err { OnErr result ((n : ℕ) × Appends (K.held sink.old) (K.held sink.new) (take n text.now)) }
    ensures cause { HasCause (K.faults sink.old) (K.faults sink.new) result }
{
    let mut at = 0;
    while at < text.len() {
        at += sink.write(&text[at..])?;
    }
    Ok(())
}
