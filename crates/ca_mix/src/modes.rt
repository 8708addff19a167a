//! What a mix reads, and what is heard of it.
ghost use Rattle.std.specs.Prelude.{◌≡◌, codes, map, option_map, IfOk};
ghost use Rattle.std.specs.Str.{bytes_eq};
ghost use Rattle.ca_value.specs.Seq.{list};
ghost use Rattle.ca_value.specs.Tree.{vector};
ghost use Rattle.ca_value.specs.View.{view, trees};
ghost use Rattle.ca_meaning.specs.MixTable.{any_solo, heard_of, modes_in, read_of, sources_of};
ghost use Rattle.ca_mix.specs.Readings.{bool_in, mix_source_view, sources_view, source_from, source_in, modes_view, reading_view, channels_where, is_heard, is_read};

use ca_system::operand::port_in;
use ca_value::memory::OutOfMemory;
use ca_value::seq::Seq;
use ca_value::value::{PortId, Value};
use std::alloc::Global;

// The modes of a mix, as an answer tells them: whether a source beside a soloed one pauses, and the sources.
#[derive(Drop)]
pub(crate) struct Modes {
    pub(crate) pausing: bool,
    pub(crate) sources: Seq<Source>,
}

// A source and its modes.
#[derive(Clone, Copy, Drop)]
pub(crate) struct Source {
    pub(crate) channel: PortId,
    pub(crate) mute: bool,
    pub(crate) pause: bool,
    pub(crate) solo: bool,
}

// The channels that it reads, and those that are heard, both in the order of the sources.
#[derive(Drop)]
pub struct Reading {
    pub(crate) reads: Vec<PortId>,
    pub(crate) heard: Vec<PortId>,
}

// The modes; None where the answer has another form.
pub(crate) fn modes_in(alloc: Global, answer: &Value) -> Result<Option<Modes>, OutOfMemory>
    ensures { IfOk result (λ r. option_map modes_view r ≡ modes_in (view answer.now)) }
{
    match answer {
        Value::Vector(items) => modes_of(alloc, items.as_slice()),
        _ => Ok(None),
    }
}

// The solo mode is the first item, and the others are the sources.
fn modes_of(alloc: Global, items: &[Value]) -> Result<Option<Modes>, OutOfMemory>
    ensures { IfOk result (λ r. option_map modes_view r ≡ modes_in (vector (trees items.now))) }
{
    match items.split_first() {
        Some((Value::Key(mode), sources)) => modes_with(alloc, mode.as_slice(), sources),
        _ => Ok(None),
    }
}

fn modes_with(alloc: Global, mode: &[u8], sources: &[Value]) -> Result<Option<Modes>, OutOfMemory>
    ensures { IfOk result (λ r. option_map modes_view r ≡ option_map (λ xs. record { pausing = bytes_eq mode.now (codes "pause"); sources = xs }) (sources_of (trees sources.now))) }
{
    match sources_of(alloc, sources)? {
        None => Ok(None),
        Some(sources) => Ok(Some(Modes {
            pausing: is_word(mode, b"pause"),
            sources,
        })),
    }
}

fn is_word(name: &[u8], word: &[u8]) -> bool
    ensures { result ≡ bytes_eq name.now word.now }
{
    name == word
}

#[tactic(auto, using(crate::proofs::SourceLaws::source_more, crate::proofs::SourceLaws::source_wrong))]
fn sources_of(alloc: Global, items: &[Value]) -> Result<Option<Seq<Source>>, OutOfMemory>
    ensures { IfOk result (λ r. option_map sources_view r ≡ sources_of (trees items.now)) }
{
    let mut sources = Seq::new(alloc);
    sources.reserve(items.len() as u64)?;
    for item in items {
        match source_in(item) {
            None => return Ok(None),
            Some(source) => sources.push(source),
        }
    }
    Ok(Some(sources))
}

// The source that is written `[channel mute pause solo]`.
fn source_in(item: &Value) -> Option<Source>
    ensures { option_map mix_source_view result ≡ source_in (view item.now) }
{
    match item {
        Value::Vector(parts) => four_in(parts.as_slice()),
        _ => None,
    }
}

#[tactic(auto, using(crate::proofs::SourceLaws::fewer_than_four, crate::proofs::SourceLaws::more_than_four))]
fn four_in(parts: &[Value]) -> Option<Source>
    ensures { option_map mix_source_view result ≡ source_in (vector (trees parts.now)) }
{
    match parts {
        [channel, mute, pause, solo] => source_from(channel, mute, pause, solo),
        _ => None,
    }
}

fn source_from(channel: &Value, mute: &Value, pause: &Value, solo: &Value) -> Option<Source>
    ensures { option_map mix_source_view result ≡ source_from (view channel.now) (view mute.now) (view pause.now) (view solo.now) }
{
    Some(Source {
        channel: port_in(channel)?,
        mute: bool_in(mute)?,
        pause: bool_in(pause)?,
        solo: bool_in(solo)?,
    })
}

fn bool_in(value: &Value) -> Option<bool>
    ensures { result ≡ bool_in (view value.now) }
{
    match value {
        Value::Bool(b) => Some(*b),
        _ => None,
    }
}

impl Modes {
    // What it reads and what is heard while these modes stand.
    #[tactic(auto, using(crate::proofs::SourceLaws::read_ones, crate::proofs::SourceLaws::heard_ones))]
    pub(crate) fn reading(&self, alloc: Global) -> Result<Reading, OutOfMemory>
        ensures { IfOk result (λ r. reading_view r ≡ (read_of (modes_view self.now), heard_of (modes_view self.now))) }
    {
        let sources = self.sources.as_slice();
        let solo = any_solo(sources);
        channels(alloc, sources, solo && self.pausing, solo)
    }
}

impl Source {
    // A soloed one, or one that is not paused where soloed ones are not read alone.
    fn is_read(self, solo_alone: bool) -> bool
        ensures { result ≡ is_read solo_alone (mix_source_view self) }
    {
        self.solo || !solo_alone && !self.pause
    }

    // A soloed one where there are any, else one that is not muted.
    fn is_heard(self, solo_alone: bool) -> bool
        ensures { result ≡ is_heard solo_alone (mix_source_view self) }
    {
        if solo_alone { self.solo } else { !self.mute }
    }
}

fn any_solo(sources: &[Source]) -> bool
    ensures { result ≡ any_solo (map mix_source_view sources.now) }
{
    for source in sources {
        if source.solo {
            return true;
        }
    }
    false
}

// The channels that are read, and those that are heard: whether soloed ones alone are.
fn channels(
    alloc: Global,
    sources: &[Source],
    solo_read: bool,
    solo_heard: bool,
) -> Result<Reading, OutOfMemory>
    ensures { IfOk result (λ r. reading_view r ≡ (channels_where (is_read solo_read) (map mix_source_view sources.now), channels_where (is_heard solo_heard) (map mix_source_view sources.now))) }
{
    let mut reads = Vec::new(alloc);
    let mut heard = Vec::new(alloc);
    for source in sources {
        if source.is_read(solo_read) {
            reads.push(source.channel)?;
        }
        if source.is_heard(solo_heard) {
            heard.push(source.channel)?;
        }
    }
    Ok(Reading { reads, heard })
}
