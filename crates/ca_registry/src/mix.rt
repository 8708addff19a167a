ghost use Rattle.std.specs.Prelude.{◌≡◌, ◌≤◌, ◌+◌, ◌<◌, ℕ, Some, [], not, nat_lt, nat_eq, eqb, filter, map, length, IfOk, IfErr, OnOk, codes, cond, true, false};
ghost use Rattle.std.specs.Str.{bytes_eq};
ghost use Rattle.ca_value.specs.View.{view, trees, tree_pairs};
ghost use Rattle.ca_value.specs.Tree.{nil, key as keyword, vector, port, item, trees_of};
ghost use Rattle.indexmap.specs.IndexMap.{get, insert_entry};
ghost use Rattle.ca_meaning.specs.Registry.{a_mix, changed_source, set_mode, set_modes, with_modes_in, toggled, mode_value, source_value, is_pause, pairs_in, within_limit, channels_differ};
ghost use Rattle.ca_registry.specs.declared.registry_error.RegisterError.TheVariants.{TooManyMembers};
ghost use Rattle.ca_meaning.specs.Operands.{first_of};
ghost use Rattle.ca_value.specs.Equality.{pair_count};
ghost use Rattle.ca_registry.specs.Mixes.{modes_or, source_view, mix_sources, mix_view, mix_spare, mix_gives, toggle_gives, is_source, new_in, TogglesApart};
ghost use Rattle.ca_registry.specs.Registries.{answered, IsCause, left_by, members_added};

use crate::listing::{channel, four};
use crate::registry_error::RegisterError;
use ca_asking::operands::{is_true, operand, port_at, port_of};
use ca_term::head::RegisterName;
use ca_value::memory::OutOfMemory;
use ca_value::seq::{Seq, Text};
use ca_value::value::{Pair, PortId, Value};
use indexmap::IndexMap;
use std::alloc::Global;

// How many sources a mix has at most.
const MOST_SOURCES: usize = 255;

// What a mix does with a source.
#[derive(Clone, Copy, Drop)]
pub(crate) struct Modes {
    pub(crate) mute: bool,
    pub(crate) pause: bool,
    pub(crate) solo: bool,
}

impl Modes {
    // One mode set by its keyword.
    fn set(self, mode: &Value, value: &Value) -> Modes
        ensures { (c : ℕ) → source_view (c, result) ≡ set_mode (view mode.now) (view value.now) (source_view (c, self)) }
    {
        match mode {
            Value::Key(name) => self.set_named(name.as_slice(), is_true(value)),
            _ => self,
        }
    }

    fn set_named(self, name: &[u8], on: bool) -> Modes
        ensures { (c : ℕ) → source_view (c, result) ≡ cond (bytes_eq name.now (codes "mute")) (source_view (c, record self { mute = on })) (cond (bytes_eq name.now (codes "pause")) (source_view (c, record self { pause = on })) (cond (bytes_eq name.now (codes "solo")) (source_view (c, record self { solo = on })) (source_view (c, self)))) }
    {
        if is_word(name, b"mute") {
            Modes { mute: on, ..self }
        } else if is_word(name, b"pause") {
            Modes { pause: on, ..self }
        } else if is_word(name, b"solo") {
            Modes { solo: on, ..self }
        } else {
            self
        }
    }

    // The modes that the map names.
    fn set_all(self, modes: &Value) -> Modes
        ensures { (c : ℕ) → source_view (c, result) ≡ with_modes_in (view modes.now) (source_view (c, self)) }
    {
        match modes {
            Value::Map(pairs) => self.set_pairs(pairs.as_slice()),
            _ => self,
        }
    }

    fn set_pairs(self, pairs: &[Pair]) -> Modes
        ensures { (c : ℕ) → source_view (c, result) ≡ set_modes (tree_pairs pairs.now) (source_view (c, self)) }
    {
        let mut modes = self;
        for pair in pairs {
            modes = modes.set(&pair.key, &pair.value);
        }
        modes
    }
}

fn is_word(name: &[u8], word: &[u8]) -> bool
    ensures { result ≡ bytes_eq name.now word.now }
{
    name == word
}

// A mix: its output, its change channel, whether its solo mode is pause, and its sources.
#[derive(Drop)]
pub struct Mix {
    out: u64,
    pub(crate) changes: u64,
    pub(crate) pausing: bool,
    pub(crate) sources: IndexMap<u64, Modes>,
}

impl Mix {
    // Without a source. It takes no memory.
    pub(crate) fn new(alloc: Global, out: PortId, changes: PortId) -> Mix
        ensures { mix_view result ≡ a_mix out.n changes.n false [] }
    {
        Mix {
            out: out.n,
            changes: changes.n,
            pausing: false,
            sources: IndexMap::new(alloc),
        }
    }

    pub(crate) fn reserve(&mut self, n: u64) -> Result<(), OutOfMemory>
        ensures spare { OnOk result (n ≤ mix_spare self.new) }
        ensures kept { mix_view self.new ≡ mix_view self.old }
        ensures more { mix_spare self.old ≤ mix_spare self.new }
    {
        self.sources.reserve(n as usize)?;
        Ok(())
    }

    // The modes of the source, or none set where it isn't there.
    fn modes_of(&self, channel: u64) -> Modes
        ensures { result ≡ modes_or (get nat_eq self.now.sources channel) }
    {
        match self.sources.get(&channel) {
            Some(modes) => *modes,
            None => Modes {
                mute: false,
                pause: false,
                solo: false,
            },
        }
    }

    fn change(&mut self, channel: u64, modes: Modes)
        requires { 0 < mix_spare self.old }
        ensures sources { mix_view self.new ≡ a_mix self.old.out self.old.changes self.old.pausing (map source_view (insert_entry nat_eq self.old.sources.entries channel modes)) }
        ensures spare { mix_spare self.old ≤ mix_spare self.new + 1 }
    {
        match self.sources.insert(channel, modes) {
            Ok(_) => {}
            Err(_) => unreachable!(),
        }
    }

    #[tactic(auto, using(crate::proofs::Sources::changed_is))]
    fn add(&mut self, channel: u64)
        requires { 0 < mix_spare self.old }
        ensures { mix_view self.new ≡ a_mix self.old.out self.old.changes self.old.pausing (changed_source channel (λ x. x) (mix_sources self.old)) }
    {
        self.change(channel, self.modes_of(channel));
    }

    #[tactic(auto, using(crate::proofs::Sources::changed_is))]
    fn toggle(&mut self, channel: u64, modes: &Value)
        requires { 0 < mix_spare self.old }
        ensures sources { mix_view self.new ≡ a_mix self.old.out self.old.changes self.old.pausing (changed_source channel (with_modes_in (view modes.now)) (mix_sources self.old)) }
        ensures spare { mix_spare self.old ≤ mix_spare self.new + 1 }
    {
        self.change(channel, self.modes_of(channel).set_all(modes));
    }

    #[tactic(auto, using(crate::proofs::Sources::is_source_of))]
    pub(crate) fn has(&self, channel: u64) -> bool
        ensures { result ≡ is_source channel (mix_sources self.now) }
    {
        self.sources.get(&channel).is_some()
    }

    // Whether it may have this source too.
    #[tactic(auto, using(crate::proofs::Sources::changed_size))]
    pub(crate) fn admits(&self, channel: u64) -> bool
        ensures { result ≡ not (nat_lt 255 (length (changed_source channel (λ x. x) (mix_sources self.now)))) }
    {
        let more = if self.has(channel) { 0 } else { 1 };
        self.sources.len() + more <= MOST_SOURCES
    }

    // How many of the keys name no source yet.
    fn count_new(&self, pairs: &[Pair]) -> usize
        ensures new { result ≡ new_in (tree_pairs pairs.now) (mix_sources self.now) }
        ensures few { result ≤ length pairs.now }
    {
        let mut count = 0;
        for pair in pairs {
            if !self.has(port_of(&pair.key).n) {
                count += 1;
            }
        }
        count
    }

    // Whether it may have all these sources too.
    #[tactic(auto, using(crate::proofs::Sources::toggled_size))]
    fn admits_all(&self, pairs: &[Pair]) -> bool
        requires { channels_differ (tree_pairs pairs.now) ≡ true }
        ensures { result ≡ not (nat_lt 255 (length (toggled (tree_pairs pairs.now) (mix_sources self.now)))) }
    {
        self.sources.len() + self.count_new(pairs) <= MOST_SOURCES
    }

    fn toggle_all(&mut self, pairs: &[Pair])
        requires { length pairs.now ≤ mix_spare self.old }
        ensures { mix_view self.new ≡ a_mix self.old.out self.old.changes self.old.pausing (toggled (tree_pairs pairs.now) (mix_sources self.old)) }
    {
        for pair in pairs {
            self.toggle(port_of(&pair.key).n, &pair.value);
        }
    }

    #[tactic(auto, using(crate::proofs::Sources::unmixed_is))]
    fn unmix(&mut self, channel: u64)
        ensures { mix_view self.new ≡ a_mix self.old.out self.old.changes self.old.pausing (filter (λ x. not (eqb channel x.channel)) (mix_sources self.old)) }
    {
        let _ = self.sources.shift_remove(&channel);
    }

    fn unmix_all(&mut self)
        ensures { mix_view self.new ≡ a_mix self.old.out self.old.changes self.old.pausing [] }
    {
        self.sources.clear();
    }

    // The operation's change; where it faults there is none.
    pub(crate) fn register(&mut self, name: RegisterName, args: &[Value])
        requires room { members_added name (trees args.now) ≤ mix_spare self.old }
        requires apart { TogglesApart name (trees args.now) }
        ensures { mix_view self.new ≡ left_by (mix_gives self.old name (trees args.now)) (mix_view self.old) }
    {
        match name {
            RegisterName::Admix => self.admix(port_at(args, 0).n),
            RegisterName::Unmix => self.unmix(port_at(args, 0).n),
            RegisterName::UnmixAll => self.unmix_all(),
            RegisterName::Toggle => self.toggle_first(args),
            RegisterName::SoloMode => self.set_solo_mode(args),
            _ => {}
        }
    }

    // Adds the source, where it isn't there and the limit allows it.
    fn admix(&mut self, channel: u64)
        requires { 0 < mix_spare self.old }
        ensures { mix_view self.new ≡ left_by (within_limit 255 (length (changed_source channel (λ x. x) (mix_sources self.old))) nil (a_mix self.old.out self.old.changes self.old.pausing (changed_source channel (λ x. x) (mix_sources self.old)))) (mix_view self.old) }
    {
        if self.admits(channel) {
            self.add(channel);
        }
    }

    // Changes what the map in the first argument names, where the limit allows it.
    fn toggle_first(&mut self, args: &[Value])
        requires room { pair_count (pairs_in (first_of (trees args.now))) ≤ mix_spare self.old }
        requires apart { channels_differ (pairs_in (first_of (trees args.now))) ≡ true }
        ensures { mix_view self.new ≡ left_by (toggle_gives self.old (pairs_in (first_of (trees args.now)))) (mix_view self.old) }
    {
        let nil = Value::Nil;
        if let Value::Map(pairs) = operand(args, 0, &nil) {
            self.toggle_within(pairs.as_slice());
        }
    }

    #[tactic(auto, using(crate::proofs::Sources::all_true, crate::proofs::Sources::counted_pairs))]
    fn toggle_within(&mut self, pairs: &[Pair])
        requires room { pair_count (tree_pairs pairs.now) ≤ mix_spare self.old }
        requires apart { channels_differ (tree_pairs pairs.now) ≡ true }
        ensures { mix_view self.new ≡ left_by (toggle_gives self.old (tree_pairs pairs.now)) (mix_view self.old) }
    {
        if self.admits_all(pairs) {
            self.toggle_all(pairs);
        }
    }

    fn set_solo_mode(&mut self, args: &[Value])
        ensures { mix_view self.new ≡ a_mix self.old.out self.old.changes (is_pause (first_of (trees args.now))) (mix_sources self.old) }
    {
        let nil = Value::Nil;
        self.pausing = names_pause(operand(args, 0, &nil));
    }

    // The operation's answer, or its fault.
    pub(crate) fn answer(
        &self,
        alloc: Global,
        name: RegisterName,
        args: &[Value],
    ) -> Result<Value, RegisterError>
        requires { TogglesApart name (trees args.now) }
        ensures ok { IfOk result (λ v. answered (mix_gives self.now name (trees args.now)) ≡ Some (view v)) }
        ensures err { IfErr result (λ e. IsCause e (mix_gives self.now name (trees args.now))) }
    {
        match name {
            RegisterName::Admix => self.answer_within(self.admits(port_at(args, 0).n)),
            RegisterName::Unmix | RegisterName::UnmixAll => Ok(channel(self.changes)),
            RegisterName::Toggle => self.answer_toggle(args),
            RegisterName::SoloMode => Ok(channel(self.changes)),
            RegisterName::Modes => Ok(self.list(alloc)?),
            _ => Err(RegisterError::NotAPort),
        }
    }

    #[tactic(auto, using(crate::proofs::Sources::all_true))]
    fn answer_toggle(&self, args: &[Value]) -> Result<Value, RegisterError>
        requires { channels_differ (pairs_in (first_of (trees args.now))) ≡ true }
        ensures ok { IfOk result (λ v. answered (toggle_gives self.now (pairs_in (first_of (trees args.now)))) ≡ Some (view v)) }
        ensures err { IfErr result (λ e. IsCause e (toggle_gives self.now (pairs_in (first_of (trees args.now))))) }
    {
        if self.admits_first(args) {
            Ok(channel(self.changes))
        } else {
            Err(RegisterError::TooManyMembers)
        }
    }

    // The change channel, where the limit allows the change.
    fn answer_within(&self, admitted: bool) -> Result<Value, RegisterError>
        ensures ok { IfOk result (λ v. (admitted ≡ true) × (view v ≡ port self.now.changes)) }
        ensures err { IfErr result (λ e. (admitted ≡ false) × (e ≡ TooManyMembers)) }
    {
        if admitted {
            Ok(channel(self.changes))
        } else {
            Err(RegisterError::TooManyMembers)
        }
    }

    // Whether it may have all sources too that the map in the first argument names.
    #[tactic(auto, using(crate::proofs::Sources::toggled_size))]
    pub(crate) fn admits_first(&self, args: &[Value]) -> bool
        requires { channels_differ (pairs_in (first_of (trees args.now))) ≡ true }
        ensures { result ≡ not (nat_lt 255 (length (toggled (pairs_in (first_of (trees args.now))) (mix_sources self.now)))) }
    {
        let nil = Value::Nil;
        match operand(args, 0, &nil) {
            Value::Map(pairs) => self.admits_all(pairs.as_slice()),
            _ => self.sources.len() <= MOST_SOURCES,
        }
    }

    // The solo mode, and then the sources, in order.
    fn list(&self, alloc: Global) -> Result<Value, OutOfMemory>
        ensures { IfOk result (λ v. view v ≡ vector (item (mode_value self.now.pausing) (trees_of (map source_value (mix_sources self.now))))) }
    {
        let mut items = Seq::new(alloc);
        items.reserve(1)?;
        items.push(solo_mode(alloc, self.pausing)?);
        items.reserve(self.sources.len() as u64)?;
        for place in 0..self.sources.len() {
            let (source, modes) = match self.sources.get_index(place) {
                Some(entry) => entry,
                None => unreachable!(),
            };
            items.push(source_value(alloc, *source, *modes)?);
        }
        Value::vector(alloc, items)
    }
}

fn source_value(alloc: Global, source: u64, modes: Modes) -> Result<Value, OutOfMemory>
    ensures { IfOk result (λ v. view v ≡ source_value (source_view (source, modes))) }
{
    four(
        alloc,
        channel(source),
        Value::Bool(modes.mute),
        Value::Bool(modes.pause),
        Value::Bool(modes.solo),
    )
}

fn solo_mode(alloc: Global, pausing: bool) -> Result<Value, OutOfMemory>
    ensures { IfOk result (λ v. view v ≡ mode_value pausing) }
{
    if pausing {
        word(alloc, b"pause")
    } else {
        word(alloc, b"mute")
    }
}

fn word(alloc: Global, bytes: &[u8]) -> Result<Value, OutOfMemory>
    ensures { IfOk result (λ v. view v ≡ keyword bytes.now) }
{
    Value::key(alloc, Text::from_bytes(alloc, bytes)?)
}

fn names_pause(value: &Value) -> bool
    ensures { result ≡ is_pause (view value.now) }
{
    match value {
        Value::Key(name) => is_word(name.as_slice(), b"pause"),
        _ => false,
    }
}
