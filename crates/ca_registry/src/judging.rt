//! What an operation on a registry comes to, judged without memory: its fault, and whether an answer is the one that it has.
ghost use Rattle.std.specs.Prelude.{◌≡◌, true, codes, map, None, Some, option_map};
ghost use Rattle.std.specs.Str.{bytes_eq};
ghost use Rattle.ca_value.specs.Equality.{equals};
ghost use Rattle.ca_value.specs.Same.{same, same_items};
ghost use Rattle.ca_value.specs.Tree.{nil, bool, key as keyword, vector, port, item, none, trees_of};
ghost use Rattle.ca_value.specs.View.{view, trees};
ghost use Rattle.ca_term.specs.declared.head.RegisterName.TheVariants.{Place};
ghost use Rattle.ca_meaning.specs.Operands.{first_of};
ghost use Rattle.ca_meaning.specs.Refusal.{fault_of_registered};
ghost use Rattle.ca_meaning.specs.Registry.{channels_differ, pair_found, mode_value, pairs_in, with_topic_placed, source_value, tap_value, topic_value};
ghost use Rattle.ca_registry.specs.Gives.{gives_answer};
ghost use Rattle.ca_registry.specs.Marks.{first_equal, topic_view};
ghost use Rattle.ca_registry.specs.Mixes.{TogglesApart, mix_gives, source_view, mix_sources, toggle_gives};
ghost use Rattle.ca_registry.specs.Publications.{PlacesItself, topic_channel, publication_gives, topic_made, topics_of};
ghost use Rattle.ca_registry.specs.Registries.{mult_gives, tap_view, mult_taps};
ghost use Rattle.ca_registry.specs.Registry.{comes_to, registry_view};

use crate::mix::{Mix, Modes};
use crate::mult::Mult;
use crate::publication::Publication;
use crate::registry::Registry;
use crate::topic::Topic;
use ca_asking::operands::{operand, port_at, truth_at};
use ca_term::fault::Fault;
use ca_term::head::RegisterName;
use ca_value::value::Value;

impl Registry {
    /// The operation's fault, if it has one. Each key of a toggle is a channel.
    pub fn fault(&self, name: RegisterName, args: &[Value]) -> Option<Fault>
        requires { TogglesApart name (trees args.now) }
        ensures { result ≡ fault_of_registered (comes_to (Some (registry_view self.now)) name (trees args.now)) }
    {
        match self {
            Registry::Mult(mult) => mult.fault(name, args),
            Registry::Mix(mix) => mix.fault(name, args),
            Registry::Publication(publication) => publication.fault(name, args),
        }
    }

    /// Whether this is the operation's answer. Each key of a toggle is a channel.
    pub fn gives(&self, name: RegisterName, args: &[Value], answer: &Value) -> bool
        requires apart { TogglesApart name (trees args.now) }
        requires itself { PlacesItself name (trees args.now) }
        ensures { gives_answer (view answer.now) (comes_to (Some (registry_view self.now)) name (trees args.now)) ≡ result }
    {
        match self {
            Registry::Mult(mult) => mult.gives(name, args, answer),
            Registry::Mix(mix) => mix.gives(name, args, answer),
            Registry::Publication(publication) => publication.gives(name, args, answer),
        }
    }
}

impl Mult {
    fn fault(&self, name: RegisterName, args: &[Value]) -> Option<Fault>
        ensures { result ≡ fault_of_registered (mult_gives self.now name (trees args.now)) }
    {
        match name {
            RegisterName::Tap => {
                if self.admits(port_at(args, 0).n, truth_at(args, 1)) {
                    None
                } else {
                    Some(Fault::TooManyMembers)
                }
            }
            RegisterName::Untap | RegisterName::UntapAll | RegisterName::Taps => None,
            _ => Some(Fault::NotAPort),
        }
    }

    fn gives(&self, name: RegisterName, args: &[Value], answer: &Value) -> bool
        ensures { gives_answer (view answer.now) (mult_gives self.now name (trees args.now)) ≡ result }
    {
        match name {
            RegisterName::Tap => {
                let nil = Value::Nil;
                if self.admits(port_at(args, 0).n, truth_at(args, 1)) {
                    answer.same(operand(args, 0, &nil))
                } else {
                    false
                }
            }
            RegisterName::Untap | RegisterName::UntapAll => is_nil(answer),
            RegisterName::Taps => match answer {
                Value::Vector(items) => self.lists(items.as_slice()),
                _ => false,
            },
            _ => false,
        }
    }

    // Whether these are the taps, in order.
    fn lists(&self, items: &[Value]) -> bool
        ensures { same_items (trees items.now) (trees_of (map tap_value (mult_taps self.now))) ≡ result }
    {
        if items.len() != self.taps.len() {
            return false;
        }
        for place in 0..items.len() {
            let (tapped, closes) = match self.taps.get_index(place) {
                Some(entry) => entry,
                None => unreachable!(),
            };
            if !is_tap(&items[place], *tapped, *closes) {
                return false;
            }
        }
        true
    }
}

impl Mix {
    fn fault(&self, name: RegisterName, args: &[Value]) -> Option<Fault>
        requires { TogglesApart name (trees args.now) }
        ensures { result ≡ fault_of_registered (mix_gives self.now name (trees args.now)) }
    {
        match name {
            RegisterName::Admix => {
                if self.admits(port_at(args, 0).n) {
                    None
                } else {
                    Some(Fault::TooManyMembers)
                }
            }
            RegisterName::Toggle => self.toggle_fault(args),
            RegisterName::Unmix | RegisterName::UnmixAll => None,
            RegisterName::SoloMode | RegisterName::Modes => None,
            _ => Some(Fault::NotAPort),
        }
    }

    #[tactic(auto, using(crate::proofs::Sources::all_true))]
    fn toggle_fault(&self, args: &[Value]) -> Option<Fault>
        requires { channels_differ (pairs_in (first_of (trees args.now))) ≡ true }
        ensures { result ≡ fault_of_registered (toggle_gives self.now (pairs_in (first_of (trees args.now)))) }
    {
        if self.admits_first(args) {
            None
        } else {
            Some(Fault::TooManyMembers)
        }
    }

    fn gives(&self, name: RegisterName, args: &[Value], answer: &Value) -> bool
        requires { TogglesApart name (trees args.now) }
        ensures { gives_answer (view answer.now) (mix_gives self.now name (trees args.now)) ≡ result }
    {
        match name {
            RegisterName::Admix => {
                if self.admits(port_at(args, 0).n) {
                    is_port(answer, self.changes)
                } else {
                    false
                }
            }
            RegisterName::Toggle => self.gives_toggle(args, answer),
            RegisterName::Unmix | RegisterName::UnmixAll | RegisterName::SoloMode => {
                is_port(answer, self.changes)
            }
            RegisterName::Modes => match answer {
                Value::Vector(items) => self.lists(items.as_slice()),
                _ => false,
            },
            _ => false,
        }
    }

    #[tactic(auto, using(crate::proofs::Sources::all_true))]
    fn gives_toggle(&self, args: &[Value], answer: &Value) -> bool
        requires { channels_differ (pairs_in (first_of (trees args.now))) ≡ true }
        ensures { gives_answer (view answer.now) (toggle_gives self.now (pairs_in (first_of (trees args.now)))) ≡ result }
    {
        if self.admits_first(args) {
            is_port(answer, self.changes)
        } else {
            false
        }
    }

    // Whether these are the solo mode and then the sources, in order.
    fn lists(&self, items: &[Value]) -> bool
        ensures { same_items (trees items.now) (item (mode_value self.now.pausing) (trees_of (map source_value (mix_sources self.now)))) ≡ result }
    {
        match items.split_first() {
            None => false,
            Some((mode, sources)) => is_mode(mode, self.pausing) && self.lists_sources(sources),
        }
    }

    fn lists_sources(&self, items: &[Value]) -> bool
        ensures { same_items (trees items.now) (trees_of (map source_value (mix_sources self.now))) ≡ result }
    {
        if items.len() != self.sources.len() {
            return false;
        }
        for place in 0..items.len() {
            let (source, modes) = match self.sources.get_index(place) {
                Some(entry) => entry,
                None => unreachable!(),
            };
            if !is_source(&items[place], *source, *modes) {
                return false;
            }
        }
        true
    }
}

impl Publication {
    fn fault(&self, name: RegisterName, args: &[Value]) -> Option<Fault>
        ensures { result ≡ fault_of_registered (publication_gives self.now name (trees args.now)) }
    {
        match name {
            RegisterName::Place => {
                if self.admits(args) {
                    None
                } else {
                    Some(Fault::TooManyMembers)
                }
            }
            RegisterName::Find | RegisterName::Drop => None,
            RegisterName::Clear | RegisterName::Topics => None,
            _ => Some(Fault::NotAPort),
        }
    }

    fn gives(&self, name: RegisterName, args: &[Value], answer: &Value) -> bool
        requires { PlacesItself name (trees args.now) }
        ensures { gives_answer (view answer.now) (publication_gives self.now name (trees args.now)) ≡ result }
    {
        match name {
            RegisterName::Find => self.gives_found(args, answer),
            RegisterName::Place => {
                if self.admits(args) {
                    self.gives_placed(args, answer)
                } else {
                    false
                }
            }
            RegisterName::Drop | RegisterName::Clear => is_nil(answer),
            RegisterName::Topics => match answer {
                Value::Vector(items) => self.lists(items.as_slice()),
                _ => false,
            },
            _ => false,
        }
    }

    // Whether it is the pair that stands there for the topic, or nil.
    #[tactic(auto, using(crate::proofs::Topics::found_first))]
    fn gives_found(&self, args: &[Value], answer: &Value) -> bool
        ensures { same (view answer.now) (pair_found (first_of (trees args.now)) (topics_of self.now)) ≡ result }
    {
        let nil = Value::Nil;
        match self.topics.find(operand(args, 0, &nil)) {
            Some(entry) => is_pair(answer, entry.mult, entry.channel),
            None => is_nil(answer),
        }
    }

    // Whether it is the pair that stands there once the topic is placed.
    #[tactic(auto, using(crate::proofs::Topics::found_placed))]
    fn gives_placed(&self, args: &[Value], answer: &Value) -> bool
        requires { equals (first_of (trees args.now)) (first_of (trees args.now)) ≡ true }
        ensures { same (view answer.now) (pair_found (first_of (trees args.now)) (with_topic_placed (topic_made (trees args.now)) (topics_of self.now))) ≡ result }
    {
        let nil = Value::Nil;
        if self.has(operand(args, 0, &nil)) {
            return self.gives_found(args, answer);
        }
        is_pair(answer, port_at(args, 1).n, port_at(args, 2).n)
    }

    // Whether these are the topics' channels, in order.
    fn lists(&self, items: &[Value]) -> bool
        ensures { same_items (trees items.now) (trees_of (map topic_channel (topics_of self.now))) ≡ result }
    {
        list_channels(items, self.topics.as_slice())
    }
}

fn list_channels(items: &[Value], topics: &[Topic]) -> bool
    ensures { same_items (trees items.now) (trees_of (map topic_channel (map topic_view topics.now))) ≡ result }
{
    if items.len() != topics.len() {
        return false;
    }
    for place in 0..items.len() {
        if !is_port(&items[place], topics[place].channel) {
            return false;
        }
    }
    true
}

fn is_nil(value: &Value) -> bool
    ensures { result ≡ same (view value.now) nil }
{
    match value {
        Value::Nil => true,
        _ => false,
    }
}

fn is_port(value: &Value, number: u64) -> bool
    ensures { result ≡ same (view value.now) (port number) }
{
    match value {
        Value::Port(port) => port.n == number,
        _ => false,
    }
}

fn is_bool(value: &Value, b: bool) -> bool
    ensures { result ≡ same (view value.now) (bool b) }
{
    match value {
        Value::Bool(a) => *a == b,
        _ => false,
    }
}

fn is_word(value: &Value, word: &[u8]) -> bool
    ensures { result ≡ same (view value.now) (keyword word.now) }
{
    match value {
        Value::Key(name) => name.as_slice() == word,
        _ => false,
    }
}

fn is_mode(value: &Value, pausing: bool) -> bool
    ensures { result ≡ same (view value.now) (mode_value pausing) }
{
    if pausing {
        is_word(value, b"pause")
    } else {
        is_word(value, b"mute")
    }
}

fn is_tap(value: &Value, tapped: u64, closes: bool) -> bool
    ensures { result ≡ same (view value.now) (tap_value (tap_view (tapped, closes))) }
{
    match value {
        Value::Vector(items) => are_tap(items.as_slice(), tapped, closes),
        _ => false,
    }
}

#[tactic(auto, using(crate::proofs::Listed::not_two, crate::proofs::Listed::two_given))]
fn are_tap(items: &[Value], tapped: u64, closes: bool) -> bool
    ensures { result ≡ same_items (trees items.now) (item (port tapped) (item (bool closes) none)) }
{
    if items.len() != 2 {
        return false;
    }
    is_port(&items[0], tapped) && is_bool(&items[1], closes)
}

fn is_pair(value: &Value, mult: u64, channel: u64) -> bool
    ensures { result ≡ same (view value.now) (vector (item (port mult) (item (port channel) none))) }
{
    match value {
        Value::Vector(items) => are_ports(items.as_slice(), mult, channel),
        _ => false,
    }
}

#[tactic(auto, using(crate::proofs::Listed::not_two, crate::proofs::Listed::two_given))]
fn are_ports(items: &[Value], mult: u64, channel: u64) -> bool
    ensures { result ≡ same_items (trees items.now) (item (port mult) (item (port channel) none)) }
{
    if items.len() != 2 {
        return false;
    }
    is_port(&items[0], mult) && is_port(&items[1], channel)
}

fn is_source(value: &Value, source: u64, modes: Modes) -> bool
    ensures { result ≡ same (view value.now) (source_value (source_view (source, modes))) }
{
    match value {
        Value::Vector(items) => are_modes(items.as_slice(), source, modes),
        _ => false,
    }
}

#[tactic(auto, using(crate::proofs::Listed::not_four, crate::proofs::Listed::four_given))]
fn are_modes(items: &[Value], source: u64, modes: Modes) -> bool
    ensures { result ≡ same_items (trees items.now) (item (port source) (item (bool modes.mute) (item (bool modes.pause) (item (bool modes.solo) none)))) }
{
    if items.len() != 4 {
        return false;
    }
    is_port(&items[0], source)
        && (is_bool(&items[1], modes.mute)
            && (is_bool(&items[2], modes.pause) && is_bool(&items[3], modes.solo)))
}
