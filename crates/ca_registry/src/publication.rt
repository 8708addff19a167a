ghost use Rattle.std.specs.Prelude.{◌≡◌, ◌≤◌, ◌+◌, ◌<◌, Some, [], not, nat_lt, filter, map, length, IfOk, IfErr, OnOk, true};
ghost use Rattle.ca_value.specs.Seq.{list};
ghost use Rattle.ca_value.specs.View.{view, trees};
ghost use Rattle.ca_value.specs.Tree.{vector, port, trees_of};
ghost use Rattle.ca_value.specs.Equality.{equals};
ghost use Rattle.ca_meaning.specs.Operands.{first_of, port_of_value};
ghost use Rattle.ca_meaning.specs.Registry.{a_publication, pair_found, with_topic_placed, topic_value};
ghost use Rattle.ca_term.specs.declared.head.RegisterName.TheVariants.{Place};
ghost use Rattle.ca_registry.specs.Registries.{answered, IsCause, left_by, members_added};
ghost use Rattle.ca_registry.specs.Publications.{topics_of, publication_view, topics_spare, publication_gives, has_topic, topic_made, topic_channel, PlacesItself};

use crate::listing::{channel, pair};
use crate::registry_error::RegisterError;
use crate::topic::{Topic, TopicList};
use ca_asking::operands::{operand, port_at, value_at};
use ca_term::head::RegisterName;
use ca_value::memory::OutOfMemory;
use ca_value::seq::Seq;
use ca_value::value::{Items, PortId, Value};
use std::alloc::Global;

// How many topics a publication has at most.
const MOST_TOPICS: usize = 1024;

// A publication: its source and its topics.
#[derive(Drop)]
pub struct Publication {
    source: u64,
    pub(crate) topics: TopicList,
}

impl Publication {
    // Without a topic. It takes no memory.
    pub(crate) fn new(alloc: Global, source: PortId) -> Publication
        ensures { publication_view result ≡ a_publication source.n [] }
    {
        Publication {
            source: source.n,
            topics: TopicList::new(alloc),
        }
    }

    pub(crate) fn reserve(&mut self, n: u64) -> Result<(), OutOfMemory>
        ensures spare { OnOk result (n ≤ topics_spare self.new) }
        ensures kept { publication_view self.new ≡ publication_view self.old }
        ensures more { topics_spare self.old ≤ topics_spare self.new }
    {
        self.topics.reserve(n)
    }

    #[tactic(auto, using(crate::proofs::Topics::has_first))]
    pub(crate) fn has(&self, topic: &Value) -> bool
        ensures { result ≡ has_topic (view topic.now) (topics_of self.now) }
    {
        self.topics.find(topic).is_some()
    }

    // The pair that stands there for the topic, or nil.
    #[tactic(auto, using(crate::proofs::Topics::found_first))]
    fn find(&self, alloc: Global, topic: &Value) -> Result<Value, OutOfMemory>
        ensures { IfOk result (λ v. view v ≡ pair_found (view topic.now) (topics_of self.now)) }
    {
        match self.topics.find(topic) {
            Some(entry) => pair(alloc, channel(entry.mult), channel(entry.channel)),
            None => Ok(Value::Nil),
        }
    }

    // Whether it may have this topic too.
    #[tactic(auto, using(crate::proofs::Topics::placed_size))]
    pub(crate) fn admits(&self, args: &[Value]) -> bool
        ensures { result ≡ not (nat_lt 1024 (length (with_topic_placed (topic_made (trees args.now)) (topics_of self.now)))) }
    {
        let nil = Value::Nil;
        let more = if self.has(operand(args, 0, &nil)) {
            0
        } else {
            1
        };
        self.topics.as_slice().len() + more <= MOST_TOPICS
    }

    // Adds the topic last, where it isn't there.
    #[tactic(auto, using(crate::proofs::Topics::placed_old))]
    fn place(&mut self, topic: Value, mult: u64, channel: u64)
        requires { 0 < topics_spare self.old }
        ensures { publication_view self.new ≡ a_publication self.old.source (with_topic_placed (record { topic = view topic; mult = mult; channel = channel }) (topics_of self.old)) }
    {
        if self.has(&topic) {
            return;
        }
        let entry = Topic {
            topic,
            mult,
            channel,
        };
        self.topics.push(entry);
    }

    fn forget(&mut self, topic: &Value)
        ensures { publication_view self.new ≡ a_publication self.old.source (filter (λ t. not (equals (view topic.now) t.topic)) (topics_of self.old)) }
    {
        self.topics.forget(topic);
    }

    fn clear(&mut self)
        ensures { publication_view self.new ≡ a_publication self.old.source [] }
    {
        self.topics.clear();
    }

    // The topics' channels, in order.
    fn list(&self, alloc: Global) -> Result<Value, OutOfMemory>
        ensures { IfOk result (λ v. view v ≡ vector (trees_of (map topic_channel (topics_of self.now)))) }
    {
        let mut items = Seq::new(alloc);
        let topics = self.topics.as_slice();
        items.reserve(topics.len() as u64)?;
        for entry in topics {
            items.push(channel(entry.channel));
        }
        Value::vector(alloc, items)
    }

    // Adds the topic of the arguments, where it isn't there and the limit allows it.
    fn place_first(&mut self, args: Items)
        requires { 0 < topics_spare self.old }
        ensures { publication_view self.new ≡ left_by (publication_gives self.old Place (trees (list args))) (publication_view self.old) }
    {
        if self.admits(args.as_slice()) {
            let mult = port_at(args.as_slice(), 1).n;
            let channel = port_at(args.as_slice(), 2).n;
            self.place(value_at(args, 0), mult, channel);
        }
    }

    // The operation's change; where it faults there is none.
    pub(crate) fn register(&mut self, name: RegisterName, args: Items)
        requires { members_added name (trees (list args)) ≤ topics_spare self.old }
        ensures { publication_view self.new ≡ left_by (publication_gives self.old name (trees (list args))) (publication_view self.old) }
    {
        match name {
            RegisterName::Place => self.place_first(args),
            RegisterName::Drop => self.forget(&value_at(args, 0)),
            RegisterName::Clear => self.clear(),
            _ => {}
        }
    }

    // The operation's answer, or its fault.
    pub(crate) fn answer(
        &self,
        alloc: Global,
        name: RegisterName,
        args: &[Value],
    ) -> Result<Value, RegisterError>
        requires { PlacesItself name (trees args.now) }
        ensures ok { IfOk result (λ v. answered (publication_gives self.now name (trees args.now)) ≡ Some (view v)) }
        ensures err { IfErr result (λ e. IsCause e (publication_gives self.now name (trees args.now))) }
    {
        match name {
            RegisterName::Find => Ok(self.find_first(alloc, args)?),
            RegisterName::Place => self.answer_place(alloc, args),
            RegisterName::Drop | RegisterName::Clear => Ok(Value::Nil),
            RegisterName::Topics => Ok(self.list(alloc)?),
            _ => Err(RegisterError::NotAPort),
        }
    }

    fn find_first(&self, alloc: Global, args: &[Value]) -> Result<Value, OutOfMemory>
        ensures { IfOk result (λ v. view v ≡ pair_found (first_of (trees args.now)) (topics_of self.now)) }
    {
        let nil = Value::Nil;
        self.find(alloc, operand(args, 0, &nil))
    }

    fn answer_place(&self, alloc: Global, args: &[Value]) -> Result<Value, RegisterError>
        requires { equals (first_of (trees args.now)) (first_of (trees args.now)) ≡ true }
        ensures ok { IfOk result (λ v. answered (publication_gives self.now Place (trees args.now)) ≡ Some (view v)) }
        ensures err { IfErr result (λ e. IsCause e (publication_gives self.now Place (trees args.now))) }
    {
        if !self.admits(args) {
            return Err(RegisterError::TooManyMembers);
        }
        Ok(self.placed(alloc, args)?)
    }

    // The pair that stands there once the topic is placed.
    #[tactic(auto, using(crate::proofs::Topics::found_placed))]
    fn placed(&self, alloc: Global, args: &[Value]) -> Result<Value, OutOfMemory>
        requires { equals (first_of (trees args.now)) (first_of (trees args.now)) ≡ true }
        ensures { IfOk result (λ v. view v ≡ pair_found (first_of (trees args.now)) (with_topic_placed (topic_made (trees args.now)) (topics_of self.now))) }
    {
        if self.has_first(args) {
            return self.find_first(alloc, args);
        }
        pair(
            alloc,
            channel(port_at(args, 1).n),
            channel(port_at(args, 2).n),
        )
    }

    fn has_first(&self, args: &[Value]) -> bool
        ensures { result ≡ has_topic (first_of (trees args.now)) (topics_of self.now) }
    {
        let nil = Value::Nil;
        self.has(operand(args, 0, &nil))
    }
}
