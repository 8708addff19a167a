ghost use Rattle.std.specs.Prelude.{◌≡◌, ◌≤◌, ◌+◌, ◌<◌, ◌++◌, ◌∷◌, [], ℕ, not, nat_eq, filter, map, length, drop, fold, option_map, OnOk, Some, None, cond, eqb};
ghost use Rattle.indexmap.specs.IndexMap.{get, spare, index_map_len};
ghost use Rattle.ca_value.specs.View.{view};
ghost use Rattle.ca_value.specs.Equality.{equals};
ghost use Rattle.ca_registry.specs.Marks.{topic_view, mixed, int_mark, mark_of, first_marked, first_equal, or_place};

use ca_value::memory::OutOfMemory;
use ca_value::value::Value;
use indexmap::IndexMap;
use std::alloc::Global;

// A topic, its hidden mult and that mult's channel.
#[derive(Drop)]
pub(crate) struct Topic {
    pub(crate) topic: Value,
    pub(crate) mult: u64,
    pub(crate) channel: u64,
}

// Topics in order. The first one with a mark is found without a walk, so a topic is compared with those alone
// that have its mark.
#[derive(Drop)]
pub(crate) struct TopicList {
    topics: Vec<Topic>,
    firsts: IndexMap<u64, u64>,
    ghost marked: { (m : ℕ) → get nat_eq firsts m ≡ first_marked m (map topic_view topics.items) },
    ghost few: { index_map_len firsts ≤ length topics.items },
    ghost room: { length topics.items ≤ index_map_len firsts + spare firsts },
}

// A number that equal values have in common.
pub(crate) fn mark_of(value: &Value) -> u64
    ensures { result ≡ mark_of (view value.now) }
{
    match value {
        Value::Nil => 0,
        Value::Bool(_) => 1,
        Value::Int(n) => mark_of_int(*n),
        Value::Text(bytes) => mark_of_bytes(bytes.as_slice()),
        Value::Key(bytes) => mark_of_bytes(bytes.as_slice()),
        Value::Vector(_) => 2,
        Value::Map(_) => 3,
        Value::Port(port) => port.n,
    }
}

fn mark_of_int(n: i64) -> u64
    ensures { result ≡ int_mark n }
{
    if n < 0 { (-(n + 1)) as u64 } else { n as u64 }
}

fn mark_of_bytes(bytes: &[u8]) -> u64
    ensures { result ≡ fold mixed 7 bytes.now }
{
    let mut mark = 7u64;
    for byte in bytes {
        mark = (mark * 31 + u64::from(*byte)) % 0x1_0000_0000;
    }
    mark
}

fn find_among<'a>(topics: &'a [Topic], topic: &Value) -> Option<&'a Topic>
    ensures { option_map (λ t. topic_view t.now) result ≡ first_equal (view topic.now) (map topic_view topics.now) }
{
    for entry in topics {
        if topic.equal(&entry.topic) {
            return Some(entry);
        }
    }
    None
}

fn find_from<'a>(topics: &'a [Topic], first: u64, topic: &Value) -> Option<&'a Topic>
    requires { first ≤ length topics.now }
    ensures { option_map (λ t. topic_view t.now) result ≡ first_equal (view topic.now) (drop first (map topic_view topics.now)) }
{
    find_among(&topics[first as usize..], topic)
}

// Notes where a mark stands, if it is new.
fn note(firsts: &mut IndexMap<u64, u64>, mark: u64, place: u64)
    requires { 0 < spare firsts.old }
    ensures marked { (m : ℕ) → get nat_eq firsts.new m ≡ or_place (get nat_eq firsts.old m) (cond (eqb m mark) (Some place) None) }
    ensures few { index_map_len firsts.new ≤ index_map_len firsts.old + 1 }
    ensures room { index_map_len firsts.old + spare firsts.old ≤ index_map_len firsts.new + spare firsts.new }
{
    if firsts.get(&mark).is_some() {
        return;
    }
    match firsts.insert(mark, place) {
        Ok(_) => {}
        Err(_) => unreachable!(),
    }
}

// Notes where the first topic with each mark stands.
fn note_all(topics: &[Topic], firsts: &mut IndexMap<u64, u64>)
    requires { length topics.now ≤ index_map_len firsts.old + spare firsts.old }
    ensures marked { (m : ℕ) → get nat_eq firsts.new m ≡ first_marked m (map topic_view topics.now) }
    ensures few { index_map_len firsts.new ≤ length topics.now }
    ensures room { index_map_len firsts.old + spare firsts.old ≤ index_map_len firsts.new + spare firsts.new }
{
    firsts.clear();
    for i in 0..topics.len() {
        note(firsts, mark_of(&topics[i].topic), i as u64);
    }
}

impl TopicList {
    ghost use Rattle.ca_registry.specs.Publications.{topics_in, topics_room};

    // Without a topic. It takes no memory.
    pub(crate) fn new(alloc: Global) -> TopicList
        ensures { topics_in result ≡ [] }
    {
        TopicList {
            topics: Vec::new(alloc),
            firsts: IndexMap::new(alloc),
        }
    }

    pub(crate) fn reserve(&mut self, n: u64) -> Result<(), OutOfMemory>
        ensures spare { OnOk result (n ≤ topics_room self.new) }
        ensures kept { topics_in self.new ≡ topics_in self.old }
        ensures more { topics_room self.old ≤ topics_room self.new }
    {
        self.topics.reserve(n as usize)?;
        self.firsts.reserve(self.topics.capacity())?;
        Ok(())
    }

    pub(crate) fn as_slice(&self) -> &[Topic]
        ensures { map topic_view result.now ≡ topics_in self.now }
    {
        self.topics.as_slice()
    }

    // Where the first topic with this mark stands.
    fn first(&self, mark: u64) -> Option<u64>
        ensures { result ≡ first_marked mark (topics_in self.now) }
    {
        self.firsts.get(&mark).copied()
    }

    // The first topic that is equal to this one.
    pub(crate) fn find(&self, topic: &Value) -> Option<&Topic>
        ensures { option_map (λ t. topic_view t.now) result ≡ first_equal (view topic.now) (topics_in self.now) }
    {
        match self.first(mark_of(topic)) {
            Some(first) => find_from(self.topics.as_slice(), first, topic),
            None => None,
        }
    }

    // Adds the topic last.
    pub(crate) fn push(&mut self, topic: Topic)
        requires { 0 < topics_room self.old }
        ensures { topics_in self.new ≡ topics_in self.old ++ topic_view topic ∷ [] }
    {
        let place = self.topics.len() as u64;
        note(&mut self.firsts, mark_of(&topic.topic), place);
        match self.topics.push(topic) {
            Ok(()) => {}
            Err(_) => unreachable!(),
        }
    }

    // Takes out the topics that are equal to this one.
    pub(crate) fn forget(&mut self, topic: &Value)
        ensures { topics_in self.new ≡ filter (λ t. not (equals (view topic.now) t.topic)) (topics_in self.old) }
    {
        self.topics.retain(|entry| !topic.equal(&entry.topic));
        note_all(self.topics.as_slice(), &mut self.firsts);
    }

    pub(crate) fn clear(&mut self)
        ensures { topics_in self.new ≡ [] }
    {
        self.topics.clear();
        self.firsts.clear();
    }
}
