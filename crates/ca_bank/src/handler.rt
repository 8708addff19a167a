use ca_term::event::WaitId;
use ca_value::value::Value;

/// A branch of a wait as it stands in a queue: its wait, its number there, and the value that a put brings.
#[derive(Drop)]
pub struct Handler {
    pub wait: WaitId,
    pub branch: u64,
    pub value: Option<Value>,
}
