ghost use Rattle.std.specs.Prelude.{◌≡◌, ℕ, ◌+◌, ◌-◌, ◌^◌, ◌<◌, ◌≤◌, IfSome, SomeIff, nat_le};
ghost use Rattle.ca_value.specs.View.{view};
ghost use Rattle.ca_value.specs.Measure.{weight_of, depth_of};
ghost use Rattle.ca_value.specs.Measured.{capped, IsDepthAfter};

use crate::value::Value;

impl Value {
    // How heavy the value is, or the greatest number.
    pub(crate) fn capped_weight(&self) -> u64
        ensures { result ≡ capped (weight_of (view self.now)) }
    {
        match self {
            Value::Nil | Value::Bool(_) | Value::Int(_) | Value::Port(_) => 1,
            Value::Text(text) | Value::Key(text) => text.len().saturating_add(1),
            Value::Vector(items) => items.weight().saturating_add(1),
            Value::Map(pairs) => pairs.weight().saturating_add(1),
        }
    }

    // How deep the value is, or the greatest number.
    pub(crate) fn capped_depth(&self) -> u64
        ensures { result ≡ capped (depth_of (view self.now)) }
    {
        match self {
            Value::Vector(items) => items.depth().saturating_add(1),
            Value::Map(pairs) => pairs.depth().saturating_add(1),
            _ => 1,
        }
    }

    /// How heavy the value is: 1 for a scalar, 1 more than its bytes for a text or a keyword, 1 more
    /// than its parts for a vector or a map.
    pub fn weight(&self) -> u64
        requires { weight_of (view self.now) < 2 ^ 64 }
        ensures { result ≡ weight_of (view self.now) }
    {
        self.capped_weight()
    }

    /// How deep the value is: 1 for a scalar, one more than its deepest part for a vector or a map.
    pub fn depth(&self) -> u64
        requires { depth_of (view self.now) < 2 ^ 64 }
        ensures { result ≡ depth_of (view self.now) }
    {
        self.capped_depth()
    }

    /// What is left of the room once the value's weight is taken, or None if it is heavier.
    pub fn room_after(&self, room: u64) -> Option<u64>
        ensures { let weight = weight_of (view self.now) in SomeIff result (weight ≤ room) (room - weight) }
    {
        let room = room.checked_sub(1)?;
        match self {
            Value::Nil | Value::Bool(_) | Value::Int(_) | Value::Port(_) => Some(room),
            Value::Text(text) | Value::Key(text) => room.checked_sub(text.len()),
            Value::Vector(items) => room.checked_sub(items.weight()),
            Value::Map(pairs) => room.checked_sub(pairs.weight()),
        }
    }

    /// Whether the value is at most so deep.
    pub fn is_within_depth(&self, levels: u64) -> bool
        ensures { result ≡ nat_le (depth_of (view self.now)) levels }
    {
        match self {
            _ if levels == 0 => false,
            Value::Vector(items) => items.depth() <= levels - 1,
            Value::Map(pairs) => pairs.depth() <= levels - 1,
            _ => true,
        }
    }
}

/// The weight of a list that weighed so much before a part of it gave way to another; None where only a
/// count tells.
pub(crate) fn weight_after(before: u64, old: u64, new: u64) -> Option<u64>
    ensures { (w o n e : ℕ) → before ≡ capped w → old ≡ capped o → new ≡ capped n → o ≤ w → e + o ≡ w + n → IfSome result (λ r. r ≡ capped e) }
{
    if before == u64::MAX {
        return None;
    }
    Some(before.saturating_sub(old).saturating_add(new))
}

/// The depth of a list that was so deep before a part of it gave way to another; None where the deepest
/// may have gone.
pub(crate) fn depth_after(before: u64, old: u64, new: u64) -> Option<u64>
    ensures { (d o n e : ℕ) → before ≡ capped d → old ≡ capped o → new ≡ capped n → IsDepthAfter d o n e → IfSome result (λ r. r ≡ capped e) }
{
    if old <= new {
        return Some(before.max(new));
    }
    if old < before {
        return Some(before.max(new));
    }
    None
}
