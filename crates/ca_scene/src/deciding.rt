//! Whether a channel does what an event tells.
ghost use Rattle.std.specs.Prelude.{◌≡◌, Some};
ghost use Rattle.ca_value.specs.Tree.{Tree, bool, nil};
ghost use Rattle.ca_value.specs.View.{view};
ghost use Rattle.ca_term.specs.declared.event.Side.TheVariants.{Take, Put};
ghost use Rattle.ca_meaning.specs.Row.{put_row, take_row, settle_row, settle_take};
ghost use Rattle.ca_meaning.specs.Wait.{head};
ghost use Rattle.ca_scene.specs.Admits.{completes_with, meets_so, settles_so};
ghost use Rattle.ca_scene.specs.Same.{same};
ghost use Rattle.ca_scene.specs.Scene.{handler_code_view, room_channel, room_queue};

use crate::room::{Handler, Room};
use crate::same::same_side;
use ca_meaning::row::Policy;
use ca_term::event::Side;
use ca_value::value::Value;

fn is_bool(value: &Value, b: bool) -> bool
    ensures { result ≡ same (view value.now) (bool b) }
{
    match value {
        Value::Bool(a) => *a == b,
        _ => false,
    }
}

fn is_nil(value: &Value) -> bool
    ensures { result ≡ same (view value.now) nil }
{
    match value {
        Value::Nil => true,
        _ => false,
    }
}

impl Room {
    /// Whether a put is done at once with that answer.
    pub(crate) fn completes_put(&self, answer: &Value) -> bool
        ensures { (v : Tree) → completes_with (view answer.now) (put_row (room_channel self.now) (head (room_queue Take self.now)) (head (room_queue Put self.now)) v) ≡ result }
    {
        if self.closed {
            return is_bool(answer, false);
        }
        if let Policy::Promise = self.policy {
            return is_bool(answer, true);
        }
        if self.front(Side::Take).is_some() {
            return false;
        }
        if self.has_room() && self.front(Side::Put).is_none() {
            return is_bool(answer, true);
        }
        false
    }

    /// Whether a take is done at once with that answer.
    pub(crate) fn completes_take(&self, answer: &Value) -> bool
        ensures { completes_with (view answer.now) (take_row (room_channel self.now) (head (room_queue Put self.now))) ≡ result }
    {
        if let Some(value) = self.held.front() {
            return answer.same(value);
        }
        if self.front(Side::Put).is_some() {
            return false;
        }
        self.closed && is_nil(answer)
    }

    /// Whether a put of that value meets that branch of that wait, and this value passes.
    pub(crate) fn meets_put(&self, value: &Value, wait: u64, branch: u64, put: &Value) -> bool
        ensures { meets_so (view value.now) wait branch (put_row (room_channel self.now) (head (room_queue Take self.now)) (head (room_queue Put self.now)) (view put.now)) ≡ result }
    {
        if self.closed {
            return false;
        }
        if let Policy::Promise = self.policy {
            return false;
        }
        match self.front(Side::Take) {
            Some(handler) => value.same(put) && (handler.wait == wait && handler.branch == branch),
            None => false,
        }
    }

    /// Whether a take meets that branch of that wait, and this value passes.
    pub(crate) fn meets_take(&self, value: &Value, wait: u64, branch: u64) -> bool
        ensures { meets_so (view value.now) wait branch (take_row (room_channel self.now) (head (room_queue Put self.now))) ≡ result }
    {
        if !self.held.is_empty() {
            return false;
        }
        match self.front(Side::Put) {
            Some(handler) => {
                value.same(&handler.value) && (handler.wait == wait && handler.branch == branch)
            }
            None => false,
        }
    }

    /// Whether it serves that branch of that wait, on this side, with this value.
    pub(crate) fn settles(&self, wait: u64, branch: u64, side: Side, value: &Value) -> bool
        ensures { settles_so wait branch side (view value.now) (settle_row (room_channel self.now) (head (room_queue Take self.now)) (head (room_queue Put self.now))) ≡ result }
    {
        if let Policy::Fixed = self.policy {
            if self.has_room() {
                if let Some(handler) = self.front(Side::Put) {
                    return same_side(Side::Put, side)
                        && (value.same(&handler.value)
                            && (handler.wait == wait && handler.branch == branch));
                }
            }
        }
        match self.front(Side::Take) {
            Some(handler) => self.serves(handler, wait, branch, side, value),
            None => false,
        }
    }

    fn serves(&self, handler: &Handler, wait: u64, branch: u64, side: Side, value: &Value) -> bool
        ensures { settles_so wait branch side (view value.now) (settle_take (room_channel self.now) (room_channel self.now).held (Some (handler_code_view handler.now))) ≡ result }
    {
        match self.held.front() {
            Some(first) => {
                same_side(Side::Take, side)
                    && (value.same(first) && (handler.wait == wait && handler.branch == branch))
            }
            None => {
                self.closed
                    && (same_side(Side::Take, side)
                        && (is_nil(value) && (handler.wait == wait && handler.branch == branch)))
            }
        }
    }
}
