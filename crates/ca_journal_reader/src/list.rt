//! Lists in a line, up to its line feed.
ghost use Rattle.std.specs.Prelude.{◌≡◌, ◌∷◌, ◌++◌, [], length, map, OnOk, IfSome, IfNone, Some, None};
ghost use Rattle.ca_value.specs.Seq.{list};
ghost use Rattle.ca_value.specs.View.{view, views};
ghost use Rattle.ca_term.specs.Event.{branch_view, port_number};
ghost use Rattle.ca_journal_reader.specs.Found.{FindsAtEnd};
ghost use Rattle.ca_journal_reader.specs.FieldText.{branches_read, ports_read, values_read, arguments_parted};

use crate::cursor::Cursor;
use crate::refused::Refused;
use crate::value::add_item;
use ca_term::event::Branch;
use ca_value::memory::OutOfMemory;
use ca_value::seq::Seq;
use ca_value::value::{Items, PortId, Value};
use std::alloc::Global;

impl<'a> Cursor<'a> {
    /// Branches, with a comma and a space between.
    pub(crate) fn branches(&mut self, alloc: Global) -> Result<Seq<Branch>, Refused>
        ensures { FindsAtEnd (λ bs. map branch_view (list bs)) result (branches_read self.old.rest.now) }
    {
        let mut branches = Seq::new(alloc);
        for _ in 0..self.rest.len() {
            if self.is_at(b'\n') {
                return Ok(branches);
            }
            self.skip_comma();
            let branch = self.branch(alloc)?;
            add_branch(&mut branches, branch)?;
        }
        Err(Refused::Bad)
    }

    /// Ports, with a space between.
    pub(crate) fn ports(&mut self, alloc: Global) -> Result<Seq<PortId>, Refused>
        ensures { FindsAtEnd (λ ps. map port_number (list ps)) result (ports_read self.old.rest.now) }
    {
        let mut ports = Seq::new(alloc);
        for _ in 0..self.rest.len() {
            if self.is_at(b'\n') {
                return Ok(ports);
            }
            let port = self.port()?;
            add_port(&mut ports, port)?;
        }
        Err(Refused::Bad)
    }

    /// Values, with a space between.
    pub(crate) fn values(&mut self, alloc: Global) -> Result<Items, Refused>
        ensures { FindsAtEnd (λ vs. views (list vs)) result (values_read self.old.rest.now) }
    {
        let mut items = Items::new(alloc);
        for _ in 0..self.rest.len() {
            if self.is_at(b'\n') {
                return Ok(items);
            }
            let value = self.value(alloc)?;
            add_item(&mut items, value)?;
        }
        Err(Refused::Bad)
    }
}

/// The arguments of an operation, one at the least, and the answer behind them.
pub(crate) fn parted(mut values: Items) -> Option<(Items, Value)>
    ensures some { IfSome result (λ r. arguments_parted (views (list values)) ≡ Some (views (list r.0), view r.1)) }
    ensures none { IfNone result (arguments_parted (views (list values)) ≡ None) }
{
    let answer = values.pop()?;
    if values.len() == 0 {
        return None;
    }
    Some((values, answer))
}

fn add_branch(branches: &mut Seq<Branch>, branch: Branch) -> Result<(), OutOfMemory>
    ensures { OnOk result (map branch_view (list branches.new) ≡ map branch_view (list branches.old) ++ branch_view branch ∷ []) }
{
    branches.reserve(1)?;
    branches.push(branch);
    Ok(())
}

fn add_port(ports: &mut Seq<PortId>, port: PortId) -> Result<(), OutOfMemory>
    ensures { OnOk result (map port_number (list ports.new) ≡ map port_number (list ports.old) ++ port_number port ∷ []) }
{
    ports.reserve(1)?;
    ports.push(port);
    Ok(())
}
