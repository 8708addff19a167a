ghost use Rattle.std.specs.Prelude.{◌≡◌, ◌≤◌, ◌+◌, ◌<◌, Some, [], not, nat_lt, eqb, filter, map, length, IfOk, IfErr, OnOk};
ghost use Rattle.ca_value.specs.View.{view, trees};
ghost use Rattle.ca_value.specs.Tree.{nil, vector, trees_of};
ghost use Rattle.ca_term.specs.declared.head.RegisterName.TheVariants.{Tap};
ghost use Rattle.ca_meaning.specs.Registry.{a_mult, tapped, tap_value, within_limit};
ghost use Rattle.ca_registry.specs.Registries.{answered, IsCause, left_by, members_added, tap_view, mult_taps, mult_view, mult_spare, mult_gives};

use crate::listing::{channel, pair};
use crate::registry_error::RegisterError;
use ca_asking::operands::{operand, port_at, truth_at};
use ca_term::head::RegisterName;
use ca_value::memory::OutOfMemory;
use ca_value::seq::Seq;
use ca_value::value::{PortId, Value};
use indexmap::IndexMap;
use std::alloc::Global;

// How many taps a mult has at most.
const MOST_TAPS: usize = 1024;

// A mult: its source and its taps, each with whether it closes with the source.
#[derive(Drop)]
pub struct Mult {
    source: u64,
    pub(crate) taps: IndexMap<u64, bool>,
}

impl Mult {
    // Without a tap. It takes no memory.
    pub(crate) fn new(alloc: Global, source: PortId) -> Mult
        ensures { mult_view result ≡ a_mult source.n [] }
    {
        Mult {
            source: source.n,
            taps: IndexMap::new(alloc),
        }
    }

    pub(crate) fn reserve(&mut self, n: u64) -> Result<(), OutOfMemory>
        ensures spare { OnOk result (n ≤ mult_spare self.new) }
        ensures kept { mult_view self.new ≡ mult_view self.old }
        ensures more { mult_spare self.old ≤ mult_spare self.new }
    {
        self.taps.reserve(n as usize)?;
        Ok(())
    }

    // Whether it may have this tap too.
    #[tactic(auto, using(crate::proofs::Members::tapped_more))]
    pub(crate) fn admits(&self, channel: u64, closes: bool) -> bool
        ensures { result ≡ not (nat_lt 1024 (length (tapped (tap_view (channel, closes)) (mult_taps self.now)))) }
    {
        let more = if self.taps.get(&channel).is_some() {
            0
        } else {
            1
        };
        self.taps.len() + more <= MOST_TAPS
    }

    #[tactic(auto, using(crate::proofs::Members::tapped_is))]
    fn set_tap(&mut self, channel: u64, closes: bool)
        requires { 0 < mult_spare self.old }
        ensures { mult_view self.new ≡ a_mult self.old.source (tapped (tap_view (channel, closes)) (mult_taps self.old)) }
    {
        match self.taps.insert(channel, closes) {
            Ok(_) => {}
            Err(_) => unreachable!(),
        }
    }

    #[tactic(auto, using(crate::proofs::Members::untapped_is))]
    fn untap(&mut self, channel: u64)
        ensures { mult_view self.new ≡ a_mult self.old.source (filter (λ t. not (eqb channel t.channel)) (mult_taps self.old)) }
    {
        let _ = self.taps.shift_remove(&channel);
    }

    fn untap_all(&mut self)
        ensures { mult_view self.new ≡ a_mult self.old.source [] }
    {
        self.taps.clear();
    }

    // Adds the tap, or changes it in place, where the limit allows it.
    fn tap(&mut self, channel: u64, closes: bool)
        requires { 0 < mult_spare self.old }
        ensures { mult_view self.new ≡ left_by (within_limit 1024 (length (tapped (tap_view (channel, closes)) (mult_taps self.old))) nil (a_mult self.old.source (tapped (tap_view (channel, closes)) (mult_taps self.old)))) (mult_view self.old) }
    {
        if self.admits(channel, closes) {
            self.set_tap(channel, closes);
        }
    }

    // The operation's change; where it faults there is none.
    pub(crate) fn register(&mut self, name: RegisterName, args: &[Value])
        requires { members_added name (trees args.now) ≤ mult_spare self.old }
        ensures { mult_view self.new ≡ left_by (mult_gives self.old name (trees args.now)) (mult_view self.old) }
    {
        match name {
            RegisterName::Tap => self.tap(port_at(args, 0).n, truth_at(args, 1)),
            RegisterName::Untap => self.untap(port_at(args, 0).n),
            RegisterName::UntapAll => self.untap_all(),
            _ => {}
        }
    }

    // The operation's answer, or its fault.
    pub(crate) fn answer(
        &self,
        alloc: Global,
        name: RegisterName,
        args: &[Value],
    ) -> Result<Value, RegisterError>
        ensures ok { IfOk result (λ v. answered (mult_gives self.now name (trees args.now)) ≡ Some (view v)) }
        ensures err { IfErr result (λ e. IsCause e (mult_gives self.now name (trees args.now))) }
    {
        match name {
            RegisterName::Tap => self.answer_tap(alloc, args),
            RegisterName::Untap | RegisterName::UntapAll => Ok(Value::Nil),
            RegisterName::Taps => Ok(self.list(alloc)?),
            _ => Err(RegisterError::NotAPort),
        }
    }

    fn answer_tap(&self, alloc: Global, args: &[Value]) -> Result<Value, RegisterError>
        ensures ok { IfOk result (λ v. answered (mult_gives self.now Tap (trees args.now)) ≡ Some (view v)) }
        ensures err { IfErr result (λ e. IsCause e (mult_gives self.now Tap (trees args.now))) }
    {
        if !self.admits(port_at(args, 0).n, truth_at(args, 1)) {
            return Err(RegisterError::TooManyMembers);
        }
        let nil = Value::Nil;
        Ok(operand(args, 0, &nil).copy(alloc)?)
    }

    // The taps, in order.
    fn list(&self, alloc: Global) -> Result<Value, OutOfMemory>
        ensures { IfOk result (λ v. view v ≡ vector (trees_of (map tap_value (mult_taps self.now)))) }
    {
        let mut items = Seq::new(alloc);
        items.reserve(self.taps.len() as u64)?;
        for place in 0..self.taps.len() {
            let (tapped, closes) = match self.taps.get_index(place) {
                Some(entry) => entry,
                None => unreachable!(),
            };
            items.push(pair(alloc, channel(*tapped), Value::Bool(*closes))?);
        }
        Value::vector(alloc, items)
    }
}
