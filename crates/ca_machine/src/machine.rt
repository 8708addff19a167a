ghost use Rattle.ca_states.specs.ValidCode.{valid_code};
ghost use Rattle.ca_machine.specs.Stages.{IsStageReady};
ghost use Rattle.ca_machine.specs.Props.{IsStageReady-prop};

use crate::stage::Stage;
use ca_states::runner::{Halt, Runner};
use ca_states::valid_code::ValidCode;
use std::snapshot::Snapshot;

/// A compiled body as it runs: its runner, where it stands, what its runner halted as where it did, and, with no bytes,
/// the code that it was made over.
#[derive(Drop)]
pub struct Machine {
    pub(crate) runner: Runner,
    pub(crate) stage: Stage,
    pub(crate) halt: Halt,
    pub(crate) code: Snapshot<ValidCode>,
    ghost ready: { IsStageReady (valid_code code.value) runner stage halt } by { IsStageReady-prop (valid_code code.value) runner stage halt },
}
