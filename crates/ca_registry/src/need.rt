//! What the operands of an operation have to be, operation by operation.
ghost use Rattle.std.specs.Prelude.{◌≡◌, map};
ghost use Rattle.ca_meaning.specs.Refusal.{needs_of_system, needs_to_register};
ghost use Rattle.ca_registry.specs.Needs.{need_view};

use ca_term::head::{RegisterName, SystemTask};

/// What an operand has to be.
#[derive(Clone, Copy)]
pub enum Need {
    Channel,
    Mult,
    Mix,
    Publication,
    Anything,
}

/// What a system task's values have to be.
pub fn needs_of_system(kind: SystemTask) -> &'static [Need]
    ensures { map need_view result.now ≡ needs_of_system kind }
{
    match kind {
        SystemTask::Mult => &[Need::Mult, Need::Channel, Need::Channel],
        SystemTask::Deliver => &[Need::Mult, Need::Channel, Need::Anything, Need::Channel],
        SystemTask::Mix => &[Need::Mix, Need::Channel, Need::Channel],
        SystemTask::Pub(_) => &[Need::Publication, Need::Channel],
        SystemTask::Pipe => &[Need::Channel, Need::Channel],
        SystemTask::Merge => &[Need::Anything, Need::Channel],
        SystemTask::Onto => &[Need::Channel, Need::Anything, Need::Anything, Need::Channel],
        SystemTask::Feed => &[Need::Channel, Need::Channel, Need::Channel],
        SystemTask::Job(_, _) => &[Need::Channel],
        SystemTask::Collect => &[Need::Channel, Need::Channel, Need::Anything, Need::Channel],
    }
}

/// What the arguments of an operation on a registry have to be; the first one is the registry.
pub fn needs_to_register(name: RegisterName) -> &'static [Need]
    ensures { map need_view result.now ≡ needs_to_register name }
{
    match name {
        RegisterName::Tap | RegisterName::Untap => &[Need::Mult, Need::Channel],
        RegisterName::UntapAll | RegisterName::Taps => &[Need::Mult],
        RegisterName::Admix | RegisterName::Unmix => &[Need::Mix, Need::Channel],
        RegisterName::UnmixAll | RegisterName::Toggle => &[Need::Mix],
        RegisterName::SoloMode | RegisterName::Modes => &[Need::Mix],
        RegisterName::Find => &[Need::Publication],
        RegisterName::Place => &[Need::Publication, Need::Anything, Need::Mult, Need::Channel],
        RegisterName::Drop | RegisterName::Clear => &[Need::Publication],
        RegisterName::Topics => &[Need::Publication],
    }
}
