//! Where an exit leads.
use ca_states::code::Exit;

/// The blocks that the exit leads to; one alone is named twice.
pub(crate) fn targets(exit: &Exit) -> Option<(u64, u64)> {
    match exit {
        Exit::Jump { next, .. } => Some((*next, *next)),
        Exit::Branch { yes, no, .. } => Some((*yes, *no)),
        Exit::Test { yes, no, .. } => Some((*yes, *no)),
        Exit::TestInt { yes, no, .. } => Some((*yes, *no)),
        Exit::Call { next, .. } => Some((*next, *next)),
        Exit::Return { .. } => None,
        Exit::Cut { next, .. } => Some((*next, *next)),
    }
}

/// The slot that the answer comes into, if the text waits behind the exit for the value of a call or for an operation.
pub(crate) fn answered(exit: &Exit) -> Option<u64> {
    match exit {
        Exit::Call { answer, .. } => Some(*answer),
        Exit::Cut { answer, .. } => Some(*answer),
        _ => None,
    }
}
