use std::sync::Wait;

/// It waits for good: what would have to be answered comes in no run.
pub fn wait_for_good<R: Wait>(rt: &R)
    ensures never { ⊥ }
{
    for _ in rt.forever() {}
    unreachable!()
}
