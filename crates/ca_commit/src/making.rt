// What is made and started: its copies. Whether its operands are right, and what is told of it, is `ca_registry`'s.
ghost use Rattle.std.specs.Prelude.{◌≡◌, IfOk};
ghost use Rattle.ca_term.specs.Operation.{what_view};

pub use ca_registry::seed::result_of;
use ca_term::operation::What;
use ca_value::memory::OutOfMemory;
use std::alloc::Global;

/// An equal one.
pub(crate) fn copy_what(alloc: Global, what: &What) -> Result<What, OutOfMemory>
    ensures { IfOk result (λ w. what_view w ≡ what_view what.now) }
{
    match what {
        What::Unbuffered => Ok(What::Unbuffered),
        What::Fixed(n) => Ok(What::Fixed(*n)),
        What::Dropping(n) => Ok(What::Dropping(*n)),
        What::Sliding(n) => Ok(What::Sliding(*n)),
        What::Promise => Ok(What::Promise),
        What::Timeout(n) => Ok(What::Timeout(*n)),
        What::Mult(source) => Ok(What::Mult(source.copy(alloc)?)),
        What::Mix(out, changes) => Ok(What::Mix(out.copy(alloc)?, changes.copy(alloc)?)),
        What::Pub(source) => Ok(What::Pub(source.copy(alloc)?)),
    }
}
