// A value that a shared struct keeps, and that nobody sees while it is shared. It lies in the slot of a table
// of its own, on which no step is made: such a table may be shared where its value may be sent.
ghost use mathlib.Core.Option.{some};
ghost use Rattle.std.specs.Prelude.{◌≡◌, IfOk};

use atomic_table::{Table, TableRule};
use std::alloc::{AllocError, Global};
use std::snapshot::Snapshot;

pub struct AtHome;

impl<T> TableRule<T, (), Snapshot<T>> for AtHome {
    ghost use lib.ListN.{get_elem?};
    ghost use mathlib.Core.Option.{some};

    // The value is as it was put.
    ghost holds = { λ k s. get_elem? s.homes 0 ≡ some (some k.value) };

    ghost first = { λ _. tt };
}

pub type Kept<T> = Table<T, (), Snapshot<T>, AtHome, Global>;

pub(crate) fn keep<T: Drop>(alloc: Global, x: T) -> Result<Kept<T>, AllocError>
    ensures { IfOk result (λ k. (k.shared.key.value ≡ x) × (k.shared.table_id.slots ≡ 1)) }
{
    let about = Snapshot::of(&x);
    let mut slots = Vec::with_capacity(alloc, 1)?;
    slots.push_reserved(x);
    match Table::new(alloc, &[], slots, &about) {
        Ok((kept, _seat)) => Ok(kept),
        Err(_) => Err(AllocError),
    }
}

pub(crate) fn take_back<T>(kept: Kept<T>) -> T
    requires { kept.shared.table_id.slots ≡ 1 }
    ensures { result ≡ kept.shared.key.value }
{
    let mut closed = kept.close();
    let x = closed.take(0);
    closed.free();
    x
}
