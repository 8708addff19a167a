ghost use Rattle.std.specs.Prelude.{◌≡◌, Some};
ghost use Rattle.std.specs.Borrow.{sem, Lends};
ghost use Rattle.std.specs.contracts.option.Option.{the_row};

// The part that is there.
pub(crate) fn inside<P>(part: &mut Option<P>) -> &mut P
    requires { (x : P) × (part.old ≡ Some x) }
    ensures* lends { sem 𝓛 (Lends (the_row P.row) P.row part.entry result (λ x. Some x)) }
    ensures value { part.old ≡ Some result.now }
{
    match part {
        Some(x) => x,
        None => unreachable!(),
    }
}
