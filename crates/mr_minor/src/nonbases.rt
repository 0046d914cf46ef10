ghost use Rattle.std.specs.Prelude.{◌≡◌, ◌++◌, ◌∷◌, [], OnOk, OnErr, IfOk, if◌then◌else◌};
ghost use Rattle.mr_set.specs.Matroid.{IsMatroid};
ghost use Rattle.mr_matroid.specs.Exchange.{IsWithinLimits};

use mr_matroid::{Matroid, MatroidFault};
use mr_set::Set;
use std::alloc::{AllocError, Global};

/// Puts the set to the nonbases where it is no basis. Refused memory leaves them as they were.
pub fn collect(nonbases: &mut Vec<Set>, x: Set, is_basis: bool) -> Result<(), AllocError>
    ensures ok { OnOk result (nonbases.new.items ≡ (if is_basis then nonbases.old.items else (nonbases.old.items ++ x ∷ []))) }
    ensures err { OnErr result (nonbases.new.items ≡ nonbases.old.items) }
{
    if is_basis {
        return Ok(());
    }
    nonbases.push(x)?;
    Ok(())
}

/// The matroid on `n` elements of rank `r` with these nonbases, which are those of a matroid. Refused for want of
/// memory alone.
pub fn matroid_with(alloc: Global, n: u32, r: u32, nonbases: &[Set]) -> Result<Matroid, AllocError>
    requires matroid { IsMatroid (record { elements = n; rank = r; nonbases = nonbases.now }) }
    requires limits { IsWithinLimits (record { elements = n; rank = r; nonbases = nonbases.now }) }
    ensures { IfOk result (λ m. m ≡ record { elements = n; rank = r; nonbases = nonbases.now }) }
{
    match Matroid::from_nonbases(alloc, n, r, nonbases) {
        Ok(matroid) => Ok(matroid),
        Err(fault) => Err(memory_alone(fault)),
    }
}

// The refusal of what is a matroid.
fn memory_alone(fault: MatroidFault) -> AllocError
    requires { fault ≡ MatroidFault.Memory }
{
    match fault {
        MatroidFault::Memory => AllocError,
        MatroidFault::NoBasis | MatroidFault::Exchange { .. } => unreachable!(),
    }
}
