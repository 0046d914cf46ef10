ghost use Rattle.std.specs.Prelude.{◌-◌, ◌≡◌, ◌↔◌, IfOk, IsTrue};
ghost use Rattle.mr_minor.specs.Dual.{IsDual, HasCobasis};
ghost use Rattle.mr_minor.specs.Private.Collected.{AreNonbases};

use crate::nonbases::{collect, matroid_with};
use mr_matroid::Matroid;
use mr_set::{Set, first_subset, next_subset};
use std::alloc::{AllocError, Global};

/// The dual of the matroid. Its bases are the complements of the bases. Refused for want of memory alone.
pub fn dual(alloc: Global, m: &Matroid) -> Result<Matroid, AllocError>
    ensures { IfOk result (IsDual m.now) }
{
    let nonbases = nonbases_of_dual(alloc, m)?;
    let n = m.elements();
    matroid_with(alloc, n, n - m.rank(), nonbases.as_slice())
}

// The sets whose complements are no bases.
fn nonbases_of_dual(alloc: Global, m: &Matroid) -> Result<Vec<Set>, AllocError>
    ensures { IfOk result (λ sets. AreNonbases m.now.elements (m.now.elements - m.now.rank) (HasCobasis m.now) sets.items) }
{
    let n = m.elements();
    let mut nonbases = Vec::new(alloc);
    let mut x = first_subset(n, n - m.rank());
    'sets: loop {
        collect(&mut nonbases, x, is_cobasis(m, x))?;
        match next_subset(n, x) {
            Some(next) => x = next,
            None => return Ok(nonbases),
        }
    }
}

// Whether the complement of the set is a basis.
fn is_cobasis(m: &Matroid, x: Set) -> bool
    ensures { IsTrue result ↔ HasCobasis m.now x }
{
    let n = m.elements();
    m.is_basis(first_subset(n, n).minus(x))
}
