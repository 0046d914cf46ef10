ghost use Rattle.std.specs.Prelude.{◌≡◌, ◌↔◌, IsTrue, All};
ghost use Rattle.std.specs.List.Sorted.{IsStrictlySortedBy};
ghost use Rattle.mr_set.specs.Subsets.{IsSetOf, list_cmp};

use crate::order::{elements, is_before};
use crate::set::Set;

/// Whether the set has `r` elements, all below `n`.
pub fn is_set_of(n: u32, r: u32, x: Set) -> bool
    ensures { IsTrue result ↔ IsSetOf n r x }
{
    // The clauses of `mask` say that the elements stand in order.
    let _mask = x.mask();
    x.len() == r && elements(x).as_slice().iter().all(|e| *e < n)
}

/// Whether each of these is a set of `r` elements below `n`, and each stands before the next.
pub fn are_sets_of(n: u32, r: u32, sets: &[Set]) -> bool
    ensures { IsTrue result ↔ (All (IsSetOf n r) sets.now × IsStrictlySortedBy list_cmp sets.now) }
{
    are_all_of(n, r, sets) && is_rising(sets)
}

// Whether each of these is a set of `r` elements below `n`.
fn are_all_of(n: u32, r: u32, sets: &[Set]) -> bool
    ensures { IsTrue result ↔ All (IsSetOf n r) sets.now }
{
    for x in sets {
        if !is_set_of(n, r, *x) {
            return false;
        }
    }
    true
}

// Whether each set stands before the next.
fn is_rising(sets: &[Set]) -> bool
    ensures { IsTrue result ↔ IsStrictlySortedBy list_cmp sets.now }
{
    for i in 1..sets.len() {
        if !is_before(sets[i - 1], sets[i]) {
            return false;
        }
    }
    true
}
