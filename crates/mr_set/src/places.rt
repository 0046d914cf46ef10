ghost use Rattle.std.specs.Prelude.{◌≡◌, ◌-◌, ◌<◌, ◌≤◌, length, slice_get, Some};
ghost use Rattle.mr_set.specs.Elements.{IsSet};
ghost use Rattle.mr_set.specs.Subsets.{IsSetOf, choose};
ghost use Rattle.mr_set.specs.Private.Enumeration.{IsFrom, sets_from};
ghost use Rattle.mr_set.specs.Places.{IsPlaceOf};

use crate::sizes::combinations;
use crate::{ELEMENTS, Set};

/// The place of a set among all sets of its size in lexicographic order, counted from 0.
pub fn place_of(n: u32, s: Set) -> u32
    requires elements { n ≤ ELEMENTS }
    requires set { IsSetOf n (length s) s }
    ensures { IsPlaceOf n s result }
{
    place_from(0, n, s)
}

// The place of a set of elements from `low` on among the sets of its size that have such elements only.
fn place_from(low: u32, n: u32, s: Set) -> u32
    requires elements { n ≤ ELEMENTS }
    requires set { IsFrom low n s }
    ensures { slice_get (sets_from low (n - low) (length s)) result ≡ Some s }
{
    let size = s.len();
    if size == 0 {
        return 0;
    }
    if s.has(low) {
        return place_from(low + 1, n, s.without(low));
    }
    let with_low = combinations(n - (low + 1), size - 1);
    with_low + place_from(low + 1, n, s)
}

/// The set at a place among all sets of `r` of the first `n` elements in lexicographic order, counted from 0.
pub fn subset_at(n: u32, r: u32, k: u32) -> Set
    requires elements { n ≤ ELEMENTS }
    requires place { k < choose n r }
    ensures set { IsSet n result }
    ensures size { length result ≡ r }
    ensures place { IsPlaceOf n result k }
{
    subset_from(0, n, r, k)
}

// The set at a place among the sets of `r` elements from `low` on.
fn subset_from(low: u32, n: u32, r: u32, k: u32) -> Set
    requires elements { n ≤ ELEMENTS }
    requires place { k < choose (n - low) r }
    ensures { slice_get (sets_from low (n - low) r) k ≡ Some result }
{
    if r == 0 {
        return Set::empty();
    }
    let with_low = combinations(n - (low + 1), r - 1);
    if k < with_low {
        subset_from(low + 1, n, r - 1, k).with(low)
    } else {
        subset_from(low + 1, n, r, k - with_low)
    }
}

#[cfg(test)]
mod tests;
