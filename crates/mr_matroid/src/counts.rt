ghost use Rattle.std.specs.Prelude.{◌≡◌, ◌+◌, ◌-◌, ◌*◌, ◌/◌, ◌%◌, ◌<◌, ◌≤◌, length, slice_get, Some, IfOk};
ghost use Rattle.mr_set.specs.Subsets.{choose, IsSetOf};
ghost use Rattle.mr_set.specs.Private.Enumeration.{IsFrom, sets_from};
ghost use Rattle.mr_set.specs.Places.{IsPlaceOf};
ghost use Rattle.mr_matroid.specs.Private.Counts.{AreCountsBelow, AreCounts};

use mr_set::{ELEMENTS, Set};
use std::alloc::{AllocError, Global};

// Sets of elements below `ELEMENTS` have so many sizes.
pub const SIZES: usize = ELEMENTS as usize + 1;

/// How many sets of each size there are among at most `n` elements: a row for each number of elements.
pub fn counts_up_to(alloc: Global, n: u32) -> Result<Vec<u64>, AllocError>
    requires { n ≤ ELEMENTS }
    ensures { IfOk result (λ v. AreCounts n v.items) }
{
    let mut counts = Vec::new(alloc);
    let end = (n as usize + 1) * SIZES;
    for i in 0..end {
        let count = next_count(counts.as_slice(), i);
        counts.push(count)?;
    }
    Ok(counts)
}

// The next count, by the row above.
fn next_count(counts: &[u64], i: usize) -> u64
    requires place { i < (ELEMENTS + 1) * SIZES }
    requires counts { AreCountsBelow i counts.now }
    ensures { result ≡ choose (i / SIZES) (i % SIZES) }
{
    if i % SIZES == 0 {
        return 1;
    }
    if i < SIZES {
        return 0;
    }
    counts[i - SIZES - 1] + counts[i - SIZES]
}

/// How many sets of `r` elements there are among `m`.
pub fn count(counts: &[u64], n: u32, m: u32, r: u32) -> u64
    requires counts { AreCounts n counts.now }
    requires elements { m ≤ n }
    requires size { r ≤ ELEMENTS }
    ensures { result ≡ choose m r }
{
    counts[m as usize * SIZES + r as usize]
}

/// The place of a set among all sets of its size in lexicographic order.
pub fn place(counts: &[u64], n: u32, s: Set) -> u64
    requires elements { n ≤ ELEMENTS }
    requires counts { AreCounts n counts.now }
    requires set { IsSetOf n (length s) s }
    ensures { IsPlaceOf n s result }
{
    place_from(counts, 0, n, s)
}

// The place of a set of elements from `low` on among the sets of its size that have such elements only.
fn place_from(counts: &[u64], low: u32, n: u32, s: Set) -> u64
    requires elements { n ≤ ELEMENTS }
    requires counts { AreCounts n counts.now }
    requires set { IsFrom low n s }
    ensures { slice_get (sets_from low (n - low) (length s)) result ≡ Some s }
{
    let size = s.len();
    if size == 0 {
        return 0;
    }
    if s.has(low) {
        return place_from(counts, low + 1, n, s.without(low));
    }
    let with_low = count(counts, n, n - (low + 1), size - 1);
    with_low + place_from(counts, low + 1, n, s)
}
