ghost use Rattle.std.specs.Prelude.{◌≡◌, ◌+◌, ◌≤◌, ℕ, length, drop, MatchOption};
ghost use Rattle.mr_set.specs.Elements.{numbers_below};
ghost use Rattle.mr_set.specs.Subsets.{IsFirst, IsSetOf, IsNext, IsLast};
ghost use Rattle.mr_set.specs.Private.Enumeration.{IsFrom, IsNextFrom, IsLastFrom, run};

use crate::{ELEMENTS, Set, elements};

// So many elements from `low` on.
fn run_of(low: u32, count: u32) -> Set
    requires { low + count ≤ ELEMENTS }
    ensures { result ≡ run low count }
{
    if count == 0 {
        Set::empty()
    } else {
        run_of(low + 1, count - 1).with(low)
    }
}

/// The first `r` elements.
pub fn first_subset(n: u32, r: u32) -> Set
    requires elements { n ≤ ELEMENTS }
    requires size { r ≤ n }
    ensures first { IsFirst n r result }
    ensures value { result ≡ numbers_below r }
{
    Set::below(r)
}

// The next set of this size after the elements from a place on, among those whose elements begin at any number below.
fn next_from(n: u32, elements: &[u32], at: usize) -> Option<Set>
    requires elements { n ≤ ELEMENTS }
    requires set { IsSetOf n (length elements.now) elements.now }
    requires place { at ≤ length elements.now }
    ensures { (low : ℕ) → IsFrom low n (drop at elements.now) → MatchOption result (IsLastFrom low n (drop at elements.now)) (IsNextFrom low n (drop at elements.now)) }
{
    if at == elements.len() {
        return None;
    }
    let e = elements[at];
    match next_from(n, elements, at + 1) {
        Some(rest) => Some(rest.with(e)),
        None => {
            let count = elements.len() - at;
            if count < (n - e) as usize {
                Some(run_of(e + 1, count as u32))
            } else {
                None
            }
        }
    }
}

/// The next set of the same size in lexicographic order, or `None` after the last.
pub fn next_subset(n: u32, s: Set) -> Option<Set>
    requires elements { n ≤ ELEMENTS }
    requires set { IsSetOf n (length s) s }
    ensures { MatchOption result (IsLast n s) (IsNext n s) }
{
    next_from(n, elements(s).as_slice(), 0)
}
