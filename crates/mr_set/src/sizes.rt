ghost use Rattle.std.specs.Prelude.{◌≡◌, ◌≤◌, SomeIff};
ghost use Rattle.mr_set.specs.Subsets.{choose};

use crate::{ELEMENTS, SETS};

/// How many sets of `r` elements there are among `n`, where there are at most `SETS`.
pub fn binomial(n: u32, r: u32) -> Option<u32>
    requires elements { n ≤ ELEMENTS }
    requires size { r ≤ ELEMENTS }
    ensures { SomeIff result (choose n r ≤ SETS) (choose n r) }
{
    let count = combinations(n, r);
    if count <= SETS { Some(count) } else { None }
}

// How many sets of `r` elements there are among `n`.
pub(crate) fn combinations(n: u32, r: u32) -> u32
    requires { n ≤ ELEMENTS }
    ensures { result ≡ choose n r }
{
    // Along a row of Pascal's triangle. No division leaves a rest.
    let mut count = 1_u64;
    for k in 0..r {
        count = count * u64::from(n.saturating_sub(k)) / (u64::from(k) + 1);
    }
    count as u32
}

#[cfg(test)]
mod tests {
    use super::*;

    // How many sets there are, where the sizes are allowed.
    fn count(n: u32, r: u32) -> Option<u32> {
        if n > ELEMENTS {
            return None;
        }
        if r > ELEMENTS {
            return None;
        }
        binomial(n, r)
    }

    #[test]
    fn sets_are_counted_up_to_the_limit(rt: HostRuntime) {
        for (n, r, want) in [
            (0, 0, Some(1)),
            (3, 5, Some(0)),
            (6, 3, Some(20)),
            (14, 6, Some(3003)),
            (15, 5, Some(3003)),
            (15, 6, None),
            (32, 3, Some(4960)),
            (32, 16, None),
            (32, 29, Some(4960)),
            (32, 32, Some(1)),
        ] {
            assert_eq!(rt; count(n, r), want, "at {n} and {r}");
        }
    }
}
