ghost use Rattle.std.specs.Prelude.{◌≤◌, IfSome};
ghost use Rattle.mr_set.specs.Elements.{IsSet};

use crate::{ELEMENTS, Set, binomial, first_subset, next_subset, place_of, subset_at};

// The set of these elements, where they are some of the first `n`.
fn set_of(n: u32, listed: &[u32]) -> Option<Set>
    ensures { IfSome result (IsSet n) }
{
    let mut s = Set::empty();
    if n > ELEMENTS {
        return None;
    }
    for e in listed {
        if *e >= n {
            return None;
        }
        s = s.with(*e);
    }
    Some(s)
}

// The place of the set of these elements.
fn place(n: u32, listed: &[u32]) -> Option<u32> {
    if n > ELEMENTS {
        return None;
    }
    match set_of(n, listed) {
        Some(s) => Some(place_of(n, s)),
        None => None,
    }
}

// The mask of the set that follows.
fn after(n: u32, listed: &[u32]) -> Option<u64> {
    if n > ELEMENTS {
        return None;
    }
    match set_of(n, listed) {
        Some(s) => match next_subset(n, s) {
            Some(next) => Some(next.mask()),
            None => None,
        },
        None => None,
    }
}

// The mask of the set at a place, where there is one.
fn at(n: u32, r: u32, k: u32) -> Option<u64> {
    if n > ELEMENTS {
        return None;
    }
    if r > ELEMENTS {
        return None;
    }
    match binomial(n, r) {
        Some(sets) => {
            if k < sets {
                Some(subset_at(n, r, k).mask())
            } else {
                None
            }
        }
        None => None,
    }
}

// How many sets follow one another from the first on, each at the next place.
fn walk(n: u32, r: u32) -> u32 {
    if n > ELEMENTS {
        return 0;
    }
    if r > n {
        return 0;
    }
    let mut s = first_subset(n, r);
    for k in 0..5000 {
        if place_of(n, s) != k {
            return k;
        }
        match next_subset(n, s) {
            Some(next) => s = next,
            None => return k + 1,
        }
    }
    0
}

#[test]
fn pairs_of_four_stand_in_lexicographic_order(rt: HostRuntime) {
    let pairs = [[0, 1], [0, 2], [0, 3], [1, 2], [1, 3], [2, 3]];
    let masks = [0b0011, 0b0101, 0b1001, 0b0110, 0b1010, 0b1100];
    for k in 0..6 {
        let after_it = if k < 5 { Some(masks[k + 1]) } else { None };
        assert_eq!(rt; place(4, &pairs[k]), Some(k as u32));
        assert_eq!(rt; at(4, 2, k as u32), Some(masks[k]));
        assert_eq!(rt; after(4, &pairs[k]), after_it);
    }
    assert_eq!(rt; at(4, 2, 6), None);
}

#[test]
fn each_set_of_a_size_stands_at_its_place(rt: HostRuntime) {
    for (n, r, want) in [(6, 3, 20), (7, 0, 1), (8, 8, 1), (9, 4, 126), (32, 2, 496)] {
        assert_eq!(rt; walk(n, r), want, "at {n} and {r}");
    }
    assert_eq!(rt; place(32, &[29, 30, 31]), Some(4959));
    assert_eq!(rt; at(32, 3, 4959), Some(0b111 << 29));
}
