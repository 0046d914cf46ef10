ghost use Rattle.std.specs.Prelude.{IfSome};
ghost use Rattle.mr_set.specs.Elements.{IsSet};
ghost use Rattle.mr_set.specs.Matroid.{IsPresentation};
ghost use Rattle.mr_matroid.specs.Exchange.{IsWithinLimits};

use super::*;
use mr_set::{ELEMENTS, Set, binomial, is_set_of, sets_of};
use std::alloc::Global;

// The sets whose elements are the places of the bits, where they may be the nonbases of a matroid.
fn sets(alloc: Global, n: u32, r: u32, masks: &[u64]) -> Option<Vec<Set>>
    ensures limits { IfSome result (λ sets. IsWithinLimits (record { elements = n; rank = r; nonbases = sets.items })) }
    ensures sets { IfSome result (λ sets. IsPresentation (record { elements = n; rank = r; nonbases = sets.items })) }
{
    if n > ELEMENTS || r > n || binomial(n, r).is_none() {
        return None;
    }
    sets_of(alloc, n, r, masks).ok()?
}

// The matroid with these nonbases.
fn matroid(alloc: Global, n: u32, r: u32, masks: &[u64]) -> Option<Matroid> {
    let sets = sets(alloc, n, r, masks)?;
    Matroid::from_nonbases(alloc, n, r, sets.as_slice()).ok()
}

// Why there is none, unless there is one.
fn fault(alloc: Global, n: u32, r: u32, masks: &[u64]) -> Option<Option<MatroidFault>> {
    let sets = sets(alloc, n, r, masks)?;
    match Matroid::from_nonbases(alloc, n, r, sets.as_slice()) {
        Ok(_) => Some(None),
        Err(MatroidFault::Memory) => None,
        Err(fault) => Some(Some(fault)),
    }
}

// The table of these sets.
fn table(alloc: Global, n: u32, r: u32, masks: &[u64]) -> Option<SetTable> {
    let sets = sets(alloc, n, r, masks)?;
    SetTable::new(alloc, n, r, sets.as_slice()).ok()
}

// Whether the set is listed, and what fits in the place of its element.
fn fits(t: &SetTable, mask: u64, x: u32) -> Option<(bool, u64)> {
    let b1 = Set::of_mask(mask)?;
    if !is_set_of(t.elements(), t.rank(), b1) {
        return None;
    }
    if x >= 32 {
        return None;
    }
    if !b1.has(x) {
        return None;
    }
    Some((t.listed(b1), t.fits(b1, x).mask()))
}

// The first set that isn't listed and has none of the elements.
fn missing(t: &SetTable, mask: u64) -> Option<u64> {
    let f = Set::of_mask(mask)?;
    let b = t.missing(f)?;
    Some(b.mask())
}

// The sets and the element of a failing exchange.
fn exchange(fault: MatroidFault) -> Option<(u64, u64, u32)> {
    match fault {
        MatroidFault::Exchange { b1, b2, x } => Some((b1.mask(), b2.mask(), x)),
        MatroidFault::NoBasis | MatroidFault::Memory => None,
    }
}

// The same where one was answered.
fn exchange_of(answer: Option<MatroidFault>) -> Option<(u64, u64, u32)> {
    exchange(answer?)
}

// The sets and the element of the exchange that fails in rank 2 on 4 elements, if one does.
fn failing(alloc: Global, masks: &[u64]) -> Option<Option<(u64, u64, u32)>> {
    let answer = fault(alloc, 4, 2, masks)?;
    Some(exchange_of(answer))
}

// The set of elements of the matroid that are the places of the bits.
fn subset(m: &Matroid, mask: u64) -> Option<Set>
    ensures { IfSome result (IsSet m.now.elements) }
{
    let x = Set::of_mask(mask)?;
    if !is_set_of(m.elements(), x.len(), x) {
        return None;
    }
    Some(x)
}

// Whether a set of elements is a basis, and its rank.
fn told(m: &Matroid, mask: u64) -> Option<(bool, u32)> {
    let x = subset(m, mask)?;
    Some((m.is_basis(x), m.rank_of(x)))
}

// A matroid by its nonbases, the masks of its first basis, of its loops and of its coloops, and of some sets whether
// they are bases, and their ranks.
#[derive(Clone, Copy)]
struct Case {
    elements: u32,
    rank: u32,
    nonbases: &'static [u64],
    first: u64,
    loops: u64,
    coloops: u64,
    sets: &'static [(u64, bool, u32)],
}

// Whether this is told of the sets.
fn are_told(m: &Matroid, sets: &[(u64, bool, u32)]) -> bool {
    for k in 0..sets.len() {
        let (mask, is_basis, rank) = sets[k];
        if told(m, mask) != Some((is_basis, rank)) {
            return false;
        }
    }
    true
}

// Whether the elements of the mask are the loops, by one function, or the coloops, by the other.
fn are_ends(m: &Matroid, loops: u64, coloops: u64) -> bool {
    for e in 0..m.elements() {
        if m.is_loop(e) != is_in(loops, e) || m.is_coloop(e) != is_in(coloops, e) {
            return false;
        }
    }
    true
}

// Whether the element is in the set with this mask.
fn is_in(mask: u64, e: u32) -> bool {
    match Set::of_mask(mask) {
        Some(x) => e < ELEMENTS && x.has(e),
        None => false,
    }
}

// Whether the matroid is this one.
fn is_case(m: &Matroid, case: &Case) -> bool {
    if m.elements() != case.elements || m.rank() != case.rank {
        return false;
    }
    if m.nonbasis_count() as usize != case.nonbases.len() {
        return false;
    }
    if m.first_basis().mask() != case.first {
        return false;
    }
    are_ends(m, case.loops, case.coloops) && are_told(m, case.sets)
}

// A copy of a matroid, where the matroid is as the case says.
fn copied(alloc: Global, case: &Case) -> Option<Matroid> {
    let m = matroid(alloc, case.elements, case.rank, case.nonbases)?;
    if !is_case(&m, case) {
        return None;
    }
    m.copy(alloc).ok()
}

// Whether the matroid and its copy are as the case says.
fn is_made(alloc: Global, case: &Case) -> Option<bool> {
    let m = copied(alloc, case)?;
    Some(is_case(&m, case))
}

#[test]
fn sets_that_leave_no_basis_are_refused(rt: HostRuntime) {
    let full = fault(rt.alloc(), 2, 1, &[1, 2]);
    assert!(rt; matches!(full, Some(Some(MatroidFault::NoBasis))));
    let none = fault(rt.alloc(), 3, 0, &[0]);
    assert!(rt; matches!(none, Some(Some(MatroidFault::NoBasis))));
}

// The nonbases 01 and 12 of rank 2 on 4 elements, and the bases 01 and 23 alone.
#[test]
fn the_first_exchange_that_fails_is_told(rt: HostRuntime) {
    assert!(rt; failing(rt.alloc(), &[3, 6]) == Some(Some((10, 5, 3))));
    assert!(rt; failing(rt.alloc(), &[5, 9, 6, 10]) == Some(Some((3, 12, 0))));
}

// The Fano plane: the lines 013, 024, 056, 125, 146, 236, 345.
const FANO: Case = Case {
    elements: 7,
    rank: 3,
    nonbases: &[11, 21, 97, 38, 82, 76, 56],
    first: 7,
    loops: 0,
    coloops: 0,
    sets: &[
        (0, false, 0),
        (4, false, 1),
        (3, false, 2),
        (11, false, 2),
        (7, true, 3),
        (15, false, 3),
        (127, false, 3),
    ],
};

// How many sets of its elements are bases.
fn fano_bases(alloc: Global) -> Option<u32> {
    let fano = copied(alloc, &FANO)?;
    let mut bases = 0u32;
    for mask in 0..128 {
        if let Some((true, _)) = told(&fano, mask) {
            bases = bases.saturating_add(1);
        }
    }
    Some(bases)
}

#[test]
fn the_fano_plane_has_28_bases(rt: HostRuntime) {
    assert!(rt; fano_bases(rt.alloc()) == Some(28));
    assert!(rt; is_made(rt.alloc(), &FANO) == Some(true));
}

// Rank 2 on the elements 0 to 3: 0 is a loop, 1 is a coloop, 2 and 3 are parallel.
const PARALLEL: Case = Case {
    elements: 4,
    rank: 2,
    nonbases: &[3, 5, 9, 12],
    first: 6,
    loops: 1,
    coloops: 2,
    sets: &[(2, false, 1), (12, false, 1)],
};

// Each element is a loop.
const NONE: Case = Case {
    elements: 32,
    rank: 0,
    nonbases: &[],
    first: 0,
    loops: 0xffff_ffff,
    coloops: 0,
    sets: &[(0, true, 0)],
};

// Each element is a coloop.
const ALL: Case = Case {
    elements: 3,
    rank: 3,
    nonbases: &[],
    first: 7,
    loops: 0,
    coloops: 7,
    sets: &[],
};

#[test]
fn a_matroid_tells_its_loops_and_coloops(rt: HostRuntime) {
    assert!(rt; is_made(rt.alloc(), &PARALLEL) == Some(true));
    assert!(rt; is_made(rt.alloc(), &NONE) == Some(true));
    assert!(rt; is_made(rt.alloc(), &ALL) == Some(true));
}

// Of rank 2 on 4 elements 01 and 12 are listed. What fits, and what is missing.
const FITTING: [(u64, u32, bool, u64); 2] = [(10, 3, false, 8), (3, 1, true, 12)];

const MISSING: [(u64, Option<u64>); 3] = [(8, Some(5)), (5, Some(10)), (12, None)];

// Whether this is listed and fits.
fn are_fitting(t: &SetTable) -> bool {
    for k in 0..2 {
        let (mask, x, listed, fitting) = FITTING[k];
        if fits(t, mask, x) != Some((listed, fitting)) {
            return false;
        }
    }
    true
}

// Whether this is missing.
fn are_missing(t: &SetTable) -> bool {
    for k in 0..3 {
        let (mask, found) = MISSING[k];
        if missing(t, mask) != found {
            return false;
        }
    }
    true
}

// Whether the table of the two sets tells both.
fn is_told_by_table(alloc: Global) -> Option<bool> {
    let t = table(alloc, 4, 2, &[3, 6])?;
    Some(are_fitting(&t) && are_missing(&t))
}

#[test]
fn what_fits_and_what_is_missing(rt: HostRuntime) {
    assert!(rt; is_told_by_table(rt.alloc()) == Some(true));
}

// The sets of two of four elements, in order.
const PAIRS: [u64; 6] = [3, 5, 9, 6, 10, 12];

// Whether the pair at a place is none of the family, whose bits tell which pairs are.
fn is_plain_basis(family: u64, pair: u64) -> bool {
    for k in 0..6u32 {
        if PAIRS[k as usize] == pair {
            return family >> k & 1 == 0;
        }
    }
    false
}

// Whether some element of b2 alone can take the place of x in b1.
fn can_replace(family: u64, b1: u64, b2: u64, x: u64) -> bool {
    for y in [1u64, 2, 4, 8].as_slice() {
        if b2 & !b1 & *y != 0 && is_plain_basis(family, b1 & !x | *y) {
            return true;
        }
    }
    false
}

// The least element of b1 alone that nothing in b2 can replace.
fn plain_element(family: u64, b1: u64, b2: u64) -> Option<u32> {
    for x in 0..4u32 {
        if b1 & !b2 & 1 << x != 0 && !can_replace(family, b1, b2, 1 << x) {
            return Some(x);
        }
    }
    None
}

// The first exchange that fails, tried one after another.
fn plain_failure(family: u64) -> Option<(u64, u64, u32)> {
    for b1 in PAIRS.as_slice() {
        for b2 in PAIRS.as_slice() {
            if is_plain_basis(family, *b1) && is_plain_basis(family, *b2) {
                if let Some(x) = plain_element(family, *b1, *b2) {
                    return Some((*b1, *b2, x));
                }
            }
        }
    }
    None
}

// The pairs of the family.
fn pairs_of(alloc: Global, family: u64) -> Option<Vec<u64>> {
    let mut masks = Vec::new(alloc);
    for k in 0..6u32 {
        if family >> k & 1 == 1 && masks.push(PAIRS[k as usize]).is_err() {
            return None;
        }
    }
    Some(masks)
}

// Whether the family is answered as by the plain search where its pairs are the nonbases.
fn is_plainly_answered(alloc: Global, family: u64) -> Option<bool> {
    let masks = pairs_of(alloc, family)?;
    let answer = failing(alloc, masks.as_slice())?;
    Some(answer == plain_failure(family))
}

// The first family that is not.
fn other_family(alloc: Global) -> Option<u64> {
    for family in 0..64 {
        if is_plainly_answered(alloc, family) != Some(true) {
            return Some(family);
        }
    }
    None
}

#[test]
fn each_family_of_pairs_is_answered_as_by_the_plain_search(rt: HostRuntime) {
    assert!(rt; other_family(rt.alloc()).is_none());
}
