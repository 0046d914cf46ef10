use super::*;
use mr_matroid::Matroid;
use mr_set::{ELEMENTS, Set, binomial, sets_of};
use std::alloc::Global;
use std::test::Fail;

// The lines 013, 024, 056, 125, 146, 236, 345 of the Fano plane.
const FANO: [u64; 7] = [11, 21, 97, 38, 82, 76, 56];

// The matroid whose nonbases are the sets of these bits.
fn matroid(alloc: Global, n: u32, r: u32, masks: &[u64]) -> Result<Matroid, Fail> {
    if n > ELEMENTS || r > n || binomial(n, r).is_none() {
        return Err("the numbers are within the limits".into());
    }
    let sets = sets_of(alloc, n, r, masks)?.ok_or("sets")?;
    Ok(Matroid::from_nonbases(alloc, n, r, sets.as_slice())?)
}

// Whether these are the numbers of the matroid and its nonbases.
fn is(m: &Matroid, n: u32, r: u32, masks: &[u64]) -> bool {
    let sets = m.nonbases();
    if (m.elements(), m.rank(), sets.len()) != (n, r, masks.len()) {
        return false;
    }
    for (i, mask) in masks.iter().enumerate() {
        match sets.get(i) {
            None => return false,
            Some(x) => {
                if x.mask() != *mask {
                    return false;
                }
            }
        }
    }
    true
}

#[test]
fn the_dual_of_a_loop_is_a_coloop(rt: HostRuntime) -> Result<(), Fail> {
    let alloc = rt.alloc();
    let m = matroid(alloc, 2, 1, [2].as_slice())?;
    assert!(rt; is(&dual(alloc, &m)?, 2, 1, [1].as_slice()));
    let fano = matroid(alloc, 7, 3, FANO.as_slice())?;
    let complements = [71u64, 51, 45, 89, 30, 106, 116];
    assert!(rt; is(&dual(alloc, &fano)?, 7, 4, complements.as_slice()));
    let none = matroid(alloc, 0, 0, [].as_slice())?;
    assert!(rt; is(&dual(alloc, &none)?, 0, 0, [].as_slice()));
    Ok(())
}

#[test]
fn minors_of_the_fano_plane(rt: HostRuntime) -> Result<(), Fail> {
    let alloc = rt.alloc();
    let fano = matroid(alloc, 7, 3, FANO.as_slice())?;
    assert!(rt; is(&contract(alloc, &fano, 1)?, 6, 2, [5, 10, 48].as_slice()));
    assert!(rt;
        is(
            &delete(alloc, &fano, 64)?,
            6,
            3,
            [11, 21, 38, 56].as_slice()
        )
    );
    // The deleted elements, the contracted ones, and the minor.
    for (deleted, contracted, n, r, masks) in [
        (64u64, 1u64, 5u32, 2u32, [5u64, 10].as_slice()),
        (116, 0, 3, 2, [].as_slice()),
        (0, 3, 5, 1, [2].as_slice()),
        (1, 1, 6, 2, [5, 10, 48].as_slice()),
        (127, 0, 0, 0, [].as_slice()),
        (0, 127, 0, 0, [].as_slice()),
    ] {
        assert!(rt;
            is(&minor(alloc, &fano, deleted, contracted)?, n, r, masks),
            "at {deleted} and {contracted}"
        );
    }
    Ok(())
}

#[test]
fn the_least_stranger_is_named(rt: HostRuntime) -> Result<(), Fail> {
    let alloc = rt.alloc();
    let fano = matroid(alloc, 7, 3, FANO.as_slice())?;
    for (deleted, contracted, least) in [
        (1u64 << 7 | 1 << 40, 0u64, 7u32),
        (1 << 63, 1 << 40 | 1, 40),
        (0, 1 << 63, 63),
    ] {
        let refused = minor(alloc, &fano, deleted, contracted).err();
        assert!(rt; matches!(refused, Some(MinorFault::Stranger { e }) if e == least));
    }
    Ok(())
}
