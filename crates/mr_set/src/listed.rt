ghost use Rattle.std.specs.Prelude.{◌≡◌, ◌<◌, ◌^◌, All, IfOk, MatchOption, map};
ghost use Rattle.mr_set.specs.Elements.{elements_below};
ghost use Rattle.mr_set.specs.Subsets.{AreMasksOf};

use crate::{ELEMENTS, Set, are_sets_of};
use std::alloc::{AllocError, Global};

/// The sets whose elements are the places of the bits of the masks, or `None` where they are not sets of `r` elements
/// below `n`, each before the next.
pub fn sets_of(alloc: Global, n: u32, r: u32, masks: &[u64]) -> Result<Option<Vec<Set>>, AllocError>
    ensures { IfOk result (λ found. MatchOption found (¬ (AreMasksOf n r masks.now)) (λ sets. AreMasksOf n r masks.now × (sets.items ≡ map (elements_below ELEMENTS) masks.now))) }
{
    match each_set(alloc, masks)? {
        None => Ok(None),
        Some(sets) => {
            if are_sets_of(n, r, sets.as_slice()) {
                Ok(Some(sets))
            } else {
                Ok(None)
            }
        }
    }
}

// The sets of the masks, where each is below the limit.
fn each_set(alloc: Global, masks: &[u64]) -> Result<Option<Vec<Set>>, AllocError>
    ensures { IfOk result (λ found. MatchOption found (¬ (All (λ mask. mask < 2 ^ ELEMENTS) masks.now)) (λ sets. All (λ mask. mask < 2 ^ ELEMENTS) masks.now × (sets.items ≡ map (elements_below ELEMENTS) masks.now))) }
{
    let mut sets = Vec::new(alloc);
    for mask in masks {
        match Set::of_mask(*mask) {
            None => return Ok(None),
            Some(x) => sets.push(x)?,
        }
    }
    Ok(Some(sets))
}

#[cfg(test)]
mod tests {
    use super::*;
    use crate::elements;
    use std::test::Fail;

    #[test]
    fn masks_of_sets_in_order_are_sets(rt: HostRuntime) -> Result<(), Fail> {
        let alloc = rt.alloc();
        // 013, 024 and 056.
        let sets = sets_of(alloc, 7, 3, &[11, 21, 97])?.ok_or("sets")?;
        assert_eq!(rt; sets.len(), 3);
        assert_eq!(rt; elements(sets[2]).as_slice(), [0, 5, 6].as_slice());
        assert!(rt; sets_of(alloc, 3, 0, &[])?.is_some());
        // Out of order, twice, of another size, of other elements, beyond the limit.
        let cases: [&[u64]; 5] = [&[21, 11], &[11, 11], &[3], &[131], &[1 << 32]];
        for masks in cases {
            assert!(rt; sets_of(alloc, 7, 3, masks)?.is_none());
        }
        Ok(())
    }
}
