// The frames and cites on which the tests stand.
use mr_field::Field;
use mr_frame::Frame;
use mr_matroid::Matroid;
use mr_nogood::Cite;
use mr_set::{ELEMENTS, Set, binomial, sets_of};
use std::alloc::Global;

// The frame of the matroid of `n` elements in which each set of `r` is a basis, over the field with so many elements.
pub(crate) fn uniform(alloc: Global, n: u32, r: u32, order: u32) -> Option<Frame> {
    if n > ELEMENTS || r > n || binomial(n, r).is_none() {
        return None;
    }
    let none = sets_of(alloc, n, r, &[]).ok()??;
    let m = Matroid::from_nonbases(alloc, n, r, none.as_slice()).ok()?;
    Frame::new(alloc, m, Field::of(order)?).ok()
}

// The frame of the Fano plane over three elements, by the masks of its lines. Its free positions are those of row 1
// and element 6, of row 2 and element 5, and of row 2 and element 6.
pub(crate) fn fano(alloc: Global) -> Option<Frame> {
    let lines = sets_of(alloc, 7, 3, &[11, 21, 97, 38, 82, 76, 56]).ok()??;
    let plane = Matroid::from_nonbases(alloc, 7, 3, lines.as_slice()).ok()?;
    Frame::new(alloc, plane, Field::of(3)?).ok()
}

// The cite of the set with this mask.
pub(crate) fn test(mask: u64) -> Cite {
    match Set::of_mask(mask) {
        Some(x) => Cite::Test(x),
        None => Cite::Nothing,
    }
}
