// The Fano plane, on which most tests stand.
use mr_assign::Assign;
use mr_field::Field;
use mr_frame::Frame;
use mr_matroid::Matroid;
use mr_nogood::{Cite, ROW_CITES, Row};
use mr_set::{Set, sets_of};
use std::alloc::Global;

// The frame of the Fano plane over a field of so many elements, by the masks of its lines. Its free positions are
// those of row 1 and element 6, of row 2 and element 5, and of row 2 and element 6.
pub(crate) fn fano(alloc: Global, order: u32) -> Option<Frame> {
    let lines = sets_of(alloc, 7, 3, &[11, 21, 97, 38, 82, 76, 56]).ok()??;
    let plane = Matroid::from_nonbases(alloc, 7, 3, lines.as_slice()).ok()?;
    Frame::new(alloc, plane, Field::of(order)?).ok()
}

// The cite of the set with this mask.
pub(crate) fn test(mask: u64) -> Cite {
    match Set::of_mask(mask) {
        Some(x) => Cite::Test(x),
        None => Cite::Nothing,
    }
}

// Over three elements, with 1 at the positions 0 and 2, each value at 1 makes 345 or 056 fail.
pub(crate) fn row() -> Row {
    let mut cites = [Cite::Nothing; ROW_CITES];
    cites[0] = test(0b0111000);
    cites[1] = test(0b1100001);
    Row {
        rank: 0,
        at: 1,
        clause: Assign::empty().with(0, 1).with(2, 1),
        cites,
    }
}
