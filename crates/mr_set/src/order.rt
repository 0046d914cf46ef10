ghost use Rattle.std.specs.Prelude.{◌≡◌, ◌↔◌, IsTrue};
ghost use Rattle.mr_set.specs.Subsets.{IsBefore};

use crate::ELEMENTS;
use crate::set::Set;
use arrayvec::ArrayVec;
use std::cmp::Ordering;

// The most elements that a set has.
const ROOM: usize = ELEMENTS as usize;

/// The elements in increasing order.
pub fn elements(s: Set) -> ArrayVec<u32, ROOM>
    ensures { result.items ≡ s }
{
    // The clauses of `mask` say that the elements stand in order, below `ELEMENTS`.
    let _mask = s.mask();
    let mut list: ArrayVec<u32, ROOM> = ArrayVec::new();
    let mut left = s;
    while let Some(e) = left.first() {
        list.push(e);
        left = left.without(e);
    }
    list
}

/// Whether the one set stands before the other.
pub fn is_before(x: Set, y: Set) -> bool
    ensures { IsTrue result ↔ IsBefore x y }
{
    match elements(x).as_slice().cmp(&elements(y).as_slice()) {
        Ordering::Less => true,
        Ordering::Equal | Ordering::Greater => false,
    }
}
