ghost use Rattle.std.specs.Prelude.{◌≡◌, ◌↔◌, ◌<◌, ◌≤◌, ◌^◌, [], length, slice_get, IsTrue, Contains, IfSome, SomeIff};
ghost use Rattle.mr_set.specs.Elements.{IsSet, IsSubset, numbers_below, elements_below, mask_of, with_element, without_element, union, meet, minus};

use crate::ELEMENTS;
use std::marker::Model;

/// A set of elements below `ELEMENTS`. Contracts see it as the increasing list of its elements.
#[derive(Clone, Copy, Debug, PartialEq, Eq)]
pub struct Set {
    mask: u64,
}

impl Model for Set {
    ghost use Rattle.std.specs.Prelude.{ℕ, ◌<◌, ◌^◌, List};
    ghost use Rattle.mr_set.specs.Elements.{elements_below, mask_of};
    ghost use Rattle.mr_set.specs.Private.Masks.{mask_again};
    ghost use Rattle.mr_set.specs.declared.TheConstants.{ELEMENTS};

    ghost Value = { List ℕ };

    ghost view = { λ s. elements_below ELEMENTS s.mask };

    ghost invariant = { λ s. s.mask < 2 ^ ELEMENTS };

    ghost inverse = { λ x. record { mask = mask_of x } };

    ghost inverse_ok = { λ s h. mask_again s.mask h };
}

impl Set {
    /// The set without elements.
    pub fn empty() -> Set
        ensures { result ≡ [] }
    {
        Set { mask: 0 }
    }

    /// The set whose elements are the places of the bits.
    pub fn of_mask(mask: u64) -> Option<Set>
        ensures { SomeIff result (mask < 2 ^ ELEMENTS) (elements_below ELEMENTS mask) }
    {
        if mask < 1 << ELEMENTS {
            Some(Set { mask })
        } else {
            None
        }
    }

    /// The number below 2^`ELEMENTS` whose bits are the elements.
    pub fn mask(&self) -> u64
        ensures value { result ≡ mask_of self.now }
        ensures elements { self.now ≡ elements_below ELEMENTS result }
        ensures set { IsSet ELEMENTS self.now }
        ensures bound { result < 2 ^ ELEMENTS }
    {
        self.mask
    }

    /// Whether `e`, which is below `ELEMENTS`, is an element.
    pub fn has(&self, e: u32) -> bool
        requires { e < ELEMENTS }
        ensures { IsTrue result ↔ Contains self.now e }
    {
        self.mask >> e & 1 == 1
    }

    /// The set with the element `e`, which may be one already.
    pub fn with(&self, e: u32) -> Set
        requires { e < ELEMENTS }
        ensures { result ≡ with_element e self.now }
    {
        Set {
            mask: self.mask | 1 << e,
        }
    }

    /// The set without the element `e`, which may be none of it.
    pub fn without(&self, e: u32) -> Set
        requires { e < ELEMENTS }
        ensures { result ≡ without_element e self.now }
    {
        Set {
            mask: self.mask & !(1 << e),
        }
    }

    /// The elements of one of the two sets.
    pub fn union(&self, o: Set) -> Set
        ensures { result ≡ union self.now o }
    {
        Set {
            mask: self.mask | o.mask,
        }
    }

    /// The elements of both sets.
    pub fn meet(&self, o: Set) -> Set
        ensures { result ≡ meet self.now o }
    {
        Set {
            mask: self.mask & o.mask,
        }
    }

    /// The elements of this set that are none of the other.
    pub fn minus(&self, o: Set) -> Set
        ensures { result ≡ minus self.now o }
    {
        Set {
            mask: self.mask & !o.mask,
        }
    }

    /// Whether each element is one of the other set.
    pub fn within(&self, o: Set) -> bool
        ensures { IsTrue result ↔ IsSubset self.now o }
    {
        self.mask & !o.mask == 0
    }

    /// The least element.
    pub fn first(&self) -> Option<u32>
        ensures least { result ≡ slice_get self.now 0 }
        ensures bound { IfSome result (λ e. e < ELEMENTS) }
    {
        if self.mask == 0 {
            return None;
        }
        Some(self.mask.trailing_zeros())
    }

    /// The elements below `n`.
    pub(crate) fn below(n: u32) -> Set
        requires { n ≤ ELEMENTS }
        ensures { result ≡ numbers_below n }
    {
        Set { mask: (1 << n) - 1 }
    }

    /// The number of elements.
    pub fn len(&self) -> u32
        ensures { result ≡ length self.now }
    {
        self.mask.count_ones()
    }
}

#[cfg(test)]
mod tests {
    use super::*;
    use crate::{elements, is_before};

    #[test]
    fn masks_below_the_limit_are_sets(rt: HostRuntime) {
        assert_eq!(rt; Set::of_mask(1 << 32), None);
        let all = Set::of_mask((1 << 32) - 1).expect(&rt, "a set");
        assert_eq!(rt; all.len(), 32);
        let x = Set::of_mask(0b01001).expect(&rt, "a set");
        let y = Set::of_mask(0b11010).expect(&rt, "a set");
        assert_eq!(rt; elements(y).as_slice(), [1, 3, 4].as_slice());
        assert_eq!(rt; x.union(y).mask(), 0b11011);
        assert_eq!(rt; x.meet(y).mask(), 0b01000);
        assert_eq!(rt; x.minus(y).mask(), 0b00001);
        assert_eq!(rt; x.with(2).without(0).mask(), 0b01100);
        assert_eq!(rt; (x.has(3), x.has(1)), (true, false));
        assert_eq!(rt; (y.first(), Set::empty().first()), (Some(1), None));
        assert_eq!(rt; (x.within(y), x.meet(y).within(y)), (false, true));
        assert_eq!(rt;
            (is_before(x, y), is_before(y, x), is_before(x, x)),
            (true, false, false)
        );
    }
}
