ghost use Rattle.std.specs.Prelude.{◌≡◌, ◌↔◌, ◌<◌, ◌≤◌, ℕ, List, length, IsTrue, IfOk, Contains, MatchOption};
ghost use Rattle.mr_set.specs.Elements.{IsSet};
ghost use Rattle.mr_set.specs.Subsets.{IsSetOf};
ghost use Rattle.mr_set.specs.Matroid.{IsPresentation, IsBasis};
ghost use Rattle.mr_matroid.specs.Exchange.{IsWithinLimits};
ghost use Rattle.mr_matroid.specs.Table.{IsFit, AreFits, AreApart, IsFirstMissing};
ghost use Rattle.mr_matroid.specs.Private.Table.{AreBases, IsHeld, IsFirstApart};

use crate::listing::Listing;
use mr_set::{Set, first_subset, next_subset};
use std::alloc::{AllocError, Global};
use std::marker::Model;

/// A number of elements, a rank, and which sets of the rank's size are listed. Contracts see the listed sets as nonbases, so
/// that a set of the size that isn't listed is a basis.
#[derive(Drop)]
pub struct SetTable {
    listing: Listing,
    unlisted: Vec<Set>,
}

impl Model for SetTable {
    ghost use Rattle.mr_set.specs.Matroid.{Presentation};
    ghost use Rattle.mr_matroid.specs.Private.Table.{AreBases};

    ghost Value = { Presentation };

    ghost view = { λ t. t.listing };

    ghost invariant = { λ t. AreBases t.listing t.unlisted.items };
}

// The sets of the size that aren't listed, in order.
fn unlisted(alloc: Global, listing: &Listing) -> Result<Vec<Set>, AllocError>
    ensures { IfOk result (λ v. AreBases listing.now v.items) }
{
    let mut sets = Vec::new(alloc);
    let mut s = first_subset(listing.elements(), listing.rank());
    'sets: loop {
        if !listing.listed(s) {
            sets.push(s)?;
        }
        match next_subset(listing.elements(), s) {
            Some(next) => s = next,
            None => return Ok(sets),
        }
    }
}

// The first of the sets that has no element of `f`.
fn first_apart(sets: &[Set], f: Set) -> Option<Set>
    ensures { MatchOption result ((s : List ℕ) → Contains sets.now s → ¬ (AreApart s f)) (IsFirstApart sets.now f) }
{
    for s in sets {
        if s.meet(f).len() == 0 {
            return Some(*s);
        }
    }
    None
}

impl SetTable {
    /// The table of these sets of `r` of the first `n` elements, which stand in order. It keeps a copy of them.
    pub fn new(alloc: Global, n: u32, r: u32, sets: &[Set]) -> Result<SetTable, AllocError>
        requires limits { IsWithinLimits (record { elements = n; rank = r; nonbases = sets.now }) }
        requires sets { IsPresentation (record { elements = n; rank = r; nonbases = sets.now }) }
        ensures { IfOk result (λ t. t ≡ record { elements = n; rank = r; nonbases = sets.now }) }
    {
        let listing = Listing::new(alloc, n, r, sets)?;
        let unlisted = unlisted(alloc, &listing)?;
        Ok(SetTable { listing, unlisted })
    }

    pub(crate) fn elements(&self) -> u32
        ensures value { result ≡ self.now.elements }
        ensures held { IsHeld self.now }
    {
        self.listing.elements()
    }

    pub(crate) fn rank(&self) -> u32
        ensures { result ≡ self.now.rank }
    {
        self.listing.rank()
    }

    // The listed sets, in order.
    pub(crate) fn sets(&self) -> &[Set]
        ensures { result.now ≡ self.now.nonbases }
    {
        self.listing.sets()
    }

    // The sets of the size that aren't listed, in order.
    pub(crate) fn unlisted(&self) -> &[Set]
        ensures { AreBases self.now result.now }
    {
        &self.unlisted
    }

    // A new table of the same sets.
    pub(crate) fn copy(&self, alloc: Global) -> Result<SetTable, AllocError>
        ensures { IfOk result (λ t. t ≡ self.now) }
    {
        let listing = self.listing.copy(alloc)?;
        let unlisted = Vec::from_slice(alloc, &self.unlisted)?;
        Ok(SetTable { listing, unlisted })
    }

    /// Whether a set of the size is listed.
    pub fn listed(&self, s: Set) -> bool
        requires { IsSetOf self.now.elements self.now.rank s }
        ensures { IsTrue result ↔ Contains self.now.nonbases s }
    {
        self.listing.listed(s)
    }

    /// The elements outside `b1` without `x` that make an unlisted set with it, for an element `x` of a set `b1` of the size.
    pub fn fits(&self, b1: Set, x: u32) -> Set
        requires set { IsSetOf self.now.elements self.now.rank b1 }
        requires element { Contains b1 x }
        ensures { AreFits self.now b1 x result }
    {
        let mut fits = Set::empty();
        for y in 0..self.elements() {
            if self.is_fit(b1, x, y) {
                fits = fits.with(y);
            }
        }
        fits
    }

    // Whether y is outside b1 without x and gives an unlisted set with it.
    pub(crate) fn is_fit(&self, b1: Set, x: u32, y: u32) -> bool
        requires set { IsSetOf self.now.elements self.now.rank b1 }
        requires element { Contains b1 x }
        requires other { y < self.now.elements }
        ensures { IsTrue result ↔ IsFit self.now b1 x y }
    {
        // The clauses of `elements` bound the elements.
        let _elements = self.elements();
        let rest = b1.without(x);
        if rest.has(y) {
            return false;
        }
        !self.listed(rest.with(y))
    }

    /// The first set of the size that isn't listed and has no element of `f`, or `None` where there is none.
    pub fn missing(&self, f: Set) -> Option<Set>
        ensures { MatchOption result ((b : List ℕ) → IsBasis self.now b → ¬ (AreApart b f)) (IsFirstMissing self.now f) }
    {
        first_apart(self.unlisted(), f)
    }
}
