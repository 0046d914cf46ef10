ghost use Rattle.std.specs.Prelude.{◌≡◌, ◌↔◌, ◌≤◌, length, IsTrue, IfOk, Contains};
ghost use Rattle.mr_set.specs.Subsets.{IsSetOf};
ghost use Rattle.mr_set.specs.Matroid.{IsPresentation};
ghost use Rattle.mr_matroid.specs.Exchange.{IsWithinLimits};
ghost use Rattle.mr_matroid.specs.Private.Counts.{AreCounts};
ghost use Rattle.mr_matroid.specs.Private.Table.{AreFlags, IsHeld};

use crate::counts::{count, counts_up_to, place};
use mr_set::Set;
use std::alloc::{AllocError, Global};
use std::marker::Model;

/// A list of sets of one size, with a flag for each set of this size that tells whether it is listed.
#[derive(Drop)]
pub struct Listing {
    elements: u32,
    rank: u32,
    sets: Vec<Set>,
    counts: Vec<u64>,
    flags: Vec<bool>,
}

impl Model for Listing {
    ghost use Rattle.mr_set.specs.Matroid.{Presentation};

    ghost Value = { Presentation };

    ghost use Rattle.mr_matroid.specs.Listing.{presentation};
    ghost use Rattle.mr_matroid.specs.Private.Listing.{IsListing};

    ghost view = { presentation };

    ghost invariant = { IsListing };
}

// The flags of the sets of `r` of the first `n` elements.
fn flags_of(
    alloc: Global,
    counts: &[u64],
    n: u32,
    r: u32,
    sets: &[Set],
) -> Result<Vec<bool>, AllocError>
    requires counts { AreCounts n counts.now }
    requires limits { IsWithinLimits (record { elements = n; rank = r; nonbases = sets.now }) }
    requires sets { IsPresentation (record { elements = n; rank = r; nonbases = sets.now }) }
    ensures { IfOk result (λ v. AreFlags n r sets.now v.items) }
{
    let total = count(counts, n, n, r);
    let mut flags = vec![in alloc; false; total as usize]?;
    for s in sets {
        let at = place(counts, n, *s) as usize;
        flags[at] = true;
    }
    Ok(flags)
}

impl Listing {
    pub fn new(alloc: Global, n: u32, r: u32, sets: &[Set]) -> Result<Listing, AllocError>
        requires limits { IsWithinLimits (record { elements = n; rank = r; nonbases = sets.now }) }
        requires sets { IsPresentation (record { elements = n; rank = r; nonbases = sets.now }) }
        ensures { IfOk result (λ t. t ≡ record { elements = n; rank = r; nonbases = sets.now }) }
    {
        let counts = counts_up_to(alloc, n)?;
        let flags = flags_of(alloc, counts.as_slice(), n, r, sets)?;
        let sets = Vec::from_slice(alloc, sets)?;
        Ok(Listing {
            elements: n,
            rank: r,
            sets,
            counts,
            flags,
        })
    }

    pub fn elements(&self) -> u32
        ensures value { result ≡ self.now.elements }
        ensures held { IsHeld self.now }
    {
        self.elements
    }

    pub fn rank(&self) -> u32
        ensures { result ≡ self.now.rank }
    {
        self.rank
    }

    pub fn sets(&self) -> &[Set]
        ensures { result.now ≡ self.now.nonbases }
    {
        &self.sets
    }

    pub fn copy(&self, alloc: Global) -> Result<Listing, AllocError>
        ensures { IfOk result (λ t. t ≡ self.now) }
    {
        let sets = Vec::from_slice(alloc, &self.sets)?;
        let counts = Vec::from_slice(alloc, &self.counts)?;
        let flags = Vec::from_slice(alloc, &self.flags)?;
        Ok(Listing {
            elements: self.elements,
            rank: self.rank,
            sets,
            counts,
            flags,
        })
    }

    /// Whether the set is listed.
    pub fn listed(&self, s: Set) -> bool
        requires { IsSetOf self.now.elements self.now.rank s }
        ensures { IsTrue result ↔ Contains self.now.nonbases s }
    {
        let at = place(self.counts.as_slice(), self.elements, s) as usize;
        self.flags[at]
    }
}
