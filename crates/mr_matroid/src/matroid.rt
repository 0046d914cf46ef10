ghost use Rattle.std.specs.Prelude.{◌≡◌, ◌↔◌, ◌<◌, ◌≤◌, length, IfOk, IsTrue};
ghost use Rattle.mr_set.specs.Elements.{IsSet};
ghost use Rattle.mr_set.specs.Subsets.{choose};
ghost use Rattle.mr_set.specs.Matroid.{IsPresentation, IsMatroid, IsBasis, IsFirstBasis, IsRank};
ghost use Rattle.mr_matroid.specs.Exchange.{IsWithinLimits, IsLoop, IsColoop};
ghost use Rattle.mr_matroid.specs.Answers.{IsMatroidVerdict};

use crate::bases;
use crate::exchange::first_failure;
use crate::fault::MatroidFault;
use crate::table::SetTable;
use mr_set::Set;
use std::alloc::{AllocError, Global};
use std::marker::Model;

/// A matroid. Contracts see its number of elements, its rank and its nonbases.
#[derive(Drop)]
pub struct Matroid {
    table: SetTable,
}

impl Model for Matroid {
    ghost use Rattle.mr_set.specs.Matroid.{Presentation, IsMatroid};
    ghost use Rattle.mr_matroid.specs.Exchange.{IsWithinLimits};

    ghost Value = { Presentation };

    ghost view = { λ m. m.table };

    ghost invariant = { λ m. IsMatroid m.table × IsWithinLimits m.table };
}

impl Matroid {
    /// The matroid on `n` elements of rank `r` with these nonbases. It keeps a copy of them.
    pub fn from_nonbases(
        alloc: Global,
        n: u32,
        r: u32,
        sets: &[Set],
    ) -> Result<Matroid, MatroidFault>
        requires limits { IsWithinLimits (record { elements = n; rank = r; nonbases = sets.now }) }
        requires sets { IsPresentation (record { elements = n; rank = r; nonbases = sets.now }) }
        ensures { IsMatroidVerdict (record { elements = n; rank = r; nonbases = sets.now }) result }
    {
        match SetTable::new(alloc, n, r, sets) {
            Err(_) => Err(MatroidFault::Memory),
            Ok(table) => match bases::first_basis(&table) {
                None => Err(MatroidFault::NoBasis),
                Some(_) => match first_failure(&table) {
                    Some(found) => Err(MatroidFault::Exchange {
                        b1: found.0,
                        b2: found.1,
                        x: found.2,
                    }),
                    None => Ok(Matroid { table }),
                },
            },
        }
    }

    /// The number of elements, at most `ELEMENTS`.
    pub fn elements(&self) -> u32
        ensures value { result ≡ self.now.elements }
        ensures matroid { IsMatroid self.now }
        ensures limits { IsWithinLimits self.now }
    {
        self.table.elements()
    }

    /// The size of each basis.
    pub fn rank(&self) -> u32
        ensures { result ≡ self.now.rank }
    {
        self.table.rank()
    }

    /// How many sets of the size of a basis are none, at most `SETS`.
    pub fn nonbasis_count(&self) -> u32
        ensures value { result ≡ length self.now.nonbases }
        ensures limit { result ≤ choose self.now.elements self.now.rank }
    {
        let sets = self.table.sets();
        sets.len() as u32
    }

    /// The sets of the rank's size that are no bases, in order.
    pub fn nonbases(&self) -> &[Set]
        ensures { result.now ≡ self.now.nonbases }
    {
        self.table.sets()
    }

    /// A new matroid with the same elements and nonbases.
    pub fn copy(&self, alloc: Global) -> Result<Matroid, AllocError>
        ensures { IfOk result (λ m. m ≡ self.now) }
    {
        match self.table.copy(alloc) {
            Err(e) => Err(e),
            Ok(table) => Ok(Matroid { table }),
        }
    }

    /// Whether the set is a basis. One of another size is none.
    pub fn is_basis(&self, x: Set) -> bool
        requires { IsSet self.now.elements x }
        ensures { IsTrue result ↔ IsBasis self.now x }
    {
        if x.len() == self.table.rank() {
            !self.table.listed(x)
        } else {
            false
        }
    }

    /// Whether no basis has the element.
    pub fn is_loop(&self, e: u32) -> bool
        requires { e < self.now.elements }
        ensures { IsTrue result ↔ IsLoop self.now e }
    {
        bases::is_loop(&self.table, e)
    }

    /// Whether each basis has the element.
    pub fn is_coloop(&self, e: u32) -> bool
        requires { e < self.now.elements }
        ensures { IsTrue result ↔ IsColoop self.now e }
    {
        bases::is_coloop(&self.table, e)
    }

    /// The least basis.
    pub fn first_basis(&self) -> Set
        ensures { IsFirstBasis self.now result }
    {
        match bases::first_basis(&self.table) {
            Some(b) => b,
            None => unreachable!(),
        }
    }

    /// The greatest size of an independent subset of the set.
    pub fn rank_of(&self, x: Set) -> u32
        requires { IsSet self.now.elements x }
        ensures { IsRank self.now x result }
    {
        bases::most_shared(&self.table, x)
    }
}
