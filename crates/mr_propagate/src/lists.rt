ghost use Rattle.std.specs.Prelude.{◌≡◌, ◌<◌, ◌+◌, ◌*◌, [], length, IfOk, OnOk, OnErr, slice_set, replicate};
ghost use Rattle.std.specs.List.Sorted.{IsStrictlySortedBy};
ghost use Rattle.std.specs.Ordering.{nat_cmp};
ghost use Rattle.mr_set.specs.Elements.{with_element};
ghost use Rattle.mr_assign.specs.declared.TheConstants.{POSITIONS, VALUES};
ghost use Rattle.mr_propagate.specs.Private.Kept.{AreLists, list_at};

use crate::number::Numbers;
use mr_assign::{POSITIONS, VALUES};
use std::alloc::{AllocError, Global};
use std::marker::Model;

/// For each pair of a position and a value, by its number, some numbers in increasing order.
#[derive(Drop)]
pub(crate) struct PairLists {
    lists: Vec<Numbers>,
}

impl Model for PairLists {
    ghost use Rattle.std.specs.Prelude.{List, ℕ};
    ghost use Rattle.mr_propagate.specs.Private.Kept.{AreLists};

    ghost Value = { List (List ℕ) };

    ghost view = { λ a. a.lists.items };

    ghost invariant = { λ a. AreLists a.lists.items };
}

impl PairLists {
    pub(crate) fn new(alloc: Global) -> Result<PairLists, AllocError>
        ensures { IfOk result (λ all. all ≡ replicate (POSITIONS * VALUES + 1) []) }
    {
        let mut lists = Vec::new(alloc);
        for _k in 0..POSITIONS * VALUES as u32 + 1 {
            lists.push(Numbers::new(alloc))?;
        }
        Ok(PairLists { lists })
    }

    /// The list of a pair's number.
    pub(crate) fn at(&self, k: usize) -> &[u32]
        requires { k < POSITIONS * VALUES + 1 }
        ensures same { result.now ≡ list_at self.now k }
        ensures increasing { IsStrictlySortedBy nat_cmp result.now }
    {
        self.lists[k].as_slice()
    }

    /// Puts a number into the list of a pair's number.
    pub(crate) fn add(&mut self, k: usize, n: u32) -> Result<(), AllocError>
        requires { k < POSITIONS * VALUES + 1 }
        ensures ok { OnOk result (self.new ≡ slice_set self.old k (with_element n (list_at self.old k))) }
        ensures err { OnErr result (self.new ≡ self.old) }
    {
        self.lists[k].add(n)
    }
}
