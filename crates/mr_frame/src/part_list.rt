ghost use Rattle.std.specs.Prelude.{◌≡◌, ◌++◌, ◌∷◌, ◌<◌, ◌≤◌, ℕ, [], IfOk, OnOk, length, slice_index, slice_index_or};
ghost use Rattle.mr_set.specs.declared.TheConstants.{ELEMENTS};
ghost use Rattle.mr_set.specs.Elements.{IsSet};
ghost use Rattle.mr_frame.specs.Private.Filling.{AreRows};
ghost use Rattle.mr_frame.specs.Private.Parts.{IsPartOfSet, AreParts, ArePartLists};

use crate::part::Part;
use crate::set_list::SetList;
use mr_matroid::Matroid;
use mr_set::Set;
use std::alloc::{AllocError, Global};
use std::marker::Model;

/// What the tests of some sets need.
#[derive(Drop)]
pub(crate) struct PartList {
    items: Vec<Part>,
}

impl Model for PartList {
    ghost use Rattle.std.specs.Prelude.{List};
    ghost use Rattle.mr_frame.specs.declared.part.Part.{Part};

    ghost Value = { List Part };

    ghost view = { λ a. a.items.items };
}

impl PartList {
    fn new(alloc: Global) -> PartList
        ensures { result ≡ [] }
    {
        PartList {
            items: Vec::new(alloc),
        }
    }

    fn push(&mut self, part: Part) -> Result<(), AllocError>
        ensures { OnOk result (self.new ≡ self.old ++ part ∷ []) }
    {
        self.items.extend_from_slice(&[part])
    }

    pub(crate) fn as_slice(&self) -> &[Part]
        ensures { result.now ≡ self.now }
    {
        &self.items
    }
}

// The rows whose elements of the basis lie outside of a set.
fn rows_of(x: Set, members: &[u32]) -> Set
    requires count { length members.now ≤ ELEMENTS }
    requires elements { (k : ℕ) → k < length members.now → slice_index members.now k < ELEMENTS }
    ensures { AreRows members.now x result }
{
    let mut rows = Set::empty();
    for row in 0..members.len() {
        if !x.has(members[row]) {
            rows = rows.with(row as u32);
        }
    }
    rows
}

// What the test of a set needs.
fn part_of(m: &Matroid, basis: Set, members: &[u32], x: Set) -> Part
    requires members { members.now ≡ basis }
    requires count { length members.now ≤ ELEMENTS }
    requires elements { (k : ℕ) → k < length members.now → slice_index members.now k < ELEMENTS }
    requires set { IsSet m.now.elements x }
    ensures { IsPartOfSet m.now basis x result }
{
    Part {
        set: x,
        rows: rows_of(x, members),
        columns: x.minus(basis),
        basis: m.is_basis(x),
    }
}

// What the tests of a list of sets need.
fn parts_in(
    alloc: Global,
    m: &Matroid,
    basis: Set,
    members: &[u32],
    sets: &[Set],
) -> Result<PartList, AllocError>
    requires members { members.now ≡ basis }
    requires count { length members.now ≤ ELEMENTS }
    requires elements { (k : ℕ) → k < length members.now → slice_index members.now k < ELEMENTS }
    requires sets { (k : ℕ) → k < length sets.now → IsSet m.now.elements (slice_index_or sets.now k []) }
    ensures { IfOk result (AreParts m.now basis sets.now) }
{
    let mut list = PartList::new(alloc);
    for x in sets {
        list.push(part_of(m, basis, members, *x))?;
    }
    Ok(list)
}

/// What the tests of the sets of each list need.
pub(crate) fn parts_of(
    alloc: Global,
    m: &Matroid,
    basis: Set,
    members: &[u32],
    due: &[SetList],
) -> Result<Vec<PartList>, AllocError>
    requires members { members.now ≡ basis }
    requires count { length members.now ≤ ELEMENTS }
    requires elements { (k : ℕ) → k < length members.now → slice_index members.now k < ELEMENTS }
    requires sets { (p : ℕ) → p < length due.now → (k : ℕ) → k < length (slice_index_or due.now p []) → IsSet m.now.elements (slice_index_or (slice_index_or due.now p []) k []) }
    ensures { IfOk result (λ parts. ArePartLists m.now basis due.now parts.items) }
{
    let mut parts = Vec::new(alloc);
    for p in 0..due.len() {
        parts.push(parts_in(alloc, m, basis, members, due[p].as_slice())?)?;
    }
    Ok(parts)
}
