ghost use Rattle.std.specs.Prelude.{◌≡◌, ◌↔◌, ◌<◌, ◌≤◌, ◌+◌, ◌++◌, ◌∷◌, if◌then◌else◌, ℕ, [], IsTrue, MatchBool, IfOk, OnOk, Contains, Some, length, slice_get, slice_index, slice_index_or};
ghost use Rattle.mr_set.specs.declared.TheConstants.{ELEMENTS};
ghost use Rattle.mr_set.specs.Subsets.{IsSetOf, list_cmp};
ghost use Rattle.std.specs.List.Sorted.{IsStrictlySortedBy};
ghost use Rattle.mr_set.specs.Matroid.{IsBasis};
ghost use Rattle.mr_graph.specs.declared.edge.Edge.{Edge as EdgeValue};
ghost use Rattle.mr_frame.specs.Private.Building.{AreSets, AreChosen, HasAndNot, HasLater, AreLast};
ghost use Rattle.mr_set.specs.Places.{IsAllSets};

use mr_graph::Edge;
use mr_matroid::Matroid;
use mr_set::{Set, elements, first_subset, next_subset};
use std::alloc::{AllocError, Global};
use std::marker::Model;

/// A list of sets.
#[derive(Drop)]
pub(crate) struct SetList {
    items: Vec<Set>,
}

impl Model for SetList {
    ghost use Rattle.std.specs.Prelude.{List, ℕ};

    ghost Value = { List (List ℕ) };

    ghost view = { λ a. a.items.items };
}

impl SetList {
    fn new(alloc: Global) -> SetList
        ensures { result ≡ [] }
    {
        SetList {
            items: Vec::new(alloc),
        }
    }

    pub(crate) fn as_slice(&self) -> &[Set]
        ensures { result.now ≡ self.now }
    {
        &self.items
    }

    // Takes the set if it is wanted.
    fn take_if(&mut self, x: Set, wanted: bool) -> Result<(), AllocError>
        ensures { OnOk result (self.new ≡ (if wanted then self.old ++ x ∷ [] else self.old)) }
    {
        if !wanted {
            return Ok(());
        }
        Ok(self.items.push(x)?)
    }
}

// All sets of `r` of the first `n` elements, in order.
fn all_sets(alloc: Global, n: u32, r: u32) -> Result<SetList, AllocError>
    requires elements { n ≤ ELEMENTS }
    requires size { r ≤ n }
    ensures { IfOk result (IsAllSets n r) }
{
    let mut list = SetList::new(alloc);
    let mut x = first_subset(n, r);
    'sets: loop {
        list.take_if(x, true)?;
        match next_subset(n, x) {
            Some(next) => x = next,
            None => return Ok(list),
        }
    }
}

// Whether the part of a set has a place.
fn has_place(x: Set, place: Edge, members: &[u32]) -> bool
    requires row { place.row < length members.now }
    requires column { place.col < ELEMENTS }
    requires elements { (k : ℕ) → k < length members.now → slice_index members.now k < ELEMENTS }
    ensures { MatchBool result (HasAndNot place.col (slice_index members.now place.row) x) (¬ (HasAndNot place.col (slice_index members.now place.row) x)) }
{
    if !x.has(place.col) {
        return false;
    }
    !x.has(members[place.row as usize])
}

// Those of the sets whose part has a place, in order.
fn with_place(
    alloc: Global,
    sets: &[Set],
    place: Edge,
    members: &[u32],
) -> Result<SetList, AllocError>
    requires sorted { IsStrictlySortedBy list_cmp sets.now }
    requires row { place.row < length members.now }
    requires column { place.col < ELEMENTS }
    requires elements { (k : ℕ) → k < length members.now → slice_index members.now k < ELEMENTS }
    ensures { IfOk result (AreChosen (HasAndNot place.col (slice_index members.now place.row)) sets.now) }
{
    let mut list = SetList::new(alloc);
    for x in sets {
        list.take_if(*x, has_place(*x, place, members))?;
    }
    Ok(list)
}

/// For each free position the sets that need it.
pub(crate) fn tests_of(
    alloc: Global,
    m: &Matroid,
    basis: Set,
    places: &[Edge],
) -> Result<Vec<SetList>, AllocError>
    requires basis { IsBasis m.now basis }
    requires places { (p : ℕ) (x : EdgeValue) → slice_get places.now p ≡ Some x → (x.row < m.now.rank) × (x.col < m.now.elements) }
    ensures size { IfOk result (λ tests. length tests.items ≡ length places.now) }
    ensures tests { IfOk result (λ tests. (p : ℕ) (x : EdgeValue) → slice_get places.now p ≡ Some x
        → AreSets m.now.elements m.now.rank (HasAndNot x.col (slice_index basis x.row)) (slice_index_or tests.items p [])) }
{
    let n = m.elements();
    let r = m.rank();
    let members = elements(basis);
    let all = all_sets(alloc, n, r)?;
    let mut tests = Vec::new(alloc);
    for place in places {
        let list = with_place(alloc, all.as_slice(), *place, members.as_slice())?;
        tests.push(list)?;
    }
    Ok(tests)
}

// Whether the part of a set has a later place than this one.
fn has_later(x: Set, p: usize, members: &[u32], places: &[Edge]) -> bool
    requires places { (q : ℕ) (e : EdgeValue) → slice_get places.now q ≡ Some e → (e.row < length members.now) × (e.col < ELEMENTS) }
    requires elements { (k : ℕ) → k < length members.now → slice_index members.now k < ELEMENTS }
    requires position { p < length places.now }
    ensures { MatchBool result (HasLater places.now members.now p x) (¬ (HasLater places.now members.now p x)) }
{
    for q in p + 1..places.len() {
        if has_place(x, places[q], members) {
            return true;
        }
    }
    false
}

// Those of the sets whose part has no later place, in order.
fn last_of(
    alloc: Global,
    sets: &[Set],
    p: usize,
    members: &[u32],
    places: &[Edge],
) -> Result<SetList, AllocError>
    requires sorted { IsStrictlySortedBy list_cmp sets.now }
    requires places { (q : ℕ) (e : EdgeValue) → slice_get places.now q ≡ Some e → (e.row < length members.now) × (e.col < ELEMENTS) }
    requires elements { (k : ℕ) → k < length members.now → slice_index members.now k < ELEMENTS }
    requires position { p < length places.now }
    ensures { IfOk result (AreLast places.now members.now p sets.now) }
{
    let mut list = SetList::new(alloc);
    for x in sets {
        list.take_if(*x, !has_later(*x, p, members, places))?;
    }
    Ok(list)
}

/// For each free position those of its sets whose part has no later one.
pub(crate) fn due_of(
    alloc: Global,
    tests: &[SetList],
    members: &[u32],
    places: &[Edge],
) -> Result<Vec<SetList>, AllocError>
    requires count { length tests.now ≡ length places.now }
    requires sorted { (p : ℕ) → p < length tests.now → IsStrictlySortedBy list_cmp (slice_index_or tests.now p []) }
    requires places { (q : ℕ) (e : EdgeValue) → slice_get places.now q ≡ Some e → (e.row < length members.now) × (e.col < ELEMENTS) }
    requires elements { (k : ℕ) → k < length members.now → slice_index members.now k < ELEMENTS }
    ensures count { IfOk result (λ due. length due.items ≡ length tests.now) }
    ensures are { IfOk result (λ due. (p : ℕ) → p < length tests.now → AreLast places.now members.now p (slice_index_or tests.now p []) (slice_index_or due.items p [])) }
{
    let mut due = Vec::new(alloc);
    for p in 0..tests.len() {
        due.push(last_of(alloc, tests[p].as_slice(), p, members, places)?)?;
    }
    Ok(due)
}
