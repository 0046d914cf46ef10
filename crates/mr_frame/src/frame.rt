ghost use Rattle.std.specs.Prelude.{◌≡◌, ◌≢◌, ◌↔◌, ◌<◌, ◌≤◌, ◌+◌, ◌*◌, ℕ, List, IsTrue, IfOk, IfSome, MatchBool, MatchOption, Contains, Some, None, length, slice_get, slice_index, slice_index_or, slice_set};
ghost use Rattle.std.specs.List.Sorted.{IsPermutation, IsStrictlySortedBy};
ghost use Rattle.mr_field.specs.Gf.{Gf, order};
ghost use Rattle.mr_set.specs.declared.TheConstants.{ELEMENTS};
ghost use Rattle.mr_set.specs.Elements.{numbers_below, without_element};
ghost use Rattle.mr_set.specs.Subsets.{IsSetOf, list_cmp};
ghost use Rattle.mr_assign.specs.declared.TheConstants.{POSITIONS};
ghost use Rattle.mr_linear.specs.Stored.{cell, InField};
ghost use Rattle.mr_linear.specs.declared.elimination.TheConstants.{STRIDE};
ghost use Rattle.mr_graph.specs.Order.{IsForestOrder};
ghost use Rattle.mr_frame.specs.Frame.{IsExchange, IsFrame};
ghost use Rattle.mr_frame.specs.Test.{IsCell, IsAssignmentOf, IsFull, IsFilledBy, Needs, IsDecided, SetFails, IsVerdict, IsFirstFailing};
ghost use Rattle.mr_frame.specs.Private.Filling.{AreRows, HasValue, HasEntry, IsFilledTo, IsCopiedTo};
ghost use Rattle.mr_frame.specs.Parts.{NoneFailsLast, IsFirstFailingLast};
ghost use Rattle.mr_frame.specs.Private.Parts.{IsPartOfSet};

use crate::cell::cells_of;
use crate::exchange::fundamental_graph;
use crate::first::{WIDTH, mark};
use crate::part::Part;
use crate::part_list::{PartList, parts_of};
use crate::place::free_places;
use crate::set_list::{SetList, due_of, tests_of};
use crate::verdict::verdict_of;
use crate::{Cell, Verdict};
use mr_assign::{Assign, POSITIONS};
use mr_field::Field;
use mr_graph::{Edge, EdgeList};
use mr_linear::{CELLS, Matrix, STRIDE, independent_part, part_values};
use mr_matroid::Matroid;
use mr_set::{ELEMENTS, Set, elements, first_subset, next_subset};
use std::alloc::{AllocError, Global};
use std::marker::Model;

/// A matroid's first basis, the first forest of its fundamental graph, and the free positions of the
/// matrices over a field that are the identity at the basis and 1 at the forest.
#[derive(Drop)]
pub struct Frame {
    matroid: Matroid,
    field: Field,
    basis: Set,
    forest: EdgeList,
    places: EdgeList,
    // Row i stands at `ELEMENTS` times i.
    cells: Vec<Cell>,
    tests: Vec<SetList>,
    parts: Vec<PartList>,
}

impl Model for Frame {
    ghost use Rattle.mr_frame.specs.Frame.{Framed};
    ghost use Rattle.mr_frame.specs.Kept.{framed};
    ghost use Rattle.mr_frame.specs.Private.Kept.{IsKept, AreDueParts};

    ghost Value = { Framed };

    ghost view = { λ f. framed f.matroid f.field f.basis f.forest f.places };

    ghost invariant = { λ f. IsKept (framed f.matroid f.field f.basis f.forest f.places) f.cells.items f.tests.items × AreDueParts (framed f.matroid f.field f.basis f.forest f.places) f.tests.items f.parts.items };
}

impl Frame {
    /// The frame of a matroid over a field. A refusal gives the matroid up.
    pub fn new(alloc: Global, m: Matroid, f: Field) -> Result<Frame, AllocError>
        ensures frame { IfOk result IsFrame }
        ensures matroid { IfOk result (λ frame. frame.matroid ≡ m) }
        ensures field { IfOk result (λ frame. frame.field ≡ f) }
    {
        // The clauses of `elements` say that it is a matroid within the limits.
        let _limits = m.elements();
        let basis = m.first_basis();
        let graph = fundamental_graph(&m, basis);
        let forest = graph.first_forest(alloc)?;
        let places = free_places(alloc, &m, &f, basis, &graph, forest.as_slice())?;
        let cells = cells_of(alloc, &graph, m.rank(), places.as_slice())?;
        let tests = tests_of(alloc, &m, basis, places.as_slice())?;
        let members = elements(basis);
        let due = due_of(alloc, &tests, members.as_slice(), places.as_slice())?;
        let parts = parts_of(alloc, &m, basis, members.as_slice(), &due)?;
        Ok(Frame {
            matroid: m,
            field: f,
            basis,
            forest,
            places,
            cells,
            tests,
            parts,
        })
    }

    /// The matroid that it is the frame of.
    pub fn matroid(&self) -> &Matroid
        ensures { result.now ≡ self.now.matroid }
    {
        &self.matroid
    }

    /// The field that the matroid is to be represented over.
    pub fn field(&self) -> Field
        ensures { result ≡ self.now.field }
    {
        self.field
    }

    /// The matroid's first basis.
    pub fn basis(&self) -> Set
        ensures value { result ≡ self.now.basis }
        ensures frame { IsFrame self.now }
    {
        self.basis
    }

    /// The first forest of the basis's fundamental graph, row by row, and in a row by column.
    pub fn forest(&self) -> &[Edge]
        ensures { result.now ≡ self.now.forest }
    {
        self.forest.as_slice()
    }

    /// The forest's edges, so that every edge but the first of its component has exactly one end that
    /// earlier edges touch.
    pub fn forest_order(&self, alloc: Global) -> Result<EdgeList, AllocError>
        ensures same { IfOk result (IsPermutation self.now.forest) }
        ensures order { IfOk result (IsForestOrder (IsExchange self.now.matroid self.now.basis)) }
    {
        fundamental_graph(&self.matroid, self.basis).forest_order(alloc, &self.forest)
    }

    /// How many positions are free.
    pub fn free(&self) -> u32
        ensures value { result ≡ length self.now.places }
        ensures limit { result ≤ POSITIONS }
    {
        self.places.as_slice().len() as u32
    }

    /// The row and the column of a free position. They are numbered row by row, and in a row by column.
    pub fn place(&self, p: u32) -> Edge
        requires { p < length self.now.places }
        ensures { slice_get self.now.places p ≡ Some result }
    {
        self.places.as_slice()[p as usize]
    }

    /// Whether the map gives elements of the field to free positions, and to nothing else.
    pub fn is_assignment(&self, a: &Assign) -> bool
        ensures { IsTrue result ↔ IsAssignmentOf self.now a.now }
    {
        // The clauses of `words` say that there are no more positions.
        let _words = a.words();
        let count = self.free();
        let order = self.field.order();
        for p in 0..POSITIONS {
            let v = a.get(p);
            if v != 0 && (p >= count || v >= order) {
                return false;
            }
        }
        true
    }

    /// What stands in a row and in the column of an element outside of the basis.
    pub fn cell(&self, row: u32, element: u32) -> Cell
        requires row { row < self.now.matroid.rank }
        requires element { element < self.now.matroid.elements }
        requires outside { ¬ (Contains self.now.basis element) }
        ensures { IsCell self.now row element result }
    {
        self.cells[(row * ELEMENTS + element) as usize]
    }

    /// The test of a set of the rank's size under an assignment.
    pub fn test(&self, x: Set, a: &Assign) -> Verdict
        requires set { IsSetOf self.now.matroid.elements self.now.matroid.rank x }
        requires assignment { IsAssignmentOf self.now a.now }
        ensures { IsVerdict self.now a.now x result }
    {
        let rows = self.rows_outside(x);
        if !self.is_decided(rows, x, a) {
            return Verdict::Unknown;
        }
        let columns = x.minus(self.basis);
        let mut part = self.part(rows, columns, a);
        let independent = independent_part(
            &self.field,
            &mut part,
            self.matroid.rank(),
            self.matroid.elements(),
            rows,
            columns,
        );
        verdict_of(self.matroid.is_basis(x), independent)
    }

    /// Whether a set of the rank's size fails under an assignment.
    pub fn fails(&self, x: Set, a: &Assign) -> bool
        requires set { IsSetOf self.now.matroid.elements self.now.matroid.rank x }
        requires assignment { IsAssignmentOf self.now a.now }
        ensures { MatchBool result (SetFails self.now a.now x) (¬ (SetFails self.now a.now x)) }
    {
        match self.test(x, a) {
            Verdict::Fails => true,
            Verdict::Holds | Verdict::Unknown => false,
        }
    }

    /// For each value of a free position the first set that fails with it, among those whose part has the position as its
    /// last one, where the earlier positions have values. Each set tells all values at once.
    pub fn first_failing_values(&self, p: u32, a: &Assign) -> [Option<Set>; WIDTH]
        requires assignment { IsAssignmentOf self.now a.now }
        requires position { p < length self.now.places }
        requires earlier { (q : ℕ) → q < p → slice_index a.now q ≢ 0 }
        ensures { (v : ℕ) → v < order self.now.field → MatchOption (slice_index_or result v None) (NoneFailsLast self.now (slice_set a.now p v) p) (IsFirstFailingLast self.now (slice_set a.now p v) p) }
    {
        // The clauses of `words` say how many positions there are.
        let _positions = a.words();
        let full = self.outside(a);
        let place = self.place(p);
        let spare = elements(self.basis)[place.row as usize];
        let mut copy = full;
        let mut first = [None; WIDTH];
        let mut open = nonzero(&self.field);
        for part in self.parts[p as usize].as_slice() {
            // Each value has its set where none is open.
            let Some(_) = open.first() else {
                return first;
            };
            let failing = self.failing_part(part, p, place, spare, a, &full, &mut copy);
            open = open.minus(failing);
            mark(&mut first, failing, part.set);
        }
        first
    }

    /// The sets whose part has a free position, in order.
    pub fn tests_at(&self, p: u32) -> &[Set]
        requires { p < length self.now.places }
        ensures sorted { IsStrictlySortedBy list_cmp result.now }
        ensures exactly { (x : List ℕ) → Contains result.now x ↔ (IsSetOf self.now.matroid.elements self.now.matroid.rank x × Needs self.now x p) }
    {
        self.tests[p as usize].as_slice()
    }

    /// The first set that fails under an assignment.
    pub fn first_failing(&self, a: &Assign) -> Option<Set>
        requires { IsAssignmentOf self.now a.now }
        ensures { MatchOption result ((x : List ℕ) → ¬ (SetFails self.now a.now x)) (IsFirstFailing self.now a.now) }
    {
        let n = self.matroid.elements();
        let mut x = first_subset(n, self.matroid.rank());
        'sets: loop {
            if self.fails(x, a) {
                return Some(x);
            }
            match next_subset(n, x) {
                Some(next) => x = next,
                None => return None,
            }
        }
    }

    /// The matrix of an assignment that gives a value to each free position.
    pub fn matrix_of(&self, alloc: Global, a: &Assign) -> Result<Matrix, AllocError>
        requires assignment { IsAssignmentOf self.now a.now }
        requires full { IsFull self.now a.now }
        ensures { IfOk result (IsFilledBy self.now a.now) }
    {
        let mut g = Matrix::zero(
            alloc,
            self.field,
            self.matroid.rank(),
            self.matroid.elements(),
        )?;
        let members = elements(self.basis);
        for row in 0..self.matroid.rank() {
            self.fill_row(a, members[row as usize], row, &mut g);
        }
        Ok(g)
    }

    // Fills the row of the element `x` of the basis.
    fn fill_row(&self, a: &Assign, x: u32, row: u32, g: &mut Matrix)
        requires assignment { IsAssignmentOf self.now a.now }
        requires row { row < self.now.matroid.rank }
        requires element { x ≡ slice_index self.now.basis row }
        requires filled { IsFilledTo self.now.matroid self.now.field (HasEntry self.now a.now) g.old row 0 }
        ensures { IsFilledTo self.now.matroid self.now.field (HasEntry self.now a.now) g.new (row + 1) 0 }
    {
        for e in 0..self.matroid.elements() {
            let v = self.entry(a, x, row, e);
            g.set(row, e, v);
        }
    }

    // The entry in the row of the element `x` of the basis and in column `e`.
    fn entry(&self, a: &Assign, x: u32, row: u32, e: u32) -> u8
        requires assignment { IsAssignmentOf self.now a.now }
        requires row { row < self.now.matroid.rank }
        requires element { x ≡ slice_index self.now.basis row }
        requires column { e < self.now.matroid.elements }
        ensures value { HasEntry self.now a.now row e result }
        ensures element { result < order self.now.field }
    {
        // The clauses of `elements` say that there are at most `ELEMENTS`.
        let _limits = self.matroid.elements();
        if self.basis.has(e) {
            return if e == x { 1 } else { 0 };
        }
        self.value(row, e, a)
    }

    // The entry in a row and in the column of an element outside of the basis, 0 at a free position without value.
    fn value(&self, row: u32, element: u32, a: &Assign) -> u8
        requires assignment { IsAssignmentOf self.now a.now }
        requires row { row < self.now.matroid.rank }
        requires element { element < self.now.matroid.elements }
        ensures value { HasValue self.now a.now row element result }
        ensures element { result < order self.now.field }
    {
        match self.cells[(row * ELEMENTS + element) as usize] {
            Cell::Zero => 0,
            Cell::One => 1,
            Cell::Free(p) => a.get(p),
        }
    }

    // The rows whose elements of the basis lie outside of a set.
    fn rows_outside(&self, x: Set) -> Set
        ensures { AreRows self.now.basis x result }
    {
        let members = elements(self.basis);
        let mut rows = Set::empty();
        for row in 0..self.matroid.rank() {
            if !x.has(members[row as usize]) {
                rows = rows.with(row);
            }
        }
        rows
    }

    // A working copy with the entries outside of the basis.
    fn outside(&self, a: &Assign) -> [u8; CELLS]
        requires assignment { IsAssignmentOf self.now a.now }
        ensures elements { InField self.now.field result }
        ensures values { (i e : ℕ) → i < self.now.matroid.rank → e < self.now.matroid.elements → ¬ (Contains self.now.basis e) → HasValue self.now a.now i e (cell result i e) }
    {
        let r = self.matroid.rank();
        let n = self.matroid.elements();
        let rows = first_subset(n, r);
        let columns = first_subset(n, n).minus(self.basis);
        self.part(rows, columns, a)
    }

    // The values of a free position for which a set fails, by what is kept of the set and the entries outside of the basis.
    fn failing_part(
        &self,
        part: &Part,
        p: u32,
        place: Edge,
        spare: u32,
        a: &Assign,
        full: &[u8; CELLS],
        copy: &mut [u8; CELLS],
    ) -> Set
        requires place { slice_get self.now.places p ≡ Some place }
        requires spare { spare ≡ slice_index self.now.basis place.row }
        requires part { IsPartOfSet self.now.matroid self.now.basis part.now.set part.now }
        requires set { IsSetOf self.now.matroid.elements self.now.matroid.rank part.now.set }
        requires assignment { IsAssignmentOf self.now a.now }
        requires position { Needs self.now part.now.set p }
        requires others { (q : ℕ) → Needs self.now part.now.set q → q ≢ p → slice_index a.now q ≢ 0 }
        requires elements { InField self.now.field full.now }
        requires scratch { InField self.now.field copy.old }
        requires values { (i e : ℕ) → i < self.now.matroid.rank → e < self.now.matroid.elements → ¬ (Contains self.now.basis e) → HasValue self.now a.now i e (cell full.now i e) }
        ensures fails { (v : ℕ) → Contains result v ↔ SetFails self.now (slice_set a.now p v) part.now.set }
        ensures small { (v : ℕ) → Contains result v → v < WIDTH }
        ensures scratch { InField self.now.field copy.new }
    {
        // The clauses of `words` say how many positions there are.
        let _positions = a.words();
        let dependent = part_values(
            &self.field,
            full,
            copy,
            place.row,
            place.col,
            spare,
            part.rows,
            part.columns,
            self.matroid.rank(),
            self.matroid.elements(),
        );
        values_where(&self.field, part.basis, dependent)
    }

    // Whether each free position in the part of a set has a value.
    fn is_decided(&self, rows: Set, x: Set, a: &Assign) -> bool
        requires { AreRows self.now.basis x rows }
        ensures { MatchBool result (IsDecided self.now a.now x) ((p : ℕ) × Needs self.now x p × (slice_index a.now p ≡ 0)) }
    {
        for p in 0..self.free() {
            if self.lacks(rows, x, a, p) {
                return false;
            }
        }
        true
    }

    // Whether the free position is in the part of a set and has no value.
    fn lacks(&self, rows: Set, x: Set, a: &Assign, p: u32) -> bool
        requires rows { AreRows self.now.basis x rows }
        requires position { p < length self.now.places }
        ensures { IsTrue result ↔ (Needs self.now x p × (slice_index a.now p ≡ 0)) }
    {
        let place = self.places.as_slice()[p as usize];
        if !rows.has(place.row) {
            return false;
        }
        if !x.has(place.col) {
            return false;
        }
        a.get(p) == 0
    }

    // A working copy with the entries in these rows and columns.
    fn part(&self, rows: Set, columns: Set, a: &Assign) -> [u8; CELLS]
        requires assignment { IsAssignmentOf self.now a.now }
        requires columns { (e : ℕ) → Contains columns e → e < self.now.matroid.elements }
        ensures elements { InField self.now.field result }
        ensures values { (i e : ℕ) → i < self.now.matroid.rank → e < self.now.matroid.elements → Contains rows i → Contains columns e → HasValue self.now a.now i e (cell result i e) }
    {
        let mut w = [0u8; CELLS];
        for row in 0..self.matroid.rank() {
            self.copy_row(rows, columns, row, a, &mut w);
        }
        w
    }

    // Copies the entries of one row, if it is one of the rows.
    fn copy_row(&self, rows: Set, columns: Set, row: u32, a: &Assign, w: &mut [u8])
        requires assignment { IsAssignmentOf self.now a.now }
        requires columns { (e : ℕ) → Contains columns e → e < self.now.matroid.elements }
        requires row { row < self.now.matroid.rank }
        requires copied { IsCopiedTo self.now a.now rows columns w.old (row * STRIDE) }
        ensures { IsCopiedTo self.now a.now rows columns w.new ((row + 1) * STRIDE) }
    {
        // The clauses of `elements` say that there are at most `ELEMENTS`.
        let n = self.matroid.elements();
        if !rows.has(row) {
            return;
        }
        for e in 0..n {
            self.copy_entry(rows, columns, row, e, a, w);
        }
    }

    // Copies one entry of a row, if its column is one of the columns.
    fn copy_entry(&self, rows: Set, columns: Set, row: u32, e: u32, a: &Assign, w: &mut [u8])
        requires assignment { IsAssignmentOf self.now a.now }
        requires row { row < self.now.matroid.rank }
        requires column { e < self.now.matroid.elements }
        requires copied { IsCopiedTo self.now a.now rows columns w.old (row * STRIDE + e) }
        ensures { IsCopiedTo self.now a.now rows columns w.new (row * STRIDE + (e + 1)) }
    {
        // The clauses of `elements` say that there are at most `ELEMENTS`.
        let _limits = self.matroid.elements();
        if !columns.has(e) {
            return;
        }
        w[row as usize * STRIDE + e as usize] = self.value(row, e, a);
    }
}

// The elements but 0.
fn nonzero(field: &Field) -> Set
    ensures { result ≡ without_element 0 (numbers_below (order field.now)) }
{
    let q = field.order() as u32;
    first_subset(q, q).without(0)
}

// The values but 0 that are in a set just where the flag says so.
fn values_where(field: &Field, flag: bool, values: Set) -> Set
    ensures { (v : ℕ) → Contains result v ↔ ((0 < v) × (v < order field.now) × (IsTrue flag ↔ Contains values v)) }
{
    let all = nonzero(field);
    if flag {
        all.meet(values)
    } else {
        all.minus(values)
    }
}
