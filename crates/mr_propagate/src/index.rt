ghost use Rattle.std.specs.Prelude.{◌≡◌, ◌≢◌, ◌↔◌, ◌==◌, if◌then◌else◌, ◌<◌, ◌≤◌, ◌+◌, ◌*◌, ℕ, [], Contains, IfOk, OnOk, OnErr, IsNone, IsTrue, IfSome, MatchOption, Some, None, ◌-◌, length, slice_index, slice_index_or, slice_set, option_copied, vec_capacity};
ghost use Rattle.std.specs.List.Sorted.{IsStrictlySortedBy};
ghost use Rattle.std.specs.Ordering.{nat_cmp};
ghost use Rattle.mr_field.specs.Gf.{order};
ghost use Rattle.mr_assign.specs.Assign.{IsPartOf};
ghost use Rattle.mr_assign.specs.declared.TheConstants.{POSITIONS, VALUES};
ghost use Rattle.mr_frame.specs.Test.{IsAssignmentOf, IsFull};
ghost use Rattle.mr_nogood.specs.declared.row.Row.{Row as RowIs};
ghost use Rattle.mr_nogood.specs.Follows.{in_slots};
ghost use Rattle.mr_propagate.specs.Pairs.{IsLeastPair};
ghost use Rattle.mr_propagate.specs.Private.Pairs.{IsGreatestPair, IsPairNumber, IsStart, pair_number};
ghost use Rattle.mr_propagate.specs.Index.{NoneFailsAt, IsFirstFailingAt, NothingInside, IsLeastInside, IsExcludedBy, IsOpenAt, IsFilledBelow, IsLeastOpen};
ghost use Rattle.mr_propagate.specs.Private.Found.{IsLeastFound, EndsAt, EndsBefore, lesser, cite_of};

use crate::lists::PairLists;
use crate::pair::{is_pair, least_number, pair_number};
use crate::tests_at::{first_failing_at, first_failing_values};
use crate::trie::{Trie, lesser};
use mr_assign::{Assign, POSITIONS};
use mr_frame::Frame;
use mr_nogood::{Cite, ROW_CITES, Row};
use mr_set::Set;
use std::alloc::{AllocError, Global};
use std::marker::Model;

/// The rows that were learnt, so kept that those in a node are found fast. Clauses see the list of each
/// slot's row, or none.
#[derive(Drop)]
pub struct Index {
    rows: Vec<Option<Row>>,
    trie: Trie,
    least: PairLists,
}

impl Model for Index {
    ghost use Rattle.std.specs.Prelude.{List, Option};
    ghost use Rattle.mr_nogood.specs.declared.row.Row.{Row};
    ghost use Rattle.mr_propagate.specs.Private.Kept.{IsKept};

    ghost Value = { List (Option Row) };

    ghost view = { λ a. a.rows.items };

    ghost invariant = { λ a. IsKept a.rows.items a.trie.branches.items a.least };
}

impl Index {
    /// An index without rows.
    pub fn new(alloc: Global, _frame: &Frame) -> Result<Index, AllocError>
        ensures { IfOk result (λ index. index ≡ []) }
    {
        let trie = Trie::new(alloc)?;
        let least = PairLists::new(alloc)?;
        Ok(Index {
            rows: Vec::new(alloc),
            trie,
            least,
        })
    }

    /// Puts a row in a slot. The slot has no row, or has this one already.
    pub fn learn(&mut self, slot: u32, row: &Row) -> Result<(), AllocError>
        requires { (other : RowIs) → in_slots self.old slot ≡ Some other → other ≡ row.now }
        ensures ok { OnOk result ((t : ℕ) → in_slots self.new t ≡ (if t == slot then Some row.now else in_slots self.old t)) }
        ensures err { OnErr result (self.new ≡ self.old) }
    {
        if !is_free(&self.rows, slot) {
            return Ok(());
        }
        // The clauses of `words` say that it is a map.
        let _words = row.clause.words();
        make_room(&mut self.rows, slot)?;
        let end = self.trie.branch_of(&row.clause)?;
        self.least.add(least_number(&row.clause), slot)?;
        self.trie.keep(end, slot);
        put(&mut self.rows, slot, row);
        Ok(())
    }

    /// The row of a slot, if there is one.
    pub fn row(&self, slot: u32) -> Option<&Row>
        ensures { option_copied result ≡ in_slots self.now slot }
    {
        row_in(&self.rows, slot)
    }

    /// The slots of the rows whose clause has this pair as its least one.
    pub fn listed(&self, p: u32, v: u8) -> &[u32]
        ensures increasing { IsStrictlySortedBy nat_cmp result.now }
        ensures exactly { (s : ℕ) → Contains result.now s ↔ ((row : RowIs) × (in_slots self.now s ≡ Some row) × IsLeastPair row.clause p v) }
    {
        let least = &self.least;
        if !is_pair(p, v) {
            return &[];
        }
        least.at(pair_number(p, v))
    }

    /// The least slot with a row whose clause is in the node.
    pub fn inside(&self, node: &Assign) -> Option<u32>
        ensures none { IsNone result ↔ NothingInside (in_slots self.now) node.now }
        ensures some { IfSome result (IsLeastInside (in_slots self.now) node.now) }
    {
        // The clauses of `words` say that it is a map.
        let _words = node.words();
        self.inside_below(node, POSITIONS)
    }

    /// The same for a node without values from a position on.
    pub fn inside_below(&self, node: &Assign, p: u32) -> Option<u32>
        requires position { p ≤ POSITIONS }
        requires last { (q : ℕ) → p ≤ q → slice_index node.now q ≡ 0 }
        ensures none { IsNone result ↔ NothingInside (in_slots self.now) node.now }
        ensures some { IfSome result (IsLeastInside (in_slots self.now) node.now) }
    {
        let mut found = self.found_at(0, node);
        for q in 0..p {
            found = self.found_through(q, node, found);
        }
        found
    }

    /// Why the node with this value at this position is excluded, if it is. No set that lacks a value
    /// fails.
    pub fn excluded(&self, frame: &Frame, node: &Assign, p: u32, v: u8) -> Option<Cite>
        requires assignment { IsAssignmentOf frame.now node.now }
        requires position { p < length frame.now.places }
        requires no_value { slice_index node.now p ≡ 0 }
        requires value { (0 < v) × (v < order frame.now.field) }
        ensures none { IsNone result ↔ IsOpenAt frame.now (in_slots self.now) node.now p v }
        ensures some { IfSome result (IsExcludedBy frame.now (in_slots self.now) node.now p v) }
    {
        let a = with_value(frame, node, p, v);
        match first_failing_at(frame, &a, p) {
            Some(x) => Some(Cite::Test(x)),
            None => cite_of(self.inside(&a)),
        }
    }

    /// The same for the next position of a node that has values at just the positions before it and no
    /// row inside, once the first set that fails with the value is known: then only rows are looked at
    /// whose greatest pair is the new one.
    pub fn excluded_by(
        &self,
        frame: &Frame,
        node: &Assign,
        p: u32,
        v: u8,
        first: Option<Set>,
    ) -> Option<Cite>
        requires assignment { IsAssignmentOf frame.now node.now }
        requires position { p < length frame.now.places }
        requires filled { IsFilledBelow node.now p }
        requires value { (0 < v) × (v < order frame.now.field) }
        requires nothing { NothingInside (in_slots self.now) node.now }
        requires first { MatchOption first (NoneFailsAt frame.now (slice_set node.now p v) p) (IsFirstFailingAt frame.now (slice_set node.now p v) p) }
        ensures none { IsNone result ↔ IsOpenAt frame.now (in_slots self.now) node.now p v }
        ensures some { IfSome result (IsExcludedBy frame.now (in_slots self.now) node.now p v) }
    {
        match first {
            Some(x) => Some(Cite::Test(x)),
            None => {
                let a = with_value(frame, node, p, v);
                cite_of(self.found_at(pair_number(p, v), &a))
            }
        }
    }

    /// The same for all values 1, 2, .. of the field. Each set tells all values at once.
    pub fn excluded_values(&self, frame: &Frame, node: &Assign, p: u32) -> [Option<Cite>; ROW_CITES]
        requires assignment { IsAssignmentOf frame.now node.now }
        requires position { p < length frame.now.places }
        requires filled { IsFilledBelow node.now p }
        requires nothing { NothingInside (in_slots self.now) node.now }
        ensures none { (v : ℕ) → 0 < v → v < order frame.now.field → IsNone (slice_index_or result (v - 1) None) ↔ IsOpenAt frame.now (in_slots self.now) node.now p v }
        ensures some { (v : ℕ) → 0 < v → v < order frame.now.field → IfSome (slice_index_or result (v - 1) None) (IsExcludedBy frame.now (in_slots self.now) node.now p v) }
    {
        let first = first_failing_values(frame, node, p);
        let mut answers = [None; ROW_CITES];
        for v in 1..frame.field().order() {
            answers[v as usize - 1] = self.excluded_by(frame, node, p, v, first[v as usize]);
        }
        answers
    }

    /// The least free position without a value.
    pub fn choose(&self, frame: &Frame, node: &Assign) -> Option<u32>
        ensures none { IsNone result ↔ IsFull frame.now node.now }
        ensures some { IfSome result (IsLeastOpen frame.now node.now) }
    {
        for p in 0..frame.free() {
            if node.get(p) == 0 {
                return Some(p);
            }
        }
        None
    }

    // The least slot with a row whose clause is in the node and has a greatest pair of this number.
    fn found_at(&self, k: usize, node: &Assign) -> Option<u32>
        requires small { k < POSITIONS * VALUES + 1 }
        requires start { IsStart node.now k }
        ensures { IsLeastFound (in_slots self.now) (EndsAt k) node.now result }
    {
        self.trie.least_below(k, node)
    }

    // The same for all clauses without values after this position, from what was found for those
    // without values from it on.
    fn found_through(&self, p: u32, node: &Assign, found: Option<u32>) -> Option<u32>
        requires position { p < POSITIONS }
        requires found { IsLeastFound (in_slots self.now) (EndsBefore p) node.now found }
        ensures { IsLeastFound (in_slots self.now) (EndsBefore (p + 1)) node.now result }
    {
        let v = node.get(p);
        if v == 0 {
            return found;
        }
        lesser(found, self.found_at(pair_number(p, v), node))
    }
}

// The row of a slot, if there is one.
fn row_in(rows: &[Option<Row>], slot: u32) -> Option<&Row>
    ensures { option_copied result ≡ in_slots rows.now slot }
{
    match rows.get(slot as usize) {
        Some(found) => found.as_ref(),
        None => None,
    }
}

// Whether a slot has no row.
fn is_free(rows: &[Option<Row>], slot: u32) -> bool
    ensures { IsTrue result ↔ (in_slots rows.now slot ≡ None) }
{
    match row_in(rows, slot) {
        Some(_) => false,
        None => true,
    }
}

// Makes room for the places up to the slot's.
fn make_room(rows: &mut Vec<Option<Row>>, slot: u32) -> Result<(), AllocError>
    ensures same { rows.new.items ≡ rows.old.items }
    ensures ok { OnOk result (slot < vec_capacity rows.new) }
{
    let places = slot as usize + 1;
    rows.reserve(places.saturating_sub(rows.len()))
}

// Puts a row in a slot, with places without rows before it.
fn put(rows: &mut Vec<Option<Row>>, slot: u32, row: &Row)
    requires { slot < vec_capacity rows.old }
    ensures { (t : ℕ) → in_slots rows.new.items t ≡ (if t == slot then Some row.now else in_slots rows.old.items t) }
{
    fill(rows, slot);
    rows[slot as usize] = Some(*row);
}

// Puts places without rows at the end, up to the slot's.
fn fill(rows: &mut Vec<Option<Row>>, slot: u32)
    requires { slot < vec_capacity rows.old }
    ensures size { slot < length rows.new.items }
    ensures same { (t : ℕ) → in_slots rows.new.items t ≡ in_slots rows.old.items t }
{
    let places = slot as usize + 1;
    if rows.len() < places && rows.resize(places, None).is_err() {
        unreachable!();
    }
}

// The node with the value at the position.
fn with_value(frame: &Frame, node: &Assign, p: u32, v: u8) -> Assign
    requires assignment { IsAssignmentOf frame.now node.now }
    requires position { p < length frame.now.places }
    requires value { (0 < v) × (v < order frame.now.field) }
    ensures is { result ≡ slice_set node.now p v }
    ensures assignment { IsAssignmentOf frame.now result }
    ensures position { p < POSITIONS }
    ensures within { p < length node.now }
    ensures value { v ≤ VALUES }
{
    // The clauses of `words` say that it is a map.
    let _words = node.words();
    // The clauses of `free` and `order` say that positions and values are within the limits.
    let _free = frame.free();
    let _order = frame.field().order();
    node.with(p, v)
}

// The cite of a slot.
fn cite_of(found: Option<u32>) -> Option<Cite>
    ensures { result ≡ cite_of found }
{
    match found {
        Some(s) => Some(Cite::Slot(s)),
        None => None,
    }
}
