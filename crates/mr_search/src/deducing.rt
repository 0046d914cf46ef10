ghost use Rattle.std.specs.Prelude.{◌≡◌, ◌≢◌, ◌↔◌, ◌<◌, ◌≤◌, ℕ, List, Some, IsTrue, length, slice_index};
ghost use Rattle.mr_assign.specs.Assign.{IsAssign, IsPartOf};
ghost use Rattle.mr_assign.specs.declared.TheConstants.{POSITIONS};
ghost use Rattle.mr_frame.specs.Frame.{IsFrame};
ghost use Rattle.mr_frame.specs.Test.{Needs};
ghost use Rattle.mr_nogood.specs.Follows.{in_slots, Follows};
ghost use Rattle.mr_nogood.specs.declared.row.Row.{Row as RowIs};
ghost use Rattle.mr_exchange.specs.declared.TheConstants.{NODES};
ghost use Rattle.mr_exchange.specs.Cubes.{IsCube};
ghost use Rattle.mr_exchange.specs.Rank.{HasLeastRank};
ghost use Rattle.mr_search.specs.Private.Citing.{AreCites, Uses, HasValueAt, IsUsed, IsLeastAboveCites, above_cite};

use mr_assign::Assign;
use mr_frame::Frame;
use mr_nogood::{Cite, ROW_CITES, Row};
use mr_propagate::Index;
use mr_set::{Set, elements};

/// The row of a node that gives values to just the positions below p, where each value at p has a cite. Its clause has the
/// pairs of the node that the cites rest on.
pub(crate) fn deduced(
    frame: &Frame,
    index: &Index,
    node: &Assign,
    p: u32,
    cites: [Cite; ROW_CITES],
) -> Row
    requires ranks { (s : ℕ) (row : RowIs) → in_slots index.now s ≡ Some row → row.rank < NODES }
    requires node { IsCube frame.now p node.now }
    requires position { p < length frame.now.places }
    requires cites { AreCites frame.now (in_slots index.now) node.now p cites }
    ensures follows { Follows frame.now (in_slots index.now) result }
    ensures rank { HasLeastRank (in_slots index.now) result }
    ensures inside { IsPartOf result.clause node.now }
    // The cites rest on each pair of the clause.
    ensures only { (q : ℕ) → slice_index result.clause q ≢ 0 → IsUsed frame.now (in_slots index.now) cites q }
{
    // The clauses of `free`, `basis` and `words` say that there are few positions, that it is a frame, and
    // that it is a map.
    let _free = frame.free();
    let _basis = frame.basis();
    let clause = clause_of(frame, index, node, p, &cites);
    let _words = clause.words();
    Row {
        rank: rank_above(index, &cites),
        at: p as u8,
        clause,
        cites,
    }
}

// The pairs of the node that the cites rest on.
fn clause_of(
    frame: &Frame,
    index: &Index,
    node: &Assign,
    p: u32,
    cites: &[Cite; ROW_CITES],
) -> Assign
    requires node { IsCube frame.now p node.now }
    requires position { p < length frame.now.places }
    ensures inside { IsPartOf result node.now }
    ensures used { (q : ℕ) → q < p → IsUsed frame.now (in_slots index.now) cites.now q → slice_index result q ≡ slice_index node.now q }
    ensures only { (q : ℕ) → slice_index result q ≢ 0 → IsUsed frame.now (in_slots index.now) cites.now q }
{
    // The clauses of `free` and of `words` say how many positions there are.
    let _free = frame.free();
    let _words = node.words();
    // Those of `basis` say that it is a frame.
    let basis = elements(frame.basis());
    let mut clause = Assign::empty();
    for q in 0..p {
        if is_used(frame, basis.as_slice(), index, cites, q) {
            clause = clause.with(q, node.get(q));
        }
    }
    clause
}

// Whether one of the cites rests on the value at a position.
fn is_used(frame: &Frame, basis: &[u32], index: &Index, cites: &[Cite; ROW_CITES], q: u32) -> bool
    requires frame { IsFrame frame.now }
    requires basis { basis.now ≡ frame.now.basis }
    requires position { q < length frame.now.places }
    ensures { IsTrue result ↔ IsUsed frame.now (in_slots index.now) cites.now q }
{
    for cite in cites {
        if uses(frame, basis, index, cite, q) {
            return true;
        }
    }
    false
}

// Whether the cite rests on the value at a position.
fn uses(frame: &Frame, basis: &[u32], index: &Index, cite: &Cite, q: u32) -> bool
    requires frame { IsFrame frame.now }
    requires basis { basis.now ≡ frame.now.basis }
    requires position { q < length frame.now.places }
    ensures { IsTrue result ↔ Uses frame.now (in_slots index.now) cite.now q }
{
    match cite {
        Cite::Nothing => false,
        Cite::Test(x) => needs(frame, basis, *x, q),
        Cite::Slot(s) => has_value_at(index, *s, q),
    }
}

// Whether the part of a set has a free position.
fn needs(frame: &Frame, basis: &[u32], x: Set, q: u32) -> bool
    requires frame { IsFrame frame.now }
    requires basis { basis.now ≡ frame.now.basis }
    requires position { q < length frame.now.places }
    ensures { IsTrue result ↔ Needs frame.now x q }
{
    let place = frame.place(q);
    if x.has(basis[place.row as usize]) {
        return false;
    }
    x.has(place.col)
}

/// Whether the slot is learnt, and its row has a value at a position.
pub(crate) fn has_value_at(index: &Index, s: u32, q: u32) -> bool
    requires { q < POSITIONS }
    ensures { IsTrue result ↔ HasValueAt (in_slots index.now) s q }
{
    match index.row(s) {
        Some(row) => row.clause.get(q) != 0,
        None => false,
    }
}

// The least number above the ranks of the rows that are cited.
fn rank_above(index: &Index, cites: &[Cite; ROW_CITES]) -> u32
    requires { (s : ℕ) (row : RowIs) → in_slots index.now s ≡ Some row → row.rank < NODES }
    ensures least { IsLeastAboveCites (in_slots index.now) cites.now result }
{
    let mut rank = 0;
    for cite in cites {
        rank = above_cite(index, cite).max(rank);
    }
    rank
}

// The least number above the rank of the row that a cite names.
fn above_cite(index: &Index, cite: &Cite) -> u32
    requires { (s : ℕ) (row : RowIs) → in_slots index.now s ≡ Some row → row.rank < NODES }
    ensures { result ≡ above_cite (in_slots index.now) cite.now }
{
    match cite {
        Cite::Slot(s) => match index.row(*s) {
            Some(row) => row.rank + 1,
            None => 0,
        },
        Cite::Nothing | Cite::Test(_) => 0,
    }
}
