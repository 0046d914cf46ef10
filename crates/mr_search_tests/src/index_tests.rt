ghost use Rattle.std.specs.Prelude.{◌↔◌, ◌<◌, ◌≤◌, IsTrue, length};
ghost use Rattle.mr_field.specs.Gf.{order};
ghost use Rattle.mr_assign.specs.declared.TheConstants.{POSITIONS, VALUES};
ghost use Rattle.mr_frame.specs.Test.{IsAssignmentOf};
ghost use Rattle.mr_propagate.specs.Index.{IsFilledBelow};

use crate::frames::{fano, test};
use mr_assign::{Assign, POSITIONS, VALUES};
use mr_frame::Frame;
use mr_nogood::{Cite, ROW_CITES, Row};
use mr_propagate::Index;
use std::alloc::Global;

// The values at the positions 0, 1 and 2, where 0 is none.
type Values = [u8; 3];

// The map that gives these values.
fn node(values: Values) -> Assign {
    let mut node = Assign::empty();
    for p in 0..3 {
        if values[p] != 0 && values[p] <= VALUES {
            node = node.with(p as u32, values[p]);
        }
    }
    node
}

// A row of the clause, with cites for the values 1 and 2.
fn row(at: u8, clause: Values, one: Cite, two: Cite) -> Row {
    let mut cites = [Cite::Nothing; ROW_CITES];
    cites[0] = one;
    cites[1] = two;
    Row {
        rank: 0,
        at,
        clause: node(clause),
        cites,
    }
}

// A step of the refutation of the Fano plane over three elements, with the steps' numbers as slots.
fn step(number: u32) -> Row {
    match number {
        0 => row(1, [1, 0, 1], test(0b0111000), test(0b1100001)),
        1 => row(2, [1, 0, 0], Cite::Slot(0), test(0b1010010)),
        _ => row(0, [0, 0, 0], Cite::Slot(1), test(0b1001100)),
    }
}

// Whether a row is learnt in a slot that has none.
fn learns(index: &mut Index, slot: u32, row: &Row) -> bool {
    if index.row(slot).is_some() {
        return false;
    }
    index.learn(slot, row).is_ok()
}

// An index that has learnt in these slots the steps with these numbers, one after another.
fn learnt(alloc: Global, frame: &Frame, rows: &[(u32, u32)]) -> Option<Index> {
    let mut index = Index::new(alloc, frame).ok()?;
    for k in 0..rows.len() {
        let (slot, number) = rows[k];
        if !learns(&mut index, slot, &step(number)) {
            return None;
        }
    }
    Some(index)
}

// Whether there is such a value at such a position of an assignment of the frame.
fn has_value(frame: &Frame, node: &Assign, p: u32, v: u8) -> bool
    ensures assignment { IsTrue result → IsAssignmentOf frame.now node.now }
    ensures position { IsTrue result → p < length frame.now.places }
    ensures place { IsTrue result → p < POSITIONS }
    ensures value { IsTrue result → (0 < v) × (v < order frame.now.field) }
    ensures limit { IsTrue result → v ≤ VALUES }
{
    p < frame.free() && v != 0 && v < frame.field().order() && frame.is_assignment(node)
}

// Why the value is excluded, and nothing where it may not be asked.
fn excluded(index: &Index, frame: &Frame, node: &Assign, p: u32, v: u8) -> Option<Cite> {
    if !has_value(frame, node, p, v) {
        return None;
    }
    if node.get(p) != 0 {
        return None;
    }
    index.excluded(frame, node, p, v)
}

// Whether the map has values at just the positions below p.
fn is_filled_below(a: &Assign, p: u32) -> bool
    ensures { IsTrue result → IsFilledBelow a.now p }
{
    // The clauses of `words` say that there are no more positions.
    let _words = a.words();
    for q in 0..POSITIONS {
        if (a.get(q) != 0) != (q < p) {
            return false;
        }
    }
    p <= POSITIONS
}

// The same by the answers for all values.
fn excluded_of_all(index: &Index, frame: &Frame, node: &Assign, p: u32, v: u8) -> Option<Cite> {
    if !has_value(frame, node, p, v) {
        return None;
    }
    if !is_filled_below(node, p) {
        return None;
    }
    if index.inside(node).is_some() {
        return None;
    }
    index.excluded_values(frame, node, p)[v as usize - 1]
}

// Why a value is excluded, if it is: by a set that fails, told by its mask, or by the row of a slot.
#[derive(Clone, Copy, PartialEq, Eq)]
enum Reason {
    Open,
    Fails(u64),
    Row(u32),
}

// What a cite tells.
fn cited(cite: &Cite) -> Reason {
    match cite {
        Cite::Test(x) => Reason::Fails(x.mask()),
        Cite::Slot(s) => Reason::Row(*s),
        Cite::Nothing => Reason::Open,
    }
}

// Why a value is excluded for which this is cited.
fn reason_of(cite: Option<Cite>) -> Reason {
    match cite {
        Some(cite) => cited(&cite),
        None => Reason::Open,
    }
}

// The rows that an index has learnt, and what it then answers. The least slots with rows inside of nodes, the slots
// that are listed at the value 1 of a position, why values at positions are excluded, and the positions that are chosen.
struct Case {
    rows: &'static [(u32, u32)],
    inside: &'static [(Values, Option<u32>)],
    listed: &'static [(u32, &'static [u32])],
    excluded: &'static [(Values, u32, u8, Reason)],
    chosen: &'static [(Values, Option<u32>)],
}

// Whether the slots with rows inside are these.
fn is_inside(index: &Index, answers: &[(Values, Option<u32>)]) -> bool {
    for k in 0..answers.len() {
        let (values, slot) = answers[k];
        if index.inside(&node(values)) != slot {
            return false;
        }
    }
    true
}

// Whether these slots are listed.
fn lists(index: &Index, answers: &[(u32, &[u32])]) -> bool {
    for k in 0..answers.len() {
        let (p, slots) = answers[k];
        if index.listed(p, 1) != slots {
            return false;
        }
    }
    true
}

// Whether the values are excluded so, and in the same way by the answers for all values, where those may be asked.
fn excludes(index: &Index, frame: &Frame, answers: &[(Values, u32, u8, Reason)]) -> bool {
    for k in 0..answers.len() {
        let (values, p, v, reason) = answers[k];
        let node = node(values);
        if reason_of(excluded(index, frame, &node, p, v)) != reason {
            return false;
        }
        if is_filled_below(&node, p)
            && reason_of(excluded_of_all(index, frame, &node, p, v)) != reason
        {
            return false;
        }
    }
    true
}

// Whether these positions are chosen.
fn chooses(index: &Index, frame: &Frame, answers: &[(Values, Option<u32>)]) -> bool {
    for k in 0..answers.len() {
        let (values, p) = answers[k];
        if index.choose(frame, &node(values)) != p {
            return false;
        }
    }
    true
}

// Whether the index answers so.
fn answers(index: &Index, frame: &Frame, case: &Case) -> bool {
    if !is_inside(index, case.inside) {
        return false;
    }
    if !lists(index, case.listed) {
        return false;
    }
    excludes(index, frame, case.excluded) && chooses(index, frame, case.chosen)
}

// Whether an index of the frame that has learnt the rows answers so.
fn is_answered_on(alloc: Global, frame: &Frame, case: &Case) -> Option<bool> {
    let index = learnt(alloc, frame, case.rows)?;
    Some(answers(&index, frame, case))
}

// Whether one of the plane does.
fn is_answered(alloc: Global, case: &Case) -> Option<bool> {
    let fano = fano(alloc)?;
    is_answered_on(alloc, &fano, case)
}

// Without a row.
const NO_ROW: Case = Case {
    rows: &[],
    inside: &[([1, 0, 1], None)],
    listed: &[],
    excluded: &[
        ([0, 0, 0], 0, 1, Reason::Open),
        ([0, 0, 0], 0, 2, Reason::Fails(0b1001100)),
    ],
    chosen: &[],
};

#[test]
fn without_a_row_only_sets_that_fail_exclude(rt: HostRuntime) {
    assert!(rt; is_answered(rt.alloc(), &NO_ROW) == Some(true));
}

const FIRST_STEP: Case = Case {
    rows: &[(0, 0)],
    inside: &[([1, 0, 1], Some(0)), ([1, 0, 0], None)],
    listed: &[(0, &[0]), (2, &[])],
    excluded: &[
        ([1, 0, 1], 1, 1, Reason::Fails(0b0111000)),
        ([1, 0, 1], 1, 2, Reason::Fails(0b1100001)),
        ([1, 0, 0], 2, 1, Reason::Row(0)),
        ([1, 0, 0], 2, 2, Reason::Fails(0b1010010)),
        ([1, 2, 0], 2, 2, Reason::Fails(0b1010010)),
    ],
    chosen: &[],
};

#[test]
fn a_learnt_row_is_inside_the_nodes_with_its_clause(rt: HostRuntime) {
    assert!(rt; is_answered(rt.alloc(), &FIRST_STEP) == Some(true));
}

const THREE_ROWS: Case = Case {
    rows: &[(9, 1), (7, 0), (8, 0)],
    inside: &[
        ([1, 2, 1], Some(7)),
        ([1, 0, 0], Some(9)),
        ([0, 0, 0], None),
    ],
    listed: &[(0, &[7, 8, 9])],
    excluded: &[],
    chosen: &[],
};

#[test]
fn the_least_slot_is_found(rt: HostRuntime) {
    assert!(rt; is_answered(rt.alloc(), &THREE_ROWS) == Some(true));
}

const LATE_ROW: Case = Case {
    rows: &[(9, 1), (7, 0), (8, 0), (11, 2)],
    inside: &[([0, 0, 0], Some(11))],
    listed: &[],
    excluded: &[],
    chosen: &[],
};

const EARLY_ROW: Case = Case {
    rows: &[(9, 1), (7, 0), (8, 0), (11, 2), (3, 2)],
    inside: &[([1, 2, 1], Some(3))],
    listed: &[(0, &[7, 8, 9])],
    excluded: &[],
    chosen: &[],
};

#[test]
fn a_row_without_pairs_is_inside_every_node(rt: HostRuntime) {
    assert!(rt; is_answered(rt.alloc(), &LATE_ROW) == Some(true));
    assert!(rt; is_answered(rt.alloc(), &EARLY_ROW) == Some(true));
}

const SECOND_STEP: Case = Case {
    rows: &[(4, 1)],
    inside: &[],
    listed: &[],
    excluded: &[([0, 0, 0], 0, 1, Reason::Row(4))],
    chosen: &[
        ([0, 0, 0], Some(0)),
        ([1, 0, 1], Some(1)),
        ([1, 1, 1], None),
    ],
};

#[test]
fn the_first_position_without_a_value_is_chosen(rt: HostRuntime) {
    assert!(rt; is_answered(rt.alloc(), &SECOND_STEP) == Some(true));
}

// Whether each value of the next position is excluded as by the answers for all values.
fn is_same_of_all(index: &Index, frame: &Frame, values: Values, p: u32) -> bool {
    let node = node(values);
    for v in 1..3 {
        if excluded_of_all(index, frame, &node, p, v) != excluded(index, frame, &node, p, v) {
            return false;
        }
    }
    true
}

// Nodes with values at just the positions before the one beside them.
const IN_ORDER: [(Values, u32); 6] = [
    ([0, 0, 0], 0),
    ([1, 0, 0], 1),
    ([2, 0, 0], 1),
    ([1, 1, 0], 2),
    ([1, 2, 0], 2),
    ([2, 1, 0], 2),
];

// The same at each of these nodes.
fn are_same_of_all(index: &Index, frame: &Frame, nodes: &[(Values, u32)]) -> bool {
    for k in 0..nodes.len() {
        let (values, p) = nodes[k];
        if !is_same_of_all(index, frame, values, p) {
            return false;
        }
    }
    true
}

// The same for an index of the frame that has learnt these rows.
fn is_same_on(alloc: Global, frame: &Frame, rows: &[(u32, u32)]) -> Option<bool> {
    let index = learnt(alloc, frame, rows)?;
    Some(are_same_of_all(&index, frame, IN_ORDER.as_slice()))
}

// And for one of the plane.
fn is_same_after(alloc: Global, rows: &[(u32, u32)]) -> Option<bool> {
    let fano = fano(alloc)?;
    is_same_on(alloc, &fano, rows)
}

#[test]
fn all_values_are_excluded_as_each_one_is(rt: HostRuntime) {
    assert!(rt; is_same_after(rt.alloc(), &[]) == Some(true));
    assert!(rt; is_same_after(rt.alloc(), &[(0, 0)]) == Some(true));
}

fn moved<T: Send + Sync>(value: T) -> T {
    value
}

// Whether the first step stands in the slot 0, and no row in the next one.
fn has_first_step(index: &Index) -> bool {
    match index.row(0) {
        Some(row) => *row == step(0) && index.row(1).is_none(),
        None => false,
    }
}

// Whether an index shows the row that it has learnt, once it has crossed to another thread.
fn shows_its_row_on(alloc: Global, frame: &Frame) -> Option<bool> {
    let index = moved(learnt(alloc, frame, &[(0, 0)])?);
    Some(has_first_step(&index))
}

// Whether one of the plane does.
fn shows_its_row(alloc: Global) -> Option<bool> {
    let fano = fano(alloc)?;
    shows_its_row_on(alloc, &fano)
}

#[test]
fn an_index_shows_its_rows_and_may_cross_threads(rt: HostRuntime) {
    assert!(rt; shows_its_row(rt.alloc()) == Some(true));
}
