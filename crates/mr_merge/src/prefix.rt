ghost use Rattle.std.specs.Prelude.{◌≡◌, ◌+◌, ◌-◌, ◌*◌, ◌<◌, ◌≤◌, ◌^◌, ℕ, suc, [], IsTrue, IfSome, ◌↔◌, length, slice_index_or, IfOk, OnOk};
ghost use Rattle.mr_field.specs.Gf.{order};
ghost use Rattle.mr_assign.specs.Assign.{no_values};
ghost use Rattle.mr_assign.specs.declared.TheConstants.{VALUES};
ghost use Rattle.mr_frame.specs.Test.{IsAssignmentOf};
ghost use Rattle.mr_nogood.specs.Follows.{in_slots};
ghost use Rattle.mr_exchange.specs.declared.TheConstants.{SPLIT};
ghost use Rattle.mr_exchange.specs.declared.answer.CubeAnswer.TheVariants.{Refuted};
ghost use Rattle.mr_exchange.specs.Cubes.{IsProblemOf, cube_at, cube_count};
ghost use Rattle.mr_exchange.specs.Right.{IsRight};
ghost use Rattle.mr_merge.specs.Table.{all_rows};
ghost use Rattle.mr_merge.specs.Prefixes.{HaveRanksFrom};
ghost use Rattle.mr_merge.specs.Private.Table.{AreSupported};
ghost use Rattle.mr_merge.specs.Private.Prefixes.{AreCited, AreAddedFrom, HaveAdded, HasAdded};

use crate::table::Table;
use mr_assign::Assign;
use mr_exchange::{Problem, cube_at};
use mr_frame::Frame;
use mr_nogood::{Cite, ROW_CITES, Row, fails};
use std::alloc::{AllocError, Global};

/// The cite that refutes the assignment without values, where each cube has one. The rows that are added for it
/// follow.
pub(crate) fn end_of(
    alloc: Global,
    frame: &Frame,
    problem: Problem,
    cites: Vec<Cite>,
    table: &mut Table<'_>,
) -> Result<Cite, AllocError>
    requires problem { IsProblemOf frame.now problem }
    requires size { length (all_rows table.old) < 2 ^ 31 }
    requires none { table.old.added ≡ [] }
    requires rows { AreSupported frame.now (all_rows table.old) }
    requires cites { AreCited frame.now (in_slots (all_rows table.old)) problem.depth (cube_count frame.now problem.depth) cites.items }
    ensures end { IfOk result (λ end. IsRight frame.now (in_slots (all_rows table.new)) no_values (Refuted end)) }
    ensures rows { OnOk result (AreSupported frame.now (all_rows table.new)) }
    ensures board { OnOk result (table.new.board ≡ table.old.board) }
    ensures added { OnOk result (AreAddedFrom frame.now problem.depth 0 table.new.added) }
    ensures ranks { OnOk result (HaveRanksFrom (length table.old.board) table.new.added) }
    ensures first { problem.depth ≡ 0 → IfOk result (λ end. end ≡ slice_index_or cites.items 0 Cite.Nothing) }
{
    // The clauses of `basis` say that it is a frame.
    let _basis = frame.basis();
    let mut cites = cites;
    let mut level = problem.depth;
    while level > 0 {
        level -= 1;
        cites = shortened(alloc, frame, level, &cites, table)?;
    }
    Ok(cites[0])
}

// A cite for each assignment of the first `level` positions, from those for one position more.
fn shortened(
    alloc: Global,
    frame: &Frame,
    level: u32,
    longer: &[Cite],
    table: &mut Table<'_>,
) -> Result<Vec<Cite>, AllocError>
    requires level { level < SPLIT }
    requires free { level < length frame.now.places }
    requires size { length (all_rows table.old) + cube_count frame.now level < 2 ^ 32 }
    requires rows { AreSupported frame.now (all_rows table.old) }
    requires cites { AreCited frame.now (in_slots (all_rows table.old)) (suc level) (cube_count frame.now (suc level)) longer.now }
    ensures cites { IfOk result (λ cites. AreCited frame.now (in_slots (all_rows table.new)) level (cube_count frame.now level) cites.items) }
    ensures rows { OnOk result (AreSupported frame.now (all_rows table.new)) }
    ensures added { OnOk result (HaveAdded frame.now level (cube_count frame.now level) table.old table.new) }
{
    // The clauses of `basis` say that it is a frame.
    let _basis = frame.basis();
    let elements = nonzero_elements(frame);
    let mut cites = Vec::new(alloc);
    for c in 0..elements.pow(level) {
        let cite = cite_for_prefix(frame, level, c, children_of(longer, c, elements), table)?;
        cites.extend_from_slice(&[cite])?;
    }
    Ok(cites)
}

// How many nonzero elements the field has.
fn nonzero_elements(frame: &Frame) -> u32
    ensures { result ≡ order frame.now.field - 1 }
{
    u32::from(frame.field().order()) - 1
}

// The cites for the c-th of lists of so many.
fn children_of(longer: &[Cite], c: u32, elements: u32) -> &[Cite]
    requires within { c * elements + elements ≤ length longer.now }
    requires few { length longer.now < 2 ^ 32 }
    ensures count { length result.now ≡ elements }
    ensures cites { (v : ℕ) → v < elements → slice_index_or result.now v Cite.Nothing ≡ slice_index_or longer.now (c * elements + v) Cite.Nothing }
{
    let first = (c * elements) as usize;
    &longer[first..first + elements as usize]
}

// A cite for the c-th assignment of the first `level` positions, from those for its values of the next position:
// one of these where it refutes the assignment itself, else that of a new row.
fn cite_for_prefix(
    frame: &Frame,
    level: u32,
    c: u32,
    children: &[Cite],
    table: &mut Table<'_>,
) -> Result<Cite, AllocError>
    requires level { level < SPLIT }
    requires free { level < length frame.now.places }
    requires number { c < cube_count frame.now level }
    requires size { length (all_rows table.old) < 2 ^ 32 }
    requires rows { AreSupported frame.now (all_rows table.old) }
    requires count { length children.now ≡ order frame.now.field - 1 }
    requires children { (v : ℕ) → v < length children.now → IsRight frame.now (in_slots (all_rows table.old)) (cube_at frame.now (suc level) (c * (order frame.now.field - 1) + v)) (Refuted (slice_index_or children.now v Cite.Nothing)) }
    ensures cite { IfOk result (λ cite. IsRight frame.now (in_slots (all_rows table.new)) (cube_at frame.now level c) (Refuted cite)) }
    ensures rows { OnOk result (AreSupported frame.now (all_rows table.new)) }
    ensures added { OnOk result (HasAdded frame.now level c table.old table.new) }
{
    // The clauses of `basis` say that it is a frame.
    let _basis = frame.basis();
    let prefix = cube_at(frame, level, c);
    match inside(frame, table, &prefix, children) {
        Some(cite) => Ok(cite),
        None => {
            let slot = table.len();
            let row = Row {
                rank: slot,
                at: level as u8,
                clause: prefix,
                cites: all_eight(children),
            };
            table.push(row)?;
            Ok(Cite::Slot(slot))
        }
    }
}

// The first of the cites that refutes the assignment.
fn inside(frame: &Frame, table: &Table<'_>, a: &Assign, cites: &[Cite]) -> Option<Cite>
    requires { IsAssignmentOf frame.now a.now }
    ensures { IfSome result (λ cite. IsRight frame.now (in_slots (all_rows table.now)) a.now (Refuted cite)) }
{
    for cite in cites {
        if refutes(frame, table, a, cite) {
            return Some(*cite);
        }
    }
    None
}

// Whether the cite's set fails under the assignment, or its row's clause lies in it.
fn refutes(frame: &Frame, table: &Table<'_>, a: &Assign, cite: &Cite) -> bool
    requires { IsAssignmentOf frame.now a.now }
    ensures { IsTrue result ↔ IsRight frame.now (in_slots (all_rows table.now)) a.now (Refuted cite.now) }
{
    match cite {
        Cite::Nothing => false,
        Cite::Test(x) => fails(frame, *x, a),
        Cite::Slot(s) => match table.row(*s) {
            None => false,
            Some(row) => a.contains(&row.clause),
        },
    }
}

// The cites of a row: these, and none for the other values.
fn all_eight(cites: &[Cite]) -> [Cite; ROW_CITES]
    requires { length cites.now ≤ VALUES }
    ensures { (k : ℕ) → slice_index_or result k Cite.Nothing ≡ slice_index_or cites.now k Cite.Nothing }
{
    let mut all = [Cite::Nothing; ROW_CITES];
    for k in 0..cites.len() {
        all[k] = cites[k];
    }
    all
}
