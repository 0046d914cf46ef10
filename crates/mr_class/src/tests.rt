ghost use Rattle.std.specs.Prelude.{◌≡◌, ◌<◌, ◌≤◌, ◌↔◌, IfSome, IsTrue};
ghost use Rattle.mr_set.specs.Subsets.{IsSetOf};
ghost use Rattle.mr_set.specs.Matroid.{IsIndependent};
ghost use Rattle.mr_linear.specs.Matrix.{AreIndependent};
ghost use Rattle.mr_linear.specs.Representation.{FitsMatroid, Represents};
ghost use Rattle.mr_assign.specs.declared.TheConstants.{VALUES};
ghost use Rattle.mr_class.specs.Forms.{IsForm};

use crate::{Scaled, scale_to_frame};
use mr_assign::Assign;
use mr_field::Field;
use mr_frame::Frame;
use mr_linear::{Matrix, RowOp};
use mr_matroid::Matroid;
use mr_set::{ELEMENTS, Set, binomial, first_subset, next_subset, sets_of};
use std::alloc::Global;

// Whether the columns of a set of the rank's size are independent just where the set is.
fn agrees(m: &Matroid, a: &Matrix, x: Set) -> bool
    requires fits { FitsMatroid m.now a.now }
    requires set { IsSetOf m.now.elements m.now.rank x }
    ensures { IsTrue result → (AreIndependent a.now x ↔ IsIndependent m.now x) }
{
    a.independent(x) == m.is_basis(x)
}

// Whether the matrix represents the matroid: tried on each set of the rank's size.
fn represents(m: &Matroid, a: &Matrix) -> bool
    ensures { IsTrue result → Represents a.now m.now }
{
    let n = m.elements();
    let r = m.rank();
    if a.rows() != r {
        return false;
    }
    if a.cols() != n {
        return false;
    }
    let mut x = first_subset(n, r);
    'sets: loop {
        if !agrees(m, a, x) {
            return false;
        }
        match next_subset(n, x) {
            Some(next) => x = next,
            None => return true,
        }
    }
}

// The frame over the matrix's field of the matroid in which each set of so many columns as it has rows is a basis.
fn uniform(alloc: Global, a: &Matrix) -> Option<Frame>
    ensures { IfSome result (λ f. f.field ≡ a.now.field) }
{
    let n = a.cols();
    let r = a.rows();
    if n > ELEMENTS || r > n || binomial(n, r).is_none() {
        return None;
    }
    let none = sets_of(alloc, n, r, &[]).ok()??;
    let m = Matroid::from_nonbases(alloc, n, r, none.as_slice()).ok()?;
    Frame::new(alloc, m, a.field()).ok()
}

// Writes an entry where there is one.
fn write(a: &mut Matrix, i: u32, j: u32, v: u8) {
    if i < a.rows() && j < a.cols() && v < a.field().order() {
        a.set(i, j, v);
    }
}

// The matrix with these rows, one after another.
fn matrix(alloc: Global, q: u32, r: u32, n: u32, entries: &[u8]) -> Option<Matrix> {
    if n > ELEMENTS || r > n {
        return None;
    }
    let mut a = Matrix::zero(alloc, Field::of(q)?, r, n).ok()?;
    for i in 0..r {
        for j in 0..n {
            if let Some(v) = entries.get((i * n + j) as usize) {
                write(&mut a, i, j, *v);
            }
        }
    }
    Some(a)
}

// The entry in a row and a column.
fn entry(a: &Matrix, row: u32, col: u32) -> Option<u8> {
    if row >= a.rows() {
        return None;
    }
    if col >= a.cols() {
        return None;
    }
    Some(a.get(row, col))
}

// Whether the matrix has these rows of four.
fn are_entries(a: &Matrix, rows: &[[u8; 4]]) -> bool {
    if a.rows() as usize != rows.len() || a.cols() != 4 {
        return false;
    }
    for row in 0..a.rows() {
        for col in 0..4u32 {
            if entry(a, row, col) != Some(rows[row as usize][col as usize]) {
                return false;
            }
        }
    }
    true
}

// Makes the operation where it is one on the matrix.
fn make(a: &mut Matrix, op: RowOp) {
    if a.allows(op) {
        a.apply(op);
    }
}

// What a matrix that represents the frame's matroid is scaled to.
fn scaled(alloc: Global, frame: &Frame, a: &Matrix) -> Option<Scaled>
    requires { a.now.field ≡ frame.now.field }
    ensures { IfSome result (λ s. IsForm frame.now s.form) }
{
    if !represents(frame.matroid(), a) {
        return None;
    }
    scale_to_frame(alloc, frame, a).ok()
}

// Its form.
fn form_of(alloc: Global, frame: &Frame, a: &Matrix) -> Option<Assign>
    requires { a.now.field ≡ frame.now.field }
    ensures { IfSome result (IsForm frame.now) }
{
    let scaled = scaled(alloc, frame, a)?;
    Some(scaled.form)
}

// Whether the matrix of its form has these rows.
fn fills(alloc: Global, frame: &Frame, a: &Matrix, rows: &[[u8; 4]]) -> Option<bool>
    requires { a.now.field ≡ frame.now.field }
{
    let form = form_of(alloc, frame, a)?;
    let filled = frame.matrix_of(alloc, &form).ok()?;
    Some(are_entries(&filled, rows))
}

// Whether the operations bring the matrix to these rows.
fn leads(alloc: Global, frame: &Frame, a: &mut Matrix, rows: &[[u8; 4]]) -> Option<bool>
    requires { a.old.field ≡ frame.now.field }
{
    let scaled = scaled(alloc, frame, a)?;
    for op in scaled.ops.as_slice() {
        make(a, *op);
    }
    Some(are_entries(a, rows))
}

// Whether the form is this one.
fn has_form(alloc: Global, a: &Matrix, wanted: &Assign) -> Option<bool> {
    let frame = uniform(alloc, a)?;
    let form = form_of(alloc, &frame, a)?;
    Some(form == *wanted)
}

// The same of the matrix with these entries over the field of q elements.
fn is_form(alloc: Global, q: u32, r: u32, n: u32, entries: &[u8], wanted: &Assign) -> Option<bool> {
    let a = matrix(alloc, q, r, n, entries)?;
    has_form(alloc, &a, wanted)
}

// Whether the matrix of the form has these rows, and the operations lead to it.
fn has_rows(alloc: Global, a: &mut Matrix, rows: &[[u8; 4]]) -> Option<bool> {
    let frame = uniform(alloc, a)?;
    let filled = fills(alloc, &frame, a, rows)?;
    let led = leads(alloc, &frame, a, rows)?;
    Some(filled && led)
}

// The map with this value at position 0.
fn first_is(value: u8) -> Assign
    requires { (0 < value) × (value ≤ VALUES) }
{
    Assign::empty().with(0, value)
}

#[test]
fn the_line_of_four_points_has_one_form_over_three_elements(rt: HostRuntime) {
    let entries = [2, 0, 2, 2, 0, 1, 1, 2];
    assert!(rt; is_form(rt.alloc(), 3, 2, 4, entries.as_slice(), &first_is(2)) == Some(true));
}

// Three times the first row and twice the second leave 2 3 and 4 2 beside the identity. The value is 2 times 2 over 3
// times 4.
const LINE: [u8; 8] = [2, 0, 4, 1, 0, 3, 2, 1];

// The matrix of its form.
const ROWS: [[u8; 4]; 2] = [[1, 0, 1, 1], [0, 1, 1, 2]];

// Whether it has that matrix, and operations that lead to it.
fn has_line_rows(alloc: Global) -> Option<bool> {
    let mut a = matrix(alloc, 5, 2, 4, LINE.as_slice())?;
    has_rows(alloc, &mut a, ROWS.as_slice())
}

#[test]
fn the_value_is_the_ratio_of_the_entries_over_five_elements(rt: HostRuntime) {
    assert!(rt; is_form(rt.alloc(), 5, 2, 4, LINE.as_slice(), &first_is(2)) == Some(true));
    assert!(rt; has_line_rows(rt.alloc()) == Some(true));
}

// Beside the identity stand 2 3, 1 3 and 4 4. The values are 3 times 2 over 3 times 1, and 4 times 2 over 3 times 4.
#[test]
fn positions_are_read_row_by_row(rt: HostRuntime) {
    let entries = [1, 1, 0, 3, 1, 0, 1, 0, 1, 3, 0, 0, 2, 3, 3];
    let wanted = first_is(2).with(1, 4);
    assert!(rt; is_form(rt.alloc(), 5, 3, 5, entries.as_slice(), &wanted) == Some(true));
}
