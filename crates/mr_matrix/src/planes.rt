ghost use Rattle.std.specs.Prelude.{◌≡◌, ◌<◌, ◌≤◌, IfOk};
ghost use Rattle.mr_field.specs.Gf.{order};
ghost use Rattle.mr_linear.specs.Matrix.{listed};
ghost use Rattle.mr_matrix.specs.Plane.{IsPlane};
ghost use Rattle.mr_matrix.specs.Private.Points.{coordinate, point_count};

use crate::number_line::ROOM;
use crate::read::set_row;
use arrayvec::ArrayVec;
use mr_field::Field;
use mr_linear::Matrix;
use std::alloc::{AllocError, Global};

/// The plane over a field with at most 5 elements: its columns are the vectors of length 3 whose first entry that isn't 0
/// is 1, in lexicographic order. Refused for want of memory alone.
pub fn plane_matrix(alloc: Global, field: Field) -> Result<Matrix, AllocError>
    requires { order field ≤ 5 }
    ensures { IfOk result (IsPlane field) }
{
    let q = u32::from(field.order());
    let n = q * q + q + 1;
    let mut a = Matrix::zero(alloc, field, 3, n)?;
    set_row(&mut a, 0, coordinates(q, 0).as_slice());
    set_row(&mut a, 1, coordinates(q, 1).as_slice());
    set_row(&mut a, 2, coordinates(q, 2).as_slice());
    // The clauses of `rows` say that it is a matrix.
    let _rows = a.rows();
    Ok(a)
}

// One coordinate of all points.
fn coordinates(q: u32, i: u32) -> ArrayVec<u32, ROOM>
    requires some { 1 < q }
    requires limit { q ≤ 5 }
    ensures { result.items ≡ listed 0 (point_count q) (coordinate q i) }
{
    let mut list: ArrayVec<u32, ROOM> = ArrayVec::new();
    for j in 0..q * q + q + 1 {
        list.push(coordinate(q, i, j));
    }
    list
}

// A coordinate of the point with number `j`.
fn coordinate(q: u32, i: u32, j: u32) -> u32
    requires some { 0 < q }
    requires limit { q ≤ 5 }
    ensures { result ≡ coordinate q i j }
{
    if i < 1 {
        return if j < q + 1 { 0 } else { 1 };
    }
    if i < 2 {
        return if j < 1 {
            0
        } else if j < q + 1 {
            1
        } else {
            (j - (q + 1)) / q
        };
    }
    if j < 1 {
        1
    } else if j < q + 1 {
        j - 1
    } else {
        (j - (q + 1)) % q
    }
}
