ghost use Rattle.std.specs.Prelude.{◌≡◌, ◌↔◌, IsTrue};
ghost use Rattle.mr_set.specs.Elements.{IsSet};
ghost use Rattle.mr_linear.specs.Matrix.{height};
ghost use Rattle.mr_matrix.specs.Difference.{DiffersAt};
ghost use Rattle.mr_matrix.specs.Confirmation.{IsConfirmation};

use crate::answer::Confirm;
use mr_linear::Matrix;
use mr_matroid::Matroid;
use mr_set::{Set, first_subset, next_subset};

/// Holds a matrix of a row for each of the rank and a column for each element against the matroid, over the sets of the
/// rank's size. Takes no memory.
pub fn confirm(m: &Matroid, a: &Matrix) -> Confirm
    requires rows { height a.now ≡ m.now.rank }
    requires columns { a.now.cols ≡ m.now.elements }
    ensures { IsConfirmation m.now a.now result }
{
    let n = m.elements();
    // The clauses of `rows` say that the matrix is one.
    let _rows = a.rows();
    let mut x = first_subset(n, m.rank());
    'sets: loop {
        if differs(m, a, x) {
            return Confirm::Differs { set: x };
        }
        match next_subset(n, x) {
            Some(next) => x = next,
            None => return Confirm::Confirmed,
        }
    }
}

// Whether the matrix and the matroid differ at the set.
fn differs(m: &Matroid, a: &Matrix, x: Set) -> bool
    requires columns { a.now.cols ≡ m.now.elements }
    requires set { IsSet m.now.elements x }
    ensures { IsTrue result ↔ DiffersAt m.now a.now x }
{
    let independent = a.independent(x);
    if m.is_basis(x) {
        !independent
    } else {
        independent
    }
}
