ghost use Rattle.std.specs.Prelude.{◌≡◌, ◌↔◌, ◌≤◌, ℕ, IfOk, IsErrOf, IsTrue};
ghost use Rattle.mr_set.specs.Elements.{IsSet};
ghost use Rattle.mr_set.specs.Subsets.{choose};
ghost use Rattle.mr_linear.specs.Matrix.{height, AreIndependent, IsColumnRank};
ghost use Rattle.mr_minor.specs.Private.Collected.{AreNonbases};
ghost use Rattle.mr_matrix.specs.Represented.{IsMatroidOf, IsRankShort};

use crate::fault::OfFault;
use mr_linear::Matrix;
use mr_matroid::Matroid;
use mr_minor::{collect, matroid_with};
use mr_set::{SETS, Set, first_subset, next_subset};
use std::alloc::{AllocError, Global};

/// The matroid of the columns of a matrix whose rank is its number of rows, and that has at most `SETS` sets of so many
/// columns. A lower rank is named, and else memory alone refuses.
pub fn matroid_of(alloc: Global, a: &Matrix) -> Result<Matroid, OfFault>
    requires { choose a.now.cols (height a.now) ≤ SETS }
    ensures ok { IfOk result (IsMatroidOf a.now) }

    // The rank is named, exactly where it is below the number of rows.
    ensures rank { (k : ℕ) → IsErrOf result (OfFault.RankShort k) ↔ IsRankShort a.now k }
{
    let rank = a.rank();
    if rank < a.rows() {
        return Err(OfFault::RankShort { rank });
    }
    let matroid = matroid_of_full(alloc, a)?;
    Ok(matroid)
}

// The matroid where the rank is the number of rows.
fn matroid_of_full(alloc: Global, a: &Matrix) -> Result<Matroid, AllocError>
    requires limit { choose a.now.cols (height a.now) ≤ SETS }
    requires full { IsColumnRank a.now (height a.now) }
    ensures { IfOk result (IsMatroidOf a.now) }
{
    let nonbases = dependent_sets(alloc, a)?;
    let r = a.rows();
    let n = a.cols();
    matroid_with(alloc, n, r, nonbases.as_slice())
}

// The sets of as many dependent columns as there are rows.
pub fn dependent_sets(alloc: Global, a: &Matrix) -> Result<Vec<Set>, AllocError>
    ensures { IfOk result (λ sets. AreNonbases a.now.cols (height a.now) (AreIndependent a.now) sets.items) }
{
    let r = a.rows();
    let n = a.cols();
    let mut nonbases = Vec::new(alloc);
    let mut x = first_subset(n, r);
    'sets: loop {
        collect(&mut nonbases, x, is_independent(a, x))?;
        match next_subset(n, x) {
            Some(next) => x = next,
            None => return Ok(nonbases),
        }
    }
}

// Whether the columns are independent.
fn is_independent(a: &Matrix, x: Set) -> bool
    requires { IsSet a.now.cols x }
    ensures { IsTrue result ↔ AreIndependent a.now x }
{
    a.independent(x)
}
