ghost use Rattle.std.specs.Prelude.{◌≡◌, ◌-◌, ◌≤◌, ◌↔◌, ℕ, [], List, length, IfOk, IsErrOf, IsTrue};
ghost use Rattle.mr_set.specs.Elements.{IsSet, elements_below, minus, union};
ghost use Rattle.mr_set.specs.Subsets.{IsSetOf};
ghost use Rattle.mr_set.specs.Matroid.{IsBasis};
ghost use Rattle.mr_minor.specs.Minor.{IsMinor, IsFirstStranger, others, originals};
ghost use Rattle.mr_minor.specs.Private.Best.{score, IsBestBasis, IsCompleted};
ghost use Rattle.mr_minor.specs.Private.Collected.{AreNonbases};
ghost use Rattle.mr_minor.specs.declared.masks.TheConstants.{BITS};

use crate::fault::MinorFault;
use crate::masks::{first_stranger, set_of_bits};
use crate::nonbases::{collect, matroid_with};
use mr_matroid::Matroid;
use mr_set::{ELEMENTS, Set, first_subset, next_subset};
use std::alloc::{AllocError, Global};

/// The minor by deleting the elements of the one mask and contracting those of the other. An element of both is
/// contracted. The others are numbered anew, in their order. A mask may have any of its 64 bits; the least bit that is
/// no element of the matroid is named, and a matroid with all of them is refused for want of memory alone.
pub fn minor(
    alloc: Global,
    m: &Matroid,
    deleted: u64,
    contracted: u64,
) -> Result<Matroid, MinorFault>
    ensures ok { IfOk result (IsMinor m.now (elements_below BITS deleted) (elements_below BITS contracted)) }

    // The least number of the masks that is no element is named, exactly where there is one.
    ensures stranger { (e : ℕ) → IsErrOf result (MinorFault.Stranger e) ↔ IsFirstStranger m.now.elements (union (elements_below BITS deleted) (elements_below BITS contracted)) e }
{
    let n = m.elements();
    match first_stranger(n, deleted, contracted) {
        Some(e) => Err(MinorFault::Stranger { e }),
        None => {
            let deleted = set_of_bits(n, deleted);
            let contracted = set_of_bits(n, contracted);
            let minor = minor_of(alloc, m, deleted, contracted)?;
            Ok(minor)
        }
    }
}

/// The minor by deleting the elements of the mask. Numbers and refusals are as for `minor`.
pub fn delete(alloc: Global, m: &Matroid, elements: u64) -> Result<Matroid, MinorFault>
    ensures ok { IfOk result (IsMinor m.now (elements_below BITS elements) []) }

    // The least number of the mask that is no element is named, exactly where there is one.
    ensures stranger { (e : ℕ) → IsErrOf result (MinorFault.Stranger e) ↔ IsFirstStranger m.now.elements (elements_below BITS elements) e }
{
    minor(alloc, m, elements, 0)
}

/// The minor by contracting the elements of the mask. Numbers and refusals are as for `minor`.
pub fn contract(alloc: Global, m: &Matroid, elements: u64) -> Result<Matroid, MinorFault>
    ensures ok { IfOk result (IsMinor m.now [] (elements_below BITS elements)) }

    // The least number of the mask that is no element is named, exactly where there is one.
    ensures stranger { (e : ℕ) → IsErrOf result (MinorFault.Stranger e) ↔ IsFirstStranger m.now.elements (elements_below BITS elements) e }
{
    minor(alloc, m, 0, elements)
}

// The minor by deleting the one set and contracting the other.
fn minor_of(
    alloc: Global,
    m: &Matroid,
    deleted: Set,
    contracted: Set,
) -> Result<Matroid, AllocError>
    requires { IsSet m.now.elements contracted }
    ensures { IfOk result (IsMinor m.now deleted contracted) }
{
    // The clauses of `elements` say that it is a matroid within the limits.
    let _elements = m.elements();
    let kept = others(m, deleted, contracted);
    let best = best_basis(m, kept, contracted);
    let fixed = best.minus(kept);
    let nonbases = nonbases_of_minor(alloc, m, kept, fixed)?;
    matroid_with(
        alloc,
        kept.len(),
        m.rank() - fixed.len(),
        nonbases.as_slice(),
    )
}

// The elements that are neither deleted nor contracted.
fn others(m: &Matroid, deleted: Set, contracted: Set) -> Set
    ensures { result ≡ others m.now.elements deleted contracted }
{
    let n = m.elements();
    first_subset(n, n).minus(deleted.union(contracted))
}

// How many elements the set has among the contracted ones, and among those that aren't deleted.
fn score(kept: Set, contracted: Set, b: Set) -> u32
    ensures { result ≡ score kept contracted b }
{
    let _mask = b.mask();
    b.meet(contracted).len() + b.meet(kept.union(contracted)).len()
}

// The one of two sets that has the higher score, where the second is a basis.
fn better(m: &Matroid, kept: Set, contracted: Set, best: Set, b: Set) -> Set
    requires set { IsSet m.now.elements b }
    requires best { IsBasis m.now best }
    ensures basis { IsBasis m.now result }
    ensures keeps { score kept contracted best ≤ score kept contracted result }
    ensures covers { IsBasis m.now b → score kept contracted b ≤ score kept contracted result }
{
    if m.is_basis(b) {
        if score(kept, contracted, best) < score(kept, contracted, b) {
            return b;
        }
    }
    best
}

// The basis with the highest score.
fn best_basis(m: &Matroid, kept: Set, contracted: Set) -> Set
    ensures { IsBestBasis m.now kept contracted result }
{
    let mut best = m.first_basis();
    let n = m.elements();
    let mut b = first_subset(n, m.rank());
    'bases: loop {
        best = better(m, kept, contracted, best, b);
        match next_subset(n, b) {
            Some(next) => b = next,
            None => return best,
        }
    }
}

// The sets that aren't completed to bases.
fn nonbases_of_minor(
    alloc: Global,
    m: &Matroid,
    kept: Set,
    fixed: Set,
) -> Result<Vec<Set>, AllocError>
    requires kept { IsSet m.now.elements kept }
    requires fixed { IsSet m.now.elements fixed }
    requires size { length fixed ≤ m.now.rank }
    requires flat { m.now.rank - length fixed ≤ length kept }
    requires limit { length kept ≤ ELEMENTS }
    ensures { IfOk result (λ sets. AreNonbases (length kept) (m.now.rank - length fixed) (IsCompleted m.now kept fixed) sets.items) }
{
    let n = kept.len();
    let mut nonbases = Vec::new(alloc);
    let mut x = first_subset(n, m.rank() - fixed.len());
    'sets: loop {
        collect(&mut nonbases, x, is_completed(m, kept, fixed, x))?;
        match next_subset(n, x) {
            Some(next) => x = next,
            None => return Ok(nonbases),
        }
    }
}

// Whether the set is completed to a basis by the fixed elements.
fn is_completed(m: &Matroid, kept: Set, fixed: Set, x: Set) -> bool
    requires kept { IsSet m.now.elements kept }
    requires fixed { IsSet m.now.elements fixed }
    requires set { IsSet (length kept) x }
    ensures { IsTrue result ↔ IsCompleted m.now kept fixed x }
{
    m.is_basis(originals(kept, x).union(fixed))
}

// The elements that have these numbers among the kept ones.
fn originals(kept: Set, x: Set) -> Set
    requires { IsSet (length kept) x }
    ensures { result ≡ originals kept x }
{
    // The clauses of `mask` say that the elements stand in order, below `ELEMENTS`.
    let _mask = kept.mask();
    let mut y = Set::empty();
    let mut number = 0;
    for e in 0..ELEMENTS {
        if kept.has(e) {
            if x.has(number) {
                y = y.with(e);
            }
            number += 1;
        }
    }
    y
}
