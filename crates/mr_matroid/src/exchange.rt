ghost use Rattle.std.specs.Prelude.{◌≡◌, ◌↔◌, ◌<◌, ◌≤◌, ◌+◌, ℕ, List, length, IsTrue, Contains, MatchOption};
ghost use Rattle.mr_set.specs.Elements.{IsSet};
ghost use Rattle.mr_set.specs.Subsets.{IsBefore};
ghost use Rattle.mr_set.specs.Matroid.{Presentation, IsBasis, FailsExchange};
ghost use Rattle.mr_matroid.specs.Exchange.{IsFirstFailure};
ghost use Rattle.mr_matroid.specs.Private.Exchange.{IsFirstSecond};
ghost use Rattle.mr_matroid.specs.Table.{IsFit};
ghost use Rattle.mr_matroid.specs.Private.Search.{NoneFrom, NoneAt, IsFirstFrom, IsBestBelow};

use crate::table::SetTable;
use mr_set::{Set, is_before};

/// The first exchange of unlisted sets that fails.
pub fn first_failure(table: &SetTable) -> Option<(Set, Set, u32)>
    ensures { MatchOption result ((b1 b2 : List ℕ) (x : ℕ) → FailsExchange table.now b1 b2 x → ⊥) (λ p. IsFirstFailure table.now p.0 p.1 p.2) }
{
    let bases = table.unlisted();
    for b1 in bases {
        if let Some(found) = first_second(table, *b1) {
            return Some((*b1, found.0, found.1));
        }
    }
    None
}

// The first basis b2 with which an exchange from b1 fails, and the least element that fails, where none fails before b1.
fn first_second(table: &SetTable, b1: Set) -> Option<(Set, u32)>
    requires basis { IsBasis table.now b1 }
    requires before { (z : List ℕ) → IsBefore z b1 → NoneFrom table.now z }
    ensures { MatchOption result (NoneFrom table.now b1) (λ p. IsFirstSecond table.now b1 p.0 p.1) }
{
    let mut best = None;
    for x in 0..table.elements() {
        if b1.has(x) {
            best = earlier(best, second_at(table, b1, x), x);
        }
    }
    best
}

// The first second basis so far, with its least element.
fn earlier(best: Option<(Set, u32)>, found: Option<Set>, x: u32) -> Option<(Set, u32)>
    ensures { (m : Presentation) (b1 : List ℕ) → IsBestBelow m b1 x best → MatchOption found (NoneAt m b1 x) (IsFirstFrom m b1 x) → IsBestBelow m b1 (x + 1) result }
{
    match found {
        None => best,
        Some(b2) => match best {
            None => Some((b2, x)),
            Some(old) => {
                if is_before(b2, old.0) {
                    Some((b2, x))
                } else {
                    Some(old)
                }
            }
        },
    }
}

// The first basis b2 with which the exchange of x from b1 fails, where no exchange fails before b1.
fn second_at(table: &SetTable, b1: Set, x: u32) -> Option<Set>
    requires basis { IsBasis table.now b1 }
    requires element { Contains b1 x }
    requires before { (z : List ℕ) → IsBefore z b1 → NoneFrom table.now z }
    ensures { MatchOption result (NoneAt table.now b1 x) (IsFirstFrom table.now b1 x) }
{
    // With a smaller element in the place of x there is an earlier basis, and the same exchanges fail from there.
    if !is_least_fit(table, b1, x) {
        return None;
    }
    let fits = table.fits(b1, x);
    // The other elements are too few for a basis.
    if table.elements() < fits.len() + table.rank() {
        return None;
    }
    table.missing(fits)
}

// Whether no smaller element can stand in the place of x.
fn is_least_fit(table: &SetTable, b1: Set, x: u32) -> bool
    requires basis { IsBasis table.now b1 }
    requires element { Contains b1 x }
    ensures { IsTrue result ↔ ((y : ℕ) → y < x → ¬ (IsFit table.now b1 x y)) }
{
    for y in 0..x {
        if table.is_fit(b1, x, y) {
            return false;
        }
    }
    true
}
