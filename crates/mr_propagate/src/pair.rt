ghost use Rattle.std.specs.Prelude.{◌≡◌, ◌≢◌, ◌<◌, ◌≤◌, ◌+◌, ◌*◌, ℕ, MatchBool, MatchOption, slice_index};
ghost use Rattle.mr_assign.specs.declared.TheConstants.{POSITIONS, VALUES};
ghost use Rattle.mr_assign.specs.Packing.{nibble};
ghost use Rattle.mr_propagate.specs.Pairs.{IsLeastPair};
ghost use Rattle.mr_propagate.specs.Private.Pairs.{IsEmpty, IsGreatestPair, IsPairNumber, IsPair, pair_number};

use mr_assign::{Assign, CLAUSE_WORDS, POSITIONS, VALUES};

/// Whether a map may have the pair.
pub(crate) fn is_pair(p: u32, v: u8) -> bool
    ensures { MatchBool result (IsPair p v) (¬ (IsPair p v)) }
{
    if p >= POSITIONS {
        return false;
    }
    if v == 0 {
        return false;
    }
    v <= VALUES
}

/// The number of a pair.
pub(crate) fn pair_number(p: u32, v: u8) -> usize
    requires position { p < POSITIONS }
    requires value { v ≤ VALUES }
    ensures { result ≡ pair_number p v }
{
    p as usize * VALUES as usize + v as usize
}

/// The number of a map's least pair, 0 where it has none.
pub(crate) fn least_number(a: &Assign) -> usize
    ensures number { IsPairNumber IsLeastPair a.now result }
    ensures small { result < POSITIONS * VALUES + 1 }
{
    // The clauses of `words` say that there are no more positions.
    let _words = a.words();
    for p in 0..POSITIONS {
        let v = a.get(p);
        if v != 0 {
            return pair_number(p, v);
        }
    }
    0
}

/// The greatest position with a value.
pub(crate) fn greatest(a: &Assign) -> Option<u32>
    ensures { MatchOption result (IsEmpty a.now) (λ p. (p < POSITIONS) × IsGreatestPair a.now p (slice_index a.now p)) }
{
    let words = a.words();
    let mut i = CLAUSE_WORDS;
    while i > 0 {
        i -= 1;
        if words[i] != 0 {
            return Some(16 * i as u32 + top_nibble(words[i]));
        }
    }
    None
}

// The place of the greatest nibble that isn't 0.
fn top_nibble(word: u64) -> u32
    requires { 0 < word }
    ensures { (result < 16) × (nibble word result ≢ 0) × ((k : ℕ) → result < k → nibble word k ≡ 0) }
{
    (63 - word.leading_zeros()) / 4
}
