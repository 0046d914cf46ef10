ghost use Rattle.std.specs.Prelude.{◌≡◌, ◌↔◌, ◌+◌, ◌*◌, ◌<◌, ◌≤◌, ℕ, Any, IsTrue, MatchBool, IsNone, IfSome, count_by, nat_lt, slice_index, slice_set, take};
ghost use Rattle.mr_assign.specs.Assign.{IsAssign, IsPartOf, IsConflict, no_values, map_union};
ghost use Rattle.mr_assign.specs.Packing.{nibbles, nibble_at, map_words};
ghost use Rattle.mr_assign.specs.Private.Packing.{IsPacking};

use crate::word::mask_of;
use crate::{CLAUSE_WORDS, POSITIONS, VALUES};
use std::marker::Model;

/// A partial map from positions to values. Contracts see it as the list of each position's value, 0
/// where it has none.
#[derive(Clone, Copy, Debug, PartialEq, Eq)]
pub struct Assign {
    words: [u64; CLAUSE_WORDS],
}

impl Model for Assign {
    ghost use Rattle.std.specs.Prelude.{ℕ, List};
    ghost use Rattle.mr_assign.specs.Packing.{nibbles, map_words};
    ghost use Rattle.mr_assign.specs.Private.Packing.{IsPacking};
    ghost use Rattle.mr_assign.specs.Private.Again.{words_again};

    ghost Value = { List ℕ };

    ghost view = { λ a. nibbles a.words };

    ghost invariant = { λ a. IsPacking a.words };

    ghost inverse = { λ x. record { words = map_words x } };

    ghost inverse_ok = { λ a h. words_again a.words h };
}

impl Assign {
    /// The map without a value.
    pub fn empty() -> Assign
        ensures { result ≡ no_values }
    {
        Assign {
            words: [0; CLAUSE_WORDS],
        }
    }

    /// Sixteen positions a word, the least one in the lowest four bits.
    pub fn words(&self) -> [u64; CLAUSE_WORDS]
        ensures packing { result ≡ map_words self.now }
        ensures assign { IsAssign self.now }
    {
        self.words
    }

    /// Takes the words as `words` gives them. There is no map where a nibble is above `VALUES`.
    pub fn of_words(words: [u64; CLAUSE_WORDS]) -> Option<Assign>
        ensures none { IsNone result ↔ Any (λ v. VALUES < v) (nibbles words) }
        ensures some { IfSome result (λ a. a ≡ nibbles words) }
    {
        for i in 0..CLAUSE_WORDS as u32 {
            if !fits(&words, i) {
                return None;
            }
        }
        Some(Assign { words })
    }

    /// The value at a position, 0 where it has none.
    pub fn get(&self, p: u32) -> u8
        requires { p < POSITIONS }
        ensures value { result ≡ slice_index self.now p }
        ensures bound { result ≤ VALUES }
    {
        nibble_at(&self.words, p)
    }

    /// The map with the value `v` at the position `p`, in place of one that it may have there.
    pub fn with(&self, p: u32, v: u8) -> Assign
        requires place { p < POSITIONS }
        requires low { 0 < v }
        requires high { v ≤ VALUES }
        ensures { result ≡ slice_set self.now p v }
    {
        Assign {
            words: changed(self.words, p, v),
        }
    }

    /// The map without a value at the position `p`.
    pub fn without(&self, p: u32) -> Assign
        requires { p < POSITIONS }
        ensures { result ≡ slice_set self.now p 0 }
    {
        Assign {
            words: changed(self.words, p, 0),
        }
    }

    /// Whether each pair of the other map is one of this.
    pub fn contains(&self, other: &Assign) -> bool
        ensures { IsTrue result ↔ IsPartOf other.now self.now }
    {
        for i in 0..CLAUSE_WORDS {
            let word = other.words[i];
            if self.words[i] & mask_of(word) != word {
                return false;
            }
        }
        true
    }

    /// How many positions have a value.
    pub fn count(&self) -> u32
        ensures { result ≡ count_by (λ v. nat_lt 0 v) self.now }
    {
        let mut count = 0;
        for i in 0..CLAUSE_WORDS as u32 {
            count = count_to(&self.words, i, count);
        }
        count
    }

    /// The pairs of both maps. There is none where a position has two different values.
    pub fn join(&self, other: &Assign) -> Option<Assign>
        ensures none { IsNone result ↔ ((p : ℕ) × IsConflict self.now other.now p) }
        ensures some { IfSome result (λ both. both ≡ map_union self.now other.now) }
    {
        let mut both = *self;
        for p in 0..POSITIONS {
            let v = nibble_at(&other.words, p);
            if v != 0 {
                let had = nibble_at(&self.words, p);
                if had != 0 && had != v {
                    return None;
                }
                both = both.with(p, v);
            }
        }
        Some(both)
    }
}

// How many positions before the word after this one have a value, from how many before it have one. A word of zeros is
// passed.
fn count_to(words: &[u64; CLAUSE_WORDS], i: u32, before: u32) -> u32
    requires word { i < CLAUSE_WORDS }
    requires before { before ≡ count_by (λ v. nat_lt 0 v) (take (16 * i) (nibbles words.now)) }
    ensures { result ≡ count_by (λ v. nat_lt 0 v) (take (16 * i + 16) (nibbles words.now)) }
{
    if words[i as usize] == 0 {
        return before;
    }
    let mut count = before;
    for p in 16 * i..16 * i + 16 {
        if nibble_at(words, p) > 0 {
            count += 1;
        }
    }
    count
}

// Whether no nibble of this word is above `VALUES`. A word of zeros is passed.
fn fits(words: &[u64; CLAUSE_WORDS], i: u32) -> bool
    requires { i < CLAUSE_WORDS }
    ensures { MatchBool result ((k : ℕ) → 16 * i ≤ k → k < 16 * i + 16 → nibble_at words.now k ≤ VALUES) (Any (λ v. VALUES < v) (nibbles words.now)) }
{
    if words[i as usize] == 0 {
        return true;
    }
    for p in 16 * i..16 * i + 16 {
        if nibble_at(words, p) > VALUES {
            return false;
        }
    }
    true
}

fn nibble_at(words: &[u64; CLAUSE_WORDS], p: u32) -> u8
    requires { p < POSITIONS }
    ensures { result ≡ nibble_at words.now p }
{
    (words[(p / 16) as usize] >> (4 * (p % 16)) & 15) as u8
}

// The words with the value v, or none for 0, at position p.
fn changed(mut words: [u64; CLAUSE_WORDS], p: u32, v: u8) -> [u64; CLAUSE_WORDS]
    requires place { p < POSITIONS }
    requires value { v ≤ VALUES }
    requires packing { IsPacking words }
    ensures changed { nibbles result ≡ slice_set (nibbles words) p v }
    ensures packing { IsPacking result }
{
    let turned = nibble_at(&words, p) ^ v;
    words[(p / 16) as usize] ^= (turned as u64) << (4 * (p % 16));
    words
}
