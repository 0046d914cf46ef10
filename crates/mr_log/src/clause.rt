ghost use Rattle.std.specs.Prelude.{◌≡◌, ◌≢◌, ◌↔◌, ◌<◌, ◌≤◌, ◌^◌, ◌∷◌, List, ℕ, codes, IsTrue, MatchOption};
ghost use Rattle.mr_assign.specs.Assign.{no_values};
ghost use Rattle.mr_assign.specs.declared.TheConstants.{POSITIONS};
ghost use Rattle.mr_log.specs.Lines.{pair_text};
ghost use Rattle.mr_log.specs.Private.Words.{Reads, IsClauseFrom, pair_words, clause_words};
ghost use Rattle.mr_text.specs.declared.TheConstants.{NUMBERS};

use crate::words::WordsLeft;
use mr_assign::{Assign, POSITIONS};
use mr_text::{number, split_once};

// The two numbers of a pair.
fn read_pair(word: &[u8]) -> Option<(u32, u32)>
    ensures { MatchOption result ((p v : ℕ) → p < NUMBERS → v < NUMBERS → word.now ≢ pair_text p v)
        (λ x. (x.0 < NUMBERS) × (x.1 < NUMBERS) × (word.now ≡ pair_text x.0 x.1)) }
{
    match split_once(word, b':') {
        None => None,
        Some((left, right)) => match number(left) {
            None => None,
            Some(p) => match number(right) {
                None => None,
                Some(v) => Some((p, v)),
            },
        },
    }
}

fn is_next_pair(p: u32, v: u32, low: u32, q: u8) -> bool
    ensures { IsTrue result ↔ ((low ≤ p) × (p < POSITIONS) × (0 < v) × (v < q)) }
{
    low <= p && p < POSITIONS && 0 < v && v < u32::from(q)
}

// The pairs from position `low` on, of which the word is the first one, up to the word `by`.
fn read_pairs(word: &[u8], words: &mut WordsLeft, low: u32, q: u8) -> Option<Assign>
    requires { (2 ≤ q) × (q ≤ 9) }
    ensures { Reads (IsClauseFrom q low) pair_words result (word.now ∷ words.old) words.new }
{
    if word == b"by".as_slice() {
        return Some(Assign::empty());
    }
    match read_pair(word) {
        None => None,
        Some((p, v)) => {
            if is_next_pair(p, v, low, q) {
                match words.next() {
                    None => None,
                    Some(next) => match read_pairs(next, words, p + 1, q) {
                        None => None,
                        Some(others) => Some(others.with(p, v as u8)),
                    },
                }
            } else {
                None
            }
        }
    }
}

/// The clause, up to the word `by`.
pub fn read_clause(words: &mut WordsLeft, q: u8) -> Option<Assign>
    requires { (2 ≤ q) × (q ≤ 9) }
    ensures { Reads (IsClauseFrom q 0) clause_words result words.old words.new }
{
    match words.next() {
        None => None,
        Some(word) => {
            if word == b"-".as_slice() {
                return no_pairs(words);
            }
            if word == b"by".as_slice() {
                return None;
            }
            read_pairs(word, words, 0, q)
        }
    }
}

// The empty clause, where the word `by` follows.
fn no_pairs(words: &mut WordsLeft) -> Option<Assign>
    ensures { MatchOption result ((rest : List (List ℕ)) → words.old ≢ codes "by" ∷ rest) (λ a. (a ≡ no_values) × (words.old ≡ codes "by" ∷ words.new)) }
{
    if words.next_is(b"by") {
        Some(Assign::empty())
    } else {
        None
    }
}
