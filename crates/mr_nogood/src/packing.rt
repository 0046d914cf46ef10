ghost use Rattle.std.specs.Prelude.{◌≡◌, ◌≢◌, ◌↔◌, ◌<◌, ◌≤◌, ◌^◌, ◌+◌, ◌*◌, Any, IsNone, IfSome, slice_range};
ghost use Rattle.mr_assign.specs.declared.TheConstants.{POSITIONS, VALUES};
ghost use Rattle.mr_assign.specs.Packing.{nibbles};
ghost use Rattle.mr_nogood.specs.Row.{IsCite, IsRow};
ghost use Rattle.mr_nogood.specs.Packing.{cite_word, head_of, row_packing};
ghost use Rattle.mr_nogood.specs.Unpacking.{cite_of, unpacked};

use crate::row::cite_at;
use crate::{Cite, ROW_CITES, ROW_WORDS, Row};
use mr_assign::{Assign, CLAUSE_WORDS, VALUES};
use mr_set::Set;

// The bit that says that there is a row.
const ROW: u64 = 1 << 63;

// The word of a cite that is a set is this and the set's mask.
const TEST: u64 = 1 << 56;

// The word of a cite that is a number is this and the number.
const SLOT: u64 = 1 << 57;

// The first word of the cites.
const CITES: usize = 1 + CLAUSE_WORDS;

/// The words of a row: 2^63 + c 2^40 + p 2^32 + r for the rank r, the position p and the number c of the
/// clause's pairs, then the words of the clause, then a word for each cite. That one is 0 for `Nothing`,
/// 2^56 and the mask for a set, and 2^57 and the number for a row.
pub fn pack(row: &Row) -> [u64; ROW_WORDS]
    ensures packing { result ≡ row_packing row.now }
    ensures row { IsRow row.now }
{
    let clause = row.clause.words();
    let mut words = [0; ROW_WORDS];
    words[0] = head(row.clause.count(), row.at, row.rank);
    words[1..CITES].copy_from_slice(&clause);
    for k in 0..VALUES {
        words[CITES + k as usize] = cite_word(cite_at(row, k));
    }
    words
}

/// The first of a row's words, which is for its clause's number of pairs, its position and its rank.
pub fn head_of(row: &Row) -> u64
    ensures word { result ≡ head_of row.now }
    ensures rank { row.now.rank < 2 ^ 32 }
    ensures at { row.now.at < 2 ^ 8 }
{
    // The clauses of `words` say that it is a map.
    let _words = row.clause.words();
    head(row.clause.count(), row.at, row.rank)
}

/// The row of these words. There is none where they are not just as `pack` gives them for a row.
pub fn unpack(words: &[u64; ROW_WORDS]) -> Option<Row>
    ensures some { IfSome result (λ row. words.now ≡ row_packing row) }
    ensures row { IfSome result IsRow }
    ensures none { IsNone result → (row : Row) → IsRow row → words.now ≢ row_packing row }
{
    match clause_of(words) {
        Some(clause) => {
            let row = read(words, clause);
            if pack(&row) == *words {
                Some(row)
            } else {
                None
            }
        }
        None => None,
    }
}

/// The row of these words, which are just as `pack` gives them for one.
pub fn row_of(words: &[u64; ROW_WORDS]) -> Row
    requires { (row : Row) × IsRow row × (words.now ≡ row_packing row) }
    ensures packing { words.now ≡ row_packing result }
    ensures row { IsRow result }
{
    match clause_of(words) {
        Some(clause) => read(words, clause),
        None => unreachable!(),
    }
}

// The clause that is read from the words, if it is one.
fn clause_of(words: &[u64; ROW_WORDS]) -> Option<Assign>
    ensures none { IsNone result ↔ Any (λ v. VALUES < v) (nibbles (slice_range words.now 1 7)) }
    ensures some { IfSome result (λ clause. clause ≡ nibbles (slice_range words.now 1 7)) }
{
    let mut clause = [0; CLAUSE_WORDS];
    clause.copy_from_slice(&words[1..CITES]);
    Assign::of_words(clause)
}

// The row of this clause that is read from the words.
fn read(words: &[u64; ROW_WORDS], clause: Assign) -> Row
    requires { clause ≡ nibbles (slice_range words.now 1 7) }
    ensures { result ≡ unpacked words.now }
{
    let mut cites = [Cite::Nothing; ROW_CITES];
    for k in 0..ROW_CITES {
        cites[k] = cite_of(words[CITES + k]);
    }
    Row {
        rank: (words[0] % (1 << 32)) as u32,
        at: (words[0] / (1 << 32) % (1 << 8)) as u8,
        clause,
        cites,
    }
}

// The first word of a row whose clause has so many pairs.
fn head(count: u32, at: u8, rank: u32) -> u64
    requires { count ≤ POSITIONS }
    ensures word { result ≡ 2 ^ 63 + count * 2 ^ 40 + at * 2 ^ 32 + rank }
    ensures at { at < 2 ^ 8 }
    ensures rank { rank < 2 ^ 32 }
{
    ROW + u64::from(count) * (1 << 40) + u64::from(at) * (1 << 32) + u64::from(rank)
}

// The word of a cite.
fn cite_word(cite: &Cite) -> u64
    ensures word { result ≡ cite_word cite.now }
    ensures cite { IsCite cite.now }
{
    match cite {
        Cite::Nothing => 0,
        Cite::Test(x) => TEST + x.mask(),
        Cite::Slot(s) => SLOT + u64::from(*s),
    }
}

// The cite that is read from a word.
fn cite_of(word: u64) -> Cite
    ensures { result ≡ cite_of word }
{
    let low = word % (1 << 32);
    if word >= SLOT {
        return Cite::Slot(low as u32);
    }
    if word < TEST {
        return Cite::Nothing;
    }
    match Set::of_mask(low) {
        Some(x) => Cite::Test(x),
        None => Cite::Nothing,
    }
}
