ghost use Rattle.std.specs.Prelude.{◌≡◌, ◌↔◌, ◌+◌, ◌<◌, ◌≤◌, ◌^◌, ◌∷◌, [], ℕ, map, decimal, IsTrue, option_map};
ghost use Rattle.mr_set.specs.declared.TheConstants.{ELEMENTS};
ghost use Rattle.mr_nogood.specs.declared.row.Cite.TheVariants.{Test, Slot};
ghost use Rattle.mr_set.specs.Subsets.{IsSetOf};
ghost use Rattle.mr_file.specs.Reading.{listing};
ghost use Rattle.mr_log.specs.Lines.{IsLogCite};
ghost use Rattle.mr_log.specs.Private.Words.{Reads, IsSetFrom, IsCites, set_words, cite_words, cites_words};
ghost use Rattle.mr_text.specs.declared.TheConstants.{NUMBERS};

use crate::words::WordsLeft;
use mr_file::Listed;
use mr_nogood::{Cite, ROW_CITES};
use mr_set::Set;
use mr_text::number;

/// The number that the next word spells.
pub fn read_number(words: &mut WordsLeft) -> Option<u32>
    ensures { Reads (λ v. v < NUMBERS) (λ v. decimal v ∷ []) result words.old words.new }
{
    match words.next() {
        None => None,
        Some(word) => number(word),
    }
}

fn is_within(e: u32, low: u32, end: u32) -> bool
    ensures { IsTrue result ↔ ((low ≤ e) × (e < end)) }
{
    low <= e && e < end
}

// A set of `count` elements from `low` on.
fn read_elements(words: &mut WordsLeft, low: u32, elements: u32, count: u32) -> Option<Set>
    requires { elements ≤ ELEMENTS }
    ensures { Reads (IsSetFrom low elements count) (map decimal) result words.old words.new }
{
    if count == 0 {
        return Some(Set::empty());
    }
    match read_number(words) {
        None => None,
        Some(e) => {
            if is_within(e, low, elements) {
                match read_elements(words, e + 1, elements, count - 1) {
                    None => None,
                    Some(others) => Some(others.with(e)),
                }
            } else {
                None
            }
        }
    }
}

// A set of `rank` elements.
fn read_set(words: &mut WordsLeft, elements: u32, rank: u32) -> Option<Set>
    requires { elements ≤ ELEMENTS }
    ensures { Reads (IsSetOf elements rank) set_words result words.old words.new }
{
    if rank > 0 {
        return read_elements(words, 0, elements, rank);
    }
    if words.next_is(b"-") {
        Some(Set::empty())
    } else {
        None
    }
}

/// The next cite.
pub fn read_cite(words: &mut WordsLeft, listed: &Listed) -> Option<Cite>
    requires { listed.now.elements ≤ ELEMENTS }
    ensures { Reads (IsLogCite (listing listed.now)) cite_words result words.old words.new }
{
    match words.next() {
        None => None,
        Some(word) => {
            if word == b"t".as_slice() {
                return test_of(read_set(words, listed.elements, listed.rank));
            }
            if word == b"s".as_slice() {
                return slot_of(read_number(words));
            }
            None
        }
    }
}

fn test_of(set: Option<Set>) -> Option<Cite>
    ensures { result ≡ option_map Test set }
{
    match set {
        None => None,
        Some(x) => Some(Cite::Test(x)),
    }
}

fn slot_of(number: Option<u32>) -> Option<Cite>
    ensures { result ≡ option_map Slot number }
{
    match number {
        None => None,
        Some(s) => Some(Cite::Slot(s)),
    }
}

/// A cite for each value of the field with `q` elements, and `Nothing` for the others.
pub fn read_cites(words: &mut WordsLeft, listed: &Listed, q: u8) -> Option<[Cite; ROW_CITES]>
    requires elements { listed.now.elements ≤ ELEMENTS }
    requires field { (2 ≤ q) × (q ≤ 9) }
    ensures { Reads (IsCites (listing listed.now) q) (cites_words q) result words.old words.new }
{
    let mut cites = [Cite::Nothing; ROW_CITES];
    for k in 0..usize::from(q - 1) {
        match read_cite(words, listed) {
            None => return None,
            Some(cite) => cites[k] = cite,
        }
    }
    Some(cites)
}
