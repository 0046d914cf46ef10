ghost use Rattle.std.specs.Prelude.{◌≡◌, ◌↔◌, ◌<◌, ◌≤◌, ℕ, List, Some, IsTrue, IfSome, MatchResult};
ghost use Rattle.mr_set.specs.declared.TheConstants.{ELEMENTS};
ghost use Rattle.mr_set.specs.Subsets.{IsSetOf, IsBefore};
ghost use Rattle.mr_text.specs.Format.{IsLineOf, IsLineFault};
ghost use Rattle.mr_file.specs.File.{set_table};
ghost use Rattle.mr_file.specs.Reading.{Names};
ghost use Rattle.mr_file.specs.Private.Numbers.{AreNumbersFrom, SpellsSet};

use crate::fault::FileFault;
use mr_set::{Set, is_before};
use mr_text::{number, split_once};

fn is_within(e: u32, low: u32, end: u32) -> bool
    ensures { IsTrue result ↔ ((low ≤ e) × (e < end)) }
{
    low <= e && e < end
}

// The set of one element that the word spells.
fn read_last(word: &[u8], low: u32, elements: u32) -> Option<Set>
    requires { elements ≤ ELEMENTS }
    ensures { (x : List ℕ) → (result ≡ Some x) ↔ AreNumbersFrom low elements 1 word.now x }
{
    match number(word) {
        None => None,
        Some(e) => {
            if is_within(e, low, elements) {
                Some(Set::empty().with(e))
            } else {
                None
            }
        }
    }
}

// The set of `count` elements from `low` on that the line spells.
fn read_elements(line: &[u8], low: u32, elements: u32, count: u32) -> Option<Set>
    requires some { 0 < count }
    requires limit { elements ≤ ELEMENTS }
    ensures { (x : List ℕ) → (result ≡ Some x) ↔ AreNumbersFrom low elements count line.now x }
{
    if count == 1 {
        return read_last(line, low, elements);
    }
    match split_once(line, b' ') {
        None => None,
        Some((word, rest)) => match number(word) {
            None => None,
            Some(e) => {
                if is_within(e, low, elements) {
                    match read_elements(rest, e + 1, elements, count - 1) {
                        None => None,
                        Some(others) => Some(others.with(e)),
                    }
                } else {
                    None
                }
            }
        },
    }
}

// The set of `rank` elements below `elements` that the line spells.
fn read_set(line: &[u8], elements: u32, rank: u32) -> Option<Set>
    requires { elements ≤ ELEMENTS }
    ensures { (x : List ℕ) → (result ≡ Some x) ↔ SpellsSet elements rank line.now x }
{
    if rank > 0 {
        return read_elements(line, 0, elements, rank);
    }
    if line == b"-".as_slice() {
        Some(Set::empty())
    } else {
        None
    }
}

// Whether the set stands after the last one, if there was one.
fn is_after(last: Option<Set>, set: Set) -> bool
    ensures { IsTrue result ↔ IfSome last (λ y. IsBefore y set) }
{
    match last {
        None => true,
        Some(y) => is_before(y, set),
    }
}

/// The set on the first line, which stands after the last one, and what follows the line.
pub fn set_line<'a>(
    bytes: &'a [u8],
    line_number: u32,
    elements: u32,
    rank: u32,
    last: Option<Set>,
) -> Result<(Set, &'a [u8]), FileFault>
    requires { elements ≤ ELEMENTS }
    ensures { MatchResult result (λ x. IsLineOf (set_table elements rank last) bytes.now x.0 x.1.now) (Names (IsLineFault (set_table elements rank last) line_number bytes.now)) }
{
    match split_once(bytes, b'\n') {
        None => Err(FileFault::Grammar { line: line_number }),
        Some((line, rest)) => match read_set(line, elements, rank) {
            None => Err(FileFault::Grammar { line: line_number }),
            Some(set) => {
                if is_after(last, set) {
                    Ok((set, rest))
                } else {
                    Err(FileFault::Grammar { line: line_number })
                }
            }
        },
    }
}
