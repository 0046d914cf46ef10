ghost use Rattle.std.specs.Prelude.{◌<◌, ◌≤◌, ℕ, List, MatchOption};
ghost use Rattle.mr_matrix.specs.Private.Numbers.{AreNumbers};

use arrayvec::ArrayVec;
use mr_set::ELEMENTS;
use mr_text::{number, split_once};

/// The most numbers that a line has.
pub const ROOM: usize = ELEMENTS as usize;

/// The numbers that the line has, with single spaces between them.
pub fn numbers(line: &[u8], count: usize) -> Option<ArrayVec<u32, ROOM>>
    requires some { 0 < count }
    requires room { count ≤ ELEMENTS }
    ensures { MatchOption result ((xs : List ℕ) → AreNumbers count line.now xs → ⊥) (λ list. AreNumbers count line.now list.items) }
{
    let mut list: ArrayVec<u32, ROOM> = ArrayVec::new();
    let mut rest = line;
    for _k in 1..count {
        match split_once(rest, b' ') {
            None => return None,
            Some((word, others)) => match number(word) {
                None => return None,
                Some(v) => {
                    list.push(v);
                    rest = others;
                }
            },
        }
    }
    match number(rest) {
        None => None,
        Some(v) => {
            list.push(v);
            Some(list)
        }
    }
}
