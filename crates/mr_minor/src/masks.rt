ghost use Rattle.std.specs.Prelude.{◌≡◌, ◌<◌, ◌≤◌, ◌↔◌, ℕ, Contains, IsTrue, MatchOption};
ghost use Rattle.mr_set.specs.Elements.{elements_below, union};
ghost use Rattle.mr_minor.specs.Minor.{IsFirstStranger};

use mr_set::{ELEMENTS, Set};

/// The bits of a mask.
pub const BITS: u32 = 64;

// Whether the bit is set.
fn has_bit(mask: u64, e: u32) -> bool
    requires { e < BITS }
    ensures { IsTrue result ↔ Contains (elements_below BITS mask) e }
{
    mask >> e & 1 == 1
}

// Whether the bit is set in one of the masks.
fn is_listed(x: u64, y: u64, e: u32) -> bool
    requires { e < BITS }
    ensures { IsTrue result ↔ Contains (union (elements_below BITS x) (elements_below BITS y)) e }
{
    if has_bit(x, e) {
        return true;
    }
    has_bit(y, e)
}

/// The least bit of the masks from `n` on.
pub fn first_stranger(n: u32, x: u64, y: u64) -> Option<u32>
    ensures { MatchOption result ((e : ℕ) → Contains (union (elements_below BITS x) (elements_below BITS y)) e → e < n) (IsFirstStranger n (union (elements_below BITS x) (elements_below BITS y))) }
{
    for e in n..BITS {
        if is_listed(x, y, e) {
            return Some(e);
        }
    }
    None
}

/// The set whose elements are the bits, which are below `n`.
pub fn set_of_bits(n: u32, mask: u64) -> Set
    requires limit { n ≤ ELEMENTS }
    requires below { (e : ℕ) → Contains (elements_below BITS mask) e → e < n }
    ensures { result ≡ elements_below BITS mask }
{
    let mut x = Set::empty();
    for e in 0..n {
        if has_bit(mask, e) {
            x = x.with(e);
        }
    }
    x
}
