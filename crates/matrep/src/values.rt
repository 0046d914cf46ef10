ghost use Rattle.std.specs.Prelude.{◌≢◌, ◌≡◌, ◌↔◌, ◌≤◌, ◌<◌, ℕ, Bool, IsTrue, List, MatchOption, decimal};
ghost use Rattle.mr_field.specs.Order.{IsOrder};
ghost use Rattle.mr_set.specs.Elements.{elements_below};
ghost use Rattle.mr_minor.specs.declared.masks.TheConstants.{BITS};
ghost use Rattle.mr_text.specs.declared.TheConstants.{NUMBERS};
ghost use Rattle.matrep.specs.Words.{IsListText, IsValue, classes_word};
ghost use Rattle.matrep.specs.Private.Operands.{IsListFrom};

use crate::names::Key;
use crate::{PLANE_ORDER, WORKERS};
use mr_exchange::{NODES, SPLIT};
use mr_field::Field;
use mr_text::{number, split_once};

/// Whether the text is a value of the key.
pub fn is_value(key: Key, text: &[u8]) -> bool
    ensures { IsTrue result ↔ IsValue key text.now }
{
    match key {
        Key::Field => field_in(text).is_some(),
        Key::Workers => number_in(text, 1, WORKERS).is_some(),
        Key::Nodes => number_in(text, 1, NODES).is_some(),
        Key::Split => number_in(text, 0, SPLIT).is_some(),
        Key::Classes => orbits_in(text).is_some(),
        Key::Delete | Key::Contract => elements_in(text).is_some(),
        Key::Order => order_in(text).is_some(),
    }
}

/// The number of elements of a field.
pub fn field_in(text: &[u8]) -> Option<u8>
    ensures { MatchOption result ((q : ℕ) → IsOrder q → text.now ≢ decimal q) (λ q. IsOrder q × (text.now ≡ decimal q)) }
{
    match number(text) {
        None => None,
        Some(q) => {
            if Field::of(q).is_some() {
                Some(q as u8)
            } else {
                None
            }
        }
    }
}

/// The order of a plane.
pub fn order_in(text: &[u8]) -> Option<u8>
    ensures { MatchOption result ((q : ℕ) → IsOrder q → q ≤ PLANE_ORDER → text.now ≢ decimal q) (λ q. IsOrder q × (q ≤ PLANE_ORDER) × (text.now ≡ decimal q)) }
{
    match field_in(text) {
        None => None,
        Some(q) => { if q <= PLANE_ORDER { Some(q) } else { None } }
    }
}

/// A number within these bounds.
pub fn number_in(text: &[u8], least: u32, most: u32) -> Option<u32>
    requires { most < NUMBERS }
    ensures { MatchOption result ((k : ℕ) → least ≤ k → k ≤ most → text.now ≢ decimal k) (λ k. (least ≤ k) × (k ≤ most) × (text.now ≡ decimal k)) }
{
    match number(text) {
        None => None,
        Some(k) => {
            if k < least {
                return None;
            }
            if k > most {
                return None;
            }
            Some(k)
        }
    }
}

/// Whether the text asks for orbits.
pub fn orbits_in(text: &[u8]) -> Option<bool>
    ensures { MatchOption result ((orbits : Bool) → text.now ≢ classes_word orbits) (λ orbits. text.now ≡ classes_word orbits) }
{
    match text {
        b"auto" => Some(true),
        b"projective" => Some(false),
        _ => None,
    }
}

/// The mask of the numbers of a list.
pub fn elements_in(text: &[u8]) -> Option<u64>
    ensures { MatchOption result ((xs : List ℕ) → ¬ (IsListText text.now xs)) (λ mask. IsListText text.now (elements_below BITS mask)) }
{
    elements_from(text, 0)
}

// The mask of the numbers of a list from `low` on.
fn elements_from(text: &[u8], low: u32) -> Option<u64>
    ensures { MatchOption result ((xs : List ℕ) → ¬ (IsListFrom low text.now xs)) (λ mask. IsListFrom low text.now (elements_below BITS mask)) }
{
    match split_once(text, b',') {
        None => match element_in(text, low) {
            None => None,
            Some(e) => Some(1 << e),
        },
        Some(parts) => match element_in(parts.0, low) {
            None => None,
            Some(e) => match elements_from(parts.1, e + 1) {
                None => None,
                Some(others) => Some(others | 1 << e),
            },
        },
    }
}

// A bit from `low` on.
fn element_in(text: &[u8], low: u32) -> Option<u32>
    ensures { MatchOption result ((e : ℕ) → low ≤ e → e < BITS → text.now ≢ decimal e) (λ e. (low ≤ e) × (e < BITS) × (text.now ≡ decimal e)) }
{
    number_in(text, low, u64::BITS - 1)
}
