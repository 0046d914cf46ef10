ghost use Rattle.std.specs.Prelude.{◌≡◌, ◌≢◌, ◌<◌, ◌↔◌, ◌++◌, ℕ, List, IsTrue, MatchOption, codes, length, take, slice_index_or, []};
ghost use Rattle.matrep.specs.Words.{texts, key_text, TakesKey, IsValue, Gives, HasKey, IsOperand, AreOperands};
ghost use Rattle.matrep.specs.Private.Operands.{AreRight, IsApart, HasNumber, ShareNone};

use crate::names::{Key, Name, cut, takes_key};
use crate::values::{elements_in, is_value};

/// The first place at which no operand of the command stands. There are eight operands at most.
pub fn first_other(name: Name, operands: &[String]) -> Option<u32>
    ensures { MatchOption result
        (AreOperands name (texts operands.now) (length (texts operands.now)) × (length (texts operands.now) < 9))
        (λ k. (k < length operands.now) × (k < 9) × AreOperands name (texts operands.now) k × ¬ (IsOperand name (take k (texts operands.now)) (slice_index_or (texts operands.now) k []))) }
{
    for place in 0..operands.len() {
        if !is_operand(name, &operands[..place], operands[place].as_bytes()) {
            return Some(place as u32);
        }
    }
    None
}

// Whether the word is an operand of the command after the words before it.
fn is_operand(name: Name, before: &[String], word: &[u8]) -> bool
    requires { AreOperands name (texts before.now) (length (texts before.now)) }
    ensures { IsTrue result ↔ IsOperand name (texts before.now) word.now }
{
    match cut(word) {
        None => false,
        Some(found) => is_new(name, before, found.0, found.1),
    }
}

// Whether the command takes the key, which isn't given yet, with this value.
fn is_new(name: Name, before: &[String], key: Key, value: &[u8]) -> bool
    requires { AreOperands name (texts before.now) (length (texts before.now)) }
    ensures { IsTrue result ↔ (TakesKey name key × IsValue key value.now × ¬ (HasKey (texts before.now) key) × IsApart (texts before.now) key value.now) }
{
    if !takes_key(name, key) {
        return false;
    }
    if !is_value(key, value) {
        return false;
    }
    if value_of(before, key).is_some() {
        return false;
    }
    is_apart(before, key, value)
}

// Whether the value of a key that isn't given yet lists no number that the words list.
fn is_apart(before: &[String], key: Key, value: &[u8]) -> bool
    requires right { AreRight (texts before.now) }
    requires new { ¬ (HasKey (texts before.now) key) }
    ensures { IsTrue result ↔ IsApart (texts before.now) key value.now }
{
    match key {
        Key::Delete => is_apart_from(before, Key::Contract, value),
        Key::Contract => is_apart_from(before, Key::Delete, value),
        Key::Field | Key::Workers | Key::Nodes | Key::Split | Key::Classes | Key::Order => true,
    }
}

// Whether the list shares no number with the one that is given to the other key.
fn is_apart_from(before: &[String], other: Key, list: &[u8]) -> bool
    requires { AreRight (texts before.now) }
    ensures { IsTrue result ↔ ((text : List ℕ) → Gives (texts before.now) other text → ShareNone text list.now) }
{
    match value_of(before, other) {
        None => true,
        Some(text) => share_none(text, list),
    }
}

// Whether two lists share no number.
fn share_none(x: &[u8], y: &[u8]) -> bool
    ensures { IsTrue result ↔ ShareNone x.now y.now }
{
    match elements_in(x) {
        None => true,
        Some(first) => match elements_in(y) {
            None => true,
            Some(second) => first & second == 0,
        },
    }
}

/// The value that the first of the words with this key gives it.
pub fn value_of(words: &[String], key: Key) -> Option<&[u8]>
    ensures { MatchOption result (¬ (HasKey (texts words.now) key)) (λ value. Gives (texts words.now) key value.now) }
{
    for word in words {
        if let Some(value) = after_key(word.as_bytes(), key) {
            return Some(value);
        }
    }
    None
}

// The text after the key and `=`.
fn after_key(word: &[u8], key: Key) -> Option<&[u8]>
    ensures { MatchOption result ((value : List ℕ) → word.now ≢ key_text key ++ codes "=" ++ value) (λ value. word.now ≡ key_text key ++ codes "=" ++ value.now) }
{
    word.strip_prefix(prefix_of(key))
}

// The key and `=`.
fn prefix_of(key: Key) -> &'static [u8]
    ensures { result.now ≡ key_text key ++ codes "=" }
{
    match key {
        Key::Field => b"field=",
        Key::Workers => b"workers=",
        Key::Nodes => b"nodes=",
        Key::Split => b"split=",
        Key::Classes => b"classes=",
        Key::Delete => b"delete=",
        Key::Contract => b"contract=",
        Key::Order => b"order=",
    }
}
