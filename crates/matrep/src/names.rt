ghost use Rattle.std.specs.Prelude.{◌≢◌, ◌≡◌, ◌↔◌, ◌++◌, List, ℕ, IsTrue, MatchOption, codes, string_bytes};
ghost use Rattle.matrep.specs.declared.names.Name.{Name as NameValue};
ghost use Rattle.matrep.specs.declared.names.Key.{Key as KeyValue};
ghost use Rattle.matrep.specs.Words.{name_text, key_text, TakesKey};

use mr_text::split_once;

/// The commands by their names.
#[derive(Clone, Copy, Debug, PartialEq, Eq)]
pub enum Name {
    Solve,
    Check,
    Confirm,
    Matroid,
    Dual,
    Minor,
    Plane,
}

/// The keys of their operands.
#[derive(Clone, Copy, Debug, PartialEq, Eq)]
pub enum Key {
    Field,
    Workers,
    Nodes,
    Split,
    Classes,
    Delete,
    Contract,
    Order,
}

/// The command that the word names.
pub fn name_of(word: &String) -> Option<Name>
    ensures { MatchOption result ((name : NameValue) → string_bytes word.now ≢ name_text name) (λ name. string_bytes word.now ≡ name_text name) }
{
    match word.as_bytes() {
        b"solve" => Some(Name::Solve),
        b"check" => Some(Name::Check),
        b"confirm" => Some(Name::Confirm),
        b"matroid" => Some(Name::Matroid),
        b"dual" => Some(Name::Dual),
        b"minor" => Some(Name::Minor),
        b"plane" => Some(Name::Plane),
        _ => None,
    }
}

/// The key that the text names.
pub fn key_of(text: &[u8]) -> Option<Key>
    ensures { MatchOption result ((key : KeyValue) → text.now ≢ key_text key) (λ key. text.now ≡ key_text key) }
{
    match text {
        b"field" => Some(Key::Field),
        b"workers" => Some(Key::Workers),
        b"nodes" => Some(Key::Nodes),
        b"split" => Some(Key::Split),
        b"classes" => Some(Key::Classes),
        b"delete" => Some(Key::Delete),
        b"contract" => Some(Key::Contract),
        b"order" => Some(Key::Order),
        _ => None,
    }
}

/// The key of a word and the text after its `=`.
pub fn cut(word: &[u8]) -> Option<(Key, &[u8])>
    ensures { MatchOption result
        ((key : KeyValue) (value : List ℕ) → word.now ≢ key_text key ++ codes "=" ++ value)
        (λ found. word.now ≡ key_text found.0 ++ codes "=" ++ found.1.now) }
{
    match split_once(word, b'=') {
        None => None,
        Some(parts) => match key_of(parts.0) {
            None => None,
            Some(key) => Some((key, parts.1)),
        },
    }
}

/// Whether the command takes the key.
pub fn takes_key(name: Name, key: Key) -> bool
    ensures { IsTrue result ↔ TakesKey name key }
{
    match name {
        Name::Solve => !matches!(key, Key::Delete | Key::Contract | Key::Order),
        Name::Check | Name::Confirm | Name::Matroid => matches!(key, Key::Field),
        Name::Dual => false,
        Name::Minor => matches!(key, Key::Delete | Key::Contract),
        Name::Plane => matches!(key, Key::Order),
    }
}
