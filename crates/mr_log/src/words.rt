ghost use Rattle.std.specs.Prelude.{◌≡◌, ◌≢◌, ◌↔◌, List, ℕ, [], ◌∷◌, IsTrue, MatchOption};
ghost use Rattle.std.specs.Bool.{OnTrue, OnFalse};
ghost use Rattle.mr_log.specs.Words.{words_of};

use mr_text::split_once;
use std::marker::Model;

/// The words of a line that are left, which are its parts between single spaces. Contracts see the list of them.
#[derive(Drop)]
pub struct WordsLeft<'a> {
    rest: Option<&'a [u8]>,
}

impl<'a> Model for WordsLeft<'a> {
    ghost use Rattle.std.specs.Prelude.{List, ℕ};
    ghost use Rattle.std.specs.Option.{option_copied};
    ghost use Rattle.mr_log.specs.Words.{words_left};

    ghost Value = { List (List ℕ) };

    ghost view = { λ w. words_left (option_copied w.rest) };
}

impl<'a> WordsLeft<'a> {
    pub fn of(line: &'a [u8]) -> WordsLeft<'a>
        ensures { result ≡ words_of line.now }
    {
        WordsLeft { rest: Some(line) }
    }

    pub fn next(&mut self) -> Option<&'a [u8]>
        ensures { MatchOption result (self.old ≡ []) (λ word. self.old ≡ word.now ∷ self.new) }
    {
        match self.rest {
            None => None,
            Some(line) => match split_once(line, b' ') {
                None => {
                    self.rest = None;
                    Some(line)
                }
                Some((word, after)) => {
                    self.rest = Some(after);
                    Some(word)
                }
            },
        }
    }

    /// Takes the next word, and says whether it is this one.
    pub fn next_is(&mut self, text: &[u8]) -> bool
        ensures yes { OnTrue result (self.old ≡ text.now ∷ self.new) }
        ensures no { OnFalse result ((rest : List (List ℕ)) → self.old ≢ text.now ∷ rest) }
    {
        match self.next() {
            None => false,
            Some(word) => word == text,
        }
    }

    pub fn is_done(&self) -> bool
        ensures { IsTrue result ↔ (self.now ≡ []) }
    {
        self.rest.is_none()
    }
}
