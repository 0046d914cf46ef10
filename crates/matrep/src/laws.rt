//! The laws of the program's words and ends, each the contract of a function whose answer nobody needs.

ghost use Rattle.matrep.specs.Words.{texts};
ghost use Rattle.matrep.specs.Laws.{SaysOrOffends, OneCommand, NoOffence, OneOffence, OneEndIsDue};

use crate::words::read_words;

/// Words say a command, or one of their places is the first that offends.
pub fn words_say_something(words: &[String])
    ensures { SaysOrOffends (texts words.now) }
{
    let _read = read_words(words);
}

/// Words say one command at most, one place at most is the first that offends, and never both.
pub fn words_say_one_thing()
    ensures command { OneCommand }
    ensures none { NoOffence }
    ensures place { OneOffence }
{}

/// For given words and a known input one exit and one text are due, unless a search was stopped, and but for a log.
pub fn one_end_is_due()
    ensures { OneEndIsDue }
{}
