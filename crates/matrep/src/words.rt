ghost use Rattle.std.specs.Prelude.{◌<◌, IfOk, IfErr, MatchResult};
ghost use Rattle.matrep.specs.Words.{Says, IsFirstOffence, IsBuilt, texts};

use crate::meaning::read_operands;
use crate::names::name_of;

/// A command with its operands.
#[derive(Clone, Copy, Debug, PartialEq, Eq)]
pub enum Command {
    Solve {
        q: u8,
        workers: u32,
        nodes: u32,
        split: u32,
        orbits: bool,
    },
    Check {
        q: u8,
    },
    Confirm {
        q: u8,
    },
    MatroidOf {
        q: u8,
    },
    Dual,
    Minor {
        delete: u64,
        contract: u64,
    },
    Plane {
        q: u8,
    },
}

/// The first place, from 0, at which a word offends.
#[derive(Clone, Copy, Debug, PartialEq, Eq)]
pub struct BadWord {
    pub word: u32,
}

/// The command that the words say: a command's name, and its operands in any order; or the first place that offends, which is 0
/// for no words and for another name, and the number of words where a key that is needed isn't given. It takes no memory.
pub fn read_words(words: &[String]) -> Result<Command, BadWord>
    ensures says { MatchResult result (Says (texts words.now)) (λ e. IsFirstOffence (texts words.now) e.word) }
    ensures built { IfOk result IsBuilt }
    ensures digit { IfErr result (λ e. e.word < 10) }
{
    match words {
        [] => Err(BadWord { word: 0 }),
        [first, operands @ ..] => match name_of(first) {
            None => Err(BadWord { word: 0 }),
            Some(name) => match read_operands(name, operands) {
                Ok(command) => Ok(command),
                Err(place) => Err(BadWord { word: place + 1 }),
            },
        },
    }
}
