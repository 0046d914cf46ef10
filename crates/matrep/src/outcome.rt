ghost use Rattle.std.specs.Prelude.{◌≡◌};
ghost use Rattle.matrep.specs.Status.{status_of};

use mr_file::Measure;
use mr_set::Set;
use mr_text::Text;

/// Why the input was refused.
#[derive(Clone, Copy, Debug)]
pub enum Fault {
    TooLong,
    Grammar { line: u32 },
    Size { line: u32, what: Measure },
    NoBasis,
    Exchange { b1: Set, b2: Set, x: u32 },
    Stranger { e: u32 },
    RankShort { rank: u32 },
}

/// How a run ended.
#[derive(Clone, Copy, Debug)]
pub enum Exit {
    Done,
    Negative,
    Refused(Fault),
    Usage { word: u32 },
    Stopped { opened: u32 },
    Memory,
    ReadFault,
    WriteFault,
}

impl Exit {
    /// The program's status.
    pub fn status(&self) -> u8
        ensures { result ≡ status_of self.now }
    {
        match self {
            Exit::Done => 0,
            Exit::Negative => 1,
            Exit::Refused(_) => 2,
            Exit::Usage { .. } => 3,
            Exit::Stopped { .. } => 4,
            Exit::Memory => 5,
            Exit::ReadFault => 6,
            Exit::WriteFault => 7,
        }
    }
}

/// The exit of a command, and the text that goes with it.
#[derive(Drop)]
pub struct Outcome {
    pub exit: Exit,
    pub text: Text,
}
