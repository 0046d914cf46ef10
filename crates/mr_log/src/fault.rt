ghost use Rattle.std.specs.Prelude.{◌≡◌};

use std::alloc::AllocError;
use thiserror::Error;

/// What is wrong with a line of a log.
#[derive(Clone, Copy, Debug, PartialEq, Eq)]
pub enum Why {
    Grammar,
    Size,
    Basis,
    Exchange,
    Step,
    End,
}

/// Why a text is no log.
#[derive(Clone, Copy, Debug, PartialEq, Eq, Error)]
pub enum LogFault {
    #[error("the line {line} is at fault")]
    Bad { line: u32, why: Why },
    #[error("out of memory")]
    Memory,
}

impl From<AllocError> for LogFault {
    ghost use Rattle.mr_log.specs.declared.fault.LogFault.TheVariants.{Memory};

    ghost from_gives = { λ _ fault. fault ≡ Memory };

    fn from(_: AllocError) -> LogFault {
        LogFault::Memory
    }
}
