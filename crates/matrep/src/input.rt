ghost use Rattle.std.specs.Prelude.{◌≡◌, IfOk, MatchOption};
ghost use Rattle.mr_file.specs.File.{file_text};
ghost use Rattle.matrep.specs.Result.{IsFileFault, Refuses};

use crate::outcome::{Exit, Fault, Outcome};
use crate::refusal::refused;
use mr_file::{FileFault, write_matroid};
use mr_matroid::Matroid;
use mr_text::Text;
use std::alloc::{AllocError, Global};

/// The outcome of an input that is refused as a file is.
pub fn refused_file(alloc: Global, fault: FileFault) -> Result<Outcome, AllocError>
    ensures { IfOk result (λ o. Refuses (IsFileFault (λ e. e ≡ fault)) o.exit o.text) }
{
    match fault_of(fault) {
        Some(fault) => refused(alloc, fault),
        None => Err(AllocError),
    }
}

// The same refusal of the input, but for want of memory.
fn fault_of(fault: FileFault) -> Option<Fault>
    ensures { MatchOption result (fault ≡ FileFault.Memory) (IsFileFault (λ e. e ≡ fault)) }
{
    match fault {
        FileFault::Grammar { line } => Some(Fault::Grammar { line }),
        FileFault::Size { line, what } => Some(Fault::Size { line, what }),
        FileFault::NoBasis => Some(Fault::NoBasis),
        FileFault::Exchange { b1, b2, x } => Some(Fault::Exchange { b1, b2, x }),
        FileFault::Memory => None,
    }
}

/// The outcome with the file of a matroid.
pub fn file_of(alloc: Global, m: &Matroid) -> Result<Outcome, AllocError>
    ensures exit { IfOk result (λ o. o.exit ≡ Exit.Done) }
    ensures text { IfOk result (λ o. o.text ≡ file_text m.now) }
{
    let mut text = Text::new(alloc);
    write_matroid(m, &mut text)?;
    Ok(Outcome {
        exit: Exit::Done,
        text,
    })
}
