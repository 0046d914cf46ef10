ghost use Rattle.std.specs.Prelude.{◌≡◌, ◌++◌, ◌≤◌, decimal, length, IfOk, OnOk};
ghost use Rattle.mr_field.specs.Order.{IsOrder};
ghost use Rattle.matrep.specs.Texts.{accepted_text, rejected_text, why_word};
ghost use Rattle.mr_field.specs.Gf.{Gf, order};
ghost use Rattle.matrep.specs.Answering.{Checks};

use crate::LOG_BYTES;
use crate::field::field_with;
use crate::outcome::{Exit, Outcome};
use mr_check::{CheckFault, check};
use mr_log::Why;
use mr_text::Text;
use std::alloc::{AllocError, Global};

/// The exit and the text for the bytes of a log over the field with `q` elements, which is 2, 3, 4, 5, 7, 8 or 9: done where the
/// log is accepted, else negative, with the first fault. At most `LOG_BYTES` bytes. Refused for want of memory alone.
pub fn check_bytes(alloc: Global, bytes: &[u8], q: u8) -> Result<Outcome, AllocError>
    requires field { IsOrder q }
    requires limit { length bytes.now ≤ LOG_BYTES }
    ensures { IfOk result (λ o. (f : Gf) × (order f ≡ q) × Checks f bytes.now o.exit o.text) }
{
    let field = field_with(q);
    match check(alloc, bytes, field) {
        Ok(_) => accepted(alloc),
        Err(CheckFault::Rejected { line, why }) => rejected(alloc, line, why),
        Err(CheckFault::Memory) => Err(AllocError),
    }
}

// The outcome for an accepted log.
fn accepted(alloc: Global) -> Result<Outcome, AllocError>
    ensures exit { IfOk result (λ o. o.exit ≡ Exit.Done) }
    ensures text { IfOk result (λ o. o.text ≡ accepted_text) }
{
    let mut text = Text::new(alloc);
    text.put(b"accepted\n")?;
    Ok(Outcome {
        exit: Exit::Done,
        text,
    })
}

// The outcome for a log with a fault in a line.
fn rejected(alloc: Global, line: u32, why: Why) -> Result<Outcome, AllocError>
    ensures exit { IfOk result (λ o. o.exit ≡ Exit.Negative) }
    ensures text { IfOk result (λ o. o.text ≡ rejected_text line why) }
{
    let mut text = Text::new(alloc);
    text.put(b"rejected line ")?;
    text.put_number(line)?;
    text.put(b" ")?;
    text.put(word_of(why))?;
    text.put(b"\n")?;
    Ok(Outcome {
        exit: Exit::Negative,
        text,
    })
}

// The word for what is wrong with a line.
fn word_of(why: Why) -> &'static [u8]
    ensures { result.now ≡ why_word why }
{
    match why {
        Why::Grammar => b"grammar",
        Why::Size => b"size",
        Why::Basis => b"basis",
        Why::Exchange => b"exchange",
        Why::Step => b"step",
        Why::End => b"end",
    }
}
