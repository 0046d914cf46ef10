ghost use Rattle.std.specs.Prelude.{◌≡◌, ◌+◌, ◌<◌, ◌^◌, IfOk, IfErr, MatchResult, length};
ghost use Rattle.mr_field.specs.Gf.{order};
ghost use Rattle.mr_linear.specs.Representation.{HasNoRepresentation};
ghost use Rattle.mr_log.specs.Log.{IsLogOf};
ghost use Rattle.mr_log.specs.declared.log.Log.{Log as LogValue};
ghost use Rattle.mr_check.specs.Accepted.{IsAcceptedLog, IsRejected};
ghost use Rattle.mr_check.specs.Private.Judging.{as_check_fault};

use crate::judge::judge;
use mr_field::Field;
use mr_log::{LogFault, Why, read_log};
use std::alloc::{AllocError, Global};
use thiserror::Error;

/// How many steps an accepted log has.
#[derive(Clone, Copy, Debug, PartialEq, Eq)]
pub struct Accepted {
    pub steps: u32,
}

/// Why a text is no accepted log.
#[derive(Clone, Copy, Debug, PartialEq, Eq, Error)]
pub enum CheckFault {
    #[error("the log is rejected")]
    Rejected { line: u32, why: Why },
    #[error("out of memory")]
    Memory,
}

impl From<AllocError> for CheckFault {
    ghost use Rattle.mr_check.specs.declared.checker.CheckFault.TheVariants.{Memory};

    ghost from_gives = { λ _ fault. fault ≡ Memory };

    fn from(_: AllocError) -> CheckFault {
        CheckFault::Memory
    }
}

/// Whether the bytes are an accepted log over the field.
pub fn check(alloc: Global, bytes: &[u8], field: Field) -> Result<Accepted, CheckFault>
    requires { length bytes.now + 1 < 2 ^ 32 }

    // What is accepted is an accepted log, and an accepted log is accepted, unless memory runs out.
    ensures ok { IfOk result (λ a. (l : LogValue) × IsAcceptedLog field bytes.now l × (a.steps ≡ length l.steps)) }
    ensures only { (l : LogValue) → IsAcceptedLog field bytes.now l → MatchResult result (λ a. a.steps ≡ length l.steps) (λ e. e ≡ CheckFault.Memory) }

    // Then no matrix over the field represents the log's matroid.
    ensures refutes { IfOk result (λ _. (l : LogValue) → IsLogOf (order field) bytes.now l → HasNoRepresentation l.matroid field) }

    // A rejection names the first fault.
    ensures rejected { IfErr result (IsRejected field bytes.now) }
{
    checked(alloc, bytes, field)
}

// The verdict on the bytes: that of reading, or else that on the log.
fn checked(alloc: Global, bytes: &[u8], field: Field) -> Result<Accepted, CheckFault>
    requires { length bytes.now + 1 < 2 ^ 32 }
    ensures ok { IfOk result (λ a. (l : LogValue) × IsAcceptedLog field bytes.now l × (a.steps ≡ length l.steps)) }
    ensures rejected { IfErr result (IsRejected field bytes.now) }
{
    match read_log(alloc, bytes, field) {
        Err(fault) => Err(fault_of(fault)),
        Ok(log) => judge(alloc, log, field),
    }
}

// The refusal of a text that is no log, as a rejection.
fn fault_of(fault: LogFault) -> CheckFault
    ensures { result ≡ as_check_fault fault }
{
    match fault {
        LogFault::Bad { line, why } => CheckFault::Rejected { line, why },
        LogFault::Memory => CheckFault::Memory,
    }
}
