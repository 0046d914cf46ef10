ghost use Rattle.std.specs.Prelude.{◌≤◌, length, IfOk};
ghost use Rattle.matrep.specs.Result.{OfFile};
ghost use Rattle.matrep.specs.Answering.{WritesDual, WritesMinor};

use crate::input::{file_of, refused_file};
use crate::outcome::{Fault, Outcome};
use crate::refusal::refused;
use mr_file::{FILE_BYTES, read_matroid};
use mr_matroid::Matroid;
use mr_minor::{MinorFault, dual, minor};
use std::alloc::{AllocError, Global};

/// The exit and the text for the dual of the matroid of a file: the file of the dual, or the first fault of the bytes. At most
/// `FILE_BYTES` bytes. Refused for want of memory alone.
pub fn dual_bytes(alloc: Global, bytes: &[u8]) -> Result<Outcome, AllocError>
    requires { length bytes.now ≤ FILE_BYTES }
    ensures { IfOk result (λ o. OfFile bytes.now WritesDual o.exit o.text) }
{
    match read_matroid(alloc, bytes) {
        Ok(m) => dual_of(alloc, &m),
        Err(fault) => refused_file(alloc, fault),
    }
}

// The outcome with the file of the dual.
fn dual_of(alloc: Global, m: &Matroid) -> Result<Outcome, AllocError>
    ensures { IfOk result (λ o. WritesDual m.now o.exit o.text) }
{
    let dual = dual(alloc, m)?;
    file_of(alloc, &dual)
}

/// The exit and the text for the minor of the matroid of a file, by the masks of the elements to delete and to contract: the file of
/// the minor, the least number of the masks that is no element, or the first fault of the bytes. An element of both is contracted.
/// At most `FILE_BYTES` bytes. Refused for want of memory alone.
pub fn minor_bytes(
    alloc: Global,
    bytes: &[u8],
    delete: u64,
    contract: u64,
) -> Result<Outcome, AllocError>
    requires { length bytes.now ≤ FILE_BYTES }
    ensures { IfOk result (λ o. OfFile bytes.now (WritesMinor delete contract) o.exit o.text) }
{
    match read_matroid(alloc, bytes) {
        Ok(m) => minor_of(alloc, &m, delete, contract),
        Err(fault) => refused_file(alloc, fault),
    }
}

// The outcome with the file of the minor, or with the least number that is no element.
fn minor_of(alloc: Global, m: &Matroid, delete: u64, contract: u64) -> Result<Outcome, AllocError>
    ensures { IfOk result (λ o. WritesMinor delete contract m.now o.exit o.text) }
{
    match minor(alloc, m, delete, contract) {
        Ok(minor) => file_of(alloc, &minor),
        Err(MinorFault::Stranger { e }) => refused(alloc, Fault::Stranger { e }),
        Err(MinorFault::Memory) => Err(AllocError),
    }
}
