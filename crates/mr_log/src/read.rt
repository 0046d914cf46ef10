ghost use Rattle.std.specs.Prelude.{◌≡◌, ◌+◌, ◌<◌, ◌≤◌, ◌^◌, [], ℕ, length, MatchResult, IfOk, IfErr};
ghost use Rattle.mr_field.specs.Gf.{order};
ghost use Rattle.mr_field.specs.Order.{IsOrder};
ghost use Rattle.mr_set.specs.declared.TheConstants.{ELEMENTS};
ghost use Rattle.mr_set.specs.Matroid.{IsMatroid, IsPresentation};
ghost use Rattle.mr_matroid.specs.Exchange.{IsWithinLimits};
ghost use Rattle.mr_text.specs.Format.{IsLineOf, IsLineFault, StandsFor, IsFirstFault, IsTextOf, IsFirstFaultOf};
ghost use Rattle.mr_text.specs.Tables.{fixed};
ghost use Rattle.mr_file.specs.Reading.{listing};
ghost use Rattle.mr_file.specs.declared.fault.Measure.{Measure};
ghost use Rattle.mr_log.specs.Log.{log_format, IsLogOf};
ghost use Rattle.mr_log.specs.Reading.{IsLogRefusal};
ghost use Rattle.mr_log.specs.Private.Stages.{NamesBad, field_text, found_log, from_field, from_file, from_count, from_steps, log_fault};
ghost use Rattle.mr_log.specs.declared.log.Log.{Log};
ghost use Rattle.mr_log.specs.declared.fault.LogFault.{LogFault};

use crate::STEPS;
use crate::fault::{LogFault, Why};
use crate::log::Log;
use crate::step::{end_line, step_line};
use mr_field::Field;
use mr_file::{FileFault, Listed, fixed_line, keyed_line, matroid_of, read_file};
use mr_nogood::{Cite, RowList};
use std::alloc::Global;

/// The parts of a log as they were read.
#[derive(Drop)]
pub struct Found {
    pub listed: Listed,
    pub steps: RowList,
    pub last: Cite,
}

/// The log that the bytes are, or why they are none.
pub fn read_log(alloc: Global, bytes: &[u8], field: Field) -> Result<Log, LogFault>
    requires { length bytes.now + 1 < 2 ^ 32 }

    // What is read is the log with these bytes, and the bytes of a log are read, unless memory runs out.
    ensures ok { IfOk result (IsLogOf (order field) bytes.now) }
    ensures only { (l : Log) → IsLogOf (order field) bytes.now l → MatchResult result (λ x. x ≡ l) (λ e. e ≡ LogFault.Memory) }

    // A refusal names the first fault, or else the line that ends the file of what is no matroid.
    ensures refusal { IfErr result (IsLogRefusal (order field) bytes.now) }
{
    read_whole(alloc, bytes, field.order())
}

// The log that the lines of the text stand for.
fn read_whole(alloc: Global, bytes: &[u8], q: u8) -> Result<Log, LogFault>
    requires numbers { length bytes.now + 1 < 2 ^ 32 }
    requires field { IsOrder q }
    ensures ok { IfOk result (λ l. IsTextOf (log_format q) bytes.now l × IsMatroid l.matroid) }
    ensures refusal { IfErr result (IsLogRefusal q bytes.now) }
{
    let found = read_lines(alloc, bytes, q)?;
    let file_end = 7 + found.listed.nonbases.len() as u32;
    match matroid_of(alloc, &found.listed) {
        Err(e) => Err(fault_at(e, file_end)),
        Ok(matroid) => Ok(Log {
            matroid,
            q,
            steps: found.steps,
            last: found.last,
        }),
    }
}

// The parts of the whole text.
fn read_lines(alloc: Global, bytes: &[u8], q: u8) -> Result<Found, LogFault>
    requires numbers { length bytes.now + 1 < 2 ^ 32 }
    requires field { IsOrder q }
    ensures { MatchResult result (λ x. IsTextOf (log_format q) bytes.now (found_log q x)) (NamesBad (IsFirstFaultOf (log_format q) bytes.now)) }
{
    let (found, rest, line) = read_title(alloc, bytes, q)?;
    if rest.is_empty() {
        return Ok(found);
    }
    Err(LogFault::Bad {
        line,
        why: Why::Grammar,
    })
}

// From the first line on.
fn read_title<'a>(alloc: Global, bytes: &'a [u8], q: u8) -> Result<(Found, &'a [u8], u32), LogFault>
    requires numbers { length bytes.now + 1 < 2 ^ 32 }
    requires field { IsOrder q }
    ensures { MatchResult result (λ x. StandsFor (log_format q) 1 bytes.now (found_log q x.0) x.1.now x.2) (NamesBad (IsFirstFault (log_format q) 1 bytes.now)) }
{
    match fixed_line(bytes, 1, b"refutation 1") {
        Err(e) => Err(fault_at(e, 1)),
        Ok(rest) => read_field(alloc, rest, 2, q),
    }
}

// From the line of the field on.
fn read_field<'a>(
    alloc: Global,
    bytes: &'a [u8],
    line_number: u32,
    q: u8,
) -> Result<(Found, &'a [u8], u32), LogFault>
    requires numbers { line_number + length bytes.now < 2 ^ 32 }
    requires field { IsOrder q }
    ensures { MatchResult result (λ x. StandsFor (from_field q) line_number bytes.now (found_log q x.0) x.1.now x.2) (NamesBad (IsFirstFault (from_field q) line_number bytes.now)) }
{
    let rest = field_line(bytes, line_number, q)?;
    read_parts(alloc, rest, line_number + 1, q)
}

// What follows the first line, which names the field with `q` elements.
fn field_line<'a>(bytes: &'a [u8], line_number: u32, q: u8) -> Result<&'a [u8], LogFault>
    ensures { MatchResult result (λ rest. IsLineOf (fixed {M = Measure} (field_text q)) bytes.now tt rest.now) (NamesBad (IsLineFault (fixed {M = Measure} (field_text q)) line_number bytes.now)) }
{
    match keyed_line(bytes, line_number, b"field ") {
        Err(e) => Err(fault_at(e, line_number)),
        Ok(found) => {
            if found.0 == u32::from(q) {
                Ok(found.1)
            } else {
                Err(LogFault::Bad {
                    line: line_number,
                    why: Why::Grammar,
                })
            }
        }
    }
}

// From the file of the matroid on.
fn read_parts<'a>(
    alloc: Global,
    bytes: &'a [u8],
    line_number: u32,
    q: u8,
) -> Result<(Found, &'a [u8], u32), LogFault>
    requires numbers { line_number + length bytes.now < 2 ^ 32 }
    requires field { IsOrder q }
    ensures { MatchResult result (λ x. StandsFor (from_file q) line_number bytes.now (found_log q x.0) x.1.now x.2) (NamesBad (IsFirstFault (from_file q) line_number bytes.now)) }
{
    match read_file(alloc, bytes, line_number) {
        Err(e) => Err(fault_at(e, line_number)),
        Ok(found) => read_count(alloc, found.1, found.2, q, found.0),
    }
}

// From the line with the number of steps on.
fn read_count<'a>(
    alloc: Global,
    bytes: &'a [u8],
    line_number: u32,
    q: u8,
    listed: Listed,
) -> Result<(Found, &'a [u8], u32), LogFault>
    requires numbers { line_number + length bytes.now < 2 ^ 32 }
    requires field { IsOrder q }
    requires elements { listed.elements ≤ ELEMENTS }
    ensures { MatchResult result (λ x. StandsFor (from_count q (listing listed)) line_number bytes.now (found_log q x.0) x.1.now x.2) (NamesBad (IsFirstFault (from_count q (listing listed)) line_number bytes.now)) }
{
    match keyed_line(bytes, line_number, b"steps ") {
        Err(e) => Err(fault_at(e, line_number)),
        Ok(found) => {
            if found.0 > STEPS {
                return Err(LogFault::Bad {
                    line: line_number,
                    why: Why::Size,
                });
            }
            read_steps(alloc, found.1, line_number + 1, q, listed, found.0)
        }
    }
}

// From the first step on.
fn read_steps<'a>(
    alloc: Global,
    bytes: &'a [u8],
    line_number: u32,
    q: u8,
    listed: Listed,
    count: u32,
) -> Result<(Found, &'a [u8], u32), LogFault>
    requires numbers { line_number + length bytes.now < 2 ^ 32 }
    requires field { IsOrder q }
    requires elements { listed.elements ≤ ELEMENTS }
    ensures { MatchResult result (λ x. StandsFor (from_steps q (listing listed) count []) line_number bytes.now (found_log q x.0) x.1.now x.2) (NamesBad (IsFirstFault (from_steps q (listing listed) count []) line_number bytes.now)) }
{
    let mut steps = RowList::new(alloc);
    let mut rest = bytes;
    let mut at = line_number;
    for number in 0..count {
        match step_line(rest, at, &listed, q, number) {
            Err(e) => return Err(e),
            Ok(found) => {
                steps.push(found.0)?;
                rest = found.1;
                at += 1;
            }
        }
    }
    match end_line(rest, at, &listed) {
        Err(e) => Err(e),
        Ok(found) => Ok((
            Found {
                listed,
                steps,
                last: found.0,
            },
            found.1,
            at + 1,
        )),
    }
}

// The fault of the log. What is no matroid is a fault at this line.
fn fault_at(fault: FileFault, line: u32) -> LogFault
    ensures { result ≡ log_fault fault line }
{
    match fault {
        FileFault::Grammar { line } => LogFault::Bad {
            line,
            why: Why::Grammar,
        },
        FileFault::Size { line, .. } => LogFault::Bad {
            line,
            why: Why::Size,
        },
        FileFault::NoBasis => LogFault::Bad {
            line,
            why: Why::Basis,
        },
        FileFault::Exchange { .. } => LogFault::Bad {
            line,
            why: Why::Exchange,
        },
        FileFault::Memory => LogFault::Memory,
    }
}
