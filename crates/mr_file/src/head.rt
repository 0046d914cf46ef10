ghost use Rattle.std.specs.Prelude.{◌≡◌, ◌+◌, ◌<◌, ◌≤◌, ◌^◌, [], None, length, MatchResult};
ghost use Rattle.mr_set.specs.declared.TheConstants.{ELEMENTS};
ghost use Rattle.mr_set.specs.Subsets.{choose};
ghost use Rattle.mr_text.specs.Format.{IsFirstFault, StandsFor};
ghost use Rattle.mr_file.specs.Reading.{Names, listing, whole_file};
ghost use Rattle.mr_file.specs.Private.Reading.{from_sets, from_count, from_rank, from_elements};

use crate::fault::{FileFault, Measure};
use crate::line::{fixed_line, keyed_line};
use crate::listed::Listed;
use crate::set_line::set_line;
use mr_set::{ELEMENTS, Set, binomial};
use std::alloc::Global;

/// The numbers and sets of a file, what follows it, and the number of the next line.
pub fn read_file<'a>(
    alloc: Global,
    bytes: &'a [u8],
    line_number: u32,
) -> Result<(Listed, &'a [u8], u32), FileFault>
    requires { line_number + length bytes.now < 2 ^ 32 }
    ensures { MatchResult result (λ x. StandsFor whole_file line_number bytes.now (listing x.0) x.1.now x.2) (Names (IsFirstFault whole_file line_number bytes.now)) }
{
    let rest = fixed_line(bytes, line_number, b"matroid 1")?;
    read_elements(alloc, rest, line_number + 1)
}

// From the line with the number of elements on.
fn read_elements<'a>(
    alloc: Global,
    bytes: &'a [u8],
    line_number: u32,
) -> Result<(Listed, &'a [u8], u32), FileFault>
    requires { line_number + length bytes.now < 2 ^ 32 }
    ensures { MatchResult result (λ x. StandsFor from_elements line_number bytes.now (listing x.0) x.1.now x.2) (Names (IsFirstFault from_elements line_number bytes.now)) }
{
    let (elements, rest) = keyed_line(bytes, line_number, b"elements ")?;
    if elements > ELEMENTS {
        return Err(FileFault::Size {
            line: line_number,
            what: Measure::Elements,
        });
    }
    read_rank(alloc, rest, line_number + 1, elements)
}

// From the line with the rank on.
fn read_rank<'a>(
    alloc: Global,
    bytes: &'a [u8],
    line_number: u32,
    elements: u32,
) -> Result<(Listed, &'a [u8], u32), FileFault>
    requires numbers { line_number + length bytes.now < 2 ^ 32 }
    requires elements { elements ≤ ELEMENTS }
    ensures { MatchResult result (λ x. StandsFor (from_rank elements) line_number bytes.now (listing x.0) x.1.now x.2) (Names (IsFirstFault (from_rank elements) line_number bytes.now)) }
{
    let (rank, rest) = keyed_line(bytes, line_number, b"rank ")?;
    if rank > elements {
        return Err(FileFault::Size {
            line: line_number,
            what: Measure::Rank,
        });
    }
    let Some(most) = binomial(elements, rank) else {
        return Err(FileFault::Size {
            line: line_number,
            what: Measure::Sets,
        });
    };
    read_count(alloc, rest, line_number + 1, elements, rank, most)
}

// From the line with the number of nonbases on.
fn read_count<'a>(
    alloc: Global,
    bytes: &'a [u8],
    line_number: u32,
    elements: u32,
    rank: u32,
    most: u32,
) -> Result<(Listed, &'a [u8], u32), FileFault>
    requires numbers { line_number + length bytes.now < 2 ^ 32 }
    requires elements { elements ≤ ELEMENTS }
    requires most { most ≡ choose elements rank }
    ensures { MatchResult result (λ x. StandsFor (from_count elements rank) line_number bytes.now (listing x.0) x.1.now x.2) (Names (IsFirstFault (from_count elements rank) line_number bytes.now)) }
{
    let (count, rest) = keyed_line(bytes, line_number, b"nonbases ")?;
    if count > most {
        return Err(FileFault::Size {
            line: line_number,
            what: Measure::Nonbases,
        });
    }
    read_sets(alloc, rest, line_number + 1, elements, rank, count)
}

// From the first set on.
fn read_sets<'a>(
    alloc: Global,
    bytes: &'a [u8],
    line_number: u32,
    elements: u32,
    rank: u32,
    count: u32,
) -> Result<(Listed, &'a [u8], u32), FileFault>
    requires numbers { line_number + length bytes.now < 2 ^ 32 }
    requires elements { elements ≤ ELEMENTS }
    ensures { MatchResult result (λ x. StandsFor (from_sets elements rank count [] None) line_number bytes.now (listing x.0) x.1.now x.2) (Names (IsFirstFault (from_sets elements rank count [] None) line_number bytes.now)) }
{
    let mut nonbases: Vec<Set> = Vec::new(alloc);
    let mut last = None;
    let mut rest = bytes;
    let mut at = line_number;
    for _ in 0..count {
        match set_line(rest, at, elements, rank, last) {
            Err(e) => return Err(e),
            Ok(found) => {
                nonbases.extend_from_slice(&[found.0])?;
                last = Some(found.0);
                rest = found.1;
                at += 1;
            }
        }
    }
    let after = fixed_line(rest, at, b"end")?;
    let listed = Listed {
        elements,
        rank,
        nonbases,
    };
    Ok((listed, after, at + 1))
}
