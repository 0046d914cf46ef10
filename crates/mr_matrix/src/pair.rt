ghost use Rattle.std.specs.Prelude.{◌≡◌, ◌↔◌, IsTrue, ◌+◌, ◌<◌, ◌≤◌, ◌^◌, length, MatchResult, IfOk, IfErr};
ghost use Rattle.mr_set.specs.declared.TheConstants.{ELEMENTS};
ghost use Rattle.mr_text.specs.Format.{done, StandsFor, IsFirstFault, IsTextOf, IsFirstFaultOf};
ghost use Rattle.mr_file.specs.Reading.{Names};
ghost use Rattle.mr_file.specs.declared.fault.FileFault.{FileFault};
ghost use Rattle.mr_matrix.specs.Pairs.{sized_block, pair_format, IsPairOf, IsPairRefusal};
ghost use Rattle.mr_matrix.specs.Private.Pairs.{found_pair};
ghost use Rattle.mr_matrix.specs.declared.pair.Pair.{Pair};

use crate::header::header_line;
use crate::read::read_rows;
use crate::shape::Shape;
use mr_field::Field;
use mr_file::{FileFault, Listed, matroid_of, read_file};
use mr_linear::Matrix;
use mr_matroid::Matroid;
use std::alloc::Global;

/// A matroid, and a matrix of its size.
#[derive(Drop)]
pub struct Pair {
    pub matroid: Matroid,
    pub matrix: Matrix,
}

/// The parts of a pair as they were read.
#[derive(Drop)]
pub struct Found {
    pub listed: Listed,
    pub matrix: Matrix,
}

/// The matroid of a file, and the matrix of the block over the field that follows it at once: a row for each of the rank
/// and a column for each element. The text has fewer than 2^32 - 1 bytes. Its lines are read before bases and exchanges
/// are looked at.
pub fn read_pair(alloc: Global, bytes: &[u8], field: Field) -> Result<Pair, FileFault>
    requires { length bytes.now + 1 < 2 ^ 32 }

    // What is read is the pair whose text the bytes are, and the text of a pair is read, unless memory runs out.
    ensures ok { IfOk result (IsPairOf field bytes.now) }
    ensures only { (p : Pair) → IsPairOf field bytes.now p → MatchResult result (λ x. x ≡ p) (λ e. e ≡ FileFault.Memory) }

    // A refusal names the first fault of the whole text, or else that there is no basis, or else the first exchange that fails.
    ensures refusal { IfErr result (IsPairRefusal field bytes.now) }
{
    let found = read_parts(alloc, bytes, field)?;
    let matroid = matroid_of(alloc, &found.listed)?;
    Ok(Pair {
        matroid,
        matrix: found.matrix,
    })
}

// The parts of the whole text.
fn read_parts(alloc: Global, bytes: &[u8], field: Field) -> Result<Found, FileFault>
    requires { length bytes.now + 1 < 2 ^ 32 }
    ensures { MatchResult result (λ x. IsTextOf (pair_format field) bytes.now (found_pair x)) (Names (IsFirstFaultOf (pair_format field) bytes.now)) }
{
    let (found, rest, line) = read_lines(alloc, bytes, field)?;
    if rest.is_empty() {
        return Ok(found);
    }
    Err(FileFault::Grammar { line })
}

// The parts, what follows them, and the number of the next line.
fn read_lines<'a>(
    alloc: Global,
    bytes: &'a [u8],
    field: Field,
) -> Result<(Found, &'a [u8], u32), FileFault>
    requires { length bytes.now + 1 < 2 ^ 32 }
    ensures { MatchResult result (λ x. StandsFor (pair_format field) 1 bytes.now (found_pair x.0) x.1.now x.2) (Names (IsFirstFault (pair_format field) 1 bytes.now)) }
{
    let (listed, rest, line) = read_file(alloc, bytes, 1)?;
    let (matrix, after, next_line) = read_sized(
        alloc,
        field,
        listed.rank,
        listed.elements,
        rest,
        line,
    )?;
    Ok((Found { listed, matrix }, after, next_line))
}

// The matrix of a block of `r` rows and `n` columns, what follows it, and the number of the next line.
fn read_sized<'a>(
    alloc: Global,
    field: Field,
    r: u32,
    n: u32,
    bytes: &'a [u8],
    line_number: u32,
) -> Result<(Matrix, &'a [u8], u32), FileFault>
    requires numbers { line_number + length bytes.now < 2 ^ 32 }
    requires wide { n ≤ ELEMENTS }
    requires flat { r ≤ n }
    ensures { MatchResult result (λ x. StandsFor (sized_block field r n done) line_number bytes.now x.0 x.1.now x.2) (Names (IsFirstFault (sized_block field r n done) line_number bytes.now)) }
{
    let (shape, rest) = header_line(bytes, line_number, field.order())?;
    if has_size(shape, r, n) {
        return read_rows(alloc, rest, line_number + 1, field, r, n);
    }
    Err(FileFault::Grammar { line: line_number })
}

// Whether these are the numbers of rows and columns.
fn has_size(shape: Shape, r: u32, n: u32) -> bool
    ensures { IsTrue result ↔ ((shape.rows ≡ r) × (shape.cols ≡ n)) }
{
    shape.rows == r && shape.cols == n
}
