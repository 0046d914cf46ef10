ghost use Rattle.std.specs.Prelude.{◌≡◌, ◌+◌, ◌<◌, ◌≤◌, ◌^◌, All, length, slice_set, MatchResult, IfOk, IfErr};
ghost use Rattle.mr_field.specs.Gf.{order};
ghost use Rattle.mr_set.specs.Subsets.{choose};
ghost use Rattle.mr_set.specs.declared.TheConstants.{ELEMENTS};
ghost use Rattle.mr_text.specs.Format.{done, StandsFor, IsFirstFault, IsTextOf, IsFirstFaultOf};
ghost use Rattle.mr_file.specs.Reading.{Names};
ghost use Rattle.mr_linear.specs.Matrix.{Grid, height};
ghost use Rattle.mr_matrix.specs.Block.{IsBlockOf, grid_with, row_lines_of};
ghost use Rattle.mr_matrix.specs.Reading.{whole_block, IsMatrixRefusal};
ghost use Rattle.mr_matrix.specs.Private.Reading.{as_matrix_fault};
ghost use Rattle.mr_matrix.specs.declared.fault.MatrixFault.{MatrixFault};

use crate::fault::MatrixFault;
use crate::header::{excess, header_line};
use crate::row_line::row_line;
use mr_field::Field;
use mr_file::{FileFault, fixed_line};
use mr_linear::Matrix;
use std::alloc::Global;

/// The matrix of a block over the field, of fewer than 2^32 - 1 bytes. A refusal names the line of the first fault, else
/// memory ran out.
pub fn read_matrix(alloc: Global, bytes: &[u8], field: Field) -> Result<Matrix, MatrixFault>
    requires { length bytes.now + 1 < 2 ^ 32 }

    // What is read is the matrix whose block the bytes are, and the block of a matrix is read, unless memory runs out.
    ensures ok { IfOk result (IsBlockOf field bytes.now) }
    ensures only { (a : Grid) → IsBlockOf field bytes.now a → MatchResult result (λ x. x ≡ a) (λ e. e ≡ MatrixFault.Memory) }

    // A refusal names the first fault.
    ensures refusal { IfErr result (IsMatrixRefusal field bytes.now) }
{
    match read_whole(alloc, bytes, field) {
        Ok(matrix) => Ok(matrix),
        Err(fault) => Err(matrix_fault(fault)),
    }
}

// The matrix that the lines of the text stand for.
fn read_whole(alloc: Global, bytes: &[u8], field: Field) -> Result<Matrix, FileFault>
    requires { length bytes.now + 1 < 2 ^ 32 }
    ensures { MatchResult result (IsTextOf (whole_block field) bytes.now) (Names (IsFirstFaultOf (whole_block field) bytes.now)) }
{
    let (matrix, rest, line) = read_block(alloc, bytes, 1, field)?;
    if rest.is_empty() {
        return Ok(matrix);
    }
    Err(FileFault::Grammar { line })
}

// The same refusal of the block.
fn matrix_fault(fault: FileFault) -> MatrixFault
    requires { Names (λ _. Unit {0}) fault }
    ensures { result ≡ as_matrix_fault fault }
{
    match fault {
        FileFault::Grammar { line } => MatrixFault::Grammar { line },
        FileFault::Size { line, what } => MatrixFault::Size { line, what },
        FileFault::NoBasis | FileFault::Exchange { .. } => unreachable!(),
        FileFault::Memory => MatrixFault::Memory,
    }
}

// From the first line of the block on.
fn read_block<'a>(
    alloc: Global,
    bytes: &'a [u8],
    line_number: u32,
    field: Field,
) -> Result<(Matrix, &'a [u8], u32), FileFault>
    requires { line_number + length bytes.now < 2 ^ 32 }
    ensures { MatchResult result (λ x. StandsFor (whole_block field) line_number bytes.now x.0 x.1.now x.2) (Names (IsFirstFault (whole_block field) line_number bytes.now)) }
{
    let (shape, rest) = header_line(bytes, line_number, field.order())?;
    if let Some(what) = excess(shape) {
        return Err(FileFault::Size {
            line: line_number,
            what,
        });
    }
    read_rows(alloc, rest, line_number + 1, field, shape.rows, shape.cols)
}

/// The matrix of `r` rows and `n` columns of which the rows are due, what follows it, and the number of the next line.
pub fn read_rows<'a>(
    alloc: Global,
    bytes: &'a [u8],
    line_number: u32,
    field: Field,
    r: u32,
    n: u32,
) -> Result<(Matrix, &'a [u8], u32), FileFault>
    requires numbers { line_number + length bytes.now < 2 ^ 32 }
    requires wide { n ≤ ELEMENTS }
    requires flat { r ≤ n }
    ensures { MatchResult result (λ x. StandsFor (row_lines_of field r n done) line_number bytes.now x.0 x.1.now x.2) (Names (IsFirstFault (row_lines_of field r n done) line_number bytes.now)) }
{
    let matrix = Matrix::zero(alloc, field, r, n)?;
    fill(matrix, bytes, line_number)
}

// The matrix with the rows that are read.
fn fill<'a>(
    matrix: Matrix,
    bytes: &'a [u8],
    line_number: u32,
) -> Result<(Matrix, &'a [u8], u32), FileFault>
    requires { line_number + length bytes.now < 2 ^ 32 }
    ensures { MatchResult result (λ x. StandsFor (row_lines_of matrix.field (height matrix) matrix.cols done) line_number bytes.now x.0 x.1.now x.2) (Names (IsFirstFault (row_lines_of matrix.field (height matrix) matrix.cols done) line_number bytes.now)) }
{
    let field = matrix.field();
    let r = matrix.rows();
    let n = matrix.cols();
    let mut filled = matrix;
    let mut rest = bytes;
    let mut at = line_number;
    for i in 0..r {
        let (row, after) = row_line(rest, at, &field, n)?;
        set_row(&mut filled, i, row.as_slice());
        rest = after;
        at += 1;
    }
    let after = fixed_line(rest, at, b"end")?;
    Ok((filled, after, at + 1))
}

/// Writes a row.
pub fn set_row(a: &mut Matrix, i: u32, row: &[u32])
    requires row { i < height a.old }
    requires size { length row.now ≡ a.old.cols }
    requires elements { All (λ v. v < order a.old.field) row.now }
    ensures { a.new ≡ grid_with a.old.field a.old.cols (slice_set a.old.rows i row.now) }
{
    let n = a.cols();
    // The clauses of `rows` say that it is a matrix.
    let _rows = a.rows();
    for j in 0..n {
        a.set(i, j, row[j as usize] as u8);
    }
}
