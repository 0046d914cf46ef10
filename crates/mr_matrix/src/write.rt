ghost use Rattle.std.specs.Prelude.{◌≡◌, ◌++◌, ◌∷◌, ◌<◌, ◌≤◌, [], map, decimal, slice_index_or, OnOk, OnErr};
ghost use Rattle.mr_field.specs.Gf.{order};
ghost use Rattle.mr_text.specs.Text.{numbers_text, text_of_lines, AppendsPrefix};
ghost use Rattle.mr_text.specs.Private.Listing.{next_element};
ghost use Rattle.mr_linear.specs.Matrix.{height};
ghost use Rattle.mr_matrix.specs.Block.{block_text, header_text};

use mr_linear::Matrix;
use mr_text::Text;
use std::alloc::AllocError;

/// Appends the block of the matrix. Where memory is refused, a part from the front of it was appended.
pub fn write_matrix(a: &Matrix, out: &mut Text) -> Result<(), AllocError>
    ensures ok { OnOk result (out.new ≡ out.old ++ block_text a.now) }
    ensures err { OnErr result (AppendsPrefix out.old out.new (block_text a.now)) }
{
    write_header(a, out)?;
    write_rows(a, out)?;
    out.put(b"end\n")
}

// The first line.
fn write_header(a: &Matrix, out: &mut Text) -> Result<(), AllocError>
    ensures ok { OnOk result (out.new ≡ out.old ++ (header_text (order a.now.field) (height a.now) a.now.cols ++ 10 ∷ [])) }
    ensures err { OnErr result (AppendsPrefix out.old out.new (header_text (order a.now.field) (height a.now) a.now.cols ++ 10 ∷ [])) }
{
    write_after(b"matrix ", u32::from(a.field().order()), out)?;
    write_after(b" ", a.rows(), out)?;
    write_after(b" ", a.cols(), out)?;
    out.put(b"\n")
}

// A number after some bytes.
fn write_after(front: &[u8], v: u32, out: &mut Text) -> Result<(), AllocError>
    ensures ok { OnOk result (out.new ≡ out.old ++ (front.now ++ decimal v)) }
    ensures err { OnErr result (AppendsPrefix out.old out.new (front.now ++ decimal v)) }
{
    out.put(front)?;
    out.put_number(v)
}

// A line for each row.
fn write_rows(a: &Matrix, out: &mut Text) -> Result<(), AllocError>
    ensures ok { OnOk result (out.new ≡ out.old ++ text_of_lines (map numbers_text a.now.rows)) }
    ensures err { OnErr result (AppendsPrefix out.old out.new (text_of_lines (map numbers_text a.now.rows))) }
{
    let rows = a.rows();
    for i in 0..rows {
        write_row(a, i, out)?;
    }
    Ok(())
}

// The line of a row.
fn write_row(a: &Matrix, i: u32, out: &mut Text) -> Result<(), AllocError>
    requires { i < height a.now }
    ensures ok { OnOk result (out.new ≡ out.old ++ (numbers_text (slice_index_or a.now.rows i []) ++ 10 ∷ [])) }
    ensures err { OnErr result (AppendsPrefix out.old out.new (numbers_text (slice_index_or a.now.rows i []) ++ 10 ∷ [])) }
{
    // The clauses of `rows` say that it is a matrix.
    let _rows = a.rows();
    let n = a.cols();
    for j in 0..n {
        write_entry(j == 0, a.get(i, j), out)?;
    }
    out.put(b"\n")
}

// An entry, after a space where it isn't the first.
fn write_entry(first: bool, v: u8, out: &mut Text) -> Result<(), AllocError>
    ensures ok { OnOk result (out.new ≡ out.old ++ next_element first v) }
    ensures err { OnErr result (AppendsPrefix out.old out.new (next_element first v)) }
{
    if first {
        return out.put_number(u32::from(v));
    }
    write_after(b" ", u32::from(v), out)
}
