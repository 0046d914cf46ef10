ghost use Rattle.std.specs.Prelude.{◌≡◌, ◌<◌, ◌≤◌, ◌↔◌, ℕ, List, All, IsTrue, MatchOption, MatchResult};
ghost use Rattle.mr_field.specs.Gf.{order};
ghost use Rattle.mr_set.specs.declared.TheConstants.{ELEMENTS};
ghost use Rattle.mr_text.specs.Format.{IsLineOf, IsLineFault};
ghost use Rattle.mr_file.specs.Reading.{Names};
ghost use Rattle.mr_matrix.specs.Block.{IsRowLine, row_table};

use crate::number_line::{ROOM, numbers};
use arrayvec::ArrayVec;
use mr_field::Field;
use mr_file::FileFault;
use mr_text::split_once;

// Whether all numbers are below the order.
fn are_below(list: &[u32], q: u32) -> bool
    ensures { IsTrue result ↔ All (λ v. v < q) list.now }
{
    list.iter().all(|v| *v < q)
}

// The elements of the row that the line is.
fn row(line: &[u8], field: &Field, n: u32) -> Option<ArrayVec<u32, ROOM>>
    requires some { 0 < n }
    requires room { n ≤ ELEMENTS }
    ensures { MatchOption result ((xs : List ℕ) → IsRowLine field.now n line.now xs → ⊥) (λ list. IsRowLine field.now n line.now list.items) }
{
    match numbers(line, n as usize) {
        None => None,
        Some(list) => {
            if are_below(list.as_slice(), u32::from(field.order())) {
                Some(list)
            } else {
                None
            }
        }
    }
}

/// The elements of the row on the first line, and what follows the line.
pub fn row_line<'a>(
    bytes: &'a [u8],
    line_number: u32,
    field: &Field,
    n: u32,
) -> Result<(ArrayVec<u32, ROOM>, &'a [u8]), FileFault>
    requires some { 0 < n }
    requires room { n ≤ ELEMENTS }
    ensures { MatchResult result (λ x. IsLineOf (row_table field.now n) bytes.now x.0.items x.1.now) (Names (IsLineFault (row_table field.now n) line_number bytes.now)) }
{
    match split_once(bytes, b'\n') {
        None => Err(FileFault::Grammar { line: line_number }),
        Some((line, rest)) => match row(line, field, n) {
            None => Err(FileFault::Grammar { line: line_number }),
            Some(list) => Ok((list, rest)),
        },
    }
}
