ghost use Rattle.std.specs.Prelude.{◌≡◌, ◌≢◌, ◌∷◌, [], length, slice_index, MatchOption, MatchResult};
ghost use Rattle.mr_field.specs.Order.{IsOrder};
ghost use Rattle.mr_text.specs.Format.{IsLineOf, IsLineFault};
ghost use Rattle.mr_file.specs.Reading.{Names};
ghost use Rattle.mr_file.specs.declared.fault.Measure.{Measure};
ghost use Rattle.mr_matrix.specs.Block.{IsHeaderLine, ShapeExceeds};
ghost use Rattle.mr_matrix.specs.Private.Block.{header_words};
ghost use Rattle.mr_matrix.specs.declared.shape.Shape.{Shape};

use crate::number_line::numbers;
use crate::shape::Shape;
use mr_file::{FileFault, Measure};
use mr_set::{ELEMENTS, binomial};
use mr_text::split_once;

// The shape that the three numbers name, where the first is the order.
fn named(list: &[u32], q: u8) -> Option<Shape>
    requires { length list.now ≡ 3 }
    ensures { MatchOption result (slice_index list.now 0 ≢ q) (λ s. list.now ≡ q ∷ s.rows ∷ s.cols ∷ []) }
{
    if list[0] == u32::from(q) {
        Some(Shape {
            rows: list[1],
            cols: list[2],
        })
    } else {
        None
    }
}

// The shape that the line names.
fn shape_on(line: &[u8], q: u8) -> Option<Shape>
    requires { IsOrder q }
    ensures { MatchOption result ((s : Shape) → IsHeaderLine q line.now s → ⊥) (IsHeaderLine q line.now) }
{
    match line.strip_prefix(b"matrix ") {
        None => None,
        Some(words) => match numbers(words, 3) {
            None => None,
            Some(list) => named(list.as_slice(), q),
        },
    }
}

/// The shape that the first line names, and what follows the line.
pub fn header_line<'a>(
    bytes: &'a [u8],
    line_number: u32,
    q: u8,
) -> Result<(Shape, &'a [u8]), FileFault>
    requires { IsOrder q }
    ensures { MatchResult result (λ x. IsLineOf (header_words q) bytes.now x.0 x.1.now) (Names (IsLineFault (header_words q) line_number bytes.now)) }
{
    match split_once(bytes, b'\n') {
        None => Err(FileFault::Grammar { line: line_number }),
        Some((line, rest)) => match shape_on(line, q) {
            None => Err(FileFault::Grammar { line: line_number }),
            Some(shape) => Ok((shape, rest)),
        },
    }
}

/// The measure by which the shape is too large.
pub fn excess(shape: Shape) -> Option<Measure>
    ensures { MatchOption result ((m : Measure) → ShapeExceeds shape m → ⊥) (ShapeExceeds shape) }
{
    if shape.cols > ELEMENTS {
        return Some(Measure::Elements);
    }
    if shape.rows > shape.cols {
        return Some(Measure::Rank);
    }
    match binomial(shape.cols, shape.rows) {
        None => Some(Measure::Sets),
        Some(_) => None,
    }
}
