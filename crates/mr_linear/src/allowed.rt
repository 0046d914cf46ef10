ghost use Rattle.std.specs.Prelude.{◌↔◌, IsTrue};
ghost use Rattle.mr_linear.specs.Operations.{IsAllowedOperation};

use crate::{Matrix, RowOp};

impl Matrix {
    /// Whether the operation is one on the matrix: its places are in range, two rows of an addition are different ones, and its
    /// element is one of the field, not zero where it scales.
    pub fn allows(&self, op: RowOp) -> bool
        ensures { IsTrue result ↔ IsAllowedOperation self.now op }
    {
        let rows = self.rows();
        let order = self.field().order();
        match op {
            RowOp::Swap { i, j } => i < rows && j < rows,
            RowOp::ScaleRow { i, by } => i < rows && by < order && by != 0,
            RowOp::AddRow { src, dst, by } => {
                src < rows && dst < rows && src != dst && by < order
            }
            RowOp::ScaleCol { j, by } => j < self.cols() && by < order && by != 0,
        }
    }
}
