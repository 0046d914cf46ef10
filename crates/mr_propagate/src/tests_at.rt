ghost use Rattle.std.specs.Prelude.{◌<◌, ℕ, MatchOption, None, length, slice_index, slice_index_or, slice_set};
ghost use Rattle.mr_frame.specs.Test.{IsAssignmentOf};
ghost use Rattle.mr_field.specs.Gf.{order};
ghost use Rattle.mr_propagate.specs.Index.{NoneFailsAt, IsFirstFailingAt, IsFilledBelow};

use mr_assign::Assign;
use mr_frame::{Frame, WIDTH};
use mr_set::Set;

/// The first set that needs a position and fails.
pub(crate) fn first_failing_at(frame: &Frame, a: &Assign, p: u32) -> Option<Set>
    requires assignment { IsAssignmentOf frame.now a.now }
    requires position { p < length frame.now.places }
    ensures { MatchOption result (NoneFailsAt frame.now a.now p) (IsFirstFailingAt frame.now a.now p) }
{
    for x in frame.tests_at(p) {
        if frame.fails(*x, a) {
            return Some(*x);
        }
    }
    None
}

/// For each value of a position the first set that fails with it, where the node has values at just the positions before
/// it. Each set tells all values at once.
pub fn first_failing_values(frame: &Frame, node: &Assign, p: u32) -> [Option<Set>; WIDTH]
    requires assignment { IsAssignmentOf frame.now node.now }
    requires position { p < length frame.now.places }
    requires filled { IsFilledBelow node.now p }
    ensures { (v : ℕ) → v < order frame.now.field → MatchOption (slice_index_or result v None) (NoneFailsAt frame.now (slice_set node.now p v) p) (IsFirstFailingAt frame.now (slice_set node.now p v) p) }
{
    frame.first_failing_values(p, node)
}
