ghost use Rattle.std.specs.Prelude.{◌≡◌, ◌+◌, ◌<◌, ◌≤◌, ◌^◌, ◌↔◌, ℕ, IsTrue, MatchOption, length};
ghost use Rattle.mr_check.specs.Accepted.{StepFollows, IsEnd};
ghost use Rattle.mr_check.specs.Private.Judging.{IsFirstStrayStep, AllFollow};

use mr_assign::Assign;
use mr_frame::Frame;
use mr_nogood::{Cite, Row, fails, follows_steps};

/// The number of the first step that doesn't follow from the ones before it. It takes no memory.
pub(crate) fn first_stray(frame: &Frame, steps: &[Row]) -> Option<usize>
    ensures { MatchOption result (AllFollow frame.now steps.now) (IsFirstStrayStep frame.now steps.now) }
{
    for (j, row) in steps.iter().enumerate() {
        if !follows_steps(frame, row, &steps[..j]) {
            return Some(j);
        }
    }
    None
}

/// Whether the last line's cite is an end. It takes no memory.
pub(crate) fn is_end(frame: &Frame, steps: &[Row], last: &Cite) -> bool
    ensures { IsTrue result ↔ IsEnd frame.now steps.now last.now }
{
    match last {
        Cite::Nothing => false,
        Cite::Test(x) => fails(frame, *x, &Assign::empty()),
        Cite::Slot(s) => match steps.get(*s as usize) {
            None => false,
            Some(row) => Assign::empty().contains(&row.clause),
        },
    }
}
