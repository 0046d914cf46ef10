ghost use Rattle.std.specs.Prelude.{◌≡◌, ◌+◌, ◌<◌, ◌^◌, MatchResult, length};
ghost use Rattle.mr_log.specs.Log.{IsLog};
ghost use Rattle.mr_check.specs.Accepted.{IsRefutation};
ghost use Rattle.mr_check.specs.Private.Judging.{IsFaulty, IsFaultAt, IsJudged};

use crate::steps::{first_stray, is_end};
use crate::{Accepted, CheckFault};
use mr_field::Field;
use mr_frame::Frame;
use mr_log::{Log, Why};
use mr_nogood::{Cite, Row};
use std::alloc::Global;

/// Whether a log that was read is a refutation over the field.
pub(crate) fn judge(alloc: Global, log: Log, field: Field) -> Result<Accepted, CheckFault>
    requires { IsLog log }
    ensures { MatchResult result (λ a. IsRefutation field log × (a.steps ≡ length log.steps)) (IsFaulty field log) }
{
    // The head and the matroid's file have one line less.
    let first_line = 9 + log.matroid.nonbasis_count();
    let frame = Frame::new(alloc, log.matroid, field)?;
    verdict(&frame, log.steps.as_slice(), &log.last, first_line)
}

// The verdict on the steps, of which the first stands in this line, and on the last line. It takes no memory.
fn verdict(
    frame: &Frame,
    steps: &[Row],
    last: &Cite,
    first_line: u32,
) -> Result<Accepted, CheckFault>
    requires { first_line + length steps.now < 2 ^ 32 }
    ensures { MatchResult result (λ a. IsJudged frame.now steps.now last.now × (a.steps ≡ length steps.now)) (IsFaultAt frame.now steps.now last.now first_line) }
{
    match first_stray(frame, steps) {
        Some(j) => Err(CheckFault::Rejected {
            line: first_line + j as u32,
            why: Why::Step,
        }),
        None => {
            let count = steps.len() as u32;
            if is_end(frame, steps, last) {
                Ok(Accepted { steps: count })
            } else {
                Err(CheckFault::Rejected {
                    line: first_line + count,
                    why: Why::End,
                })
            }
        }
    }
}
