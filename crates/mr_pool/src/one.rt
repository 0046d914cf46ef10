ghost use Rattle.std.specs.Prelude.{◌≡◌, ◌<◌, ◌≤◌, ◌+◌, ℕ, sum_by, IfOk, IfErr, Err};
ghost use Rattle.mr_nogood.specs.Follows.{in_slots};
ghost use Rattle.mr_exchange.specs.Cubes.{IsProblemOf};
ghost use Rattle.mr_exchange.specs.Closed.{ClosedIs};
ghost use Rattle.mr_search.specs.Nodes.{IsNeed};
ghost use Rattle.mr_exchange.specs.Right.{AreAnswers};
ghost use Rattle.mr_pool.specs.Answers.{AreFirst, IsSearched, IsStop, number_found};

use crate::answered::in_list;
use crate::cubes::search_cubes;
use crate::{PoolAnswer, PoolStop};
use mr_exchange::{Board, PlainBoard, Problem};
use mr_frame::Frame;
use mr_propagate::Index;
use mr_search::SearchStop;
use std::alloc::Global;

/// Searches all cubes, one after another.
pub fn run_one(alloc: Global, frame: &Frame, problem: Problem) -> Result<PoolAnswer, PoolStop>
    requires problem { IsProblemOf frame.now problem }
    // The answers are right for the rows of the closed board.
    ensures answers { IfOk result (λ answer. AreAnswers frame.now problem (in_slots answer.closed.rows) answer.answers) }
    ensures first { IfOk result (λ answer. AreFirst frame.now problem answer.answers) }
    ensures found { IfOk result (λ answer. sum_by number_found answer.answers ≤ answer.closed.opened) }
    ensures closed { IfOk result (λ answer. IsSearched frame.now problem answer.closed) }
    ensures need { (n : ℕ) → IsNeed frame.now problem.depth n → IfOk result (λ answer. answer.closed.opened ≤ n) }
    // A stop with a closed board has its cause.
    ensures stopped { IfErr result (IsStop frame.now problem) }
    ensures above { (n : ℕ) → IsNeed frame.now problem.depth n → (closed : ClosedIs) → result ≡ Err (PoolStop.Stopped closed) → problem.nodes < n }
{
    let mut board = PlainBoard::new(alloc, frame, problem)?;
    let mut index = Index::new(alloc, frame)?;
    let mut list = Vec::new(alloc);
    let searched = search_cubes(alloc, &mut board, &mut index, &mut list);
    // The clauses of `problem` say that the cubes are in order.
    let _problem = board.problem();
    match searched {
        Ok(()) => {
            let answers = in_list(alloc, list)?;
            Ok(PoolAnswer {
                answers,
                closed: board.close(),
            })
        }
        Err(stop) => match stop {
            SearchStop::Over => Err(PoolStop::Stopped {
                closed: board.close(),
            }),
            SearchStop::Memory => Err(PoolStop::Memory),
        },
    }
}
