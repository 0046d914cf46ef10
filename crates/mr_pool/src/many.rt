ghost use Rattle.std.specs.Prelude.{◌≡◌, ◌<◌, ◌≤◌, ◌+◌, ℕ, sum_by, IfOk, IfErr, Err};
ghost use Rattle.mr_nogood.specs.Follows.{in_slots};
ghost use Rattle.mr_exchange.specs.declared.TheConstants.{PASSES};
ghost use Rattle.mr_exchange.specs.Cubes.{IsProblemOf};
ghost use Rattle.mr_exchange.specs.Closed.{ClosedIs};
ghost use Rattle.mr_search.specs.Nodes.{IsNeed};
ghost use Rattle.mr_exchange.specs.Right.{AreAnswers};
ghost use Rattle.mr_pool.specs.Answers.{AreFirst, IsSearched, IsStop, number_found};

use crate::{PoolAnswer, PoolStop, WorkStop, Worked, work};
use mr_exchange::Problem;
use mr_frame::Frame;
use mr_io::Gate;
use mr_store::Store;
use std::alloc::Global;
use std::thread::Threads;

/// Searches all cubes by so many workers at once, which share a store.
pub fn run_pool<R: Threads + Sync, G: Gate + Sync>(
    rt: &R,
    alloc: Global,
    frame: &Frame,
    problem: Problem,
    workers: u32,
    gate: &G,
) -> Result<PoolAnswer, PoolStop>
    requires problem { IsProblemOf frame.now problem }
    requires some { 1 ≤ workers }
    requires few { workers ≤ PASSES }
    // The answers are right for the rows of the closed store.
    ensures answers { IfOk result (λ answer. AreAnswers frame.now problem (in_slots answer.closed.rows) answer.answers) }
    ensures first { IfOk result (λ answer. AreFirst frame.now problem answer.answers) }
    ensures found { IfOk result (λ answer. sum_by number_found answer.answers ≤ answer.closed.opened) }
    ensures closed { IfOk result (λ answer. IsSearched frame.now problem answer.closed) }
    ensures need { (n : ℕ) → IsNeed frame.now problem.depth n → IfOk result (λ answer. answer.closed.opened ≤ n) }
    // A stop with a closed store has its cause.
    ensures stopped { IfErr result (IsStop frame.now problem) }
    ensures above { (n : ℕ) → IsNeed frame.now problem.depth n → (closed : ClosedIs) → result ≡ Err (PoolStop.Stopped closed) → problem.nodes < n }
{
    let made = Store::new(alloc, frame, problem, workers)?;
    let (store, first) = made;
    let Worked { card, answers } = work(rt, alloc, &store, first, workers, gate);
    let Ok(closed) = store.close(card) else {
        unreachable!()
    };
    match answers {
        Ok(answers) => Ok(PoolAnswer { answers, closed }),
        Err(stop) => match stop {
            WorkStop::Over => Err(PoolStop::Stopped { closed }),
            WorkStop::Memory => Err(PoolStop::Memory),
        },
    }
}
