ghost use Rattle.std.specs.Prelude.{◌≡◌, ◌≤◌, ℕ, sum_by, IfOk, IfErr};
ghost use Rattle.mr_nogood.specs.Follows.{in_slots};
ghost use Rattle.mr_exchange.specs.declared.TheConstants.{NODES, SPLIT};
ghost use Rattle.mr_exchange.specs.Cubes.{IsProblemOf, problem_of};
ghost use Rattle.mr_exchange.specs.Right.{AreAnswers};
ghost use Rattle.mr_pool.specs.Answers.{AreFirst, IsSearched, IsStop, number_found};
ghost use Rattle.matrep.specs.Private.Searched.{IsSearchedTo};

use crate::WORKERS;
use mr_assign::AssignList;
use mr_exchange::Problem;
use mr_frame::Frame;
use mr_io::Gate;
use mr_log::Log;
use mr_merge::{Merged, merge};
use mr_pool::{PoolAnswer, PoolStop, run_one, run_pool};
use std::alloc::{AllocError, Global};
use std::sync::Wait;
use std::thread::Threads;

/// What a search over a frame ends with: all forms, in order, of which there are some; a log that refutes that there is
/// one; or the budget of nodes, where there are more than that.
#[derive(Drop)]
pub enum Searched {
    Forms(AssignList),
    Refuted(Log),
    Stopped { opened: u32 },
}

/// Searches over a frame with one worker, a split of at most `SPLIT` positions and 1 to `NODES` nodes. Refused for want of memory alone.
pub fn search_frame(
    alloc: Global,
    frame: &Frame,
    nodes: u32,
    split: u32,
) -> Result<Searched, AllocError>
    requires few_split { split ≤ SPLIT }
    requires some_nodes { 1 ≤ nodes }
    requires few_nodes { nodes ≤ NODES }
    ensures { IfOk result (IsSearchedTo frame.now nodes split) }
{
    let problem = Problem::of(frame, split, nodes);
    searched_to(alloc, frame, problem, run_one(alloc, frame, problem))
}

/// The same with 1 to `WORKERS` workers at once, each of which passes the gate after each call of its board.
pub fn search_frame_by<R: Threads + Wait + Sync, G: Gate + Sync>(
    rt: &R,
    alloc: Global,
    frame: &Frame,
    workers: u32,
    nodes: u32,
    split: u32,
    gate: &G,
) -> Result<Searched, AllocError>
    requires some_workers { 1 ≤ workers }
    requires few_workers { workers ≤ WORKERS }
    requires few_split { split ≤ SPLIT }
    requires some_nodes { 1 ≤ nodes }
    requires few_nodes { nodes ≤ NODES }
    ensures { IfOk result (IsSearchedTo frame.now nodes split) }
{
    let problem = Problem::of(frame, split, nodes);
    searched_to(
        alloc,
        frame,
        problem,
        run_pool(rt, alloc, frame, problem, workers, gate),
    )
}

// What the search of all cubes of a problem ended with, by one worker or by several.
fn searched_to(
    alloc: Global,
    frame: &Frame,
    problem: Problem,
    ran: Result<PoolAnswer, PoolStop>,
) -> Result<Searched, AllocError>
    requires problem { IsProblemOf frame.now problem }
    requires answers { IfOk ran (λ answer. AreAnswers frame.now problem (in_slots answer.closed.rows) answer.answers) }
    requires first { IfOk ran (λ answer. AreFirst frame.now problem answer.answers) }
    requires found { IfOk ran (λ answer. sum_by number_found answer.answers ≤ answer.closed.opened) }
    requires closed { IfOk ran (λ answer. IsSearched frame.now problem answer.closed) }
    requires stopped { IfErr ran (IsStop frame.now problem) }
    ensures { (nodes split : ℕ) → problem ≡ problem_of frame.now split nodes → IfOk result (IsSearchedTo frame.now nodes split) }
{
    match ran {
        Ok(answer) => merge_answers(alloc, frame, problem, &answer),
        Err(stop) => match stop {
            PoolStop::Stopped { closed } => Ok(Searched::Stopped {
                opened: closed.opened(),
            }),
            PoolStop::Memory => Err(AllocError),
        },
    }
}

// What the right answers of all cubes are merged to.
fn merge_answers(
    alloc: Global,
    frame: &Frame,
    problem: Problem,
    answer: &PoolAnswer,
) -> Result<Searched, AllocError>
    requires problem { IsProblemOf frame.now problem }
    requires answers { AreAnswers frame.now problem (in_slots answer.now.closed.rows) answer.now.answers }
    requires first { AreFirst frame.now problem answer.now.answers }
    requires found { sum_by number_found answer.now.answers ≤ answer.now.closed.opened }
    requires closed { IsSearched frame.now problem answer.now.closed }
    ensures { (split : ℕ) → IfOk result (IsSearchedTo frame.now problem.nodes split) }
{
    // The clauses of `opened` say that the rows are those of a sound state.
    let _opened = answer.closed.opened();
    let merged = merge(alloc, frame, problem, &answer.answers, &answer.closed)?;
    match merged {
        Merged::Forms(forms) => Ok(Searched::Forms(forms)),
        Merged::Refuted(log) => Ok(Searched::Refuted(log)),
    }
}
