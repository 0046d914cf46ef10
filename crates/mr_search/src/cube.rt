ghost use Rattle.std.specs.Prelude.{◌≡◌, ◌<◌, ◌≤◌, ◌+◌, ℕ, [], length, Contains, IfOk, IfErr};
ghost use Rattle.mr_frame.specs.Test.{SetFails, IsFirstFailing};
ghost use Rattle.mr_nogood.specs.declared.row.Cite.TheVariants.{Test};
ghost use Rattle.mr_exchange.specs.Board.{Holding};
ghost use Rattle.mr_exchange.specs.Cubes.{cube_at};
ghost use Rattle.mr_exchange.specs.Right.{IsRight};
ghost use Rattle.mr_search.specs.Nodes.{IsNodeOfCube, HoldsOfMany, IsPartOfNeed};
ghost use Rattle.mr_search.specs.Private.Steps.{CubeAnswered, CubeStopped};
ghost use Rattle.mr_search.specs.Search.{gained, Keeps, IsReady, AreNodes, AreFoundAmong, AreSettled, AreSettledButOneChain, AnswersFirst};

use crate::SearchStop;
use crate::node::search_node;
use crate::outcome::Outcome;
use mr_assign::{Assign, AssignList};
use mr_exchange::{Board, CubeAnswer, cube_at};
use mr_nogood::Cite;
use mr_propagate::Index;
use std::alloc::Global;

/// Searches a cube that the pass has claimed.
pub fn search_cube<B: Board>(
    alloc: Global,
    board: &mut B,
    index: &mut Index,
    cube: u32,
) -> Result<CubeAnswer, SearchStop>
    requires claimed { Contains (B.holding board.old).cubes cube }
    requires ready { IsReady (B.holding board.old) index.old }
    // The answer is right for what the pass knows after the call.
    ensures right { let h = B.holding board.old in IfOk result (IsRight h.frame (B.holding board.new).known (cube_at h.frame h.problem.depth cube)) }
    // Where a set fails under the cube, it is the first one, and no node is opened.
    ensures first { let h = B.holding board.old in AnswersFirst h.frame (cube_at h.frame h.problem.depth cube) result (gained h (B.holding board.new)) }
    // After each answer and each stop.
    ensures keeps { Keeps (B.holding board.old) (gained (B.holding board.old) (B.holding board.new)) (B.holding board.new) }
    ensures nodes { let h = B.holding board.old in AreNodes (IsNodeOfCube h.frame h.problem.depth cube) (gained h (B.holding board.new)) }
    ensures mark { B.mark board.new ≡ B.mark board.old }
    // So no more were opened than there are.
    ensures most { let h = B.holding board.old in HoldsOfMany (IsNodeOfCube h.frame h.problem.depth cube) (length (gained h (B.holding board.new))) }
    ensures need { let h = B.holding board.old in (n : ℕ) → IsPartOfNeed h.frame h.problem.depth cube n → length (gained h (B.holding board.new)) ≤ n }
    // After an answer.
    ensures ready { IfOk result (λ _. IsReady (B.holding board.new) index.new) }
    ensures opened { IfOk result (AreFoundAmong (gained (B.holding board.old) (B.holding board.new))) }
    ensures settled { let h = B.holding board.old in IfOk result (λ _. AreSettled h.frame (B.holding board.new).known (gained h (B.holding board.new))) }
    // After the stop for want of tickets.
    ensures over { result ≡ Err SearchStop.Over → 0 < (B.holding board.new).ticket_ends }
    ensures fewer { let h = B.holding board.old in result ≡ Err SearchStop.Over → HoldsOfMany (IsNodeOfCube h.frame h.problem.depth cube) (length (gained h (B.holding board.new)) + 1) }
    ensures chain { let h = B.holding board.old in result ≡ Err SearchStop.Over → AreSettledButOneChain h.frame (B.holding board.new).known (gained h (B.holding board.new)) }
{
    search_claimed(alloc, board, index, cube)
}

// The same, told by what was opened.
fn search_claimed<B: Board>(
    alloc: Global,
    board: &mut B,
    index: &mut Index,
    cube: u32,
) -> Result<CubeAnswer, SearchStop>
    requires claimed { Contains (B.holding board.old).cubes cube }
    requires ready { IsReady (B.holding board.old) index.old }
    ensures ok { let h = B.holding board.old in IfOk result (CubeAnswered h (B.holding board.new) index.new (cube_at h.frame h.problem.depth cube) h.problem.depth) }
    ensures stop { let h = B.holding board.old in IfErr result (CubeStopped h (B.holding board.new) (cube_at h.frame h.problem.depth cube) h.problem.depth) }
    ensures mark { B.mark board.new ≡ B.mark board.old }
{
    let problem = board.problem();
    let node = cube_at(board.frame(), problem.depth, cube);
    if let Some(x) = board.frame().first_failing(&node) {
        return Ok(CubeAnswer::Refuted(Cite::Test(x)));
    }
    if let Some(slot) = index.inside(&node) {
        return Ok(CubeAnswer::Refuted(Cite::Slot(slot)));
    }
    let mut found = AssignList::new(alloc);
    match search_node(board, index, &node, problem.depth, &mut found)? {
        Outcome::Completed => Ok(CubeAnswer::Found(found)),
        Outcome::Excluded(cite) => Ok(CubeAnswer::Refuted(cite)),
        Outcome::Deduced(slot) => Ok(CubeAnswer::Refuted(Cite::Slot(slot))),
    }
}
