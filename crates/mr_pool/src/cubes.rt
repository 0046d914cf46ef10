ghost use Rattle.std.specs.Prelude.{◌≡◌, ◌<◌, ◌+◌, length, OnOk, Err};
ghost use Rattle.mr_exchange.specs.Board.{Holding, BoardFacts};
ghost use Rattle.mr_search.specs.Nodes.{HoldsOfMany};
ghost use Rattle.mr_search.specs.Search.{IsReady, AreNodes};
ghost use Rattle.mr_pool.specs.Private.Answers.{IsNodeOfOne};
ghost use Rattle.mr_pool.specs.Private.Lists.{HasListed};

use crate::answered::{Answered, keep};
use mr_exchange::Board;
use mr_propagate::Index;
use mr_search::{SearchStop, search_cube};
use std::alloc::Global;

/// Claims cubes and appends the answer of each, until it is told that none is left.
pub(crate) fn search_cubes<B: Board>(
    alloc: Global,
    board: &mut B,
    index: &mut Index,
    list: &mut Vec<Answered>,
) -> Result<(), SearchStop>
    requires no_end { (B.holding board.old).claim_ends ≡ 0 }
    requires ready { IsReady (B.holding board.old) index.old }
    requires served { HasListed (B.holding board.old) list.old.items }
    ensures frame { (B.holding board.new).frame ≡ (B.holding board.old).frame }
    ensures problem { (B.holding board.new).problem ≡ (B.holding board.old).problem }
    ensures mark { B.mark board.new ≡ B.mark board.old }
    // After each cube and each stop.
    ensures nodes { let h = B.holding board.new in AreNodes (IsNodeOfOne h.frame h.problem.depth h.cubes) h.tickets }
    ensures facts { BoardFacts (B.holding board.new) }
    // Where each cube that was claimed has an answer.
    ensures end { OnOk result ((B.holding board.new).claim_ends ≡ 1) }
    ensures served { OnOk result (HasListed (B.holding board.new) list.new.items) }
    // After the stop for want of tickets.
    ensures over { result ≡ Err SearchStop.Over → 0 < (B.holding board.new).ticket_ends }
    ensures more { let h = B.holding board.new in result ≡ Err SearchStop.Over → HoldsOfMany (IsNodeOfOne h.frame h.problem.depth h.cubes) (length h.tickets + 1) }
{
    while let Some(cube) = board.claim() {
        // The clauses of `problem` say that there are no more cubes than these.
        let _problem = board.problem();
        let searched = search_cube(alloc, board, index, cube);
        let _facts = board.problem();
        keep(list, cube, searched?)?;
    }
    let _facts = board.problem();
    Ok(())
}
