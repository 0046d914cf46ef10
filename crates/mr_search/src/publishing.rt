ghost use Rattle.std.specs.Prelude.{◌≡◌, ◌<◌, None, Contains, length, OnOk};
ghost use Rattle.mr_exchange.specs.Board.{Holding};
ghost use Rattle.mr_exchange.specs.Cubes.{IsCube};
ghost use Rattle.mr_exchange.specs.State.{slots_of};
ghost use Rattle.mr_search.specs.Private.Steps.{Stands};
ghost use Rattle.mr_search.specs.Private.Citing.{AreCites, Publishes};

use crate::deducing::deduced;
use mr_assign::Assign;
use mr_exchange::Board;
use mr_nogood::{Cite, ROW_CITES};
use mr_propagate::Index;
use std::alloc::AllocError;

/// Publishes the row of a node in the node's slot, and learns it.
pub(crate) fn publish<B: Board>(
    board: &mut B,
    index: &mut Index,
    node: &Assign,
    p: u32,
    ticket: u32,
    cites: [Cite; ROW_CITES],
) -> Result<(), AllocError>
    requires stands { Stands (B.holding board.old) index.old }
    requires own { Contains (slots_of (B.holding board.old).tickets) ticket }
    requires unknown { (B.holding board.old).known ticket ≡ None }
    requires node { IsCube (B.holding board.old).frame p node.now }
    requires position { p < length (B.holding board.old).frame.places }
    requires cites { AreCites (B.holding board.old).frame (B.holding board.old).known node.now p cites }
    ensures moves { Publishes (B.holding board.old) ticket node.now (B.holding board.new) }
    ensures ok { OnOk result (Stands (B.holding board.new) index.new) }
    ensures mark { B.mark board.new ≡ B.mark board.old }
{
    let row = deduced(board.frame(), index, node, p, cites);
    board.publish(ticket, &row);
    // The clauses of `problem` say what holds of the pass.
    let _problem = board.problem();
    index.learn(ticket, &row)
}
