ghost use Rattle.std.specs.Prelude.{◌≡◌, ◌≢◌, ◌↔◌, ◌<◌, []};
ghost use Rattle.mr_exchange.specs.declared.TheConstants.{SHORT};
ghost use Rattle.mr_exchange.specs.Board.{Holding, BoardFacts, CanOpen, CanPublish, Claimed, Opened, Looked, Published, pairs_shown};
ghost use Rattle.mr_exchange.specs.Acting.{PassesActAsBoards};

use crate::{Look, Problem};
use mr_assign::Assign;
use mr_frame::Frame;
use mr_nogood::Row;

/// One pass's side of a board: a pass that joined no other. Each call changes what the pass has and
/// knows just as its event in the exchange does, and nothing else of it. No call takes memory.
pub trait Board {
    /// What a board's mark is.
    type Mark;

    // What the pass has and knows.
    ghost holding: { Self → Holding };

    // Plain data of the board's own, which no call changes.
    ghost mark: { Self → Self.Mark };

    fn frame(&self) -> &Frame
        ensures frame { result.now ≡ (holding self.now).frame }
        ensures facts { BoardFacts (holding self.now) };

    fn problem(&self) -> Problem
        ensures problem { result ≡ (holding self.now).problem }
        ensures facts { BoardFacts (holding self.now) };

    /// A new cube, or `None`, and then the pass has an end. Each board says for itself that no cube is left then.
    fn claim(&mut self) -> Option<u32>
        requires { (holding self.old).claim_ends ≡ 0 }
        ensures moves { Claimed (holding self.old) result (holding self.new) }
        ensures mark { mark self.new ≡ mark self.old };

    /// The ticket for a node, which is the number of the pass's new slot, or `None`, and then the pass has an
    /// end.
    fn open_node(&mut self, node: &Assign) -> Option<u32>
        requires { CanOpen (holding self.old) node.now }
        ensures moves { Opened (holding self.old) node.now result (holding self.new) }
        ensures mark { mark self.new ≡ mark self.old };

    /// What the slot at the cursor has. The next look is at the slot after it, or at 0 where it is that
    /// of the pass's latest ticket.
    fn look(&mut self) -> Look
        requires { (holding self.old).tickets ≢ [] }
        ensures moves { Looked (holding self.old) result (holding self.new) }
        // The head that the pass then holds as its last one decides.
        ensures empty { (result ≡ Look.Empty) ↔ ((holding self.new).last_head ≡ 0) }
        ensures long { (result ≡ Look.Long) ↔ (SHORT < pairs_shown (holding self.new).last_head) }
        ensures mark { mark self.new ≡ mark self.old };

    /// Publishes a row in a slot of the pass's own.
    fn publish(&mut self, slot: u32, row: &Row)
        requires { CanPublish (holding self.old) slot row.now }
        ensures moves { Published (holding self.old) slot row.now (holding self.new) }
        ensures mark { mark self.new ≡ mark self.old };
}

/// What the events of a pass do is what a board asks for, answers and changes.
pub fn passes_act_as_boards()
    ensures { PassesActAsBoards }
{}
