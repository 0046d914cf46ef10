ghost use Rattle.std.specs.Prelude.{◌≡◌, ◌≢◌, ◌≤◌, ◌*◌, [], false, Some, None, MatchBool, IfOk, IfErr};
ghost use Rattle.mr_nogood.specs.Follows.{in_slots};
ghost use Rattle.mr_nogood.specs.declared.row.Row.{Row as RowIs};
ghost use Rattle.mr_exchange.specs.Board.{Holding, BoardFacts};
ghost use Rattle.mr_search.specs.Search.{Keeps, Learnt};
ghost use Rattle.mr_search.specs.Private.Steps.{Stands, CanSearch, Opens, Stopped, GoesOn};

use crate::SearchStop;
use mr_assign::Assign;
use mr_exchange::{Board, LOOKS, Look};
use mr_propagate::Index;
use std::alloc::AllocError;

/// A node that was opened: its ticket, and whether the looks after it showed a row that wasn't known.
#[derive(Clone, Copy)]
pub(crate) struct Opening {
    pub(crate) ticket: u32,
    pub(crate) learnt: bool,
}

/// Opens a node and makes the looks that are due for it, and learns what they show.
pub(crate) fn open<B: Board>(
    board: &mut B,
    index: &mut Index,
    node: &Assign,
    p: u32,
) -> Result<Opening, SearchStop>
    requires { CanSearch (B.holding board.old) index.old node.now p }
    ensures ok { IfOk result (λ opening. Opens (B.holding board.old) (B.holding board.new) index.new node.now opening.ticket) }
    ensures same { IfOk result (λ opening. opening.learnt ≡ false → index.new ≡ index.old) }
    ensures stop { let h = B.holding board.old in IfErr result (Stopped h.frame h (B.holding board.new) node.now p) }
    ensures mark { B.mark board.new ≡ B.mark board.old }
{
    match board.open_node(node) {
        None => Err(SearchStop::Over),
        Some(ticket) => {
            let _facts = board.problem();
            let learnt = look_about(board, index)?;
            Ok(Opening { ticket, learnt })
        }
    }
}

// Makes the looks that are due for one ticket, and tells whether they showed a row that wasn't known.
fn look_about<B: Board>(board: &mut B, index: &mut Index) -> Result<bool, AllocError>
    requires ticket { (B.holding board.old).tickets ≢ [] }
    requires facts { BoardFacts (B.holding board.old) }
    requires learnt { Learnt index.old (B.holding board.old) }
    ensures keeps { Keeps (B.holding board.old) [] (B.holding board.new) }
    ensures ok { IfOk result (λ _. GoesOn LOOKS (B.holding board.old) (B.holding board.new) × Learnt index.new (B.holding board.new) × BoardFacts (B.holding board.new)) }
    ensures same { IfOk result (λ learnt. learnt ≡ false → index.new ≡ index.old) }
    ensures mark { B.mark board.new ≡ B.mark board.old }
{
    let mut learnt = false;
    for _k in 0..LOOKS {
        let more = look(board, index)?;
        learnt |= more;
    }
    Ok(learnt)
}

// Makes one look, and learns the row that it shows if it isn't known. Tells whether it learnt one.
fn look<B: Board>(board: &mut B, index: &mut Index) -> Result<bool, AllocError>
    requires ticket { (B.holding board.old).tickets ≢ [] }
    requires learnt { Learnt index.old (B.holding board.old) }
    ensures moves { GoesOn 1 (B.holding board.old) (B.holding board.new) }
    ensures ok { IfOk result (λ _. Learnt index.new (B.holding board.new) × BoardFacts (B.holding board.new)) }
    ensures same { IfOk result (λ learnt. learnt ≡ false → index.new ≡ index.old) }
    ensures mark { B.mark board.new ≡ B.mark board.old }
{
    let look = board.look();
    let _facts = board.problem();
    match look {
        Look::Short(slot, row) => {
            if is_known(index, slot) {
                return Ok(false);
            }
            index.learn(slot, &row)?;
            Ok(true)
        }
        Look::Empty | Look::Long => Ok(false),
    }
}

// Whether a row of the slot was learnt.
fn is_known(index: &Index, slot: u32) -> bool
    ensures { MatchBool result ((row : RowIs) × (in_slots index.now slot ≡ Some row)) (in_slots index.now slot ≡ None) }
{
    match index.row(slot) {
        Some(_) => true,
        None => false,
    }
}
