ghost use Rattle.std.specs.Prelude.{◌≡◌, ◌↔◌, ◌<◌, ◌≤◌, ◌+◌, ℕ, false, IsNone, IfOk, IfErr, IfSome, MatchOption, length, slice_index, slice_set};
ghost use Rattle.mr_assign.specs.declared.TheConstants.{POSITIONS};
ghost use Rattle.mr_nogood.specs.Follows.{in_slots};
ghost use Rattle.mr_field.specs.Gf.{order};
ghost use Rattle.mr_exchange.specs.Board.{Holding};
ghost use Rattle.mr_propagate.specs.Index.{NoneFailsAt, IsFirstFailingAt, NothingInside, IsLeastInside};
ghost use Rattle.mr_search.specs.Private.Citing.{HasValueAt};
ghost use Rattle.mr_search.specs.Private.Steps.{CanSearch, Answered, Stopped, IsStep, AreValues};

use crate::SearchStop;
use crate::deducing::has_value_at;
use crate::opening::open;
use crate::outcome::{Outcome, Step, Values};
use crate::publishing::publish;
use mr_assign::{Assign, AssignList};
use mr_exchange::Board;
use mr_nogood::{Cite, ROW_CITES};
use mr_propagate::{Index, first_failing_values};
use mr_set::Set;

/// Searches a node that gives values to just the positions below p: opens it, and finds its completions or
/// why it has none. The completions are appended to the list.
#[cycle(search)]
pub(crate) fn search_node<B: Board>(
    board: &mut B,
    index: &mut Index,
    node: &Assign,
    p: u32,
    found: &mut AssignList,
) -> Result<Outcome, SearchStop>
    requires { CanSearch (B.holding board.old) index.old node.now p }
    ensures ok { let h = B.holding board.old in IfOk result (Answered h.frame h (B.holding board.new) index.new node.now p found.old found.new) }
    ensures stop { let h = B.holding board.old in IfErr result (Stopped h.frame h (B.holding board.new) node.now p) }
    ensures mark { B.mark board.new ≡ B.mark board.old }
{
    let opening = open(board, index, node, p)?;
    if let Some(slot) = inside_now(index, node, p, opening.learnt) {
        return Ok(Outcome::Excluded(Cite::Slot(slot)));
    }
    if p == board.frame().free() {
        found.push(*node)?;
        return Ok(Outcome::Completed);
    }
    match search_values(board, index, node, p, found)? {
        Values::Completed => Ok(Outcome::Completed),
        Values::Inside(slot) => Ok(Outcome::Excluded(Cite::Slot(slot))),
        Values::Excluded(cites) => {
            let ticket = opening.ticket;
            publish(board, index, node, p, ticket, cites)?;
            Ok(Outcome::Deduced(ticket))
        }
    }
}

// Searches a node with each value at position p.
#[cycle(search)]
fn search_values<B: Board>(
    board: &mut B,
    index: &mut Index,
    node: &Assign,
    p: u32,
    found: &mut AssignList,
) -> Result<Values, SearchStop>
    requires can { CanSearch (B.holding board.old) index.old node.now p }
    requires position { p < length (B.holding board.old).frame.places }
    ensures ok { let h = B.holding board.old in IfOk result (AreValues h.frame h (B.holding board.new) index.new node.now p found.old found.new) }
    ensures stop { let h = B.holding board.old in IfErr result (Stopped h.frame h (B.holding board.new) node.now (p + 1)) }
    ensures mark { B.mark board.new ≡ B.mark board.old }
{
    let start = found.as_slice().len();
    let mut cites = [Cite::Nothing; ROW_CITES];
    let first = first_failing_values(board.frame(), node, p);
    for v in 1..board.frame().field().order() {
        match search_value(board, index, node, p, v, first[v as usize], found)? {
            Step::Completed => {}
            Step::Excluded(cite) => cites[v as usize - 1] = cite,
            Step::Inside(slot) => return Ok(Values::Inside(slot)),
        }
    }
    if found.as_slice().len() > start {
        Ok(Values::Completed)
    } else {
        Ok(Values::Excluded(cites))
    }
}

// Searches a node with the value v at position p, where the first set that fails with it is known.
#[cycle(search)]
fn search_value<B: Board>(
    board: &mut B,
    index: &mut Index,
    node: &Assign,
    p: u32,
    v: u8,
    first: Option<Set>,
    found: &mut AssignList,
) -> Result<Step, SearchStop>
    requires can { CanSearch (B.holding board.old) index.old node.now p }
    requires position { p < length (B.holding board.old).frame.places }
    requires low { 0 < v }
    requires high { v < order (B.holding board.old).frame.field }
    requires first { let f = (B.holding board.old).frame in MatchOption first (NoneFailsAt f (slice_set node.now p v) p) (IsFirstFailingAt f (slice_set node.now p v) p) }
    ensures ok { let h = B.holding board.old in IfOk result (IsStep h.frame h (B.holding board.new) index.new node.now p v found.old found.new) }
    ensures stop { let h = B.holding board.old in IfErr result (Stopped h.frame h (B.holding board.new) (slice_set node.now p v) (p + 1)) }
    ensures mark { B.mark board.new ≡ B.mark board.old }
{
    if let Some(cite) = index.excluded_by(board.frame(), node, p, v, first) {
        return Ok(Step::Excluded(cite));
    }
    // The clauses of `free` and of `words` say how many positions there are.
    let _free = board.frame().free();
    let child = node.with(p, v);
    let _words = child.words();
    match search_node(board, index, &child, p + 1, found)? {
        Outcome::Completed => Ok(Step::Completed),
        Outcome::Excluded(cite) => match index.inside_below(node, p) {
            Some(slot) => Ok(Step::Inside(slot)),
            None => Ok(Step::Excluded(cite)),
        },
        Outcome::Deduced(slot) => match inside_after(index, node, p, slot) {
            Some(other) => Ok(Step::Inside(other)),
            None => Ok(Step::Excluded(Cite::Slot(slot))),
        },
    }
}

// The least slot with a row whose clause is in a node that gives values to just the positions below p. Where nothing was
// learnt since there was none, there is none.
fn inside_now(index: &Index, node: &Assign, p: u32, learnt: bool) -> Option<u32>
    requires position { p ≤ POSITIONS }
    requires last { (q : ℕ) → p ≤ q → slice_index node.now q ≡ 0 }
    requires nothing { learnt ≡ false → NothingInside (in_slots index.now) node.now }
    ensures none { IsNone result ↔ NothingInside (in_slots index.now) node.now }
    ensures some { IfSome result (IsLeastInside (in_slots index.now) node.now) }
{
    if !learnt {
        return None;
    }
    index.inside_below(node, p)
}

// The same where no other row than the slot's may have its clause in the node. There is none where that row has a value
// at p.
fn inside_after(index: &Index, node: &Assign, p: u32, slot: u32) -> Option<u32>
    requires position { p < POSITIONS }
    requires last { (q : ℕ) → p ≤ q → slice_index node.now q ≡ 0 }
    requires nothing { HasValueAt (in_slots index.now) slot p → NothingInside (in_slots index.now) node.now }
    ensures none { IsNone result ↔ NothingInside (in_slots index.now) node.now }
    ensures some { IfSome result (IsLeastInside (in_slots index.now) node.now) }
{
    if has_value_at(index, slot, p) {
        return None;
    }
    index.inside_below(node, p)
}
