ghost use Rattle.std.specs.Prelude.{◌≡◌, ◌+◌, ◌<◌, ◌≤◌, [], min, IfSome, length};
ghost use Rattle.std.specs.Bool.{OnTrue};
ghost use Rattle.mr_exchange.specs.declared.TheConstants.{LOOKS, NODES};
ghost use Rattle.mr_exchange.specs.Cubes.{IsProblemOf};
ghost use Rattle.mr_exchange.specs.Board.{new_holding};
ghost use Rattle.mr_exchange.specs.Plain.{plain_holding};
ghost use Rattle.mr_exchange_tests.specs.Private.Boards.{KnowsNone, KnowsOne, LookedOn};

use crate::plane::{fano, row};
use mr_assign::{Assign, AssignList};
use mr_exchange::{
    AnswerList, Board, Closed, CubeAnswer, LOOKS, Look, PlainBoard, Problem, SlotList,
};
use mr_frame::Frame;
use mr_nogood::{Cite, Row, follows};
use std::alloc::{AllocError, Global};

// The problem of splitting one position.
fn split_once(frame: &Frame, nodes: u32) -> Option<Problem>
    requires { (1 ≤ nodes) × (nodes ≤ NODES) }
    ensures { IfSome result (IsProblemOf frame.now) }
{
    if frame.free() == 0 {
        return None;
    }
    let cubes = u32::from(frame.field().order()).saturating_sub(1);
    Some(Problem {
        depth: 1,
        cubes,
        nodes,
    })
}

// Whether the frame has a free position for a node that gives 1 to the first, and the problem splits that one.
fn splits_first<B: Board>(board: &B) -> bool
    ensures place { OnTrue result (0 < length (B.holding board.now).frame.places) }
    ensures depth { OnTrue result ((B.holding board.now).problem.depth ≡ 1) }
{
    board.frame().free() > 0 && board.problem().depth == 1
}

// Whether a new pass claims the cube 0 and draws the ticket 0 for the node that gives 1 to position 0.
fn opens<B: Board>(board: &mut B) -> bool
    requires { B.holding board.old ≡ new_holding (B.holding board.old).frame (B.holding board.old).problem }
    ensures { OnTrue result (KnowsNone (B.holding board.new)) }
{
    if !splits_first(board) {
        return false;
    }
    match board.claim() {
        Some(0) => {}
        _ => return false,
    }
    match board.open_node(&Assign::empty().with(0, 1)) {
        Some(ticket) => ticket == 0,
        None => false,
    }
}

// Whether a look at the slot of its own shows no row.
fn sees_none<B: Board>(board: &mut B) -> bool
    requires { KnowsNone (B.holding board.old) }
    ensures { OnTrue result (KnowsNone (B.holding board.new)) }
{
    match board.look() {
        Look::Empty => true,
        Look::Long | Look::Short(_, _) => false,
    }
}

// Publishes a row that follows from sets that fail.
fn publishes<B: Board>(board: &mut B, row: &Row) -> bool
    requires { KnowsNone (B.holding board.old) }
    ensures { OnTrue result (KnowsOne (B.holding board.new) row.now) }
{
    if row.rank != 0 || !follows(board.frame(), row, &[]) {
        return false;
    }
    board.publish(0, row);
    true
}

// Whether a look at the slot of its own shows the row that it knows there.
fn sees_row<B: Board>(board: &mut B, row: &Row) -> bool
    requires { KnowsOne (B.holding board.old) row.now }
    ensures row { KnowsOne (B.holding board.new) row.now }
    ensures looks { min ((B.holding board.old).looks + 1) LOOKS ≤ (B.holding board.new).looks }
{
    // The clauses of `problem` say that the cursor is no further than the latest slot, and that there are no
    // more tickets than nodes.
    let _problem = board.problem();
    match board.look() {
        Look::Short(slot, found) => slot == 0 && found == *row,
        Look::Empty | Look::Long => false,
    }
}

// Makes the looks that are due for one ticket more.
fn looks_on<B: Board>(board: &mut B, row: &Row)
    requires { KnowsOne (B.holding board.old) row.now }
    ensures { LookedOn (B.holding board.new) row.now }
{
    for _k in 0..LOOKS {
        sees_row(board, row);
    }
}

// Whether a second node is opened, where the looks that are due were made and the row's clause isn't in the node.
fn opens_again<B: Board>(board: &mut B, row: &Row) -> bool
    requires { LookedOn (B.holding board.old) row.now }
    ensures { (B.holding board.new).claim_ends ≡ 0 }
{
    let node = Assign::empty().with(0, 1);
    if !splits_first(board) {
        return false;
    }
    if node.contains(&row.clause) {
        return false;
    }
    match board.open_node(&node) {
        Some(ticket) => ticket == 1,
        None => false,
    }
}

// Whether a new pass opens, looks and publishes as it should.
fn plays<B: Board>(board: &mut B, row: &Row) -> bool
    requires { B.holding board.old ≡ new_holding (B.holding board.old).frame (B.holding board.old).problem }
    ensures { OnTrue result ((B.holding board.new).claim_ends ≡ 0) }
{
    if !opens(board) {
        return false;
    }
    if !sees_none(board) {
        return false;
    }
    if !publishes(board, row) {
        return false;
    }
    if !sees_row(board, row) {
        return false;
    }
    looks_on(board, row);
    opens_again(board, row)
}

// Whether the pass claims the cube 1 and then none.
fn claims_the_rest(board: &mut PlainBoard<'_>) -> bool
    requires { (plain_holding board.old).claim_ends ≡ 0 }
{
    match board.claim() {
        Some(1) => board.claim().is_none(),
        _ => false,
    }
}

// What a board shows whose pass plays and claims as it should.
fn played(alloc: Global, frame: &Frame) -> Option<Closed> {
    let problem = split_once(frame, 10)?;
    let mut board = PlainBoard::new(alloc, frame, problem).ok()?;
    if !plays(&mut board, &row()) {
        return None;
    }
    if !claims_the_rest(&mut board) {
        return None;
    }
    Some(board.close())
}

// Whether two nodes were opened and two cubes claimed, and the row stands in the slot 0 and none in the others up to 10.
fn is_closed(closed: &Closed) -> bool {
    for slot in 1..11 {
        if closed.row(slot).is_some() {
            return false;
        }
    }
    closed.opened() == 2 && closed.claimed() == 2 && closed.row(0) == Some(row())
}

fn moved<T: Send + Sync>(value: T) -> T {
    value
}

// Whether that is so of a closed board, which may cross to another thread.
fn is_closed_on(alloc: Global, frame: &Frame) -> Option<bool> {
    let closed = moved(played(alloc, frame)?);
    Some(is_closed(&closed))
}

// The same on the plane.
fn is_closed_on_the_plane(alloc: Global) -> Option<bool> {
    let fano = fano(alloc, 3)?;
    is_closed_on(alloc, &fano)
}

#[test]
fn a_plain_board_answers_as_its_pass_and_may_cross_threads_once_closed(rt: HostRuntime) {
    assert!(rt; is_closed_on_the_plane(rt.alloc()) == Some(true));
}

// What a board shows in which nothing happened, from its parts.
fn untouched(alloc: Global, frame: &Frame) -> Result<Closed, AllocError> {
    let problem = Problem::of(frame, 1, 2);
    let mut rows = SlotList::new(alloc);
    rows.push(None)?;
    rows.push(None)?;
    Ok(Closed::of_parts(frame, problem, 0, 0, rows))
}

// Whether that is no node, no cube and no row.
fn is_untouched_on(alloc: Global, frame: &Frame) -> Option<bool> {
    let closed = untouched(alloc, frame).ok()?;
    let counts = (closed.opened(), closed.claimed());
    Some(counts == (0, 0) && closed.row(0).is_none() && closed.row(1).is_none())
}

// The same on the plane.
fn is_untouched(alloc: Global) -> Option<bool> {
    let fano = fano(alloc, 3)?;
    is_untouched_on(alloc, &fano)
}

#[test]
fn a_closed_board_has_the_parts_that_it_is_made_of(rt: HostRuntime) {
    assert!(rt; is_untouched(rt.alloc()) == Some(true));
}

// The list of the map with 1 at position 0.
fn found(alloc: Global) -> Option<AssignList> {
    let mut found = AssignList::new(alloc);
    found.push(Assign::empty().with(0, 1)).ok()?;
    Some(found)
}

// The answers that cube 0 has the map with 1 at position 0 and cube 1 is refuted by slot 3.
fn answers(alloc: Global) -> Option<AnswerList> {
    let found = found(alloc)?;
    let mut answers = AnswerList::new(alloc);
    answers.push(CubeAnswer::Found(found)).ok()?;
    answers.push(CubeAnswer::Refuted(Cite::Slot(3))).ok()?;
    Some(answers)
}

// Whether the map with 1 at position 0 is the only one.
fn is_the_one(found: &[Assign]) -> bool {
    match found {
        [only] => *only == Assign::empty().with(0, 1),
        _ => false,
    }
}

// Whether these are the two answers.
fn are_two_answers(answers: &[CubeAnswer]) -> bool {
    match answers {
        [CubeAnswer::Found(found), CubeAnswer::Refuted(cite)] => {
            is_the_one(found.as_slice()) && *cite == Cite::Slot(3)
        }
        _ => false,
    }
}

// Whether they are, and may cross to another thread.
fn are_answers_that_may_cross(alloc: Global) -> Option<bool> {
    let answers = moved(answers(alloc)?);
    Some(are_two_answers(answers.as_slice()))
}

// A slot without a row, and one with it.
fn slots(alloc: Global) -> Option<SlotList> {
    let mut slots = SlotList::new(alloc);
    slots.push(None).ok()?;
    slots.push(Some(row())).ok()?;
    Some(slots)
}

// Whether these are the two slots.
fn are_two_slots(slots: &[Option<Row>]) -> bool {
    match slots {
        [None, Some(found)] => *found == row(),
        _ => false,
    }
}

// Whether they are, and may cross to another thread.
fn are_slots_that_may_cross(alloc: Global) -> Option<bool> {
    let slots = moved(slots(alloc)?);
    Some(are_two_slots(slots.as_slice()))
}

#[test]
fn lists_keep_their_order_and_may_cross_threads(rt: HostRuntime) {
    assert!(rt; are_answers_that_may_cross(rt.alloc()) == Some(true));
    assert!(rt; are_slots_that_may_cross(rt.alloc()) == Some(true));
}
