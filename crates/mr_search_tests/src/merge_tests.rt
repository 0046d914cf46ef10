ghost use Rattle.std.specs.Prelude.{◌≡◌, length, IfOk, IfSome, IsTrue};
ghost use Rattle.std.specs.Bool.{OnTrue};
ghost use Rattle.mr_assign.specs.Assign.{IsAssign};
ghost use Rattle.mr_frame.specs.Test.{IsAssignmentOf, IsFull};
ghost use Rattle.mr_nogood.specs.Follows.{Rows, in_slots};
ghost use Rattle.mr_exchange.specs.declared.answer.CubeAnswer.TheVariants.{Refuted};
ghost use Rattle.mr_exchange.specs.Board.{new_holding};
ghost use Rattle.mr_exchange.specs.Plain.{plain_holding};
ghost use Rattle.mr_exchange.specs.Cubes.{IsProblemOf};
ghost use Rattle.mr_exchange.specs.Right.{AreAnswers, IsRight};
ghost use Rattle.mr_log.specs.Log.{IsLog};
ghost use Rattle.mr_merge.specs.Merged.{MatchMerged};
ghost use Rattle.mr_search_tests.specs.Private.Answered.{HasCube, HasTicket, StaysOn};

use crate::frames::{fano, test, uniform};
use mr_assign::{Assign, AssignList};
use mr_check::{Accepted, check};
use mr_exchange::{AnswerList, Board, Closed, CubeAnswer, PlainBoard, Problem, cube_at};
use mr_field::Field;
use mr_frame::Frame;
use mr_log::write_log;
use mr_merge::{Merged, merge};
use mr_nogood::{Cite, ROW_CITES, Row, fails, follows};
use mr_text::Text;
use std::alloc::{AllocError, Global};

// The answer for an assignment of all positions: itself where no set fails under it, else the first that does.
fn answer_of(alloc: Global, frame: &Frame, cube: &Assign) -> Result<CubeAnswer, AllocError>
    requires map { IsAssign cube.now }
    requires assignment { IsAssignmentOf frame.now cube.now }
    requires full { IsFull frame.now cube.now }
    ensures { (rows : Rows) → IfOk result (IsRight frame.now rows cube.now) }
{
    match frame.first_failing(cube) {
        Some(x) => Ok(CubeAnswer::Refuted(Cite::Test(x))),
        None => {
            let mut list = AssignList::new(alloc);
            match list.push(*cube) {
                Err(e) => Err(e),
                Ok(()) => Ok(CubeAnswer::Found(list)),
            }
        }
    }
}

// The answers for the cubes of a problem that splits all positions.
fn all_answers(alloc: Global, frame: &Frame, problem: Problem) -> Result<AnswerList, AllocError>
    requires problem { IsProblemOf frame.now problem }
    requires all { problem.depth ≡ length frame.now.places }
    ensures { (rows : Rows) → IfOk result (AreAnswers frame.now problem rows) }
{
    // The clauses of `basis` say that it is a frame.
    let _basis = frame.basis();
    let mut answers = AnswerList::new(alloc);
    for c in 0..problem.cubes {
        let cube = cube_at(frame, problem.depth, c);
        match answer_of(alloc, frame, &cube) {
            Err(e) => return Err(e),
            Ok(answer) => match answers.push(answer) {
                Err(e) => return Err(e),
                Ok(()) => {}
            },
        }
    }
    Ok(answers)
}

// What the answers for all full assignments of a frame with few positions are merged to.
fn merged(alloc: Global, frame: &Frame) -> Option<Merged>
    ensures { IfSome result (λ merged. MatchMerged merged (λ forms. Unit {0}) (λ log. IsLog log)) }
{
    let problem = Problem::of(frame, 4, 10);
    if problem.depth != frame.free() {
        return None;
    }
    let board = PlainBoard::new(alloc, frame, problem).ok()?;
    let closed = board.close();
    match all_answers(alloc, frame, problem) {
        Err(_) => None,
        Ok(answers) => match merge(alloc, frame, problem, &answers, &closed) {
            Err(_) => None,
            Ok(merged) => Some(merged),
        },
    }
}

// The text of the log that was made, if one was.
fn text_of(alloc: Global, merged: &Merged) -> Option<Text>
    requires { MatchMerged merged.now (λ forms. Unit {0}) (λ log. IsLog log) }
{
    match merged {
        Merged::Forms(_) => None,
        Merged::Refuted(log) => write_log(alloc, log).ok(),
    }
}

// Whether these forms were made.
fn are_forms(merged: &Merged, wanted: &[Assign]) -> bool {
    match merged {
        Merged::Forms(forms) => forms.as_slice() == wanted,
        Merged::Refuted(_) => false,
    }
}

// Whether a log of this text is accepted, and has so many steps.
fn is_accepted(alloc: Global, text: &[u8], field: Field, steps: u32) -> bool {
    if text.len() > 1000 {
        return false;
    }
    match check(alloc, text, field) {
        Ok(accepted) => accepted == Accepted { steps },
        Err(_) => false,
    }
}

// Whether the line of so many points has the forms with 2 and 3 at position 0 over four elements.
fn has_two_forms(alloc: Global) -> Option<bool> {
    let frame = uniform(alloc, 4, 2, 4)?;
    let merged = merged(alloc, &frame)?;
    let wanted = [Assign::empty().with(0, 2), Assign::empty().with(0, 3)];
    Some(are_forms(&merged, wanted.as_slice()))
}

#[test]
fn the_line_of_four_points_has_two_forms_over_four_elements(rt: HostRuntime) {
    assert!(rt; has_two_forms(rt.alloc()) == Some(true));
}

// The log of the line of five points over three elements: 1 at position 0 makes 2 3 fail, and with 2 there each value
// at position 1 makes a set fail.
const FIVE: &[u8] =
    b"refutation 1\nfield 3\nmatroid 1\nelements 5\nrank 2\nnonbases 0\nend\nsteps 2\nat 1 if 0:2 by t 2 4 t 3 4\nat 0 if - by t 2 3 s 0\nend s 1\n";

// That of the line of four points over two elements: without a position 2 3 fails at once.
const FOUR: &[u8] =
    b"refutation 1\nfield 2\nmatroid 1\nelements 4\nrank 2\nnonbases 0\nend\nsteps 0\nend t 2 3\n";

// The text of the log of a frame without forms.
fn log_text(alloc: Global, frame: &Frame) -> Option<Text> {
    let merged = merged(alloc, frame)?;
    text_of(alloc, &merged)
}

// Whether the line of so many points has this log, and it is accepted.
fn has_log(alloc: Global, n: u32, order: u32, wanted: &[u8], steps: u32) -> Option<bool> {
    let frame = uniform(alloc, n, 2, order)?;
    let text = log_text(alloc, &frame)?;
    Some(text.as_bytes() == wanted && is_accepted(alloc, wanted, frame.field(), steps))
}

#[test]
fn where_there_is_no_form_the_log_is_accepted(rt: HostRuntime) {
    assert!(rt; has_log(rt.alloc(), 5, 3, FIVE, 2) == Some(true));
    assert!(rt; has_log(rt.alloc(), 4, 2, FOUR, 0) == Some(true));
}

// Whether the log of the Fano plane is accepted. Its three free positions are all split: no cube has a completion.
fn is_fano_refuted(alloc: Global) -> Option<bool> {
    let frame = fano(alloc)?;
    let text = log_text(alloc, &frame)?;
    Some(is_accepted(alloc, text.as_bytes(), frame.field(), 3))
}

#[test]
fn the_fano_plane_is_refuted_over_three_elements(rt: HostRuntime) {
    assert!(rt; is_fano_refuted(rt.alloc()) == Some(true));
}

// Whether a new pass claims the cubes 0 and 1.
fn claims_two(board: &mut PlainBoard<'_>) -> bool
    requires { plain_holding board.old ≡ new_holding (plain_holding board.old).frame (plain_holding board.old).problem }
    ensures cube { OnTrue result (HasCube (plain_holding board.new)) }
    ensures stays { StaysOn (plain_holding board.old) (plain_holding board.new) }
{
    match board.claim() {
        Some(0) => {}
        _ => return false,
    }
    match board.claim() {
        Some(cube) => cube == 1,
        None => false,
    }
}

// Whether the pass draws the ticket 0 for the cube 1.
fn opens(board: &mut PlainBoard<'_>) -> bool
    requires { HasCube (plain_holding board.old) }
    ensures ticket { OnTrue result (HasTicket (plain_holding board.new)) }
    ensures stays { StaysOn (plain_holding board.old) (plain_holding board.new) }
{
    let problem = board.problem();
    if problem.cubes < 2 {
        return false;
    }
    let node = cube_at(board.frame(), problem.depth, 1);
    match board.open_node(&node) {
        Some(ticket) => ticket == 0,
        None => false,
    }
}

// Publishes a row that follows from sets that fail.
fn publishes(board: &mut PlainBoard<'_>, row: &Row) -> bool
    requires { HasTicket (plain_holding board.old) }
    ensures { StaysOn (plain_holding board.old) (plain_holding board.new) }
{
    if row.rank != 0 || !follows(board.frame(), row, &[]) {
        return false;
    }
    board.publish(0, row);
    true
}

// Whether a new pass publishes the row in the slot 0.
fn plays(board: &mut PlainBoard<'_>, row: &Row) -> bool
    requires { plain_holding board.old ≡ new_holding (plain_holding board.old).frame (plain_holding board.old).problem }
    ensures { StaysOn (plain_holding board.old) (plain_holding board.new) }
{
    if !claims_two(board) {
        return false;
    }
    if !opens(board) {
        return false;
    }
    publishes(board, row)
}

// Whether the set fails under the assignment, or the clause of the slot's row lies in it.
fn refutes(frame: &Frame, closed: &Closed, a: &Assign, cite: &Cite) -> bool
    requires { IsAssignmentOf frame.now a.now }
    ensures { IsTrue result → IsRight frame.now (in_slots closed.now.rows) a.now (Refuted cite.now) }
{
    match cite {
        Cite::Nothing => false,
        Cite::Test(x) => fails(frame, *x, a),
        Cite::Slot(s) => match closed.row(*s) {
            None => false,
            Some(row) => a.contains(&row.clause),
        },
    }
}

// The answers by these cites, where each refutes its cube.
fn answers_by(
    alloc: Global,
    frame: &Frame,
    problem: Problem,
    closed: &Closed,
    cites: &[Cite],
) -> Option<AnswerList>
    requires { IsProblemOf frame.now problem }
    ensures { IfSome result (AreAnswers frame.now problem (in_slots closed.now.rows)) }
{
    if cites.len() != problem.cubes as usize {
        return None;
    }
    let mut answers = AnswerList::new(alloc);
    for c in 0..problem.cubes {
        let cube = cube_at(frame, problem.depth, c);
        let cite = &cites[c as usize];
        if !refutes(frame, closed, &cube, cite) {
            return None;
        }
        match answers.push(CubeAnswer::Refuted(*cite)) {
            Err(_) => return None,
            Ok(()) => {}
        }
    }
    Some(answers)
}

// With 2 at position 0 each value at 1 makes 2 4 or 3 4 fail.
fn row() -> Row {
    let mut cites = [Cite::Nothing; ROW_CITES];
    cites[0] = test(0b10100);
    cites[1] = test(0b11000);
    Row {
        rank: 0,
        at: 1,
        clause: Assign::empty().with(0, 2),
        cites,
    }
}

// What a board shows whose pass publishes the row.
fn closed_with_row(alloc: Global, frame: &Frame, problem: Problem) -> Option<Closed>
    requires { IsProblemOf frame.now problem }
    ensures frame { IfSome result (λ closed. closed.frame ≡ frame.now) }
    ensures problem { IfSome result (λ closed. closed.problem ≡ problem) }
{
    match PlainBoard::new(alloc, frame, problem) {
        Err(_) => None,
        Ok(mut board) => {
            if plays(&mut board, &row()) {
                Some(board.close())
            } else {
                None
            }
        }
    }
}

// What is merged where one position is split, 2 3 refutes the first cube and the row of slot 0 the second.
fn merged_by_row(alloc: Global, frame: &Frame) -> Option<Merged>
    ensures { IfSome result (λ merged. MatchMerged merged (λ forms. Unit {0}) (λ log. IsLog log)) }
{
    let problem = Problem::of(frame, 1, 10);
    let closed = closed_with_row(alloc, frame, problem)?;
    let cites = [test(0b1100), Cite::Slot(0)];
    let answers = answers_by(alloc, frame, problem, &closed, cites.as_slice())?;
    match merge(alloc, frame, problem, &answers, &closed) {
        Err(_) => None,
        Ok(merged) => Some(merged),
    }
}

// Whether the log is the same, of whose steps the first is then the board's row.
fn has_log_by_row(alloc: Global) -> Option<bool> {
    let frame = uniform(alloc, 5, 2, 3)?;
    let merged = merged_by_row(alloc, &frame)?;
    let text = text_of(alloc, &merged)?;
    Some(text.as_bytes() == FIVE)
}

#[test]
fn a_row_of_the_board_becomes_a_step(rt: HostRuntime) {
    assert!(rt; has_log_by_row(rt.alloc()) == Some(true));
}
