ghost use Rattle.std.specs.Prelude.{◌≤◌};
ghost use Rattle.mr_exchange.specs.declared.TheConstants.{NODES};

use crate::frames::{fano, uniform};
use mr_assign::Assign;
use mr_exchange::{Board, CubeAnswer, PlainBoard, Problem};
use mr_frame::Frame;
use mr_nogood::Cite;
use mr_propagate::Index;
use mr_search::{SearchStop, search_cube};
use std::alloc::{AllocError, Global};

// How a search ends: with the completions that give 2 and 3 to position 0, with other ones, with a set, told by its
// mask, with a row, without a ticket or memory, or before it, without a cube.
#[derive(Clone, Copy, PartialEq, Eq)]
enum End {
    TwoAndThree,
    Others,
    Set(u64),
    Row,
    Over,
    Memory,
    Unclaimed,
}

// How a search ends that refutes its cube.
fn refuted(cite: &Cite) -> End {
    match cite {
        Cite::Test(x) => End::Set(x.mask()),
        Cite::Slot(_) => End::Row,
        Cite::Nothing => End::Others,
    }
}

// How a search ends that finds these completions.
fn completed(found: &[Assign]) -> End {
    match found {
        [two, three] => {
            if *two == Assign::empty().with(0, 2) && *three == Assign::empty().with(0, 3) {
                End::TwoAndThree
            } else {
                End::Others
            }
        }
        _ => End::Others,
    }
}

// How a search ends that has an answer.
fn answered(answer: &CubeAnswer) -> End {
    match answer {
        CubeAnswer::Found(found) => completed(found.as_slice()),
        CubeAnswer::Refuted(cite) => refuted(cite),
    }
}

// How a search ends that has none.
fn stopped(stop: SearchStop) -> End {
    match stop {
        SearchStop::Over => End::Over,
        SearchStop::Memory => End::Memory,
    }
}

// How a search ends.
fn ended(searched: &Result<CubeAnswer, SearchStop>) -> End {
    match searched {
        Ok(answer) => answered(answer),
        Err(stop) => stopped(*stop),
    }
}

// How the search of the one cube of no positions ends.
fn searched(alloc: Global, frame: &Frame, nodes: u32) -> Result<End, AllocError>
    requires some { 1 ≤ nodes }
    requires few { nodes ≤ NODES }
{
    let problem = Problem::of(frame, 0, nodes);
    let mut board = PlainBoard::new(alloc, frame, problem)?;
    let mut index = Index::new(alloc, frame)?;
    match board.claim() {
        None => Ok(End::Unclaimed),
        Some(cube) => Ok(ended(&search_cube(alloc, &mut board, &mut index, cube))),
    }
}

// How that of four points on a line ends. Over more than two elements one position is free.
fn four_points_searched(alloc: Global, q: u32, nodes: u32) -> Option<End>
    requires some { 1 ≤ nodes }
    requires few { nodes ≤ NODES }
{
    let frame = uniform(alloc, 4, 2, q)?;
    searched(alloc, &frame, nodes).ok()
}

// How that of the Fano plane ends.
fn fano_searched(alloc: Global) -> Option<End> {
    let frame = fano(alloc)?;
    searched(alloc, &frame, 15).ok()
}

#[test]
fn four_points_have_two_completions_over_four_elements(rt: HostRuntime) {
    assert!(rt; four_points_searched(rt.alloc(), 4, 4) == Some(End::TwoAndThree));
}

#[test]
fn the_fano_plane_is_refuted_by_a_row_over_three_elements(rt: HostRuntime) {
    assert!(rt; fano_searched(rt.alloc()) == Some(End::Row));
}

#[test]
fn four_points_are_refuted_by_a_set_over_two_elements(rt: HostRuntime) {
    assert!(rt; four_points_searched(rt.alloc(), 2, 1) == Some(End::Set(0b1100)));
}

#[test]
fn one_node_is_too_few_for_four_points(rt: HostRuntime) {
    assert!(rt; four_points_searched(rt.alloc(), 4, 1) == Some(End::Over));
}
