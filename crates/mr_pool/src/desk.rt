ghost use Rattle.std.specs.Prelude.{◌≡◌, ◌<◌, ◌≤◌, ℕ, [], length, All, slice_index_or, vec_len, vec_capacity, Some};
ghost use Rattle.mr_exchange.specs.Board.{Holding, new_holding};
ghost use Rattle.mr_store.specs.Cards.{store_of, mark_of};
ghost use Rattle.mr_pool.specs.declared.desk.Desk.{Desk as DeskIs};
ghost use Rattle.mr_pool.specs.Private.Desks.{HasEnded, IsNewDesk, IsServed, AreNew};
ghost use Rattle.mr_pool.specs.Work.{IsFirst};

use crate::answered::Answered;
use crate::cubes::search_cubes;
use crate::{Gated, WorkStop};
use mr_exchange::Board;
use mr_io::Gate;
use mr_propagate::Index;
use mr_search::SearchStop;
use mr_store::{Card, Pass, Store};
use std::alloc::Global;
use std::thread;
use std::thread::Threads;

/// A worker's place: its card while it is not at work, the answers of the cubes that it claimed, and why it stopped
/// before it was told that none is left.
#[derive(Drop)]
pub(crate) struct Desk {
    pub(crate) worker: u32,
    pub(crate) card: Option<Card>,
    pub(crate) list: Vec<Answered>,
    pub(crate) stop: Option<WorkStop>,
}

impl Desk {
    pub(crate) fn new(alloc: Global, worker: u32, card: Card) -> Desk
        ensures worker { result.worker ≡ worker }
        ensures card { result.card ≡ Some card }
        ensures list { result.list.items ≡ [] }
    {
        Desk {
            worker,
            card: Some(card),
            list: Vec::new(alloc),
            stop: None,
        }
    }
}

/// A new pass claims cubes until it is told that none is left, with an index of its own.
pub(crate) fn search_all<B: Board>(
    alloc: Global,
    board: &mut B,
    list: &mut Vec<Answered>,
) -> Option<WorkStop>
    requires new { let h = B.holding board.old in h ≡ new_holding h.frame h.problem }
    requires none { list.old.items ≡ [] }
    ensures mark { B.mark board.new ≡ B.mark board.old }
    ensures ended { HasEnded (B.holding board.new) list.new.items 1 result }
{
    // The clauses of `problem` say what holds of the pass.
    let _problem = board.problem();
    let Ok(mut index) = Index::new(alloc, board.frame()) else {
        return Some(WorkStop::Memory);
    };
    match search_cubes(alloc, board, &mut index, list) {
        Ok(()) => None,
        Err(stop) => match stop {
            SearchStop::Over => Some(WorkStop::Over),
            SearchStop::Memory => Some(WorkStop::Memory),
        },
    }
}

// A card's pass, whose worker, of the same number, passes the gate.
fn gated<'a, 'f, G>(
    store: &'a Store<'f>,
    card: Card,
    worker: u32,
    gate: &'a G,
) -> Gated<'a, Pass<'a, 'f>, G>
    requires store { store_of card ≡ store.now }
    requires alone { (mark_of card).joined ≡ [] }
    requires number { (mark_of card).number ≡ worker }
    ensures board { result.board ≡ card }
    ensures worker { result.worker ≡ worker }
{
    Gated::new(store.pass(card), worker, gate)
}

// The desk's pass claims cubes until it is told that none is left or stops before, and its card comes back.
fn serve<G: Gate>(alloc: Global, store: &Store, gate: &G, desk: &mut Desk)
    requires { IsNewDesk store.now desk.old }
    ensures { IsServed desk.old desk.new }
{
    let Some(card) = desk.card.take() else {
        return;
    };
    let mut board = gated(store, card, desk.worker, gate);
    desk.stop = search_all(alloc, &mut board, &mut desk.list);
    desk.card = Some(board.board().card());
}

/// The workers of all desks at once.
pub(crate) fn serve_all<R: Threads + Sync, G: Gate + Sync>(
    rt: &R,
    alloc: Global,
    store: &Store,
    gate: &G,
    desks: &mut [Desk],
)
    requires some { 0 < length desks.old }
    requires new { All (IsNewDesk store.now) desks.old }
    ensures { (i : ℕ) (d : DeskIs) → i < length desks.old → IsServed (slice_index_or desks.old i d) (slice_index_or desks.new i d) }
{
    let threads = desks.len();
    let turn = |_i: usize, desk: &mut Desk|
        requires { IsNewDesk store.now desk.old }
        ensures { IsServed desk.old desk.new }
    { serve(alloc, store, gate, desk) };
    thread::for_each_mut(rt, desks, threads, &turn);
}

/// Splits off a pass for each worker but the first, and gives each a desk, for which there is room. That of the first is
/// the last.
pub(crate) fn deal(
    store: &Store,
    alloc: Global,
    mut first: Card,
    workers: u32,
    desks: &mut Vec<Desk>,
)
    requires first { IsFirst store.now first }
    requires some { 1 ≤ workers }
    requires few { workers ≤ store.now.setting.limit }
    requires desks { (desks.old.items ≡ []) × (workers ≤ vec_capacity desks.old) }
    ensures new { AreNew store.now desks.new.items }
    ensures count { vec_len desks.new ≡ workers }
{
    for worker in 1..workers {
        let card = store.split(&mut first);
        desks.push_reserved(Desk::new(alloc, worker, card));
    }
    desks.push_reserved(Desk::new(alloc, 0, first));
}
