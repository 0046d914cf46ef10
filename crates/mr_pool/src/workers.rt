ghost use Rattle.std.specs.Prelude.{◌≡◌, ◌≤◌, ◌<◌, ◌+◌, ℕ, [], length, replicate, IfOk, None, Err, vec_len, vec_capacity};
ghost use Rattle.mr_search.specs.Nodes.{IsNeed};
ghost use Rattle.mr_store.specs.Cards.{mark_of, held_by};
ghost use Rattle.mr_pool.specs.Work.{IsFirst, IsGathered, IsWorked, IsOut};
ghost use Rattle.mr_pool.specs.Private.Desks.{AreNew, IsEmptyRow, HasGathered};

use crate::answered::{empty_row, in_order};
use crate::desk::{Desk, deal, serve_all};
use crate::gather::{Gathered, gather};
use mr_exchange::{AnswerList, CubeAnswer};
use mr_io::Gate;
use mr_store::{Card, Store};
use std::alloc::{AllocError, Global};
use std::thread::Threads;

/// The card of the first pass, into which all others were joined, and the answers of all cubes, in order.
#[derive(Drop)]
pub struct Worked {
    pub card: Card,
    pub answers: Result<AnswerList, WorkStop>,
}

/// Why not all cubes were answered: a worker was told that no ticket is left, or there was no memory.
#[derive(Clone, Copy, Debug, PartialEq, Eq)]
pub enum WorkStop {
    Over,
    Memory,
}

/// Searches all cubes of a store by so many workers at once, each with a pass of its own. The memory of the desks and
/// of the row of answers is taken before the first pass is split off; that of each worker's index and list of answers,
/// and that of the list that is given back, is taken later. The passes come back joined into the first after every
/// answer.
pub fn work<R: Threads + Sync, G: Gate + Sync>(
    rt: &R,
    alloc: Global,
    store: &Store<'_>,
    first: Card,
    workers: u32,
    gate: &G,
) -> Worked
    requires first { IsFirst store.now first }
    requires some { 1 ≤ workers }
    requires few { workers ≤ store.now.setting.limit }
    // After every answer.
    ensures gathered { IsGathered store.now result.card }
    ensures need { let setting = store.now.setting in (n : ℕ) → IsNeed setting.frame setting.problem.depth n → length (held_by result.card).tickets ≤ n }
    ensures ok { IfOk result.answers (IsWorked store.now workers result.card) }
    // Where a pass was told that no ticket is left.
    ensures over { result.answers ≡ Err WorkStop.Over → IsOut store.now result.card }
    ensures above { let setting = store.now.setting in (n : ℕ) → IsNeed setting.frame setting.problem.depth n → result.answers ≡ Err WorkStop.Over → length (held_by result.card).tickets < n }
{
    let Ok(lists) = lists(alloc, first.problem().cubes, workers) else {
        return Worked {
            card: first,
            answers: Err(WorkStop::Memory),
        };
    };
    let (row, mut desks) = lists;
    deal(store, alloc, first, workers, &mut desks);
    finish(
        alloc,
        store,
        search_desks(rt, alloc, store, gate, row, desks),
    )
}

// A row with a place for the answer of each cube, and room for so many desks.
fn lists(
    alloc: Global,
    cubes: u32,
    workers: u32,
) -> Result<(Vec<Option<CubeAnswer>>, Vec<Desk>), AllocError>
    ensures row { IfOk result (λ lists. lists.0.items ≡ replicate cubes None) }
    ensures desks { IfOk result (λ lists. (lists.1.items ≡ []) × (vec_capacity lists.1 ≡ workers)) }
{
    let row = empty_row(alloc, cubes)?;
    let desks = Vec::with_capacity(alloc, workers as usize)?;
    Ok((row, desks))
}

// What the workers of all desks leave, of which the last has the first pass.
fn search_desks<R: Threads + Sync, G: Gate + Sync>(
    rt: &R,
    alloc: Global,
    store: &Store<'_>,
    gate: &G,
    row: Vec<Option<CubeAnswer>>,
    mut desks: Vec<Desk>,
) -> Gathered
    requires row { IsEmptyRow store.now row.items }
    requires desks { AreNew store.now desks.items }
    ensures gathered { HasGathered store.now result }
    ensures made { (mark_of result.card).made ≡ vec_len desks }
    ensures joined { 1 + length (mark_of result.card).joined ≡ vec_len desks }
{
    serve_all(rt, alloc, store, gate, desks.as_mut_slice());
    gather(store, row, desks)
}

// The answers in the order of the cubes, unless a worker stopped.
fn finish(alloc: Global, store: &Store, gathered: Gathered) -> Worked
    requires gathered { HasGathered store.now gathered }
    requires all { 1 + length (mark_of gathered.card).joined ≡ (mark_of gathered.card).made }
    ensures gathered { IsGathered store.now result.card }
    ensures ok { IfOk result.answers (IsWorked store.now (mark_of gathered.card).made result.card) }
    ensures over { result.answers ≡ Err WorkStop.Over → IsOut store.now result.card }
{
    let Gathered { card, row, stop } = gathered;
    // The clauses of `problem` say what the first pass has once all others were joined into it.
    let _problem = card.problem();
    match stop {
        Some(stop) => Worked {
            card,
            answers: Err(stop),
        },
        None => match in_order(alloc, row) {
            Ok(answers) => Worked {
                card,
                answers: Ok(answers),
            },
            Err(_) => Worked {
                card,
                answers: Err(WorkStop::Memory),
            },
        },
    }
}
