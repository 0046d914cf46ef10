ghost use Rattle.std.specs.Prelude.{◌≡◌, ◌≤◌, ◌+◌, length, All, vec_len};
ghost use Rattle.mr_store.specs.Cards.{mark_of};
ghost use Rattle.mr_pool.specs.Private.Desks.{HasCard, HasGathered, IsDoneDesk, IsEmptyRow, IsFirstDone, AreDone, worse_of};

use crate::WorkStop;
use crate::answered::put_all;
use crate::desk::Desk;
use mr_exchange::CubeAnswer;
use mr_store::{Card, Store};

/// What the passes left that were joined so far: the card of the first, the answers at the places of their cubes, and
/// why one of them stopped before it was told that none is left. The row is used only where none did.
#[derive(Drop)]
pub(crate) struct Gathered {
    pub(crate) card: Card,
    pub(crate) row: Vec<Option<CubeAnswer>>,
    pub(crate) stop: Option<WorkStop>,
}

// What the first pass left.
fn begin(store: &Store, mut row: Vec<Option<CubeAnswer>>, desk: Desk) -> Gathered
    requires row { IsEmptyRow store.now row.items }
    requires desk { IsFirstDone store.now desk }
    ensures gathered { HasGathered store.now result }
    ensures mark { HasCard (λ card. mark_of result.card ≡ mark_of card) desk.card }
{
    let Desk {
        worker: _,
        card,
        list,
        stop,
    } = desk;
    let Some(card) = card else { unreachable!() };
    match stop {
        Some(stop) => Gathered {
            card,
            row,
            stop: Some(stop),
        },
        None => {
            put_all(&mut row, list);
            Gathered {
                card,
                row,
                stop: None,
            }
        }
    }
}

// The stop of two passes.
fn worse(first: Option<WorkStop>, other: Option<WorkStop>) -> Option<WorkStop>
    ensures { result ≡ worse_of first other }
{
    match first {
        None => other,
        Some(stop) => match stop {
            WorkStop::Memory => first,
            WorkStop::Over => match other {
                None => first,
                Some(_) => other,
            },
        },
    }
}

// Joins the pass of a desk into the first.
fn take_in(store: &Store, gathered: &mut Gathered, desk: Desk)
    requires gathered { HasGathered store.now gathered.old }
    requires desk { IsDoneDesk store.now desk }
    ensures gathered { HasGathered store.now gathered.new }
    ensures made { (mark_of gathered.new.card).made ≡ (mark_of gathered.old.card).made }
    ensures joined { length (mark_of gathered.new.card).joined ≡ length (mark_of gathered.old.card).joined + 1 }
    // Want of memory goes before want of tickets.
    ensures stop { gathered.new.stop ≡ worse_of gathered.old.stop desk.stop }
{
    let Desk {
        worker: _,
        card,
        list,
        stop,
    } = desk;
    let Some(card) = card else { unreachable!() };
    store.join(&mut gathered.card, card);
    gathered.stop = worse(gathered.stop, stop);
    if gathered.stop.is_some() {
        return;
    }
    put_all(&mut gathered.row, list);
}

/// Joins the passes of all desks into that of the last, which is the first pass.
pub(crate) fn gather(store: &Store, row: Vec<Option<CubeAnswer>>, mut desks: Vec<Desk>) -> Gathered
    requires row { IsEmptyRow store.now row.items }
    requires desks { AreDone store.now desks.items }
    ensures gathered { HasGathered store.now result }
    ensures made { (mark_of result.card).made ≡ vec_len desks }
    ensures joined { 1 + length (mark_of result.card).joined ≡ vec_len desks }
{
    let Some(desk) = desks.pop() else {
        unreachable!()
    };
    let mut gathered = begin(store, row, desk);
    while let Some(desk) = desks.pop() {
        take_in(store, &mut gathered, desk);
    }
    gathered
}
