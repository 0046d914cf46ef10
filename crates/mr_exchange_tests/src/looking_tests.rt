// A pass looks for rows that another one publishes, and goes on to its next node.
ghost use Rattle.std.specs.Prelude.{◌≡◌, ◌+◌, ◌≤◌, min};
ghost use Rattle.std.specs.Bool.{OnTrue};
ghost use Rattle.mr_exchange.specs.declared.TheConstants.{LOOKS};
ghost use Rattle.mr_store.specs.Cards.{mark_of};
ghost use Rattle.mr_exchange_tests.specs.Private.Stores.{HasClaimed, HasOpened, IsFirst, IsFresh, IsGathered, IsLooking, IsNew};

use crate::plane::{fano, row};
use crate::store_tests::{claims, closed, draws, opens, pair, publishes, shows};
use mr_assign::Assign;
use mr_exchange::{Board, Look, Problem};
use mr_frame::Frame;
use mr_store::{Card, Store};
use std::alloc::Global;

// The map that gives this value to position 0.
fn single(value: u8) -> Assign
    requires { (1 ≤ value) × (value ≤ 3) }
{
    Assign::empty().with(0, value)
}

// Whether a pass that claimed the cube opens it, which is this node, with this ticket, and the next node, which is an
// assignment, has more values.
fn opens_before<B: Board>(
    board: &mut B,
    cube: u32,
    node: &Assign,
    ticket: u32,
    next: &Assign,
) -> bool
    requires { HasClaimed (B.holding board.old) cube }
    ensures looking { OnTrue result (IsLooking (B.holding board.new) next.now) }
    ensures mark { B.mark board.new ≡ B.mark board.old }
{
    let (found, drawn) = draws(board, cube);
    let Some(drawn) = drawn else {
        return false;
    };
    if found != *node || drawn != ticket {
        return false;
    }
    next.contains(&found) && board.frame().is_assignment(next)
}

// Whether the next look shows this, and no row whose clause is in the next node.
fn meets<B: Board>(board: &mut B, next: &Assign, look: Look) -> bool
    requires { IsLooking (B.holding board.old) next.now }
    ensures looking { OnTrue result (IsLooking (B.holding board.new) next.now) }
    ensures looks { min ((B.holding board.old).looks + 1) LOOKS ≤ (B.holding board.new).looks }
    ensures mark { B.mark board.new ≡ B.mark board.old }
{
    // The clauses of `problem` say that there are nodes, so that the look counts.
    let _problem = board.problem();
    match board.look() {
        Look::Empty => look == Look::Empty,
        Look::Long => false,
        Look::Short(slot, row) => !next.contains(&row.clause) && look == Look::Short(slot, row),
    }
}

// Whether the next two looks show these.
fn meets_two<B: Board>(board: &mut B, next: &Assign, first: Look, second: Look) -> bool
    requires { IsLooking (B.holding board.old) next.now }
    ensures looking { OnTrue result (IsLooking (B.holding board.new) next.now) }
    ensures looks { OnTrue result (min ((B.holding board.old).looks + 2) LOOKS ≤ (B.holding board.new).looks) }
    ensures mark { B.mark board.new ≡ B.mark board.old }
{
    meets(board, next, first) && meets(board, next, second)
}

// Whether a pass that made the looks that are due opens the next node with this ticket.
fn opens_next<B: Board>(board: &mut B, next: &Assign, ticket: u32) -> bool
    requires looking { IsLooking (B.holding board.old) next.now }
    requires looks { LOOKS ≤ (B.holding board.old).looks }
    ensures { B.mark board.new ≡ B.mark board.old }
{
    match board.open_node(next) {
        Some(found) => found == ticket,
        None => false,
    }
}

// Whether two new passes claim and open the two cubes, one after the other.
fn both_open<B: Board>(one: &mut B, two: &mut B, next: &Assign) -> bool
    requires one { IsNew (B.holding one.old) }
    requires two { IsNew (B.holding two.old) }
    ensures one { OnTrue result (HasOpened (B.holding one.new) 0) }
    ensures two { OnTrue result (IsLooking (B.holding two.new) next.now) }
    ensures marks { (B.mark one.new ≡ B.mark one.old) × (B.mark two.new ≡ B.mark two.old) }
{
    claims(one, 0)
        && opens(one, 0, &single(1), 0)
        && claims(two, 1)
        && opens_before(two, 1, &single(2), 1, next)
}

// Whether the second one sees no row in the slots 0 and 1 before the first one publishes, and then just that row, and
// opens its next node.
fn one_publishes<B: Board>(one: &mut B, two: &mut B, next: &Assign) -> bool
    requires one { HasOpened (B.holding one.old) 0 }
    requires two { IsLooking (B.holding two.old) next.now }
    ensures marks { (B.mark one.new ≡ B.mark one.old) × (B.mark two.new ≡ B.mark two.old) }
{
    meets_two(two, next, Look::Empty, Look::Empty)
        && publishes(one, 0, &row())
        && meets_two(two, next, Look::Short(0, row()), Look::Empty)
        && opens_next(two, next, 2)
}

// Whether two new passes do both.
fn both_play<B: Board>(one: &mut B, two: &mut B) -> bool
    requires one { IsNew (B.holding one.old) }
    requires two { IsNew (B.holding two.old) }
    ensures marks { (B.mark one.new ≡ B.mark one.old) × (B.mark two.new ≡ B.mark two.old) }
{
    let next = pair(2, 1);
    both_open(one, two, &next) && one_publishes(one, two, &next)
}

// The passes of two cards play so.
fn play_cards(store: &Store, publisher: Card, looker: Card) -> (Card, Card, bool)
    requires publisher { IsFresh store.now publisher }
    requires looker { IsFresh store.now looker }
    ensures publisher { mark_of result.0 ≡ mark_of publisher }
    ensures looker { mark_of result.1 ≡ mark_of looker }
{
    let mut publishing = store.pass(publisher);
    let mut looking = store.pass(looker);
    let right = both_play(&mut publishing, &mut looking);
    (publishing.card(), looking.card(), right)
}

// The first pass and a second one play, and are joined.
fn play_two(store: &Store, mut first: Card) -> (Card, bool)
    requires first { IsFirst store.now 1 first }
    requires room { 2 ≤ store.now.setting.limit }
    ensures { IsGathered store.now 0 result.0 }
{
    let looker = store.split(&mut first);
    let (mut first, looker, right) = play_cards(store, first, looker);
    store.join(&mut first, looker);
    (first, right)
}

// Whether they do, and the closed board shows the row.
fn sees_on(alloc: Global, frame: &Frame) -> Option<bool> {
    let (store, first) = Store::new(alloc, frame, Problem::of(frame, 1, 10), 2).ok()?;
    let (first, right) = play_two(&store, first);
    let closed = closed(store, first)?;
    Some(right && shows(&closed, 3, 2, &[row()]))
}

// The same on the plane.
fn sees_on_plane(alloc: Global) -> Option<bool> {
    let fano = fano(alloc, 3)?;
    sees_on(alloc, &fano)
}

#[test]
fn a_row_that_one_pass_publishes_another_sees(rt: HostRuntime) {
    assert!(rt; sees_on_plane(rt.alloc()) == Some(true));
}
