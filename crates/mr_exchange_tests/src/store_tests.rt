ghost use Rattle.std.specs.Prelude.{◌≡◌, ◌≢◌, ◌≤◌, [], IfSome};
ghost use Rattle.std.specs.Bool.{OnTrue};
ghost use Rattle.mr_exchange.specs.Board.{GainsTicket};
ghost use Rattle.mr_store.specs.Cards.{mark_of};
ghost use Rattle.mr_exchange_tests.specs.Private.Stores.{HasClaimed, HasOpened, IsFirst, IsFresh, IsGathered, IsNew};

use crate::plane::{fano, test};
use mr_assign::Assign;
use mr_exchange::{Board, Closed, Look, Problem, cube_at};
use mr_field::Field;
use mr_frame::Frame;
use mr_matroid::Matroid;
use mr_nogood::{Cite, Row, follows};
use mr_set::sets_of;
use mr_store::{Card, Store};
use std::alloc::Global;

// The frame of thirteen points of a line over three elements. Its free positions are those of row 1 and the
// elements from 3 on.
fn line(alloc: Global) -> Option<Frame> {
    let none = sets_of(alloc, 13, 2, &[]).ok()??;
    let line = Matroid::from_nonbases(alloc, 13, 2, none.as_slice()).ok()?;
    Frame::new(alloc, line, Field::of(3)?).ok()
}

// With 2 at position 0 the points of the elements 2 and 3 are the two that are possible, and each value at
// position 9 puts that of element 12 on one of them.
fn row_on_line(clause: Assign) -> Row {
    let mut cites = [Cite::Nothing; 8];
    cites[0] = test((1 << 2) | (1 << 12));
    cites[1] = test((1 << 3) | (1 << 12));
    Row {
        rank: 0,
        at: 9,
        clause,
        cites,
    }
}

// Such a row with one pair.
fn short_row() -> Row {
    row_on_line(Assign::empty().with(0, 2))
}

// One with nine pairs.
fn long_row() -> Row {
    let mut clause = Assign::empty().with(0, 2);
    for p in 1..9 {
        clause = clause.with(p, 1);
    }
    row_on_line(clause)
}

// The map that gives these values to the positions 0 and 1.
pub(crate) fn pair(first: u8, second: u8) -> Assign
    requires first { (1 ≤ first) × (first ≤ 3) }
    requires second { (1 ≤ second) × (second ≤ 3) }
{
    Assign::empty().with(0, first).with(1, second)
}

// Whether a new pass claims this cube.
pub(crate) fn claims<B: Board>(board: &mut B, cube: u32) -> bool
    requires { IsNew (B.holding board.old) }
    ensures cube { OnTrue result (HasClaimed (B.holding board.new) cube) }
    ensures mark { B.mark board.new ≡ B.mark board.old }
{
    match board.claim() {
        Some(found) => found == cube,
        None => false,
    }
}

// The node of the cube that a pass claimed, and the ticket that it draws for it, if there is one left.
pub(crate) fn draws<B: Board>(board: &mut B, cube: u32) -> (Assign, Option<u32>)
    requires { HasClaimed (B.holding board.old) cube }
    ensures ticket { IfSome result.1 (HasOpened (B.holding board.new)) }
    ensures moves { IfSome result.1 (λ ticket. GainsTicket (B.holding board.old) result.0 ticket (B.holding board.new)) }
    ensures no_end { (B.holding board.new).claim_ends ≡ 0 }
    ensures mark { B.mark board.new ≡ B.mark board.old }
{
    let depth = board.problem().depth;
    let node = cube_at(board.frame(), depth, cube);
    (node, board.open_node(&node))
}

// Whether a pass that claimed the cube opens it, which is this node, with this ticket.
pub(crate) fn opens<B: Board>(board: &mut B, cube: u32, node: &Assign, ticket: u32) -> bool
    requires { HasClaimed (B.holding board.old) cube }
    ensures ticket { OnTrue result (HasOpened (B.holding board.new) ticket) }
    ensures mark { B.mark board.new ≡ B.mark board.old }
{
    let (found, drawn) = draws(board, cube);
    match drawn {
        Some(drawn) => drawn == ticket && found == *node,
        None => false,
    }
}

// Publishes a row that follows from sets that fail.
pub(crate) fn publishes<B: Board>(board: &mut B, slot: u32, row: &Row) -> bool
    requires { HasOpened (B.holding board.old) slot }
    ensures tickets { (B.holding board.new).tickets ≡ (B.holding board.old).tickets }
    ensures ends { (B.holding board.new).claim_ends ≡ (B.holding board.old).claim_ends }
    ensures mark { B.mark board.new ≡ B.mark board.old }
{
    if row.rank != 0 || !follows(board.frame(), row, &[]) {
        return false;
    }
    board.publish(slot, row);
    true
}

// Whether the next look shows this.
fn sees<B: Board>(board: &mut B, look: Look) -> bool
    requires { (B.holding board.old).tickets ≢ [] }
    ensures tickets { (B.holding board.new).tickets ≡ (B.holding board.old).tickets }
    ensures mark { B.mark board.new ≡ B.mark board.old }
{
    board.look() == look
}

// Closes a store whose passes are all joined.
pub(crate) fn closed(store: Store, first: Card) -> Option<Closed>
    requires { IsGathered store 0 first }
{
    store.close(first).ok()
}

// Whether a board shows so many openings and claims, and in its slots just these rows, from 0 on.
pub(crate) fn shows(closed: &Closed, opened: u32, claimed: u32, rows: &[Row]) -> bool {
    for slot in 0..10 {
        if closed.row(slot) != rows.get(slot as usize).copied() {
            return false;
        }
    }
    closed.opened() == opened && closed.claimed() == claimed
}

// Whether two new passes claim the first two cubes, and the second one opens before the first.
fn both_open<B: Board>(one: &mut B, two: &mut B) -> bool
    requires one { IsNew (B.holding one.old) }
    requires two { IsNew (B.holding two.old) }
    ensures one { OnTrue result (HasOpened (B.holding one.new) 1) }
    ensures two { OnTrue result (HasOpened (B.holding two.new) 0) }
    ensures marks { (B.mark one.new ≡ B.mark one.old) × (B.mark two.new ≡ B.mark two.old) }
{
    claims(one, 0)
        && claims(two, 1)
        && opens(two, 1, &pair(1, 2), 0)
        && opens(one, 0, &pair(1, 1), 1)
}

// Whether the next two looks show the long row and the short one.
fn sees_both<B: Board>(board: &mut B) -> bool
    requires { (B.holding board.old).tickets ≢ [] }
    ensures tickets { (B.holding board.new).tickets ≡ (B.holding board.old).tickets }
    ensures mark { B.mark board.new ≡ B.mark board.old }
{
    sees(board, Look::Long) && sees(board, Look::Short(1, short_row()))
}

// Whether the second one publishes the long row and the first one the short one, and sees both.
fn both_publish<B: Board>(one: &mut B, two: &mut B) -> bool
    requires one { HasOpened (B.holding one.old) 1 }
    requires two { HasOpened (B.holding two.old) 0 }
    ensures marks { (B.mark one.new ≡ B.mark one.old) × (B.mark two.new ≡ B.mark two.old) }
{
    publishes(two, 0, &long_row()) && publishes(one, 1, &short_row()) && sees_both(one)
}

// Whether two new passes do both.
fn both_play<B: Board>(one: &mut B, two: &mut B) -> bool
    requires one { IsNew (B.holding one.old) }
    requires two { IsNew (B.holding two.old) }
    ensures marks { (B.mark one.new ≡ B.mark one.old) × (B.mark two.new ≡ B.mark two.old) }
{
    both_open(one, two) && both_publish(one, two)
}

// Whether a new pass claims this cube, opens it with this ticket, and sees the long row in slot 0, the short one in
// slot 1, nothing from there on to its own slot, and the long one again.
fn meets_both<B: Board>(board: &mut B, cube: u32, node: &Assign, ticket: u32) -> bool
    requires { IsNew (B.holding board.old) }
    ensures mark { B.mark board.new ≡ B.mark board.old }
{
    if !claims(board, cube) || !opens(board, cube, node, ticket) || !sees_both(board) {
        return false;
    }
    for _slot in 1..ticket {
        if !sees(board, Look::Empty) {
            return false;
        }
    }
    sees(board, Look::Long)
}

// Whether two new passes meet both rows, each in its cube and with its ticket.
fn both_meet<B: Board>(three: &mut B, four: &mut B) -> bool
    requires three { IsNew (B.holding three.old) }
    requires four { IsNew (B.holding four.old) }
    ensures marks { (B.mark three.new ≡ B.mark three.old) × (B.mark four.new ≡ B.mark four.old) }
{
    meets_both(three, 2, &pair(2, 1), 2) && meets_both(four, 3, &pair(2, 2), 3)
}

// The passes of two cards play so.
fn publish_rows(store: &Store, first: Card, second: Card) -> (Card, Card, bool)
    requires first { IsFresh store.now first }
    requires second { IsFresh store.now second }
    ensures first { mark_of result.0 ≡ mark_of first }
    ensures second { mark_of result.1 ≡ mark_of second }
{
    let mut one = store.pass(first);
    let mut two = store.pass(second);
    let right = both_play(&mut one, &mut two);
    (one.card(), two.card(), right)
}

// The passes of two cards meet both rows.
fn meet_rows(store: &Store, before: Card, after: Card) -> (Card, Card, bool)
    requires before { IsFresh store.now before }
    requires after { IsFresh store.now after }
    ensures before { mark_of result.0 ≡ mark_of before }
    ensures after { mark_of result.1 ≡ mark_of after }
{
    let mut three = store.pass(before);
    let mut four = store.pass(after);
    let right = both_meet(&mut three, &mut four);
    (three.card(), four.card(), right)
}

// Two passes publish, and one that was made before and one that is made after them meet the rows.
fn play_four(store: &Store, mut first: Card) -> (Card, bool)
    requires first { IsFirst store.now 1 first }
    requires room { 4 ≤ store.now.setting.limit }
    ensures { IsGathered store.now 0 result.0 }
{
    let second = store.split(&mut first);
    let before = store.split(&mut first);
    let (mut first, second, published) = publish_rows(store, first, second);
    let after = store.split(&mut first);
    let (before, after, met) = meet_rows(store, before, after);
    store.join(&mut first, second);
    store.join(&mut first, before);
    store.join(&mut first, after);
    (first, published && met)
}

// Whether they do, and the closed board shows the rows.
fn meets_on(alloc: Global, frame: &Frame) -> Option<bool> {
    let (store, first) = Store::new(alloc, frame, Problem::of(frame, 2, 10), 4).ok()?;
    let (first, right) = play_four(&store, first);
    let closed = closed(store, first)?;
    Some(right && shows(&closed, 4, 4, &[long_row(), short_row()]))
}

// The same on the line.
fn meets_on_line(alloc: Global) -> Option<bool> {
    let line = line(alloc)?;
    meets_on(alloc, &line)
}

#[test]
fn rows_are_met_by_passes_made_before_and_after_them(rt: HostRuntime) {
    assert!(rt; meets_on_line(rt.alloc()) == Some(true));
}

// The first pass claims a cube, and opens no node.
fn claim_first(store: &Store, first: Card) -> (Card, bool)
    requires { IsFirst store.now 1 first }
    ensures { IsGathered store.now 0 result.0 }
{
    let mut pass = store.pass(first);
    let right = claims(&mut pass, 0);
    (pass.card(), right)
}

// Whether a store that is closed then shows one claim and no opening.
fn is_unopened_on(alloc: Global, frame: &Frame) -> Option<bool> {
    let (store, first) = Store::new(alloc, frame, Problem::of(frame, 1, 10), 3).ok()?;
    let (first, right) = claim_first(&store, first);
    let closed = closed(store, first)?;
    Some(right && shows(&closed, 0, 1, &[]))
}

// The same on the plane.
fn is_unopened_on_plane(alloc: Global) -> Option<bool> {
    let fano = fano(alloc, 3)?;
    is_unopened_on(alloc, &fano)
}

#[test]
fn a_store_may_be_closed_without_an_opening(rt: HostRuntime) {
    assert!(rt; is_unopened_on_plane(rt.alloc()) == Some(true));
}
