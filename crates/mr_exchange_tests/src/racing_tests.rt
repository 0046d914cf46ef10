// Passes that claim, open, publish and look at once.
ghost use Rattle.std.specs.Prelude.{◌≡◌, ◌≢◌, ◌+◌, ◌≤◌, [], length, All, IfSome, vec_len, vec_capacity};
ghost use Rattle.mr_exchange.specs.declared.TheConstants.{PASSES};
ghost use Rattle.mr_store.specs.Cards.{store_of, mark_of};
ghost use Rattle.mr_exchange_tests.specs.Private.Stores.{HasClaimed, IsFirst, IsFresh, IsGathered, IsNew, IsRacer, IsReady};

use crate::plane::{fano, test};
use crate::store_tests::{closed, draws, publishes};
use mr_assign::Assign;
use mr_exchange::{Board, Closed, Look, Problem};
use mr_frame::Frame;
use mr_nogood::Row;
use mr_store::{Card, Store};
use std::alloc::Global;
use std::thread;
use std::thread::Threads;

// There are 64 cubes, and fewer nodes than passes may be, so that some of 64 passes may be told that no ticket is left.
const DEPTH: u32 = 2;

const NODES: u32 = 40;

// How often a pass looks: some times at each slot.
const ROUNDS: u32 = 200;

// What passes were given: the cubes and the tickets, each as a bit. It is right where nothing was given twice, each
// ticket's row was published, and each row that was seen is the one of its slot.
#[derive(Clone, Copy)]
struct Given {
    cubes: u64,
    tickets: u64,
    right: bool,
}

// A pass that races, by its number and its card, and what it was given.
#[derive(Drop)]
struct Racer {
    number: u32,
    card: Card,
    given: Given,
}

// What a pass was given before it races.
const NOTHING: Given = Given {
    cubes: 0,
    tickets: 0,
    right: true,
};

// The bit of a number, if there is one.
fn bit(k: u32) -> u64 {
    if k < 64 { 1 << k } else { 0 }
}

// What a pass has of one cube.
fn one_cube(cube: u32) -> Given {
    Given {
        cubes: bit(cube),
        tickets: 0,
        right: true,
    }
}

// What two have together.
fn both(a: Given, b: Given) -> Given {
    Given {
        cubes: a.cubes | b.cubes,
        tickets: a.tickets | b.tickets,
        right: a.right && b.right && a.cubes & b.cubes == 0 && a.tickets & b.tickets == 0,
    }
}

// The row that is published in a slot; slots that stand together have different ones. With 1 at position 0, and a
// value at position 2 that isn't -1, which is 2, each value but -1 at position 1 makes 345 fail, and -1 makes 056 fail.
fn row_of(slot: u32) -> Row {
    let v = (slot % 6 + 3) as u8;
    let mut cites = [test(0b0111000); 8];
    cites[1] = test(0b1100001);
    Row {
        rank: 0,
        at: 1,
        clause: Assign::empty().with(0, 1).with(2, v),
        cites,
    }
}

// Whether a look shows no row, or the one of its slot.
fn is_right(look: &Look) -> bool {
    match look {
        Look::Empty => true,
        Look::Long => false,
        Look::Short(slot, row) => *row == row_of(*slot),
    }
}

// Whether all looks show what they should.
fn sees_right<B: Board>(board: &mut B) -> bool
    requires { (B.holding board.old).tickets ≢ [] }
    ensures ends { (B.holding board.new).claim_ends ≡ (B.holding board.old).claim_ends }
    ensures mark { B.mark board.new ≡ B.mark board.old }
{
    let mut right = true;
    for _k in 0..ROUNDS {
        let look = board.look();
        right = is_right(&look) && right;
    }
    right
}

// Opens the cube that was claimed, publishes and looks.
fn works<B: Board>(board: &mut B, cube: u32) -> Given
    requires { HasClaimed (B.holding board.old) cube }
    ensures ends { (B.holding board.new).claim_ends ≡ 0 }
    ensures mark { B.mark board.new ≡ B.mark board.old }
{
    let (_node, drawn) = draws(board, cube);
    let Some(ticket) = drawn else {
        return one_cube(cube);
    };
    let published = publishes(board, ticket, &row_of(ticket));
    let right = sees_right(board) && published;
    Given {
        cubes: bit(cube),
        tickets: bit(ticket),
        right,
    }
}

// Claims the cubes that are left.
fn claims_rest<B: Board>(board: &mut B, mut given: Given) -> Given
    requires { (B.holding board.old).claim_ends ≡ 0 }
    ensures { B.mark board.new ≡ B.mark board.old }
{
    for _k in 0..64 {
        let Some(cube) = board.claim() else {
            return given;
        };
        given = both(given, one_cube(cube));
    }
    given
}

// A new pass claims a cube, opens it, publishes, looks, and claims until no cube is left.
fn plays<B: Board>(board: &mut B) -> Given
    requires { IsNew (B.holding board.old) }
    ensures { B.mark board.new ≡ B.mark board.old }
{
    let Some(cube) = board.claim() else {
        return NOTHING;
    };
    let given = works(board, cube);
    claims_rest(board, given)
}

// The racer's pass plays.
fn runs(store: &Store, racer: Racer) -> Racer
    requires { IsFresh store.now racer.card }
    ensures card { mark_of result.card ≡ mark_of racer.card }
    ensures number { result.number ≡ racer.number }
{
    let mut pass = store.pass(racer.card);
    let given = plays(&mut pass);
    Racer {
        number: racer.number,
        card: pass.card(),
        given,
    }
}

// As many racers, for whom there is room. The first pass is that of the last one.
fn deal(store: &Store, mut first: Card, passes: u32, racers: &mut Vec<Racer>)
    requires first { IsFirst store.now 1 first }
    requires some { 1 ≤ passes }
    requires few { passes ≤ store.now.setting.limit }
    requires room { (racers.old.items ≡ []) × (passes ≤ vec_capacity racers.old) }
    ensures count { vec_len racers.new ≡ passes }
    ensures racers { All (λ racer. IsReady store.now passes racer.number racer.card) racers.new.items }
{
    for number in 1..passes {
        let card = store.split(&mut first);
        racers.push_reserved(Racer {
            number,
            card,
            given: NOTHING,
        });
    }
    racers.push_reserved(Racer {
        number: 0,
        card: first,
        given: NOTHING,
    });
}

// The passes play at once.
fn race<R: Threads + Sync>(
    rt: &R,
    store: &Store,
    racers: Vec<Racer>,
    passes: u32,
) -> Option<Vec<Racer>>
    requires { All (λ racer. IsReady store.now passes racer.number racer.card) racers.items }
    ensures count { IfSome result (λ raced. vec_len raced ≡ vec_len racers) }
    ensures racers { IfSome result (λ raced. All (λ racer. IsRacer store.now passes racer.number racer.card) raced.items) }
{
    let turn = |racer: Racer| -> Racer
        requires { IsReady store.now passes racer.number racer.card }
        ensures { IsRacer store.entry.now passes result.number result.card }
    {
        // The clauses speak of it.
        let _ = &passes;
        runs(store, racer)
    };
    thread::map_vec(rt, racers, &turn).ok()
}

// Another one is joined into the first.
fn take_in(store: &Store, all: &mut Racer, other: Racer)
    requires first { (store_of all.old.card ≡ store.now) × ((mark_of all.old.card).number ≡ 0) }
    requires other { (store_of other.card ≡ store.now) × ((mark_of other.card).number ≢ 0) }
    ensures first { (store_of all.new.card ≡ store.now) × ((mark_of all.new.card).number ≡ 0) }
    ensures made { (mark_of all.new.card).made ≡ (mark_of all.old.card).made }
    ensures joined { length (mark_of all.new.card).joined ≡ length (mark_of all.old.card).joined + 1 }
{
    store.join(&mut all.card, other.card);
    all.given = both(all.given, other.given);
}

// All others are joined into the first pass, which is that of the last racer.
fn gather(store: &Store, mut racers: Vec<Racer>, passes: u32) -> Option<Racer>
    requires count { vec_len racers ≡ passes }
    requires racers { All (λ racer. IsRacer store.now passes racer.number racer.card) racers.items }
    ensures { IfSome result (λ all. IsGathered store.now 0 all.card) }
{
    let Some(mut all) = racers.pop() else {
        return None;
    };
    if all.number != 0 {
        return None;
    }
    while let Some(other) = racers.pop() {
        if other.number == 0 {
            return None;
        }
        take_in(store, &mut all, other);
    }
    Some(all)
}

// So many passes play at once, and are joined.
fn play<R: Threads + Sync>(
    rt: &R,
    alloc: Global,
    store: &Store,
    first: Card,
    passes: u32,
) -> Option<Racer>
    requires first { IsFirst store.now 1 first }
    requires some { 1 ≤ passes }
    requires few { passes ≤ store.now.setting.limit }
    ensures { IfSome result (λ all. IsGathered store.now 0 all.card) }
{
    let mut racers = Vec::with_capacity(alloc, passes as usize).ok()?;
    deal(store, first, passes, &mut racers);
    gather(store, race(rt, store, racers, passes)?, passes)
}

// Whether all cubes and the first tickets were given, and just their slots have rows, which are those of the slots.
fn is_whole(closed: &Closed, given: Given) -> bool {
    for slot in 0..NODES {
        let wanted = if given.tickets & bit(slot) == 0 {
            None
        } else {
            Some(row_of(slot))
        };
        if closed.row(slot) != wanted {
            return false;
        }
    }
    closed.claimed() == 64
        && given.cubes == u64::MAX
        && given.tickets == (1 << NODES.min(closed.opened())) - 1
}

// Whether all is right where so many passes play at once on one store.
fn is_right_on<R: Threads + Sync>(rt: &R, alloc: Global, frame: &Frame, passes: u32) -> Option<bool>
    requires some { 1 ≤ passes }
    requires few { passes ≤ PASSES }
{
    let (store, first) = Store::new(alloc, frame, Problem::of(frame, DEPTH, NODES), passes).ok()?;
    let all = play(rt, alloc, &store, first, passes)?;
    let closed = closed(store, all.card)?;
    Some(all.given.right && is_whole(&closed, all.given))
}

// The same on the plane.
fn is_right_on_plane<R: Threads + Sync>(rt: &R, alloc: Global, passes: u32) -> Option<bool>
    requires some { 1 ≤ passes }
    requires few { passes ≤ PASSES }
{
    let fano = fano(alloc, 9)?;
    is_right_on(rt, alloc, &fano, passes)
}

#[test]
fn passes_that_race_are_given_each_cube_and_each_ticket_once(rt: HostRuntime) {
    for passes in [2, 8, 64] {
        assert!(rt;
            is_right_on_plane(&rt, rt.alloc(), passes) == Some(true),
            "{passes} passes"
        );
    }
}
