ghost use Rattle.std.specs.Prelude.{◌≤◌};

use crate::desk::search_all;
use crate::{Gated, PoolAnswer, PoolStop, Script, Turn, WorkStop, Worked, run_one, run_pool, work};
use mr_exchange::{CubeAnswer, NODES, PASSES, PlainBoard, Problem, SPLIT};
use mr_field::Field;
use mr_frame::Frame;
use mr_io::{Gate, Point, Silent};
use mr_matroid::Matroid;
use mr_set::{ELEMENTS, Set, binomial};
use mr_store::Store;
use std::alloc::Global;
use std::sync::atomic::{AtomicU64, Ordering};
use std::thread::Threads;

// The frame of the matroid of `n` elements in which each set of `r` is a basis, over the field with so many elements.
fn uniform(alloc: Global, n: u32, r: u32, order: u32) -> Option<Frame> {
    if n > ELEMENTS || r > n || binomial(n, r).is_none() {
        return None;
    }
    let none: [Set; 0] = [];
    match Matroid::from_nonbases(alloc, n, r, none.as_slice()) {
        Err(_) => None,
        Ok(m) => Frame::new(alloc, m, Field::of(order)?).ok(),
    }
}

// What a run answered.
#[derive(Clone, Copy, Debug, PartialEq, Eq)]
enum Ran {
    Both { cubes: u32 },
    Otherwise,
    Stopped { opened: u32 },
    NoMemory,
    NoProblem,
}

// Whether the completions found are two, the first with 2 in the first free position and the other with 3.
fn are_both(answers: &[CubeAnswer]) -> bool {
    let mut next = 2u8;
    for answer in answers {
        if let CubeAnswer::Found(found) = answer {
            for completion in found.as_slice() {
                if completion.get(0) != next {
                    return false;
                }
                next = next.saturating_add(1);
            }
        }
    }
    next == 4
}

// What may cross threads.
fn moved<T: Send + Sync>(value: T) -> T {
    value
}

fn found(answers: &[CubeAnswer], cubes: u32) -> Ran {
    if are_both(answers) {
        Ran::Both { cubes }
    } else {
        Ran::Otherwise
    }
}

fn stopped(stop: &PoolStop) -> Ran {
    match stop {
        PoolStop::Stopped { closed } => Ran::Stopped {
            opened: closed.opened(),
        },
        PoolStop::Memory => Ran::NoMemory,
    }
}

fn told(ran: &Result<PoolAnswer, PoolStop>) -> Ran {
    match ran {
        Ok(answer) => found(answer.answers.as_slice(), answer.closed.claimed()),
        Err(stop) => stopped(stop),
    }
}

// What so many workers answer on a frame with two completions.
fn pool<R: Threads + Sync, G: Gate + Sync>(
    rt: &R,
    alloc: Global,
    frame: &Frame,
    split: u32,
    nodes: u32,
    workers: u32,
    gate: &G,
) -> Ran {
    if split > SPLIT || nodes == 0 || nodes > NODES || workers == 0 || workers > PASSES {
        return Ran::NoProblem;
    }
    let problem = Problem::of(frame, split, nodes);
    told(&run_pool(rt, alloc, frame, problem, workers, gate))
}

// What they answer on four points of which each two are a basis.
fn four_points<R: Threads + Sync>(
    rt: &R,
    alloc: Global,
    split: u32,
    nodes: u32,
    workers: u32,
) -> Ran {
    match uniform(alloc, 4, 2, 4) {
        None => Ran::NoProblem,
        Some(frame) => pool(rt, alloc, &frame, split, nodes, workers, &Silent),
    }
}

// What they answer on six points of which each three are a basis.
fn six_points<R: Threads + Sync, G: Gate + Sync>(
    rt: &R,
    alloc: Global,
    split: u32,
    workers: u32,
    gate: &G,
) -> Ran {
    match uniform(alloc, 6, 3, 4) {
        None => Ran::NoProblem,
        Some(frame) => pool(rt, alloc, &frame, split, 500, workers, gate),
    }
}

// What one worker answers on four points.
fn one(alloc: Global, split: u32, nodes: u32) -> Ran
    requires split { split ≤ 4 }
    requires nodes { (1 ≤ nodes) × (nodes ≤ 10) }
{
    match uniform(alloc, 4, 2, 4) {
        None => Ran::NoProblem,
        Some(frame) => told(&moved(run_one(alloc, &frame, Problem::of(&frame, split, nodes)))),
    }
}

#[test]
fn one_worker_finds_both_completions_of_four_points(rt: HostRuntime) {
    assert!(rt; one(rt.alloc(), 1, 4) == Ran::Both { cubes: 3 });
    assert!(rt; one(rt.alloc(), 0, 1) == Ran::Stopped { opened: 1 });
}

#[test]
fn workers_find_both_completions_of_four_points(rt: HostRuntime) {
    assert!(rt; four_points(&rt, rt.alloc(), 1, 4, 2) == Ran::Both { cubes: 3 });
    assert!(rt; four_points(&rt, rt.alloc(), 0, 4, 8) == Ran::Both { cubes: 1 });
    assert!(rt; four_points(&rt, rt.alloc(), 0, 1, 2) == Ran::Stopped { opened: 1 });
}

// How many nodes a store of the frame had opened whose two workers were stopped.
fn left_on<R: Threads + Sync>(rt: &R, alloc: Global, frame: &Frame) -> Option<u32> {
    let (store, first) = Store::new(alloc, frame, Problem::of(frame, 1, 1), 3).ok()?;
    let Worked { card, answers } = work(rt, alloc, &store, first, 2, &Silent);
    let stopped = matches!(answers, Err(WorkStop::Over));
    match store.close(card) {
        Ok(closed) if stopped => Some(closed.opened()),
        _ => None,
    }
}

// The same of four points.
fn left_of_two<R: Threads + Sync>(rt: &R, alloc: Global) -> Option<u32> {
    let frame = uniform(alloc, 4, 2, 4)?;
    left_on(rt, alloc, &frame)
}

#[test]
fn a_store_is_left_with_its_first_card(rt: HostRuntime) {
    assert!(rt; left_of_two(&rt, rt.alloc()) == Some(1));
}

// The worker 0 claims a cube.
const FIRST: Turn = Turn {
    worker: 0,
    point: Point::Claimed,
};

// The worker 1 does.
const OTHER: Turn = Turn {
    worker: 1,
    point: Point::Claimed,
};

// The worker 1 looks.
const LOOKS: Turn = Turn {
    worker: 1,
    point: Point::Looked,
};

// The worker 1 is told that no cube is left.
const ENDED: Turn = Turn {
    worker: 1,
    point: Point::Ended,
};

// The worker 0 opens a node.
const FIRST_OPENS: Turn = Turn {
    worker: 0,
    point: Point::Opened,
};

// The worker 0 looks.
const FIRST_LOOKS: Turn = Turn {
    worker: 0,
    point: Point::Looked,
};

// A third worker claims a cube.
const THIRD: Turn = Turn {
    worker: 2,
    point: Point::Claimed,
};

// Turns, calls in their order, how often a call may try again, and whether a turn is missed, with the number of claims.
#[derive(Clone, Copy)]
struct Calling {
    turns: &'static [Turn],
    calls: &'static [Turn],
    limit: u32,
    missed: bool,
    claims: u32,
}

const CALLINGS: [Calling; 6] = [
    // in order
    Calling {
        turns: &[FIRST, OTHER],
        calls: &[FIRST, OTHER],
        limit: 0,
        missed: false,
        claims: 2,
    },
    // too early
    Calling {
        turns: &[FIRST, OTHER],
        calls: &[OTHER],
        limit: 3,
        missed: true,
        claims: 1,
    },
    // a turn is taken once
    Calling {
        turns: &[FIRST, FIRST, OTHER],
        calls: &[FIRST, OTHER],
        limit: 3,
        missed: true,
        claims: 2,
    },
    Calling {
        turns: &[FIRST, FIRST, OTHER],
        calls: &[FIRST, FIRST, OTHER],
        limit: 3,
        missed: false,
        claims: 3,
    },
    // a turn that was taken, or that isn't on the list
    Calling {
        turns: &[FIRST, OTHER],
        calls: &[FIRST, FIRST, LOOKS],
        limit: 0,
        missed: false,
        claims: 2,
    },
    Calling {
        turns: &[],
        calls: &[LOOKS, OTHER],
        limit: 0,
        missed: false,
        claims: 1,
    },
];

// Whether a script sees this of the calls, one after another.
fn is_seen(alloc: Global, calling: &Calling) -> Option<bool> {
    let script = Script::new(alloc, calling.turns, calling.limit).ok()?;
    for call in calling.calls {
        script.at(call.worker, call.point);
    }
    Some(script.missed() == calling.missed && script.claims() == calling.claims)
}

// The place of the first one that is seen otherwise.
fn unseen(alloc: Global) -> Option<usize> {
    for k in 0..CALLINGS.len() {
        if is_seen(alloc, &CALLINGS[k]) != Some(true) {
            return Some(k);
        }
    }
    None
}

#[test]
fn a_script_is_missed_by_a_call_before_its_turn(rt: HostRuntime) {
    assert_eq!(rt; unseen(rt.alloc()), None);
}

// A worker is held for at most so many tries.
const TRIES: u32 = 200_000_000;

// How many workers run by which turns, with the number of cubes that are claimed, and whether a turn is missed.
#[derive(Clone, Copy)]
struct Order {
    workers: u32,
    split: u32,
    turns: &'static [Turn],
    limit: u32,
    cubes: u32,
    missed: bool,
}

// The orders of two workers for nine cubes, each of which takes all its turns.
const ORDERS_OF_TWO: [&[Turn]; 7] = [
    // in turn
    &[FIRST, OTHER, FIRST, OTHER],
    &[OTHER, FIRST, OTHER, FIRST],
    // the other first
    &[
        OTHER, OTHER, OTHER, OTHER, OTHER, OTHER, OTHER, OTHER, FIRST,
    ],
    // the first first
    &[
        FIRST, FIRST, FIRST, FIRST, FIRST, FIRST, FIRST, FIRST, OTHER,
    ],
    // held at a node, at a look and at its first cube
    &[ENDED, FIRST_OPENS],
    &[ENDED, FIRST_LOOKS],
    &[ENDED, FIRST],
];

fn of_two(turns: &'static [Turn]) -> Order {
    Order {
        workers: 2,
        split: 2,
        turns,
        limit: TRIES,
        cubes: 9,
        missed: false,
    }
}

const ORDERS: [Order; 3] = [
    // more workers than cubes
    Order {
        workers: 64,
        split: 0,
        turns: &[],
        limit: 0,
        cubes: 1,
        missed: false,
    },
    Order {
        workers: 12,
        split: 2,
        turns: &[],
        limit: 0,
        cubes: 9,
        missed: false,
    },
    // a turn of a worker that there isn't
    Order {
        workers: 2,
        split: 2,
        turns: &[THIRD, FIRST, OTHER],
        limit: 3,
        cubes: 9,
        missed: true,
    },
];

// Whether the workers find both completions of six points in this order, and the script sees each cube claimed once.
fn is_kept<R: Threads + Sync>(rt: &R, alloc: Global, order: &Order) -> Option<bool> {
    let script = Script::new(alloc, order.turns, order.limit).ok()?;
    let ran = six_points(rt, alloc, order.split, order.workers, &script);
    let found = ran == Ran::Both { cubes: order.cubes };
    Some(found && script.missed() == order.missed && script.claims() == order.cubes)
}

// The place of the first order of two in which that is otherwise.
fn unkept_of_two<R: Threads + Sync>(rt: &R, alloc: Global) -> Option<usize> {
    for k in 0..ORDERS_OF_TWO.len() {
        if is_kept(rt, alloc, &of_two(ORDERS_OF_TWO[k])) != Some(true) {
            return Some(k);
        }
    }
    None
}

// Six points of the plane over four elements, no three of which are on a line, are fixed by four of them, and the two others
// can be exchanged.
#[test]
fn nine_cubes_are_claimed_once_in_each_order_of_two_workers(rt: HostRuntime) {
    assert_eq!(rt; unkept_of_two(&rt, rt.alloc()), None);
}

// The place of the first order of more workers, or fewer than the turns have, in which that is otherwise.
fn unkept<R: Threads + Sync>(rt: &R, alloc: Global) -> Option<usize> {
    for k in 0..ORDERS.len() {
        if is_kept(rt, alloc, &ORDERS[k]) != Some(true) {
            return Some(k);
        }
    }
    None
}

#[test]
fn cubes_are_claimed_once_by_many_workers(rt: HostRuntime) {
    assert_eq!(rt; unkept(&rt, rt.alloc()), None);
}

// Counts the calls of eight workers at each point, a byte for each worker.
#[derive(Drop)]
struct Calls {
    claimed: AtomicU64,
    opened: AtomicU64,
    looked: AtomicU64,
    published: AtomicU64,
    ended: AtomicU64,
}

impl Calls {
    fn new() -> Calls {
        Calls {
            claimed: AtomicU64::new(0),
            opened: AtomicU64::new(0),
            looked: AtomicU64::new(0),
            published: AtomicU64::new(0),
            ended: AtomicU64::new(0),
        }
    }

    fn bytes(&self, point: Point) -> &AtomicU64 {
        match point {
            Point::Claimed => &self.claimed,
            Point::Opened => &self.opened,
            Point::Looked => &self.looked,
            Point::Published => &self.published,
            Point::Ended => &self.ended,
        }
    }

    // The calls of each worker.
    fn of_each(&self, point: Point) -> u64 {
        self.bytes(point).load(Ordering::SeqCst)
    }

    // The calls of all workers, which are fewer than 255: each power of 256 leaves 1.
    fn of_all(&self, point: Point) -> u64 {
        self.of_each(point) % 255
    }
}

impl Gate for Calls {
    fn at(&self, worker: u32, point: Point) {
        let one = 1u64 << (8 * (worker % 8));
        self.bytes(point).fetch_add(one, Ordering::SeqCst);
    }
}

// How often worker 7 calls a gate at the point while it searches all cubes of a frame, alone and without a store. The
// calls of each other worker stand in lower bytes.
fn calls_of_seven(alloc: Global, frame: &Frame, point: Point) -> Option<u64> {
    let plain = PlainBoard::new(alloc, frame, Problem::of(frame, 1, 10)).ok()?;
    let calls = Calls::new();
    let mut board = Gated::new(plain, 7, &calls);
    let mut list = Vec::new(alloc);
    let _stop = search_all(alloc, &mut board, &mut list);
    let _plain = board.board();
    Some(calls.of_each(point))
}

// The same of five points of which each two are a basis.
fn calls_on_five(alloc: Global, order: u32, point: Point) -> Option<u64> {
    let frame = uniform(alloc, 5, 2, order)?;
    calls_of_seven(alloc, &frame, point)
}

// Over three elements there are too few points on a line, and no set of two fails under one of the two cubes. Over four
// elements the second and the third cube have a completion each, and two nodes. Four looks are due for a node.
const CALLS: [(u32, Point, u64); 10] = [
    (3, Point::Claimed, 2),
    (3, Point::Opened, 1),
    (3, Point::Looked, 4),
    (3, Point::Published, 1),
    (3, Point::Ended, 1),
    (4, Point::Claimed, 3),
    (4, Point::Opened, 4),
    (4, Point::Looked, 16),
    (4, Point::Published, 0),
    (4, Point::Ended, 1),
];

// The place of the first number of calls that is another one.
fn uncalled(alloc: Global) -> Option<usize> {
    for k in 0..CALLS.len() {
        let (order, point, count) = CALLS[k];
        if calls_on_five(alloc, order, point) != Some(count << 56) {
            return Some(k);
        }
    }
    None
}

#[test]
fn each_call_of_a_board_passes_the_gate_at_its_point(rt: HostRuntime) {
    assert_eq!(rt; uncalled(rt.alloc()), None);
}

// Two cubes of six points have a completion each, and three nodes. No node fails.
const ALL: [(Point, u64); 4] = [
    (Point::Claimed, 9),
    (Point::Opened, 6),
    (Point::Looked, 24),
    (Point::Published, 0),
];

// Whether the workers together called the gate so often at each point.
fn are_all(calls: &Calls) -> bool {
    for k in 0..ALL.len() {
        let (point, count) = ALL[k];
        if calls.of_all(point) != count {
            return false;
        }
    }
    true
}

// Whether so many workers do so on six points, and each is told once that no cube is left.
fn are_called<R: Threads + Sync>(rt: &R, alloc: Global, workers: u32, each: u64) -> bool {
    let calls = Calls::new();
    let ran = six_points(rt, alloc, 2, workers, &calls);
    ran == Ran::Both { cubes: 9 } && calls.of_each(Point::Ended) == each && are_all(&calls)
}

#[test]
fn each_call_of_a_worker_passes_the_gate_with_its_number(rt: HostRuntime) {
    assert!(rt; are_called(&rt, rt.alloc(), 1, 1));
    assert!(rt; are_called(&rt, rt.alloc(), 2, 0x101));
    assert!(rt; are_called(&rt, rt.alloc(), 8, 0x0101_0101_0101_0101));
}
