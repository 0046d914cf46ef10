// Runs of two workers that a script forces into an order.
use crate::run::run;
use crate::tests::{SIX_POINTS, SIX_POINTS_OVER_4, words_of};
use mr_io::{MemSink, Point, SureSource};
use mr_pool::{Script, Turn};
use std::alloc::Global;
use std::sync::Wait;
use std::test::Fail;
use std::thread::Threads;

// A worker is held for at most so many tries.
const TRIES: u32 = 200_000_000;

const fn turn(worker: u32, point: Point) -> Turn {
    Turn { worker, point }
}

// What a script saw of a solve of the six points by two workers, which has to write their classes: whether it was missed, and
// how many claims there were.
fn seen_of<R: Threads + Wait + Sync>(
    rt: &R,
    alloc: Global,
    turns: &[Turn],
) -> Result<(bool, u32), Fail> {
    let words = words_of(alloc, "solve field=4 workers=2 split=2")?;
    let mut source = SureSource::new(alloc, SIX_POINTS)?;
    let mut sink = MemSink::new(alloc, 100, 4096, [].as_slice())?;
    let script = Script::new(alloc, turns, TRIES)?;
    let exit = run(rt, alloc, &words, &mut source, &mut sink, &script);
    if exit.status() != 0 || sink.held() != SIX_POINTS_OVER_4 {
        return Err("other classes".into());
    }
    Ok((script.missed(), script.claims()))
}

// There are nine cubes. Workers with a board each would claim eighteen.
#[test]
fn two_workers_write_the_same_in_each_order(rt: HostRuntime) -> Result<(), Fail> {
    let first = turn(0, Point::Claimed);
    let other = turn(1, Point::Claimed);
    let ended = turn(1, Point::Ended);
    for turns in [
        // by turns
        [first, other, first, other].as_slice(),
        // one of them first
        [
            other, other, other, other, other, other, other, other, first,
        ]
        .as_slice(),
        [
            first, first, first, first, first, first, first, first, other,
        ]
        .as_slice(),
        // one ends while the other may be held in the middle of its cube
        [ended, turn(0, Point::Opened)].as_slice(),
        [ended, turn(0, Point::Looked)].as_slice(),
    ] {
        assert_eq!(rt; seen_of(&rt, rt.alloc(), turns)?, (false, 9));
    }
    Ok(())
}
