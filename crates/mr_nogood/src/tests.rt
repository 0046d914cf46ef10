use crate::{Cite, ROW_CITES, ROW_WORDS, Row, RowList, follows, follows_steps, pack, unpack};
use mr_assign::Assign;
use mr_field::Field;
use mr_frame::Frame;
use mr_matroid::Matroid;
use mr_set::{Set, sets_of};
use std::alloc::Global;
use std::test::Fail;

// The frame of the Fano plane over three elements, by the masks of its lines. Its free positions are those of row 1
// and element 6, of row 2 and element 5, and of row 2 and element 6.
fn fano(alloc: Global) -> Result<Frame, Fail> {
    let lines = sets_of(alloc, 7, 3, &[11, 21, 97, 38, 82, 76, 56])?.ok_or("sets")?;
    let plane = Matroid::from_nonbases(alloc, 7, 3, lines.as_slice())?;
    Ok(Frame::new(alloc, plane, Field::of(3).ok_or("a field")?)?)
}

// A row with cites for the values 1 and 2.
fn row(rank: u32, at: u8, clause: Assign, one: Cite, two: Cite) -> Row {
    let mut cites = [Cite::Nothing; ROW_CITES];
    cites[0] = one;
    cites[1] = two;
    Row {
        rank,
        at,
        clause,
        cites,
    }
}

// The cite of the set with this mask.
fn test(mask: u64) -> Cite {
    match Set::of_mask(mask) {
        Some(x) => Cite::Test(x),
        None => Cite::Nothing,
    }
}

// The map that gives 1 to position 0.
fn one() -> Assign {
    Assign::empty().with(0, 1)
}

// With 1 at the positions 0 and 2 each value at 1 makes 345 or 056 fail.
fn first() -> Row {
    row(0, 1, one().with(2, 1), test(0b0111000), test(0b1100001))
}

// With 1 at position 0 the value 1 at 2 is excluded by the cited row, and 2 makes 146 fail.
fn second(cited: u32) -> Row {
    row(1, 2, one(), Cite::Slot(cited), test(0b1010010))
}

// The value 1 at position 0 is excluded by the row 1, and 2 makes 236 fail.
fn third() -> Row {
    row(2, 0, Assign::empty(), Cite::Slot(1), test(0b1001100))
}

// The steps that refute that the Fano plane has a matrix over three elements.
fn steps(alloc: Global) -> Result<RowList, Fail> {
    let mut steps = RowList::new(alloc);
    steps.push(first())?;
    steps.push(second(0))?;
    steps.push(third())?;
    Ok(steps)
}

// A row with the cites of the second step.
fn like_second(rank: u32, at: u8, clause: Assign) -> Row {
    row(rank, at, clause, Cite::Slot(0), test(0b1010010))
}

// Rows that are as the second step but for one part.
fn bad_rows(alloc: Global) -> Result<RowList, Fail> {
    let mut rows = RowList::new(alloc);
    // The cited row has an equal rank, or its clause is no part.
    rows.push(like_second(0, 2, one()))?;
    rows.push(like_second(1, 2, Assign::empty()))?;
    // The position has a value, or it is not free.
    rows.push(like_second(1, 2, one().with(2, 1)))?;
    rows.push(like_second(1, 3, one()))?;
    // The clause has a position too many, or a value that the field doesn't have.
    rows.push(like_second(1, 2, one().with(3, 1)))?;
    rows.push(like_second(1, 2, one().with(1, 3)))?;
    // The set does not fail, or a cite is missing.
    rows.push(row(1, 2, one(), test(0b1010010), test(0b1010010)))?;
    rows.push(row(1, 2, one(), Cite::Slot(0), Cite::Nothing))?;
    Ok(rows)
}

#[test]
fn each_step_of_a_refutation_follows_from_the_earlier_ones(rt: HostRuntime) -> Result<(), Fail> {
    let fano = fano(rt.alloc())?;
    let list = steps(rt.alloc())?;
    let steps = list.as_slice();
    assert_eq!(rt; steps.len(), 3);
    for (k, step) in steps.iter().enumerate() {
        assert!(rt; follows_steps(&fano, step, &steps[..k]));
    }
    assert!(rt; !follows_steps(&fano, &second(0), &[]));
    assert!(rt; !follows_steps(&fano, &second(2), steps));
    assert!(rt; !follows_steps(&fano, &second(1), steps));
    Ok(())
}

#[test]
fn a_row_that_breaks_a_rule_follows_from_nothing(rt: HostRuntime) -> Result<(), Fail> {
    let fano = fano(rt.alloc())?;
    let list = steps(rt.alloc())?;
    let steps = list.as_slice();
    let bad = bad_rows(rt.alloc())?;
    assert!(rt; follows_steps(&fano, &second(0), steps));
    for row in bad.as_slice() {
        assert!(rt; !follows_steps(&fano, row, steps));
    }
    Ok(())
}

#[test]
fn no_cite_is_for_a_value_that_the_field_does_not_have(rt: HostRuntime) -> Result<(), Fail> {
    let fano = fano(rt.alloc())?;
    let list = steps(rt.alloc())?;
    let mut past = first();
    assert!(rt; follows_steps(&fano, &past, list.as_slice()));
    past.cites[2] = test(0b0111000);
    assert!(rt; !follows_steps(&fano, &past, list.as_slice()));
    Ok(())
}

#[test]
fn a_place_without_a_row_is_named_in_vain(rt: HostRuntime) -> Result<(), Fail> {
    let fano = fano(rt.alloc())?;
    let none: [Option<Row>; 0] = [];
    assert!(rt; follows(&fano, &first(), none.as_slice()));
    assert!(rt; !follows(&fano, &second(0), none.as_slice()));
    let slots = [Some(first()), None];
    assert!(rt; follows(&fano, &second(0), slots.as_slice()));
    assert!(rt; !follows(&fano, &second(1), slots.as_slice()));
    assert!(rt; !follows(&fano, &third(), slots.as_slice()));
    Ok(())
}

#[test]
fn a_packed_row_has_a_head_a_clause_and_cites(rt: HostRuntime) -> Result<(), Fail> {
    let mut words = [0; ROW_WORDS];
    words[0] = 1 << 63 | 2 << 40 | 1 << 32;
    words[1] = 0x101;
    words[7] = 1 << 56 | 0b0111000;
    words[8] = 1 << 56 | 0b1100001;
    assert_eq!(rt; pack(&first()), words);
    let mut words = [0; ROW_WORDS];
    words[0] = 1 << 63 | 1 << 40 | 2 << 32 | 1;
    words[1] = 1;
    words[7] = 1 << 57 | 700;
    words[8] = 1 << 56 | 0b1010010;
    assert_eq!(rt; pack(&second(700)), words);
    Ok(())
}

#[test]
fn a_row_comes_back_from_its_words(rt: HostRuntime) -> Result<(), Fail> {
    let list = steps(rt.alloc())?;
    for step in list.as_slice() {
        assert!(rt; unpack(&pack(step)) == Some(*step));
    }
    let last = Cite::Slot(u32::MAX);
    let cites = [last; ROW_CITES];
    let clause = Assign::empty().with(95, 8);
    let most = Row {
        rank: u32::MAX,
        at: 255,
        clause,
        cites,
    };
    assert!(rt; unpack(&pack(&most)) == Some(most));
    Ok(())
}

// The words with another one at place i.
fn changed(mut words: [u64; ROW_WORDS], i: usize, word: u64) -> [u64; ROW_WORDS] {
    if i < ROW_WORDS {
        words[i] = word;
    }
    words
}

#[test]
fn words_that_no_row_has_are_refused(rt: HostRuntime) -> Result<(), Fail> {
    let words = pack(&second(0));
    for (i, word) in [
        (0, 0),
        (0, words[0] - (1 << 63)),
        (0, words[0] + (1 << 40)),
        (0, words[0] + (1 << 48)),
        (1, 1 | 2 << 4),
        (1, 9),
        (6, 1 << 60),
        (7, 1),
        (7, 1 << 57 | 1 << 32),
        (7, 1 << 58),
        (8, 1 << 56 | 1 << 32),
        (14, 1 << 63),
    ] {
        assert!(rt; unpack(&changed(words, i, word)).is_none());
    }
    Ok(())
}

fn moved<T: Send + Sync>(value: T) -> T {
    value
}

#[test]
fn rows_may_cross_threads(rt: HostRuntime) -> Result<(), Fail> {
    let list = moved(steps(rt.alloc())?);
    assert_eq!(rt; list.as_slice().len(), 3);
    assert!(rt; moved(first()) == first());
    Ok(())
}
