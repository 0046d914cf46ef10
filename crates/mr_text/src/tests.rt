use super::*;
use mr_set::Set;
use std::test::Fail;

#[test]
fn a_number_has_one_spelling(rt: HostRuntime) {
    for (word, want) in [
        (b"0".as_slice(), Some(0u32)),
        (b"7", Some(7)),
        (b"10", Some(10)),
        (b"999999999", Some(999999999)),
        (b"1000000000", None),
        (b"01", None),
        (b"00", None),
        (b"", None),
        (b"1a", None),
        (b"-1", None),
        (b" 1", None),
    ] {
        assert!(rt; number(word) == want, "at {want:?}");
    }
}

#[test]
fn the_last_line_may_lack_its_newline(rt: HostRuntime) {
    let mut lines = Lines::new(b"a\n\nbc");
    for (number, start, end, ended) in [
        (1u32, 0usize, 1usize, true),
        (2, 2, 2, true),
        (3, 3, 5, false),
    ] {
        let line = Line {
            number,
            start,
            end,
            ended,
        };
        assert!(rt; lines.next() == Some(line), "in line {number}");
    }
    assert!(rt; lines.next() == None);
    assert!(rt; lines.next() == None);
}

#[test]
fn a_word_between_two_spaces_is_empty(rt: HostRuntime) {
    let mut words = Words::new(b"a  bc ");
    for span in [(0usize, 1usize), (2, 2), (3, 5), (6, 6)] {
        assert!(rt; words.next() == Some(span));
    }
    assert!(rt; words.next() == None);
    let mut none = Words::new(b"");
    assert!(rt; none.next() == Some((0, 0)));
    assert!(rt; none.next() == None);
}

#[test]
fn a_text_is_cut_at_the_first_separator(rt: HostRuntime) -> Result<(), Fail> {
    let (before, after) = split_once(b"a b c", b' ').ok_or("there are spaces")?;
    assert_eq!(rt; before, b"a".as_slice());
    assert_eq!(rt; after, b"b c".as_slice());
    assert!(rt; split_once(b"abc", b' ').is_none());
    Ok(())
}

#[test]
fn numbers_and_sets_are_written(rt: HostRuntime) -> Result<(), Fail> {
    let mut text = Text::new(rt.alloc());
    text.put_set(Set::empty().with(31).with(0).with(9))?;
    text.put_byte(b'\n')?;
    text.put_set(Set::empty())?;
    text.put(b"\n")?;
    text.put_number(0)?;
    text.put(b"\n")?;
    text.put_number(999999999)?;
    assert_eq!(rt; text.as_bytes(), b"0 9 31\n-\n0\n999999999".as_slice());
    Ok(())
}
