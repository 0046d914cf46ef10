// Devices that fail, or that give and take little.
use crate::tests::{FANO, FOUR_POINTS, FOUR_POINTS_OVER_3, status_of};
use mr_io::{MemSink, MemSource};
use std::alloc::Global;
use std::sync::Wait;
use std::test::Fail;
use std::thread::Threads;

// How many bytes a source gives at a call and at which call it fails; how many a sink takes at a call and in all, and at which call it
// fails. Calls are numbered from 1.
#[derive(Clone, Copy)]
struct Devices {
    gives: usize,
    read: u32,
    takes: usize,
    room: usize,
    write: u32,
}

// A source that gives much and a sink that takes much, and never fail.
const SURE: Devices = Devices {
    gives: 4096,
    read: 0,
    takes: 4096,
    room: 65536,
    write: 0,
};

// The status of a run with such devices, and a sink with what was written.
fn run_with<R: Threads + Wait + Sync>(
    rt: &R,
    alloc: Global,
    words: &str,
    input: &[u8],
    devices: &Devices,
) -> Result<(u8, MemSink), Fail> {
    if devices.gives == 0 || devices.takes == 0 {
        return Err("devices that give and take".into());
    }
    let mut source = MemSource::new(alloc, input, devices.gives, [devices.read].as_slice())?;
    let mut sink = MemSink::new(
        alloc,
        devices.takes,
        devices.room,
        [devices.write].as_slice(),
    )?;
    let status = status_of(rt, alloc, words, &mut source, &mut sink)?;
    Ok((status, sink))
}

// Whether it ends with this status and this text.
fn ends_with<R: Threads + Wait + Sync>(
    rt: &R,
    alloc: Global,
    words: &str,
    input: &[u8],
    devices: &Devices,
    status: u8,
    text: &[u8],
) -> Result<bool, Fail> {
    let (ended, sink) = run_with(rt, alloc, words, input, devices)?;
    Ok(ended == status && sink.held() == text)
}

// Whether a solve of the four points does.
fn solves_four_points<R: Threads + Wait + Sync>(
    rt: &R,
    alloc: Global,
    devices: &Devices,
    status: u8,
    text: &[u8],
) -> Result<bool, Fail> {
    ends_with(
        rt,
        alloc,
        "solve field=3",
        FOUR_POINTS,
        devices,
        status,
        text,
    )
}

// How many bytes a source gives at a call, at which call it fails, and the status that a solve of the four points ends with: they are 43
// bytes. A last call gives nothing, and a call after that isn't made.
const READS: [(usize, u32, u8); 18] = [
    (8, 1, 6),
    (8, 2, 6),
    (8, 3, 6),
    (8, 4, 6),
    (8, 5, 6),
    (8, 6, 6),
    (8, 7, 6),
    (8, 8, 0),
    (1, 1, 6),
    (1, 43, 6),
    (1, 44, 6),
    (1, 45, 0),
    (43, 1, 6),
    (43, 2, 6),
    (43, 3, 0),
    (4096, 1, 6),
    (4096, 2, 6),
    (4096, 3, 0),
];

#[test]
fn a_read_that_fails_ends_the_run_without_a_text(rt: HostRuntime) -> Result<(), Fail> {
    for (gives, read, status) in READS {
        let devices = Devices {
            gives,
            read,
            ..SURE
        };
        let text = if status == 0 { FOUR_POINTS_OVER_3 } else { b"" };
        if !solves_four_points(&rt, rt.alloc(), &devices, status, text)? {
            return Err("ends otherwise".into());
        }
    }
    Ok(())
}

// How many bytes a sink takes at a call and in all, at which call it fails, and the status and the number of bytes that are written of
// the class of the four points: they are 59 bytes.
const WRITES: [(usize, usize, u32, u8, usize); 20] = [
    (8, 4096, 1, 7, 0),
    (8, 4096, 2, 7, 8),
    (8, 4096, 3, 7, 16),
    (8, 4096, 4, 7, 24),
    (8, 4096, 5, 7, 32),
    (8, 4096, 6, 7, 40),
    (8, 4096, 7, 7, 48),
    (8, 4096, 8, 7, 56),
    (8, 4096, 9, 0, 59),
    (1, 4096, 0, 0, 59),
    (1, 4096, 59, 7, 58),
    (59, 59, 2, 0, 59),
    (59, 58, 0, 7, 58),
    (100, 20, 0, 7, 20),
    (1, 1, 0, 7, 1),
    (1, 58, 0, 7, 58),
    (8, 0, 0, 7, 0),
    (58, 4096, 2, 7, 58),
    (59, 4096, 1, 7, 0),
    (100, 4096, 2, 0, 59),
];

#[test]
fn a_write_that_fails_leaves_what_was_written_before(rt: HostRuntime) -> Result<(), Fail> {
    for (takes, room, write, status, written) in WRITES {
        let devices = Devices {
            takes,
            room,
            write,
            ..SURE
        };
        let text = &FOUR_POINTS_OVER_3[..written.min(FOUR_POINTS_OVER_3.len())];
        if !solves_four_points(&rt, rt.alloc(), &devices, status, text)? {
            return Err("ends otherwise".into());
        }
    }
    Ok(())
}

// Words and an input, at which call of 4096 bytes the source fails and at which of 5 bytes the sink, and the status and the text.
struct Failing {
    words: &'static str,
    input: &'static [u8],
    read: u32,
    write: u32,
    status: u8,
    text: &'static [u8],
}

const FAILING: [Failing; 8] = [
    Failing {
        words: "dual",
        input: FOUR_POINTS,
        read: 1,
        write: 1,
        status: 6,
        text: b"",
    },
    Failing {
        words: "solve field=2",
        input: FANO,
        read: 1,
        write: 100,
        status: 6,
        text: b"",
    },
    Failing {
        words: "solve field=2",
        input: FANO,
        read: 9,
        write: 2,
        status: 7,
        text: b"repre",
    },
    Failing {
        words: "solve field=3 workers=2",
        input: FOUR_POINTS,
        read: 2,
        write: 1,
        status: 6,
        text: b"",
    },
    Failing {
        words: "solve field=3 workers=2",
        input: FOUR_POINTS,
        read: 3,
        write: 2,
        status: 7,
        text: b"repre",
    },
    // A text that is refused, and words that offend, are written like any other. Nothing is read for words that offend, nor for a plane.
    Failing {
        words: "dual",
        input: b"",
        read: 2,
        write: 3,
        status: 7,
        text: b"refused gr",
    },
    Failing {
        words: "solve field=6",
        input: FOUR_POINTS,
        read: 1,
        write: 2,
        status: 7,
        text: b"usage",
    },
    Failing {
        words: "plane order=2",
        input: FOUR_POINTS,
        read: 1,
        write: 2,
        status: 7,
        text: b"plane",
    },
];

#[test]
fn the_first_call_that_fails_is_told(rt: HostRuntime) -> Result<(), Fail> {
    for case in &FAILING {
        let devices = Devices {
            read: case.read,
            takes: 5,
            write: case.write,
            ..SURE
        };
        if !ends_with(
            &rt,
            rt.alloc(),
            case.words,
            case.input,
            &devices,
            case.status,
            case.text,
        )? {
            return Err(case.words.into());
        }
    }
    Ok(())
}

// The 257th call of 4096 bytes gives the byte beyond the limit. What comes after it isn't asked for.
const BEYOND: [(u32, u8, &[u8]); 2] = [(257, 6, b""), (258, 2, b"refused too long\n")];

#[test]
fn a_fault_of_the_source_goes_before_a_text_that_is_too_long(rt: HostRuntime) -> Result<(), Fail> {
    let input = vec![in rt.alloc(); b'a'; 1_048_577]?;
    for (read, status, text) in BEYOND {
        let devices = Devices { read, ..SURE };
        if !ends_with(
            &rt,
            rt.alloc(),
            "solve field=3",
            &input,
            &devices,
            status,
            text,
        )? {
            return Err("ends otherwise".into());
        }
    }
    Ok(())
}

// Whether the log of a solve, written in pieces of 7 bytes, is accepted when it is read in pieces of 5.
fn is_accepted_in_pieces<R: Threads + Wait + Sync>(rt: &R, alloc: Global) -> Result<bool, Fail> {
    let writing = Devices { takes: 7, ..SURE };
    let (status, log) = run_with(rt, alloc, "solve field=3", FANO, &writing)?;
    let reading = Devices {
        gives: 5,
        takes: 1,
        ..SURE
    };
    Ok(
        status == 1
            && ends_with(
                rt,
                alloc,
                "check field=3",
                log.held(),
                &reading,
                0,
                b"accepted\n",
            )?,
    )
}

#[test]
fn a_log_goes_through_devices_that_take_and_give_little(rt: HostRuntime) -> Result<(), Fail> {
    if is_accepted_in_pieces(&rt, rt.alloc())? {
        Ok(())
    } else {
        Err("ends otherwise".into())
    }
}
