// Logs as they are, cut, and with one line changed.
use crate::tests::{Case, FANO, all_end_so, ends_with};
use std::alloc::Global;
use std::sync::Wait;
use std::test::Fail;
use std::thread::Threads;

// A refutation of the Fano plane over three elements. Its steps are the lines 16 to 18.
const LOG: &[u8] =
    b"refutation 1\nfield 3\nmatroid 1\nelements 7\nrank 3\nnonbases 7\n0 1 3\n0 2 4\n0 5 6\n1 2 5\n1 4 6\n2 3 6\n3 4 5\nend\nsteps 3\nat 1 if 0:1 2:1 by t 3 4 5 t 0 5 6\nat 2 if 0:1 by s 0 t 1 4 6\nat 0 if - by s 1 t 2 3 6\nend s 2\n";

const LOGS: [Case; 9] = [
    Case {
        words: "check field=3",
        input: LOG,
        status: 0,
        text: b"accepted\n",
    },
    Case {
        words: "check field=5",
        input: LOG,
        status: 1,
        text: b"rejected line 2 grammar\n",
    },
    Case {
        words: "check field=2",
        input: FANO,
        status: 1,
        text: b"rejected line 1 grammar\n",
    },
    Case {
        words: "check field=2",
        input: b"refutation 1\nfield 2\nmatroid 1\nelements 4\nrank 2\nnonbases 0\nend\nsteps 0\nend t 2 3\n",
        status: 0,
        text: b"accepted\n",
    },
    // The plane without one of its lines, over four elements.
    Case {
        words: "check field=4",
        input: b"refutation 1\nfield 4\nmatroid 1\nelements 7\nrank 3\nnonbases 6\n0 1 3\n0 2 4\n0 5 6\n1 2 5\n1 4 6\n2 3 6\nend\nsteps 3\nat 1 if 0:1 2:1 by t 3 4 5 t 0 5 6 t 0 5 6\nat 2 if 0:1 by s 0 t 1 4 6 t 1 4 6\nat 0 if - by s 1 t 2 3 6 t 2 3 6\nend s 2\n",
        status: 0,
        text: b"accepted\n",
    },
    // The list of all sets, and lists in which an exchange fails. What is too large goes before that.
    Case {
        words: "check field=3",
        input: b"refutation 1\nfield 3\nmatroid 1\nelements 2\nrank 1\nnonbases 2\n0\n1\nend\nsteps 0\nend t 0\n",
        status: 1,
        text: b"rejected line 9 basis\n",
    },
    Case {
        words: "check field=3",
        input: b"refutation 1\nfield 3\nmatroid 1\nelements 4\nrank 2\nnonbases 2\n0 1\n1 2\nend\nsteps 0\nend t 0 1\n",
        status: 1,
        text: b"rejected line 9 exchange\n",
    },
    Case {
        words: "check field=7",
        input: b"refutation 1\nfield 7\nmatroid 1\nelements 4\nrank 2\nnonbases 2\n0 1\n1 2\nend\nsteps 0\nend t 0 2\n",
        status: 1,
        text: b"rejected line 9 exchange\n",
    },
    Case {
        words: "check field=9",
        input: b"refutation 1\nfield 9\nmatroid 1\nelements 4\nrank 2\nnonbases 2\n0 1\n1 2\nend\nsteps 1000001\n",
        status: 1,
        text: b"rejected line 10 size\n",
    },
];

#[test]
fn logs_are_accepted_or_rejected_at_their_first_fault(rt: HostRuntime) -> Result<(), Fail> {
    all_end_so(&rt, rt.alloc(), &LOGS)
}

// How many lines were ended.
fn lines_in(bytes: &[u8]) -> usize {
    let mut count: usize = 0;
    for byte in bytes {
        if *byte == b'\n' {
            count = count.saturating_add(1);
        }
    }
    count
}

// Whether the log is rejected at the line after its last whole one.
fn is_cut_short<R: Threads + Wait + Sync>(rt: &R, alloc: Global, log: &[u8]) -> Result<bool, Fail> {
    let line = lines_in(log).saturating_add(1);
    let text = format!(in alloc; "rejected line {line} grammar\n")?;
    ends_with(rt, alloc, "check field=3", log, 1, text.as_bytes())
}

#[test]
fn a_log_that_is_cut_is_rejected_at_the_line_after_its_last_whole_one(
    rt: HostRuntime,
) -> Result<(), Fail> {
    for cut in 0..LOG.len() {
        if !is_cut_short(&rt, rt.alloc(), &LOG[..cut])? {
            return Err("rejected otherwise".into());
        }
    }
    Ok(())
}

// The number of a line, what stands there instead, and what is said of the log.
const CHANGES: [(usize, &[u8], &[u8]); 17] = [
    (15, b"steps 1000000", b"rejected line 19 grammar\n"),
    (15, b"steps 1000001", b"rejected line 15 size\n"),
    (15, b"steps 2", b"rejected line 18 grammar\n"),
    // A position that the frame doesn't have, and one that no frame has.
    (
        16,
        b"at 3 if 0:1 2:1 by t 3 4 5 t 0 5 6",
        b"rejected line 16 step\n",
    ),
    (
        16,
        b"at 200 if 0:1 2:1 by t 3 4 5 t 0 5 6",
        b"rejected line 16 grammar\n",
    ),
    // No element of the field, and no set in order.
    (
        16,
        b"at 1 if 0:3 2:1 by t 3 4 5 t 0 5 6",
        b"rejected line 16 grammar\n",
    ),
    (
        16,
        b"at 1 if 0:1 2:1 by t 3 5 4 t 0 5 6",
        b"rejected line 16 grammar\n",
    ),
    // A value at the step's own position.
    (
        16,
        b"at 0 if 0:1 2:1 by t 3 4 5 t 0 5 6",
        b"rejected line 16 step\n",
    ),
    // Pairs of the step cited that aren't there.
    (
        17,
        b"at 2 if 0:2 by s 0 t 1 4 6",
        b"rejected line 17 step\n",
    ),
    // A set that doesn't fail.
    (
        17,
        b"at 2 if 0:1 by s 0 t 0 1 2",
        b"rejected line 17 step\n",
    ),
    // A later step, and the step itself.
    (
        17,
        b"at 2 if 0:1 by s 2 t 1 4 6",
        b"rejected line 17 step\n",
    ),
    (
        17,
        b"at 2 if 0:1 by s 1 t 1 4 6",
        b"rejected line 17 step\n",
    ),
    // One cite too few; another step, no step and a set as the end.
    (18, b"at 0 if - by s 1", b"rejected line 18 grammar\n"),
    (19, b"end s 0", b"rejected line 19 end\n"),
    (19, b"end s 3", b"rejected line 19 end\n"),
    (19, b"end t 0 1 2", b"rejected line 19 end\n"),
    (19, b"end s 2\n", b"rejected line 20 grammar\n"),
];

// The place at which a line begins, counted from 1.
fn start_of(line: usize) -> usize {
    let mut at: usize = 1;
    for (place, byte) in LOG.iter().enumerate() {
        if at == line {
            return place;
        }
        if *byte == b'\n' {
            at = at.saturating_add(1);
        }
    }
    LOG.len()
}

// The log with another text at a line.
fn with_line(alloc: Global, line: usize, text: &[u8]) -> Result<Vec<u8>, Fail> {
    let front = start_of(line).min(LOG.len());
    let back = start_of(line.saturating_add(1)).min(LOG.len());
    let mut log = Vec::from_slice(alloc, &LOG[..front])?;
    log.extend_from_slice(text)?;
    log.push(b'\n')?;
    log.extend_from_slice(&LOG[back..])?;
    Ok(log)
}

#[test]
fn a_log_with_another_line_is_rejected_at_its_first_fault(rt: HostRuntime) -> Result<(), Fail> {
    for (line, text, said) in CHANGES {
        let log = with_line(rt.alloc(), line, text)?;
        if !ends_with(&rt, rt.alloc(), "check field=3", &log, 1, said)? {
            return Err("rejected otherwise".into());
        }
    }
    Ok(())
}
