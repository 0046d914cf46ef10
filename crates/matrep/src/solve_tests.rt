// Solves of matroids of which the classes are known.
use crate::tests::{
    Case, FANO, FOUR_POINTS, FOUR_POINTS_OVER_3, NON_FANO, SIX_POINTS, SIX_POINTS_OVER_4, VAMOS,
    all_end_so, ends_with, run_of,
};
use std::alloc::Global;
use std::sync::Wait;
use std::test::Fail;
use std::thread::Threads;

// Five and six points of a line.
const FIVE_ON_A_LINE: &[u8] = b"matroid 1\nelements 5\nrank 2\nnonbases 0\nend\n";

const SIX_ON_A_LINE: &[u8] = b"matroid 1\nelements 6\nrank 2\nnonbases 0\nend\n";

// The direct sum of two lines of four points, on the elements 0 3 4 5 and 1 2 6 7.
const TWO_LINES: &[u8] =
    b"matroid 1\nelements 8\nrank 4\nnonbases 34\n0 1 2 6\n0 1 2 7\n0 1 3 4\n0 1 3 5\n0 1 4 5\n0 1 6 7\n\
0 2 3 4\n0 2 3 5\n0 2 4 5\n0 2 6 7\n0 3 4 5\n0 3 4 6\n0 3 4 7\n0 3 5 6\n0 3 5 7\n0 4 5 6\n0 4 5 7\n\
1 2 3 6\n1 2 3 7\n1 2 4 6\n1 2 4 7\n1 2 5 6\n1 2 5 7\n1 2 6 7\n1 3 4 5\n1 3 6 7\n1 4 6 7\n1 5 6 7\n\
2 3 4 5\n2 3 6 7\n2 4 6 7\n2 5 6 7\n3 4 5 6\n3 4 5 7\nend\n";

// The configuration of Pappus without one of its lines, which no matrix represents.
const NON_PAPPUS: &[u8] =
    b"matroid 1\nelements 9\nrank 3\nnonbases 8\n0 1 2\n0 4 6\n0 5 7\n1 3 6\n1 5 8\n2 3 7\n2 4 8\n3 4 5\nend\n";

// The classes and the orbit of four points over four elements.
const FOUR_POINTS_OVER_4: &[u8] =
    b"representations 2 field 4\nmatrix 4 2 4\n1 0 1 1\n0 1 1 2\nend\nmatrix 4 2 4\n1 0 1 1\n0 1 1 3\nend\n";

const ORBIT_OVER_4: &[u8] = b"orbits 1 field 4\norbit 2\nmatrix 4 2 4\n1 0 1 1\n0 1 1 2\nend\n";

const FANO_OVER_2: &[u8] =
    b"representations 1 field 2\nmatrix 2 3 7\n1 0 0 1 1 0 1\n0 1 0 1 0 1 1\n0 0 1 0 1 1 1\nend\n";

const SOLVES: [Case; 27] = [
    Case {
        words: "solve field=3",
        input: FOUR_POINTS,
        status: 0,
        text: FOUR_POINTS_OVER_3,
    },
    Case {
        words: "solve field=3 workers=64 split=4",
        input: FOUR_POINTS,
        status: 0,
        text: FOUR_POINTS_OVER_3,
    },
    Case {
        words: "solve field=4",
        input: FOUR_POINTS,
        status: 0,
        text: FOUR_POINTS_OVER_4,
    },
    Case {
        words: "solve field=4 nodes=1",
        input: FOUR_POINTS,
        status: 4,
        text: b"stopped opened 1\n",
    },
    Case {
        words: "solve field=4 nodes=4",
        input: FOUR_POINTS,
        status: 0,
        text: FOUR_POINTS_OVER_4,
    },
    Case {
        words: "solve field=4 classes=auto",
        input: FOUR_POINTS,
        status: 0,
        text: ORBIT_OVER_4,
    },
    Case {
        words: "solve split=1 classes=auto field=4",
        input: FOUR_POINTS,
        status: 0,
        text: ORBIT_OVER_4,
    },
    Case {
        words: "solve field=4 workers=2 classes=auto",
        input: FOUR_POINTS,
        status: 0,
        text: ORBIT_OVER_4,
    },
    Case {
        words: "solve field=9 classes=auto",
        input: FOUR_POINTS,
        status: 0,
        text: b"orbits 4 field 9\norbit 1\nmatrix 9 2 4\n1 0 1 1\n0 1 1 2\nend\norbit 2\nmatrix 9 2 4\n1 0 1 1\n0 1 1 3\nend\norbit 2\nmatrix 9 2 4\n1 0 1 1\n0 1 1 4\nend\norbit 2\nmatrix 9 2 4\n1 0 1 1\n0 1 1 5\nend\n",
    },
    // Over two elements the log is the short one.
    Case {
        words: "solve field=2",
        input: FOUR_POINTS,
        status: 1,
        text: b"refutation 1\nfield 2\nmatroid 1\nelements 4\nrank 2\nnonbases 0\nend\nsteps 0\nend t 2 3\n",
    },
    Case {
        words: "solve field=2 split=4",
        input: FOUR_POINTS,
        status: 1,
        text: b"refutation 1\nfield 2\nmatroid 1\nelements 4\nrank 2\nnonbases 0\nend\nsteps 0\nend t 2 3\n",
    },
    Case {
        words: "solve field=2",
        input: b"matroid 1\nelements 11\nrank 2\nnonbases 0\nend\n",
        status: 1,
        text: b"refutation 1\nfield 2\nmatroid 1\nelements 11\nrank 2\nnonbases 0\nend\nsteps 0\nend t 2 3\n",
    },
    Case {
        words: "solve field=5",
        input: SIX_ON_A_LINE,
        status: 0,
        text: b"representations 6 field 5\nmatrix 5 2 6\n1 0 1 1 1 1\n0 1 1 2 3 4\nend\nmatrix 5 2 6\n1 0 1 1 1 1\n0 1 1 2 4 3\nend\nmatrix 5 2 6\n1 0 1 1 1 1\n0 1 1 3 2 4\nend\nmatrix 5 2 6\n1 0 1 1 1 1\n0 1 1 3 4 2\nend\nmatrix 5 2 6\n1 0 1 1 1 1\n0 1 1 4 2 3\nend\nmatrix 5 2 6\n1 0 1 1 1 1\n0 1 1 4 3 2\nend\n",
    },
    Case {
        words: "solve field=2",
        input: FANO,
        status: 0,
        text: FANO_OVER_2,
    },
    Case {
        words: "solve field=8",
        input: FANO,
        status: 0,
        text: b"representations 1 field 8\nmatrix 8 3 7\n1 0 0 1 1 0 1\n0 1 0 1 0 1 1\n0 0 1 0 1 1 1\nend\n",
    },
    Case {
        words: "solve field=3",
        input: NON_FANO,
        status: 0,
        text: b"representations 1 field 3\nmatrix 3 3 7\n1 0 0 1 1 0 1\n0 1 0 1 0 1 1\n0 0 1 0 1 1 1\nend\n",
    },
    Case {
        words: "solve field=4",
        input: SIX_POINTS,
        status: 0,
        text: SIX_POINTS_OVER_4,
    },
    Case {
        words: "solve field=4 nodes=1",
        input: SIX_POINTS,
        status: 4,
        text: b"stopped opened 1\n",
    },
    // As many nodes as there are assignments of so many positions.
    Case {
        words: "solve field=4 nodes=121",
        input: SIX_POINTS,
        status: 0,
        text: SIX_POINTS_OVER_4,
    },
    Case {
        words: "solve field=4 workers=8 split=2 nodes=117",
        input: SIX_POINTS,
        status: 0,
        text: SIX_POINTS_OVER_4,
    },
    Case {
        words: "solve field=4 workers=2 nodes=1",
        input: SIX_POINTS,
        status: 4,
        text: b"stopped opened 1\n",
    },
    Case {
        words: "solve field=4 workers=2 nodes=121",
        input: SIX_POINTS,
        status: 0,
        text: SIX_POINTS_OVER_4,
    },
    Case {
        words: "solve field=3",
        input: b"matroid 1\nelements 0\nrank 0\nnonbases 0\nend\n",
        status: 0,
        text: b"representations 1 field 3\nmatrix 3 0 0\nend\n",
    },
    Case {
        words: "solve field=2",
        input: b"matroid 1\nelements 32\nrank 0\nnonbases 0\nend\n",
        status: 0,
        text: b"representations 1 field 2\nmatrix 2 0 32\nend\n",
    },
    Case {
        words: "solve field=7",
        input: b"matroid 1\nelements 2\nrank 1\nnonbases 1\n1\nend\n",
        status: 0,
        text: b"representations 1 field 7\nmatrix 7 1 2\n1 0\nend\n",
    },
    Case {
        words: "solve field=2",
        input: b"matroid 1\nelements 2\nrank 2\nnonbases 0\nend\n",
        status: 0,
        text: b"representations 1 field 2\nmatrix 2 2 2\n1 0\n0 1\nend\n",
    },
    Case {
        words: "solve field=4",
        input: TWO_LINES,
        status: 0,
        text: b"representations 4 field 4\nmatrix 4 4 8\n1 0 0 0 1 1 0 0\n0 1 0 0 0 0 1 1\n0 0 1 0 0 0 1 2\n0 0 0 1 1 2 0 0\nend\nmatrix 4 4 8\n1 0 0 0 1 1 0 0\n0 1 0 0 0 0 1 1\n0 0 1 0 0 0 1 2\n0 0 0 1 1 3 0 0\nend\nmatrix 4 4 8\n1 0 0 0 1 1 0 0\n0 1 0 0 0 0 1 1\n0 0 1 0 0 0 1 3\n0 0 0 1 1 2 0 0\nend\nmatrix 4 4 8\n1 0 0 0 1 1 0 0\n0 1 0 0 0 0 1 1\n0 0 1 0 0 0 1 3\n0 0 0 1 1 3 0 0\nend\n",
    },
];

#[test]
fn matroids_have_their_classes_and_orbits(rt: HostRuntime) -> Result<(), Fail> {
    all_end_so(&rt, rt.alloc(), &SOLVES)
}

// The words of a solve that ends with a log, and the words that check it.
const REFUTED: [(&str, &str, &[u8]); 8] = [
    ("solve field=2", "check field=2", FOUR_POINTS),
    ("solve field=3", "check field=3", FANO),
    ("solve field=3 split=1", "check field=3", FANO),
    ("solve field=4", "check field=4", NON_FANO),
    ("solve field=4 split=1", "check field=4", NON_FANO),
    ("solve field=4 workers=8 split=2", "check field=4", VAMOS),
    ("solve field=5 nodes=87381", "check field=5", NON_PAPPUS),
    ("solve field=7 nodes=200000", "check field=7", NON_PAPPUS),
];

// Whether a solve ends with a log that is accepted.
fn is_refuted<R: Threads + Wait + Sync>(
    rt: &R,
    alloc: Global,
    solve: &str,
    check: &str,
    input: &[u8],
) -> Result<bool, Fail> {
    let (status, log) = run_of(rt, alloc, solve, input)?;
    Ok(status == 1 && ends_with(rt, alloc, check, log.held(), 0, b"accepted\n")?)
}

#[test]
fn what_no_matrix_represents_has_a_log_that_is_accepted(rt: HostRuntime) -> Result<(), Fail> {
    for (solve, check, input) in REFUTED {
        if !is_refuted(&rt, rt.alloc(), solve, check, input)? {
            return Err(solve.into());
        }
    }
    Ok(())
}

// A line of n points has (q - 2) (q - 3) .. (q - n + 2) classes over q elements.
const LINES: [(&str, &[u8], &[u8]); 4] = [
    (
        "solve field=2 split=2",
        b"matroid 1\nelements 3\nrank 2\nnonbases 0\nend\n",
        b"representations 1 field 2\n",
    ),
    (
        "solve field=5 split=2",
        FIVE_ON_A_LINE,
        b"representations 6 field 5\n",
    ),
    (
        "solve field=8 split=2",
        FIVE_ON_A_LINE,
        b"representations 30 field 8\n",
    ),
    (
        "solve field=7 split=2",
        SIX_ON_A_LINE,
        b"representations 60 field 7\n",
    ),
];

// Whether a solve lists classes after this line.
fn begins_with<R: Threads + Wait + Sync>(
    rt: &R,
    alloc: Global,
    words: &str,
    input: &[u8],
    line: &[u8],
) -> Result<bool, Fail> {
    let (status, sink) = run_of(rt, alloc, words, input)?;
    Ok(status == 0 && sink.held().starts_with(line))
}

#[test]
fn lines_have_as_many_classes_as_ordered_choices(rt: HostRuntime) -> Result<(), Fail> {
    for (words, input, line) in LINES {
        if !begins_with(&rt, rt.alloc(), words, input, line)? {
            return Err(words.into());
        }
    }
    Ok(())
}
