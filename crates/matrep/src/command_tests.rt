// The commands but `solve` and `check`, and inputs that are refused.
use crate::tests::{Case, FANO, FOUR_POINTS, all_end_so, ends_with};
use std::alloc::Global;
use std::sync::Wait;
use std::test::Fail;
use std::thread::Threads;

const COMMANDS: [Case; 20] = [
    Case {
        words: "",
        input: FOUR_POINTS,
        status: 3,
        text: b"usage word 0\n",
    },
    Case {
        words: "solve field=6",
        input: FOUR_POINTS,
        status: 3,
        text: b"usage word 1\n",
    },
    Case {
        words: "solve field=3 field=3",
        input: FOUR_POINTS,
        status: 3,
        text: b"usage word 2\n",
    },
    Case {
        words: "solve nodes=5",
        input: FOUR_POINTS,
        status: 3,
        text: b"usage word 2\n",
    },
    Case {
        words: "minor delete=0 delete=1",
        input: FOUR_POINTS,
        status: 3,
        text: b"usage word 2\n",
    },
    Case {
        words: "dual",
        input: FOUR_POINTS,
        status: 0,
        text: FOUR_POINTS,
    },
    // The bases of the dual are the complements.
    Case {
        words: "dual",
        input: b"matroid 1\nelements 2\nrank 1\nnonbases 1\n1\nend\n",
        status: 0,
        text: b"matroid 1\nelements 2\nrank 1\nnonbases 1\n0\nend\n",
    },
    // The three lines through the point become pairs of parallel elements.
    Case {
        words: "minor contract=0",
        input: FANO,
        status: 0,
        text: b"matroid 1\nelements 6\nrank 2\nnonbases 3\n0 2\n1 3\n4 5\nend\n",
    },
    // The four lines that miss the point stay.
    Case {
        words: "minor delete=6",
        input: FANO,
        status: 0,
        text: b"matroid 1\nelements 6\nrank 3\nnonbases 4\n0 1 3\n0 2 4\n1 2 5\n3 4 5\nend\n",
    },
    // Both at once: two pairs of parallel elements, and one alone.
    Case {
        words: "minor delete=6 contract=0",
        input: FANO,
        status: 0,
        text: b"matroid 1\nelements 5\nrank 2\nnonbases 2\n0 2\n1 3\nend\n",
    },
    Case {
        words: "minor delete=7,40",
        input: FANO,
        status: 2,
        text: b"refused stranger 7\n",
    },
    Case {
        words: "minor delete=7",
        input: FOUR_POINTS,
        status: 2,
        text: b"refused stranger 7\n",
    },
    Case {
        words: "matroid field=3",
        input: b"matrix 3 2 4\n1 0 1 1\n0 1 1 2\nend\n",
        status: 0,
        text: FOUR_POINTS,
    },
    Case {
        words: "matroid field=3",
        input: b"matrix 3 2 2\n1 2\n2 1\nend\n",
        status: 2,
        text: b"refused rank 1\n",
    },
    // The last two columns are apart, or equal.
    Case {
        words: "confirm field=3",
        input: b"matroid 1\nelements 4\nrank 2\nnonbases 0\nend\nmatrix 3 2 4\n1 0 1 1\n0 1 1 2\nend\n",
        status: 0,
        text: b"confirmed\n",
    },
    Case {
        words: "confirm field=3",
        input: b"matroid 1\nelements 4\nrank 2\nnonbases 0\nend\nmatrix 3 2 4\n1 0 1 1\n0 1 1 1\nend\n",
        status: 1,
        text: b"differs 2 3\n",
    },
    // The plane over q elements has q * q + q + 1 points and as many lines of q + 1 points, and a class for each
    // automorphism of its field.
    Case {
        words: "plane order=2",
        input: b"",
        status: 0,
        text: b"plane 2 elements 7 nonbases 7 classes 1\n",
    },
    Case {
        words: "plane order=3",
        input: b"",
        status: 0,
        text: b"plane 3 elements 13 nonbases 52 classes 1\n",
    },
    Case {
        words: "plane order=4",
        input: b"",
        status: 0,
        text: b"plane 4 elements 21 nonbases 210 classes 2\n",
    },
    Case {
        words: "plane order=5",
        input: b"",
        status: 0,
        text: b"plane 5 elements 31 nonbases 620 classes 1\n",
    },
];

#[test]
fn commands_write_what_is_known(rt: HostRuntime) -> Result<(), Fail> {
    all_end_so(&rt, rt.alloc(), &COMMANDS)
}

// Inputs at fault, and what is said of them.
const REFUSED: [(&[u8], &[u8]); 12] = [
    (b"", b"refused grammar line 1\n"),
    (
        b"matroid 1\nelements 4\nrank 2\nnonbases 0\nen",
        b"refused grammar line 5\n",
    ),
    (
        b"matroid 1\nelements 4\nrank 2\nnonbases 1\n0 ",
        b"refused grammar line 5\n",
    ),
    (
        b"matroid 1\nelements 3\nrank 2\nnonbases 2\n0 1\n0 1\nend\n",
        b"refused grammar line 6\n",
    ),
    (
        b"matroid 1\nelements 33\nrank 2\nnonbases 0\nend\n",
        b"refused size line 2 elements\n",
    ),
    (
        b"matroid 1\nelements 15\nrank 6\nnonbases 0\nend\n",
        b"refused size line 3 sets\n",
    ),
    (
        b"matroid 1\nelements 2\nrank 3\nnonbases 0\nend\n",
        b"refused size line 3 rank\n",
    ),
    (
        b"matroid 1\nelements 4\nrank 2\nnonbases 7\nend\n",
        b"refused size line 4 nonbases\n",
    ),
    (
        b"matroid 1\nelements 2\nrank 1\nnonbases 2\n0\n1\nend\n",
        b"refused no basis\n",
    ),
    (
        b"matroid 1\nelements 4\nrank 2\nnonbases 2\n0 1\n1 2\nend\n",
        b"refused exchange b1 1 3 b2 0 2 x 3\n",
    ),
    // The bases are 0 1 and 2 3 alone: of the elements that can't be exchanged the least is named.
    (
        b"matroid 1\nelements 4\nrank 2\nnonbases 4\n0 2\n0 3\n1 2\n1 3\nend\n",
        b"refused exchange b1 0 1 b2 2 3 x 0\n",
    ),
    (b"matrix 3 0 0\nend\n", b"refused grammar line 1\n"),
];

// Whether two commands refuse an input with this text.
fn is_refused<R: Threads + Wait + Sync>(
    rt: &R,
    alloc: Global,
    input: &[u8],
    text: &[u8],
) -> Result<bool, Fail> {
    Ok(
        ends_with(rt, alloc, "dual", input, 2, text)?
            && ends_with(rt, alloc, "solve field=2", input, 2, text)?,
    )
}

#[test]
fn inputs_are_refused_at_their_first_fault(rt: HostRuntime) -> Result<(), Fail> {
    for (input, text) in REFUSED {
        if !is_refused(&rt, rt.alloc(), input, text)? {
            return Err("refused otherwise".into());
        }
    }
    Ok(())
}

#[test]
fn one_byte_more_than_the_limit_is_too_long(rt: HostRuntime) -> Result<(), Fail> {
    let longest = vec![in rt.alloc(); b'a'; 1_048_576]?;
    let longer = vec![in rt.alloc(); b'a'; 1_048_577]?;
    if is_refused(&rt, rt.alloc(), &longest, b"refused grammar line 1\n")?
        && is_refused(&rt, rt.alloc(), &longer, b"refused too long\n")?
    {
        Ok(())
    } else {
        Err("refused otherwise".into())
    }
}
