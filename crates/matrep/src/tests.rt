// What the other tests share: the files of some matroids, and runs that are compared with what they have to end with.
use crate::run::run;
use mr_io::{MemSink, Silent, Source, SureSource};
use std::alloc::Global;
use std::sync::Wait;
use std::test::Fail;
use std::thread::Threads;

// Four points of a line, no two of them parallel.
pub(crate) const FOUR_POINTS: &[u8] = b"matroid 1\nelements 4\nrank 2\nnonbases 0\nend\n";

// Six points of a plane, no three of them on a line.
pub(crate) const SIX_POINTS: &[u8] = b"matroid 1\nelements 6\nrank 3\nnonbases 0\nend\n";

// The Fano plane.
pub(crate) const FANO: &[u8] =
    b"matroid 1\nelements 7\nrank 3\nnonbases 7\n0 1 3\n0 2 4\n0 5 6\n1 2 5\n1 4 6\n2 3 6\n3 4 5\nend\n";

// The same without the line 3 4 5.
pub(crate) const NON_FANO: &[u8] =
    b"matroid 1\nelements 7\nrank 3\nnonbases 6\n0 1 3\n0 2 4\n0 5 6\n1 2 5\n1 4 6\n2 3 6\nend\n";

// The matroid of Vámos, which no matrix represents.
pub(crate) const VAMOS: &[u8] =
    b"matroid 1\nelements 8\nrank 4\nnonbases 5\n0 1 2 3\n0 1 4 5\n0 1 6 7\n2 3 4 5\n2 3 6 7\nend\n";

// The class of the four points over three elements.
pub(crate) const FOUR_POINTS_OVER_3: &[u8] =
    b"representations 1 field 3\nmatrix 3 2 4\n1 0 1 1\n0 1 1 2\nend\n";

// The classes of the six points over four elements.
pub(crate) const SIX_POINTS_OVER_4: &[u8] =
    b"representations 2 field 4\nmatrix 4 3 6\n1 0 0 1 1 1\n0 1 0 1 2 3\n0 0 1 1 3 2\nend\nmatrix 4 3 6\n1 0 0 1 1 1\n0 1 0 1 3 2\n0 0 1 1 2 3\nend\n";

// A run on an input: its words, with a space between two of them, and the status and the text that it ends with.
pub(crate) struct Case {
    pub words: &'static str,
    pub input: &'static [u8],
    pub status: u8,
    pub text: &'static [u8],
}

// The words of a text. Each is ended by a space; after the last one it may be left out.
pub(crate) fn words_of(alloc: Global, text: &str) -> Result<Vec<String>, Fail> {
    let mut words = Vec::new(alloc);
    for word in text.split_terminator(' ') {
        words.push(String::from_str(alloc, word)?)?;
    }
    Ok(words)
}

// The status of a run with these devices.
pub(crate) fn status_of<R: Threads + Wait + Sync, I: Source>(
    rt: &R,
    alloc: Global,
    words: &str,
    source: &mut I,
    sink: &mut MemSink,
) -> Result<u8, Fail> {
    let words = words_of(alloc, words)?;
    Ok(run(rt, alloc, &words, source, sink, &Silent).status())
}

// The status of a run with devices that never fail, and a sink with what was written.
pub(crate) fn run_of<R: Threads + Wait + Sync>(
    rt: &R,
    alloc: Global,
    words: &str,
    input: &[u8],
) -> Result<(u8, MemSink), Fail> {
    let mut source = SureSource::new(alloc, input)?;
    let mut sink = MemSink::new(alloc, 4096, 1_000_000, [].as_slice())?;
    let status = status_of(rt, alloc, words, &mut source, &mut sink)?;
    Ok((status, sink))
}

// Whether a run ends with this status and this text.
pub(crate) fn ends_with<R: Threads + Wait + Sync>(
    rt: &R,
    alloc: Global,
    words: &str,
    input: &[u8],
    status: u8,
    text: &[u8],
) -> Result<bool, Fail> {
    let (ended, sink) = run_of(rt, alloc, words, input)?;
    Ok(ended == status && sink.held() == text)
}

// Runs each case, and fails at the first that ends otherwise.
pub(crate) fn all_end_so<R: Threads + Wait + Sync>(
    rt: &R,
    alloc: Global,
    cases: &[Case],
) -> Result<(), Fail> {
    for case in cases {
        if !ends_with(rt, alloc, case.words, case.input, case.status, case.text)? {
            return Err(case.words.into());
        }
    }
    Ok(())
}
