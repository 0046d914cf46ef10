use super::*;
use mr_field::Field;
use mr_file::{FileFault, Measure, write_matroid};
use mr_linear::Matrix;
use mr_matroid::Matroid;
use mr_set::{ELEMENTS, binomial};
use mr_text::Text;
use std::alloc::Global;
use std::test::Fail;

const U24: &'static str = "matroid 1\nelements 4\nrank 2\nnonbases 0\nend\n";

const BLOCK: &'static str = "matrix 3 2 4\n1 0 1 1\n0 1 1 2\nend\n";

// What is answered to a block over the field with q elements.
fn block(alloc: Global, q: u32, text: &str) -> Result<Result<Matrix, MatrixFault>, Fail> {
    let bytes = text.as_bytes();
    if bytes.len() >= 1000 {
        return Err("the text is short".into());
    }
    let field = Field::of(q).ok_or("the field is one of the seven")?;
    Ok(read_matrix(alloc, bytes, field))
}

// The matroid of the matrix, where there are few sets.
fn matroid(alloc: Global, a: &Matrix) -> Result<Result<Matroid, OfFault>, Fail> {
    let n = a.cols();
    let r = a.rows();
    if r > ELEMENTS {
        return Err("there are few rows".into());
    }
    if binomial(n, r).is_none() {
        return Err("there are few sets".into());
    }
    Ok(matroid_of(alloc, a))
}

// What is answered to a matroid file and a block.
fn pair(alloc: Global, q: u32, text: &str) -> Result<Result<Pair, FileFault>, Fail> {
    let bytes = text.as_bytes();
    if bytes.len() >= 1000 {
        return Err("the text is short".into());
    }
    let field = Field::of(q).ok_or("the field is one of the seven")?;
    Ok(read_pair(alloc, bytes, field))
}

// The mask of the set at which the matrix and the matroid differ, where they have one size. It is 0 where they don't differ.
fn difference(p: &Pair) -> Option<u64> {
    if p.matrix.rows() != p.matroid.rank() {
        return None;
    }
    if p.matrix.cols() != p.matroid.elements() {
        return None;
    }
    match confirm(&p.matroid, &p.matrix) {
        Confirm::Confirmed => Some(0),
        Confirm::Differs { set } => Some(set.mask()),
    }
}

// The plane over the field with q elements.
fn plane(alloc: Global, q: u32) -> Result<Matrix, Fail> {
    let field = Field::of(q).ok_or("the field is one of the seven")?;
    if field.order() > 5 {
        return Err("the plane is small".into());
    }
    Ok(plane_matrix(alloc, field)?)
}

// The block of the matrix.
fn written(alloc: Global, a: &Matrix) -> Result<Text, Fail> {
    let mut text = Text::new(alloc);
    write_matrix(a, &mut text)?;
    Ok(text)
}

#[test]
fn a_block_is_read_and_written(rt: HostRuntime) -> Result<(), Fail> {
    let alloc = rt.alloc();
    for (q, text) in [
        (3u32, BLOCK),
        (3, "matrix 3 0 0\nend\n"),
        (2, "matrix 2 0 32\nend\n"),
        (9, "matrix 9 1 2\n8 7\nend\n"),
    ] {
        let a = block(alloc, q, text)??;
        assert_eq!(rt; written(alloc, &a)?.as_bytes(), text.as_bytes());
    }
    Ok(())
}

#[test]
fn the_first_fault_of_a_block_is_named(rt: HostRuntime) -> Result<(), Fail> {
    let alloc = rt.alloc();
    for (text, line) in [
        ("", 1u32),
        ("matrix 2 2 4\n", 1),
        ("matrix 3 2  4\n", 1),
        ("matrix 3 2 4 \n", 1),
        ("matrix 3 02 4\n", 1),
        ("matrix 3 2 33", 1),
        ("matrix 3 2 4\n1 0 1\n", 2),
        ("matrix 3 2 4\n1 0 1 3\n", 2),
        ("matrix 3 2 4\n1 0 1 1\n0 1 1 2 0\nend\n", 3),
        ("matrix 3 2 4\n1 0 1 1\n0 1 1 2\n", 4),
        ("matrix 3 2 4\n1 0 1 1\n0 1 1 2\nend\n\n", 5),
    ] {
        let fault = block(alloc, 3, text)?.err();
        assert!(rt;
            matches!(fault, Some(MatrixFault::Grammar { line: l }) if l == line),
            "in {text}"
        );
    }
    for (text, measure) in [
        ("matrix 3 40 33\n", Measure::Elements),
        ("matrix 3 3 2\n", Measure::Rank),
        ("matrix 3 6 15\n", Measure::Sets),
    ] {
        let fault = block(alloc, 3, text)?.err();
        assert!(rt;
            matches!(fault, Some(MatrixFault::Size { line: 1, what }) if what == measure),
            "in {text}"
        );
    }
    Ok(())
}

#[test]
fn a_matrix_has_a_matroid_where_its_rows_are_independent(rt: HostRuntime) -> Result<(), Fail> {
    let alloc = rt.alloc();
    let a = block(alloc, 3, BLOCK)??;
    let mut text = Text::new(alloc);
    write_matroid(&matroid(alloc, &a)??, &mut text)?;
    assert_eq!(rt; text.as_bytes(), U24.as_bytes());
    let short = block(alloc, 3, "matrix 3 2 2\n1 2\n2 1\nend\n")??;
    let refused = matroid(alloc, &short)?.err();
    assert!(rt; matches!(refused, Some(OfFault::RankShort { rank: 1 })));
    Ok(())
}

#[test]
fn the_first_difference_is_named(rt: HostRuntime) -> Result<(), Fail> {
    let alloc = rt.alloc();
    let same =
        "matroid 1\nelements 4\nrank 2\nnonbases 0\nend\nmatrix 3 2 4\n1 0 1 1\n0 1 1 2\nend\n";
    assert_eq!(rt; difference(&pair(alloc, 3, same)??), Some(0));
    let other =
        "matroid 1\nelements 4\nrank 2\nnonbases 0\nend\nmatrix 3 2 4\n1 0 1 1\n0 1 1 1\nend\n";
    assert_eq!(rt; difference(&pair(alloc, 3, other)??), Some(12));
    for (text, line) in [
        (
            "matroid 1\nelements 4\nrank 2\nnonbases 0\nend\nmatrix 3 2 5\n",
            6u32,
        ),
        (
            "matroid 1\nelements 4\nrank 2\nnonbases 0\nend\nmatrix 3 40 40\n",
            6,
        ),
        (
            "matroid 1\nelements 2\nrank 1\nnonbases 2\n0\n1\nend\nmatrix 3 1 2\n1 1\nen\n",
            10,
        ),
    ] {
        let fault = pair(alloc, 3, text)?.err();
        assert!(rt;
            matches!(fault, Some(FileFault::Grammar { line: l }) if l == line),
            "in {text}"
        );
    }
    let none = "matroid 1\nelements 2\nrank 1\nnonbases 2\n0\n1\nend\nmatrix 3 1 2\n1 1\nend\n";
    assert!(rt; matches!(pair(alloc, 3, none)?.err(), Some(FileFault::NoBasis)));
    Ok(())
}

#[test]
fn planes_have_their_lines(rt: HostRuntime) -> Result<(), Fail> {
    let alloc = rt.alloc();
    let fano = "matrix 2 3 7\n0 0 0 1 1 1 1\n0 1 1 0 0 1 1\n1 0 1 0 1 0 1\nend\n";
    assert_eq!(rt;
        written(alloc, &plane(alloc, 2)?)?.as_bytes(),
        fano.as_bytes()
    );
    for (q, elements, nonbases) in [(2u32, 7, 7), (3, 13, 52), (4, 21, 210), (5, 31, 620)] {
        let m = matroid(alloc, &plane(alloc, q)?)??;
        assert_eq!(rt;
            (m.elements(), m.rank(), m.nonbasis_count()),
            (elements, 3, nonbases)
        );
    }
    Ok(())
}
