// The limits, budgets around the number of nodes that suffices, and matroids at the ends of the range.
use crate::tests::{SIX_POINTS, SIX_POINTS_OVER_4, VAMOS, ends_with, run_of};
use crate::{DEFAULT_NODES, LOG_BYTES, PLANE_ORDER};
use mr_exchange::{NODES, PASSES, SPLIT};
use mr_file::FILE_BYTES;
use mr_log::STEPS;
use mr_merge::PREFIXES;
use mr_set::{ELEMENTS, SETS};
use std::alloc::Global;
use std::sync::Wait;
use std::test::Fail;
use std::thread::Threads;

#[test]
fn limits_are_those_of_the_formats(rt: HostRuntime) {
    assert!(rt; ELEMENTS == 32 && SETS == 5000 && FILE_BYTES == 1_048_576);
    assert!(rt; STEPS == 1_000_000 && LOG_BYTES == 268_435_456);
    assert!(rt; PASSES == 64 && NODES == 200_000 && DEFAULT_NODES == 20_000);
    assert!(rt; SPLIT == 4 && PREFIXES == 1 + 8 + 64 + 512 && PLANE_ORDER == 5);
}

// So many assignments of the first free positions, from the depth of a split on, let no set fail: of the six points, over four elements,
// and of the matroid of Vámos. A search with that many nodes isn't stopped.
const SIX_POINTS_NEED: [u32; 5] = [9, 8, 6, 4, 2];

const VAMOS_NEED: [u32; 5] = [8, 7, 6, 4, 2];

// Whether a search was stopped with just as many nodes opened as it may open, fewer than it needs.
fn is_stopped_at(alloc: Global, nodes: u32, need: u32, text: &[u8]) -> Result<bool, Fail> {
    let line = format!(in alloc; "stopped opened {nodes}\n")?;
    Ok(nodes < need && text == line.as_bytes())
}

// Whether the six points are solved or stopped as they may be. There are two classes: one node is too few to tell them.
fn six_points_end_so<R: Threads + Wait + Sync>(
    rt: &R,
    alloc: Global,
    split: u32,
    nodes: u32,
    need: u32,
) -> Result<bool, Fail> {
    let words = format!(in alloc; "solve field=4 split={split} nodes={nodes}")?;
    let (status, sink) = run_of(rt, alloc, &words, SIX_POINTS)?;
    if status == 4 {
        return is_stopped_at(alloc, nodes, need, sink.held());
    }
    Ok(status == 0 && nodes > 1 && sink.held() == SIX_POINTS_OVER_4)
}

// Whether the matroid of Vámos is refuted or stopped as it may be.
fn vamos_ends_so<R: Threads + Wait + Sync>(
    rt: &R,
    alloc: Global,
    split: u32,
    nodes: u32,
    need: u32,
) -> Result<bool, Fail> {
    let words = format!(in alloc; "solve field=4 split={split} nodes={nodes}")?;
    let (status, log) = run_of(rt, alloc, &words, VAMOS)?;
    if status == 4 {
        return is_stopped_at(alloc, nodes, need, log.held());
    }
    Ok(status == 1 && ends_with(rt, alloc, "check field=4", log.held(), 0, b"accepted\n")?)
}

#[test]
fn as_many_nodes_as_are_consistent_suffice(rt: HostRuntime) -> Result<(), Fail> {
    for split in 0..5_u32 {
        for nodes in 1..11_u32 {
            if !six_points_end_so(
                &rt,
                rt.alloc(),
                split,
                nodes,
                SIX_POINTS_NEED[split as usize],
            )? {
                return Err("the six points end otherwise".into());
            }
            if !vamos_ends_so(&rt, rt.alloc(), split, nodes, VAMOS_NEED[split as usize])? {
                return Err("the matroid of Vámos ends otherwise".into());
            }
        }
    }
    Ok(())
}

// The orders of the fields.
const ORDERS: [u32; 7] = [2, 3, 4, 5, 7, 8, 9];

// How many workers share a search.
const WORKERS: [u32; 3] = [1, 2, 8];

// Matroids without a free position, and their matrix without its first word: no element, elements of rank 0, a basis of all elements, and
// loops beside coloops.
const ONE_BASIS: [(&[u8], &str); 5] = [
    (b"matroid 1\nelements 0\nrank 0\nnonbases 0\nend\n", "0 0\n"),
    (b"matroid 1\nelements 3\nrank 0\nnonbases 0\nend\n", "0 3\n"),
    (
        b"matroid 1\nelements 3\nrank 3\nnonbases 0\nend\n",
        "3 3\n1 0 0\n0 1 0\n0 0 1\n",
    ),
    (
        b"matroid 1\nelements 4\nrank 2\nnonbases 5\n0 1\n0 2\n0 3\n1 2\n2 3\nend\n",
        "2 4\n0 1 0 0\n0 0 0 1\n",
    ),
    (
        b"matroid 1\nelements 32\nrank 1\nnonbases 31\n0\n1\n2\n3\n4\n5\n6\n7\n8\n9\n10\n11\n12\n13\n14\n15\n16\n17\n18\n19\n20\n21\n22\n23\n24\n25\n26\n27\n28\n29\n30\nend\n",
        "1 32\n0 0 0 0 0 0 0 0 0 0 0 0 0 0 0 0 0 0 0 0 0 0 0 0 0 0 0 0 0 0 0 1\n",
    ),
];

// Whether the matroid has just this class, with one node and a split of more positions than there are.
fn has_one_class<R: Threads + Wait + Sync>(
    rt: &R,
    alloc: Global,
    input: &[u8],
    matrix: &str,
    q: u32,
    workers: u32,
) -> Result<bool, Fail> {
    let words = format!(in alloc; "solve field={q} workers={workers} split=4 nodes=1")?;
    let text = format!(in alloc; "representations 1 field {q}\nmatrix {q} {matrix}end\n")?;
    ends_with(rt, alloc, &words, input, 0, text.as_bytes())
}

// The same over each field and with each number of workers.
fn has_one_class_over_each_field<R: Threads + Wait + Sync>(
    rt: &R,
    alloc: Global,
    input: &[u8],
    matrix: &str,
) -> Result<bool, Fail> {
    for q in ORDERS {
        for workers in WORKERS {
            if !has_one_class(rt, alloc, input, matrix, q, workers)? {
                return Ok(false);
            }
        }
    }
    Ok(true)
}

#[test]
fn matroids_with_one_basis_have_one_class(rt: HostRuntime) -> Result<(), Fail> {
    for (input, matrix) in ONE_BASIS {
        if !has_one_class_over_each_field(&rt, rt.alloc(), input, matrix)? {
            return Err(matrix.into());
        }
    }
    Ok(())
}
