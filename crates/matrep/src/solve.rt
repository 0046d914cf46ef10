ghost use Rattle.std.specs.Prelude.{◌≡◌, ◌≤◌, length, IfOk};
ghost use Rattle.mr_field.specs.Gf.{Gf, order};
ghost use Rattle.mr_field.specs.Order.{IsOrder};
ghost use Rattle.mr_log.specs.Log.{IsLog, log_text};
ghost use Rattle.mr_exchange.specs.declared.TheConstants.{NODES, SPLIT};
ghost use Rattle.matrep.specs.Result.{OfFile};
ghost use Rattle.matrep.specs.Solving.{Solves};
ghost use Rattle.matrep.specs.Private.Searched.{IsSearchedTo};

use crate::WORKERS;
use crate::field::field_with;
use crate::input::refused_file;
use crate::listing::{list_classes, list_orbits, stopped};
use crate::outcome::{Exit, Outcome};
use crate::searching::{Searched, search_frame, search_frame_by};
use mr_field::Field;
use mr_file::{FILE_BYTES, read_matroid};
use mr_frame::Frame;
use mr_io::Gate;
use mr_log::{Log, write_log};
use mr_matroid::Matroid;
use std::alloc::{AllocError, Global};
use std::sync::Wait;
use std::thread::Threads;

/// The exit and the text of a solve over the field with `q` elements for the bytes of a file, at most `FILE_BYTES` of them, with
/// one worker. `q` is 2, 3, 4, 5, 7, 8 or 9. From 1 to `NODES` nodes are opened at most, and the first 0 to `SPLIT` free positions
/// are split, or all where they are fewer. Bytes at fault are an exit too: this is refused for want of memory alone.
pub fn solve_one(
    alloc: Global,
    bytes: &[u8],
    q: u8,
    nodes: u32,
    split: u32,
    orbits: bool,
) -> Result<Outcome, AllocError>
    requires field { IsOrder q }
    requires some_nodes { 1 ≤ nodes }
    requires few_nodes { nodes ≤ NODES }
    requires few_split { split ≤ SPLIT }
    requires limit { length bytes.now ≤ FILE_BYTES }
    ensures { IfOk result (λ o. (f : Gf) × (order f ≡ q) × OfFile bytes.now (Solves f nodes split orbits) o.exit o.text) }
{
    let field = field_with(q);
    match read_matroid(alloc, bytes) {
        Ok(m) => solve_matroid(alloc, m, field, nodes, split, orbits),
        Err(fault) => refused_file(alloc, fault),
    }
}

/// The same with 1 to `WORKERS` workers at once, each of which passes the gate after each call of its board. It waits for them, so
/// it may not return.
pub fn solve_many<R: Threads + Wait + Sync, G: Gate + Sync>(
    rt: &R,
    alloc: Global,
    bytes: &[u8],
    q: u8,
    workers: u32,
    nodes: u32,
    split: u32,
    orbits: bool,
    gate: &G,
) -> Result<Outcome, AllocError>
    requires field { IsOrder q }
    requires some_workers { 1 ≤ workers }
    requires few_workers { workers ≤ WORKERS }
    requires some_nodes { 1 ≤ nodes }
    requires few_nodes { nodes ≤ NODES }
    requires few_split { split ≤ SPLIT }
    requires limit { length bytes.now ≤ FILE_BYTES }
    ensures { IfOk result (λ o. (f : Gf) × (order f ≡ q) × OfFile bytes.now (Solves f nodes split orbits) o.exit o.text) }
{
    let field = field_with(q);
    match read_matroid(alloc, bytes) {
        Ok(m) => solve_matroid_by(rt, alloc, m, field, workers, nodes, split, orbits, gate),
        Err(fault) => refused_file(alloc, fault),
    }
}

// The outcome for a matroid, with one worker.
fn solve_matroid(
    alloc: Global,
    m: Matroid,
    field: Field,
    nodes: u32,
    split: u32,
    orbits: bool,
) -> Result<Outcome, AllocError>
    requires some_nodes { 1 ≤ nodes }
    requires few_nodes { nodes ≤ NODES }
    requires few_split { split ≤ SPLIT }
    ensures { IfOk result (λ o. Solves field nodes split orbits m o.exit o.text) }
{
    let frame = Frame::new(alloc, m, field)?;
    let searched = search_frame(alloc, &frame, nodes, split)?;
    outcome_of(alloc, &frame, nodes, split, orbits, searched)
}

// The outcome for a matroid, with so many workers at once.
fn solve_matroid_by<R: Threads + Wait + Sync, G: Gate + Sync>(
    rt: &R,
    alloc: Global,
    m: Matroid,
    field: Field,
    workers: u32,
    nodes: u32,
    split: u32,
    orbits: bool,
    gate: &G,
) -> Result<Outcome, AllocError>
    requires some_workers { 1 ≤ workers }
    requires few_workers { workers ≤ WORKERS }
    requires some_nodes { 1 ≤ nodes }
    requires few_nodes { nodes ≤ NODES }
    requires few_split { split ≤ SPLIT }
    ensures { IfOk result (λ o. Solves field nodes split orbits m o.exit o.text) }
{
    let frame = Frame::new(alloc, m, field)?;
    let searched = search_frame_by(rt, alloc, &frame, workers, nodes, split, gate)?;
    outcome_of(alloc, &frame, nodes, split, orbits, searched)
}

// The outcome for a frame, from what the search over it ended with.
fn outcome_of(
    alloc: Global,
    frame: &Frame,
    nodes: u32,
    split: u32,
    orbits: bool,
    searched: Searched,
) -> Result<Outcome, AllocError>
    requires few_nodes { nodes ≤ NODES }
    requires searched { IsSearchedTo frame.now nodes split searched }
    ensures { IfOk result (λ o. Solves frame.now.field nodes split orbits frame.now.matroid o.exit o.text) }
{
    // The clauses of `basis` say that it is a frame.
    let _basis = frame.basis();
    match searched {
        Searched::Forms(forms) => {
            if orbits {
                list_orbits(alloc, frame, &forms)
            } else {
                list_classes(alloc, frame, &forms)
            }
        }
        Searched::Refuted(log) => refuted(alloc, &log),
        Searched::Stopped { opened } => stopped(alloc, opened),
    }
}

// The outcome with a log.
fn refuted(alloc: Global, log: &Log) -> Result<Outcome, AllocError>
    requires { IsLog log.now }
    ensures exit { IfOk result (λ o. o.exit ≡ Exit.Negative) }
    ensures text { IfOk result (λ o. o.text ≡ log_text log.now) }
{
    let text = write_log(alloc, log)?;
    Ok(Outcome {
        exit: Exit::Negative,
        text,
    })
}
