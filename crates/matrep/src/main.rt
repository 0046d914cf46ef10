//! Reads a matroid and lists its representations over a small field, or refutes that one exists.
#![tactic(auto)]

mod check;
#[cfg(test)]
mod command_tests;
#[cfg(test)]
mod device_tests;
mod ends;
mod field;
mod input;
mod laws;
#[cfg(test)]
mod limit_tests;
mod listing;
#[cfg(test)]
mod log_tests;
mod matrices;
mod meaning;
mod minors;
mod names;
mod operands;
mod outcome;
mod planes;
mod refusal;
mod run;
mod searching;
mod solve;
#[cfg(test)]
mod solve_tests;
mod solved_laws;
#[cfg(test)]
mod tests;
mod values;
#[cfg(test)]
mod word_tests;
mod words;
#[cfg(test)]
mod worker_tests;

use crate::outcome::Exit;
use mr_exchange::PASSES;
use mr_io::{Silent, StdSink, StdSource};
use std::alloc::{AllocError, Global};
use std::env::{Env, FillError};
use std::io;
use std::process::ExitCode;

/// The most bytes of a log.
pub const LOG_BYTES: usize = 268435456;

/// The most workers of a solve.
pub const WORKERS: u32 = PASSES;

/// The most nodes that a solve opens where its words give no number.
pub const DEFAULT_NODES: u32 = 20000;

/// The greatest order of a plane.
pub const PLANE_ORDER: u8 = 5;

// Longer than any word of a command.
const WORD_BYTES: usize = 1024;

// The program's words without its own name. An empty word, which offends, stands for one that is too long or isn't UTF-8.
fn gather(rt: &HostRuntime) -> Result<Vec<String>, AllocError> {
    let mut words = Vec::new(rt.alloc());
    let mut buf = [0u8; WORD_BYTES];
    for place in 1..usize::MAX {
        match rt.arg(place, &mut buf) {
            Ok(count) => words.push(word_of(rt.alloc(), &buf[..count])?)?,
            Err(FillError::TooLong) => words.push(String::new(rt.alloc()))?,
            Err(FillError::NotPresent) => break,
        }
    }
    Ok(words)
}

// The bytes as a word, or the empty word where they are no text.
fn word_of(alloc: Global, bytes: &[u8]) -> Result<String, AllocError> {
    match str::from_utf8(bytes) {
        Ok(word) => String::from_str(alloc, word),
        Err(_) => Ok(String::new(alloc)),
    }
}

fn main(rt: HostRuntime) -> ExitCode {
    let words = match gather(&rt) {
        Ok(words) => words,
        Err(_) => return ExitCode::from(Exit::Memory.status()),
    };
    let mut input = StdSource::new(rt.reader());
    let mut output = StdSink::new(io::writer(&rt));
    let exit = run::run(&rt, rt.alloc(), &words, &mut input, &mut output, &Silent);
    ExitCode::from(exit.status())
}
