ghost use Rattle.std.specs.Prelude.{◌≡◌, ◌↔◌, ◌<◌, ◌≤◌, ◌+◌, ◌^◌, ◌≢◌, ℕ, IfOk, MatchOption, length, slice_index};
ghost use Rattle.mr_graph.specs.Components.{IsComponents};
ghost use Rattle.mr_graph.specs.Private.Components.{IsNumbered};

use crate::Bipartite;
use mr_io::Bytes;
use std::alloc::{AllocError, Global};

/// The number of each row's and each column's component, and how many components there are.
#[derive(Drop)]
pub struct Components {
    pub rows: Bytes,
    pub cols: Bytes,
    pub count: u32,
}

impl Bipartite {
    /// Components are numbered in the order of their least vertices, rows before columns.
    pub fn components(&self, alloc: Global) -> Result<Components, AllocError>
        ensures { IfOk result (λ c. IsComponents self.now c.rows c.cols c.count) }
    {
        let grown = self.grown(alloc)?;
        let labels = grown.labels;
        let numbered = numbered(alloc, &labels)?;
        let numbers = numbered.numbers.as_slice();
        let rows = self.row_count();
        let of_rows = numbers[..rows].to_vec(alloc)?;
        let of_cols = numbers[rows..].to_vec(alloc)?;
        Ok(Components {
            rows: Bytes::of_vec(of_rows),
            cols: Bytes::of_vec(of_cols),
            count: u32::from(numbered.count),
        })
    }
}

// A number for each label, and how many numbers there are.
#[derive(Drop)]
struct Numbering {
    numbers: Vec<u8>,
    count: u8,
}

// The labels, numbered in the order of their first places.
fn numbered(alloc: Global, labels: &[u8]) -> Result<Numbering, AllocError>
    requires { length labels.now < 2 ^ 8 }
    ensures { IfOk result (λ n. IsNumbered labels.now n.numbers.items n.count (length labels.now)) }
{
    let mut numbers = Vec::new(alloc);
    let mut count = 0;
    for _place in 0..labels.len() {
        count = number_next(labels, &mut numbers, count)?;
    }
    Ok(Numbering { numbers, count })
}

// Numbers one more label, and returns the new count.
fn number_next(labels: &[u8], numbers: &mut Vec<u8>, count: u8) -> Result<u8, AllocError>
    requires room { length numbers.old.items < length labels.now }
    requires few { length labels.now < 2 ^ 8 }
    requires numbered { IsNumbered labels.now numbers.old.items count (length numbers.old.items) }
    ensures size { IfOk result (λ more. length numbers.new.items ≡ length numbers.old.items + 1) }
    ensures numbered { IfOk result (λ more. IsNumbered labels.now numbers.new.items more (length numbers.old.items + 1)) }
{
    let n = numbers.len();
    match first_place(&labels[..n], labels[n]) {
        Some(k) => {
            let number = numbers[k];
            numbers.push(number)?;
            Ok(count)
        }
        None => {
            numbers.push(count)?;
            Ok(count + 1)
        }
    }
}

fn first_place(labels: &[u8], label: u8) -> Option<usize>
    ensures { MatchOption result ((k : ℕ) → k < length labels.now → slice_index labels.now k ≢ label) (λ k. (k < length labels.now) × (slice_index labels.now k ≡ label)) }
{
    for (k, x) in labels.iter().enumerate() {
        if *x == label {
            return Some(k);
        }
    }
    None
}
