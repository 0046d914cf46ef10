//! Learnt rows, and which values of a position they and the sets of a frame leave to a node.
#![tactic(auto)]

mod index;
mod lists;
mod number;
mod pair;
mod tests_at;
mod trie;

pub use index::Index;
pub use tests_at::first_failing_values;
