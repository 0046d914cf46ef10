//! Rows that exclude assignments of a frame, when a row follows from others, and their words.
#![tactic(auto)]

mod following;
pub mod laws;
mod list;
mod packing;
mod row;
#[cfg(test)]
mod tests;

pub use following::{fails, follows, follows_steps};
pub use list::RowList;
use mr_assign::VALUES;
pub use packing::{head_of, pack, row_of, unpack};
pub use row::{Cite, Row, cite_at};

/// The cites of a row, one for each value.
pub const ROW_CITES: usize = VALUES as usize;

/// The words of a packed row.
pub const ROW_WORDS: usize = 15;
