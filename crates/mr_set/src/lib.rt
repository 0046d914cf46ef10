//! Sets of elements, their order, and matroids as numbers and lists.
#![tactic(auto)]

pub mod laws;
mod listed;
mod lists;
mod order;
mod places;
mod set;
mod sizes;
mod subsets;

pub use listed::sets_of;
pub use lists::{are_sets_of, is_set_of};
pub use order::{elements, is_before};
pub use places::{place_of, subset_at};
pub use set::Set;
pub use sizes::binomial;
pub use subsets::{first_subset, next_subset};

/// Elements are numbers below this.
pub const ELEMENTS: u32 = 32;

/// The most sets of one size that a matroid may have.
pub const SETS: u32 = 5000;
