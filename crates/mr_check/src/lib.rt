//! The checker of refutation logs.
#![tactic(auto)]

mod checker;
mod judge;
pub mod laws;
mod steps;
#[cfg(test)]
mod tests;

pub use checker::{Accepted, CheckFault, check};
