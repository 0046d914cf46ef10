//! One form for each projective class of representations.
#![tactic(auto)]

pub mod laws;
mod scale;
#[cfg(test)]
mod tests;

pub use scale::{Scaled, scale_to_frame};
