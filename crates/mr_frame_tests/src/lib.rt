//! The tests of matrices, frames and logs.
#![tactic(auto)]

#[cfg(test)]
mod frame_tests;
#[cfg(test)]
mod log_tests;
#[cfg(test)]
mod matrix_tests;
