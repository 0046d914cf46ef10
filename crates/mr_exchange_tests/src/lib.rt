//! The tests of the exchange and of the store that threads share.
#![tactic(auto)]

#[cfg(test)]
mod board_tests;
#[cfg(test)]
mod exchange_tests;
#[cfg(test)]
mod looking_tests;
#[cfg(test)]
mod plane;
#[cfg(test)]
mod racing_tests;
#[cfg(test)]
mod store_tests;
