//! The tests of the search of a cube, of what it learns, and of the merge of all answers.
#![tactic(auto)]

#[cfg(test)]
mod cube_tests;
#[cfg(test)]
mod frames;
#[cfg(test)]
mod index_tests;
#[cfg(test)]
mod merge_tests;
