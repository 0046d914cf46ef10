//! Refutation logs, read and written.
#![tactic(auto)]

mod cite;
mod clause;
mod fault;
mod laws;
mod log;
mod read;
mod step;
mod words;
mod write;

pub use fault::{LogFault, Why};
pub use laws::{each_text_is_a_log_or_at_fault, no_log_refusal, one_log, one_log_refusal};
pub use log::Log;
pub use read::read_log;
pub use write::write_log;

/// The most steps of a log.
pub const STEPS: u32 = 1000000;
