//! The exchange of rows between passes that search at once: its states, its events, and what holds of all of them.
#![tactic(auto)]

mod answer;
mod board;
mod closed;
mod cube;
mod event;
mod fault;
mod laws;
mod looking;
mod packed;
mod pass;
mod plain;
mod problem;
mod replaying;
mod slots;
mod state;
mod ticket;

pub use answer::{AnswerList, CubeAnswer, SlotList};
pub use board::{Board, passes_act_as_boards};
pub use closed::Closed;
pub use cube::cube_at;
pub use event::{Event, Look, Reply};
pub use fault::{ReplayFault, StepFault};
pub use laws::{
    allowed_events_keep_soundness, cubes_are_in_order, each_cube_has_one_pass,
    events_lead_to_one_state, known_rows_stay_out_of_nodes, new_states_are_sound,
    passes_have_facts, reached_states_are_sound, rows_of_sound_states_exclude, rows_stay,
    words_are_small,
};
pub use looking::{next_slot, pairs_shown};
pub use packed::PackedRows;
pub use plain::PlainBoard;
pub use problem::Problem;
pub use replaying::replay;
pub use state::State;
pub use ticket::Ticket;

/// A problem splits at most this many positions.
pub const SPLIT: u32 = 4;

/// A problem has at most this many nodes.
pub const NODES: u32 = 200_000;

/// At most this many passes are made.
pub const PASSES: u32 = 64;

/// A clause of at most this many pairs is short.
pub const SHORT: u32 = 8;

/// How many looks are due for each ticket.
pub const LOOKS: u32 = 4;
