use mr_assign::Assign;
use mr_nogood::Row;

/// What a pass does, in one step.
#[derive(Clone, Copy, Debug, PartialEq, Eq)]
pub enum Event {
    Claim { pass: u32 },
    OpenNode { pass: u32, node: Assign },
    LookAt { pass: u32 },
    Publish { pass: u32, slot: u32, row: Row },
    Split,
    Join { pass: u32 },
}

/// What a look at a slot shows: no row, a row with a long clause, or the slot and its row.
#[derive(Clone, Copy, Debug, PartialEq, Eq)]
pub enum Look {
    Empty,
    Long,
    Short(u32, Row),
}

/// What an event answers. No cube and no ticket is given where none was left.
#[derive(Clone, Copy, Debug, PartialEq, Eq)]
pub enum Reply {
    Cube(Option<u32>),
    Ticket(Option<u32>),
    Seen(Look),
    Done,
}
