use mr_assign::Assign;

/// A slot of a pass's own, and the node for which it was drawn.
#[derive(Clone, Copy, Debug, PartialEq, Eq)]
pub struct Ticket {
    pub slot: u32,
    pub node: Assign,
}
