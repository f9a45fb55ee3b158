//! The entries of a node's log: what the node did, and which client's order it was.
use cast_message::{Event, Outcome, StepFault};

/// A client's order: the client's number at its node, and the ticket that it got.
#[derive(Clone, Copy, PartialEq, Eq)]
pub struct Origin {
    /// The client's number at its node, from 0.
    pub client: u64,
    /// The ticket that the client got for the order.
    pub ticket: u64,
}

/// What an entry says.
#[derive(Drop)]
pub enum EntryKind {
    /// The node took this step: an accepted event of its own, with what it delivered and decided. An order has an
    /// origin if a client gave it.
    Step {
        event: Event,
        origin: Option<Origin>,
        outcome: Outcome,
    },
    /// The node refused this order of a client. A refusal is no event of the node.
    Refused {
        origin: Origin,
        fault: StepFault,
    },
}

#[derive(Drop)]
pub struct Entry {
    /// What the node's clock showed. Stamps rise in a log, and a frame arrives with a greater stamp than it was made
    /// with (a logical clock; Lamport 1978).
    pub stamp: u64,
    pub kind: EntryKind,
}
