//! What a node notifies its clients of.
use cast_message::{Decision, Message, StepFault};

/// What a client is notified of.
#[derive(Drop)]
pub enum Notice {
    /// The node took the client's order with this ticket, as its order of this number, or refused it.
    Reply {
        ticket: u64,
        outcome: Result<u64, StepFault>,
    },
    /// The node delivered this message.
    Delivered(Message),
    /// The node took this decision.
    Decided(Decision),
}
