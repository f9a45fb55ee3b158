//! What a client orders.
use cast_message::Item;

/// An order as a node takes it, from a client of its own.
#[derive(Drop)]
pub struct OrderIn {
    /// The client's number at its node, from 0.
    pub client: u64,
    /// The ticket that the client received for the order.
    pub ticket: u64,
    pub item: Item,
}
