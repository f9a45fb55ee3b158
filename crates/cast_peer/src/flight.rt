//! What is under way to a peer. No contract speaks of it: what is sent again, and when, changes no promise. To send
//! again is no step, since it is the same packet, and the log doesn't grow.
use crate::acknowledged::Acknowledged;
use cast_message::NodeId;
use cast_node::Node;
use std::alloc::{AllocError, Global};

// The most slots under way to a peer.
const WINDOW: usize = 64;

// Each time a packet is sent again, it waits twice as long, at most this many ticks.
const MOST_PATIENCE: u32 = 64;

// A slot that was sent and is not yet acknowledged.
#[derive(Drop)]
struct Flying {
    slot: u64,
    // The log entry that made its packet.
    entry: usize,
    // The ticks since it was sent, and how many it waits to be sent again.
    age: u32,
    patience: u32,
    bytes: Vec<u8>,
}

#[derive(Drop)]
pub struct Flight {
    // No slot from this one on was sent.
    next: u64,
    flying: Vec<Flying>,
    pub acknowledged: Acknowledged,
}

impl Flight {
    /// Nothing was sent yet.
    pub fn new(alloc: Global) -> Flight {
        Flight {
            next: 0,
            flying: Vec::new(alloc),
            acknowledged: Acknowledged::new(alloc),
        }
    }

    /// Counts a tick.
    pub fn tick(&mut self) {
        for flying in self.flying.iter_mut() {
            flying.age = flying.age.saturating_add(1);
        }
    }

    /// Drops the slot, since the peer took it.
    pub fn hear(&mut self, slot: u64) {
        self.flying.retain(|flying| flying.slot != slot);
    }

    /// Appends a packet that should be sent again, if there is one, and returns the log entry that made it.
    pub fn send_again(&mut self, out: &mut Vec<u8>) -> Result<Option<usize>, AllocError> {
        for flying in self.flying.iter_mut() {
            if flying.age >= flying.patience {
                out.extend_from_slice(flying.bytes.as_slice())?;
                flying.age = 0;
                flying.patience = flying.patience.saturating_mul(2).min(MOST_PATIENCE);
                return Ok(Some(flying.entry));
            }
        }
        self.acknowledged.send_again(out)
    }

    /// The slot to be sent next for the first time, if there is one and room to keep it.
    pub fn next_new(&mut self, node: &Node, to: NodeId) -> Option<u64> {
        if self.flying.len() >= WINDOW || self.flying.reserve(1).is_err() {
            return None;
        }
        node.least_owed(to, self.next)
    }

    /// Keeps the packet of a slot, which this log entry made.
    pub fn note(&mut self, slot: u64, entry: usize, bytes: Vec<u8>) {
        self.next = slot.saturating_add(1);
        let _has_room = self.flying.push(Flying {
            slot,
            entry,
            age: 0,
            patience: 2,
            bytes,
        });
    }
}
