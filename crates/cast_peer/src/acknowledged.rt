//! The last acknowledgements sent to a peer. No contract speaks of them. To send one again is no step: it is the same
//! packet.
use std::alloc::{AllocError, Global};
use std::collections::VecDeque;

// The most that are kept for a peer.
const KEPT: usize = 128;

#[derive(Drop)]
struct Acknowledgement {
    slot: u64,
    entry: usize,
    due: bool,
    bytes: Vec<u8>,
}

#[derive(Drop)]
pub struct Acknowledged {
    kept: VecDeque<Acknowledgement>,
}

impl Acknowledged {
    /// No acknowledgement.
    pub fn new(alloc: Global) -> Acknowledged {
        Acknowledged {
            kept: VecDeque::new(alloc),
        }
    }

    /// Marks the acknowledgement of a slot to be sent again, if it is kept. Returns whether it is.
    pub fn ask_again(&mut self, slot: u64) -> bool {
        for acknowledgement in self.kept.iter_mut() {
            if acknowledgement.slot == slot {
                acknowledgement.due = true;
                return true;
            }
        }
        false
    }

    /// Keeps an acknowledgement, unless memory runs out. If `KEPT` are kept, the oldest goes.
    pub fn keep(&mut self, slot: u64, entry: usize, bytes: Vec<u8>) {
        if self.kept.len() >= KEPT {
            self.kept.pop_front();
        }
        if self.kept.reserve(1).is_ok() {
            self.kept.push_back_reserved(Acknowledgement {
                slot,
                entry,
                due: false,
                bytes,
            });
        }
    }

    /// Appends one that should be sent again, if there is one, and returns the log entry that made it.
    pub fn send_again(&mut self, out: &mut Vec<u8>) -> Result<Option<usize>, AllocError> {
        for acknowledgement in self.kept.iter_mut() {
            if acknowledgement.due {
                out.extend_from_slice(acknowledgement.bytes.as_slice())?;
                acknowledgement.due = false;
                return Ok(Some(acknowledgement.entry));
            }
        }
        Ok(None)
    }
}
