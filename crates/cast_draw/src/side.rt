//! Where a line goes from a node's line.

use cast_message::NodeId;

/// How a stub leaves its line.
#[derive(Clone, Copy, PartialEq, Eq)]
pub enum Side {
    /// To a node whose line is above.
    Up,
    /// To a node whose line is below.
    Down,
}

impl Side {
    /// The side of a node's line on which another's is.
    pub fn of(from: NodeId, to: NodeId) -> Side {
        if to.0 < from.0 { Side::Up } else { Side::Down }
    }
}
