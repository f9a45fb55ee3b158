//! The marks of a picture, as data. `specs/Drawn` says which marks an event adds, and `marks.rt` has how each is written.
use crate::frames::MadeFrame;
use cast_message::{Decision, Item, Message, NodeId, StepFault};

/// A mark of an event.
#[derive(Drop)]
pub struct Mark {
    /// The number of its column, from 0.
    pub column: u64,
    /// The place of its event in the script.
    pub event: u64,
    pub shown: Shown,
}

/// What a mark shows.
#[derive(Drop)]
pub enum Shown {
    /// A node broadcasts the item that has this number in its stream.
    Broadcast {
        node: NodeId,
        number: u64,
        item: Item,
    },
    /// A frame arrives at the node.
    Arrival {
        frame: MadeFrame,
        node: NodeId,
    },
    /// A node delivers or decides.
    Done {
        node: NodeId,
        deed: Deed,
    },
    /// A node crashes.
    Crash {
        node: NodeId,
    },
    /// The event is refused.
    Refusal {
        fault: StepFault,
    },
}

/// What a node does in a step.
#[derive(Drop)]
pub enum Deed {
    Delivers(Message),
    Decides(Decision),
}

/// The ground behind a settle.
#[derive(Clone, Copy)]
pub struct Ground {
    /// Its first column.
    pub from: u64,
    /// The column after its last.
    pub to: u64,
    /// The place of the settle in the script.
    pub event: u64,
}
