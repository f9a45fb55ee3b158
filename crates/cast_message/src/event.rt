//! The events of a group, the answers to them, and the refusals.
ghost use Rattle.std.specs.Prelude.{◌≡◌, true, IfOk, OnErr};
ghost use Rattle.cast_message.specs.Items.{orders_bytes};
ghost use Rattle.cast_message.specs.StepCode.{step_code};

use crate::list::List;
use crate::message::{Decision, Item, Message, NodeId};
use std::alloc::AllocError;
use std::error::Error;
use std::fmt;
use std::fmt::{Display, Formatter, Write};

/// One step of one node. A frame is lost if no `Arrive` names it, and repeated if two do.
#[derive(Debug, Drop, PartialEq)]
pub enum Event {
    /// The node adds an item of its own to the end of its stream.
    Order { node: NodeId, item: Item },
    /// `from` makes a frame that carries to `to` the message in this slot of what `from` gives `to`.
    Send { from: NodeId, to: NodeId, slot: u64 },
    /// `from` makes a frame that tells `to`: `from` took this slot of what `to` gave it.
    Ack { from: NodeId, to: NodeId, slot: u64 },
    /// Frame number `seq` of `from` arrives at its target.
    Arrive { from: NodeId, seq: u64 },
    /// The node stops for good.
    Crash { node: NodeId },
}

impl Event {
    /// An equal event, or out of memory, which only the bytes of an item cause.
    pub fn copy(&self) -> Result<Event, AllocError>
        ensures ok { IfOk result (λ copy. copy ≡ self.now) }
        ensures err { OnErr result (orders_bytes self.now ≡ true) }
    {
        match self {
            Event::Order { node, item } => Ok(Event::Order {
                node: *node,
                item: item.copy()?,
            }),
            Event::Send { from, to, slot } => Ok(Event::Send {
                from: *from,
                to: *to,
                slot: *slot,
            }),
            Event::Ack { from, to, slot } => Ok(Event::Ack {
                from: *from,
                to: *to,
                slot: *slot,
            }),
            Event::Arrive { from, seq } => Ok(Event::Arrive {
                from: *from,
                seq: *seq,
            }),
            Event::Crash { node } => Ok(Event::Crash { node: *node }),
        }
    }
}

/// What a step delivers and decides at its node.
#[derive(Drop)]
pub struct Outcome {
    /// The delivered messages, all of one sender, in the order of their numbers.
    pub deliveries: List<Message>,
    /// The decisions, in the order of the deliveries that caused them.
    pub decisions: List<Decision>,
}

/// The answer to an accepted event.
#[derive(Drop)]
pub enum Answer {
    /// The item has this number in its node's stream, from 0.
    Ordered { number: u64, outcome: Outcome },
    /// The new frame has this number among its node's frames, from 0.
    Sent { seq: u64 },
    /// The frame arrived at this node.
    Arrived { node: NodeId, outcome: Outcome },
    /// The node has crashed.
    Down,
}

/// Why a step is refused. `causes` of `cast_model` defines which refusals an event may get, and the order in which they
/// are tried.
#[derive(Clone, Copy, Debug, PartialEq, Eq)]
pub enum StepFault {
    NoNode,
    SelfLink,
    Crashed,
    Closed,
    TooLong,
    AlreadyProposed,
    StreamFull,
    NoSlot,
    Acked,
    NotTaken,
    NoFrame,
    FramesFull,
    Memory,
}

/// The refusals that a record can have, by their codes from 1.
pub const REFUSALS: [StepFault; 12] = [
    StepFault::NoNode,
    StepFault::SelfLink,
    StepFault::Crashed,
    StepFault::Closed,
    StepFault::TooLong,
    StepFault::AlreadyProposed,
    StepFault::StreamFull,
    StepFault::NoSlot,
    StepFault::Acked,
    StepFault::NotTaken,
    StepFault::NoFrame,
    StepFault::FramesFull,
];

impl From<AllocError> for StepFault {
    ghost use Rattle.std.specs.Prelude.{◌≡◌};
    ghost use Rattle.cast_message.specs.declared.event.StepFault.TheVariants.{Memory};

    ghost from_gives = { λ _ fault. fault ≡ Memory };

    fn from(_refused: AllocError) -> StepFault {
        StepFault::Memory
    }
}

impl StepFault {
    /// The number of the refusal, 1 to 13. These numbers never change.
    pub fn code(self) -> u64
        ensures { result ≡ step_code self }
    {
        match self {
            StepFault::NoNode => 1,
            StepFault::SelfLink => 2,
            StepFault::Crashed => 3,
            StepFault::Closed => 4,
            StepFault::TooLong => 5,
            StepFault::AlreadyProposed => 6,
            StepFault::StreamFull => 7,
            StepFault::NoSlot => 8,
            StepFault::Acked => 9,
            StepFault::NotTaken => 10,
            StepFault::NoFrame => 11,
            StepFault::FramesFull => 12,
            StepFault::Memory => 13,
        }
    }

    /// What is refused, as help, pages and errors say it.
    pub fn words(self) -> &'static str {
        match self {
            StepFault::NoNode => "a node that does not exist",
            StepFault::SelfLink => "a link from a node to itself",
            StepFault::Crashed => "a node that has crashed",
            StepFault::Closed => "a stream that is closed",
            StepFault::TooLong => "a payload of more than 1,024 bytes",
            StepFault::AlreadyProposed => "a second proposal in an instance",
            StepFault::StreamFull => "a stream that is full: its last place is kept for the close",
            StepFault::NoSlot => "a slot that was not given",
            StepFault::Acked => "a slot that was acknowledged",
            StepFault::NotTaken => "a slot that was not taken",
            StepFault::NoFrame => "a frame that was not made",
            StepFault::FramesFull => "a node that has made all its frames",
            StepFault::Memory => "out of memory",
        }
    }
}

impl Display for StepFault {
    fn fmt<W: Write>(&self, f: &mut Formatter<W>) -> fmt::Result {
        f.write_str(self.words())
    }
}

impl Error for StepFault {}

/// The answer to an event, or its refusal, which changes nothing.
pub type Reply = Result<Answer, StepFault>;
