//! What nodes broadcast, and the frames that carry it between them.
ghost use Rattle.std.specs.Prelude.{◌≡◌, true, IfOk, OnErr};
ghost use Rattle.cast_message.specs.Items.{byte_sized, is_close, has_bytes, kind_of, carries_bytes};

use crate::payload::Payload;
use std::alloc::AllocError;
use std::marker::Model;

/// The number of a node. The configuration says which numbers name nodes. Contracts see the number.
#[derive(Clone, Copy, Debug, PartialEq, Eq, PartialOrd, Ord)]
pub struct NodeId(pub u8);

impl Model for NodeId {
    ghost use Rattle.std.specs.Prelude.{ℕ, ◌<◌};

    ghost Value = { ℕ };

    ghost view = { λ node. node.0 };

    ghost inverse = { λ number. record { 0 = number } };
}

impl NodeId {
    /// The node with this number, if it fits into a byte.
    pub fn from_number(number: u64) -> Option<NodeId>
        ensures { result ≡ byte_sized number }
    {
        if number < 256 {
            Some(NodeId(number as u8))
        } else {
            None
        }
    }
}

/// What a node puts into its stream.
#[derive(Debug, Drop, PartialEq)]
pub enum Item {
    /// Bytes for the user of the group, at most 1,024 in an order.
    Data(Payload),
    /// A value that the node proposes in an instance of agreement, at most once in each.
    Propose { instance: u64, value: u64 },
    /// The last item of a stream.
    Close,
}

impl Item {
    /// Whether this is the last item of a stream.
    pub fn is_close(&self) -> bool
        ensures { result ≡ is_close self.now }
    {
        matches!(self, Item::Close)
    }

    /// An equal item, or out of memory, which only bytes cause. The bytes are shared and counted, not copied.
    pub fn copy(&self) -> Result<Item, AllocError>
        ensures ok { IfOk result (λ copy. copy ≡ self.now) }
        ensures err { OnErr result (has_bytes self.now ≡ true) }
    {
        match self {
            Item::Data(payload) => Ok(Item::Data(payload.copy()?)),
            Item::Propose { instance, value } => Ok(Item::Propose {
                instance: *instance,
                value: *value,
            }),
            Item::Close => Ok(Item::Close),
        }
    }
}

/// An item with its sender and its number in the sender's stream, from 0.
#[derive(Debug, Drop, PartialEq)]
pub struct Message {
    pub sender: NodeId,
    pub number: u64,
    pub item: Item,
}

impl Message {
    /// An equal message, or out of memory, which only bytes cause.
    pub fn copy(&self) -> Result<Message, AllocError>
        ensures ok { IfOk result (λ copy. copy ≡ self.now) }
        ensures err { OnErr result (has_bytes self.now.item ≡ true) }
    {
        let item = self.item.copy()?;
        Ok(Message {
            sender: self.sender,
            number: self.number,
            item,
        })
    }
}

/// The value that a node decided in an instance of agreement.
#[derive(Clone, Copy, Debug, PartialEq, Eq)]
pub struct Decision {
    pub instance: u64,
    pub value: u64,
}

/// What a node passes to the network.
#[derive(Debug, Drop, PartialEq)]
pub struct Frame {
    /// The node that made the frame.
    pub from: NodeId,
    /// The node that the frame is for.
    pub to: NodeId,
    /// Its number among the frames of its maker, from 0.
    pub seq: u64,
    pub body: FrameBody,
}

/// What a frame says. A slot is a place in the list of what one node gives another, from 0.
#[derive(Debug, Drop, PartialEq)]
pub enum FrameBody {
    /// The message in this slot of what the maker gives the target.
    Carry { slot: u64, message: Message },
    /// The maker took this slot of what the target gives it.
    Took { slot: u64 },
}

impl FrameBody {
    pub fn kind(&self) -> FrameKind
        ensures { result ≡ kind_of self.now }
    {
        match self {
            FrameBody::Carry { .. } => FrameKind::Carry,
            FrameBody::Took { .. } => FrameKind::Took,
        }
    }
}

/// What kind of body a frame has.
#[derive(Clone, Copy, Debug, PartialEq, Eq)]
pub enum FrameKind {
    Carry,
    Took,
}

impl Frame {
    /// An equal frame, or out of memory, which only bytes cause.
    pub fn copy(&self) -> Result<Frame, AllocError>
        ensures ok { IfOk result (λ copy. copy ≡ self.now) }
        ensures err { OnErr result (carries_bytes self.now.body ≡ true) }
    {
        let body = match &self.body {
            FrameBody::Carry { slot, message } => FrameBody::Carry {
                slot: *slot,
                message: message.copy()?,
            },
            FrameBody::Took { slot } => FrameBody::Took { slot: *slot },
        };
        Ok(Frame {
            from: self.from,
            seq: self.seq,
            to: self.to,
            body,
        })
    }
}
