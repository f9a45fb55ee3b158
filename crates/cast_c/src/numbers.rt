//! What crosses the C interface as numbers, and what the numbers mean.
ghost use Rattle.std.specs.Prelude.{◌≡◌, true, None, Some, IfOk, IfErr, OnErr, IsSomeAnd};
ghost use Rattle.cast_message.specs.declared.message.Item.TheVariants.{Data};
ghost use Rattle.cast_c.specs.Numbers.{orders_bytes, IsOf, event_in, first_fault, item_in, says, status_of};

use crate::status::{BAD, DONE};
use bytes::Bytes;
use cast_judge::Verdict;
use cast_message::{Config, ConfigFault, Event, Item, Mode, NodeId, Payload, Settings};
use std::alloc::{AllocError, Global};

/// A configuration. Mode 0 is basic, 1 is uniform.
#[repr(C)]
#[derive(Clone, Copy)]
pub struct ConfigNumbers {
    pub nodes: u64,
    pub faults: u64,
    pub choices: u64,
    pub item_limit: u64,
    pub log_limit: u64,
    pub box_size: u64,
    pub first_stamp: u64,
    pub mode: u64,
}

/// An event without the bytes of its item. Kind 0 is an order, 1 a send, 2 an acknowledgement, 3 an arrival, 4 a crash.
/// `node` takes the step; for an arrival, it made the frame. `to` is the target of a frame that is made. `number` is a
/// slot, the number of a frame, or an instance. Item 0 of an order is bytes, 1 a proposal of `value`, 2 a close.
#[repr(C)]
#[derive(Clone, Copy)]
pub struct EventNumbers {
    pub kind: u8,
    pub node: u8,
    pub to: u8,
    pub item: u8,
    pub number: u64,
    pub value: u64,
}

/// A verdict: the first line that offends, counted from 1, and the least rule that it breaks. Both are 0 for a good
/// record.
#[repr(C)]
#[derive(Clone, Copy)]
pub struct VerdictNumbers {
    pub line: u64,
    pub rule: u64,
}

/// The reply to an event, or to a round. `code` is 0, or the number of its refusal. `number` is that of an item or a
/// frame that was made, the node at which a frame arrived, or how many frames a round made. The event delivered
/// `deliveries` items of `sender`, in the order of their numbers, from `first`, and took `decisions` decisions.
#[repr(C)]
#[derive(Clone, Copy)]
pub struct ReplyNumbers {
    pub code: u64,
    pub number: u64,
    pub sender: u64,
    pub first: u64,
    pub deliveries: u64,
    pub decisions: u64,
}

/// An item without its bytes. Kind 0 is `length` bytes, 1 a proposal of `value` in `instance`, 2 a close.
#[repr(C)]
#[derive(Clone, Copy)]
pub struct ItemNumbers {
    pub kind: u64,
    pub length: u64,
    pub instance: u64,
    pub value: u64,
}

/// What a frame carries. Kind 0 is the message `number` of `sender` in a slot, 1 the acknowledgement of a slot. `to` is
/// the frame's target.
#[repr(C)]
#[derive(Clone, Copy)]
pub struct FrameNumbers {
    pub kind: u64,
    pub to: u64,
    pub slot: u64,
    pub sender: u64,
    pub number: u64,
}

/// How long a text is, or why there is none. Cause 1: the script has more than 67,108,864 bytes. Cause 2: it is no
/// JSON. Cause 3: the element `place` is malformed, counted from 1, or 0 for the whole. Cause 4: the configuration is
/// refused with the code `place`.
#[repr(C)]
#[derive(Clone, Copy)]
pub struct TextNumbers {
    pub length: u64,
    pub fault: u64,
    pub place: u64,
}

impl ConfigNumbers {
    /// The configuration with these numbers, or why there is none.
    pub(crate) fn check(&self) -> Result<Config, ConfigFault>
        ensures ok { IfOk result (IsOf self.now) }
        ensures fit { IfOk result (λ _. first_fault self.now ≡ None) }
        ensures fault { IfErr result (λ fault. first_fault self.now ≡ Some fault) }
    {
        let mode = match self.mode {
            0 => Mode::Basic,
            1 => Mode::Uniform,
            _ => return Err(ConfigFault::Mode),
        };
        let settings = Settings {
            nodes: self.nodes,
            faults: self.faults,
            choices: self.choices,
            item_limit: self.item_limit,
            log_limit: self.log_limit,
            box_size: self.box_size,
            first_stamp: self.first_stamp,
            mode,
        };
        settings.check()
    }
}

impl EventNumbers {
    /// The event with these numbers and these item bytes, or nothing if a kind is unknown. The bytes are copied.
    pub(crate) fn event(&self, alloc: Global, bytes: &[u8]) -> Result<Option<Event>, AllocError>
        ensures ok { IfOk result (λ event. event ≡ event_in self.now bytes.now) }
        ensures err { OnErr result (IsSomeAnd (event_in self.now bytes.now) (λ event. orders_bytes event ≡ true)) }
    {
        let node = NodeId(self.node);
        let to = NodeId(self.to);
        let event = match self.kind {
            0 => {
                let Some(item) = self.item(alloc, bytes)? else {
                    return Ok(None);
                };
                Event::Order { node, item }
            }
            1 => Event::Send {
                from: node,
                to,
                slot: self.number,
            },
            2 => Event::Ack {
                from: node,
                to,
                slot: self.number,
            },
            3 => Event::Arrive {
                from: node,
                seq: self.number,
            },
            4 => Event::Crash { node },
            _ => return Ok(None),
        };
        Ok(Some(event))
    }

    /// The item with these numbers and bytes, or nothing if its kind is unknown. The bytes are copied.
    pub(crate) fn item(&self, alloc: Global, bytes: &[u8]) -> Result<Option<Item>, AllocError>
        ensures ok { IfOk result (λ item. item ≡ item_in self.now bytes.now) }
        ensures err { OnErr result (item_in self.now bytes.now ≡ Some (Data bytes.now)) }
    {
        let item = match self.item {
            0 => Item::Data(Payload::new(Bytes::copy_from_slice(alloc, bytes)?)),
            1 => Item::Propose {
                instance: self.number,
                value: self.value,
            },
            2 => Item::Close,
            _ => return Ok(None),
        };
        Ok(Some(item))
    }
}

impl VerdictNumbers {
    pub(crate) fn of(said: Verdict) -> VerdictNumbers
        ensures { result ≡ says said }
    {
        match said {
            Verdict::Good => VerdictNumbers { line: 0, rule: 0 },
            Verdict::Bad { line, rule } => VerdictNumbers { line, rule },
        }
    }
}

pub(crate) fn status_of(said: Verdict) -> u32
    ensures { result ≡ status_of said }
{
    match said {
        Verdict::Good => DONE,
        Verdict::Bad { .. } => BAD,
    }
}
