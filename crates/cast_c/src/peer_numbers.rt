//! What a peer hands out, as numbers.
ghost use Rattle.std.specs.Prelude.{◌≡◌};
ghost use Rattle.cast_c.specs.Peers.{numbers_of_decision, numbers_of_message, numbers_of_next, only_kind, ordered_as, status_of_fault};

use crate::numbers::ItemNumbers;
use crate::status::{OUT_OF_MEMORY, REFUSED};
use cast_message::{Decision, Message, StepFault};
use cast_peer::{NextPacket, PeerFault, WireFault};

/// What a peer sends next. Kind 0 is a packet of `length` bytes for node `to`, which the line `place` of the log
/// records. Kind 1: a packet was made and logged, and waits; ask again. Kind 2: packets wait until more of the log is
/// saved. Kind 3: there is nothing to send now.
#[repr(C)]
#[derive(Clone, Copy)]
pub struct PacketNumbers {
    pub kind: u64,
    pub to: u64,
    pub place: u64,
    pub length: u64,
}

/// News of a peer, without the bytes of an item. Kind 0 is none. Kind 1: an item that was ordered here has this number
/// in the stream of the peer's node. Kind 2: the node delivered the item with this number of `sender`. Item 0 is
/// `length` bytes, 1 a proposal of `value` in `instance`, 2 a close. Kind 3: the node decided `value` in `instance`.
#[repr(C)]
#[derive(Clone, Copy)]
pub struct NewsNumbers {
    pub kind: u64,
    pub sender: u64,
    pub number: u64,
    pub item: u64,
    pub length: u64,
    pub instance: u64,
    pub value: u64,
}

/// What to send next, if the packet has `length` bytes.
pub(crate) fn numbers_of_next(next: NextPacket, length: u64) -> PacketNumbers
    ensures { result ≡ numbers_of_next next length }
{
    let (kind, to, place, length) = match next {
        NextPacket::Packet { to, entry } => {
            (0, u64::from(to.0), (entry as u64).saturating_add(1), length)
        }
        NextPacket::Logged => (1, 0, 0, 0),
        NextPacket::Save => (2, 0, 0, 0),
        NextPacket::Nothing => (3, 0, 0, 0),
    };
    PacketNumbers {
        kind,
        to,
        place,
        length,
    }
}

/// No news.
pub(crate) fn no_news() -> NewsNumbers
    ensures { result ≡ only_kind 0 }
{
    only_kind(0)
}

/// The number of an item that was ordered.
pub(crate) fn ordered_as(number: u64) -> NewsNumbers
    ensures { result ≡ ordered_as number }
{
    let mut news = only_kind(1);
    news.number = number;
    news
}

/// A message that was delivered, if these are the numbers of its item.
pub(crate) fn numbers_of_message(message: &Message, item: ItemNumbers) -> NewsNumbers
    ensures { result ≡ numbers_of_message message.now item }
{
    NewsNumbers {
        kind: 2,
        sender: u64::from(message.sender.0),
        number: message.number,
        item: item.kind,
        length: item.length,
        instance: item.instance,
        value: item.value,
    }
}

/// A decision.
pub(crate) fn numbers_of_decision(decision: Decision) -> NewsNumbers
    ensures { result ≡ numbers_of_decision decision }
{
    let mut news = only_kind(3);
    news.instance = decision.instance;
    news.value = decision.value;
    news
}

fn only_kind(kind: u64) -> NewsNumbers
    ensures { result ≡ only_kind kind }
{
    NewsNumbers {
        kind,
        sender: 0,
        number: 0,
        item: 0,
        length: 0,
        instance: 0,
        value: 0,
    }
}

/// Whether memory ran out, or the peer refused.
pub(crate) fn status_of_fault(fault: PeerFault) -> u32
    ensures { result ≡ status_of_fault fault }
{
    match fault {
        PeerFault::Wire(WireFault::Memory) | PeerFault::Refused(StepFault::Memory) => OUT_OF_MEMORY,
        _ => REFUSED,
    }
}
