//! Replies and items as numbers.
ghost use Rattle.std.specs.Prelude.{◌≡◌};
ghost use Rattle.cast_c.specs.Steps.{Puts, PutsItem, numbers_of_item, numbers_of_outcome, numbers_of_reply, only_number};

use crate::numbers::{ItemNumbers, ReplyNumbers};
use crate::status::{DONE, TOO_SHORT};
use cast_message::{Answer, Item, Outcome, Reply};

pub(crate) fn numbers_of(reply: &Reply) -> ReplyNumbers
    ensures { result ≡ numbers_of_reply reply.now }
{
    match reply {
        Ok(Answer::Ordered { number, outcome }) => numbers_of_outcome(*number, outcome),
        Ok(Answer::Sent { seq }) => only_number(0, *seq),
        Ok(Answer::Arrived { node, outcome }) => numbers_of_outcome(u64::from(node.0), outcome),
        Ok(Answer::Down) => only_number(0, 0),
        Err(fault) => only_number(fault.code(), 0),
    }
}

/// A reply that delivers nothing.
pub(crate) fn only_number(code: u64, number: u64) -> ReplyNumbers
    ensures { result ≡ only_number code number }
{
    ReplyNumbers {
        code,
        number,
        sender: 0,
        first: 0,
        deliveries: 0,
        decisions: 0,
    }
}

fn numbers_of_outcome(number: u64, outcome: &Outcome) -> ReplyNumbers
    ensures { result ≡ numbers_of_outcome number outcome.now }
{
    let deliveries = outcome.deliveries.as_slice();
    let decisions = outcome.decisions.as_slice().len() as u64;
    let (sender, first) = match deliveries.first() {
        Some(message) => (u64::from(message.sender.0), message.number),
        None => (0, 0),
    };
    ReplyNumbers {
        code: 0,
        number,
        sender,
        first,
        deliveries: deliveries.len() as u64,
        decisions,
    }
}

/// Writes an item: its numbers, and its bytes if the buffer has room.
pub(crate) fn put_item(item: &Item, told: &mut ItemNumbers, bytes: &mut [u8]) -> u32
    ensures numbers { told.new ≡ numbers_of_item item.now }
    ensures puts { PutsItem item.now result bytes.old bytes.new }
{
    *told = numbers_of_item(item);
    match item {
        Item::Data(payload) => put_bytes(payload.as_slice(), bytes),
        Item::Propose { .. } | Item::Close => put_bytes(&[], bytes),
    }
}

fn numbers_of_item(item: &Item) -> ItemNumbers
    ensures { result ≡ numbers_of_item item.now }
{
    let (kind, length, instance, value) = match item {
        Item::Data(payload) => (0, payload.as_slice().len() as u64, 0, 0),
        Item::Propose { instance, value } => (1, 0, *instance, *value),
        Item::Close => (2, 0, 0, 0),
    };
    ItemNumbers {
        kind,
        length,
        instance,
        value,
    }
}

/// Writes bytes to the front of a buffer, if it has room.
pub(crate) fn put_bytes(from: &[u8], to: &mut [u8]) -> u32
    ensures { Puts from.now result to.old to.new }
{
    if from.len() > to.len() {
        return TOO_SHORT;
    }
    to[..from.len()].copy_from_slice(from);
    DONE
}
