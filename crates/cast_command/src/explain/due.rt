//! What was due where a record's line broadcasts or delivers an item out of turn, or delivers one that was not
//! broadcast.
use crate::explain::excerpt::cut;
use cast_message::NodeId;
use cast_record::{WordLine, read_words};
use std::alloc::{AllocError, Global};

/// What the lines above a line say about the node's deliveries from a sender and that sender's broadcasts.
#[derive(Clone, Copy)]
struct Above<'a> {
    node: u8,
    sender: u8,
    /// The number of the item in question.
    wanted: u64,
    broadcasts: u64,
    deliveries: u64,
    /// The word of that item, if the sender broadcast it.
    item: Option<&'a [u8]>,
}

/// What was due instead of the line with this number, counted from 1, if it is a broadcast or a delivery.
pub fn due_words(alloc: Global, text: &[u8], line: u64) -> Result<Option<String>, AllocError> {
    let Some(bytes) = text.split(|byte| *byte == b'\n').nth(places_before(line)) else {
        return Ok(None);
    };
    match read_words(bytes) {
        Some(found) => words_of(alloc, text, line, &found),
        None => Ok(None),
    }
}

fn words_of(
    alloc: Global,
    text: &[u8],
    line: u64,
    found: &WordLine<'_>,
) -> Result<Option<String>, AllocError> {
    match found {
        WordLine::Broadcast { sender, number, .. } => {
            let above = look_above(text, line, Above::nothing(*sender, *sender, *number));
            Ok(Some(turn_words(alloc, above.broadcasts, above.sender)?))
        }
        WordLine::Delivered {
            node,
            sender,
            number,
            ..
        } => {
            let above = look_above(text, line, Above::nothing(*node, *sender, *number));
            Ok(Some(delivery_words(alloc, above)?))
        }
        _ => Ok(None),
    }
}

fn places_before(line: u64) -> usize {
    line.saturating_sub(1) as usize
}

fn look_above<'a>(text: &'a [u8], line: u64, mut above: Above<'a>) -> Above<'a> {
    for bytes in text.split(|byte| *byte == b'\n').take(places_before(line)) {
        if let Some(found) = read_words(bytes) {
            above.take(bytes, &found);
        }
    }
    above
}

impl<'a> Above<'a> {
    fn nothing(node: NodeId, sender: NodeId, wanted: u64) -> Above<'a> {
        let (NodeId(node), NodeId(sender)) = (node, sender);
        Above {
            node,
            sender,
            wanted,
            broadcasts: 0,
            deliveries: 0,
            item: None,
        }
    }

    fn take(&mut self, bytes: &'a [u8], found: &WordLine<'_>) {
        match found {
            WordLine::Broadcast { sender, number, .. } => {
                self.take_broadcast(bytes, *sender, *number);
            }
            WordLine::Delivered { node, sender, .. } => self.take_delivery(*node, *sender),
            _ => {}
        }
    }

    fn take_broadcast(&mut self, bytes: &'a [u8], sender: NodeId, number: u64) {
        let NodeId(sender) = sender;
        if sender == self.sender {
            self.broadcasts = self.broadcasts.saturating_add(1);
            if number == self.wanted {
                self.item = bytes.split(|byte| *byte == b' ').last();
            }
        }
    }

    fn take_delivery(&mut self, node: NodeId, sender: NodeId) {
        let (NodeId(node), NodeId(sender)) = (node, sender);
        if node == self.node && sender == self.sender {
            self.deliveries = self.deliveries.saturating_add(1);
        }
    }
}

fn turn_words(alloc: Global, due: u64, sender: u8) -> Result<String, AllocError> {
    format!(in alloc; "item {due} of node {sender} was due")
}

fn delivery_words(alloc: Global, above: Above<'_>) -> Result<String, AllocError> {
    let Above { sender, wanted, .. } = above;
    if wanted != above.deliveries {
        return turn_words(alloc, above.deliveries, sender);
    }
    match above.item {
        Some(word) => {
            let shown = cut(alloc, word)?;
            format!(in alloc; "item {wanted} of node {sender} is {shown}")
        }
        None => format!(in alloc; "node {sender} has not broadcast its item {wanted}"),
    }
}
