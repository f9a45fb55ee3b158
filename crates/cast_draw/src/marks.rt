//! How each mark is written: a small function appends its text. No contract speaks of that text.
ghost use Rattle.std.specs.Prelude.{◌<◌, ◌≤◌, ◌^◌};

use crate::cell::{Cell, Spot};
use crate::frames::{Cargo, MadeFrame};
use crate::ink::Ink;
use crate::ink::Piece::{Label, Number, Place, Text, Value, Word};
use crate::links::Pair;
use crate::side::Side;
use cast_message::{Decision, Item, Message, NodeId};
use std::alloc::AllocError;

/// How many colours there are. Sender 8 has the colour of sender 0.
const COLOURS: u8 = 8;

/// A dot on the sender's line, with the item above it.
pub fn put_broadcast(
    ink: &mut Ink,
    spot: Spot,
    index: u64,
    node: NodeId,
    number: u64,
    item: &Item,
) -> Result<(), AllocError> {
    let pair = Pair {
        sender: node,
        number,
    };
    put_title(ink, index, node, b" broadcasts ", pair, item)?;
    ink.put(&[
        Text(b"<circle class='f"),
        Number((node.0 % COLOURS) as u64),
        Text(b"' cx='"),
        Number(spot.x),
        Text(b"' cy='"),
        Number(spot.y),
        Text(b"' r='5'/><text class='l' x='"),
        Number(spot.x - 5),
        Text(b"' y='"),
        Number(spot.y - 11),
        Text(b"'>"),
        Label(item),
        Text(b"</text></g>\n"),
    ])
}

/// A box below the node's line, in the sender's colour.
pub fn put_delivery(
    ink: &mut Ink,
    cell: Cell,
    index: u64,
    node: NodeId,
    message: &Message,
) -> Result<(), AllocError> {
    let pair = Pair {
        sender: message.sender,
        number: message.number,
    };
    put_title(ink, index, node, b" delivers ", pair, &message.item)?;
    put_numbered_box(ink, cell, message)
}

// The title of a mark of a message: the node, what it does with it, and the event.
fn put_title<'a>(
    ink: &mut Ink,
    index: u64,
    node: NodeId,
    deed: &'a [u8],
    pair: Pair,
    item: &'a Item,
) -> Result<(), AllocError> {
    ink.put(&[
        Text(b"<g><title>node "),
        Number(node.0 as u64),
        Text(deed),
        Number(pair.sender.0 as u64),
        Text(b"."),
        Number(pair.number),
        Text(b" ("),
        Word(item),
        Text(b"), event "),
        Number(index),
        Text(b"</title>"),
    ])
}

// The box of a delivery, with the message's numbers.
fn put_numbered_box(ink: &mut Ink, cell: Cell, message: &Message) -> Result<(), AllocError> {
    let sender = message.sender.0 as u64;
    let colour = (message.sender.0 % COLOURS) as u64;
    let top = cell.line + 9 + 15 * cell.row;
    ink.put(&[
        Text(b"<rect class='b f"),
        Number(colour),
        Text(b"' x='"),
        Number(cell.x + 2),
        Text(b"' y='"),
        Number(top),
        Text(b"' width='44' height='13' rx='3'/><text class='d t"),
        Number(colour),
        Text(b"' x='"),
        Number(cell.x + 24),
        Text(b"' y='"),
        Number(top + 10),
        Text(b"'>"),
        Number(sender),
        Text(b"."),
        Number(message.number),
        Text(b"</text></g>\n"),
    ])
}

/// A diamond in the place after a delivery, with the decided value.
pub fn put_decision(
    ink: &mut Ink,
    cell: Cell,
    index: u64,
    node: NodeId,
    decision: Decision,
) -> Result<(), AllocError> {
    let top = cell.line + 9 + 15 * cell.row;
    ink.put(&[
        Text(b"<g><title>node "),
        Number(node.0 as u64),
        Text(b" decides "),
        Number(decision.value),
        Text(b" in instance "),
        Number(decision.instance),
        Text(b", event "),
        Number(index),
        Text(b"</title><path class='v' d='M"),
        Place(cell.x + 9, top),
        Text(b"l6.5 6.5l-6.5 6.5l-6.5 -6.5z'/><text class='w' x='"),
        Number(cell.x + 19),
        Text(b"' y='"),
        Number(top + 10),
        Text(b"'>"),
        Value(decision.value),
        Text(b"</text></g>\n"),
    ])
}

/// A cross at the end of a node's line.
pub fn put_crash(ink: &mut Ink, spot: Spot, index: u64, node: NodeId) -> Result<(), AllocError> {
    ink.put(&[
        Text(b"<g><title>node "),
        Number(node.0 as u64),
        Text(b" crashes, event "),
        Number(index),
        Text(b"</title><path class='x' d='M"),
        Place(spot.x - 7, spot.y - 7),
        Text(b"l14 14m0 -14l-14 14'/></g>\n"),
    ])
}

/// A pale mark of a refused event, with the code.
pub fn put_refusal(ink: &mut Ink, spot: Spot, index: u64, code: u64) -> Result<(), AllocError> {
    ink.put(&[
        Text(b"<g><title>event "),
        Number(index),
        Text(b" is refused with code "),
        Number(code),
        Text(b"</title><path class='r' d='M"),
        Place(spot.x - 3, spot.y - 3),
        Text(b"l6 6m0 -6l-6 6'/><text class='q' x='"),
        Number(spot.x),
        Text(b"' y='"),
        Number(spot.y + 16),
        Text(b"'>"),
        Number(code),
        Text(b"</text></g>\n"),
    ])
}

// The first words on a frame: its number, its ends, what it carries, and the event that made it.
fn put_frame_words(ink: &mut Ink, frame: &MadeFrame) -> Result<(), AllocError> {
    ink.put(&[
        Text(b"<title>frame "),
        Number(frame.seq),
        Text(b" of node "),
        Number(frame.from.0 as u64),
        Text(b" to node "),
        Number(frame.to.0 as u64),
    ])?;
    put_cargo(ink, frame.cargo, frame.slot)?;
    ink.put(&[Text(b", made by event "), Number(frame.index)])
}

fn put_cargo(ink: &mut Ink, cargo: Cargo, slot: u64) -> Result<(), AllocError> {
    match cargo {
        Cargo::Message(pair) => ink.put(&[
            Text(b": slot "),
            Number(slot),
            Text(b", message "),
            Number(pair.sender.0 as u64),
            Text(b"."),
            Number(pair.number),
        ]),
        Cargo::Ack => ink.put(&[Text(b": acknowledges slot "), Number(slot)]),
    }
}

// The class of a frame's drawing: the colour of its message's sender, or that of acknowledgements.
fn put_class(ink: &mut Ink, frame: &MadeFrame) -> Result<(), AllocError> {
    match frame.cargo {
        Cargo::Message(pair) => ink.put(&[Text(b" s"), Number((pair.sender.0 % COLOURS) as u64)]),
        Cargo::Ack => ink.put(&[Text(b" k")]),
    }
}

/// An arrow from where a frame was made to where it arrives.
pub fn put_arrow(
    ink: &mut Ink,
    frame: &MadeFrame,
    start: Spot,
    end: Spot,
    index: u64,
) -> Result<(), AllocError> {
    ink.put_bytes(b"<path class='a")?;
    put_class(ink, frame)?;
    ink.put(&[
        Text(b"' d='M"),
        Place(start.x, start.y),
        Text(b"L"),
        Place(end.x, end.y),
        Text(b"'>"),
    ])?;
    put_frame_words(ink, frame)?;
    ink.put(&[
        Text(b", arrives by event "),
        Number(index),
        Text(b"</title></path>\n"),
    ])
}

/// A short dashed line that ends in a cross: a frame that never arrives.
pub fn put_lost(
    ink: &mut Ink,
    frame: &MadeFrame,
    start: Spot,
    side: Side,
) -> Result<(), AllocError> {
    put_stub_start(ink, frame, start, b"o", side)?;
    put_frame_words(ink, frame)?;
    ink.put_bytes(b", never arrives</title></path><path class='e")?;
    put_class(ink, frame)?;
    ink.put(&[
        Text(b"' d='M"),
        Place(start.x + 7, cross_top(side, start.y)),
        Text(b"l8 8m0 -8l-8 8'/>\n"),
    ])
}

/// A short line: a frame whose arrival is not shown.
pub fn put_leaving(
    ink: &mut Ink,
    frame: &MadeFrame,
    start: Spot,
    side: Side,
) -> Result<(), AllocError> {
    put_stub_start(ink, frame, start, b"u", side)?;
    put_frame_words(ink, frame)?;
    ink.put_bytes(b", arrives by an event that is not shown</title></path>\n")
}

// The line of a stub.
fn put_stub_start(
    ink: &mut Ink,
    frame: &MadeFrame,
    start: Spot,
    class: &[u8],
    side: Side,
) -> Result<(), AllocError> {
    ink.put_bytes(b"<path class='")?;
    ink.put_bytes(class)?;
    put_class(ink, frame)?;
    ink.put(&[Text(b"' d='M"), Place(start.x, start.y)])?;
    ink.put_bytes(path_of(side))
}

// Where the line of a stub goes.
fn path_of(side: Side) -> &'static [u8] {
    match side {
        Side::Up => b"l11 -34'>",
        Side::Down => b"l11 34'>",
    }
}

// The upper edge of the cross at its end.
fn cross_top(side: Side, line: u64) -> u64
    requires upper { 38 ≤ line }
    requires lower { line < 2 ^ 17 }
{
    match side {
        Side::Up => line - 38,
        Side::Down => line + 30,
    }
}

/// A pale ground behind the columns of a settle, with the word.
pub fn put_ground(
    ink: &mut Ink,
    from: u64,
    width: u64,
    height: u64,
    index: u64,
) -> Result<(), AllocError> {
    ink.put(&[
        Text(b"<g><title>settle, event "),
        Number(index),
        Text(b"</title><rect class='g' x='"),
        Number(from),
        Text(b"' y='32' width='"),
        Number(width),
        Text(b"' height='"),
        Number(height),
        Text(b"'/><text class='h' x='"),
        Number(from),
        Text(b"' y='44' dx='4'>settle</text></g>\n"),
    ])
}
