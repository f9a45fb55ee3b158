//! Writes the text of a log, line by line. `docs/FORMATS.md` has the format.
ghost use Rattle.std.specs.Prelude.{◌<◌, length};

use cast_log::{EntryKind, KindRef, OpenLog};
use cast_message::{Config, Event, Item, NodeId, Outcome};
use cast_record::{hex_digit, mode_name};
use itoa::Buffer;
use std::alloc::AllocError;

/// Appends the first line of a node's log. When out of memory, it appends nothing.
pub fn append_head(
    out: &mut Vec<u8>,
    config: &Config,
    group: u64,
    me: NodeId,
) -> Result<(), AllocError> {
    let length = out.len();
    let appended = put_head(out, config, group, me);
    if appended.is_err() {
        out.truncate(length);
    }
    appended
}

/// Appends the line of an entry, with its outcome. When out of memory, it appends nothing.
pub fn append_entry(out: &mut Vec<u8>, log: &OpenLog, place: usize) -> Result<(), AllocError>
    requires { place < length log.now.entries }
{
    let length = out.len();
    let appended = put_entry(out, log, place);
    if appended.is_err() {
        out.truncate(length);
    }
    appended
}

/// Appends the last line of the log of a node that did not crash. When out of memory, it appends nothing.
pub fn append_end(out: &mut Vec<u8>) -> Result<(), AllocError> {
    out.extend_from_slice(b"end\n")
}

fn put_head(out: &mut Vec<u8>, config: &Config, group: u64, me: NodeId) -> Result<(), AllocError> {
    out.extend_from_slice(b"cast-log/1")?;
    put_numbers(out, &[config.nodes(), config.faults(), config.choices()])?;
    out.extend_from_slice(b" ")?;
    out.extend_from_slice(mode_name(config.mode()))?;
    put_numbers(out, &[config.item_limit(), group, u64::from(me.0)])?;
    out.extend_from_slice(b"\n")
}

fn put_entry(out: &mut Vec<u8>, log: &OpenLog, place: usize) -> Result<(), AllocError>
    requires { place < length log.now.entries }
{
    out.extend_from_slice(Buffer::new().format(stamp_at(log, place)).as_bytes())?;
    put_kind(out, log, place)?;
    out.extend_from_slice(b"\n")
}

fn stamp_at(log: &OpenLog, place: usize) -> u64
    requires { place < length log.now.entries }
{
    let entry = log.entry(place);
    entry.stamp
}

fn put_kind(out: &mut Vec<u8>, log: &OpenLog, place: usize) -> Result<(), AllocError>
    requires { place < length log.now.entries }
{
    let entry = log.entry(place);
    if let KindRef::Whole(kind) = entry.kind {
        return put_whole(out, kind);
    }
    match entry.kind.copy_event()? {
        Some(event) => put_event(out, &event),
        None => Ok(()),
    }
}

fn put_whole(out: &mut Vec<u8>, kind: &EntryKind) -> Result<(), AllocError> {
    match kind {
        EntryKind::Step { event, outcome, .. } => {
            put_event(out, event)?;
            put_outcome(out, outcome)
        }
        EntryKind::Refused { fault, .. } => {
            out.extend_from_slice(b" refused")?;
            put_numbers(out, &[fault.code()])
        }
    }
}

fn put_event(out: &mut Vec<u8>, event: &Event) -> Result<(), AllocError> {
    match event {
        Event::Order { item, .. } => {
            out.extend_from_slice(b" order")?;
            put_item(out, item)
        }
        Event::Send { to, slot, .. } => put_pair(out, b" send", *to, *slot),
        Event::Ack { to, slot, .. } => put_pair(out, b" ack", *to, *slot),
        Event::Arrive { from, seq } => put_pair(out, b" arrive", *from, *seq),
        Event::Crash { .. } => out.extend_from_slice(b" crash"),
    }
}

fn put_outcome(out: &mut Vec<u8>, outcome: &Outcome) -> Result<(), AllocError> {
    for message in outcome.deliveries.as_slice() {
        put_pair(out, b" d", message.sender, message.number)?;
        put_item(out, &message.item)?;
    }
    for decision in outcome.decisions.as_slice() {
        out.extend_from_slice(b" v")?;
        put_numbers(out, &[decision.instance, decision.value])?;
    }
    Ok(())
}

// Appends a name, a node and a number.
fn put_pair(out: &mut Vec<u8>, name: &[u8], node: NodeId, number: u64) -> Result<(), AllocError> {
    out.extend_from_slice(name)?;
    put_numbers(out, &[u64::from(node.0), number])
}

// Appends the word of an item, after a blank.
fn put_item(out: &mut Vec<u8>, item: &Item) -> Result<(), AllocError> {
    match item {
        Item::Data(payload) => {
            out.extend_from_slice(b" data:")?;
            put_hex(out, payload.as_slice())
        }
        Item::Propose { instance, value } => {
            out.extend_from_slice(b" prop:")?;
            out.extend_from_slice(Buffer::new().format(*instance).as_bytes())?;
            out.extend_from_slice(b":")?;
            out.extend_from_slice(Buffer::new().format(*value).as_bytes())
        }
        Item::Close => out.extend_from_slice(b" close"),
    }
}

fn put_hex(out: &mut Vec<u8>, bytes: &[u8]) -> Result<(), AllocError> {
    for byte in bytes {
        out.extend_from_slice(&[hex_digit(*byte / 16), hex_digit(*byte % 16)])?;
    }
    Ok(())
}

// Appends numbers, each after a blank.
fn put_numbers(out: &mut Vec<u8>, numbers: &[u64]) -> Result<(), AllocError> {
    for number in numbers {
        out.extend_from_slice(b" ")?;
        out.extend_from_slice(Buffer::new().format(*number).as_bytes())?;
    }
    Ok(())
}
