//! The label beside a mark: at most eight letters, whatever the bytes are.

use crate::ink::Ink;
use cast_message::Item;
use cast_record::{is_printing, prefix};
use itoa::Buffer;
use std::alloc::AllocError;

/// The most letters of a label.
const LETTERS: usize = 8;

/// What follows a label that was cut: three dots in one letter.
const CUT: &[u8] = b"\xe2\x80\xa6";

/// Appends the label of an item. Bytes are shown as text if all of them are printable, or else as digits. A proposal is shown
/// by its instance and value, and a close as `close`.
pub fn put_item_label(ink: &mut Ink, item: &Item) -> Result<(), AllocError> {
    match item {
        Item::Data(payload) => put_data(ink, payload.as_slice()),
        Item::Propose { instance, value } => put_proposal(ink, *instance, *value),
        Item::Close => ink.put_bytes(b"close"),
    }
}

/// Appends the label of a decided value.
pub fn put_value_label(ink: &mut Ink, value: u64) -> Result<(), AllocError> {
    let mut buffer = Buffer::new();
    let digits = buffer.format(value).as_bytes();
    put_prefix(ink, digits, LETTERS)?;
    put_dots(ink, digits.len() > LETTERS)
}

// An instance and a value. No digit needs an escape.
fn put_proposal(ink: &mut Ink, instance: u64, value: u64) -> Result<(), AllocError> {
    let mut first = Buffer::new();
    let mut second = Buffer::new();
    let instance = first.format(instance).as_bytes();
    let value = second.format(value).as_bytes();
    put_prefix(ink, instance, LETTERS)?;
    put_prefix(ink, b":", LETTERS.saturating_sub(instance.len()))?;
    put_prefix(ink, value, (LETTERS - 1).saturating_sub(instance.len()))?;
    put_dots(ink, instance.len() + 1 + value.len() > LETTERS)
}

// Appends as many of the first bytes as the label has room for.
fn put_prefix(ink: &mut Ink, bytes: &[u8], room: usize) -> Result<(), AllocError> {
    ink.put_bytes(prefix(bytes, room))
}

// Appends the dots after a label that was cut.
fn put_dots(ink: &mut Ink, is_cut: bool) -> Result<(), AllocError> {
    if is_cut { ink.put_bytes(CUT) } else { Ok(()) }
}

fn put_data(ink: &mut Ink, bytes: &[u8]) -> Result<(), AllocError> {
    if are_printing(bytes) {
        put_text(ink, bytes)
    } else {
        put_digits(ink, bytes)
    }
}

fn put_text(ink: &mut Ink, bytes: &[u8]) -> Result<(), AllocError> {
    put_escaped(ink, prefix(bytes, LETTERS))?;
    put_dots(ink, bytes.len() > LETTERS)
}

// Each byte takes two digits, so the label has half as many bytes as letters.
fn put_digits(ink: &mut Ink, bytes: &[u8]) -> Result<(), AllocError> {
    ink.put_hex(prefix(bytes, LETTERS / 2))?;
    put_dots(ink, bytes.len() > LETTERS / 2)
}

fn are_printing(bytes: &[u8]) -> bool {
    bytes.iter().all(|byte| is_printing(*byte))
}

// Appends the bytes as XML writes them in an element.
fn put_escaped(ink: &mut Ink, bytes: &[u8]) -> Result<(), AllocError> {
    for byte in bytes {
        put_letter(ink, *byte)?;
    }
    Ok(())
}

fn put_letter(ink: &mut Ink, byte: u8) -> Result<(), AllocError> {
    match byte {
        b'&' => ink.put_bytes(b"&amp;"),
        b'<' => ink.put_bytes(b"&lt;"),
        b'>' => ink.put_bytes(b"&gt;"),
        b'"' => ink.put_bytes(b"&quot;"),
        b'\'' => ink.put_bytes(b"&#39;"),
        other => ink.put_bytes(&[other]),
    }
}
