//! Writes lines without allocation, each text whole or a prefix of it.
ghost use Rattle.std.specs.Prelude.{◌≡◌, ◌++◌, [], ◌∷◌, false, map};
ghost use Rattle.std.specs.List.{join_with_byte};
ghost use Rattle.cast_record.specs.Written.{Puts};
ghost use Rattle.cast_record.specs.Text.{item_word, line_text, record_text};
ghost use Rattle.cast_record.specs.Words.{word_text};
ghost use Rattle.cast_record.specs.declared.line.Line.TheVariants.{Broadcast, Decided, Delivered};

use crate::line::Line;
use crate::meter::Meter;
use crate::mode::mode_name;
use crate::words::Word::{self, Number};
use crate::written::{Written, write_bytes, write_hex, write_number};
use cast_message::{Decision, Item, Message, NodeId};
use std::io::Write;

/// Writes the lines, each with a line feed. It takes no memory. It is refused as `write_bytes` is.
pub fn write_record<W: Write>(lines: &[Line], writer: &mut Meter<W>) -> Written
    requires { writer.old.failed ≡ false }
    ensures { Puts W.contents writer.old writer.new result (record_text lines.now) }
{
    for line in lines {
        write_line(line, writer)?;
    }
    Ok(())
}

/// Writes the line with its line feed. It takes no memory. It is refused as `write_bytes` is.
pub fn write_line<W: Write>(line: &Line, writer: &mut Meter<W>) -> Written
    requires { writer.old.failed ≡ false }
    ensures { Puts W.contents writer.old writer.new result (line_text line.now ++ 10 ∷ []) }
{
    match line {
        Line::Head {
            nodes,
            faults,
            choices,
        } => {
            let words = [Number(*nodes), Number(*faults), Number(*choices)];
            write_words(b"cast/1", &words, writer)
        }
        Line::Head2 {
            nodes,
            faults,
            choices,
            mode,
        } => {
            let words = [
                Number(*nodes),
                Number(*faults),
                Number(*choices),
                Word::Mode(*mode),
            ];
            write_words(b"cast/2", &words, writer)
        }
        Line::Broadcast(message) => {
            write_broadcast(message.sender, message.number, &message.item, writer)
        }
        Line::Delivered { node, message } => write_delivered(*node, message, writer),
        Line::Decided { node, decision } => write_decided(*node, decision, writer),
        Line::Crashed { node } => write_words(b"x", &[Number(u64::from(node.0))], writer),
        Line::Refused { index, code } => {
            write_words(b"r", &[Number(*index), Number(*code)], writer)
        }
        Line::End => write_words(b"end", &[], writer),
    }
}

/// The line of a broadcast.
pub fn write_broadcast<W: Write>(
    sender: NodeId,
    number: u64,
    item: &Item,
    writer: &mut Meter<W>,
) -> Written
    requires { writer.old.failed ≡ false }
    ensures { Puts W.contents writer.old writer.new result
        (line_text (Broadcast
        (record { sender = sender; number = number; item = item.now })) ++ 10 ∷ []) }
{
    let words = [
        Number(u64::from(sender.0)),
        Number(number),
        Word::Item(item),
    ];
    write_words(b"b", &words, writer)
}

/// The line of a delivery.
pub fn write_delivered<W: Write>(node: NodeId, message: &Message, writer: &mut Meter<W>) -> Written
    requires { writer.old.failed ≡ false }
    ensures { Puts W.contents writer.old writer.new result
        (line_text (Delivered node message.now) ++ 10 ∷ []) }
{
    let words = [
        Number(u64::from(node.0)),
        Number(u64::from(message.sender.0)),
        Number(message.number),
        Word::Item(&message.item),
    ];
    write_words(b"d", &words, writer)
}

/// The line of a decision.
pub fn write_decided<W: Write>(node: NodeId, decision: &Decision, writer: &mut Meter<W>) -> Written
    requires { writer.old.failed ≡ false }
    ensures { Puts W.contents writer.old writer.new result
        (line_text (Decided node decision.now) ++ 10 ∷ []) }
{
    let words = [
        Number(u64::from(node.0)),
        Number(decision.instance),
        Number(decision.value),
    ];
    write_words(b"v", &words, writer)
}

/// Writes the name and the words, with a blank between them, and a line feed.
pub fn write_words<W: Write>(name: &[u8], words: &[Word<'_>], writer: &mut Meter<W>) -> Written
    requires { writer.old.failed ≡ false }
    ensures { Puts W.contents writer.old writer.new result
        (join_with_byte 32 (name.now ∷ map word_text words.now) ++ 10 ∷ []) }
{
    write_bytes(name, writer)?;
    for word in words {
        write_bytes(b" ", writer)?;
        write_word(word, writer)?;
    }
    write_bytes(b"\n", writer)
}

fn write_word<W: Write>(word: &Word<'_>, writer: &mut Meter<W>) -> Written
    requires { writer.old.failed ≡ false }
    ensures { Puts W.contents writer.old writer.new result (word_text word.now) }
{
    match word {
        Number(number) => write_number(*number, writer),
        Word::Mode(mode) => write_bytes(mode_name(*mode), writer),
        Word::Item(item) => write_item(item, writer),
    }
}

fn write_item<W: Write>(item: &Item, writer: &mut Meter<W>) -> Written
    requires { writer.old.failed ≡ false }
    ensures { Puts W.contents writer.old writer.new result (item_word item.now) }
{
    match item {
        Item::Data(payload) => {
            write_bytes(b"data:", writer)?;
            write_hex(payload.as_slice(), writer)
        }
        Item::Propose { instance, value } => {
            write_bytes(b"prop:", writer)?;
            write_number(*instance, writer)?;
            write_bytes(b":", writer)?;
            write_number(*value, writer)
        }
        Item::Close => write_bytes(b"close", writer),
    }
}
