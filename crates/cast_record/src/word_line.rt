//! Lines with the words of their items, read without memory.
ghost use Rattle.std.specs.Prelude.{◌≡◌, ◌==◌, true, IfOk, OnErr, option_map, option_and_then};
ghost use Rattle.std.specs.List.{slice_split};
ghost use Rattle.cast_record.specs.Reading.{line_of, line_named, broadcast_by, delivered_by, three_of, four_of, is_data, brings_data};
ghost use Rattle.cast_record.specs.WordLines.{line_said};
ghost use Rattle.cast_record.specs.declared.line.Line.TheVariants.{Head2};

use crate::front::frequent_line;
use crate::item_word::ItemWord;
use crate::line::Line;
use crate::node::node;
use crate::parts::{BLANK, four_parts, split_part, three_parts};
use crate::reading::{end, pair, short_line};
use cast_message::{Decision, Message, Mode, NodeId};
use std::alloc::{AllocError, Global};

/// A line of a record, with the word of its item in place of the item.
#[derive(Drop)]
pub enum WordLine<'a> {
    Head {
        nodes: u64,
        faults: u64,
        choices: u64,
    },
    Head2 {
        nodes: u64,
        faults: u64,
        choices: u64,
        mode: Mode,
    },
    Broadcast {
        sender: NodeId,
        number: u64,
        item: ItemWord<'a>,
    },
    Delivered {
        node: NodeId,
        sender: NodeId,
        number: u64,
        item: ItemWord<'a>,
    },
    Decided {
        node: NodeId,
        decision: Decision,
    },
    Crashed {
        node: NodeId,
    },
    Refused {
        index: u64,
        code: u64,
    },
    End,
}

impl<'a> WordLine<'a> {
    /// The line with its item in place of the word. It takes memory only if the item is data.
    pub fn into_line(self, alloc: Global) -> Result<Line, AllocError>
        ensures exact { IfOk result (λ line. line ≡ line_said self.entry) }
        ensures err { OnErr result (brings_data (line_said self.entry) ≡ true) }
    {
        match self {
            WordLine::Head {
                nodes,
                faults,
                choices,
            } => Ok(Line::Head {
                nodes,
                faults,
                choices,
            }),
            WordLine::Head2 {
                nodes,
                faults,
                choices,
                mode,
            } => Ok(head2(nodes, faults, choices, mode)),
            WordLine::Broadcast {
                sender,
                number,
                item,
            } => Ok(Line::Broadcast(message(alloc, sender, number, &item)?)),
            WordLine::Delivered {
                node,
                sender,
                number,
                item,
            } => Ok(Line::Delivered {
                node,
                message: message(alloc, sender, number, &item)?,
            }),
            WordLine::Decided { node, decision } => Ok(Line::Decided { node, decision }),
            WordLine::Crashed { node } => Ok(Line::Crashed { node }),
            WordLine::Refused { index, code } => Ok(Line::Refused { index, code }),
            WordLine::End => Ok(Line::End),
        }
    }
}

// The first line of a record `cast/2`.
fn head2(nodes: u64, faults: u64, choices: u64, mode: Mode) -> Line
    ensures { result ≡ Head2 nodes faults choices mode }
{
    Line::Head2 {
        nodes,
        faults,
        choices,
        mode,
    }
}

fn message(
    alloc: Global,
    sender: NodeId,
    number: u64,
    item: &ItemWord<'_>,
) -> Result<Message, AllocError>
    ensures exact { IfOk result (λ message.
        message ≡ record { sender = sender; number = number; item = item.now }) }
    ensures err { OnErr result (is_data item.now ≡ true) }
{
    let item = item.to_item(alloc)?;
    Ok(Message {
        sender,
        number,
        item,
    })
}

/// The line that these bytes spell without their line feed, if they spell one.
pub fn read_words<'a>(bytes: &'a [u8]) -> Option<WordLine<'a>>
    ensures { option_map line_said result ≡ line_of bytes.now }
{
    frequent_line(bytes).or_else(|| any_line(bytes))
}

fn any_line<'a>(bytes: &'a [u8]) -> Option<WordLine<'a>>
    ensures { option_map line_said result ≡ line_of bytes.now }
{
    let (name, rest) = split_part(bytes, BLANK);
    match rest {
        Some(rest) => words(name, rest),
        None => end(name),
    }
}

// The line of this name with these other words.
fn words<'a>(name: &[u8], rest: &'a [u8]) -> Option<WordLine<'a>>
    ensures { option_map line_said result
        ≡ line_named name.now (slice_split (λ b. b == 32) rest.now) }
{
    if name == b"d".as_slice() {
        delivered(rest)
    } else if name == b"b".as_slice() {
        broadcast(rest)
    } else {
        short_line(name, rest)
    }
}

fn delivered<'a>(rest: &'a [u8]) -> Option<WordLine<'a>>
    ensures { option_map line_said result
        ≡ option_and_then delivered_by (four_of (slice_split (λ b. b == 32) rest.now)) }
{
    let (receiver, sender, place, word) = four_parts(rest, BLANK)?;
    let receiver = node(receiver)?;
    let (sender, number) = pair(sender, place)?;
    let item = ItemWord::read(word)?;
    Some(WordLine::Delivered {
        node: receiver,
        sender,
        number,
        item,
    })
}

fn broadcast<'a>(rest: &'a [u8]) -> Option<WordLine<'a>>
    ensures { option_map line_said result
        ≡ option_and_then broadcast_by (three_of (slice_split (λ b. b == 32) rest.now)) }
{
    let (sender, place, word) = three_parts(rest, BLANK)?;
    let (sender, number) = pair(sender, place)?;
    let item = ItemWord::read(word)?;
    Some(WordLine::Broadcast {
        sender,
        number,
        item,
    })
}
