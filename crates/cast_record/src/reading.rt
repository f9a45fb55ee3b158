//! Reading a line, the inverse of writing it; and the lines that have no item, by their words.
ghost use Rattle.std.specs.Prelude.{◌≡◌, ◌==◌, IfOk, OnErr, option_map, option_and_then};
ghost use Rattle.std.specs.List.{slice_split};
ghost use Rattle.cast_record.specs.Reading.{IsReadOf, LineHasData, line_of, end_named, short_line_named, pair_of, one_of, two_of, three_of, four_of};
ghost use Rattle.cast_record.specs.Reading.{decided_by, crashed_by, refused_by, refusal_within, head_by, head_within, is_outside, head2_by, head2_within, is_mode_outside};
ghost use Rattle.cast_record.specs.WordLines.{line_said};

use crate::line::{FIRST_MOST_NODES, Line, MOST_CODE};
use crate::mode::mode_named;
use crate::node::node;
use crate::numbers::number;
use crate::parts::{BLANK, four_parts, one_part, three_parts, two_parts};
use crate::word_line::{WordLine, read_words};
use cast_message::{Decision, MOST_NODES, Mode, NodeId};
use std::alloc::{AllocError, Global};

/// The line within its ranges whose text these bytes are, without its line feed, if there is one: `read_words`, with the item in place
/// of its word. A node is a number below 256, whatever the group, and a head has its own ranges. It takes memory only for data.
pub fn read_line(alloc: Global, bytes: &[u8]) -> Result<Option<Line>, AllocError>
    ensures exact { IfOk result (IsReadOf bytes.now) }
    ensures value { IfOk result (λ line. line ≡ line_of bytes.now) }
    ensures err { OnErr result (LineHasData (line_of bytes.now)) }
{
    match read_words(bytes) {
        Some(line) => Ok(Some(line.into_line(alloc)?)),
        None => Ok(None),
    }
}

/// The line of this name with these other words, if it is one without an item.
pub fn short_line<'a>(name: &[u8], rest: &[u8]) -> Option<WordLine<'a>>
    ensures { option_map line_said result
        ≡ short_line_named name.now (slice_split (λ b. b == 32) rest.now) }
{
    if name == b"v".as_slice() {
        decided(rest)
    } else if name == b"x".as_slice() {
        crashed(rest)
    } else if name == b"r".as_slice() {
        refused(rest)
    } else if name == b"cast/1".as_slice() {
        head(rest)
    } else if name == b"cast/2".as_slice() {
        head2(rest)
    } else {
        None
    }
}

/// The line of one word, if this is its name.
pub fn end<'a>(name: &[u8]) -> Option<WordLine<'a>>
    ensures { option_map line_said result ≡ end_named name.now }
{
    (name == b"end".as_slice()).then_some(WordLine::End)
}

/// The sender and the number of a message, by the words that spell them.
pub fn pair(sender: &[u8], place: &[u8]) -> Option<(NodeId, u64)>
    ensures { result ≡ pair_of sender.now place.now }
{
    let sender = node(sender)?;
    let number = number(place)?;
    Some((sender, number))
}

fn decided<'a>(rest: &[u8]) -> Option<WordLine<'a>>
    ensures { option_map line_said result
        ≡ option_and_then decided_by (three_of (slice_split (λ b. b == 32) rest.now)) }
{
    let (who, instance, value) = three_parts(rest, BLANK)?;
    let who = node(who)?;
    let decision = Decision {
        instance: number(instance)?,
        value: number(value)?,
    };
    Some(WordLine::Decided {
        node: who,
        decision,
    })
}

fn crashed<'a>(rest: &[u8]) -> Option<WordLine<'a>>
    ensures { option_map line_said result
        ≡ option_and_then crashed_by (one_of (slice_split (λ b. b == 32) rest.now)) }
{
    let who = node(one_part(rest, BLANK)?)?;
    Some(WordLine::Crashed { node: who })
}

fn refused<'a>(rest: &[u8]) -> Option<WordLine<'a>>
    ensures { option_map line_said result
        ≡ option_and_then refused_by (two_of (slice_split (λ b. b == 32) rest.now)) }
{
    let (index, code) = two_parts(rest, BLANK)?;
    let index = number(index)?;
    let code = number(code)?;
    refusal_within(index, code)
}

fn refusal_within<'a>(index: u64, code: u64) -> Option<WordLine<'a>>
    ensures { option_map line_said result ≡ refusal_within index code }
{
    if code < 1 || code > MOST_CODE {
        return None;
    }
    Some(WordLine::Refused { index, code })
}

/// The head of a record `cast/1` with these words after its name, if its numbers are within their ranges.
pub fn head<'a>(rest: &[u8]) -> Option<WordLine<'a>>
    ensures { option_map line_said result
        ≡ option_and_then head_by (three_of (slice_split (λ b. b == 32) rest.now)) }
{
    let (nodes, faults, choices) = three_parts(rest, BLANK)?;
    let nodes = number(nodes)?;
    let faults = number(faults)?;
    let choices = number(choices)?;
    head_within(nodes, faults, choices)
}

fn head_within<'a>(nodes: u64, faults: u64, choices: u64) -> Option<WordLine<'a>>
    ensures { option_map line_said result ≡ head_within nodes faults choices }
{
    if is_outside(FIRST_MOST_NODES, nodes, faults, choices) {
        return None;
    }
    Some(WordLine::Head {
        nodes,
        faults,
        choices,
    })
}

fn is_outside(most: u64, nodes: u64, faults: u64, choices: u64) -> bool
    ensures { result ≡ is_outside most nodes faults choices }
{
    nodes < 1 || nodes > most || faults >= nodes || choices < 1 || choices > nodes
}

fn head2<'a>(rest: &[u8]) -> Option<WordLine<'a>>
    ensures { option_map line_said result
        ≡ option_and_then head2_by (four_of (slice_split (λ b. b == 32) rest.now)) }
{
    let (nodes, faults, choices, name) = four_parts(rest, BLANK)?;
    let nodes = number(nodes)?;
    let faults = number(faults)?;
    let choices = number(choices)?;
    let mode = mode_named(name)?;
    head2_within(nodes, faults, choices, mode)
}

fn head2_within<'a>(nodes: u64, faults: u64, choices: u64, mode: Mode) -> Option<WordLine<'a>>
    ensures { option_map line_said result ≡ head2_within nodes faults choices mode }
{
    if is_outside(MOST_NODES, nodes, faults, choices) || is_mode_outside(mode, nodes, faults) {
        return None;
    }
    Some(WordLine::Head2 {
        nodes,
        faults,
        choices,
        mode,
    })
}

fn is_mode_outside(mode: Mode, nodes: u64, faults: u64) -> bool
    ensures { result ≡ is_mode_outside mode nodes faults }
{
    match mode {
        Mode::Basic => false,
        Mode::Uniform => faults >= nodes.saturating_sub(faults),
    }
}
