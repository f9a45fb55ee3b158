//! Lines read from the front, number by number, as frequent lines are. A line that is read so says what `read_words` reads. If a line
//! is not read so, that says nothing about it.
ghost use Rattle.std.specs.Prelude.{◌≡◌, ◌<◌, ◌∷◌, length, slice_index, Some, IfSome};
ghost use Rattle.cast_record.specs.Reading.{line_of};
ghost use Rattle.cast_record.specs.WordLines.{line_said};
ghost use Rattle.cast_record.specs.Fronts.{BeginsWithDelivery, SaysDelivery, BeginsWithNode, BeginsWithNumber, IsNumberSoFar};

use crate::item_word::ItemWord;
use crate::numbers::number;
use crate::parts::BLANK;
use crate::word_line::WordLine;
use cast_message::{Decision, NodeId};

/// A line `d` at the front of a text, up to its last word, which was not looked at.
#[derive(Drop)]
pub struct Delivery<'a> {
    pub node: NodeId,
    pub sender: NodeId,
    pub number: u64,
    /// The text from the last word on.
    pub rest: &'a [u8],
}

/// `d`, two nodes and a number at the front of these bytes. If a word at the front of the rest spells an item, this is the line there.
/// `None` says nothing about the bytes.
pub fn read_delivery<'a>(bytes: &'a [u8]) -> Option<Delivery<'a>>
    ensures words { IfSome result (λ delivery. BeginsWithDelivery bytes.now delivery) }
    ensures says { IfSome result (λ delivery. SaysDelivery bytes.now delivery) }
{
    let [b'd', b' ', rest @ ..] = bytes else {
        return None;
    };
    let (node, rest) = split_node(rest)?;
    let (sender, rest) = split_node(rest)?;
    let (number, rest) = split_number(rest)?;
    Some(Delivery {
        node: NodeId(node),
        sender: NodeId(sender),
        number,
        rest,
    })
}

/// The line that these bytes spell, if it is a broadcast or a decision. These are frequent, and this is faster than to cut them into
/// words first. `None` says nothing about the bytes.
pub fn frequent_line<'a>(bytes: &'a [u8]) -> Option<WordLine<'a>>
    ensures { IfSome result (λ line. line_of bytes.now ≡ Some (line_said line)) }
{
    match bytes {
        [b'b', b' ', rest @ ..] => broadcast_from(rest),
        [b'v', b' ', rest @ ..] => decision_from(rest),
        _ => None,
    }
}

fn broadcast_from<'a>(rest: &'a [u8]) -> Option<WordLine<'a>>
    ensures { IfSome result (λ line. line_of (98 ∷ 32 ∷ rest.now) ≡ Some (line_said line)) }
{
    let (sender, rest) = split_node(rest)?;
    let (number, word) = split_number(rest)?;
    let item = ItemWord::read(word)?;
    Some(WordLine::Broadcast {
        sender: NodeId(sender),
        number,
        item,
    })
}

fn decision_from<'a>(rest: &[u8]) -> Option<WordLine<'a>>
    ensures { IfSome result (λ line. line_of (118 ∷ 32 ∷ rest.now) ≡ Some (line_said line)) }
{
    let (node, rest) = split_node(rest)?;
    let (instance, word) = split_number(rest)?;
    let value = number(word)?;
    Some(WordLine::Decided {
        node: NodeId(node),
        decision: Decision { instance, value },
    })
}

// The node that the first word names, with one digit or two, and what is after its blank. A compiler need not branch by the number of
// digits, which no processor can predict.
fn split_node(bytes: &[u8]) -> Option<(u8, &[u8])>
    ensures { IfSome result (λ parts. BeginsWithNode bytes.now parts.0 parts.1.now) }
{
    let [high, low, end, ..] = bytes else {
        return None;
    };
    let is_short = *low == BLANK;
    let is_long = (*high != b'0') & low.is_ascii_digit() & (*end == BLANK);
    if !(high.is_ascii_digit() & (is_short | is_long)) {
        return None;
    }
    let (node, length) = if is_short {
        (*high - b'0', 2)
    } else {
        ((*high - b'0') * 10 + (*low - b'0'), 3)
    };
    Some((node, &bytes[length..]))
}

// The number that the first word spells, and what is after its blank.
fn split_number(bytes: &[u8]) -> Option<(u64, &[u8])>
    ensures { IfSome result (λ parts. BeginsWithNumber bytes.now parts.0 parts.1.now) }
{
    let mut value = 0u64;
    let mut at = 0usize;
    while at < bytes.len() {
        let byte = bytes[at];
        if byte == BLANK {
            return end_number(bytes, at, value);
        }
        if !byte.is_ascii_digit() {
            return None;
        }
        value = value.checked_mul(10)?.checked_add(u64::from(byte - b'0'))?;
        at += 1;
    }
    None
}

// The number, if there is a blank after this many digits.
fn end_number(bytes: &[u8], digits: usize, value: u64) -> Option<(u64, &[u8])>
    requires within { digits < length bytes.now }
    requires blank { slice_index bytes.now digits ≡ 32 }
    requires number { IsNumberSoFar bytes.now digits value }
    ensures { IfSome result (λ parts. BeginsWithNumber bytes.now parts.0 parts.1.now) }
{
    if digits == 0 {
        return None;
    }
    if digits > 1 && bytes[0] == b'0' {
        return None;
    }
    Some((value, &bytes[digits + 1..]))
}
