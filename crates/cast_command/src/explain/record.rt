//! What is wrong with a record: the bad line, and the rule that it breaks in words.
use crate::explain::due::due_words;
use crate::explain::excerpt::quoted;
use std::alloc::{AllocError, Global};

/// What the line `bad LINE RULE` means: one line per rule, under a title.
pub const RULES: &str = "Rules (bad LINE RULE):
  0  what is no line of a record or out of range, a head or an end that is missing or stands twice, or bytes after the end
  1  a broadcast or a delivery out of turn, or a delivery of what was not broadcast
  2  a broadcast after its node's close
  3  a decided value that was not proposed
  4  more decided values in an instance than choices, where fewer nodes than choices may crash
  5  a line of a node that has crashed
  6  a second proposal of a node in an instance";

#[derive(Clone, Copy)]
struct TextLine<'a> {
    bytes: &'a [u8],
    /// Whether a line feed follows it.
    is_ended: bool,
}

/// The rule about turns.
const TURNS: u64 = 1;

/// Which line of the text breaks which rule, and what was due if it is out of turn.
pub fn verdict_words(
    alloc: Global,
    text: &[u8],
    line: u64,
    rule: u64,
) -> Result<String, AllocError> {
    let broken = find_rule(rule).unwrap_or("no rule has this number");
    let shown = line_words(alloc, text, line)?;
    let words = format!(in alloc; "line {line} breaks rule {rule} ({broken}): {shown}")?;
    if rule != TURNS {
        return Ok(words);
    }
    match due_words(alloc, text, line)? {
        Some(due) => format!(in alloc; "{words}; {due}"),
        None => Ok(words),
    }
}

/// Why a text has no head of the first format.
pub fn head_words(alloc: Global, text: &[u8]) -> Result<String, AllocError> {
    let shown = line_words(alloc, text, 1)?;
    format!(in alloc; "line 1 is not cast/1 N F K, with N 1 to 16, F below N and K 1 to N: {shown}")
}

// The line with this number, as shown.
fn line_words(alloc: Global, text: &[u8], number: u64) -> Result<String, AllocError> {
    if text.is_empty() {
        return format!(in alloc; "the input is empty");
    }
    let line = line_at(text, number);
    if line.is_ended {
        return quoted(alloc, line.bytes);
    }
    if line.bytes.is_empty() {
        return format!(in alloc; "the text ends before it");
    }
    let shown = quoted(alloc, line.bytes)?;
    format!(in alloc; "{shown}, with no line feed behind it")
}

// The line with this number, counted from 1. The last line is what follows the last line feed, even if empty. Lines
// past it are empty, and not ended.
fn line_at(text: &[u8], number: u64) -> TextLine<'_> {
    find_line(text, number).unwrap_or(TextLine {
        bytes: &[],
        is_ended: false,
    })
}

fn find_line(text: &[u8], number: u64) -> Option<TextLine<'_>> {
    let place = number.checked_sub(1)? as usize;
    let mut lines = text.split(|byte| *byte == b'\n');
    let bytes = lines.nth(place)?;
    let is_ended = lines.next().is_some();
    Some(TextLine { bytes, is_ended })
}

// The rule in words.
fn find_rule(rule: u64) -> Option<&'static str> {
    let line = RULES.lines().skip(1).nth(rule as usize)?;
    let (_number, words) = line.trim_start().split_once("  ")?;
    Some(words)
}
