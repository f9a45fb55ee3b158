//! One line of a text.
ghost use Rattle.std.specs.Prelude.{◌≡◌, ◌^◌, ◌<◌, ◌==◌, List, length, position, option_map, IfOk, OnErr};
ghost use Rattle.cast_record.specs.declared.line.Line.{Line as Said};
ghost use Rattle.cast_judge.specs.Stands.{StandsFor};
ghost use Rattle.cast_judge.specs.Judges.{Judges, Takes};
ghost use Rattle.cast_judge.specs.FitLines.{IsFit};

use crate::kept::Kept;
use crate::rules::broken_rule;
use cast_record::{read_delivery, read_words};
use memchr::memchr;
use std::alloc::AllocError;

/// The place of the first line feed.
pub fn find_line_feed(bytes: &[u8]) -> Option<usize>
    ensures { result ≡ position (λ b. b == 10) bytes.now }
{
    memchr(b'\n', bytes)
}

/// Takes a line `d` that breaks no rule, and its line feed, off the front of the bytes, and returns the rest. It may
/// always return `None`; then nothing changed.
pub fn take_delivery<'a>(kept: &mut Kept, bytes: &'a [u8]) -> Option<&'a [u8]>
    ensures { Takes bytes.now kept.old kept.new (option_map (λ after. after.now) result) }
{
    // The borrow checker does not cover `?` here.
    let Some(delivery) = read_delivery(bytes) else {
        return None;
    };
    let end = kept.deliver(&delivery)?;
    Some(&delivery.rest[end..])
}

/// Takes in the line that these bytes spell, or returns the least rule that it breaks. In that case it allocates
/// nothing.
pub fn judge_line(kept: &mut Kept, bytes: &[u8]) -> Result<Option<u64>, AllocError>
    ensures judged { (past : List Said) → StandsFor past kept.old → length past < 2 ^ 63 →
        IfOk result (λ broken. Judges past bytes.now broken kept.new) }
    ensures wants { (past : List Said) → StandsFor past kept.old →
        OnErr result (IsFit past bytes.now) }
{
    let Some(line) = read_words(bytes) else {
        return Ok(Some(0));
    };
    if let Some(rule) = broken_rule(kept, &line) {
        return Ok(Some(rule));
    }
    kept.keep(&line)?;
    Ok(None)
}
