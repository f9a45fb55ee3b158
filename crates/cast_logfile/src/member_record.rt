//! A member's record: the file of one member of another system. It has the head, the member's own lines in the order in
//! which it logged them, and `end` if it logged all.
use crate::member_fault::MemberCause;
use cast_message::NodeId;
use cast_record::{WordLine, read_words};

/// The head of a record.
#[derive(Clone, Copy)]
pub struct RecordHead<'a> {
    /// Its line, without a line feed.
    pub line: &'a [u8],
    /// How many members the group has.
    pub members: u64,
}

/// A member's record that has the form of one.
#[derive(Clone, Copy)]
pub struct MemberRecord<'a> {
    /// The text after the head.
    pub rest: &'a [u8],
    /// Who logged the lines. It is unknown if there are none.
    pub member: Option<NodeId>,
    /// Whether neither an end nor a crash was logged.
    pub was_killed: bool,
}

/// A line that is wrong, counted from 1.
#[derive(Clone, Copy)]
pub struct WrongLine {
    pub line: u64,
    pub cause: MemberCause,
}

/// Whether this text, the first of several, begins as a record does, and not as a log of a node.
pub fn is_members_record(text: &[u8]) -> bool {
    text.starts_with(b"cast/1 ") || text.starts_with(b"cast/2 ")
}

/// The head at the front of a text, if there is one.
pub fn head_at_front<'a>(text: &'a [u8]) -> Option<RecordHead<'a>> {
    let (line, _rest) = split_line(text)?;
    match read_words(line)? {
        WordLine::Head { nodes, .. } | WordLine::Head2 { nodes, .. } => Some(RecordHead {
            line,
            members: nodes,
        }),
        _ => None,
    }
}

/// The first line of a text, without its line feed, and the text after it. Bytes after the last line feed are no line.
pub fn split_line<'a>(text: &'a [u8]) -> Option<(&'a [u8], &'a [u8])> {
    let at = text.iter().position(|byte| *byte == b'\n')?;
    Some((&text[..at], &text[at + 1..]))
}

/// The first of the member's own lines in a text, and the text after it.
pub fn split_own_line<'a>(text: &'a [u8]) -> Option<(&'a [u8], &'a [u8])> {
    let (line, rest) = split_line(text)?;
    if is_end(line) {
        None
    } else {
        Some((line, rest))
    }
}

fn is_end(line: &[u8]) -> bool {
    line == b"end".as_slice()
}

/// The member's record with this text, or its first wrong line. A member that was killed before the line feed of its
/// head has no lines.
pub fn read_member<'a>(
    head: RecordHead<'_>,
    text: &'a [u8],
) -> Result<MemberRecord<'a>, WrongLine> {
    let mut reader = MemberReader {
        members: head.members,
        member: None,
        has_crashed: false,
        has_ended: false,
    };
    let Some((first, rest)) = split_line(text) else {
        if head.line.starts_with(text) {
            return Ok(reader.finish(&[]));
        }
        return Err(wrong(1, MemberCause::Head));
    };
    if first != head.line {
        return Err(wrong(1, cause_of_head(text)));
    }
    reader.take_lines(rest)?;
    Ok(reader.finish(rest))
}

fn wrong(line: u64, cause: MemberCause) -> WrongLine {
    WrongLine { line, cause }
}

// Why this text does not begin with the head of the first file.
fn cause_of_head(text: &[u8]) -> MemberCause {
    match head_at_front(text) {
        Some(_) => MemberCause::OtherHead,
        None => MemberCause::Head,
    }
}

// What is known of a member's record so far.
#[derive(Drop)]
struct MemberReader {
    members: u64,
    member: Option<NodeId>,
    has_crashed: bool,
    has_ended: bool,
}

impl MemberReader {
    // Takes the lines after the head.
    fn take_lines(&mut self, text: &[u8]) -> Result<(), WrongLine> {
        let mut rest = text;
        for line in 2..u64::MAX {
            let Some((bytes, after)) = split_line(rest) else {
                return Ok(());
            };
            if let Err(cause) = self.take_line(bytes) {
                return Err(wrong(line, cause));
            }
            rest = after;
        }
        Ok(())
    }

    fn take_line(&mut self, bytes: &[u8]) -> Result<(), MemberCause> {
        if self.has_ended {
            return Err(MemberCause::AfterEnd);
        }
        if is_end(bytes) {
            self.has_ended = true;
            return Ok(());
        }
        let Some(line) = read_words(bytes) else {
            return Err(MemberCause::Form);
        };
        match line {
            WordLine::Broadcast { sender, .. } => self.take_name(sender),
            WordLine::Delivered { node, sender, .. } => {
                self.check_member(sender)?;
                self.take_name(node)
            }
            WordLine::Decided { node, .. } => self.take_name(node),
            WordLine::Crashed { node } => {
                self.has_crashed = true;
                self.take_name(node)
            }
            _ => Err(MemberCause::Form),
        }
    }

    // Takes the name of the member that logged a line.
    fn take_name(&mut self, name: NodeId) -> Result<(), MemberCause> {
        self.check_member(name)?;
        if self.member.is_some_and(|member| member != name) {
            return Err(MemberCause::OtherMember);
        }
        self.member = Some(name);
        Ok(())
    }

    fn check_member(&self, name: NodeId) -> Result<(), MemberCause> {
        if u64::from(name.0) < self.members {
            Ok(())
        } else {
            Err(MemberCause::Form)
        }
    }

    fn finish<'a>(self, rest: &'a [u8]) -> MemberRecord<'a> {
        MemberRecord {
            rest,
            member: self.member,
            was_killed: !self.has_crashed && !self.has_ended,
        }
    }
}
