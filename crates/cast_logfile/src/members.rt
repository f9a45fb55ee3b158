//! Merges the records of another system's members into one record.
//!
//! The rule: the merge takes the next line of some file, with two exceptions. A line `d` waits until its sender's
//! broadcast of that number was taken. (The broadcasts of a member are counted from 0, as a good record numbers them.) A
//! line `v` waits until some broadcast proposed its value in its instance. The files have their turns in order. A turn
//! ends at a line that must wait, or at the end of the file. A file that waits has a turn again once what it waits for
//! was taken, after those that are due. When no turn is due, the lines that are left are taken as they are, file by file.
//! The judge then names the first of them, unless a line before it breaks a rule.
//!
//! A member that was killed crashed after its last line. A file without a line of its member adds nothing: it doesn't
//! say who that is.
//!
//! If any order of the lines that keeps each file's order is a good record, then the merged record is good:
//!
//! - What lets a line be taken, once so, stays so, since what was taken stays taken.
//! - In a good record, each line comes after what it waits for. While lines are left, consider the one that the good
//!   record has first. All lines before it were taken, so it may be taken. Thus no line is left over.
//! - No two files are of one member. So whether a line breaks a rule depends on the lines before it in its file, and on
//!   what it waits for. Only rule 4 also counts the values that other members decided in its instance. But there are
//!   never more of these than at the end of the good record.
//!
//! A file waits for one thing at a time, and is found by that. So no line is read more than three times, however long it
//! waits.
use crate::member_fault::{MemberCause, MembersFault};
use crate::member_record::{
    MemberRecord, RecordHead, WrongLine, head_at_front, read_member, split_own_line,
};
use cast_message::NodeId;
use cast_record::{WordLine, read_words};
use itoa::Buffer;
use std::alloc::{AllocError, Global};
use std::collections::{BTreeMap, BTreeSet, VecDeque};

/// A value that was proposed in an instance.
#[derive(Clone, Copy, PartialEq, Eq, PartialOrd, Ord, Drop)]
struct Proposal {
    instance: u64,
    value: u64,
}

/// What a line waits for.
#[derive(Clone, Copy, PartialEq, Eq, PartialOrd, Ord, Drop)]
enum Need {
    Broadcast { sender: u8, number: u64 },
    Proposal(Proposal),
}

/// The record that the members' records with these texts merge into, or the first wrong line.
pub fn merge_members(alloc: Global, texts: &[Vec<u8>]) -> Result<Vec<u8>, MembersFault> {
    let Some(first) = texts.first() else {
        return Err(fault_in(0, 1, MemberCause::Head));
    };
    let Some(head) = head_at_front(first.as_slice()) else {
        return Err(fault_in(0, 1, MemberCause::Head));
    };
    let files = read_members(alloc, head, texts)?;
    let merging = Merging::begin(alloc, head, files)?;
    Ok(merging.finish()?)
}

fn fault_in(file: usize, line: u64, cause: MemberCause) -> MembersFault {
    MembersFault::Line { file, line, cause }
}

fn read_members<'a>(
    alloc: Global,
    head: RecordHead<'_>,
    texts: &'a [Vec<u8>],
) -> Result<Vec<MemberRecord<'a>>, MembersFault> {
    let mut records = Vec::new(alloc);
    for (file, text) in texts.iter().enumerate() {
        let record = match read_member(head, text.as_slice()) {
            Ok(record) => record,
            Err(WrongLine { line, cause }) => return Err(fault_in(file, line, cause)),
        };
        if is_of_another(records.as_slice(), record.member) {
            // (the line after the head is the first that names the member)
            return Err(fault_in(file, 2, MemberCause::SameMember));
        }
        if records.push(record).is_err() {
            return Err(MembersFault::Memory);
        }
    }
    Ok(records)
}

// Whether one of these records is of this member too.
fn is_of_another(records: &[MemberRecord<'_>], member: Option<NodeId>) -> bool {
    member.is_some() && records.iter().any(|record| record.member == member)
}

#[derive(Drop)]
struct Merging<'a> {
    alloc: Global,
    // The lines taken so far.
    merged: Vec<u8>,
    // What is left of each file.
    files: Vec<MemberRecord<'a>>,
    // The files whose turn is due, in order.
    due: VecDeque<usize>,
    // The files that wait, by what they wait for.
    waiting: BTreeMap<Need, Vec<usize>>,
    // How many broadcasts of each member were taken.
    broadcasts: Vec<u64>,
    proposals: BTreeSet<Proposal>,
}

impl<'a> Merging<'a> {
    fn begin(
        alloc: Global,
        head: RecordHead<'_>,
        files: Vec<MemberRecord<'a>>,
    ) -> Result<Merging<'a>, AllocError> {
        let mut due = VecDeque::new(alloc);
        for file in 0..files.len() {
            due.push_back(file)?;
        }
        let mut merging = Merging {
            alloc,
            merged: Vec::new(alloc),
            files,
            due,
            waiting: BTreeMap::new(alloc),
            broadcasts: vec![in alloc; 0u64; 256]?,
            proposals: BTreeSet::new(alloc),
        };
        merging.put_line(head.line)?;
        Ok(merging)
    }

    fn finish(mut self) -> Result<Vec<u8>, AllocError> {
        for _turn in 0..u64::MAX {
            let Some(file) = self.due.pop_front() else {
                break;
            };
            self.take_turn(file)?;
        }
        for file in 0..self.files.len() {
            self.take_rest(file)?;
        }
        self.put_line(b"end")?;
        Ok(self.merged)
    }

    // Takes the lines of a file up to one that must wait.
    fn take_turn(&mut self, file: usize) -> Result<(), AllocError> {
        for _line in 0..u64::MAX {
            let Some((bytes, rest)) = self.next_line(file) else {
                break;
            };
            let line = read_words(bytes);
            match need_of(&line) {
                Some(need) if !self.is_met(&need) => return self.wait(need, file),
                _ => self.take_line(file, bytes, rest)?,
            }
            self.note_broadcast(&line)?;
        }
        self.take_crash(file)
    }

    // Takes the lines that are left of a file.
    fn take_rest(&mut self, file: usize) -> Result<(), AllocError> {
        for _line in 0..u64::MAX {
            let Some((bytes, rest)) = self.next_line(file) else {
                break;
            };
            self.take_line(file, bytes, rest)?;
        }
        self.take_crash(file)
    }

    // The next line of a file, and the text after it.
    fn next_line(&self, file: usize) -> Option<(&'a [u8], &'a [u8])> {
        split_own_line(self.files.get(file)?.rest)
    }

    fn take_line(&mut self, file: usize, line: &[u8], rest: &'a [u8]) -> Result<(), AllocError> {
        if let Some(record) = self.files.get_mut(file) {
            record.rest = rest;
        }
        self.put_line(line)
    }

    // If the file is of a member that was killed, adds its crash, once.
    fn take_crash(&mut self, file: usize) -> Result<(), AllocError> {
        let Some(record) = self.files.get_mut(file) else {
            return Ok(());
        };
        let Some(member) = record.member else {
            return Ok(());
        };
        if !record.was_killed {
            return Ok(());
        }
        record.was_killed = false;
        self.merged.extend_from_slice(b"x ")?;
        self.put_line(Buffer::new().format(u64::from(member.0)).as_bytes())
    }

    fn put_line(&mut self, line: &[u8]) -> Result<(), AllocError> {
        self.merged.extend_from_slice(line)?;
        self.merged.extend_from_slice(b"\n")
    }

    fn is_met(&self, need: &Need) -> bool {
        match need {
            Need::Broadcast { sender, number } => match self.broadcasts.get(usize::from(*sender)) {
                Some(count) => number < count,
                None => false,
            },
            Need::Proposal(proposal) => self.proposals.contains(proposal),
        }
    }

    // Lets a file wait.
    fn wait(&mut self, need: Need, file: usize) -> Result<(), AllocError> {
        if let Some(files) = self.waiting.get_mut(&need) {
            files.push(file)?;
            return Ok(());
        }
        let mut files = Vec::new(self.alloc);
        files.push(file)?;
        self.waiting.insert(need, files)?;
        Ok(())
    }

    // If the line is a broadcast, the files that wait for it have turns again.
    fn note_broadcast(&mut self, line: &Option<WordLine<'_>>) -> Result<(), AllocError> {
        let Some(WordLine::Broadcast { sender, item, .. }) = line else {
            return Ok(());
        };
        if let Some((instance, value)) = item.proposal() {
            let proposal = Proposal { instance, value };
            self.proposals.insert(proposal)?;
            self.wake(&Need::Proposal(proposal))?;
        }
        let Some(count) = self.broadcasts.get_mut(usize::from(sender.0)) else {
            return Ok(());
        };
        let number = *count;
        *count = number.saturating_add(1);
        self.wake(&Need::Broadcast {
            sender: sender.0,
            number,
        })
    }

    // The files that wait for this have turns again.
    fn wake(&mut self, need: &Need) -> Result<(), AllocError> {
        let Some(files) = self.waiting.remove(need) else {
            return Ok(());
        };
        for file in files {
            self.due.push_back(file)?;
        }
        Ok(())
    }
}

// What a line waits for.
fn need_of(line: &Option<WordLine<'_>>) -> Option<Need> {
    match line {
        Some(WordLine::Delivered { sender, number, .. }) => Some(Need::Broadcast {
            sender: sender.0,
            number: *number,
        }),
        Some(WordLine::Decided { decision, .. }) => Some(Need::Proposal(Proposal {
            instance: decision.instance,
            value: decision.value,
        })),
        _ => None,
    }
}
