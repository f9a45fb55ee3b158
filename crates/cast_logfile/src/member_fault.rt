//! Why members' records are refused.
use std::alloc::AllocError;
use thiserror::Error;

/// What is wrong with a line of a member's record.
#[derive(Clone, Copy, Debug, PartialEq, Eq, Error)]
pub enum MemberCause {
    #[error("the head of a record is expected: cast/1 NODES FAULTS CHOICES, or cast/2 NODES FAULTS CHOICES MODE")]
    Head,
    #[error("the head is not that of the first file")]
    OtherHead,
    #[error("the line is no line b, d, v or x of a member of the group")]
    Form,
    #[error("the line names another member than the lines before it")]
    OtherMember,
    #[error("another file is of the same member")]
    SameMember,
    #[error("nothing may follow the end")]
    AfterEnd,
}

/// What is wrong with members' records, or out of memory; files are counted from 0.
#[derive(Clone, Copy, Debug, PartialEq, Eq, Error)]
pub enum MembersFault {
    #[error("file {file}, line {line}: {cause}")]
    Line {
        file: usize,
        line: u64,
        cause: MemberCause,
    },
    #[error("out of memory")]
    Memory,
}

impl From<AllocError> for MembersFault {
    fn from(_refused: AllocError) -> MembersFault {
        MembersFault::Memory
    }
}
