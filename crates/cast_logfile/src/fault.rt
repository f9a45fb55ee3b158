//! Why logs are refused.
use cast_message::StepFault;
use std::alloc::AllocError;
use thiserror::Error;

/// What is wrong with a line of a log.
#[derive(Clone, Copy, Debug, PartialEq, Eq, Error)]
pub enum LogCause {
    #[error("the first line of a log is expected: cast-log/1 NODES FAULTS CHOICES MODE ITEMS GROUP NODE")]
    Head,
    #[error("the line is no entry")]
    Form,
    #[error("the stamp is not above the one before")]
    Stamp,
    #[error("nothing stands behind the end, or behind a crash")]
    AfterEnd,
    #[error("the log is of another group or configuration than the first")]
    OtherGroup,
    #[error("another log is of the same node")]
    SameNode,
    #[error("the group refuses this step: {0}")]
    Refused(StepFault),
    #[error("the group delivers or decides something else here")]
    Differs,
}

/// What is wrong with a log, or out of memory.
#[derive(Clone, Copy, Debug, PartialEq, Eq, Error)]
pub enum LogFault {
    #[error("line {line}: {cause}")]
    Line { line: u64, cause: LogCause },
    #[error("out of memory")]
    Memory,
}

/// What is wrong with several logs; files are counted from 0.
#[derive(Clone, Copy, Debug, PartialEq, Eq, Error)]
pub enum MergeFault {
    #[error("log {file}, line {line}: {cause}")]
    Line {
        file: usize,
        line: u64,
        cause: LogCause,
    },
    #[error("out of memory")]
    Memory,
}

impl From<AllocError> for LogFault {
    fn from(_refused: AllocError) -> LogFault {
        LogFault::Memory
    }
}

impl From<AllocError> for MergeFault {
    fn from(_refused: AllocError) -> MergeFault {
        MergeFault::Memory
    }
}
