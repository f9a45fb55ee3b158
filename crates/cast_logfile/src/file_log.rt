//! A node's log, as a file has it.
use cast_message::{Config, Event, List, NodeId, Outcome};

/// A step of a node, with its outcome.
#[derive(Drop)]
pub struct LoggedStep {
    pub stamp: u64,
    /// The number of its line, counted from 1.
    pub line: u64,
    pub event: Event,
    pub outcome: Outcome,
}

/// A log. If it has no end, its last step is the node's crash.
#[derive(Drop)]
pub struct FileLog {
    pub config: Config,
    pub group: u64,
    pub me: NodeId,
    pub steps: List<LoggedStep>,
    /// Whether the log has its end.
    pub has_ended: bool,
}
