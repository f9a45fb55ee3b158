//! The limits of a group, which this project sets for itself.

/// The most nodes in a group.
pub const MOST_NODES: u64 = 64;
/// The most items in a stream, so the greatest item limit.
pub const MOST_ITEMS: u64 = 4_096;
/// The most entries in the log of a running node, so the greatest log limit.
pub const MOST_ENTRIES: u64 = 65_536;
/// The most items in a box between threads, so the greatest box size.
pub const MOST_PLACES: u64 = 4_096;
/// The most bytes in a payload.
pub const PAYLOAD_LIMIT: usize = 1_024;
/// The most frames that a node makes.
pub const FRAME_LIMIT: u64 = 1_048_576;
