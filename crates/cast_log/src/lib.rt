//! The log of a node: what it did, with stamps, and for which client. Contracts see the list of its entries.
#![tactic(auto)]

mod entry;
mod log;

pub use entry::{Entry, EntryKind, Origin};
pub use log::{EntryRef, KindRef, Log, OpenLog};
