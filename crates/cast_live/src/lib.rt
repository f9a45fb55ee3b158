//! Runs the group of a script, in threads or by a schedule. What happened is reported as a summary, a record, and a
//! script that replays it.
#![tactic(auto)]

mod live;
mod outputs;
mod replay;
mod summary;
mod verdict;
mod walk;

pub use live::{FinishedRun, Way, live_text};
pub use outputs::RunOutputs;
pub use summary::Summary;
