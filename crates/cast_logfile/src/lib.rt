//! Logs of a group's nodes as files: reads and writes the text of a log, and merges the logs into one run. The group
//! accepts that run with the outcomes that the nodes logged. It also merges the records of another system's members into
//! one record.
#![tactic(auto)]

mod fault;
mod file_log;
mod gathered;
mod log_words;
mod member_fault;
mod member_record;
mod members;
mod merging;
mod misfit;
mod reading;
mod record;
mod same;
mod writing;

pub use fault::{LogCause, LogFault, MergeFault};
pub use file_log::{FileLog, LoggedStep};
pub use gathered::{Gathered, gather, locate};
pub use member_fault::{MemberCause, MembersFault};
pub use member_record::is_members_record;
pub use members::merge_members;
pub use merging::{Merged, StepPlace, merge_steps};
pub use misfit::Misfit;
pub use reading::read_log;
pub use record::{judge_record, record_of, summary_of};
pub use writing::{append_end, append_entry, append_head};
