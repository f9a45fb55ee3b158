//! The judge of records. It reads the text of a record by anyone, piece by piece. It says that the record is good, or
//! names the first line that breaks a rule and the least rule that it breaks. `cast_record/specs` defines a good record
//! by all the lines before a line, but the judge reads each line once. It keeps, for each node, its items, counters,
//! and whether it closed or crashed; and for each instance, what was proposed and decided.
#![tactic(auto)]

mod candidates;
mod instances;
mod items;
mod judging;
mod kept;
mod kept_node;
mod lines;
mod rules;

pub use cast_record::Verdict;
pub use judging::{Judging, Offence, judge};
