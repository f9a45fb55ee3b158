//! A bounded queue that threads share, with one end for each putter and one for the taker. For every putter of every
//! box it is proved: what was taken from it, followed by what is left, is the list of what it put. Each item comes out
//! once, in its putter's order, and nothing else does. `specs/Rule` has the rule that every step keeps.
#![tactic(auto)]

mod ends;
mod gathered;
mod opening;
mod rule;

pub use ends::{Full, Putter, Taker};
pub use gathered::{Gathered, gather};
pub use opening::{BoxFault, MOST_PLACES, MOST_PUTTERS, make_box};
