//! The network between the nodes of a group. Each node has a carrier, which takes parcels from the node's outbox. It
//! puts each into the inbox of its frame's target, once, twice or never, at once or later, as a plan of faults says. On
//! the stop board, engines, carriers and jobs post what the end of a run depends on.
#![tactic(auto)]

mod board;
mod carrier;
mod fate;
mod faults;
mod plan;
mod waiting;

pub use board::{Board, QuietWord};
pub use carrier::{CARRIER_PAUSE, Carrier};
pub use plan::{crash_of, faults_from, is_planned};
pub use waiting::{Pause, SHORT_NAP, Waiting};
