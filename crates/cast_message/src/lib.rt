//! The messages of a broadcast group: items, frames, events, answers and the configuration, with their limits. Also the
//! faults of a plan, and sets of nodes and of numbers: bits, which contracts see as finite sets.
#![tactic(auto)]

mod config;
mod event;
mod group_set;
mod limits;
mod list;
mod live_fault;
mod message;
mod node_set;
mod number_set;
mod payload;
mod plan;
mod settings;

pub use config::{Config, ConfigFault, Mode};
pub use event::{Answer, Event, Outcome, REFUSALS, Reply, StepFault};
pub use group_set::GroupSet;
pub use limits::{FRAME_LIMIT, MOST_ENTRIES, MOST_ITEMS, MOST_NODES, MOST_PLACES, PAYLOAD_LIMIT};
pub use list::List;
pub use live_fault::LiveFault;
pub use message::{Decision, Frame, FrameBody, FrameKind, Item, Message, NodeId};
pub use node_set::NodeSet;
pub use number_set::NumberSet;
pub use payload::Payload;
pub use plan::{Fault, FaultPlan, Frames};
pub use settings::Settings;
