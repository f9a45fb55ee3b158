//! A peer: a node of a group between processes, with its log and its clock. It takes bytes from a network, and gives
//! bytes to it. It knows neither sockets nor time; its user supplies both.
#![tactic(auto)]

mod acknowledged;
mod fault;
mod flight;
mod law;
mod news;
mod peer;
mod possible;

pub use cast_wire::{MOST_BYTES, WireFault};
pub use fault::PeerFault;
pub use law::links_peers;
pub use news::News;
pub use peer::{NextPacket, Peer, Received, Saving};
