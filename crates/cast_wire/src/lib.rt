//! Packets: a frame with its stamp and its group's number, as the bytes of one datagram of a user's network.
#![tactic(auto)]

mod law;
mod packet;
mod reading;
mod writing;

pub use law::has_bytes_of_its_own;
pub use packet::{MOST_BYTES, Packet, WireFault};
pub use reading::read_packet;
pub use writing::write_packet;
