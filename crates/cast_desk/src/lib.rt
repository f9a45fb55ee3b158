//! The desk of a node, where its clients submit orders, and the trays from which they take notices. The desk is a box
//! with a putter for each client; each client's tray is a box whose only putter is the desk. So the desk took a prefix
//! of what the client submitted, and the client took a prefix of what was put into its tray.
#![tactic(auto)]

mod client;
mod desk;
mod make;
mod notice;
mod told;

pub use client::{Client, DeskFault};
pub use desk::Desk;
pub use make::{MOST_CLIENTS, end_desk, make_desk};
pub use notice::Notice;
pub use told::{feed, orders_in, own_reply};
