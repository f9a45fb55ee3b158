//! A journal: a node with its log and its clock. Engines in threads keep one, and so do peers over a network. With it
//! come what a node takes: orders of clients, and frames of other nodes, in parcels.
#![tactic(auto)]

mod journal;
mod order;
mod parcel;

pub use journal::Journal;
pub use order::OrderIn;
pub use parcel::Parcel;
