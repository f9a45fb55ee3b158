//! The group as one value: its nodes, and marks of the frames that they made.
#![tactic(auto)]

mod due;
mod due_run;
mod due_slots;
mod enabled;
mod frames;
mod rest;
mod round;
mod run;
mod settling;
mod world;

pub use due_slots::{DueSlot, DueSlots};
pub use run::{is_want_of_memory, run_events};
pub use world::World;
