//! Scripts, read from JSON: what a group should be, and what should happen to it. `specs/Script` says which script a
//! value is, `specs/Element` what each element of its lists means.
#![tactic(auto)]

mod element;
mod event;
mod fault;
mod item;
mod job;
mod law;
mod members;
mod plain;
mod reading;
mod replay;
mod script;

pub use cast_message::{Fault, FaultPlan, FrameKind, Frames, LiveFault};
pub use law::is_read_back;
pub use reading::read_script;
pub use replay::write_script;
pub use script::{Script, ScriptEvent, ScriptFault};
