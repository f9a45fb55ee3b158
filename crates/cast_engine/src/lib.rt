//! Engines: each owns a node, its log, its clock and the ends of its boxes, and works turn by turn. The engines of a
//! group report on a board when they are quiet. In each counted turn an engine passes a gate.
#![tactic(auto)]

mod engine;
mod feeding;
mod gate;
mod haste;
mod progress;
mod quiet;

pub use engine::{Engine, EngineBoxes, EngineParts, Turn};
pub use gate::{Gate, OpenGate};
pub use progress::{CountingGate, Progress};
pub use quiet::Quiet;
