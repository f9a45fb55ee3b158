//! Slots in succession. The type has a file of its own, since the definitions that its calls cite name it.
ghost use Rattle.std.specs.Prelude.{◌+◌, ◌<◌, ◌^◌};

use cast_message::NodeId;

/// Slots in succession that a node owes a peer: the first, and how many follow it.
#[derive(Clone, Copy)]
pub struct Run {
    pub from: NodeId,
    pub to: NodeId,
    pub first: u64,
    pub more: u64,
    pub ghost within: { first + more < 2 ^ 64 },
}
