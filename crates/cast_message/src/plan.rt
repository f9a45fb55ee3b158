//! The plan of a group in threads: what happens to frames, and when engines crash.
use crate::list::List;
use crate::message::{FrameKind, NodeId};

/// What carriers do to frames, and when engines crash.
#[derive(Drop)]
pub struct FaultPlan {
    pub faults: List<Fault>,
}

/// Frames of one kind from one node to another: those with the ordinals `first`, `first + step`, `first + 2 * step` and
/// so on. If the step is 0, it is `first` alone. The ordinal of a frame counts, from 0, the frames of its kind that its
/// maker's carrier has taken for its target.
#[derive(Clone, Copy, Debug, PartialEq, Eq)]
pub struct Frames {
    pub kind: FrameKind,
    pub from: NodeId,
    pub to: NodeId,
    pub first: u64,
    pub step: u64,
}

/// A fault of a plan.
#[derive(Clone, Copy, Debug, PartialEq, Eq)]
pub enum Fault {
    /// These frames are lost.
    Lose(Frames),
    /// These frames are handed on twice, except those that another fault loses.
    Repeat(Frames),
    /// These frames are kept until `count` more frames of either kind were taken for their target, unless another fault
    /// loses them. If several faults delay a frame, the longest delay holds.
    Delay { frames: Frames, count: u64 },
    /// The node's engine crashes after its log has this many entries.
    Crash { node: NodeId, entries: u64 },
}
