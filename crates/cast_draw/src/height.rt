//! The heights of the nodes' lines.
ghost use Rattle.std.specs.Prelude.{◌<◌, ◌≤◌, ◌^◌};

use cast_message::NodeId;

/// The height of a node's line, in points from the upper edge.
pub fn height_of(node: NodeId) -> u64
    ensures bound { (76 ≤ result) × (result < 2 ^ 16) }
{
    76 + 84 * u64::from(node.0)
}
