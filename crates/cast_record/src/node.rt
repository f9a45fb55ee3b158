//! Words that spell the numbers of nodes.
ghost use Rattle.std.specs.Prelude.{◌≡◌};
ghost use Rattle.cast_record.specs.Nodes.{node_of};

use crate::numbers::number;
use cast_message::NodeId;

/// The number of a node that a word spells, 0 to 255.
pub fn node(word: &[u8]) -> Option<NodeId>
    ensures { result ≡ node_of word.now }
{
    NodeId::from_number(number(word)?)
}
