//! Which frames some peer of the group could have made for this one.
ghost use Rattle.std.specs.Prelude.{◌≡◌};
ghost use Rattle.cast_peer.specs.Peers.{is_other, may_be_made};

use cast_message::{Config, Frame, FrameBody, NodeId};

/// Whether some other node of a group with this configuration could have made the frame for this one.
#[tactic(auto, using(std::proofs::lemmas::Bool::Decides::nat_tests))]
pub fn may_be_made(config: &Config, me: NodeId, frame: &Frame) -> bool
    ensures { result ≡ may_be_made config.now me frame.now }
{
    if !is_other(config, me, frame.from) {
        return false;
    }
    match &frame.body {
        FrameBody::Carry { slot, message } => {
            is_other(config, me, message.sender)
                && message.number < config.item_limit()
                && *slot < config.nodes() * config.item_limit()
        }
        FrameBody::Took { .. } => true,
    }
}

#[tactic(auto, using(std::proofs::lemmas::Bool::Decides::nat_tests))]
fn is_other(config: &Config, me: NodeId, node: NodeId) -> bool
    ensures { result ≡ is_other config.now me node }
{
    u64::from(node.0) < config.nodes() && node.0 != me.0
}
