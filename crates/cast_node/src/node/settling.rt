//! How a node settles a slot, as the giver or the taker, if nothing is delivered or decided by it.
ghost use Rattle.std.specs.Prelude.{◌≡◌, ◌<◌, true, IsTrue, IsFalse, IfSome};
ghost use Rattle.cast_node.specs.Settling.{MaySettle, SettlesGiven, SettlesTaken};

use super::{Node, Numbers};
use cast_message::{FRAME_LIMIT, NodeId};

impl Node {
    /// The numbers of the frame that `send_numbers` would make for a slot, if `settle_given` can settle the slot. It may
    /// always return `None`. It allocates nothing.
    #[inline(always)]
    pub fn may_settle(&self, to: NodeId, slot: u64) -> Option<Numbers>
        ensures may { IfSome result (λ sent. MaySettle self.now to slot sent.sender sent.number) }
        ensures small { IfSome result (λ sent. sent.number < 4096) }
    {
        let Ok(message) = self.message_to_send(to, slot) else {
            return None;
        };
        let sender = message.sender;
        let number = message.number;
        if !self.deliveries.is_quiet(sender, number) {
            return None;
        }
        Some(Numbers {
            seq: self.frames,
            sender,
            number,
        })
    }

    /// Makes the frame that sends a slot to a peer, as `send_numbers` does, and takes the peer's acknowledgement of the
    /// slot, as `arrive` does. Nothing is delivered or decided by it. It allocates nothing.
    #[inline(always)]
    pub fn settle_given(&mut self, to: NodeId, slot: u64, sent: &Numbers)
        requires { MaySettle self.old to slot sent.now.sender sent.now.number }
        ensures { SettlesGiven self.old to slot self.new }
    {
        self.deliveries.add_knower(sent.sender, sent.number, to);
        self.outgoing.acknowledge(to, slot);
        self.frames += 1;
    }

    /// Takes a slot of a peer with a message that the node holds, by its numbers, as `arrive_again_silently` does, and
    /// acknowledges it, as `ack_number` does. Returns whether it did both. It may always return `false`: then nothing
    /// changed.
    #[inline(always)]
    pub fn settle_taken(&mut self, from: NodeId, slot: u64, sender: NodeId, number: u64) -> bool
        ensures took { IsTrue result → SettlesTaken self.old from slot sender number self.new }
        ensures small { IsTrue result → sender < 64 }
        ensures not { IsFalse result → self.new ≡ self.old }
    {
        if !self.live || self.frames >= FRAME_LIMIT || !self.is_peer(from) {
            return false;
        }
        if !self.may_carry(slot, sender, number) || !self.deliveries.is_quiet(sender, number) {
            return false;
        }
        let link = &mut self.incoming[usize::from(from.0)];
        if link.reserve(slot).is_err() {
            return false;
        }
        link.take_reserved(slot);
        self.deliveries.add_knower(sender, number, from);
        self.frames += 1;
        true
    }
}
