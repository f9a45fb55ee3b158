//! Why a node refuses a step, unless it is out of memory: the causes in the order in which they are tried. And which frames some node
//! could have made for it.
ghost use Rattle.std.specs.Prelude.{◌≡◌, ◌<◌, ◌∷◌, [], None, Some, IfOk, IfErr, OnOk};
ghost use Rattle.cast_message.specs.declared.message.Frame.{Frame as Arriving};
ghost use Rattle.cast_model.specs.Steps.{Ordered, Sent, Acknowledged, Arrived};
ghost use Rattle.cast_model.specs.Refusals.{no_node, self_link, crashed, first_fault, is_too_long, is_second_proposal};
ghost use Rattle.cast_node.specs.Calls.{is_peer, may_carry};
ghost use Rattle.cast_node.specs.Turns.{kept_fault, kept_view, message_owed, may_arrive};

use super::Node;
use cast_message::{
    FRAME_LIMIT, Frame, FrameBody, Item, Message, NodeId, PAYLOAD_LIMIT, StepFault,
};

impl Node {
    /// Why an order of this item is refused, if it is, memory aside. It takes no memory.
    #[tactic(auto, using(std::proofs::lemmas::Bool::Decides::nat_tests), unfolding(cast_model::specs::Refusals::first_fault, crate::specs::Turns::kept_fault))]
    pub fn order_fault(&self, item: &Item) -> Option<StepFault>
        ensures { result ≡ kept_fault self.now (Ordered item.now) }
    {
        if !self.live {
            return Some(StepFault::Crashed);
        }
        if self.closed {
            return Some(StepFault::Closed);
        }
        if is_too_long(item) {
            return Some(StepFault::TooLong);
        }
        if self.has_proposed(item) {
            return Some(StepFault::AlreadyProposed);
        }
        if !item.is_close() && self.config.item_limit() - 1 <= self.stream.len() as u64 {
            return Some(StepFault::StreamFull);
        }
        None
    }

    /// Why a send of this slot to a peer is refused, if it is, memory aside. It takes no memory.
    pub fn send_fault(&self, to: NodeId, slot: u64) -> Option<StepFault>
        ensures { result ≡ kept_fault self.now (Sent to slot) }
    {
        self.message_to_send(to, slot).err()
    }

    /// Why an acknowledgement of this slot of a peer is refused, if it is, memory aside. It takes no memory.
    #[tactic(auto, using(std::proofs::lemmas::Bool::Decides::nat_tests), unfolding(cast_model::specs::Refusals::first_fault, crate::specs::Turns::kept_fault))]
    pub fn ack_fault(&self, to: NodeId, slot: u64) -> Option<StepFault>
        ensures { result ≡ kept_fault self.now (Acknowledged to slot) }
    {
        if let Some(fault) = self.peer_fault(to) {
            return Some(fault);
        }
        if !self.incoming[usize::from(to.0)].may_ack(slot) {
            return Some(StepFault::NotTaken);
        }
        if self.frames >= FRAME_LIMIT {
            return Some(StepFault::FramesFull);
        }
        None
    }

    /// Why the arrival of a frame is refused, if it is, memory aside. It takes no memory.
    #[tactic(auto, using(std::proofs::lemmas::Bool::Decides::nat_tests), unfolding(cast_model::specs::Refusals::first_fault, crate::specs::Turns::kept_fault))]
    pub fn arrive_fault(&self) -> Option<StepFault>
        ensures { (frame : Arriving) → result ≡ kept_fault self.now (Arrived frame) }
    {
        if self.live {
            return None;
        }
        Some(StepFault::Crashed)
    }

    // The message that a send of this slot to a peer carries, or why it is refused.
    #[tactic(auto, using(std::proofs::lemmas::Bool::Decides::nat_tests), unfolding(cast_model::specs::Refusals::first_fault, crate::specs::Turns::kept_fault))]
    pub(super) fn message_to_send(&self, to: NodeId, slot: u64) -> Result<&Message, StepFault>
        ensures ok { OnOk result (kept_fault self.now (Sent to slot) ≡ None) }
        ensures message { IfOk result (λ message. message.now ≡ message_owed self.now to slot) }
        ensures small { IfOk result (λ message. message.now.number < 4096) }
        ensures err { IfErr result (λ fault. kept_fault self.now (Sent to slot) ≡ Some fault) }
    {
        if let Some(fault) = self.peer_fault(to) {
            return Err(fault);
        }
        if self.outgoing.given(to) <= slot {
            return Err(StepFault::NoSlot);
        }
        let Some(message) = self.outgoing.message(to, slot) else {
            return Err(StepFault::Acked);
        };
        if self.frames >= FRAME_LIMIT {
            return Err(StepFault::FramesFull);
        }
        Ok(message)
    }

    // Why any frame for a peer would be refused, if it would.
    #[tactic(auto, using(std::proofs::lemmas::Bool::Decides::nat_tests), unfolding(cast_model::specs::Refusals::first_fault))]
    fn peer_fault(&self, to: NodeId) -> Option<StepFault>
        ensures { result
            ≡ first_fault (no_node self.now.config to
            ∷ self_link self.now.me to
            ∷ crashed (kept_view self.now)
            ∷ []) }
    {
        if u64::from(to.0) >= self.config.nodes() {
            return Some(StepFault::NoNode);
        }
        if self.me.0 == to.0 {
            return Some(StepFault::SelfLink);
        }
        if !self.live {
            return Some(StepFault::Crashed);
        }
        None
    }

    // Whether an item proposes in an instance for a second time.
    fn has_proposed(&self, item: &Item) -> bool
        ensures { result ≡ is_second_proposal self.now.stream item.now }
    {
        match item {
            Item::Propose { instance, .. } => self.proposed.contains(*instance),
            _ => false,
        }
    }

    // Whether this is the number of another node.
    pub(super) fn is_peer(&self, node: NodeId) -> bool
        ensures { result ≡ is_peer self.now node }
    {
        u64::from(node.0) < self.config.nodes() && node.0 != self.me.0
    }

    // Whether some node of a group could have made the frame for this one.
    #[tactic(auto, using(std::proofs::lemmas::Bool::Decides::nat_tests))]
    pub(super) fn may_arrive(&self, frame: &Frame) -> bool
        ensures { result ≡ may_arrive self.now frame.now }
    {
        if !self.is_peer(frame.from) {
            return false;
        }
        match &frame.body {
            FrameBody::Carry { slot, message } => {
                self.may_carry(*slot, message.sender, message.number)
            }
            FrameBody::Took { slot } => *slot < self.outgoing.given(frame.from),
        }
    }

    // Whether a peer could carry this message in this slot.
    #[tactic(auto, using(std::proofs::lemmas::Bool::Decides::nat_tests))]
    pub(super) fn may_carry(&self, slot: u64, sender: NodeId, number: u64) -> bool
        ensures { result ≡ may_carry self.now slot sender number }
    {
        self.is_peer(sender)
            && number < self.config.item_limit()
            && slot < self.config.nodes() * self.config.item_limit()
    }
}

fn is_too_long(item: &Item) -> bool
    ensures { result ≡ is_too_long item.now }
{
    match item {
        Item::Data(payload) => payload.as_slice().len() > PAYLOAD_LIMIT,
        _ => false,
    }
}
