//! A node of a broadcast group: what it holds, gives, waits for, delivers and decides.
ghost use Rattle.std.specs.Prelude.{◌≡◌, ℕ, ◌<◌, ◌+◌, ◌*◌, false, true, nat_lt, Some, None, option_map, slice_get, if◌then◌else◌, IfOk, IfErr, OnOk, OnErr, ◌↔◌, IsTrue, IsFalse};
ghost use Rattle.std.specs.FinMap as finite;
ghost use Rattle.std.specs.FinSet as set;
ghost use Rattle.cast_model.specs.OwnSteps.{nothing};
ghost use Rattle.cast_model.specs.Steps.{Ordered, Sent, Acknowledged, Arrived, Stopped};
ghost use Rattle.cast_message.specs.declared.event.StepFault.TheVariants.{NoNode, Memory};
ghost use Rattle.cast_message.specs.declared.message.FrameBody.TheVariants.{Carry, Took};
ghost use Rattle.cast_message.specs.declared.message.Item.{Item as Carried};
ghost use Rattle.cast_agree.specs.Counted.{decision};
ghost use Rattle.cast_link.specs.Links.{IsLeastFrom, IsOwedUntil};
ghost use Rattle.cast_link.specs.Taken.{has_room};
ghost use Rattle.cast_node.specs.Giving.{OwesNoneOf};
ghost use Rattle.cast_node.specs.Outgoing.{links_of, HasRoomFor};
ghost use Rattle.cast_node.specs.Delivering.{first_members};
ghost use Rattle.cast_node.specs.Sound.{with_proposal, without_proposal};
ghost use Rattle.cast_node.specs.Kept.{nothing_kept, link_to, knowers_of, holds};
ghost use Rattle.cast_node.specs.Turns.{Gives, kept_fault, carry_of, took_of, message_owed, ordered, arrived_body, may_want};
ghost use Rattle.cast_node.specs.Calls.{is_peer, may_carry, carry_slot, carried_frame, took_frame, ordered_reply, asked_reply, sent_reply, number_reply, numbered_reply, arrived_reply, silent_reply, crashed_reply};

mod faults;
mod settling;

use crate::deliveries::{Deliveries, no_news};
use crate::outgoing::Outgoing;
use cast_link::LinkIn;
use cast_message::{
    Config, Frame, FrameBody, GroupSet, Item, Message, NodeId, NumberSet, Outcome, StepFault,
};
use std::alloc::{AllocError, Global};
use std::marker::Model;

/// The numbers of a frame that carries a message.
#[derive(Clone, Copy)]
pub struct Numbers {
    /// The frame's number among those of its maker.
    pub seq: u64,
    /// The message's sender.
    pub sender: NodeId,
    /// The message's number in the stream of its sender.
    pub number: u64,
}

/// A node of a group.
#[derive(Drop)]
pub struct Node {
    alloc: Global,
    config: Config,
    me: NodeId,
    live: bool,
    // How many frames the node made.
    frames: u64,
    // The items that the node ordered.
    stream: Vec<Item>,
    // Whether the stream has a close.
    closed: bool,
    // The instances in which the node proposed.
    proposed: NumberSet,
    outgoing: Outgoing,
    // What the node took from each peer.
    incoming: Vec<LinkIn>,
    deliveries: Deliveries,
}

impl Model for Node {
    ghost use Rattle.cast_node.specs.Kept.{Kept};
    ghost use Rattle.cast_node.specs.Outgoing.{links_of};
    ghost use Rattle.cast_node.specs.Sound.{IsNode, kept_code, slots_of};
    ghost use Rattle.cast_message.specs.contracts.config.Config as configs;
    ghost use Rattle.cast_message.specs.contracts.message.Item as items;
    ghost use Rattle.cast_message.specs.contracts.message.Message as messages;
    ghost use Rattle.cast_fifo.specs.contracts.waiting.Waiting as waits;

    ghost Value = { Kept };

    ghost coded = { kept_code
        configs.the_row.coded items.the_row.coded messages.the_row.coded waits.the_row.coded };

    ghost view = { λ n. record {
      config = n.config;
      me = n.me;
      live = n.live;
      frames = n.frames;
      stream = n.stream.items;
      outgoing = links_of n.outgoing;
      incoming = slots_of n.incoming.items;
      deliveries = n.deliveries;
    } };

    ghost invariant = { λ n. IsNode n.config n.me n.stream.items n.closed n.proposed
        (links_of n.outgoing) (slots_of n.incoming.items) n.deliveries };
}

impl Node {
    /// The node with this number, which has done nothing. It is refused if there is no such node, or else only if it is
    /// out of memory.
    pub fn new(alloc: Global, config: &Config, id: NodeId) -> Result<Node, StepFault>
        ensures ok { IfOk result (λ node. node ≡ nothing_kept config.now id) }
        ensures refusal { IfErr result (λ refusal.
            refusal ≡ (if nat_lt id config.now.nodes then Memory else NoNode)) }
        ensures place { OnOk result (id < config.now.nodes) }
    {
        if u64::from(id.0) >= config.nodes() {
            return Err(StepFault::NoNode);
        }
        Ok(Node::make(alloc, config, id)?)
    }

    /// Adds an item to the node's stream, and returns its number there, and what is delivered and decided. An order is
    /// refused at a crashed node, after a close, for a payload that is too long, for a second proposal in an instance,
    /// or if the stream is full. Else it is refused only if it is out of memory. The first cause is returned. A refusal
    /// changes nothing.
    pub fn order(&mut self, item: Item) -> Result<(u64, Outcome), StepFault>
        ensures exact { Gives self.old (Ordered item) (ordered_reply result) self.new }
    {
        if let Some(refusal) = self.order_fault(&item) {
            return Err(refusal);
        }
        let told = self.order_asked(item)?;
        Ok(told)
    }

    /// Takes an item as `order` does, if `order_fault` finds no cause to refuse it. It can only be out of memory.
    pub fn order_asked(&mut self, item: Item) -> Result<(u64, Outcome), AllocError>
        requires { kept_fault self.old (Ordered item) ≡ None }
        ensures exact { Gives self.old (Ordered item) (asked_reply result) self.new }
    {
        let number = self.stream.len() as u64;
        let outcome = self.take_own(item)?;
        Ok((number, outcome))
    }

    /// Makes a frame as `send_numbers` does, with the message in it. It can also be out of memory.
    pub fn send(&mut self, to: NodeId, slot: u64) -> Result<Frame, StepFault>
        ensures exact { Gives self.old (Sent to slot) (sent_reply result) self.new }
        ensures frame { IfOk result (λ frame. frame ≡ carry_of self.old to slot) }
    {
        let message = self.message_to_send(to, slot)?.copy()?;
        let Numbers { seq, .. } = self.send_numbers(to, slot)?;
        Ok(self.frame(seq, to, FrameBody::Carry { slot, message }))
    }

    /// Makes a frame as `ack_number` does, and returns it. It allocates nothing.
    pub fn ack(&mut self, to: NodeId, slot: u64) -> Result<Frame, StepFault>
        ensures exact { Gives self.old (Acknowledged to slot) (sent_reply result) self.new }
        ensures frame { IfOk result (λ frame. frame ≡ took_of self.old to slot) }
        ensures refused { IfErr result (λ fault.
            kept_fault self.old (Acknowledged to slot) ≡ Some fault) }
    {
        let seq = self.ack_number(to, slot)?;
        Ok(self.frame(seq, to, FrameBody::Took { slot }))
    }

    /// Makes a frame that carries the message in a slot to a peer, and returns its numbers, for a caller that knows the
    /// items of each stream. It is refused if the peer is no node, or this node, or if this node has crashed. It is
    /// also refused if the slot was not given, or was acknowledged, or if the node has made all its frames. It
    /// allocates nothing. A refusal changes nothing.
    pub fn send_numbers(&mut self, to: NodeId, slot: u64) -> Result<Numbers, StepFault>
        ensures exact { Gives self.old (Sent to slot) (numbered_reply result) self.new }
        ensures message { IfOk result (λ sent.
            (sent.sender ≡ (message_owed self.old to slot).sender)
            × (sent.number ≡ (message_owed self.old to slot).number)) }
        ensures small { IfOk result (λ sent. sent.number < 4096) }
        ensures refused { IfErr result (λ fault. kept_fault self.old (Sent to slot) ≡ Some fault) }
    {
        let message = self.message_to_send(to, slot)?;
        let sender = message.sender;
        let number = message.number;
        let seq = self.count_frame();
        Ok(Numbers {
            seq,
            sender,
            number,
        })
    }

    /// Makes a frame that tells a peer that the node took a slot, and returns the frame's number. It is refused if the
    /// peer is no node, or this node, or if this node has crashed. It is also refused if this node did not take the
    /// slot, or has made all its frames. It allocates nothing. A refusal changes nothing.
    pub fn ack_number(&mut self, to: NodeId, slot: u64) -> Result<u64, StepFault>
        ensures exact { Gives self.old (Acknowledged to slot) (number_reply result) self.new }
        ensures refused { IfErr result (λ fault.
            kept_fault self.old (Acknowledged to slot) ≡ Some fault) }
    {
        if let Some(refusal) = self.ack_fault(to, slot) {
            return Err(refusal);
        }
        Ok(self.count_frame())
    }

    /// Takes a frame that arrives for this node, and returns what is delivered and decided. It is refused if the node
    /// has crashed, and else only if it is out of memory. A refusal changes nothing. A live node never refuses a frame
    /// that no node of the group could have made; such a frame changes nothing. The same holds for the acknowledgement
    /// of a slot that is not owed, such as a second one.
    #[tactic(auto, using(std::proofs::lemmas::Bool::Decides::nat_tests), unfolding(cast_model::specs::Refusals::first_fault, crate::specs::Turns::kept_fault))]
    pub fn arrive(&mut self, frame: &Frame) -> Result<Outcome, StepFault>
        requires { frame.now.to ≡ self.old.me }
        ensures exact { Gives self.old (Arrived frame.now)
            (arrived_reply self.old.me result) self.new }
        ensures wants { OnErr result
            (self.old.live ≡ true → may_want self.old frame.now ≡ true) }
    {
        if !self.live {
            return Err(StepFault::Crashed);
        }
        if !self.may_arrive(frame) {
            return Ok(no_news(self.alloc));
        }
        let outcome = match &frame.body {
            FrameBody::Carry { slot, message } => self.take_carried(frame.from, *slot, message)?,
            FrameBody::Took { slot } => self.take_acknowledged(frame.from, *slot)?,
        };
        Ok(outcome)
    }

    /// Takes a frame from a peer with a message that the node holds, by its numbers, as `arrive` does whatever the
    /// message's item. Returns whether it did so without a delivery or decision. It may always return `false`: then
    /// nothing changed, and `arrive` takes the frame. It returns `true` if there is memory, and the pair had its turn
    /// or too few nodes are known to hold it.
    #[inline(always)]
    #[tactic(auto, using(std::proofs::lemmas::Bool::Decides::nat_tests), unfolding(cast_model::specs::Refusals::first_fault, crate::specs::Turns::kept_fault))]
    pub fn arrive_again_silently(
        &mut self,
        from: NodeId,
        slot: u64,
        sender: NodeId,
        number: u64,
    ) -> bool
        requires { holds self.old sender number ≡ true }
        ensures took { IsTrue result → (seq : ℕ) (item : Carried) → Gives self.old
            (Arrived (carried_frame self.old.me from seq slot sender number item))
            (silent_reply self.old.me) self.new }
        ensures not { IsFalse result → self.new ≡ self.old }
    {
        if !self.live {
            return false;
        }
        if !self.is_peer(from) || !self.may_carry(slot, sender, number) {
            return true;
        }
        self.take_again_silently(from, slot, sender, number)
    }

    /// Takes a peer's acknowledgement of a slot, as `arrive` does. Returns whether it did so without a delivery or
    /// decision. It may always return `false`, as `arrive_again_silently` may.
    #[tactic(auto, using(std::proofs::lemmas::Bool::Decides::nat_tests), unfolding(cast_model::specs::Refusals::first_fault, crate::specs::Turns::kept_fault))]
    pub fn arrive_took_silently(&mut self, from: NodeId, slot: u64) -> bool
        ensures took { IsTrue result → (seq : ℕ) → Gives self.old
            (Arrived (took_frame self.old.me from seq slot))
            (silent_reply self.old.me) self.new }
        ensures not { IsFalse result → self.new ≡ self.old }
    {
        if !self.live {
            return false;
        }
        if !self.is_peer(from) || slot >= self.outgoing.given(from) {
            return true;
        }
        self.take_acknowledged_silently(from, slot)
    }

    /// Stops for good. A second crash is refused.
    #[tactic(auto, using(std::proofs::lemmas::Bool::Decides::nat_tests), unfolding(cast_model::specs::Refusals::first_fault, crate::specs::Turns::kept_fault))]
    pub fn crash(&mut self) -> Result<(), StepFault>
        ensures exact { Gives self.old Stopped (crashed_reply result) self.new }
        ensures refused { OnErr result (self.old.live ≡ false) }
    {
        if !self.live {
            return Err(StepFault::Crashed);
        }
        self.live = false;
        Ok(())
    }

    /// The node's number.
    pub fn id(&self) -> NodeId
        ensures { result ≡ self.now.me }
    {
        self.me
    }

    /// Whether the node has not crashed.
    pub fn live(&self) -> bool
        ensures { result ≡ self.now.live }
    {
        self.live
    }

    /// How many frames the node made.
    pub fn frames(&self) -> u64
        ensures { result ≡ self.now.frames }
    {
        self.frames
    }

    /// The items that the node ordered, in order.
    pub fn stream(&self) -> &[Item]
        ensures { result.now ≡ self.now.stream }
    {
        self.stream.as_slice()
    }

    /// The items that the node delivered from a sender, in order, if the sender is a node.
    pub fn delivered(&self, sender: NodeId) -> Option<&[Item]>
        ensures { option_map (λ items. items.now) result ≡ slice_get self.now.deliveries.delivered sender }
    {
        self.deliveries.delivered(sender)
    }

    /// The value that the node decided in an instance, if it did.
    pub fn decision(&self, instance: u64) -> Option<u64>
        ensures { result ≡ decision self.now.deliveries.agree instance }
    {
        self.deliveries.decision(instance)
    }

    /// How many slots the node owes a peer, if that is another node.
    pub fn owed(&self, to: NodeId) -> Option<u64>
        ensures { result
            ≡ (if is_peer self.now to then Some (finite.len (link_to self.now to).owed) else None) }
    {
        if !self.is_peer(to) {
            return None;
        }
        Some(self.outgoing.owed(to))
    }

    /// The least slot, `from` or above, that the node owes a peer, if there is one and the peer is another node.
    pub fn least_owed(&self, to: NodeId, from: u64) -> Option<u64>
        ensures peer { is_peer self.now to ≡ true →
            IsLeastFrom (link_to self.now to).owed from result }
        ensures none { is_peer self.now to ≡ false → result ≡ None }
    {
        if !self.is_peer(to) {
            return None;
        }
        self.outgoing.least_owed(to, from)
    }

    /// The slot up to which the node owes a peer, which is another node, all slots from `from` on.
    pub fn owed_until(&self, to: NodeId, from: u64) -> u64
        requires { is_peer self.now to ≡ true }
        ensures { IsOwedUntil (link_to self.now to).owed from result }
    {
        self.outgoing.owed_until(to, from)
    }

    /// Whether the node owes one of these peers a slot. It looks at no link, and allocates nothing.
    pub fn owes_one_of(&self, peers: &GroupSet) -> bool
        ensures { IsFalse result ↔ OwesNoneOf self.now.outgoing peers.now }
    {
        self.outgoing.owes_one_of(peers)
    }

    /// Whether the node holds a pair. It allocates nothing.
    pub fn holds(&self, sender: NodeId, number: u64) -> bool
        ensures { result ≡ holds self.now sender number }
    {
        u64::from(sender.0) < self.config.nodes() && self.deliveries.holds(sender, number)
    }

    /// How many nodes are known to hold a pair: none if this node doesn't hold it itself.
    pub fn known_by(&self, sender: NodeId, number: u64) -> u64
        ensures { result ≡ set.len (knowers_of self.now sender number) }
    {
        if u64::from(sender.0) >= self.config.nodes() {
            return 0;
        }
        self.deliveries.knowers(sender, number).len()
    }

    // Takes a slot of a peer, with its message.
    fn take_carried(
        &mut self,
        from: NodeId,
        slot: u64,
        message: &Message,
    ) -> Result<Outcome, AllocError>
        requires from { from < self.old.config.nodes }
        requires fits { may_carry self.old slot message.now.sender message.now.number ≡ true }
        ensures outcome { IfOk result (λ outcome.
            outcome ≡ (arrived_body self.old from (Carry slot message.now)).outcome) }
        ensures ok { OnOk result (self.new
            ≡ (arrived_body self.old from (Carry slot message.now)).kept) }
        ensures err { OnErr result (self.new ≡ self.old) }
    {
        if self.deliveries.holds(message.sender, message.number) {
            return self.take_again(from, slot, message.sender, message.number);
        }
        let fresh = message.copy()?;
        let given = message.copy()?;
        let members = first_members(self.me, fresh.sender, from);
        let link = &mut self.incoming[usize::from(from.0)];
        make_room(link, slot, &mut self.outgoing)?;
        let outcome = self.deliveries.take_up(&self.config, fresh, members)?;
        self.outgoing.give(self.me, from, given);
        link.take_reserved(slot);
        Ok(outcome)
    }

    // Takes a slot of a peer; the node holds its message.
    fn take_again(
        &mut self,
        from: NodeId,
        slot: u64,
        sender: NodeId,
        number: u64,
    ) -> Result<Outcome, AllocError>
        requires from { from < self.old.config.nodes }
        requires fits { may_carry self.old slot sender number ≡ true }
        requires held { holds self.old sender number ≡ true }
        ensures outcome { (item : Carried) → IfOk result (λ outcome. outcome
            ≡ (arrived_body self.old from (carry_slot slot sender number item)).outcome) }
        ensures ok { (item : Carried) → OnOk result (self.new
            ≡ (arrived_body self.old from (carry_slot slot sender number item)).kept) }
        ensures err { OnErr result (self.new ≡ self.old) }
    {
        let link = &mut self.incoming[usize::from(from.0)];
        link.reserve(slot)?;
        let holders = self.deliveries.knowers_with(sender, number, from);
        let outcome = self.deliveries.tell(&self.config, sender, number, holders)?;
        link.take_reserved(slot);
        Ok(outcome)
    }

    // Takes a peer's acknowledgement of a slot.
    fn take_acknowledged(&mut self, from: NodeId, slot: u64) -> Result<Outcome, AllocError>
        requires { from < self.old.config.nodes }
        ensures outcome { IfOk result (λ outcome.
            outcome ≡ (arrived_body self.old from (Took slot)).outcome) }
        ensures ok { OnOk result (self.new ≡ (arrived_body self.old from (Took slot)).kept) }
        ensures err { OnErr result (self.new ≡ self.old) }
        ensures wants { OnErr result
            (finite.contains_key (link_to self.old from).owed slot ≡ true) }
    {
        let Some(message) = self.outgoing.message(from, slot) else {
            return Ok(no_news(self.alloc));
        };
        let sender = message.sender;
        let number = message.number;
        let knowers = self.deliveries.knowers_with(sender, number, from);
        let outcome = self.deliveries.tell(&self.config, sender, number, knowers)?;
        self.outgoing.acknowledge(from, slot);
        Ok(outcome)
    }

    // The same as `take_again`, if it delivers nothing.
    #[inline(always)]
    fn take_again_silently(&mut self, from: NodeId, slot: u64, sender: NodeId, number: u64) -> bool
        requires from { from < self.old.config.nodes }
        requires fits { may_carry self.old slot sender number ≡ true }
        requires held { holds self.old sender number ≡ true }
        ensures outcome { (item : Carried) → IsTrue result →
            (arrived_body self.old from (carry_slot slot sender number item)).outcome ≡ nothing }
        ensures took { (item : Carried) → IsTrue result → self.new
            ≡ (arrived_body self.old from (carry_slot slot sender number item)).kept }
        ensures not { IsFalse result → self.new ≡ self.old }
    {
        let knowers = self.deliveries.knowers_with(sender, number, from);
        let link = &mut self.incoming[usize::from(from.0)];
        if link.reserve(slot).is_err() {
            return false;
        }
        if !self
            .deliveries
            .tell_silently(&self.config, sender, number, &knowers)
        {
            return false;
        }
        link.take_reserved(slot);
        true
    }

    // The same as `take_acknowledged`, if it delivers nothing.
    fn take_acknowledged_silently(&mut self, from: NodeId, slot: u64) -> bool
        requires { from < self.old.config.nodes }
        ensures outcome { IsTrue result →
            (arrived_body self.old from (Took slot)).outcome ≡ nothing }
        ensures took { IsTrue result → self.new ≡ (arrived_body self.old from (Took slot)).kept }
        ensures not { IsFalse result → self.new ≡ self.old }
    {
        let Some(message) = self.outgoing.message(from, slot) else {
            return true;
        };
        let sender = message.sender;
        let number = message.number;
        let knowers = self.deliveries.knowers_with(sender, number, from);
        if !self
            .deliveries
            .tell_silently(&self.config, sender, number, &knowers)
        {
            return false;
        }
        self.outgoing.acknowledge(from, slot);
        true
    }

    // The node with this number, which has done nothing.
    fn make(alloc: Global, config: &Config, id: NodeId) -> Result<Node, AllocError>
        requires { id < config.now.nodes }
        ensures { IfOk result (λ node. node ≡ nothing_kept config.now id) }
    {
        let mut incoming = Vec::new(alloc);
        for _peer in 0..config.nodes() {
            incoming.push(LinkIn::new(alloc))?;
        }
        Ok(Node {
            alloc,
            config: *config,
            me: id,
            live: true,
            frames: 0,
            stream: Vec::new(alloc),
            closed: false,
            proposed: NumberSet::new(alloc),
            outgoing: Outgoing::new(alloc, config.nodes())?,
            incoming,
            deliveries: Deliveries::new(alloc, config)?,
        })
    }

    // Counts one more frame, and returns its number.
    fn count_frame(&mut self) -> u64
        requires { self.old.frames < 1048576 }
        ensures number { result ≡ self.old.frames }
        ensures after { self.new ≡ record self.old { frames = self.old.frames + 1 } }
    {
        let seq = self.frames;
        self.frames += 1;
        seq
    }

    fn frame(&self, seq: u64, to: NodeId, body: FrameBody) -> Frame
        ensures { result ≡ record { from = self.now.me; seq = seq; to = to; body = body } }
    {
        Frame {
            from: self.me,
            seq,
            to,
            body,
        }
    }

    // Adds an item, which is not refused, to the node's stream. A proposal may be in any instance, so no room can be
    // made ahead for noting it. If memory runs out after the note, the note is removed.
    fn take_own(&mut self, item: Item) -> Result<Outcome, AllocError>
        requires { kept_fault self.old (Ordered item) ≡ None }
        ensures outcome { IfOk result (λ outcome. outcome ≡ (ordered self.old item).outcome) }
        ensures ok { OnOk result (self.new ≡ (ordered self.old item).kept) }
        ensures err { OnErr result (self.new ≡ self.old) }
    {
        let me = self.me;
        let number = self.stream.len() as u64;
        let kept = item.copy()?;
        let given = Message {
            sender: me,
            number,
            item: item.copy()?,
        };
        self.stream.reserve(1)?;
        self.outgoing.reserve()?;
        propose(&mut self.proposed, &kept)?;
        let message = Message {
            sender: me,
            number,
            item,
        };
        match self
            .deliveries
            .take_up(&self.config, message, first_members(me, me, me))
        {
            Ok(outcome) => {
                self.outgoing.give(me, me, given);
                self.closed = kept.is_close();
                self.stream.push_reserved(kept);
                Ok(outcome)
            }
            Err(refused) => {
                withdraw(&mut self.proposed, kept);
                Err(refused)
            }
        }
    }
}

// Makes room for a slot of a peer, and for a message that goes on.
fn make_room(link: &mut LinkIn, slot: u64, outgoing: &mut Outgoing) -> Result<(), AllocError>
    requires { slot < 262144 }
    ensures slots { link.new.slots ≡ link.old.slots }
    ensures links { links_of outgoing.new ≡ links_of outgoing.old }
    ensures room { OnOk result
        ((has_room link.new slot ≡ true) × HasRoomFor outgoing.new) }
{
    link.reserve(slot)?;
    outgoing.reserve()
}

// The nodes known to hold a message when the node `me` first holds it: `me`, the sender, and the node it came from.
fn first_members(me: NodeId, sender: NodeId, source: NodeId) -> GroupSet
    requires me { me < 64 }
    requires sender { sender < 64 }
    requires source { source < 64 }
    ensures { result ≡ first_members me sender source }
{
    let mut members = GroupSet::new();
    members.insert(me);
    members.insert(sender);
    members.insert(source);
    members
}

// Notes the instance of a proposal.
fn propose(proposed: &mut NumberSet, item: &Item) -> Result<(), AllocError>
    ensures ok { OnOk result (proposed.new ≡ with_proposal proposed.old item.now) }
    ensures err { OnErr result (proposed.new ≡ proposed.old) }
{
    if let Item::Propose { instance, .. } = item {
        proposed.insert(*instance)?;
    }
    Ok(())
}

// Removes that note.
fn withdraw(proposed: &mut NumberSet, item: Item)
    ensures { proposed.new ≡ without_proposal proposed.old item }
{
    if let Item::Propose { instance, .. } = item {
        proposed.remove(instance);
    }
}
