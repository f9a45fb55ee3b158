//! What may happen next: why the group would refuse an event, and the events that change something.
ghost use Rattle.std.specs.Prelude.{◌≡◌, ◌⊎◌, ◌<◌, ◌++◌, ◌∷◌, [], IfOk, OnOk, length, slice_get};
ghost use Rattle.std.specs.List.{filter, flat_map};
ghost use Rattle.cast_model.specs.History.{frames};
ghost use Rattle.cast_model.specs.Replies.{fault};
ghost use Rattle.cast_model.specs.Rounds.{Rest, due};
ghost use Rattle.cast_world.specs.Group.{StandingFor};
ghost use Rattle.cast_world.specs.Moves.{actor_of};
ghost use Rattle.cast_world.specs.Offers.{is_possible, makings, is_untaken, is_owed, brings_news, arrivals_new, enabled, HasFullNode};

use crate::due_slots::DueSlot;
use crate::frames;
use crate::world::World;
use cast_message::{Event, NodeId, StepFault};
use std::alloc::AllocError;

impl World {
    /// Why the group would refuse this event now, if it would, unless it is out of memory. It takes no memory.
    pub fn fault(&self, event: &Event) -> Option<StepFault>
        ensures { StandingFor self.now (λ config past. result ≡ fault config past event.now) }
    {
        let Some(node) = self.node(actor(event)) else {
            return Some(StepFault::NoNode);
        };
        match event {
            Event::Order { node: _, item } => node.order_fault(item),
            Event::Send { from: _, to, slot } => node.send_fault(*to, *slot),
            Event::Ack { from: _, to, slot } => node.ack_fault(*to, *slot),
            Event::Arrive { from, seq } => self.arrival_fault(*from, *seq),
            Event::Crash { node: _ } => node.arrive_fault(),
        }
    }

    // Why the arrival of a node's frame would be refused.
    fn arrival_fault(&self, from: NodeId, seq: u64) -> Option<StepFault>
        ensures { StandingFor self.now (λ config past.
            result ≡ fault config past (Event.Arrive from seq)) }
    {
        match self.mark(from, seq) {
            Ok(mark) => self.node_of(mark.to).arrive_fault(),
            Err(refusal) => Some(refusal),
        }
    }

    /// What may happen next, without orders, crashes, and what changes nothing. For each slot that is due, in order, the send of its
    /// message, and its acknowledgement if it was taken. Then, by maker and number, the arrival of each frame whose target is live,
    /// and has not taken the slot that it carries, or still owes the one that it acknowledges. What the group would refuse is left
    /// out. A call looks at every slot that is due and at every frame that was made.
    ///
    /// There is nothing only at rest, or if a live node has made all the frames that it can.
    pub fn events_enabled(&self) -> Result<Vec<Event>, AllocError>
        ensures exact { StandingFor self.now (λ config past.
            IfOk result (λ events. events.items ≡ enabled config past)) }
        ensures rest { StandingFor self.now (λ config past. IfOk result (λ events.
            events.items ≡ [] → Rest config past ⊎ HasFullNode config past)) }
    {
        let mut events = Vec::new(self.allocator());
        self.offer_frames(&mut events)?;
        for from in 0..self.node_count() {
            self.offer_arrivals(NodeId(from), &mut events)?;
        }
        Ok(events)
    }

    // The frames for slots that are due.
    fn offer_frames(&self, events: &mut Vec<Event>) -> Result<(), AllocError>
        ensures { StandingFor self.now (λ config past. OnOk result (events.new.items
            ≡ events.old.items ++ filter (is_possible config past) (flat_map makings (due config past)))) }
    {
        let mut due = self.due()?;
        'slots: while let Some(next) = due.pop_front() {
            let DueSlot { from, to, slot } = next;
            self.offer(Event::Send { from, to, slot }, events)?;
            self.offer(
                Event::Ack {
                    from: to,
                    to: from,
                    slot,
                },
                events,
            )?;
        }
        Ok(())
    }

    // The arrivals of a node's frames that change something.
    fn offer_arrivals(&self, from: NodeId, events: &mut Vec<Event>) -> Result<(), AllocError>
        ensures { StandingFor self.now (λ config past. OnOk result (events.new.items
            ≡ events.old.items ++ filter (is_possible config past) (arrivals_new past from))) }
    {
        for seq in 0..self.frame_count(from) {
            if self.brings_news(from, seq) {
                self.offer(Event::Arrive { from, seq }, events)?;
            }
        }
        Ok(())
    }

    // Appends an event, if it is possible.
    fn offer(&self, event: Event, events: &mut Vec<Event>) -> Result<(), AllocError>
        ensures { StandingFor self.now (λ config past. OnOk result (events.new.items
            ≡ events.old.items ++ filter (is_possible config past) (event ∷ []))) }
    {
        if self.fault(&event).is_some() {
            return Ok(());
        }
        events.push(event)?;
        Ok(())
    }

    // Whether a frame's target lives, and the slot is not yet taken or, for an acknowledgement, still owed.
    fn brings_news(&self, from: NodeId, seq: u64) -> bool
        ensures { StandingFor self.now (λ config past.
            result ≡ brings_news past from (slice_get (frames past from) seq)) }
    {
        let Ok(mark) = self.mark(from, seq) else {
            return false;
        };
        let target = self.node_of(mark.to);
        let slot = u64::from(mark.slot);
        if frames::is_acknowledgement(&mark) {
            return is_owed(target.send_fault(from, slot));
        }
        is_untaken(target.ack_fault(from, slot))
    }
}

// The node that an event names first: it takes the step, or made the frame.
fn actor(event: &Event) -> NodeId
    ensures { result ≡ actor_of event.now }
{
    match event {
        Event::Order { node, .. } | Event::Crash { node } => *node,
        Event::Send { from, .. } | Event::Ack { from, .. } | Event::Arrive { from, .. } => *from,
    }
}

// Whether a slot is owed, given why its send would be refused.
fn is_owed(refusal: Option<StepFault>) -> bool
    ensures { result ≡ is_owed refusal }
{
    matches!(refusal, None | Some(StepFault::FramesFull))
}

// Whether a slot was not taken, given why its acknowledgement would be refused.
fn is_untaken(refusal: Option<StepFault>) -> bool
    ensures { result ≡ is_untaken refusal }
{
    matches!(refusal, Some(StepFault::NotTaken))
}
