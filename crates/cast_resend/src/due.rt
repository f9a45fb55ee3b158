//! The slots that are due to one peer.
ghost use Rattle.std.specs.Prelude.{◌≡◌, ◌+◌, ◌-◌, ◌^◌, ◌≤◌, min, nat_lt, true, IsFalse, IfSome, IfNone};
ghost use Rattle.cast_model.specs.Steps.{Arrived};
ghost use Rattle.cast_node.specs.Turns.{kept_after};
ghost use Rattle.cast_resend.specs.Dues.{owes, AreNotOwed, IsFirstDue, NoneFirstDue, IsDue, NoneDue, EndsNotOwed, EndsIn, Drops, AddsAgain, Takes};
ghost use Rattle.cast_resend.specs.Keeps.{OwesLess};

use cast_message::{Frame, FrameBody, NodeId};
use cast_node::Node;

/// What is known about the slots owed to a peer.
#[derive(Drop)]
pub struct Due {
    /// No slot from this one on was sent.
    pub first: u64,
    /// No slot from this one on is known to be acknowledged.
    pub heard: u64,
    /// The slots below `first` that are due again, the least last. Some may have been acknowledged since.
    pub again: Vec<u64>,
}

/// Whether a node owes a peer a slot.
pub fn is_owed(node: &Node, to: NodeId, slot: u64) -> bool
    ensures { result ≡ owes node.now to slot }
{
    node.least_owed(to, slot) == Some(slot)
}

/// Whether the frame has a message that the node does not hold. If not, its arrival gives no peer a slot.
pub fn brings_news(node: &Node, frame: &Frame) -> bool
    ensures { IsFalse result → OwesLess node.now (kept_after node.now (Arrived frame.now)) }
{
    match &frame.body {
        FrameBody::Carry { message, .. } => !node.holds(message.sender, message.number),
        FrameBody::Took { .. } => false,
    }
}

impl Due {
    /// The least slot that is due again, or else the least that was never sent, if the window has room for it. `None`
    /// only if no owed slot is due.
    pub fn next(&mut self, node: &Node, to: NodeId, window: u64) -> Option<u64>
        ensures some { IfSome result (IsDue node.now to window self.new) }
        ensures none { IfNone result (NoneDue node.now to window self.old) }
        ensures same { (self.new.first ≡ self.old.first) × (self.new.heard ≡ self.old.heard) }
        ensures drops { Drops node.now to self.old.again.items self.new.again.items }
    {
        match next_again(&mut self.again, node, to) {
            Some(slot) => Some(slot),
            None => next_first(self.first, self.heard, window, node, to),
        }
    }

    /// Notes that a slot that was sent is due again. There is room for it; if there were none, all slots would count as
    /// never sent.
    pub fn add(&mut self, slot: u64)
        ensures { AddsAgain slot self.old self.new }
    {
        if slot >= self.first {
            return;
        }
        let place = self.again.partition_point(|other| *other > slot);
        if self.again.insert(place, slot).is_err() {
            self.again.clear();
            self.first = 0;
        }
    }

    /// Notes that the slot, which was due, is sent. Returns whether it was sent before.
    pub fn take(&mut self, slot: u64) -> bool
        ensures again { result ≡ nat_lt slot self.old.first }
        ensures heard { self.new.heard ≡ self.old.heard }
        ensures next { self.old.first ≤ slot → self.new.first ≡ min (slot + 1) (2 ^ 64 - 1) }
        ensures takes { Takes slot self.old self.new }
    {
        if slot < self.first {
            self.again.pop();
            return true;
        }
        self.first = slot.saturating_add(1);
        false
    }
}

// The last of these slots that is owed, which is the least. Those after it, which were acknowledged, are dropped.
fn next_again(again: &mut Vec<u64>, node: &Node, to: NodeId) -> Option<u64>
    ensures some { IfSome result (λ slot. EndsIn again.new.items slot × (owes node.now to slot ≡ true)) }
    ensures none { IfNone result (AreNotOwed node.now to again.old.items) }
    ensures drops { Drops node.now to again.old.items again.new.items }
{
    for gone in 0..again.len() {
        if let Some(slot) = last_owed(again.as_slice(), node, to) {
            return Some(slot);
        }
        again.pop();
    }
    None
}

// The last of these slots, if it is owed.
fn last_owed(slots: &[u64], node: &Node, to: NodeId) -> Option<u64>
    ensures some { IfSome result (λ slot. EndsIn slots.now slot × (owes node.now to slot ≡ true)) }
    ensures none { IfNone result (EndsNotOwed node.now to slots.now) }
{
    match slots.last() {
        Some(slot) if is_owed(node, to, *slot) => Some(*slot),
        _ => None,
    }
}

// The least owed slot that was never sent, if the window has room for it.
fn next_first(first: u64, heard: u64, window: u64, node: &Node, to: NodeId) -> Option<u64>
    ensures some { IfSome result (IsFirstDue node.now to window first heard) }
    ensures none { IfNone result (NoneFirstDue node.now to window first heard) }
{
    // (the slot is no smaller than the first)
    if first.saturating_sub(heard) >= window {
        return None;
    }
    let slot = node.least_owed(to, first)?;
    if slot.saturating_sub(heard) < window {
        Some(slot)
    } else {
        None
    }
}
