//! FIFO order (after Hadzilacos and Toueg, TR 94-1425). Messages arrive in any order, and leave in the order of their
//! sender's numbers; a message is held back until its turn. It can be held first and marked later. It then leaves only
//! when its node knows enough about it.
#![tactic(auto)]

ghost use Rattle.std.specs.Prelude.{[], ◌≡◌, ◌≢◌, ◌+◌, ◌<◌, ◌≤◌, ◌^◌, ◌++◌, true, length, replicate, slice_set, vec_len, vec_capacity, nat_lt, IsTrue, IsSome, IfOk, OnOk, OnErr};
ghost use Rattle.std.specs.Option.{option_copied};
ghost use Rattle.cast_model.specs.History.{numbered};
ghost use Rattle.cast_fifo.specs.HeldBack.{nothing_held, held_of, came, heard_items, heard_after, known_items, known_after};
ghost use Rattle.cast_fifo.specs.Calls.{Hold, Known, Offer, held_after, answer, GivesInOrder};

mod far;
mod queue;
mod ring;
mod waiting;

use cast_message::{Item, Message, NodeId};
use queue::Queue;
use std::alloc::{AllocError, Global};
use std::marker::Model;

/// What is held back, by sender.
#[derive(Drop)]
pub struct HoldBack {
    alloc: Global,
    senders: Vec<Queue>,
}

impl Model for HoldBack {
    ghost use Rattle.std.specs.Prelude.{List};
    ghost use Rattle.cast_fifo.specs.HeldBack.{HeldBack};

    ghost Value = { List HeldBack };

    ghost view = { λ h. h.senders.items };
}

impl HoldBack {
    /// A hold-back for as many senders as given. It holds nothing.
    pub fn new(alloc: Global, nodes: u64) -> Result<HoldBack, AllocError>
        ensures { IfOk result (λ h. h ≡ replicate nodes nothing_held) }
    {
        let mut senders = Vec::new(alloc);
        for _sender in 0..nodes {
            senders.push(Queue::new(alloc))?;
        }
        Ok(HoldBack { alloc, senders })
    }

    /// The sender's next number: the least that was neither offered nor both held and marked. The sender is below the
    /// number of nodes. It allocates nothing.
    pub fn next(&self, sender: NodeId) -> u64
        requires { sender < length self.now }
        ensures { result ≡ (held_of self.now sender).next }
    {
        self.senders[usize::from(sender.0)].next()
    }

    /// Whether a Close of the sender had its turn. The sender is below the number of nodes. It allocates nothing.
    pub fn closed(&self, sender: NodeId) -> bool
        requires { sender < length self.now }
        ensures { result ≡ (held_of self.now sender).closed }
    {
        self.senders[usize::from(sender.0)].closed()
    }

    /// Keeps a message; if two have the same pair, the first counts. The sender is below the number of nodes, and the
    /// number below `u64::MAX`.
    pub fn hold(&mut self, message: Message) -> Result<(), AllocError>
        requires sender { message.sender < length self.old }
        requires number { message.number + 1 < 2 ^ 64 }
        ensures ok { OnOk result (self.new ≡ held_after self.old (Hold message)) }
        ensures err { OnErr result (self.new ≡ self.old) }
    {
        let Message {
            sender,
            number,
            item,
        } = message;
        self.senders[usize::from(sender.0)].hold(number, item)?;
        Ok(())
    }

    /// Marks a pair that was held or offered, and returns the messages whose turn has come, in order. The sender is
    /// below the number of nodes.
    pub fn known(&mut self, sender: NodeId, number: u64) -> Result<Vec<Message>, AllocError>
        requires sender { sender < length self.old }
        requires came { came (held_of self.old sender) number ≡ true }
        ensures messages { IfOk result (λ messages.
            messages.items ≡ answer self.old (Known sender number)) }
        ensures ok { OnOk result (self.new ≡ held_after self.old (Known sender number)) }
        ensures err { OnErr result (self.new ≡ self.old) }
    {
        self.turn(sender, number, None)
    }

    /// Keeps a message, marks its pair, and returns the messages whose turn has come, in order: none if the pair was
    /// offered before. The sender is below the number of nodes, and the number below `u64::MAX`.
    pub fn offer(&mut self, message: Message) -> Result<Vec<Message>, AllocError>
        requires sender { message.sender < length self.old }
        requires number { message.number + 1 < 2 ^ 64 }
        ensures messages { IfOk result (λ messages.
            messages.items ≡ answer self.old (Offer message)) }
        ensures ok { OnOk result (self.new ≡ held_after self.old (Offer message)) }
        ensures err { OnErr result (self.new ≡ self.old) }
        ensures other { message.number ≢ (held_of self.old message.sender).next →
            IfOk result (λ messages. messages.items ≡ []) }
    {
        let Message {
            sender,
            number,
            item,
        } = message;
        if number == self.next(sender) {
            return self.turn(sender, number, Some(item));
        }
        let queue = &mut self.senders[usize::from(sender.0)];
        queue.hold(number, item)?;
        queue.mark(number, &mut Vec::new(self.alloc));
        Ok(Vec::new(self.alloc))
    }

    /// Whether a pair was held or offered. The sender is below the number of nodes. It allocates nothing.
    pub fn came(&self, sender: NodeId, number: u64) -> bool
        requires { sender < length self.now }
        ensures { result ≡ came (held_of self.now sender) number }
    {
        self.senders[usize::from(sender.0)].came(number)
    }

    /// Whether a pair had its turn, so that marking it changes nothing. The sender is below the number of nodes. It
    /// allocates nothing.
    pub fn had_turn(&self, sender: NodeId, number: u64) -> bool
        requires { sender < length self.now }
        ensures test { result ≡ nat_lt number (held_of self.now sender).next }
        ensures nothing { IsTrue result → known_items (held_of self.now sender) number ≡ [] }
        ensures same { IsTrue result →
            known_after (held_of self.now sender) number ≡ held_of self.now sender }
    {
        self.senders[usize::from(sender.0)].had_turn(number)
    }

    /// Copies of the messages whose turn comes if the pair is marked, or if this item is offered for it. An item is
    /// offered only for the sender's next number. The sender is below the number of nodes.
    pub fn ready(
        &self,
        sender: NodeId,
        number: u64,
        offered: Option<&Item>,
    ) -> Result<Vec<Message>, AllocError>
        requires sender { sender < length self.now }
        requires offered { IsSome offered → number ≡ (held_of self.now sender).next }
        ensures messages { IfOk result (λ messages. messages.items
            ≡ numbered sender (held_of self.now sender).next
            (heard_items (held_of self.now sender) number (option_copied offered.entry))) }
    {
        self.senders[usize::from(sender.0)].ready(self.alloc, sender, number, offered)
    }

    /// Marks a pair, or takes the item offered for the next one, and appends the items whose turn has come to `items`,
    /// which has room for them. The sender is below the number of nodes. It allocates nothing.
    pub fn release(
        &mut self,
        sender: NodeId,
        number: u64,
        offered: Option<Item>,
        items: &mut Vec<Item>,
    )
        requires sender { sender < length self.old }
        requires number { IsSome offered → number + 1 < 2 ^ 64 }
        requires offered { IsSome offered → number ≡ (held_of self.old sender).next }
        requires room { vec_len items.old
            + length (heard_items (held_of self.old sender) number offered) ≤ vec_capacity items.old }
        ensures items { items.new.items
            ≡ items.old.items ++ heard_items (held_of self.old sender) number offered }
        ensures after { self.new
            ≡ slice_set self.old sender (heard_after (held_of self.old sender) number offered) }
    {
        self.senders[usize::from(sender.0)].release(number, offered, items);
    }

    // Returns the messages that are ready, and releases them.
    fn turn(
        &mut self,
        sender: NodeId,
        number: u64,
        offered: Option<Item>,
    ) -> Result<Vec<Message>, AllocError>
        requires sender { sender < length self.old }
        requires number { IsSome offered → number + 1 < 2 ^ 64 }
        requires offered { IsSome offered → number ≡ (held_of self.old sender).next }
        ensures messages { IfOk result (λ messages. messages.items
            ≡ numbered sender (held_of self.old sender).next
            (heard_items (held_of self.old sender) number offered)) }
        ensures ok { OnOk result (self.new
            ≡ slice_set self.old sender (heard_after (held_of self.old sender) number offered)) }
        ensures err { OnErr result (self.new ≡ self.old) }
    {
        let messages = self.ready(sender, number, offered.as_ref())?;
        let mut items = Vec::with_capacity(self.alloc, messages.len())?;
        self.release(sender, number, offered, &mut items);
        Ok(messages)
    }
}

/// A law of every list of calls of `hold`, `known` and `offer`. `next` is the least number that was neither offered nor
/// both held and marked. `closed` says whether a Close is among the messages before it. Each call returns the messages
/// from `next` before it up to `next` after it. Of two messages with the same pair, the first counts.
pub fn gives_in_order()
    ensures { GivesInOrder }
{}
