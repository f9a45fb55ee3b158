//! The pairs of sender and number that a node holds, and where they go on. This is the diffusion of reliable broadcast
//! (after Hadzilacos and Toueg, TR 94-1425). A node sends a message that is new to it to all but its sender and the
//! peer that passed it on.
#![tactic(auto)]

ghost use Rattle.std.specs.Prelude.{◌≡◌, ◌≢◌, ◌+◌, ◌<◌, ◌≤◌, ◌^◌, length, replicate, IfOk, OnOk, OnErr};
ghost use Rattle.std.specs.FinSet as set;
ghost use Rattle.cast_relay.specs.Pairs.{by_sender, holds, with_pair, with_own, goes_on, relays_to};
ghost use Rattle.cast_relay.specs.Answers.{taken_of};

use cast_message::{Item, Message, NodeId, NumberSet};
use std::alloc::{AllocError, Global};
use std::marker::Model;

/// Whether the node held the pair of a message when it arrived.
#[derive(Clone, Copy, PartialEq, Eq)]
pub enum Taken {
    /// It did not, and does from now on.
    New,
    /// It did.
    Known,
}

/// The pairs of sender and number that a node holds.
#[derive(Drop)]
pub struct Relay {
    alloc: Global,
    me: NodeId,
    // How many messages are the node's own.
    own: u64,
    // The numbers held, by sender. None is held of a sender without a place here.
    numbers: Vec<NumberSet>,
}

impl Model for Relay {
    ghost use Rattle.std.specs.Prelude.{◌<◌, ◌≤◌, length};
    ghost use Rattle.cast_relay.specs.Pairs.{Pairs, pairs_code, by_sender};

    ghost Value = { Pairs };

    ghost coded = { pairs_code };

    ghost view = { λ r. record { me = r.me; own = r.own; numbers = by_sender r.numbers.items } };

    ghost invariant = { λ r. (r.me < length r.numbers.items) × (length r.numbers.items ≤ 256) };
}

impl Relay {
    /// The node `me` of a group of this many nodes, holding nothing. `me` is below `nodes`.
    pub fn new(alloc: Global, me: NodeId, nodes: u64) -> Result<Relay, AllocError>
        requires { me < nodes }
        ensures { IfOk result (λ relay.
            relay ≡ record { me = me; own = 0; numbers = replicate 256 set.empty }) }
    {
        let mut numbers = Vec::new(alloc);
        for _sender in 0..nodes.min(256) {
            numbers.push(NumberSet::new(alloc))?;
        }
        Ok(Relay {
            alloc,
            me,
            own: 0,
            numbers,
        })
    }

    /// Holds an item of the node's own under its next number, from 0, and returns it as a message. Fewer than
    /// `u64::MAX` of its own items were held before.
    pub fn own(&mut self, item: Item) -> Result<Message, AllocError>
        requires { self.old.own + 1 < 2 ^ 64 }
        ensures message { IfOk result
            (λ message. message
            ≡ record { sender = self.old.me; number = self.old.own; item = item }) }
        ensures ok { OnOk result (self.new ≡ with_own self.old) }
        ensures err { OnErr result (self.new ≡ self.old) }
    {
        let number = self.own;
        let place = place_of(self.me);
        self.numbers[place].insert(number)?;
        self.own = number + 1;
        Ok(Message {
            sender: self.me,
            number,
            item,
        })
    }

    /// Holds the pair of another node's message that arrived from a peer, and returns whether it was new.
    pub fn arrive(&mut self, message: &Message, _from: NodeId) -> Result<Taken, AllocError>
        requires { message.now.sender ≢ self.old.me }
        ensures taken { IfOk result
            (λ taken. taken ≡ taken_of self.old message.now.sender message.now.number) }
        ensures ok { OnOk result
            (self.new ≡ with_pair self.old message.now.sender message.now.number) }
        ensures err { OnErr result (self.new ≡ self.old) }
    {
        let place = place_of(message.sender);
        make_places(self.alloc, &mut self.numbers, place)?;
        let added = self.numbers[place].insert(message.number)?;
        if !added {
            return Ok(Taken::Known);
        }
        Ok(Taken::New)
    }

    /// Whether the node holds the pair. It allocates nothing.
    pub fn holds(&self, sender: NodeId, number: u64) -> bool
        ensures { result ≡ holds self.now sender number }
    {
        match self.numbers.get(place_of(sender)) {
            Some(numbers) => numbers.contains(number),
            None => false,
        }
    }

    /// Whether a pair of `sender` that first came from the peer `from` goes on to `to`. It allocates nothing.
    pub fn relays_to(&self, sender: NodeId, from: NodeId, to: NodeId) -> bool
        ensures { result ≡ relays_to self.now sender from to }
    {
        goes_on(self.me, sender, from, to)
    }
}

/// Whether a message of `sender` that came to the node `me` from the peer `from` goes on to `to`. It goes on to all but
/// these three. It allocates nothing.
pub fn goes_on(me: NodeId, sender: NodeId, from: NodeId, to: NodeId) -> bool
    ensures { result ≡ goes_on me sender from to }
{
    to.0 != me.0 && to.0 != sender.0 && to.0 != from.0
}

// The place of a node in a list of all nodes.
fn place_of(node: NodeId) -> usize
    ensures value { result ≡ node }
    ensures within { result < 256 }
{
    usize::from(node.0)
}

// Adds places with no number up to this one.
fn make_places(alloc: Global, numbers: &mut Vec<NumberSet>, place: usize) -> Result<(), AllocError>
    requires place { place < 256 }
    requires few { length numbers.old.items ≤ 256 }
    ensures ok { OnOk result (place < length numbers.new.items) }
    ensures same { by_sender numbers.new.items ≡ by_sender numbers.old.items }
    ensures few { length numbers.new.items ≤ 256 }
    ensures more { length numbers.old.items ≤ length numbers.new.items }
{
    for _new in numbers.len()..place + 1 {
        numbers.push(NumberSet::new(alloc))?;
    }
    Ok(())
}
