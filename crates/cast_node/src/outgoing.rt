//! What a node gives its peers. A message that goes to several is kept once: the slots of a link keep its place, in
//! eight bytes. No reference count changes when a slot is given, acknowledged or dropped.
ghost use Rattle.std.specs.Prelude.{◌≡◌, ◌<◌, ◌≤◌, ◌↔◌, true, IsFalse, length, replicate, slice_set, IfOk, OnOk, OnErr};
ghost use Rattle.std.specs.FinMap as finite;
ghost use Rattle.std.specs.Option.{option_copied};
ghost use Rattle.cast_link.specs.Links.{with_acknowledged, IsLeastFrom, IsOwedUntil};
ghost use Rattle.cast_node.specs.Turns.{given_from};
ghost use Rattle.cast_node.specs.Giving.{link_in, OwesNoneOf};
ghost use Rattle.cast_node.specs.Outgoing.{links_of, HasRoomFor};

use crate::giving::{give_all, owed_peers, reserve_all};
use cast_link::LinkOut;
use cast_message::{GroupSet, Message, NodeId};
use std::alloc::{AllocError, Global};
use std::marker::Model;

/// What a node gives each peer.
#[derive(Drop)]
pub struct Outgoing {
    // The messages given, in the order in which the node came to hold them.
    messages: Vec<Message>,
    // By peer.
    links: Vec<LinkOut<u32>>,
    // The peers that are owed a slot, so that `owes_one_of` needs no look at links.
    owed: GroupSet,
}

impl Model for Outgoing {
    ghost use Rattle.std.specs.Prelude.{length, ◌-◌, vec_len, vec_capacity};
    ghost use Rattle.cast_node.specs.Giving.{bare};
    ghost use Rattle.cast_node.specs.Outgoing.{Outbound, outbound_code, IsOutgoing};
    ghost use Rattle.cast_message.specs.contracts.message.Message as m;

    ghost Value = { Outbound };

    ghost coded = { outbound_code m.the_row.coded };

    ghost view = { λ o. record {
      messages = o.messages.items;
      spare = vec_capacity o.messages - vec_len o.messages;
      links = o.links.items;
    } };

    ghost invariant = { λ o. IsOutgoing (length o.messages.items) (bare o.links.items) o.owed };
}

impl Outgoing {
    /// The outgoing part for as many peers as given, with nothing given to any.
    pub fn new(alloc: Global, peers: u64) -> Result<Outgoing, AllocError>
        requires { peers ≤ 64 }
        ensures { IfOk result (λ outgoing. links_of outgoing
            ≡ replicate peers (record { given = 0; owed = finite.empty })) }
    {
        let mut links = Vec::new(alloc);
        for _peer in 0..peers {
            links.push(LinkOut::new(alloc))?;
        }
        Ok(Outgoing {
            messages: Vec::new(alloc),
            links,
            owed: GroupSet::new(),
        })
    }

    /// Makes room for one more message, at each link too.
    pub fn reserve(&mut self) -> Result<(), AllocError>
        ensures same { links_of self.new ≡ links_of self.old }
        ensures room { OnOk result (HasRoomFor self.new) }
    {
        // There are never 2^32 messages: a node holds at most 64 times 4,096, and gives each once.
        if self.messages.len() > u32::MAX as usize {
            return Err(AllocError);
        }
        self.messages.reserve(1)?;
        reserve_all(self.links.as_mut_slice())
    }

    /// Gives a message that came to the node `me` from the source to each peer to which it goes on. There is room for
    /// it. It allocates nothing.
    pub fn give(&mut self, me: NodeId, source: NodeId, message: Message)
        requires room { HasRoomFor self.old }
        requires peers { length (links_of self.old) ≤ 256 }
        ensures { links_of self.new ≡ given_from 0 me source message (links_of self.old) }
    {
        let place = self.messages.len() as u32;
        let sender = message.sender;
        self.messages.push_reserved(message);
        give_all(self.links.as_mut_slice(), 0, me, source, sender, place);
        self.owed = owed_peers(self.links.as_slice());
    }

    /// The message in a slot that a peer is owed.
    pub fn message(&self, to: NodeId, slot: u64) -> Option<&Message>
        requires { to < length (links_of self.now) }
        ensures { option_copied result ≡ finite.get (link_in (links_of self.now) to).owed slot }
    {
        let place = self.links[usize::from(to.0)].get(slot)?;
        Some(&self.messages[*place as usize])
    }

    /// Marks a slot that a peer is owed as acknowledged.
    #[inline(always)]
    pub fn acknowledge(&mut self, to: NodeId, slot: u64)
        requires to { to < length (links_of self.old) }
        requires owed { finite.contains_key (link_in (links_of self.old) to).owed slot ≡ true }
        ensures { links_of self.new ≡ slice_set (links_of self.old) to
            (with_acknowledged (link_in (links_of self.old) to) slot) }
    {
        let link = &mut self.links[usize::from(to.0)];
        link.acked_owed(slot);
        if link.owed() == 0 {
            self.owed.remove(to);
        }
    }

    /// How many slots a peer was given.
    pub fn given(&self, to: NodeId) -> u64
        requires { to < length (links_of self.now) }
        ensures { result ≡ (link_in (links_of self.now) to).given }
    {
        self.links[usize::from(to.0)].given()
    }

    /// How many slots a peer is owed.
    pub fn owed(&self, to: NodeId) -> u64
        requires { to < length (links_of self.now) }
        ensures { result ≡ finite.len (link_in (links_of self.now) to).owed }
    {
        self.links[usize::from(to.0)].owed()
    }

    /// The least slot, `from` or above, that a peer is owed.
    pub fn least_owed(&self, to: NodeId, from: u64) -> Option<u64>
        requires { to < length (links_of self.now) }
        ensures { IsLeastFrom (link_in (links_of self.now) to).owed from result }
    {
        self.links[usize::from(to.0)].least_owed(from)
    }

    /// The slot up to which a peer is owed all slots from `from` on.
    pub fn owed_until(&self, to: NodeId, from: u64) -> u64
        requires { to < length (links_of self.now) }
        ensures { IsOwedUntil (link_in (links_of self.now) to).owed from result }
    {
        self.links[usize::from(to.0)].owed_until(from)
    }

    /// Whether one of these peers is owed a slot.
    pub fn owes_one_of(&self, peers: &GroupSet) -> bool
        ensures { IsFalse result ↔ OwesNoneOf (links_of self.now) peers.now }
    {
        self.owed.meets(peers)
    }
}
