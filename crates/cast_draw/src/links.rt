//! What each node gives each peer, slot by slot. So it is known which message a frame for a slot carries.
ghost use Rattle.std.specs.Prelude.{◌≡◌, ◌+◌, ◌≤◌, ◌++◌, ◌∷◌, [], IfOk, OnOk, OnErr, false, if◌then◌else◌, length, not};
ghost use Rattle.cast_draw.specs.Gifts.{holding, slot_of, nothing_given, given_on, goes_on, is_held, with_held};

use cast_message::{List, NodeId, NumberSet};
use std::alloc::{AllocError, Global};
use std::marker::Model;

/// A message by its numbers.
#[derive(Clone, Copy, PartialEq, Eq)]
pub struct Pair {
    /// Who broadcast it.
    pub sender: NodeId,
    /// Its number in the sender's stream.
    pub number: u64,
}

/// What a node holds, and what it gives each peer.
#[derive(Drop)]
pub struct Links {
    me: NodeId,
    // By sender, the numbers that are held.
    held: Vec<NumberSet>,
    // By peer, the message in each slot.
    given: Vec<List<Pair>>,
}

impl Model for Links {
    ghost use Rattle.std.specs.Prelude.{◌≤◌, length};
    ghost use Rattle.cast_draw.specs.Gifts.{Gifts, gifts_code};
    ghost use Rattle.cast_draw.specs.contracts.links.Pair as pairs;

    ghost Value = { Gifts };

    ghost coded = { gifts_code pairs.the_row.coded };

    ghost view = { λ links. record {
      me = links.me;
      held = links.held.items;
      given = links.given.items;
    } };

    ghost invariant = { λ links. length links.given.items ≤ 256 };
}

impl Links {
    /// A node that holds nothing, in a group of this many nodes.
    pub fn new(alloc: Global, me: NodeId, nodes: u64) -> Result<Links, AllocError>
        requires { nodes ≤ 64 }
        ensures { IfOk result (λ links. links ≡ nothing_given nodes me) }
    {
        let mut held = Vec::new(alloc);
        let mut given = Vec::new(alloc);
        for _node in 0..nodes {
            held.push(NumberSet::new(alloc))?;
            given.push(List::new(alloc))?;
        }
        Ok(Links { me, held, given })
    }

    /// The message in a slot of what the node gives a peer.
    pub fn given(&self, to: NodeId, slot: u64) -> Option<Pair>
        ensures { result ≡ slot_of self.now to slot }
    {
        let place = usize::from(to.0);
        if place >= self.given.len() {
            return None;
        }
        self.given[place].as_slice().get(slot as usize).copied()
    }

    /// Holds a message that came from this peer, or is the node's own. A new one goes on to all but its sender and that peer.
    /// Only a new one takes memory.
    pub fn hold(&mut self, pair: Pair, source: NodeId) -> Result<(), AllocError>
        ensures ok { OnOk result (self.new ≡ holding self.old pair source) }
        ensures again { OnErr result (is_held self.old.held pair ≡ false) }
    {
        if add(self.held.as_mut_slice(), pair)? {
            return give_on(self.given.as_mut_slice(), self.me, &pair, source, 0);
        }
        Ok(())
    }
}

// Adds the message, and returns whether it is new. A sender that is no node has no set.
fn add(held: &mut [NumberSet], pair: Pair) -> Result<bool, AllocError>
    ensures test { IfOk result (λ is_new. is_new ≡ not (is_held held.old pair)) }
    ensures ok { OnOk result (held.new ≡ with_held held.old pair) }
    ensures again { OnErr result (is_held held.old pair ≡ false) }
{
    let place = usize::from(pair.sender.0);
    if place >= held.len() {
        return Ok(true);
    }
    held[place].insert(pair.number)
}

// Gives the message to those of these peers to which it goes. The first of them has the number `peer`.
fn give_on(
    rows: &mut [List<Pair>],
    me: NodeId,
    pair: &Pair,
    source: NodeId,
    peer: u64,
) -> Result<(), AllocError>
    requires { peer + length rows.old ≤ 256 }
    ensures { OnOk result (rows.new ≡ given_on me pair.now source peer rows.old) }
{
    let Some((row, rest)) = rows.split_first_mut() else {
        return Ok(());
    };
    give(row, goes_on(me, pair, source, peer), pair)?;
    give_on(rest, me, pair, source, peer + 1)
}

fn give(row: &mut List<Pair>, goes: bool, pair: &Pair) -> Result<(), AllocError>
    ensures { OnOk result (row.new ≡ (if goes then row.old ++ pair.now ∷ [] else row.old)) }
{
    if goes { row.push(*pair) } else { Ok(()) }
}

fn goes_on(me: NodeId, pair: &Pair, source: NodeId, peer: u64) -> bool
    ensures { result ≡ goes_on me pair.now source peer }
{
    peer != u64::from(pair.sender.0) && (peer != u64::from(source.0) && peer != u64::from(me.0))
}
