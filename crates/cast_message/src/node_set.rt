//! A set of nodes: a bit for each number that a `NodeId` can have.
ghost use Rattle.std.specs.Prelude.{◌≡◌, not};
ghost use Rattle.std.specs.FinSet as set;

use crate::message::NodeId;
use std::marker::Model;

/// A set of nodes.
#[derive(Drop)]
pub struct NodeSet {
    // The bit of node i is bit i % 64 of word i / 64.
    words: [u64; 4],
    len: u64,
}

impl Model for NodeSet {
    ghost use Rattle.std.specs.Prelude.{◌≡◌};
    ghost use Rattle.std.specs.Ordering.{nat_cmp};
    ghost use Rattle.std.specs.FinSet as set;
    ghost use Rattle.std.specs.Coded.{coded_ℕ};

    ghost Value = { set.FinSet nat_cmp };

    ghost coded = { set.code coded_ℕ };

    ghost use Rattle.cast_message.specs.Members.{members_below};
    ghost use Rattle.cast_message.specs.Bits.{is_set};

    ghost view = { λ s. members_below 256 (is_set s.words) };

    ghost invariant = { λ s. s.len ≡ set.len (members_below 256 (is_set s.words)) };
}

impl NodeSet {
    /// The empty set.
    pub fn new() -> NodeSet
        ensures { result ≡ set.empty }
    {
        NodeSet {
            words: [0; 4],
            len: 0,
        }
    }

    /// An equal set.
    pub fn copy(&self) -> NodeSet
        ensures { result ≡ self.now }
    {
        NodeSet {
            words: self.words,
            len: self.len,
        }
    }

    /// How many nodes are in the set.
    pub fn len(&self) -> u64
        ensures { result ≡ set.len self.now }
    {
        self.len
    }

    /// Whether a node is in the set.
    pub fn contains(&self, node: NodeId) -> bool
        ensures { result ≡ set.contains self.now node }
    {
        self.words[usize::from(node.0 / 64)] >> (node.0 % 64) & 1 == 1
    }

    /// Adds a node, and returns whether it is new.
    pub fn insert(&mut self, node: NodeId) -> bool
        ensures test { result ≡ not (set.contains self.old node) }
        ensures members { self.new ≡ set.insert self.old node }
    {
        if self.contains(node) {
            return false;
        }
        self.words[usize::from(node.0 / 64)] |= 1 << (node.0 % 64);
        self.len += 1;
        true
    }
}
