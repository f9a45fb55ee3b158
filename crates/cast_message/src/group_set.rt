//! A set of nodes of one group. A group has at most 64, so each has a bit in one word.
ghost use Rattle.std.specs.Prelude.{◌≡◌, ◌<◌, ◌↔◌, IsFalse};
ghost use Rattle.std.specs.FinSet as set;

use crate::message::NodeId;
use std::marker::Model;

/// A set of nodes of a group.
#[derive(Drop)]
pub struct GroupSet {
    // The bit of node i is bit i.
    word: u64,
}

impl Model for GroupSet {
    ghost use Rattle.std.specs.Prelude.{◌≡◌};
    ghost use Rattle.std.specs.Ordering.{nat_cmp};
    ghost use Rattle.std.specs.FinSet as set;
    ghost use Rattle.std.specs.Coded.{coded_ℕ};

    ghost Value = { set.FinSet nat_cmp };

    ghost coded = { set.code coded_ℕ };

    ghost use Rattle.cast_message.specs.Members.{members_below};
    ghost use Rattle.cast_message.specs.Bits.{is_set_in};

    ghost view = { λ s. members_below 64 (is_set_in s.word) };
}

impl GroupSet {
    /// The empty set.
    pub fn new() -> GroupSet
        ensures { result ≡ set.empty }
    {
        GroupSet { word: 0 }
    }

    /// An equal set.
    pub fn copy(&self) -> GroupSet
        ensures { result ≡ self.now }
    {
        GroupSet { word: self.word }
    }

    /// How many nodes are in the set.
    pub fn len(&self) -> u64
        ensures { result ≡ set.len self.now }
    {
        u64::from(self.word.count_ones())
    }

    /// Adds a node of the group, one below 64.
    pub fn insert(&mut self, node: NodeId)
        requires { node < 64 }
        ensures { self.new ≡ set.insert self.old node }
    {
        self.word |= 1 << node.0;
    }

    /// Removes a node of the group, one below 64.
    pub fn remove(&mut self, node: NodeId)
        requires { node < 64 }
        ensures { self.new ≡ set.remove self.old node }
    {
        self.word &= !(1 << node.0);
    }

    /// Whether a node is in both sets.
    pub fn meets(&self, other: &GroupSet) -> bool
        ensures { IsFalse result ↔ set.intersection self.now other.now ≡ set.empty }
    {
        self.word & other.word != 0
    }
}
