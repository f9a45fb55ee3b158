//! A set of peers that are asked in a circle. Each has a bit in one word.
ghost use Rattle.std.specs.Prelude.{◌≡◌, ◌<◌, ℕ, true, false, IsTrue, IfSome, IfNone};
ghost use Rattle.std.specs.FinSet as set;
ghost use Rattle.cast_message.specs.Bits.{is_set_in};

use cast_message::NodeId;
use std::marker::Model;

/// A set of nodes of a group, which has 64 at most.
#[derive(Drop)]
pub struct PeerSet {
    // The bit of node i is bit i.
    word: u64,
}

impl Model for PeerSet {
    ghost use Rattle.std.specs.Ordering.{nat_cmp};
    ghost use Rattle.std.specs.FinSet as set;
    ghost use Rattle.std.specs.Coded.{coded_ℕ};
    ghost use Rattle.cast_message.specs.Members.{members_below};
    ghost use Rattle.cast_message.specs.Bits.{is_set_in};

    ghost Value = { set.FinSet nat_cmp };

    ghost coded = { set.code coded_ℕ };

    ghost view = { λ s. members_below 64 (is_set_in s.word) };
}

impl PeerSet {
    /// All nodes of a group with as many nodes as given, 64 at most.
    pub fn all(nodes: u64) -> PeerSet
        ensures { (q : ℕ) → q < nodes → q < 64 → set.contains result q ≡ true }
    {
        let mut all = PeerSet { word: 0 };
        for node in 0..64u8 {
            if u64::from(node) < nodes {
                all.insert(NodeId(node));
            }
        }
        all
    }

    /// An equal set.
    pub fn copy(&self) -> PeerSet
        ensures { result ≡ self.now }
    {
        PeerSet { word: self.word }
    }

    /// Whether a node is in the set. If so, it is below 64.
    pub fn contains(&self, node: NodeId) -> bool
        ensures is { result ≡ set.contains self.now node }
        ensures below { IsTrue result → node < 64 }
    {
        let word = self.word;
        if node.0 >= 64 {
            return false;
        }
        (word >> node.0) % 2 == 1
    }

    /// Adds a node below 64.
    pub fn insert(&mut self, node: NodeId)
        requires { node < 64 }
        ensures { self.new ≡ set.insert self.old node }
    {
        self.word |= 1 << node.0;
    }

    /// Removes a node below 64.
    pub fn remove(&mut self, node: NodeId)
        requires { node < 64 }
        ensures { self.new ≡ set.remove self.old node }
    {
        self.word &= !(1 << node.0);
    }

    /// The next node of the set after this one, in cyclic order; `None` only if the set is empty.
    pub fn next_after(&self, node: NodeId) -> Option<NodeId>
        ensures some { IfSome result (λ next. (set.contains self.now next ≡ true) × (next < 64)) }
        ensures none { IfNone result ((q : ℕ) → set.contains self.now q ≡ false) }
    {
        match lowest(self.word & !bits_up_to(node)) {
            Some(next) => Some(next),
            None => lowest(self.word),
        }
    }
}

// The place of the lowest bit that is set.
fn lowest(word: u64) -> Option<NodeId>
    ensures some { IfSome result (λ node. (is_set_in word node ≡ true) × (node < 64)) }
    ensures none { IfNone result (word ≡ 0) }
{
    if word == 0 {
        return None;
    }
    NodeId::from_number(u64::from(word.trailing_zeros()))
}

// The bits of the nodes up to this one.
fn bits_up_to(node: NodeId) -> u64 {
    match 2u64.checked_shl(u32::from(node.0)) {
        Some(bit) => bit.wrapping_sub(1),
        None => u64::MAX,
    }
}
