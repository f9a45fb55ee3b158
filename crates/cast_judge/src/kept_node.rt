//! What is kept about a node: its items, how many it delivered from each sender, and whether it closed or crashed.
ghost use Rattle.std.specs.Prelude.{◌≡◌, replicate, slice_set, slice_index, IfSome, IfOk, OnOk};
ghost use Rattle.cast_judge.specs.ItemList.{BeginsWithWord};
ghost use Rattle.cast_judge.specs.Kept.{node_at, has_item, nobody, with_item, with_delivery, with_crash};

use crate::items::Items;
use cast_message::{MOST_NODES, NodeId};
use cast_record::ItemWord;
use std::alloc::{AllocError, Global};

#[derive(Drop)]
pub struct KeptNode {
    /// The items that it broadcast, in order.
    pub items: Items,
    /// Whether one of them closed its stream.
    pub closed: bool,
    pub crashed: bool,
    /// How many items it delivered from each sender.
    pub delivered: [u64; MOST_NODES as usize],
}

impl KeptNode {
    /// A node that no line has mentioned. It allocates nothing.
    pub fn new(alloc: Global) -> KeptNode
        ensures { result ≡ nobody }
    {
        KeptNode {
            items: Items::new(alloc),
            closed: false,
            crashed: false,
            delivered: [0; MOST_NODES as usize],
        }
    }

    /// How many items it delivered from this sender; none if the number is past the greatest of a node.
    pub fn count_from(&self, sender: NodeId) -> u64
        ensures { result ≡ slice_index self.now.delivered sender }
    {
        match self.delivered.get(usize::from(sender.0)) {
            Some(count) => *count,
            None => 0,
        }
    }

    /// Whether it broadcast this item with this number.
    pub fn has_item(&self, number: u64, item: &ItemWord<'_>) -> bool
        ensures { result ≡ has_item self.now.items number item.now }
    {
        match self.items.word(number) {
            Some(word) => word == item.as_slice(),
            None => false,
        }
    }

    /// If the bytes begin with the kept word of the item with this number, and a line feed: the place after both.
    /// `None` says nothing about the bytes.
    pub fn end_of_word(&self, number: u64, bytes: &[u8]) -> Option<usize>
        ensures { IfSome result (BeginsWithWord self.now.items number bytes.now) }
    {
        let word = self.items.word(number)?;
        let length = word.len();
        if length < bytes.len() && bytes[length] == b'\n' && &bytes[..length] == word {
            return Some(length + 1);
        }
        None
    }

    pub fn put_item(&mut self, item: &ItemWord<'_>) -> Result<(), AllocError>
        ensures { OnOk result (self.new ≡ with_item self.old item.now) }
    {
        if item.is_close() {
            self.closed = true;
        }
        self.items.push(item)
    }

    pub fn put_delivery(&mut self, sender: NodeId)
        ensures { self.new ≡ with_delivery self.old sender }
    {
        let count = self.count_from(sender).saturating_add(1);
        let place = usize::from(sender.0);
        if place < MOST_NODES as usize {
            self.delivered[place] = count;
        }
    }
}

/// This many nodes that no line has mentioned.
pub fn new_nodes(alloc: Global, count: u64) -> Result<Vec<KeptNode>, AllocError>
    ensures { IfOk result (λ nodes. nodes.items ≡ replicate count nobody) }
{
    let mut nodes = Vec::new(alloc);
    for _ in 0..count {
        nodes.push(KeptNode::new(alloc))?;
    }
    Ok(nodes)
}

/// Adds an item that the node broadcast. Nothing changes if the node does not exist.
pub fn put_item(
    nodes: &mut Vec<KeptNode>,
    node: NodeId,
    item: &ItemWord<'_>,
) -> Result<(), AllocError>
    ensures { OnOk result (nodes.new.items ≡ slice_set nodes.old.items node
        (with_item (node_at nodes.old.items node) item.now)) }
{
    let place = usize::from(node.0);
    if place < nodes.len() {
        nodes[place].put_item(item)?;
    }
    Ok(())
}

/// Counts a delivery of the node from this sender. Nothing changes if the node does not exist.
pub fn put_delivery(nodes: &mut Vec<KeptNode>, node: NodeId, sender: NodeId)
    ensures { nodes.new.items ≡ slice_set nodes.old.items node
        (with_delivery (node_at nodes.old.items node) sender) }
{
    let place = usize::from(node.0);
    if place < nodes.len() {
        nodes[place].put_delivery(sender);
    }
}

/// Notes the crash of the node. Nothing changes if the node does not exist.
pub fn put_crash(nodes: &mut Vec<KeptNode>, node: NodeId)
    ensures { nodes.new.items ≡ slice_set nodes.old.items node
        (with_crash (node_at nodes.old.items node)) }
{
    let place = usize::from(node.0);
    if place < nodes.len() {
        nodes[place].crashed = true;
    }
}
