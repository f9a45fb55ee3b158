//! What is kept about the lines read so far.
ghost use Rattle.std.specs.Prelude.{◌≡◌, ℕ, ◌<◌, ◌≤◌, length, replicate, slice_set, slice_index, IfSome, OnOk, MatchOption};
ghost use Rattle.cast_record.specs.WordLines.{line_said};
ghost use Rattle.cast_judge.specs.Kept.{is_ended_at, Delivers, IsDue, node_at, has_item, nobody, instance_at, item_changes, with_item, Keeps, IsNew};

use crate::instances::{Addition, Instances, Proposal};
use crate::kept_node::{KeptNode, new_nodes, put_crash, put_delivery, put_item};
use cast_message::NodeId;
use cast_record::{Delivery, ItemWord, WordLine};
use std::alloc::{AllocError, Global};

/// How far the lines read so far go.
#[derive(Clone, Copy)]
pub enum Stage {
    /// There are none.
    Start,
    /// To a line that others may follow.
    Body,
    /// To the end line.
    Ended,
}

#[derive(Drop)]
pub struct Kept {
    pub alloc: Global,
    pub stage: Stage,
    /// How many nodes may crash, by the head.
    pub faults: u64,
    /// How many values may be decided in an instance, by the head.
    pub choices: u64,
    /// What is kept about each node, by number.
    pub nodes: Vec<KeptNode>,
    pub instances: Instances,
}

impl Kept {
    /// Begins before the first line; allocates nothing.
    pub fn new(alloc: Global) -> Kept
        ensures { IsNew result }
    {
        Kept {
            alloc,
            stage: Stage::Start,
            faults: 0,
            choices: 0,
            nodes: Vec::new(alloc),
            instances: Instances::new(alloc),
        }
    }

    /// Whether the last line read is the end line.
    pub fn is_ended(&self) -> bool
        ensures { result ≡ is_ended_at self.now.stage }
    {
        matches!(self.stage, Stage::Ended)
    }

    /// Takes in a line that breaks no rule.
    pub fn keep(&mut self, line: &WordLine<'_>) -> Result<(), AllocError>
        ensures { OnOk result (Keeps self.old self.new (line_said line.now)) }
    {
        self.stage = Stage::Body;
        match line {
            WordLine::Head {
                nodes,
                faults,
                choices,
            }
            | WordLine::Head2 {
                nodes,
                faults,
                choices,
                ..
            } => self.open(*nodes, *faults, *choices),
            WordLine::Broadcast { sender, item, .. } => self.keep_broadcast(*sender, item),
            WordLine::Delivered { node, sender, .. } => {
                put_delivery(&mut self.nodes, *node, *sender);
                Ok(())
            }
            WordLine::Decided { decision, .. } => self.instances.add(
                self.alloc,
                decision.instance,
                Addition::Decided(decision.value),
            ),
            WordLine::Crashed { node } => {
                put_crash(&mut self.nodes, *node);
                Ok(())
            }
            WordLine::Refused { .. } => Ok(()),
            WordLine::End => {
                self.stage = Stage::Ended;
                Ok(())
            }
        }
    }

    /// Takes in a delivery that breaks no rule, if its rest begins with the kept word of its item and a line feed.
    /// Returns where in the rest the line ends, after its line feed. It may return `None` for any delivery. Then
    /// nothing changed, and the line must be judged like any other.
    pub fn deliver(&mut self, delivery: &Delivery<'_>) -> Option<usize>
        ensures { Delivers self.old self.new delivery.now result }
    {
        let end = self.end_of_due(delivery)?;
        put_delivery(&mut self.nodes, delivery.node, delivery.sender);
        Some(end)
    }

    // Where in its rest the delivery ends, if its word shows that it breaks no rule.
    fn end_of_due(&self, delivery: &Delivery<'_>) -> Option<usize>
        ensures { IfSome result (IsDue self.now delivery.now) }
    {
        let Stage::Body = self.stage else {
            return None;
        };
        let node = self.node(delivery.node)?;
        if node.crashed || node.count_from(delivery.sender) != delivery.number {
            return None;
        }
        self.node(delivery.sender)?
            .end_of_word(delivery.number, delivery.rest)
    }

    // Takes in the numbers of a head. Its nodes begin with nothing.
    fn open(&mut self, nodes: u64, faults: u64, choices: u64) -> Result<(), AllocError>
        ensures stage { self.new.stage ≡ self.old.stage }
        ensures faults { OnOk result (self.new.faults ≡ faults) }
        ensures choices { OnOk result (self.new.choices ≡ choices) }
        ensures nodes { OnOk result (self.new.nodes.items ≡ replicate nodes nobody) }
        ensures instances { self.new.instances ≡ self.old.instances }
    {
        self.nodes = new_nodes(self.alloc, nodes)?;
        self.faults = faults;
        self.choices = choices;
        Ok(())
    }

    // Takes in an item that a node broadcast, and what it proposes, if it is a proposal.
    fn keep_broadcast(&mut self, sender: NodeId, item: &ItemWord<'_>) -> Result<(), AllocError>
        ensures stage { self.new.stage ≡ self.old.stage }
        ensures faults { self.new.faults ≡ self.old.faults }
        ensures choices { self.new.choices ≡ self.old.choices }
        ensures nodes { OnOk result
            (self.new.nodes.items ≡ slice_set self.old.nodes.items sender
            (with_item (node_at self.old.nodes.items sender) item.now)) }
        ensures instances { OnOk result ((q : ℕ) →
            instance_at self.new.instances q ≡ item_changes sender item.now q
            (instance_at self.old.instances q)) }
    {
        if let Some((instance, value)) = item.proposal() {
            let proposal = Proposal {
                node: sender,
                value,
            };
            self.instances
                .add(self.alloc, instance, Addition::Proposed(proposal))?;
        }
        put_item(&mut self.nodes, sender, item)
    }

    /// What is kept about the node, if it is in the group.
    pub fn node(&self, node: NodeId) -> Option<&KeptNode>
        ensures { MatchOption result (length self.now.nodes.items ≤ node)
            (λ found. (node < length self.now.nodes.items)
            × (found.now ≡ node_at self.now.nodes.items node)) }
    {
        self.nodes.get(usize::from(node.0))
    }

    /// Whether the node crashed. One outside the group did not.
    pub fn has_crashed(&self, node: NodeId) -> bool
        ensures { result ≡ (node_at self.now.nodes.items node).crashed }
    {
        match self.node(node) {
            Some(node) => node.crashed,
            None => false,
        }
    }

    /// How many items the node broadcast, which is the number of its next item.
    pub fn item_count(&self, node: NodeId) -> u64
        ensures { result ≡ length (node_at self.now.nodes.items node).items }
    {
        match self.node(node) {
            Some(node) => node.items.len() as u64,
            None => 0,
        }
    }

    /// How many items the node delivered from the sender, which is the number of the next that it may deliver.
    pub fn delivered(&self, node: NodeId, sender: NodeId) -> u64
        ensures { result ≡ slice_index (node_at self.now.nodes.items node).delivered sender }
    {
        match self.node(node) {
            Some(node) => node.count_from(sender),
            None => 0,
        }
    }

    /// Whether the sender broadcast this item with this number.
    pub fn has_item(&self, sender: NodeId, number: u64, item: &ItemWord<'_>) -> bool
        ensures { result ≡ has_item (node_at self.now.nodes.items sender).items number item.now }
    {
        match self.node(sender) {
            Some(node) => node.has_item(number, item),
            None => false,
        }
    }
}
