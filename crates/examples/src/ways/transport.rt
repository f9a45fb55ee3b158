//! Nodes whose frames the caller moves, like a network of one's own: here a list, which loses the first frame.
use anyhow::Result;
use cast::{Frame, FrameBody, Node, NodeId, Settings, data};
use std::alloc::Global;

const NODES: u8 = 3;

// Each round repeats the slots that are not acknowledged. Without losses two rounds are enough.
const ROUNDS: usize = 4;

/// How many items all nodes together deliver after node 0 broadcast one and all frames were moved.
pub fn carry_all(alloc: Global) -> Result<usize> {
    let config = Settings::of(u64::from(NODES), 1).check()?;
    let mut nodes = Vec::new(alloc);
    for id in 0..NODES {
        nodes.push(Node::new(alloc, &config, NodeId(id))?)?;
    }
    if let Some(first) = nodes.get_mut(0) {
        first.order(data(alloc, b"a")?)?;
    }
    for round in 0..ROUNDS {
        for frame in sent(alloc, &mut nodes)?
            .into_iter()
            .skip(usize::from(round == 0))
        {
            arrive(&mut nodes, &frame)?;
        }
    }
    let mut delivered = 0usize;
    for node in &nodes {
        let items = node.delivered(NodeId(0)).unwrap_or(&[]);
        delivered = delivered.saturating_add(items.len());
    }
    Ok(delivered)
}

// A frame for the least slot that each node owes each peer.
fn sent(alloc: Global, nodes: &mut Vec<Node>) -> Result<Vec<Frame>> {
    let mut frames = Vec::new(alloc);
    for node in nodes.iter_mut() {
        for peer in 0..NODES {
            if let Some(slot) = node.least_owed(NodeId(peer), 0) {
                frames.push(node.send(NodeId(peer), slot)?)?;
            }
        }
    }
    Ok(frames)
}

// Gives a frame to its target, and the acknowledgement to its maker.
fn arrive(nodes: &mut Vec<Node>, frame: &Frame) -> Result<()> {
    let Some(acknowledgement) = take(nodes, frame)? else {
        return Ok(());
    };
    take(nodes, &acknowledgement)?;
    Ok(())
}

// Gives a frame to its target, which acknowledges it if it has a message.
fn take(nodes: &mut Vec<Node>, frame: &Frame) -> Result<Option<Frame>> {
    let Some(target) = nodes.get_mut(usize::from(frame.to.0)) else {
        return Ok(None);
    };
    if target.id() != frame.to {
        return Ok(None);
    }
    target.arrive(frame)?;
    match frame.body {
        FrameBody::Carry { slot, .. } => Ok(Some(target.ack(frame.from, slot)?)),
        FrameBody::Took { .. } => Ok(None),
    }
}
