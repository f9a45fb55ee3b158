//! A group of two nodes as one value. README's example is the code between the two marks.
use anyhow::Result;
use cast::{Event, NodeId, Settings, World, data};
use std::alloc::Global;

/// How many items node 1 delivered from node 0, after node 0 broadcast one.
pub fn first_path(alloc: Global) -> Result<usize> {
    // README: begin
    let config = Settings::of(2, 0).check()?;
    let mut world = World::new(alloc, config)?;
    world.step(&Event::Order {
        node: NodeId(0),
        item: data(alloc, b"a")?,
    })?;
    world.step(&Event::Send {
        from: NodeId(0),
        to: NodeId(1),
        slot: 0,
    })?;
    world.step(&Event::Arrive {
        from: NodeId(0),
        seq: 0,
    })?;
    world.round()?;
    let delivered = world.delivered(NodeId(1), NodeId(0));
    // README: end
    Ok(delivered.unwrap_or(&[]).len())
}
