//! What is due in a round: the slots that live nodes owe live nodes, and the events that settle them.
ghost use Rattle.std.specs.Prelude.{◌≡◌, ℕ, true, ◌<◌, ◌^◌, ◌++◌, OnOk, IfOk, length, map};
ghost use Rattle.std.specs.List.{flat_map};
ghost use Rattle.cast_node.specs.Kept.{link_to};
ghost use Rattle.cast_node.specs.Calls.{is_peer};
ghost use Rattle.cast_model.specs.Rounds.{due};
ghost use Rattle.cast_world.specs.Group.{StandingFor};
ghost use Rattle.cast_world.specs.Plans.{AreLive, live_at, due_of, due_between_at, due_at, owed_below, OwesNoneFrom, events_of, IsBounded};

use crate::due_slots::{DueSlot, DueSlots};
use crate::world::World;
use cast_message::{Event, GroupSet, NodeId};
use cast_node::Node;
use std::alloc::{AllocError, Global};

impl World {
    /// The slots that live nodes owe live nodes, by the giver, then the taker, ascending: what a round settles.
    pub fn due(&self) -> Result<DueSlots, AllocError>
        ensures found { StandingFor self.now (λ config past.
            IfOk result (λ found. found ≡ due config past)) }
    {
        find_due(self.allocator(), self)
    }
}

impl DueSlot {
    /// The events that settle the slot, whose two frames are to have these numbers: it is sent, the frame arrives, the slot is
    /// acknowledged, and the acknowledgement arrives. It takes no memory.
    pub fn events(&self, carry: u64, took: u64) -> [Event; 4]
        ensures { result ≡ events_of self.now carry took }
    {
        let DueSlot { from, to, slot } = *self;
        [
            Event::Send { from, to, slot },
            Event::Arrive { from, seq: carry },
            Event::Ack {
                from: to,
                to: from,
                slot,
            },
            Event::Arrive {
                from: to,
                seq: took,
            },
        ]
    }
}

fn find_due(alloc: Global, world: &World) -> Result<DueSlots, AllocError>
    ensures { IsBounded world.now → IfOk result (λ due. due ≡ due_at world.now) }
{
    let live = world.live_nodes();
    let mut due = DueSlots::new(alloc);
    for giver in 0..world.node_count() {
        if world.is_live(NodeId(giver)) {
            add_due_from(world, NodeId(giver), &live, &mut due)?;
        }
    }
    Ok(due)
}

// The slots that a node owes live nodes.
fn add_due_from(
    world: &World,
    giver: NodeId,
    live: &GroupSet,
    due: &mut DueSlots,
) -> Result<(), AllocError>
    requires giver { giver < length world.now.nodes }
    requires live { AreLive world.now live.now }
    ensures { IsBounded world.now → OnOk result (due.new
        ≡ due.old ++ flat_map (due_between_at world.now giver) (live_at world.now)) }
{
    if !world.node_of(giver).owes_one_of(live) {
        return Ok(());
    }
    for taker in 0..world.node_count() {
        if world.is_live(NodeId(taker)) {
            add_due_between(world, giver, NodeId(taker), due)?;
        }
    }
    Ok(())
}

fn add_due_between(
    world: &World,
    giver: NodeId,
    taker: NodeId,
    due: &mut DueSlots,
) -> Result<(), AllocError>
    requires giver { giver < length world.now.nodes }
    requires taker { taker < length world.now.nodes }
    ensures { IsBounded world.now → OnOk result (due.new
        ≡ due.old ++ due_between_at world.now giver taker) }
{
    if giver == taker {
        return Ok(());
    }
    add_owed(world.node_of(giver), giver, taker, due)
}

// The slots that a node owes a peer.
fn add_owed(node: &Node, giver: NodeId, taker: NodeId, due: &mut DueSlots) -> Result<(), AllocError>
    requires { is_peer node.now taker ≡ true }
    ensures { (bound : ℕ) → bound < 2 ^ 64 → OwesNoneFrom bound (link_to node.now taker) →
        OnOk result (due.new
        ≡ due.old ++ map (due_of giver taker) (owed_below bound (link_to node.now taker))) }
{
    let mut from = 0;
    while let Some(first) = node.least_owed(taker, from) {
        let end = node.owed_until(taker, first);
        due.push_run(giver, taker, first, end)?;
        from = end;
    }
    Ok(())
}
