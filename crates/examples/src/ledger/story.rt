//! What happens in the example: who orders what, and what goes wrong.
use crate::ledger::sheet::Sheet;
use crate::ledger::transfer::Transfer;
use cast::{
    Config, ConfigFault, Fault, FaultPlan, Follower, Followers, FrameKind, Frames, List, NodeId,
    Settings, no_faults,
};
use std::alloc::{AllocError, Global};

const NODES: u8 = 3;

const ADA: u8 = 0;

const BEN: u8 = 1;

const CLEO: u8 = 2;

const DAN: u8 = 3;

// By node: the account that sends, the one that receives, and the amount.
const TRANSFERS: [&[(u8, u8, u16)]; NODES as usize] = [
    &[(ADA, BEN, 30), (ADA, CLEO, 20)],
    &[(BEN, DAN, 10), (CLEO, BEN, 15)],
    &[(DAN, ADA, 5)],
];

/// Three nodes, one of which may crash.
pub fn config() -> Result<Config, ConfigFault> {
    Settings::of(u64::from(NODES), 1).check()
}

/// A ledger at each node, which orders the node's transfers.
pub fn ledgers(alloc: Global) -> Result<Followers<Sheet>, AllocError> {
    let mut followers = Followers::new(alloc);
    for node in 0..NODES {
        let mut items = List::new(alloc);
        for &(from, to, amount) in TRANSFERS[usize::from(node)] {
            let transfer = Transfer { from, to, amount };
            items.push(transfer.item(alloc)?)?;
        }
        followers.add(NodeId(node), Follower::new(items, Sheet::new()))?;
    }
    Ok(followers)
}

/// On each link every second frame with a message is lost, beginning with the first.
pub fn losses(alloc: Global) -> Result<FaultPlan, AllocError> {
    let mut plan = no_faults(alloc);
    for from in 0..NODES {
        for to in 0..NODES {
            if from != to {
                plan.faults
                    .push(lose_every_second(NodeId(from), NodeId(to)))?;
            }
        }
    }
    Ok(plan)
}

/// The same, and node 2 crashes after six log entries.
pub fn losses_and_a_crash(alloc: Global) -> Result<FaultPlan, AllocError> {
    let mut plan = losses(alloc)?;
    let node = NodeId(2);
    plan.faults.push(Fault::Crash { node, entries: 6 })?;
    Ok(plan)
}

fn lose_every_second(from: NodeId, to: NodeId) -> Fault {
    Fault::Lose(Frames {
        kind: FrameKind::Carry,
        from,
        to,
        first: 0,
        step: 2,
    })
}
