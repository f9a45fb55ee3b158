//! A job of one's own, which proposes a value and waits for its node's decision.
use anyhow::Result;
use cast::{Client, ClientJob, Item, List, NodeId, Notice, Submissions};
use std::alloc::{AllocError, Global};
use std::sync::Wait;

/// Proposes, and is done when it gets a decision. A job doesn't learn that a peer has ended, nor that the group is at
/// rest. If more nodes crash than are tolerated, no decision comes, and it waits until its calls are used up.
#[derive(Drop)]
pub struct Voter {
    proposals: Submissions,
    decided: Option<u64>,
}

impl ClientJob for Voter {
    fn turn<R: Wait>(&mut self, rt: &R, client: &mut Client) -> bool {
        let _ticket = self.proposals.submit_next(rt, client);
        if let Some(Notice::Decided(decision)) = client.next(rt) {
            self.decided = Some(decision.value);
        }
        self.decided.is_none()
    }
}

/// A voter at each of three nodes, which proposes its node's number plus ten in instance 0.
pub fn voters(alloc: Global) -> Result<Vec<(NodeId, Voter)>, AllocError> {
    let mut voters = Vec::new(alloc);
    for node in 0..3u8 {
        let value = u64::from(node) + 10;
        let mut items = List::new(alloc);
        items.push(Item::Propose { instance: 0, value })?;
        let proposals = Submissions::new(items);
        let decided = None;
        voters.push((NodeId(node), Voter { proposals, decided }))?;
    }
    Ok(voters)
}

/// Whether all have decided, on at most two values, which may differ from run to run.
pub fn show(rt: &impl Print, how: &str, voters: &[Voter]) -> Result<()> {
    let all = voters.iter().all(|voter| voter.decided.is_some());
    let least = voters.iter().filter_map(|voter| voter.decided).min();
    let most = voters.iter().filter_map(|voter| voter.decided).max();
    let others = voters
        .iter()
        .filter(|voter| voter.decided != least && voter.decided != most)
        .count();
    println!(rt;
        "{how}: all decided {all}, two values at most {}",
        others == 0
    )?;
    Ok(())
}
