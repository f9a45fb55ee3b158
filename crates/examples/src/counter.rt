//! A counter that each node keeps. Additions are broadcast, and each node sums what it delivers. A node may deliver
//! additions from different senders in another order than its peers, but the sum is the same.
use anyhow::Result;
use cast::{
    Follower, Followers, Item, List, Machine, Message, NodeId, Settings, data, no_faults,
    run_followers,
};
use std::alloc::{AllocError, Global};
use std::sync::Wait;
use std::thread::Threads;

/// The sum of the additions. An addition is an item of one byte; other items are ignored.
#[derive(Drop)]
struct Counter {
    sum: u64,
}

impl Machine for Counter {
    fn apply(&mut self, message: &Message) {
        if let Item::Data(payload) = &message.item {
            if let [by] = payload.as_slice() {
                self.sum = self.sum.saturating_add(u64::from(*by));
            }
        }
    }
}

// The item for this addition.
fn addition(alloc: Global, by: u8) -> Result<List<Item>, AllocError> {
    let mut items = List::new(alloc);
    items.push(data(alloc, &[by])?)?;
    Ok(items)
}

/// Three nodes in threads; each adds its number plus one.
pub fn count<R: Threads + Wait + Print + Copy + Send + 'static>(
    rt: R,
    alloc: Global,
) -> Result<()> {
    let config = Settings::of(3, 1).check()?;
    let mut followers = Followers::new(alloc);
    for node in 0..3u8 {
        let counter = Counter { sum: 0 };
        let follower = Follower::new(addition(alloc, node + 1)?, counter);
        followers.add(NodeId(node), follower.awaiting(3))?;
    }
    let run = run_followers(rt, alloc, config, &no_faults(alloc), followers)?;
    for (counter, client) in run.machines.iter().zip(run.clients.iter()) {
        println!(&rt; "node {}: {}", client.node.0, counter.sum)?;
    }
    Ok(())
}
