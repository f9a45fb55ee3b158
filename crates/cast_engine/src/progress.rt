//! How far a run has come. Its engines count turns and deliveries, and others may look while they run. No contract
//! speaks of these counts, and no engine reads them.
ghost use Rattle.std.specs.Prelude.{◌≡◌, IfOk, vec_len};

use crate::gate::Gate;
use cast_message::MOST_NODES;
use crossbeam_utils::CachePadded;
use std::alloc::{AllocError, Global};
use std::sync::atomic::{AtomicU64, Ordering};
use std::sync::{Arc, Wait};

#[derive(Drop)]
struct Counts {
    turns: AtomicU64,
    deliveries: AtomicU64,
}

/// What the engines of a run have counted so far.
#[derive(Drop)]
pub struct Progress {
    // By node.
    counts: Vec<CachePadded<Counts>>,
    due: AtomicU64,
}

impl Progress {
    /// Counts of 0, for a run of any group. The run and those who watch it share them.
    pub fn for_group(alloc: Global) -> Result<Arc<Progress, Global>, AllocError> {
        let mut counts = Vec::new(alloc);
        for _node in 0..MOST_NODES {
            counts.push(CachePadded::new(Counts {
                turns: AtomicU64::new(0),
                deliveries: AtomicU64::new(0),
            }))?;
        }
        let due = AtomicU64::new(0);
        Ok(Arc::new(alloc, Progress { counts, due })?)
    }

    /// Sets how many deliveries the run can make.
    pub fn expect(&self, deliveries: u64) {
        self.due.store(deliveries, Ordering::Relaxed);
    }

    /// The number of deliveries that the run can make, or 0 while it is unknown.
    pub fn due(&self) -> u64 {
        self.due.load(Ordering::Relaxed)
    }

    /// The number of turns of all engines.
    pub fn turns(&self) -> u64 {
        let mut sum = 0u64;
        for counts in &self.counts {
            sum = sum.saturating_add(counts.turns.load(Ordering::Relaxed));
        }
        sum
    }

    /// The number of deliveries of all nodes.
    pub fn deliveries(&self) -> u64 {
        let mut sum = 0u64;
        for counts in &self.counts {
            sum = sum.saturating_add(counts.deliveries.load(Ordering::Relaxed));
        }
        sum
    }
}

/// A gate that lets every turn pass at once and counts it.
#[derive(Drop)]
pub struct CountingGate {
    progress: Arc<Progress, Global>,
    node: usize,
    turns: u64,
    deliveries: u64,
}

impl CountingGate {
    /// One gate for each node; all count in `progress`.
    pub fn for_nodes(
        alloc: Global,
        nodes: u64,
        progress: &Arc<Progress, Global>,
    ) -> Result<Vec<CountingGate>, AllocError>
        ensures { IfOk result (λ gates. vec_len gates ≡ nodes) }
    {
        let mut gates = Vec::new(alloc);
        for node in 0..nodes {
            let progress = Arc::try_clone(progress)?;
            gates.push(CountingGate {
                progress,
                node: node as usize,
                turns: 0,
                deliveries: 0,
            })?;
        }
        Ok(gates)
    }

    // No other gate writes these words, so a store is enough.
    fn tell(&self) {
        if let Some(counts) = self.progress.counts.get(self.node) {
            counts.turns.store(self.turns, Ordering::Relaxed);
            counts.deliveries.store(self.deliveries, Ordering::Relaxed);
        }
    }
}

impl Gate for CountingGate {
    fn pass<R: Wait>(&mut self, _rt: &R) {
        self.turns = self.turns.saturating_add(1);
        self.tell();
    }

    fn delivered(&mut self, count: u64) {
        self.deliveries = self.deliveries.saturating_add(count);
        self.tell();
    }
}
