//! The stop board. Engines post on it that they are quiet or have ended, carriers that all was put, and jobs that they
//! have ended. No contract mentions it.
//!
//! An engine that owes nothing is quiet, and a frame's maker owes until the frame is acknowledged. So when all engines
//! are quiet, no frame under way can make one owe more. That fails for frames of an engine that crashed, or otherwise
//! ended before all were quiet. Such an engine counts as quiet only after its carrier has put all that it took. Each
//! engine that was quiet by then counts only after it has found its inbox empty again.
use crossbeam_utils::CachePadded;
use std::alloc::{AllocError, Global};
use std::sync::atomic::{AtomicBool, AtomicU64, Ordering};

/// What an engine last posted about its quiet. Two successive words are never the same.
#[derive(Clone, Copy, PartialEq, Eq)]
pub struct QuietWord(u64);

impl QuietWord {
    /// The word of an engine that has ended and owes nothing more.
    pub const ENDED: QuietWord = QuietWord(1);

    /// The word of an engine that may come to owe more.
    pub const BUSY: QuietWord = QuietWord(0);

    /// The word after this many changes between busy and quiet.
    pub fn new(changes: u64, quiet: bool) -> QuietWord {
        QuietWord(changes.wrapping_mul(2).wrapping_add(u64::from(quiet)))
    }

    pub fn is_quiet(self) -> bool {
        self.0 % 2 == 1
    }
}

#[derive(Drop)]
struct Signals {
    quiet: AtomicU64,
    ended: AtomicBool,
    // The engine has ended, and none of its frames under way makes another owe more.
    settled: AtomicBool,
    // The inbox may hold the last frames of an engine that has ended, and was not checked since.
    unread: AtomicBool,
    // How many jobs of its clients have not ended.
    jobs: AtomicU64,
}

/// What all engines have posted.
#[derive(Drop)]
pub struct Board {
    abandoned: AtomicBool,
    signals: Vec<CachePadded<Signals>>,
}

impl Board {
    /// A board for engines with these numbers of jobs.
    pub fn new(alloc: Global, jobs: &[u64]) -> Result<Board, AllocError> {
        let mut signals = Vec::new(alloc);
        for count in jobs {
            signals.push(CachePadded::new(Signals {
                quiet: AtomicU64::new(0),
                ended: AtomicBool::new(false),
                settled: AtomicBool::new(false),
                unread: AtomicBool::new(false),
                jobs: AtomicU64::new(*count),
            }))?;
        }
        Ok(Board {
            abandoned: AtomicBool::new(false),
            signals,
        })
    }

    /// Gives the run up: everything must end.
    pub fn abandon(&self) {
        self.abandoned.store(true, Ordering::SeqCst);
    }

    /// Whether the run was given up.
    pub fn is_abandoned(&self) -> bool {
        self.abandoned.load(Ordering::SeqCst)
    }

    pub fn len(&self) -> usize {
        self.signals.len()
    }

    /// Posts an engine's word.
    pub fn write(&self, node: usize, word: QuietWord) {
        if let Some(signals) = self.signals.get(node) {
            signals.quiet.store(word.0, Ordering::SeqCst);
        }
    }

    /// Reads an engine's word. An engine that has ended is quiet, but busy while its frames may be under way. One whose
    /// inbox may hold frames of an ended engine is busy too.
    pub fn read(&self, node: usize) -> QuietWord {
        let Some(signals) = self.signals.get(node) else {
            return QuietWord::ENDED;
        };
        if signals.ended.load(Ordering::SeqCst) {
            if signals.settled.load(Ordering::SeqCst) {
                QuietWord::ENDED
            } else {
                QuietWord::BUSY
            }
        } else if signals.unread.load(Ordering::SeqCst) {
            QuietWord::BUSY
        } else {
            QuietWord(signals.quiet.load(Ordering::SeqCst))
        }
    }

    /// Whether an engine has ended. Also true if the run was given up.
    pub fn has_ended(&self, node: usize) -> bool {
        match self.signals.get(node) {
            Some(signals) => signals.ended.load(Ordering::SeqCst) || self.is_abandoned(),
            None => true,
        }
    }

    /// Notes that an engine has ended, and whether all were quiet then.
    pub fn end(&self, node: usize, all_quiet: bool) {
        if let Some(signals) = self.signals.get(node) {
            signals.settled.store(all_quiet, Ordering::SeqCst);
            signals.ended.store(true, Ordering::SeqCst);
        }
    }

    /// Notes that an ended engine's carrier has put all that it took. All inboxes are marked unread first; only then
    /// does the engine count as quiet.
    pub fn settle(&self, node: usize) {
        let Some(own) = self.signals.get(node) else {
            return;
        };
        if own.settled.load(Ordering::SeqCst) {
            return;
        }
        for signals in self.signals.iter() {
            signals.unread.store(true, Ordering::SeqCst);
        }
        own.settled.store(true, Ordering::SeqCst);
    }

    /// Whether the engine's inbox may hold the last frames of an engine that ended after it last noted a check for
    /// them.
    pub fn is_unread(&self, node: usize) -> bool {
        match self.signals.get(node) {
            Some(signals) => signals.unread.load(Ordering::SeqCst),
            None => false,
        }
    }

    /// Notes that an engine is about to check its inbox for the last frames of ended engines.
    pub fn look(&self, node: usize) {
        if let Some(signals) = self.signals.get(node) {
            signals.unread.store(false, Ordering::SeqCst);
        }
    }

    /// Notes that a job of one of the engine's clients has ended.
    pub fn end_job(&self, node: usize) {
        if let Some(signals) = self.signals.get(node) {
            signals.jobs.fetch_sub(1, Ordering::SeqCst);
        }
    }

    /// Whether all jobs of the engine's clients have ended.
    pub fn has_no_job(&self, node: usize) -> bool {
        match self.signals.get(node) {
            Some(signals) => signals.jobs.load(Ordering::SeqCst) == 0,
            None => true,
        }
    }
}
